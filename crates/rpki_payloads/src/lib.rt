//! Payloads of the RPKI, as validators hand them to routers: each once, in order, and their texts.
//!
//! [vrps_of] puts route origins in order, each once, and [latest_of] does so with their ends; [sort_pairs] and
//! [sort_keys] do so with providers and with keys of routers, and [vaps_of] puts the providers of a customer together.
//! [Form::text_of] makes a text of the payloads of several locators, and [metrics_text] one of their numbers.
//! [Route::text_of] says whether a route is valid by payloads, and which cover it (RFC 6811 2), and
//! [Route::changed_text] which local exceptions take such payloads away or add them.
#![tactic(auto)]

mod alone;
mod bird;
mod changed;
mod client;
mod conflict;
mod covered;
mod csv_lines;
mod customers;
mod exceptions;
mod exceptions_text;
mod filter_keys;
mod filters;
mod form;
mod json_form;
mod json_keys;
mod json_vaps;
mod key_filters;
pub mod laws;
mod line;
mod made;
mod members;
mod metrics;
mod openbgpd;
mod order;
mod payload_list;
mod payloads;
mod quoted;
mod route;
mod router_key;
mod shared;
mod stayrtr;
mod tally;
mod timed;
mod vap;
mod vrp;

pub use alone::{alone_text, only_in};
pub use conflict::{Conflict, Overlap, conflict_in};
pub use exceptions::{Exceptions, NamedExceptions, excepted};
pub use exceptions_text::{ExceptionsError, Member};
pub use filters::PrefixFilter;
pub use form::Form;
pub use key_filters::KeyFilter;
pub use made::vrp_count;
pub use metrics::metrics_text;
pub use order::{sort_vrps, united, united_pairs, vrps_of};
pub use payload_list::{ListError, listed_vrps};
pub use payloads::Payloads;
pub use route::{Route, RouteState};
pub use router_key::{RouterKey, push_router_keys, sort_keys};
pub use tally::{Reasons, Tally};
pub use timed::{TimedVrp, latest_of};
pub use vap::{CustomerProvider, Vap, push_pairs, sort_pairs, vaps_of};
pub use vrp::Vrp;
