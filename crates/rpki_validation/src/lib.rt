//! Validation of a repository of the RPKI: from trust anchors down to payloads (RFC 6480, RFC 6487 7, RFC 9286 6).
//!
//! The functions are pure: a [Snapshot] is asked for octets, and the moment is handed in.
#![tactic(auto)]

mod anchor;
mod issued;
pub mod laws;
mod list_name;
mod looked;
mod met;
mod named;
mod outcome;
mod payload;
mod point;
mod publication;
mod reason;
mod router;
mod snapshot;
mod stop;
mod visit;
mod waiting;
mod walk;

pub use anchor::anchor_of;
pub use issued::{authority_of, cert_in, is_authority, origins_in, providers_in, router_of};
pub use outcome::{Outcome, Rejection};
pub use payload::Payload;
pub use point::{files_of, verify_publication};
pub use publication::Publication;
pub use reason::Reason;
pub use router::RouterCert;
pub use snapshot::Snapshot;
pub use stop::Stop;
pub use walk::validate;
