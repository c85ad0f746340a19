//! What an authority issues, looked at before it is handed out. Each call takes what is to be signed and a signature,
//! as the second step of [rpki_issue] does, reads again what that makes, and verifies it as a validator does (RFC 6487
//! 7.2, RFC 6488 3, RFC 9286 5.1, RFC 9582 5): so what no validator would take isn't handed out.
//!
//! [sign_roa] and its like check an object against the resources that its certificate lists, and need no issuer;
//! [issue_roa] and its like verify it by the issuer's list that counts, up to the trust anchor. [issue_authority] does
//! so for the certificate of an authority, [issue_router] for that of a router, [issue_list] for a revocation list, and
//! [issue_anchor] for a trust anchor, which nothing is above.
#![tactic(auto)]

mod aspa;
mod cert;
mod error;
mod list;
mod manifest;
mod object;
mod read;
mod roa;

pub use aspa::{issue_aspa, sign_aspa};
pub use cert::{issue_anchor, issue_authority, issue_router};
pub use error::CheckError;
pub use list::issue_list;
pub use manifest::{issue_manifest, sign_manifest};
pub use roa::{issue_roa, sign_roa};
