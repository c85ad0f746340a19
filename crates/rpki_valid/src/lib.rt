//! What is valid at a moment: certificates, revocation lists and signed objects, up to a trust anchor (RFC 5280 6.1,
//! 6.3.3, RFC 6487 7.2, RFC 6488 3).
//!
//! [ResourceCert::verify_ta] makes a [ResourceCert] of a trust anchor, which has the resources that its path gives it.
//! [ResourceCert::crl] makes a [CurrentCrl] of its revocation list, which verifies what the authority has issued:
//! [CurrentCrl::verify_ca] the authorities below it, and [CurrentCrl::process_manifest] and its like all that a
//! validator has to of a signed object. What needs no authority is tested by functions.
#![tactic(auto)]

mod aspa;
mod current_crl;
pub mod laws;
mod manifest;
mod object_resources;
mod object_verified;
mod resource;
mod resource_cert;
mod roa;
mod staleness;
mod terms;
mod verify;

pub use aspa::verify_own_aspa;
pub use current_crl::CurrentCrl;
pub use manifest::{verify_file, verify_own_manifest, verify_time};
pub use object_verified::verify_object_signature;
pub use resource::claim::settle_anchor;
pub use resource::set::ResourceSet;
pub use resource_cert::ResourceCert;
pub use roa::verify_own_roa;
pub use staleness::Staleness;
pub use terms::Terms;
pub use verify::{unverified, verify_issued, verify_period, verify_signature};
