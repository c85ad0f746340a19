//! Providers of the crate `rpki` by the libraries `sha1`, `sha2` and `rpki_rsa`: what is verified by one is proved down
//! to the definitions of the digests and of the signatures.
//!
//! [RsaProvider] verifies what certificates and signed objects are signed with. A provider with signatures of its own
//! calls [Digests] for its digests.
#![tactic(auto)]

mod digests;
mod rsa_provider;

pub use digests::Digests;
pub use rsa_provider::RsaProvider;
