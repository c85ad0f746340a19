//! The basics of the resource public key infrastructure: algorithms, keys, signed data and names of X.509.
//!
//! `SignedData::decode` reads signed data, and `verify_signature` asks a [crypto::Provider], which the caller brings,
//! whether a key has signed it. `crates/rpki_examples` verifies signed data with a provider and an algorithm type of
//! its own; docs/CALLING.md explains it.
#![tactic(auto)]

pub mod crypto;
pub mod laws;
pub mod oid;
pub mod repository;

pub use rpki_der as der;
pub use rpki_text::{uri, util};
