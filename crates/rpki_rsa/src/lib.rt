//! Signatures by RSA with PKCS #1 v1.5 padding and SHA-256 (RFC 8017 8.2.2).
//!
//! `Key::from_bits` makes a key ready, and `Key::verifies` holds a signature to it; [verifies] does both. A
//! [PreparingProvider] makes a key ready once for all that it verifies with it, and [WithKey] is one with such a key.
#![tactic(auto)]

mod encoding;
mod error;
mod key;
pub mod laws;
mod limbs;
mod limits;
mod modulus;
mod octets;
mod preparing_provider;
mod with_key;

pub use error::KeyError;
pub use key::{Key, verifies};
pub use limits::{LEAST_BITS, MOST_BITS};
pub use preparing_provider::PreparingProvider;
pub use with_key::WithKey;
