//! Octets as text.

pub mod base64;
pub mod hex;
