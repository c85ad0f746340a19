//! What repositories hold.

pub mod error;
pub mod x509;
