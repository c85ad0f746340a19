//! The resources of certificates, down a path (RFC 3779, RFC 6487 7.2, RFC 8360 4.2).

pub mod claim;
pub mod set;
