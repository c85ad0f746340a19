//! What the certificates say of resources (RFC 3779, RFC 8360 4.2).

pub mod extensions;
