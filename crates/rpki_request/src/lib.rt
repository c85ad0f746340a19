//! Requests for the certificates of authorities (RFC 6487 6, RFC 2986): [Csr::decode] reads one, and
//! [Csr::verify_signature] says whether the key that it names has signed it.
#![tactic(auto)]

mod access;
mod asked;
mod csr;
mod extensions;
mod info;

pub use asked::Asked;
pub use csr::Csr;
pub use info::RequestInfo;
