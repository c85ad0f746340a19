//! What certificates, revocation lists and signed objects share, read in place: one value, a name, signed data, and the
//! identifier of the issuer's key (RFC 5280 4.1, 5.1).
#![tactic(auto)]

mod authority;
mod frame;
pub mod laws;
mod message_digest;
mod name;
mod nested;
mod short;
mod signed;
mod signed_parts;
mod value;

pub use authority::take_authority;
pub use frame::ContextZeroFrame;
pub use message_digest::MessageDigest;
pub use name::take_name;
pub use nested::{are_values, is_value, take_headed, value_fault};
pub use short::short_value;
pub use signed::{is_same, take_signed};
pub use signed_parts::{Parts, SignedError, SignedPart, read_parts};
pub use value::{are_same, inside, skip_primitive};
