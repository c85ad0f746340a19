//! The octets of objects, as hexadecimal digits.

pub mod attributes;
pub mod authority;
pub mod manifests;
pub mod origins;
pub mod providers;
