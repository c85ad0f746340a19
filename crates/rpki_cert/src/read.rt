//! Reading certificates in place: a pass over the octets, without memory (RFC 5280 4.1).

pub mod cert_error;
pub mod cert_part;
pub mod extension_list;
pub mod fields;
pub mod part;
pub mod version;
pub mod view;
