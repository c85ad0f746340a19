//! The extensions of certificates, and what each says (RFC 5280 4.2, RFC 6487 4.8).

pub mod access_description;
pub mod access_information;
pub mod access_method;
pub mod access_rule;
pub mod access_view;
pub mod accessors;
pub mod contents;
pub mod general_name;
pub mod key_usage;
pub mod kind;
pub mod known_part;
pub mod known_view;
pub mod list;
pub mod policy;
pub mod purposes;
pub mod source;
pub mod table;
pub mod uris;
pub mod values;
