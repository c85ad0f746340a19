//! Readers of DER in place, whose contract is an equation: what a reader returns and leaves is a function of the
//! remaining octets.
//!
//! A reader takes a [Constructed](rpki_der::Constructed), and moves it past what it reads; an error leaves it where it
//! was. Readers that are made of these are proved by search, since their function is made of the same parts.
//!
//! `let mut contents = take_sequence(&mut cons)?; let number = take_u32(&mut contents)?; finish(contents)?;`
#![tactic(auto)]

pub mod laws;
mod leaf;
mod list;
mod malformed;
mod octets;
mod optional;
mod text;
mod value;

pub use leaf::{
    skip_oid_if, skip_u8_if, take_bits, take_bool, take_null, take_octet_array, take_octets,
    take_oid, take_u8, take_u32, take_u64, take_unsigned,
};
pub use list::{Step, fold};
pub use malformed::{Malformed, at_part};
pub use optional::{take_bool_default_false, take_directory_string, take_opt_null};
pub use text::{take_ia5, take_printable, take_utf8};
pub use value::{finish, has_tag, take_constructed_if, take_sequence, take_set};
