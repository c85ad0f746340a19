//! Encoders: resources as they are written (RFC 3779 2.2.3, 3.2.3), each in its only form.

mod address;
mod as_number;
mod block;
mod blocks;
mod either;
mod number;
mod resources;
mod stripped;

pub use address::{AddressBits, AddressEncoder};
pub use block::{BlockEncoder, OneOrTwo, encode_block};
pub use blocks::BlocksEncoder;
pub use either::Either;
pub(crate) use resources::are_blocks_of;
pub use resources::{
    AsNumbersFrame, AsResourcesEncoder, ChoiceEncoder, FamilyEncoder, IpResourcesEncoder,
};
