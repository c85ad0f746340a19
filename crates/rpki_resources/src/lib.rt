//! Resources of the RPKI: blocks of IP addresses and of AS numbers (RFC 3779).
//!
//! `IpResources::decode` and `AsResources::decode` read the contents of the two extensions of certificates in exactly
//! their canonical form. What they return is a set of numbers: `encompasses` says whether one is a part of another.
#![tactic(auto)]

mod address;
mod as_number;
mod as_read;
mod as_text;
mod block;
mod block_list;
mod blocks;
mod canonical;
mod choice;
mod choice_reading;
mod choice_view;
mod compared;
mod difference;
mod encode;
pub mod equal_laws;
mod family;
mod frames;
mod ip_read;
mod ip_reading;
mod ip_text;
mod ip_view;
mod kind;
pub mod laws;
mod list_read;
mod list_text;
mod merge;
mod owned;
mod prefix;
mod resources;
mod set;
mod settlement;
mod union;
mod view;

pub use address::Address;
pub use as_number::take_as_number;
pub use as_read::{ParseAsBlockError, ParseAsnError};
pub use as_text::{AsBlock, AsRange, Asn};
pub use block::Block;
pub use blocks::{AsBlocks, Blocks, IpBlocks};
pub use choice::ResourcesChoice;
pub use choice_reading::take_as_resources;
pub use choice_view::ChoiceView;
pub use compared::{as_resources_encompass, ip_resources_encompass};
pub use encode::{
    AddressBits, AddressEncoder, AsNumbersFrame, AsResourcesEncoder, BlockEncoder, BlocksEncoder,
    ChoiceEncoder, Either, FamilyEncoder, IpResourcesEncoder, OneOrTwo, encode_block,
};
pub use family::AddressFamily;
pub use ip_read::{ParseIpBlockError, ParsePrefixError};
pub use ip_reading::{take_family, take_ip_resources};
pub use ip_text::{AddressRange, IpBlock, Prefix};
pub use ip_view::IpResourcesView;
pub use kind::ResourceKind;
pub use list_read::ParseBlocksError;
pub use list_text::{BlocksText, ChoiceText};
pub use resources::{AsResources, IpResources};
pub use settlement::SettleError;
pub use view::{BlockCursor, BlocksView};
