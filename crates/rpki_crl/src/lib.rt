//! Revocation lists (RFC 5280 5, in the profile of RFC 6487 5).
//!
//! [Crl::decode] reads a list, and [Crl::contains] tells whether a serial number is on it. [CrlView::read] says where
//! the parts are, without memory. Nothing of it is verified: whose list it is, and whether it is in force.
#![tactic(auto)]

mod crl;
mod crl_entry;
mod crl_extensions;
mod crl_part;
mod crl_view;
mod encode;
mod entries;
pub mod laws;
mod list_view;
mod short_entry;
mod tbs_cert_list;

pub use crl::Crl;
pub use crl_entry::{CrlEntry, CrlEntryEncoder};
pub use crl_extensions::CrlExtensions;
pub use crl_part::CrlPart;
pub use crl_view::CrlView;
pub use encode::{CrlExtensionsEncoder, TbsCertListEncoder};
pub use entries::entries_contain;
pub use list_view::TbsCertListView;
pub use tbs_cert_list::TbsCertList;
