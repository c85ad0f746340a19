//! Resource certificates (RFC 5280 4.1, in the profiles of RFC 6487 and RFC 8209).
//!
//! `Cert::decode` reads one, and `tbs()` of it says what the extensions are. `inspect` holds it to a [Profile].
#![tactic(auto)]

mod cert;
mod extension;
mod keep;
pub mod laws;
mod profile;
mod read;
mod resource;
mod signed;
mod tbs;

pub use cert::Cert;
pub use extension::access_description::{AccessDescription, point_names};
pub use extension::accessors::is_identifier;
pub use extension::general_name::take_name as take_general_name;
pub use extension::key_usage::KeyUsage;
pub use extension::kind::ExtensionKind;
pub use extension::known_part::KnownPart;
pub use extension::known_view::KnownView;
pub use extension::list::find as find_extension;
pub use extension::policy::Overclaim;
pub use extension::source::are_understood;
pub use extension::table::ExtensionTable;
pub use profile::rule::CertRule;
pub use profile::{CheckError, Profile};
pub use read::cert_error::CertError;
pub use read::cert_part::CertPart;
pub use read::fields::{Keyed, Named, TbsView};
pub use read::view::CertView;
pub use resource::extensions::{are_own_addresses, are_own_numbers};
pub use signed::SignedOctets;
pub use tbs::TbsCert;
