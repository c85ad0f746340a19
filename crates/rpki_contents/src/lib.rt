//! What signed objects of the RPKI contain: manifests (RFC 9286), route origin attestations (RFC 9582), and provider
//! attestations of autonomous systems (ASPA).
//!
//! The readers take a content alone, which [SignedObject](rpki_objects::SignedObject) hands out.
//!
//! [ManifestContent::decode] reads a manifest, and [ManifestContent::find] finds a file in it.
//! [RouteOriginAttestation::decode] reads a route origin attestation, [RouteOriginAttestation::origins] says what it
//! authorizes, and [RouteOriginAttestation::is_within] whether that is within resources.
//! [AsProviderAttestation::decode] reads an attestation of providers. [ManifestView], [RoaView] and [AspaView] read
//! them in place, without memory.
#![tactic(auto)]

mod addresses;
mod aspa;
mod aspa_encoder;
mod aspa_view;
mod coverage;
mod encode;
mod family_view;
mod file_and_hash;
mod file_name;
mod file_view;
mod files;
mod files_view;
pub mod laws;
mod manifest;
mod manifest_fields;
mod manifest_part;
mod manifest_view;
mod names;
mod roa;
mod roa_address;
mod roa_encoder;
mod roa_family;
mod roa_view;
mod route_origin;
mod short_form;

pub use aspa::AsProviderAttestation;
pub use aspa_encoder::{AspaEncoder, AspaVersion, NumbersEncoder, VersionFrame};
pub use aspa_view::{AspaPart, AspaView, ProviderCursor};
pub use encode::{FileNameContent, FileParts, FilesEncoder, ManifestEncoder};
pub use file_and_hash::FileAndHash;
pub use file_name::is_file_name;
pub use file_view::FileView;
pub use files_view::{FileCursor, FilesView};
pub use manifest::ManifestContent;
pub use manifest_part::ManifestPart;
pub use manifest_view::ManifestView;
pub use roa::RouteOriginAttestation;
pub use roa_address::RoaIpAddress;
pub use roa_encoder::{
    PrefixesEncoder, RoaAddressEncoder, RoaEncoder, RoaFamiliesEncoder, RoaFamilyEncoder,
};
pub use roa_view::{AddressCursor, RoaPart, RoaView};
pub use route_origin::{FriendlyRoaIpAddress, RouteOrigin, RouteOrigins};
pub use rpki_x509::MessageDigest;
