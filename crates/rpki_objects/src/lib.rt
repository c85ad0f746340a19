//! The signed objects of the RPKI (RFC 5652, in the profile of RFC 6488).
//!
//! [SignedObject::decode] reads a signed object; [SignedObjectView::read] says where its parts are, without memory.
//! [Manifest], [Roa] and [Aspa] are the signed objects of one type each, and [Strictness] is which rules are asked
//! strictly.
#![tactic(auto)]

mod aspa;
mod content_view;
mod encapsulated;
mod encode;
pub mod laws;
mod manifest;
mod object_part;
mod roa;
mod signed_data;
mod signed_object;
mod signed_object_view;
mod signer_info;
mod signer_view;
mod strictness;

pub use aspa::Aspa;
pub use content_view::ContentView;
pub use encapsulated::EncapsulatedContent;
pub use encode::{
    DataContents, SignedObjectBuilder, SignedObjectEncoder, SignedObjectParts, SignerContents,
};
pub use manifest::Manifest;
pub use object_part::ObjectPart;
pub use roa::Roa;
pub use rpki_attributes::{
    AttributeView, AttributesBuilder, KnownAttributes, MessageEncoder, SignedAttrs,
    SignedAttrsEncoder, SignedAttrsView,
};
pub use rpki_x509::MessageDigest;
pub use signed_object::SignedObject;
pub use signed_object_view::{SignedObjectView, SignerCertView};
pub use signer_info::SignerInfo;
pub use signer_view::SignerView;
pub use strictness::Strictness;
