//! The attributes that the signer of a signed object signs (RFC 5652 5.3, 11, in the profile of RFC 6488 2.1.6.4).
//!
//! [SignedAttrs::take_from] reads and keeps them, [SignedAttrsView::take_from] says what they are without memory, and
//! [AttributesBuilder] writes them.
#![tactic(auto)]

mod attribute;
mod encode;
mod fault;
mod known_attributes;
pub mod laws;
mod signed_attrs;
mod signed_attrs_view;

pub use attribute::AttributeView;
pub use encode::{AttributesBuilder, MessageEncoder, SignedAttrsEncoder};
pub use fault::attributes_fault;
pub use known_attributes::KnownAttributes;
pub use signed_attrs::SignedAttrs;
pub use signed_attrs_view::SignedAttrsView;
