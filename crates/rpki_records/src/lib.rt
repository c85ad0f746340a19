//! What more signed objects of the RPKI contain: signed checklists (RFC 9323), trust anchor keys (RFC 9691) and the
//! vCards of Ghostbusters records (RFC 6493).
//!
//! The readers take a content alone, which [SignedObject](rpki_objects::SignedObject) hands out, and read it in place:
//! [Checklist::read], [TakView::read] and [Card::read].
#![tactic(auto)]

mod anchor_key;
mod card;
mod card_octets;
mod card_property;
mod card_values;
mod checklist;
mod entries;
mod folds;
pub mod identifier;
pub mod laws;
mod listed_digest;
mod resources;
mod tak;

pub use anchor_key::{AnchorKey, CommentCursor, UriCursor};
pub use card::{Card, CardPart, PropertyCursor};
pub use card_property::{CardProperty, PropertyKind};
pub use checklist::{Checklist, ChecklistPart, ListedDigestCursor};
pub use folds::unfold;
pub use listed_digest::ListedDigest;
pub use resources::ResourceBlock;
pub use tak::{TakPart, TakView};
