//! What the certificates of a path are checked against.

use rpki::crypto::PublicKey;
use rpki_objects::Strictness;

/// What all certificates of a path are checked against.
#[derive(Clone, Copy, Drop)]
pub struct Terms<'p> {
    /// The key of the trust anchor, which a locator names (RFC 8630 2).
    pub key: &'p PublicKey,
    /// Which rules are asked strictly: of names, by each certificate's profile; of objects, by their readers' callers.
    pub strictness: Strictness,
    /// How many authorities there are at most below the trust anchor.
    pub deepest: u32,
}
