//! Laws of the definitions.

ghost use Rattle.std.specs.Prelude.{◌≡◌, ◌↔◌, ℕ, List, IsTrue};

use crate::message_digest::MessageDigest;

/// Digests are equal exactly where their octets are.
pub fn equal_digests_are_one()
    ensures { (x y : List ℕ) → IsTrue (⟦<MessageDigest as PartialEq>⟧.eq x y) ↔ (x ≡ y) }
{}
