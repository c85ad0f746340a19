//! Laws of the definitions.

ghost use Rattle.std.specs.Prelude.{◌≡◌, ◌↔◌, ℕ, List, IsTrue};
ghost use Rattle.rpki_crl.specs.declared.crl_part.CrlPart.{CrlPart as WrongList};
ghost use Rattle.rpki_crl.specs.Crl.{ListParts};
ghost use Rattle.rpki_crl.specs.EncodedCrl.{IsListReadBack, IsShortCrl, IsCrlReadBack};

use crate::crl_part::CrlPart;

/// A revocation list that is written, signed, and put into signed data is read as its normal form.
pub fn written_lists_are_read()
    ensures { (x : ListParts) (value : List ℕ) → IsListReadBack x → IsShortCrl x value → IsCrlReadBack x value }
{}

/// Malformed parts are equal exactly where they are one.
pub fn equal_parts_are_one()
    ensures { (p q : WrongList) → IsTrue (⟦<CrlPart as PartialEq>⟧.eq p q) ↔ (p ≡ q) }
{}
