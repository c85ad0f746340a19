//! Laws of equality: each function does nothing, and its contract is the law.

ghost use Rattle.std.specs.Prelude.{◌≡◌, ◌↔◌, List, ℕ, IsTrue};
ghost use denote.Bor.{Bor};
ghost use Rattle.rpki_der.specs.Error.{AreSame};
ghost use Rattle.rpki_der.specs.ErrorText.{text_of};
ghost use Rattle.rpki_der.specs.TagName.{TagName};
ghost use Rattle.rpki_der.specs.declared.error.ContentError.{ContentError as Malformed};
ghost use Rattle.rpki_der.specs.declared.error.DecodeError.{DecodeError as Refusal};
ghost use Rattle.rpki_der.specs.declared.integer.InvalidInteger.{InvalidInteger as NoInteger};
ghost use Rattle.rpki_der.specs.declared.oid.Oid.{Oid as Identifier};
ghost use Rattle.rpki_der.specs.declared.tag.Class.{Class as TagClass};
ghost use Rattle.rpki_der.specs.declared.tag.Header.{Header as TagAndLength};

use crate::error::{ContentError, DecodeError};
use crate::integer::InvalidInteger;
use crate::oid::Oid;
use crate::tag::{Class, Header, Tag};

/// Tags and headers are equal exactly where they are one; identifiers exactly where their octets are.
pub fn equal_values_are_one()
    ensures class { (x y : TagClass) → IsTrue (⟦<Class as PartialEq>⟧.eq x y) ↔ (x ≡ y) }
    ensures tag { (x y : TagName) → IsTrue (⟦<Tag as PartialEq>⟧.eq x y) ↔ (x ≡ y) }
    ensures header { (x y : TagAndLength) → IsTrue (⟦<Header as PartialEq>⟧.eq x y) ↔ (x ≡ y) }
    ensures identifier { (x y : Identifier (Bor (List ℕ)))
        → IsTrue (⟦<Oid<&'static [u8]> as PartialEq>⟧.eq x y) ↔ (x.0.now ≡ y.0.now) }
{}

/// Errors are equal exactly where they are of one kind, and have one text.
pub fn equal_errors_are_one()
    ensures integer { (d e : NoInteger) → IsTrue (⟦<InvalidInteger as PartialEq>⟧.eq d e) ↔ (d ≡ e) }
    ensures contents { (d e : Malformed) → IsTrue (⟦<ContentError as PartialEq>⟧.eq d e) ↔ (text_of d ≡ text_of e) }
    ensures decoding { (d e : Refusal) → IsTrue (⟦<DecodeError as PartialEq>⟧.eq d e) ↔ AreSame d e }
{}
