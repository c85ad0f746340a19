//! Laws of what is shown: each function does nothing, and its contract is the law.

ghost use Rattle.std.specs.Prelude.{◌≡◌, ◌↔◌, ℕ, List, IsTrue};
ghost use Rattle.rpki_fields.specs.AtMostOne.{AtMostOne};
ghost use Rattle.rpki_fields.specs.ObjectType.{kind_of};
ghost use Rattle.rpki_fields.specs.Object.{IsOf};
ghost use Rattle.rpki_fields.specs.LocatorText.{IsSheetOfLocator};
ghost use Rattle.rpki_fields.specs.ObjectText.{IsSheet};
ghost use Rattle.rpki_fields.specs.declared.object.Object.{Object};
ghost use Rattle.rpki_fields.specs.declared.object_type.ObjectType.{ObjectType as ToldKind};
ghost use Rattle.rpki_fields.specs.declared.part.Part.{Part as MalformedPart};
ghost use Rattle.rpki_fields.specs.declared.rendering.Form.{Form as AskedForm};

use crate::object_type::ObjectType;
use crate::part::Part;
use crate::rendering::Form;

/// Octets are one object at most, and an object has one sheet.
pub fn one_sheet()
    ensures object { (octets : List ℕ) → AtMostOne (IsOf (kind_of octets) octets) }
    ensures sheet { (octets : List ℕ) (x : Object) → AtMostOne (IsSheet octets x) }
{}

/// A text is one trust anchor locator at most, which has one sheet under each name.
pub fn one_locator_sheet()
    ensures { (name text : List ℕ) → AtMostOne (IsSheetOfLocator name text) }
{}

/// Kinds, forms and places are equal exactly where they are one.
pub fn equal_kinds_are_one()
    ensures kind { (p q : ToldKind) → IsTrue (⟦<ObjectType as PartialEq>⟧.eq p q) ↔ (p ≡ q) }
    ensures place { (p q : MalformedPart) → IsTrue (⟦<Part as PartialEq>⟧.eq p q) ↔ (p ≡ q) }
    ensures form { (p q : AskedForm) → IsTrue (⟦<Form as PartialEq>⟧.eq p q) ↔ (p ≡ q) }
{}
