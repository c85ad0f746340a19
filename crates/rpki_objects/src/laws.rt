//! Laws of the definitions.

ghost use Rattle.std.specs.Prelude.{◌≡◌, ◌↔◌, IsTrue};
ghost use Rattle.rpki_objects.specs.declared.object_part.ObjectPart.{ObjectPart as WrongObject};
ghost use Rattle.rpki_objects.specs.EncodedObject.{BuiltObject, CanWriteObject, IsObjectReadBack, IsDecodedBack};

use crate::object_part::ObjectPart;
use crate::signed_object::SignedObject;
use bytes::Bytes;
use rpki::der::DecodeError;
use std::alloc::Global;

/// A signed object that is written is read as its parts.
pub fn written_objects_are_read()
    ensures { (x : BuiltObject) → CanWriteObject x → IsObjectReadBack x }
{}

/// The octets of a signed object that is written are decoded as its parts; the one error is an allocation failure.
pub fn objects_read_back(
    alloc: Global,
    bytes: Bytes,
    strict: bool,
) -> Result<SignedObject, DecodeError>
    ensures { (x : BuiltObject) → IsDecodedBack x strict bytes result }
{
    SignedObject::decode(alloc, bytes, strict)
}

/// Malformed parts are equal exactly where they are one.
pub fn equal_parts_are_one()
    ensures { (p q : WrongObject) → IsTrue (⟦<ObjectPart as PartialEq>⟧.eq p q) ↔ (p ≡ q) }
{}
