//! What is shown of a signed object of any other content.

ghost use Rattle.std.specs.Prelude.{◌≡◌, IfOk};
ghost use Rattle.rpki_fields.specs.ContentText.{IsOtherSheet};
ghost use Rattle.rpki_fields.specs.IdentifierText.{identifier_text};

use crate::field::{push_field, push_number};
use crate::identifier::push_identifier;
use crate::sheet::Sheet;
use crate::signed_text::signed_fields;
use rpki_objects::SignedObject;
use std::alloc::{AllocError, Global};

/// An object identifier as a text.
fn identifier_text(alloc: Global, octets: &[u8]) -> Result<Vec<u8>, AllocError>
    ensures { IfOk result (λ text. text.items ≡ identifier_text octets.now) }
{
    let mut text = Vec::new(alloc);
    push_identifier(&mut text, octets)?;
    Ok(text)
}

/// The sheet of a signed object, by its type alone.
///
/// Returns `AllocError` if allocation fails.
pub fn other_sheet(alloc: Global, object: &SignedObject) -> Result<Sheet, AllocError>
    ensures { IfOk result (λ s. IsOtherSheet object.now s) }
{
    let identifier = identifier_text(alloc, object.content_type().0.as_slice())?;
    let mut fields = signed_fields(
        alloc,
        b"signed_object",
        b"Valid Since",
        b"Valid Until",
        object,
    )?;
    push_field(&mut fields, b"Content Type", identifier.as_slice())?;
    push_number(
        &mut fields,
        b"Content Size",
        object.content().as_slice().len() as u64,
    )?;
    Ok(Sheet::plain(fields))
}
