//! What is shown of a Ghostbusters record.

ghost use Rattle.std.specs.Prelude.{◌≡◌, ◌++◌, ◌∷◌, [], IfOk, OnOk, Ok, map};
ghost use Rattle.rpki_records.specs.Card.{found_card};
ghost use Rattle.rpki_records.specs.Folds.{unfolded};
ghost use Rattle.rpki_fields.specs.CardText.{IsCardSheet, card_parts, card_sheet, kind_fields, property_fields};
ghost use Rattle.rpki_fields.specs.CardText.{texts_if};

use crate::field::{Field, push_json};
use crate::rendering::push_text;
use crate::sheet::Sheet;
use crate::signed_text::signed_fields;
use crate::visible_text::{push_texts, push_visible};
use rpki_objects::SignedObject;
use rpki_records::{Card, PropertyKind, unfold};
use std::alloc::{AllocError, Global};

/// Adds the whole text.
fn push_card(fields: &mut Vec<Field>, text: &[u8]) -> Result<(), AllocError>
    ensures { OnOk result (fields.new.items ≡ fields.old.items ++ card_parts text.now ∷ []) }
{
    let alloc = *fields.allocator();
    let mut shown = Vec::new(alloc);
    push_visible(&mut shown, text)?;
    let mut json = Vec::new(alloc);
    push_text(&mut json, text)?;
    push_json(fields, b"vCard", shown.as_slice(), json.as_slice())
}

/// The values, each in one piece.
fn unfolded_values(alloc: Global, values: &[&[u8]]) -> Result<Vec<Vec<u8>>, AllocError>
    ensures { IfOk result (λ v. map (λ text. text.items) v.items
        ≡ map unfolded (map (λ value. value.now) values.now)) }
{
    let mut texts = Vec::new(alloc);
    'values: for value in values {
        let text = unfold(alloc, value)?;
        texts.push(text)?;
    }
    Ok(texts)
}

/// The octets of each text.
fn octets_of<'a>(alloc: Global, texts: &'a [Vec<u8>]) -> Result<Vec<&'a [u8]>, AllocError>
    ensures { IfOk result (λ v. map (λ octets. octets.now) v.items ≡ map (λ text. text.items) texts.now) }
{
    let mut all = Vec::new(alloc);
    'texts: for text in texts {
        all.push(text.as_slice())?;
    }
    Ok(all)
}

/// Adds a field of these texts, where there is one.
///
/// Returns `AllocError` if allocation fails.
pub fn push_texts_if(fields: &mut Vec<Field>, label: &[u8], all: &[&[u8]]) -> Result<(), AllocError>
    ensures { OnOk result (fields.new.items
        ≡ fields.old.items ++ texts_if label.now (map (λ each. each.now) all.now)) }
{
    if all.is_empty() {
        return Ok(());
    }
    push_texts(fields, label, all)
}

/// Adds a field of the values of the properties of this kind, where there is one.
fn push_kind(
    fields: &mut Vec<Field>,
    label: &[u8],
    found: Card<'_>,
    kind: PropertyKind,
) -> Result<(), AllocError>
    ensures { OnOk result (fields.new.items
        ≡ fields.old.items ++ kind_fields label.now kind (found_card found.entry)) }
{
    let alloc = *fields.allocator();
    let values = found.values(alloc, kind)?;
    let texts = unfolded_values(alloc, values.as_slice())?;
    let all = octets_of(alloc, texts.as_slice())?;
    push_texts_if(fields, label, all.as_slice())
}

/// The fields of the properties.
fn property_fields(alloc: Global, found: Card<'_>) -> Result<Vec<Field>, AllocError>
    ensures { IfOk result (λ fields. fields.items ≡ property_fields (found_card found.entry)) }
{
    let mut fields = Vec::new(alloc);
    push_kind(&mut fields, b"Name", found, PropertyKind::Name)?;
    push_kind(
        &mut fields,
        b"Organization",
        found,
        PropertyKind::Organization,
    )?;
    push_kind(&mut fields, b"Address", found, PropertyKind::Address)?;
    push_kind(&mut fields, b"Telephone", found, PropertyKind::Telephone)?;
    push_kind(&mut fields, b"Email", found, PropertyKind::Email)?;
    Ok(fields)
}

/// The sheet of a card of this text, with these fields of the object.
fn found_sheet(
    alloc: Global,
    fields: Vec<Field>,
    text: &[u8],
    found: Card<'_>,
) -> Result<Sheet, AllocError>
    ensures { IfOk result (λ s. s ≡ card_sheet fields.items text.now (Ok (found_card found.entry))) }
{
    let mut properties = property_fields(alloc, found)?;
    let mut fields = fields;
    push_card(&mut fields, text)?;
    fields.append(&mut properties)?;
    Ok(Sheet::plain(fields))
}

/// The sheet of a Ghostbusters record.
///
/// Returns `AllocError` if allocation fails.
pub fn card_sheet(alloc: Global, object: &SignedObject) -> Result<Sheet, AllocError>
    ensures { IfOk result (λ s. IsCardSheet object.now s) }
{
    let fields = signed_fields(alloc, b"gbr", b"Valid Since", b"Valid Until", object)?;
    let text = object.content().as_slice();
    match Card::read(text) {
        Ok(found) => found_sheet(alloc, fields, text, found),
        Err(_) => Ok(Sheet::plain(fields)),
    }
}
