//! Texts that anyone may have written, as they are shown.

ghost use Rattle.std.specs.Prelude.{◌≡◌, ◌++◌, ◌∷◌, [], IfOk, OnOk, map};
ghost use Rattle.std.specs.List.{flat_map};
ghost use Rattle.rpki_fields.specs.RecordText.{json_texts, next_json, next_text, texts, texts_parts};
ghost use Rattle.rpki_fields.specs.RecordText.{visible, visible_octet};

use crate::field::{Field, push_json};
use crate::name::after;
use crate::rendering::push_text;
use crate::value::hex_pair;
use std::alloc::{AllocError, Global};

/// Adds an octet of a text.
fn push_visible_octet(text: &mut Vec<u8>, octet: u8) -> Result<(), AllocError>
    ensures { OnOk result (text.new.items ≡ text.old.items ++ visible_octet octet) }
{
    if octet < 32 || 126 < octet || octet == b'\\' {
        let digits = hex_pair(octet);
        text.extend_from_slice(&[b'\\', digits[0], digits[1]])?;
        return Ok(());
    }
    text.push(octet)?;
    Ok(())
}

/// Adds a text, where what is no printable character of ASCII, and a backslash, is a backslash and two digits.
pub fn push_visible(text: &mut Vec<u8>, octets: &[u8]) -> Result<(), AllocError>
    ensures { OnOk result (text.new.items ≡ text.old.items ++ visible octets.now) }
{
    'octets: for octet in octets {
        push_visible_octet(text, *octet)?;
    }
    Ok(())
}

/// Adds a text, after a comma.
fn push_next_text(text: &mut Vec<u8>, octets: &[u8]) -> Result<(), AllocError>
    ensures { OnOk result (text.new.items ≡ text.old.items ++ next_text octets.now) }
{
    text.extend_from_slice(b", ")?;
    push_visible(text, octets)
}

/// The texts, each after a comma.
fn next_texts(alloc: Global, all: &[&[u8]]) -> Result<Vec<u8>, AllocError>
    ensures { IfOk result (λ text. text.items ≡ flat_map next_text (map (λ each. each.now) all.now)) }
{
    let mut text = Vec::new(alloc);
    'all: for each in all {
        push_next_text(&mut text, each)?;
    }
    Ok(text)
}

/// The texts, with a comma between two of them.
fn texts(alloc: Global, all: &[&[u8]]) -> Result<Vec<u8>, AllocError>
    ensures { IfOk result (λ text. text.items ≡ texts (map (λ each. each.now) all.now)) }
{
    let text = next_texts(alloc, all)?;
    Vec::from_slice(alloc, after(text.as_slice(), 2))
}

/// Adds a text as a string of JSON, after a comma.
fn push_next_json(text: &mut Vec<u8>, octets: &[u8]) -> Result<(), AllocError>
    ensures { OnOk result (text.new.items ≡ text.old.items ++ next_json octets.now) }
{
    text.extend_from_slice(b",")?;
    push_text(text, octets)
}

/// The texts as strings of JSON, each after a comma.
fn next_jsons(alloc: Global, all: &[&[u8]]) -> Result<Vec<u8>, AllocError>
    ensures { IfOk result (λ text. text.items ≡ flat_map next_json (map (λ each. each.now) all.now)) }
{
    let mut text = Vec::new(alloc);
    'all: for each in all {
        push_next_json(&mut text, each)?;
    }
    Ok(text)
}

/// The texts as an array of JSON.
fn json_texts(alloc: Global, all: &[&[u8]]) -> Result<Vec<u8>, AllocError>
    ensures { IfOk result (λ text. text.items ≡ json_texts (map (λ each. each.now) all.now)) }
{
    let strings = next_jsons(alloc, all)?;
    let mut text = Vec::from_slice(alloc, b"[")?;
    text.extend_from_slice(after(strings.as_slice(), 1))?;
    text.extend_from_slice(b"]")?;
    Ok(text)
}

/// Adds a field of these texts, which are an array in JSON.
///
/// Returns `AllocError` if allocation fails.
pub fn push_texts(fields: &mut Vec<Field>, label: &[u8], all: &[&[u8]]) -> Result<(), AllocError>
    ensures { OnOk result (fields.new.items
        ≡ fields.old.items ++ texts_parts label.now (map (λ each. each.now) all.now) ∷ []) }
{
    let alloc = *fields.allocator();
    let shown = texts(alloc, all)?;
    let json = json_texts(alloc, all)?;
    push_json(fields, label, shown.as_slice(), json.as_slice())
}
