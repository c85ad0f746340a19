//! Names as texts (RFC 4514).

ghost use Rattle.std.specs.Prelude.{◌≡◌, ◌++◌, take, drop, OnOk, IfOk};
ghost use Rattle.std.specs.List.{flat_map};
ghost use Rattle.rpki_der.specs.Front.{front_contents};
ghost use Rattle.rpki.specs.Name.{attribute_of};
ghost use Rattle.rpki_fields.specs.NameText.{attribute_name, is_special, octet_text, rest_text, string_text};
ghost use Rattle.rpki_fields.specs.NameText.{value_text, mark_text, marked_text, IsNameText};

use crate::identifier::push_identifier;
use crate::value::{hex_pair, push_digits};
use rpki::repository::x509::{AttributeView, NameOctets};
use std::alloc::{AllocError, Global};

/// What is after so many octets.
pub fn after(text: &[u8], count: usize) -> &[u8]
    ensures { result.now ≡ drop count text.now }
{
    if count <= text.len() {
        &text[count..]
    } else {
        &[]
    }
}

/// What is in front of what is after so many octets.
fn before(text: &[u8], count: usize) -> &[u8]
    ensures { result.now ≡ take count text.now }
{
    if count <= text.len() {
        &text[..count]
    } else {
        text
    }
}

/// Adds the name of an attribute's identifier.
fn push_attribute_name(text: &mut Vec<u8>, identifier: &[u8]) -> Result<(), AllocError>
    ensures { OnOk result (text.new.items ≡ text.old.items ++ attribute_name identifier.now) }
{
    if identifier == [85, 4, 3].as_slice() {
        text.extend_from_slice(b"CN")
    } else if identifier == [85, 4, 5].as_slice() {
        text.extend_from_slice(b"serialNumber")
    } else if identifier == [85, 4, 6].as_slice() {
        text.extend_from_slice(b"C")
    } else if identifier == [85, 4, 10].as_slice() {
        text.extend_from_slice(b"O")
    } else if identifier == [85, 4, 11].as_slice() {
        text.extend_from_slice(b"OU")
    } else {
        push_identifier(text, identifier)
    }
}

/// Whether the octet has a meaning in the string form of names.
fn is_special(octet: u8) -> bool
    ensures { result ≡ is_special octet }
{
    octet == b'"'
        || octet == b'#'
        || octet == b'+'
        || octet == b','
        || octet == b';'
        || octet == b'<'
        || octet == b'='
        || octet == b'>'
        || octet == b'\\'
}

/// Adds an octet of a string, the first or the last where it is at an edge.
fn push_octet(text: &mut Vec<u8>, octet: u8, edge: bool) -> Result<(), AllocError>
    ensures { OnOk result (text.new.items ≡ text.old.items ++ octet_text edge octet) }
{
    if is_special(octet) || (edge && octet == b' ') {
        text.extend_from_slice(&[b'\\', octet])?;
        return Ok(());
    }
    if octet < 32 || 126 < octet {
        let digits = hex_pair(octet);
        text.extend_from_slice(&[b'\\', digits[0], digits[1]])?;
        return Ok(());
    }
    text.push(octet)?;
    Ok(())
}

/// Adds octets of a string, which are all at an edge or all between.
fn push_octets(text: &mut Vec<u8>, octets: &[u8], edge: bool) -> Result<(), AllocError>
    ensures { OnOk result (text.new.items ≡ text.old.items ++ flat_map (octet_text edge) octets.now) }
{
    'octets: for octet in octets {
        push_octet(text, *octet, edge)?;
    }
    Ok(())
}

/// Adds the octets of a string after the first.
fn push_rest(text: &mut Vec<u8>, rest: &[u8]) -> Result<(), AllocError>
    ensures { OnOk result (text.new.items ≡ text.old.items ++ rest_text rest.now) }
{
    let between = rest.len().saturating_sub(1);
    push_octets(text, before(rest, between), false)?;
    push_octets(text, after(rest, between), true)
}

/// Adds a string.
fn push_string(text: &mut Vec<u8>, string: &[u8]) -> Result<(), AllocError>
    ensures { OnOk result (text.new.items ≡ text.old.items ++ string_text string.now) }
{
    push_octets(text, before(string, 1), true)?;
    push_rest(text, after(string, 1))
}

/// Adds what is in front of an attribute: a comma where it begins a relative distinguished name, else a plus sign.
fn push_mark(text: &mut Vec<u8>, begins: bool) -> Result<(), AllocError>
    ensures { OnOk result (text.new.items ≡ text.old.items ++ mark_text begins) }
{
    if begins {
        text.extend_from_slice(b", ")
    } else {
        text.extend_from_slice(b" + ")
    }
}

/// Adds the value of an attribute, whose contents these are.
fn push_value(text: &mut Vec<u8>, value: &[u8], contents: &[u8]) -> Result<(), AllocError>
    requires { contents.now ≡ front_contents value.now }
    ensures { OnOk result (text.new.items ≡ text.old.items ++ value_text value.now) }
{
    match value {
        [19 | 12 | 22, ..] => push_string(text, contents),
        _ => {
            text.push(b'#')?;
            push_digits(text, value)
        }
    }
}

/// Adds an attribute: after a comma where it begins a relative distinguished name, else after a plus sign.
fn push_attribute(text: &mut Vec<u8>, attribute: AttributeView<'_>) -> Result<(), AllocError>
    requires { attribute.contents.now ≡ front_contents attribute.value.now }
    ensures { OnOk result (text.new.items ≡ text.old.items ++ marked_text attribute.entry.begins
        (attribute_of attribute.entry.identifier.0.now attribute.entry.value.now)) }
{
    push_mark(text, attribute.begins)?;
    push_attribute_name(text, attribute.identifier.0)?;
    text.push(b'=')?;
    push_value(text, attribute.value, attribute.contents)
}

/// The text of a name.
///
/// Returns `AllocError` if allocation fails.
pub fn name_text(alloc: Global, name: &NameOctets) -> Result<Vec<u8>, AllocError>
    ensures { IfOk result (λ text. IsNameText name.now text.items) }
{
    let mut text = Vec::new(alloc);
    let mut rest = name.view().attributes();
    'attributes: while let Some(attribute) = rest.next_attribute() {
        push_attribute(&mut text, attribute)?;
    }
    // the first mark is left out
    let text = Vec::from_slice(alloc, after(text.as_slice(), 2))?;
    Ok(text)
}
