//! The two renderings of a sheet: lines, and an object of JSON.

ghost use Rattle.std.specs.Prelude.{◌≡◌, ◌++◌, OnOk, IfOk, string_bytes};
ghost use Rattle.std.specs.List.{flat_map};
ghost use Rattle.std.specs.Option.{option_map};
ghost use Rattle.rpki_fields.specs.Rendering.{field_line, lines, item_field, item_line, item_lines, listing_lines};
ghost use Rattle.rpki_fields.specs.Rendering.{sheet_lines, json_text, name_octet, member_name, json_value, member};
ghost use Rattle.rpki_fields.specs.Rendering.{next_member, members, next_item, array_member, listing_member, object};
ghost use Rattle.rpki_fields.specs.Rendering.{rendering, json_or};

use crate::field::Field;
use crate::name::after;
use crate::sheet::{Item, Listing, Sheet};
use serde_json::Value;
use std::alloc::{AllocError, Global};

/// How objects are printed.
#[derive(Clone, Copy, Debug, PartialEq, Eq)]
pub enum Form {
    /// A line for each field, and a line for each item.
    Text,
    /// An object of JSON, with a member for each field, named by its label in lower case, and an array of objects for
    /// the items (RFC 8259).
    Json,
}

/// Adds a field on a line.
fn push_line(text: &mut Vec<u8>, field: &Field) -> Result<(), AllocError>
    ensures { OnOk result (text.new.items ≡ text.old.items ++ field_line field.now) }
{
    text.extend_from_slice(field.label())?;
    text.extend_from_slice(b": ")?;
    text.extend_from_slice(field.value())?;
    text.push(b'\n')?;
    Ok(())
}

/// The fields, each on a line.
fn lines(alloc: Global, fields: &[Field]) -> Result<Vec<u8>, AllocError>
    ensures { IfOk result (λ text. text.items ≡ lines fields.now) }
{
    let mut text = Vec::new(alloc);
    'fields: for field in fields {
        push_line(&mut text, field)?;
    }
    Ok(text)
}

/// Adds a field of an item, after a comma.
fn push_item_field(text: &mut Vec<u8>, field: &Field) -> Result<(), AllocError>
    ensures { OnOk result (text.new.items ≡ text.old.items ++ item_field field.now) }
{
    text.extend_from_slice(b", ")?;
    text.extend_from_slice(field.label())?;
    text.push(b' ')?;
    text.extend_from_slice(field.value())
}

/// The fields of an item, each after a comma.
fn item_fields(alloc: Global, fields: &[Field]) -> Result<Vec<u8>, AllocError>
    ensures { IfOk result (λ text. text.items ≡ flat_map item_field fields.now) }
{
    let mut text = Vec::new(alloc);
    'fields: for field in fields {
        push_item_field(&mut text, field)?;
    }
    Ok(text)
}

/// Adds an item on a line, after the label of the list.
fn push_item_line(text: &mut Vec<u8>, label: &[u8], item: &Item) -> Result<(), AllocError>
    ensures { OnOk result (text.new.items ≡ text.old.items ++ item_line label.now item.now) }
{
    let fields = item_fields(*text.allocator(), item.fields())?;
    text.extend_from_slice(label)?;
    text.extend_from_slice(b": ")?;
    text.extend_from_slice(after(fields.as_slice(), 2))?;
    text.push(b'\n')?;
    Ok(())
}

/// Adds the items, each on a line.
fn push_item_lines(text: &mut Vec<u8>, label: &[u8], items: &[Item]) -> Result<(), AllocError>
    ensures { OnOk result (text.new.items ≡ text.old.items ++ item_lines label.now items.now) }
{
    'items: for item in items {
        push_item_line(text, label, item)?;
    }
    Ok(())
}

/// Adds the items of a list, where lines have them.
fn push_listing_lines(text: &mut Vec<u8>, listing: &Listing) -> Result<(), AllocError>
    ensures { OnOk result (text.new.items ≡ text.old.items ++ listing_lines listing.now) }
{
    if listing.is_in_lines() {
        push_item_lines(text, listing.label(), listing.items())
    } else {
        Ok(())
    }
}

/// Adds the items of each list.
fn push_listings_lines(text: &mut Vec<u8>, listings: &[Listing]) -> Result<(), AllocError>
    ensures { OnOk result (text.new.items ≡ text.old.items ++ flat_map listing_lines listings.now) }
{
    'listings: for listing in listings {
        push_listing_lines(text, listing)?;
    }
    Ok(())
}

/// The sheet as lines.
fn sheet_lines(alloc: Global, sheet: &Sheet) -> Result<Vec<u8>, AllocError>
    ensures { IfOk result (λ text. text.items ≡ sheet_lines sheet.now) }
{
    let mut text = lines(alloc, sheet.fields())?;
    push_listings_lines(&mut text, sheet.listings())?;
    Ok(text)
}

/// A text as a string of JSON. What is not UTF-8 is replaced.
fn json_text(alloc: Global, text: &[u8]) -> Result<String, AllocError>
    ensures { IfOk result (λ json. string_bytes json ≡ json_text text.now) }
{
    let text = String::from_utf8_lossy(alloc, text)?;
    Value::String(text).to_string(alloc)
}

/// Adds a text as a string of JSON, in quotation marks (RFC 8259 7). What is not UTF-8 is replaced.
pub fn push_text(text: &mut Vec<u8>, value: &[u8]) -> Result<(), AllocError>
    ensures { OnOk result (text.new.items ≡ text.old.items ++ json_text value.now) }
{
    let json = json_text(*text.allocator(), value)?;
    text.extend_from_slice(json.as_bytes())
}

/// An octet of a label, as it is in the name of a member.
fn name_octet(octet: u8) -> u8
    ensures { result ≡ name_octet octet }
{
    if octet == b' ' || octet == b'-' {
        return b'_';
    }
    octet.to_ascii_lowercase()
}

/// The name of a field's member: its label in lower case, a word.
fn member_name(alloc: Global, label: &[u8]) -> Result<Vec<u8>, AllocError>
    ensures { IfOk result (λ name. name.items ≡ member_name label.now) }
{
    label.iter().map(|octet| name_octet(*octet)).collect(alloc)
}

/// Adds a value: this text of JSON, if there is one, else a string.
fn push_json_or(text: &mut Vec<u8>, json: &Option<Vec<u8>>, value: &[u8]) -> Result<(), AllocError>
    ensures { OnOk result (text.new.items
        ≡ text.old.items ++ json_or (option_map (λ v. v.items) json.now) value.now) }
{
    match json {
        Some(json) => text.extend_from_slice(json.as_slice()),
        None => push_text(text, value),
    }
}

/// Adds the value of a field: what JSON has otherwise as it is, any other as a string.
fn push_value(text: &mut Vec<u8>, field: &Field) -> Result<(), AllocError>
    ensures { OnOk result (text.new.items ≡ text.old.items ++ json_value field.now) }
{
    push_json_or(text, field.json(), field.value())
}

/// Adds a field as a member of an object.
fn push_member(text: &mut Vec<u8>, field: &Field) -> Result<(), AllocError>
    ensures { OnOk result (text.new.items ≡ text.old.items ++ member field.now) }
{
    let name = member_name(*text.allocator(), field.label())?;
    push_text(text, name.as_slice())?;
    text.push(b':')?;
    push_value(text, field)
}

/// Adds a field as a member after another one.
fn push_next_member(text: &mut Vec<u8>, field: &Field) -> Result<(), AllocError>
    ensures { OnOk result (text.new.items ≡ text.old.items ++ next_member field.now) }
{
    text.push(b',')?;
    push_member(text, field)
}

/// Adds fields as members, each after a comma.
fn push_next_members(text: &mut Vec<u8>, fields: &[Field]) -> Result<(), AllocError>
    ensures { OnOk result (text.new.items ≡ text.old.items ++ flat_map next_member fields.now) }
{
    'fields: for field in fields {
        push_next_member(text, field)?;
    }
    Ok(())
}

/// Adds fields as members, with a comma between two of them.
fn push_members(text: &mut Vec<u8>, fields: &[Field]) -> Result<(), AllocError>
    ensures { OnOk result (text.new.items ≡ text.old.items ++ members fields.now) }
{
    match fields.split_first() {
        Some((first, rest)) => {
            push_member(text, first)?;
            push_next_members(text, rest)
        }
        None => Ok(()),
    }
}

/// Adds an item as an object, after a comma.
fn push_next_item(text: &mut Vec<u8>, item: &Item) -> Result<(), AllocError>
    ensures { OnOk result (text.new.items ≡ text.old.items ++ next_item item.now) }
{
    text.extend_from_slice(b",{")?;
    push_members(text, item.fields())?;
    text.extend_from_slice(b"}")
}

/// The items as objects, each after a comma.
fn next_items(alloc: Global, items: &[Item]) -> Result<Vec<u8>, AllocError>
    ensures { IfOk result (λ text. text.items ≡ flat_map next_item items.now) }
{
    let mut text = Vec::new(alloc);
    'items: for item in items {
        push_next_item(&mut text, item)?;
    }
    Ok(text)
}

/// Adds the items as an array, as a member after another one.
fn push_array(text: &mut Vec<u8>, label: &[u8], items: &[Item]) -> Result<(), AllocError>
    ensures { OnOk result (text.new.items ≡ text.old.items ++ array_member label.now items.now) }
{
    let name = member_name(*text.allocator(), label)?;
    let items = next_items(*text.allocator(), items)?;
    text.extend_from_slice(b",")?;
    push_text(text, name.as_slice())?;
    text.extend_from_slice(b":[")?;
    text.extend_from_slice(after(items.as_slice(), 1))?;
    text.extend_from_slice(b"]")
}

/// Adds the items of a list as a member after another one.
fn push_listing(text: &mut Vec<u8>, listing: &Listing) -> Result<(), AllocError>
    ensures { OnOk result (text.new.items ≡ text.old.items ++ listing_member listing.now) }
{
    push_array(text, listing.label(), listing.items())
}

/// Adds the items of each list as a member after another one.
fn push_listings(text: &mut Vec<u8>, listings: &[Listing]) -> Result<(), AllocError>
    ensures { OnOk result (text.new.items ≡ text.old.items ++ flat_map listing_member listings.now) }
{
    'listings: for listing in listings {
        push_listing(text, listing)?;
    }
    Ok(())
}

/// The sheet as an object on a line.
fn object(alloc: Global, sheet: &Sheet) -> Result<Vec<u8>, AllocError>
    ensures { IfOk result (λ text. text.items ≡ object sheet.now) }
{
    let mut text = Vec::from_slice(alloc, b"{")?;
    push_members(&mut text, sheet.fields())?;
    push_listings(&mut text, sheet.listings())?;
    text.extend_from_slice(b"}\n")?;
    Ok(text)
}

impl Form {
    /// The text of the sheet in this form.
    ///
    /// Returns `AllocError` if allocation fails.
    pub fn render(self, alloc: Global, sheet: &Sheet) -> Result<Vec<u8>, AllocError>
        ensures { IfOk result (λ text. text.items ≡ rendering self sheet.now) }
    {
        match self {
            Form::Text => sheet_lines(alloc, sheet),
            Form::Json => object(alloc, sheet),
        }
    }
}
