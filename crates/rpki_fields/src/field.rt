//! Fields: what is shown of an object, each a label and a value.

ghost use Rattle.std.specs.Prelude.{◌≡◌, ◌++◌, ◌∷◌, [], OnOk, IfOk, decimal};
ghost use Rattle.std.specs.Option.{option_map};
ghost use Rattle.rpki_fields.specs.Field.{field_parts, json_parts, number_parts, time_parts, size_parts, field_if};
ghost use Rattle.rpki_fields.specs.Field.{time_if, size_if, other_text};

use crate::value::{seconds_text, time_text};
use rpki_time::Time;
use std::alloc::{AllocError, Global};
use std::marker::Model;

/// What is shown of an extension that is not as this section of the profile has it: of another value, or not as
/// critical.
pub fn other_text(alloc: Global, section: &[u8]) -> Result<Vec<u8>, AllocError>
    ensures { IfOk result (λ text. text.items ≡ other_text section.now) }
{
    let mut text = Vec::from_slice(alloc, b"not of the RPKI's profile (")?;
    text.extend_from_slice(section)?;
    text.push(b')')?;
    Ok(text)
}

/// A label and a value: as a person reads it, and as JSON has it.
#[derive(Drop)]
pub struct Field {
    label: Vec<u8>,
    value: Vec<u8>,
    json: Option<Vec<u8>>,
}

impl Model for Field {
    ghost use Rattle.std.specs.Option.{option_map};
    ghost use Rattle.rpki_fields.specs.Field.{FieldParts, any_parts};

    ghost Value = { FieldParts };

    ghost view = { λ f. any_parts f.label.items f.value.items (option_map (λ v. v.items) f.json) };
}

impl Field {
    /// The label.
    pub fn label(&self) -> &[u8]
        ensures { result.now ≡ self.now.label }
    {
        self.label.as_slice()
    }

    /// The value, as a text.
    pub fn value(&self) -> &[u8]
        ensures { result.now ≡ self.now.value }
    {
        self.value.as_slice()
    }

    /// The value as JSON has it, where that isn't a string of the same text.
    pub fn json(&self) -> &Option<Vec<u8>>
        ensures { option_map (λ v. v.items) result.now ≡ self.now.json }
    {
        &self.json
    }
}

/// Adds a field whose value is a text.
///
/// Returns `AllocError` if allocation fails.
pub fn push_field(fields: &mut Vec<Field>, label: &[u8], value: &[u8]) -> Result<(), AllocError>
    ensures { OnOk result (fields.new.items ≡ fields.old.items ++ field_parts label.now value.now ∷ []) }
{
    let alloc = *fields.allocator();
    let label = Vec::from_slice(alloc, label)?;
    let value = Vec::from_slice(alloc, value)?;
    fields.push(Field {
        label,
        value,
        json: None,
    })?;
    Ok(())
}

/// Adds a field whose value is this text, and this in JSON.
///
/// Returns `AllocError` if allocation fails.
pub fn push_json(
    fields: &mut Vec<Field>,
    label: &[u8],
    value: &[u8],
    json: &[u8],
) -> Result<(), AllocError>
    ensures { OnOk result (fields.new.items ≡ fields.old.items ++ json_parts label.now value.now json.now ∷ []) }
{
    let alloc = *fields.allocator();
    let label = Vec::from_slice(alloc, label)?;
    let shown = Vec::from_slice(alloc, value)?;
    let json = Vec::from_slice(alloc, json)?;
    fields.push(Field {
        label,
        value: shown,
        json: Some(json),
    })?;
    Ok(())
}

/// A number in decimal digits.
pub fn digits(alloc: Global, number: u64) -> Result<Vec<u8>, AllocError>
    ensures { IfOk result (λ text. text.items ≡ decimal number) }
{
    let text = format!(in alloc; "{number}")?;
    Ok(text.into_bytes())
}

/// Adds a field whose value is a number.
///
/// Returns `AllocError` if allocation fails.
pub fn push_number(fields: &mut Vec<Field>, label: &[u8], number: u64) -> Result<(), AllocError>
    ensures { OnOk result (fields.new.items ≡ fields.old.items ++ number_parts label.now number ∷ []) }
{
    let text = digits(*fields.allocator(), number)?;
    push_json(fields, label, text.as_slice(), text.as_slice())
}

/// Adds a field whose value is a time: in JSON the seconds since 1970.
///
/// Returns `AllocError` if allocation fails.
pub fn push_time(fields: &mut Vec<Field>, label: &[u8], time: Time) -> Result<(), AllocError>
    ensures { OnOk result (fields.new.items ≡ fields.old.items ++ time_parts label.now time ∷ []) }
{
    let seconds = seconds_text(*fields.allocator(), time)?;
    push_json(fields, label, &time_text(time), seconds.as_slice())
}

/// Adds a field whose value is a size in decimal digits, which is a number in JSON, or a word for one that isn't known.
///
/// Returns `AllocError` if allocation fails.
pub fn push_size(fields: &mut Vec<Field>, label: &[u8], size: &[u8]) -> Result<(), AllocError>
    ensures { OnOk result (fields.new.items ≡ fields.old.items ++ size_parts label.now size.now ∷ []) }
{
    if size == b"malformed".as_slice() {
        push_field(fields, label, size)
    } else {
        push_json(fields, label, size, size)
    }
}

/// Adds a field where there is a value.
///
/// Returns `AllocError` if allocation fails.
pub fn push_field_if(
    fields: &mut Vec<Field>,
    label: &[u8],
    value: Option<Vec<u8>>,
) -> Result<(), AllocError>
    ensures { OnOk result (fields.new.items
        ≡ fields.old.items ++ field_if label.now (option_map (λ v. v.items) value)) }
{
    match value {
        Some(value) => push_field(fields, label, value.as_slice()),
        None => Ok(()),
    }
}

/// Adds a field where there is a time.
///
/// Returns `AllocError` if allocation fails.
pub fn push_time_if(
    fields: &mut Vec<Field>,
    label: &[u8],
    time: Option<Time>,
) -> Result<(), AllocError>
    ensures { OnOk result (fields.new.items ≡ fields.old.items ++ time_if label.now time) }
{
    match time {
        Some(time) => push_time(fields, label, time),
        None => Ok(()),
    }
}

/// Adds a field where there is a size.
///
/// Returns `AllocError` if allocation fails.
pub fn push_size_if(
    fields: &mut Vec<Field>,
    label: &[u8],
    size: Option<Vec<u8>>,
) -> Result<(), AllocError>
    ensures { OnOk result (fields.new.items
        ≡ fields.old.items ++ size_if label.now (option_map (λ v. v.items) size)) }
{
    match size {
        Some(size) => push_size(fields, label, size.as_slice()),
        None => Ok(()),
    }
}
