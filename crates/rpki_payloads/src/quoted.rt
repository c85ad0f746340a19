//! Fields of csv (RFC 4180).

ghost use Rattle.std.specs.Prelude.{◌≡◌, ◌++◌, OnOk};
ghost use Rattle.std.specs.List.{flat_map, list_any};
ghost use Rattle.rpki_payloads.specs.Quoted.{doubled, in_marks, is_special, quoted};

use std::alloc::AllocError;

/// Whether a field with the octet has to be in quotation marks (RFC 4180 2.6).
fn is_special(octet: u8) -> bool
    ensures { result ≡ is_special octet }
{
    octet == b',' || (octet == b'"' || (octet == b'\n' || octet == b'\r'))
}

/// Whether a field with this text has to be in quotation marks.
fn has_special(text: &[u8]) -> bool
    ensures { result ≡ list_any is_special text.now }
{
    text.iter().any(|octet| is_special(*octet))
}

/// Adds an octet of a field in quotation marks: a quotation mark twice (RFC 4180 2.7).
fn push_doubled(text: &mut Vec<u8>, octet: u8) -> Result<(), AllocError>
    ensures { OnOk result (text.new.items ≡ text.old.items ++ doubled octet) }
{
    if octet == b'"' {
        text.push(b'"')?;
    }
    text.push(octet)?;
    Ok(())
}

/// Adds the octets of a field in quotation marks.
fn push_all_doubled(text: &mut Vec<u8>, field: &[u8]) -> Result<(), AllocError>
    ensures { OnOk result (text.new.items ≡ text.old.items ++ flat_map doubled field.now) }
{
    'octets: for octet in field {
        push_doubled(text, *octet)?;
    }
    Ok(())
}

/// Adds a field in quotation marks.
#[tactic(auto, unfolding(crate::specs::Quoted::in_marks))]
fn push_in_marks(text: &mut Vec<u8>, field: &[u8]) -> Result<(), AllocError>
    ensures { OnOk result (text.new.items ≡ text.old.items ++ in_marks field.now) }
{
    text.extend_from_slice(b"\"")?;
    push_all_doubled(text, field)?;
    text.extend_from_slice(b"\"")
}

/// Adds a field: in quotation marks where it has to be, else as it is.
pub(crate) fn push_field(text: &mut Vec<u8>, field: &[u8]) -> Result<(), AllocError>
    ensures { OnOk result (text.new.items ≡ text.old.items ++ quoted field.now) }
{
    if has_special(field) {
        return push_in_marks(text, field);
    }
    text.extend_from_slice(field)
}
