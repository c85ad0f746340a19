//! Object identifiers as texts: `1.2.840.113549.1.9.16.1.26`.

ghost use Rattle.std.specs.Prelude.{◌≡◌, ◌++◌, decimal, option_map, IfOk, OnOk};
ghost use Rattle.std.specs.List.{flat_map};
ghost use Rattle.rpki_fields.specs.IdentifierText.{numbers_of, first_arcs, next_arc, dotted, identifier_text};

use crate::field::digits;
use crate::value::push_digits;
use std::alloc::{AllocError, Global};

/// The subidentifiers that the octets are; None where one is too large.
fn numbers_of(alloc: Global, octets: &[u8]) -> Result<Option<Vec<u64>>, AllocError>
    ensures { IfOk result (λ o. option_map (λ v. v.items) o ≡ numbers_of octets.now) }
{
    let mut numbers = Vec::new(alloc);
    let mut number = 0u64;
    'octets: for octet in octets {
        if number >= 1 << 56 {
            return Ok(None);
        }
        if *octet < 128 {
            numbers.push(number * 128 + *octet as u64)?;
            number = 0;
        } else {
            number = number * 128 + (*octet - 128) as u64;
        }
    }
    Ok(Some(numbers))
}

/// Adds an arc.
fn push_arc(text: &mut Vec<u8>, front: &[u8], number: u64) -> Result<(), AllocError>
    ensures { OnOk result (text.new.items ≡ text.old.items ++ front.now ++ decimal number) }
{
    let digits = digits(*text.allocator(), number)?;
    text.extend_from_slice(front)?;
    text.extend_from_slice(digits.as_slice())
}

/// Adds the two arcs that the first subidentifier is.
fn push_first_arcs(text: &mut Vec<u8>, number: u64) -> Result<(), AllocError>
    ensures { OnOk result (text.new.items ≡ text.old.items ++ first_arcs number) }
{
    if number < 40 {
        push_arc(text, b"0.", number)
    } else if number < 80 {
        push_arc(text, b"1.", number - 40)
    } else {
        push_arc(text, b"2.", number - 80)
    }
}

/// Adds arcs, each after a dot.
fn push_next_arcs(text: &mut Vec<u8>, numbers: &[u64]) -> Result<(), AllocError>
    ensures { OnOk result (text.new.items ≡ text.old.items ++ flat_map next_arc numbers.now) }
{
    'numbers: for number in numbers {
        push_arc(text, b".", *number)?;
    }
    Ok(())
}

/// Adds the arcs of these subidentifiers.
fn push_dotted(text: &mut Vec<u8>, numbers: &[u64]) -> Result<(), AllocError>
    ensures { OnOk result (text.new.items ≡ text.old.items ++ dotted numbers.now) }
{
    match numbers.split_first() {
        Some((first, rest)) => {
            push_first_arcs(text, *first)?;
            push_next_arcs(text, rest)
        }
        None => Ok(()),
    }
}

/// Adds the arcs of the object identifier with these contents octets; where one is not below 2^63, its octets.
///
/// Returns `AllocError` if allocation fails.
pub fn push_identifier(text: &mut Vec<u8>, octets: &[u8]) -> Result<(), AllocError>
    ensures { OnOk result (text.new.items ≡ text.old.items ++ identifier_text octets.now) }
{
    match numbers_of(*text.allocator(), octets)? {
        Some(numbers) => push_dotted(text, numbers.as_slice()),
        None => {
            text.extend_from_slice(b"OID ")?;
            push_digits(text, octets)
        }
    }
}
