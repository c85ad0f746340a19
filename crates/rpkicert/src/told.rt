//! How two values that disagree are told.

ghost use Rattle.std.specs.Prelude.{◌≡◌, ◌++◌, IfOk, OnOk};
ghost use Rattle.rpki_fields.specs.IdentifierText.{identifier_text};
ghost use Rattle.rpkicert.specs.Values.{Moments, Names, Types, Digests, AreTexts, told_text, values_fields};
ghost use Rattle.rpkicert.specs.Values.{values_text};
ghost use Rattle.rpkicert.specs.ValuesView.{told_in, told_of};

use crate::fault::Fault;
use rpki::repository::x509::{NameOctets, Time};
use rpki_fields::{Field, hex_digits, name_text, push_field, push_identifier, time_text};
use std::alloc::{AllocError, Global};

/// The texts of the value that was found, and of the one that is expected.
#[derive(Drop)]
pub struct Told {
    /// What was found.
    pub found: Vec<u8>,
    /// What is expected.
    pub expected: Vec<u8>,
}

/// The texts of two moments.
///
/// Returns `AllocError` if allocation fails.
pub fn moment_texts(alloc: Global, found: Time, expected: Time) -> Result<Told, AllocError>
    ensures { IfOk result (λ t. AreTexts (Moments found expected) (told_in t)) }
{
    let found = Vec::from_slice(alloc, &time_text(found))?;
    let expected = Vec::from_slice(alloc, &time_text(expected))?;
    Ok(Told { found, expected })
}

/// The texts of two names.
///
/// Returns `AllocError` if allocation fails.
pub fn name_texts(
    alloc: Global,
    found: &NameOctets,
    expected: &NameOctets,
) -> Result<Told, AllocError>
    ensures { IfOk result (λ t. AreTexts (Names found.now expected.now) (told_in t)) }
{
    let found = name_text(alloc, found)?;
    let expected = name_text(alloc, expected)?;
    Ok(Told { found, expected })
}

/// The arcs of an object identifier.
fn type_text(alloc: Global, octets: &[u8]) -> Result<Vec<u8>, AllocError>
    ensures { IfOk result (λ text. text.items ≡ identifier_text octets.now) }
{
    let mut text = Vec::new(alloc);
    push_identifier(&mut text, octets)?;
    Ok(text)
}

/// The texts of two types, which are the contents octets of their identifiers.
///
/// Returns `AllocError` if allocation fails.
pub fn type_texts(alloc: Global, found: &[u8], expected: &[u8]) -> Result<Told, AllocError>
    ensures { IfOk result (λ t. AreTexts (Types found.now expected.now) (told_in t)) }
{
    let found = type_text(alloc, found)?;
    let expected = type_text(alloc, expected)?;
    Ok(Told { found, expected })
}

/// The texts of two digests.
///
/// Returns `AllocError` if allocation fails.
pub fn digest_texts(alloc: Global, found: &[u8], expected: &[u8]) -> Result<Told, AllocError>
    ensures { IfOk result (λ t. AreTexts (Digests found.now expected.now) (told_in t)) }
{
    let found = hex_digits(alloc, found)?;
    let expected = hex_digits(alloc, expected)?;
    Ok(Told { found, expected })
}

/// Adds the values in words, after what is wrong.
fn push_values(text: &mut Vec<u8>, told: &Option<Told>) -> Result<(), AllocError>
    ensures { OnOk result (text.new.items ≡ text.old.items ++ values_text (told_of told.now)) }
{
    match told {
        Some(told) => {
            text.extend_from_slice(b"; found ")?;
            text.extend_from_slice(told.found.as_slice())?;
            text.extend_from_slice(b"; expected ")?;
            text.extend_from_slice(told.expected.as_slice())?;
            Ok(())
        }
        None => Ok(()),
    }
}

/// What is wrong, and the values.
///
/// Returns `AllocError` if allocation fails.
pub fn told_text(alloc: Global, fault: Fault, told: &Option<Told>) -> Result<Vec<u8>, AllocError>
    ensures { IfOk result (λ text. text.items ≡ told_text fault (told_of told.now)) }
{
    let said = fault.text(alloc)?;
    let mut text = Vec::from_slice(alloc, said.as_bytes())?;
    push_values(&mut text, told)?;
    Ok(text)
}

/// The values as fields.
///
/// Returns `AllocError` if allocation fails.
pub fn values_fields(alloc: Global, told: &Option<Told>) -> Result<Vec<Field>, AllocError>
    ensures { IfOk result (λ fields. fields.items ≡ values_fields (told_of told.now)) }
{
    let mut fields = Vec::new(alloc);
    if let Some(told) = told {
        push_field(&mut fields, b"Found", told.found.as_slice())?;
        push_field(&mut fields, b"Expected", told.expected.as_slice())?;
    }
    Ok(fields)
}
