//! The properties of a vCard (RFC 6493 4, RFC 6350 3.3), read in place without memory.

ghost use Rattle.std.specs.Prelude.{◌≡◌, ◌≤◌, false, length};
ghost use Rattle.rpki_der.specs.Prelude.{left};
ghost use Rattle.rpki_parse.specs.Words.{Moves, kinds, parsed};
ghost use Rattle.rpki_records.specs.Card.{found_property, kind_of, name_at, next_value_at, octets_before_colon};
ghost use Rattle.rpki_records.specs.Card.{parameter_at, parameter_part_at, parameter_value_at, parameters_in};
ghost use Rattle.rpki_records.specs.Card.{property_at, property_in, quoted_at};
ghost use Rattle.rpki_records.specs.Words.{seen};

use crate::card_octets::{
    OctetClass, begins_with, is_word, take_line, take_octet, take_run, take_word,
};
use crate::folds::after_folds;
use rpki_der::{Constructed, DecodeError};
use rpki_parse::{Step, fold};

/// A kind of property of a Ghostbusters record (RFC 6493 4).
#[derive(Clone, Copy, Debug, PartialEq, Eq)]
pub enum PropertyKind {
    /// FN: the name of a person or a role (RFC 6350 6.2.1).
    Name,
    /// ORG: an organization (RFC 6350 6.6.4).
    Organization,
    /// ADR: a postal address (RFC 6350 6.3.1).
    Address,
    /// TEL: a telephone number (RFC 6350 6.4.1).
    Telephone,
    /// EMAIL: an email address (RFC 6350 6.4.2).
    Email,
}

/// A property, whose parts are borrowed from the octets that it was read from.
#[derive(Clone, Copy)]
pub struct CardProperty<'a> {
    /// Which one it is.
    pub kind: PropertyKind,
    /// Its parameters, each with the semicolon before it; no octet where there is none.
    pub parameters: &'a [u8],
    /// Its value, as it is written: with the folds (RFC 6350 3.2), which [unfold](crate::unfold) leaves out, and a
    /// backslash before a comma, a semicolon and a backslash (3.4).
    pub value: &'a [u8],
}

/// The name of a property, after that of a group and a point, where there is one.
fn take_name<'a>(cons: &mut Constructed<'a>) -> Result<&'a [u8], DecodeError>
    ensures { parsed (λ w. w.now) result (left cons.new) ≡ name_at (left cons.old) }
{
    let mut after = *cons;
    let first = take_word(&mut after)?;
    if begins_with(&after, b'.') {
        take_octet(&mut after, b'.')?;
        let name = take_word(&mut after)?;
        *cons = after;
        return Ok(name);
    }
    *cons = after;
    Ok(first)
}

/// Moves past a value in quotation marks, and the folds after it.
fn take_quoted(cons: &mut Constructed<'_>) -> Result<(), DecodeError>
    ensures reads { parsed (λ v. v) result (left cons.new) ≡ quoted_at (left cons.old) }
    ensures moves { Moves (left cons.old) (left cons.new) result }
{
    let mut after = *cons;
    take_octet(&mut after, b'"')?;
    take_run(&mut after, OctetClass::Quoted);
    take_octet(&mut after, b'"')?;
    *cons = Constructed::from_slice(after_folds(after.rest()));
    Ok(())
}

/// Moves past a value of a parameter, in quotation marks or not.
fn take_parameter_value(cons: &mut Constructed<'_>) -> Result<(), DecodeError>
    ensures reads { parsed (λ v. v) result (left cons.new) ≡ parameter_value_at (left cons.old) }
    ensures less { length (left cons.new) ≤ length (left cons.old) }
{
    if begins_with(cons, b'"') {
        return take_quoted(cons);
    }
    take_run(cons, OctetClass::Safe);
    Ok(())
}

/// Moves past a parameter: its name and its first value.
fn take_parameter(cons: &mut Constructed<'_>) -> Result<(), DecodeError>
    ensures reads { parsed (λ v. v) result (left cons.new) ≡ parameter_at (left cons.old) }
    ensures moves { Moves (left cons.old) (left cons.new) result }
{
    let mut after = *cons;
    take_octet(&mut after, b';')?;
    take_word(&mut after)?;
    take_octet(&mut after, b'=')?;
    take_parameter_value(&mut after)?;
    *cons = after;
    Ok(())
}

/// Moves past a further value of a parameter.
fn take_next_value(cons: &mut Constructed<'_>) -> Result<(), DecodeError>
    ensures reads { parsed (λ v. v) result (left cons.new) ≡ next_value_at (left cons.old) }
    ensures moves { Moves (left cons.old) (left cons.new) result }
{
    let mut after = *cons;
    take_octet(&mut after, b',')?;
    take_parameter_value(&mut after)?;
    *cons = after;
    Ok(())
}

/// Reads a parameter, or a further value of the one before.
#[derive(Drop)]
struct ParameterStep;

impl Step for ParameterStep {
    type State = bool;

    ghost next_at = { λ _. parameter_part_at };

    fn next(&self, has_parameter: bool, cons: &mut Constructed<'_>) -> Result<bool, DecodeError> {
        if has_parameter && begins_with(cons, b',') {
            take_next_value(cons)?;
            return Ok(true);
        }
        take_parameter(cons)?;
        Ok(true)
    }
}

/// Reads parameters, which are all of the octets.
#[tactic(auto, unfolding(crate::specs::Card::parameters_in))]
fn read_parameters(octets: &[u8]) -> Result<(), DecodeError>
    ensures { kinds result ≡ parameters_in octets.now }
{
    fold(Constructed::from_slice(octets), false, &ParameterStep)?;
    Ok(())
}

/// How many octets are before the first colon that isn't in quotation marks.
fn octets_before_colon(octets: &[u8]) -> usize
    ensures before { result ≡ octets_before_colon false octets.now }
    ensures most { result ≤ length octets.now }
{
    let mut is_quoted = false;
    'octets: for index in 0..octets.len() {
        if octets[index] == b':' && !is_quoted {
            return index;
        }
        if octets[index] == b'"' {
            is_quoted = !is_quoted;
        }
    }
    octets.len()
}

/// The kind of property of this name.
fn kind_of(name: &[u8]) -> Result<PropertyKind, DecodeError>
    ensures { kinds result ≡ kind_of name.now }
{
    if is_word(name, b"FN") {
        Ok(PropertyKind::Name)
    } else if is_word(name, b"ORG") {
        Ok(PropertyKind::Organization)
    } else if is_word(name, b"ADR") {
        Ok(PropertyKind::Address)
    } else if is_word(name, b"TEL") {
        Ok(PropertyKind::Telephone)
    } else if is_word(name, b"EMAIL") {
        Ok(PropertyKind::Email)
    } else {
        Err(DecodeError::content("another property"))
    }
}

/// The property that a line is, without its break.
#[tactic(auto, unfolding(crate::specs::Card::property_in))]
pub(crate) fn read_property<'a>(line: &'a [u8]) -> Result<CardProperty<'a>, DecodeError>
    ensures { seen found_property result ≡ property_in line.entry.now }
{
    let mut rest = Constructed::from_slice(line);
    let name = take_name(&mut rest)?;
    let kind = kind_of(name)?;
    let after = rest.rest();
    let (parameters, value) = after.split_at(octets_before_colon(after));
    read_parameters(parameters)?;
    let mut value = Constructed::from_slice(value);
    take_octet(&mut value, b':')?;
    Ok(CardProperty {
        kind,
        parameters,
        value: value.rest(),
    })
}

impl<'a> CardProperty<'a> {
    /// Reads a property: a line, and the break after it (RFC 6350 3.3). Allocates nothing.
    ///
    /// Returns `Content` for a line that is no property, and for a property that a Ghostbusters record doesn't have. An
    /// error leaves the cursor where it was.
    pub fn take_from(cons: &mut Constructed<'a>) -> Result<CardProperty<'a>, DecodeError>
        ensures reads { parsed found_property result (left cons.new) ≡ property_at (left cons.old) }
        ensures moves { Moves (left cons.old) (left cons.new) result }
    {
        let mut after = *cons;
        let line = take_line(&mut after)?;
        let property = read_property(line)?;
        *cons = after;
        Ok(property)
    }
}
