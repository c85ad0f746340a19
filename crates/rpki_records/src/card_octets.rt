//! The octets of a vCard, and lines (RFC 6350 3.3), read in place without memory.

ghost use Rattle.std.specs.Prelude.{◌≡◌, ◌≤◌, length};
ghost use Rattle.rpki_der.specs.Prelude.{left};
ghost use Rattle.rpki_parse.specs.Words.{Moves, parsed};
ghost use Rattle.rpki_records.specs.Card.{after_run, begins_with, is_name_octet, is_of, is_quoted_octet, is_safe_octet};
ghost use Rattle.rpki_records.specs.Card.{is_value_octet, is_word, line_at, octet_at, run_of, text_line_at, word_at};

use crate::folds::{after_folds, begins_fold, next_octet};
use rpki_der::{Constructed, DecodeError};

/// A class of octets.
#[derive(Clone, Copy, Debug, PartialEq, Eq)]
pub(crate) enum OctetClass {
    /// Those of names: letters, digits and `-`.
    Name,
    /// Those of values: a horizontal tab, and all but control characters.
    Value,
    /// Those of a value of a parameter in quotation marks: no quotation mark.
    Quoted,
    /// Those of another value of a parameter: no colon, no semicolon and no comma either.
    Safe,
}

/// Whether the octet is a letter, a digit or `-`.
fn is_name_octet(octet: u8) -> bool
    ensures { result ≡ is_name_octet octet }
{
    octet.is_ascii_alphanumeric() || octet == b'-'
}

/// Whether the octet is a horizontal tab, or no control character.
fn is_value_octet(octet: u8) -> bool
    ensures { result ≡ is_value_octet octet }
{
    octet == b'\t' || (31 < octet && !(octet == 127))
}

/// Whether the octet is that, and no quotation mark.
fn is_quoted_octet(octet: u8) -> bool
    ensures { result ≡ is_quoted_octet octet }
{
    is_value_octet(octet) && !(octet == b'"')
}

/// Whether the octet is that, and neither a comma, a colon nor a semicolon.
fn is_safe_octet(octet: u8) -> bool
    ensures { result ≡ is_safe_octet octet }
{
    is_quoted_octet(octet) && !(octet == b',' || (octet == b':' || octet == b';'))
}

impl OctetClass {
    /// Whether the octet is of the class.
    fn has(self, octet: u8) -> bool
        ensures { result ≡ is_of self octet }
    {
        match self {
            OctetClass::Name => is_name_octet(octet),
            OctetClass::Value => is_value_octet(octet),
            OctetClass::Quoted => is_quoted_octet(octet),
            OctetClass::Safe => is_safe_octet(octet),
        }
    }
}

/// What follows the octets of the class and the folds in front.
fn after_run(octets: &[u8], class: OctetClass) -> &[u8]
    ensures rest { result.now ≡ after_run class octets.now }
    ensures less { length result.now ≤ length octets.now }
{
    let mut rest = octets;
    'octets: while let [octet, after @ ..] = rest {
        if begins_fold(rest) {
            rest = &after[2..];
        } else if class.has(*octet) {
            rest = after;
        } else {
            return rest;
        }
    }
    rest
}

/// The octets of the class in front, with the folds among them.
pub(crate) fn take_run<'a>(cons: &mut Constructed<'a>, class: OctetClass) -> &'a [u8]
    ensures run { (result.now, left cons.new) ≡ run_of class (left cons.old) }
    ensures less { length (left cons.new) ≤ length (left cons.old) }
{
    let octets = cons.rest();
    let after = after_run(octets, class);
    *cons = Constructed::from_slice(after);
    &octets[..octets.len() - after.len()]
}

/// Whether this octet is in front.
pub(crate) fn begins_with(cons: &Constructed<'_>, octet: u8) -> bool
    ensures { result ≡ begins_with octet (left cons.now) }
{
    match next_octet(cons.rest()) {
        Some((first, _)) => first == octet,
        None => false,
    }
}

/// Moves past this octet.
pub(crate) fn take_octet(cons: &mut Constructed<'_>, octet: u8) -> Result<(), DecodeError>
    ensures reads { parsed (λ v. v) result (left cons.new) ≡ octet_at octet (left cons.old) }
    ensures moves { Moves (left cons.old) (left cons.new) result }
{
    match next_octet(cons.rest()) {
        Some((first, after)) => {
            if first == octet {
                *cons = Constructed::from_slice(after);
                return Ok(());
            }
            Err(DecodeError::content("another character"))
        }
        None => Err(DecodeError::content("a character is missing")),
    }
}

/// The line in front, whose break isn't of it.
#[tactic(auto, unfolding(crate::specs::Card::line_at))]
pub(crate) fn take_line<'a>(cons: &mut Constructed<'a>) -> Result<&'a [u8], DecodeError>
    ensures reads { parsed (λ l. l.now) result (left cons.new) ≡ line_at (left cons.old) }
    ensures moves { Moves (left cons.old) (left cons.new) result }
{
    let mut after = *cons;
    let line = take_run(&mut after, OctetClass::Value);
    take_octet(&mut after, b'\r')?;
    take_octet(&mut after, b'\n')?;
    *cons = after;
    Ok(line)
}

/// Whether the octets are this word but for folds and the case of letters.
pub(crate) fn is_word(octets: &[u8], word: &[u8]) -> bool
    ensures { result ≡ is_word octets.now word.now }
{
    let mut rest = octets;
    'word: for letter in word {
        match next_octet(rest) {
            Some((octet, after)) => {
                if !octet.eq_ignore_ascii_case(letter) {
                    return false;
                }
                rest = after;
            }
            None => return false,
        }
    }
    next_octet(rest).is_none()
}

/// Moves past a line of this text.
pub(crate) fn take_text_line(cons: &mut Constructed<'_>, text: &[u8]) -> Result<(), DecodeError>
    ensures { parsed (λ v. v) result (left cons.new) ≡ text_line_at text.now (left cons.old) }
{
    let mut after = *cons;
    let line = take_line(&mut after)?;
    if !is_word(line, text) {
        return Err(DecodeError::content("another line"));
    }
    *cons = after;
    Ok(())
}

/// A name, of one octet at least.
pub(crate) fn take_word<'a>(cons: &mut Constructed<'a>) -> Result<&'a [u8], DecodeError>
    ensures reads { parsed (λ w. w.now) result (left cons.new) ≡ word_at (left cons.old) }
    ensures less { length (left cons.new) ≤ length (left cons.old) }
{
    let mut after = Constructed::from_slice(after_folds(cons.rest()));
    let word = take_run(&mut after, OctetClass::Name);
    if word.is_empty() {
        return Err(DecodeError::content("a name is missing"));
    }
    *cons = after;
    Ok(word)
}
