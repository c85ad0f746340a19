//! Trust anchor keys (RFC 9691), read in place without memory.

ghost use Rattle.std.specs.Prelude.{◌≡◌};
ghost use Rattle.rpki_der.specs.Prelude.{left, optional_of};
ghost use Rattle.rpki_parse.specs.Words.{parsed};
ghost use Rattle.rpki_records.specs.AnchorKeys.{found_key, found_tak, key_under, predecessor_at, successor_at, tak};
ghost use Rattle.rpki_records.specs.AnchorKeys.{tak_parts, version_at};
ghost use Rattle.rpki_parse.specs.Parts.{told};

use crate::anchor_key::AnchorKey;
use rpki_der::{Class, Constructed, DecodeError, Tag};
use rpki_parse::{Malformed, at_part, finish, has_tag, take_constructed_if, take_sequence};

/// The malformed part of a content of trust anchor keys.
#[derive(Clone, Copy, Debug, PartialEq, Eq)]
pub enum TakPart {
    /// The SEQUENCE around all, or something follows it or its parts.
    Tak,
    /// The version.
    Version,
    /// The current key.
    Current,
    /// The key that was current before.
    Predecessor,
    /// The key that will be current.
    Successor,
}

/// Trust anchor keys, whose parts are borrowed from the octets that they were read from.
#[derive(Clone, Copy)]
pub struct TakView<'a> {
    /// The current key.
    pub current: AnchorKey<'a>,
    /// The key that was current before, where it is named.
    pub predecessor: Option<AnchorKey<'a>>,
    /// The key that will be current, where it is named.
    pub successor: Option<AnchorKey<'a>>,
}

/// The version: 0, which is left out.
fn take_version(cons: &mut Constructed<'_>) -> Result<(), DecodeError>
    ensures { parsed (λ v. v) result (left cons.new) ≡ version_at (left cons.old) }
{
    if has_tag(cons, Tag::INTEGER) {
        return Err(DecodeError::content("another version, or a default one that is written"));
    }
    Ok(())
}

/// A key under this explicit tag, and nothing else there.
fn take_under<'a>(cons: &mut Constructed<'a>, tag: Tag) -> Result<AnchorKey<'a>, DecodeError>
    ensures { parsed found_key result (left cons.new) ≡ key_under tag (left cons.old) }
{
    let mut after = *cons;
    let mut contents = take_constructed_if(&mut after, tag)?;
    let key = AnchorKey::take_from(&mut contents)?;
    finish(contents)?;
    *cons = after;
    Ok(key)
}

/// The predecessor, where its tag is in front.
fn take_predecessor<'a>(cons: &mut Constructed<'a>) -> Result<Option<AnchorKey<'a>>, DecodeError>
    ensures { parsed (optional_of found_key) result (left cons.new) ≡ predecessor_at (left cons.old) }
{
    if !has_tag(cons, Tag::new(Class::Context, 0)) {
        return Ok(None);
    }
    let key = take_under(cons, Tag::new(Class::Context, 0))?;
    Ok(Some(key))
}

/// The successor, where its tag is in front.
fn take_successor<'a>(cons: &mut Constructed<'a>) -> Result<Option<AnchorKey<'a>>, DecodeError>
    ensures { parsed (optional_of found_key) result (left cons.new) ≡ successor_at (left cons.old) }
{
    if !has_tag(cons, Tag::new(Class::Context, 1)) {
        return Ok(None);
    }
    let key = take_under(cons, Tag::new(Class::Context, 1))?;
    Ok(Some(key))
}

/// The parts, which are the whole rest.
fn read_parts<'a>(contents: Constructed<'a>) -> Result<TakView<'a>, Malformed<TakPart>>
    ensures { told found_tak result ≡ tak_parts (left contents.entry) }
{
    let mut rest = contents;
    at_part(TakPart::Version, take_version(&mut rest))?;
    let current = at_part(TakPart::Current, AnchorKey::take_from(&mut rest))?;
    let predecessor = at_part(TakPart::Predecessor, take_predecessor(&mut rest))?;
    let successor = at_part(TakPart::Successor, take_successor(&mut rest))?;
    at_part(TakPart::Tak, finish(rest))?;
    Ok(TakView {
        current,
        predecessor,
        successor,
    })
}

impl<'a> TakView<'a> {
    /// Trust anchor keys (RFC 9691 3.2), and nothing else. Allocates nothing.
    ///
    /// The error is of the leftmost malformed part.
    pub fn read(octets: &'a [u8]) -> Result<TakView<'a>, Malformed<TakPart>>
        ensures { told found_tak result ≡ tak octets.entry.now }
    {
        let mut rest = Constructed::from_slice(octets);
        let contents = at_part(TakPart::Tak, take_sequence(&mut rest))?;
        at_part(TakPart::Tak, finish(rest))?;
        read_parts(contents)
    }
}
