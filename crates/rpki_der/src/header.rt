//! Headers, read from the front of a slice.

ghost use Rattle.std.specs.Prelude.{◌≡◌, ◌<◌, ◌≤◌, List, ℕ, length, drop, IfOk, IfErr, IfSome, IsTrue, ◌↔◌};
ghost use Rattle.rpki_der.specs.Reading.{Accepts, Refuses};
ghost use Rattle.rpki_der.specs.declared.error.DecodeError.TheVariants.{BadTag, BadLength};
ghost use Rattle.rpki_der.specs.Header.{class_number};
ghost use Rattle.rpki_der.specs.Values.{SpellsIdentifier, SpellsHeader, HasTag, IsHeaderFault};
ghost use Rattle.rpki_der.specs.HeaderParts.{SpellsTagNumber, SpellsLength, SpellsLongLength, ReadsPart};

use crate::error::DecodeError;
use crate::tag::{Class, Header, Tag};
use std::marker::Model;

/// A header that was read, and the octets that follow it.
#[derive(Drop)]
pub(crate) struct HeaderAndRest<'a> {
    pub(crate) header: Header,
    pub(crate) rest: &'a [u8],
}

impl<'a> Model for HeaderAndRest<'a> {
    ghost use Rattle.std.specs.Prelude.{ℕ, List};
    ghost use Rattle.rpki_der.specs.declared.tag.Header.{Header};

    ghost Value = { Header × List ℕ };

    ghost view = { λ x. (x.header, x.rest.now) };
}

/// Identifier octets that were read, and the octets that follow them.
#[derive(Drop)]
struct IdentifierAndRest<'a> {
    tag: Tag,
    constructed: bool,
    rest: &'a [u8],
}

impl<'a> Model for IdentifierAndRest<'a> {
    ghost use Rattle.std.specs.Prelude.{ℕ, Bool, List};
    ghost use Rattle.rpki_der.specs.TagName.{TagName};

    ghost Value = { (TagName × Bool) × List ℕ };

    ghost view = { λ x. ((x.tag, x.constructed), x.rest.now) };
}

/// The number of a tag, in digits of base 128 of which all but the last have the top bit set (X.690 8.1.2.4.2), and the
/// rest. The number has at most four octets, and is the shortest form of a number of 31 or more.
///
/// Returns `Truncated` if the octets end within the number; else `BadTag` if they have no such form.
#[cold]
#[inline(never)]
fn tag_number(s: &[u8]) -> Result<(u32, &[u8]), DecodeError>
    ensures { ReadsPart (λ x. (x.0, x.1.now)) SpellsTagNumber BadTag s.now result }
{
    let mut number: u32 = 0;
    for i in 0..4usize {
        if i >= s.len() {
            return Err(DecodeError::Truncated);
        }
        let octet = s[i];
        number = number * 128 + u32::from(octet & 0x7f);
        if octet & 0x80 == 0 {
            if number < 31 {
                return Err(DecodeError::BadTag);
            }
            return Ok((number, &s[i + 1..]));
        }
        if number == 0 {
            return Err(DecodeError::BadTag);
        }
    }
    Err(DecodeError::BadTag)
}

/// The identifier octets at the front (X.690 8.1.2): the tag, whether the value is constructed, and the rest.
///
/// The errors are `Truncated` and `BadTag`.
#[inline(always)]
fn identifier(s: &[u8]) -> Result<IdentifierAndRest<'_>, DecodeError>
    ensures { ReadsPart (λ x. x) SpellsIdentifier BadTag s.now result }
{
    let [first, rest @ ..] = s else {
        return Err(DecodeError::Truncated);
    };
    let class = class_of(*first >> 6);
    let constructed = *first >> 5 & 1 == 1;
    let low = u32::from(*first & 0x1f);
    if low < 31 {
        if *first >> 6 == 0 && low == 0 {
            return Err(DecodeError::BadTag);
        }
        return Ok(IdentifierAndRest {
            tag: Tag::new(class, low),
            constructed,
            rest,
        });
    }
    let (number, rest) = tag_number(rest)?;
    Ok(IdentifierAndRest {
        tag: Tag::new(class, number),
        constructed,
        rest,
    })
}

/// The class with this number, from 0 to 3 (X.690 8.1.2.2, table 1).
pub(crate) fn class_of(number: u8) -> Class
    requires { number < 4 }
    ensures { class_number result ≡ number }
{
    match number {
        0 => Class::Universal,
        1 => Class::Application,
        2 => Class::Context,
        _ => Class::Private,
    }
}

/// The number of a class, from 0 to 3 (X.690 8.1.2.2, table 1).
pub(crate) fn number_of(class: Class) -> u8
    ensures { result ≡ class_number class }
{
    match class {
        Class::Universal => 0,
        Class::Application => 1,
        Class::Context => 2,
        Class::Private => 3,
    }
}

/// The length octets at the front (X.690 8.1.3, 10.1): the length, and the rest.
///
/// The errors are `Truncated` and `BadLength`.
#[inline(always)]
fn length(s: &[u8]) -> Result<(u32, &[u8]), DecodeError>
    ensures { ReadsPart (λ x. (x.0, x.1.now)) SpellsLength BadLength s.now result }
{
    let [first, rest @ ..] = s else {
        return Err(DecodeError::Truncated);
    };
    if *first & 0x80 == 0 {
        return Ok((u32::from(*first), rest));
    }
    let count = *first & 0x7f;
    if count == 0 || count > 4 {
        return Err(DecodeError::BadLength);
    }
    long_length(usize::from(count), rest)
}

/// A length in this many octets, most significant first (X.690 8.1.3.5), and the rest. Two octets are read at once.
///
/// Returns `Truncated` if the octets end within the length; else `BadLength` if fewer octets, or one below 128, would
/// do.
#[inline(always)]
fn long_length(count: usize, s: &[u8]) -> Result<(u32, &[u8]), DecodeError>
    requires { count ≤ 4 }
    ensures { ReadsPart (λ x. (x.0, x.1.now)) (SpellsLongLength count) BadLength s.now result }
{
    if count == 2 {
        if let [first, second, rest @ ..] = s {
            if *first != 0 {
                return Ok((u32::from(*first) * 256 + u32::from(*second), rest));
            }
        }
    }
    any_length(count, s)
}

/// The same, octet by octet.
fn any_length(count: usize, s: &[u8]) -> Result<(u32, &[u8]), DecodeError>
    requires { count ≤ 4 }
    ensures { ReadsPart (λ x. (x.0, x.1.now)) (SpellsLongLength count) BadLength s.now result }
{
    let mut length: u32 = 0;
    for i in 0..count {
        if i >= s.len() {
            return Err(DecodeError::Truncated);
        }
        length = length * 256 + u32::from(s[i]);
        if length == 0 {
            return Err(DecodeError::BadLength);
        }
    }
    if length < 128 {
        return Err(DecodeError::BadLength);
    }
    Ok((length, &s[count..]))
}

/// The tag and the form at the front, where they are one octet (X.690 8.1.2.2) and another octet follows: nearly
/// always.
#[inline(always)]
fn low_identifier(s: &[u8]) -> Option<(Tag, bool)>
    ensures there { IfSome result (λ _. 2 ≤ length s.now) }
    ensures found { IfSome result (λ x. Accepts SpellsIdentifier s.now (x.0, x.1) (drop 1 s.now)) }
{
    let [first, _, ..] = s else {
        return None;
    };
    let low = u32::from(*first & 0x1f);
    if low == 31 {
        return None;
    }
    if *first >> 6 == 0 && low == 0 {
        return None;
    }
    let tag = Tag::new(class_of(*first >> 6), low);
    Some((tag, *first >> 5 & 1 == 1))
}

/// The header at the front, and the rest, as [header] has them, by the reader of all identifier octets.
#[inline(always)]
fn any_header(s: &[u8]) -> Result<HeaderAndRest<'_>, DecodeError>
    ensures ok { IfOk result (λ x. Accepts SpellsHeader s.now x.0 x.1) }
    ensures err { IfErr result (λ e. Refuses SpellsHeader s.now × IsHeaderFault s.now e) }
{
    let IdentifierAndRest {
        tag,
        constructed,
        rest,
    } = identifier(s)?;
    let (length, rest) = length(rest)?;
    let header = Header {
        tag,
        constructed,
        length,
    };
    Ok(HeaderAndRest { header, rest })
}

/// The header at the front (X.690 8.1.2, 8.1.3), and the rest.
///
/// The errors are `Truncated`, `BadTag` and `BadLength`: the first octet that cannot be continued to a legal encoding
/// decides.
#[inline(always)]
pub(crate) fn header(s: &[u8]) -> Result<HeaderAndRest<'_>, DecodeError>
    ensures ok { IfOk result (λ x. Accepts SpellsHeader s.now x.0 x.1) }
    ensures err { IfErr result (λ e. Refuses SpellsHeader s.now × IsHeaderFault s.now e) }
{
    match low_identifier(s) {
        Some((tag, constructed)) => {
            let (length, rest) = length(&s[1..])?;
            let header = Header {
                tag,
                constructed,
                length,
            };
            Ok(HeaderAndRest { header, rest })
        }
        None => any_header(s),
    }
}

/// The header at the front, and the rest, as [header] has them, where the header is two octets: nearly always.
#[inline(always)]
pub(crate) fn short_header(s: &[u8]) -> Option<(Header, &[u8])>
    ensures { IfSome result (λ x. Accepts SpellsHeader s.now x.0 x.1.now) }
{
    match low_identifier(s) {
        Some((tag, constructed)) => {
            if s[1] & 0x80 != 0 {
                return None;
            }
            match length(&s[1..]) {
                Ok((length, rest)) => {
                    let found = Header {
                        tag,
                        constructed,
                        length,
                    };
                    Some((found, rest))
                }
                Err(_) => None,
            }
        }
        None => None,
    }
}

/// Whether the slice begins with the identifier octets of this tag, in either form.
#[inline(always)]
pub(crate) fn begins_with(s: &[u8], tag: Tag) -> bool
    ensures { IsTrue result ↔ HasTag tag s.now }
{
    match identifier(s) {
        Ok(found) => found.tag.is_same(tag),
        Err(_) => false,
    }
}
