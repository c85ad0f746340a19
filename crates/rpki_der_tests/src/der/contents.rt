//! Bit strings, numbers, object identifiers, texts and errors.

use crate::kinds::{Outcome, outcome_of, refused};
use crate::rows;
use bytes::Bytes;
use rpki_der::*;
use std::alloc::{AllocError, Global};
use std::test::Fail;

/// The unused bits and the octets of a bit string, or the kind of the error.
const BITS: &[(&str, &[u8], Result<(u8, &[u8]), Outcome>)] = &rows! {
    ("no count of unused bits", &[0x03, 0x00], Err(Outcome::Content)),
    ("unused bits without an octet", &[0x03, 0x01, 0x01], Err(Outcome::Content)),
    ("8 unused bits", &[0x03, 0x02, 0x08, 0x00], Err(Outcome::Content)),
    ("unused bits that are not zero", &[0x03, 0x02, 0x02, 0xaa], Err(Outcome::Content)),
    ("constructed", &[0x23, 0x00], Err(Outcome::Unexpected)),
    ("cut short", &[0x03, 0x02, 0x00], Err(Outcome::Truncated)),
    ("no bits", &[0x03, 0x01, 0x00], Ok((0, &[]))),
    ("7 bits", &[0x03, 0x02, 0x01, 0xaa], Ok((1, &[0xaa]))),
    ("9 bits", &[0x03, 0x03, 0x07, 0xff, 0x80], Ok((7, &[0xff, 0x80]))),
};

/// The bit string at the front.
fn taken(alloc: Global, cursor: &mut Constructed<'_>) -> Result<BitString, DecodeError> {
    cursor.take_bit_string(alloc)
}

fn is_bits(alloc: Global, octets: &'static [u8], expected: Result<(u8, &[u8]), Outcome>) -> bool {
    let source: Bytes = Bytes::from_static(octets);
    let mut cursor = Constructed::new(&source);
    match (taken(alloc, &mut cursor), expected) {
        (Ok(found), Ok((unused, octets))) => {
            found.unused() == unused && found.octet_slice() == octets && cursor.is_empty()
        }
        (Err(e), Err(outcome)) => refused(&e) == outcome && cursor.rest() == octets,
        _ => false,
    }
}

#[test]
fn bit_strings_are_read(rt: HostRuntime) {
    for (name, octets, expected) in BITS {
        assert!(rt; is_bits(rt.alloc(), octets, *expected), "{name}");
    }
}

/// The octets of the number without leading zeros.
fn magnitude(octets: &'static [u8]) -> Result<&'static [u8], InvalidInteger> {
    Ok(Unsigned::from_slice(octets)?.as_slice())
}

const MAGNITUDES: &[(&str, &[u8], Result<&[u8], InvalidInteger>)] = &[
    ("nothing", &[], Err(InvalidInteger::Empty)),
    ("zero", &[0], Ok(&[0])),
    ("three zeros", &[0, 0, 0], Ok(&[0])),
    ("128 after a zero", &[0, 0x80], Ok(&[0x80])),
    ("65537", &[1, 0, 1], Ok(&[1, 0, 1])),
];

#[test]
fn magnitudes(rt: HostRuntime) {
    for (name, octets, expected) in MAGNITUDES {
        let found = magnitude(octets);
        assert!(rt; found == *expected, "{name}");
    }
}

/// Whether an identifier is valid and is 2.999.3, and what it gives to be read, skipped, and skipped if it is 2.999.3.
type Identified = ((bool, bool), [Outcome; 4]);

/// The identifier 2.999.3.
const EXAMPLE: ConstOid = Oid(&[0x88, 0x37, 0x03]);

fn identifier_of(octets: &'static [u8]) -> Identified {
    let source: Bytes = Bytes::from_static(octets);
    let (valid, taken) = match Oid::take_from(&mut Constructed::new(&source)) {
        Ok(found) => ((found.is_valid(), found == EXAMPLE), Outcome::Read),
        Err(e) => ((false, false), refused(&e)),
    };
    let skipped = outcome_of(Oid::skip_in(&mut Constructed::new(&source)));
    let example = outcome_of(EXAMPLE.skip_if(&mut Constructed::new(&source)));
    let by_cursor = outcome_of(Constructed::new(&source).skip_oid_if(EXAMPLE));
    (valid, [taken, skipped, example, by_cursor])
}

const IDENTIFIERS: &[(&str, &[u8], Identified)] = &rows! {
    ("2.999.3", &[0x06, 0x03, 0x88, 0x37, 0x03], ((true, true), [Outcome::Read; 4])),
    ("2.5.4.3", &[0x06, 0x03, 0x55, 0x04, 0x03],
     ((true, false), [Outcome::Read, Outcome::Read, Outcome::Content, Outcome::Content])),
    ("2.999 and half an arc", &[0x06, 0x03, 0x88, 0x37, 0x83], ((false, false), [Outcome::Content; 4])),
    ("NULL", &[0x05, 0x00], ((false, false), [Outcome::Unexpected; 4])),
    ("cut short", &[0x06, 0x03, 0x88], ((false, false), [Outcome::Truncated; 4])),
};

#[test]
fn identifiers(rt: HostRuntime) {
    let by_hand: ConstOid = Oid(&[0x80, 0x01]);
    assert!(rt; !by_hand.is_valid(), "by hand");
    for (name, octets, expected) in IDENTIFIERS {
        assert!(rt; identifier_of(octets) == *expected, "{name}");
    }
}

/// 7 bits.
const SEVEN: &[u8] = &[0x03, 0x02, 0x01, 0xaa];

const SEVEN_OCTETS: &[u8] = &[0xaa];

#[test]
fn bit_strings(rt: HostRuntime) -> Result<(), Fail> {
    let source: Bytes = Bytes::from_static(SEVEN);
    let bits = taken(rt.alloc(), &mut Constructed::new(&source))?;
    assert!(rt; bits.unused() == 1);
    assert!(rt; bits.octet_slice() == SEVEN_OCTETS);
    assert!(rt; bits.octet_bytes()?.as_slice() == SEVEN_OCTETS);
    Ok(())
}

#[test]
fn bit_strings_are_equal(rt: HostRuntime) -> Result<(), Fail> {
    let source: Bytes = Bytes::from_static(SEVEN);
    let bits = taken(rt.alloc(), &mut Constructed::new(&source))?;
    assert!(rt; bits.clone()? == bits);
    let other = BitString::new(0, Bytes::from_static(SEVEN_OCTETS));
    assert!(rt; !(other == bits));
    Ok(())
}

const TEXTS: &[u8] = b"\x13\x02\x41\x3f\x0c\x02\xc3\xa9\x04\x01\x07";

/// The contents of a PrintableString, a UTF8String and an OCTET STRING.
fn texts_of<'a>(source: &'a Bytes) -> Result<(&'a str, &'a str, &'a [u8]), DecodeError> {
    let mut cursor = Constructed::new(source);
    let printable = cursor.take_printable()?.as_str();
    let text = cursor.take_utf8()?.as_str();
    let octets = cursor.take_octets()?;
    cursor.finish()?;
    Ok((printable, text, octets))
}

#[test]
fn texts(rt: HostRuntime) -> Result<(), Fail> {
    let source: Bytes = Bytes::from_static(TEXTS);
    let (printable, text, octets) = texts_of(&source)?;
    assert!(rt; printable == "A?");
    assert!(rt; text == "é");
    assert!(rt; octets == [7].as_slice());
    Ok(())
}

/// Whether nothing remains after the third of the texts.
fn ends_after_texts(source: &Bytes) -> Result<bool, DecodeError> {
    let mut cursor = Constructed::new(source);
    cursor.take_printable()?;
    cursor.take_utf8()?;
    cursor.take_octets()?;
    Ok(cursor.is_empty())
}

#[test]
fn nothing_is_left_after_texts(rt: HostRuntime) -> Result<(), Fail> {
    let source: Bytes = Bytes::from_static(TEXTS);
    assert!(rt; ends_after_texts(&source)?);
    Ok(())
}

/// The characters of a PrintableString (X.680 41.4, table 10).
const PRINTABLE: &[u8] =
    b"ABCDEFGHIJKLMNOPQRSTUVWXYZabcdefghijklmnopqrstuvwxyz0123456789 '()+,-./:=?";

/// Whether a PrintableString of this octet is read as it.
fn is_printable(alloc: Global, octet: u8) -> Result<bool, AllocError> {
    let mut octets = Vec::new(alloc);
    octets.extend_from_slice(&[0x13, 0x01, octet])?;
    let source = Bytes::from_vec(octets)?;
    Ok(match Constructed::new(&source).take_printable() {
        Ok(text) => text.as_str().as_bytes() == [octet].as_slice(),
        Err(e) => refused(&e) != Outcome::Content,
    })
}

#[test]
fn printable_characters(rt: HostRuntime) -> Result<(), Fail> {
    assert!(rt; PRINTABLE.len() == 74);
    for octet in 0..=255u8 {
        let found = is_printable(rt.alloc(), octet)?;
        assert!(rt; found == PRINTABLE.contains(&octet), "{octet}");
    }
    Ok(())
}

fn errors() -> [(DecodeError, u8, &'static str); 7] {
    [
        (DecodeError::Truncated, 1, "truncated value"),
        (DecodeError::BadTag, 2, "malformed tag"),
        (DecodeError::BadLength, 3, "malformed length"),
        (DecodeError::Unexpected, 4, "unexpected value"),
        (
            DecodeError::content("malformed time value"),
            5,
            "malformed time value",
        ),
        (DecodeError::Trailing, 6, "trailing data"),
        (DecodeError::OutOfMemory, 7, "out of memory"),
    ]
}

fn told(alloc: Global, error: DecodeError) -> Result<String, Fail> {
    Ok(format!(in alloc; "{error}")?)
}

#[test]
fn errors_have_numbers_and_texts(rt: HostRuntime) -> Result<(), Fail> {
    for (error, number, text) in errors() {
        assert!(rt; error.number() == number, "{text}");
        let words = told(rt.alloc(), error)?;
        assert!(rt; words.as_str() == text, "{text}");
        let inner = shown(rt.alloc(), ContentError::from(error))?;
        assert!(rt; inner.as_str() == text, "{text}");
    }
    Ok(())
}

#[test]
fn errors_are_kept(rt: HostRuntime) {
    let inner = ContentError::from_static("malformed time value");
    let kept = ContentError::from(DecodeError::Content(inner));
    assert!(rt; kept == inner);
    assert!(rt; DecodeError::content("malformed time value") == DecodeError::Content(inner));
    assert!(rt; inner != ContentError::from_static("malformed"));
}

fn shown(alloc: Global, error: ContentError) -> Result<String, Fail> {
    Ok(format!(in alloc; "{error}")?)
}

#[test]
fn errors_of_memory_are_kept(rt: HostRuntime) {
    assert!(rt; DecodeError::from(AllocError) == DecodeError::OutOfMemory);
    assert!(rt; InvalidInteger::from(AllocError) == InvalidInteger::OutOfMemory);
}

/// A count of unused bits, octets, and whether they make a bit string.
const LEGAL: &[(&str, u8, &[u8], bool)] = &[
    ("no bits", 0, &[], true),
    ("an unused bit of none", 1, &[], false),
    ("8 bits", 0, &[0xff], true),
    ("9 bits", 7, &[0xff, 0x80], true),
    ("unused bits that are set", 7, &[0x80, 0xff], false),
    ("8 unused bits", 8, &[0x00], false),
    ("7 bits", 1, &[0xaa], true),
    ("an unused bit of two that is set", 2, &[0xaa], false),
];

#[test]
fn bit_strings_are_legal(rt: HostRuntime) {
    for (name, unused, octets, legal) in LEGAL {
        assert!(rt; BitString::is_legal(*unused, octets) == *legal, "{name}");
    }
}
