//! Verbs that signed objects are read by: an INTEGER that is given, one below 2^32, octets of a size, and identifiers
//! that are kept.

use crate::kinds::{Outcome, by_kind, refused};
use crate::rows;
use bytes::Bytes;
use rpki_der::*;
use std::alloc::{AllocError, Global};

/// A name, the octets (X.690 8.3), what `take_u32` returns, and how many octets it leaves.
const NUMBERS: &[(&str, &[u8], Result<u32, Outcome>, usize)] = &rows! {
    ("zero, and an octet", &[2, 1, 0, 9], Ok(0), 1),
    ("64512", &[2, 3, 0, 0xfc, 0], Ok(64_512), 0),
    ("2^31 - 1", &[2, 4, 0x7f, 0xff, 0xff, 0xff], Ok(2_147_483_647), 0),
    ("2^32 - 1", &[2, 5, 0, 0xff, 0xff, 0xff, 0xff], Ok(4_294_967_295), 0),
    ("2^32", &[2, 5, 1, 0, 0, 0, 0], Err(Outcome::Content), 7),
    ("minus one", &[2, 1, 0xff], Err(Outcome::Content), 3),
    ("a needless zero", &[2, 2, 0, 1], Err(Outcome::Content), 4),
    ("a BOOLEAN", &[1, 1, 0], Err(Outcome::Unexpected), 3),
    ("cut short", &[2, 2, 1], Err(Outcome::Truncated), 3),
};

fn number(octets: &'static [u8]) -> (Result<u32, Outcome>, usize) {
    let mut cursor = Constructed::from_slice(octets);
    let found = by_kind(cursor.take_u32());
    (found, cursor.rest().len())
}

#[test]
fn numbers_below_2_32(rt: HostRuntime) {
    for (name, octets, found, left) in NUMBERS {
        assert!(rt; number(octets) == (*found, *left), "{name}");
    }
}

/// A name, the octets, the number that is expected, how `skip_u8_if` ends, and how many octets it leaves.
const SKIPPED: &[(&str, &[u8], u8, Result<(), Outcome>, usize)] = &rows! {
    ("version 1, and an octet", &[2, 1, 1, 9], 1, Ok(()), 1),
    ("version 3", &[2, 1, 3], 3, Ok(()), 0),
    ("255", &[2, 2, 0, 0xff], 255, Ok(()), 0),
    ("the number before", &[2, 1, 2], 3, Err(Outcome::Content), 3),
    ("the number after", &[2, 1, 4], 3, Err(Outcome::Content), 3),
    ("256 for 0", &[2, 2, 1, 0], 0, Err(Outcome::Content), 4),
    ("a needless zero", &[2, 2, 0, 3], 3, Err(Outcome::Content), 4),
    ("an OCTET STRING", &[4, 1, 3], 3, Err(Outcome::Unexpected), 3),
    ("cut short", &[2, 1], 3, Err(Outcome::Truncated), 2),
};

fn skipped(octets: &'static [u8], expected: u8) -> (Result<(), Outcome>, usize) {
    let mut cursor = Constructed::from_slice(octets);
    let found = by_kind(cursor.skip_u8_if(expected));
    (found, cursor.rest().len())
}

#[test]
fn a_number_that_is_given(rt: HostRuntime) {
    for (name, octets, expected, found, left) in SKIPPED {
        assert!(rt; skipped(octets, *expected) == (*found, *left), "{name}");
    }
}

/// A name, the octets, what a reader of an OCTET STRING of three octets returns, and how many octets it leaves.
const SIZED: &[(&str, &[u8], Result<[u8; 3], Outcome>, usize)] = &rows! {
    ("three", &[4, 3, 7, 8, 9, 5], Ok([7, 8, 9]), 1),
    ("none", &[4, 0], Err(Outcome::Content), 2),
    ("two", &[4, 2, 7, 8], Err(Outcome::Content), 4),
    ("four", &[4, 4, 7, 8, 9, 5], Err(Outcome::Content), 6),
    ("an INTEGER", &[2, 3, 7, 8, 9], Err(Outcome::Unexpected), 5),
    ("constructed", &[0x24, 3, 4, 1, 7], Err(Outcome::Unexpected), 5),
    ("cut short", &[4, 3, 7, 8], Err(Outcome::Truncated), 4),
};

fn sized(octets: &'static [u8]) -> (Result<[u8; 3], Outcome>, usize) {
    let mut cursor = Constructed::from_slice(octets);
    let found: Result<[u8; 3], DecodeError> = cursor.take_octet_array();
    (by_kind(found), cursor.rest().len())
}

#[test]
fn octets_of_a_size(rt: HostRuntime) {
    for (name, octets, found, left) in SIZED {
        assert!(rt; sized(octets) == (*found, *left), "{name}");
    }
}

/// A name, the octets, the contents of the identifier that is kept, and how many octets remain.
/// The contents are those of X.690 8.19.
const IDENTIFIERS: &[(&str, &[u8], Result<&[u8], Outcome>, usize)] = &rows! {
    ("2.5.4.3", &[6, 3, 85, 4, 3, 5], Ok(&[85, 4, 3]), 1),
    ("1.2.840", &[6, 3, 42, 134, 72], Ok(&[42, 134, 72]), 0),
    ("no contents", &[6, 0], Err(Outcome::Content), 2),
    ("a subidentifier that begins with 80", &[6, 3, 42, 128, 1], Err(Outcome::Content), 5),
    ("a subidentifier that is cut", &[6, 2, 42, 134], Err(Outcome::Content), 4),
    ("a NULL", &[5, 0], Err(Outcome::Unexpected), 2),
    ("cut short", &[6, 3, 85, 4], Err(Outcome::Truncated), 4),
};

/// Whether these contents were kept, or the kind is that of the error.
fn is_kept(
    found: Result<Oid<Bytes>, DecodeError>,
    expected: Result<&'static [u8], Outcome>,
) -> bool {
    match (found, expected) {
        (Ok(oid), Ok(contents)) => oid.0.as_slice() == contents,
        (Err(e), Err(outcome)) => refused(&e) == outcome,
        _ => false,
    }
}

/// Whether a copy and what is shared are as expected.
fn are_kept(
    alloc: Global,
    octets: &'static [u8],
    expected: Result<&'static [u8], Outcome>,
    left: usize,
) -> Result<bool, AllocError> {
    let mut copied = Constructed::from_slice(octets);
    let copy = is_kept(copied.take_oid_bytes(alloc), expected);
    let bytes = Bytes::copy_from_slice(alloc, octets)?;
    let mut shared = Constructed::new(&bytes);
    let part = is_kept(shared.take_oid_bytes(Shared::new(alloc, &bytes)), expected);
    Ok(copy && part && copied.rest().len() == left && shared.rest().len() == left)
}

#[test]
fn identifiers_that_are_kept(rt: HostRuntime) {
    for (name, octets, expected, left) in IDENTIFIERS {
        let same = are_kept(rt.alloc(), octets, *expected, *left);
        assert!(rt; matches!(same, Ok(true)), "{name}");
    }
}
