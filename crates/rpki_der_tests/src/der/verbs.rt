//! Small numbers, BOOLEAN DEFAULT FALSE, IA5String and lists.

use crate::kinds::{Outcome, by_kind, refused};
use crate::rows;
use rpki_der::*;
use std::alloc::{AllocError, Global};
use std::test::Fail;

/// A name, the octets, what `take_u8` and `take_u64` return, and how many octets each leaves.
/// The octets of the numbers are those of X.690 8.3.
const NUMBERS: &[(
    &str,
    &[u8],
    Result<u8, Outcome>,
    usize,
    Result<u64, Outcome>,
    usize,
)] = &rows! {
    ("zero", &[2, 1, 0], Ok(0), 0, Ok(0), 0),
    ("2, and an octet", &[2, 1, 2, 5], Ok(2), 1, Ok(2), 1),
    ("127", &[2, 1, 0x7f], Ok(127), 0, Ok(127), 0),
    ("128", &[2, 2, 0, 0x80], Ok(128), 0, Ok(128), 0),
    ("255", &[2, 2, 0, 0xff], Ok(255), 0, Ok(255), 0),
    ("256", &[2, 2, 1, 0], Err(Outcome::Content), 4, Ok(256), 0),
    ("2^63 - 1", &[2, 8, 0x7f, 0xff, 0xff, 0xff, 0xff, 0xff, 0xff, 0xff], Err(Outcome::Content), 10,
     Ok(9_223_372_036_854_775_807), 0),
    ("0x0102030405060708", &[2, 8, 1, 2, 3, 4, 5, 6, 7, 8], Err(Outcome::Content), 10, Ok(72_623_859_790_382_856), 0),
    ("2^64 - 1", &[2, 9, 0, 0xff, 0xff, 0xff, 0xff, 0xff, 0xff, 0xff, 0xff], Err(Outcome::Content), 11,
     Ok(18_446_744_073_709_551_615), 0),
    ("2^64", &[2, 9, 1, 0, 0, 0, 0, 0, 0, 0, 0], Err(Outcome::Content), 11, Err(Outcome::Content), 11),
    ("minus one", &[2, 1, 0xff], Err(Outcome::Content), 3, Err(Outcome::Content), 3),
    ("a needless zero", &[2, 2, 0, 0x7f], Err(Outcome::Content), 4, Err(Outcome::Content), 4),
    ("no contents", &[2, 0], Err(Outcome::Content), 2, Err(Outcome::Content), 2),
    ("a BOOLEAN", &[1, 1, 0], Err(Outcome::Unexpected), 3, Err(Outcome::Unexpected), 3),
    ("constructed", &[0x22, 1, 0], Err(Outcome::Unexpected), 3, Err(Outcome::Unexpected), 3),
    ("cut short", &[2, 2, 0], Err(Outcome::Truncated), 3, Err(Outcome::Truncated), 3),
    ("the indefinite form", &[2, 0x80, 0, 0], Err(Outcome::BadLength), 4, Err(Outcome::BadLength), 4),
};

fn small(octets: &'static [u8]) -> (Result<u8, Outcome>, usize) {
    let mut cursor = Constructed::from_slice(octets);
    let found = by_kind(cursor.take_u8());
    (found, cursor.rest().len())
}

fn large(octets: &'static [u8]) -> (Result<u64, Outcome>, usize) {
    let mut cursor = Constructed::from_slice(octets);
    let found = by_kind(cursor.take_u64());
    (found, cursor.rest().len())
}

#[test]
fn numbers_below_a_bound(rt: HostRuntime) {
    for (name, octets, byte, byte_left, long, long_left) in NUMBERS {
        assert!(rt; small(octets) == (*byte, *byte_left), "{name}");
        assert!(rt; large(octets) == (*long, *long_left), "{name}");
    }
}

/// The octets, what a reader of BOOLEAN DEFAULT FALSE returns, and how many octets it leaves.
const DEFAULTS: &[(&str, &[u8], Result<bool, Outcome>, usize)] = &rows! {
    ("nothing", &[], Ok(false), 0),
    ("another value", &[4, 1, 0xff], Ok(false), 3),
    ("TRUE", &[1, 1, 0xff], Ok(true), 0),
    ("TRUE, and an octet", &[1, 1, 0xff, 4], Ok(true), 1),
    ("FALSE, written", &[1, 1, 0], Err(Outcome::Content), 3),
    ("TRUE as 01", &[1, 1, 1], Err(Outcome::Content), 3),
    ("two octets", &[1, 2, 0xff, 0xff], Err(Outcome::Content), 4),
    ("no contents", &[1, 0], Err(Outcome::Content), 2),
    ("constructed", &[0x21, 1, 0xff], Err(Outcome::Unexpected), 3),
    ("no length", &[1], Err(Outcome::Truncated), 1),
    ("cut short", &[1, 1], Err(Outcome::Truncated), 2),
    ("a long length", &[1, 0x81, 1, 0xff], Err(Outcome::BadLength), 4),
    ("no tag", &[0, 1, 0xff], Ok(false), 3),
};

fn defaulted(octets: &'static [u8]) -> (Result<bool, Outcome>, usize) {
    let mut cursor = Constructed::from_slice(octets);
    let found = by_kind(cursor.take_bool_default_false());
    (found, cursor.rest().len())
}

#[test]
fn the_default_is_never_written(rt: HostRuntime) {
    for (name, octets, expected, left) in DEFAULTS {
        assert!(rt; defaulted(octets) == (*expected, *left), "{name}");
    }
}

/// The octets, the text of an IA5String, and how many octets remain.
const TEXTS: &[(&str, &[u8], Result<&[u8], Outcome>, usize)] = &rows! {
    ("no characters", &[0x16, 0], Ok(b""), 0),
    ("a URI", &[0x16, 4, 0x61, 0x3a, 0x2f, 0x2a, 5], Ok(b"a:/*"), 1),
    ("00 and 7F", &[0x16, 2, 0, 0x7f], Ok(&[0, 0x7f]), 0),
    ("80", &[0x16, 1, 0x80], Err(Outcome::Content), 3),
    ("UTF-8", &[0x16, 2, 0xc3, 0xa9], Err(Outcome::Content), 4),
    ("a UTF8String", &[0x0c, 1, 0x61], Err(Outcome::Unexpected), 3),
    ("constructed", &[0x36, 1, 0x61], Err(Outcome::Unexpected), 3),
    ("cut short", &[0x16, 2, 0x61], Err(Outcome::Truncated), 3),
};

fn text_taken(octets: &'static [u8]) -> (Result<&'static [u8], Outcome>, usize) {
    let mut cursor = Constructed::from_slice(octets);
    let found = by_kind(cursor.take_ia5()).map(|text| text.as_str().as_bytes());
    (found, cursor.rest().len())
}

fn contents_taken(octets: &'static [u8]) -> (Result<&'static [u8], Outcome>, usize) {
    let mut cursor = Constructed::from_slice(octets);
    let found = by_kind(take_ia5_contents(&mut cursor)).map(|contents| contents.rest());
    (found, cursor.rest().len())
}

#[test]
fn characters_of_ascii(rt: HostRuntime) {
    for (name, octets, expected, left) in TEXTS {
        assert!(rt; text_taken(octets) == (*expected, *left), "{name}");
        assert!(rt; contents_taken(octets) == (*expected, *left), "{name}");
    }
}

/// The octets, the numbers that are read in order, and how many octets remain.
const LISTS: &[(&str, &[u8], Result<&[u8], Outcome>, usize)] = &rows! {
    ("none", &[], Ok(&[]), 0),
    ("one", &[2, 1, 7], Ok(&[7]), 0),
    ("three, in order", &[2, 1, 3, 2, 1, 1, 2, 1, 2], Ok(&[3, 1, 2]), 0),
    ("a second of another tag", &[2, 1, 1, 4, 0], Err(Outcome::Unexpected), 5),
    ("a first too large", &[2, 2, 1, 0], Err(Outcome::Content), 4),
    ("a last cut short", &[2, 1, 1, 2, 1], Err(Outcome::Truncated), 5),
};

/// The small numbers that these octets are.
fn listed(alloc: Global, cursor: &mut Constructed<'_>) -> Result<Vec<u8>, DecodeError> {
    cursor.take_each(alloc, |cons| cons.take_u8())
}

fn is_list(
    alloc: Global,
    octets: &'static [u8],
    expected: Result<&[u8], Outcome>,
    left: usize,
) -> bool {
    let mut cursor = Constructed::from_slice(octets);
    let same = match (listed(alloc, &mut cursor), expected) {
        (Ok(numbers), Ok(list)) => numbers.as_slice() == list,
        (Err(e), Err(outcome)) => refused(&e) == outcome,
        _ => false,
    };
    same && cursor.rest().len() == left
}

#[test]
fn lists_keep_their_order(rt: HostRuntime) {
    for (name, octets, expected, left) in LISTS {
        assert!(rt; is_list(rt.alloc(), octets, *expected, *left), "{name}");
    }
}

/// How many values are read by a reader that reads nothing, and how many octets remain.
fn unmoved(alloc: Global, octets: &'static [u8]) -> (Result<usize, Outcome>, usize) {
    let mut cursor = Constructed::from_slice(octets);
    let found = by_kind(cursor.take_each(alloc, |cons| cons.take_bool_default_false()));
    (found.map(|values| values.len()), cursor.rest().len())
}

#[test]
fn a_reader_that_reads_nothing_ends(rt: HostRuntime) {
    let alloc = rt.alloc();
    assert!(rt; unmoved(alloc, &[]) == (Ok(0), 0));
    assert!(rt; unmoved(alloc, &[1, 1, 0xff]) == (Ok(1), 0));
    assert!(rt; unmoved(alloc, &[5, 0]) == (Err(Outcome::Trailing), 2));
    assert!(rt; unmoved(alloc, &[1, 1, 0xff, 5, 0]) == (Err(Outcome::Trailing), 5));
}

/// The octets of so many TRUEs.
fn truths(alloc: Global, count: usize) -> Result<Vec<u8>, AllocError> {
    let mut octets = Vec::new(alloc);
    for _ in 0..count {
        octets.extend_from_slice(&[1, 1, 0xff])?;
    }
    Ok(octets)
}

/// How many TRUEs are read of so many.
fn counted(alloc: Global, count: usize) -> Result<usize, DecodeError> {
    let octets = truths(alloc, count)?;
    let mut cursor = Constructed::from_slice(octets.as_slice());
    let found = cursor.take_each(alloc, |cons| cons.take_bool())?;
    Ok(found.iter().filter(|value| **value).count())
}

const COUNTS: [usize; 9] = [0, 1, 127, 128, 255, 256, 65_535, 65_536, 1_000_000];

#[test]
fn lists_of_real_sizes(rt: HostRuntime) -> Result<(), Fail> {
    for count in COUNTS {
        let found = counted(rt.alloc(), count)?;
        assert!(rt; found == count, "{count}");
    }
    Ok(())
}

/// A SEQUENCE of an OCTET STRING and a NULL, captured.
fn captured(alloc: Global) -> Result<Captured, DecodeError> {
    Constructed::from_slice(&[0x30, 5, 4, 1, 7, 5, 0]).capture_one(alloc)
}

/// What a cursor on the contents of the SEQUENCE and of the OCTET STRING has left.
fn contents_left(found: &Captured) -> (&[u8], &[u8]) {
    if found.headers().len() < 3 {
        return (&[], &[]);
    }
    (
        found.contents_cursor(0).rest(),
        found.contents_cursor(1).rest(),
    )
}

#[test]
fn contents_of_captured_values(rt: HostRuntime) -> Result<(), Fail> {
    let found = captured(rt.alloc())?;
    let (sequence, string) = contents_left(&found);
    assert!(rt; sequence == [4, 1, 7, 5, 0].as_slice());
    assert!(rt; string == [7].as_slice());
    Ok(())
}
