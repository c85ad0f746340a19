//! The index of headers.

use crate::rows;
use bytes::Bytes;
use rpki_der::*;
use std::alloc::Global;
use std::test::Fail;

/// What an entry has to be: place, contents, past, the number of its universal tag, whether constructed, and parent.
type Wanted = (usize, usize, usize, u32, bool, Option<usize>);

/// A value, and its index.
const ROWS: &[(&str, &[u8], &[Wanted])] = &rows! {
    ("four sequences", &[0x30, 0x06, 0x30, 0x04, 0x30, 0x02, 0x30, 0x00], &[(0, 2, 8, 16, true, None),
      (2, 4, 8, 16, true, Some(0)), (4, 6, 8, 16, true, Some(1)), (6, 8, 8, 16, true, Some(2))]),
    ("a name", &[0x30, 0x0c, 0x31, 0x0a, 0x30, 0x08, 0x06, 0x03, 0x55, 0x04, 0x03, 0x13, 0x01, 0x41],
     &[(0, 2, 14, 16, true, None), (2, 4, 14, 17, true, Some(0)), (4, 6, 14, 16, true, Some(1)),
      (6, 8, 11, 6, false, Some(2)), (11, 13, 14, 19, false, Some(2))]),
    ("values after closed ones", &[0x30, 0x0a, 0x30, 0x02, 0x30, 0x00, 0x05, 0x00, 0x31, 0x00, 0x05, 0x00],
     &[(0, 2, 12, 16, true, None), (2, 4, 6, 16, true, Some(0)), (4, 6, 6, 16, true, Some(1)),
      (6, 8, 8, 5, false, Some(0)), (8, 10, 10, 17, true, Some(0)), (10, 12, 12, 5, false, Some(0))]),
    ("NULL", &[0x05, 0x00], &[(0, 2, 2, 5, false, None)]),
};

fn is_wanted(entry: &HeaderEntry, wanted: &Wanted) -> bool {
    entry.place() == wanted.0
        && entry.contents() == wanted.1
        && entry.past() == wanted.2
        && entry.tag().class() == Class::Universal
        && entry.tag().number() == wanted.3
        && entry.constructed() == wanted.4
        && entry.parent() == wanted.5
}

fn are_wanted(index: &[HeaderEntry], wanted: &[Wanted]) -> bool {
    index.len() == wanted.len() && index.iter().zip(wanted).all(|(e, w)| is_wanted(e, w))
}

/// Whether the captured value is one, and has this index.
fn is_indexed(alloc: Global, octets: &'static [u8], wanted: &[Wanted]) -> bool {
    let source: Bytes = Bytes::from_static(octets);
    match Constructed::new(&source).capture_one(alloc) {
        Ok(found) => are_wanted(found.headers(), wanted) && found.values() == 1,
        Err(_) => false,
    }
}

#[test]
fn captured_values_have_their_index(rt: HostRuntime) {
    for (name, octets, index) in ROWS {
        assert!(rt; is_indexed(rt.alloc(), octets, index), "{name}");
    }
}

/// Whether the slice is one value, and has this index.
fn is_indexed_slice(alloc: Global, octets: &[u8], wanted: &[Wanted]) -> bool {
    match index_octets(alloc, octets) {
        Ok((size, index)) => size == octets.len() && are_wanted(index.as_slice(), wanted),
        Err(_) => false,
    }
}

#[test]
fn the_index_of_a_slice_is_the_same(rt: HostRuntime) {
    for (name, octets, index) in ROWS {
        assert!(rt; is_indexed_slice(rt.alloc(), octets, index), "{name}");
    }
}

const TWO_NULLS: [Wanted; 2] = [(0, 2, 2, 5, false, None), (2, 4, 4, 5, false, None)];

fn are_two_nulls(found: &Captured) -> bool {
    are_wanted(found.headers(), &TWO_NULLS) && found.values() == 2
}

#[test]
fn written_values_have_theirs(rt: HostRuntime) -> Result<(), Fail> {
    let nulls = (().encode(), ().encode());
    assert!(rt; nulls.fits());
    let found = Captured::from_values(rt.alloc(), &nulls)?;
    assert!(rt; are_two_nulls(&found));
    let copy = found.clone()?;
    assert!(rt; are_two_nulls(&copy), "copied");
    Ok(())
}

/// The identifier and the text of the one attribute of a name.
fn attribute_of<'a>(
    name: Constructed<'a>,
) -> Result<(Oid<&'a [u8]>, PrintableString<'a>), DecodeError> {
    let mut name = name;
    let mut relative = name.take_sequence()?.take_set()?;
    let mut attribute = relative.take_sequence()?;
    let identifier = attribute.take_oid()?;
    let text = attribute.take_printable()?;
    attribute.finish()?;
    relative.finish()?;
    name.finish()?;
    Ok((identifier, text))
}

/// A name of one attribute, the common name A.
const NAME: &[u8] = b"\x30\x0c\x31\x0a\x30\x08\x06\x03\x55\x04\x03\x13\x01\x41";

/// Whether the attribute is the common name A.
fn is_common_name(name: Constructed<'_>) -> bool {
    match attribute_of(name) {
        Ok((identifier, text)) => identifier.0 == [85, 4, 3].as_slice() && text.as_str() == "A",
        Err(_) => false,
    }
}

#[test]
fn a_cursor_on_captured_values_reads_them(rt: HostRuntime) {
    let source: Bytes = Bytes::from_static(NAME);
    assert!(rt; is_common_name(Constructed::new(&source)));
    let indexed = match Constructed::new(&source).capture_one(rt.alloc()) {
        Ok(name) => is_common_name(name.cursor()),
        Err(_) => false,
    };
    assert!(rt; indexed);
}

/// a SEQUENCE of a SEQUENCE around an empty SEQUENCE, and then of NULL, an empty SET and NULL
const NESTED: &[u8] = b"\x30\x0a\x30\x02\x30\x00\x05\x00\x31\x00\x05\x00";

/// A value, the number of a parent, the numbers of its members, and the contents of the last of these.
type Parent<'a> = (&'a str, &'a [u8], Option<usize>, &'a [usize], &'a [u8]);

const PARENTS: &[Parent<'_>] = &rows! {
    ("all values", NESTED, None, &[0], &[0x30, 0x02, 0x30, 0x00, 0x05, 0x00, 0x31, 0x00, 0x05, 0x00]),
    ("a SEQUENCE", NESTED, Some(0), &[1, 3, 4, 5], &[]),
    ("a SEQUENCE inside", NESTED, Some(1), &[2], &[]),
    ("NULL", NESTED, Some(5), &[], &[]),
    ("an extension", b"\x30\x09\x06\x03\x55\x1d\x13\x04\x02\x30\x00", Some(0), &[1, 2], &[0x30, 0x00]),
};

/// Whether these are the members of the value of this number, and the last of them has these contents.
fn has_members(found: &Captured, (_, _, number, numbers, contents): &Parent<'_>) -> bool {
    let mut members = match *number {
        None => found.members(None),
        Some(number) if number < found.headers().len() => found.members(Some(number)),
        Some(_) => return false,
    };
    for wanted in *numbers {
        if members.next() != Some(*wanted) {
            return false;
        }
    }
    let last = match numbers.last().copied() {
        Some(last) if last < found.headers().len() => found.contents(last),
        _ => b"",
    };
    members.next().is_none() && last == *contents
}

/// Whether the value is captured, and has the members of the row.
fn captures_members(alloc: Global, row: &Parent<'static>) -> bool {
    let source: Bytes = Bytes::from_static(row.1);
    match Constructed::new(&source).capture_one(alloc) {
        Ok(found) => has_members(&found, row),
        Err(_) => false,
    }
}

#[test]
fn members_are_named_in_order(rt: HostRuntime) {
    for row in PARENTS {
        assert!(rt; captures_members(rt.alloc(), row), "{}", row.0);
    }
}
