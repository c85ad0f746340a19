//! Octets that a reader reads, kept.

use crate::kinds::{Outcome, refused};
use crate::rows;
use rpki_der::*;
use std::alloc::Global;

/// What the reader does.
#[derive(Clone, Copy)]
enum Reader {
    /// It reads that many small numbers.
    Numbers(usize),
    /// It reads a SEQUENCE of two small numbers.
    Sequence,
    /// It reads one header, and no contents.
    Header,
    /// It goes on with two NULLs elsewhere.
    Elsewhere,
}

fn read(reader: Reader, cons: &mut Constructed<'_>) -> Result<(), DecodeError> {
    match reader {
        Reader::Numbers(count) => {
            for _ in 0..count {
                cons.take_u8()?;
            }
        }
        Reader::Sequence => {
            let mut contents = cons.take_sequence()?;
            contents.take_u8()?;
            contents.take_u8()?;
            contents.finish()?;
        }
        Reader::Header => {
            cons.take_header(&mut Steps::new())?;
        }
        Reader::Elsewhere => *cons = Constructed::from_slice(&[5, 0, 5, 0]),
    }
    Ok(())
}

/// A name, the octets, the reader, what is kept with the count of its headers, and how many octets remain.
const ROWS: &[(&str, &[u8], Reader, Result<(&[u8], usize), Outcome>, usize)] = &rows! {
    ("nothing", &[2, 1, 7], Reader::Numbers(0), Ok((&[], 0)), 3),
    ("two of three numbers", &[2, 1, 7, 2, 1, 8, 2, 1, 9], Reader::Numbers(2), Ok((&[2, 1, 7, 2, 1, 8], 2)), 3),
    ("a SEQUENCE, and an octet", &[0x30, 6, 2, 1, 7, 2, 1, 8, 5], Reader::Sequence,
     Ok((&[0x30, 6, 2, 1, 7, 2, 1, 8], 3)), 1),
    ("a second value of another tag", &[2, 1, 7, 4, 0], Reader::Numbers(2), Err(Outcome::Unexpected), 5),
    ("a header without its contents", &[4, 2, 7, 8], Reader::Header, Err(Outcome::Truncated), 4),
    ("a header of no contents", &[5, 0, 5], Reader::Header, Ok((&[5, 0], 1)), 1),
    ("more than there was", &[5, 0], Reader::Elsewhere, Err(Outcome::Trailing), 2),
};

fn is_kept(
    alloc: Global,
    cursor: &mut Constructed<'_>,
    reader: Reader,
    expected: Result<(&[u8], usize), Outcome>,
) -> bool {
    match (cursor.capture(alloc, |cons| read(reader, cons)), expected) {
        (Ok(kept), Ok((octets, headers))) => {
            kept.as_slice() == octets && kept.headers().len() == headers
        }
        (Err(e), Err(outcome)) => refused(&e) == outcome,
        _ => false,
    }
}

#[test]
fn what_is_read_is_kept(rt: HostRuntime) {
    for (name, octets, reader, expected, left) in ROWS {
        let mut cursor = Constructed::from_slice(octets);
        let same = is_kept(rt.alloc(), &mut cursor, *reader, *expected);
        assert!(rt; same && cursor.rest().len() == *left, "{name}");
    }
}
