//! Walks over nested values.

use crate::kinds::{Outcome, by_kind, optional_outcome_of, refused};
use crate::rows;
use bytes::Bytes;
use rpki_der::*;
use std::alloc::{AllocError, Global};
use std::test::Fail;

/// What a walk over octets has to return, how many headers are counted, and how many octets remain.
const ROWS: &[(&str, &[u8], Outcome, u64, usize)] = &rows! {
    ("four sequences", &[0x30, 0x06, 0x30, 0x04, 0x30, 0x02, 0x30, 0x00], Outcome::Read, 4, 0),
    ("the third header cut short", &[0x30, 0x03, 0x30, 0x00, 0x30], Outcome::Truncated, 3, 5),
    ("half a header", &[0x30], Outcome::Truncated, 1, 1),
    ("nothing", &[], Outcome::Absent, 0, 0),
    ("a tag number of 30 in the long form inside", &[0x30, 0x04, 0x30, 0x00, 0x1f, 0x1e], Outcome::BadTag, 3, 6),
    ("a sequence that goes on past the end", &[0x30, 0x7f, 0x00, 0x00], Outcome::Truncated, 1, 4),
    ("no tag inside", &[0x30, 0x02, 0x00, 0x00], Outcome::BadTag, 2, 4),
    ("an OCTET STRING inside that goes on past the end", &[0x30, 0x02, 0x04, 0x05], Outcome::Truncated, 2, 4),
    ("a sequence inside that goes on past the end", &[0x30, 0x04, 0x30, 0x7f, 0x00, 0x00], Outcome::Truncated, 2, 6),
    ("a tag inside that is cut short", &[0x30, 0x02, 0x1f, 0x81], Outcome::Truncated, 2, 4),
    ("no length inside, in front of a value that is cut short", b"\x30\x06\x30\x02\x05\x80\x02\x05",
     Outcome::BadLength, 3, 8),
    ("no tag inside, in front of no length inside", b"\x30\x08\x30\x02\x00\x00\x30\x02\x05\x80", Outcome::BadTag,
     3, 10),
    ("a value that is cut short, in front of no tag", b"\x30\x08\x30\x04\x05\x00\x04\x01\x00\x00",
     Outcome::Truncated, 4, 10),
    ("no length of the first of two, each with values inside",
     &[0x30, 0x0c, 0x30, 0x04, 0x05, 0x00, 0x05, 0x80, 0x30, 0x04, 0x00, 0x00, 0x05, 0x00], Outcome::BadLength, 4, 14),
    ("an OCTET STRING, and an octet", &[0x04, 0x02, 0x30, 0x7f, 0x05], Outcome::Read, 1, 1),
    ("an indefinite length", &[0x30, 0x80, 0x00, 0x00], Outcome::BadLength, 1, 4),
    ("the greatest length", &[0x30, 0x84, 0xff, 0xff, 0xff, 0xff], Outcome::Truncated, 1, 6),
};

/// What a walk returns, how many headers are counted, and how many octets remain.
fn walked(alloc: Global, octets: &'static [u8]) -> (Outcome, u64, usize) {
    let source: Bytes = Bytes::from_static(octets);
    let mut cursor = Constructed::new(&source);
    let mut steps = Steps::new();
    let answer = optional_outcome_of(cursor.walk(alloc, &mut steps));
    (answer, steps.count(), cursor.rest().len())
}

#[test]
fn walks(rt: HostRuntime) {
    for (name, octets, answer, count, left) in ROWS {
        assert_eq!(rt;
            walked(rt.alloc(), octets),
            (*answer, *count, *left),
            "{name}"
        );
    }
}

/// What a call on a slice returns: where nothing is there, a value is missing.
fn of_slice(answer: Outcome) -> Outcome {
    if answer == Outcome::Absent {
        Outcome::Truncated
    } else {
        answer
    }
}

/// What a walk over the slice returns, how many headers are counted, and how many octets remain.
fn walked_slice(alloc: Global, octets: &[u8]) -> (Outcome, u64, usize) {
    let mut steps = Steps::new();
    let (answer, left) = match walk_octets(alloc, octets, &mut steps) {
        Ok(size) => (Outcome::Read, octets.len() - size),
        Err(e) => (refused(&e), octets.len()),
    };
    (answer, steps.count(), left)
}

#[test]
fn walks_a_slice(rt: HostRuntime) {
    for (name, octets, answer, count, left) in ROWS {
        let wanted = (of_slice(*answer), *count, *left);
        assert_eq!(rt; walked_slice(rt.alloc(), octets), wanted, "{name}");
    }
}

/// How many headers are in the index of the slice and how many octets remain, or the kind of the error.
fn indexed(alloc: Global, octets: &[u8]) -> Result<(u64, usize), Outcome> {
    let (size, index) = by_kind(index_octets(alloc, octets))?;
    Ok((index.len() as u64, octets.len() - size))
}

#[test]
fn indexes_a_slice(rt: HostRuntime) {
    for (name, octets, answer, count, left) in ROWS {
        let wanted = match answer {
            Outcome::Read => Ok((*count, *left)),
            _ => Err(of_slice(*answer)),
        };
        assert_eq!(rt; indexed(rt.alloc(), octets), wanted, "{name}");
    }
}

/// The octets that a cursor on the slice captures, or the kind of the error; and how many octets remain.
fn captured_of_slice(alloc: Global, octets: &[u8]) -> (Result<Captured, Outcome>, usize) {
    let mut cursor = Constructed::from_slice(octets);
    let found = by_kind(cursor.capture_one(alloc));
    (found, cursor.rest().len())
}

#[test]
fn a_cursor_on_a_slice_captures_the_same(rt: HostRuntime) {
    for (name, octets, answer, _, left) in ROWS {
        let (found, found_left) = captured_of_slice(rt.alloc(), octets);
        let same = match found {
            Ok(found) => *answer == Outcome::Read && octets.starts_with(found.as_slice()),
            Err(outcome) => outcome == of_slice(*answer),
        };
        assert!(rt; same && found_left == *left, "{name}");
    }
}

/// What skipping a value returns, and how many octets remain.
fn skipped(alloc: Global, octets: &'static [u8]) -> (Outcome, usize) {
    let source: Bytes = Bytes::from_static(octets);
    let mut cursor = Constructed::new(&source);
    let answer = optional_outcome_of(cursor.skip_one(alloc));
    (answer, cursor.rest().len())
}

#[test]
fn skips(rt: HostRuntime) {
    for (name, octets, answer, _, left) in ROWS {
        assert_eq!(rt; skipped(rt.alloc(), octets), (*answer, *left), "{name}");
    }
}

/// What passing over a value in place returns, and how many octets remain.
fn skipped_in_place(octets: &'static [u8]) -> (Outcome, usize) {
    let mut cursor = Constructed::from_slice(octets);
    let answer = optional_outcome_of(cursor.skip_nested());
    (answer, cursor.rest().len())
}

#[test]
fn skips_in_place(rt: HostRuntime) {
    for (name, octets, answer, _, left) in ROWS {
        assert_eq!(rt; skipped_in_place(octets), (*answer, *left), "{name}");
    }
}

/// The octets of the value in front, of which there is one, or the kind of the error; and how many octets remain.
fn captured(alloc: Global, octets: &'static [u8]) -> (Result<Captured, Outcome>, usize) {
    let source: Bytes = Bytes::from_static(octets);
    let mut cursor = Constructed::new(&source);
    let found = by_kind(cursor.capture_one(alloc));
    (found, cursor.rest().len())
}

/// A value of a SEQUENCE, with an octet after it.
const WITH_REST: &[u8] = &[0x30, 0x02, 0x02, 0x00, 0xff];

const WITHOUT_REST: &[u8] = &[0x30, 0x02, 0x02, 0x00];

/// The octet after the value.
const REST: &[u8] = &[0xff];

#[test]
fn captures(rt: HostRuntime) -> Result<(), Fail> {
    let source: Bytes = Bytes::from_static(WITH_REST);
    let mut cursor = Constructed::new(&source);
    let Some(captured) = cursor.capture_one(rt.alloc()).ok() else {
        return Err("refused".into());
    };
    assert!(rt; captured.as_slice() == WITHOUT_REST);
    assert!(rt; captured.values() == 1);
    assert!(rt; cursor.rest() == REST);
    Ok(())
}

#[test]
fn captured_values_are_copied(rt: HostRuntime) -> Result<(), Fail> {
    let Some(captured) = captured(rt.alloc(), WITH_REST).0.ok() else {
        return Err("refused".into());
    };
    let copy = captured.clone()?;
    assert!(rt; copy.cursor().rest() == captured.as_slice());
    let bytes = copy.into_bytes();
    assert!(rt; bytes.as_slice() == captured.as_slice());
    Ok(())
}

/// Whether one value was captured, and with the rest it is all of the octets.
fn is_front(found: &Captured, left: usize, octets: &[u8]) -> bool {
    found.values() == 1
        && octets.starts_with(found.as_slice())
        && found.as_slice().len().checked_add(left) == Some(octets.len())
}

#[test]
fn captures_stop_at_the_same_faults(rt: HostRuntime) {
    for (name, octets, answer, _, left) in ROWS {
        let (found, found_left) = captured(rt.alloc(), octets);
        let same = match found {
            Ok(found) => *answer == Outcome::Read && is_front(&found, found_left, octets),
            Err(outcome) => outcome == of_slice(*answer),
        };
        assert!(rt; same && found_left == *left, "{name}");
    }
}

/// Values with an octet after each.
const VALUES: &[(&str, &[u8])] = &rows! {
    ("four sequences", b"\x30\x06\x30\x04\x30\x02\x30\0\0"),
    ("signed data", b"\x30\x15\x30\0\x30\x0d\x06\x09\x2a\x86\x48\x86\xf7\x0d\x01\x01\x0b\x05\0\x03\x02\0\xaa\0"),
    ("a name", b"\x30\x0c\x31\x0a\x30\x08\x06\x03\x55\x04\x03\x13\x01\x41\0"),
    ("a period", b"\x30\x20\x17\x0d200101000000Z\x18\x0f20500101000000Z\0"),
    ("the greatest tag number", b"\x1f\xff\xff\xff\x7f\x01\x07\0"),
    ("NULL", b"\x05\0\0"),
};

/// Whether so many octets in front are cut short, so that no value is captured.
fn is_truncated(alloc: Global, octets: &'static [u8], cut: usize) -> bool {
    if cut > octets.len() {
        return false;
    }
    let (found, left) = captured(alloc, &octets[..cut]);
    matches!(found, Err(Outcome::Truncated)) && left == cut
}

#[test]
fn beginnings_of_values_are_truncated(rt: HostRuntime) {
    for (name, octets) in VALUES {
        for cut in 0..octets.len().saturating_sub(1) {
            let truncated = is_truncated(rt.alloc(), octets, cut);
            assert!(rt; truncated, "{cut} octets of {name}");
        }
    }
}

/// The octets that are captured, and what comes of the end after them.
fn captured_to_end(
    alloc: Global,
    octets: &'static [u8],
) -> (Option<Captured>, Result<(), DecodeError>) {
    let source: Bytes = Bytes::from_static(octets);
    let mut cursor = Constructed::new(&source);
    let found = cursor.capture_one(alloc).ok();
    (found, cursor.finish())
}

#[test]
fn an_octet_after_a_value_trails(rt: HostRuntime) {
    for (name, octets) in VALUES {
        let (found, end) = captured_to_end(rt.alloc(), octets);
        let same = match found {
            Some(found) => octets
                .split_last()
                .is_some_and(|parts| parts.1 == found.as_slice()),
            None => false,
        };
        assert!(rt; same, "{name}");
        assert!(rt; end == Err(DecodeError::Trailing), "end of {name}");
    }
}

/// So many SEQUENCEs, each but the last around the next.
fn nested(alloc: Global, levels: usize) -> Result<Bytes, AllocError> {
    // from the innermost out, each header backwards
    let mut octets = Vec::new(alloc);
    for _ in 0..levels {
        let length = octets.len();
        octets.push((length % 256) as u8)?;
        if length >= 256 {
            octets.push((length / 256 % 256) as u8)?;
            octets.push(0x82)?;
        } else if length >= 128 {
            octets.push(0x81)?;
        }
        octets.push(0x30)?;
    }
    octets.as_mut_slice().reverse();
    let source = Bytes::from_vec(octets)?;
    Ok(source)
}

#[test]
fn nesting_has_no_limit(rt: HostRuntime) -> Result<(), Fail> {
    for levels in [1, 63, 64, 65, 128, 1_000, 10_000] {
        let source = nested(rt.alloc(), levels)?;
        let mut walked = Constructed::new(&source);
        let mut steps = Steps::new();
        let found = walked.walk(rt.alloc(), &mut steps);
        assert_eq!(rt; found, Ok(Some(())), "{levels}");
        assert_eq!(rt; steps.count(), levels as u64);
        assert!(rt; walked.is_empty(), "{levels}");
        let mut skipped = Constructed::new(&source);
        assert_eq!(rt; skipped.skip_one(rt.alloc()), Ok(Some(())), "{levels}");
        assert!(rt; skipped.is_empty(), "{levels}");
        let mut in_place = Constructed::new(&source);
        assert_eq!(rt; in_place.skip_nested(), Ok(Some(())), "{levels}");
        assert!(rt; in_place.is_empty(), "{levels}");
        let mut cursor = Constructed::new(&source);
        let same = match cursor.capture_one(rt.alloc()) {
            Ok(found) => found.as_slice() == source.as_slice(),
            Err(_) => false,
        };
        assert!(rt; same, "{levels}");
    }
    Ok(())
}
