//! Values whose contents a closure reads.

use crate::rows;
use bytes::Bytes;
use rpki_der::*;

/// A name, whether a SET is read, the octets, the result of a reader of one BOOLEAN inside, and how many octets remain.
const CASES: &[(&str, bool, &[u8], Result<bool, DecodeError>, usize)] = &rows! {
    ("a sequence", false, &[0x30, 3, 1, 1, 0xff, 5], Ok(true), 1),
    ("a set", true, &[0x31, 3, 1, 1, 0], Ok(false), 0),
    ("a set for a sequence", false, &[0x31, 3, 1, 1, 0], Err(DecodeError::Unexpected), 5),
    ("the primitive form", true, &[0x11, 3, 1, 1, 0], Err(DecodeError::Unexpected), 5),
    ("cut short", false, &[0x30, 3, 1, 1], Err(DecodeError::Truncated), 4),
    ("no contents", true, &[0x31, 0, 1, 1, 0], Err(DecodeError::Truncated), 5),
    ("another tag inside", false, &[0x30, 2, 5, 0], Err(DecodeError::Unexpected), 4),
    ("contents that go on", false, &[0x30, 5, 1, 1, 0, 5, 0], Err(DecodeError::Trailing), 7),
};

/// What the reader returns for the case, and how many octets remain.
fn answer(set: bool, octets: &'static [u8]) -> (Result<bool, DecodeError>, usize) {
    let source: Bytes = Bytes::from_static(octets);
    let mut cons = Constructed::new(&source);
    let found = if set {
        cons.in_set(|contents| contents.take_bool())
    } else {
        cons.in_sequence(|contents| contents.take_bool())
    };
    (found, cons.rest().len())
}

#[test]
fn contents_are_read_to_their_end(rt: HostRuntime) {
    for (name, set, octets, expected, rest) in CASES {
        let found = answer(*set, octets);
        assert!(rt; found == (*expected, *rest), "{name}");
    }
}

/// The octets, and whether they begin with the tag of a SEQUENCE.
const TAGS: &[(&str, &[u8], bool)] = &[
    ("a SEQUENCE", &[0x30, 0], true),
    ("a primitive SEQUENCE", &[0x10], true),
    ("a SET", &[0x31, 0], false),
    ("tag number 16 of class context", &[0xb0, 0], false),
    ("nothing", &[], false),
];

fn has_tag_of_sequence(octets: &'static [u8]) -> bool {
    let source: Bytes = Bytes::from_static(octets);
    Constructed::new(&source).has_tag(Tag::SEQUENCE)
}

#[test]
fn tags_are_seen_in_either_form(rt: HostRuntime) {
    for (name, octets, expected) in TAGS {
        assert!(rt; has_tag_of_sequence(octets) == *expected, "{name}");
    }
}
