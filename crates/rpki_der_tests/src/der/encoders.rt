//! Encoders, and writers that fail.

use crate::rows;
use bytes::Bytes;
use rpki_der::*;
use std::alloc::{AllocError, Global};
use std::io;
use std::io::{ErrorKind, Write};
use std::test::Fail;

const COMMON_NAME: ConstOid = Oid(&[85, 4, 3]);

#[derive(Clone, Copy, Debug)]
enum Leaf {
    Null,
    True,
    False,
    Identifier,
    Bits,
    BorrowedBits,
    NoBits,
    Octets,
    Uri,
    Number,
    HighNumber,
    Zero,
}

#[derive(Clone, Copy, Debug)]
enum Composed {
    Sequence,
    EmptySequence,
    Set,
    Wrapped,
    Pair,
    Triple,
    Nothing,
    Something,
    Captured,
}

/// How a writer fails: after so many calls, with an error of this kind, at that one call or from there on.
#[derive(Clone, Copy, Debug)]
struct Failure {
    calls: usize,
    kind: ErrorKind,
    once: bool,
}

/// The kinds of error of a writer that fails, at one call alone or from there on.
const FAILURES: [(ErrorKind, bool); 4] = [
    (ErrorKind::BrokenPipe, false),
    (ErrorKind::BrokenPipe, true),
    (ErrorKind::Interrupted, false),
    (ErrorKind::Interrupted, true),
];

/// Takes at most so many octets at a call, and fails as configured.
#[derive(Drop)]
struct Failing {
    held: Vec<u8>,
    most: usize,
    failure: Failure,
}

impl Write for Failing {
    fn write(&mut self, octets: &[u8]) -> io::Result<usize> {
        if self.failure.calls == 0 {
            if self.failure.once {
                self.failure.calls = usize::MAX;
            }
            return Err(io::Error::from(self.failure.kind));
        }
        self.failure.calls -= 1;
        let count = octets.len().min(self.most);
        self.held.extend_from_slice(&octets[..count])?;
        Ok(count)
    }

    fn flush(&mut self) -> io::Result<()> {
        Ok(())
    }
}

/// Where values are written.
#[derive(Clone, Copy, Debug)]
enum Sink {
    Captured,
    /// A writer that takes an octet at a call, and fails.
    Writer(Failure),
}

/// What is written: the octets, how many values and octets they are, and why the writer failed.
#[derive(Drop)]
struct Writing {
    octets: Bytes,
    values: u64,
    len: u64,
    error: Option<ErrorKind>,
}

/// What is written of values, where they fit.
type Written = Result<Option<Writing>, AllocError>;

/// The values that are written, where they fit.
fn written<V: Values>(alloc: Global, sink: Sink, values: &V) -> Written {
    if !values.fits() {
        return Ok(None);
    }
    let len = values.encoded_len();
    let (octets, values, error) = match sink {
        Sink::Captured => {
            let found = Captured::from_values(alloc, values)?;
            let count = found.values() as u64;
            (found.into_bytes(), count, None)
        }
        Sink::Writer(failure) => {
            let mut out = Failing {
                held: Vec::new(alloc),
                most: 1,
                failure,
            };
            let error = kind_of_error(values.write_encoded(&mut out));
            (Bytes::from_vec(out.held)?, values.count(), error)
        }
    };
    Ok(Some(Writing {
        octets,
        values,
        len,
        error,
    }))
}

/// Whether these octets were written, and so many values; or, by a writer that failed after so many octets, those.
fn is_written(outcome: Option<Writing>, sink: Sink, values: u64, expected: &[u8]) -> bool {
    let Some(found) = outcome else {
        return false;
    };
    let (held, error) = match sink {
        Sink::Writer(failure) if failure.calls < expected.len() => {
            (failure.calls, Some(failure.kind))
        }
        _ => (expected.len(), None),
    };
    found.octets.as_slice() == &expected[..held]
        && found.values == values
        && found.len == expected.len() as u64
        && found.error == error
}

fn bits(unused: u8, octets: &'static [u8]) -> Option<BitString> {
    if !BitString::is_legal(unused, octets) {
        return None;
    }
    Some(BitString::new(unused, Bytes::from_static(octets)))
}

fn bits_written(alloc: Global, sink: Sink, unused: u8, octets: &'static [u8]) -> Written {
    match bits(unused, octets) {
        Some(found) => written(alloc, sink, &found.encode()),
        None => Ok(None),
    }
}

fn borrowed_bits_written(alloc: Global, sink: Sink, unused: u8, octets: &'static [u8]) -> Written {
    match bits(unused, octets) {
        Some(found) => written(alloc, sink, &found.encode_ref()),
        None => Ok(None),
    }
}

fn number_written(alloc: Global, sink: Sink, octets: &'static [u8]) -> Written {
    match Unsigned::from_slice(octets) {
        Ok(found) => written(alloc, sink, &found.encode()),
        Err(_) => Ok(None),
    }
}

fn leaf_written(alloc: Global, sink: Sink, leaf: Leaf) -> Written {
    match leaf {
        Leaf::Null => written(alloc, sink, &().encode()),
        Leaf::True => written(alloc, sink, &true.encode()),
        Leaf::False => written(alloc, sink, &false.encode()),
        Leaf::Identifier => written(alloc, sink, &COMMON_NAME.encode()),
        Leaf::Bits => bits_written(alloc, sink, 1, &[0xaa]),
        Leaf::BorrowedBits => borrowed_bits_written(alloc, sink, 1, &[0xaa]),
        Leaf::NoBits => bits_written(alloc, sink, 0, &[]),
        Leaf::Octets => written(alloc, sink, &b"ab".as_slice().encode()),
        Leaf::Uri => written(alloc, sink, &b"ab".as_slice().encode_as(Tag::CTX_6)),
        Leaf::Number => number_written(alloc, sink, &[0x00, 0x01, 0x00, 0x01]),
        Leaf::HighNumber => number_written(alloc, sink, &[0x00, 0x80]),
        Leaf::Zero => number_written(alloc, sink, &[0x00]),
    }
}

fn composed_written(alloc: Global, sink: Sink, composed: Composed) -> Written {
    match composed {
        Composed::Sequence => {
            let values = (COMMON_NAME.encode(), ().encode());
            written(alloc, sink, &Sequence::new(values))
        }
        Composed::EmptySequence => written(alloc, sink, &Sequence::new(None::<Primitive<()>>)),
        Composed::Set => written(alloc, sink, &Set::new(true.encode())),
        Composed::Wrapped => written(alloc, sink, &Wrapped::new(Sequence::new(().encode()))),
        Composed::Pair => written(alloc, sink, &(().encode(), true.encode())),
        Composed::Triple => written(alloc, sink, &(true.encode(), ().encode(), false.encode())),
        Composed::Nothing => written(alloc, sink, &None::<Primitive<()>>),
        Composed::Something => written(alloc, sink, &Some(().encode())),
        Composed::Captured => {
            let inner = (().encode(), ().encode());
            if !inner.fits() {
                return Ok(None);
            }
            let inner = Captured::from_values(alloc, &inner)?;
            written(alloc, sink, &Set::new(&inner))
        }
    }
}

const LEAVES: &[(Leaf, &[u8])] = &[
    (Leaf::Null, &[0x05, 0x00]),
    (Leaf::True, &[0x01, 0x01, 0xff]),
    (Leaf::False, &[0x01, 0x01, 0x00]),
    (Leaf::Identifier, &[0x06, 0x03, 0x55, 0x04, 0x03]),
    (Leaf::Bits, &[0x03, 0x02, 0x01, 0xaa]),
    (Leaf::BorrowedBits, &[0x03, 0x02, 0x01, 0xaa]),
    (Leaf::NoBits, &[0x03, 0x01, 0x00]),
    (Leaf::Octets, &[0x04, 0x02, 0x61, 0x62]),
    (Leaf::Uri, &[0x86, 0x02, 0x61, 0x62]),
    (Leaf::Number, &[0x02, 0x03, 0x01, 0x00, 0x01]),
    (Leaf::HighNumber, &[0x02, 0x02, 0x00, 0x80]),
    (Leaf::Zero, &[0x02, 0x01, 0x00]),
];

const COMPOSED: &[(Composed, u64, &[u8])] = &rows! {
    (Composed::Sequence, 1, &[0x30, 0x07, 0x06, 0x03, 0x55, 0x04, 0x03, 0x05, 0x00]),
    (Composed::EmptySequence, 1, &[0x30, 0x00]),
    (Composed::Set, 1, &[0x31, 0x03, 0x01, 0x01, 0xff]),
    (Composed::Wrapped, 1, &[0x04, 0x04, 0x30, 0x02, 0x05, 0x00]),
    (Composed::Pair, 2, &[0x05, 0x00, 0x01, 0x01, 0xff]),
    (Composed::Triple, 3, &[0x01, 0x01, 0xff, 0x05, 0x00, 0x01, 0x01, 0x00]),
    (Composed::Nothing, 0, &[]),
    (Composed::Something, 1, &[0x05, 0x00]),
    (Composed::Captured, 1, &[0x31, 0x04, 0x05, 0x00, 0x05, 0x00]),
};

#[test]
fn leaves_are_captured(rt: HostRuntime) -> Result<(), Fail> {
    for (leaf, expected) in LEAVES {
        let found = leaf_written(rt.alloc(), Sink::Captured, *leaf)?;
        assert!(rt; is_written(found, Sink::Captured, 1, expected), "{leaf:?}");
    }
    Ok(())
}

#[test]
fn composed_values_are_captured(rt: HostRuntime) -> Result<(), Fail> {
    for (composed, values, expected) in COMPOSED {
        let found = composed_written(rt.alloc(), Sink::Captured, *composed)?;
        let same = is_written(found, Sink::Captured, *values, expected);
        assert!(rt; same, "{composed:?}");
    }
    Ok(())
}

/// Whether a writer that fails holds what it took before, whenever it fails.
fn is_leaf_cut(
    alloc: Global,
    (kind, once): (ErrorKind, bool),
    (leaf, expected): &(Leaf, &[u8]),
) -> Result<bool, AllocError> {
    for calls in 0..=expected.len() {
        let sink = Sink::Writer(Failure { calls, kind, once });
        if !is_written(leaf_written(alloc, sink, *leaf)?, sink, 1, expected) {
            return Ok(false);
        }
    }
    Ok(true)
}

/// The same of a composed value.
fn is_composed_cut(
    alloc: Global,
    (kind, once): (ErrorKind, bool),
    (composed, values, expected): &(Composed, u64, &[u8]),
) -> Result<bool, AllocError> {
    for calls in 0..=expected.len() {
        let sink = Sink::Writer(Failure { calls, kind, once });
        let found = composed_written(alloc, sink, *composed)?;
        if !is_written(found, sink, *values, expected) {
            return Ok(false);
        }
    }
    Ok(true)
}

#[test]
fn the_first_error_of_a_writer_ends_a_leaf(rt: HostRuntime) -> Result<(), Fail> {
    for row in LEAVES {
        for failure in FAILURES {
            let cut = is_leaf_cut(rt.alloc(), failure, row)?;
            assert!(rt; cut, "{:?}, {failure:?}", row.0);
        }
    }
    Ok(())
}

#[test]
fn the_first_error_of_a_writer_ends_a_composed_value(rt: HostRuntime) -> Result<(), Fail> {
    for row in COMPOSED {
        for failure in FAILURES {
            let cut = is_composed_cut(rt.alloc(), failure, row)?;
            assert!(rt; cut, "{:?}, {failure:?}", row.0);
        }
    }
    Ok(())
}

const LENGTHS: &[(usize, &[u8])] = &[
    (0, &[0x04, 0x00]),
    (127, &[0x04, 0x7f]),
    (128, &[0x04, 0x81, 0x80]),
    (200, &[0x04, 0x81, 0xc8]),
    (256, &[0x04, 0x82, 0x01, 0x00]),
    (65_535, &[0x04, 0x82, 0xff, 0xff]),
    (65_536, &[0x04, 0x83, 0x01, 0x00, 0x00]),
];

/// Whether an OCTET STRING of so many octets has this header.
fn has_header(alloc: Global, length: usize, header: &[u8]) -> Result<bool, AllocError> {
    let mut octets = Vec::new(alloc);
    octets.resize(length, 0x61u8)?;
    let Some(found) = written(alloc, Sink::Captured, &octets.as_slice().encode())? else {
        return Ok(false);
    };
    Ok(
        found.octets.len().checked_sub(header.len()) == Some(length)
            && found.octets.as_slice().starts_with(header),
    )
}

#[test]
fn lengths_take_the_shortest_form(rt: HostRuntime) -> Result<(), Fail> {
    for (length, header) in LENGTHS {
        assert!(rt; has_header(rt.alloc(), *length, header)?, "{length}");
    }
    Ok(())
}

/// A tag, and the octets of an empty value of it.
const TAGS: [(&str, Tag, &[u8]); 14] = rows! {
    ("BOOLEAN", Tag::BOOLEAN, &[0x01, 0x00]),
    ("INTEGER", Tag::INTEGER, &[0x02, 0x00]),
    ("BIT STRING", Tag::BIT_STRING, &[0x03, 0x00]),
    ("OCTET STRING", Tag::OCTET_STRING, &[0x04, 0x00]),
    ("NULL", Tag::NULL, &[0x05, 0x00]),
    ("OBJECT IDENTIFIER", Tag::OID, &[0x06, 0x00]),
    ("UTF8String", Tag::UTF8_STRING, &[0x0c, 0x00]),
    ("SEQUENCE", Tag::SEQUENCE, &[0x10, 0x00]),
    ("SET", Tag::SET, &[0x11, 0x00]),
    ("PrintableString", Tag::PRINTABLE_STRING, &[0x13, 0x00]),
    ("IA5String", Tag::IA5_STRING, &[0x16, 0x00]),
    ("UTCTime", Tag::UTC_TIME, &[0x17, 0x00]),
    ("GeneralizedTime", Tag::GENERALIZED_TIME, &[0x18, 0x00]),
    ("context 6", Tag::CTX_6, &[0x86, 0x00]),
};

/// Whether an empty value of the tag has these octets.
fn is_tagged(alloc: Global, tag: Tag, expected: &[u8]) -> Result<bool, AllocError> {
    match written(alloc, Sink::Captured, &().encode_as(tag))? {
        Some(found) => Ok(found.octets.as_slice() == expected),
        None => Ok(false),
    }
}

#[test]
fn tags_have_their_octets(rt: HostRuntime) -> Result<(), Fail> {
    for (name, tag, expected) in TAGS {
        assert!(rt; is_tagged(rt.alloc(), tag, expected)?, "{name}");
    }
    Ok(())
}

/// The tag of a type, and the octets of an empty value of it.
fn tags_of_types() -> [(&'static str, Tag, &'static [u8]); 7] {
    rows! {
        ("()", <()>::TAG, &[0x05, 0x00]),
        ("bool", <bool>::TAG, &[0x01, 0x00]),
        ("ConstOid", <ConstOid>::TAG, &[0x06, 0x00]),
        ("&[u8]", <&'static [u8]>::TAG, &[0x04, 0x00]),
        ("BitString", <BitString>::TAG, &[0x03, 0x00]),
        ("&BitString", <&'static BitString>::TAG, &[0x03, 0x00]),
        ("Unsigned", <Unsigned<'static>>::TAG, &[0x02, 0x00]),
    }
}

#[test]
fn tags_of_types_have_theirs(rt: HostRuntime) -> Result<(), Fail> {
    for (name, tag, expected) in tags_of_types() {
        assert!(rt; is_tagged(rt.alloc(), tag, expected)?, "{name}");
    }
    Ok(())
}

/// A tag that is made, and the octets of an empty value of it.
fn made_tags() -> [(&'static str, Tag, &'static [u8]); 4] {
    rows! {
        ("context 31", Tag::new(Class::Context, 31), &[0x9f, 0x1f, 0x00]),
        ("private 127", Tag::new(Class::Private, 127), &[0xdf, 0x7f, 0x00]),
        ("application 128", Tag::new(Class::Application, 128), &[0x5f, 0x81, 0x00, 0x00]),
        ("the greatest of class universal", Tag::new(Class::Universal, 268_435_455), b"\x1f\xff\xff\xff\x7f\x00"),
    }
}

#[test]
fn tags_that_are_made_have_theirs(rt: HostRuntime) -> Result<(), Fail> {
    for (name, tag, expected) in made_tags() {
        assert!(rt; is_tagged(rt.alloc(), tag, expected)?, "{name}");
    }
    Ok(())
}

/// A writer of so many octets a call, of which so many work before the one that fails.
fn failing_writer(alloc: Global, most: usize, calls: usize) -> Failing {
    let failure = Failure {
        calls,
        kind: ErrorKind::BrokenPipe,
        once: true,
    };
    Failing {
        held: Vec::new(alloc),
        most,
        failure,
    }
}

fn kind_of_error(outcome: io::Result<()>) -> Option<ErrorKind> {
    match outcome {
        Ok(()) => None,
        Err(e) => Some(e.kind()),
    }
}

/// The octets of a sequence of an identifier and a NULL: the pieces have 2, 2, 3 and 2 octets.
const PIECES: &[u8] = &[0x30, 0x07, 0x06, 0x03, 0x55, 0x04, 0x03, 0x05, 0x00];

/// What the writer returned, where the sequence fits.
fn write_pieces(out: &mut Failing) -> Option<io::Result<()>> {
    let values = Sequence::new((COMMON_NAME.encode(), ().encode()));
    if !values.fits() {
        return None;
    }
    Some(values.write_encoded(out))
}

/// Octets a call, calls, octets that are held, and the error.
const WRITTEN_PIECES: &[(usize, usize, &[u8], Option<ErrorKind>)] = &rows! {
    (2, 2, &[0x30, 0x07, 0x06, 0x03], Some(ErrorKind::BrokenPipe)),
    (2, 4, &[0x30, 0x07, 0x06, 0x03, 0x55, 0x04, 0x03], Some(ErrorKind::BrokenPipe)),
    (2, 5, PIECES, None),
    (100, 2, &[0x30, 0x07, 0x06, 0x03], Some(ErrorKind::BrokenPipe)),
    (100, 4, PIECES, None),
    (0, 100, &[], Some(ErrorKind::WriteZero)),
};

#[test]
fn pieces_are_written(rt: HostRuntime) {
    for (most, calls, held, error) in WRITTEN_PIECES {
        let mut out = failing_writer(rt.alloc(), *most, *calls);
        let kind = write_pieces(&mut out).map(kind_of_error);
        let same = out.held.as_slice() == *held;
        assert!(rt; kind == Some(*error), "{most} octets a call, {calls} calls");
        assert!(rt; same, "{most} octets a call, {calls} calls: held");
    }
}

/// Octets that are written after one that is held.
const WHOLE: &[u8] = &[1, 2, 3, 4, 5, 6, 7, 8, 9];

/// Octets a call, calls, all octets that are held, and the error.
const WRITTEN_WHOLE: &[(usize, usize, &[u8], Option<ErrorKind>)] = &rows! {
    (1, 0, &[7], Some(ErrorKind::BrokenPipe)),
    (1, 5, &[7, 1, 2, 3, 4, 5], Some(ErrorKind::BrokenPipe)),
    (1, 9, &[7, 1, 2, 3, 4, 5, 6, 7, 8, 9], None),
    (4, 2, &[7, 1, 2, 3, 4, 5, 6, 7, 8], Some(ErrorKind::BrokenPipe)),
    (4, 3, &[7, 1, 2, 3, 4, 5, 6, 7, 8, 9], None),
    (100, 1, &[7, 1, 2, 3, 4, 5, 6, 7, 8, 9], None),
    (0, 100, &[7], Some(ErrorKind::WriteZero)),
};

#[test]
fn octets_are_written_whole(rt: HostRuntime) -> Result<(), Fail> {
    for (most, calls, held, error) in WRITTEN_WHOLE {
        let mut out = failing_writer(rt.alloc(), *most, *calls);
        out.held.push(7)?;
        let kind = kind_of_error(write_whole(&mut out, WHOLE));
        let same = out.held.as_slice() == *held;
        assert!(rt; kind == *error, "{most} octets a call, {calls} calls");
        assert!(rt; same, "{most} octets a call, {calls} calls: held");
    }
    Ok(())
}
