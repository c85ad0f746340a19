//! Headers and tags.

use crate::kinds::{Outcome, refused};
use crate::rows;
use bytes::Bytes;
use rpki_der::*;

/// The class, the number and the form of a tag, and a length.
type Parts = (Class, u32, bool, u32);

/// The parts of a header, or the kind of the error.
type FoundHeader = Result<Parts, Outcome>;

fn parts_of(header: Header) -> Parts {
    (
        header.tag.class(),
        header.tag.number(),
        header.constructed,
        header.length,
    )
}

/// The header in front, how many octets remain, and how many headers were counted.
fn header_of(octets: &'static [u8]) -> (FoundHeader, usize, u64) {
    let source: Bytes = Bytes::from_static(octets);
    let mut cursor = Constructed::new(&source);
    let mut steps = Steps::new();
    let found = match cursor.take_header(&mut steps) {
        Ok(header) => Ok(parts_of(header)),
        Err(e) => Err(refused(&e)),
    };
    (found, cursor.rest().len(), steps.count())
}

const HEADERS: &[(&str, &[u8], FoundHeader, usize)] = &rows! {
    ("length below 128 in the long form", &[0x30, 0x81, 0x15], Err(Outcome::BadLength), 3),
    ("indefinite length", &[0x30, 0x80], Err(Outcome::BadLength), 2),
    ("length with a first octet of zero", &[0x04, 0x82, 0x00, 0x80], Err(Outcome::BadLength), 4),
    ("length in five octets", &[0x04, 0x85], Err(Outcome::BadLength), 2),
    ("length in four octets, the first zero", &[0x30, 0x84, 0x00], Err(Outcome::BadLength), 3),
    ("length in two octets, the first zero", &[0x30, 0x82, 0x00, 0x02], Err(Outcome::BadLength), 4),
    ("length 127 in the long form", &[0x30, 0x81, 0x7f], Err(Outcome::BadLength), 3),
    ("end-of-contents octets", &[0x00, 0x00], Err(Outcome::BadTag), 2),
    ("constructed end-of-contents octets", &[0x20, 0x00], Err(Outcome::BadTag), 2),
    ("tag number 30 in the long form", &[0x1f, 0x1e, 0x00], Err(Outcome::BadTag), 3),
    ("tag number with a first octet of zero", &[0x1f, 0x80, 0x01], Err(Outcome::BadTag), 3),
    ("tag number in five octets", &[0x1f, 0x81, 0x82, 0x83, 0x84], Err(Outcome::BadTag), 5),
    ("nothing", &[], Err(Outcome::Truncated), 0),
    ("first octet of a long tag number", &[0x1f], Err(Outcome::Truncated), 1),
    ("length octets cut short", &[0x04, 0x81], Err(Outcome::Truncated), 2),
    ("tag number 31", &[0x1f, 0x1f, 0x00], Ok((Class::Universal, 31, false, 0)), 0),
    ("tag number 128", &[0x1f, 0x81, 0x00, 0x00], Ok((Class::Universal, 128, false, 0)), 0),
    ("greatest tag number", &[0x1f, 0xff, 0xff, 0xff, 0x7f, 0x00], Ok((Class::Universal, 268_435_455, false, 0)), 0),
    ("length 258", &[0x30, 0x82, 0x01, 0x02], Ok((Class::Universal, 16, true, 258)), 0),
    ("greatest length", &[0x30, 0x84, 0xff, 0xff, 0xff, 0xff], Ok((Class::Universal, 16, true, 4_294_967_295)), 0),
    ("primitive of class application", &[0x41, 0x01, 0x07], Ok((Class::Application, 1, false, 1)), 1),
    ("constructed of class context", &[0xa6, 0x02, 0x05, 0x00], Ok((Class::Context, 6, true, 2)), 2),
    ("tag number of class private, length 128", b"\xff\x7f\x81\x80\x00", Ok((Class::Private, 127, true, 128)), 1),
};

#[test]
fn headers(rt: HostRuntime) {
    for (name, octets, expected, left) in HEADERS {
        let found = header_of(octets);
        assert!(rt; found == (*expected, *left, 1), "{name}");
    }
}

/// The header at the front of a slice, and how many octets follow it.
fn header_of_slice(octets: &'static [u8]) -> (FoundHeader, usize) {
    match read_header(octets) {
        Ok((header, size)) => (Ok(parts_of(header)), octets.len() - size),
        Err(e) => (Err(refused(&e)), octets.len()),
    }
}

#[test]
fn headers_of_slices(rt: HostRuntime) {
    for (name, octets, expected, left) in HEADERS {
        let found = header_of_slice(octets);
        assert!(rt; found == (*expected, *left), "{name}");
    }
}

/// A tag, its class and its number.
const TAGS: [(&str, Tag, Class, u32); 14] = rows! {
    ("BOOLEAN", Tag::BOOLEAN, Class::Universal, 1),
    ("INTEGER", Tag::INTEGER, Class::Universal, 2),
    ("BIT STRING", Tag::BIT_STRING, Class::Universal, 3),
    ("OCTET STRING", Tag::OCTET_STRING, Class::Universal, 4),
    ("NULL", Tag::NULL, Class::Universal, 5),
    ("OBJECT IDENTIFIER", Tag::OID, Class::Universal, 6),
    ("UTF8String", Tag::UTF8_STRING, Class::Universal, 12),
    ("SEQUENCE", Tag::SEQUENCE, Class::Universal, 16),
    ("SET", Tag::SET, Class::Universal, 17),
    ("PrintableString", Tag::PRINTABLE_STRING, Class::Universal, 19),
    ("IA5String", Tag::IA5_STRING, Class::Universal, 22),
    ("UTCTime", Tag::UTC_TIME, Class::Universal, 23),
    ("GeneralizedTime", Tag::GENERALIZED_TIME, Class::Universal, 24),
    ("context 6", Tag::CTX_6, Class::Context, 6),
};

#[test]
fn tags(rt: HostRuntime) {
    for (name, tag, class, number) in TAGS {
        assert!(rt; tag.class() == class && tag.number() == number, "{name}");
    }
}

#[test]
fn tags_that_are_made(rt: HostRuntime) {
    let application = Tag::new(Class::Application, 31);
    assert!(rt; application.class() == Class::Application && application.number() == 31);
    let private = Tag::new(Class::Private, 268_435_455);
    assert!(rt; private.class() == Class::Private && private.number() == 268_435_455);
}
