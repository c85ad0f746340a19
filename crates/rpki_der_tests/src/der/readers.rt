//! Readers of one value.

use crate::kinds::{Outcome, by_kind, outcome_of, refused};
use crate::rows;
use bytes::Bytes;
use rpki_der::*;

/// The reader that a case calls.
#[derive(Clone, Copy, Debug)]
enum Reader {
    Null,
    Boolean,
    Unsigned,
    Identifier,
    Octets,
    Printable,
    Utf8,
    Tagged,
    Sequence,
    Set,
    OptionalNull,
    OptionalBoolean,
    OptionalTagged,
    OptionalSequence,
    OptionalSet,
}

/// The octets of the contents.
fn contents_of<'a>(content: Content<'a>) -> &'a [u8] {
    match content {
        Content::Primitive(octets) => octets,
        Content::Constructed(inside) => inside.rest(),
    }
}

/// The value of an optional reader, or `Absent` for None.
fn there<T: Drop>(answer: Result<Option<T>, DecodeError>) -> Result<T, Outcome> {
    match answer {
        Ok(Some(found)) => Ok(found),
        Ok(None) => Err(Outcome::Absent),
        Err(e) => Err(refused(&e)),
    }
}

/// The word of a truth value.
fn word_of(value: bool) -> &'static [u8] {
    if value { b"true" } else { b"false" }
}

/// The octets of the value that the reader returned, or the kind of its error.
fn read<'a>(reader: Reader, cursor: &mut Constructed<'a>) -> Result<&'a [u8], Outcome> {
    Ok(match reader {
        Reader::Null => by_kind(cursor.take_null()).map(|_| b"".as_slice())?,
        Reader::Boolean => word_of(by_kind(cursor.take_bool())?),
        Reader::Unsigned => by_kind(cursor.take_unsigned())?.as_slice(),
        Reader::Identifier => by_kind(cursor.take_oid())?.0,
        Reader::Octets => by_kind(cursor.take_octets())?,
        Reader::Printable => by_kind(cursor.take_printable())?.as_str().as_bytes(),
        Reader::Utf8 => by_kind(cursor.take_utf8())?.as_str().as_bytes(),
        Reader::Tagged => contents_of(by_kind(cursor.take_value_if(Tag::CTX_6))?),
        Reader::Sequence => by_kind(cursor.take_sequence())?.rest(),
        Reader::Set => by_kind(cursor.take_set())?.rest(),
        Reader::OptionalNull => there(cursor.take_opt_null()).map(|_| b"".as_slice())?,
        Reader::OptionalBoolean => word_of(there(cursor.take_opt_bool())?),
        Reader::OptionalTagged => contents_of(there(cursor.take_opt_value_if(Tag::CTX_6))?),
        Reader::OptionalSequence => there(cursor.take_opt_sequence())?.rest(),
        Reader::OptionalSet => there(cursor.take_opt_set())?.rest(),
    })
}

const LEAVES: &[(&str, Reader, &[u8], Result<&[u8], Outcome>, usize)] = &rows! {
    ("a NULL, and an octet", Reader::Null, &[0x05, 0x00, 0xff], Ok(&[]), 1),
    ("a NULL with contents", Reader::Null, &[0x05, 0x01, 0x00], Err(Outcome::Content), 3),
    ("constructed NULL", Reader::Null, &[0x25, 0x00], Err(Outcome::Unexpected), 2),
    ("NULL cut short", Reader::Null, &[0x05, 0x01], Err(Outcome::Truncated), 2),
    ("true", Reader::Boolean, &[0x01, 0x01, 0xff], Ok(b"true"), 0),
    ("false", Reader::Boolean, &[0x01, 0x01, 0x00], Ok(b"false"), 0),
    ("true that is not FF", Reader::Boolean, &[0x01, 0x01, 0x01], Err(Outcome::Content), 3),
    ("BOOLEAN without contents", Reader::Boolean, &[0x01, 0x00], Err(Outcome::Content), 2),
    ("INTEGER without contents", Reader::Unsigned, &[0x02, 0x00], Err(Outcome::Content), 2),
    ("negative INTEGER", Reader::Unsigned, &[0x02, 0x01, 0x80], Err(Outcome::Content), 3),
    ("INTEGER with a needless zero", Reader::Unsigned, &[0x02, 0x02, 0x00, 0x7f], Err(Outcome::Content), 4),
    ("INTEGER 128", Reader::Unsigned, &[0x02, 0x02, 0x00, 0x80], Ok(&[0x80]), 0),
    ("INTEGER 0, and an octet", Reader::Unsigned, &[0x02, 0x01, 0x00, 0x01], Ok(&[0x00]), 1),
    ("INTEGER 65537", Reader::Unsigned, &[0x02, 0x03, 0x01, 0x00, 0x01], Ok(&[0x01, 0x00, 0x01]), 0),
    ("OBJECT IDENTIFIER without contents", Reader::Identifier, &[0x06, 0x00], Err(Outcome::Content), 2),
    ("OBJECT IDENTIFIER cut inside an arc", Reader::Identifier, &[0x06, 0x01, 0x80], Err(Outcome::Content), 3),
    ("arc with a first octet of 80", Reader::Identifier, &[0x06, 0x02, 0x80, 0x01], Err(Outcome::Content), 4),
    ("later arc with a first octet of 80", Reader::Identifier, b"\x06\x03\x2a\x80\x01", Err(Outcome::Content), 5),
    ("OBJECT IDENTIFIER 1.2.3", Reader::Identifier, &[0x06, 0x02, 0x2a, 0x03], Ok(&[0x2a, 0x03]), 0),
    ("OCTET STRING, and an octet", Reader::Octets, &[0x04, 0x02, 0x01, 0x02, 0x03], Ok(&[0x01, 0x02]), 1),
    ("constructed OCTET STRING", Reader::Octets, &[0x24, 0x00], Err(Outcome::Unexpected), 2),
    ("PrintableString", Reader::Printable, &[0x13, 0x02, 0x41, 0x3f], Ok(b"A?"), 0),
    ("PrintableString with an asterisk", Reader::Printable, &[0x13, 0x01, 0x2a], Err(Outcome::Content), 3),
    ("UTF8String", Reader::Utf8, &[0x0c, 0x02, 0xc3, 0xa9], Ok(&[0xc3, 0xa9]), 0),
    ("UTF8String cut inside a character", Reader::Utf8, &[0x0c, 0x01, 0xc3], Err(Outcome::Content), 3),
    ("primitive value of the tag", Reader::Tagged, &[0x86, 0x01, 0x61], Ok(&[0x61]), 0),
    ("constructed value of the tag", Reader::Tagged, &[0xa6, 0x02, 0x1f, 0x1e, 0x05], Ok(&[0x1f, 0x1e]), 1),
    ("value of another tag", Reader::Tagged, &[0x16, 0x05], Err(Outcome::Unexpected), 2),
    ("SEQUENCE, and an octet", Reader::Sequence, &[0x30, 0x02, 0x02, 0x05, 0x01], Ok(&[0x02, 0x05]), 1),
    ("SET for a SEQUENCE", Reader::Sequence, &[0x31, 0x7f], Err(Outcome::Unexpected), 2),
    ("primitive SEQUENCE", Reader::Sequence, &[0x10, 0x00], Err(Outcome::Unexpected), 2),
    ("SET", Reader::Set, &[0x31, 0x01, 0x00], Ok(&[0x00]), 0),
    ("SEQUENCE with a bad length for a SET", Reader::Set, &[0x30, 0x81, 0x00], Err(Outcome::BadLength), 3),
    ("no NULL at the end", Reader::OptionalNull, &[], Err(Outcome::Absent), 0),
    ("no NULL but a SEQUENCE", Reader::OptionalNull, &[0x30, 0x00], Err(Outcome::Absent), 2),
    ("NULL of one octet", Reader::OptionalNull, &[0x05], Err(Outcome::Truncated), 1),
    ("optional NULL that is constructed", Reader::OptionalNull, &[0x25, 0x00], Err(Outcome::Unexpected), 2),
    ("optional NULL", Reader::OptionalNull, &[0x05, 0x00, 0x05], Ok(&[]), 1),
    ("no NULL but half a tag", Reader::OptionalNull, &[0x1f], Err(Outcome::Absent), 1),
    ("no BOOLEAN at the end", Reader::OptionalBoolean, &[], Err(Outcome::Absent), 0),
    ("no BOOLEAN but an OCTET STRING", Reader::OptionalBoolean, &[0x04, 0x00], Err(Outcome::Absent), 2),
    ("BOOLEAN of one octet", Reader::OptionalBoolean, &[0x01], Err(Outcome::Truncated), 1),
    ("optional BOOLEAN that is constructed", Reader::OptionalBoolean, &[0x21, 0x00], Err(Outcome::Unexpected), 2),
    ("optional true that is not FF", Reader::OptionalBoolean, &[0x01, 0x01, 0x01], Err(Outcome::Content), 3),
    ("optional false", Reader::OptionalBoolean, &[0x01, 0x01, 0x00, 0x04], Ok(b"false"), 1),
    ("optional value that is constructed", Reader::OptionalTagged, &[0xa6, 0x01, 0x05, 0x06], Ok(&[0x05]), 1),
    ("optional value that is primitive", Reader::OptionalTagged, &[0x86, 0x01, 0x61], Ok(&[0x61]), 0),
    ("optional value cut short", Reader::OptionalTagged, &[0x86, 0x01], Err(Outcome::Truncated), 2),
    ("no value of the tag", Reader::OptionalTagged, &[0x06, 0x00], Err(Outcome::Absent), 2),
    ("no value at the end", Reader::OptionalTagged, &[], Err(Outcome::Absent), 0),
    ("optional SEQUENCE", Reader::OptionalSequence, &[0x30, 0x02, 0x02, 0x05, 0x01], Ok(&[0x02, 0x05]), 1),
    ("optional SEQUENCE that is primitive", Reader::OptionalSequence, &[0x10, 0x00], Err(Outcome::Unexpected), 2),
    ("no SEQUENCE but a SET", Reader::OptionalSequence, &[0x31, 0x00], Err(Outcome::Absent), 2),
    ("no SEQUENCE but half a tag", Reader::OptionalSequence, &[0x1f], Err(Outcome::Absent), 1),
    ("optional SET", Reader::OptionalSet, &[0x31, 0x01, 0x00], Ok(&[0x00]), 0),
    ("optional SET with a bad length", Reader::OptionalSet, &[0x31, 0x81, 0x00], Err(Outcome::BadLength), 3),
    ("optional SET cut short and primitive", Reader::OptionalSet, &[0x11], Err(Outcome::Truncated), 1),
    ("no SET but a SEQUENCE", Reader::OptionalSet, &[0x30, 0x00], Err(Outcome::Absent), 2),
};

#[test]
fn leaves(rt: HostRuntime) {
    for (name, reader, octets, expected, left) in LEAVES {
        let source: Bytes = Bytes::from_static(octets);
        let mut cursor = Constructed::new(&source);
        let found = read(*reader, &mut cursor);
        assert!(rt;
            (found, cursor.rest().len()) == (*expected, *left),
            "{name}"
        );
    }
}

/// Whether the value in front has this tag, form and contents, and one octet follows it.
fn is_value(octets: &'static [u8], tag: Tag, constructed: bool, contents: &[u8]) -> bool {
    let source: Bytes = Bytes::from_static(octets);
    let mut cursor = Constructed::new(&source);
    let same = match cursor.take_value() {
        Ok((found, content)) => {
            let is_constructed = matches!(content, Content::Constructed(_));
            found == tag && is_constructed == constructed && contents_of(content) == contents
        }
        Err(_) => false,
    };
    same && cursor.rest().len() == 1
}

/// How a reader of a value of any tag ends.
fn any_value(octets: &'static [u8]) -> Outcome {
    let source: Bytes = Bytes::from_static(octets);
    outcome_of(Constructed::new(&source).take_value())
}

const VALUES: [(&str, &[u8], Tag, bool, &[u8]); 5] = rows! {
    ("a SEQUENCE", &[0x30, 0x02, 0x05, 0x01, 0x00], Tag::SEQUENCE, true, &[0x05, 0x01]),
    ("a primitive SEQUENCE", &[0x10, 0x02, 0x05, 0x01, 0x00], Tag::SEQUENCE, false, &[0x05, 0x01]),
    ("a primitive value of class context", &[0x86, 0x01, 0x61, 0x00], Tag::CTX_6, false, &[0x61]),
    ("a constructed value of class context", &[0xa6, 0x00, 0x00], Tag::CTX_6, true, &[]),
    ("an INTEGER without contents", &[0x02, 0x00, 0x00], Tag::INTEGER, false, &[]),
};

#[test]
fn values_of_any_tag(rt: HostRuntime) {
    for (name, octets, tag, constructed, contents) in VALUES {
        assert!(rt; is_value(octets, tag, constructed, contents), "{name}");
    }
}

#[test]
fn refusals_of_any_tag(rt: HostRuntime) {
    assert!(rt; any_value(&[0x30, 0x02, 0x05]) == Outcome::Truncated);
    assert!(rt; any_value(&[0x00, 0x00]) == Outcome::BadTag);
    assert!(rt; any_value(&[0x30, 0x80]) == Outcome::BadLength);
}
