//! URIs as general names and as IA5Strings.

use bytes::Bytes;
use rpki_der::{Captured, Constructed, DecodeError, PrimitiveContent, Tag, Values};
use rpki_der_tests::kinds::{Outcome, refused};
use rpki_text::uri::{Error, Https, Rsync};
use std::alloc::Global;

/// A URI, and what is before its text in a general name.
const NAMES: [(&str, &[u8]); 4] = [
    ("rSync://hOst/module/", &[0x86, 0x14]),
    ("rsync://host/module/foo/bar", &[0x86, 0x1b]),
    ("hTtps://eXample.com/some", &[0x86, 0x18]),
    ("https://", &[0x86, 0x08]),
];

/// Values that fit, captured.
fn captured<V: Values>(alloc: Global, values: &V) -> Result<Option<Captured>, Error> {
    if !values.fits() {
        return Ok(None);
    }
    Ok(Some(Captured::from_values(alloc, values)?))
}

/// The general name of the text, by whichever of the two reads it.
fn general_name(alloc: Global, text: &str) -> Result<Option<Captured>, Error> {
    match Rsync::from_str(alloc, text) {
        Ok(uri) => captured(alloc, &uri.encode_general_name()),
        Err(_) => captured(alloc, &Https::from_str(alloc, text)?.encode_general_name()),
    }
}

/// A URI, and what is before its text in an IA5String.
const STRINGS: [(&str, &[u8]); 2] = [
    ("rSync://hOst/module/", &[0x16, 0x14]),
    ("hTtps://eXample.com/some", &[0x16, 0x18]),
];

/// The IA5String of the text, by whichever of the two reads it.
fn ia5_string(alloc: Global, text: &str) -> Result<Option<Captured>, Error> {
    match Rsync::from_str(alloc, text) {
        Ok(uri) => captured(alloc, &(&uri).encode()),
        Err(_) => captured(alloc, &(&Https::from_str(alloc, text)?).encode()),
    }
}

/// Whether octets were captured: what is in front, and then the text.
fn has_front_and_text(found: Result<Option<Captured>, Error>, front: &[u8], text: &str) -> bool {
    match found {
        Ok(Some(found)) => found.as_slice().strip_prefix(front) == Some(text.as_bytes()),
        Ok(None) | Err(_) => false,
    }
}

#[test]
fn ia5_strings(rt: HostRuntime) {
    for (text, front) in STRINGS {
        let string = ia5_string(rt.alloc(), text);
        assert!(rt; has_front_and_text(string, front, text), "{text}");
    }
}

#[test]
fn general_names(rt: HostRuntime) {
    for (text, front) in NAMES {
        let name = general_name(rt.alloc(), text);
        assert!(rt; has_front_and_text(name, front, text), "{text}");
    }
}

/// A text that is read, or the error.
type Read = Result<&'static str, Outcome>;

/// A name, the octets, and the texts of the rsync and of the https URI, each with how many octets remain.
#[rattlefmt::skip]
const READ: &[(&str, &[u8], Read, usize, Read, usize)] = &[
    ("an rsync URI, and an octet", b"\x86\x14rSync://hOst/module/\x05", Ok("rSync://hOst/module/"), 1,
        Err(Outcome::Content), 23),
    ("an https URI", b"\x86\x18hTtps://eXample.com/some", Err(Outcome::Content), 26, Ok("hTtps://eXample.com/some"), 0),
    ("an http URI", b"\x86\x08http://a", Err(Outcome::Content), 10, Err(Outcome::Content), 10),
    ("a DNS name", b"\x82\x08https://", Err(Outcome::Unexpected), 10, Err(Outcome::Unexpected), 10),
    ("an IA5String", b"\x16\x08https://", Err(Outcome::Unexpected), 10, Err(Outcome::Unexpected), 10),
    ("constructed", b"\xa6\x08https://", Err(Outcome::Unexpected), 10, Err(Outcome::Unexpected), 10),
    ("cut short", b"\x86\x09https://", Err(Outcome::Truncated), 10, Err(Outcome::Truncated), 10),
    ("nothing", b"", Err(Outcome::Truncated), 0, Err(Outcome::Truncated), 0),
];

/// Whether this was read, or refused.
fn is_read(found: Result<&str, &DecodeError>, expected: Read) -> bool {
    match (found, expected) {
        (Ok(found), Ok(text)) => found == text,
        (Err(e), Err(outcome)) => refused(e) == outcome,
        _ => false,
    }
}

/// Whether the cursor gives the URI, or the kind of the error, and leaves so many octets.
fn is_rsync(alloc: Global, mut cursor: Constructed<'_>, expected: Read, left: usize) -> bool {
    let uri = Rsync::take_general_name(alloc, &mut cursor);
    is_read(uri.as_ref().map(|uri| uri.as_str()), expected) && cursor.rest().len() == left
}

fn is_https(alloc: Global, mut cursor: Constructed<'_>, expected: Read, left: usize) -> bool {
    let uri = Https::take_general_name(alloc, &mut cursor);
    is_read(uri.as_ref().map(|uri| uri.as_str()), expected) && cursor.rest().len() == left
}

#[test]
fn general_names_are_read(rt: HostRuntime) {
    let alloc = rt.alloc();
    for (name, octets, rsync, rsync_left, https, https_left) in READ {
        let source: Bytes = Bytes::from_static(octets);
        for cursor in [Constructed::new(&source), Constructed::from_slice(octets)] {
            let is_read = is_rsync(alloc, cursor, *rsync, *rsync_left);
            assert!(rt; is_read, "{name}, rsync");
            let is_read = is_https(alloc, cursor, *https, *https_left);
            assert!(rt; is_read, "{name}, https");
        }
    }
}

/// The contents of a value of context tag 6, and how many octets remain.
fn contents_of(alloc: Global, mut cursor: Constructed<'_>) -> (Result<Bytes, Outcome>, usize) {
    let found = match cursor.take_primitive_bytes_if(alloc, Tag::CTX_6) {
        Ok(bytes) => Ok(bytes),
        Err(e) => Err(refused(&e)),
    };
    (found, cursor.rest().len())
}

#[test]
fn contents_are_shared(rt: HostRuntime) {
    let octets: &'static [u8] = b"\x86\x02\x00\xff\x05";
    let source: Bytes = Bytes::from_static(octets);
    let (shared, left) = contents_of(rt.alloc(), Constructed::new(&source));
    assert!(rt; left == 1 && shared.is_ok_and(|bytes| bytes.as_slice() == [0, 0xff].as_slice()));
    let (copied, left) = contents_of(rt.alloc(), Constructed::from_slice(octets));
    assert!(rt; left == 1 && copied.is_ok_and(|bytes| bytes.as_slice() == [0, 0xff].as_slice()));
}
