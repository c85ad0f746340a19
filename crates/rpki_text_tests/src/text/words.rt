//! Schemes, the texts of errors, and the characters of a URI.

use super::shown;
use rpki_text::uri::{Error, Scheme, check_uri_ascii, starts_with_ignore_case};
use std::test::Fail;

#[rattlefmt::skip]
const ERRORS: [(Error, u8, &str); 8] = [
    (Error::InvalidCharacters, 1, "invalid characters"),
    (Error::BadUri, 2, "bad URI"),
    (Error::LongUri, 3, "URI exceeds 3072 characters"),
    (Error::BadScheme, 4, "bad URI scheme"),
    (Error::DotSegments, 5, "URI with dot path segments"),
    (Error::EmptySegments, 6, "URI with empty path segments"),
    (Error::LongSegments, 7, "one or more segments are longer than 255 characters"),
    (Error::OutOfMemory, 8, "out of memory"),
];

#[test]
fn error_numbers(rt: HostRuntime) {
    for (error, number, text) in ERRORS {
        assert!(rt; error.number() == number, "{text}");
        assert!(rt; error.is_out_of_memory() == (number == 8), "{text}");
    }
}

#[test]
fn error_texts(rt: HostRuntime) -> Result<(), Fail> {
    for (error, _, text) in ERRORS {
        assert!(rt; shown(rt.alloc(), error)?.as_str() == text, "{text}");
    }
    Ok(())
}

/// A scheme, whether it is https and not rsync, its name, and how a URI of it begins, which Display prints.
const SCHEMES: [(Scheme, bool, &str, &str); 2] = [
    (Scheme::Https, true, "https", "https://"),
    (Scheme::Rsync, false, "rsync", "rsync://"),
];

#[test]
fn schemes(rt: HostRuntime) {
    for (scheme, https, name, _) in SCHEMES {
        let found = (scheme.is_https(), scheme.is_rsync(), scheme.as_str());
        assert!(rt; found == (https, !https, name), "{name}");
    }
}

#[test]
fn beginnings_of_schemes(rt: HostRuntime) -> Result<(), Fail> {
    for (scheme, _, _, beginning) in SCHEMES {
        let made = scheme.into_string(rt.alloc())?;
        assert!(rt; made.as_str() == beginning, "{beginning}");
        let printed = shown(rt.alloc(), scheme)?;
        assert!(rt; printed.as_str() == beginning, "{beginning} as printed");
    }
    Ok(())
}

const CHARACTERS: &[u8] =
    b"!$%&'()*+,-./0123456789:;=ABCDEFGHIJKLMNOPQRSTUVWXYZ_abcdefghijklmnopqrstuvwxyz~";

#[test]
fn characters(rt: HostRuntime) {
    assert!(rt; check_uri_ascii(b"").is_ok());
    assert!(rt; check_uri_ascii(CHARACTERS).is_ok());
    for octet in 0..=255u8 {
        let refused = check_uri_ascii(&[b'a', octet]) == Err(Error::InvalidCharacters);
        assert!(rt; refused != CHARACTERS.contains(&octet), "{octet}");
    }
}

/// A name, octets, and those that they begin with but for the case of letters, or not.
const BEGINNINGS: [(&str, &[u8], &[u8], bool); 5] = [
    ("other case", b"rSYNC://host", b"rsync://", true),
    ("cut short", b"rsync:/", b"rsync://", false),
    ("another letter", b"fsync://", b"rsync://", false),
    ("no octets, of none", b"", b"", true),
    ("an octet, of none", b"", b"a", false),
];

#[test]
fn beginnings(rt: HostRuntime) {
    for (name, octets, beginning, want) in BEGINNINGS {
        let found = starts_with_ignore_case(octets, beginning);
        assert!(rt; found == want, "{name}");
    }
}
