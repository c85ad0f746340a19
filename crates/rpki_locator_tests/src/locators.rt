//! Locators that are read, and texts that are none (RFC 8630 2.2).

use bytes::Bytes;
use rpki::crypto::PublicKey;
use rpki_locator::{AnchorUri, Locator, LocatorError};
use std::alloc::{AllocError, Global};

/// The key in base 64, as openssl writes it, in lines of 64 digits.
const KEY: &[&str] = &[
    "MIIBIjANBgkqhkiG9w0BAQEFAAOCAQ8AMIIBCgKCAQEAwzkcmsH/rmRa/d5AxQIi",
    "/vUG1rYFDxT64m1Qevp4P4kcyCquqsZ9Et3flepGRS4PZtnXCr7A6hdDPqynV/ht",
    "ogZ95cjTd+tS8QLDLPc03oUKtStLRhKQ++1xb1ejv/9Gee4+DuPwiyqKqPx86ArI",
    "5wrp1zlmZPuFQ3lenDDREE5ymOZ6ejJoerPv/mVbPirVa7r+DhUYQwbNrIxsDnYU",
    "s8D6Ht9l224wZlcsgJQdOe+agxoN0z1q2TG0MIYV7f2kPqJLpY3cmUxXNittVd9o",
    "eICUDCHu9SU3aLJrT11y/BctJHqosjeXfR27pm1KGS+5TzBG1zMx3DrG3S7zjTOa",
    "dwIDAQAB",
];

/// The octets of the key, as openssl writes them.
const OCTETS: &[u8] = &[
    0x30, 0x82, 0x01, 0x22, 0x30, 0x0d, 0x06, 0x09, 0x2a, 0x86, 0x48, 0x86, 0xf7, 0x0d, 0x01, 0x01,
    0x01, 0x05, 0x00, 0x03, 0x82, 0x01, 0x0f, 0x00, 0x30, 0x82, 0x01, 0x0a, 0x02, 0x82, 0x01, 0x01,
    0x00, 0xc3, 0x39, 0x1c, 0x9a, 0xc1, 0xff, 0xae, 0x64, 0x5a, 0xfd, 0xde, 0x40, 0xc5, 0x02, 0x22,
    0xfe, 0xf5, 0x06, 0xd6, 0xb6, 0x05, 0x0f, 0x14, 0xfa, 0xe2, 0x6d, 0x50, 0x7a, 0xfa, 0x78, 0x3f,
    0x89, 0x1c, 0xc8, 0x2a, 0xae, 0xaa, 0xc6, 0x7d, 0x12, 0xdd, 0xdf, 0x95, 0xea, 0x46, 0x45, 0x2e,
    0x0f, 0x66, 0xd9, 0xd7, 0x0a, 0xbe, 0xc0, 0xea, 0x17, 0x43, 0x3e, 0xac, 0xa7, 0x57, 0xf8, 0x6d,
    0xa2, 0x06, 0x7d, 0xe5, 0xc8, 0xd3, 0x77, 0xeb, 0x52, 0xf1, 0x02, 0xc3, 0x2c, 0xf7, 0x34, 0xde,
    0x85, 0x0a, 0xb5, 0x2b, 0x4b, 0x46, 0x12, 0x90, 0xfb, 0xed, 0x71, 0x6f, 0x57, 0xa3, 0xbf, 0xff,
    0x46, 0x79, 0xee, 0x3e, 0x0e, 0xe3, 0xf0, 0x8b, 0x2a, 0x8a, 0xa8, 0xfc, 0x7c, 0xe8, 0x0a, 0xc8,
    0xe7, 0x0a, 0xe9, 0xd7, 0x39, 0x66, 0x64, 0xfb, 0x85, 0x43, 0x79, 0x5e, 0x9c, 0x30, 0xd1, 0x10,
    0x4e, 0x72, 0x98, 0xe6, 0x7a, 0x7a, 0x32, 0x68, 0x7a, 0xb3, 0xef, 0xfe, 0x65, 0x5b, 0x3e, 0x2a,
    0xd5, 0x6b, 0xba, 0xfe, 0x0e, 0x15, 0x18, 0x43, 0x06, 0xcd, 0xac, 0x8c, 0x6c, 0x0e, 0x76, 0x14,
    0xb3, 0xc0, 0xfa, 0x1e, 0xdf, 0x65, 0xdb, 0x6e, 0x30, 0x66, 0x57, 0x2c, 0x80, 0x94, 0x1d, 0x39,
    0xef, 0x9a, 0x83, 0x1a, 0x0d, 0xd3, 0x3d, 0x6a, 0xd9, 0x31, 0xb4, 0x30, 0x86, 0x15, 0xed, 0xfd,
    0xa4, 0x3e, 0xa2, 0x4b, 0xa5, 0x8d, 0xdc, 0x99, 0x4c, 0x57, 0x36, 0x2b, 0x6d, 0x55, 0xdf, 0x68,
    0x78, 0x80, 0x94, 0x0c, 0x21, 0xee, 0xf5, 0x25, 0x37, 0x68, 0xb2, 0x6b, 0x4f, 0x5d, 0x72, 0xfc,
    0x17, 0x2d, 0x24, 0x7a, 0xa8, 0xb2, 0x37, 0x97, 0x7d, 0x1d, 0xbb, 0xa6, 0x6d, 0x4a, 0x19, 0x2f,
    0xb9, 0x4f, 0x30, 0x46, 0xd7, 0x33, 0x31, 0xdc, 0x3a, 0xc6, 0xdd, 0x2e, 0xf3, 0x8d, 0x33, 0x9a,
    0x77, 0x02, 0x03, 0x01, 0x00, 0x01,
];

/// A text, what ends a line of the key after it, and its URIs.
type Read = (
    &'static str,
    &'static str,
    &'static str,
    &'static [&'static str],
);

const READ: &[Read] = &[
    (
        "one URI",
        "rsync://rpki.example/ta/ta.cer\n\n",
        "\n",
        &["rsync://rpki.example/ta/ta.cer"],
    ),
    (
        "comments and two URIs",
        "# a comment\n#\nhttps://rpki.example/ta.cer\nrsync://rpki.example/ta/ta.cer\n\n",
        "\n",
        &[
            "https://rpki.example/ta.cer",
            "rsync://rpki.example/ta/ta.cer",
        ],
    ),
    (
        "lines that end with CR LF",
        "# a comment\r\nrsync://rpki.example/ta/ta.cer\r\n\r\n",
        "\r\n",
        &["rsync://rpki.example/ta/ta.cer"],
    ),
    (
        "the key in one line",
        "RSYNC://rpki.example/ta/ta.cer\n\n",
        "",
        &["RSYNC://rpki.example/ta/ta.cer"],
    ),
];

/// The text in front, and the key after it with this end of a line.
fn text_of(alloc: Global, front: &str, end: &str) -> Result<Vec<u8>, AllocError> {
    let mut text = Vec::from_slice(alloc, front.as_bytes())?;
    for line in KEY {
        text.extend_from_slice(line.as_bytes())?;
        text.extend_from_slice(end.as_bytes())?;
    }
    Ok(text)
}

/// Whether these are the URIs.
fn are_uris(found: &[AnchorUri], wanted: &[&str]) -> bool {
    if found.len() != wanted.len() {
        return false;
    }
    for at in 0..found.len() {
        if found[at].as_slice() != wanted[at].as_bytes() {
            return false;
        }
    }
    true
}

/// Whether the text is a locator with these URIs and the key.
fn is_read(alloc: Global, front: &str, end: &str, uris: &[&str]) -> bool {
    let Ok(text) = text_of(alloc, front, end) else {
        return false;
    };
    let Ok(octets) = Bytes::copy_from_slice(alloc, OCTETS) else {
        return false;
    };
    let Ok(key) = PublicKey::decode(alloc, octets) else {
        return false;
    };
    match Locator::read(alloc, text.as_slice()) {
        Ok(locator) => are_uris(locator.uris.as_slice(), uris) && locator.key == key,
        Err(_) => false,
    }
}

#[test]
fn locators_are_read(rt: HostRuntime) {
    for (name, front, end, uris) in READ {
        assert!(rt; is_read(rt.alloc(), front, end, uris), "{name}");
    }
}

/// A text, and the name and the line of what is wrong with it.
type Refused = (&'static str, &'static str, &'static str, usize);

const REFUSED: &[Refused] = &[
    ("nothing", "", "NoUri", 1),
    ("comments alone", "# a\n# b\n", "NoUri", 3),
    ("no URI", "# a\n\nAAAA\n", "NoUri", 2),
    (
        "another scheme",
        "rsync://a/b/c\nhttp://a/b\n\nAAAA\n",
        "OtherUri",
        2,
    ),
    (
        "a folder",
        "rsync://rpki.example/ta/\n\nAAAA\n",
        "OtherUri",
        1,
    ),
    (
        "a module",
        "rsync://rpki.example/ta\n\nAAAA\n",
        "OtherUri",
        1,
    ),
    (
        "a space behind a URI",
        "# a\nrsync://a/b/c \n\nAAAA\n",
        "OtherUri",
        2,
    ),
    (
        "a comment behind a URI",
        "rsync://a/b/c\n# a\n\nAAAA\n",
        "OtherUri",
        2,
    ),
    ("no empty line", "rsync://a/b/c", "NoKey", 2),
    (
        "no empty line, but a line's end",
        "rsync://a/b/c\n",
        "OtherKey",
        3,
    ),
    ("no key", "rsync://a/b/c\n\n", "OtherKey", 3),
    (
        "a digit that is none",
        "rsync://a/b/c\n\nAA?A\n",
        "OtherText",
        3,
    ),
    (
        "a space among the digits",
        "rsync://a/b/c\n\nAA AA\n",
        "OtherText",
        3,
    ),
    ("no padding", "rsync://a/b/c\n\nAAA\n", "OtherText", 3),
    (
        "octets that are no key",
        "# a\nrsync://a/b/c\n\nAAAA\n",
        "OtherKey",
        4,
    ),
];

/// The name and the line of the error.
fn told(error: &LocatorError) -> (&'static str, usize) {
    match error {
        LocatorError::OtherUri(line) => ("OtherUri", *line),
        LocatorError::NoUri(line) => ("NoUri", *line),
        LocatorError::NoKey(line) => ("NoKey", *line),
        LocatorError::OtherText(line) => ("OtherText", *line),
        LocatorError::OtherKey(line, _) => ("OtherKey", *line),
        LocatorError::OutOfMemory => ("OutOfMemory", 0),
    }
}

#[test]
fn other_texts_are_refused(rt: HostRuntime) {
    for (name, text, error, line) in REFUSED {
        match Locator::read(rt.alloc(), text.as_bytes()) {
            Ok(_) => assert!(rt; false, "{name}"),
            Err(found) => assert!(rt; told(&found) == (*error, *line), "{name}"),
        }
    }
}

/// Whether a text of many lines, each of one digit, is read.
fn is_read_by_digits(alloc: Global) -> Result<bool, AllocError> {
    let mut text = Vec::from_slice(alloc, b"rsync://rpki.example/ta/ta.cer\n\n")?;
    for line in KEY {
        for digit in line.as_bytes() {
            text.push(*digit)?;
            text.push(b'\n')?;
        }
    }
    Ok(Locator::read(alloc, text.as_slice()).is_ok())
}

#[test]
fn a_key_in_many_lines_is_read(rt: HostRuntime) -> Result<(), AllocError> {
    assert!(rt; is_read_by_digits(rt.alloc())?);
    Ok(())
}
