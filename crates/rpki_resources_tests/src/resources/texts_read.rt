//! Texts that are read. Expected prefixes are those of Python's `ipaddress`; numbers are read as Rust reads them.

use super::*;
use std::str::FromStr;

/// A text, and the number that it is; None where it isn't one.
const NUMBERS: &[(&str, Option<u32>)] = &[
    ("AS64496", Some(64_496)),
    ("64496", Some(64_496)),
    ("as0", Some(0)),
    ("aS4294967295", Some(4_294_967_295)),
    ("As1", Some(1)),
    ("AS01", Some(1)),
    ("000000000000001", Some(1)),
    ("+5", Some(5)),
    ("AS+5", Some(5)),
    ("AS4294967296", None),
    ("99999999999999999999", None),
    ("", None),
    ("AS", None),
    ("A1", None),
    ("S1", None),
    ("AS-1", None),
    ("-1", None),
    ("AS 1", None),
    (" AS1", None),
    ("AS1 ", None),
    ("ASAS1", None),
    ("1AS", None),
    ("AS1.5", None),
    ("ASx", None),
    ("BS1", None),
    ("AT1", None),
    ("AS++1", None),
    ("AS\u{661}", None),
    ("\u{c4}S1", None),
];

/// A text, and the lowest and the highest number of the block that it is.
const BLOCKS: &[(&str, Result<(u32, u32), ParseAsBlockError>)] = &[
    ("AS1", Ok((1, 1))),
    ("7", Ok((7, 7))),
    ("AS1-AS5", Ok((1, 5))),
    ("1-5", Ok((1, 5))),
    ("as1-5", Ok((1, 5))),
    ("AS5-AS5", Ok((5, 5))),
    ("0-4294967295", Ok((0, 4_294_967_295))),
    ("AS64496-AS64511", Ok((64_496, 64_511))),
    ("AS5-AS4", Err(ParseAsBlockError::BadRange)),
    ("4294967295-0", Err(ParseAsBlockError::BadRange)),
    ("", Err(ParseAsBlockError::BadAsn)),
    ("-", Err(ParseAsBlockError::BadAsn)),
    ("AS1-", Err(ParseAsBlockError::BadAsn)),
    ("-AS1", Err(ParseAsBlockError::BadAsn)),
    ("AS1-AS2-AS3", Err(ParseAsBlockError::BadAsn)),
    ("AS1 - AS2", Err(ParseAsBlockError::BadAsn)),
    ("AS1--AS2", Err(ParseAsBlockError::BadAsn)),
    ("AS1-AS4294967296", Err(ParseAsBlockError::BadAsn)),
    ("AS4294967296-AS1", Err(ParseAsBlockError::BadAsn)),
    ("x-1", Err(ParseAsBlockError::BadAsn)),
    ("AS1,AS2", Err(ParseAsBlockError::BadAsn)),
    ("AS1/AS2", Err(ParseAsBlockError::BadAsn)),
    ("5-x", Err(ParseAsBlockError::BadAsn)),
    ("AS6-", Err(ParseAsBlockError::BadAsn)),
];

/// A text, and the text of the prefix that it is.
const PREFIXES: &[(&str, Option<&str>)] = &[
    ("10.0.0.0/8", Some("10.0.0.0/8")),
    ("0.0.0.0/0", Some("0.0.0.0/0")),
    ("192.0.2.1/32", Some("192.0.2.1/32")),
    ("255.255.255.254/31", Some("255.255.255.254/31")),
    ("192.0.2.128/25", Some("192.0.2.128/25")),
    ("10.0.0.0/08", Some("10.0.0.0/8")),
    ("::/0", Some("::/0")),
    ("2001:db8::/32", Some("2001:db8::/32")),
    ("2001:DB8::/32", Some("2001:db8::/32")),
    ("2001:db8:0:0:0:0:0:0/32", Some("2001:db8::/32")),
    ("::1/128", Some("::1/128")),
    ("fe80::/10", Some("fe80::/10")),
    ("ffff::/16", Some("ffff::/16")),
    ("2001:db8::8000:0:0:0/65", Some("2001:db8:0:0:8000::/65")),
    ("1::/16", Some("1::/16")),
    ("10.0.0.1/8", None),
    ("10.0.0.0/33", None),
    ("10.0.0.0/", None),
    ("/8", None),
    ("10.0.0.0/8/8", None),
    ("10.0.0.0/-1", None),
    ("10.0.0.0/ 8", None),
    (" 10.0.0.0/8", None),
    ("10.0.0.0/8 ", None),
    ("010.0.0.0/8", None),
    ("10.0.0/8", None),
    ("10.0.0.256/32", None),
    ("::/129", None),
    ("2001:db8::1/32", None),
    ("2001:db8::/x", None),
    ("1:2:3:4:5:6:7:8:9/128", None),
    ("10.0.0.0/256", None),
    ("10.0.0.0/4294967304", None),
    ("x/8", None),
    ("", None),
];

/// A text, and the text of the block of addresses that it is.
const ADDRESSES: &[(&str, Option<&str>)] = &[
    ("10.0.0.0/8", Some("10.0.0.0/8")),
    ("192.0.2.1", Some("192.0.2.1/32")),
    ("::", Some("::/128")),
    ("2001:db8::1", Some("2001:db8::1/128")),
    ("2001:DB8:0:0:0:0:0:1", Some("2001:db8::1/128")),
    ("10.0.0.0-10.0.0.5", Some("10.0.0.0-10.0.0.5")),
    ("10.0.0.0-10.255.255.255", Some("10.0.0.0/8")),
    ("0.0.0.0-255.255.255.255", Some("0.0.0.0/0")),
    ("192.0.2.1-192.0.2.1", Some("192.0.2.1/32")),
    ("10.0.0.1-10.0.0.2", Some("10.0.0.1-10.0.0.2")),
    ("2001:db8::-2001:db8::ffff", Some("2001:db8::/112")),
    ("2001:db8::1-2001:db8:1::", Some("2001:db8::1-2001:db8:1::")),
    ("::-ffff:ffff:ffff:ffff:ffff:ffff:ffff:ffff", Some("::/0")),
    ("2001:db8::/32", Some("2001:db8::/32")),
    ("", None),
    ("-", None),
    ("10.0.0.1/8", None),
    ("10.0.0.5-10.0.0.0", None),
    ("10.0.0.0-2001:db8::1", None),
    ("::1-10.0.0.1", None),
    ("10.0.0.0-", None),
    ("-10.0.0.0", None),
    ("10.0.0.0-10.0.0.1-10.0.0.2", None),
    ("10.0.0.0/8-11.0.0.0/8", None),
    ("10.0.0.0 - 10.0.0.5", None),
    ("10.0.0.0/8,11.0.0.0/8", None),
    ("AS1", None),
    ("2001:db8::1::", None),
    ("::2-::1", None),
    ("256.0.0.0", None),
];

#[test]
fn numbers_that_are_read(rt: HostRuntime) {
    for (text, expected) in NUMBERS {
        let found = Asn::from_str(text).ok().map(|number| number.0);
        assert!(rt; found == *expected, "{text}");
    }
}

/// Whether the text is the block of these numbers, or refused with this error.
fn is_block(text: &str, expected: Result<(u32, u32), ParseAsBlockError>) -> bool {
    match (AsBlock::from_str(text), expected) {
        (Ok(AsBlock::Id(number)), Ok((low, high))) => number.0 == low && low == high,
        (Ok(AsBlock::Range(range)), Ok((low, high))) => {
            range.min.0 == low && range.max.0 == high && low < high
        }
        (Err(e), Err(expected)) => e == expected,
        _ => false,
    }
}

#[test]
fn blocks_that_are_read(rt: HostRuntime) {
    for (text, expected) in BLOCKS {
        assert!(rt; is_block(text, *expected), "{text}");
    }
}

#[test]
fn prefixes_that_are_read(rt: HostRuntime) -> Result<(), Fail> {
    for (text, expected) in PREFIXES {
        let prefix = Prefix::from_str(text).ok();
        assert!(rt; is_shown(rt.alloc(), prefix, *expected)?, "{text}");
    }
    Ok(())
}

#[test]
fn blocks_of_addresses_that_are_read(rt: HostRuntime) -> Result<(), Fail> {
    for (text, expected) in ADDRESSES {
        let block = IpBlock::from_str(text).ok();
        assert!(rt; is_shown(rt.alloc(), block, *expected)?, "{text}");
    }
    Ok(())
}
