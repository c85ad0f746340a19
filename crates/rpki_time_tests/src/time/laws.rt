//! The laws that are about calls, at some values. A law over definitions alone has no argument and no result, so there
//! is nothing of it to compare.

use super::*;
use rpki_time::laws::{
    octets_read_back, periods_read_back, serials_in_order, serials_read_back, times_in_order,
    times_read_back,
};

/// What the law's reader of such a value returns.
fn answer_of_law(written: Written, cursor: &mut Constructed<'_>) -> Found {
    told(match written {
        Written::Zero | Written::Octets(_) | Written::Number(_) | Written::Small(_) => {
            serials_read_back(cursor).map(of_serial)
        }
        Written::Utc(_) | Written::Generalized(_) | Written::Varied(_) => {
            times_read_back(cursor).map(of_time)
        }
        Written::Period(_, _) => periods_read_back(cursor).map(of_period),
    })
}

/// What is written with a NULL after it.
fn written_and_null(alloc: Global, written: Written) -> io::Result<Captured> {
    let mut out = FailsOnce::never(alloc);
    let values = write_to(alloc, &mut out, written)?;
    put(alloc, &mut out, &(&values, ().encode()))
}

/// What the law's reader returns on what is written with a NULL after it; and how many octets remain.
fn read_back(alloc: Global, written: Written) -> io::Result<(Found, usize)> {
    let source = written_and_null(alloc, written)?.into_bytes();
    let mut cursor = Constructed::new(&source);
    let found = answer_of_law(written, &mut cursor);
    Ok((found, cursor.rest().len()))
}

const READ_BACK: &[(&str, Written, Found)] = &rows! {
    ("zero", Written::Zero, Found::Serial([0; 20])),
    ("a serial number that begins with a bit", Written::Octets(b"\0\0\0\0\0\0\0\0\0\0\0\0\0\0\0\0\0\x81\x02\x03"),
     Found::Serial(*b"\0\0\0\0\0\0\0\0\0\0\0\0\0\0\0\0\0\x81\x02\x03")),
    ("the greatest serial number",
     Written::Octets(b"\x7f\xff\xff\xff\xff\xff\xff\xff\xff\xff\xff\xff\xff\xff\xff\xff\xff\xff\xff\xff"),
     Found::Serial(*b"\x7f\xff\xff\xff\xff\xff\xff\xff\xff\xff\xff\xff\xff\xff\xff\xff\xff\xff\xff\xff")),
    ("128", Written::Small(128), Found::Serial(*b"\0\0\0\0\0\0\0\0\0\0\0\0\0\0\0\0\0\0\0\x80")),
    ("a UTC time of 2060", Written::Utc((2060, 1, 1, 0, 0, 0)), Found::Time((1960, 1, 1, 0, 0, 0))),
    ("the last moment of 2049 as a UTC time", Written::Utc((2049, 12, 31, 23, 59, 59)),
     Found::Time((2049, 12, 31, 23, 59, 59))),
    ("the last moment of 1949 as a UTC time", Written::Utc((1949, 12, 31, 23, 59, 59)),
     Found::Time((2049, 12, 31, 23, 59, 59))),
    ("a generalized time of 1980", Written::Generalized((1980, 10, 1, 16, 30, 15)),
     Found::Time((1980, 10, 1, 16, 30, 15))),
    ("a time of 2060", Written::Varied((2060, 1, 1, 0, 0, 0)), Found::Time((2060, 1, 1, 0, 0, 0))),
    ("the first moment of 1950", Written::Varied((1950, 1, 1, 0, 0, 0)), Found::Time((1950, 1, 1, 0, 0, 0))),
    ("a period of both kinds of time", Written::Period((2020, 1, 1, 0, 0, 0), (2050, 1, 1, 0, 0, 0)),
     Found::Period((2020, 1, 1, 0, 0, 0), (2050, 1, 1, 0, 0, 0))),
};

#[test]
fn what_is_written_is_read_back(rt: HostRuntime) -> Result<(), Fail> {
    for (name, written, expected) in READ_BACK {
        assert_eq!(rt; read_back(rt.alloc(), *written)?, (*expected, 2), "{name}");
    }
    Ok(())
}

/// The octets of a serial number, those of another, and whether the first is less.
const NUMBERS: &[(&str, [u8; 20], [u8; 20], bool)] = &rows! {
    ("zero and zero", [0; 20], [0; 20], false),
    ("zero and 20 times 1", [0; 20], [1; 20], true),
    ("20 times 7F and 20 times 1", [0x7f; 20], [1; 20], false),
    ("511 and 512", *b"\0\0\0\0\0\0\0\0\0\0\0\0\0\0\0\0\0\0\x01\xff", *b"\0\0\0\0\0\0\0\0\0\0\0\0\0\0\0\0\0\0\x02\0",
     true),
};

/// Whether the first serial number is read back, and is less than the second or not.
fn are_in_order(first: [u8; 20], second: [u8; 20], less: bool) -> bool {
    match (Serial::from_array(first), Serial::from_array(second)) {
        (Ok(a), Ok(b)) => match octets_read_back(a) {
            Ok(again) => { again.into_array() == first && serials_in_order(again, b) == less }
            Err(_) => false,
        },
        _ => false,
    }
}

#[test]
fn octets_of_serials_in_order(rt: HostRuntime) {
    for (name, first, second, less) in NUMBERS {
        assert!(rt; are_in_order(*first, *second, *less), "{name}");
    }
}

/// A time with its nanosecond, another, and whether the first is before it.
const MOMENTS: &[(&str, (Parts, i64), (Parts, i64), bool)] = &rows! {
    ("the same", ((2020, 1, 1, 0, 0, 0), 5), ((2020, 1, 1, 0, 0, 0), 5), false),
    ("a nanosecond later", ((2020, 1, 1, 0, 0, 0), 5), ((2020, 1, 1, 0, 0, 0), 6), true),
    ("the last moment of 1969 and the first of 1970", ((1969, 12, 31, 23, 59, 59), 999_999_999),
     ((1970, 1, 1, 0, 0, 0), 0), true),
    ("February and January", ((2020, 2, 1, 0, 0, 0), 0), ((2020, 1, 31, 0, 0, 0), 0), false),
    ("the years 0 and 9999", ((0, 12, 31, 0, 0, 0), 0), ((9999, 1, 1, 0, 0, 0), 0), true),
};

/// Whether the first moment is before the second, where both are times.
fn is_before(first: (Parts, i64), second: (Parts, i64)) -> Option<bool> {
    let (a, b) = (moment_of(first.0, first.1)?, moment_of(second.0, second.1)?);
    Some(times_in_order(a, b))
}

#[test]
fn moments_in_order(rt: HostRuntime) {
    for (name, first, second, before) in MOMENTS {
        assert!(rt; is_before(*first, *second) == Some(*before), "{name}");
    }
}
