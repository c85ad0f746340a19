//! Equality, order, hash and texts.

use super::*;
use std::cmp::Ordering;
use std::fmt;
use std::hash::{FoldHasher, Hash, Hasher};

fn hash_of<T: Hash>(value: &T) -> u64 {
    let mut state = FoldHasher::default();
    value.hash(&mut state);
    state.finish()
}

/// How the first compares to the second, where equality and the partial order say the same and equal ones hash alike.
fn order_of<T: Ord + Hash>(a: &T, b: &T) -> Option<Ordering> {
    let order = a.cmp(b);
    let equal = order == Ordering::Equal;
    if a.partial_cmp(b) != Some(order) || (a == b) != equal {
        return None;
    }
    if equal && hash_of(a) != hash_of(b) {
        return None;
    }
    Some(order)
}

/// The octets of a serial number, those of another, and how the first compares to it.
const SERIALS: &[(&str, &[u8], &[u8], Ordering)] = &rows! {
    ("a zero and 20", &[0], &[0; 20], Ordering::Equal),
    ("0 and 1", &[0], &[1], Ordering::Less),
    ("two zeros in front", &[0, 0, 1, 2, 3], &[1, 2, 3], Ordering::Equal),
    ("255 and 256", &[0xff], &[1, 0], Ordering::Less),
    ("65536 and 65535", &[1, 0, 0], &[0xff, 0xff], Ordering::Greater),
    ("513 and 258", &[2, 1], &[1, 2], Ordering::Greater),
    ("66051 and 66304", &[1, 2, 3], &[0, 1, 3, 0], Ordering::Less),
};

/// How the serial number of the first octets compares to that of the second.
fn order_of_serials(first: &[u8], second: &[u8]) -> Option<Ordering> {
    match (Serial::from_slice(first), Serial::from_slice(second)) {
        (Ok(a), Ok(b)) => order_of(&a, &b),
        _ => None,
    }
}

#[test]
fn serials_compare(rt: HostRuntime) {
    for (name, first, second, expected) in SERIALS {
        assert!(rt;
            order_of_serials(first, second) == Some(*expected),
            "{name}"
        );
    }
}

/// A time with its nanosecond, another, and how the first compares to it.
const TIMES: &[(&str, (Parts, i64), (Parts, i64), Ordering)] = &rows! {
    ("the last moment of 2019 and a second", ((2020, 1, 1, 0, 0, 0), 0), ((2019, 12, 31, 23, 59, 59), 1_000_000_000),
     Ordering::Equal),
    ("a nanosecond", ((2020, 1, 1, 0, 0, 0), 1), ((2020, 1, 1, 0, 0, 0), 2), Ordering::Less),
    ("the next second", ((2020, 1, 1, 0, 0, 1), 0), ((2020, 1, 1, 0, 0, 0), 999_999_999), Ordering::Greater),
    ("the next month", ((2020, 1, 31, 23, 59, 59), 0), ((2020, 2, 1, 0, 0, 0), 0), Ordering::Less),
    ("the years 10 and 9", ((10, 1, 1, 0, 0, 0), 0), ((9, 12, 31, 0, 0, 0), 0), Ordering::Greater),
};

/// How the first moment compares to the second.
fn order_of_moments(first: (Parts, i64), second: (Parts, i64)) -> Option<Ordering> {
    let (a, b) = (moment_of(first.0, first.1)?, moment_of(second.0, second.1)?);
    order_of(&a, &b)
}

#[test]
fn times_compare(rt: HostRuntime) {
    for (name, first, second, expected) in TIMES {
        assert!(rt;
            order_of_moments(*first, *second) == Some(*expected),
            "{name}"
        );
    }
}

/// The years in which two periods start and end, and whether they are one period.
const PERIODS: &[(&str, (i32, i32), (i32, i32), bool)] = &rows! {
    ("the same", (2020, 2050), (2020, 2050), true),
    ("another start", (2020, 2050), (2021, 2050), false),
    ("another end", (2020, 2050), (2020, 2051), false),
    ("start and end swapped", (2020, 2050), (2050, 2020), false),
    ("the same, which ends before it starts", (2050, 2020), (2050, 2020), true),
};

/// Whether the two are equal, and whether they are hashed alike.
fn comparison(first: (i32, i32), second: (i32, i32)) -> Option<(bool, bool)> {
    let (a, b) = (period_of(first)?, period_of(second)?);
    Some((a == b, hash_of(&a) == hash_of(&b)))
}

#[test]
fn periods_compare(rt: HostRuntime) {
    for (name, first, second, equal) in PERIODS {
        let same = match comparison(*first, *second) {
            Some((found, hashed)) => found == *equal && (!equal || hashed),
            None => false,
        };
        assert!(rt; same, "{name}");
    }
}

/// A number, and the octets of its serial number.
const NUMBERS: &[(u64, [u8; 20])] = &rows! {
    (0, [0; 20]),
    (0x0001_0203, *b"\0\0\0\0\0\0\0\0\0\0\0\0\0\0\0\0\0\x01\x02\x03"),
    (u64::MAX, *b"\0\0\0\0\0\0\0\0\0\0\0\0\xff\xff\xff\xff\xff\xff\xff\xff"),
};

/// Whether these are the octets of the number, in either type.
fn has_octets(number: u64, octets: [u8; 20]) -> bool {
    let wide = Serial::from(u128::from(number));
    Serial::from(number).into_array() == octets && <[u8; 20]>::from(wide) == octets
}

#[test]
fn serials_of_numbers(rt: HostRuntime) {
    assert!(rt; Serial::default().into_array() == [0; 20]);
    for (number, octets) in NUMBERS {
        assert!(rt; has_octets(*number, *octets), "{number}");
    }
}

fn shown<D: fmt::Display + Drop>(alloc: Global, value: D) -> Result<String, Fail> {
    Ok(format!(in alloc; "{value}")?)
}

fn is_shown<D: fmt::Display + Drop>(alloc: Global, value: D, text: &str) -> Result<bool, Fail> {
    Ok(shown(alloc, value)?.as_str() == text)
}

#[test]
fn errors_have_texts(rt: HostRuntime) -> Result<(), Fail> {
    let (empty, long) = (SerialSliceError::Empty, SerialSliceError::Long);
    assert!(rt; is_shown(rt.alloc(), empty, "empty serial number")?);
    assert!(rt; is_shown(rt.alloc(), long, "serial number longer than 20 bytes")?);
    assert!(rt; is_shown(rt.alloc(), TimeParseError, "malformed time value")?);
    Ok(())
}

#[test]
fn errors_of_periods_have_texts(rt: HostRuntime) -> Result<(), Fail> {
    let (new, old) = (ValidityPeriodError::TooNew, ValidityPeriodError::TooOld);
    assert!(rt; is_shown(rt.alloc(), new, "object is not yet valid")?);
    assert!(rt; is_shown(rt.alloc(), old, "object has expired")?);
    Ok(())
}

#[test]
fn errors_of_content_keep_their_texts(rt: HostRuntime) -> Result<(), Fail> {
    let empty = ContentError::from(SerialSliceError::Empty);
    assert!(rt; is_shown(rt.alloc(), empty, "empty serial number")?);
    let long = ContentError::from(SerialSliceError::Long);
    assert!(rt; is_shown(rt.alloc(), long, "serial number longer than 20 bytes")?);
    Ok(())
}

/// Whether Debug prints this.
fn has_name<D: fmt::Debug + Drop>(alloc: Global, value: D, name: &str) -> Result<bool, Fail> {
    Ok(format!(in alloc; "{value:?}")?.as_str() == name)
}

#[test]
fn errors_have_names(rt: HostRuntime) -> Result<(), Fail> {
    let (empty, long) = (SerialSliceError::Empty, SerialSliceError::Long);
    assert!(rt; has_name(rt.alloc(), empty, "Empty")?);
    assert!(rt; has_name(rt.alloc(), long, "Long")?);
    assert!(rt; has_name(rt.alloc(), TimeParseError, "TimeParseError")?);
    Ok(())
}

#[test]
fn errors_of_periods_have_names(rt: HostRuntime) -> Result<(), Fail> {
    let (new, old) = (ValidityPeriodError::TooNew, ValidityPeriodError::TooOld);
    assert!(rt; has_name(rt.alloc(), new, "TooNew")?);
    assert!(rt; has_name(rt.alloc(), old, "TooOld")?);
    Ok(())
}

/// Whether Debug shows both ends.
fn shows_ends(alloc: Global, period: Validity, start: &str, end: &str) -> Result<bool, Fail> {
    let shown = format!(in alloc; "{period:?}")?;
    Ok(shown.contains(start) && shown.contains(end))
}

#[test]
fn periods_show_their_times(rt: HostRuntime) -> Result<(), Fail> {
    let Some(period) = period_of((2020, 2050)) else {
        return Err("no period".into());
    };
    let (start, end) = ("2020-01-01T00:00:00", "2050-01-01T00:00:00");
    assert!(rt; shows_ends(rt.alloc(), period, start, end)?);
    Ok(())
}
