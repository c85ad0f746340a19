//! Serial numbers as decimal digits.

use super::*;

/// A number that has sixteen octets at most, and its decimal digits.
const NUMBERS: &[(&str, u128, &str)] = &rows! {
    ("zero", 0, "0"),
    ("a digit", 9, "9"),
    ("two digits", 10, "10"),
    ("383822", 0x05_db4e, "383822"),
    ("2^64", 1 << 64, "18446744073709551616"),
    ("sixteen octets", u128::MAX, "340282366920938463463374607431768211455"),
};

/// Whether the number has these digits, by each call that makes them, and is read of them.
fn is_decimal(number: u128, digits: &str) -> bool {
    let serial = Serial::from(number);
    let text = serial.to_decimal();
    text.as_str() == digits
        && text.as_slice() == digits.as_bytes()
        && Serial::from_decimal(digits.as_bytes()) == Ok(serial)
        && digits.parse::<Serial>() == Ok(serial)
}

#[test]
fn serials_have_decimal_digits(rt: HostRuntime) {
    for (name, number, digits) in NUMBERS {
        assert!(rt; is_decimal(*number, digits), "{name}");
    }
}

/// The number with nineteen octets FF after an octet.
fn large(first: u8) -> [u8; 20] {
    let mut octets = [0xff; 20];
    octets[0] = first;
    octets
}

/// A text, and the octets of the number that it writes, if it writes one.
const TEXTS: &[(&str, &str, Option<u8>)] = &rows! {
    ("the greatest number", "730750818665451459101842416358141509827966271487", Some(0x7f)),
    ("zeros in front", "000730750818665451459101842416358141509827966271487", Some(0x7f)),
    ("one more", "730750818665451459101842416358141509827966271488", None),
    ("twenty octets FF", "1461501637330902918203684832716283019655932542975", None),
    ("twenty-one octets", "1461501637330902918203684832716283019655932542976", None),
    ("sixty digits", "999999999999999999999999999999999999999999999999999999999999", None),
    ("nothing", "", None),
    ("a plus", "+1", None),
    ("a minus", "-1", None),
    ("a space in front", " 1", None),
    ("a space behind", "1 ", None),
    ("hexadecimal digits", "5DB4E", None),
    ("before the digits", "1/", None),
    ("behind the digits", "1:", None),
};

/// Whether the text writes the number with this first octet, or none.
fn is_text(text: &str, first: Option<u8>) -> bool {
    match (text.parse::<Serial>(), first) {
        (Ok(serial), Some(first)) => serial.into_array() == large(first),
        (Err(RepresentationError), None) => true,
        _ => false,
    }
}

#[test]
fn decimal_texts_are_read(rt: HostRuntime) {
    for (name, text, first) in TEXTS {
        assert!(rt; is_text(text, *first), "{name}");
    }
}

/// Whether the serial number and the error are printed so.
fn are_printed(alloc: Global) -> Result<bool, AllocError> {
    let serial = format!(in alloc; "{}", Serial::from(383_822u64))?;
    let error = format!(in alloc; "{}", RepresentationError)?;
    Ok(serial.as_str() == "383822" && error.as_str() == "wrong representation format")
}

#[test]
fn decimal_texts_are_printed(rt: HostRuntime) -> Result<(), Fail> {
    assert!(rt; are_printed(rt.alloc())?, "383822");
    Ok(())
}
