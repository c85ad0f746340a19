//! Manifests that are made and written. Octets by openssl (`asn1parse -genconf`).

use super::reading::{decode, is_written};
use jiff::SignedDuration;
use rpki::repository::x509::{Serial, Time};
use rpki_contents::ManifestContent;
use rpki_der_tests::hexadecimal::octets_of;
use rpki_der_tests::rows;
use std::alloc::Global;
use std::test::Fail;

/// The manifest of number 1 and of no files, of the first second of 2026 and of the next.
const A_SECOND: &str =
    "3032020101180f32303236303130313030303030305a180f32303236303130313030303030315a06096086480165030402013000";

/// How many nanoseconds after the beginning of 2026 a manifest is issued, and the next one; and what is written of it,
/// if it can be written.
const MADE: &[(&str, i64, i64, Option<&str>)] = &rows! {
    ("a second apart", 0, 1_000_000_000, Some(A_SECOND)),
    ("a nanosecond apart, in two seconds", 999_999_999, 1_000_000_000, Some(A_SECOND)),
    ("parts of both seconds", 1, 1_999_999_999, Some(A_SECOND)),
    ("in one second", 1, 999_999_999, None),
    ("a nanosecond apart, in one second", 0, 1, None),
};

/// The time so many nanoseconds after the beginning of 2026.
fn time_at(nanoseconds: i64) -> Option<Time> {
    match Time::utc(2026, 1, 1, 0, 0, 0) {
        Some(begin) => begin.checked_add(SignedDuration::from_nanos(nanoseconds)),
        None => None,
    }
}

/// Whether the manifest is written as these octets, and is read of them; or can't be written.
fn is_made(alloc: Global, made: &ManifestContent, digits: Option<&str>) -> Result<bool, Fail> {
    let Some(digits) = digits else {
        return Ok(made.encode().is_none());
    };
    let octets = octets_of(alloc, digits)?;
    let again = decode(alloc, octets.as_slice())?;
    Ok(
        is_written(alloc, made, octets.as_slice())?
            && again.this_update() <= made.this_update()
            && again.next_update() <= made.next_update(),
    )
}

#[test]
fn times_are_written_in_whole_seconds(rt: HostRuntime) -> Result<(), Fail> {
    for (name, this, next, digits) in MADE {
        let this = time_at(*this).ok_or(*name)?;
        let next = time_at(*next).ok_or(*name)?;
        let number = Serial::from(1u128);
        let made = ManifestContent::new(rt.alloc(), number, this, next, Vec::new(rt.alloc()))?;
        assert!(rt; is_made(rt.alloc(), &made, *digits)?, "{name}");
    }
    Ok(())
}
