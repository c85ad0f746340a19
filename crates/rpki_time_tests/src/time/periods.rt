//! Worked cases of validity periods.

use super::*;

/// A name, a start, an end, a moment, and whether the period holds then; if not, whether it is too new.
const PERIODS: &[(&str, Parts, Parts, Parts, Option<bool>)] = &rows! {
    ("the start", (2020, 1, 1, 0, 0, 0), (2050, 1, 1, 0, 0, 0), (2020, 1, 1, 0, 0, 0), None),
    ("the end", (2020, 1, 1, 0, 0, 0), (2050, 1, 1, 0, 0, 0), (2050, 1, 1, 0, 0, 0), None),
    ("a second before the start", (2020, 1, 1, 0, 0, 0), (2050, 1, 1, 0, 0, 0), (2019, 12, 31, 23, 59, 59), Some(true)),
    ("a second after the end", (2020, 1, 1, 0, 0, 0), (2050, 1, 1, 0, 0, 0), (2050, 1, 1, 0, 0, 1), Some(false)),
    ("a period that ends before it starts", (2030, 1, 1, 0, 0, 0), (2020, 1, 1, 0, 0, 0), (2025, 1, 1, 0, 0, 0),
     Some(true)),
};

/// None where the check passed; else whether the error is that the object is too new.
fn too_new(outcome: Result<(), ValidityPeriodError>) -> Option<bool> {
    match outcome {
        Ok(()) => None,
        Err(e) => Some(e.is_too_new()),
    }
}

fn verify(start: Parts, end: Parts, now: Parts) -> Option<Option<bool>> {
    let period = Validity::new(time_of(start)?, time_of(end)?);
    Some(too_new(period.verify_at(time_of(now)?)))
}

#[test]
fn periods_hold(rt: HostRuntime) {
    for (name, start, end, now, expected) in PERIODS {
        let found = verify(*start, *end, *now);
        assert!(rt; found == Some(*expected), "{name}");
    }
}

/// The nanoseconds from a time to a moment, and whether the time is rejected as a start and as an end: if so, whether
/// it is too new.
const ENDS: &[(i64, Option<bool>, Option<bool>)] = &[
    (-86_400_000_000_000, Some(true), None),
    (-1, Some(true), None),
    (0, None, None),
    (1, None, Some(false)),
    (86_400_000_000_000, None, Some(false)),
];

/// What the two checks of an end of a period return, that many nanoseconds after the end.
fn verify_end(nanoseconds: i64) -> Option<(Option<bool>, Option<bool>)> {
    let parts = (2020, 2, 29, 23, 59, 59);
    let (end, now) = (time_of(parts)?, moment_of(parts, nanoseconds)?);
    Some((
        too_new(end.verify_not_before(now)),
        too_new(end.verify_not_after(now)),
    ))
}

#[test]
fn ends_of_periods(rt: HostRuntime) {
    for (nanoseconds, as_start, as_end) in ENDS {
        let found = verify_end(*nanoseconds);
        assert!(rt; found == Some((*as_start, *as_end)), "{nanoseconds}");
    }
}

/// A moment, seconds, and the ends of the period between.
const SPANS: &[(Parts, i64, Option<(Parts, Parts)>)] = &rows! {
    ((2024, 1, 1, 0, 0, 0), -10, Some(((2023, 12, 31, 23, 59, 50), (2024, 1, 1, 0, 0, 0)))),
    ((2024, 1, 1, 0, 0, 0), 10, Some(((2024, 1, 1, 0, 0, 0), (2024, 1, 1, 0, 0, 10)))),
    ((0, 1, 1, 0, 0, 0), -1, None),
};

/// Whether the period of so many seconds from the moment has these ends, and is itself where it is trimmed by itself.
fn is_span(parts: Parts, seconds: i64, expected: Option<(Parts, Parts)>) -> bool {
    let Some(now) = time_of(parts) else {
        return false;
    };
    match (Validity::from_secs(now, seconds), expected) {
        (Some(period), Some((start, end))) => {
            period.trim(period) == period
                && parts_of(period.not_before()) == start
                && parts_of(period.not_after()) == end
        }
        (None, None) => true,
        _ => false,
    }
}

#[test]
fn periods_from_seconds(rt: HostRuntime) {
    for (parts, seconds, expected) in SPANS {
        assert!(rt; is_span(*parts, *seconds, *expected), "{seconds} seconds");
    }
}

/// A moment, a duration in nanoseconds, and the ends of the period between, each with its nanosecond.
const DURATIONS: &[(Parts, i64, Option<((Parts, i64), (Parts, i64))>)] = &rows! {
    ((2024, 1, 1, 0, 0, 0), 0, Some((((2024, 1, 1, 0, 0, 0), 0), ((2024, 1, 1, 0, 0, 0), 0)))),
    ((2024, 1, 1, 0, 0, 0), 1_500_000_000, Some((((2024, 1, 1, 0, 0, 0), 0), ((2024, 1, 1, 0, 0, 1), 500_000_000)))),
    ((2024, 1, 1, 0, 0, 0), -1, Some((((2023, 12, 31, 23, 59, 59), 999_999_999), ((2024, 1, 1, 0, 0, 0), 0)))),
    ((0, 1, 1, 0, 0, 0), -1, None),
    ((9999, 12, 31, 23, 59, 59), 1_000_000_000, None),
    ((9999, 12, 31, 23, 59, 59), 999_999_999,
     Some((((9999, 12, 31, 23, 59, 59), 0), ((9999, 12, 31, 23, 59, 59), 999_999_999)))),
};

/// Whether the period of so many nanoseconds from the moment has these ends.
fn has_ends(
    parts: Parts,
    nanoseconds: i64,
    expected: Option<((Parts, i64), (Parts, i64))>,
) -> bool {
    let Some(now) = time_of(parts) else {
        return false;
    };
    let found = Validity::from_duration(now, SignedDuration::from_nanos(nanoseconds));
    match (found, expected) {
        (Some(period), Some((start, end))) => {
            Some(period.not_before()) == moment_of(start.0, start.1)
                && Some(period.not_after()) == moment_of(end.0, end.1)
        }
        (None, None) => true,
        _ => false,
    }
}

#[test]
fn periods_from_durations(rt: HostRuntime) {
    for (parts, nanoseconds, expected) in DURATIONS {
        let same = has_ends(*parts, *nanoseconds, *expected);
        assert!(rt; same, "{nanoseconds} from {}", parts.0);
    }
}

/// The years in which two periods start and end, and those of the period that holds where both do.
const TRIMMED: &[(&str, (i32, i32), (i32, i32), (i32, i32))] = &[
    ("around", (2020, 2050), (2030, 2040), (2030, 2040)),
    ("within", (2030, 2040), (2020, 2050), (2030, 2040)),
    ("overlapping", (2020, 2040), (2030, 2050), (2030, 2040)),
    ("apart", (2020, 2025), (2030, 2035), (2030, 2025)),
    ("the same", (2020, 2050), (2020, 2050), (2020, 2050)),
];

/// The period that holds where both do.
fn trimmed(first: (i32, i32), second: (i32, i32)) -> Option<Validity> {
    let (a, b) = (period_of(first)?, period_of(second)?);
    Some(a.trim(b))
}

/// Whether two periods are there and are one.
fn are_one(found: Option<Validity>, expected: Option<Validity>) -> bool {
    found.is_some() && found == expected
}

#[test]
fn periods_are_trimmed(rt: HostRuntime) {
    for (name, first, second, expected) in TRIMMED {
        let same = are_one(trimmed(*first, *second), period_of(*expected));
        assert!(rt; same, "{name}");
    }
}
