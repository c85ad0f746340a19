//! Sums of times, seconds since 1970, and texts of moments.

use super::{Parts, moment_of, parts_of, time_of};
use jiff::SignedDuration;
use jiff::civil::DateTime;
use rpki_der_tests::rows;
use rpki_time::*;

/// What is asked of a time.
#[derive(Clone, Copy, Debug)]
enum Asked {
    FiveMinutesAgo,
    FiveMinutesFromNow,
    Tomorrow,
    NextWeek,
    NextYear,
    YearsFromNow(i32),
    Add(i64),
    Subtract(i64),
}

fn ask(asked: Asked, now: Time) -> Option<Time> {
    match asked {
        Asked::FiveMinutesAgo => Time::five_minutes_ago(now),
        Asked::FiveMinutesFromNow => Time::five_minutes_from_now(now),
        Asked::Tomorrow => Time::tomorrow(now),
        Asked::NextWeek => Time::next_week(now),
        Asked::NextYear => Time::next_year(now),
        Asked::YearsFromNow(years) => Time::years_from_now(years, now),
        Asked::Add(seconds) => now.checked_add(SignedDuration::from_secs(seconds)),
        Asked::Subtract(seconds) => now.checked_sub(SignedDuration::from_secs(seconds)),
    }
}

/// Names, what is asked, of which time, and what comes of it.
const ASKED: &[(&str, Asked, Parts, Option<Parts>)] = &rows! {
    ("five minutes before the first year", Asked::FiveMinutesAgo, (0, 1, 1, 0, 4, 59), None),
    ("five minutes ago", Asked::FiveMinutesAgo, (0, 1, 1, 0, 5, 0), Some((0, 1, 1, 0, 0, 0))),
    ("in five minutes", Asked::FiveMinutesFromNow, (2019, 12, 31, 23, 55, 0), Some((2020, 1, 1, 0, 0, 0))),
    ("tomorrow", Asked::Tomorrow, (2020, 2, 28, 12, 0, 0), Some((2020, 2, 29, 12, 0, 0))),
    ("the day after the last", Asked::Tomorrow, (9999, 12, 31, 0, 0, 0), None),
    ("next week", Asked::NextWeek, (2020, 2, 28, 12, 0, 0), Some((2020, 3, 6, 12, 0, 0))),
    ("next year", Asked::NextYear, (2020, 2, 29, 12, 0, 0), Some((2021, 2, 28, 12, 0, 0))),
    ("in ten years", Asked::YearsFromNow(10), (2020, 2, 29, 16, 39, 57), Some((2030, 2, 28, 16, 39, 57))),
    ("a year after the last", Asked::YearsFromNow(1), (9999, 1, 1, 0, 0, 0), None),
    ("a second less by addition", Asked::Add(-1), (2020, 1, 1, 0, 0, 0), Some((2019, 12, 31, 23, 59, 59))),
    ("a second less", Asked::Subtract(1), (2020, 1, 1, 0, 0, 0), Some((2019, 12, 31, 23, 59, 59))),
    ("a second before the first year", Asked::Subtract(1), (0, 1, 1, 0, 0, 0), None),
};

/// Whether this is what comes of asking.
fn is_asked(asked: Asked, parts: Parts, expected: Option<Parts>) -> bool {
    match time_of(parts) {
        Some(now) => ask(asked, now).map(parts_of) == expected,
        None => false,
    }
}

#[test]
fn sums_of_times(rt: HostRuntime) {
    for (name, asked, parts, expected) in ASKED {
        assert!(rt; is_asked(*asked, *parts, *expected), "{name}, {asked:?}");
    }
}

/// Years, a date-time with its nanosecond, and the same day so many years on.
const YEARS_ON: &[(i32, Parts, i64, Option<Parts>)] = &rows! {
    (4, (2020, 2, 29, 16, 39, 57), 0, Some((2024, 2, 28, 16, 39, 57))),
    (10, (2020, 2, 29, 16, 39, 57), 0, Some((2030, 2, 28, 16, 39, 57))),
    (1, (9999, 1, 1, 0, 0, 0), 0, None),
    (-1, (0, 1, 1, 0, 0, 0), 0, None),
    (1, (2014, 10, 21, 16, 39, 57), 500_000_000, Some((2015, 10, 21, 16, 39, 57))),
};

/// The date-time of these parts, and of this nanosecond.
fn date_time_of(parts: Parts, nanosecond: i64) -> Option<DateTime> {
    let time = moment_of(parts, nanosecond)?;
    Some(time.date_time())
}

/// Whether the same day so many years on is this.
fn is_years_on(years: i32, parts: Parts, nanosecond: i64, expected: Option<Parts>) -> bool {
    match date_time_of(parts, nanosecond) {
        Some(date) => Time::years_from_date(years, date) == expected.and_then(time_of),
        None => false,
    }
}

#[test]
fn years_on(rt: HostRuntime) {
    for (years, parts, nanosecond, expected) in YEARS_ON {
        let same = is_years_on(*years, *parts, *nanosecond, *expected);
        assert!(rt; same, "{years} from {}", parts.0);
    }
}

/// A time with its nanosecond, its whole seconds, and whether a nanosecond later is a time too.
const SECONDS: &[(Parts, i64, i64, bool)] = &rows! {
    ((2000, 1, 1, 0, 0, 0), 0, 946_684_800, true),
    ((1970, 1, 1, 0, 0, 0), -500_000_000, -1, true),
    ((9999, 12, 31, 23, 59, 59), 999_999_999, 253_402_300_799, false),
};

/// The whole seconds of a time, and whether a nanosecond later is a time too.
fn seconds_of(parts: Parts, nanosecond: i64) -> Option<(i64, bool)> {
    let date = date_time_of(parts, nanosecond)?;
    if date.year() < 0 {
        return None;
    }
    let time = Time::new(date);
    let later = time.checked_add(SignedDuration::from_nanos(1));
    Some((time.to_binary_time(), later.is_some()))
}

#[test]
fn seconds_of_times(rt: HostRuntime) {
    for (parts, nanosecond, expected, more) in SECONDS {
        let found = seconds_of(*parts, *nanosecond);
        assert!(rt; found == Some((*expected, *more)), "{expected}");
    }
}

/// A text, and the moment that it is read as.
const TEXTS: &[(&str, Option<Parts>)] = &rows! {
    ("2030-10-01T18:30:15+02:00", Some((2030, 10, 1, 16, 30, 15))),
    ("2030-10-01T16:30:15Z", Some((2030, 10, 1, 16, 30, 15))),
    ("2030-10-01T16:30:15", None),
    ("2030-10-01", None),
    ("-000001-12-31T23:59:59Z", None),
    // the last moment that jiff reads, and what it refuses after it
    ("9999-12-30T22:00:00Z", Some((9999, 12, 30, 22, 0, 0))),
    ("9999-12-30T22:00:00.999999999Z", Some((9999, 12, 30, 22, 0, 0))),
    ("9999-12-30T22:00:00,5z", Some((9999, 12, 30, 22, 0, 0))),
    ("9999-12-30T22:00:00.9999999991Z", None),
    ("9999-12-30T22:00:01Z", None),
    ("9999-12-30T22:00:60Z", None),
    ("9999-12-31T23:59:58Z", None),
    ("9999-12-31T23:59:59Z", None),
    ("9999-12-31T23:59:60Z", None),
    ("9999-12-31T23:59:59.999999999Z", None),
    ("9999-12-31T23:59:59+00:00", None),
    ("9999-12-31T22:59:59-01:00", None),
    ("9999-12-31T23:59:59-00:01", None),
    ("9999-12-31T23:59:59+25:59", None),
    ("9999-12-31T23:59:00+25:59", Some((9999, 12, 30, 22, 0, 0))),
    ("9999-12-31T23:59:59+25:59:59", Some((9999, 12, 30, 22, 0, 0))),
    ("+009999-12-30T22:00:00Z", Some((9999, 12, 30, 22, 0, 0))),
    ("+009999-12-31T23:59:59Z", None),
    ("10000-01-01T00:00:00Z", None),
    ("+010000-01-01T00:00:00Z", None),
    ("+010000-01-01T00:00:00+01:00", None),
    ("9999-12-30T24:00:00Z", None),
    ("9999-12-30Z", None),
    ("9999-12-30", None),
    ("9999-12-30T22:00:00", None),
    ("9999-12-30T22:00:00ZZ", None),
    ("9999-12-30T22:00:00Z[UTC]", Some((9999, 12, 30, 22, 0, 0))),
    ("0000-01-01T00:00:00Z", Some((0, 1, 1, 0, 0, 0))),
    ("0000-01-01T00:00:00+00:01", None),
    ("-000001-12-31T23:59:59-00:01", Some((0, 1, 1, 0, 0, 59))),
};

/// The moment that the text is read as.
fn moment_of_text(text: &str) -> Option<Parts> {
    match text.parse::<Time>() {
        Ok(time) => Some(parts_of(time)),
        Err(TimeParseError) => None,
    }
}

#[test]
fn texts_of_moments(rt: HostRuntime) {
    for (text, expected) in TEXTS {
        assert!(rt; moment_of_text(text) == *expected, "{text}");
    }
}
