//! Times in UTC.

ghost use Rattle.std.specs.Prelude.{◌≡◌, ◌↔◌, pos, ◌+ℤ◌, ◌-ℤ◌, IsSome, IfSome, Ok, IsOk, IfOk, IsOkAnd};
ghost use Rattle.jiff.specs.Words.{civil_nanos, signed_nanos, parse_timestamp};
ghost use Rattle.rpki_time.specs.Time.{IsTimeYear, IsTimeNanos, HasParts, ArePossible, IsFloorSecond, IsYearsOn};
ghost use Rattle.rpki_time.specs.Time.{common_day, seconds};

use jiff::civil::DateTime;
use jiff::tz::Offset;
use jiff::{SignedDuration, Timestamp};
use std::error::Error;
use std::fmt;
use std::marker::Model;
use std::str::FromStr;

/// A civil date-time in UTC of the years 0 to 9999, down to the nanosecond.
#[derive(Clone, Copy, Debug, PartialEq, Eq, PartialOrd, Ord, Hash)]
pub struct Time {
    date_time: DateTime,
}

impl Model for Time {
    ghost use Rattle.jiff.specs.Types.{DateTime as Civil};
    ghost use Rattle.rpki_time.specs.Time.{IsTimeYear};

    ghost Value = { Civil };

    ghost view = { λ t. t.date_time };

    ghost invariant = { λ t. IsTimeYear t.date_time.date.year };

    ghost inverse = { λ d. record { date_time = d } };
}

impl Time {
    /// The time of this date-time in UTC, which is of the years 0 to 9999.
    pub fn new(date_time: DateTime) -> Time
        requires { IsTimeYear date_time.date.year }
        ensures { result ≡ date_time }
    {
        Time { date_time }
    }

    /// The date-time in UTC.
    pub fn date_time(self) -> DateTime
        ensures value { result ≡ self }
        ensures year { IsTimeYear result.date.year }
    {
        self.date_time
    }

    /// The year, from 0 to 9999.
    pub fn year(self) -> i32
        ensures value { result ≡ self.date.year }
        ensures bound { IsTimeYear result }
    {
        self.date_time.year() as i32
    }

    /// The month, from 1 to 12.
    pub fn month(self) -> u32
        ensures { result ≡ self.date.month }
    {
        self.date_time.month() as u32
    }

    /// The day of the month, from 1 to 31.
    pub fn day(self) -> u32
        ensures { result ≡ self.date.day }
    {
        self.date_time.day() as u32
    }

    /// The hour, from 0 to 23.
    pub fn hour(self) -> u32
        ensures { result ≡ self.time.hour }
    {
        self.date_time.hour() as u32
    }

    /// The minute, from 0 to 59.
    pub fn minute(self) -> u32
        ensures { result ≡ self.time.minute }
    {
        self.date_time.minute() as u32
    }

    /// The second, from 0 to 59.
    pub fn second(self) -> u32
        ensures { result ≡ self.time.second }
    {
        self.date_time.second() as u32
    }

    /// The time of the date-time; None if it is not of the years 0 to 9999.
    fn in_years(date_time: DateTime) -> Option<Time>
        ensures succeeds { IsSome result ↔ IsTimeYear date_time.date.year }
        ensures value { IfSome result (λ t. t ≡ date_time) }
    {
        if date_time.year() < 0 {
            return None;
        }
        Some(Time { date_time })
    }

    /// The time with these parts and no part of a second.
    ///
    /// None if the year is not of 0 to 9999, or the calendar or a clock does not have the other parts.
    pub fn utc(year: i32, month: u32, day: u32, hour: u32, minute: u32, second: u32) -> Option<Time>
        ensures succeeds { IsSome result ↔ ArePossible year month day hour minute second }
        ensures value { IfSome result (HasParts year month day hour minute second) }
    {
        if year < 0 || year > 9999 {
            return None;
        }
        if month > 12 || day > 31 || hour > 23 || minute > 59 || second > 59 {
            return None;
        }
        match DateTime::new(
            year as i16,
            month as i8,
            day as i8,
            hour as i8,
            minute as i8,
            second as i8,
            0,
        ) {
            Ok(date_time) => Some(Time { date_time }),
            Err(_) => None,
        }
    }

    /// The time later by the duration, exact to the nanosecond; None if that is not of the years 0 to 9999.
    pub fn checked_add(self, duration: SignedDuration) -> Option<Time>
        ensures succeeds { IsSome result ↔ IsTimeNanos (civil_nanos self +ℤ signed_nanos duration) }
        ensures value { IfSome result (λ t. civil_nanos t ≡ civil_nanos self +ℤ signed_nanos duration) }
    {
        match self.date_time.checked_add(duration) {
            Ok(date_time) => Time::in_years(date_time),
            Err(_) => None,
        }
    }

    /// The time earlier by the duration, exact to the nanosecond; None if that is not of the years 0 to 9999.
    pub fn checked_sub(self, duration: SignedDuration) -> Option<Time>
        ensures succeeds { IsSome result ↔ IsTimeNanos (civil_nanos self -ℤ signed_nanos duration) }
        ensures value { IfSome result (λ t. civil_nanos t ≡ civil_nanos self -ℤ signed_nanos duration) }
    {
        match self.date_time.checked_sub(duration) {
            Ok(date_time) => Time::in_years(date_time),
            Err(_) => None,
        }
    }

    /// The time five minutes before the moment; None if that is not of the years 0 to 9999.
    pub fn five_minutes_ago(now: Time) -> Option<Time>
        ensures succeeds { IsSome result ↔ IsTimeNanos (civil_nanos now -ℤ seconds (pos 300)) }
        ensures value { IfSome result (λ t. civil_nanos t ≡ civil_nanos now -ℤ seconds (pos 300)) }
    {
        now.checked_sub(SignedDuration::from_mins(5))
    }

    /// The time five minutes after the moment; None if that is not of the years 0 to 9999.
    pub fn five_minutes_from_now(now: Time) -> Option<Time>
        ensures succeeds { IsSome result ↔ IsTimeNanos (civil_nanos now +ℤ seconds (pos 300)) }
        ensures value { IfSome result (λ t. civil_nanos t ≡ civil_nanos now +ℤ seconds (pos 300)) }
    {
        now.checked_add(SignedDuration::from_mins(5))
    }

    /// The time 24 hours after the moment; None if that is not of the years 0 to 9999.
    pub fn tomorrow(now: Time) -> Option<Time>
        ensures succeeds { IsSome result ↔ IsTimeNanos (civil_nanos now +ℤ seconds (pos 86_400)) }
        ensures value { IfSome result (λ t. civil_nanos t ≡ civil_nanos now +ℤ seconds (pos 86_400)) }
    {
        now.checked_add(SignedDuration::from_hours(24))
    }

    /// The time seven times 24 hours after the moment; None if that is not of the years 0 to 9999.
    pub fn next_week(now: Time) -> Option<Time>
        ensures succeeds { IsSome result ↔ IsTimeNanos (civil_nanos now +ℤ seconds (pos 604_800)) }
        ensures value { IfSome result (λ t. civil_nanos t ≡ civil_nanos now +ℤ seconds (pos 604_800)) }
    {
        now.checked_add(SignedDuration::from_hours(7 * 24))
    }

    /// As [Time::years_from_now], a year on.
    pub fn next_year(now: Time) -> Option<Time>
        ensures succeeds { IsSome result ↔ IsTimeYear (now.date.year +ℤ pos 1) }
        ensures value { IfSome result (IsYearsOn (pos 1) now) }
    {
        Time::years_from_now(1, now)
    }

    /// As [Time::years_from_date], from the moment.
    pub fn years_from_now(years: i32, now: Time) -> Option<Time>
        ensures succeeds { IsSome result ↔ IsTimeYear (now.date.year +ℤ years) }
        ensures value { IfSome result (IsYearsOn years now) }
    {
        Time::years_from_date(years, now.date_time)
    }

    /// The same day that many years on, or before, at the same hour, minute and second. 29 February becomes 28 February
    /// always, and parts of a second are dropped.
    ///
    /// None if the resulting year is not of 0 to 9999.
    pub fn years_from_date(years: i32, date: DateTime) -> Option<Time>
        ensures succeeds { IsSome result ↔ IsTimeYear (date.date.year +ℤ years) }
        ensures value { IfSome result (IsYearsOn years date) }
    {
        let plain = date.to_plain();
        let year = i32::from(plain.date.year).checked_add(years)?;
        let day = common_day(plain.date.month, plain.date.day);
        Time::utc(
            year,
            u32::from(plain.date.month),
            u32::from(day),
            u32::from(plain.time.hour),
            u32::from(plain.time.minute),
            u32::from(plain.time.second),
        )
    }

    /// The whole seconds since 1970-01-01 00:00:00, rounded towards the past; negative before it.
    pub fn to_binary_time(self) -> i64
        ensures { IsFloorSecond (civil_nanos self) result }
    {
        self.date_time.to_plain().to_second()
    }
}

/// The day of the month, and 28 for 29 February.
fn common_day(month: u8, day: u8) -> u8
    ensures { result ≡ common_day month day }
{
    if month == 2 && day == 29 { 28 } else { day }
}

/// Error returned when a text is not a moment of the years 0 to 9999.
#[derive(Clone, Copy, Debug, PartialEq, Eq)]
pub struct TimeParseError;

impl fmt::Display for TimeParseError {
    ghost use Rattle.std.specs.Prelude.{Some, codes};

    ghost output = { λ _. Some (codes "malformed time value") };

    fn fmt<W: fmt::Write>(&self, f: &mut fmt::Formatter<W>) -> fmt::Result {
        f.write_str("malformed time value")
    }
}

impl Error for TimeParseError {}

/// Reads a moment as text, as jiff reads a [Timestamp]; the time is its date-time in UTC. Allocates nothing.
///
/// Returns an error if jiff reads no moment, or if its year in UTC is not of 0 to 9999.
impl FromStr for Time {
    type Err = TimeParseError;

    ghost from_str_gives = { λ s r. (IsOk r ↔ IsOkAnd (parse_timestamp s) IsTimeNanos)
        × IfOk r (λ t. parse_timestamp s ≡ Ok (civil_nanos t)) };

    fn from_str(s: &str) -> Result<Time, TimeParseError> {
        let Ok(instant) = s.parse::<Timestamp>() else {
            return Err(TimeParseError);
        };
        match Time::in_years(Offset::UTC.to_datetime(instant)) {
            Some(time) => Ok(time),
            None => Err(TimeParseError),
        }
    }
}
