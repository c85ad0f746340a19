//! The texts of times: UTC time, YYMMDDHHMMSSZ, and generalized time, YYYYMMDDHHMMSSZ (X.690 11.7, 11.8;
//! RFC 5280 4.1.2.5).

ghost use Rattle.std.specs.Prelude.{◌≡◌, ◌↔◌, ◌+◌, ◌<◌, ◌≤◌, ℕ, ℤ, pos, length, IsTrue, IfSome, IfNone};
ghost use Rattle.jiff.specs.Types.{DateTime as Civil};
ghost use Rattle.rpki_time.specs.TimeText.{two_digits, utc_text, generalized_text, ReadsAsUtc, ReadsAsGeneralized};
ghost use Rattle.rpki_time.specs.TimeText.{is_utc_year};
ghost use Rattle.rpki_time.specs.TextPlaces.{IsPairAt, HasTailAt};
ghost use Rattle.rpki_time.specs.Time.{HasParts, ArePossible, IsTimeYear};

use crate::time::Time;

/// The number below 100 in two decimal digits.
fn digits(number: u8) -> [u8; 2]
    requires { number < 100 }
    ensures { result ≡ two_digits number }
{
    [b'0' + number / 10, b'0' + number % 10]
}

/// The number whose two decimal digits are at the place; None if other octets do.
fn pair_at(text: &[u8], at: usize) -> Option<u32>
    requires { at + 1 < length text.now }
    ensures value { IfSome result (IsPairAt text.now at) }
    ensures bound { IfSome result (λ n. n < 100) }
    ensures none { IfNone result ((n : ℕ) → ¬ (IsPairAt text.now at n)) }
{
    let (tens, ones) = (text[at], text[at + 1]);
    if tens.is_ascii_digit() && ones.is_ascii_digit() {
        Some(u32::from(tens - b'0') * 10 + u32::from(ones - b'0'))
    } else {
        None
    }
}

impl Time {
    /// The text as UTC time, whose year is written modulo 100.
    pub(crate) fn utc_text(self) -> [u8; 13]
        ensures text { result ≡ utc_text self }
        ensures year { IsTimeYear self.date.year }
    {
        let plain = self.date_time().to_plain();
        let year = digits((plain.date.year as u16 % 100) as u8);
        let month = digits(plain.date.month);
        let day = digits(plain.date.day);
        let hour = digits(plain.time.hour);
        let minute = digits(plain.time.minute);
        let second = digits(plain.time.second);
        [
            year[0], year[1], month[0], month[1], day[0], day[1], hour[0], hour[1], minute[0],
            minute[1], second[0], second[1], b'Z',
        ]
    }

    /// The text as generalized time.
    pub(crate) fn generalized_text(self) -> [u8; 15]
        ensures text { result ≡ generalized_text self }
        ensures year { IsTimeYear self.date.year }
    {
        let plain = self.date_time().to_plain();
        let century = digits((plain.date.year as u16 / 100) as u8);
        let year = digits((plain.date.year as u16 % 100) as u8);
        let month = digits(plain.date.month);
        let day = digits(plain.date.day);
        let hour = digits(plain.time.hour);
        let minute = digits(plain.time.minute);
        let second = digits(plain.time.second);
        [
            century[0], century[1], year[0], year[1], month[0], month[1], day[0], day[1], hour[0],
            hour[1], minute[0], minute[1], second[0], second[1], b'Z',
        ]
    }

    /// The time that the text writes as UTC time: two digits of the year from 50 on are of 19xx, and those below 50 of
    /// 20xx (RFC 5280 4.1.2.5.1). None if it writes none.
    pub(crate) fn from_utc_text(text: &[u8]) -> Option<Time>
        ensures value { IfSome result (ReadsAsUtc text.now) }
        ensures none { IfNone result ((t : Civil) → ¬ (ReadsAsUtc text.now t)) }
    {
        if text.len() != 13 {
            return None;
        }
        let short = pair_at(text, 0)?;
        let year = if short < 50 {
            2000 + short
        } else {
            1900 + short
        };
        tail_at(year, text, 2)
    }

    /// Whether the text writes a time as UTC time (X.690 11.8, RFC 5280 4.1.2.5.1), as [Time::take_from] reads it.
    /// Allocates nothing.
    #[inline]
    pub fn is_utc_text(text: &[u8]) -> bool
        ensures { IsTrue result ↔ ((t : Civil) × ReadsAsUtc text.now t) }
    {
        match Time::from_utc_text(text) {
            Some(_) => true,
            None => false,
        }
    }

    /// The time that the text writes as generalized time (RFC 5280 4.1.2.5.2). None if it writes none.
    pub(crate) fn from_generalized_text(text: &[u8]) -> Option<Time>
        ensures value { IfSome result (ReadsAsGeneralized text.now) }
        ensures none { IfNone result ((t : Civil) → ¬ (ReadsAsGeneralized text.now t)) }
    {
        if text.len() != 15 {
            return None;
        }
        let century = pair_at(text, 0)?;
        let year = pair_at(text, 2)?;
        tail_at(100 * century + year, text, 4)
    }
}

impl Time {
    /// Whether UTC time has the year: it is of 1950 to 2049 (RFC 5280 4.1.2.5.1).
    pub(crate) fn is_utc(self) -> bool
        ensures { result ≡ is_utc_year self.date.year }
    {
        let year = self.year();
        (1950..=2049).contains(&year)
    }
}

/// The time in the year whose month, day, hour, minute and second are from the place on, then Z; None if they do not.
fn tail_at(year: u32, text: &[u8], at: usize) -> Option<Time>
    requires fits { length text.now ≡ at + 11 }
    requires year { year < 10_000 }
    ensures value { IfSome result (HasTailAt text.now at (pos year)) }
    ensures none { IfNone result ((t : Civil) → ¬ (HasTailAt text.now at (pos year) t)) }
{
    if text[at + 10] != b'Z' {
        return None;
    }
    let month = pair_at(text, at)?;
    let day = pair_at(text, at + 2)?;
    let hour = pair_at(text, at + 4)?;
    let minute = pair_at(text, at + 6)?;
    let second = pair_at(text, at + 8)?;
    Time::utc(year as i32, month, day, hour, minute, second)
}
