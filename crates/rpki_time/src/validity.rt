//! Validity periods.

ghost use Rattle.std.specs.Prelude.{length, ◌<◌, ◌^◌, true, ◌≡◌, ◌↔◌, ◌+ℤ◌, ◌<ℤ◌, ◌≤ℤ◌, ◌*ℤ◌, IsSome, IfSome, IsOk};
ghost use Rattle.std.specs.Prelude.{IfErr, IsErrOf, IsTrue};
ghost use Rattle.jiff.specs.Types.{DateTime as Civil};
ghost use Rattle.jiff.specs.Words.{civil_nanos, signed_nanos};
ghost use Rattle.rpki_time.specs.Time.{IsTimeNanos, seconds};
ghost use Rattle.rpki_der.specs.Prelude.{left, Takes, TakesAll, TakesWholeInPlace, Reads};
ghost use Rattle.rpki_time.specs.PeriodValue.{SpellsPeriod, period_octets, period, times};
ghost use Rattle.rpki_time.specs.Validity.{Period, AreTimeYears, HoldsAt, SpansBetween, IsTrimmed, cut_period};
ghost use Rattle.rpki_time.specs.Validity.{trimmed};

use crate::time::Time;
use crate::time_encoder::VariedTime;
use jiff::SignedDuration;
use rpki_der::{Constructed, DecodeError, Sequence, Values};
use std::error::Error;
use std::fmt;
use std::marker::Model;

/// Why a moment is outside a validity period.
#[derive(Clone, Copy, Debug)]
pub enum ValidityPeriodError {
    /// The period begins after the moment.
    TooNew,
    /// The period ended before the moment.
    TooOld,
}

impl ValidityPeriodError {
    /// Whether the period begins after the moment.
    pub fn is_too_new(self) -> bool
        ensures { IsTrue result ↔ (self ≡ ValidityPeriodError.TooNew) }
    {
        match self {
            ValidityPeriodError::TooNew => true,
            ValidityPeriodError::TooOld => false,
        }
    }
}

impl fmt::Display for ValidityPeriodError {
    ghost use Rattle.std.specs.Prelude.{Some};
    ghost use Rattle.rpki_time.specs.ErrorTexts.{period_error_text};

    ghost output = { λ e. Some (period_error_text e) };

    fn fmt<W: fmt::Write>(&self, f: &mut fmt::Formatter<W>) -> fmt::Result {
        f.write_str(match self {
            ValidityPeriodError::TooNew => "object is not yet valid",
            ValidityPeriodError::TooOld => "object has expired",
        })
    }
}

impl Error for ValidityPeriodError {}

impl Time {
    /// Checks the moment against this time as a start: returns `TooNew` if the moment is before it.
    pub fn verify_not_before(self, now: Time) -> Result<(), ValidityPeriodError>
        ensures ok { IsOk result ↔ (civil_nanos self ≤ℤ civil_nanos now) }
        ensures err { IfErr result (λ e. e ≡ ValidityPeriodError.TooNew) }
    {
        if now < self {
            return Err(ValidityPeriodError::TooNew);
        }
        Ok(())
    }

    /// Checks the moment against this time as an end: returns `TooOld` if the moment is after it.
    pub fn verify_not_after(self, now: Time) -> Result<(), ValidityPeriodError>
        ensures ok { IsOk result ↔ (civil_nanos now ≤ℤ civil_nanos self) }
        ensures err { IfErr result (λ e. e ≡ ValidityPeriodError.TooOld) }
    {
        if now > self {
            return Err(ValidityPeriodError::TooOld);
        }
        Ok(())
    }
}

/// A validity period: from one time to another, both included (RFC 5280 4.1.2.5). One whose end is before its start
/// never holds.
#[derive(Clone, Copy, Debug, PartialEq, Eq, Hash)]
pub struct Validity {
    not_before: Time,
    not_after: Time,
}

impl Model for Validity {
    ghost use Rattle.rpki_time.specs.Validity.{Period};

    ghost Value = { Period };

    ghost view = { λ v. record { not_before = v.not_before; not_after = v.not_after } };

    ghost inverse = { λ p. record { not_before = p.not_before; not_after = p.not_after } };
}

impl Validity {
    /// The period from the first time to the second.
    pub fn new(not_before: Time, not_after: Time) -> Validity
        ensures not_before { result.not_before ≡ not_before }
        ensures not_after { result.not_after ≡ not_after }
    {
        Validity {
            not_before,
            not_after,
        }
    }

    /// The start.
    pub fn not_before(self) -> Time
        ensures { result ≡ self.not_before }
    {
        self.not_before
    }

    /// The end.
    pub fn not_after(self) -> Time
        ensures { result ≡ self.not_after }
    {
        self.not_after
    }

    /// The period between the moment and the time later by the duration, the earlier of the two first.
    ///
    /// None if that time is not of the years 0 to 9999.
    pub fn from_duration(now: Time, duration: SignedDuration) -> Option<Validity>
        ensures succeeds { IsSome result ↔ IsTimeNanos (civil_nanos now +ℤ signed_nanos duration) }
        ensures value { IfSome result (SpansBetween (civil_nanos now) (civil_nanos now +ℤ signed_nanos duration)) }
    {
        let other = now.checked_add(duration)?;
        if other < now {
            return Some(Validity::new(other, now));
        }
        Some(Validity::new(now, other))
    }

    /// The period between the moment and the time that many seconds later, the earlier of the two first.
    ///
    /// None if that time is not of the years 0 to 9999.
    pub fn from_secs(now: Time, secs: i64) -> Option<Validity>
        ensures succeeds { IsSome result ↔ IsTimeNanos (civil_nanos now +ℤ seconds secs) }
        ensures value { IfSome result (SpansBetween (civil_nanos now) (civil_nanos now +ℤ seconds secs)) }
    {
        Validity::from_duration(now, SignedDuration::from_secs(secs))
    }

    /// The period that holds at exactly the moments at which both do: from the later start to the earlier end.
    pub fn trim(self, other: Validity) -> Validity
        ensures value { result ≡ trimmed self other }
        ensures ends { IsTrimmed self other result }
        ensures holds { (m : Civil) → HoldsAt result m ↔ (HoldsAt self m × HoldsAt other m) }
    {
        Validity::new(
            self.not_before.max(other.not_before),
            self.not_after.min(other.not_after),
        )
    }

    /// Checks that the period holds at the moment, both ends included.
    ///
    /// Returns `TooNew` if the moment is before the start; else `TooOld` if it is after the end.
    pub fn verify_at(self, now: Time) -> Result<(), ValidityPeriodError>
        ensures ok { IsOk result ↔ HoldsAt self now }
        ensures too_new { IsErrOf result ValidityPeriodError.TooNew ↔ (civil_nanos now <ℤ civil_nanos self.not_before) }
    {
        self.not_before.verify_not_before(now)?;
        self.not_after.verify_not_after(now)
    }

    /// A validity period: a SEQUENCE of two times, the start first (RFC 5280 4.1.2.5), and nothing after it. Allocates
    /// nothing.
    ///
    /// The errors are those of [Validity::take_from]; then `Trailing` if something follows the period.
    pub fn decode(octets: &[u8]) -> Result<Validity, DecodeError>
        ensures { TakesWholeInPlace (λ p. p) period octets.now result }
    {
        Constructed::from_slice(octets).whole(|cons| Validity::take_from(cons))
    }

    /// Reads a validity period: a SEQUENCE of two times and nothing else, the start first (RFC 5280 4.1.2.5). Allocates
    /// nothing.
    ///
    /// The errors are those of [Constructed::take_sequence] if there is no SEQUENCE; else that of the first time that
    /// could not be read, or `Trailing` if more follows. An error leaves the cursor where it was.
    pub fn take_from(cons: &mut Constructed<'_>) -> Result<Validity, DecodeError>
        ensures { Takes (λ p. p) period (left cons.old) (left cons.new) result }
    {
        cons.in_sequence(
            |contents|
                ensures { TakesAll (λ p. p) times (left contents.old) (left contents.new) result }
            {
                let not_before = match Time::take_from(contents) {
                    Ok(time) => time,
                    Err(e) => return Err(e),
                };
                let not_after = match Time::take_from(contents) {
                    Ok(time) => time,
                    Err(e) => return Err(e),
                };
                Ok(Validity::new(not_before, not_after))
            },
        )
    }

    /// An encoder for the period as certificates have it: a SEQUENCE of its two times, each as [Time::encode_varied]
    /// writes it. It always fits.
    pub fn encode(self) -> Sequence<(VariedTime, VariedTime)>
        ensures encoded { ⟦<Sequence<(VariedTime, VariedTime)> as Values>⟧.encoded result ≡ period_octets self }
        ensures fits { ⟦<Sequence<(VariedTime, VariedTime)> as Values>⟧.is_short result
            × (length (period_octets self) < 2 ^ 63) }
        // They are a period: this one without parts of a second.
        ensures read_back { SpellsPeriod (cut_period self) (period_octets self) }
        // Two periods have the same encoding exactly where they differ in parts of a second alone.
        ensures same { (other : Period) → AreTimeYears other
            → (period_octets self ≡ period_octets other) ↔ (cut_period self ≡ cut_period other) }
    {
        Sequence::new((
            self.not_before.encode_varied(),
            self.not_after.encode_varied(),
        ))
    }
}
