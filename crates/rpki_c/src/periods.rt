//! Periods of validity: written, asked, and trimmed.

ghost use Rattle.std.specs.Prelude.{◌↔◌, IsSome, IfSome};
ghost use Rattle.rpki_c.specs.Moments.{ArePossible, IsPeriodOf, IsValidityWritten, IsToldOf, IsHeldAt, IsTrimmedTo};

use crate::status::{CONTENT, TOO_NEW, TOO_OLD};
use crate::stored::store_values;
use crate::time_writing::time_of;
use crate::times::{Moment, Period, moment_of};
use rpki_time::{Time, Validity, ValidityPeriodError};
use std::alloc::Global;

/// The period of two moments; `None` where there is no such time as one of them. Their seconds since 1970 are not
/// looked at.
fn validity_of(period: &Period) -> Option<Validity>
    ensures succeeds { IsSome result ↔ ArePossible period.now }
    ensures value { IfSome result (λ p. IsPeriodOf period.now p) }
{
    let not_before = time_of(&period.not_before)?;
    let not_after = time_of(&period.not_after)?;
    Some(Validity::new(not_before, not_after))
}

/// Writes a period of validity as certificates have it (RFC 5280 4.1.2.5) to the front of the buffer: a SEQUENCE of two
/// times, each as `rpki_time_write` writes it. The seconds since 1970 of its moments are not looked at.
///
/// The status is 0; `TOO_SMALL` where the buffer is shorter, and nothing is written to it; in both cases `written` is
/// the count of the octets. `CONTENT` where there is no such time in the years 0 to 9999 as one of its moments, and
/// `OUT_OF_MEMORY`; then nothing is written.
#[unsafe(no_mangle)]
pub extern "C" fn rpki_validity_write(
    alloc: Global,
    period: &Period,
    out: &mut [u8],
    written: &mut usize,
) -> u8
    ensures { IsValidityWritten period.now result out.old out.new written.old written.new }
{
    match validity_of(period) {
        Some(validity) => store_values(alloc, &validity.encode(), out, written),
        None => CONTENT,
    }
}

/// Whether the period holds at the time: 0, `TOO_NEW` or `TOO_OLD`.
pub(crate) fn told_of(period: Validity, time: Time) -> u8
    ensures { IsToldOf period time result }
{
    match period.verify_at(time) {
        Ok(()) => 0,
        Err(ValidityPeriodError::TooNew) => TOO_NEW,
        Err(ValidityPeriodError::TooOld) => TOO_OLD,
    }
}

/// Tells whether the period holds at the moment; it does at both of its ends (RFC 5280 4.1.2.5). Seconds since 1970 are
/// not looked at.
///
/// The status is 0; `TOO_NEW` where the moment is before its start; else `TOO_OLD` where it is after its end. `CONTENT`
/// where there is no such time in the years 0 to 9999 as one of the three moments.
#[unsafe(no_mangle)]
pub extern "C" fn rpki_validity_at(period: &Period, moment: &Moment) -> u8
    ensures { IsHeldAt period.now moment.now result }
{
    let Some(validity) = validity_of(period) else {
        return CONTENT;
    };
    let Some(time) = time_of(moment) else {
        return CONTENT;
    };
    told_of(validity, time)
}

/// Finds the period that holds exactly where both do: from the later start to the earlier end. Seconds since 1970 are
/// not looked at.
///
/// The status is 0; `CONTENT` where there is no such time in the years 0 to 9999 as one of the four moments; then `out`
/// is unchanged.
#[unsafe(no_mangle)]
pub extern "C" fn rpki_validity_trim(period: &Period, other: &Period, out: &mut Period) -> u8
    ensures { IsTrimmedTo period.now other.now result out.old out.new }
{
    let Some(one) = validity_of(period) else {
        return CONTENT;
    };
    let Some(two) = validity_of(other) else {
        return CONTENT;
    };
    let both = one.trim(two);
    *out = Period {
        not_before: moment_of(both.not_before()),
        not_after: moment_of(both.not_after()),
    };
    0
}
