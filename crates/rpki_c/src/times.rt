//! Times.

ghost use Rattle.std.specs.Prelude.{◌≡◌, IfOk, IfErr};
ghost use Rattle.rpki_der.specs.Reading.{SpellsNothing, UnlessMemory};
ghost use Rattle.rpki_time.specs.TimeValue.{SpellsTime};
ghost use Rattle.rpki_time.specs.PeriodValue.{SpellsPeriod};
ghost use Rattle.rpki_c.specs.Time.{IsMoment, HasMoment, HasMoments, IsWholeTimeFault, IsWholePeriodFault, IsTimeRead};
ghost use Rattle.rpki_c.specs.Time.{IsValidityRead};

use rpki_der::DecodeError;
use rpki_time::{Time, Validity};

/// A moment in UTC.
#[repr(C)]
#[derive(Clone, Copy)]
pub struct Moment {
    /// Seconds since 1970-01-01 00:00:00; negative before it.
    pub seconds: i64,
    /// The year, from 0 to 9999.
    pub year: i32,
    /// The month, from 1 to 12.
    pub month: u32,
    /// The day of the month, from 1 to 31.
    pub day: u32,
    /// The hour, from 0 to 23.
    pub hour: u32,
    /// The minute, from 0 to 59.
    pub minute: u32,
    /// The second, from 0 to 59.
    pub second: u32,
}

/// The moment of a time, without parts of a second.
pub(crate) fn moment_of(time: Time) -> Moment
    ensures { time.time.subsec_nanosecond ≡ 0 → IsMoment time result }
{
    Moment {
        seconds: time.to_binary_time(),
        year: time.year(),
        month: time.month(),
        day: time.day(),
        hour: time.hour(),
        minute: time.minute(),
        second: time.second(),
    }
}

/// The moment of the time that the octets are.
fn read_time(octets: &[u8]) -> Result<Moment, DecodeError>
    ensures ok { IfOk result (λ m. HasMoment octets.now m) }
    ensures err { IfErr result (λ e. UnlessMemory e (SpellsNothing SpellsTime octets.now)
        × IsWholeTimeFault octets.now e) }
{
    match Time::decode(octets) {
        Ok(time) => Ok(moment_of(time)),
        Err(e) => Err(e),
    }
}

/// Reads a time: UTC time or generalized time (RFC 5280 4.1.2.5).
///
/// The status is 0, or the number of the error; then `out` is unchanged. Nothing is allocated.
#[unsafe(no_mangle)]
pub extern "C" fn rpki_time(octets: &[u8], out: &mut Moment) -> u8
    ensures { IsTimeRead octets.now result out.old out.new }
{
    match read_time(octets) {
        Ok(found) => {
            *out = found;
            0
        }
        Err(e) => e.number(),
    }
}

/// A period of validity.
#[repr(C)]
#[derive(Clone, Copy)]
pub struct Period {
    /// The first moment.
    pub not_before: Moment,
    /// The last moment.
    pub not_after: Moment,
}

/// The moments of the period that the octets are.
fn read_validity(octets: &[u8]) -> Result<Period, DecodeError>
    ensures ok { IfOk result (λ m. HasMoments octets.now m) }
    ensures err { IfErr result (λ e. UnlessMemory e (SpellsNothing SpellsPeriod octets.now)
        × IsWholePeriodFault octets.now e) }
{
    match Validity::decode(octets) {
        Ok(period) => Ok(Period {
            not_before: moment_of(period.not_before()),
            not_after: moment_of(period.not_after()),
        }),
        Err(e) => Err(e),
    }
}

/// Reads a period of validity (RFC 5280 4.1.2.5).
///
/// The status is 0, or the number of the error; then `out` is unchanged. Nothing is allocated.
#[unsafe(no_mangle)]
pub extern "C" fn rpki_validity(octets: &[u8], out: &mut Period) -> u8
    ensures { IsValidityRead octets.now result out.old out.new }
{
    match read_validity(octets) {
        Ok(found) => {
            *out = found;
            0
        }
        Err(e) => e.number(),
    }
}
