//! Times, written and counted on.

ghost use Rattle.std.specs.Prelude.{◌↔◌, IsSome, IfSome};
ghost use Rattle.rpki_c.specs.Made.{IsPossible, IsTimeOf, IsTimeWritten, IsYearsLater};

use crate::status::{CONTENT, NO_ANSWER};
use crate::stored::store_values;
use crate::times::{Moment, moment_of};
use rpki_time::Time;
use std::alloc::Global;

/// The time of the parts of a moment; `None` where there is none. Its seconds since 1970 are not looked at.
pub(crate) fn time_of(moment: &Moment) -> Option<Time>
    ensures succeeds { IsSome result ↔ IsPossible moment.now }
    ensures value { IfSome result (λ t. IsTimeOf moment.now t) }
{
    Time::utc(
        moment.year,
        moment.month,
        moment.day,
        moment.hour,
        moment.minute,
        moment.second,
    )
}

/// Writes a time as certificates have it (RFC 5280 4.1.2.5) to the front of the buffer: UTC time in the years 1950 to
/// 2049, and generalized time in the others. Its seconds since 1970 are not looked at.
///
/// The status is 0; `TOO_SMALL` where the buffer is shorter, and nothing is written to it; in both cases `written` is
/// the count of the octets. `CONTENT` where there is no such time in the years 0 to 9999, and `OUT_OF_MEMORY`; then
/// nothing is written.
#[unsafe(no_mangle)]
pub extern "C" fn rpki_time_write(
    alloc: Global,
    moment: &Moment,
    out: &mut [u8],
    written: &mut usize,
) -> u8
    ensures { IsTimeWritten moment.now result out.old out.new written.old written.new }
{
    match time_of(moment) {
        Some(time) => store_values(alloc, &time.encode_varied(), out, written),
        None => CONTENT,
    }
}

/// Finds the moment so many years on, or before, on the same day at the same time; 29 February becomes 28 February. Its
/// seconds since 1970 are not looked at.
///
/// The status is 0; `CONTENT` where there is no such moment in the years 0 to 9999 as the one that is given;
/// `NO_ANSWER` where the other one's year is not of these. Unless it is 0, nothing is written.
#[unsafe(no_mangle)]
pub extern "C" fn rpki_time_years_on(moment: &Moment, years: i32, out: &mut Moment) -> u8
    ensures { IsYearsLater moment.now years result out.old out.new }
{
    let Some(time) = time_of(moment) else {
        return CONTENT;
    };
    match Time::years_from_now(years, time) {
        Some(later) => {
            *out = moment_of(later);
            0
        }
        None => NO_ANSWER,
    }
}
