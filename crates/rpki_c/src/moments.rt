//! Times, written in a form that is chosen, and counted on by seconds.

ghost use Rattle.rpki_c.specs.Moments.{IsUtcWritten, IsGeneralizedWritten, IsSecondsLater};

use crate::status::{CONTENT, NO_ANSWER};
use crate::stored::store_values;
use crate::time_writing::time_of;
use crate::times::{Moment, moment_of};
use jiff::SignedDuration;
use std::alloc::Global;

/// Writes a time as UTC time, with the last two digits of its year (X.690 11.8), to the front of the buffer. Its
/// seconds since 1970 are not looked at.
///
/// The statuses are those of `rpki_time_write`.
#[unsafe(no_mangle)]
pub extern "C" fn rpki_time_write_utc(
    alloc: Global,
    moment: &Moment,
    out: &mut [u8],
    written: &mut usize,
) -> u8
    ensures { IsUtcWritten moment.now result out.old out.new written.old written.new }
{
    match time_of(moment) {
        Some(time) => store_values(alloc, &time.encode_utc_time(), out, written),
        None => CONTENT,
    }
}

/// Writes a time as generalized time (X.690 11.7) to the front of the buffer. Its seconds since 1970 are not looked at.
///
/// The statuses are those of `rpki_time_write`.
#[unsafe(no_mangle)]
pub extern "C" fn rpki_time_write_generalized(
    alloc: Global,
    moment: &Moment,
    out: &mut [u8],
    written: &mut usize,
) -> u8
    ensures { IsGeneralizedWritten moment.now result out.old out.new written.old written.new }
{
    match time_of(moment) {
        Some(time) => store_values(alloc, &time.encode_generalized_time(), out, written),
        None => CONTENT,
    }
}

/// Finds the moment so many seconds later, or earlier. The seconds since 1970 of the one that is given are not looked
/// at.
///
/// The status is 0; `CONTENT` where there is no such moment in the years 0 to 9999 as the one that is given;
/// `NO_ANSWER` where the other one's year is not of these. Unless it is 0, nothing is written.
#[unsafe(no_mangle)]
pub extern "C" fn rpki_time_seconds_on(moment: &Moment, seconds: i64, out: &mut Moment) -> u8
    ensures { IsSecondsLater moment.now seconds result out.old out.new }
{
    let Some(time) = time_of(moment) else {
        return CONTENT;
    };
    match time.checked_add(SignedDuration::from_secs(seconds)) {
        Some(later) => {
            *out = moment_of(later);
            0
        }
        None => NO_ANSWER,
    }
}
