//! The moment so many seconds after the first of 1970.

ghost use Rattle.rpki_c.specs.Moments.{IsSecondsOf};

use crate::moments::rpki_time_seconds_on;
use crate::times::Moment;

/// Finds the moment so many seconds after 1970-01-01 00:00:00, or before it: that of a `time_t`.
///
/// The status is 0; `NO_ANSWER` where its year is not of 0 to 9999. Unless it is 0, nothing is written.
#[unsafe(no_mangle)]
pub extern "C" fn rpki_time_of_seconds(seconds: i64, out: &mut Moment) -> u8
    ensures { IsSecondsOf seconds result out.old out.new }
{
    let epoch = Moment {
        seconds: 0,
        year: 1970,
        month: 1,
        day: 1,
        hour: 0,
        minute: 0,
        second: 0,
    };
    rpki_time_seconds_on(&epoch, seconds, out)
}
