//! Serial numbers, written.

ghost use Rattle.rpki_c.specs.Made.{IsSerialWritten};

use crate::status::CONTENT;
use crate::stored::store_values;
use rpki_der::PrimitiveContent;
use rpki_time::Serial;
use std::alloc::Global;

/// Writes the INTEGER of a serial number (RFC 5280 4.1.2.2), which is given by its twenty octets, the most significant
/// first, to the front of the buffer.
///
/// The status is 0; `TOO_SMALL` where the buffer is shorter, and nothing is written to it; in both cases `written` is
/// the count of the octets. `CONTENT` where the first bit is set, and `OUT_OF_MEMORY`; then nothing is written.
#[unsafe(no_mangle)]
pub extern "C" fn rpki_serial_write(
    alloc: Global,
    serial: &[u8; 20],
    out: &mut [u8],
    written: &mut usize,
) -> u8
    ensures { IsSerialWritten serial.now result out.old out.new written.old written.new }
{
    match Serial::from_array(*serial) {
        Ok(number) => store_values(alloc, &number.encode(), out, written),
        Err(_) => CONTENT,
    }
}
