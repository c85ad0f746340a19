//! Serial numbers as decimal digits, and of octets.

ghost use Rattle.rpki_c.specs.Serial.{IsDecimalWritten, IsDecimalRead, IsNumberRead};

use crate::status::CONTENT;
use crate::stored::store;
use rpki_time::Serial;

/// Writes the decimal digits of a serial number, which is given by its twenty octets, the most significant first, to
/// the front of the buffer, without zeros in front. Allocates nothing.
///
/// The status is 0; `TOO_SMALL` where the buffer is shorter, and nothing is written to it; in both cases `written` is
/// the count of the digits. `CONTENT` where the first bit is set; then nothing is written.
#[unsafe(no_mangle)]
pub extern "C" fn rpki_serial_decimal(serial: &[u8; 20], out: &mut [u8], written: &mut usize) -> u8
    ensures { IsDecimalWritten serial.now result out.old out.new written.old written.new }
{
    match Serial::from_array(*serial) {
        Ok(number) => store(number.to_decimal().as_slice(), out, written),
        Err(_) => CONTENT,
    }
}

/// Reads the decimal digits of a serial number (RFC 5280 4.1.2.2), with any number of zeros in front, and writes its
/// twenty octets, zeros in front. Allocates nothing.
///
/// The status is 0; `CONTENT` where there are no digits, where another octet is among them, or where the number is
/// 2^159 or more; then `out` is unchanged.
#[unsafe(no_mangle)]
pub extern "C" fn rpki_serial_of_decimal(text: &[u8], out: &mut [u8; 20]) -> u8
    ensures { IsDecimalRead text.now result out.old out.new }
{
    match Serial::from_decimal(text) {
        Ok(serial) => {
            *out = serial.into_array();
            0
        }
        Err(_) => CONTENT,
    }
}

/// Finds the serial number that the octets write, the most significant first, and writes its twenty octets, zeros in
/// front. Allocates nothing.
///
/// The status is 0; `CONTENT` where there are no octets, more than twenty, or twenty of which the first bit is set;
/// then `out` is unchanged.
#[unsafe(no_mangle)]
pub extern "C" fn rpki_serial_of_octets(octets: &[u8], out: &mut [u8; 20]) -> u8
    ensures { IsNumberRead octets.now result out.old out.new }
{
    match Serial::from_slice(octets) {
        Ok(serial) => {
            *out = serial.into_array();
            0
        }
        Err(_) => CONTENT,
    }
}
