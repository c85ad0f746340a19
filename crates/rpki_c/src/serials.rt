//! Serial numbers.

ghost use Rattle.rpki_c.specs.Serial.{IsSerialRead};

use rpki_time::Serial;

/// Reads a serial number (RFC 5280 4.1.2.2), and writes its twenty octets, zeros in front.
///
/// The status is 0, or the number of the error; then `out` is unchanged. Nothing is allocated.
#[unsafe(no_mangle)]
pub extern "C" fn rpki_serial(octets: &[u8], out: &mut [u8; 20]) -> u8
    ensures { IsSerialRead octets.now result out.old out.new }
{
    match Serial::decode(octets) {
        Ok(serial) => {
            *out = serial.into_array();
            0
        }
        Err(e) => e.number(),
    }
}
