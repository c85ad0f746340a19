//! Hexadecimal digits.

ghost use Rattle.std.specs.Prelude.{◌≡◌, ◌≤◌, ◌*◌, ◌++◌, length, drop};
ghost use Rattle.rpki_text.specs.HexText.{hex_text};
ghost use Rattle.rpki_c.specs.Stored.{IsStored};

use crate::status::TOO_SMALL;
use rpki_text::util::hex;

/// Writes the digits of the octets to the front of a buffer that has room for them.
fn write_digits(octets: &[u8], out: &mut [u8])
    requires { 2 * length octets.now ≤ length out.old }
    ensures { out.new ≡ hex_text octets.now ++ drop (2 * length octets.now) out.old }
{
    for i in 0..octets.len() {
        let digits = hex::encode_u8(octets[i]);
        out[2 * i] = digits[0];
        out[2 * i + 1] = digits[1];
    }
}

/// Writes the octets in hexadecimal digits in upper case, two for each, to the front of the buffer (RFC 4648 8).
/// Allocates nothing.
///
/// The status is 0; `TOO_SMALL` where the buffer is shorter, and nothing is written to it; in both cases `written` is
/// the count of the digits.
#[unsafe(no_mangle)]
pub extern "C" fn rpki_hex(octets: &[u8], out: &mut [u8], written: &mut usize) -> u8
    ensures { IsStored (hex_text octets.now) result out.old out.new written.new }
{
    let len = octets.len();
    *written = 2 * len;
    if len > out.len() / 2 {
        return TOO_SMALL;
    }
    write_digits(octets, out);
    0
}
