//! Octets as hexadecimal digits in upper case (RFC 4648 section 8).

ghost use Rattle.std.specs.Prelude.{◌≡◌, ◌≤◌, ◌<◌, ◌*◌, ◌/◌, ◌%◌, ◌++◌, [], ◌∷◌, length, take, drop};
ghost use Rattle.std.specs.Borrow.{sem};
ghost use Rattle.rpki_text.specs.HexText.{hex_digit, hex_text, EndsAs};

use std::str;

/// Writes two digits for each octet of `src` to the front of `dest`, and returns them as text. The rest of `dest` stays
/// as it is.
///
/// Requires that `dest` has room for them: at least twice the octets of `src`.
pub fn encode<'a>(src: &[u8], dest: &'a mut [u8]) -> &'a str
    requires { 2 * length src.now ≤ length dest.old }
    ensures* rest_stays { sem 𝓛 (EndsAs dest.entry (hex_text src.now ++ drop (2 * length src.now) dest.old)) }
    ensures digits { result.now ≡ hex_text src.now }
{
    front_text(src, written(src, dest))
}

/// The two digits of an octet, the high one first.
pub fn encode_u8(byte: u8) -> [u8; 2]
    ensures { result ≡ hex_text (byte ∷ []) }
{
    [digit(byte / 16), digit(byte % 16)]
}

fn digit(n: u8) -> u8
    requires { n < 16 }
    ensures { result ≡ hex_digit n }
{
    if n < 10 { b'0' + n } else { b'A' + n - 10 }
}

/// Writes the digits to the front of `dest`, leaves the rest of it as it is, and returns `dest`.
fn written<'a>(src: &[u8], dest: &'a mut [u8]) -> &'a mut [u8]
    requires { 2 * length src.now ≤ length dest.old }
    ensures { (result.ghost_name ≡ dest.entry.ghost_name)
        × (result.now ≡ hex_text src.now ++ drop (2 * length src.now) dest.old) }
{
    for i in 0..src.len() {
        let digits = encode_u8(src[i]);
        dest[2 * i] = digits[0];
        dest[2 * i + 1] = digits[1];
    }
    dest
}

/// The digits of `src`, at the front of `octets`, as text.
fn front_text<'a>(src: &[u8], octets: &'a [u8]) -> &'a str
    requires { (2 * length src.now ≤ length octets.now) × (take (2 * length src.now) octets.now ≡ hex_text src.now) }
    ensures { result.now ≡ hex_text src.now }
{
    let (digits, _) = octets.split_at(2 * src.len());
    unsafe { str::from_utf8_unchecked(digits) }
}
