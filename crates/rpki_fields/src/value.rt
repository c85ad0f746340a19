//! Values as texts: octets, numbers and times.

ghost use Rattle.std.specs.Prelude.{◌≡◌, ◌<◌, ◌++◌, ◌∷◌, IfOk, OnOk};
ghost use Rattle.std.specs.List.{flat_map};
ghost use Rattle.rpki_text.specs.HexText.{hex_digit};
ghost use Rattle.rpki_time.specs.TimeText.{two_digits};
ghost use Rattle.rpki_fields.specs.ValueText.{hex_pair, hex_digits, colon_digits, IsNumberText, time_text};
ghost use Rattle.rpki_fields.specs.ValueText.{seconds_text};

use rpki_der::Unsigned;
use rpki_time::{Serial, Time};
use std::alloc::{AllocError, Global};

/// The hexadecimal digit of a number below 16, in upper case.
fn hex_digit(number: u8) -> u8
    requires { number < 16 }
    ensures { result ≡ hex_digit number }
{
    if number < 10 {
        b'0' + number
    } else {
        b'A' + (number - 10)
    }
}

/// The two hexadecimal digits of an octet, in upper case, the high one first.
pub fn hex_pair(octet: u8) -> [u8; 2]
    ensures { result ≡ hex_pair octet }
{
    [hex_digit(octet / 16), hex_digit(octet % 16)]
}

/// Adds the digits of the octets.
pub fn push_digits(text: &mut Vec<u8>, octets: &[u8]) -> Result<(), AllocError>
    ensures { OnOk result (text.new.items ≡ text.old.items ++ hex_digits octets.now) }
{
    'octets: for octet in octets {
        text.extend_from_slice(&hex_pair(*octet))?;
    }
    Ok(())
}

/// Octets as hexadecimal digits in upper case, one octet after another.
///
/// Returns `AllocError` if allocation fails.
pub fn hex_digits(alloc: Global, octets: &[u8]) -> Result<Vec<u8>, AllocError>
    ensures { IfOk result (λ text. text.items ≡ hex_digits octets.now) }
{
    let mut text = Vec::new(alloc);
    'octets: for octet in octets {
        text.extend_from_slice(&hex_pair(*octet))?;
    }
    Ok(text)
}

/// Adds the digits of each octet, after a colon.
fn push_colon_digits(text: &mut Vec<u8>, octets: &[u8]) -> Result<(), AllocError>
    ensures { OnOk result (text.new.items ≡ text.old.items ++ flat_map (λ each. 58 ∷ hex_pair each) octets.now) }
{
    'octets: for octet in octets {
        let digits = hex_pair(*octet);
        text.extend_from_slice(&[b':', digits[0], digits[1]])?;
    }
    Ok(())
}

/// Octets as hexadecimal digits in upper case, with a colon between two octets.
///
/// Returns `AllocError` if allocation fails.
pub fn colon_digits(alloc: Global, octets: &[u8]) -> Result<Vec<u8>, AllocError>
    ensures { IfOk result (λ text. text.items ≡ colon_digits octets.now) }
{
    let mut text = Vec::new(alloc);
    if let Some((first, rest)) = octets.split_first() {
        text.extend_from_slice(&hex_pair(*first))?;
        push_colon_digits(&mut text, rest)?;
    }
    Ok(text)
}

/// A serial number as the digits of its octets, without zero octets in front.
///
/// Returns `AllocError` if allocation fails.
pub fn serial_text(alloc: Global, serial: Serial) -> Result<Vec<u8>, AllocError>
    ensures { IfOk result (λ text. IsNumberText serial text.items) }
{
    let octets = serial.into_array();
    match Unsigned::from_slice(&octets) {
        Ok(number) => hex_digits(alloc, number.as_slice()),
        Err(_) => Err(AllocError),
    }
}

/// Two decimal digits of a number below 100.
fn two_digits(number: u8) -> [u8; 2]
    ensures { result ≡ two_digits number }
{
    [b'0' + number / 10, b'0' + number % 10]
}

/// A time as `YYYY-MM-DD HH:MM:SSZ` (ISO 8601).
pub fn time_text(time: Time) -> [u8; 20]
    ensures { result ≡ time_text time }
{
    let plain = time.date_time().to_plain();
    let century = two_digits((plain.date.year as u16 / 100) as u8);
    let year = two_digits((plain.date.year as u16 % 100) as u8);
    let month = two_digits(plain.date.month);
    let day = two_digits(plain.date.day);
    let hour = two_digits(plain.time.hour);
    let minute = two_digits(plain.time.minute);
    let second = two_digits(plain.time.second);
    [
        century[0], century[1], year[0], year[1], b'-', month[0], month[1], b'-', day[0], day[1],
        b' ', hour[0], hour[1], b':', minute[0], minute[1], b':', second[0], second[1], b'Z',
    ]
}

/// A time as the whole seconds since 1970-01-01 00:00:00, in decimal digits, with a hyphen in front before it.
///
/// Returns `AllocError` if allocation fails.
pub fn seconds_text(alloc: Global, time: Time) -> Result<Vec<u8>, AllocError>
    ensures { IfOk result (λ text. text.items ≡ seconds_text time) }
{
    let seconds = time.date_time().to_plain().to_second();
    let text = format!(in alloc; "{seconds}")?;
    Ok(text.into_bytes())
}
