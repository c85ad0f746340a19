//! Octets of tables, as hexadecimal digits.

ghost use Rattle.std.specs.Prelude.{◌<◌};

use std::alloc::{AllocError, Global};

/// The number that a hexadecimal digit is.
fn digit(code: u8) -> u8
    ensures { result < 16 }
{
    match code {
        b'0'..=b'9' => code - b'0',
        b'a'..=b'f' => code - b'a' + 10,
        _ => 0,
    }
}

/// The octets that hexadecimal digits write.
pub fn octets_of(alloc: Global, text: &str) -> Result<Vec<u8>, AllocError> {
    let digits = text.as_bytes();
    let mut octets = Vec::new(alloc);
    for index in 0..digits.len() / 2 {
        octets.push(digit(digits[2 * index]) * 16 + digit(digits[2 * index + 1]))?;
    }
    Ok(octets)
}
