//! Octets that are written, and octets that are put together by hand.

use rpki_der::{Captured, Values};
use std::alloc::{AllocError, Global};

/// Whether the values are written as these octets, and say how many they are.
pub fn are_written_as<V: Values>(
    alloc: Global,
    values: &V,
    octets: &[u8],
) -> Result<bool, AllocError> {
    if !values.fits() {
        return Ok(false);
    }
    let length = values.encoded_len();
    let written = Captured::from_values(alloc, values)?;
    Ok(written.as_slice() == octets && length == octets.len() as u64)
}

/// A SEQUENCE of these parts (X.690 8.1.3, 8.9).
pub fn sequence_of(alloc: Global, parts: &[&[u8]]) -> Result<Vec<u8>, AllocError> {
    let mut size = 0usize;
    for part in parts {
        size += part.len();
    }
    let mut octets = Vec::from_slice(alloc, &[0x30])?;
    let digits = size.to_be_bytes();
    let zeros = digits.iter().take_while(|digit| **digit == 0).count();
    if size >= 128 {
        octets.push(0x80 + (8 - zeros) as u8)?;
        octets.extend_from_slice(&digits[zeros..])?;
    } else {
        octets.push(size as u8)?;
    }
    for part in parts {
        octets.extend_from_slice(part)?;
    }
    Ok(octets)
}
