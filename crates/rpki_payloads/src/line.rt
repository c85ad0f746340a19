//! Which line of a text isn't JSON.

use serde_json::Value;
use std::alloc::{AllocError, Global};

/// How many lines the text has.
fn count_of(octets: &[u8]) -> usize {
    let mut count = 1usize;
    for octet in octets {
        if *octet == b'\n' {
            count = count.saturating_add(1);
        }
    }
    count
}

/// The first lines of the text, so many; all of it where it has no more.
fn front_of(octets: &[u8], lines: usize) -> &[u8] {
    let mut left = lines;
    for at in 0..octets.len() {
        if octets[at] == b'\n' {
            left = left.saturating_sub(1);
            if left == 0 {
                let (front, _) = octets.split_at(at + 1);
                return front;
            }
        }
    }
    octets
}

/// Whether the octets begin no text of JSON.
fn is_wrong(alloc: Global, octets: &[u8]) -> Result<bool, AllocError> {
    if str::from_utf8(octets).is_err() {
        return Ok(true);
    }
    match Value::from_slice(alloc, octets) {
        Ok(_) => Ok(false),
        Err(e) => {
            if e.is_memory() {
                return Err(AllocError);
            }
            Ok(!e.is_eof())
        }
    }
}

/// The number, from 1 on, of the first line up to which the octets begin no text of JSON (RFC 8259); that of the last
/// one where they only end too soon. It is found by halves.
pub(crate) fn line_of(alloc: Global, octets: &[u8]) -> Result<usize, AllocError> {
    let mut right = 0usize;
    let mut wrong = count_of(octets);
    for _ in 0..usize::BITS {
        let half = wrong.saturating_sub(right) / 2;
        if half == 0 {
            return Ok(wrong);
        }
        let middle = right.saturating_add(half);
        if is_wrong(alloc, front_of(octets, middle))? {
            wrong = middle;
        } else {
            right = middle;
        }
    }
    Ok(wrong)
}
