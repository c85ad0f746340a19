//! Octets in which some are others.

use crate::hexadecimal::octets_of;
use std::alloc::{AllocError, Global};

/// Where these octets first are in others.
fn place_of(octets: &[u8], wanted: &[u8]) -> Option<usize> {
    for start in 0..octets.len() {
        if octets[start..].starts_with(wanted) {
            return Some(start);
        }
    }
    None
}

/// The octets that the text writes, with one change after another: of two texts, the octets of the second in place of
/// those of the first, where these are first. None where they aren't there.
pub fn changed(
    alloc: Global,
    text: &str,
    changes: &[(&str, &str)],
) -> Result<Option<Vec<u8>>, AllocError> {
    let mut octets = octets_of(alloc, text)?;
    for (from, to) in changes {
        let old = octets_of(alloc, from)?;
        let Some(start) = place_of(octets.as_slice(), old.as_slice()) else {
            return Ok(None);
        };
        let mut all = Vec::from_slice(alloc, &octets.as_slice()[..start])?;
        all.extend_from_slice(octets_of(alloc, to)?.as_slice())?;
        all.extend_from_slice(&octets.as_slice()[start + old.len()..])?;
        octets = all;
    }
    Ok(Some(octets))
}
