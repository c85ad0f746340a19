//! Real sizes: attestations of up to 111,112 prefixes, which are a million octets.

use super::*;
use crate::encoding::sequence_of;

/// How many prefixes an attestation has.
const COUNTS: [u32; 7] = [1, 100, 127, 128, 255, 10_000, 100_000];

/// An attestation of this many prefixes of 32 bits, from 0.0.0.0 on, each the one after the other.
fn prefixes(alloc: Global, count: u32) -> Result<Vec<u8>, AllocError> {
    let mut prefixes = Vec::new(alloc);
    for index in 0..count {
        prefixes.extend_from_slice(&[0x30, 7, 3, 5, 0])?;
        prefixes.extend_from_slice(&index.to_be_bytes())?;
    }
    let list = sequence_of(alloc, &[prefixes.as_slice()])?;
    let family = sequence_of(alloc, &[&[4, 2, 0, 1], list.as_slice()])?;
    let families = sequence_of(alloc, &[family.as_slice()])?;
    sequence_of(alloc, &[&[2, 1, 5], families.as_slice()])
}

/// Whether an attestation of this many addresses is read, and is within exactly the block of them.
fn is_read(alloc: Global, count: u32) -> Result<bool, AllocError> {
    let octets = prefixes(alloc, count)?;
    let all = u128::from(count);
    let high = all.saturating_sub(1);
    let enough = Blocks::of(alloc, &[Block { low: 0, high }])?;
    let few = Blocks::of(alloc, &[Block { low: 1, high: all }])?;
    let none = Blocks::empty(alloc);
    match RouteOriginAttestation::decode(alloc, octets.as_slice(), true) {
        Ok(found) => {
            let inside = found.is_within(alloc, &enough, &none)?;
            let outside = found.is_within(alloc, &few, &none)?;
            Ok(found.v4_addrs().len() == count as usize && inside && !outside)
        }
        Err(_) => Ok(false),
    }
}

#[test]
fn large_attestations(rt: HostRuntime) -> Result<(), Fail> {
    for count in COUNTS {
        assert!(rt; is_read(rt.alloc(), count)?, "{count}");
    }
    Ok(())
}

/// How many prefixes are written, of nine octets each: from below 128 octets to a million.
const WRITTEN: [u32; 9] = [1, 14, 15, 127, 128, 256, 7_281, 7_282, 111_112];

/// Whether an attestation of this many addresses is made, and is written as it has to be.
fn is_written(alloc: Global, count: u32) -> Result<bool, AllocError> {
    let octets = prefixes(alloc, count)?;
    let mut addresses = Vec::new(alloc);
    for index in 0..count {
        addresses.push(address(u128::from(index), 32, None))?;
    }
    match RouteOriginAttestation::new(5, addresses, Vec::new(alloc)) {
        Some(found) => are_written_as(alloc, &found.encode_ref(), octets.as_slice()),
        None => Ok(false),
    }
}

#[test]
fn large_attestations_are_written(rt: HostRuntime) -> Result<(), Fail> {
    for count in WRITTEN {
        assert!(rt; is_written(rt.alloc(), count)?, "{count}");
    }
    Ok(())
}
