//! Real sizes: lists of up to 2^20 blocks.

use super::*;

/// How many blocks a list has.
pub const COUNTS: [u32; 9] = [0, 1, 127, 128, 255, 256, 65_535, 65_536, 1_048_576];

/// A value of this tag and these contents.
fn value(alloc: Global, tag: u8, contents: &[u8]) -> Result<Vec<u8>, AllocError> {
    let mut octets = Vec::new(alloc);
    octets.push(tag)?;
    let digits = (contents.len() as u64).to_be_bytes();
    let zeros = digits.iter().take_while(|digit| **digit == 0).count();
    if contents.len() >= 128 {
        octets.push(0x80 + (8 - zeros as u8))?;
        octets.extend_from_slice(&digits[zeros..])?;
    } else {
        octets.push(digits[7])?;
    }
    octets.extend_from_slice(contents)?;
    Ok(octets)
}

/// The contents of an extension of this many AS numbers, each two above the one before: of four octets, from 2^24 on.
pub fn numbers(alloc: Global, count: u32) -> Result<Vec<u8>, AllocError> {
    let mut items = Vec::new(alloc);
    for index in 0..count {
        items.extend_from_slice(&[2, 4])?;
        items.extend_from_slice(&index.wrapping_mul(2).wrapping_add(16_777_216).to_be_bytes())?;
    }
    let list = value(alloc, 0x30, &items)?;
    value(alloc, 0x30, &value(alloc, 0xa0, &list)?)
}

/// Whether the set has this many blocks, of which the last has this number.
fn has_numbers(blocks: &Blocks, count: u32) -> bool {
    let last = u128::from(count) * 2 + 16_777_214;
    blocks.as_slice().len() == count as usize
        && blocks.contains(last)
        && !blocks.contains(last + 1)
        && blocks.encompasses(blocks)
}

/// Whether a list of so many numbers is read, and compared with itself.
fn is_read(alloc: Global, count: u32) -> Result<bool, AllocError> {
    let octets = numbers(alloc, count)?;
    match AsResources::decode(alloc, octets.as_slice()) {
        Ok(
            AsResources {
                numbers: ResourcesChoice::Blocks(blocks),
            },
        ) => Ok(
            has_numbers(&blocks, count)
                && has_numbers(&blocks.intersection(alloc, &blocks)?, count)
                && has_numbers(&blocks.union(alloc, &blocks)?, count)
                && blocks.difference(alloc, &blocks)?.is_empty(),
        ),
        Ok(_) => Ok(false),
        Err(e) => Ok(count == 0 && refused(&e) == Outcome::Content),
    }
}

#[test]
fn lists_of_many_blocks(rt: HostRuntime) -> Result<(), Fail> {
    for count in COUNTS {
        assert!(rt; is_read(rt.alloc(), count)?, "{count}");
    }
    Ok(())
}

/// Whether contents of so many numbers encompass themselves, in place: none are no contents.
fn encompass_themselves(alloc: Global, count: u32) -> Result<bool, AllocError> {
    let octets = numbers(alloc, count)?;
    let answer = as_resources_encompass(octets.as_slice(), octets.as_slice());
    Ok(answer == if count == 0 { None } else { Some(true) })
}

#[test]
fn contents_of_many_blocks_are_compared(rt: HostRuntime) -> Result<(), Fail> {
    for count in COUNTS {
        assert!(rt; encompass_themselves(rt.alloc(), count)?, "{count}");
    }
    Ok(())
}
