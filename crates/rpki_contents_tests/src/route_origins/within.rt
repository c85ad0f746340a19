//! Whether attestations are within resources. The answers are by Python's `ipaddress`; and, of many prefixes, plain:
//! one address each, from the first on, two apart.

use super::*;

/// The lowest and the highest number of each block.
type Numbers = &'static [(u128, u128)];

/// A name, the octets, the blocks of both families, and whether each prefix is within those of its own.
const ROWS: &[(&str, &str, Numbers, Numbers, bool)] = &rows! {
    ("the prefix itself", "3015020300fbf0300e300c04020001300630040302000a", &[(167772160, 184549375)], &[], true),
    ("an address is lacking at the end", "3015020300fbf0300e300c04020001300630040302000a", &[(167772160, 184549374)],
     &[], false),
    ("an address is lacking at the beginning", "3015020300fbf0300e300c04020001300630040302000a",
     &[(167772161, 184549375)], &[], false),
    ("an address is lacking in the middle", "3015020300fbf0300e300c04020001300630040302000a",
     &[(167772160, 167772165), (167772167, 184549375)], &[], false),
    ("two blocks, one behind the other", "3015020300fbf0300e300c04020001300630040302000a",
     &[(167772160, 176160767), (176160768, 184549375)], &[], true),
    ("the other family", "3015020300fbf0300e300c04020001300630040302000a", &[],
     &[(0, 340282366920938463463374607431768211455)], false),
    ("no resources", "3015020300fbf0300e300c04020001300630040302000a", &[], &[], false),
    ("of both families", "3026020300fbf0301f300c04020001300630040302000a300f040200023009300703050020010db8",
     &[(0, 4294967295)], &[(42540766411282592856903984951653826560, 42540766490510755371168322545197776895)], true),
    ("IP version 6 alone is outside",
     "3026020300fbf0301f300c04020001300630040302000a300f040200023009300703050020010db8", &[(0, 4294967295)],
     &[(42540766411282592856903984951653826560, 42540766450896674114036153748425801727)], false),
    ("the last of three is outside", "3025020300fbf0301e301c04020001301630040302000a3006030400c000023006030400cb0071",
     &[(167772160, 184549375), (3221225984, 3221226239)], &[], false),
    ("the first of three is outside", "3025020300fbf0301e301c04020001301630040302000a3006030400c000023006030400cb0071",
     &[(3221225472, 3238002687), (3405803776, 3405804031)], &[], false),
    ("in descending order, one in the other",
     "3024020300fbf0301d301b0402000130153006030400cb007130040302000a30050303000a01",
     &[(167772160, 184549375), (3405803776, 3405804031)], &[], true),
    ("all of IP version 6", "3014020300fbf0300d300b0402000230053003030100", &[],
     &[(0, 340282366920938463463374607431768211455)], true),
    ("the last address of IP version 6 is lacking", "3014020300fbf0300d300b0402000230053003030100", &[],
     &[(0, 340282366920938463463374607431768211454)], false),
};

/// A set of these blocks.
fn blocks_of(alloc: Global, blocks: &[(u128, u128)]) -> Result<Blocks, AllocError> {
    let mut items = Vec::new(alloc);
    for &(low, high) in blocks {
        items.push(Block { low, high })?;
    }
    Blocks::of(alloc, items.as_slice())
}

#[test]
fn prefixes_within_resources(rt: HostRuntime) -> Result<(), Fail> {
    for (name, text, v4, v6, is_within) in ROWS {
        let octets = octets_of(rt.alloc(), text)?;
        let (v4, v6) = (blocks_of(rt.alloc(), v4)?, blocks_of(rt.alloc(), v6)?);
        let found = match RouteOriginAttestation::decode(rt.alloc(), octets.as_slice(), true) {
            Ok(found) => Some(found.is_within(rt.alloc(), &v4, &v6)?),
            Err(_) => None,
        };
        assert_eq!(rt; found, Some(*is_within), "{name}");
    }
    Ok(())
}

/// So many prefixes of one address, from the first of the family on, two apart.
fn prefixes_of(alloc: Global, count: u32, size: u8) -> Result<Vec<RoaIpAddress>, AllocError> {
    let mut prefixes = Vec::new(alloc);
    for number in 0..count {
        prefixes.push(address(2 * u128::from(number), size, None))?;
    }
    Ok(prefixes)
}

/// So many numbers, from 0 on, two apart.
fn numbers_of(alloc: Global, count: u32) -> Result<Blocks, AllocError> {
    let mut items = Vec::new(alloc);
    for number in 0..count {
        let number = 2 * u128::from(number);
        items.push(Block {
            low: number,
            high: number,
        })?;
    }
    Blocks::of(alloc, items.as_slice())
}

/// How many prefixes an attestation has of each family, and how many of them the resources have, if not all.
const MANY: &[((u32, u32), (u32, u32), bool)] = &[
    ((1, 0), (1, 9), true),
    ((1, 0), (1, 10_000), true),
    ((0, 1), (10_000, 1), true),
    ((1, 1), (10_000, 10_000), true),
    ((1_001, 1_001), (1_001, 1_001), true),
    ((10_000, 10_000), (10_000, 10_000), true),
    ((10_000, 10_000), (9_999, 10_000), false),
    ((10_000, 10_000), (10_000, 9_999), false),
    ((10_000, 0), (9_999, 10_000), false),
    ((0, 10_000), (10_000, 9_999), false),
];

/// Whether the answer for an attestation of so many prefixes is the one that is due.
fn is_answered_of_many(
    alloc: Global,
    prefixes: (u32, u32),
    held: (u32, u32),
    is_within: bool,
) -> Result<bool, AllocError> {
    let first = prefixes_of(alloc, prefixes.0, 32)?;
    let second = prefixes_of(alloc, prefixes.1, 128)?;
    let v4 = numbers_of(alloc, held.0)?;
    let v6 = numbers_of(alloc, held.1)?;
    match RouteOriginAttestation::new(64_496, first, second) {
        Some(attestation) => Ok(attestation.is_within(alloc, &v4, &v6)? == is_within),
        None => Ok(false),
    }
}

#[test]
fn many_prefixes_within_resources(rt: HostRuntime) -> Result<(), Fail> {
    for (prefixes, held, is_within) in MANY {
        let answered = is_answered_of_many(rt.alloc(), *prefixes, *held, *is_within)?;
        assert!(rt; answered, "{prefixes:?} in {held:?}");
    }
    Ok(())
}
