//! Texts of blocks and of sets. Expected texts are those of Python's `ipaddress`.

use super::*;
use rpki_resources::AddressFamily::{Ipv4, Ipv6};

/// A block of AS numbers, and its text; None where it has none.
const NUMBER_TEXTS: &[(u128, u128, Option<&str>)] = &[
    (64496, 64496, Some("AS64496")),
    (1, 5, Some("AS1-AS5")),
    (0, 4_294_967_295, Some("AS0-AS4294967295")),
    (4_294_967_295, 4_294_967_295, Some("AS4294967295")),
    (0, 4_294_967_296, None),
    (5, 1, None),
];

#[test]
fn texts_of_numbers(rt: HostRuntime) -> Result<(), Fail> {
    for (low, high, expected) in NUMBER_TEXTS {
        let block = AsBlock::of(block_of((*low, *high)));
        assert!(rt; is_shown(rt.alloc(), block, *expected)?, "{low} {high}");
    }
    Ok(())
}

/// A family, a block of its addresses, and the text; None where it has none.
#[rattlefmt::skip]
const ADDRESS_TEXTS: &[(AddressFamily, u128, u128, Option<&str>)] = &[
    (Ipv4, 0x0a000000, 0x0affffff, Some("10.0.0.0/8")),
    (Ipv4, 0x0a000000, 0x0a000005, Some("10.0.0.0-10.0.0.5")),
    (Ipv4, 0, 0xffffffff, Some("0.0.0.0/0")),
    (Ipv4, 0xffffffff, 0xffffffff, Some("255.255.255.255/32")),
    (Ipv4, 0, 0x1_0000_0000, None),
    (Ipv4, 5, 1, None),
    (Ipv6, 0, u128::MAX, Some("::/0")),
    (Ipv6, 1, 1, Some("::1/128")),
    (Ipv6, 0, u128::MAX - 1, Some("::-ffff:ffff:ffff:ffff:ffff:ffff:ffff:fffe")),
    (Ipv6, 0x20010db8_00000000_00000000_00000000, 0x20010db8_ffffffff_ffffffff_ffffffff, Some("2001:db8::/32")),
    (Ipv6, 0x20010db8_00000001_00000000_00000001, 0x20010db8_00000001_00000000_00000002,
        Some("2001:db8:0:1::1-2001:db8:0:1::2")),
];

#[test]
fn texts_of_addresses(rt: HostRuntime) -> Result<(), Fail> {
    for (family, low, high, expected) in ADDRESS_TEXTS {
        let block = IpBlock::of(*family, block_of((*low, *high)));
        assert!(rt; is_shown(rt.alloc(), block, *expected)?, "{low} {high}");
    }
    Ok(())
}

/// A name, a kind, a set of its numbers, and the text.
#[rattlefmt::skip]
const TEXTS: &[(&str, ResourceKind, Set, &str)] = &[
    ("one number", AS_NUMBERS, &[(1, 1)], "AS1"),
    ("numbers and a range", AS_NUMBERS, &[(1, 1), (3, 5)], "AS1, AS3-AS5"),
    ("the first and the last number", AS_NUMBERS, &[(0, 0), (4_294_967_295, 4_294_967_295)], "AS0, AS4294967295"),
    ("all numbers", AS_NUMBERS, &[(0, 4_294_967_295)], "AS0-AS4294967295"),
    ("of documentation", AS_NUMBERS, &[(64_496, 64_511), (65_536, 65_551)], "AS64496-AS64511, AS65536-AS65551"),
    ("one address", IPV4, &[(3_221_225_985, 3_221_225_985)], "192.0.2.1/32"),
    ("prefixes and a range", IPV4,
        &[(167_772_160, 184_549_375), (3_221_225_984, 3_221_225_993), (3_325_256_704, 3_325_256_959)],
        "10.0.0.0/8, 192.0.2.0-192.0.2.9, 198.51.100.0/24"),
    ("all addresses", IPV4, &[(0, 4_294_967_295)], "0.0.0.0/0"),
    ("all but the first", IPV4, &[(1, 4_294_967_295)], "0.0.0.1-255.255.255.255"),
    ("all but the last", IPV4, &[(0, 4_294_967_294)], "0.0.0.0-255.255.255.254"),
    ("two that are no prefix", IPV4, &[(167_772_161, 167_772_162)], "10.0.0.1-10.0.0.2"),
    ("halves apart", IPV4, &[(0, 2_147_483_647), (2_147_483_649, 4_294_967_295)],
        "0.0.0.0/1, 128.0.0.1-255.255.255.255"),
    ("the last prefix", IPV4, &[(4_294_967_294, 4_294_967_295)], "255.255.255.254/31"),
    ("of IP version 6", IPV6, &[(0x20010db8000000000000000000000000, 0x20010db8ffffffffffffffffffffffff)],
        "2001:db8::/32"),
    ("a range of it", IPV6, &[(0x20010db8000000000000000000000001, 0x20010db800000000000000000000ffff),
        (0x20010db8000100000000000000000000, 0x20010db80001ffffffffffffffffffff)],
        "2001:db8::1-2001:db8::ffff, 2001:db8:1::/48"),
    ("all of it", IPV6, &[(0x0, 0xffffffffffffffffffffffffffffffff)], "::/0"),
    ("its first and its last", IPV6,
        &[(0, 0), (0xffffffffffffffffffffffffffffffff, 0xffffffffffffffffffffffffffffffff)],
        "::/128, ffff:ffff:ffff:ffff:ffff:ffff:ffff:ffff/128"),
    ("runs of zeros", IPV6, &[(0x20010000000000010000000000000000, 0x2001000000000001ffffffffffffffff),
        (0x20010db8000000010001000100010001, 0x20010db8000000010001000100010001)],
        "2001:0:0:1::/64, 2001:db8:0:1:1:1:1:1/128"),
    ("none", AS_NUMBERS, &[], ""),
    ("none of it", IPV6, &[], ""),
];

/// Numbers that are none of the kind.
#[rattlefmt::skip]
const OTHERS: &[(&str, ResourceKind, (u128, u128))] = &[
    ("a number of 2^32", AS_NUMBERS, (4_294_967_296, 4_294_967_296)),
    ("up to 2^32", AS_NUMBERS, (5, 4_294_967_296)),
    ("an address of 2^32", IPV4, (4_294_967_296, 4_294_967_296)),
    ("all of IP version 6", IPV4, (0, u128::MAX)),
];

/// Whether the text of the set, and of the choice that it is, is this.
fn is_text(alloc: Global, kind: ResourceKind, blocks: Set, text: &str) -> Result<bool, AllocError> {
    let Some(blocks) = blocks_of(alloc, blocks)? else {
        return Ok(false);
    };
    let good = is_shown(alloc, blocks.text(kind), Some(text))?;
    let choice = ResourcesChoice::Blocks(blocks);
    Ok(good && is_shown(alloc, choice.text(kind), Some(text))?)
}

#[test]
fn texts_of_sets(rt: HostRuntime) -> Result<(), Fail> {
    for (name, kind, blocks, text) in TEXTS {
        assert!(rt; is_text(rt.alloc(), *kind, blocks, text)?, "{name}");
    }
    Ok(())
}

/// Whether a set of these numbers has no text of the kind, and the choice that it is has none.
fn has_no_text(alloc: Global, kind: ResourceKind, block: (u128, u128)) -> Result<bool, AllocError> {
    let Some(blocks) = blocks_of(alloc, &[(0, 1), block])? else {
        let alone = blocks_of(alloc, &[block])?;
        return Ok(alone.is_some_and(|blocks| blocks.text(kind).is_none()));
    };
    let none = blocks.text(kind).is_none();
    Ok(none && ResourcesChoice::Blocks(blocks).text(kind).is_none())
}

#[test]
fn numbers_of_another_kind(rt: HostRuntime) -> Result<(), Fail> {
    for (name, kind, block) in OTHERS {
        assert!(rt; has_no_text(rt.alloc(), *kind, *block)?, "{name}");
    }
    Ok(())
}

#[test]
fn texts_of_choices(rt: HostRuntime) -> Result<(), Fail> {
    let missing = ResourcesChoice::Missing.text(IPV6);
    assert!(rt; is_shown(rt.alloc(), missing, Some(""))?);
    let inherited = ResourcesChoice::Inherit.text(IPV6);
    assert!(rt; is_shown(rt.alloc(), inherited, Some("inherit"))?);
    Ok(())
}

/// Whether this text is read as this set of AS numbers, where they are listed.
fn is_read_back(alloc: Global, text: &str, choice: &ResourcesChoice) -> bool {
    match (Blocks::from_text(alloc, AS_NUMBERS, text), choice) {
        (Ok(found), ResourcesChoice::Blocks(blocks)) => found == *blocks,
        _ => false,
    }
}

/// Whether the text of this many AS numbers, each two above the one before, names each of them, and is read back.
fn is_text_of_many(alloc: Global, count: u32) -> Result<bool, AllocError> {
    let octets = sizes::numbers(alloc, count)?;
    let Ok(found) = AsResources::decode(alloc, octets.as_slice()) else {
        return Ok(false);
    };
    let mut expected = String::new(alloc);
    for index in 0..count {
        expected.push_str(if index > 0 { ", AS" } else { "AS" })?;
        let number = format!(in alloc; "{}", index.wrapping_mul(2).wrapping_add(16_777_216))?;
        expected.push_str(number.as_str())?;
    }
    let shown = is_shown(
        alloc,
        found.numbers.text(AS_NUMBERS),
        Some(expected.as_str()),
    )?;
    Ok(shown && is_read_back(alloc, expected.as_str(), &found.numbers))
}

/// How many blocks a list has.
const COUNTS: [u32; 8] = [1, 2, 127, 255, 256, 1_000, 1_001, 10_000];

#[test]
fn texts_of_many_blocks(rt: HostRuntime) -> Result<(), Fail> {
    for count in COUNTS {
        assert!(rt; is_text_of_many(rt.alloc(), count)?, "{count}");
    }
    Ok(())
}
