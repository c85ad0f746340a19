//! Texts of lists that are read. Expected numbers are those of Python's `ipaddress`.

use super::*;

const BAD_IP: ParseBlocksError = ParseBlocksError::BadIpBlock;

const BAD_ASN: ParseBlocksError = ParseBlocksError::BadAsBlock(ParseAsBlockError::BadAsn);

const BAD_RANGE: ParseBlocksError = ParseBlocksError::BadAsBlock(ParseAsBlockError::BadRange);

/// A kind, a text, and the blocks of the set that it is.
type Row = (ResourceKind, &'static str, Result<Set, ParseBlocksError>);

#[rattlefmt::skip]
const LISTS: &[Row] = &[
    (AS_NUMBERS, "AS1", Ok(&[(1, 1)])),
    (AS_NUMBERS, "AS3-AS5, AS1", Ok(&[(1, 1), (3, 5)])),
    (AS_NUMBERS, "AS1,AS2,AS3", Ok(&[(1, 3)])),
    (AS_NUMBERS, "AS1 ,\tAS3\n", Ok(&[(1, 1), (3, 3)])),
    (AS_NUMBERS, "  as7-9,8", Ok(&[(7, 9)])),
    (AS_NUMBERS, "AS5-AS9, AS1-AS6, AS20", Ok(&[(1, 9), (20, 20)])),
    (AS_NUMBERS, "0-4294967295, AS5", Ok(&[(0, 4_294_967_295)])),
    (AS_NUMBERS, "AS64496-AS64511, AS65536-AS65551", Ok(&[(64_496, 64_511), (65_536, 65_551)])),
    (AS_NUMBERS, "\u{a0}AS1\u{3000},AS2", Ok(&[(1, 2)])),
    (AS_NUMBERS, "", Ok(&[])),
    (AS_NUMBERS, " \t\n", Ok(&[])),
    (IPV4, "10.0.0.0/8", Ok(&[(167_772_160, 184_549_375)])),
    (IPV4, "10.1.0.0/16, 10.0.0.0/16", Ok(&[(167_772_160, 167_903_231)])),
    (IPV4, "10.0.0.9,10.0.0.7, 10.0.0.8", Ok(&[(167_772_167, 167_772_169)])),
    (IPV4, "192.0.2.0-192.0.2.9, 10.0.0.0/8", Ok(&[(167_772_160, 184_549_375), (3_221_225_984, 3_221_225_993)])),
    (IPV4, "0.0.0.0/1,128.0.0.0/1", Ok(&[(0, 4_294_967_295)])),
    (IPV4, "255.255.255.255, 0.0.0.0", Ok(&[(0, 0), (4_294_967_295, 4_294_967_295)])),
    (IPV4, "10.0.0.0-10.0.0.5, 10.0.0.3-10.0.0.9", Ok(&[(167_772_160, 167_772_169)])),
    (IPV4, "", Ok(&[])),
    (IPV4, "10.0.32.0/20, 10.0.64.0/24, 10.1.0.0/16, 10.2.48.0/20, 10.2.64.0/24, 10.3.0.0/16",
        Ok(&[(167_780_352, 167_784_447), (167_788_544, 167_788_799), (167_837_696, 167_903_231),
        (167_915_520, 167_919_871), (167_968_768, 168_034_303)])),
    (IPV6, "2001:db8::/32", Ok(&[(0x20010db8_00000000_00000000_00000000, 0x20010db8_ffffffff_ffffffff_ffffffff)])),
    (IPV6, "2001:db8:1::/48, 2001:db8::/48",
        Ok(&[(0x20010db8_00000000_00000000_00000000, 0x20010db8_0001ffff_ffffffff_ffffffff)])),
    (IPV6, "::1-::5, ::6", Ok(&[(1, 6)])),
    (IPV6, "::/1, 8000::/1", Ok(&[(0, 0xffffffff_ffffffff_ffffffff_ffffffff)])),
    (IPV6, "ffff::, ::", Ok(&[(0, 0), (0xffff0000_00000000_00000000_00000000, 0xffff0000_00000000_00000000_00000000)])),
    (IPV6, "2001:0:2::/48", Ok(&[(0x20010000_00020000_00000000_00000000, 0x20010000_0002ffff_ffffffff_ffffffff)])),
    (AS_NUMBERS, ",", Err(BAD_ASN)),
    (AS_NUMBERS, "AS1,", Err(BAD_ASN)),
    (AS_NUMBERS, ",AS1", Err(BAD_ASN)),
    (AS_NUMBERS, "AS1,,AS2", Err(BAD_ASN)),
    (AS_NUMBERS, "AS1 AS2", Err(BAD_ASN)),
    (AS_NUMBERS, "AS1;AS2", Err(BAD_ASN)),
    (AS_NUMBERS, "AS2-AS1", Err(BAD_RANGE)),
    (AS_NUMBERS, "AS1, AS4-AS3, x", Err(BAD_RANGE)),
    (AS_NUMBERS, "AS1, x, AS4-AS3", Err(BAD_ASN)),
    (AS_NUMBERS, "inherit", Err(BAD_ASN)),
    (AS_NUMBERS, "10.0.0.0/8", Err(BAD_ASN)),
    (AS_NUMBERS, "AS1 - AS2", Err(BAD_ASN)),
    (AS_NUMBERS, "AS4294967296", Err(BAD_ASN)),
    (IPV4, ",", Err(BAD_IP)),
    (IPV4, "10.0.0.0/8,", Err(BAD_IP)),
    (IPV4, "10.0.0.0/8, ::/0", Err(BAD_IP)),
    (IPV4, "::1", Err(BAD_IP)),
    (IPV4, "10.0.0.1/8", Err(BAD_IP)),
    (IPV4, "10.0.0.5-10.0.0.4", Err(BAD_IP)),
    (IPV4, "AS1", Err(BAD_IP)),
    (IPV4, "inherit", Err(BAD_IP)),
    (IPV4, "10.0.0.0/33", Err(BAD_IP)),
    (IPV6, "10.0.0.0/8", Err(BAD_IP)),
    (IPV6, "::ffff:10.0.0.1, 10.0.0.1", Err(BAD_IP)),
    (IPV6, "::/0 ::1", Err(BAD_IP)),
    (IPV6, "::-10.0.0.1", Err(BAD_IP)),
    (IPV6, "::/129", Err(BAD_IP)),
];

/// Whether the text is this set, or refused with this error; and what is written of the set is read back.
fn is_list(alloc: Global, row: &Row) -> Result<bool, AllocError> {
    let (kind, text, expected) = row;
    match (Blocks::from_text(alloc, *kind, text), expected) {
        (Ok(found), Ok(blocks)) => {
            let Some(shown) = found.text(*kind) else {
                return Ok(false);
            };
            let written = format!(in alloc; "{shown}")?;
            let again = Blocks::from_text(alloc, *kind, written.as_str());
            Ok(are_blocks(found.as_slice(), blocks) && again.is_ok_and(|again| again == found))
        }
        (Err(e), Err(expected)) => Ok(e == *expected),
        _ => Ok(false),
    }
}

#[test]
fn lists_that_are_read(rt: HostRuntime) -> Result<(), Fail> {
    for row in LISTS {
        assert!(rt; is_list(rt.alloc(), row)?, "{:?} {}", row.0, row.1);
    }
    Ok(())
}

/// How many blocks there are.
const COUNTS: [u32; 8] = [0, 1, 127, 128, 255, 256, 65_535, 65_536];

/// So many numbers, each other one and then the rest, from the last to the first.
fn backwards(alloc: Global, count: u32) -> Result<Vec<Block>, AllocError> {
    let mut blocks = Vec::new(alloc);
    for first in 0..2u32 {
        for number in 0..count {
            let number = count - 1 - number;
            if number % 2 == first {
                blocks.push(block_of((number.into(), number.into())))?;
            }
        }
    }
    Ok(blocks)
}

/// Whether the set of so many numbers is one block.
fn is_one_block(alloc: Global, count: u32) -> Result<bool, AllocError> {
    let blocks = backwards(alloc, count)?;
    let found = Blocks::of(alloc, blocks.as_slice())?;
    match found.as_slice() {
        [] => Ok(count == 0),
        [block] => Ok(block.low == 0 && block.high + 1 == u128::from(count)),
        _ => Ok(false),
    }
}

#[test]
fn sets_of_numbers(rt: HostRuntime) -> Result<(), Fail> {
    for count in COUNTS {
        assert!(rt; is_one_block(rt.alloc(), count)?, "{count}");
    }
    Ok(())
}
