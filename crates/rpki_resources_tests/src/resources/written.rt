//! Resources that are written, and writers that fail. Expected octets are those of RFC 3779 and of the rows that are
//! read.

use super::Choice::{Inherit, Listed, Missing};
use super::Found::{As, Ip};
use super::sizes::{COUNTS, numbers};
use super::*;
use rpki_der::{Captured, Values};
use rpki_resources::AddressFamily::{Ipv4, Ipv6};
use std::io;
use std::io::{ErrorKind, Write};

/// Whether the values fit, are one, and are written as these octets.
fn is_written<V: Values>(alloc: Global, values: &V, expected: &[u8]) -> Result<bool, AllocError> {
    if !values.fits() {
        return Ok(false);
    }
    let length = values.encoded_len();
    let captured = Captured::from_values(alloc, values)?;
    Ok(captured.as_slice() == expected && length == expected.len() as u64 && values.count() == 1)
}

/// Whether the resources are written as these octets; where there are none, whether they can't be written.
fn is_row_written(alloc: Global, row: Found, expected: &[u8]) -> Result<bool, AllocError> {
    match row {
        Ip(v4, v6) => {
            let (Some(v4), Some(v6)) = (choice_of(alloc, v4)?, choice_of(alloc, v6)?) else {
                return Ok(false);
            };
            match (IpResources { v4, v6 }).encode_ref() {
                Some(encoder) => is_written(alloc, &encoder, expected),
                None => Ok(expected.is_empty()),
            }
        }
        As(numbers) => {
            let Some(numbers) = choice_of(alloc, numbers)? else {
                return Ok(false);
            };
            match (AsResources { numbers }).encode_ref() {
                Some(encoder) => is_written(alloc, &encoder, expected),
                None => Ok(expected.is_empty()),
            }
        }
    }
}

#[test]
fn accepted_contents_are_written(rt: HostRuntime) -> Result<(), Fail> {
    for (name, text, row) in accepted::ROWS {
        let octets = octets_of(rt.alloc(), text)?;
        assert!(rt; is_row_written(rt.alloc(), *row, &octets)?, "{name}");
    }
    Ok(())
}

/// Resources that no contents say (RFC 3779 2.2.3, 3.2.3).
#[rattlefmt::skip]
const UNWRITTEN: &[(&str, Found)] = &[
    ("no family", Ip(Missing, Missing)),
    ("no block of IP version 4", Ip(Listed(&[]), Inherit)),
    ("no block of IP version 6", Ip(Inherit, Listed(&[]))),
    ("address 2^32 of IP version 4", Ip(Listed(&[(0, 4294967296)]), Missing)),
    ("address 2^32 of IP version 4 in the second block", Ip(Listed(&[(0, 1), (4294967296, 4294967296)]), Inherit)),
    ("no AS numbers", As(Missing)),
    ("no block of AS numbers", As(Listed(&[]))),
    ("AS number 2^32", As(Listed(&[(7, 7), (9, 4294967296)]))),
];

#[test]
fn what_no_contents_say(rt: HostRuntime) -> Result<(), Fail> {
    for (name, row) in UNWRITTEN {
        assert!(rt; is_row_written(rt.alloc(), *row, &[])?, "{name}");
    }
    Ok(())
}

/// A family, an end of a range of its addresses, and the number and the size of its bits as the lowest and as the
/// highest address (RFC 3779 2.2.3.9).
#[rattlefmt::skip]
const ENDS: &[(AddressFamily, u128, (u128, u8), (u128, u8))] = &[
    (Ipv4, 0, (0, 0), (0, 32)),
    (Ipv4, 0xffff_ffff, (0xffff_ffff, 32), (0, 0)),
    (Ipv4, 0x0a05_0000, (0x0a05, 16), (0x0a05_0000, 32)),
    (Ipv4, 0x0a05_03ff, (0x0a05_03ff, 32), (0x0002_8140, 22)),
    (Ipv4, 0x8000_0000, (1, 1), (0x8000_0000, 32)),
    (Ipv4, 0x7fff_ffff, (0x7fff_ffff, 32), (0, 1)),
    (Ipv6, 0, (0, 0), (0, 128)),
    (Ipv6, u128::MAX, (u128::MAX, 128), (0, 0)),
    (Ipv6, 0x2001_0db8_0000_0000_0000_0000_0000_0000, (0x0400_21b7, 29),
        (0x2001_0db8_0000_0000_0000_0000_0000_0000, 128)),
    (Ipv6, 0x2001_0db8_ffff_ffff_ffff_ffff_ffff_ffff, (0x2001_0db8_ffff_ffff_ffff_ffff_ffff_ffff, 128),
        (0x2001_0db8, 32)),
];

/// The number and the size of the bits.
fn bits_of(address: Address) -> (u128, u8) {
    (address.number, address.size)
}

#[test]
fn ends_of_ranges(rt: HostRuntime) {
    for (family, number, low, high) in ENDS {
        let found = bits_of(Address::stripped_low(*family, *number));
        assert_eq!(rt; found, *low, "{family:?}, {number}, lowest");
        let found = bits_of(Address::stripped_high(*family, *number));
        assert_eq!(rt; found, *high, "{family:?}, {number}, highest");
    }
}

/// This many AS numbers, each two above the one before, from 2^24 on.
fn many(alloc: Global, count: u32) -> Result<Option<Blocks>, AllocError> {
    let mut items = Vec::new(alloc);
    for index in 0..count {
        let number = u128::from(index.wrapping_mul(2).wrapping_add(16_777_216));
        items.push(block_of((number, number)))?;
    }
    Ok(Blocks::from_canonical(items))
}

/// Whether so many numbers are written as the octets that are read as them; no number isn't written.
fn are_many_written(alloc: Global, count: u32) -> Result<bool, AllocError> {
    let Some(blocks) = many(alloc, count)? else {
        return Ok(false);
    };
    let resources = AsResources {
        numbers: ResourcesChoice::Blocks(blocks),
    };
    match resources.encode_ref() {
        Some(encoder) => {
            let expected = numbers(alloc, count)?;
            is_written(alloc, &encoder, expected.as_slice())
        }
        None => Ok(count == 0),
    }
}

#[test]
fn lists_of_many_blocks_are_written(rt: HostRuntime) -> Result<(), Fail> {
    for count in COUNTS {
        assert!(rt; are_many_written(rt.alloc(), count)?, "{count}");
    }
    Ok(())
}

/// Takes octets, and fails after so many calls, with an error of this kind, at that one call or from there on.
#[derive(Drop)]
struct Failing {
    held: Vec<u8>,
    calls: usize,
    kind: ErrorKind,
    once: bool,
}

impl Write for Failing {
    fn write(&mut self, octets: &[u8]) -> io::Result<usize> {
        if self.calls == 0 {
            if self.once {
                self.calls = usize::MAX;
            }
            return Err(io::Error::from(self.kind));
        }
        self.calls -= 1;
        self.held.extend_from_slice(octets)?;
        Ok(octets.len())
    }

    fn flush(&mut self) -> io::Result<()> {
        Ok(())
    }
}

/// Whether all was written to a writer that fails so, or its error returned before; None where neither is so.
fn end_of<V: Values>(values: &V, expected: &[u8], writer: Failing) -> Option<bool> {
    if !values.fits() {
        return None;
    }
    let kind = writer.kind;
    let mut out = writer;
    let result = values.write_encoded(&mut out);
    let held = out.held.as_slice();
    match result {
        Ok(()) if held == expected => Some(true),
        Err(e) if e.kind() == kind && held.len() < expected.len() && expected.starts_with(held) => {
            Some(false)
        }
        _ => None,
    }
}

/// The kinds of error of a writer that fails, at one call alone or from there on.
const FAILURES: [(ErrorKind, bool); 4] = [
    (ErrorKind::BrokenPipe, false),
    (ErrorKind::BrokenPipe, true),
    (ErrorKind::Interrupted, false),
    (ErrorKind::Interrupted, true),
];

/// How many calls of the writer all is written in, where each call before fails as it should; None where one doesn't.
fn calls_to_write<V: Values>(
    alloc: Global,
    values: &V,
    expected: &[u8],
    kind: ErrorKind,
    once: bool,
) -> Option<usize> {
    for calls in 0..100 {
        let writer = Failing {
            held: Vec::new(alloc),
            calls,
            kind,
            once,
        };
        if end_of(values, expected, writer)? {
            return Some(calls);
        }
    }
    None
}

/// Resources of both families, and what is written of them: a prefix, a range, and those of the issuer.
const BOTH: &str = "302030160402000130100303000a0030090302000b0303000c003006040200020500";

/// In how many calls of a writer that fails so the resources of both families are written.
fn calls_for_both(alloc: Global, kind: ErrorKind, once: bool) -> Result<Option<usize>, AllocError> {
    let blocks = &[(0x0a00_0000, 0x0a00_ffff), (0x0b00_0000, 0x0c00_ffff)];
    let Some(v4) = choice_of(alloc, Listed(blocks))? else {
        return Ok(None);
    };
    let resources = IpResources {
        v4,
        v6: ResourcesChoice::Inherit,
    };
    let expected = octets_of(alloc, BOTH)?;
    match resources.encode_ref() {
        Some(encoder) => Ok(calls_to_write(alloc, &encoder, expected.as_slice(), kind, once)),
        None => Ok(None),
    }
}

#[test]
fn writers_that_fail(rt: HostRuntime) -> Result<(), Fail> {
    for (kind, once) in FAILURES {
        let calls = calls_for_both(rt.alloc(), kind, once)?;
        assert!(rt; calls.is_some(), "{kind:?} {once}");
    }
    Ok(())
}
