//! Worked cases of route origin attestations.

mod accepted;
mod hostile;
mod sizes;
mod within;
mod written;

use crate::encoding::are_written_as;
use rpki_contents::{AddressCursor, RoaIpAddress, RoaPart, RoaView, RouteOriginAttestation};
use rpki_der::Constructed;
use rpki_der_tests::hexadecimal::octets_of;
use rpki_der_tests::kinds::{Outcome, outcome_of, refused};
use rpki_der_tests::rows;
use rpki_resources::{Address, Block, Blocks};
use std::alloc::{AllocError, Global};
use std::test::Fail;

/// The texts of what an attestation authorizes, a line each.
fn text_of(alloc: Global, found: &RouteOriginAttestation) -> Result<String, AllocError> {
    let mut text = String::new(alloc);
    let mut origins = found.origins();
    while let Some(origin) = origins.next_origin() {
        if !text.is_empty() {
            text.push('\n')?;
        }
        let line = format!(in alloc; "{origin}")?;
        text.push_str(line.as_str())?;
    }
    Ok(text)
}

/// The prefix whose bits make this number, and how many they are.
fn address(number: u128, size: u8, max_length: Option<u8>) -> RoaIpAddress {
    let prefix = Address { number, size };
    RoaIpAddress { prefix, max_length }
}

/// Whether the cursor gives these prefixes, and no more.
fn gives(cursor: AddressCursor<'_>, expected: &[RoaIpAddress]) -> bool {
    let mut rest = cursor;
    for address in expected {
        if rest.next_address() != Some(*address) {
            return false;
        }
    }
    rest.next_address().is_none()
}

/// Whether these octets, read in place, are the attestation.
fn is_in_place(octets: &[u8], strict: bool, found: &RouteOriginAttestation) -> bool {
    match RoaView::read(octets, strict) {
        Ok(view) => {
            view.as_id == found.as_id()
                && gives(view.v4_addrs(), found.v4_addrs())
                && gives(view.v6_addrs(), found.v6_addrs())
                && view.v4_count == found.v4_addrs().len()
                && view.v6_count == found.v6_addrs().len()
        }
        Err(_) => false,
    }
}

/// Whether these octets are accepted, and authorize what the text says.
fn has_text(alloc: Global, octets: &[u8], strict: bool, text: &str) -> Result<bool, AllocError> {
    match RouteOriginAttestation::decode(alloc, octets, strict) {
        Ok(found) => {
            let origins = text_of(alloc, &found)?;
            Ok(origins.as_str() == text && is_in_place(octets, strict, &found))
        }
        Err(_) => Ok(false),
    }
}

#[test]
fn accepted_attestations(rt: HostRuntime) -> Result<(), Fail> {
    for (name, digits, strict, text) in accepted::ROWS {
        let octets = octets_of(rt.alloc(), digits)?;
        let laxly = has_text(rt.alloc(), octets.as_slice(), false, text)?;
        let strictly = has_text(rt.alloc(), octets.as_slice(), true, text)?;
        assert!(rt; laxly, "{name}");
        assert!(rt; strictly == *strict, "{name}, strictly");
    }
    Ok(())
}

/// Whether the octets are rejected as expected, whole and at a cursor, which stays where it was.
fn is_rejected(alloc: Global, octets: &[u8], strict: bool, expected: Outcome) -> bool {
    let mut cons = Constructed::from_slice(octets);
    let first = outcome_of(RouteOriginAttestation::take_from(alloc, strict, &mut cons));
    let left = cons.rest().len();
    let stays = match first {
        Outcome::Read => left < octets.len(),
        outcome => outcome == expected && left == octets.len(),
    };
    stays
        && wrong_in(octets, strict).is_some_and(|(_, outcome)| outcome == expected)
        && outcome_of(RouteOriginAttestation::decode(alloc, octets, strict)) == expected
}

#[test]
fn hostile_attestations(rt: HostRuntime) -> Result<(), Fail> {
    for (name, text, expected) in hostile::ROWS {
        let octets = octets_of(rt.alloc(), text)?;
        for strict in [false, true] {
            let rejected = is_rejected(rt.alloc(), octets.as_slice(), strict, *expected);
            assert!(rt; rejected, "{name}, strict: {strict}");
        }
    }
    Ok(())
}

/// 10.0.0.0/8 and 2001:db8::/32 for AS 64496, with IP version 6 in front.
const TURNED: &str =
    "3026020300fbf0301f300f040200023009300703050020010db8300c04020001300630040302000a";

/// IP version 6 in front of IP version 4 is refused strictly, as an error of contents.
#[test]
fn families_in_order(rt: HostRuntime) -> Result<(), Fail> {
    let octets = octets_of(rt.alloc(), TURNED)?;
    assert!(rt; is_rejected(rt.alloc(), octets.as_slice(), true, Outcome::Content));
    Ok(())
}

/// The prefixes of an attestation as they are kept: a maximum length that is left out is none.
const KEPT: [RoaIpAddress; 2] = rows! {
    RoaIpAddress { prefix: Address { number: 10, size: 8 }, max_length: Some(8) },
    RoaIpAddress { prefix: Address { number: 41, size: 10 }, max_length: None },
};

/// An attestation of these prefixes of IP version 4, and of none of IP version 6.
const KEPT_OF: &str = "301f020300fbf03018301604020001301030070302000a02010830050303060a40";

#[test]
fn prefixes_as_they_are_kept(rt: HostRuntime) -> Result<(), Fail> {
    let octets = octets_of(rt.alloc(), KEPT_OF)?;
    let found = RouteOriginAttestation::decode(rt.alloc(), octets.as_slice(), true)?;
    assert!(rt; found.v4_addrs() == KEPT.as_slice());
    assert!(rt; found.v6_addrs().is_empty() && found.as_id() == 64496);
    Ok(())
}

/// A name, the octets, the malformed part strictly, and what is wrong with it.
const PARTS: &[(&str, &str, RoaPart, Outcome)] = &rows! {
    ("no octets", "", RoaPart::Attestation, Outcome::Truncated),
    ("a SET", "3113020101300e300c04020001300630040302000a", RoaPart::Attestation, Outcome::Unexpected),
    ("something behind it", "3013020101300e300c04020001300630040302000a0500", RoaPart::Attestation, Outcome::Trailing),
    ("an empty SEQUENCE", "3000", RoaPart::AsId, Outcome::Truncated),
    ("version 0", "3018a003020100020101300e300c04020001300630040302000a", RoaPart::AsId, Outcome::Unexpected),
    ("an AS number of 2^32", "301702050100000000300e300c04020001300630040302000a", RoaPart::AsId, Outcome::Content),
    ("no families", "3003020101", RoaPart::AddressBlocks, Outcome::Truncated),
    ("an empty list of families", "30050201013000", RoaPart::AddressBlocks, Outcome::Content),
    ("three families",
     "3032020101302d300c04020001300630040302000a300f040200023009300703050020010db8300c04020001300630040302000a",
     RoaPart::AddressBlocks, Outcome::Content),
    ("a maximum length of 33", "30160201013011300f04020001300930070302000a020121", RoaPart::AddressBlocks,
     Outcome::Content),
    ("something behind the families", "3015020101300e300c04020001300630040302000a0500", RoaPart::AddressBlocks,
     Outcome::Trailing),
    ("IP version 6 first", "3024020101301f300f040200023009300703050020010db8300c04020001300630040302000a",
     RoaPart::AddressBlocks, Outcome::Content),
    ("an AS number of -1 and no families", "30050201ff3000", RoaPart::AsId, Outcome::Content),
};

/// The part of the octets that is said to be wrong, and what is wrong with it.
fn wrong_in(octets: &[u8], strict: bool) -> Option<(RoaPart, Outcome)> {
    match RoaView::read(octets, strict) {
        Ok(_) => None,
        Err(wrong) => Some((wrong.part, refused(&wrong.error))),
    }
}

#[test]
fn wrong_parts(rt: HostRuntime) -> Result<(), Fail> {
    for (name, text, part, outcome) in PARTS {
        let octets = octets_of(rt.alloc(), text)?;
        let seen = wrong_in(octets.as_slice(), true);
        assert_eq!(rt; seen, Some((*part, *outcome)), "{name}");
    }
    Ok(())
}
