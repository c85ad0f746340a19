//! Worked cases of attestations of providers.

mod accepted;
mod hostile;

use crate::encoding::{are_written_as, sequence_of};
use rpki_contents::{AsProviderAttestation, AspaPart, AspaView};
use rpki_der::Constructed;
use rpki_der_tests::hexadecimal::octets_of;
use rpki_der_tests::kinds::{Outcome, outcome_of, refused};
use rpki_der_tests::rows;
use rpki_resources::{Block, Blocks};
use std::alloc::{AllocError, Global};
use std::test::Fail;

/// Whether these octets, read in place, are an attestation of this customer and of these providers.
fn is_in_place(octets: &[u8], customer: u32, providers: &[u32]) -> bool {
    let Ok(view) = AspaView::read(octets) else {
        return false;
    };
    let mut rest = view.providers();
    for provider in providers {
        if rest.next_provider() != Some(*provider) {
            return false;
        }
    }
    rest.next_provider().is_none() && view.customer == customer && view.count == providers.len()
}

/// Whether these octets are an attestation of this customer and of these providers.
fn is_attestation(alloc: Global, octets: &[u8], customer: u32, providers: &[u32]) -> bool {
    match AsProviderAttestation::decode(alloc, octets) {
        Ok(found) => found.customer_as() == customer && found.providers() == providers,
        Err(_) => false,
    }
}

#[test]
fn accepted_attestations(rt: HostRuntime) -> Result<(), Fail> {
    for (name, text, customer, providers) in accepted::ROWS {
        let octets = octets_of(rt.alloc(), text)?;
        let kept = is_attestation(rt.alloc(), octets.as_slice(), *customer, providers);
        let seen = is_in_place(octets.as_slice(), *customer, providers);
        assert!(rt; kept, "{name}");
        assert!(rt; seen, "{name}, in place");
    }
    Ok(())
}

/// Whether these octets are read as an attestation that is written as these octets.
fn is_written(alloc: Global, octets: &[u8]) -> Result<bool, AllocError> {
    match AsProviderAttestation::decode(alloc, octets) {
        Ok(found) => are_written_as(alloc, &found.encode_ref(), octets),
        Err(_) => Ok(false),
    }
}

#[test]
fn accepted_attestations_are_written(rt: HostRuntime) -> Result<(), Fail> {
    for (name, text, _, _) in accepted::ROWS {
        let octets = octets_of(rt.alloc(), text)?;
        assert!(rt; is_written(rt.alloc(), octets.as_slice())?, "{name}");
    }
    Ok(())
}

/// A customer and providers, and whether they make an attestation, by the rules of the profile: one provider at least,
/// each above the one before it, and none is the customer.
const MADE: &[(&str, u32, &[u32], bool)] = &rows! {
    ("one provider", 64496, &[64497], true),
    ("providers on both sides of the customer", 5, &[0, 4, 6, 4294967295], true),
    ("no provider", 64496, &[], false),
    ("the customer alone", 1, &[1], false),
    ("the customer last", 4, &[2, 3, 4], false),
    ("a provider twice", 1, &[2, 2], false),
    ("the last two in descending order", 1, &[2, 4, 3], false),
};

/// Whether an attestation of these is made, and has them.
fn is_made_of(alloc: Global, customer: u32, providers: &[u32]) -> Result<bool, AllocError> {
    let mut listed = Vec::new(alloc);
    listed.extend_from_slice(providers)?;
    match AsProviderAttestation::new(customer, listed) {
        Some(found) => Ok(found.customer_as() == customer && found.providers() == providers),
        None => Ok(false),
    }
}

#[test]
fn attestations_are_made(rt: HostRuntime) -> Result<(), Fail> {
    for (name, customer, providers, expected) in MADE {
        let is_made = is_made_of(rt.alloc(), *customer, providers)?;
        assert!(rt; is_made == *expected, "{name}");
    }
    for (name, _, customer, providers) in accepted::ROWS {
        assert!(rt; is_made_of(rt.alloc(), *customer, providers)?, "{name}");
    }
    Ok(())
}

/// Whether the octets are rejected as expected, whole and at a cursor, which stays where it was.
fn is_rejected(alloc: Global, octets: &[u8], expected: Outcome) -> bool {
    let mut cons = Constructed::from_slice(octets);
    let first = outcome_of(AsProviderAttestation::take_from(alloc, &mut cons));
    let left = cons.rest().len();
    let stays = match first {
        Outcome::Read => left < octets.len(),
        outcome => outcome == expected && left == octets.len(),
    };
    stays
        && wrong_in(octets).is_some_and(|(_, outcome)| outcome == expected)
        && outcome_of(AsProviderAttestation::decode(alloc, octets)) == expected
}

#[test]
fn hostile_attestations(rt: HostRuntime) -> Result<(), Fail> {
    for (name, text, expected) in hostile::ROWS {
        let octets = octets_of(rt.alloc(), text)?;
        let rejected = is_rejected(rt.alloc(), octets.as_slice(), *expected);
        assert!(rt; rejected, "{name}");
    }
    Ok(())
}

/// A name, the lowest and the highest AS number of a certificate, and whether the customer 64496 is one.
const RESOURCES: &[(&str, u128, u128, bool)] = &[
    ("the customer alone", 64496, 64496, true),
    ("all numbers", 0, 4294967295, true),
    ("the customer last", 64490, 64496, true),
    ("up to the number before", 0, 64495, false),
    ("from the number after", 64497, 4294967295, false),
];

/// Whether the customer 64496 is among these numbers.
fn is_within(alloc: Global, low: u128, high: u128) -> Result<Option<bool>, AllocError> {
    let numbers = Blocks::of(alloc, &[Block { low, high }])?;
    let octets = octets_of(alloc, "3011a003020101020300fbf03005020300fbf1")?;
    match AsProviderAttestation::decode(alloc, octets.as_slice()) {
        Ok(found) => Ok(Some(found.is_within(&numbers))),
        Err(_) => Ok(None),
    }
}

#[test]
fn customers_within_resources(rt: HostRuntime) -> Result<(), Fail> {
    for (name, low, high, expected) in RESOURCES {
        let found = is_within(rt.alloc(), *low, *high)?;
        assert!(rt; found == Some(*expected), "{name}");
    }
    Ok(())
}

/// A name, the octets, the malformed part, and what is wrong with it.
const PARTS: &[(&str, &str, AspaPart, Outcome)] = &rows! {
    ("no SEQUENCE", "0500", AspaPart::Attestation, Outcome::Unexpected),
    ("something behind it", "300da00302010102010130030201020500", AspaPart::Attestation, Outcome::Trailing),
    ("no octets", "", AspaPart::Attestation, Outcome::Truncated),
    ("no version", "30080201013003020102", AspaPart::Version, Outcome::Unexpected),
    ("version 0", "300da0030201000201013003020102", AspaPart::Version, Outcome::Content),
    ("no customer", "3005a003020101", AspaPart::Customer, Outcome::Truncated),
    ("a customer of 2^32", "3011a003020101020501000000003003020102", AspaPart::Customer, Outcome::Content),
    ("no list", "3008a003020101020101", AspaPart::Providers, Outcome::Truncated),
    ("no providers", "300aa0030201010201013000", AspaPart::Providers, Outcome::Content),
    ("the customer is its provider", "300da0030201010201013003020101", AspaPart::Providers, Outcome::Content),
    ("providers in descending order", "3010a0030201010201013006020103020102", AspaPart::Providers, Outcome::Content),
    ("the last provider is cut short", "300fa00302010102010130050201020202", AspaPart::Providers, Outcome::Truncated),
    ("something behind the list", "300fa00302010102010130030201020500", AspaPart::Providers, Outcome::Trailing),
    ("version 2 and the customer its provider", "300da0030201020201013003020101", AspaPart::Version, Outcome::Content),
};

/// The part of the octets that is said to be wrong, and what is wrong with it.
fn wrong_in(octets: &[u8]) -> Option<(AspaPart, Outcome)> {
    match AspaView::read(octets) {
        Ok(_) => None,
        Err(wrong) => Some((wrong.part, refused(&wrong.error))),
    }
}

#[test]
fn wrong_parts(rt: HostRuntime) -> Result<(), Fail> {
    for (name, text, part, outcome) in PARTS {
        let octets = octets_of(rt.alloc(), text)?;
        let seen = wrong_in(octets.as_slice());
        assert_eq!(rt; seen, Some((*part, *outcome)), "{name}");
    }
    Ok(())
}

/// How many providers an attestation has.
const COUNTS: [u16; 5] = [1, 127, 128, 1_000, 10_000];

/// An attestation of the customer 1 and of this many providers from 268435456 on, in four octets each.
fn providers_of(alloc: Global, count: u16) -> Result<Vec<u8>, AllocError> {
    let mut listed = Vec::new(alloc);
    for index in 0..count {
        listed.extend_from_slice(&[2, 4, 16, 0])?;
        listed.extend_from_slice(&index.to_be_bytes())?;
    }
    let list = sequence_of(alloc, &[listed.as_slice()])?;
    sequence_of(alloc, &[&[0xa0, 3, 2, 1, 1, 2, 1, 1], list.as_slice()])
}

/// Whether an attestation of so many providers is read.
fn is_read(alloc: Global, count: u16) -> Result<bool, AllocError> {
    let octets = providers_of(alloc, count)?;
    match AsProviderAttestation::decode(alloc, octets.as_slice()) {
        Ok(found) => Ok(
            found.providers().len() == usize::from(count)
                && AspaView::read(octets.as_slice()).is_ok(),
        ),
        Err(_) => Ok(false),
    }
}

#[test]
fn large_attestations(rt: HostRuntime) -> Result<(), Fail> {
    for count in COUNTS {
        assert!(rt; is_read(rt.alloc(), count)?, "{count}");
    }
    Ok(())
}
