//! Resources down a chain (RFC 6487 7.2, RFC 8360 4.2).

use super::Choice::{Inherit, Listed, Missing};
use super::SettleError::{Inherits, Overclaim};
use super::*;

/// A name, a certificate's resources, its issuer's, what they settle to or the error, and what they are trimmed to.
type Link = (&'static str, Choice, Set, Result<Set, SettleError>, Set);

#[rattlefmt::skip]
const LINKS: &[Link] = &[
    ("none", Missing, &[(1, 9)], Ok(&[]), &[]),
    ("inherited", Inherit, &[(1, 9)], Ok(&[(1, 9)]), &[(1, 9)]),
    ("none inherited", Inherit, &[], Ok(&[]), &[]),
    ("all", Listed(&[(1, 9)]), &[(1, 9)], Ok(&[(1, 9)]), &[(1, 9)]),
    ("some", Listed(&[(2, 3), (5, 9)]), &[(1, 9)], Ok(&[(2, 3), (5, 9)]), &[(2, 3), (5, 9)]),
    ("one more", Listed(&[(1, 10)]), &[(1, 9)], Err(Overclaim), &[(1, 9)]),
    ("one before", Listed(&[(0, 9)]), &[(1, 9)], Err(Overclaim), &[(1, 9)]),
    ("between", Listed(&[(4, 6)]), &[(1, 4), (6, 9)], Err(Overclaim), &[(4, 4), (6, 6)]),
    ("of none", Listed(&[(4, 6)]), &[], Err(Overclaim), &[]),
];

/// Whether this was settled.
fn is_settled(found: Result<Blocks, SettleError>, expected: Result<Set, SettleError>) -> bool {
    match (found, expected) {
        (Ok(blocks), Ok(expected)) => are_blocks(blocks.as_slice(), expected),
        (Err(e), Err(expected)) => e == expected,
        _ => false,
    }
}

/// Whether the link settles and is trimmed as expected.
fn is_link(alloc: Global, (_, choice, issuer, settled, trimmed): Link) -> Result<bool, AllocError> {
    let (Some(choice), Some(issuer)) = (choice_of(alloc, choice)?, blocks_of(alloc, issuer)?) else {
        return Ok(false);
    };
    Ok(
        is_settled(choice.settle(alloc, &issuer), settled)
            && choice.is_within(&issuer) == settled.is_ok()
            && are_blocks(choice.trim(alloc, &issuer)?.as_slice(), trimmed),
    )
}

#[test]
fn links_of_chains(rt: HostRuntime) -> Result<(), Fail> {
    for link in LINKS {
        assert!(rt; is_link(rt.alloc(), *link)?, "{}", link.0);
    }
    Ok(())
}

/// Resources of a trust anchor, and what they settle to or the error.
const ANCHORS: &[(Choice, Result<Set, SettleError>)] = &[
    (Missing, Ok(&[])),
    (Inherit, Err(Inherits)),
    (Listed(&[(0, u128::MAX)]), Ok(&[(0, u128::MAX)])),
];

#[test]
fn trust_anchors(rt: HostRuntime) -> Result<(), Fail> {
    for (choice, expected) in ANCHORS {
        let settles = choice_of(rt.alloc(), *choice)?.is_some_and(|anchor| is_settled(
            anchor.settle_anchor(rt.alloc()),
            *expected,
        ));
        assert!(rt; settles, "{choice:?}");
    }
    Ok(())
}

/// Whether the set is settled.
fn is_set(found: Result<Blocks, SettleError>, expected: &Blocks) -> bool {
    match found {
        Ok(blocks) => blocks == *expected,
        Err(_) => false,
    }
}

/// Whether so many blocks are settled and trimmed under themselves, are inherited, and are those of a trust anchor.
fn are_settled(alloc: Global, count: u32) -> Result<bool, AllocError> {
    let octets = sizes::numbers(alloc, count)?;
    let Ok(found) = AsResources::decode(alloc, octets.as_slice()) else {
        return Ok(false);
    };
    let choice = found.numbers;
    let inherited = ResourcesChoice::Inherit;
    match &choice {
        ResourcesChoice::Blocks(blocks) => {
            let trimmed = choice.trim(alloc, blocks)?;
            let trimmed_to_all = inherited.trim(alloc, blocks)?;
            Ok(
                blocks.as_slice().len() == count as usize
                    && trimmed == *blocks
                    && trimmed_to_all == *blocks
                    && is_set(choice.settle(alloc, blocks), blocks)
                    && is_set(inherited.settle(alloc, blocks), blocks)
                    && is_set(choice.settle_anchor(alloc), blocks),
            )
        }
        _ => Ok(false),
    }
}

/// How many blocks there are.
const COUNTS: [u32; 5] = [1, 1_000, 1_001, 10_000, 65_536];

#[test]
fn chains_of_many_blocks(rt: HostRuntime) -> Result<(), Fail> {
    for count in COUNTS {
        assert!(rt; are_settled(rt.alloc(), count)?, "{count}");
    }
    Ok(())
}
