//! Worked cases of blocks of addresses and of AS numbers.

mod accepted;
mod chains;
mod compared;
mod lists_read;
mod rejected;
mod sets;
mod sizes;
mod texts;
mod texts_read;
mod written;

use rpki_der::{Constructed, DecodeError};
use rpki_der_tests::hexadecimal::octets_of;
use rpki_der_tests::kinds::{Outcome, refused};
use rpki_resources::*;
use std::alloc::{AllocError, Global};
use std::fmt::Display;
use std::test::Fail;

const AS_NUMBERS: ResourceKind = ResourceKind::AsNumbers;

const IPV4: ResourceKind = ResourceKind::Addresses(AddressFamily::Ipv4);

const IPV6: ResourceKind = ResourceKind::Addresses(AddressFamily::Ipv6);

/// The lowest and the highest number of each block.
type Set = &'static [(u128, u128)];

/// The extension that a row has.
#[derive(Clone, Copy, Debug)]
enum Kind {
    Ip,
    As,
}

/// Resources of one kind.
#[derive(Clone, Copy, Debug)]
enum Choice {
    Missing,
    Inherit,
    Listed(Set),
}

/// What contents are: those of IP version 4 and of IP version 6, or AS numbers.
#[derive(Clone, Copy, Debug)]
enum Found {
    Ip(Choice, Choice),
    As(Choice),
}

/// The extension that has these contents.
fn kind_of(found: Found) -> Kind {
    match found {
        Found::Ip(_, _) => Kind::Ip,
        Found::As(_) => Kind::As,
    }
}

/// The block from the lowest to the highest number.
fn block_of((low, high): (u128, u128)) -> Block {
    Block { low, high }
}

/// A set of these blocks; None where they are not in canonical form.
fn blocks_of(alloc: Global, blocks: &[(u128, u128)]) -> Result<Option<Blocks>, AllocError> {
    let mut items = Vec::new(alloc);
    for block in blocks {
        items.push(block_of(*block))?;
    }
    Ok(Blocks::from_canonical(items))
}

/// The choice that a row has; None where its blocks are not in canonical form.
fn choice_of(alloc: Global, choice: Choice) -> Result<Option<ResourcesChoice>, AllocError> {
    match choice {
        Choice::Missing => Ok(Some(ResourcesChoice::Missing)),
        Choice::Inherit => Ok(Some(ResourcesChoice::Inherit)),
        Choice::Listed(blocks) => match blocks_of(alloc, blocks)? {
            Some(blocks) => Ok(Some(ResourcesChoice::Blocks(blocks))),
            None => Ok(None),
        },
    }
}

/// Whether the blocks are these.
fn are_blocks(blocks: &[Block], expected: &[(u128, u128)]) -> bool {
    blocks.len() == expected.len()
        && blocks
            .iter()
            .zip(expected)
            .all(|(block, expected)| (block.low, block.high) == *expected)
}

/// Whether the choice is this.
fn is_choice(choice: &ResourcesChoice, expected: Choice) -> bool {
    let (present, inherited) = (choice.is_present(), choice.is_inherited());
    match (choice, expected) {
        (ResourcesChoice::Missing, Choice::Missing) => !present && !inherited,
        (ResourcesChoice::Inherit, Choice::Inherit) => present && inherited,
        (ResourcesChoice::Blocks(blocks), Choice::Listed(expected)) => {
            present && !inherited && are_blocks(blocks.as_slice(), expected)
        }
        _ => false,
    }
}

/// Whether the blocks that were read in place are these.
fn are_blocks_in_place(view: &BlocksView<'_>, expected: &[(u128, u128)]) -> bool {
    let mut blocks = view.blocks();
    for (low, high) in expected {
        match blocks.next_block() {
            Some(block) if block.low == *low && block.high == *high => {}
            _ => return false,
        }
    }
    blocks.next_block().is_none() && view.count() == expected.len()
}

/// Whether the choice that was read in place is this.
fn is_choice_in_place(choice: &ChoiceView<'_>, expected: Choice) -> bool {
    match (choice, expected) {
        (ChoiceView::Missing, Choice::Missing) => true,
        (ChoiceView::Inherit, Choice::Inherit) => true,
        (ChoiceView::Blocks(view), Choice::Listed(expected)) => are_blocks_in_place(view, expected),
        _ => false,
    }
}

/// Whether these contents are what is expected, kept.
fn is_kept(alloc: Global, kind: Kind, octets: &[u8], expected: Result<Found, Outcome>) -> bool {
    match kind {
        Kind::Ip => match (IpResources::decode(alloc, octets), expected) {
            (Ok(found), Ok(Found::Ip(v4, v6))) => {
                is_choice(&found.v4, v4) && is_choice(&found.v6, v6)
            }
            (Err(e), Err(outcome)) => refused(&e) == outcome,
            _ => false,
        },
        Kind::As => match (AsResources::decode(alloc, octets), expected) {
            (Ok(found), Ok(Found::As(numbers))) => is_choice(&found.numbers, numbers),
            (Err(e), Err(outcome)) => refused(&e) == outcome,
            _ => false,
        },
    }
}

/// Whether the contents at this cursor are what is expected, in place; what `Trailing` is for is left there.
fn is_in_place(kind: Kind, octets: &[u8], expected: Result<Found, Outcome>) -> bool {
    let mut cons = Constructed::from_slice(octets);
    let error = match kind {
        Kind::Ip => match (take_ip_resources(&mut cons), expected) {
            (Ok(found), Ok(Found::Ip(v4, v6))) => {
                return is_choice_in_place(&found.v4, v4) && is_choice_in_place(&found.v6, v6);
            }
            (Ok(_), Err(Outcome::Trailing)) => return !cons.is_empty(),
            (Ok(_), _) => return false,
            (Err(error), _) => error,
        },
        Kind::As => match (take_as_resources(&mut cons), expected) {
            (Ok(found), Ok(Found::As(numbers))) => return is_choice_in_place(&found, numbers),
            (Ok(_), Err(Outcome::Trailing)) => return !cons.is_empty(),
            (Ok(_), _) => return false,
            (Err(error), _) => error,
        },
    };
    cons.rest().len() == octets.len() && expected.is_err_and(|outcome| refused(&error) == outcome)
}

/// Whether the value is printed as this text; or whether there is neither.
fn is_shown<T: Display + Drop>(
    alloc: Global,
    value: Option<T>,
    expected: Option<&str>,
) -> Result<bool, AllocError> {
    match (value, expected) {
        (Some(value), Some(expected)) => {
            let text = format!(in alloc; "{value}")?;
            Ok(text.as_str() == expected)
        }
        (None, None) => Ok(true),
        _ => Ok(false),
    }
}

/// Whether the parts of contents are read by themselves: a family, an AS number, an address, and blocks in place.
fn are_parts_read(octets: &[u8]) -> Result<bool, DecodeError> {
    let mut cons = Constructed::from_slice(octets);
    let family = take_family(&mut cons)?;
    let number = take_as_number(&mut cons)?;
    let address = Address::take_from(&mut cons, family)?;
    let blocks = BlocksView::take_contents(&mut cons, IPV4)?;
    Ok(
        family == AddressFamily::Ipv4
            && number == 64496
            && (address.number, address.size) == (10, 8)
            && blocks.kind() == IPV4
            && blocks.count() == 1
            && blocks.octets() == b"\x03\x02\0\x0b".as_slice()
            && cons.is_empty(),
    )
}

#[test]
fn parts_of_contents(rt: HostRuntime) -> Result<(), Fail> {
    let octets = b"\x04\x02\0\x01\x02\x03\0\xfb\xf0\x03\x02\0\x0a\x03\x02\0\x0b";
    assert!(rt; are_parts_read(octets)?);
    Ok(())
}
