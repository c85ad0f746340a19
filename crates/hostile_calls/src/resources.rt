//! Sets of addresses: what is made of two, for each pair of resources in the input.

use crate::refusal::Failure;
use crate::report::Report;
use rpki_der::Constructed;
use rpki_resources::{AddressFamily, Blocks, IpBlock, IpResources, ResourcesChoice};
use std::alloc::Global;
use std::io;

/// The addresses that are listed; none where no list is there.
fn listed(alloc: Global, choice: ResourcesChoice) -> Blocks {
    match choice {
        ResourcesChoice::Blocks(blocks) => blocks,
        _ => Blocks::empty(alloc),
    }
}

/// The lines of a set: a word, and then its blocks.
fn tell_set(
    report: Report,
    word: &str,
    family: AddressFamily,
    blocks: &Blocks,
) -> Result<(), Failure> {
    report.words(word)?;
    for block in blocks.as_slice() {
        match IpBlock::of(family, *block) {
            Some(block) => report.shown("block", &block)?,
            None => return Err(Failure::Refused),
        }
    }
    Ok(())
}

/// The lines of an answer.
fn tell_whether(report: Report, word: &str, is: bool) -> io::Result<()> {
    report.number(word, u64::from(is))
}

/// The lines of what is made of two sets.
fn tell_pair(
    alloc: Global,
    report: Report,
    family: AddressFamily,
    one: &Blocks,
    other: &Blocks,
) -> Result<(), Failure> {
    tell_whether(report, "encompasses", one.encompasses(other))?;
    tell_whether(report, "encompassed", other.encompasses(one))?;
    tell_whether(report, "equal", *one == *other)?;
    let intersection = one.intersection(alloc, other)?;
    tell_set(report, "intersection", family, &intersection)?;
    let union = one.union(alloc, other)?;
    tell_set(report, "union", family, &union)?;
    let difference = one.difference(alloc, other)?;
    tell_set(report, "difference", family, &difference)
}

/// Reads two resources, and tells what is made of their addresses of each family.
fn tell_next(alloc: Global, report: Report, cons: &mut Constructed<'_>) -> Result<(), Failure> {
    let one = IpResources::take_from(alloc, cons)?;
    let other = IpResources::take_from(alloc, cons)?;
    let (first, second) = (listed(alloc, one.v4), listed(alloc, other.v4));
    tell_pair(alloc, report, AddressFamily::Ipv4, &first, &second)?;
    let (first, second) = (listed(alloc, one.v6), listed(alloc, other.v6));
    tell_pair(alloc, report, AddressFamily::Ipv6, &first, &second)
}

/// Tells of each pair of resources that follow one another in the octets.
pub fn tell(alloc: Global, report: Report, call: &str, octets: Vec<u8>) -> Result<(), Failure> {
    if call != "pairs" {
        return Err(Failure::Usage);
    }
    let mut cons = Constructed::from_slice(octets.as_slice());
    while !cons.is_empty() {
        tell_next(alloc, report, &mut cons)?;
    }
    Ok(())
}
