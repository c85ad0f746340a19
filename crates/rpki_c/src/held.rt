//! The resources of an issuer, as blocks in the caller's array say them.

ghost use Rattle.std.specs.Prelude.{◌≡◌, ◌<◌, ◌++◌, ◌^◌, ℕ, [], All, IfOk};
ghost use Rattle.rpki_resources.specs.Blocks.{AreNumbersOf, IsAmong};
ghost use Rattle.rpki_c.specs.Resources.{numbers_of, as_numbers_of};
ghost use Rattle.rpki_c.specs.Settling.{are_untold, are_as_untold, with_entry, family_blocks, as_blocks};

use crate::as_blocks::AsEntry;
use crate::block_texts::number_of;
use crate::ip_blocks::{IpEntry, family_number};
use rpki_resources::{AddressFamily, Block, Blocks};
use std::alloc::{AllocError, Global};

/// Whether an entry says that addresses are those of an issuer.
pub(crate) fn are_untold(entries: &[IpEntry]) -> bool
    ensures { result ≡ are_untold entries.now }
{
    let mut rest = entries;
    'each: while let Some((first, following)) = rest.split_first() {
        if first.is_inherited {
            return true;
        }
        rest = following;
    }
    false
}

/// Whether an entry says that AS numbers are those of an issuer.
pub(crate) fn are_as_untold(entries: &[AsEntry]) -> bool
    ensures { result ≡ are_as_untold entries.now }
{
    let mut rest = entries;
    'each: while let Some((first, following)) = rest.split_first() {
        if first.is_inherited {
            return true;
        }
        rest = following;
    }
    false
}

/// The numbers of an entry, as one of the family.
fn numbers_of(family: AddressFamily, entry: &IpEntry) -> Block
    ensures { result ≡ numbers_of family entry.now }
{
    Block {
        low: number_of(family, entry.low),
        high: number_of(family, entry.high),
    }
}

/// Appends the block of an entry, where it is of the family.
fn push_entry(
    blocks: &mut Vec<Block>,
    family: AddressFamily,
    entry: &IpEntry,
) -> Result<(), AllocError>
    ensures { IfOk result (λ _. blocks.new.items ≡ blocks.old.items ++ with_entry family entry.now []) }
{
    if entry.family == family_number(family) {
        blocks.push(numbers_of(family, entry))?;
    }
    Ok(())
}

/// The blocks of the family among the entries.
fn family_blocks(
    alloc: Global,
    family: AddressFamily,
    entries: &[IpEntry],
) -> Result<Vec<Block>, AllocError>
    ensures { IfOk result (λ v. v.items ≡ family_blocks family entries.now) }
{
    let mut blocks = Vec::new(alloc);
    let mut rest = entries;
    'each: while let Some((first, following)) = rest.split_first() {
        push_entry(&mut blocks, family, first)?;
        rest = following;
    }
    Ok(blocks)
}

/// The addresses of the family that the entries have, in canonical form.
///
/// Returns `AllocError` if allocation fails.
pub(crate) fn held(
    alloc: Global,
    family: AddressFamily,
    entries: &[IpEntry],
) -> Result<Blocks, AllocError>
    ensures { IfOk result (λ x. AreNumbersOf (family_blocks family entries.now) x) }
{
    let blocks = family_blocks(alloc, family, entries)?;
    Blocks::of(alloc, blocks.as_slice())
}

/// The blocks of AS numbers that the entries are.
fn as_blocks(alloc: Global, entries: &[AsEntry]) -> Result<Vec<Block>, AllocError>
    ensures blocks { IfOk result (λ v. v.items ≡ as_blocks entries.now) }
    ensures small { IfOk result (λ v. All (λ b. b.high < 2 ^ 32) v.items) }
{
    let mut blocks = Vec::new(alloc);
    let mut rest = entries;
    'each: while let Some((first, following)) = rest.split_first() {
        blocks.push(Block {
            low: u128::from(first.low),
            high: u128::from(first.high),
        })?;
        rest = following;
    }
    Ok(blocks)
}

/// The AS numbers that the entries have, in canonical form.
///
/// Returns `AllocError` if allocation fails.
pub(crate) fn held_as(alloc: Global, entries: &[AsEntry]) -> Result<Blocks, AllocError>
    ensures numbers { IfOk result (λ x. AreNumbersOf (as_blocks entries.now) x) }
    ensures small { IfOk result (λ x. (n : ℕ) → IsAmong n x → n < 2 ^ 32) }
{
    let blocks = as_blocks(alloc, entries)?;
    match Blocks::of(alloc, blocks.as_slice()) {
        Ok(numbers) => Ok(numbers),
        Err(e) => Err(e),
    }
}
