//! Addresses that prefixes of two lists have in common, by one merge of their blocks.

ghost use Rattle.std.specs.Prelude.{◌≡◌, ◌<◌, ◌^◌, ◌↔◌, IfOk, IsTrue, map, nat_eq};
ghost use Rattle.std.specs.List.{Contains, filter};
ghost use Rattle.rpki_resources.specs.IpRead.{address_width};
ghost use Rattle.rpki_payloads.specs.Conflict.{ShareAddress};
ghost use Rattle.rpki_payloads.specs.Exceptions.{Finds};
ghost use Rattle.rpki_payloads.specs.Shared.{AreAddressesOf, AreSharing, HasAddress, block_of};

use crate::covered::{number_of, width_of};
use rpki_resources::{Block, Blocks, Prefix};
use std::alloc::{AllocError, Global};

/// How many numbers have so many bits.
fn count_of(bits: u8) -> u128
    requires { bits < 128 }
    ensures { result ≡ 2 ^ bits }
{
    1u128 << bits
}

/// The numbers of the addresses of the prefix.
fn block_of(prefix: Prefix) -> Block
    ensures { result ≡ block_of prefix }
{
    let number = number_of(prefix.addr);
    let others = width_of(prefix.addr).saturating_sub(prefix.len);
    if others >= 128 {
        return Block {
            low: 0,
            high: u128::MAX,
        };
    }
    let count = count_of(others);
    let low = number / count * count;
    Block {
        low,
        high: low + (count - 1),
    }
}

/// Whether the address of so many bits that is this number is one of the prefix.
fn has_address(width: u8, prefix: Prefix, number: u128) -> bool
    ensures { IsTrue result ↔ HasAddress width prefix number }
{
    width_of(prefix.addr) == width && block_of(prefix).contains(number)
}

/// The numbers of the addresses of so many bits that these prefixes have, in any order.
fn blocks_of(alloc: Global, width: u8, prefixes: &[Prefix]) -> Result<Vec<Block>, AllocError>
    ensures { IfOk result (λ blocks. blocks.items
        ≡ map block_of (filter (λ p. nat_eq (address_width p.addr) width) prefixes.now)) }
{
    prefixes
        .iter()
        .filter(|prefix| width_of(prefix.addr) == width)
        .map(|prefix| block_of(*prefix))
        .collect(alloc)
}

/// The set of the addresses of so many bits that these prefixes have.
fn addresses_of(alloc: Global, width: u8, prefixes: &[Prefix]) -> Result<Blocks, AllocError>
    ensures { IfOk result (AreAddressesOf width prefixes.now) }
{
    let blocks = blocks_of(alloc, width, prefixes)?;
    Blocks::of(alloc, blocks.as_slice())
}

/// One of these prefixes that has the address.
fn with_address(width: u8, number: u128, prefixes: &[Prefix]) -> Option<Prefix>
    ensures { Finds (λ p. Contains prefixes.now p × HasAddress width p number) result }
{
    let mut rest = prefixes;
    'prefixes: while let Some((first, following)) = rest.split_first() {
        if has_address(width, *first, number) {
            return Some(*first);
        }
        rest = following;
    }
    None
}

/// One of these prefixes and one of the others, each of which has the address.
fn both_with_address(
    width: u8,
    number: u128,
    prefixes: &[Prefix],
    others: &[Prefix],
) -> Option<(Prefix, Prefix)>
    ensures { Finds (λ both. Contains prefixes.now both.0 × Contains others.now both.1
        × HasAddress width both.0 number × HasAddress width both.1 number) result }
{
    let prefix = with_address(width, number, prefixes)?;
    let other = with_address(width, number, others)?;
    Some((prefix, other))
}

/// One of these prefixes and one of the others that have an address of so many bits in common.
///
/// Returns `AllocError` if allocation fails.
fn shared_with(
    alloc: Global,
    width: u8,
    prefixes: &[Prefix],
    others: &[Prefix],
) -> Result<Option<(Prefix, Prefix)>, AllocError>
    ensures { IfOk result (Finds (AreSharing width prefixes.now others.now)) }
{
    let one = addresses_of(alloc, width, prefixes)?;
    let other = addresses_of(alloc, width, others)?;
    let both = one.intersection(alloc, &other)?;
    match both.as_slice().first() {
        Some(block) => Ok(both_with_address(width, block.low, prefixes, others)),
        None => Ok(None),
    }
}

/// One of these prefixes and one of the others that have an address in common. It takes n log n steps.
///
/// Returns `AllocError` if allocation fails.
pub(crate) fn overlapping(
    alloc: Global,
    prefixes: &[Prefix],
    others: &[Prefix],
) -> Result<Option<(Prefix, Prefix)>, AllocError>
    ensures { IfOk result (Finds (λ both. Contains prefixes.now both.0 × Contains others.now both.1
        × ShareAddress both.0 both.1)) }
{
    let found = shared_with(alloc, 32, prefixes, others)?;
    match found {
        Some(both) => Ok(Some(both)),
        None => shared_with(alloc, 128, prefixes, others),
    }
}
