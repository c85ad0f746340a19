//! Blocks of addresses, each as a prefix or as a range (RFC 3779 2.2.3.7 to 2.2.3.9).

ghost use Rattle.std.specs.Prelude.{◌≡◌, ◌<◌, ◌*◌, ◌^◌, ◌↔◌, ℕ, suc, IsTrue, IfSome, IfNone};
ghost use Rattle.rpki_der.specs.Prelude.{left, Takes, TakesAll};
ghost use Rattle.rpki_resources.specs.declared.block.Block.{Block};
ghost use Rattle.rpki_resources.specs.Address.{width, IsPrefix, HasNoZeros, HasNoOnes, IsAddressOf, IsRange};
ghost use Rattle.rpki_resources.specs.Address.{range_ends, range, block};

use crate::address::Address;
use crate::block::Block;
use crate::family::AddressFamily;
use rpki_der::{Constructed, DecodeError, Tag};

/// This power of 2.
fn power_of_two(exponent: u32) -> u128
    requires { exponent < 128 }
    ensures { result ≡ 2 ^ exponent }
{
    1 << exponent
}

/// Whether the numbers are all those that begin alike: from some number followed by zeros to that followed by ones. So
/// they are as many as a power of 2, from a multiple of it on.
pub fn is_prefix(low: u128, high: u128) -> bool
    ensures { IsTrue result ↔ IsPrefix low high }
{
    if high < low {
        return false;
    }
    let others = high - low;
    if others == u128::MAX {
        return true;
    }
    let count = others + 1;
    let power = power_of_two(count.ilog2());
    if count != power {
        return false;
    }
    if low % power != 0 {
        return false;
    }
    true
}

/// How many bits the numbers of a prefix don't share.
pub fn missing_bits(low: u128, high: u128) -> u8
    requires { IsPrefix low high }
    ensures { (q : ℕ) × (low ≡ q * 2 ^ result) × (suc high ≡ suc q * 2 ^ result) }
{
    let mut first = low;
    let mut last = high;
    let mut count = 0;
    'bits: while first < last {
        first /= 2;
        last /= 2;
        count += 1;
    }
    count
}

/// Whether the last bit is there and is 1, or there is none: no zero could be left out at the end.
fn has_no_zeros(address: Address) -> bool
    ensures { IsTrue result ↔ HasNoZeros address }
{
    address.size == 0 || address.number % 2 == 1
}

/// Whether the last bit is there and is 0, or there is none: no one could be left out at the end.
fn has_no_ones(address: Address) -> bool
    ensures { IsTrue result ↔ HasNoOnes address }
{
    address.size == 0 || address.number % 2 == 0
}

/// The block of this lowest and this highest address, where it is no prefix and no bit could be left out.
fn range_of(lowest: Address, highest: Address, family: AddressFamily) -> Option<Block>
    requires lowest { IsAddressOf (width family) lowest }
    requires highest { IsAddressOf (width family) highest }
    ensures some { IfSome result (λ b. IsRange (width family) b (lowest, highest)) }
    ensures none { IfNone result ((b : Block) → IsRange (width family) b (lowest, highest) → ⊥) }
{
    if !has_no_zeros(lowest) {
        return None;
    }
    if !has_no_ones(highest) {
        return None;
    }
    let low = lowest.low_end(family);
    let high = highest.high_end(family);
    if low > high {
        return None;
    }
    if is_prefix(low, high) {
        return None;
    }
    Some(Block { low, high })
}

/// A range: a SEQUENCE of its lowest address without the zeros at its end, and of its highest without the ones. A range
/// that is a prefix has to be written as one (RFC 3779 2.2.3.7).
fn take_range(cons: &mut Constructed<'_>, family: AddressFamily) -> Result<Block, DecodeError>
    ensures { Takes (λ b. b) (range (width family)) (left cons.old) (left cons.new) result }
{
    cons.in_sequence(|contents| take_ends(contents, family))
}

/// The block whose two ends these contents are, one after the other.
fn take_ends(contents: &mut Constructed<'_>, family: AddressFamily) -> Result<Block, DecodeError>
    ensures { TakesAll (λ b. b) (range_ends (width family)) (left contents.old) (left contents.new) result }
{
    let lowest = Address::take_from(contents, family)?;
    let highest = Address::take_from(contents, family)?;
    match range_of(lowest, highest, family) {
        Some(block) => Ok(block),
        None => Err(DecodeError::content("malformed range of addresses")),
    }
}

/// A block of addresses: a prefix, or a range that isn't one.
pub fn take_block(cons: &mut Constructed<'_>, family: AddressFamily) -> Result<Block, DecodeError>
    ensures { Takes (λ b. b) (block (width family)) (left cons.old) (left cons.new) result }
{
    if cons.has_tag(Tag::SEQUENCE) {
        return take_range(cons, family);
    }
    let address = Address::take_from(cons, family)?;
    Ok(address.prefix(family))
}
