//! AS numbers, and blocks of them (RFC 3779 3.2.3.5 to 3.2.3.9).

ghost use Rattle.std.specs.Prelude.{◌<◌, IfSome, IfNone};
ghost use Rattle.rpki_der.specs.Prelude.{left, Takes, TakesAll};
ghost use Rattle.rpki_resources.specs.declared.block.Block.{Block};
ghost use Rattle.rpki_resources.specs.AsNumber.{as_number, IsAsRange, as_ends, as_range, as_block};

use crate::block::Block;
use rpki_der::{Constructed, DecodeError, Tag};

/// Reads an AS number: an INTEGER below 2^32 (RFC 3779 3.2.3.9).
///
/// The errors are those of a header; then `Unexpected` for another tag or form; then `Truncated`; then `Content` for
/// contents that are not those of such a number.
pub fn take_as_number(cons: &mut Constructed<'_>) -> Result<u32, DecodeError>
    ensures { Takes (λ n. n) as_number (left cons.old) (left cons.new) result }
{
    let mut after = *cons;
    let number = after.take_u64()?;
    if number > 4294967295 {
        return Err(DecodeError::content("AS number of 2^32 or more"));
    }
    *cons = after;
    Ok(number as u32)
}

/// The numbers from one to a higher one.
fn range_of(low: u32, high: u32) -> Option<Block>
    ensures some { IfSome result (λ b. IsAsRange b (low, high)) }
    ensures none { IfNone result ((b : Block) → IsAsRange b (low, high) → ⊥) }
{
    if low >= high {
        return None;
    }
    Some(Block {
        low: u128::from(low),
        high: u128::from(high),
    })
}

/// The block whose two ends these contents are, one after the other.
fn take_ends(contents: &mut Constructed<'_>) -> Result<Block, DecodeError>
    ensures { TakesAll (λ b. b) as_ends (left contents.old) (left contents.new) result }
{
    let lowest = take_as_number(contents)?;
    let highest = take_as_number(contents)?;
    match range_of(lowest, highest) {
        Some(block) => Ok(block),
        None => Err(DecodeError::content("malformed range of AS numbers")),
    }
}

/// A range: a SEQUENCE of its lowest and of its highest number, which is above the lowest.
fn take_range(cons: &mut Constructed<'_>) -> Result<Block, DecodeError>
    ensures { Takes (λ b. b) as_range (left cons.old) (left cons.new) result }
{
    cons.in_sequence(|contents| take_ends(contents))
}

/// A block of AS numbers: one number, or a range of two at least.
pub fn take_block(cons: &mut Constructed<'_>) -> Result<Block, DecodeError>
    ensures { Takes (λ b. b) as_block (left cons.old) (left cons.new) result }
{
    if cons.has_tag(Tag::SEQUENCE) {
        return take_range(cons);
    }
    let number = u128::from(take_as_number(cons)?);
    Ok(Block {
        low: number,
        high: number,
    })
}
