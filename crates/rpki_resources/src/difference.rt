//! The numbers of one list of blocks that another lacks, by one merge.

ghost use Rattle.std.specs.Prelude.{◌≢◌, List, [], IfOk, IfErr};
ghost use Rattle.rpki_resources.specs.declared.block.Block.{Block};
ghost use Rattle.rpki_resources.specs.Blocks.{AreCanonical, IsGap, AreLacking};

use crate::block::Block;
use crate::merge::push_some;
use std::alloc::{AllocError, Global};

/// The numbers of the block from this one on that are below the first of the others.
fn gap(block: Block, from: u128, others: &[Block]) -> Option<Block>
    ensures { IsGap block from others.now result }
{
    let low = if block.low < from { from } else { block.low };
    match others.first() {
        Some(first) => {
            if first.low <= low {
                return None;
            }
            let below = first.low - 1;
            let high = if block.high < below {
                block.high
            } else {
                below
            };
            if high < low {
                return None;
            }
            Some(Block { low, high })
        }
        None => {
            if block.high < low {
                return None;
            }
            Some(Block {
                low,
                high: block.high,
            })
        }
    }
}

/// The numbers of the one list that the other lacks, in canonical form; both are in canonical form. It goes over both
/// once.
///
/// Returns `AllocError` if allocation fails, only where there is such a number.
pub fn lacking(alloc: Global, one: &[Block], other: &[Block]) -> Result<Vec<Block>, AllocError>
    requires one { AreCanonical one.now }
    requires other { AreCanonical other.now }
    ensures lacking { IfOk result (λ v. AreLacking one.now other.now v.items) }
    ensures memory { IfErr result (λ _. (v : List Block) → AreLacking one.now other.now v → v ≢ []) }
{
    let mut found = Vec::new(alloc);
    let mut xs = one;
    let mut ys = other;
    let mut from = 0;
    'pairs: while let Some((x, later)) = xs.split_first() {
        push_some(&mut found, gap(*x, from, ys))?;
        match ys.split_first() {
            Some((y, others)) => {
                if y.high < x.high {
                    from = y.high + 1;
                    ys = others;
                } else {
                    xs = later;
                }
            }
            None => xs = later,
        }
    }
    Ok(found)
}
