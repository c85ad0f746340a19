//! The numbers that two lists of blocks share, by one merge.

ghost use Rattle.std.specs.Prelude.{◌≡◌, ◌≢◌, ◌++◌, [], None, IfOk, IfErr};
ghost use Rattle.std.specs.Prelude.{List};
ghost use Rattle.rpki_resources.specs.declared.block.Block.{Block};
ghost use Rattle.rpki_resources.specs.Blocks.{AreCanonical, IsOverlap, blocks_of, AreShared};

use crate::block::Block;
use std::alloc::{AllocError, Global};

/// The numbers that two blocks share.
fn overlap(one: Block, other: Block) -> Option<Block>
    ensures { IsOverlap one other result }
{
    let low = if one.low < other.low {
        other.low
    } else {
        one.low
    };
    let high = if one.high < other.high {
        one.high
    } else {
        other.high
    };
    if high < low {
        return None;
    }
    Some(Block { low, high })
}

/// Appends the block, where there is one.
pub fn push_some(blocks: &mut Vec<Block>, block: Option<Block>) -> Result<(), AllocError>
    ensures pushed { IfOk result (λ _. blocks.new.items ≡ blocks.old.items ++ blocks_of block) }
    ensures memory { IfErr result (λ _. block ≢ None) }
{
    match block {
        Some(block) => {
            blocks.push(block)?;
            Ok(())
        }
        None => Ok(()),
    }
}

/// The numbers that two lists in canonical form share, in canonical form. It goes over both once.
///
/// Returns `AllocError` if allocation fails, only where there is such a number.
pub fn shared(alloc: Global, one: &[Block], other: &[Block]) -> Result<Vec<Block>, AllocError>
    requires one { AreCanonical one.now }
    requires other { AreCanonical other.now }
    ensures shared { IfOk result (λ v. AreShared one.now other.now v.items) }
    ensures memory { IfErr result (λ _. (v : List Block) → AreShared one.now other.now v → v ≢ []) }
{
    let mut found = Vec::new(alloc);
    let mut xs = one;
    let mut ys = other;
    'pairs: while let Some((x, later)) = xs.split_first() {
        match ys.split_first() {
            Some((y, others)) => {
                push_some(&mut found, overlap(*x, *y))?;
                if x.high < y.high {
                    xs = later;
                } else {
                    ys = others;
                }
            }
            None => return Ok(found),
        }
    }
    Ok(found)
}
