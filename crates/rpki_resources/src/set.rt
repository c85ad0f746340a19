//! The numbers of blocks in any order.

ghost use Rattle.std.specs.Prelude.{◌≢◌, [], ◌∷◌, IfOk, IfErr};
ghost use Rattle.rpki_resources.specs.Blocks.{AreNumbersOf};

use crate::block::Block;
use crate::union::united;
use std::alloc::{AllocError, Global};

/// The numbers of one block, in canonical form.
///
/// Returns `AllocError` if allocation fails.
fn numbers_of_one(alloc: Global, block: Block) -> Result<Vec<Block>, AllocError>
    ensures { IfOk result (λ v. AreNumbersOf (block ∷ []) v.items) }
{
    let mut found = Vec::new(alloc);
    if block.low <= block.high {
        found.push(block)?;
    }
    Ok(found)
}

/// The numbers of the blocks, in canonical form: those of each half, together. It takes n log n steps.
///
/// Returns `AllocError` if allocation fails, only where there is a block.
pub fn numbers_of(alloc: Global, blocks: &[Block]) -> Result<Vec<Block>, AllocError>
    ensures numbers { IfOk result (λ v. AreNumbersOf blocks.now v.items) }
    ensures memory { IfErr result (λ _. blocks.now ≢ []) }
{
    match blocks {
        [] => Ok(Vec::new(alloc)),
        [block] => numbers_of_one(alloc, *block),
        _ => {
            let (front, back) = blocks.split_at(blocks.len() / 2);
            let first = numbers_of(alloc, front)?;
            let second = numbers_of(alloc, back)?;
            united(alloc, first.as_slice(), second.as_slice())
        }
    }
}
