//! The canonical form of lists of blocks (RFC 3779 2.2.3.6, 3.2.3.4).

ghost use Rattle.std.specs.Prelude.{◌<◌, ◌↔◌, suc, IsTrue};
ghost use Rattle.rpki_resources.specs.Blocks.{IsPast, AreCanonical};

use crate::block::Block;

/// Whether the block begins past this number and the one after it.
pub fn begins_past(high: u128, block: Block) -> bool
    ensures { IsTrue result ↔ (suc high < block.low) }
{
    block.low > high && block.low - high > 1
}

/// Whether the blocks begin past this number and the one after it.
fn is_past(high: u128, blocks: &[Block]) -> bool
    ensures { IsTrue result ↔ IsPast high blocks.now }
{
    match blocks.first() {
        Some(first) => begins_past(high, *first),
        None => true,
    }
}

/// Whether the blocks are in canonical form: none is empty, and each begins above the one before it, with a number
/// between them at least.
pub fn are_canonical(blocks: &[Block]) -> bool
    ensures { IsTrue result ↔ AreCanonical blocks.now }
{
    let mut rest = blocks;
    'each: while let Some((first, following)) = rest.split_first() {
        if first.low > first.high {
            return false;
        }
        if !is_past(first.high, following) {
            return false;
        }
        rest = following;
    }
    true
}
