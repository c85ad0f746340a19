//! The numbers of two lists of blocks together, by one merge.

ghost use Rattle.std.specs.Prelude.{◌≡◌, ◌≢◌, List, [], IfOk, IfErr, IfSome, IfNone};
ghost use Rattle.rpki_resources.specs.declared.block.Block.{Block};
ghost use Rattle.rpki_resources.specs.Blocks.{AreCanonical, AreUnited};
ghost use Rattle.rpki_resources.specs.Union.{IsNext, MayGrow, IsGrown};

use crate::block::Block;
use crate::canonical::begins_past;
use crate::merge::push_some;
use std::alloc::{AllocError, Global};

/// A block, and the rest of two lists without it.
#[derive(Drop)]
struct Next<'a> {
    block: Block,
    xs: &'a [Block],
    ys: &'a [Block],
}

/// The block that begins first in two lists; None where both are empty.
fn take_first<'a>(xs: &'a [Block], ys: &'a [Block]) -> Option<Next<'a>>
    ensures some { IfSome result (λ n. IsNext xs.now ys.now n.block n.xs.now n.ys.now) }
    ensures none { IfNone result ((xs.now ≡ []) × (ys.now ≡ [])) }
{
    match xs.split_first() {
        Some((x, later)) => match ys.split_first() {
            Some((y, others)) => {
                if y.low < x.low {
                    return Some(Next {
                        block: *y,
                        xs,
                        ys: others,
                    });
                }
                Some(Next {
                    block: *x,
                    xs: later,
                    ys,
                })
            }
            None => Some(Next {
                block: *x,
                xs: later,
                ys,
            }),
        },
        None => match ys.split_first() {
            Some((y, others)) => Some(Next {
                block: *y,
                xs,
                ys: others,
            }),
            None => None,
        },
    }
}

/// A block that can't grow any more, where there is one, and one that can.
#[derive(Drop)]
struct Grown {
    closed: Option<Block>,
    last: Block,
}

/// The numbers of a block and of one that doesn't begin before it.
fn grow(before: Block, block: Block) -> Grown
    requires { MayGrow before block }
    ensures { IsGrown before block result.closed result.last }
{
    if begins_past(before.high, block) {
        return Grown {
            closed: Some(before),
            last: block,
        };
    }
    let high = if before.high < block.high {
        block.high
    } else {
        before.high
    };
    Grown {
        closed: None,
        last: Block {
            low: before.low,
            high,
        },
    }
}

/// The numbers of two lists in canonical form together, in canonical form. It goes over both once.
///
/// Returns `AllocError` if allocation fails, only where there is such a number.
pub fn united(alloc: Global, one: &[Block], other: &[Block]) -> Result<Vec<Block>, AllocError>
    requires one { AreCanonical one.now }
    requires other { AreCanonical other.now }
    ensures united { IfOk result (λ v. AreUnited one.now other.now v.items) }
    ensures memory { IfErr result (λ _. (v : List Block) → AreUnited one.now other.now v → v ≢ []) }
{
    let mut found = Vec::new(alloc);
    let Some(first) = take_first(one, other) else {
        return Ok(found);
    };
    let mut last = first.block;
    let mut xs = first.xs;
    let mut ys = first.ys;
    'pairs: while let Some(following) = take_first(xs, ys) {
        let grown = grow(last, following.block);
        push_some(&mut found, grown.closed)?;
        last = grown.last;
        xs = following.xs;
        ys = following.ys;
    }
    found.push(last)?;
    Ok(found)
}
