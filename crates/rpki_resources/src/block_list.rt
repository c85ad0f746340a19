//! Blocks in canonical form, in sequence (RFC 3779 2.2.3.5, 2.2.3.6, 3.2.3.3, 3.2.3.4).

ghost use Rattle.std.specs.Prelude.{◌↔◌, IsTrue};
ghost use Rattle.rpki_der.specs.Prelude.{left, Takes};
ghost use Rattle.rpki_resources.specs.Listed.{block_of, Follows, next_block};

use crate::block::Block;
use crate::canonical::begins_past;
use crate::kind::ResourceKind;
use crate::{as_number, prefix};
use rpki_der::{Constructed, DecodeError};

/// A block of the kind.
fn take_block(cons: &mut Constructed<'_>, kind: ResourceKind) -> Result<Block, DecodeError>
    ensures { Takes (λ b. b) (block_of kind) (left cons.old) (left cons.new) result }
{
    match kind {
        ResourceKind::Addresses(family) => prefix::take_block(cons, family),
        ResourceKind::AsNumbers => as_number::take_block(cons),
    }
}

/// Whether the block begins past this number, with a number between them; where there is none, it may begin anywhere.
fn follows(last: Option<u128>, block: Block) -> bool
    ensures { IsTrue result ↔ Follows last block }
{
    match last {
        Some(high) => begins_past(high, block),
        None => true,
    }
}

/// A block of the kind that may follow one whose highest number is this.
pub fn take_next(
    cons: &mut Constructed<'_>,
    kind: ResourceKind,
    last: Option<u128>,
) -> Result<Block, DecodeError>
    ensures { Takes (λ b. b) (next_block kind last) (left cons.old) (left cons.new) result }
{
    let mut after = *cons;
    let block = take_block(&mut after, kind)?;
    if !follows(last, block) {
        return Err(DecodeError::content("blocks that are not in canonical form"));
    }
    *cons = after;
    Ok(block)
}
