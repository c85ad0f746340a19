//! Blocks in place: octets that were validated once, and a cursor over their blocks.

ghost use Rattle.std.specs.Prelude.{◌≡◌, ◌<◌, List, length, IfSome};
ghost use Rattle.rpki_der.specs.Prelude.{left, TakesAll};
ghost use Rattle.rpki_resources.specs.declared.block.Block.{Block};
ghost use Rattle.rpki_resources.specs.InPlace.{Counts, Holds, blocks, IsLeft, Gives};

use crate::block::Block;
use crate::block_list::take_next;
use crate::kind::ResourceKind;
use rpki_der::{Constructed, DecodeError};
use std::marker::Model;

/// Blocks of one kind, in place: octets that were validated, and how many blocks they are. It takes no memory.
#[derive(Drop)]
pub struct BlocksView<'a> {
    kind: ResourceKind,
    octets: &'a [u8],
    count: usize,
}

impl<'a> Model for BlocksView<'a> {
    ghost use Rattle.std.specs.Prelude.{List};
    ghost use Rattle.rpki_resources.specs.declared.block.Block.{Block};
    ghost use Rattle.rpki_resources.specs.InPlace.{Octets, Holds, octets_of};

    ghost Value = { Octets };

    ghost view = { λ x. octets_of x.kind x.octets.now x.count };

    ghost invariant = { λ x. (bs : List Block) × Holds (octets_of x.kind x.octets.now x.count) bs };
}

/// The blocks that a [BlocksView] has yet to give, in order.
#[derive(Drop)]
pub struct BlockCursor<'a> {
    kind: ResourceKind,
    last: Option<u128>,
    rest: Constructed<'a>,
}

impl<'a> Model for BlockCursor<'a> {
    ghost use Rattle.std.specs.Prelude.{List};
    ghost use Rattle.rpki_der.specs.Cursor.{left};
    ghost use Rattle.rpki_resources.specs.declared.block.Block.{Block};
    ghost use Rattle.rpki_resources.specs.InPlace.{Rest, IsLeft, rest_of};

    ghost Value = { Rest };

    ghost view = { λ x. rest_of x.kind x.last (left x.rest) };

    ghost invariant = { λ x. (bs : List Block) × IsLeft (rest_of x.kind x.last (left x.rest)) bs };
}

/// How many blocks of the kind the octets are, in canonical form.
fn count_blocks(octets: &[u8], kind: ResourceKind) -> Result<usize, DecodeError>
    ensures { Counts kind octets.now result }
{
    let mut rest = Constructed::from_slice(octets);
    if rest.is_empty() {
        return Err(DecodeError::content("no blocks"));
    }
    let mut last = None;
    let mut count = 0;
    'each: while !rest.is_empty() {
        let block = take_next(&mut rest, kind, last)?;
        last = Some(block.high);
        count += 1;
    }
    Ok(count)
}

impl<'a> BlocksView<'a> {
    /// The blocks of the kind that are the whole rest, in canonical form, one at least. It takes no memory.
    ///
    /// The error is that of the leftmost block that isn't there; `Content` for a block that isn't in canonical form, or
    /// where there is none.
    pub fn take_contents(
        contents: &mut Constructed<'a>,
        kind: ResourceKind,
    ) -> Result<BlocksView<'a>, DecodeError>
        ensures { TakesAll (λ x. x) (blocks kind) (left contents.old) (left contents.new) result }
    {
        let octets = contents.rest();
        let count = count_blocks(octets, kind)?;
        *contents = Constructed::from_slice(&[]);
        Ok(BlocksView {
            kind,
            octets,
            count,
        })
    }

    /// What the numbers of the blocks are.
    pub fn kind(&self) -> ResourceKind
        ensures { result ≡ self.now.kind }
    {
        self.kind
    }

    /// How many blocks there are.
    pub fn count(&self) -> usize
        ensures { result ≡ self.now.count }
    {
        self.count
    }

    /// The octets of the blocks: the contents of their SEQUENCE.
    pub fn octets(&self) -> &'a [u8]
        ensures { result.now ≡ self.now.octets }
    {
        self.octets
    }

    /// A cursor over the blocks, in order.
    pub fn blocks(&self) -> BlockCursor<'a>
        ensures blocks { (bs : List Block) → Holds self.now bs → IsLeft result bs }
        ensures held { (bs : List Block) × Holds self.now bs }
    {
        BlockCursor {
            kind: self.kind,
            last: None,
            rest: Constructed::from_slice(self.octets),
        }
    }
}

impl<'a> BlockCursor<'a> {
    /// The next block; None where none remains.
    pub fn next_block(&mut self) -> Option<Block>
        ensures given { (bs : List Block) → IsLeft self.old bs → Gives bs result self.new }
        ensures shorter { IfSome result (λ _. length self.new.octets < length self.old.octets) }
    {
        if self.rest.is_empty() {
            return None;
        }
        match take_next(&mut self.rest, self.kind, self.last) {
            Ok(block) => {
                self.last = Some(block.high);
                Some(block)
            }
            Err(_) => None,
        }
    }
}
