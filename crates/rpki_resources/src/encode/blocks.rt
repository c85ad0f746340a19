//! Lists of blocks as the contents of a SEQUENCE (RFC 3779 2.2.3.5, 3.2.3.3).

ghost use Rattle.std.specs.Prelude.{◌≡◌, ◌≤◌, ◌<◌, ◌^◌, length, IfSome, IfNone};
ghost use Rattle.rpki_der.specs.Written.{Writes};
ghost use Rattle.rpki_der.specs.Members.{IsValueList};
ghost use Rattle.rpki_resources.specs.Encoded.{IsBlockOf, AreBlocksOf, block_octets, blocks_octets};

use super::block::encode_block;
use crate::block::Block;
use crate::kind::ResourceKind;
use rpki_der::Values;
use std::io;
use std::io::Write;
use std::marker::Model;

/// How many octets the block has as it is written.
fn block_len(kind: ResourceKind, block: Block) -> u64
    requires { IsBlockOf kind block }
    ensures { result ≡ length (block_octets kind block) }
{
    encode_block(kind, block).encoded_len()
}

/// How many octets the blocks have as they are written; None where they are 2^63 or more.
fn blocks_len(kind: ResourceKind, blocks: &[Block]) -> Option<u64>
    requires { AreBlocksOf kind blocks.now }
    ensures some { IfSome result (λ n. (n ≡ length (blocks_octets kind blocks.now)) × (n < 2 ^ 63)) }
    ensures none { IfNone result (2 ^ 63 ≤ length (blocks_octets kind blocks.now)) }
{
    let mut total: u64 = 0;
    let mut rest = blocks;
    'each: while let Some((first, following)) = rest.split_first() {
        total += block_len(kind, *first);
        if total >= 1 << 63 {
            return None;
        }
        rest = following;
    }
    Some(total)
}

/// Writes the blocks, in sequence.
fn write_blocks<W: Write>(
    out: &mut W,
    kind: ResourceKind,
    blocks: &[Block],
) -> Result<(), io::Error>
    requires { AreBlocksOf kind blocks.now }
    ensures { Writes (W.contents out.old) (W.contents out.new) result (blocks_octets kind blocks.now) }
{
    let mut rest = blocks;
    'each: while let Some((first, following)) = rest.split_first() {
        encode_block(kind, *first).write_encoded(out)?;
        rest = following;
    }
    Ok(())
}

/// An encoder for blocks of a kind, in sequence; it borrows them. It allocates nothing.
#[derive(Drop)]
pub struct BlocksEncoder<'a> {
    kind: ResourceKind,
    blocks: &'a [Block],
}

impl<'a> Model for BlocksEncoder<'a> {
    ghost use Rattle.rpki_resources.specs.Encoded.{KindBlocks, kind_blocks, AreBlocksOf};

    ghost Value = { KindBlocks };

    ghost view = { λ x. kind_blocks x.kind x.blocks.now };

    ghost invariant = { λ x. AreBlocksOf x.kind x.blocks.now };
}

impl<'a> BlocksEncoder<'a> {
    /// The encoder for these blocks. Requires that their numbers are of the kind, and that none is empty.
    pub fn new(kind: ResourceKind, blocks: &'a [Block]) -> BlocksEncoder<'a>
        requires { AreBlocksOf kind blocks.now }
        ensures octets { ⟦<BlocksEncoder<'static> as Values>⟧.encoded result ≡ blocks_octets kind blocks.now }
        ensures short { ⟦<BlocksEncoder<'static> as Values>⟧.is_short result }
    {
        BlocksEncoder { kind, blocks }
    }
}

/// The blocks, in sequence.
impl<'a> Values for BlocksEncoder<'a> {
    ghost use Rattle.std.specs.Prelude.{refl};
    ghost use Rattle.rpki_der.specs.Tree.Tree.{Captured};
    ghost use Rattle.rpki_der.specs.TreeLaws.{as_it_is};

    ghost tree = { λ x. Captured (blocks_octets x.kind x.blocks) };

    ghost encoded = { λ x. blocks_octets x.kind x.blocks };

    ghost is_short = { λ x. IsValueList (blocks_octets x.kind x.blocks) };

    ghost spelled = { λ _. refl };

    ghost measured = { λ _. as_it_is };

    ghost are_values = { λ x h. h };

    fn fits(&self) -> bool {
        match blocks_len(self.kind, self.blocks) {
            Some(_) => true,
            None => false,
        }
    }

    fn count(&self) -> u64 {
        self.blocks.len() as u64
    }

    fn encoded_len(&self) -> u64 {
        match blocks_len(self.kind, self.blocks) {
            Some(length) => length,
            None => 0,
        }
    }

    fn write_encoded<W: Write>(&self, out: &mut W) -> Result<(), io::Error> {
        write_blocks(out, self.kind, self.blocks)
    }
}
