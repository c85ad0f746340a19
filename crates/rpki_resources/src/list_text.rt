//! Texts of lists of blocks: `10.0.0.0/8, 192.0.2.0-192.0.2.9`, `AS1, AS3-AS5`, `inherit`.

ghost use Rattle.std.specs.Prelude.{◌≡◌, ◌↔◌, Some, IsTrue, IfSome, IfNone};
ghost use Rattle.std.specs.Fmt.{DisplaysOnOk};
ghost use Rattle.rpki_resources.specs.Encoded.{AreBlocksOf};
ghost use Rattle.rpki_resources.specs.ListText.{blocks_text, choice_text, IsChoiceOfKind};

use crate::as_text::AsBlock;
use crate::block::Block;
use crate::blocks::Blocks;
use crate::choice::ResourcesChoice;
use crate::encode::are_blocks_of;
use crate::ip_text::IpBlock;
use crate::kind::ResourceKind;
use std::fmt;
use std::fmt::Display;
use std::marker::Model;

/// A block as numbers of the kind.
#[derive(Clone, Copy)]
struct BlockText {
    kind: ResourceKind,
    block: Block,
}

impl Display for BlockText {
    ghost use Rattle.std.specs.Prelude.{Some};
    ghost use Rattle.rpki_resources.specs.ListText.{block_text};

    ghost output = { λ t. Some (block_text t.kind t.block) };

    fn fmt<W: fmt::Write>(&self, f: &mut fmt::Formatter<W>) -> fmt::Result {
        match self.kind {
            ResourceKind::Addresses(family) => match IpBlock::of(family, self.block) {
                Some(block) => Display::fmt(&block, f),
                None => Err(fmt::Error),
            },
            ResourceKind::AsNumbers => match AsBlock::of(self.block) {
                Some(block) => Display::fmt(&block, f),
                None => Err(fmt::Error),
            },
        }
    }
}

/// Writes the blocks in order, with a comma and a space between two of them.
fn write_blocks<W: fmt::Write>(
    f: &mut fmt::Formatter<W>,
    kind: ResourceKind,
    blocks: &[Block],
) -> fmt::Result
    ensures { DisplaysOnOk W.Write.write_str_gives f.old result (Some (blocks_text kind blocks.now)) f.new }
{
    if let [first, rest @ ..] = blocks {
        f.write(BlockText {
            kind,
            block: *first,
        })?;
        'each: for block in rest {
            let block = BlockText {
                kind,
                block: *block,
            };
            write!(f, ", {block}")?;
        }
    }
    Ok(())
}

/// A set as numbers of a kind, made by [Blocks::text]. Its text is that of the blocks in order, with a comma and a
/// space between two of them: `AS1, AS3-AS5`.
#[derive(Drop)]
pub struct BlocksText<'a> {
    kind: ResourceKind,
    blocks: &'a [Block],
}

impl<'a> Model for BlocksText<'a> {
    ghost use Rattle.std.specs.Prelude.{ℕ, List};
    ghost use Rattle.rpki_resources.specs.ListText.{blocks_text};

    ghost Value = { List ℕ };

    ghost view = { λ x. blocks_text x.kind x.blocks.now };
}

impl Display for BlocksText<'_> {
    ghost use Rattle.std.specs.Prelude.{Some};

    ghost output = { λ text. Some text };

    fn fmt<W: fmt::Write>(&self, f: &mut fmt::Formatter<W>) -> fmt::Result {
        write_blocks(f, self.kind, self.blocks)
    }
}

/// What is said of resources of one kind, as a text, made by [ResourcesChoice::text]: nothing, `inherit`, or the
/// blocks.
#[derive(Drop)]
pub struct ChoiceText<'a> {
    kind: ResourceKind,
    choice: &'a ResourcesChoice,
}

impl<'a> Model for ChoiceText<'a> {
    ghost use Rattle.std.specs.Prelude.{ℕ, List};
    ghost use Rattle.rpki_resources.specs.ListText.{choice_text};

    ghost Value = { List ℕ };

    ghost view = { λ x. choice_text x.kind x.choice.now };
}

impl Display for ChoiceText<'_> {
    ghost use Rattle.std.specs.Prelude.{Some};

    ghost output = { λ text. Some text };

    fn fmt<W: fmt::Write>(&self, f: &mut fmt::Formatter<W>) -> fmt::Result {
        match self.choice {
            ResourcesChoice::Missing => Ok(()),
            ResourcesChoice::Inherit => f.write_str("inherit"),
            ResourcesChoice::Blocks(blocks) => f.write(BlocksText {
                kind: self.kind,
                blocks: blocks.as_slice(),
            }),
        }
    }
}

impl Blocks {
    /// The set as a text of numbers of the kind, which `Display` writes: its blocks in order, with a comma and a space
    /// between two of them, as `AS1, AS3-AS5` or `10.0.0.0/8, 192.0.2.0-192.0.2.9`. The empty set has an empty text.
    /// Allocates nothing.
    ///
    /// Returns None where a number of the set is none of the kind.
    pub fn text(&self, kind: ResourceKind) -> Option<BlocksText<'_>>
        ensures some { IfSome result (λ text. (text ≡ blocks_text kind self.now) × AreBlocksOf kind self.now) }
        ensures none { IfNone result (AreBlocksOf kind self.now → ⊥) }
    {
        if !are_blocks_of(kind, self.as_slice()) {
            return None;
        }
        Some(BlocksText {
            kind,
            blocks: self.as_slice(),
        })
    }
}

/// Whether the blocks, where there are any, have numbers of the kind.
fn is_of_kind(kind: ResourceKind, choice: &ResourcesChoice) -> bool
    ensures { IsTrue result ↔ IsChoiceOfKind kind choice.now }
{
    match choice {
        ResourcesChoice::Blocks(blocks) => are_blocks_of(kind, blocks.as_slice()),
        _ => true,
    }
}

impl ResourcesChoice {
    /// The resources as a text, which `Display` writes: `inherit` for those of the issuer, blocks as [Blocks::text],
    /// and an empty text where the kind isn't named. Allocates nothing.
    ///
    /// Returns None where blocks are listed of which a number is none of the kind.
    pub fn text(&self, kind: ResourceKind) -> Option<ChoiceText<'_>>
        ensures some { IfSome result (λ text. (text ≡ choice_text kind self.now) × IsChoiceOfKind kind self.now) }
        ensures none { IfNone result (IsChoiceOfKind kind self.now → ⊥) }
    {
        if !is_of_kind(kind, self) {
            return None;
        }
        Some(ChoiceText { kind, choice: self })
    }
}
