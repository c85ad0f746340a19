//! Texts of AS numbers and of blocks of them: `AS64496`, `AS1-AS5`.

ghost use Rattle.std.specs.Prelude.{IfSome, IfNone};
ghost use Rattle.rpki_resources.specs.declared.as_text.AsBlock.{AsBlock};
ghost use Rattle.rpki_resources.specs.Text.{IsAsBlockOf};

use crate::block::Block;
use std::fmt;
use std::fmt::Display;

/// An AS number (RFC 6793). Its text is `AS64496`.
#[derive(Clone, Copy, Debug, PartialEq, Eq)]
pub struct Asn(pub u32);

impl Display for Asn {
    ghost use Rattle.std.specs.Prelude.{Some};
    ghost use Rattle.rpki_resources.specs.Text.{as_number_text};

    ghost output = { λ a. Some (as_number_text a.0) };

    fn fmt<W: fmt::Write>(&self, f: &mut fmt::Formatter<W>) -> fmt::Result {
        write!(f, "AS{}", self.0)
    }
}

/// The AS numbers from one to another. Its text is `AS1-AS5`.
#[derive(Clone, Copy, Debug, PartialEq, Eq)]
pub struct AsRange {
    /// The lowest number.
    pub min: Asn,
    /// The highest number.
    pub max: Asn,
}

impl Display for AsRange {
    ghost use Rattle.std.specs.Prelude.{Some};
    ghost use Rattle.rpki_resources.specs.Text.{range_text, as_number_text};

    ghost output = { λ r. Some (range_text (as_number_text r.min.0) (as_number_text r.max.0)) };

    fn fmt<W: fmt::Write>(&self, f: &mut fmt::Formatter<W>) -> fmt::Result {
        write!(f, "{}-{}", self.min, self.max)
    }
}

/// A block of AS numbers: one number, or a range of two at least.
#[derive(Clone, Copy, Debug, PartialEq, Eq)]
pub enum AsBlock {
    /// One number.
    Id(Asn),
    /// A range.
    Range(AsRange),
}

impl AsBlock {
    /// The block of these numbers: one number where they are one, else a range.
    ///
    /// Returns None where the block is empty, or has a number of 2^32 or more.
    pub fn of(block: Block) -> Option<AsBlock>
        ensures some { IfSome result (λ b. IsAsBlockOf b block) }
        ensures none { IfNone result ((b : AsBlock) → IsAsBlockOf b block → ⊥) }
    {
        if block.high > 4294967295 || block.low > block.high {
            return None;
        }
        let min = Asn(block.low as u32);
        if block.low == block.high {
            return Some(AsBlock::Id(min));
        }
        Some(AsBlock::Range(AsRange {
            min,
            max: Asn(block.high as u32),
        }))
    }
}

impl Display for AsBlock {
    ghost use Rattle.std.specs.Prelude.{Some};
    ghost use Rattle.rpki_resources.specs.Text.{as_block_text};

    ghost output = { λ b. Some (as_block_text b) };

    fn fmt<W: fmt::Write>(&self, f: &mut fmt::Formatter<W>) -> fmt::Result {
        match self {
            AsBlock::Id(number) => Display::fmt(number, f),
            AsBlock::Range(range) => Display::fmt(range, f),
        }
    }
}
