//! Blocks of numbers.

ghost use Rattle.std.specs.Prelude.{◌↔◌, IsTrue};
ghost use Rattle.rpki_resources.specs.Blocks.{IsIn};

use std::cmp::Ordering;

/// The numbers from one to another, both among them: addresses of one family, or AS numbers.
#[derive(Clone, Copy, Debug)]
pub struct Block {
    /// The lowest number.
    pub low: u128,
    /// The highest number. A block whose lowest number is above it is empty.
    pub high: u128,
}

impl Block {
    /// Whether the number is in the block.
    pub fn contains(self, number: u128) -> bool
        ensures { IsTrue result ↔ IsIn number self }
    {
        self.low <= number && number <= self.high
    }
}

/// Two blocks are equal where their lowest and their highest numbers are.
impl PartialEq for Block {
    ghost use Rattle.std.specs.Cmp.{partial_equiv_from_equiv};
    ghost use Rattle.rpki_resources.specs.Equal.{same_block};
    ghost use Rattle.rpki_resources.specs.EqualLaws.{same_block_equivalence};

    ghost eq = { same_block };

    ghost laws = { partial_equiv_from_equiv same_block_equivalence };

    fn eq(&self, other: &Block) -> bool {
        self.low == other.low && self.high == other.high
    }
}

impl Eq for Block {
    ghost use Rattle.rpki_resources.specs.EqualLaws.{same_block_equivalence};

    ghost laws = { same_block_equivalence };
}

/// Blocks are in the order of their lowest numbers, and where these are equal, of their highest.
impl PartialOrd for Block {
    ghost use Rattle.std.specs.Prelude.{Some};
    ghost use Rattle.rpki_resources.specs.Equal.{block_cmp};
    ghost use Rattle.rpki_resources.specs.EqualLaws.{block_is_in_part_order};

    ghost partial_cmp = { λ x y. Some (block_cmp x y) };

    ghost laws = { block_is_in_part_order };

    fn partial_cmp(&self, other: &Block) -> Option<Ordering> {
        Some(self.cmp(other))
    }
}

impl Ord for Block {
    ghost use Rattle.std.specs.Prelude.{refl};
    ghost use Rattle.rpki_resources.specs.Equal.{block_cmp};
    ghost use Rattle.rpki_resources.specs.EqualLaws.{block_is_in_order, equal_block_is_level};

    ghost cmp = { block_cmp };

    ghost total = { block_is_in_order };

    ghost matches_partial_cmp = { λ x y. refl };

    ghost matches_eq = { equal_block_is_level };

    fn cmp(&self, other: &Block) -> Ordering {
        self.low.cmp(&other.low).then(self.high.cmp(&other.high))
    }
}
