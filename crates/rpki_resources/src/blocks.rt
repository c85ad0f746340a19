//! Sets of numbers.

ghost use Rattle.std.specs.Prelude.{◌≡◌, ◌≢◌, ◌≤◌, ◌↔◌, ℕ, List, [], ◌∷◌, length, IsTrue, IfSome};
ghost use Rattle.std.specs.Prelude.{IfNone, IfOk, IfErr};
ghost use Rattle.rpki_resources.specs.declared.block.Block.{Block};
ghost use Rattle.rpki_resources.specs.Blocks.{IsAmong, IsSubset, AreCanonical, AreNumbersOf, AreShared, AreUnited};
ghost use Rattle.rpki_resources.specs.Blocks.{AreLacking};
ghost use Rattle.rpki_resources.specs.InPlace.{HoldsOnly};

use crate::block::Block;
use crate::canonical::are_canonical;
use crate::difference::lacking;
use crate::merge::shared;
use crate::set::numbers_of;
use crate::union::united;
use crate::view::BlocksView;
use std::alloc::{AllocError, Global};
use std::cmp::Ordering;
use std::marker::Model;
use std::sync::Arc;

/// The blocks of a set: its own, or those that it shares with its copies.
#[derive(Debug, Drop)]
enum Items {
    Own(Vec<Block>),
    Shared(Arc<Vec<Block>>),
}

/// A set of numbers, as the blocks that it is made of: in canonical form, so that a set has one list.
#[derive(Debug, Drop)]
pub struct Blocks {
    items: Items,
}

impl Model for Blocks {
    ghost use Rattle.std.specs.Prelude.{List};
    ghost use Rattle.rpki_resources.specs.declared.block.Block.{Block};
    ghost use Rattle.rpki_resources.specs.Blocks.{AreCanonical};
    ghost use Rattle.rpki_resources.specs.Items.{items_of};

    ghost Value = { List Block };

    ghost view = { λ x. items_of x.items };

    ghost invariant = { λ x. AreCanonical (items_of x.items) };
}

/// A set of addresses of one family (RFC 3779 2.2.3.5).
pub type IpBlocks = Blocks;

/// A set of AS numbers (RFC 3779 3.2.3.3).
pub type AsBlocks = Blocks;

/// The blocks from the first that doesn't end below the number, of which it looks at the first, and at the logarithm of
/// their count.
fn from_number(blocks: &[Block], number: u128) -> &[Block]
    requires { AreCanonical blocks.now }
    ensures canonical { AreCanonical result.now }
    ensures few { length result.now ≤ length blocks.now }
    ensures same { (n : ℕ) → number ≤ n → IsAmong n blocks.now ↔ IsAmong n result.now }
{
    match blocks.split_first() {
        Some((first, _)) if first.high < number => {}
        _ => return blocks,
    }
    let mut rest = blocks;
    let mut few = blocks.len();
    'halves: while few > 0 {
        let half = few / 2;
        few = match rest.split_at(half).1.split_first() {
            Some((block, others)) if block.high < number => {
                rest = others;
                few - half - 1
            }
            _ => half,
        };
    }
    rest
}

/// Whether each number of some blocks is in others. It takes a step for each of the former, and another for each time
/// that the others are searched on, by halves.
fn is_part(part: &[Block], whole: &[Block]) -> bool
    requires part { AreCanonical part.now }
    requires whole { AreCanonical whole.now }
    ensures { IsTrue result ↔ IsSubset part.now whole.now }
{
    let mut inners = part;
    let mut outers = whole;
    'pairs: while let Some((inner, later)) = inners.split_first() {
        match outers.split_first() {
            Some((outer, others)) => {
                if outer.high < inner.low {
                    outers = from_number(others, inner.low);
                } else if inner.low < outer.low {
                    return false;
                } else if outer.high < inner.high {
                    return false;
                } else {
                    inners = later;
                }
            }
            None => return false,
        }
    }
    true
}

/// Whether the number is in one of the blocks.
fn is_among(number: u128, blocks: &[Block]) -> bool
    ensures { IsTrue result ↔ IsAmong number blocks.now }
{
    let mut rest = blocks;
    'each: while let Some((first, following)) = rest.split_first() {
        if first.contains(number) {
            return true;
        }
        rest = following;
    }
    false
}

impl Blocks {
    /// The set of these blocks, which copies of it share.
    ///
    /// Returns `AllocError` if allocation fails, only where there is a block.
    fn shared(alloc: Global, items: Vec<Block>) -> Result<Blocks, AllocError>
        requires { AreCanonical items.items }
        ensures same { IfOk result (λ x. x ≡ items.items) }
        ensures memory { IfErr result (λ _. items.items ≢ []) }
    {
        if items.is_empty() {
            return Ok(Blocks {
                items: Items::Own(items),
            });
        }
        match Arc::new(alloc, items) {
            Ok(items) => Ok(Blocks {
                items: Items::Shared(items),
            }),
            Err(_) => Err(AllocError),
        }
    }

    /// The same set: if the other is equal, and its copies share its blocks, so does this one. It takes no memory.
    pub(crate) fn sharing(self, other: &Blocks) -> Blocks
        ensures { result ≡ self }
    {
        if self == *other {
            if let Items::Shared(items) = &other.items {
                if let Ok(items) = Arc::try_clone(items) {
                    let items = Items::Shared(items);
                    return Blocks { items };
                }
            }
        }
        self
    }

    /// The empty set.
    pub fn empty(alloc: Global) -> Blocks
        ensures { result ≡ [] }
    {
        Blocks {
            items: Items::Own(Vec::new(alloc)),
        }
    }

    /// The set of these blocks, where they are in canonical form.
    pub fn from_canonical(items: Vec<Block>) -> Option<Blocks>
        ensures some { IfSome result (λ x. (x ≡ items.items) × AreCanonical items.items) }
        ensures none { IfNone result (AreCanonical items.items → ⊥) }
    {
        if !are_canonical(items.as_slice()) {
            return None;
        }
        Some(Blocks {
            items: Items::Own(items),
        })
    }

    /// The set of the numbers of these blocks, which may be in any order, overlap, and be empty. It takes n log n
    /// steps.
    ///
    /// Returns `AllocError` if allocation fails, only where there is a block.
    pub fn of(alloc: Global, blocks: &[Block]) -> Result<Blocks, AllocError>
        ensures numbers { IfOk result (λ x. AreNumbersOf blocks.now x) }
        ensures memory { IfErr result (λ _. blocks.now ≢ []) }
    {
        let items = Items::Own(numbers_of(alloc, blocks)?);
        Ok(Blocks { items })
    }

    /// Keeps the blocks that were read in place. They are allocated once.
    ///
    /// Returns `AllocError` if allocation fails.
    pub fn from_view(alloc: Global, view: &BlocksView<'_>) -> Result<Blocks, AllocError>
        ensures { IfOk result (λ bs. HoldsOnly view.now bs) }
    {
        let mut items = Vec::with_capacity(alloc, view.count())?;
        let mut rest = view.blocks();
        'each: while let Some(block) = rest.next_block() {
            items.push(block)?;
        }
        let set = Blocks::shared(alloc, items)?;
        Ok(set)
    }

    /// The blocks, in order.
    pub fn as_slice(&self) -> &[Block]
        ensures blocks { result.now ≡ self.now }
        ensures canonical { AreCanonical self.now }
    {
        match &self.items {
            Items::Own(items) => items.as_slice(),
            Items::Shared(items) => items.as_slice(),
        }
    }

    /// Whether the set has no number.
    pub fn is_empty(&self) -> bool
        ensures { IsTrue result ↔ (self.now ≡ []) }
    {
        self.as_slice().is_empty()
    }

    /// Whether the number is in the set.
    pub fn contains(&self, number: u128) -> bool
        ensures { IsTrue result ↔ IsAmong number self.now }
    {
        is_among(number, self.as_slice())
    }

    /// Whether each number of the other set is in this one. It goes over the blocks of the other, and searches this one
    /// by halves.
    pub fn encompasses(&self, other: &Blocks) -> bool
        ensures { IsTrue result ↔ IsSubset other.now self.now }
    {
        is_part(other.as_slice(), self.as_slice())
    }

    /// Whether each number of the block is in the set, which is searched by halves.
    pub fn contains_block(&self, block: Block) -> bool
        requires { block.low ≤ block.high }
        ensures { IsTrue result ↔ IsSubset (block ∷ []) self.now }
    {
        is_part(&[block], self.as_slice())
    }

    /// The same set. It shares the blocks, if these can be shared already; else they are copied once.
    ///
    /// Returns `AllocError` if allocation fails, only where it has a number.
    pub fn clone(&self, alloc: Global) -> Result<Blocks, AllocError>
        ensures copy { IfOk result (λ x. x ≡ self.now) }
        ensures memory { IfErr result (λ _. self.now ≢ []) }
    {
        if self.is_empty() {
            return Ok(Blocks::empty(alloc));
        }
        if let Items::Shared(items) = &self.items {
            let items = Items::Shared(Arc::try_clone(items)?);
            return Ok(Blocks { items });
        }
        let items = Vec::from_slice(alloc, self.as_slice())?;
        Blocks::shared(alloc, items)
    }

    /// The numbers that are in both sets. It goes over the blocks of both once.
    ///
    /// Returns `AllocError` if allocation fails, only where there is such a number.
    pub fn intersection(&self, alloc: Global, other: &Blocks) -> Result<Blocks, AllocError>
        ensures intersection { IfOk result (λ x. AreShared self.now other.now x) }
        ensures memory { IfErr result (λ _. (x : List Block) → AreShared self.now other.now x → x ≢ []) }
    {
        let items = shared(alloc, self.as_slice(), other.as_slice())?;
        Blocks::shared(alloc, items)
    }

    /// The numbers that are in one of the sets, or in both. It goes over the blocks of both once.
    ///
    /// Returns `AllocError` if allocation fails, only where there is such a number.
    pub fn union(&self, alloc: Global, other: &Blocks) -> Result<Blocks, AllocError>
        ensures union { IfOk result (λ x. AreUnited self.now other.now x) }
        ensures memory { IfErr result (λ _. (x : List Block) → AreUnited self.now other.now x → x ≢ []) }
    {
        let items = Items::Own(united(alloc, self.as_slice(), other.as_slice())?);
        Ok(Blocks { items })
    }

    /// The numbers of this set that aren't in the other. It goes over the blocks of both once.
    ///
    /// Returns `AllocError` if allocation fails, only where there is such a number.
    pub fn difference(&self, alloc: Global, other: &Blocks) -> Result<Blocks, AllocError>
        ensures difference { IfOk result (λ x. AreLacking self.now other.now x) }
        ensures memory { IfErr result (λ _. (x : List Block) → AreLacking self.now other.now x → x ≢ []) }
    {
        let items = Items::Own(lacking(alloc, self.as_slice(), other.as_slice())?);
        Ok(Blocks { items })
    }
}

/// Two sets are equal where they have the same numbers (`laws::equal_blocks_are_one_set`).
impl PartialEq for Blocks {
    ghost use Rattle.std.specs.Cmp.{partial_equiv_from_equiv};
    ghost use Rattle.rpki_resources.specs.Equal.{same_blocks};
    ghost use Rattle.rpki_resources.specs.EqualLaws.{same_blocks_equivalence};

    ghost eq = { same_blocks };

    ghost laws = { partial_equiv_from_equiv same_blocks_equivalence };

    fn eq(&self, other: &Blocks) -> bool {
        self.as_slice() == other.as_slice()
    }
}

impl Eq for Blocks {
    ghost use Rattle.rpki_resources.specs.EqualLaws.{same_blocks_equivalence};

    ghost laws = { same_blocks_equivalence };
}

/// Sets are in the order of their blocks, one after the other.
impl PartialOrd for Blocks {
    ghost use Rattle.std.specs.Prelude.{Some};
    ghost use Rattle.rpki_resources.specs.Equal.{blocks_cmp};
    ghost use Rattle.rpki_resources.specs.EqualLaws.{blocks_are_in_part_order};

    ghost partial_cmp = { λ x y. Some (blocks_cmp x y) };

    ghost laws = { blocks_are_in_part_order };

    fn partial_cmp(&self, other: &Blocks) -> Option<Ordering> {
        Some(self.cmp(other))
    }
}

impl Ord for Blocks {
    ghost use Rattle.std.specs.Prelude.{refl};
    ghost use Rattle.rpki_resources.specs.Equal.{blocks_cmp};
    ghost use Rattle.rpki_resources.specs.EqualLaws.{blocks_are_in_order, equal_blocks_are_level};

    ghost cmp = { blocks_cmp };

    ghost total = { blocks_are_in_order };

    ghost matches_partial_cmp = { λ x y. refl };

    ghost matches_eq = { equal_blocks_are_level };

    fn cmp(&self, other: &Blocks) -> Ordering {
        self.as_slice().cmp(other.as_slice())
    }
}
