//! Blocks of AS numbers.

ghost use Rattle.std.specs.Prelude.{◌≡◌, ◌≤◌, ◌<◌, ◌+◌, ◌^◌, List, map, length};
ghost use Rattle.rpki_resources.specs.declared.block.Block.{Block};
ghost use Rattle.rpki_resources.specs.declared.kind.ResourceKind.TheVariants.{AsNumbers};
ghost use Rattle.rpki_resources.specs.InPlace.{Holds};
ghost use Rattle.rpki_resources.specs.Encoded.{IsBlockOf, AreBlocksOf};
ghost use Rattle.rpki_c.specs.Resources.{as_entry, IsAsFilled, IsFilledAt};

use crate::resources::{count_of, read_as};
use crate::status::TOO_SMALL;
use rpki_resources::{Block, BlocksView, ChoiceView};

/// A block of AS numbers, or that the AS numbers are those of the issuer.
#[repr(C)]
#[derive(Clone, Copy)]
pub struct AsEntry {
    /// The lowest number.
    pub low: u32,
    /// The highest number.
    pub high: u32,
    /// Whether the AS numbers are those of the issuer; then both numbers are 0.
    pub is_inherited: bool,
}

/// How a block is passed.
pub(crate) fn entry_of(block: Block) -> AsEntry
    requires { IsBlockOf AsNumbers block }
    ensures { result ≡ as_entry block }
{
    AsEntry {
        low: block.low as u32,
        high: block.high as u32,
        is_inherited: false,
    }
}

/// Writes how blocks are passed to the front of the array.
fn write_listed(listed: &BlocksView<'_>, entries: &mut [AsEntry])
    requires room { listed.now.count ≤ length entries.old }
    requires fit { (bs : List Block) → Holds listed.now bs → AreBlocksOf AsNumbers bs }
    ensures { (bs : List Block) → Holds listed.now bs → IsFilledAt 0 (map as_entry bs) entries.old entries.new }
{
    let mut rest = listed.blocks();
    let mut number = 0;
    'each: while let Some(block) = rest.next_block() {
        entries[number] = entry_of(block);
        number += 1;
    }
}

/// Reads the contents of the extension of AS identifiers (RFC 3779 3.2.3, RFC 6487 4.8.11), and writes an entry for
/// each block, in order. Where the AS numbers are those of the issuer there is one entry, which says so.
///
/// The status is 0, and `count` says how many entries were written; the rest of the array is unchanged. It is
/// `TOO_SMALL` where the array has no room for all of them: `count` says how many there are, and no entry is written.
/// Else it is the number of the error, the leftmost, and neither is written. Nothing is allocated.
#[unsafe(no_mangle)]
pub extern "C" fn rpki_as_blocks(octets: &[u8], entries: &mut [AsEntry], count: &mut usize) -> u8
    ensures { IsAsFilled octets.now result entries.old entries.new count.old count.new }
{
    let found = match read_as(octets) {
        Ok(found) => found,
        Err(e) => return e.number(),
    };
    let all = count_of(&found);
    *count = all;
    if entries.len() < all {
        return TOO_SMALL;
    }
    match found {
        ChoiceView::Missing => {}
        ChoiceView::Inherit => {
            entries[0] = AsEntry {
                low: 0,
                high: 0,
                is_inherited: true,
            };
        }
        ChoiceView::Blocks(listed) => write_listed(&listed, entries),
    }
    0
}
