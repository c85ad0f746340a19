//! Blocks of addresses.

ghost use Rattle.std.specs.Prelude.{◌≡◌, ◌≤◌, ◌+◌, List, map, length};
ghost use Rattle.rpki_resources.specs.declared.block.Block.{Block};
ghost use Rattle.rpki_resources.specs.declared.choice.ResourcesChoice.{ResourcesChoice};
ghost use Rattle.rpki_resources.specs.InPlace.{Holds};
ghost use Rattle.rpki_resources.specs.Kept.{IsChoiceOf};
ghost use Rattle.rpki_c.specs.Resources.{family_number, address_octets, ip_entry, inherited_ip, family_entries};
ghost use Rattle.rpki_c.specs.Resources.{IsIpFilled, view_count, IsFilledAt};

use crate::resources::{count_of, read_ip};
use crate::status::TOO_SMALL;
use rpki_resources::{AddressFamily, Block, BlocksView, ChoiceView};

/// A block of addresses, or that the addresses of a family are those of the issuer.
#[repr(C)]
#[derive(Clone, Copy)]
pub struct IpEntry {
    /// The lowest address, the most significant octet first; after the four octets of IP version 4 are zeros.
    pub low: [u8; 16],
    /// The highest address, likewise.
    pub high: [u8; 16],
    /// The version of IP: 4 or 6.
    pub family: u8,
    /// Whether the addresses of the family are those of the issuer; then both addresses are zeros.
    pub is_inherited: bool,
}

/// How a family is passed.
pub(crate) fn family_number(family: AddressFamily) -> u8
    ensures { result ≡ family_number family }
{
    match family {
        AddressFamily::Ipv4 => 4,
        AddressFamily::Ipv6 => 6,
    }
}

/// The octets of an address.
pub(crate) fn octets_of(family: AddressFamily, number: u128) -> [u8; 16]
    ensures { result ≡ address_octets family number }
{
    let octets = number.to_be_bytes();
    match family {
        AddressFamily::Ipv4 => {
            let [.., a, b, c, d] = octets;
            [a, b, c, d, 0, 0, 0, 0, 0, 0, 0, 0, 0, 0, 0, 0]
        }
        AddressFamily::Ipv6 => octets,
    }
}

/// How a block is passed.
pub(crate) fn entry_of(family: AddressFamily, block: Block) -> IpEntry
    ensures { result ≡ ip_entry family block }
{
    IpEntry {
        low: octets_of(family, block.low),
        high: octets_of(family, block.high),
        family: family_number(family),
        is_inherited: false,
    }
}

/// How it is passed that the addresses of a family are those of the issuer.
fn inherited(family: AddressFamily) -> IpEntry
    ensures { result ≡ inherited_ip family }
{
    IpEntry {
        low: [0; 16],
        high: [0; 16],
        family: family_number(family),
        is_inherited: true,
    }
}

/// Writes how blocks are passed to the array, from this place on.
fn write_listed(
    family: AddressFamily,
    listed: &BlocksView<'_>,
    entries: &mut [IpEntry],
    from: usize,
)
    requires { from + listed.now.count ≤ length entries.old }
    ensures { (bs : List Block) → Holds listed.now bs
        → IsFilledAt from (map (ip_entry family) bs) entries.old entries.new }
{
    let mut rest = listed.blocks();
    let mut number = from;
    'each: while let Some(block) = rest.next_block() {
        entries[number] = entry_of(family, block);
        number += 1;
    }
}

/// Writes how the addresses of a family are passed to the array, from this place on.
fn write_family(
    family: AddressFamily,
    choice: &ChoiceView<'_>,
    entries: &mut [IpEntry],
    from: usize,
)
    requires { from + view_count choice.now ≤ length entries.old }
    ensures { (v : ResourcesChoice) → IsChoiceOf v choice.now
        → IsFilledAt from (family_entries family v) entries.old entries.new }
{
    match choice {
        ChoiceView::Missing => {}
        ChoiceView::Inherit => entries[from] = inherited(family),
        ChoiceView::Blocks(listed) => write_listed(family, listed, entries, from),
    }
}

/// Reads the contents of the extension of IP address blocks (RFC 3779 2.2.3, RFC 6487 4.8.10), and writes an entry for
/// each block: those of IP version 4 first, in order. A family whose addresses are those of the issuer has one entry
/// that says so.
///
/// The status is 0, and `count` says how many entries were written; the rest of the array is unchanged. It is
/// `TOO_SMALL` where the array has no room for all of them: `count` says how many there are, and no entry is written.
/// Else it is the number of the error, the leftmost, and neither is written. Nothing is allocated.
#[unsafe(no_mangle)]
pub extern "C" fn rpki_ip_blocks(octets: &[u8], entries: &mut [IpEntry], count: &mut usize) -> u8
    ensures { IsIpFilled octets.now result entries.old entries.new count.old count.new }
{
    let found = match read_ip(octets) {
        Ok(found) => found,
        Err(e) => return e.number(),
    };
    let first = count_of(&found.v4);
    let all = first + count_of(&found.v6);
    *count = all;
    if entries.len() < all {
        return TOO_SMALL;
    }
    write_family(AddressFamily::Ipv4, &found.v4, entries, 0);
    write_family(AddressFamily::Ipv6, &found.v6, entries, first);
    0
}
