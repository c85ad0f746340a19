//! Texts of blocks: `10.0.0.0/8`, `2001:db8::-2001:db8::5`, `AS64496`, `AS1-AS5`.

ghost use Rattle.std.specs.Prelude.{◌≡◌, ◌≤◌, ◌<◌, ◌+◌, ◌^◌, ◌++◌, IfSome, IfNone, length};
ghost use Rattle.rpki_resources.specs.declared.family.AddressFamily.{AddressFamily};
ghost use Rattle.rpki_resources.specs.Address.{width};
ghost use Rattle.rpki_resources.specs.Text.{as_number_text, ip_block_text, as_block_text};
ghost use Rattle.rpki_c.specs.Resources.{family_number, address_number, IsIpListed, IsIpText, IsIpTextStored};
ghost use Rattle.rpki_c.specs.Resources.{IsAsTextStored};

use crate::address_texts::{push_address, push_number};
use crate::as_blocks::AsEntry;
use crate::ip_blocks::IpEntry;
use crate::short_text::Line;
use crate::status::CONTENT;
use crate::stored::store;
use rpki_resources::{AddressFamily, AsBlock, Asn, Block, IpBlock};

/// What is written where resources are those of the issuer.
const INHERIT: &[u8; 7] = b"inherit";

/// The family that a number names.
pub(crate) fn family_of(number: u8) -> Option<AddressFamily>
    ensures some { IfSome result (λ family. number ≡ family_number family) }
    ensures none { IfNone result ((family : AddressFamily) → number ≡ family_number family → ⊥) }
{
    match number {
        4 => Some(AddressFamily::Ipv4),
        6 => Some(AddressFamily::Ipv6),
        _ => None,
    }
}

/// The number of an address.
pub(crate) fn number_of(family: AddressFamily, octets: [u8; 16]) -> u128
    ensures value { result ≡ address_number family octets }
    ensures below { result < 2 ^ width family }
{
    match family {
        AddressFamily::Ipv4 => {
            let [a, b, c, d, ..] = octets;
            u128::from(u32::from_be_bytes([a, b, c, d]))
        }
        AddressFamily::Ipv6 => u128::from_be_bytes(octets),
    }
}

/// The block that an entry is of.
fn ip_block_of(entry: &IpEntry) -> Option<IpBlock>
    ensures some { IfSome result (λ b. (family : AddressFamily) × IsIpText entry.now family b) }
    ensures none { IfNone result ((family : AddressFamily) → IsIpListed entry.now family → ⊥) }
{
    match family_of(entry.family) {
        Some(family) => {
            let low = number_of(family, entry.low);
            let high = number_of(family, entry.high);
            if low > high {
                return None;
            }
            IpBlock::of(family, Block { low, high })
        }
        None => None,
    }
}

/// The text of a block of addresses.
fn ip_line(block: IpBlock) -> Line
    ensures { result ≡ ip_block_text block }
{
    let mut text = Line::empty();
    match block {
        IpBlock::Prefix(prefix) => {
            push_address(&mut text, prefix.addr);
            text.push(b"/");
            push_number(&mut text, u32::from(prefix.len));
        }
        IpBlock::Range(range) => {
            push_address(&mut text, range.min);
            text.push(b"-");
            push_address(&mut text, range.max);
        }
    }
    text
}

/// Appends an AS number.
fn push_as(text: &mut Line, number: Asn)
    requires { length text.old + 12 ≤ 128 }
    ensures text { text.new ≡ text.old ++ as_number_text number.0 }
    ensures short { length text.new ≤ length text.old + 12 }
{
    text.push(b"AS");
    push_number(text, number.0);
}

/// The text of a block of AS numbers.
fn as_line(block: AsBlock) -> Line
    ensures { result ≡ as_block_text block }
{
    let mut text = Line::empty();
    match block {
        AsBlock::Id(number) => push_as(&mut text, number),
        AsBlock::Range(range) => {
            push_as(&mut text, range.min);
            text.push(b"-");
            push_as(&mut text, range.max);
        }
    }
    text
}

/// Writes the text of a block of addresses to the front of the buffer: `10.0.0.0/8` of a prefix, `10.0.0.0-10.0.0.5` of
/// a range that isn't one, IP version 6 as RFC 5952 says, and `inherit` where addresses are those of the issuer.
/// Allocates nothing.
///
/// The status is 0; `TOO_SMALL` where the buffer is shorter, and nothing is written to it; in both cases `written` is
/// the count of the octets. `CONTENT` where the family is another, or the highest address is below the lowest; then
/// nothing is written.
#[unsafe(no_mangle)]
pub extern "C" fn rpki_ip_block_text(block: &IpEntry, out: &mut [u8], written: &mut usize) -> u8
    ensures { IsIpTextStored block.now result out.old out.new written.old written.new }
{
    if block.is_inherited {
        return store(INHERIT, out, written);
    }
    match ip_block_of(block) {
        Some(found) => store(ip_line(found).as_slice(), out, written),
        None => CONTENT,
    }
}

/// Writes the text of a block of AS numbers to the front of the buffer: `AS64496` of one number, `AS1-AS5` of a range,
/// and `inherit` where AS numbers are those of the issuer. Allocates nothing.
///
/// The status is as that of [rpki_ip_block_text], `CONTENT` where the highest number is below the lowest.
#[unsafe(no_mangle)]
pub extern "C" fn rpki_as_block_text(block: &AsEntry, out: &mut [u8], written: &mut usize) -> u8
    ensures { IsAsTextStored block.now result out.old out.new written.old written.new }
{
    if block.is_inherited {
        return store(INHERIT, out, written);
    }
    let numbers = Block {
        low: u128::from(block.low),
        high: u128::from(block.high),
    };
    match AsBlock::of(numbers) {
        Some(found) => store(as_line(found).as_slice(), out, written),
        None => CONTENT,
    }
}
