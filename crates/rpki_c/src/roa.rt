//! Route origin attestations.

ghost use Rattle.std.specs.Prelude.{◌≡◌};
ghost use Rattle.rpki_contents.specs.RoaView.{found_roa, route_origin};
ghost use Rattle.rpki_c.specs.Roa.{roa_part_number, passed, IsRoaRead, IsAddressTaken};
ghost use Rattle.rpki_c.specs.Whole.{told_error};

use crate::block_texts::family_of;
use crate::ip_blocks::octets_of;
use crate::span::Span;
use crate::status::CONTENT;
use rpki_contents::{RoaIpAddress, RoaPart, RoaView};
use rpki_der::Constructed;

/// The parts of a route origin attestation.
#[repr(C)]
#[derive(Clone, Copy)]
pub struct RoaParts<'a> {
    /// The prefixes of IP version 4, in sequence; no octets where the family isn't there.
    pub v4: Span<'a>,
    /// The prefixes of IP version 6, in sequence; no octets where the family isn't there.
    pub v6: Span<'a>,
    /// How many prefixes of IP version 4 there are.
    pub v4_count: usize,
    /// How many prefixes of IP version 6 there are.
    pub v6_count: usize,
    /// The AS number that may announce the prefixes.
    pub as_id: u32,
}

/// How a malformed part is passed.
pub(crate) fn roa_part_number(part: RoaPart) -> u8
    ensures { result ≡ roa_part_number part }
{
    match part {
        RoaPart::Attestation => 145,
        RoaPart::AsId => 146,
        RoaPart::AddressBlocks => 147,
    }
}

/// The parts of the attestation.
pub(crate) fn roa_of<'a>(found: RoaView<'a>) -> RoaParts<'a>
    ensures { passed result ≡ found_roa found.entry }
{
    RoaParts {
        v4: Span::of(found.v4),
        v6: Span::of(found.v6),
        v4_count: found.v4_count,
        v6_count: found.v6_count,
        as_id: found.as_id,
    }
}

/// Reads a route origin attestation (RFC 9582 4), and says which AS number it is for and what its prefixes are. If
/// `strict`, the prefixes of IP version 4 are in front of those of IP version 6 (RFC 9582 4.3.3).
///
/// The status is 0. Else it is the number of the leftmost malformed part, and `out` is unchanged. Nothing is
/// allocated.
#[unsafe(no_mangle)]
pub extern "C" fn rpki_roa<'a>(octets: &'a [u8], strict: bool, out: &mut RoaParts<'a>) -> u8
    ensures { IsRoaRead strict octets.now result out.old out.new }
{
    match RoaView::read(octets, strict) {
        Ok(found) => {
            *out = roa_of(found);
            0
        }
        Err(wrong) => roa_part_number(wrong.part),
    }
}

/// Reads a route origin attestation, as [rpki_roa] does, and says what is wrong with the malformed part.
///
/// The status is that of [rpki_roa]. Where it is a part, 145 to 147, `error` is the number of the error, that of
/// `DecodeError`, as a reader of that part returns it; where it is 0, `error` is unchanged. Nothing is allocated.
#[unsafe(no_mangle)]
pub extern "C" fn rpki_roa_error(octets: &[u8], strict: bool, error: &mut u8) -> u8
    ensures { (result, error.new) ≡ told_error roa_part_number error.old (route_origin strict octets.now) }
{
    match RoaView::read(octets, strict) {
        Ok(_) => 0,
        Err(wrong) => {
            *error = wrong.error.number();
            roa_part_number(wrong.part)
        }
    }
}

/// A prefix, and how long the prefixes in it that are announced may be.
#[repr(C)]
#[derive(Clone, Copy)]
pub struct RoaAddress {
    /// The lowest address, the most significant octet first; after the four octets of IP version 4 are zeros.
    pub address: [u8; 16],
    /// How many bits the prefix has.
    pub length: u8,
    /// How many bits a prefix that is announced may have; the prefix's own length where that is left out.
    pub max_length: u8,
    /// Whether that isn't left out.
    pub has_max_length: bool,
}

/// Takes the prefix at the front of the span, as of the prefixes of a family, 4 or 6: a SEQUENCE of its bits and of a
/// maximum length, which may be left out, and nothing else (RFC 9582 4.3.2). `rest` becomes what follows, which is not
/// looked at.
///
/// The status is 0; `CONTENT` for another family, before the octets are looked at; else the number of the error. Unless
/// it is 0, nothing is written. Nothing is allocated.
#[unsafe(no_mangle)]
pub extern "C" fn rpki_roa_address(rest: &mut Span<'_>, family: u8, out: &mut RoaAddress) -> u8
    ensures { IsAddressTaken family result rest.old rest.new out.old out.new }
{
    let Some(named) = family_of(family) else {
        return CONTENT;
    };
    let mut cursor = Constructed::from_slice(rest.octets);
    match RoaIpAddress::take_from(&mut cursor, named) {
        Ok(found) => {
            let prefix = found.prefix;
            *rest = Span::of(cursor.rest());
            *out = RoaAddress {
                address: octets_of(named, prefix.low_end(named)),
                length: prefix.size,
                max_length: found.max_length.unwrap_or(prefix.size),
                has_max_length: found.max_length.is_some(),
            };
            0
        }
        Err(e) => e.number(),
    }
}
