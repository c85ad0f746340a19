//! Route origin attestations, read in place without memory (RFC 9582 4).

ghost use Rattle.std.specs.Prelude.{◌≡◌, ◌<◌, IfSome, length};
ghost use Rattle.rpki_der.specs.Prelude.{left};
ghost use Rattle.rpki_parse.specs.Parts.{told};
ghost use Rattle.rpki_resources.specs.Address.{width};
ghost use Rattle.rpki_resources.specs.declared.family.AddressFamily.TheVariants.{Ipv4, Ipv6};
ghost use Rattle.rpki_contents.specs.RoaView.{Gives, found_roa, route_origin};

use crate::family_view::take_blocks;
use crate::roa_address::RoaIpAddress;
use rpki_der::Constructed;
use rpki_parse::{Malformed, at_part, finish, take_sequence, take_u32};
use rpki_resources::AddressFamily;

/// The malformed part of an attestation.
#[derive(Clone, Copy, Debug, PartialEq, Eq)]
pub enum RoaPart {
    /// The SEQUENCE around all, or something follows it.
    Attestation,
    /// The AS number.
    AsId,
    /// The prefixes: the list of families, one of them, a prefix, or something that follows.
    AddressBlocks,
}

/// An attestation whose prefixes are borrowed from the octets that it was read from.
#[derive(Clone, Copy)]
pub struct RoaView<'a> {
    /// The AS number that may announce the prefixes.
    pub as_id: u32,
    /// The prefixes of IP version 4, in sequence; no octets where that family isn't there.
    pub v4: &'a [u8],
    /// The prefixes of IP version 6, in sequence; no octets where that family isn't there.
    pub v6: &'a [u8],
    /// How many prefixes of IP version 4 there are.
    pub v4_count: usize,
    /// How many prefixes of IP version 6 there are.
    pub v6_count: usize,
}

/// The prefixes of one family in place that have yet to be given, in order.
#[derive(Clone, Copy)]
pub struct AddressCursor<'a> {
    /// The family.
    pub family: AddressFamily,
    /// The rest of their octets.
    pub rest: Constructed<'a>,
}

impl<'a> RoaView<'a> {
    /// An attestation, and nothing else, as
    /// [RouteOriginAttestation::decode](crate::RouteOriginAttestation::decode) reads it. Allocates nothing.
    ///
    /// The error is of the leftmost malformed part: the leftmost error there, as a reader of that part returns it. It
    /// is `Content` for a list of no families, for a third family, for a family that is there twice, and, where it is
    /// `strict`, for IP version 6 in front.
    pub fn read(octets: &'a [u8], strict: bool) -> Result<RoaView<'a>, Malformed<RoaPart>>
        ensures { told found_roa result ≡ route_origin strict octets.entry.now }
    {
        let mut rest = Constructed::from_slice(octets);
        let mut parts = at_part(RoaPart::Attestation, take_sequence(&mut rest))?;
        at_part(RoaPart::Attestation, finish(rest))?;
        let as_id = at_part(RoaPart::AsId, take_u32(&mut parts))?;
        let both = at_part(RoaPart::AddressBlocks, take_blocks(&mut parts, strict))?;
        at_part(RoaPart::AddressBlocks, finish(parts))?;
        Ok(RoaView {
            as_id,
            v4: both.v4,
            v6: both.v6,
            v4_count: both.v4_count,
            v6_count: both.v6_count,
        })
    }

    /// A cursor over the prefixes of IP version 4, in their order.
    pub fn v4_addrs(self) -> AddressCursor<'a>
        ensures family { result.family ≡ Ipv4 }
        ensures octets { left result.rest ≡ self.entry.v4.now }
    {
        AddressCursor {
            family: AddressFamily::Ipv4,
            rest: Constructed::from_slice(self.v4),
        }
    }

    /// A cursor over the prefixes of IP version 6, in their order.
    pub fn v6_addrs(self) -> AddressCursor<'a>
        ensures family { result.family ≡ Ipv6 }
        ensures octets { left result.rest ≡ self.entry.v6.now }
    {
        AddressCursor {
            family: AddressFamily::Ipv6,
            rest: Constructed::from_slice(self.v6),
        }
    }
}

impl<'a> AddressCursor<'a> {
    /// The next prefix; None where none remains, or the remaining octets are no prefixes of the family.
    pub fn next_address(&mut self) -> Option<RoaIpAddress>
        ensures family { self.new.family ≡ self.old.family }
        ensures given { Gives (width self.old.family) (left self.old.rest) result (left self.new.rest) }
        ensures shorter { IfSome result (λ _. length (left self.new.rest) < length (left self.old.rest)) }
    {
        match RoaIpAddress::take_from(&mut self.rest, self.family) {
            Ok(address) => Some(address),
            Err(_) => None,
        }
    }
}
