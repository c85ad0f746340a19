//! Route origin attestations (RFC 9582 4).
//!
//! ```text
//! RouteOriginAttestation ::= SEQUENCE {
//!     version       [0] INTEGER DEFAULT 0,
//!     asID          INTEGER (0..4294967295),
//!     ipAddrBlocks  SEQUENCE (SIZE (1..2)) OF ROAIPAddressFamily }
//! ```

ghost use Rattle.std.specs.Prelude.{◌≡◌, ◌<◌, ◌^◌, ◌↔◌, IsSome, IfSome};
ghost use Rattle.rpki_der.specs.Prelude.{left, Takes, TakesAll, TakesWhole};
ghost use Rattle.rpki_contents.specs.RoaAddress.{AreAddressesIn};
ghost use Rattle.rpki_contents.specs.Roa.{IsAttestation, attestation, fields, fields_of, roa};

use crate::roa_address::{RoaIpAddress, are_addresses_in};
use crate::roa_family::take_families;
use rpki_der::{Constructed, DecodeError};
use rpki_resources::{AddressFamily, take_as_number};
use std::alloc::Global;
use std::marker::Model;

/// A route origin attestation: an AS number, and the prefixes that it may announce. Nothing of it is verified.
#[derive(Drop)]
pub struct RouteOriginAttestation {
    as_id: u32,
    v4_addrs: Vec<RoaIpAddress>,
    v6_addrs: Vec<RoaIpAddress>,
}

impl Model for RouteOriginAttestation {
    ghost use Rattle.rpki_contents.specs.Roa.{AttestationParts, IsAttestation, attestation};

    ghost Value = { AttestationParts };

    ghost view = { λ x. attestation x.as_id x.v4_addrs.items x.v6_addrs.items };

    ghost invariant = { λ x. IsAttestation (attestation x.as_id x.v4_addrs.items x.v6_addrs.items) };
}

impl RouteOriginAttestation {
    /// The attestation that an AS may announce these prefixes, of IP version 4 and of IP version 6. It allocates
    /// nothing.
    ///
    /// Returns None where there is no prefix, or one isn't of its family, as [RoaIpAddress::is_in] tests.
    pub fn new(
        as_id: u32,
        v4_addrs: Vec<RoaIpAddress>,
        v6_addrs: Vec<RoaIpAddress>,
    ) -> Option<RouteOriginAttestation>
        ensures some { IsSome result ↔ IsAttestation (attestation as_id v4_addrs.items v6_addrs.items) }
        ensures value { IfSome result (λ x. x ≡ attestation as_id v4_addrs.items v6_addrs.items) }
    {
        if v4_addrs.is_empty() && v6_addrs.is_empty() {
            return None;
        }
        if !are_addresses_in(AddressFamily::Ipv4, v4_addrs.as_slice()) {
            return None;
        }
        if !are_addresses_in(AddressFamily::Ipv6, v6_addrs.as_slice()) {
            return None;
        }
        Some(RouteOriginAttestation {
            as_id,
            v4_addrs,
            v6_addrs,
        })
    }

    /// Reads an attestation, in DER: a SEQUENCE of an AS number and of one family of addresses or of two, each once,
    /// each of one prefix at least, as [RoaIpAddress::take_from] reads it; and nothing else. The version, which is 0,
    /// is left out, since it is the default. Where it is `strict`, IP version 4 is before IP version 6, as in the
    /// canonical form (RFC 9582 4.3.3). Prefixes are taken in any order, and more than once.
    ///
    /// The errors are those of a SEQUENCE; then that of the leftmost part that could not be read, of the parts in it,
    /// in turn, or `Trailing` if more follows; `Content` for a family without prefixes, once it was read, and for other
    /// families, once all were; `OutOfMemory` if allocation fails. An error leaves the cursor where it was.
    pub fn take_from(
        alloc: Global,
        strict: bool,
        cons: &mut Constructed<'_>,
    ) -> Result<RouteOriginAttestation, DecodeError>
        ensures { Takes fields_of (roa strict) (left cons.old) (left cons.new) result }
    {
        cons.in_sequence(
            |contents|
                ensures { TakesAll fields_of (fields strict) (left contents.old) (left contents.new) result }
            {
                let as_id = take_as_number(contents)?;
                let found = take_families(alloc, strict, contents)?;
                Ok(RouteOriginAttestation {
                    as_id,
                    v4_addrs: found.v4,
                    v6_addrs: found.v6,
                })
            },
        )
    }

    /// An attestation, and nothing else: the content of a signed object of this type.
    ///
    /// The errors are those of [RouteOriginAttestation::take_from]; then `Trailing` if something follows.
    pub fn decode(
        alloc: Global,
        octets: &[u8],
        strict: bool,
    ) -> Result<RouteOriginAttestation, DecodeError>
        ensures { TakesWhole fields_of (roa strict) octets.now result }
    {
        Constructed::from_slice(octets).whole(|cons| {
            RouteOriginAttestation::take_from(alloc, strict, cons)
        })
    }

    /// The AS number that may announce the prefixes.
    pub fn as_id(&self) -> u32
        ensures number { result ≡ self.now.as_id }
        ensures bound { self.now.as_id < 2 ^ 32 }
        ensures legal { IsAttestation self.now }
    {
        self.as_id
    }

    /// The prefixes of IP version 4, in their order.
    pub fn v4_addrs(&self) -> &[RoaIpAddress]
        ensures prefixes { result.now ≡ self.now.v4 }
        ensures in_family { AreAddressesIn 32 result.now }
    {
        self.v4_addrs.as_slice()
    }

    /// The prefixes of IP version 6, in their order.
    pub fn v6_addrs(&self) -> &[RoaIpAddress]
        ensures prefixes { result.now ≡ self.now.v6 }
        ensures in_family { AreAddressesIn 128 result.now }
    {
        self.v6_addrs.as_slice()
    }
}
