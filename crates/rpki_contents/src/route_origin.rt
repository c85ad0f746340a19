//! What route origin attestations authorize, prefix by prefix: `10.0.0.0/8-24 => 64496`.

ghost use Rattle.std.specs.Prelude.{◌≡◌, ◌<◌, ◌^◌, ◌∷◌, [], IfSome, IfNone};
ghost use Rattle.rpki_resources.specs.Address.{width};
ghost use Rattle.rpki_contents.specs.Roa.{attestation};
ghost use Rattle.rpki_contents.specs.RoaAddress.{AreAddressesIn, IsAddressIn};
ghost use Rattle.rpki_contents.specs.RouteOrigin.{address_of, friendly, or_length, origins};

use crate::roa::RouteOriginAttestation;
use crate::roa_address::RoaIpAddress;
use rpki_resources::{AddressFamily, Prefix};
use std::fmt;
use std::fmt::Display;
use std::marker::Model;
use std::net::{IpAddr, Ipv4Addr, Ipv6Addr};

/// A prefix, and how long the prefixes in it that are announced may be. Its text is `10.0.0.0/8-24`; an IPv6 address is
/// written as RFC 5952 says.
#[derive(Clone, Copy, Debug, PartialEq, Eq)]
pub struct FriendlyRoaIpAddress {
    /// The prefix.
    pub prefix: Prefix,
    /// The maximum length, in bits: that of the prefix where the attestation has none.
    pub max_length: u8,
}

impl Display for FriendlyRoaIpAddress {
    ghost use Rattle.std.specs.Prelude.{Some};
    ghost use Rattle.rpki_contents.specs.RouteOrigin.{friendly_text};

    ghost output = { λ x. Some (friendly_text x) };

    fn fmt<W: fmt::Write>(&self, f: &mut fmt::Formatter<W>) -> fmt::Result {
        write!(f, "{}-{}", self.prefix, self.max_length)
    }
}

/// A prefix that an AS may announce, as validators hand it to routers (RFC 6810 5.6). Its text is
/// `10.0.0.0/8-24 => 64496`.
#[derive(Clone, Copy, Debug, PartialEq, Eq)]
pub struct RouteOrigin {
    /// The prefix, and its maximum length.
    pub address: FriendlyRoaIpAddress,
    /// The AS number.
    pub as_id: u32,
}

impl Display for RouteOrigin {
    ghost use Rattle.std.specs.Prelude.{Some};
    ghost use Rattle.rpki_contents.specs.RouteOrigin.{origin_text};

    ghost output = { λ x. Some (origin_text x) };

    fn fmt<W: fmt::Write>(&self, f: &mut fmt::Formatter<W>) -> fmt::Result {
        write!(f, "{} => {}", self.address, self.as_id)
    }
}

/// The address of the family whose bits make the number.
fn address_of(family: AddressFamily, number: u128) -> IpAddr
    requires { number < 2 ^ width family }
    ensures { result ≡ address_of family number }
{
    match family {
        AddressFamily::Ipv4 => IpAddr::V4(Ipv4Addr::from_bits(number as u32)),
        AddressFamily::Ipv6 => IpAddr::V6(Ipv6Addr::from_bits(number)),
    }
}

/// The maximum length, which is this length where it is left out.
fn or_length(length: u8, max_length: Option<u8>) -> u8
    ensures { result ≡ or_length length max_length }
{
    match max_length {
        Some(most) => most,
        None => length,
    }
}

impl RoaIpAddress {
    /// The prefix of the family, and its maximum length. Requires that it is a prefix of the family, as
    /// [RoaIpAddress::is_in] tests; those of [RouteOriginAttestation::v4_addrs] and [RouteOriginAttestation::v6_addrs]
    /// are.
    pub fn friendly(self, family: AddressFamily) -> FriendlyRoaIpAddress
        requires { IsAddressIn (width family) self }
        ensures { result ≡ friendly family self }
    {
        FriendlyRoaIpAddress {
            prefix: Prefix {
                addr: address_of(family, self.prefix.low_end(family)),
                len: self.prefix.size,
            },
            max_length: or_length(self.prefix.size, self.max_length),
        }
    }
}

/// The prefixes that an attestation authorizes and that have yet to be given, in order.
#[derive(Drop)]
pub struct RouteOrigins<'a> {
    as_id: u32,
    v4: &'a [RoaIpAddress],
    v6: &'a [RoaIpAddress],
}

impl<'a> Model for RouteOrigins<'a> {
    ghost use Rattle.rpki_contents.specs.declared.route_origin.RouteOrigin.{RouteOrigin};
    ghost use Rattle.std.specs.Prelude.{List};
    ghost use Rattle.rpki_contents.specs.Roa.{attestation};
    ghost use Rattle.rpki_contents.specs.RouteOrigin.{AreInFamilies, origins};

    ghost Value = { List RouteOrigin };

    ghost view = { λ x. origins (attestation x.as_id x.v4.now x.v6.now) };

    ghost invariant = { λ x. AreInFamilies (attestation x.as_id x.v4.now x.v6.now) };
}

impl<'a> RouteOrigins<'a> {
    /// The next prefix; None where none remains.
    pub fn next_origin(&mut self) -> Option<RouteOrigin>
        ensures some { IfSome result (λ x. self.old ≡ x ∷ self.new) }
        ensures none { IfNone result ((self.old ≡ []) × (self.new ≡ [])) }
    {
        if let Some((first, following)) = self.v4.split_first() {
            self.v4 = following;
            return Some(RouteOrigin {
                address: first.friendly(AddressFamily::Ipv4),
                as_id: self.as_id,
            });
        }
        if let Some((first, following)) = self.v6.split_first() {
            self.v6 = following;
            return Some(RouteOrigin {
                address: first.friendly(AddressFamily::Ipv6),
                as_id: self.as_id,
            });
        }
        None
    }
}

impl RouteOriginAttestation {
    /// What the attestation authorizes: each prefix of IP version 4, in their order, and then each of IP version 6.
    /// Allocates nothing.
    pub fn origins(&self) -> RouteOrigins<'_>
        ensures { result ≡ origins self.now }
    {
        RouteOrigins {
            as_id: self.as_id(),
            v4: self.v4_addrs(),
            v6: self.v6_addrs(),
        }
    }
}
