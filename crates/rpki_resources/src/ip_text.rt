//! Texts of prefixes and ranges of addresses: `10.0.0.0/8`, `10.0.0.0-10.0.0.5`.

ghost use Rattle.std.specs.Prelude.{◌≡◌, ◌≤◌, ◌<◌, ◌-◌, ◌^◌, IfSome, IfNone};
ghost use Rattle.rpki_resources.specs.Address.{width, IsPrefix};
ghost use Rattle.rpki_resources.specs.Text.{IsAddressOfNumber, IsPrefixOf, IsBlockOfFamily, IsIpBlockOf};

use crate::block::Block;
use crate::family::AddressFamily;
use crate::prefix::{is_prefix, missing_bits};
use std::fmt;
use std::fmt::Display;
use std::net::{IpAddr, Ipv4Addr, Ipv6Addr};

/// The addresses that begin alike. Its text is `10.0.0.0/8`; an IPv6 address is written as RFC 5952 says.
#[derive(Clone, Copy, Debug, PartialEq, Eq)]
pub struct Prefix {
    /// The lowest address.
    pub addr: IpAddr,
    /// How many bits the addresses share.
    pub len: u8,
}

impl Display for Prefix {
    ghost use Rattle.std.specs.Prelude.{Some};
    ghost use Rattle.std.specs.Net.Text.{ip_text};
    ghost use Rattle.rpki_resources.specs.Text.{prefix_text};

    ghost output = { λ p. Some (prefix_text (ip_text p.addr) p.len) };

    fn fmt<W: fmt::Write>(&self, f: &mut fmt::Formatter<W>) -> fmt::Result {
        write!(f, "{}/{}", self.addr, self.len)
    }
}

/// The addresses from one to another. Its text is `10.0.0.0-10.0.0.5`.
#[derive(Clone, Copy, Debug, PartialEq, Eq)]
pub struct AddressRange {
    /// The lowest address.
    pub min: IpAddr,
    /// The highest address.
    pub max: IpAddr,
}

impl Display for AddressRange {
    ghost use Rattle.std.specs.Prelude.{Some};
    ghost use Rattle.std.specs.Net.Text.{ip_text};
    ghost use Rattle.rpki_resources.specs.Text.{range_text};

    ghost output = { λ r. Some (range_text (ip_text r.min) (ip_text r.max)) };

    fn fmt<W: fmt::Write>(&self, f: &mut fmt::Formatter<W>) -> fmt::Result {
        write!(f, "{}-{}", self.min, self.max)
    }
}

/// A block of addresses: a prefix, or a range that isn't one.
#[derive(Clone, Copy, Debug, PartialEq, Eq)]
pub enum IpBlock {
    /// A prefix.
    Prefix(Prefix),
    /// A range.
    Range(AddressRange),
}

impl Display for IpBlock {
    ghost use Rattle.std.specs.Prelude.{Some};
    ghost use Rattle.rpki_resources.specs.Text.{ip_block_text};

    ghost output = { λ b. Some (ip_block_text b) };

    fn fmt<W: fmt::Write>(&self, f: &mut fmt::Formatter<W>) -> fmt::Result {
        match self {
            IpBlock::Prefix(prefix) => Display::fmt(prefix, f),
            IpBlock::Range(range) => Display::fmt(range, f),
        }
    }
}

/// The highest number of an address of the family.
fn last_of(family: AddressFamily) -> u128
    ensures { result ≡ 2 ^ width family - 1 }
{
    match family {
        AddressFamily::Ipv4 => 4294967295,
        AddressFamily::Ipv6 => u128::MAX,
    }
}

/// The address of the family that is this number.
fn address_of(family: AddressFamily, number: u128) -> IpAddr
    requires { number < 2 ^ width family }
    ensures { IsAddressOfNumber family result number }
{
    match family {
        AddressFamily::Ipv4 => IpAddr::V4(Ipv4Addr::from_bits(number as u32)),
        AddressFamily::Ipv6 => IpAddr::V6(Ipv6Addr::from_bits(number)),
    }
}

/// The prefix of the family whose numbers these are.
fn prefix_of(family: AddressFamily, low: u128, high: u128) -> Prefix
    requires prefix { IsPrefix low high }
    requires order { low ≤ high }
    requires fits { high < 2 ^ width family }
    ensures { IsPrefixOf family result low high }
{
    let len = family.width() - missing_bits(low, high);
    Prefix {
        addr: address_of(family, low),
        len,
    }
}

impl IpBlock {
    /// The block of these numbers, which are addresses of the family: a prefix where they are one, else a range.
    ///
    /// Returns None where the block is empty, or has a number that is no address of the family.
    pub fn of(family: AddressFamily, block: Block) -> Option<IpBlock>
        ensures some { IfSome result (λ b. IsIpBlockOf family b block) }
        ensures within { IfSome result (λ _. IsBlockOfFamily family block) }
        ensures none { IfNone result (IsBlockOfFamily family block → ⊥) }
    {
        if block.low > block.high {
            return None;
        }
        if block.high > last_of(family) {
            return None;
        }
        if is_prefix(block.low, block.high) {
            return Some(IpBlock::Prefix(prefix_of(family, block.low, block.high)));
        }
        Some(IpBlock::Range(AddressRange {
            min: address_of(family, block.low),
            max: address_of(family, block.high),
        }))
    }
}
