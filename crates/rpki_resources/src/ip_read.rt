//! Texts of prefixes and blocks of addresses, as they are read: `10.0.0.0/8`, `10.0.0.0-10.0.0.5`.

ghost use Rattle.std.specs.Prelude.{◌≡◌, ◌≤◌, ◌<◌, ◌⊎◌, ◌-◌, ◌^◌, ◌%◌, ◌↔◌, IsTrue, IfSome, IfNone};
ghost use Rattle.std.specs.Net.Grammar.{IsIpText};
ghost use Rattle.std.specs.declared.net.ip_addr.IpAddr.{IpAddr};
ghost use Rattle.rpki_resources.specs.declared.ip_text.Prefix.{Prefix};
ghost use Rattle.rpki_resources.specs.declared.ip_text.IpBlock.{IpBlock};
ghost use Rattle.rpki_resources.specs.IpRead.{address_width, address_number, IsPrefixOfTexts, IsPrefixText, family_of};
ghost use Rattle.rpki_resources.specs.IpRead.{IsIpRangeOfTexts, whole_prefix};

use crate::block::Block;
use crate::family::AddressFamily;
use crate::ip_text::{IpBlock, Prefix};
use std::error::Error;
use std::fmt;
use std::fmt::Display;
use std::net::IpAddr;
use std::str::FromStr;

/// How many bits the address has.
pub fn width_of(addr: IpAddr) -> u8
    ensures { result ≡ address_width addr }
{
    match addr {
        IpAddr::V4(_) => 32,
        IpAddr::V6(_) => 128,
    }
}

/// The number that the bits of the address make.
pub fn number_of(addr: IpAddr) -> u128
    ensures number { result ≡ address_number addr }
    ensures below { result < 2 ^ address_width addr }
{
    match addr {
        IpAddr::V4(addr) => u128::from(addr.to_bits()),
        IpAddr::V6(addr) => addr.to_bits(),
    }
}

/// Whether the last bits of the number are 0, so many of them.
fn ends_in_zeros(number: u128, count: u8) -> bool
    requires { count ≤ 128 }
    ensures { IsTrue result ↔ (number % 2 ^ count ≡ 0) }
{
    if count == 128 {
        return number == 0;
    }
    number % (1u128 << count) == 0
}

/// The prefix of this address, whose first bits are shared, as many as the other text writes.
fn prefix_of(address: &str, size: &str) -> Option<Prefix>
    ensures some { IfSome result (λ p. IsPrefixOfTexts address.now size.now p) }
    ensures none { IfNone result ((p : Prefix) → IsPrefixOfTexts address.now size.now p → ⊥) }
{
    let Ok(addr) = address.parse::<IpAddr>() else {
        return None;
    };
    let Ok(len) = size.parse::<u8>() else {
        return None;
    };
    let width = width_of(addr);
    if len > width {
        return None;
    }
    if !ends_in_zeros(number_of(addr), width - len) {
        return None;
    }
    Some(Prefix { addr, len })
}

/// Reads a prefix as an address, a slash, and how many of its first bits are shared: `10.0.0.0/8`. The other bits of
/// the address are 0.
impl FromStr for Prefix {
    type Err = ParsePrefixError;

    ghost use Rattle.std.specs.Net.Grammar.{Parses};
    ghost use Rattle.rpki_resources.specs.IpRead.{IsPrefixText};

    ghost from_str_gives = { λ s r. Parses IsPrefixText s r };

    fn from_str(s: &str) -> Result<Prefix, ParsePrefixError> {
        match s.rsplit_once('/') {
            Some((address, size)) => match prefix_of(address, size) {
                Some(prefix) => Ok(prefix),
                None => Err(ParsePrefixError),
            },
            None => Err(ParsePrefixError),
        }
    }
}

/// Error returned when a text is not a prefix.
#[derive(Clone, Copy, Debug, PartialEq, Eq)]
pub struct ParsePrefixError;

impl Display for ParsePrefixError {
    ghost use Rattle.std.specs.Prelude.{Some, codes};

    ghost output = { λ _. Some (codes "invalid prefix") };

    fn fmt<W: fmt::Write>(&self, f: &mut fmt::Formatter<W>) -> fmt::Result {
        f.write_str("invalid prefix")
    }
}

impl Error for ParsePrefixError {}

/// The family of the address.
pub fn family_of(addr: IpAddr) -> AddressFamily
    ensures { result ≡ family_of addr }
{
    match addr {
        IpAddr::V4(_) => AddressFamily::Ipv4,
        IpAddr::V6(_) => AddressFamily::Ipv6,
    }
}

/// The block of the addresses from the one that the first text writes to the one that the second does.
fn range_of(low: &str, high: &str) -> Option<IpBlock>
    ensures some { IfSome result (λ b. IsIpRangeOfTexts low.now high.now b) }
    ensures none { IfNone result ((b : IpBlock) → IsIpRangeOfTexts low.now high.now b → ⊥) }
{
    let Ok(min) = low.parse::<IpAddr>() else {
        return None;
    };
    let Ok(max) = high.parse::<IpAddr>() else {
        return None;
    };
    let width = width_of(min);
    if width_of(max) != width {
        return None;
    }
    let block = Block {
        low: number_of(min),
        high: number_of(max),
    };
    IpBlock::of(family_of(min), block)
}

/// The prefix that the text writes, or the address, as the prefix of all of its bits.
fn prefix_or_address(text: &str) -> Option<Prefix>
    ensures some { IfSome result (λ p. IsPrefixText text.now p ⊎ ((a : IpAddr) × IsIpText text.now a
        × (p ≡ whole_prefix a))) }
    ensures no_prefix { IfNone result ((p : Prefix) → IsPrefixText text.now p → ⊥) }
    ensures no_address { IfNone result ((a : IpAddr) → IsIpText text.now a → ⊥) }
{
    match text.parse::<Prefix>() {
        Ok(prefix) => Some(prefix),
        Err(_) => match text.parse::<IpAddr>() {
            Ok(addr) => Some(Prefix {
                addr,
                len: width_of(addr),
            }),
            Err(_) => None,
        },
    }
}

/// Reads a prefix, as `10.0.0.0/8`; an address, as the prefix of all of its bits; or two addresses of one family with a
/// hyphen between them, as `10.0.0.0-10.0.0.5`, of which the first is not above the second. Two that make a prefix are
/// read as it.
impl FromStr for IpBlock {
    type Err = ParseIpBlockError;

    ghost use Rattle.std.specs.Net.Grammar.{Parses};
    ghost use Rattle.rpki_resources.specs.IpRead.{IsIpBlockText};

    ghost from_str_gives = { λ s r. Parses IsIpBlockText s r };

    fn from_str(s: &str) -> Result<IpBlock, ParseIpBlockError> {
        match s.split_once('-') {
            Some((low, high)) => match range_of(low, high) {
                Some(block) => Ok(block),
                None => Err(ParseIpBlockError),
            },
            None => match prefix_or_address(s) {
                Some(prefix) => Ok(IpBlock::Prefix(prefix)),
                None => Err(ParseIpBlockError),
            },
        }
    }
}

/// Error returned when a text is not a block of addresses.
#[derive(Clone, Copy, Debug, PartialEq, Eq)]
pub struct ParseIpBlockError;

impl Display for ParseIpBlockError {
    ghost use Rattle.std.specs.Prelude.{Some, codes};

    ghost output = { λ _. Some (codes "invalid block of addresses") };

    fn fmt<W: fmt::Write>(&self, f: &mut fmt::Formatter<W>) -> fmt::Result {
        f.write_str("invalid block of addresses")
    }
}

impl Error for ParseIpBlockError {}
