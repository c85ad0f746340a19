//! Which prefixes cover which (RFC 6811 2).

ghost use Rattle.std.specs.Prelude.{◌≡◌, ◌≤◌, ◌<◌, ◌-◌, ◌^◌, ◌/◌, ◌↔◌, IsTrue};
ghost use Rattle.rpki_resources.specs.IpRead.{address_number, address_width};
ghost use Rattle.rpki_payloads.specs.Covered.{IsCoveredBy, covers};

use rpki_resources::Prefix;
use std::net::IpAddr;

/// How many bits the address has.
pub(crate) fn width_of(addr: IpAddr) -> u8
    ensures { result ≡ address_width addr }
{
    match addr {
        IpAddr::V4(_) => 32,
        IpAddr::V6(_) => 128,
    }
}

/// The number that the bits of the address make.
pub(crate) fn number_of(addr: IpAddr) -> u128
    ensures number { result ≡ address_number addr }
    ensures below { result < 2 ^ address_width addr }
{
    match addr {
        IpAddr::V4(addr) => u128::from(addr.to_bits()),
        IpAddr::V6(addr) => addr.to_bits(),
    }
}

/// The first bits of an address, so many, as a number.
pub(crate) fn first_bits(addr: IpAddr, len: u8) -> u128
    ensures { result ≡ address_number addr / 2 ^ (address_width addr - len) }
{
    let left = width_of(addr).saturating_sub(len);
    let number = number_of(addr);
    if left == 128 {
        return 0;
    }
    number >> left
}

/// Whether the addresses of the prefix are among those of the other.
pub(crate) fn is_covered(cover: Prefix, prefix: Prefix) -> bool
    ensures meaning { IsTrue result ↔ IsCoveredBy cover prefix }
    ensures value { result ≡ covers cover prefix }
{
    if width_of(cover.addr) != width_of(prefix.addr) {
        return false;
    }
    if cover.len > prefix.len {
        return false;
    }
    first_bits(prefix.addr, cover.len) == first_bits(cover.addr, cover.len)
}
