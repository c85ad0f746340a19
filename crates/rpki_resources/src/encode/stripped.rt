//! The ends of ranges of addresses, as they are written (RFC 3779 2.2.3.9).

ghost use Rattle.std.specs.Prelude.{◌≡◌, ◌<◌, ◌^◌};
ghost use Rattle.rpki_resources.specs.Address.{width, HasNoZeros, HasNoOnes, IsAddressOf, low_end, high_end};
ghost use Rattle.rpki_resources.specs.Encoded.{without_end, without_zeros, without_ones};

use crate::address::Address;
use crate::family::AddressFamily;

/// The number, which has so many bits, without those at its end that are all the same as this one.
fn without_bits(bit: u128, width: u8, whole: u128) -> Address
    ensures { result ≡ without_end bit width whole }
{
    let mut number = whole;
    let mut size = width;
    'bits: while size > 0 {
        if number % 2 != bit {
            return Address { number, size };
        }
        number /= 2;
        size -= 1;
    }
    Address { number, size }
}

impl Address {
    /// The lowest address of a range without the zeros at its end.
    pub fn stripped_low(family: AddressFamily, low: u128) -> Address
        requires { low < 2 ^ width family }
        ensures bits { result ≡ without_zeros (width family) low }
        ensures legal { IsAddressOf (width family) result }
        ensures stripped { HasNoZeros result }
        ensures end { low_end (width family) result ≡ low }
    {
        without_bits(0, family.width(), low)
    }

    /// The highest address of a range without the ones at its end.
    pub fn stripped_high(family: AddressFamily, high: u128) -> Address
        requires { high < 2 ^ width family }
        ensures bits { result ≡ without_ones (width family) high }
        ensures legal { IsAddressOf (width family) result }
        ensures stripped { HasNoOnes result }
        ensures end { high_end (width family) result ≡ high }
    {
        without_bits(1, family.width(), high)
    }
}
