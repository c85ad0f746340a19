//! Addresses as the contents of a BIT STRING (RFC 3779 2.1.1, 2.2.3.8).

ghost use Rattle.std.specs.Prelude.{◌≡◌, ◌<◌, ◌≤◌, ◌^◌};
ghost use Rattle.rpki_der.specs.TagName.{bit_string};
ghost use Rattle.rpki_resources.specs.Address.{IsAddressOf};
ghost use Rattle.rpki_resources.specs.Encoded.{octet_count, unused_bits, address_contents, address_octets};

use super::number::write_octets;
use crate::address::Address;
use rpki_der::{Primitive, PrimitiveContent, Tag, Values, write_whole};
use std::io;
use std::io::Write;

/// The first bits of an address, as they are written: at most 128.
#[derive(Drop)]
pub struct AddressBits {
    number: u128,
    size: u8,
    ghost legal: { IsAddressOf 128 (record { number = number; size = size }) },
}

/// An encoder for the first bits of an address.
pub type AddressEncoder = Primitive<AddressBits>;

/// How many octets hold so many bits.
fn octet_count_of(size: u8) -> u8
    ensures { result ≡ octet_count size }
{
    size / 8 + if size % 8 == 0 { 0 } else { 1 }
}

/// The bits, and zeros for those of the last octet left over (X.690 8.6.2).
impl PrimitiveContent for AddressBits {
    ghost use Rattle.rpki_resources.specs.Encoded.{bits_at};

    ghost plain = { bit_string };

    const TAG: Tag = Tag::BIT_STRING;

    ghost contents = { λ x. address_contents (bits_at x.number x.size) };

    fn encoded_len(&self) -> u64 {
        u64::from(octet_count_of(self.size)) + 1
    }

    fn write_encoded<W: Write>(&self, out: &mut W) -> Result<(), io::Error> {
        let count = octet_count_of(self.size);
        let unused = 8 * count - self.size;
        write_whole(out, &[unused])?;
        write_octets(out, count, self.number << unused)
    }

    fn plain_tag(&self) -> Tag {
        Self::TAG
    }
}

impl Address {
    /// An encoder for the bits: a BIT STRING of them. Requires that they are at most 128, and that no more than these
    /// make the number.
    pub fn encode(self) -> AddressEncoder
        requires size { self.size ≤ 128 }
        requires number { self.number < 2 ^ self.size }
        ensures octets { ⟦<AddressEncoder as Values>⟧.encoded result ≡ address_octets self }
        ensures short { ⟦<AddressEncoder as Values>⟧.is_short result }
    {
        let bits = AddressBits {
            number: self.number,
            size: self.size,
        };
        bits.encode()
    }
}
