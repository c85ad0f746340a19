//! Addresses as bit strings (RFC 3779 2.1.1, 2.2.3.8).

ghost use Rattle.std.specs.Prelude.{◌≡◌, ◌≤◌, ◌<◌, ◌^◌, length, IfSome, IfNone};
ghost use Rattle.rpki_der.specs.Prelude.{AreBits, bits_of, left, number_of, Takes};
ghost use Rattle.rpki_resources.specs.Address.{width, HasBits, IsAddress, address, low_end, high_end, prefix_block};

use crate::block::Block;
use crate::family::AddressFamily;
use rpki_der::{BitString, Constructed, DecodeError, Tag};

/// The first bits of an address: as many as `size`, which make the number.
#[derive(Clone, Copy, Debug, PartialEq, Eq)]
pub struct Address {
    /// The number that the bits make, the most significant first.
    pub number: u128,
    /// How many bits there are.
    pub size: u8,
}

/// The number that at most sixteen octets write, the most significant first.
fn written_number(octets: &[u8]) -> u128
    requires { length octets.now ≤ 16 }
    ensures { result ≡ number_of octets.now }
{
    let mut number = 0;
    let mut rest = octets;
    'octets: while let Some((first, following)) = rest.split_first() {
        number = number * 256 + u128::from(*first);
        rest = following;
    }
    number
}

/// The bits of a bit string of at most sixteen octets: without those of the last octet that are not used, which are
/// zero.
fn first_bits(unused: u8, octets: &[u8]) -> Option<Address>
    requires legal { AreBits (bits_of unused octets.now) }
    requires short { length octets.now ≤ 16 }
    ensures some { IfSome result (λ x. HasBits x (bits_of unused octets.now)) }
    ensures none { IfNone result ((x : Address) → HasBits x (bits_of unused octets.now) → ⊥) }
{
    let size = octets.len() as u8 * 8 - unused;
    let written = written_number(octets);
    let part = 1u128 << unused;
    if written % part != 0 {
        return None;
    }
    Some(Address {
        number: written / part,
        size,
    })
}

/// The bits that the contents of a bit string are, at most so many.
fn address_of(contents: &[u8], width: u8) -> Option<Address>
    requires { width ≤ 128 }
    ensures some { IfSome result (λ x. IsAddress width x contents.now) }
    ensures none { IfNone result ((x : Address) → IsAddress width x contents.now → ⊥) }
{
    let [unused, octets @ ..] = contents else {
        return None;
    };
    if !BitString::is_legal(*unused, octets) || octets.len() > 16 {
        return None;
    }
    match first_bits(*unused, octets) {
        Some(address) => {
            if address.size <= width {
                return Some(address);
            }
            None
        }
        None => None,
    }
}

impl Address {
    /// Reads the first bits of an address: a BIT STRING of at most as many bits as an address of the family has.
    ///
    /// The errors are those of a header; then `Unexpected` for another tag or form; then `Truncated`; then `Content`
    /// for contents that are not those of a bit string, or for more bits.
    pub fn take_from(
        cons: &mut Constructed<'_>,
        family: AddressFamily,
    ) -> Result<Address, DecodeError>
        ensures { Takes (λ x. x) (address (width family)) (left cons.old) (left cons.new) result }
    {
        let mut after = *cons;
        let contents = after.take_primitive_if(Tag::BIT_STRING)?;
        match address_of(contents, family.width()) {
            Some(address) => {
                *cons = after;
                Ok(address)
            }
            None => Err(DecodeError::content("malformed address")),
        }
    }

    /// The lowest address of the family that begins with the bits: the others are 0.
    pub fn low_end(self, family: AddressFamily) -> u128
        requires size { self.size ≤ width family }
        requires number { self.number < 2 ^ self.size }
        ensures { result ≡ low_end (width family) self }
    {
        let missing = family.width() - self.size;
        if missing == 128 {
            return 0;
        }
        self.number << missing
    }

    /// The highest address of the family that begins with the bits: the others are 1.
    pub fn high_end(self, family: AddressFamily) -> u128
        requires size { self.size ≤ width family }
        requires number { self.number < 2 ^ self.size }
        ensures { result ≡ high_end (width family) self }
    {
        let missing = family.width() - self.size;
        if missing == 128 {
            return u128::MAX;
        }
        let ones = (1u128 << missing) - 1;
        (self.number << missing) + ones
    }

    /// All addresses of the family that begin with the bits: a prefix.
    pub fn prefix(self, family: AddressFamily) -> Block
        requires size { self.size ≤ width family }
        requires number { self.number < 2 ^ self.size }
        ensures { result ≡ prefix_block (width family) self }
    {
        Block {
            low: self.low_end(family),
            high: self.high_end(family),
        }
    }
}
