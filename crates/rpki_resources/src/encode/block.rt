//! Blocks of addresses and of AS numbers, as they are written (RFC 3779 2.2.3.7, 3.2.3.5).

ghost use Rattle.std.specs.Prelude.{◌≡◌, ◌≤◌, ◌/◌, ◌^◌, IfSome};
ghost use Rattle.rpki_resources.specs.Address.{width, IsAddressOf};
ghost use Rattle.rpki_resources.specs.Text.{IsBlockOfFamily};
ghost use Rattle.rpki_resources.specs.Encoded.{shared_bits, IsBlockOf, ip_block_octets, as_block_octets, block_octets};

use super::address::AddressEncoder;
use super::either::Either;
use crate::address::Address;
use crate::as_text::Asn;
use crate::block::Block;
use crate::family::AddressFamily;
use crate::kind::ResourceKind;
use crate::prefix::{is_prefix, missing_bits};
use rpki_der::{Primitive, PrimitiveContent, Sequence, Values};

/// The number without so many bits at its end.
fn without_last(number: u128, count: u8) -> u128
    requires { count ≤ 128 }
    ensures { result ≡ number / 2 ^ count }
{
    if count == 128 {
        return 0;
    }
    number >> count
}

/// The bits that all addresses of the block share, and no other address begins with; None where there are none.
fn shared_bits_of(family: AddressFamily, block: Block) -> Option<Address>
    requires { IsBlockOfFamily family block }
    ensures bits { result ≡ shared_bits (width family) block.low block.high }
    ensures legal { IfSome result (λ x. IsAddressOf (width family) x) }
{
    if !is_prefix(block.low, block.high) {
        return None;
    }
    let missing = missing_bits(block.low, block.high);
    Some(Address {
        number: without_last(block.low, missing),
        size: family.width() - missing,
    })
}

/// An encoder for one value, or for a SEQUENCE of two.
pub type OneOrTwo<V> = Either<V, Sequence<(V, V)>>;

/// An encoder for a block of addresses, or one of AS numbers.
pub type BlockEncoder = Either<OneOrTwo<AddressEncoder>, OneOrTwo<Primitive<Asn>>>;

/// An encoder for a block of addresses of the family: a prefix where they are one, else a range.
fn encode_addresses(family: AddressFamily, block: Block) -> OneOrTwo<AddressEncoder>
    requires { IsBlockOfFamily family block }
    ensures octets { ⟦<OneOrTwo<AddressEncoder> as Values>⟧.encoded result ≡ ip_block_octets (width family) block }
    ensures short { ⟦<OneOrTwo<AddressEncoder> as Values>⟧.is_short result }
{
    match shared_bits_of(family, block) {
        Some(bits) => Either::One(bits.encode()),
        None => {
            let low = Address::stripped_low(family, block.low);
            let high = Address::stripped_high(family, block.high);
            Either::Other(Sequence::new((low.encode(), high.encode())))
        }
    }
}

/// An encoder for a block of AS numbers: a number, or a range of two at least.
fn encode_numbers(block: Block) -> OneOrTwo<Primitive<Asn>>
    requires { IsBlockOf ResourceKind.AsNumbers block }
    ensures octets { ⟦<OneOrTwo<Primitive<Asn>> as Values>⟧.encoded result ≡ as_block_octets block }
    ensures short { ⟦<OneOrTwo<Primitive<Asn>> as Values>⟧.is_short result }
{
    let low = Asn(block.low as u32);
    if block.low == block.high {
        return Either::One(low.encode());
    }
    let high = Asn(block.high as u32);
    Either::Other(Sequence::new((low.encode(), high.encode())))
}

/// An encoder for a block of the kind.
pub fn encode_block(kind: ResourceKind, block: Block) -> BlockEncoder
    requires { IsBlockOf kind block }
    ensures octets { ⟦<BlockEncoder as Values>⟧.encoded result ≡ block_octets kind block }
    ensures short { ⟦<BlockEncoder as Values>⟧.is_short result }
{
    match kind {
        ResourceKind::Addresses(family) => Either::One(encode_addresses(family, block)),
        ResourceKind::AsNumbers => Either::Other(encode_numbers(block)),
    }
}
