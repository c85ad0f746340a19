//! Prefixes of route origin attestations (RFC 9582 4.3.2).
//!
//! ```text
//! ROAIPAddress ::= SEQUENCE {
//!     address    IPAddress,
//!     maxLength  INTEGER OPTIONAL }
//! ```

ghost use Rattle.std.specs.Prelude.{◌↔◌, ◌≤◌, IsTrue};
ghost use Rattle.rpki_der.specs.Prelude.{left, integer, sequence, around, Takes, TakesAll, TakesWhere};
ghost use Rattle.rpki_resources.specs.Address.{width, IsAddressOf};
ghost use Rattle.rpki_contents.specs.RoaAddress.{AreAddressesIn, IsAddressIn, IsMaxLength, address_parts, max_length};
ghost use Rattle.rpki_contents.specs.RoaAddress.{parts_of, roa_address};

use rpki_der::{Constructed, DecodeError, Tag};
use rpki_resources::{Address, AddressFamily};

/// A prefix, and how long the prefixes in it that are announced may be.
#[derive(Clone, Copy, Debug, PartialEq, Eq)]
pub struct RoaIpAddress {
    /// The bits of the prefix.
    pub prefix: Address,
    /// The maximum length, in bits; None where it is left out, and then only the prefix itself may be announced.
    pub max_length: Option<u8>,
}

/// The maximum length, where there is an INTEGER: one below 2^8.
fn take_max_length(cons: &mut Constructed<'_>) -> Result<Option<u8>, DecodeError>
    ensures { TakesWhere integer (λ n. n) max_length (left cons.old) (left cons.new) result }
{
    if !cons.has_tag(Tag::INTEGER) {
        return Ok(None);
    }
    let length = cons.take_u8()?;
    Ok(Some(length))
}

/// A SEQUENCE of the bits of a prefix and of a maximum length, which may be left out and may be any.
fn take_parts(
    cons: &mut Constructed<'_>,
    family: AddressFamily,
) -> Result<RoaIpAddress, DecodeError>
    ensures { Takes parts_of (around sequence (address_parts (width family))) (left cons.old) (left cons.new) result }
{
    cons.in_sequence(
        |contents|
            ensures { TakesAll parts_of (address_parts (width family)) (left contents.old) (left contents.new) result }
        {
            let prefix = Address::take_from(contents, family)?;
            let max_length = take_max_length(contents)?;
            Ok(RoaIpAddress { prefix, max_length })
        },
    )
}

/// Whether the bits are of an address of the family: no more than it has, and no more than these make the number.
fn is_address_of(family: AddressFamily, address: Address) -> bool
    ensures { IsTrue result ↔ IsAddressOf (width family) address }
{
    if address.size > family.width() {
        return false;
    }
    if address.size == 128 {
        return true;
    }
    address.number < 1u128 << address.size
}

/// Whether a maximum length, where there is one, is from this length to that of an address of the family.
fn is_max_length(family: AddressFamily, length: u8, max_length: Option<u8>) -> bool
    ensures { IsTrue result ↔ IsMaxLength (width family) length max_length }
{
    match max_length {
        Some(most) => length <= most && most <= family.width(),
        None => true,
    }
}

/// Whether each is a prefix of the family, as [RoaIpAddress::is_in] tests.
pub(crate) fn are_addresses_in(family: AddressFamily, addresses: &[RoaIpAddress]) -> bool
    ensures { IsTrue result ↔ AreAddressesIn (width family) addresses.now }
{
    let mut rest = addresses;
    'each: while let Some((first, following)) = rest.split_first() {
        if !first.is_in(family) {
            return false;
        }
        rest = following;
    }
    true
}

impl RoaIpAddress {
    /// Whether this is a prefix of the family: its bits are of an address of it, and its maximum length, where there is
    /// one, is from the prefix's length to that of an address (RFC 9582 4.3.2).
    pub fn is_in(self, family: AddressFamily) -> bool
        ensures { IsTrue result ↔ IsAddressIn (width family) self }
    {
        is_address_of(family, self.prefix)
            && is_max_length(family, self.prefix.size, self.max_length)
    }

    /// Reads a prefix: a SEQUENCE of a BIT STRING of at most as many bits as an address of the family has, and of a
    /// maximum length from the prefix's length to that of an address, which may be left out; and nothing else. A
    /// maximum length that is the prefix's is taken, although it should be left out (RFC 9582 4.3.2.2). Allocates
    /// nothing.
    ///
    /// The errors are those of a SEQUENCE; then those of [Address::take_from]; then those of an INTEGER below 2^8, or
    /// `Trailing` if more follows; then `Content` for a maximum length that is another. An error leaves the cursor
    /// where it was.
    pub fn take_from(
        cons: &mut Constructed<'_>,
        family: AddressFamily,
    ) -> Result<RoaIpAddress, DecodeError>
        ensures { Takes (λ x. x) (roa_address (width family)) (left cons.old) (left cons.new) result }
    {
        let mut after = *cons;
        let found = take_parts(&mut after, family)?;
        if !is_max_length(family, found.prefix.size, found.max_length) {
            return Err(DecodeError::content("invalid maximum length of prefixes"));
        }
        *cons = after;
        Ok(found)
    }
}
