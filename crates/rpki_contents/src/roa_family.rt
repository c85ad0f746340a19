//! The prefixes of route origin attestations, by family (RFC 9582 4.3.1).
//!
//! ```text
//! ipAddrBlocks        SEQUENCE (SIZE (1..2)) OF ROAIPAddressFamily
//! ROAIPAddressFamily  ::= SEQUENCE {
//!     addressFamily  OCTET STRING (SIZE (2)),
//!     addresses      SEQUENCE (SIZE (1..MAX)) OF ROAIPAddress }
//! ```

ghost use Rattle.std.specs.Prelude.{◌≡◌, ◌↔◌, [], IsTrue};
ghost use Rattle.rpki_der.specs.Prelude.{left, sequence, around, optional_of, Takes, TakesAll};
ghost use Rattle.rpki_resources.specs.Address.{width};
ghost use Rattle.rpki_contents.specs.RoaAddress.{addresses, each_address, family_of, family_parts, roa_family};
ghost use Rattle.rpki_contents.specs.Roa.{alone, both_of, each_family, families, families_of, prefixes_in, together};

use crate::roa_address::RoaIpAddress;
use rpki_der::{Constructed, DecodeError};
use rpki_resources::{AddressFamily, take_family};
use std::alloc::Global;

/// The prefixes of one family.
#[derive(Drop)]
pub(crate) struct RoaFamily {
    /// The family.
    pub(crate) family: AddressFamily,
    /// Its prefixes, one at least.
    pub(crate) addresses: Vec<RoaIpAddress>,
}

/// The prefixes of both families.
#[derive(Drop)]
pub(crate) struct Prefixes {
    /// Those of IP version 4.
    pub(crate) v4: Vec<RoaIpAddress>,
    /// Those of IP version 6.
    pub(crate) v6: Vec<RoaIpAddress>,
}

/// The prefixes that these contents are, in sequence.
fn take_each_address(
    alloc: Global,
    contents: &mut Constructed<'_>,
    family: AddressFamily,
) -> Result<Vec<RoaIpAddress>, DecodeError>
    ensures { TakesAll (λ v. v.items) (each_address (width family)) (left contents.old) (left contents.new) result }
{
    contents.take_each(alloc, |rest| RoaIpAddress::take_from(rest, family))
}

/// A SEQUENCE OF prefixes, which may be none.
fn take_listed(
    alloc: Global,
    cons: &mut Constructed<'_>,
    family: AddressFamily,
) -> Result<Vec<RoaIpAddress>, DecodeError>
    ensures { Takes (λ v. v.items) (around sequence (each_address (width family))) (left cons.old) (left cons.new)
        result }
{
    cons.in_sequence(
        |contents|
            ensures { TakesAll (λ v. v.items) (each_address (width family)) (left contents.old) (left contents.new)
                result }
        { take_each_address(alloc, contents, family) },
    )
}

/// Whether there is no prefix.
pub(crate) fn are_none(addresses: &[RoaIpAddress]) -> bool
    ensures { IsTrue result ↔ (addresses.now ≡ []) }
{
    addresses.is_empty()
}

/// A SEQUENCE OF prefixes of the family, one at least.
fn take_addresses(
    alloc: Global,
    cons: &mut Constructed<'_>,
    family: AddressFamily,
) -> Result<Vec<RoaIpAddress>, DecodeError>
    ensures { Takes (λ v. v.items) (addresses (width family)) (left cons.old) (left cons.new) result }
{
    let mut after = *cons;
    let found = take_listed(alloc, &mut after, family)?;
    if are_none(found.as_slice()) {
        return Err(DecodeError::content("no prefixes"));
    }
    *cons = after;
    Ok(found)
}

/// The name of a family, and its prefixes, which are all of these contents.
fn take_family_parts(
    alloc: Global,
    contents: &mut Constructed<'_>,
) -> Result<RoaFamily, DecodeError>
    ensures { TakesAll family_of family_parts (left contents.old) (left contents.new) result }
{
    let family = take_family(contents)?;
    let addresses = take_addresses(alloc, contents, family)?;
    Ok(RoaFamily { family, addresses })
}

/// A SEQUENCE of the name of a family and of its prefixes.
fn take_roa_family(alloc: Global, cons: &mut Constructed<'_>) -> Result<RoaFamily, DecodeError>
    ensures { Takes family_of roa_family (left cons.old) (left cons.new) result }
{
    cons.in_sequence(|contents| take_family_parts(alloc, contents))
}

/// The families that these contents are, in sequence.
fn take_each_family(
    alloc: Global,
    contents: &mut Constructed<'_>,
) -> Result<Vec<RoaFamily>, DecodeError>
    ensures { TakesAll families_of each_family (left contents.old) (left contents.new) result }
{
    contents.take_each(alloc, |rest| take_roa_family(alloc, rest))
}

/// A SEQUENCE OF families, of any number.
fn take_any_families(
    alloc: Global,
    cons: &mut Constructed<'_>,
) -> Result<Vec<RoaFamily>, DecodeError>
    ensures { Takes families_of (around sequence each_family) (left cons.old) (left cons.new) result }
{
    cons.in_sequence(|contents| take_each_family(alloc, contents))
}

/// The prefixes of the one family that there is.
fn alone(alloc: Global, only: RoaFamily) -> Prefixes
    ensures { both_of result ≡ alone [] (family_of only) }
{
    match only.family {
        AddressFamily::Ipv4 => Prefixes {
            v4: only.addresses,
            v6: Vec::new(alloc),
        },
        AddressFamily::Ipv6 => Prefixes {
            v4: Vec::new(alloc),
            v6: only.addresses,
        },
    }
}

/// The prefixes of two families: one of each, and where it is `strict`, IP version 4 first.
fn together(strict: bool, first: RoaFamily, second: RoaFamily) -> Option<Prefixes>
    ensures { optional_of both_of result ≡ together strict (family_of first) (family_of second) }
{
    match first.family {
        AddressFamily::Ipv4 => match second.family {
            AddressFamily::Ipv4 => None,
            AddressFamily::Ipv6 => Some(Prefixes {
                v4: first.addresses,
                v6: second.addresses,
            }),
        },
        AddressFamily::Ipv6 => match second.family {
            AddressFamily::Ipv4 => {
                if strict {
                    return None;
                }
                Some(Prefixes {
                    v4: second.addresses,
                    v6: first.addresses,
                })
            }
            AddressFamily::Ipv6 => None,
        },
    }
}

/// The prefixes of one family or of two; None where there are others.
fn prefixes_in(alloc: Global, strict: bool, listed: Vec<RoaFamily>) -> Option<Prefixes>
    ensures { optional_of both_of result ≡ prefixes_in strict (families_of listed) }
{
    let mut others = listed;
    let last = match others.pop() {
        Some(last) => last,
        None => return None,
    };
    let first = match others.pop() {
        Some(first) => first,
        None => return Some(alone(alloc, last)),
    };
    if !others.is_empty() {
        return None;
    }
    together(strict, first, last)
}

/// A SEQUENCE of one family or of two, each once, and where it is `strict`, IP version 4 first.
pub(crate) fn take_families(
    alloc: Global,
    strict: bool,
    cons: &mut Constructed<'_>,
) -> Result<Prefixes, DecodeError>
    ensures { Takes both_of (families strict) (left cons.old) (left cons.new) result }
{
    let mut after = *cons;
    let listed = take_any_families(alloc, &mut after)?;
    match prefixes_in(alloc, strict, listed) {
        Some(found) => {
            *cons = after;
            Ok(found)
        }
        None => Err(DecodeError::content("invalid address families")),
    }
}
