//! Readers of the extension of IP address blocks, in place (RFC 3779 2.2.3, RFC 6487 4.8.10).
//!
//! ```text
//! IPAddrBlocks      ::= SEQUENCE OF IPAddressFamily
//! IPAddressFamily   ::= SEQUENCE { addressFamily OCTET STRING (SIZE (2)), ipAddressChoice IPAddressChoice }
//! IPAddressChoice   ::= CHOICE { inherit NULL, addressesOrRanges SEQUENCE OF IPAddressOrRange }
//! IPAddressOrRange  ::= CHOICE { addressPrefix IPAddress, addressRange IPAddressRange }
//! IPAddressRange    ::= SEQUENCE { min IPAddress, max IPAddress }
//! IPAddress         ::= BIT STRING
//! ```

ghost use Rattle.std.specs.Prelude.{IfSome, IfNone};
ghost use Rattle.rpki_der.specs.Prelude.{left, Takes, TakesAll};
ghost use Rattle.rpki_resources.specs.declared.family.AddressFamily.{AddressFamily};
ghost use Rattle.rpki_resources.specs.Extension.{IsFamily, family_name, family_parts, named_family, second_family};
ghost use Rattle.rpki_resources.specs.Extension.{ip_families, ip_resources};

use crate::choice_reading::take_choice;
use crate::choice_view::ChoiceView;
use crate::family::AddressFamily;
use crate::ip_view::IpResourcesView;
use crate::kind::ResourceKind;
use rpki_der::{Constructed, DecodeError};

/// The family that these octets name.
fn family_of(octets: &[u8]) -> Option<AddressFamily>
    ensures some { IfSome result (λ family. IsFamily family octets.now) }
    ensures none { IfNone result ((family : AddressFamily) → IsFamily family octets.now → ⊥) }
{
    match octets {
        [0, 1] => Some(AddressFamily::Ipv4),
        [0, 2] => Some(AddressFamily::Ipv6),
        _ => None,
    }
}

/// Reads the name of a family: an OCTET STRING of the two octets of its AFI (RFC 3779 2.2.3.3), and no SAFI.
///
/// The errors are those of a header; then `Unexpected` for another tag or form; then `Truncated`; then `Content` for
/// other octets.
pub fn take_family(cons: &mut Constructed<'_>) -> Result<AddressFamily, DecodeError>
    ensures { Takes (λ family. family) family_name (left cons.old) (left cons.new) result }
{
    let mut after = *cons;
    let octets = after.take_octets()?;
    match family_of(octets) {
        Some(family) => {
            *cons = after;
            Ok(family)
        }
        None => Err(DecodeError::content("unknown address family")),
    }
}

/// The name of a family, and its resources.
fn take_parts<'a>(
    contents: &mut Constructed<'a>,
) -> Result<(AddressFamily, ChoiceView<'a>), DecodeError>
    ensures { TakesAll (λ x. x) family_parts (left contents.old) (left contents.new) result }
{
    let family = take_family(contents)?;
    let choice = take_choice(contents, ResourceKind::Addresses(family))?;
    Ok((family, choice))
}

/// A SEQUENCE of the name of a family and its resources.
fn take_named<'a>(
    cons: &mut Constructed<'a>,
) -> Result<(AddressFamily, ChoiceView<'a>), DecodeError>
    ensures { Takes (λ x. x) named_family (left cons.old) (left cons.new) result }
{
    cons.in_sequence(
        |contents|
            ensures { TakesAll (λ x. x) family_parts (left contents.old) (left contents.new) result }
        { take_parts(contents) },
    )
}

/// The resources of IP version 6, which follow those of IP version 4.
fn take_second<'a>(contents: &mut Constructed<'a>) -> Result<ChoiceView<'a>, DecodeError>
    ensures { TakesAll (λ v. v) second_family (left contents.old) (left contents.new) result }
{
    let (family, choice) = take_named(contents)?;
    match family {
        AddressFamily::Ipv6 => Ok(choice),
        AddressFamily::Ipv4 => Err(DecodeError::content("address families out of order")),
    }
}

/// The families that these contents are: one or both, IP version 4 first.
fn take_families<'a>(contents: &mut Constructed<'a>) -> Result<IpResourcesView<'a>, DecodeError>
    ensures { TakesAll (λ x. x) ip_families (left contents.old) (left contents.new) result }
{
    let (family, first) = take_named(contents)?;
    match family {
        AddressFamily::Ipv6 => Ok(IpResourcesView {
            v4: ChoiceView::Missing,
            v6: first,
        }),
        AddressFamily::Ipv4 => {
            if contents.is_empty() {
                return Ok(IpResourcesView {
                    v4: first,
                    v6: ChoiceView::Missing,
                });
            }
            let second = take_second(contents)?;
            Ok(IpResourcesView {
                v4: first,
                v6: second,
            })
        }
    }
}

/// Reads the contents of the extension of IP address blocks in place: a SEQUENCE of one or both families, each once, IP
/// version 4 first. It takes no memory.
///
/// The error is that of the leftmost part that isn't there.
pub fn take_ip_resources<'a>(cons: &mut Constructed<'a>) -> Result<IpResourcesView<'a>, DecodeError>
    ensures { Takes (λ x. x) ip_resources (left cons.old) (left cons.new) result }
{
    cons.in_sequence(
        |contents|
            ensures { TakesAll (λ x. x) ip_families (left contents.old) (left contents.new) result }
        { take_families(contents) },
    )
}
