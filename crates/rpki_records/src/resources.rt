//! The resources of a signed checklist, in place (RFC 9323 4.2).

ghost use Rattle.std.specs.Prelude.{◌≡◌, IfErr, IfOk, Some};
ghost use Rattle.std.specs.Option.{option_copied};
ghost use Rattle.rpki_der.specs.Prelude.{TakesWholeInPlace, left};
ghost use Rattle.rpki_der.specs.Reading.{Reads};
ghost use Rattle.rpki_resources.specs.Extension.{IsAsResourcesFault, IsIpResourcesFault, SpellsAsResources};
ghost use Rattle.rpki_resources.specs.Extension.{SpellsIpResources, as_resources, ip_resources};
ghost use Rattle.rpki_records.specs.ChecklistResources.{AreAddresses, AreNoAddresses, AreNoNumbers, AreNumbers};
ghost use Rattle.rpki_records.specs.ChecklistResources.{AreNoResources, AreResources, is_any_inherited, is_inherited};
ghost use Rattle.rpki_records.specs.Checklist.{found_checklist};

use crate::checklist::Checklist;
use rpki_der::{Constructed, DecodeError};
use rpki_resources::{ChoiceView, IpResourcesView, take_as_resources, take_ip_resources};

/// The resources of a checklist, in place.
#[derive(Drop)]
pub struct ResourceBlock<'a> {
    /// The AS numbers.
    pub numbers: ChoiceView<'a>,
    /// The IP addresses of both families.
    pub addresses: IpResourcesView<'a>,
}

/// The addresses that all of the octets are.
fn read_addresses(octets: &[u8]) -> Result<IpResourcesView<'_>, DecodeError>
    ensures { TakesWholeInPlace (λ x. x) ip_resources octets.now result }
{
    Constructed::from_slice(octets).whole(
        |cons|
            ensures { Reads (λ x. x) SpellsIpResources IsIpResourcesFault (left cons.old) (left cons.new) result }
        { take_ip_resources(cons) },
    )
}

/// The AS numbers that all of the octets are.
fn read_numbers(octets: &[u8]) -> Result<ChoiceView<'_>, DecodeError>
    ensures { TakesWholeInPlace (λ x. x) as_resources octets.now result }
{
    Constructed::from_slice(octets).whole(
        |cons|
            ensures { Reads (λ x. x) SpellsAsResources IsAsResourcesFault (left cons.old) (left cons.new) result }
        { take_as_resources(cons) },
    )
}

/// Whether resources are those of the issuer.
fn is_inherited(choice: &ChoiceView<'_>) -> bool
    ensures { result ≡ is_inherited choice.now }
{
    match choice {
        ChoiceView::Missing => false,
        ChoiceView::Inherit => true,
        ChoiceView::Blocks(_) => false,
    }
}

/// Whether those of a family are.
fn is_any_inherited(found: &IpResourcesView<'_>) -> bool
    ensures { result ≡ is_any_inherited found.now }
{
    is_inherited(&found.v4) || is_inherited(&found.v6)
}

/// The AS numbers that all of the octets are, which aren't those of the issuer.
fn own_numbers(octets: &[u8]) -> Result<ChoiceView<'_>, DecodeError>
    ensures ok { IfOk result (AreNumbers (Some octets.now)) }
    ensures err { IfErr result (λ _. AreNoNumbers (Some octets.now)) }
{
    match read_numbers(octets) {
        Ok(numbers) => {
            if is_inherited(&numbers) {
                return Err(DecodeError::content("resources of the issuer"));
            }
            Ok(numbers)
        }
        Err(e) => Err(e),
    }
}

/// The addresses that all of the octets are, which aren't those of the issuer.
fn own_addresses(octets: &[u8]) -> Result<IpResourcesView<'_>, DecodeError>
    ensures ok { IfOk result (AreAddresses (Some octets.now)) }
    ensures err { IfErr result (λ _. AreNoAddresses (Some octets.now)) }
{
    match read_addresses(octets) {
        Ok(addresses) => {
            if is_any_inherited(&addresses) {
                return Err(DecodeError::content("resources of the issuer"));
            }
            Ok(addresses)
        }
        Err(e) => Err(e),
    }
}

/// The AS numbers under their tag; `Missing` where it isn't there.
fn numbers_under<'a>(octets: Option<&'a [u8]>) -> Result<ChoiceView<'a>, DecodeError>
    ensures ok { IfOk result (AreNumbers (option_copied octets.entry)) }
    ensures err { IfErr result (λ _. AreNoNumbers (option_copied octets.entry)) }
{
    match octets {
        Some(octets) => own_numbers(octets),
        None => Ok(ChoiceView::Missing),
    }
}

/// The IP addresses under their tag; `Missing` of both families where it isn't there.
fn addresses_under<'a>(octets: Option<&'a [u8]>) -> Result<IpResourcesView<'a>, DecodeError>
    ensures ok { IfOk result (AreAddresses (option_copied octets.entry)) }
    ensures err { IfErr result (λ _. AreNoAddresses (option_copied octets.entry)) }
{
    match octets {
        Some(octets) => own_addresses(octets),
        None => Ok(IpResourcesView {
            v4: ChoiceView::Missing,
            v6: ChoiceView::Missing,
        }),
    }
}

impl<'a> Checklist<'a> {
    /// The resources, in canonical form (RFC 3779 2.2.3, 3.2.3): `Missing` what the checklist doesn't name. Allocates
    /// nothing.
    ///
    /// The error is that of the leftmost part that isn't there; `Content` for those of the issuer, which a checklist
    /// can't name (RFC 9323 4.2.1, 4.2.2).
    pub fn resources(&self) -> Result<ResourceBlock<'a>, DecodeError>
        ensures ok { IfOk result (AreResources (found_checklist self.now)) }
        ensures err { IfErr result (λ _. AreNoResources (found_checklist self.now)) }
    {
        match numbers_under(self.numbers) {
            Ok(numbers) => match addresses_under(self.addresses) {
                Ok(addresses) => Ok(ResourceBlock { numbers, addresses }),
                Err(e) => Err(e),
            },
            Err(e) => Err(e),
        }
    }
}
