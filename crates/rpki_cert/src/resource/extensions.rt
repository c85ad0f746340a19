//! What a certificate says of resources (RFC 6487 4.8.10, 4.8.11, RFC 8360 4.2.2), read in place without memory.

ghost use Rattle.std.specs.Prelude.{◌≡◌, ◌↔◌, List, true, IsTrue};
ghost use Rattle.rpki_der.specs.Cursor.{left};
ghost use Rattle.rpki_der.specs.Reading.{Reads};
ghost use Rattle.rpki.specs.ExtensionValue.{ExtensionParts};
ghost use Rattle.rpki_resources.specs.Extension.{SpellsIpResources, IsIpResourcesFault, SpellsAsResources};
ghost use Rattle.rpki_resources.specs.Extension.{IsAsResourcesFault};
ghost use Rattle.rpki_cert.specs.Known.{IsSaid};
ghost use Rattle.rpki_cert.specs.ExtensionTable.{OfListed};
ghost use Rattle.rpki_cert.specs.Inspected.{AreIn};
ghost use Rattle.rpki_cert.specs.ResourceExtensions.{first_there, addresses_of, numbers_of, IsWholeIpFault};
ghost use Rattle.rpki_cert.specs.ResourceExtensions.{IsWholeAsFault, IsWellFormed, AreWellFormed, is_own};
ghost use Rattle.rpki_cert.specs.ResourceExtensions.{are_own_addresses, are_own_numbers, SaysThat, AreOwn};

use crate::extension::accessors::wanted;
use crate::extension::kind::ExtensionKind;
use crate::extension::source::ExtensionSource;
use crate::read::fields::Keyed;
use crate::tbs::TbsCert;
use rpki::der::Constructed;
use rpki::repository::error::ValidationError;
use rpki::repository::x509::ExtensionView;
use rpki_resources::{ChoiceView, IpResourcesView, take_as_resources, take_ip_resources};

/// The first of the two, where it is there; else the other.
fn first_there<'a>(
    first: Option<ExtensionView<'a>>,
    other: Option<ExtensionView<'a>>,
) -> Option<ExtensionView<'a>>
    ensures { result ≡ first_there first.entry other.entry }
{
    match first {
        Some(extension) => Some(extension),
        None => other,
    }
}

/// The extension of addresses: that of RFC 3779 where it is there; else that of RFC 8360.
fn addresses_of<'a>(all: &ExtensionSource<'a>) -> Option<ExtensionView<'a>>
    ensures { (xs : List ExtensionParts) → AreIn xs all.now → result ≡ addresses_of xs }
{
    first_there(
        all.find(ExtensionKind::IpResources),
        all.find(ExtensionKind::IpResourcesV2),
    )
}

/// The extension of numbers of autonomous systems: that of RFC 3779 where it is there; else that of RFC 8360.
fn numbers_of<'a>(all: &ExtensionSource<'a>) -> Option<ExtensionView<'a>>
    ensures { (xs : List ExtensionParts) → AreIn xs all.now → result ≡ numbers_of xs }
{
    first_there(
        all.find(ExtensionKind::AsResources),
        all.find(ExtensionKind::AsResourcesV2),
    )
}

/// The addresses, as the extension that was found says them (RFC 6487 4.8.10).
fn ip_resources_in<'a>(
    found: Option<ExtensionView<'a>>,
) -> Result<Option<IpResourcesView<'a>>, ValidationError>
    ensures { IsSaid true SpellsIpResources IsWholeIpFault found.entry result }
{
    match wanted(found, true) {
        Ok(Some(extension)) => {
            let value = Constructed::from_slice(extension.octets()).whole(
                |cons|
                    ensures { Reads (λ x. x) SpellsIpResources IsIpResourcesFault (left cons.old) (left cons.new)
                        result }
                { take_ip_resources(cons) },
            );
            match value {
                Ok(found) => Ok(Some(found)),
                Err(e) => Err(ValidationError::Decoding(e)),
            }
        }
        Ok(None) => Ok(None),
        Err(e) => Err(ValidationError::Inspection(e)),
    }
}

/// The numbers of autonomous systems, as the extension that was found says them (RFC 6487 4.8.11).
fn as_resources_in<'a>(
    found: Option<ExtensionView<'a>>,
) -> Result<Option<ChoiceView<'a>>, ValidationError>
    ensures { IsSaid true SpellsAsResources IsWholeAsFault found.entry result }
{
    match wanted(found, true) {
        Ok(Some(extension)) => {
            let value = Constructed::from_slice(extension.octets()).whole(
                |cons|
                    ensures { Reads (λ x. x) SpellsAsResources IsAsResourcesFault (left cons.old) (left cons.new)
                        result }
                { take_as_resources(cons) },
            );
            match value {
                Ok(found) => Ok(Some(found)),
                Err(e) => Err(ValidationError::Decoding(e)),
            }
        }
        Ok(None) => Ok(None),
        Err(e) => Err(ValidationError::Inspection(e)),
    }
}

/// Whether addresses, where they were found, are in canonical form.
fn are_addresses(found: Option<ExtensionView<'_>>) -> bool
    ensures { IsTrue result ↔ IsWellFormed SpellsIpResources found.entry }
{
    match ip_resources_in(found) {
        Ok(_) => true,
        Err(_) => false,
    }
}

/// Whether numbers, where they were found, are in canonical form.
fn are_numbers(found: Option<ExtensionView<'_>>) -> bool
    ensures { IsTrue result ↔ IsWellFormed SpellsAsResources found.entry }
{
    match as_resources_in(found) {
        Ok(_) => true,
        Err(_) => false,
    }
}

/// Whether addresses and numbers, where they are there, are in canonical form.
pub fn are_well_formed(all: &ExtensionSource<'_>) -> bool
    ensures { (xs : List ExtensionParts) → AreIn xs all.now → IsTrue result ↔ AreWellFormed xs }
{
    are_addresses(addresses_of(all)) && are_numbers(numbers_of(all))
}

/// Whether these are not those of the issuer.
fn is_own(choice: &ChoiceView<'_>) -> bool
    ensures { result ≡ is_own choice.now }
{
    match choice {
        ChoiceView::Inherit => false,
        _ => true,
    }
}

/// Whether no addresses are those of the issuer.
pub fn are_own_addresses(found: Option<IpResourcesView<'_>>) -> bool
    ensures { result ≡ are_own_addresses found.entry }
{
    match found {
        Some(resources) => is_own(&resources.v4) && is_own(&resources.v6),
        None => true,
    }
}

/// Whether no numbers are those of the issuer.
pub fn are_own_numbers(found: Option<ChoiceView<'_>>) -> bool
    ensures { result ≡ are_own_numbers found.entry }
{
    match found {
        Some(choice) => is_own(&choice),
        None => true,
    }
}

/// Whether the addresses that were found are in canonical form, and none are those of the issuer.
fn says_own_addresses(found: Option<ExtensionView<'_>>) -> bool
    ensures { IsTrue result ↔ SaysThat SpellsIpResources found.entry are_own_addresses }
{
    match ip_resources_in(found) {
        Ok(resources) => are_own_addresses(resources),
        Err(_) => false,
    }
}

/// Whether the numbers that were found are in canonical form, and are not those of the issuer.
fn says_own_numbers(found: Option<ExtensionView<'_>>) -> bool
    ensures { IsTrue result ↔ SaysThat SpellsAsResources found.entry are_own_numbers }
{
    match as_resources_in(found) {
        Ok(choice) => are_own_numbers(choice),
        Err(_) => false,
    }
}

/// Whether no resources are those of the issuer.
pub fn are_own(all: &ExtensionSource<'_>) -> bool
    ensures { (xs : List ExtensionParts) → AreIn xs all.now → IsTrue result ↔ AreOwn xs }
{
    says_own_addresses(addresses_of(all)) && says_own_numbers(numbers_of(all))
}

impl TbsCert {
    /// The addresses, where one of the two extensions is there: critical, and in canonical form (RFC 3779 2.2.3, RFC
    /// 6487 4.8.10). Where both are there, that of RFC 3779 is read, and not that of RFC 8360; the inspections reject
    /// such a certificate. Allocates nothing.
    ///
    /// Returns `Inspection` if the extension is not critical; `Decoding` if its octets are another value.
    pub fn ip_resources(&self) -> Result<Option<IpResourcesView<'_>>, ValidationError>
        ensures { IsSaid true SpellsIpResources IsWholeIpFault (addresses_of self.now.extensions) result }
    {
        ip_resources_in(addresses_of(&ExtensionSource::Kept(self.extensions())))
    }

    /// The numbers of autonomous systems, where one of the two extensions is there, as [TbsCert::ip_resources] (RFC
    /// 3779 3.2.3, RFC 6487 4.8.11). Allocates nothing.
    ///
    /// Returns `Inspection` if the extension is not critical; `Decoding` if its octets are another value.
    pub fn as_resources(&self) -> Result<Option<ChoiceView<'_>>, ValidationError>
        ensures { IsSaid true SpellsAsResources IsWholeAsFault (numbers_of self.now.extensions) result }
    {
        as_resources_in(numbers_of(&ExtensionSource::Kept(self.extensions())))
    }
}

impl Keyed<'_> {
    /// The addresses, as [TbsCert::ip_resources].
    pub fn ip_resources(&self) -> Result<Option<IpResourcesView<'_>>, ValidationError>
        ensures { OfListed self.now.extensions
            (λ xs. IsSaid true SpellsIpResources IsWholeIpFault (addresses_of xs) result) }
    {
        ip_resources_in(addresses_of(&ExtensionSource::Listed(&self.extensions)))
    }

    /// The numbers of autonomous systems, as [TbsCert::as_resources].
    pub fn as_resources(&self) -> Result<Option<ChoiceView<'_>>, ValidationError>
        ensures { OfListed self.now.extensions
            (λ xs. IsSaid true SpellsAsResources IsWholeAsFault (numbers_of xs) result) }
    {
        as_resources_in(numbers_of(&ExtensionSource::Listed(&self.extensions)))
    }
}
