//! Rules on what the certificate of a signed object says of resources (RFC 9286 5.1, RFC 9582 5).

ghost use Rattle.std.specs.Prelude.{◌≡◌, ◌↔◌, IsTrue};
ghost use Rattle.rpki_resources.specs.Extension.{SpellsIpResources, SpellsAsResources};
ghost use Rattle.rpki_cert.specs.ResourceExtensions.{addresses_of, numbers_of, are_own_addresses};
ghost use Rattle.rpki_cert.specs.ResourceExtensions.{are_own_numbers, SaysThat};
ghost use Rattle.rpki_cert.specs.RuleError.{ChecksBy};
ghost use Rattle.rpki_valid.specs.Valid.{HasReason};
ghost use Rattle.rpki_valid.specs.ObjectResources.{is_unlisted, are_unlisted_addresses, are_unlisted_numbers};
ghost use Rattle.rpki_valid.specs.ObjectResources.{AreInherited, HasAddresses, HasNumbers, HasNoAddresses};
ghost use Rattle.rpki_valid.specs.ObjectResources.{HasNoNumbers, AreOwnAddresses, AreOwnNumbers};
ghost use Rattle.rpki_valid.specs.ErrorTexts.{not_inherited_text, no_addresses_text, inherited_addresses_text};
ghost use Rattle.rpki_valid.specs.ErrorTexts.{numbers_beside_text, no_numbers_text, inherited_numbers_text};
ghost use Rattle.rpki_valid.specs.ErrorTexts.{addresses_beside_text};

use crate::verify::unverified;
use rpki::repository::error::ValidationError;
use rpki_cert::{TbsCert, are_own_addresses, are_own_numbers};
use rpki_resources::{ChoiceView, IpResourcesView};

/// Whether nothing is listed.
fn is_unlisted(choice: &ChoiceView<'_>) -> bool
    ensures { result ≡ is_unlisted choice.now }
{
    match choice {
        ChoiceView::Blocks(_) => false,
        _ => true,
    }
}

/// Whether no addresses are listed.
fn are_unlisted_addresses(found: Option<IpResourcesView<'_>>) -> bool
    ensures { result ≡ are_unlisted_addresses found.entry }
{
    match found {
        Some(resources) => is_unlisted(&resources.v4) && is_unlisted(&resources.v6),
        None => true,
    }
}

/// Whether no numbers are listed.
fn are_unlisted_numbers(found: Option<ChoiceView<'_>>) -> bool
    ensures { result ≡ are_unlisted_numbers found.entry }
{
    match found {
        Some(choice) => is_unlisted(&choice),
        None => true,
    }
}

/// Whether the certificate lists no addresses.
fn lists_no_addresses(cert: &TbsCert) -> bool
    ensures { IsTrue result ↔ SaysThat SpellsIpResources (addresses_of cert.now.extensions) are_unlisted_addresses }
{
    match cert.ip_resources() {
        Ok(found) => are_unlisted_addresses(found),
        Err(_) => false,
    }
}

/// Whether the certificate lists no numbers.
fn lists_no_numbers(cert: &TbsCert) -> bool
    ensures { IsTrue result ↔ SaysThat SpellsAsResources (numbers_of cert.now.extensions) are_unlisted_numbers }
{
    match cert.as_resources() {
        Ok(found) => are_unlisted_numbers(found),
        Err(_) => false,
    }
}

/// Whether all resources that the certificate names are those of its issuer.
fn are_inherited(cert: &TbsCert) -> bool
    ensures { IsTrue result ↔ AreInherited cert.now.extensions }
{
    lists_no_addresses(cert) && lists_no_numbers(cert)
}

/// Whether the certificate names addresses.
fn has_addresses(cert: &TbsCert) -> bool
    ensures { IsTrue result ↔ HasAddresses cert.now.extensions }
{
    match cert.ip_resources() {
        Ok(found) => found.is_some(),
        Err(_) => true,
    }
}

/// Whether the certificate names numbers of autonomous systems.
fn has_numbers(cert: &TbsCert) -> bool
    ensures { IsTrue result ↔ HasNumbers cert.now.extensions }
{
    match cert.as_resources() {
        Ok(found) => found.is_some(),
        Err(_) => true,
    }
}

/// Whether the addresses are in canonical form, and are not those of the issuer.
fn has_own_addresses(cert: &TbsCert) -> bool
    ensures { IsTrue result ↔ AreOwnAddresses cert.now.extensions }
{
    match cert.ip_resources() {
        Ok(found) => are_own_addresses(found),
        Err(_) => false,
    }
}

/// Whether the numbers are in canonical form, and are not those of the issuer.
fn has_own_numbers(cert: &TbsCert) -> bool
    ensures { IsTrue result ↔ AreOwnNumbers cert.now.extensions }
{
    match cert.as_resources() {
        Ok(found) => are_own_numbers(found),
        Err(_) => false,
    }
}

/// The rule that all resources that the certificate names are those of its issuer (RFC 9286 5.1).
pub(crate) fn verify_inherited(cert: &TbsCert) -> Result<(), ValidationError>
    ensures { ChecksBy (AreInherited cert.now.extensions) (HasReason not_inherited_text)
        result }
{
    if are_inherited(cert) {
        return Ok(());
    }
    Err(unverified("RFC 9286 5.1: resources that are not inherited"))
}

/// The rule that the certificate names addresses (RFC 9582 5).
pub(crate) fn verify_addresses(cert: &TbsCert) -> Result<(), ValidationError>
    ensures { ChecksBy (HasAddresses cert.now.extensions) (HasReason no_addresses_text) result }
{
    if has_addresses(cert) {
        return Ok(());
    }
    Err(unverified("RFC 9582 5: no addresses"))
}

/// The rule that the addresses are not those of the issuer (RFC 9582 5).
pub(crate) fn verify_own_addresses(cert: &TbsCert) -> Result<(), ValidationError>
    ensures { ChecksBy (AreOwnAddresses cert.now.extensions) (HasReason inherited_addresses_text) result }
{
    if has_own_addresses(cert) {
        return Ok(());
    }
    Err(unverified("RFC 9582 5: inherited addresses"))
}

/// The rule that the certificate names no numbers of autonomous systems (RFC 9582 5).
pub(crate) fn verify_no_numbers(cert: &TbsCert) -> Result<(), ValidationError>
    ensures { ChecksBy (HasNoNumbers cert.now.extensions) (HasReason numbers_beside_text) result }
{
    if has_numbers(cert) {
        return Err(unverified("RFC 9582 5: AS numbers beside prefixes"));
    }
    Ok(())
}

/// The rule that the certificate names numbers of autonomous systems (draft-ietf-sidrops-aspa-profile 4).
pub(crate) fn verify_numbers(cert: &TbsCert) -> Result<(), ValidationError>
    ensures { ChecksBy (HasNumbers cert.now.extensions) (HasReason no_numbers_text) result }
{
    if has_numbers(cert) {
        return Ok(());
    }
    Err(unverified("draft-ietf-sidrops-aspa-profile 4: no AS numbers"))
}

/// The rule that the numbers are not those of the issuer (draft-ietf-sidrops-aspa-profile 4).
pub(crate) fn verify_own_numbers(cert: &TbsCert) -> Result<(), ValidationError>
    ensures { ChecksBy (AreOwnNumbers cert.now.extensions) (HasReason inherited_numbers_text) result }
{
    if has_own_numbers(cert) {
        return Ok(());
    }
    Err(unverified("draft-ietf-sidrops-aspa-profile 4: inherited AS numbers"))
}

/// The rule that the certificate names no addresses (draft-ietf-sidrops-aspa-profile 4).
pub(crate) fn verify_no_addresses(cert: &TbsCert) -> Result<(), ValidationError>
    ensures { ChecksBy (HasNoAddresses cert.now.extensions) (HasReason addresses_beside_text) result }
{
    if has_addresses(cert) {
        return Err(unverified("draft-ietf-sidrops-aspa-profile 4: addresses beside AS numbers"));
    }
    Ok(())
}
