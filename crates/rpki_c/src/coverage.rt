//! Whether what signed objects say is within the resources of their certificates.

ghost use Rattle.std.specs.Prelude.{◌≡◌, ◌↔◌, IsTrue};
ghost use Rattle.rpki_resources.specs.Blocks.{IsAmong};
ghost use Rattle.rpki_resources.specs.Extension.{SpellsIpResources, SpellsAsResources};
ghost use Rattle.rpki_cert.specs.ExtensionTable.{OfListed};
ghost use Rattle.rpki_cert.specs.ResourceExtensions.{addresses_of, numbers_of, SaysThat};
ghost use Rattle.rpki_valid.specs.ObjectResources.{is_unlisted, are_unlisted_addresses, are_unlisted_numbers};
ghost use Rattle.rpki_valid.specs.ObjectResources.{AreInherited};
ghost use Rattle.rpki_c.specs.Settling.{as_blocks};
ghost use Rattle.rpki_c.specs.Within.{IsRoaTold, IsAspaTold, IsManifestTold};

use crate::as_blocks::AsEntry;
use crate::aspa::aspa_part_number;
use crate::held::{are_as_untold, are_untold, held};
use crate::ip_blocks::IpEntry;
use crate::policies::read_policy;
use crate::roa::roa_part_number;
use crate::status::{NO_ANSWER, NOT_INHERITED, OTHER_RESOURCES, OUT_OF_MEMORY};
use rpki_cert::Keyed;
use rpki_contents::{AspaView, RoaView, RouteOriginAttestation};
use rpki_resources::{AddressFamily, ChoiceView, IpResourcesView};
use std::alloc::Global;

/// Reads a route origin attestation, and says whether each address of each of its prefixes is among the blocks, as
/// those of the certificate that signs it have to be (RFC 9582 5): as `rpki_ip_settle` writes them, in any order. It
/// takes n log n steps for n prefixes and blocks.
///
/// The status is 0. Else it is, in this order: `NO_ANSWER`, where a block says that addresses are those of an issuer;
/// as of `rpki_roa`; `OTHER_RESOURCES`; or `OUT_OF_MEMORY`.
#[unsafe(no_mangle)]
pub extern "C" fn rpki_roa_is_within(
    alloc: Global,
    octets: &[u8],
    strict: bool,
    blocks: &[IpEntry],
) -> u8
    ensures { IsRoaTold strict octets.now blocks.now result }
{
    if are_untold(blocks) {
        return NO_ANSWER;
    }
    match RoaView::read(octets, strict) {
        Ok(_) => {}
        Err(wrong) => return roa_part_number(wrong.part),
    }
    let Ok(roa) = RouteOriginAttestation::decode(alloc, octets, strict) else {
        return OUT_OF_MEMORY;
    };
    let Ok(v4) = held(alloc, AddressFamily::Ipv4, blocks) else {
        return OUT_OF_MEMORY;
    };
    let Ok(v6) = held(alloc, AddressFamily::Ipv6, blocks) else {
        return OUT_OF_MEMORY;
    };
    match roa.is_within(alloc, &v4, &v6) {
        Ok(within) => { if within { 0 } else { OTHER_RESOURCES } }
        Err(_) => OUT_OF_MEMORY,
    }
}

/// Whether the number is in one of the blocks.
fn contains(blocks: &[AsEntry], number: u32) -> bool
    ensures { IsTrue result ↔ IsAmong number (as_blocks blocks.now) }
{
    let mut rest = blocks;
    'each: while let Some((first, following)) = rest.split_first() {
        if first.low <= number && number <= first.high {
            return true;
        }
        rest = following;
    }
    false
}

/// Reads an attestation of the providers of an autonomous system, and says whether its customer is among the blocks, as
/// it has to be among those of the certificate that signs it (draft-ietf-sidrops-aspa-profile 4): as `rpki_as_settle`
/// writes them, in any order.
///
/// The status is 0. Else it is, in this order: `NO_ANSWER`, where a block says that AS numbers are those of an issuer;
/// as of `rpki_aspa`; `OTHER_RESOURCES`. Nothing is allocated.
#[unsafe(no_mangle)]
pub extern "C" fn rpki_aspa_is_within(octets: &[u8], blocks: &[AsEntry]) -> u8
    ensures { IsAspaTold octets.now blocks.now result }
{
    if are_as_untold(blocks) {
        return NO_ANSWER;
    }
    match AspaView::read(octets) {
        Ok(found) => {
            if contains(blocks, found.customer) {
                0
            } else {
                OTHER_RESOURCES
            }
        }
        Err(wrong) => aspa_part_number(wrong.part),
    }
}

/// Whether nothing is listed.
fn is_unlisted(choice: &ChoiceView<'_>) -> bool
    ensures { result ≡ is_unlisted choice.now }
{
    match choice {
        ChoiceView::Blocks(_) => false,
        _ => true,
    }
}

/// Whether no addresses are listed.
fn are_unlisted_addresses(found: Option<IpResourcesView<'_>>) -> bool
    ensures { result ≡ are_unlisted_addresses found.entry }
{
    match found {
        Some(resources) => is_unlisted(&resources.v4) && is_unlisted(&resources.v6),
        None => true,
    }
}

/// Whether no numbers are listed.
fn are_unlisted_numbers(found: Option<ChoiceView<'_>>) -> bool
    ensures { result ≡ are_unlisted_numbers found.entry }
{
    match found {
        Some(choice) => is_unlisted(&choice),
        None => true,
    }
}

/// Whether the extensions list no addresses.
fn lists_no_addresses(keyed: &Keyed<'_>) -> bool
    ensures { OfListed keyed.now.extensions
        (λ xs. IsTrue result ↔ SaysThat SpellsIpResources (addresses_of xs) are_unlisted_addresses) }
{
    match keyed.ip_resources() {
        Ok(found) => are_unlisted_addresses(found),
        Err(_) => false,
    }
}

/// Whether the extensions list no numbers.
fn lists_no_numbers(keyed: &Keyed<'_>) -> bool
    ensures { OfListed keyed.now.extensions
        (λ xs. IsTrue result ↔ SaysThat SpellsAsResources (numbers_of xs) are_unlisted_numbers) }
{
    match keyed.as_resources() {
        Ok(found) => are_unlisted_numbers(found),
        Err(_) => false,
    }
}

/// Whether all resources that the extensions name are those of the issuer.
pub(crate) fn are_inherited(keyed: &Keyed<'_>) -> bool
    ensures { OfListed keyed.now.extensions (λ xs. IsTrue result ↔ AreInherited xs) }
{
    lists_no_addresses(keyed) && lists_no_numbers(keyed)
}

/// Reads a resource certificate, and says whether all resources that it names are those of its issuer, as those of the
/// certificate that signs a manifest have to be (RFC 9286 5.1).
///
/// The status is 0. Else it is, in this order: as of `rpki_certificate_extensions`; the rule that a certificate has
/// policies; the rule that policy and resources are of one version (RFC 8360 4.2); `NOT_INHERITED`, where it lists
/// resources, or where an extension of them is not critical, or not in canonical form. Nothing is allocated.
#[unsafe(no_mangle)]
pub extern "C" fn rpki_manifest_inherits(octets: &[u8]) -> u8
    ensures { IsManifestTold octets.now result }
{
    match read_policy(octets) {
        Ok(read) => {
            if are_inherited(&read.0.cert.tbs.named.keyed) {
                0
            } else {
                NOT_INHERITED
            }
        }
        Err(status) => status,
    }
}
