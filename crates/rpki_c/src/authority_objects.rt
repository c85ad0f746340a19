//! Signed objects below an authority of a path.

ghost use Rattle.std.specs.Prelude.{◌≡◌, List, ℕ, Bool};
ghost use Rattle.rpki_objects.specs.SignedObject.{ObjectParts};
ghost use Rattle.rpki_objects.specs.SignedObjectView.{IsObjectAt};
ghost use Rattle.rpki_c.specs.SignedObject.{certificate_in};
ghost use Rattle.rpki_c.specs.AuthorityManifest.{TestsSigned};
ghost use Rattle.rpki_c.specs.AuthorityObject.{TestsOrigin, TestsOriginBelow, IsOriginTold};
ghost use Rattle.rpki_c.specs.AuthorityObject.{TestsCustomer, TestsProvidersBelow, AreProvidersTold};

use crate::aspa::{AspaParts, aspa_of, aspa_part_number};
use crate::authority::Authority;
use crate::below::{below, has_manifest};
use crate::content_type::rpki_content_type;
use crate::object_verified::{attributes_verified, test_content};
use crate::owned::{Addresses, addresses_under, numbers_under};
use crate::roa::{RoaParts, roa_of, roa_part_number};
use crate::signed_object::object_part_number;
use crate::signer_resources::{lists_addresses, lists_numbers};
use crate::status::{
    NO_MANIFEST, OTHER_KINDS, OTHER_RESOURCES, OTHER_SIGNER, OTHER_TYPE, OUT_OF_MEMORY,
};
use rpki_cert::{KnownView, Profile, is_identifier};
use rpki_contents::{AspaView, RoaView, RouteOriginAttestation};
use rpki_objects::SignedObjectView;
use rpki_resources::Blocks;
use std::alloc::Global;

/// Tests that the key of the certificate has signed the object, and that the certificate is that of an end entity,
/// valid below the authority; says what its extensions say.
///
/// The error is, in this order: `OTHER_TYPE`; `OTHER_DIGEST`; as that of [below]; `OTHER_SIGNER`; `KEY_NOT_ACCEPTED` or
/// `BAD_SIGNATURE`, as of `rpki_verify`.
pub(crate) fn signed_below(
    by: &Authority<'_>,
    found: &SignedObjectView<'_>,
) -> Result<KnownView, u8>
    requires { (strict : Bool) × (s : List ℕ) × (x : ObjectParts) × IsObjectAt strict s found.now x }
    ensures { (strict : Bool) (s : List ℕ) (x : ObjectParts) (h : IsObjectAt strict s found.now x)
        → TestsSigned by.now x (certificate_in strict x s h.spelled) result }
{
    match test_content(found) {
        Ok(()) => {}
        Err(status) => return Err(status),
    }
    let cert = &found.cert.parts;
    let known = match below(by, cert, Profile::Ee) {
        Ok(known) => known,
        Err(status) => return Err(status),
    };
    if !is_identifier(known.subject_key_identifier, found.signer.identifier) {
        return Err(OTHER_SIGNER);
    }
    let told = attributes_verified(
        &cert.tbs.named.keyed.key,
        found.signer.signed_attrs.octets.octets,
        found.signer.signature.octets,
    );
    if told != 0 {
        return Err(told);
    }
    Ok(known)
}

/// Tests that the octets are a route origin attestation, and that each address of each prefix is among these; hands out
/// its parts.
///
/// The error is, in this order: as of `rpki_roa`; `OTHER_RESOURCES`; or `OUT_OF_MEMORY`.
fn origin_within<'a>(
    alloc: Global,
    octets: &'a [u8],
    strict: bool,
    own: &Addresses,
) -> Result<RoaParts<'a>, u8>
    ensures { TestsOrigin strict octets.now own.now result }
{
    let found = match RoaView::read(octets, strict) {
        Ok(found) => found,
        Err(wrong) => return Err(roa_part_number(wrong.part)),
    };
    let Ok(roa) = RouteOriginAttestation::decode(alloc, octets, strict) else {
        return Err(OUT_OF_MEMORY);
    };
    match roa.is_within(alloc, &own.v4, &own.v6) {
        Ok(true) => Ok(roa_of(found)),
        Ok(false) => Err(OTHER_RESOURCES),
        Err(_) => Err(OUT_OF_MEMORY),
    }
}

/// Tests what [rpki_authority_origin] does; the error is its status.
fn origin_below<'a>(
    alloc: Global,
    by: &Authority<'_>,
    octets: &'a [u8],
    strict: bool,
) -> Result<RoaParts<'a>, u8>
    ensures { TestsOriginBelow strict by.now octets.now result }
{
    let found = match SignedObjectView::read(octets, strict) {
        Ok(found) => found,
        Err(wrong) => return Err(object_part_number(wrong.part)),
    };
    if rpki_content_type(found.content.content_type.octets) != 1 {
        return Err(OTHER_TYPE);
    }
    let known = match signed_below(by, &found) {
        Ok(known) => known,
        Err(status) => return Err(status),
    };
    let cert = &found.cert.parts;
    if !lists_addresses(&cert.tbs.named.keyed) {
        return Err(OTHER_KINDS);
    }
    let own = match addresses_under(alloc, cert, &known, by.ip_blocks) {
        Ok(own) => own,
        Err(status) => return Err(status),
    };
    match origin_within(alloc, found.content.content.octets, strict, &own) {
        Ok(parts) => Ok(parts),
        Err(status) => Err(status),
    }
}

/// Reads a route origin attestation, a signed object, and says what it says, where it is valid below an authority of a
/// path: whether its content is one, which the key of its certificate has signed (RFC 6488 3); the certificate is that
/// of an end entity, as `rpki_authority_end` asks; it names addresses, none of which are its issuer's, and no AS
/// numbers; and it has the addresses of each prefix (RFC 9582 5). If `strict`, as of `rpki_signed_object` and
/// `rpki_roa`.
///
/// The status is 0. Else it is, in this order: `NO_MANIFEST`, where the authority has none yet; as of
/// `rpki_signed_object`; `OTHER_TYPE`, where the content is of another type, or not of the one that is signed;
/// `OTHER_DIGEST`; as of `rpki_authority_end`; `OTHER_SIGNER`; `KEY_NOT_ACCEPTED` or `BAD_SIGNATURE`, as of
/// `rpki_verify`; `OTHER_KINDS`; as of `rpki_ip_settle`; as of `rpki_roa_is_within`. Then
/// `out` is unchanged.
#[unsafe(no_mangle)]
pub extern "C" fn rpki_authority_origin<'a>(
    alloc: Global,
    by: &Authority<'_>,
    octets: &'a [u8],
    strict: bool,
    out: &mut RoaParts<'a>,
) -> u8
    ensures { IsOriginTold strict by.now octets.now result out.old out.new }
{
    if !has_manifest(by) {
        return NO_MANIFEST;
    }
    match origin_below(alloc, by, octets, strict) {
        Ok(parts) => {
            *out = parts;
            0
        }
        Err(status) => status,
    }
}

/// Tests that the octets are an attestation of providers, and that its customer is among these numbers; hands out its
/// parts.
///
/// The error is, in this order: as of `rpki_aspa`; or `OTHER_RESOURCES`.
fn customer_within<'a>(octets: &'a [u8], own: &Blocks) -> Result<AspaParts<'a>, u8>
    ensures { TestsCustomer octets.now own.now result }
{
    let found = match AspaView::read(octets) {
        Ok(found) => found,
        Err(wrong) => return Err(aspa_part_number(wrong.part)),
    };
    if !own.contains(u128::from(found.customer)) {
        return Err(OTHER_RESOURCES);
    }
    Ok(aspa_of(found))
}

/// Tests what [rpki_authority_providers] does; the error is its status.
fn providers_below<'a>(
    alloc: Global,
    by: &Authority<'_>,
    octets: &'a [u8],
    strict: bool,
) -> Result<AspaParts<'a>, u8>
    ensures { TestsProvidersBelow strict by.now octets.now result }
{
    let found = match SignedObjectView::read(octets, strict) {
        Ok(found) => found,
        Err(wrong) => return Err(object_part_number(wrong.part)),
    };
    if rpki_content_type(found.content.content_type.octets) != 3 {
        return Err(OTHER_TYPE);
    }
    let known = match signed_below(by, &found) {
        Ok(known) => known,
        Err(status) => return Err(status),
    };
    let cert = &found.cert.parts;
    if !lists_numbers(&cert.tbs.named.keyed) {
        return Err(OTHER_KINDS);
    }
    let own = match numbers_under(alloc, cert, &known, by.as_blocks) {
        Ok(own) => own,
        Err(status) => return Err(status),
    };
    match customer_within(found.content.content.octets, &own) {
        Ok(parts) => Ok(parts),
        Err(status) => Err(status),
    }
}

/// Reads an attestation of providers, a signed object, and says what it says, where it is valid below an authority of a
/// path: as [rpki_authority_origin], but that its certificate names AS numbers, none of which are its issuer's, and no
/// addresses; and that it has the number of the customer (draft-ietf-sidrops-aspa-profile 4).
///
/// The status is 0. Else it is as that of [rpki_authority_origin], but as of `rpki_as_settle` and of
/// `rpki_aspa_is_within` in place of the last two, and `out` is unchanged.
#[unsafe(no_mangle)]
pub extern "C" fn rpki_authority_providers<'a>(
    alloc: Global,
    by: &Authority<'_>,
    octets: &'a [u8],
    strict: bool,
    out: &mut AspaParts<'a>,
) -> u8
    ensures { AreProvidersTold strict by.now octets.now result out.old out.new }
{
    if !has_manifest(by) {
        return NO_MANIFEST;
    }
    match providers_below(alloc, by, octets, strict) {
        Ok(parts) => {
            *out = parts;
            0
        }
        Err(status) => status,
    }
}
