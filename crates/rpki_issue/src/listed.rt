//! The extensions of a certificate, written in sequence (RFC 6487 4.8).

ghost use Rattle.std.specs.Prelude.{◌≡◌, [], ◌∷◌, length, IfOk, IfErr, option_map};
ghost use Rattle.rpki_der.specs.OptionalPart.{OfPart};
ghost use Rattle.rpki.specs.ExtensionValue.{AreShort};
ghost use Rattle.rpki_resources.specs.EncodedResources.{ip_octets, as_identifiers_octets};
ghost use Rattle.rpki_issue.specs.Contents.{CanPoint, CanPublish, CanState};
ghost use Rattle.rpki_issue.specs.RowNames.{row_parts};
ghost use Rattle.rpki_issue.specs.Rows.{subject_extension, authority_extension, usage_extension, points_extension};
ghost use Rattle.rpki_issue.specs.Rows.{issuers_extension, repository_extension, object_extension};
ghost use Rattle.rpki_issue.specs.Rows.{policies_extension, addresses_extension, numbers_extension};
ghost use Rattle.rpki_issue.specs.Extensions.{constraints_part, authority_part, purposes_part, points_part};
ghost use Rattle.rpki_issue.specs.Extensions.{issuers_part, access_part, addresses_part, numbers_part, own_parts};
ghost use Rattle.rpki_issue.specs.Extensions.{pointing_parts, last_parts, HasUris, AreUris, CanHoldIp, CanHoldAs};
ghost use Rattle.rpki_issue.specs.Extensions.{CanHold};
ghost use Rattle.rpki_issue.specs.Issuing.{AreKeys, HasIssuerKey};
ghost use Rattle.rpki_issue.specs.Refusal.{IsMore, AreListed, IsIpRefusal, IsAsRefusal, IsPartRefusal, IsListRefusal};

use crate::capture::capture;
use crate::contents::{
    encode_access, encode_authority, encode_constraints, encode_points, encode_policies,
    encode_purposes, encode_repository, encode_subject_identifier, encode_usage,
};
use crate::error::IssueError;
use crate::kind::{CertExtensions, CertKind, Issuance, Repository};
use crate::row::Row;
use rpki::crypto::KeyIdentifier;
use rpki::der::{Captured, Values};
use rpki::oid;
use rpki::repository::x509::encode_extension;
use rpki::uri::{Https, Rsync};
use rpki_cert::KeyUsage;
use rpki_resources::{AsResources, IpResources};
use std::alloc::{AllocError, Global};

/// Adds an extension with this content. Requires that lengths announce its parts.
pub(crate) fn push<V: Values + Drop>(
    listed: &mut Vec<u8>,
    row: Row,
    content: V,
) -> Result<(), AllocError>
    requires content { V.is_short content }
    requires all { AreShort (row_parts row (V.encoded content)) }
    ensures { IfOk result (λ _. IsMore listed.old.items listed.new.items (row_parts row (V.encoded content) ∷ [])) }
{
    let extension = encode_extension(row.identifier(), row.critical(), content);
    match extension.write_encoded(listed) {
        Ok(()) => Ok(()),
        Err(_) => Err(AllocError),
    }
}

/// Adds the basic constraints of an authority.
fn push_constraints(listed: &mut Vec<u8>, kind: &CertKind<'_>) -> Result<(), AllocError>
    ensures { IfOk result (λ _. IsMore listed.old.items listed.new.items (constraints_part kind.now)) }
{
    match kind {
        CertKind::Anchor(_) | CertKind::Authority(_, _) => {
            push(listed, Row::BasicConstraints, encode_constraints())
        }
        CertKind::Object(_, _) | CertKind::Detached(_) | CertKind::Router(_) => Ok(()),
    }
}

/// Adds the identifier of the subject's key.
fn push_subject(listed: &mut Vec<u8>, key: KeyIdentifier) -> Result<(), AllocError>
    ensures more { IfOk result (λ _. IsMore listed.old.items listed.new.items (subject_extension key ∷ [])) }
    ensures size { IfOk result (λ _. length key ≡ 20) }
{
    let content = encode_subject_identifier(key);
    push(listed, Row::SubjectKeyIdentifier, content)
}

/// Adds the identifier of the issuer's key.
fn push_issuer(listed: &mut Vec<u8>, issuance: &Issuance<'_>) -> Result<(), AllocError>
    ensures more { IfOk result (λ _. IsMore listed.old.items listed.new.items
        (authority_extension issuance.now.key ∷ [])) }
    ensures size { IfOk result (λ _. length issuance.now.key ≡ 20) }
{
    let content = encode_authority(issuance.key);
    push(listed, Row::AuthorityKeyIdentifier, content)
}

/// Adds the identifier of the issuer's key, but for a trust anchor.
fn push_authority(listed: &mut Vec<u8>, kind: &CertKind<'_>) -> Result<(), AllocError>
    ensures more { IfOk result (λ _. IsMore listed.old.items listed.new.items (authority_part kind.now)) }
    ensures size { IfOk result (λ _. HasIssuerKey kind.now) }
{
    match kind {
        CertKind::Anchor(_) => Ok(()),
        CertKind::Authority(issuance, _) => push_issuer(listed, issuance),
        CertKind::Object(issuance, _) => push_issuer(listed, issuance),
        CertKind::Detached(issuance) => push_issuer(listed, issuance),
        CertKind::Router(issuance) => push_issuer(listed, issuance),
    }
}

/// Adds the use of the key.
pub(crate) fn push_usage(listed: &mut Vec<u8>, usage: KeyUsage) -> Result<(), AllocError>
    ensures { IfOk result (λ _. IsMore listed.old.items listed.new.items (usage_extension usage ∷ [])) }
{
    push(listed, Row::KeyUsage, encode_usage(usage))
}

/// Adds the purpose of a router's key.
fn push_purposes(listed: &mut Vec<u8>, kind: &CertKind<'_>) -> Result<(), AllocError>
    ensures { IfOk result (λ _. IsMore listed.old.items listed.new.items (purposes_part kind.now)) }
{
    match kind {
        CertKind::Router(_) => push(listed, Row::ExtendedKeyUsage, encode_purposes()),
        CertKind::Anchor(_) | CertKind::Authority(_, _) => Ok(()),
        CertKind::Object(_, _) | CertKind::Detached(_) => Ok(()),
    }
}

/// Adds where a revocation list is.
fn push_list(listed: &mut Vec<u8>, uri: &Rsync) -> Result<(), AllocError>
    requires { CanPoint uri.now }
    ensures { IfOk result (λ _. IsMore listed.old.items listed.new.items (points_extension uri.now ∷ [])) }
{
    push(listed, Row::CrlDistributionPoints, encode_points(uri))
}

/// Adds where the issuer's revocation list is, but for a trust anchor.
fn push_points(listed: &mut Vec<u8>, kind: &CertKind<'_>) -> Result<(), AllocError>
    requires { HasUris kind.now }
    ensures { IfOk result (λ _. IsMore listed.old.items listed.new.items (points_part kind.now)) }
{
    match kind {
        CertKind::Anchor(_) => Ok(()),
        CertKind::Authority(issuance, _) => push_list(listed, issuance.list),
        CertKind::Object(issuance, _) => push_list(listed, issuance.list),
        CertKind::Detached(issuance) => push_list(listed, issuance.list),
        CertKind::Router(issuance) => push_list(listed, issuance.list),
    }
}

/// Adds where a certificate is.
fn push_certificate(listed: &mut Vec<u8>, uri: &Rsync) -> Result<(), AllocError>
    requires { CanPoint uri.now }
    ensures { IfOk result (λ _. IsMore listed.old.items listed.new.items (issuers_extension uri.now ∷ [])) }
{
    let content = encode_access(oid::AD_CA_ISSUERS, uri);
    push(listed, Row::AuthorityInfoAccess, content)
}

/// Adds where the issuer's certificate is, but for a trust anchor.
fn push_issuers(listed: &mut Vec<u8>, kind: &CertKind<'_>) -> Result<(), AllocError>
    requires { HasUris kind.now }
    ensures { IfOk result (λ _. IsMore listed.old.items listed.new.items (issuers_part kind.now)) }
{
    match kind {
        CertKind::Anchor(_) => Ok(()),
        CertKind::Authority(issuance, _) => push_certificate(listed, issuance.certificate),
        CertKind::Object(issuance, _) => push_certificate(listed, issuance.certificate),
        CertKind::Detached(issuance) => push_certificate(listed, issuance.certificate),
        CertKind::Router(issuance) => push_certificate(listed, issuance.certificate),
    }
}

/// Adds where an authority publishes.
pub(crate) fn push_repository(
    listed: &mut Vec<u8>,
    repository: &Repository<'_>,
) -> Result<(), AllocError>
    requires { CanPublish repository.now }
    ensures { IfOk result (λ _. IsMore listed.old.items listed.new.items (repository_extension repository.now ∷ [])) }
{
    let content = encode_repository(repository);
    push(listed, Row::SubjectInfoAccess, content)
}

/// Adds where a signed object is.
fn push_object(listed: &mut Vec<u8>, uri: &Rsync) -> Result<(), AllocError>
    requires { CanPoint uri.now }
    ensures { IfOk result (λ _. IsMore listed.old.items listed.new.items (object_extension uri.now ∷ [])) }
{
    let content = encode_access(oid::AD_SIGNED_OBJECT, uri);
    push(listed, Row::SubjectInfoAccess, content)
}

/// Adds where an authority publishes, or where the signed object is.
fn push_access(listed: &mut Vec<u8>, kind: &CertKind<'_>) -> Result<(), AllocError>
    requires { HasUris kind.now }
    ensures { IfOk result (λ _. IsMore listed.old.items listed.new.items (access_part kind.now)) }
{
    match kind {
        CertKind::Anchor(repository) => push_repository(listed, repository),
        CertKind::Authority(_, repository) => push_repository(listed, repository),
        CertKind::Object(_, uri) => push_object(listed, uri),
        CertKind::Detached(_) | CertKind::Router(_) => Ok(()),
    }
}

/// Adds the policy, and where the statement of practices is.
fn push_policies(listed: &mut Vec<u8>, practices: Option<&Https>) -> Result<(), AllocError>
    requires { CanState (option_map (λ u. u.now) practices) }
    ensures { IfOk result (λ _. IsMore listed.old.items listed.new.items
        (policies_extension (option_map (λ u. u.now) practices.entry) ∷ [])) }
{
    let content = encode_policies(practices);
    push(listed, Row::CertificatePolicies, content)
}

/// Adds addresses.
fn push_ip(listed: &mut Vec<u8>, ip: &IpResources) -> Result<(), IssueError>
    ensures more { IfOk result (λ _. IsMore listed.old.items listed.new.items
        (addresses_extension (ip_octets ip.now) ∷ [])) }
    ensures hold { IfOk result (λ _. CanHoldIp ip.now) }
    ensures err { IfErr result (λ e. IsIpRefusal ip.now e) }
{
    let Some(content) = ip.encode_ref() else {
        return Err(IssueError::Resources);
    };
    if !content.fits() || content.encoded_len() >= 1 << 31 {
        return Err(IssueError::TooLong);
    }
    match push(listed, Row::IpAddrBlocks, content) {
        Ok(()) => Ok(()),
        Err(_) => Err(IssueError::OutOfMemory),
    }
}

/// Adds addresses, where the certificate has any.
fn push_addresses(listed: &mut Vec<u8>, ip: Option<&IpResources>) -> Result<(), IssueError>
    ensures more { IfOk result (λ _. IsMore listed.old.items listed.new.items
        (addresses_part (option_map (λ r. ip_octets r.now) ip.entry))) }
    ensures hold { IfOk result (λ _. OfPart CanHoldIp (option_map (λ r. r.now) ip.entry)) }
    ensures err { IfErr result (λ e. IsPartRefusal IsIpRefusal (option_map (λ r. r.now) ip.entry) e) }
{
    match ip {
        Some(ip) => push_ip(listed, ip),
        None => Ok(()),
    }
}

/// Adds numbers of autonomous systems.
fn push_as(listed: &mut Vec<u8>, asn: &AsResources) -> Result<(), IssueError>
    ensures more { IfOk result (λ _. IsMore listed.old.items listed.new.items
        (numbers_extension (as_identifiers_octets asn.now) ∷ [])) }
    ensures hold { IfOk result (λ _. CanHoldAs asn.now) }
    ensures err { IfErr result (λ e. IsAsRefusal asn.now e) }
{
    let Some(content) = asn.encode_ref() else {
        return Err(IssueError::Resources);
    };
    if !content.fits() || content.encoded_len() >= 1 << 31 {
        return Err(IssueError::TooLong);
    }
    match push(listed, Row::AutonomousSysIds, content) {
        Ok(()) => Ok(()),
        Err(_) => Err(IssueError::OutOfMemory),
    }
}

/// Adds numbers of autonomous systems, where the certificate has any.
fn push_numbers(listed: &mut Vec<u8>, asn: Option<&AsResources>) -> Result<(), IssueError>
    ensures more { IfOk result (λ _. IsMore listed.old.items listed.new.items
        (numbers_part (option_map (λ r. as_identifiers_octets r.now) asn.entry))) }
    ensures hold { IfOk result (λ _. OfPart CanHoldAs (option_map (λ r. r.now) asn.entry)) }
    ensures err { IfErr result (λ e. IsPartRefusal IsAsRefusal (option_map (λ r. r.now) asn.entry) e) }
{
    match asn {
        Some(asn) => push_as(listed, asn),
        None => Ok(()),
    }
}

/// Adds what the certificate says of itself: constraints, keys, their use and their purpose.
fn push_own(listed: &mut Vec<u8>, said: &CertExtensions<'_>) -> Result<(), AllocError>
    ensures more { IfOk result (λ _. IsMore listed.old.items listed.new.items (own_parts said.now)) }
    ensures keys { IfOk result (λ _. AreKeys said.now) }
{
    push_constraints(listed, &said.kind)?;
    push_subject(listed, said.subject_key)?;
    push_authority(listed, &said.kind)?;
    push_usage(listed, said.kind.usage())?;
    push_purposes(listed, &said.kind)?;
    Ok(())
}

/// Adds what is told of places, and the policy.
fn push_pointing(listed: &mut Vec<u8>, said: &CertExtensions<'_>) -> Result<(), AllocError>
    requires { AreUris said.now }
    ensures { IfOk result (λ _. IsMore listed.old.items listed.new.items (pointing_parts said.now)) }
{
    push_points(listed, &said.kind)?;
    push_issuers(listed, &said.kind)?;
    push_access(listed, &said.kind)?;
    push_policies(listed, said.practices)?;
    Ok(())
}

/// Adds the resources.
fn push_last(listed: &mut Vec<u8>, said: &CertExtensions<'_>) -> Result<(), IssueError>
    ensures more { IfOk result (λ _. IsMore listed.old.items listed.new.items (last_parts said.now)) }
    ensures hold { IfOk result (λ _. CanHold said.now) }
    ensures err { IfErr result (λ e. IsListRefusal said.now e) }
{
    push_addresses(listed, said.ip)?;
    push_numbers(listed, said.asn)?;
    Ok(())
}

/// The octets of all extensions.
fn write_list(alloc: Global, said: &CertExtensions<'_>) -> Result<Vec<u8>, IssueError>
    requires { AreUris said.now }
    ensures ok { IfOk result (λ v. AreListed said.now v.items) }
    ensures err { IfErr result (λ e. IsListRefusal said.now e) }
{
    let mut listed = Vec::new(alloc);
    push_own(&mut listed, said)?;
    push_pointing(&mut listed, said)?;
    push_last(&mut listed, said)?;
    Ok(listed)
}

/// The extensions, written in sequence, in the order of RFC 6487 4.8. Requires that readers accept the URIs.
///
/// The errors are `Resources` and `TooLong` of resources, and `OutOfMemory` if allocation fails.
pub(crate) fn write_extensions(
    alloc: Global,
    said: &CertExtensions<'_>,
) -> Result<Captured, IssueError>
    requires { AreUris said.now }
    ensures ok { IfOk result (λ c. AreListed said.now c) }
    ensures err { IfErr result (λ e. IsListRefusal said.now e) }
{
    let listed = write_list(alloc, said)?;
    capture(alloc, listed.as_slice())
}
