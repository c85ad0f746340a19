//! Which kind of object octets are.

ghost use Rattle.std.specs.Prelude.{◌≡◌};
ghost use Rattle.rpki_fields.specs.ObjectType.{inside, behind, content_type_in, content_kind, signed_kind, kind_inside};
ghost use Rattle.rpki_fields.specs.ObjectType.{kind_of};
ghost use Rattle.rpki_fields.specs.ObjectType.{kind_text};

use crate::name::after;

/// The identifier octets of an INTEGER and its contents, which say version 2 of a revocation list.
const VERSION: &[u8] = &[2, 1, 1];

/// The object identifier of a manifest: `id-ct-rpkiManifest` (RFC 9286 4.1).
const MANIFEST: &[u8] = &[6, 11, 42, 134, 72, 134, 247, 13, 1, 9, 16, 1, 26];

/// That of a route origin attestation: `id-ct-routeOriginAuthz` (RFC 9582 3).
const ORIGINS: &[u8] = &[6, 11, 42, 134, 72, 134, 247, 13, 1, 9, 16, 1, 24];

/// That of an attestation of providers: `id-ct-ASPA` (draft-ietf-sidrops-aspa-profile 2).
const PROVIDERS: &[u8] = &[6, 11, 42, 134, 72, 134, 247, 13, 1, 9, 16, 1, 49];

/// That of a signed checklist: `id-ct-signedChecklist` (RFC 9323 3).
const CHECKLIST: &[u8] = &[6, 11, 42, 134, 72, 134, 247, 13, 1, 9, 16, 1, 48];

/// That of trust anchor keys: `id-ct-signedTAL` (RFC 9691 3.1).
const ANCHOR_KEYS: &[u8] = &[6, 11, 42, 134, 72, 134, 247, 13, 1, 9, 16, 1, 50];

/// That of a Ghostbusters record: `id-ct-rpkiGhostbusters` (RFC 6493 5).
const GHOSTBUSTERS: &[u8] = &[6, 11, 42, 134, 72, 134, 247, 13, 1, 9, 16, 1, 35];

/// A kind of object in a repository.
#[derive(Clone, Copy, Debug, PartialEq, Eq)]
pub enum ObjectType {
    /// A certificate (RFC 6487 4, RFC 8209 3.1).
    Certificate,
    /// A revocation list (RFC 6487 5).
    Crl,
    /// A manifest (RFC 9286).
    Manifest,
    /// A route origin attestation (RFC 9582).
    Roa,
    /// An attestation of providers (draft-ietf-sidrops-aspa-profile).
    Aspa,
    /// A signed checklist (RFC 9323).
    Checklist,
    /// Trust anchor keys (RFC 9691).
    TrustAnchorKey,
    /// A Ghostbusters record (RFC 6493).
    Ghostbusters,
    /// A signed object of any other content (RFC 6488).
    SignedObject,
}

/// What follows the identifier octet and the length octets of the value at the front.
fn inside(octets: &[u8]) -> &[u8]
    ensures { result.now ≡ inside octets.now }
{
    match octets {
        [_, length, rest @ ..] => {
            if *length < 128 {
                rest
            } else {
                after(rest, (*length - 128) as usize)
            }
        }
        _ => &[],
    }
}

/// What follows the value at the front, where its length is one octet.
fn behind(octets: &[u8]) -> &[u8]
    ensures { result.now ≡ behind octets.now }
{
    match octets {
        [_, length, rest @ ..] => after(rest, *length as usize),
        _ => &[],
    }
}

/// The identifier of the type of a content, of what is in the SEQUENCE of a ContentInfo.
fn content_type_in(contents: &[u8]) -> &[u8]
    ensures { result.now ≡ content_type_in contents.now }
{
    let data = inside(inside(behind(contents)));
    inside(behind(behind(data)))
}

/// The kind of a signed object whose content has the type that is at the front.
fn content_kind(front: &[u8]) -> ObjectType
    ensures { result ≡ content_kind front.now }
{
    if front.starts_with(MANIFEST) {
        ObjectType::Manifest
    } else if front.starts_with(ORIGINS) {
        ObjectType::Roa
    } else if front.starts_with(PROVIDERS) {
        ObjectType::Aspa
    } else if front.starts_with(CHECKLIST) {
        ObjectType::Checklist
    } else if front.starts_with(ANCHOR_KEYS) {
        ObjectType::TrustAnchorKey
    } else if front.starts_with(GHOSTBUSTERS) {
        ObjectType::Ghostbusters
    } else {
        ObjectType::SignedObject
    }
}

/// The kind of a signed value, by what is signed.
fn signed_kind(signed: &[u8]) -> ObjectType
    ensures { result ≡ signed_kind signed.now }
{
    if signed.starts_with(VERSION) {
        ObjectType::Crl
    } else {
        ObjectType::Certificate
    }
}

/// The kind by what is in the SEQUENCE around all.
fn kind_inside(contents: &[u8]) -> ObjectType
    ensures { result ≡ kind_inside contents.now }
{
    if contents.starts_with(&[6]) {
        content_kind(content_type_in(contents))
    } else if contents.starts_with(&[48]) {
        signed_kind(inside(contents))
    } else {
        ObjectType::Certificate
    }
}

impl ObjectType {
    /// The kind of object that the octets are, if they are one: by what is at their front, and not by a name. That
    /// of a certificate where nothing tells. Allocates nothing.
    pub fn of(octets: &[u8]) -> ObjectType
        ensures { result ≡ kind_of octets.now }
    {
        if octets.starts_with(&[48]) {
            kind_inside(inside(octets))
        } else {
            ObjectType::Certificate
        }
    }

    /// What a person reads of it: `revocation list`.
    pub fn text(self) -> &'static str
        ensures { result.now ≡ kind_text self }
    {
        match self {
            ObjectType::Certificate => "certificate",
            ObjectType::Crl => "revocation list",
            ObjectType::Manifest => "manifest",
            ObjectType::Roa => "route origin attestation",
            ObjectType::Aspa => "provider attestation",
            ObjectType::Checklist => "signed checklist",
            ObjectType::TrustAnchorKey => "trust anchor key",
            ObjectType::Ghostbusters => "Ghostbusters record",
            ObjectType::SignedObject => "signed object",
        }
    }
}
