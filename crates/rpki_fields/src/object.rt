//! Objects of a repository.

ghost use Rattle.std.specs.Prelude.{◌≡◌, IfOk, MatchResult, is_some};
ghost use Rattle.std.specs.Option.{option_map};
ghost use Rattle.rpki_der.specs.Prelude.{left, CanShare, Reads, Decodes, IsWholeFault};
ghost use Rattle.rpki_cert.specs.Cert.{SpellsCert};
ghost use Rattle.rpki_cert.specs.CertFault.{IsCertFault};
ghost use Rattle.rpki_fields.specs.declared.object_type.ObjectType.TheVariants as K;
ghost use Rattle.rpki_fields.specs.declared.object.Object.TheVariants as O;
ghost use Rattle.rpki_fields.specs.Object.{IsOf, IsNone, IsUnspelled, cert_of, objection_to};
ghost use Rattle.rpki_fields.specs.ObjectText.{IsCertSheet, IsSheet};

use crate::access_text::{cert_access, signer_access};
use crate::anchor_keys_text::anchor_keys_sheet;
use crate::card_text::card_sheet;
use crate::cert_text::fields;
use crate::checklist_text::checklist_sheet;
use crate::list_text::list_sheet;
use crate::manifest_text::manifest_sheet;
use crate::memory::is_memory;
use crate::object_type::ObjectType;
use crate::origin_text::origin_sheet;
use crate::other_cert::OtherCert;
use crate::other_cert_text::{objection, other_fields};
use crate::other_text::other_sheet;
use crate::provider_text::provider_sheet;
use crate::record::{check_anchor_keys, check_card, check_checklist};
use crate::resource_items::resource_items;
use crate::sheet::Sheet;
use bytes::Bytes;
use rpki::der::{Constructed, DecodeError, Shared};
use rpki::repository::error::ValidationError;
use rpki_cert::{Cert, TbsCert};
use rpki_crl::Crl;
use rpki_objects::{Aspa, Manifest, Roa, SignedObject, Strictness};
use std::alloc::{AllocError, Global};

/// An object of a repository. Nothing of it is verified.
#[derive(Drop)]
pub enum Object {
    /// A certificate.
    Certificate(Cert),
    /// A revocation list.
    Crl(Crl),
    /// A manifest.
    Manifest(Manifest),
    /// A route origin attestation.
    Roa(Roa),
    /// An attestation of providers.
    Aspa(Aspa),
    /// A signed checklist.
    Checklist(SignedObject),
    /// Trust anchor keys.
    TrustAnchorKey(SignedObject),
    /// A Ghostbusters record.
    Ghostbusters(SignedObject),
    /// A signed object of any other content.
    SignedObject(SignedObject),
    /// A certificate of an algorithm that the RPKI doesn't use.
    OtherCertificate(OtherCert),
}

/// The certificate in the profile of the RPKI that the octets are, whose octets it shares.
fn rpki_certificate(alloc: Global, octets: &Bytes) -> Result<Cert, DecodeError>
    ensures { Decodes (λ x. x) SpellsCert (IsWholeFault SpellsCert IsCertFault) octets.now result }
{
    Constructed::new(octets).whole_with(
        Shared::new(alloc, octets),
        |cons, keep|
            requires { CanShare keep (left cons.old) }
            ensures { Reads (λ x. x) SpellsCert IsCertFault (left cons.old) (left cons.new) result }
        { Ok(Cert::take_from(keep, cons)?) },
    )
}

/// The certificate of other algorithms that octets are which are none in the profile of the RPKI, with this error.
///
/// Requires that. Returns this error if they are no such certificate; `OutOfMemory` if allocation fails.
fn other_certificate(alloc: Global, octets: &[u8], e: DecodeError) -> Result<Object, DecodeError>
    requires { IsUnspelled SpellsCert IsCertFault octets.now e }
    ensures { MatchResult result (IsOf K.Certificate octets.now) (IsNone K.Certificate octets.now) }
{
    if is_memory(ValidationError::Decoding(e)) {
        return Err(e);
    }
    match OtherCert::decode(alloc, octets) {
        Ok(cert) => {
            if cert.has_other() {
                Ok(Object::OtherCertificate(cert))
            } else {
                Err(e)
            }
        }
        Err(d) => {
            if is_memory(ValidationError::Decoding(d)) {
                Err(d)
            } else {
                Err(e)
            }
        }
    }
}

/// The certificate that the octets are.
fn certificate(alloc: Global, octets: Bytes) -> Result<Object, DecodeError>
    ensures { MatchResult result (IsOf K.Certificate octets) (IsNone K.Certificate octets) }
{
    match rpki_certificate(alloc, &octets) {
        Ok(cert) => Ok(Object::Certificate(cert)),
        Err(e) => other_certificate(alloc, octets.as_slice(), e),
    }
}

/// The revocation list that the octets are.
fn revocation_list(alloc: Global, octets: Bytes) -> Result<Object, DecodeError>
    ensures { MatchResult result (IsOf K.Crl octets) (IsNone K.Crl octets) }
{
    match Crl::decode(alloc, octets) {
        Ok(list) => Ok(Object::Crl(list)),
        Err(e) => Err(e),
    }
}

/// The manifest that the octets are.
fn file_list(alloc: Global, octets: Bytes) -> Result<Object, DecodeError>
    ensures { MatchResult result (IsOf K.Manifest octets) (IsNone K.Manifest octets) }
{
    match Manifest::decode(alloc, octets, false) {
        Ok(manifest) => Ok(Object::Manifest(manifest)),
        Err(e) => Err(e),
    }
}

/// The route origin attestation that the octets are.
fn route_origins(alloc: Global, octets: Bytes) -> Result<Object, DecodeError>
    ensures { MatchResult result (IsOf K.Roa octets) (IsNone K.Roa octets) }
{
    match Roa::decode(alloc, octets, Strictness::default()) {
        Ok(origins) => Ok(Object::Roa(origins)),
        Err(e) => Err(e),
    }
}

/// The attestation of providers that the octets are.
fn providers(alloc: Global, octets: Bytes) -> Result<Object, DecodeError>
    ensures { MatchResult result (IsOf K.Aspa octets) (IsNone K.Aspa octets) }
{
    match Aspa::decode(alloc, octets, false) {
        Ok(attestation) => Ok(Object::Aspa(attestation)),
        Err(e) => Err(e),
    }
}

/// The signed checklist that the octets are.
fn checklist(alloc: Global, octets: Bytes) -> Result<Object, DecodeError>
    ensures { MatchResult result (IsOf K.Checklist octets) (IsNone K.Checklist octets) }
{
    match SignedObject::decode(alloc, octets, false) {
        Ok(object) => match check_checklist(alloc, &object) {
            Ok(()) => Ok(Object::Checklist(object)),
            Err(e) => Err(e),
        },
        Err(e) => Err(e),
    }
}

/// The trust anchor keys that the octets are.
fn anchor_keys(alloc: Global, octets: Bytes) -> Result<Object, DecodeError>
    ensures { MatchResult result (IsOf K.TrustAnchorKey octets) (IsNone K.TrustAnchorKey octets) }
{
    match SignedObject::decode(alloc, octets, false) {
        Ok(object) => match check_anchor_keys(&object) {
            Ok(()) => Ok(Object::TrustAnchorKey(object)),
            Err(e) => Err(e),
        },
        Err(e) => Err(e),
    }
}

/// The Ghostbusters record that the octets are.
fn contact(alloc: Global, octets: Bytes) -> Result<Object, DecodeError>
    ensures { MatchResult result (IsOf K.Ghostbusters octets) (IsNone K.Ghostbusters octets) }
{
    match SignedObject::decode(alloc, octets, false) {
        Ok(object) => match check_card(&object) {
            Ok(()) => Ok(Object::Ghostbusters(object)),
            Err(e) => Err(e),
        },
        Err(e) => Err(e),
    }
}

/// The signed object that the octets are.
fn other_content(alloc: Global, octets: Bytes) -> Result<Object, DecodeError>
    ensures { MatchResult result (IsOf K.SignedObject octets) (IsNone K.SignedObject octets) }
{
    match SignedObject::decode(alloc, octets, false) {
        Ok(object) => Ok(Object::SignedObject(object)),
        Err(e) => Err(e),
    }
}

/// The sheet of the certificate that these octets are, without its access descriptions.
fn own_sheet(alloc: Global, octets: &[u8], tbs: &TbsCert) -> Result<Sheet, AllocError>
    ensures { IfOk result (λ s. IsCertSheet octets.now tbs.now s) }
{
    let fields = fields(alloc, octets, tbs)?;
    let items = resource_items(alloc, tbs)?;
    Sheet::plain(fields).with_listing(alloc, b"Subordinate Resources", items, false)
}

/// The sheet of the certificate that these octets are.
fn cert_sheet(alloc: Global, octets: &[u8], cert: &Cert) -> Result<Sheet, AllocError>
    ensures { IfOk result (λ s. IsSheet octets.now (O.Certificate cert.now) s) }
{
    let sheet = own_sheet(alloc, octets, cert.tbs())?;
    cert_access(alloc, sheet, cert.tbs())
}

/// The sheet of a manifest.
fn file_sheet(alloc: Global, octets: &[u8], manifest: &Manifest) -> Result<Sheet, AllocError>
    ensures { IfOk result (λ s. IsSheet octets.now (O.Manifest manifest.now) s) }
{
    let sheet = manifest_sheet(alloc, manifest)?;
    signer_access(alloc, sheet, manifest.object().cert().tbs())
}

/// The sheet of a route origin attestation.
fn route_sheet(alloc: Global, octets: &[u8], origins: &Roa) -> Result<Sheet, AllocError>
    ensures { IfOk result (λ s. IsSheet octets.now (O.Roa origins.now) s) }
{
    let sheet = origin_sheet(alloc, origins)?;
    signer_access(alloc, sheet, origins.object().cert().tbs())
}

/// The sheet of an attestation of providers.
fn aspa_sheet(alloc: Global, octets: &[u8], attestation: &Aspa) -> Result<Sheet, AllocError>
    ensures { IfOk result (λ s. IsSheet octets.now (O.Aspa attestation.now) s) }
{
    let sheet = provider_sheet(alloc, attestation)?;
    signer_access(alloc, sheet, attestation.object().cert().tbs())
}

/// The sheet of a signed checklist.
fn digest_sheet(alloc: Global, octets: &[u8], object: &SignedObject) -> Result<Sheet, AllocError>
    ensures { IfOk result (λ s. IsSheet octets.now (O.Checklist object.now) s) }
{
    let sheet = checklist_sheet(alloc, object)?;
    signer_access(alloc, sheet, object.cert().tbs())
}

/// The sheet of trust anchor keys.
fn key_sheet(alloc: Global, octets: &[u8], object: &SignedObject) -> Result<Sheet, AllocError>
    ensures { IfOk result (λ s. IsSheet octets.now (O.TrustAnchorKey object.now) s) }
{
    let sheet = anchor_keys_sheet(alloc, object)?;
    signer_access(alloc, sheet, object.cert().tbs())
}

/// The sheet of a Ghostbusters record.
fn contact_sheet(alloc: Global, octets: &[u8], object: &SignedObject) -> Result<Sheet, AllocError>
    ensures { IfOk result (λ s. IsSheet octets.now (O.Ghostbusters object.now) s) }
{
    let sheet = card_sheet(alloc, object)?;
    signer_access(alloc, sheet, object.cert().tbs())
}

/// The sheet of a signed object of any other content.
fn content_sheet(alloc: Global, octets: &[u8], object: &SignedObject) -> Result<Sheet, AllocError>
    ensures { IfOk result (λ s. IsSheet octets.now (O.SignedObject object.now) s) }
{
    let sheet = other_sheet(alloc, object)?;
    signer_access(alloc, sheet, object.cert().tbs())
}

/// The sheet of the certificate of other algorithms that these octets are.
fn other_cert_sheet(alloc: Global, octets: &[u8], cert: &OtherCert) -> Result<Sheet, AllocError>
    ensures { IfOk result (λ s. IsSheet octets.now (O.OtherCertificate cert.now) s) }
{
    let fields = other_fields(alloc, octets, cert)?;
    Ok(Sheet::plain(fields))
}

impl Object {
    /// The object of this kind that the octets are, and nothing else. It shares the octets. Of signed objects the
    /// signed attributes may be as before RFC 9589, and families in any order. A certificate may have algorithms that
    /// the RPKI doesn't use.
    ///
    /// The errors are those of [Cert::decode], [Crl::decode], [Manifest::decode], [Roa::decode], [Aspa::decode] and
    /// [SignedObject::decode]; of a checklist, of trust anchor keys and of a Ghostbusters record then `Content` for
    /// another type of content, and those of [Checklist::read](rpki_records::Checklist::read),
    /// [TakView::read](rpki_records::TakView::read) and [Card::read](rpki_records::Card::read).
    pub fn decode(alloc: Global, kind: ObjectType, octets: Bytes) -> Result<Object, DecodeError>
        ensures { MatchResult result (IsOf kind octets) (IsNone kind octets) }
    {
        match kind {
            ObjectType::Certificate => certificate(alloc, octets),
            ObjectType::Crl => revocation_list(alloc, octets),
            ObjectType::Manifest => file_list(alloc, octets),
            ObjectType::Roa => route_origins(alloc, octets),
            ObjectType::Aspa => providers(alloc, octets),
            ObjectType::Checklist => checklist(alloc, octets),
            ObjectType::TrustAnchorKey => anchor_keys(alloc, octets),
            ObjectType::Ghostbusters => contact(alloc, octets),
            ObjectType::SignedObject => other_content(alloc, octets),
        }
    }

    /// The certificate in the profile of the RPKI that the object is, or that its signer has; a revocation list and a
    /// certificate of other algorithms have none.
    pub fn cert(&self) -> Option<&TbsCert>
        ensures { option_map (λ t. t.now) result ≡ cert_of self.now }
    {
        match self {
            Object::Certificate(cert) => Some(cert.tbs()),
            Object::Crl(_) => None,
            Object::Manifest(manifest) => Some(manifest.object().cert().tbs()),
            Object::Roa(origins) => Some(origins.object().cert().tbs()),
            Object::Aspa(attestation) => Some(attestation.object().cert().tbs()),
            Object::Checklist(object) => Some(object.cert().tbs()),
            Object::TrustAnchorKey(object) => Some(object.cert().tbs()),
            Object::Ghostbusters(object) => Some(object.cert().tbs()),
            Object::SignedObject(object) => Some(object.cert().tbs()),
            Object::OtherCertificate(_) => None,
        }
    }

    /// What the RPKI doesn't use of the object: the algorithm by which a certificate is signed, or that of its key, as
    /// `signed by ecdsa-with-SHA384, which the RPKI doesn't use` (RFC 7935 2, 3). None of all other objects.
    ///
    /// Returns `AllocError` if allocation fails.
    pub fn objection(&self, alloc: Global) -> Result<Option<Vec<u8>>, AllocError>
        ensures { IfOk result (λ o. option_map (λ v. v.items) o ≡ objection_to self.now) }
    {
        match self {
            Object::OtherCertificate(cert) => {
                let text = objection(alloc, cert)?;
                Ok(Some(text))
            }
            _ => Ok(None),
        }
    }

    /// Whether there is something of the object that the RPKI doesn't use, as [Object::objection] says.
    pub fn has_objection(&self) -> bool
        ensures { result ≡ is_some (objection_to self.now) }
    {
        match self {
            Object::OtherCertificate(_) => true,
            _ => false,
        }
    }

    /// The sheet of the object that these octets are.
    ///
    /// Returns `AllocError` if allocation fails.
    pub fn sheet(&self, alloc: Global, octets: &[u8]) -> Result<Sheet, AllocError>
        ensures { IfOk result (λ s. IsSheet octets.now self.now s) }
    {
        match self {
            Object::Certificate(cert) => cert_sheet(alloc, octets, cert),
            Object::Crl(list) => list_sheet(alloc, list),
            Object::Manifest(manifest) => file_sheet(alloc, octets, manifest),
            Object::Roa(origins) => route_sheet(alloc, octets, origins),
            Object::Aspa(attestation) => aspa_sheet(alloc, octets, attestation),
            Object::Checklist(object) => digest_sheet(alloc, octets, object),
            Object::TrustAnchorKey(object) => key_sheet(alloc, octets, object),
            Object::Ghostbusters(object) => contact_sheet(alloc, octets, object),
            Object::SignedObject(object) => content_sheet(alloc, octets, object),
            Object::OtherCertificate(cert) => other_cert_sheet(alloc, octets, cert),
        }
    }
}
