//! Where octets are wrong that are no object of their kind.

ghost use Rattle.rpki_fields.specs.declared.object_type.ObjectType.TheVariants as K;
ghost use Rattle.rpki_fields.specs.Part.{IsFilesPart, IsOriginsPart, IsProvidersPart, IsMalformedPart};
ghost use Rattle.rpki_fields.specs.Part.{IsAnchorKeysPart, IsCardPart, IsChecklistPart, IsResourcesPart};
ghost use Rattle.rpki_records.specs.Checklist.{found_checklist};

use crate::object_type::ObjectType;
use rpki_cert::{CertPart, CertView};
use rpki_contents::{AspaPart, AspaView, ManifestPart, ManifestView, RoaPart, RoaView};
use rpki_crl::{CrlPart, CrlView};
use rpki_objects::{ObjectPart, SignedObjectView};
use rpki_records::{Card, CardPart, Checklist, ChecklistPart, TakPart, TakView};

/// A part of octets that should be an object.
#[derive(Clone, Copy, Debug, PartialEq, Eq)]
pub enum Part {
    /// Of a certificate.
    Cert(CertPart),
    /// Of a revocation list.
    List(CrlPart),
    /// Of a signed object, around its content.
    Object(ObjectPart),
    /// Of a manifest's content.
    Manifest(ManifestPart),
    /// Of a route origin attestation's content.
    Origins(RoaPart),
    /// Of the content of an attestation of providers.
    Providers(AspaPart),
    /// Of a signed checklist's content.
    Checklist(ChecklistPart),
    /// Of a content of trust anchor keys.
    AnchorKeys(TakPart),
    /// Of a Ghostbusters record's content.
    Card(CardPart),
}

/// The malformed part of octets that should be a certificate.
fn cert_place(octets: &[u8]) -> Option<Part>
    ensures { IsMalformedPart K.Certificate octets.now result }
{
    match CertView::read(octets) {
        Ok(_) => None,
        Err(wrong) => Some(Part::Cert(wrong.part)),
    }
}

/// The malformed part of octets that should be a revocation list.
fn list_place(octets: &[u8]) -> Option<Part>
    ensures { IsMalformedPart K.Crl octets.now result }
{
    match CrlView::read(octets) {
        Ok(_) => None,
        Err(wrong) => Some(Part::List(wrong.part)),
    }
}

/// The malformed part of octets that should be the content of a manifest.
fn files_part(octets: &[u8]) -> Option<Part>
    ensures { IsFilesPart octets.now result }
{
    match ManifestView::read(octets) {
        Ok(_) => None,
        Err(wrong) => Some(Part::Manifest(wrong.part)),
    }
}

/// The malformed part of octets that should be the content of a route origin attestation.
fn origins_part(octets: &[u8]) -> Option<Part>
    ensures { IsOriginsPart octets.now result }
{
    match RoaView::read(octets, false) {
        Ok(_) => None,
        Err(wrong) => Some(Part::Origins(wrong.part)),
    }
}

/// The malformed part of octets that should be the content of an attestation of providers.
fn providers_part(octets: &[u8]) -> Option<Part>
    ensures { IsProvidersPart octets.now result }
{
    match AspaView::read(octets) {
        Ok(_) => None,
        Err(wrong) => Some(Part::Providers(wrong.part)),
    }
}

/// That the resources of a checklist are malformed, where they are.
fn resources_part(found: &Checklist<'_>) -> Option<Part>
    ensures { IsResourcesPart (found_checklist found.now) result }
{
    match found.resources() {
        Ok(_) => None,
        Err(_) => Some(Part::Checklist(ChecklistPart::Resources)),
    }
}

/// The malformed part of octets that should be the content of a signed checklist.
fn checklist_part(octets: &[u8]) -> Option<Part>
    ensures { IsChecklistPart octets.now result }
{
    match Checklist::read(octets) {
        Ok(found) => resources_part(&found),
        Err(wrong) => Some(Part::Checklist(wrong.part)),
    }
}

/// The malformed part of octets that should be a content of trust anchor keys.
fn anchor_keys_part(octets: &[u8]) -> Option<Part>
    ensures { IsAnchorKeysPart octets.now result }
{
    match TakView::read(octets) {
        Ok(_) => None,
        Err(wrong) => Some(Part::AnchorKeys(wrong.part)),
    }
}

/// The malformed part of octets that should be the content of a Ghostbusters record.
fn card_part(octets: &[u8]) -> Option<Part>
    ensures { IsCardPart octets.now result }
{
    match Card::read(octets) {
        Ok(_) => None,
        Err(wrong) => Some(Part::Card(wrong.part)),
    }
}

/// The malformed part of octets that should be a manifest.
fn files_place(octets: &[u8]) -> Option<Part>
    ensures { IsMalformedPart K.Manifest octets.now result }
{
    match SignedObjectView::read(octets, false) {
        Ok(object) => files_part(object.content.content.octets),
        Err(wrong) => Some(Part::Object(wrong.part)),
    }
}

/// The malformed part of octets that should be a route origin attestation.
fn origins_place(octets: &[u8]) -> Option<Part>
    ensures { IsMalformedPart K.Roa octets.now result }
{
    match SignedObjectView::read(octets, false) {
        Ok(object) => origins_part(object.content.content.octets),
        Err(wrong) => Some(Part::Object(wrong.part)),
    }
}

/// The malformed part of octets that should be an attestation of providers.
fn providers_place(octets: &[u8]) -> Option<Part>
    ensures { IsMalformedPart K.Aspa octets.now result }
{
    match SignedObjectView::read(octets, false) {
        Ok(object) => providers_part(object.content.content.octets),
        Err(wrong) => Some(Part::Object(wrong.part)),
    }
}

/// The malformed part of octets that should be a signed checklist.
fn checklist_place(octets: &[u8]) -> Option<Part>
    ensures { IsMalformedPart K.Checklist octets.now result }
{
    match SignedObjectView::read(octets, false) {
        Ok(object) => checklist_part(object.content.content.octets),
        Err(wrong) => Some(Part::Object(wrong.part)),
    }
}

/// The malformed part of octets that should be trust anchor keys.
fn anchor_keys_place(octets: &[u8]) -> Option<Part>
    ensures { IsMalformedPart K.TrustAnchorKey octets.now result }
{
    match SignedObjectView::read(octets, false) {
        Ok(object) => anchor_keys_part(object.content.content.octets),
        Err(wrong) => Some(Part::Object(wrong.part)),
    }
}

/// The malformed part of octets that should be a Ghostbusters record.
fn card_place(octets: &[u8]) -> Option<Part>
    ensures { IsMalformedPart K.Ghostbusters octets.now result }
{
    match SignedObjectView::read(octets, false) {
        Ok(object) => card_part(object.content.content.octets),
        Err(wrong) => Some(Part::Object(wrong.part)),
    }
}

/// The malformed part of octets that should be a signed object.
fn other_place(octets: &[u8]) -> Option<Part>
    ensures { IsMalformedPart K.SignedObject octets.now result }
{
    match SignedObjectView::read(octets, false) {
        Ok(_) => None,
        Err(wrong) => Some(Part::Object(wrong.part)),
    }
}

impl Part {
    /// The malformed part of octets that should be an object of this kind: the leftmost. None where each part is
    /// well by itself, as where files of a manifest have the same name. Allocates nothing.
    pub fn of(kind: ObjectType, octets: &[u8]) -> Option<Part>
        ensures { IsMalformedPart kind octets.now result }
    {
        match kind {
            ObjectType::Certificate => cert_place(octets),
            ObjectType::Crl => list_place(octets),
            ObjectType::Manifest => files_place(octets),
            ObjectType::Roa => origins_place(octets),
            ObjectType::Aspa => providers_place(octets),
            ObjectType::Checklist => checklist_place(octets),
            ObjectType::TrustAnchorKey => anchor_keys_place(octets),
            ObjectType::Ghostbusters => card_place(octets),
            ObjectType::SignedObject => other_place(octets),
        }
    }
}
