//! What is told of where octets are wrong.

ghost use Rattle.std.specs.Prelude.{◌≡◌};
ghost use Rattle.rpki_fields.specs.PartText.{anchor_keys_text, card_text, checklist_text};
ghost use Rattle.rpki_fields.specs.PartText.{cert_text, list_text, object_text, manifest_text, origin_text};
ghost use Rattle.rpki_fields.specs.PartText.{provider_text, part_text, text_of_part};

use crate::part::Part;
use rpki_cert::CertPart;
use rpki_contents::{AspaPart, ManifestPart, RoaPart};
use rpki_crl::CrlPart;
use rpki_objects::ObjectPart;
use rpki_records::{CardPart, ChecklistPart, TakPart};

/// What a person reads of a part of certificates, in front of what is wrong.
fn cert_text(part: CertPart) -> &'static str
    ensures { result.now ≡ cert_text part }
{
    match part {
        CertPart::Certificate => "",
        CertPart::Signed => "in what is signed: ",
        CertPart::Algorithm => "in its algorithm: ",
        CertPart::Signature => "in its signature: ",
        CertPart::Tbs => "in what is signed: ",
        CertPart::Version => "in its version: ",
        CertPart::SerialNumber => "in its serial number: ",
        CertPart::TbsAlgorithm => "in the algorithm that is signed: ",
        CertPart::Issuer => "in its issuer: ",
        CertPart::Validity => "in its period: ",
        CertPart::Subject => "in its subject: ",
        CertPart::PublicKey => "in its key: ",
        CertPart::Extensions => "in its extensions: ",
        CertPart::ExtensionCount => "in its extensions: ",
        CertPart::ExtensionIdentifiers => "in its extensions: ",
        CertPart::SameAlgorithm => "in its algorithms: ",
    }
}

/// What a person reads of a part of revocation lists, in front of what is wrong.
fn list_text(part: CrlPart) -> &'static str
    ensures { result.now ≡ list_text part }
{
    match part {
        CrlPart::List => "",
        CrlPart::Signed => "in what is signed: ",
        CrlPart::Algorithm => "in its algorithm: ",
        CrlPart::Signature => "in its signature: ",
        CrlPart::Tbs => "in what is signed: ",
        CrlPart::Version => "in its version: ",
        CrlPart::TbsAlgorithm => "in the algorithm that is signed: ",
        CrlPart::Issuer => "in its issuer: ",
        CrlPart::ThisUpdate => "in this update: ",
        CrlPart::NextUpdate => "in the next update: ",
        CrlPart::RevokedCerts => "in its entries: ",
        CrlPart::Extensions => "in its extensions: ",
        CrlPart::SameAlgorithm => "in its algorithms: ",
    }
}

/// What a person reads of a part of signed objects, in front of what is wrong.
fn object_text(part: ObjectPart) -> &'static str
    ensures { result.now ≡ object_text part }
{
    match part {
        ObjectPart::Object => "",
        ObjectPart::ObjectType => "in its type: ",
        ObjectPart::SignedData => "in the signed data: ",
        ObjectPart::Version => "in the version of the signed data: ",
        ObjectPart::DigestAlgorithms => "in the digest algorithms: ",
        ObjectPart::Content => "in the content: ",
        ObjectPart::Certificates => "in the certificates: ",
        ObjectPart::Certificate(_) => "in the signer's certificate: ",
        ObjectPart::Signers => "in the signers: ",
        ObjectPart::Signer => "in the signer: ",
        ObjectPart::SignerVersion => "in the signer's version: ",
        ObjectPart::SignerIdentifier => "in the signer's identifier: ",
        ObjectPart::SignerDigestAlgorithm => "in the signer's digest algorithm: ",
        ObjectPart::SignedAttrs => "in the signed attributes: ",
        ObjectPart::SignatureAlgorithm => "in the algorithm of the signature: ",
        ObjectPart::Signature => "in the signature: ",
    }
}

/// What a person reads of a part of manifests, in front of what is wrong.
fn manifest_text(part: ManifestPart) -> &'static str
    ensures { result.now ≡ manifest_text part }
{
    match part {
        ManifestPart::Manifest => "in the content: ",
        ManifestPart::Number => "in the manifest's number: ",
        ManifestPart::ThisUpdate => "in the manifest's this update: ",
        ManifestPart::NextUpdate => "in the manifest's next update: ",
        ManifestPart::HashAlgorithm => "in the manifest's algorithm: ",
        ManifestPart::FileList => "in the list of files: ",
        ManifestPart::Order => "in the manifest's times: ",
    }
}

/// What a person reads of a part of route origin attestations, in front of what is wrong.
fn origin_text(part: RoaPart) -> &'static str
    ensures { result.now ≡ origin_text part }
{
    match part {
        RoaPart::Attestation => "in the content: ",
        RoaPart::AsId => "in the AS number: ",
        RoaPart::AddressBlocks => "in the prefixes: ",
    }
}

/// What a person reads of a part of attestations of providers, in front of what is wrong.
fn provider_text(part: AspaPart) -> &'static str
    ensures { result.now ≡ provider_text part }
{
    match part {
        AspaPart::Attestation => "in the content: ",
        AspaPart::Version => "in the content's version: ",
        AspaPart::Customer => "in the customer: ",
        AspaPart::Providers => "in the providers: ",
    }
}

/// What a person reads of a part of signed checklists, in front of what is wrong.
fn checklist_text(part: ChecklistPart) -> &'static str
    ensures { result.now ≡ checklist_text part }
{
    match part {
        ChecklistPart::Checklist => "in the content: ",
        ChecklistPart::Version => "in the content's version: ",
        ChecklistPart::Resources => "in the resources: ",
        ChecklistPart::DigestAlgorithm => "in the algorithm of the digests: ",
        ChecklistPart::CheckList => "in the list of files: ",
    }
}

/// What a person reads of a part of trust anchor keys, in front of what is wrong.
fn anchor_keys_text(part: TakPart) -> &'static str
    ensures { result.now ≡ anchor_keys_text part }
{
    match part {
        TakPart::Tak => "in the content: ",
        TakPart::Version => "in the content's version: ",
        TakPart::Current => "in the current key: ",
        TakPart::Predecessor => "in the predecessor: ",
        TakPart::Successor => "in the successor: ",
    }
}

/// What a person reads of a part of Ghostbusters records, in front of what is wrong.
fn card_text(part: CardPart) -> &'static str
    ensures { result.now ≡ card_text part }
{
    match part {
        CardPart::Text => "in the content: ",
        CardPart::Begin => "in the first line: ",
        CardPart::Version => "in the content's version: ",
        CardPart::Property => "in the properties: ",
        CardPart::End => "in the last line: ",
        CardPart::Name => "in the name: ",
        CardPart::Contact => "in the address, telephone number and email address: ",
    }
}

impl Part {
    /// What a person reads of it, in front of what is wrong: `in its issuer: `; nothing where all of the octets are.
    fn text(self) -> &'static str
        ensures { result.now ≡ part_text self }
    {
        match self {
            Part::Cert(part) => cert_text(part),
            Part::List(part) => list_text(part),
            Part::Object(part) => object_text(part),
            Part::Manifest(part) => manifest_text(part),
            Part::Origins(part) => origin_text(part),
            Part::Providers(part) => provider_text(part),
            Part::Checklist(part) => checklist_text(part),
            Part::AnchorKeys(part) => anchor_keys_text(part),
            Part::Card(part) => card_text(part),
        }
    }
}

/// The same of a place that is known, or nothing.
pub fn text_of_part(place: Option<Part>) -> &'static str
    ensures { result.now ≡ text_of_part place }
{
    match place {
        Some(place) => place.text(),
        None => "",
    }
}
