//! What is shown of a certificate: a list of fields.

ghost use Rattle.std.specs.Prelude.{◌≡◌, ◌++◌, ◌∷◌, [], map, OnOk, IfOk};
ghost use Rattle.rpki_fields.specs.CertText.{algorithm_text, AreHead, AreMiddle, key_fields, AreKey, extension_name};
ghost use Rattle.rpki_fields.specs.CertText.{private_name, critical_text, extension_field, fingerprint_text, AreFields};

use crate::extension_text::{identifiers, uses};
use crate::field::{Field, push_field, push_number, push_size, push_time};
use crate::identifier::push_identifier;
use crate::key_size::size_text;
use crate::name::name_text;
use crate::resource_text::resources;
use crate::uri_text::{issuer_places, subject_places};
use crate::value::{colon_digits, serial_text};
use rpki::crypto::{PublicKey, PublicKeyFormat};
use rpki::der::Oid;
use rpki::oid;
use rpki::repository::x509::{ExtensionOctets, NameOctets, Validity};
use rpki_cert::TbsCert;
use sha1::Sha1;
use sha2::{Digest, Sha256};
use std::alloc::{AllocError, Global};

/// Version, serial number, signature algorithm and issuer.
fn head(alloc: Global, tbs: &TbsCert) -> Result<Vec<Field>, AllocError>
    ensures { IfOk result (λ fields. AreHead tbs.now fields.items) }
{
    let serial = serial_text(alloc, tbs.serial_number())?;
    let issuer = name_text(alloc, tbs.issuer())?;
    let mut fields = Vec::new(alloc);
    push_number(&mut fields, b"Version", 3)?;
    push_field(&mut fields, b"Cert Serial", serial.as_slice())?;
    push_field(
        &mut fields,
        b"Signature Algorithm",
        b"sha256WithRSAEncryption",
    )?;
    push_field(&mut fields, b"Cert Issuer", issuer.as_slice())?;
    Ok(fields)
}

/// The period and the subject.
pub fn middle(
    alloc: Global,
    validity: Validity,
    subject: &NameOctets,
) -> Result<Vec<Field>, AllocError>
    ensures { IfOk result (λ fields. AreMiddle validity subject.now fields.items) }
{
    let subject = name_text(alloc, subject)?;
    let mut fields = Vec::new(alloc);
    push_time(&mut fields, b"Valid Since", validity.not_before())?;
    push_time(&mut fields, b"Valid Until", validity.not_after())?;
    push_field(&mut fields, b"Subject", subject.as_slice())?;
    Ok(fields)
}

/// The name of a format of keys.
fn algorithm_text(format: PublicKeyFormat) -> &'static [u8]
    ensures { result.now ≡ algorithm_text format }
{
    match format {
        PublicKeyFormat::Rsa => b"rsaEncryption",
        PublicKeyFormat::EcdsaP256 => b"id-ecPublicKey prime256v1",
    }
}

/// The fields of a key of this size.
fn key_fields(alloc: Global, key: &PublicKey, size: &[u8]) -> Result<Vec<Field>, AllocError>
    ensures { IfOk result (λ fields. fields.items ≡ key_fields key.now size.now) }
{
    let identifier = colon_digits(alloc, &Sha1::digest(key.bits()))?;
    let mut fields = Vec::new(alloc);
    push_field(
        &mut fields,
        b"Public Key Algorithm",
        algorithm_text(key.algorithm()),
    )?;
    push_size(&mut fields, b"Public Key Bits", size)?;
    push_field(&mut fields, b"Public Key SHA-1", identifier.as_slice())?;
    Ok(fields)
}

/// The fields of a key.
///
/// Returns `AllocError` if allocation fails.
pub fn key(alloc: Global, key: &PublicKey) -> Result<Vec<Field>, AllocError>
    ensures { IfOk result (λ fields. AreKey key.now fields.items) }
{
    let size = size_text(alloc, key)?;
    key_fields(alloc, key, size.as_slice())
}

/// Adds the name of an extension of RFC 5280 4.2.1; of another what [push_private_name] adds.
fn push_name(text: &mut Vec<u8>, id: Oid<&[u8]>) -> Result<(), AllocError>
    ensures { OnOk result (text.new.items ≡ text.old.items ++ extension_name id.entry.0.now) }
{
    if id == oid::CE_SUBJECT_KEY_IDENTIFIER {
        text.extend_from_slice(b"subjectKeyIdentifier")
    } else if id == oid::CE_AUTHORITY_KEY_IDENTIFIER {
        text.extend_from_slice(b"authorityKeyIdentifier")
    } else if id == oid::CE_BASIC_CONSTRAINTS {
        text.extend_from_slice(b"basicConstraints")
    } else if id == oid::CE_KEY_USAGE {
        text.extend_from_slice(b"keyUsage")
    } else if id == oid::CE_EXTENDED_KEY_USAGE {
        text.extend_from_slice(b"extendedKeyUsage")
    } else if id == oid::CE_CRL_DISTRIBUTION_POINTS {
        text.extend_from_slice(b"cRLDistributionPoints")
    } else if id == oid::CE_CERTIFICATE_POLICIES {
        text.extend_from_slice(b"certificatePolicies")
    } else {
        push_private_name(text, id)
    }
}

/// Adds the name of another extension; of an unknown one its identifier.
fn push_private_name(text: &mut Vec<u8>, id: Oid<&[u8]>) -> Result<(), AllocError>
    ensures { OnOk result (text.new.items ≡ text.old.items ++ private_name id.entry.0.now) }
{
    if id == oid::PE_AUTHORITY_INFO_ACCESS {
        text.extend_from_slice(b"authorityInfoAccess")
    } else if id == oid::PE_SUBJECT_INFO_ACCESS {
        text.extend_from_slice(b"subjectInfoAccess")
    } else if id == oid::PE_IP_ADDR_BLOCK {
        text.extend_from_slice(b"ipAddrBlocks")
    } else if id == oid::PE_IP_ADDR_BLOCK_V2 {
        text.extend_from_slice(b"ipAddrBlocks-v2")
    } else if id == oid::PE_AUTONOMOUS_SYS_IDS {
        text.extend_from_slice(b"autonomousSysIds")
    } else if id == oid::PE_AUTONOMOUS_SYS_IDS_V2 {
        text.extend_from_slice(b"autonomousSysIds-v2")
    } else {
        push_identifier(text, id.0)
    }
}

/// Whether an extension is critical, in words.
fn critical_text(critical: bool) -> &'static [u8]
    ensures { result.now ≡ critical_text critical }
{
    if critical {
        b"critical"
    } else {
        b"not critical"
    }
}

/// Adds the field of an extension.
fn push_extension(
    alloc: Global,
    fields: &mut Vec<Field>,
    extension: &ExtensionOctets,
) -> Result<(), AllocError>
    ensures { OnOk result (fields.new.items ≡ fields.old.items ++ extension_field extension.now ∷ []) }
{
    let mut label = Vec::from_slice(alloc, b"Extension ")?;
    push_name(&mut label, extension.id())?;
    push_field(
        fields,
        label.as_slice(),
        critical_text(extension.critical()),
    )
}

/// A field for each extension.
pub fn extensions(alloc: Global, all: &[ExtensionOctets]) -> Result<Vec<Field>, AllocError>
    ensures { IfOk result (λ fields. fields.items ≡ map extension_field all.now) }
{
    let mut fields = Vec::new(alloc);
    'extensions: for extension in all {
        push_extension(alloc, &mut fields, extension)?;
    }
    Ok(fields)
}

/// The digest of the octets, in digits.
pub fn fingerprint(alloc: Global, octets: &[u8]) -> Result<Vec<u8>, AllocError>
    ensures { IfOk result (λ text. text.items ≡ fingerprint_text octets.now) }
{
    colon_digits(alloc, &Sha256::digest(octets))
}

/// The fields of the certificate that these octets are.
///
/// Returns `AllocError` if allocation fails.
pub fn fields(alloc: Global, octets: &[u8], tbs: &TbsCert) -> Result<Vec<Field>, AllocError>
    ensures { IfOk result (λ fields. AreFields octets.now tbs.now fields.items) }
{
    let mut fields = uses(alloc, tbs)?;
    let mut identifiers = identifiers(alloc, tbs)?;
    let mut head = head(alloc, tbs)?;
    let mut middle = middle(alloc, tbs.validity(), tbs.subject())?;
    let mut key = key(alloc, tbs.subject_public_key_info())?;
    let mut issuer = issuer_places(alloc, tbs)?;
    let mut subject = subject_places(alloc, tbs)?;
    let mut resources = resources(alloc, tbs)?;
    let mut extensions = extensions(alloc, tbs.extensions())?;
    let fingerprint = fingerprint(alloc, octets)?;
    fields.append(&mut identifiers)?;
    fields.append(&mut head)?;
    fields.append(&mut middle)?;
    fields.append(&mut key)?;
    fields.append(&mut issuer)?;
    fields.append(&mut subject)?;
    fields.append(&mut resources)?;
    fields.append(&mut extensions)?;
    push_field(&mut fields, b"SHA-256 Fingerprint", fingerprint.as_slice())?;
    Ok(fields)
}
