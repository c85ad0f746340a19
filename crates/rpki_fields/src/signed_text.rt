//! What is shown of each signed object: of the certificate of its signer, and when it was signed.

ghost use Rattle.std.specs.Prelude.{◌≡◌, IfOk};
ghost use Rattle.rpki_fields.specs.SignedText.{AreSignerKeys, AreSignerNames, AreSignerPlaces, signed_times};
ghost use Rattle.rpki_fields.specs.SignedText.{signed_labels, AreSignedFields};

use crate::extension_text::{authority_identifier, subject_identifier};
use crate::field::{Field, push_field, push_field_if, push_time, push_time_if};
use crate::name::name_text;
use crate::uri_text::{issuer, object as object_place};
use crate::value::serial_text;
use rpki_cert::TbsCert;
use rpki_objects::SignedObject;
use std::alloc::{AllocError, Global};

/// The identifiers of the keys of the signer and of its issuer.
fn signer_keys(alloc: Global, tbs: &TbsCert) -> Result<Vec<Field>, AllocError>
    ensures { IfOk result (λ fields. AreSignerKeys tbs.now.extensions fields.items) }
{
    let subject = subject_identifier(alloc, tbs)?;
    let authority = authority_identifier(alloc, tbs)?;
    let mut fields = Vec::new(alloc);
    push_field_if(&mut fields, b"SKI", subject)?;
    push_field_if(&mut fields, b"AKI", authority)?;
    Ok(fields)
}

/// The issuer and the serial number of the certificate.
fn signer_names(alloc: Global, tbs: &TbsCert) -> Result<Vec<Field>, AllocError>
    ensures { IfOk result (λ fields. AreSignerNames tbs.now fields.items) }
{
    let issuer = name_text(alloc, tbs.issuer())?;
    let serial = serial_text(alloc, tbs.serial_number())?;
    let mut fields = Vec::new(alloc);
    push_field(&mut fields, b"Cert Issuer", issuer.as_slice())?;
    push_field(&mut fields, b"Cert Serial", serial.as_slice())?;
    Ok(fields)
}

/// Where the certificate of the issuer is, and where the object is.
fn signer_places(alloc: Global, tbs: &TbsCert) -> Result<Vec<Field>, AllocError>
    ensures { IfOk result (λ fields. AreSignerPlaces tbs.now.extensions fields.items) }
{
    let issuer = issuer(alloc, tbs)?;
    let object = object_place(alloc, tbs)?;
    let mut fields = Vec::new(alloc);
    push_field_if(&mut fields, b"AIA", issuer)?;
    push_field_if(&mut fields, b"SIA", object)?;
    Ok(fields)
}

/// When the object was signed, and the period of the certificate, under these labels.
fn signed_times(
    alloc: Global,
    since: &[u8],
    until: &[u8],
    object: &SignedObject,
) -> Result<Vec<Field>, AllocError>
    ensures { IfOk result (λ fields. fields.items ≡ signed_times since.now until.now object.now) }
{
    let validity = object.cert().tbs().validity();
    let mut fields = Vec::new(alloc);
    push_time_if(&mut fields, b"Signing Time", object.signing_time())?;
    push_time(&mut fields, since, validity.not_before())?;
    push_time(&mut fields, until, validity.not_after())?;
    Ok(fields)
}

/// The fields of a signed object whose type is told by this word, and the period of whose certificate has these labels.
///
/// Returns `AllocError` if allocation fails.
pub fn signed_fields(
    alloc: Global,
    kind: &[u8],
    since: &[u8],
    until: &[u8],
    object: &SignedObject,
) -> Result<Vec<Field>, AllocError>
    ensures { IfOk result (λ fields.
        AreSignedFields (signed_labels kind.now since.now until.now) object.now fields.items) }
{
    let tbs = object.cert().tbs();
    let mut keys = signer_keys(alloc, tbs)?;
    let mut names = signer_names(alloc, tbs)?;
    let mut places = signer_places(alloc, tbs)?;
    let mut times = signed_times(alloc, since, until, object)?;
    let mut fields = Vec::new(alloc);
    push_field(&mut fields, b"Type", kind)?;
    fields.append(&mut keys)?;
    fields.append(&mut names)?;
    fields.append(&mut places)?;
    fields.append(&mut times)?;
    Ok(fields)
}
