//! What is shown of a certificate of any algorithms.

ghost use Rattle.std.specs.Prelude.{◌≡◌, ◌++◌, ◌∷◌, [], OnOk, IfOk};
ghost use Rattle.rpki_fields.specs.OtherText.{without_zero, is_negative, integer_text, objection, AreOtherHead};
ghost use Rattle.rpki_fields.specs.OtherText.{unused_algorithm, AreOtherFields};

use crate::algorithm_text::{other_key, push_algorithm, push_key_name};
use crate::cert_text::{extensions, fingerprint, middle};
use crate::field::{Field, push_field, push_number};
use crate::name::{after, name_text};
use crate::other_cert::OtherCert;
use crate::value::push_digits;
use std::alloc::{AllocError, Global};

/// The octets without a zero in front, where others follow it.
fn without_zero(octets: &[u8]) -> &[u8]
    ensures { result.now ≡ without_zero octets.now }
{
    match octets {
        [first, _, ..] => {
            if *first == 0 {
                after(octets, 1)
            } else {
                octets
            }
        }
        _ => octets,
    }
}

/// Whether the INTEGER of these contents octets is negative (X.690 8.3.3).
fn is_negative(octets: &[u8]) -> bool
    ensures { result ≡ is_negative octets.now }
{
    match octets {
        [first, ..] => 127 < *first,
        _ => false,
    }
}

/// An INTEGER of these contents octets: its digits without a zero octet in front; the octets of a negative one, after a
/// word.
fn integer_text(alloc: Global, octets: &[u8]) -> Result<Vec<u8>, AllocError>
    ensures { IfOk result (λ text. text.items ≡ integer_text octets.now) }
{
    let mut text = Vec::new(alloc);
    if is_negative(octets) {
        text.extend_from_slice(b"negative ")?;
        push_digits(&mut text, octets)?;
    } else {
        push_digits(&mut text, without_zero(octets))?;
    }
    Ok(text)
}

/// Adds which of the algorithms of the certificate the RPKI doesn't use: that of the signature, or that of the key.
fn push_unused(text: &mut Vec<u8>, cert: &OtherCert) -> Result<(), AllocError>
    ensures { OnOk result (text.new.items ≡ text.old.items ++ unused_algorithm cert.now) }
{
    if cert.algorithm().signs_rpki() {
        text.extend_from_slice(b"with a key of ")?;
        push_key_name(text, cert.tbs().key().algorithm())
    } else {
        text.extend_from_slice(b"signed by ")?;
        push_algorithm(text, cert.algorithm().identifier())
    }
}

/// That the RPKI doesn't use an algorithm of the certificate, and which.
///
/// Returns `AllocError` if allocation fails.
pub fn objection(alloc: Global, cert: &OtherCert) -> Result<Vec<u8>, AllocError>
    ensures { IfOk result (λ text. text.items ≡ objection cert.now) }
{
    let mut text = Vec::new(alloc);
    push_unused(&mut text, cert)?;
    text.extend_from_slice(b", which the RPKI doesn't use")?;
    Ok(text)
}

/// Type, version, serial number, signature algorithm, what isn't of the RPKI, and issuer.
fn head(alloc: Global, cert: &OtherCert) -> Result<Vec<Field>, AllocError>
    ensures { IfOk result (λ fields. AreOtherHead cert.now fields.items) }
{
    let serial = integer_text(alloc, cert.tbs().serial())?;
    let mut name = Vec::new(alloc);
    push_algorithm(&mut name, cert.algorithm().identifier())?;
    let objection = objection(alloc, cert)?;
    let issuer = name_text(alloc, cert.tbs().issuer())?;
    let mut fields = Vec::new(alloc);
    push_field(&mut fields, b"Type", b"certificate")?;
    push_number(&mut fields, b"Version", 3)?;
    push_field(&mut fields, b"Cert Serial", serial.as_slice())?;
    push_field(&mut fields, b"Signature Algorithm", name.as_slice())?;
    push_field(&mut fields, b"RPKI Profile", objection.as_slice())?;
    push_field(&mut fields, b"Cert Issuer", issuer.as_slice())?;
    Ok(fields)
}

/// The fields of the certificate that these octets are.
///
/// Returns `AllocError` if allocation fails.
pub fn other_fields(
    alloc: Global,
    octets: &[u8],
    cert: &OtherCert,
) -> Result<Vec<Field>, AllocError>
    ensures { IfOk result (λ fields. AreOtherFields octets.now cert.now fields.items) }
{
    let tbs = cert.tbs();
    let mut fields = head(alloc, cert)?;
    let mut middle = middle(alloc, tbs.validity(), tbs.subject())?;
    let mut key = other_key(alloc, tbs.key())?;
    let mut extensions = extensions(alloc, tbs.extensions())?;
    let fingerprint = fingerprint(alloc, octets)?;
    fields.append(&mut middle)?;
    fields.append(&mut key)?;
    fields.append(&mut extensions)?;
    push_field(&mut fields, b"SHA-256 Fingerprint", fingerprint.as_slice())?;
    Ok(fields)
}
