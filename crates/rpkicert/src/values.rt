//! The two values that disagree where an object breaks a clause, as texts.

ghost use Rattle.std.specs.Prelude.{◌≡◌, IfOk, Some};
ghost use Rattle.std.specs.Option.{option_copied};
ghost use Rattle.rpkicert.specs.RequirementsView.{terms_of};
ghost use Rattle.rpkicert.specs.Values.{AreTold, cert_names, digests, end_beyond, list_names, moments, says};
ghost use Rattle.rpkicert.specs.Values.{signed_values, types, values_by, values_found, values_of, where_said};
ghost use Rattle.rpkicert.specs.ValuesView.{told_of};

use crate::alone::signed;
use crate::fault::{Clause, Fault};
use crate::outcome::Outcome;
use crate::requirements::{
    Requirements, list, list_period, manifest_period, signer, signer_period,
};
use crate::told::{Told, digest_texts, moment_texts, name_texts, type_texts};
use rpki::repository::error::ValidationError;
use rpki::repository::x509::{Time, Validity};
use rpki_cert::{Cert, TbsCert};
use rpki_crl::Crl;
use rpki_fields::Object;
use rpki_objects::SignedObject;
use sha2::{Digest, Sha256};
use std::alloc::{AllocError, Global};

/// The end of the period that the moment, which is outside of it, is beyond.
fn end_beyond(period: Validity, moment: Time) -> Time
    ensures { result ≡ end_beyond period moment }
{
    if period.not_before() <= moment {
        return period.not_after();
    }
    period.not_before()
}

/// A moment outside of a period, and that end.
fn tell_moments(
    alloc: Global,
    period: Option<Validity>,
    moment: Option<Time>,
) -> Result<Option<Told>, AllocError>
    ensures { IfOk result (λ t. AreTold (moments period moment) (told_of t)) }
{
    match period {
        Some(period) => match moment {
            Some(moment) => {
                let told = moment_texts(alloc, moment, end_beyond(period, moment))?;
                Ok(Some(told))
            }
            None => Ok(None),
        },
        None => Ok(None),
    }
}

/// Whether the text of the error ends so.
fn says(alloc: Global, e: ValidationError, text: &[u8]) -> Result<bool, AllocError>
    ensures { IfOk result (λ b. b ≡ says e text.now) }
{
    let said = format!(in alloc; "{e}")?;
    Ok(said.as_bytes().ends_with(text))
}

/// The issuer's name that a certificate has, and the subject of the issuer.
fn tell_cert_names(
    alloc: Global,
    issuer: Option<&TbsCert>,
    cert: Option<&Cert>,
) -> Result<Option<Told>, AllocError>
    ensures { IfOk result (λ t.
        AreTold (cert_names (option_copied issuer.entry) (option_copied cert.entry)) (told_of t)) }
{
    match issuer {
        Some(issuer) => match cert {
            Some(cert) => {
                let told = name_texts(alloc, cert.tbs().issuer(), issuer.subject())?;
                Ok(Some(told))
            }
            None => Ok(None),
        },
        None => Ok(None),
    }
}

/// The same where these differ.
fn tell_cert(
    alloc: Global,
    differ: bool,
    issuer: Option<&TbsCert>,
    cert: Option<&Cert>,
) -> Result<Option<Told>, AllocError>
    ensures { IfOk result (λ t.
        AreTold (where_said differ (cert_names (option_copied issuer.entry) (option_copied cert.entry))) (told_of t)) }
{
    if differ {
        return tell_cert_names(alloc, issuer, cert);
    }
    Ok(None)
}

/// The issuer's name that a revocation list has, and the subject of the issuer.
fn tell_list_names(
    alloc: Global,
    issuer: Option<&TbsCert>,
    list: Option<&Crl>,
) -> Result<Option<Told>, AllocError>
    ensures { IfOk result (λ t.
        AreTold (list_names (option_copied issuer.entry) (option_copied list.entry)) (told_of t)) }
{
    match issuer {
        Some(issuer) => match list {
            Some(list) => {
                let told = name_texts(alloc, list.issuer(), issuer.subject())?;
                Ok(Some(told))
            }
            None => Ok(None),
        },
        None => Ok(None),
    }
}

/// The same where these differ.
fn tell_list(
    alloc: Global,
    differ: bool,
    issuer: Option<&TbsCert>,
    list: Option<&Crl>,
) -> Result<Option<Told>, AllocError>
    ensures { IfOk result (λ t.
        AreTold (where_said differ (list_names (option_copied issuer.entry) (option_copied list.entry))) (told_of t)) }
{
    if differ {
        return tell_list_names(alloc, issuer, list);
    }
    Ok(None)
}

/// The type of the content, and the one that is signed.
fn tell_type(alloc: Global, object: &SignedObject) -> Result<Option<Told>, AllocError>
    ensures { IfOk result (λ t. AreTold (Some (types object.now)) (told_of t)) }
{
    let found = object.content_type().0.as_slice();
    let told = type_texts(alloc, found, object.signed_content_type().0.as_slice())?;
    Ok(Some(told))
}

/// The digest of the content, and the one that is signed.
fn tell_digest(alloc: Global, object: &SignedObject) -> Result<Option<Told>, AllocError>
    ensures { IfOk result (λ t. AreTold (Some (digests object.now)) (told_of t)) }
{
    let found = Sha256::digest(object.content().as_slice());
    let expected = object.message_digest();
    let told = digest_texts(alloc, &found, expected.as_slice())?;
    Ok(Some(told))
}

/// Of a signed object, its types or its digests, where these differ.
fn tell_signed(
    alloc: Global,
    is_type: bool,
    is_digest: bool,
    object: Option<&SignedObject>,
) -> Result<Option<Told>, AllocError>
    ensures { IfOk result (λ t.
        AreTold (signed_values is_type is_digest (option_copied object.entry)) (told_of t)) }
{
    match object {
        Some(object) => {
            if is_type {
                return tell_type(alloc, object);
            }
            if is_digest {
                return tell_digest(alloc, object);
            }
            Ok(None)
        }
        None => Ok(None),
    }
}

/// The values of the clause that the object breaks with this error.
fn tell_by(
    alloc: Global,
    terms: &Requirements<'_>,
    object: &Object,
    clause: Clause,
    e: ValidationError,
) -> Result<Option<Told>, AllocError>
    ensures { IfOk result (λ t. AreTold (values_by (terms_of terms.now) object.now clause e) (told_of t)) }
{
    match clause {
        Clause::Period => tell_moments(alloc, signer_period(object), terms.moment),
        Clause::Updates => tell_moments(alloc, list_period(object), terms.moment),
        Clause::Manifest => tell_moments(alloc, manifest_period(object), terms.moment),
        Clause::Object => {
            let is_type = says(alloc, e, b"content type mismatch")?;
            let is_digest = says(alloc, e, b"message digest mismatch")?;
            tell_signed(alloc, is_type, is_digest, signed(object))
        }
        Clause::Certificate => {
            let differ = says(alloc, e, b"issuer name mismatch")?;
            tell_cert(alloc, differ, terms.issuer, signer(object))
        }
        Clause::List => {
            let differ = says(alloc, e, b"issuer name mismatch")?;
            tell_list(alloc, differ, terms.issuer, list(object))
        }
        Clause::Inherited | Clause::Origins | Clause::Customer => Ok(None),
        Clause::Anchor | Clause::Revoked => Ok(None),
    }
}

/// The values that disagree where the object has this fault, as texts, if there are any.
///
/// Returns `AllocError` if allocation fails.
pub fn tell(
    alloc: Global,
    terms: &Requirements<'_>,
    object: &Object,
    fault: Fault,
) -> Result<Option<Told>, AllocError>
    ensures { IfOk result (λ t. AreTold (values_of (terms_of terms.now) object.now fault) (told_of t)) }
{
    match fault {
        Fault::Unverified(clause, e) => tell_by(alloc, terms, object, clause, e),
        _ => Ok(None),
    }
}

/// The same of what was found of a file.
///
/// Returns `AllocError` if allocation fails.
pub fn tell_found(
    alloc: Global,
    terms: &Requirements<'_>,
    found: &Outcome,
) -> Result<Option<Told>, AllocError>
    ensures { IfOk result (λ t.
        AreTold (values_found (terms_of terms.now) found.now.object.value found.now.fault) (told_of t)) }
{
    match found.fault {
        Some(fault) => tell(alloc, terms, found.object.as_ref(), fault),
        None => Ok(None),
    }
}
