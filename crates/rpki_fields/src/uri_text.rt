//! What is shown of extensions: where things are.

ghost use Rattle.std.specs.Prelude.{IfOk};
ghost use Rattle.std.specs.Option.{option_map};
ghost use Rattle.rpki_cert.specs.Known.{crl_distribution_points, authority_info_access, subject_info_access};
ghost use Rattle.rpki_cert.specs.Access.{SpellsRsyncAccess, SpellsHttpsAccess, SpellsPoints, ca_issuers, ca_repository};
ghost use Rattle.rpki_cert.specs.Access.{rpki_manifest, signed_object, rpki_notify};
ghost use Rattle.rpki_fields.specs.CertText.{SaysUri, AreIssuerPlaces, AreSubjectPlaces};
ghost use Rattle.rpki_fields.specs.View.{Shows};

use crate::extension_text::not_of_profile;
use crate::field::{Field, push_field_if};
use crate::memory::is_memory;
use rpki::repository::error::ValidationError;
use rpki::uri::{Https, Rsync};
use rpki_cert::TbsCert;
use std::alloc::{AllocError, Global};

/// What is shown of an rsync URI that was looked for, in the extension that this section is of.
fn rsync_text(
    alloc: Global,
    section: &[u8],
    found: Result<Option<Rsync>, ValidationError>,
) -> Result<Option<Vec<u8>>, AllocError>
    ensures { IfOk result (λ o. Shows section.now (λ u. u) found (option_map (λ v. v.items) o)) }
{
    match found {
        Ok(Some(uri)) => {
            let text = Vec::from_slice(alloc, uri.as_str().as_bytes())?;
            Ok(Some(text))
        }
        Ok(None) => Ok(None),
        Err(e) => {
            if is_memory(e) {
                return Err(AllocError);
            }
            not_of_profile(alloc, section)
        }
    }
}

/// What is shown of an https URI that was looked for, in the extension that this section is of.
fn https_text(
    alloc: Global,
    section: &[u8],
    found: Result<Option<Https>, ValidationError>,
) -> Result<Option<Vec<u8>>, AllocError>
    ensures { IfOk result (λ o. Shows section.now (λ u. u) found (option_map (λ v. v.items) o)) }
{
    match found {
        Ok(Some(uri)) => {
            let text = Vec::from_slice(alloc, uri.as_str().as_bytes())?;
            Ok(Some(text))
        }
        Ok(None) => Ok(None),
        Err(e) => {
            if is_memory(e) {
                return Err(AllocError);
            }
            not_of_profile(alloc, section)
        }
    }
}

/// Where the revocation list is, as it is shown.
fn revocation(alloc: Global, tbs: &TbsCert) -> Result<Option<Vec<u8>>, AllocError>
    ensures { IfOk result (λ o. SaysUri crl_distribution_points SpellsPoints tbs.now.extensions
        (option_map (λ v. v.items) o)) }
{
    rsync_text(alloc, b"RFC 6487 4.8.6", tbs.crl_uri(alloc))
}

/// Where the issuer's certificate is, as it is shown.
pub fn issuer(alloc: Global, tbs: &TbsCert) -> Result<Option<Vec<u8>>, AllocError>
    ensures { IfOk result (λ o. SaysUri authority_info_access (SpellsRsyncAccess ca_issuers) tbs.now.extensions
        (option_map (λ v. v.items) o)) }
{
    rsync_text(alloc, b"RFC 6487 4.8.7", tbs.ca_issuer(alloc))
}

/// Where the subject publishes, as it is shown.
fn repository(alloc: Global, tbs: &TbsCert) -> Result<Option<Vec<u8>>, AllocError>
    ensures { IfOk result (λ o. SaysUri subject_info_access (SpellsRsyncAccess ca_repository) tbs.now.extensions
        (option_map (λ v. v.items) o)) }
{
    rsync_text(alloc, b"RFC 6487 4.8.8", tbs.ca_repository(alloc))
}

/// Where its manifest is, as it is shown.
fn manifest(alloc: Global, tbs: &TbsCert) -> Result<Option<Vec<u8>>, AllocError>
    ensures { IfOk result (λ o. SaysUri subject_info_access (SpellsRsyncAccess rpki_manifest) tbs.now.extensions
        (option_map (λ v. v.items) o)) }
{
    rsync_text(alloc, b"RFC 6487 4.8.8", tbs.rpki_manifest(alloc))
}

/// Where the object is that its key signs, as it is shown.
pub fn object(alloc: Global, tbs: &TbsCert) -> Result<Option<Vec<u8>>, AllocError>
    ensures { IfOk result (λ o. SaysUri subject_info_access (SpellsRsyncAccess signed_object) tbs.now.extensions
        (option_map (λ v. v.items) o)) }
{
    rsync_text(alloc, b"RFC 6487 4.8.8", tbs.signed_object(alloc))
}

/// Where changes are notified, as it is shown.
fn notify(alloc: Global, tbs: &TbsCert) -> Result<Option<Vec<u8>>, AllocError>
    ensures { IfOk result (λ o. SaysUri subject_info_access (SpellsHttpsAccess rpki_notify) tbs.now.extensions
        (option_map (λ v. v.items) o)) }
{
    https_text(alloc, b"RFC 6487 4.8.8", tbs.rpki_notify(alloc))
}

/// Where the revocation list and the issuer's certificate are.
pub fn issuer_places(alloc: Global, tbs: &TbsCert) -> Result<Vec<Field>, AllocError>
    ensures { IfOk result (λ fields. AreIssuerPlaces tbs.now.extensions fields.items) }
{
    let revocation = revocation(alloc, tbs)?;
    let issuer = issuer(alloc, tbs)?;
    let mut fields = Vec::new(alloc);
    push_field_if(&mut fields, b"CRL Distribution Points", revocation)?;
    push_field_if(&mut fields, b"AIA", issuer)?;
    Ok(fields)
}

/// Where the subject publishes.
pub fn subject_places(alloc: Global, tbs: &TbsCert) -> Result<Vec<Field>, AllocError>
    ensures { IfOk result (λ fields. AreSubjectPlaces tbs.now.extensions fields.items) }
{
    let repository = repository(alloc, tbs)?;
    let manifest = manifest(alloc, tbs)?;
    let object = object(alloc, tbs)?;
    let notify = notify(alloc, tbs)?;
    let mut fields = Vec::new(alloc);
    push_field_if(&mut fields, b"CARepository", repository)?;
    push_field_if(&mut fields, b"Manifest", manifest)?;
    push_field_if(&mut fields, b"SIA", object)?;
    push_field_if(&mut fields, b"Notify URL", notify)?;
    Ok(fields)
}
