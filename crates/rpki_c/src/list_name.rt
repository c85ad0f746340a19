//! Whether the certificate of a manifest names the revocation list that is on the manifest (RFC 6487 4.8.6).

ghost use Rattle.std.specs.Prelude.{◌≡◌, ◌<◌, ◌↔◌, ◌∷◌, [], ℕ, List, IsTrue, bytes_eq, length};
ghost use Rattle.std.specs.Option.{option_copied, option_or};
ghost use Rattle.rpki_der.specs.Prelude.{left, SpellsSome};
ghost use Rattle.rpki_text.specs.Views.{rsync_text};
ghost use Rattle.rpki_x509.specs.InPlace.{Gives, GivesAll};
ghost use Rattle.rpki_cert.specs.Access.{Through, SpellsUri, SpellsPoints, SpellsDescription, SpellsRsyncAccess};
ghost use Rattle.rpki_cert.specs.Access.{ca_repository, chosen, first_rsync};
ghost use Rattle.rpki_cert.specs.AccessDescription.{description_of};
ghost use Rattle.rpki_cert.specs.Cert.{CertParts};
ghost use Rattle.rpki_cert.specs.View.{IsCertAt};
ghost use Rattle.rpki_c.specs.ListName.{first_folder, IsAt, IsFileIn, IsPlace, NamesList, Publishes, TestsName};

use crate::authority::Authority;
use crate::status::{NO_ISSUER, OTHER_LIST_URI};
use rpki::oid;
use rpki_cert::{AccessDescription, CertView, ExtensionKind, point_names, take_general_name};
use rpki_der::{Constructed, DecodeError, Tag};
use rpki_text::uri::RsyncView;
use rpki_x509::{are_same, inside};

/// The URI that was found; or else the name, if it is an rsync URI.
fn rsync_or<'a>(found: Option<&'a [u8]>, name: Option<&'a [u8]>) -> Option<&'a [u8]>
    ensures { option_copied result
        ≡ option_or (option_copied found.entry) (first_rsync (option_copied name.entry ∷ [])) }
{
    if found.is_some() {
        return found;
    }
    match name {
        Some(text) => match RsyncView::from_slice(text) {
            Ok(_) => Some(text),
            Err(_) => None,
        },
        None => None,
    }
}

/// The text of a general name, which is a URI.
fn take_uri<'a>(cons: &mut Constructed<'a>) -> Result<Option<&'a [u8]>, DecodeError>
    ensures { Gives option_copied SpellsUri (left cons.old) (left cons.new) result }
{
    match take_general_name(cons) {
        Ok(Some(text)) => Ok(Some(text)),
        Ok(None) => Err(DecodeError::Unexpected),
        Err(e) => Err(e),
    }
}

/// The first rsync URI of the general names that these are, each a URI; there is one at least.
fn uris_in<'a>(names: Constructed<'a>) -> Result<Option<&'a [u8]>, DecodeError>
    ensures { GivesAll option_copied (Through first_rsync (SpellsSome SpellsUri)) (left names.entry) result }
{
    if names.is_empty() {
        return Err(DecodeError::Truncated);
    }
    let mut rest = names;
    let mut found = None;
    'uris: while !rest.is_empty() {
        match take_uri(&mut rest) {
            Ok(name) => found = rsync_or(found, name),
            Err(e) => return Err(e),
        }
    }
    Ok(found)
}

/// The name of a description, if its method is that of a folder.
fn folder_of<'a>(description: &AccessDescription<'a>) -> Option<&'a [u8]>
    ensures { option_copied result ≡ chosen (
      bytes_eq (description_of description.now).0 ca_repository,
      (description_of description.now).1,
    ) }
{
    if description.method == oid::AD_CA_REPOSITORY {
        description.location
    } else {
        None
    }
}

/// The first rsync URI of a folder among the access descriptions that these are; there is one at least.
fn folders_in<'a>(descriptions: Constructed<'a>) -> Result<Option<&'a [u8]>, DecodeError>
    ensures { GivesAll option_copied (Through first_folder (SpellsSome SpellsDescription)) (left descriptions.entry)
        result }
{
    if descriptions.is_empty() {
        return Err(DecodeError::Truncated);
    }
    let mut rest = descriptions;
    let mut found = None;
    'folders: while !rest.is_empty() {
        match AccessDescription::take_from(&mut rest) {
            Ok(description) => found = rsync_or(found, folder_of(&description)),
            Err(e) => return Err(e),
        }
    }
    Ok(found)
}

/// The first rsync URI of CRL distribution points (RFC 6487 4.8.6).
fn points_in(octets: &[u8]) -> Result<Option<&[u8]>, DecodeError>
    ensures { GivesAll option_copied SpellsPoints octets.now result }
{
    match point_names(octets) {
        Ok(names) => uris_in(Constructed::from_slice(names)),
        Err(e) => Err(e),
    }
}

/// The first rsync URI of a folder in subject information access (RFC 6487 4.8.8.1).
fn access_in(octets: &[u8]) -> Result<Option<&[u8]>, DecodeError>
    ensures { GivesAll option_copied (SpellsRsyncAccess ca_repository) octets.now result }
{
    match inside(Constructed::from_slice(octets), Tag::SEQUENCE) {
        Ok(descriptions) => folders_in(descriptions),
        Err(e) => Err(e),
    }
}

/// Where the certificate says that the revocation list of its issuer is.
fn list_place<'a>(cert: &CertView<'a>) -> Option<&'a [u8]>
    ensures { (s : List ℕ) (x : CertParts) → IsCertAt s cert.now x → IsPlace (NamesList x) (option_copied result) }
{
    let found = match cert
        .tbs
        .named
        .keyed
        .extensions
        .find(ExtensionKind::CrlDistributionPoints)
    {
        Some(found) => found,
        None => return None,
    };
    if found.critical() {
        return None;
    }
    match points_in(found.octets()) {
        Ok(place) => place,
        Err(_) => None,
    }
}

/// Where the certificate says that its subject publishes.
fn folder_place<'a>(cert: &CertView<'a>) -> Option<&'a [u8]>
    ensures { (s : List ℕ) (x : CertParts) → IsCertAt s cert.now x → IsPlace (Publishes x) (option_copied result) }
{
    let found = match cert
        .tbs
        .named
        .keyed
        .extensions
        .find(ExtensionKind::SubjectInfoAccess)
    {
        Some(found) => found,
        None => return None,
    };
    if found.critical() {
        return None;
    }
    match access_in(found.octets()) {
        Ok(place) => place,
        Err(_) => None,
    }
}

/// Whether the place is that of the file of this name in the folder.
fn is_file_in(place: &RsyncView<'_>, folder: &RsyncView<'_>, name: &[u8]) -> bool
    requires { 0 < length name.now }
    ensures { IsTrue result ↔ IsFileIn (rsync_text folder.now) name.now (rsync_text place.now) }
{
    let Some(path) = place.relative_to(folder) else {
        return false;
    };
    if !are_same(path.as_bytes(), name) {
        return false;
    }
    folder.joined_len(name).is_ok()
}

/// Whether both are there, rsync URIs, and the first is that of the file of this name in the second.
fn is_at(place: Option<&[u8]>, folder: Option<&[u8]>, name: &[u8]) -> bool
    requires { 0 < length name.now }
    ensures { IsTrue result ↔ IsAt (option_copied place.entry) (option_copied folder.entry) name.now }
{
    let Some(place) = place else {
        return false;
    };
    let Some(folder) = folder else {
        return false;
    };
    let Ok(uri) = RsyncView::from_slice(place) else {
        return false;
    };
    let Ok(home) = RsyncView::from_slice(folder) else {
        return false;
    };
    is_file_in(&uri, &home, name)
}

/// Tests that the certificate says of the revocation list of its issuer that it is the file of this name where the
/// authority publishes (RFC 6487 4.8.6).
///
/// The error is `NO_ISSUER`, where the authority's certificate is none, or `OTHER_LIST_URI`.
pub(crate) fn names_file(by: &Authority<'_>, cert: &CertView<'_>, name: &[u8]) -> Result<(), u8>
    requires { 0 < length name.now }
    ensures { (s : List ℕ) (x : CertParts) → IsCertAt s cert.now x → TestsName by.now x name.now result }
{
    let issuer = match CertView::read(by.certificate.octets) {
        Ok(issuer) => issuer,
        Err(_) => return Err(NO_ISSUER),
    };
    if !is_at(list_place(cert), folder_place(&issuer), name) {
        return Err(OTHER_LIST_URI);
    }
    Ok(())
}
