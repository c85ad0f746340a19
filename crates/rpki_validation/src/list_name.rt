//! Whether the certificate of a manifest names the revocation list that is on the manifest (RFC 6487 4.8.6).

ghost use Rattle.std.specs.Prelude.{◌↔◌, IfOk, IsTrue};
ghost use Rattle.rpki_validation.specs.Met.{IsPlace};
ghost use Rattle.rpki_validation.specs.Point.{IsListUri, NamesItsList, NamesList};

use crate::publication::{Publication, file_uri, list_file};
use crate::stop::Stop;
use rpki::uri::Rsync;
use rpki_cert::TbsCert;
use std::alloc::{AllocError, Global};

/// Where the revocation list of the issuer is, as the certificate says: the first rsync URI of its distribution point;
/// None where it has none, or says something else.
fn list_named(alloc: Global, tbs: &TbsCert) -> Result<Option<Rsync>, AllocError>
    ensures { IfOk result (IsPlace (NamesList tbs.now)) }
{
    match tbs.crl_uri(alloc) {
        Ok(place) => Ok(place),
        Err(error) => match Stop::from(error) {
            Stop::OutOfMemory => Err(AllocError),
            Stop::Rejected(_) => Ok(None),
        },
    }
}

/// Where the list is that is on the manifest; None where there is none, or its URI would be too long.
fn list_uri(alloc: Global, publication: &Publication) -> Result<Option<Rsync>, AllocError>
    ensures { IfOk result (IsPlace (IsListUri publication.now)) }
{
    let Some(file) = list_file(publication.manifest().content().file_list()) else {
        return Ok(None);
    };
    match file_uri(alloc, publication.folder(), file) {
        Ok(uri) => Ok(Some(uri)),
        Err(Stop::OutOfMemory) => Err(AllocError),
        Err(Stop::Rejected(_)) => Ok(None),
    }
}

/// Whether the certificate of the manifest names the list that is on the manifest.
///
/// Returns `AllocError` if allocation fails.
pub(crate) fn names_its_list(alloc: Global, publication: &Publication) -> Result<bool, AllocError>
    ensures { IfOk result (λ is. IsTrue is ↔ NamesItsList publication.now) }
{
    let Some(uri) = list_uri(alloc, publication)? else {
        return Ok(false);
    };
    match list_named(alloc, publication.manifest().object().cert().tbs())? {
        Some(other) => Ok(other == uri),
        None => Ok(false),
    }
}
