//! Whether an authority is named: by its manifest, and by its certificate (RFC 6487 4.8.7).

ghost use Rattle.std.specs.Prelude.{◌↔◌, IfOk, IsTrue};
ghost use Rattle.rpki_validation.specs.Met.{IsPlace};
ghost use Rattle.rpki_validation.specs.Named.{FindsManifestOf, FollowsPlace, IsCertAt, IsNamedByManifest, IsNamedFrom};
ghost use Rattle.rpki_validation.specs.Named.{NamesIssuer, Stands};
ghost use Rattle.rpki_validation.specs.Snapshot.{Where};

use crate::issued::cert_in;
use crate::publication::{manifest_at, manifest_place};
use crate::snapshot::Snapshot;
use crate::stop::Stop;
use rpki::uri::Rsync;
use rpki_cert::{Cert, TbsCert};
use rpki_objects::Manifest;
use std::alloc::{AllocError, Global};

/// Where the certificate of the issuer is, as this one says: the first rsync URI of its access; None where it has none,
/// or says something else.
fn issuer_place(alloc: Global, tbs: &TbsCert) -> Result<Option<Rsync>, AllocError>
    ensures { IfOk result (IsPlace (NamesIssuer tbs.now)) }
{
    match tbs.ca_issuer(alloc) {
        Ok(place) => Ok(place),
        Err(error) => match Stop::from(error) {
            Stop::OutOfMemory => Err(AllocError),
            Stop::Rejected(_) => Ok(None),
        },
    }
}

/// The manifest of the subject.
fn manifest_of<S: Snapshot>(
    alloc: Global,
    snapshot: &S,
    tbs: &TbsCert,
    strict: bool,
) -> Result<Manifest, Stop>
    ensures { FindsManifestOf (S.holds snapshot.now) strict tbs.now result }
{
    let place = manifest_place(alloc, tbs)?;
    let manifest = manifest_at(alloc, snapshot, &place, strict)?;
    Ok(manifest)
}

/// Where the certificate of the subject is, as its manifest says; None where there is no manifest, or it says nothing.
pub(crate) fn place_by_manifest<S: Snapshot>(
    alloc: Global,
    snapshot: &S,
    tbs: &TbsCert,
    strict: bool,
) -> Result<Option<Rsync>, AllocError>
    ensures { Where (S.holds snapshot.now) (λ published.
        IfOk result (IsPlace (IsNamedByManifest published strict tbs.now))) }
{
    match manifest_of(alloc, snapshot, tbs, strict) {
        Ok(manifest) => issuer_place(alloc, manifest.object().cert().tbs()),
        Err(Stop::OutOfMemory) => Err(AllocError),
        Err(Stop::Rejected(_)) => Ok(None),
    }
}

/// Whether a certificate is at the URI of which the same is signed.
fn is_cert_at<S: Snapshot>(
    alloc: Global,
    snapshot: &S,
    cert: &Cert,
    uri: &Rsync,
) -> Result<bool, AllocError>
    ensures { Where (S.holds snapshot.now) (λ published.
        IfOk result (λ is. IsTrue is ↔ IsCertAt published cert.now uri.now)) }
{
    let Some(octets) = snapshot.object(alloc, uri)? else {
        return Ok(false);
    };
    match cert_in(alloc, octets) {
        Ok(there) => Ok(there.signed_data().data() == cert.signed_data().data()),
        Err(Stop::OutOfMemory) => Err(AllocError),
        Err(Stop::Rejected(_)) => Ok(false),
    }
}

/// Whether the certificate is where its subject's manifest says.
fn stands<S: Snapshot>(
    alloc: Global,
    snapshot: &S,
    cert: &Cert,
    strict: bool,
) -> Result<bool, AllocError>
    ensures { Where (S.holds snapshot.now) (λ published.
        IfOk result (λ is. IsTrue is ↔ Stands published strict cert.now)) }
{
    match place_by_manifest(alloc, snapshot, cert.tbs(), strict)? {
        Some(uri) => is_cert_at(alloc, snapshot, cert, &uri),
        None => Ok(false),
    }
}

/// Whether the certificate names this place as that of its issuer's.
fn follows(alloc: Global, place: &Option<Rsync>, tbs: &TbsCert) -> Result<bool, AllocError>
    ensures { IfOk result (λ is. IsTrue is ↔ FollowsPlace place.now tbs.now) }
{
    let Some(uri) = place else {
        return Ok(false);
    };
    match issuer_place(alloc, tbs)? {
        Some(other) => Ok(other == *uri),
        None => Ok(false),
    }
}

/// Whether the certificate names this place as that of its issuer's, and is where its subject's manifest says.
pub(crate) fn is_named<S: Snapshot>(
    alloc: Global,
    snapshot: &S,
    place: &Option<Rsync>,
    cert: &Cert,
    strict: bool,
) -> Result<bool, AllocError>
    ensures { Where (S.holds snapshot.now) (λ published.
        IfOk result (λ is. IsTrue is ↔ IsNamedFrom published strict place.now cert.now)) }
{
    if follows(alloc, place, cert.tbs())? {
        return stands(alloc, snapshot, cert, strict);
    }
    Ok(false)
}
