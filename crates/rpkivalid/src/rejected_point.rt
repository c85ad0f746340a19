//! What the route origin attestations of a point that is rejected say, by the manifest that lists them. Nothing of them
//! is verified.

ghost use Rattle.std.specs.Prelude.{◌≡◌, ◌++◌, List, IfOk, IfSome};
ghost use Rattle.rpki_contents.specs.declared.route_origin.RouteOrigin.{RouteOrigin};
ghost use Rattle.rpkivalid.specs.Refused.{SayFiles, SayFrom, SayListed, SaysPoint, attestation_uri};

use crate::paths::object_path;
use crate::sources::Sources;
use crate::unverified::said_at;
use bytes::Bytes;
use rpki::der::DecodeError;
use rpki::uri::{Error, Rsync};
use rpki_contents::{FileAndHash, RouteOrigin};
use rpki_objects::{Manifest, Strictness};
use std::alloc::{AllocError, Global};

/// Where the file is, in the folder of its manifest, if it is an attestation by its name; None else, or if its URI is
/// too long.
fn attestation_uri(
    alloc: Global,
    point: &Rsync,
    file: &FileAndHash,
) -> Result<Option<Rsync>, AllocError>
    ensures { IfOk result (λ uri. uri ≡ attestation_uri point.now file.now) }
{
    if !file.file().ends_with(b".roa") {
        return Ok(None);
    }
    match point.join(alloc, file.file()) {
        Ok(uri) => Ok(Some(uri)),
        Err(Error::OutOfMemory) => Err(AllocError),
        Err(_) => Ok(None),
    }
}

/// What the files say, in their order.
fn said_by_files<S: Sources>(
    alloc: Global,
    sources: &S,
    folder: &str,
    strictness: Strictness,
    point: &Rsync,
    files: &[FileAndHash],
) -> Result<Vec<RouteOrigin>, AllocError>
    ensures { IfOk result (λ all. IfSome (S.holds sources.now) (λ there. SayFiles there folder.now strictness point.now
        files.now all.items)) }
{
    let mut all = Vec::new(alloc);
    let mut rest = files;
    'files: while let Some((file, following)) = rest.split_first() {
        let uri = attestation_uri(alloc, point, file)?;
        let one = said_at(alloc, sources, folder, strictness, &uri)?;
        all.extend_from_slice(one.as_slice())?;
        rest = following;
    }
    Ok(all)
}

/// What the files say that the octets list as a manifest; nothing if they are none.
fn said_by_listed<S: Sources>(
    alloc: Global,
    sources: &S,
    folder: &str,
    strictness: Strictness,
    point: &Rsync,
    octets: Bytes,
) -> Result<Vec<RouteOrigin>, AllocError>
    ensures { IfOk result (λ all. IfSome (S.holds sources.now) (λ there. SayListed there folder.now strictness point.now
        (Some octets) all.items)) }
{
    match Manifest::decode(alloc, octets, strictness.attributes) {
        Ok(manifest) => {
            let files = manifest.content().file_list();
            said_by_files(alloc, sources, folder, strictness, point, files)
        }
        Err(DecodeError::OutOfMemory) => Err(AllocError),
        Err(_) => Ok(Vec::new(alloc)),
    }
}

/// What the files say that the manifest at the URI lists; nothing if there is none.
///
/// Returns `AllocError` if allocation fails.
pub fn said_by_point<S: Sources>(
    alloc: Global,
    sources: &S,
    folder: &str,
    strictness: Strictness,
    uri: &Option<Rsync>,
) -> Result<Vec<RouteOrigin>, AllocError>
    ensures { IfOk result (λ all. IfSome (S.holds sources.now) (λ there. SaysPoint there folder.now strictness uri.now
        all.items)) }
{
    let Some(uri) = uri else {
        return Ok(Vec::new(alloc));
    };
    let Some(point) = uri.parent()? else {
        return Ok(Vec::new(alloc));
    };
    let path = object_path(alloc, folder, &uri.view())?;
    match sources.read_in(alloc, folder, path.as_str())? {
        Some(octets) => said_by_listed(alloc, sources, folder, strictness, &point, octets),
        None => Ok(Vec::new(alloc)),
    }
}
