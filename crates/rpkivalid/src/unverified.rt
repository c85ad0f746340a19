//! What attestations of route origins say, of which nothing is verified.

ghost use Rattle.std.specs.Prelude.{◌≡◌, IfOk, IfSome};
ghost use Rattle.rpki_contents.specs.RouteOrigin.{origins};
ghost use Rattle.rpkivalid.specs.Refused.{SaysAt, SaysUnverified};

use crate::paths::object_path;
use crate::sources::Sources;
use bytes::Bytes;
use rpki::der::DecodeError;
use rpki::uri::Rsync;
use rpki_contents::{RouteOrigin, RouteOrigins};
use rpki_objects::{Roa, Strictness};
use std::alloc::{AllocError, Global};

/// These route origins.
fn collected(alloc: Global, rest: RouteOrigins<'_>) -> Result<Vec<RouteOrigin>, AllocError>
    ensures { IfOk result (λ all. all.items ≡ rest.entry) }
{
    let mut all = Vec::new(alloc);
    let mut rest = rest;
    'origins: while let Some(origin) = rest.next_origin() {
        all.push(origin)?;
    }
    Ok(all)
}

/// What the attestation says.
fn said_by(alloc: Global, roa: &Roa) -> Result<Vec<RouteOrigin>, AllocError>
    ensures { IfOk result (λ all. all.items ≡ origins roa.now.content) }
{
    collected(alloc, roa.content().origins())
}

/// What the octets say as an attestation of route origins; nothing if they are none.
fn said_in(
    alloc: Global,
    octets: Bytes,
    strictness: Strictness,
) -> Result<Vec<RouteOrigin>, AllocError>
    ensures { IfOk result (λ all. SaysUnverified strictness octets all.items) }
{
    match Roa::decode(alloc, octets, strictness) {
        Ok(roa) => said_by(alloc, &roa),
        Err(DecodeError::OutOfMemory) => Err(AllocError),
        Err(_) => Ok(Vec::new(alloc)),
    }
}

/// What the object at the URI says as an attestation of route origins; nothing if there is none.
pub fn said_at<S: Sources>(
    alloc: Global,
    sources: &S,
    folder: &str,
    strictness: Strictness,
    uri: &Option<Rsync>,
) -> Result<Vec<RouteOrigin>, AllocError>
    ensures { IfOk result (λ all. IfSome (S.holds sources.now) (λ files. SaysAt files folder.now strictness uri.now
        all.items)) }
{
    let Some(uri) = uri else {
        return Ok(Vec::new(alloc));
    };
    let path = object_path(alloc, folder, &uri.view())?;
    match sources.read_in(alloc, folder, path.as_str())? {
        Some(octets) => said_in(alloc, octets, strictness),
        None => Ok(Vec::new(alloc)),
    }
}
