//! A local copy of a repository.

ghost use Rattle.std.specs.Prelude.{◌≡◌, IfOk, IfSome};
ghost use Rattle.rpkivalid.specs.Paths.{anchor_in, fetched_path, object_at};

use crate::paths::{fetched_path, object_path};
use crate::sources::Sources;
use bytes::Bytes;
use rpki::uri::{Rsync, RsyncView};
use rpki_locator::AnchorUri;
use rpki_validation::Snapshot;
use std::alloc::{AllocError, Global};

/// A folder, as what is published for the locator of a name.
#[derive(Drop)]
pub struct Cache<'a, S> {
    /// The files.
    pub sources: &'a S,
    /// The folder.
    pub folder: &'a str,
    /// The name of the locator.
    pub name: &'a str,
}

/// The object at the URI that the text is, in the folder; None where there is none, or the text is no rsync URI.
fn object_at<S: Sources>(
    alloc: Global,
    sources: &S,
    folder: &str,
    text: &[u8],
) -> Result<Option<Bytes>, AllocError>
    ensures { IfSome (S.holds sources.now) (λ files. IfOk result (λ found.
        found ≡ object_at files folder.now text.now)) }
{
    match RsyncView::from_slice(text) {
        Ok(uri) => {
            let path = object_path(alloc, folder, &uri)?;
            sources.read_in(alloc, folder, path.as_str())
        }
        Err(_) => Ok(None),
    }
}

/// What was fetched from the URI for the locator of this name, in the folder; None where nothing was.
fn fetched_at<S: Sources>(
    alloc: Global,
    sources: &S,
    folder: &str,
    name: &str,
    text: &[u8],
) -> Result<Option<Bytes>, AllocError>
    ensures { IfSome (S.holds sources.now) (λ files. IfOk result (λ found.
        found ≡ files (fetched_path folder.now name.now text.now))) }
{
    let path = fetched_path(alloc, folder, name, text)?;
    sources.read_in(alloc, folder, path.as_str())
}

/// The trust anchor at the URI of the locator of this name, in the folder: what is at the place of an object, or, where
/// there is nothing, what was fetched.
fn anchor_in<S: Sources>(
    alloc: Global,
    sources: &S,
    folder: &str,
    name: &str,
    text: &[u8],
) -> Result<Option<Bytes>, AllocError>
    ensures { IfSome (S.holds sources.now) (λ files. IfOk result (λ found.
        found ≡ anchor_in files folder.now name.now text.now)) }
{
    match object_at(alloc, sources, folder, text)? {
        Some(octets) => Ok(Some(octets)),
        None => fetched_at(alloc, sources, folder, name, text),
    }
}

impl<S: Sources> Snapshot for Cache<'_, S> {
    ghost use Rattle.rpkivalid.specs.Paths.{copy_in};

    ghost holds = { λ c. copy_in c.folder.now c.name.now (S.holds c.sources.now) };

    fn object(&self, alloc: Global, uri: &Rsync) -> Result<Option<Bytes>, AllocError> {
        let path = object_path(alloc, self.folder, &uri.view())?;
        self.sources.read_in(alloc, self.folder, path.as_str())
    }

    fn anchor(&self, alloc: Global, uri: &AnchorUri) -> Result<Option<Bytes>, AllocError> {
        anchor_in(alloc, self.sources, self.folder, self.name, uri.as_slice())
    }
}
