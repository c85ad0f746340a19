//! URIs beside one another.

ghost use Rattle.std.specs.Prelude.{MatchResult};
ghost use Rattle.rpki_examples.specs.Beside.{IsBeside, IsNotBeside};

use rpki::uri::{Error, Rsync};
use std::alloc::Global;

/// The URI of the object with this name in the directory of the manifest, as a manifest lists it. `None` where the
/// manifest's URI has no segment.
///
/// The errors of [Rsync::join], and `Error::OutOfMemory` if allocation fails.
pub fn beside(alloc: Global, manifest: &Rsync, name: &[u8]) -> Result<Option<Rsync>, Error>
    ensures { MatchResult result (IsBeside manifest.now name.now) (IsNotBeside manifest.now name.now) }
{
    let Some(directory) = manifest.parent()? else {
        return Ok(None);
    };
    Ok(Some(directory.join(alloc, name)?))
}
