//! Where the certificate of a trust anchor is.

ghost use Rattle.std.specs.Prelude.{◌≡◌, IfOk};
ghost use Rattle.rpki_locator.specs.Locator.{uri_text, IsUriOf, IsHttpsOf};

use rpki::uri::{Error, Https, Rsync};
use std::alloc::{AllocError, Global};

/// Where the certificate of a trust anchor is (RFC 8630 2.2).
#[derive(Debug, Drop)]
pub enum AnchorUri {
    /// An object by rsync, not a folder.
    Rsync(Rsync),
    /// An object by HTTPS.
    Https(Https),
}

/// The HTTPS URI that the line is. None if it isn't one.
fn https_of(alloc: Global, line: &[u8]) -> Result<Option<AnchorUri>, AllocError>
    ensures { IfOk result (IsHttpsOf line.now) }
{
    match Https::from_slice(alloc, line) {
        Ok(uri) => Ok(Some(AnchorUri::Https(uri))),
        Err(Error::OutOfMemory) => Err(AllocError),
        Err(_) => Ok(None),
    }
}

impl AnchorUri {
    /// The URI that the line is. None if it is no URI that a locator may have.
    ///
    /// Returns `AllocError` if allocation fails.
    pub(crate) fn of_line(alloc: Global, line: &[u8]) -> Result<Option<AnchorUri>, AllocError>
        ensures { IfOk result (IsUriOf line.now) }
    {
        match Rsync::from_slice(alloc, line) {
            Ok(uri) => {
                if uri.path_is_dir() {
                    return https_of(alloc, line);
                }
                Ok(Some(AnchorUri::Rsync(uri)))
            }
            Err(Error::OutOfMemory) => Err(AllocError),
            Err(_) => https_of(alloc, line),
        }
    }

    /// The text of the URI, as it was spelled.
    pub fn as_slice(&self) -> &[u8]
        ensures { result.now ≡ uri_text self.now }
    {
        match self {
            AnchorUri::Rsync(uri) => uri.as_slice(),
            AnchorUri::Https(uri) => uri.as_slice(),
        }
    }
}
