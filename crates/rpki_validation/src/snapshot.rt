//! Where objects are read.

use bytes::Bytes;
use rpki::uri::Rsync;
use rpki_locator::AnchorUri;
use std::alloc::{AllocError, Global};

/// What is published, by its URI: at each URI there is one object, or none, as long as the snapshot is used.
pub trait Snapshot {
    ghost use Rattle.std.specs.Prelude.{◌≡◌, Option, IfOk};
    ghost use Rattle.rpki_text.specs.RsyncText.{uri_of};
    ghost use Rattle.rpki_locator.specs.Locator.{uri_text};
    ghost use Rattle.rpki_validation.specs.Snapshot.{Published, Where};

    // What is published; or None: then nothing is said of it, as of the files of a host, which others may change.
    ghost holds: { Self → Option Published };

    /// The octets of the object at the URI; None where there is none. URIs that differ only in the case of their scheme
    /// or their authority are one (RFC 5781 2).
    ///
    /// Returns `AllocError` if allocation fails.
    fn object(&self, alloc: Global, uri: &Rsync) -> Result<Option<Bytes>, AllocError>
        ensures { Where (holds self.now) (λ published. IfOk result (λ found.
            found ≡ published.objects (uri_of uri.now))) };

    /// The octets that were fetched from the URI of a locator (RFC 8630 3); None where nothing was.
    ///
    /// Returns `AllocError` if allocation fails.
    fn anchor(&self, alloc: Global, uri: &AnchorUri) -> Result<Option<Bytes>, AllocError>
        ensures { Where (holds self.now) (λ published. IfOk result (λ found.
            found ≡ published.anchors (uri_text uri.now))) };
}
