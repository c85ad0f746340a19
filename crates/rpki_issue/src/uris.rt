//! Whether URIs are read back.

ghost use Rattle.std.specs.Prelude.{◌↔◌, IsTrue, option_map};
ghost use Rattle.rpki_der.specs.OptionalPart.{OfPart};
ghost use Rattle.rpki_issue.specs.Contents.{CanPoint, CanTell, CanPublish};
ghost use Rattle.rpki_issue.specs.Extensions.{IsReachable, HasUris, AreUris};

use crate::kind::{CertExtensions, CertKind, Issuance, Repository};
use rpki::uri::{Https, Rsync};

/// Whether the URI is one that readers accept: below 3,080 octets.
fn can_point(uri: &Rsync) -> bool
    ensures { IsTrue result ↔ CanPoint uri.now }
{
    uri.as_slice().len() < 3080
}

/// Whether the URI, if there is one, has below 3,080 octets.
fn can_tell(uri: Option<&Https>) -> bool
    ensures { IsTrue result ↔ OfPart CanTell (option_map (λ u. u.now) uri.entry) }
{
    match uri {
        Some(uri) => uri.as_slice().len() < 3080,
        None => true,
    }
}

/// Whether readers accept what an issuer says of itself.
fn is_reachable(issuance: &Issuance<'_>) -> bool
    ensures { IsTrue result ↔ IsReachable issuance.now }
{
    can_point(issuance.list) && can_point(issuance.certificate)
}

/// Whether readers accept where an authority publishes.
pub(crate) fn can_publish(repository: &Repository<'_>) -> bool
    ensures { IsTrue result ↔ CanPublish repository.now }
{
    can_point(repository.base)
        && can_point(repository.manifest)
        && can_tell(repository.notification)
}

/// Whether readers accept the URIs of the kind.
fn has_uris(kind: &CertKind<'_>) -> bool
    ensures { IsTrue result ↔ HasUris kind.now }
{
    match kind {
        CertKind::Anchor(repository) => can_publish(repository),
        CertKind::Authority(issuance, repository) => {
            is_reachable(issuance) && can_publish(repository)
        }
        CertKind::Object(issuance, uri) => is_reachable(issuance) && can_point(uri),
        CertKind::Detached(issuance) => is_reachable(issuance),
        CertKind::Router(issuance) => is_reachable(issuance),
    }
}

/// Whether readers accept all URIs that the extensions say.
pub(crate) fn are_uris(said: &CertExtensions<'_>) -> bool
    ensures { IsTrue result ↔ AreUris said.now }
{
    has_uris(&said.kind) && can_tell(said.practices)
}
