//! Trust anchors (RFC 8630 3).

ghost use Rattle.std.specs.Prelude.{◌≡◌, IfOk};
ghost use Rattle.rpki_time.specs.Validity.{HoldsAt};
ghost use Rattle.rpki_valid.specs.Verified.{terms_in};
ghost use Rattle.rpki_validation.specs.Steps.{FindsAnchorIn, FindsAnchorAt, FindsAnchor};

use crate::reason::Reason;
use crate::snapshot::Snapshot;
use crate::stop::Stop;
use bytes::Bytes;
use rpki::repository::x509::Time;
use rpki_cert::Cert;
use rpki_locator::AnchorUri;
use rpki_rsa::PreparingProvider;
use rpki_valid::{ResourceCert, Terms};
use std::alloc::Global;

/// The trust anchor that the octets are.
fn anchor_in<'p, P: PreparingProvider>(
    alloc: Global,
    provider: &'p P,
    terms: Terms<'p>,
    at: Time,
    octets: Bytes,
) -> Result<ResourceCert<'p, P>, Stop>
    ensures exactly { FindsAnchorIn P.Provider (terms_in terms.entry) provider.entry.now at octets result }
    ensures period { IfOk result (λ a. HoldsAt a.period at) }
    ensures own { IfOk result (λ a. a.period ≡ a.cert.tbs.validity) }
    ensures terms { IfOk result (λ a. a.terms ≡ terms_in terms.entry) }
    ensures depth { IfOk result (λ a. a.depth ≡ 0) }
    ensures provider { IfOk result (λ a. a.provider ≡ provider.entry.now) }
{
    let cert = Cert::decode(alloc, octets)?;
    let anchor = ResourceCert::verify_ta(alloc, cert, provider, terms, at)?;
    Ok(anchor)
}

/// The trust anchor that was fetched from the URI.
fn anchor_at<'p, S: Snapshot, P: PreparingProvider>(
    alloc: Global,
    snapshot: &S,
    provider: &'p P,
    terms: Terms<'p>,
    at: Time,
    uri: &AnchorUri,
) -> Result<ResourceCert<'p, P>, Stop>
    ensures exactly { FindsAnchorAt P.Provider (terms_in terms.entry) provider.entry.now at (S.holds snapshot.now)
        uri.now result }
    ensures period { IfOk result (λ a. HoldsAt a.period at) }
    ensures own { IfOk result (λ a. a.period ≡ a.cert.tbs.validity) }
    ensures terms { IfOk result (λ a. a.terms ≡ terms_in terms.entry) }
    ensures depth { IfOk result (λ a. a.depth ≡ 0) }
    ensures provider { IfOk result (λ a. a.provider ≡ provider.entry.now) }
{
    match snapshot.anchor(alloc, uri)? {
        Some(octets) => anchor_in(alloc, provider, terms, at, octets),
        None => Err(Stop::Rejected(Reason::MissingAnchor)),
    }
}

/// The trust anchor of a locator at the moment: of its URIs, in their order, that of the first from which one was
/// fetched (RFC 8630 3). Its path is the certificate alone, which is checked against the terms: the key of the locator
/// is its own.
///
/// The error is that of the last URI, or `MissingAnchor` where there is none; or `OutOfMemory` if allocation fails.
pub fn anchor_of<'p, S: Snapshot, P: PreparingProvider>(
    alloc: Global,
    snapshot: &S,
    provider: &'p P,
    uris: &[AnchorUri],
    terms: Terms<'p>,
    at: Time,
) -> Result<ResourceCert<'p, P>, Stop>
    ensures exactly { FindsAnchor P.Provider (terms_in terms.entry) provider.entry.now at (S.holds snapshot.now)
        uris.now result }
    ensures period { IfOk result (λ a. HoldsAt a.period at) }
    ensures own { IfOk result (λ a. a.period ≡ a.cert.tbs.validity) }
    ensures terms { IfOk result (λ a. a.terms ≡ terms_in terms.entry) }
    ensures depth { IfOk result (λ a. a.depth ≡ 0) }
    ensures provider { IfOk result (λ a. a.provider ≡ provider.entry.now) }
{
    let mut last = Reason::MissingAnchor;
    let mut rest = uris;
    'uris: while let Some((uri, following)) = rest.split_first() {
        match anchor_at(alloc, snapshot, provider, terms, at, uri) {
            Ok(anchor) => return Ok(anchor),
            Err(Stop::OutOfMemory) => return Err(Stop::OutOfMemory),
            Err(Stop::Rejected(reason)) => last = reason,
        }
        rest = following;
    }
    Err(Stop::Rejected(last))
}
