//! What is counted beside payloads.

ghost use Rattle.std.specs.Prelude.{◌≡◌, bytes_eq};
ghost use Rattle.rpki_der.specs.Prelude.{text_of};
ghost use Rattle.rpki.specs.ErrorContent.{verification_content};
ghost use Rattle.rpkivalid.specs.Counted.{count_of, invalid_kind, is_kind, kind_of, reasons_of, tally_of};
ghost use Rattle.rpkivalid.specs.Counted.{is_expired, is_stale};
ghost use Rattle.rpkivalid.specs.Counted.{verification_kind};

use rpki::repository::error::{ValidationError, VerificationError};
use rpki_der::ContentError;
use rpki_payloads::{Reasons, Tally};
use rpki_validation::{Reason, Rejection};

/// The kinds of reasons that are counted apart: those of [Reasons].
#[derive(Clone, Copy, Debug)]
pub enum Kind {
    /// A file isn't there, or none is named.
    Missing,
    /// A file has another digest.
    Digest,
    /// A manifest or a revocation list is stale, or issued later.
    Stale,
    /// A certificate has expired, or is not yet valid.
    Expired,
    /// A certificate is revoked.
    Revoked,
    /// What can't be read, or violates its profile.
    Malformed,
    /// What fails verification otherwise.
    Invalid,
}

/// Whether the error has this text.
fn has_text(e: VerificationError, text: &'static str) -> bool
    ensures { result ≡ bytes_eq (text_of (verification_content e)) text.now }
{
    e == VerificationError::new(ContentError::from_static(text))
}

/// Whether the error is that of a manifest or a revocation list that is stale, or issued later.
fn is_stale(e: VerificationError) -> bool
    ensures { result ≡ is_stale (text_of (verification_content e)) }
{
    has_text(e, "RFC 9286 6.3: stale manifest")
        || has_text(e, "RFC 9286 6.3: manifest issued later")
        || has_text(e, "RFC 5280 6.3.3: stale list")
        || has_text(e, "RFC 5280 6.3.3: issued later")
}

/// Whether the error is that of a certificate that has expired, or is not yet valid.
fn is_expired(e: VerificationError) -> bool
    ensures { result ≡ is_expired (text_of (verification_content e)) }
{
    has_text(e, "RFC 6487 7.2: certificate has expired")
        || has_text(e, "RFC 6487 7.2: certificate is not yet valid")
}

/// The kind of an error of verification.
fn verification_kind(e: VerificationError) -> Kind
    ensures { result ≡ verification_kind (text_of (verification_content e)) }
{
    if is_stale(e) {
        Kind::Stale
    } else if is_expired(e) {
        Kind::Expired
    } else if has_text(e, "RFC 6487 7.2: revoked certificate") {
        Kind::Revoked
    } else {
        Kind::Invalid
    }
}

/// The kind of an error of an object that isn't valid.
fn invalid_kind(e: &ValidationError) -> Kind
    ensures { result ≡ invalid_kind e.now }
{
    match e {
        ValidationError::Decoding(_) => Kind::Malformed,
        ValidationError::Inspection(_) => Kind::Malformed,
        ValidationError::Verification(e) => verification_kind(*e),
    }
}

/// The kind of a reason.
fn kind_of(reason: &Reason) -> Kind
    ensures { result ≡ kind_of reason.now }
{
    match reason {
        Reason::MissingAnchor => Kind::Missing,
        Reason::NoRepository => Kind::Missing,
        Reason::NoManifest => Kind::Missing,
        Reason::Missing => Kind::Missing,
        Reason::NoList => Kind::Missing,
        Reason::MissingFile(_) => Kind::Missing,
        Reason::OtherFile(_) => Kind::Digest,
        Reason::LongUri => Kind::Malformed,
        Reason::MalformedCert(_) => Kind::Malformed,
        Reason::Malformed(_) => Kind::Malformed,
        Reason::Invalid(e) => invalid_kind(e),
    }
}

/// Whether both kinds are the same.
fn is_kind(one: Kind, other: Kind) -> bool
    ensures { result ≡ is_kind one other }
{
    match (one, other) {
        (Kind::Missing, Kind::Missing) => true,
        (Kind::Digest, Kind::Digest) => true,
        (Kind::Stale, Kind::Stale) => true,
        (Kind::Expired, Kind::Expired) => true,
        (Kind::Revoked, Kind::Revoked) => true,
        (Kind::Malformed, Kind::Malformed) => true,
        (Kind::Invalid, Kind::Invalid) => true,
        _ => false,
    }
}

/// How many of the rejections are for a reason of this kind.
fn count_of(kind: Kind, rejections: &[Rejection]) -> usize
    ensures { result ≡ count_of kind rejections.now }
{
    let mut count = 0;
    let mut rest = rejections;
    'rejections: while let Some((first, following)) = rest.split_first() {
        if is_kind(kind, kind_of(&first.reason)) {
            count += 1;
        }
        rest = following;
    }
    count
}

/// How many of the rejections are for which reason.
fn reasons_of(rejections: &[Rejection]) -> Reasons
    ensures { result ≡ reasons_of rejections.now }
{
    Reasons {
        missing: count_of(Kind::Missing, rejections),
        digest: count_of(Kind::Digest, rejections),
        stale: count_of(Kind::Stale, rejections),
        expired: count_of(Kind::Expired, rejections),
        revoked: count_of(Kind::Revoked, rejections),
        malformed: count_of(Kind::Malformed, rejections),
        invalid: count_of(Kind::Invalid, rejections),
    }
}

/// The numbers of publication points and of objects that are rejected, and by reason, and whether there is a trust
/// anchor.
pub fn tally_of(is_anchored: bool, rejections: &[Rejection]) -> Tally
    ensures { result ≡ tally_of is_anchored rejections.now }
{
    let mut points = 0;
    let mut objects = 0;
    let mut rest = rejections;
    'rejections: while let Some((first, following)) = rest.split_first() {
        if first.is_point {
            points += 1;
        } else {
            objects += 1;
        }
        rest = following;
    }
    let reasons = reasons_of(rejections);
    Tally {
        is_anchored,
        points,
        objects,
        reasons,
    }
}
