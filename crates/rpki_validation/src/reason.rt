//! Why objects are rejected.

use rpki::der::DecodeError;
use rpki::repository::error::ValidationError;
use rpki::uri::Rsync;
use rpki_cert::CertError;
use std::fmt;

/// Why an object, or all that an authority publishes, is rejected.
#[derive(Debug, Drop)]
pub enum Reason {
    /// Nothing was fetched from a URI of the locator (RFC 8630 3).
    MissingAnchor,
    /// The certificate of the authority names no repository (RFC 6487 4.8.8.1).
    NoRepository,
    /// The certificate of the authority names no manifest (RFC 6487 4.8.8.1).
    NoManifest,
    /// There is no manifest (RFC 9286 6.2).
    Missing,
    /// The manifest has no revocation list, or more than one (RFC 6481 2.2).
    NoList,
    /// There is no object at this URI, which a file of the manifest has (RFC 9286 6.4).
    MissingFile(Rsync),
    /// The object at this URI has another digest than the manifest says (RFC 9286 6.5).
    OtherFile(Rsync),
    /// The URI of a file of the manifest would be too long.
    LongUri,
    /// A certificate could not be read.
    MalformedCert(CertError),
    /// Another object could not be read.
    Malformed(DecodeError),
    /// The object is not valid.
    Invalid(ValidationError),
}

impl fmt::Display for Reason {
    fn fmt<W: fmt::Write>(&self, f: &mut fmt::Formatter<W>) -> fmt::Result {
        match self {
            Reason::MissingAnchor => f.write_str("RFC 8630 3: no trust anchor was fetched"),
            Reason::NoRepository => f.write_str("RFC 6487 4.8.8.1: no repository is named"),
            Reason::NoManifest => f.write_str("RFC 6487 4.8.8.1: no manifest is named"),
            Reason::Missing => f.write_str("RFC 9286 6.2: no manifest"),
            Reason::NoList => f.write_str("RFC 6481 2.2: not one revocation list"),
            Reason::MissingFile(uri) => write!(f, "RFC 9286 6.4: no file at {uri}"),
            Reason::OtherFile(uri) => write!(f, "RFC 9286 6.5: another digest at {uri}"),
            Reason::LongUri => f.write_str("the URI of a file is too long"),
            Reason::MalformedCert(e) => write!(f, "malformed: {e}"),
            Reason::Malformed(e) => write!(f, "malformed: {e}"),
            Reason::Invalid(e) => write!(f, "invalid: {e}"),
        }
    }
}
