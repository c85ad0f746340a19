//! The extensions that are read in place.

/// An extension that is there, but malformed, or not as critical as it has to be (RFC 6487 4.8).
#[derive(Clone, Copy, Debug, PartialEq, Eq)]
pub enum KnownPart {
    /// The basic constraints (RFC 6487 4.8.1).
    BasicConstraints,
    /// The subject key identifier (RFC 6487 4.8.2).
    SubjectKeyIdentifier,
    /// The authority key identifier (RFC 6487 4.8.3).
    AuthorityKeyIdentifier,
    /// The key usage (RFC 6487 4.8.4).
    KeyUsage,
    /// The certificate policies (RFC 6487 4.8.9).
    CertificatePolicies,
}
