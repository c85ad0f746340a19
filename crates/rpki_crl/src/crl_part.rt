//! The parts of revocation lists.

/// A part of a revocation list, of which it is said that it isn't there, or is there but not as it has to be.
#[derive(Clone, Copy, Debug, PartialEq, Eq)]
pub enum CrlPart {
    /// The SEQUENCE around all, and that nothing follows it.
    List,
    /// The value that is signed, as a value with everything nested in it.
    Signed,
    /// The algorithm identifier after what is signed.
    Algorithm,
    /// The signature, and that nothing follows it.
    Signature,
    /// What is signed, as a SEQUENCE.
    Tbs,
    /// The version.
    Version,
    /// The algorithm identifier in what is signed.
    TbsAlgorithm,
    /// The issuer.
    Issuer,
    /// When the list was issued.
    ThisUpdate,
    /// When the next list is issued at the latest.
    NextUpdate,
    /// The certificates that are revoked.
    RevokedCerts,
    /// The extensions, and that nothing follows them.
    Extensions,
    /// That both algorithm identifiers are the same.
    SameAlgorithm,
}
