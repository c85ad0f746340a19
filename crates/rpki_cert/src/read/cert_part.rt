//! The parts of certificates.

/// A part of a certificate, of which it is said that it isn't there, or is there but not as it has to be.
#[derive(Clone, Copy, Debug, PartialEq, Eq)]
pub enum CertPart {
    /// The SEQUENCE around all, and that nothing follows it.
    Certificate,
    /// The value that is signed, as a value with everything nested in it.
    Signed,
    /// The algorithm identifier after what is signed.
    Algorithm,
    /// The signature, and that nothing follows it.
    Signature,
    /// What is signed, as a SEQUENCE.
    Tbs,
    /// The version.
    Version,
    /// The serial number.
    SerialNumber,
    /// The algorithm identifier in what is signed.
    TbsAlgorithm,
    /// The issuer.
    Issuer,
    /// The period of validity.
    Validity,
    /// The subject.
    Subject,
    /// The subject's key.
    PublicKey,
    /// The list of extensions, each of them, and that nothing follows the list.
    Extensions,
    /// That there are few enough extensions to be compared in place.
    ExtensionCount,
    /// That no two extensions have the same identifier.
    ExtensionIdentifiers,
    /// That both algorithm identifiers are the same.
    SameAlgorithm,
}
