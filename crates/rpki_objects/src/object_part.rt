//! The parts of signed objects.

use rpki_cert::CertPart;

/// A part of a signed object, of which it is said that it isn't there, or is there but not as it has to be.
#[derive(Clone, Copy, Debug, PartialEq, Eq)]
pub enum ObjectPart {
    /// The SEQUENCE around all, and that nothing follows it.
    Object,
    /// The identifier of signed data.
    ObjectType,
    /// The signed data, as a SEQUENCE under its tag, and that nothing follows it.
    SignedData,
    /// The version of the signed data.
    Version,
    /// The SET of the one digest algorithm.
    DigestAlgorithms,
    /// The content and its type.
    Content,
    /// The SET of the certificate.
    Certificates,
    /// This part of the certificate.
    Certificate(CertPart),
    /// The SET of the signer, and that nothing follows it.
    Signers,
    /// The signer, as a SEQUENCE, and that no other follows it.
    Signer,
    /// The version of the signer.
    SignerVersion,
    /// The identifier of the signer's key.
    SignerIdentifier,
    /// The digest algorithm of the signer.
    SignerDigestAlgorithm,
    /// The signed attributes.
    SignedAttrs,
    /// The algorithm of the signature.
    SignatureAlgorithm,
    /// The signature, and that nothing follows it.
    Signature,
}
