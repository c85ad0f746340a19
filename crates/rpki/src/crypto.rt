//! Digests, keys and signatures.

ghost use Rattle.std.specs.Prelude.{◌≡◌, ◌↔◌, ℕ, List, IsTrue};
ghost use Rattle.rpki.specs.Format.{format_of};

mod algorithm_identifier;
pub mod digest;
pub mod keys;
pub mod signature;

pub use digest::{DigestAlgorithm, sha1_digest};
pub use keys::{
    KeyIdentifier, KeyIdentifierSliceError, ParseKeyIdentifierError, PublicKey, PublicKeyCn,
    PublicKeyEncoder, PublicKeyFormat, PublicKeyFormatEncoder, PublicKeyView, RsaPublicKey,
    SignatureVerificationError,
};
pub use signature::{
    BgpsecSignatureAlgorithm, RpkiSignature, RpkiSignatureAlgorithm, Signature, SignatureAlgorithm,
};

/// How certificates and BGPsec updates are signed (RFC 7935 2, RFC 8608 2).
#[derive(Clone, Copy, Debug, PartialEq, Eq)]
pub enum SigningAlgorithm {
    /// RSA with PKCS #1 v1.5 padding and SHA-256.
    RsaSha256,
    /// ECDSA on the curve P-256 with SHA-256.
    EcdsaP256Sha256,
}

impl SigningAlgorithm {
    /// The format of the keys that the algorithm signs with.
    pub fn public_key_format(self) -> PublicKeyFormat
        ensures { result ≡ format_of self }
    {
        match self {
            SigningAlgorithm::RsaSha256 => PublicKeyFormat::Rsa,
            SigningAlgorithm::EcdsaP256Sha256 => PublicKeyFormat::EcdsaP256,
        }
    }
}

/// A provider of digests and of checks of signatures. The layer itself computes neither.
///
/// Each answer is a function of the provider's value and the arguments: a check says yes exactly where a relation of
/// these holds. A clause names all four functions by one word, `checkers_of P.Provider provider.now`.
pub trait Provider {
    ghost use Rattle.rpki.specs.Provider.{Check};

    /// The digest by SHA-1.
    ghost sha1_of: { Self → List ℕ → List ℕ };

    /// The digest by SHA-256.
    ghost sha256_of: { Self → List ℕ → List ℕ };

    /// Which RSA signatures verify: of the key's bits, the message and the signature.
    ghost rsa_of: { Self → Check };

    /// Which ECDSA signatures verify.
    ghost ecdsa_of: { Self → Check };

    /// The digest of the octets by SHA-1 (FIPS 180-4).
    fn sha1(&self, octets: &[u8]) -> [u8; 20]
        ensures { result ≡ sha1_of self.now octets.now };

    /// The digest of the octets by SHA-256 (FIPS 180-4).
    fn sha256(&self, octets: &[u8]) -> [u8; 32]
        ensures { result ≡ sha256_of self.now octets.now };

    /// Whether this is the signature of the message by the RSA key with these bits, a SEQUENCE of modulus and exponent:
    /// PKCS #1 v1.5 with SHA-256 (RFC 7935 2, RFC 8017 8.2). The provider decides which lengths of keys it accepts.
    fn rsa_check(&self, bits: &[u8], message: &[u8], signature: &[u8]) -> bool
        ensures { IsTrue result ↔ rsa_of self.now bits.now message.now signature.now };

    /// Whether this is the signature of the message by the P-256 key with these bits, a point on the curve: ECDSA with
    /// SHA-256, as a SEQUENCE of two INTEGERs (RFC 8608 2, RFC 3279 2.2.3).
    fn ecdsa_check(&self, bits: &[u8], message: &[u8], signature: &[u8]) -> bool
        ensures { IsTrue result ↔ ecdsa_of self.now bits.now message.now signature.now };
}
