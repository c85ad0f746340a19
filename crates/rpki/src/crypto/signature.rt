//! Algorithms of signatures, and signatures.

mod bgpsec;
mod cms;

ghost use Rattle.std.specs.Prelude.{◌≡◌, ◌≢◌, ℕ, List, Bool, true, IfOk};
ghost use Rattle.rpki_der.specs.Prelude.{left, Takes, Reads, TakesNoMemory, IsValue};
ghost use Rattle.rpki.specs.Format.{format_of};
ghost use Rattle.rpki.specs.Oids.{sha256_with_rsa_encryption};
ghost use Rattle.rpki.specs.Algorithm.{SpellsAlgorithm};
ghost use Rattle.rpki.specs.AlgorithmFault.{algorithm};
ghost use Rattle.rpki.specs.Signature.{signature_of};

use crate::crypto::algorithm_identifier::take_algorithm;
use crate::crypto::{PublicKeyFormat, SigningAlgorithm};
use crate::oid;
pub use bgpsec::BgpsecSignatureAlgorithm;
use bytes::Bytes;
use rpki_der::{ConstOid, Constructed, DecodeError, Primitive, PrimitiveContent, Sequence, Values};
use std::alloc::AllocError;
use std::marker::Model;

/// An algorithm of signatures, as certificates and signed data name it by an algorithm identifier.
///
/// An implementation proves the five laws: a spelling is one value and belongs to one algorithm; what is written spells
/// the normal form; and the normal form is its own normal form, written in the same way. It may say which errors its
/// reader has, and where its encoder fits.
pub trait SignatureAlgorithm: Sized {
    /// An encoder for the algorithm identifier.
    type Encoder: Values;

    ghost use Rattle.rpki.specs.declared.crypto.keys.PublicKeyFormat.{PublicKeyFormat};
    ghost use Rattle.rpki_der.specs.declared.error.DecodeError.{DecodeError};

    /// The octets are an algorithm identifier of the algorithm.
    ghost spells: { Self → List ℕ → Type 0 };

    /// The error of octets that no algorithm identifier begins; any, where nothing is said.
    ghost fault: { List ℕ → DecodeError → Type 0 } = { λ _ _. Unit {0} };

    /// The algorithm identifier that is written.
    ghost written: { Self → List ℕ };

    /// What is read of the algorithm identifier that is written.
    ghost norm: { Self → Self };

    /// The format of the keys.
    ghost format: { Self → PublicKeyFormat };

    /// Of these algorithms the encoder is known to fit; of none, where nothing is said.
    ghost fits: { Self → Type 0 } = { λ _. ⊥ };

    /// How it signs.
    fn signing_algorithm(&self) -> SigningAlgorithm
        ensures { format_of result ≡ format self.now };

    /// The format of the keys that it signs with.
    fn public_key_format(&self) -> PublicKeyFormat
        ensures { result ≡ format self.now }
    {
        self.signing_algorithm().public_key_format()
    }

    /// An algorithm identifier (RFC 5280 4.1.1.2). Allocates nothing.
    fn x509_take_from(cons: &mut Constructed<'_>) -> Result<Self, DecodeError>
        ensures { Reads (λ a. a) spells (TakesNoMemory fault) (left cons.old) (left cons.new) result };

    /// An encoder for the algorithm identifier (RFC 5280 4.1.1.2).
    fn x509_encode(&self) -> Self::Encoder
        ensures octets { Self.Encoder.encoded result ≡ written self.now }
        ensures short { fits self.now → Self.Encoder.is_short result };

    /// A spelling is one value.
    ghost spelled_value: { (a : Self) (s : List ℕ) → spells a s → IsValue s };

    /// A spelling belongs to one algorithm.
    ghost spells_one: { (a b : Self) (s : List ℕ) → spells a s → spells b s → a ≡ b };

    /// What is written spells the normal form.
    ghost written_spells: { (a : Self) → spells (norm a) (written a) };

    /// The normal form is its own normal form.
    ghost norm_norm: { (a : Self) → norm (norm a) ≡ norm a };

    /// The normal form is written as the algorithm is.
    ghost written_norm: { (a : Self) → written (norm a) ≡ written a };
}

/// The algorithm of the RPKI: RSA with SHA-256 (RFC 7935 2). It remembers whether the parameters, a NULL, were there.
#[derive(Clone, Copy, Debug, PartialEq, Eq, Hash)]
pub struct RpkiSignatureAlgorithm {
    has_parameters: bool,
}

impl Model for RpkiSignatureAlgorithm {
    ghost use Rattle.std.specs.Prelude.{Bool};

    ghost Value = { Bool };

    ghost view = { λ a. a.has_parameters };

    ghost inverse = { λ b. record { has_parameters = b } };
}

impl RpkiSignatureAlgorithm {
    /// Whether the parameters, a NULL, are there.
    pub fn has_parameters(&self) -> bool
        ensures { result ≡ self.now }
    {
        self.has_parameters
    }
}

/// With parameters, as it is written.
impl Default for RpkiSignatureAlgorithm {
    ghost use Rattle.std.specs.Prelude.{◌≡◌, true};

    ghost is_default = { λ a. a ≡ true };

    fn default() -> RpkiSignatureAlgorithm {
        RpkiSignatureAlgorithm {
            has_parameters: true,
        }
    }
}

impl SignatureAlgorithm for RpkiSignatureAlgorithm {
    type Encoder = Sequence<(Primitive<ConstOid>, Primitive<()>)>;

    ghost use Rattle.std.specs.Prelude.{true, refl};
    ghost use Rattle.std.proofs.Common.{lit<};
    ghost use Rattle.rpki.specs.Oids.{sha256_with_rsa_encryption};
    ghost use Rattle.rpki.specs.Algorithm.{SpellsAlgorithm};
    ghost use Rattle.rpki.specs.AlgorithmFault.{algorithm};
    ghost use Rattle.rpki.specs.AlgorithmOctets.{algorithm_octets};
    ghost use Rattle.rpki.specs.AlgorithmOctetsLaws.{algorithm-spelled, algorithm-value, algorithm-one};
    ghost use Rattle.rpki.specs.declared.crypto.keys.PublicKeyFormat.TheVariants.{Rsa};

    ghost spells = { SpellsAlgorithm sha256_with_rsa_encryption };

    ghost fault = { (algorithm sha256_with_rsa_encryption).fault };

    ghost written = { λ _. algorithm_octets sha256_with_rsa_encryption true };

    ghost norm = { λ _. true };

    ghost format = { λ _. Rsa };

    ghost fits = { λ _. Unit {0} };

    ghost spelled_value = { λ a s h. algorithm-value sha256_with_rsa_encryption a s (lit< tt) h };

    ghost spells_one = { λ a b s h k. algorithm-one sha256_with_rsa_encryption a b s (lit< tt) h k };

    ghost written_spells = { λ _. algorithm-spelled sha256_with_rsa_encryption true (lit< tt) };

    ghost norm_norm = { λ _. refl };

    ghost written_norm = { λ _. refl };

    fn signing_algorithm(&self) -> SigningAlgorithm {
        SigningAlgorithm::RsaSha256
    }

    /// The identifier of RSA signatures with SHA-256, with a NULL or without.
    ///
    /// The errors are those of a SEQUENCE; then `Content` for another identifier; then `Trailing` for other parameters.
    fn x509_take_from(cons: &mut Constructed<'_>) -> Result<Self, DecodeError>
        ensures { Takes (λ a. a) (algorithm sha256_with_rsa_encryption) (left cons.old) (left cons.new) result }
    {
        let has_parameters = take_algorithm(cons, oid::SHA256_WITH_RSA_ENCRYPTION)?;
        Ok(RpkiSignatureAlgorithm { has_parameters })
    }

    fn x509_encode(&self) -> Self::Encoder {
        let identifier = oid::SHA256_WITH_RSA_ENCRYPTION.encode();
        let parameters = ().encode();
        Sequence::new((identifier, parameters))
    }
}

/// A signature: its algorithm, and its octets. Two are equal where their algorithms and their octets are.
#[derive(Debug, Drop, PartialEq, Eq)]
pub struct Signature<Alg> {
    algorithm: Alg,
    value: Bytes,
}

impl<Alg> Model for Signature<Alg> {
    ghost use Rattle.rpki.specs.Signature.{SignatureParts, signature_of};

    ghost Value = { SignatureParts Alg };

    ghost view = { λ s. signature_of s.algorithm s.value };

    ghost inverse = { λ p. record { algorithm = p.algorithm; value = p.value } };
}

impl<Alg> Signature<Alg> {
    /// The signature of this algorithm and these octets.
    pub fn new(algorithm: Alg, value: Bytes) -> Signature<Alg>
        ensures { result ≡ signature_of algorithm value }
    {
        Signature { algorithm, value }
    }

    /// The algorithm.
    pub fn algorithm(&self) -> &Alg
        ensures { result.now ≡ self.now.algorithm }
    {
        &self.algorithm
    }

    /// The octets.
    pub fn value(&self) -> &Bytes
        ensures { result.now ≡ self.now.value }
    {
        &self.value
    }

    /// The algorithm and the octets.
    pub fn unwrap(self) -> (Alg, Bytes)
        ensures { result ≡ (self.algorithm, self.value) }
    {
        let Signature { algorithm, value } = self;
        (algorithm, value)
    }
}

impl<Alg: Copy> Signature<Alg> {
    /// Returns a copy of the signature that shares its octets.
    ///
    /// Returns `AllocError` if allocation fails.
    pub fn clone(&self) -> Result<Signature<Alg>, AllocError>
        ensures { IfOk result (λ s. s ≡ self.now) }
    {
        let value = self.value.clone()?;
        Ok(Signature {
            algorithm: self.algorithm,
            value,
        })
    }
}

/// A signature of the RPKI.
pub type RpkiSignature = Signature<RpkiSignatureAlgorithm>;
