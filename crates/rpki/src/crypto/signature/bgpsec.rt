//! The signature algorithm of BGPsec.

ghost use Rattle.rpki_der.specs.Prelude.{left, Takes};
ghost use Rattle.rpki.specs.Oids.{ecdsa_with_sha256};
ghost use Rattle.rpki.specs.AlgorithmFault.{bare};
ghost use Rattle.rpki.specs.SignatureNames.{SpellsBare};

use super::SignatureAlgorithm;
use crate::crypto::SigningAlgorithm;
use crate::oid;
use rpki_der::{ConstOid, Constructed, DecodeError, Primitive, PrimitiveContent, Sequence};
use std::marker::Model;

/// The algorithm of BGPsec: ECDSA on the curve P-256 with SHA-256 (RFC 8608 2). It has no parameters.
#[derive(Clone, Copy, Debug, Default, PartialEq, Eq)]
pub struct BgpsecSignatureAlgorithm {
    only: (),
}

impl Model for BgpsecSignatureAlgorithm {
    ghost Value = { Unit {0} };

    ghost view = { λ _. tt };

    ghost inverse = { λ _. record { only = tt } };
}

impl SignatureAlgorithm for BgpsecSignatureAlgorithm {
    type Encoder = Sequence<Primitive<ConstOid>>;

    ghost use Rattle.std.specs.Prelude.{refl};
    ghost use Rattle.std.proofs.Common.{lit<};
    ghost use Rattle.rpki.specs.Oids.{ecdsa_with_sha256};
    ghost use Rattle.rpki.specs.AlgorithmFault.{bare};
    ghost use Rattle.rpki.specs.SignatureNames.{SpellsBare, bare_octets};
    ghost use Rattle.rpki.specs.BareOctetsLaws.{bare-spelled, bare-value};
    ghost use Rattle.rpki.specs.declared.crypto.keys.PublicKeyFormat.TheVariants.{EcdsaP256};

    ghost spells = { SpellsBare ecdsa_with_sha256 };

    ghost fault = { (bare ecdsa_with_sha256).fault };

    ghost written = { λ _. bare_octets ecdsa_with_sha256 };

    ghost norm = { λ a. a };

    ghost format = { λ _. EcdsaP256 };

    ghost fits = { λ _. Unit {0} };

    ghost spelled_value = { λ a s h. bare-value ecdsa_with_sha256 a s h };

    ghost spells_one = { λ a b s h k. refl };

    ghost written_spells = { λ a. bare-spelled ecdsa_with_sha256 a (lit< tt) };

    ghost norm_norm = { λ _. refl };

    ghost written_norm = { λ _. refl };

    fn signing_algorithm(&self) -> SigningAlgorithm {
        SigningAlgorithm::EcdsaP256Sha256
    }

    /// The identifier of ECDSA signatures with SHA-256, without parameters.
    ///
    /// The errors are those of a SEQUENCE; then `Content` for another identifier; then `Trailing` for parameters, also
    /// a NULL.
    fn x509_take_from(cons: &mut Constructed<'_>) -> Result<Self, DecodeError>
        ensures { Takes (λ a. a) (bare ecdsa_with_sha256) (left cons.old) (left cons.new) result }
    {
        cons.in_sequence(|contents| contents.skip_oid_if(oid::ECDSA_WITH_SHA256))?;
        Ok(BgpsecSignatureAlgorithm { only: () })
    }

    fn x509_encode(&self) -> Self::Encoder {
        Sequence::new(oid::ECDSA_WITH_SHA256.encode())
    }
}
