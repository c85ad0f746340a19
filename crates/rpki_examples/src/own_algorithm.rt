//! An algorithm type of one's own.

ghost use Rattle.std.specs.Prelude.{[], ◌∷◌};
ghost use Rattle.rpki_der.specs.Prelude.{left, Takes};
ghost use Rattle.rpki.specs.Prelude.{bare};

use rpki::crypto::{SignatureAlgorithm, SigningAlgorithm};
use rpki::der::{ConstOid, Constructed, DecodeError, Oid, Primitive, PrimitiveContent, Sequence};
use std::marker::Model;

/// The object identifier 2.999, which stands for examples (X.660 A.2).
const OWN_NAME: ConstOid = Oid(&[0x88, 0x37]);

/// RSA with SHA-256 under a name of its own, without parameters.
#[derive(Clone, Copy, Debug, PartialEq, Eq)]
pub struct OwnAlgorithm {
    only: (),
}

/// There is one value.
impl Model for OwnAlgorithm {
    ghost Value = { Unit {0} };

    ghost view = { λ _. tt };

    ghost inverse = { λ _. record { only = tt } };
}

impl SignatureAlgorithm for OwnAlgorithm {
    type Encoder = Sequence<Primitive<ConstOid>>;

    ghost use Rattle.std.specs.Prelude.{[], ◌∷◌, refl};
    ghost use Rattle.std.proofs.Common.{lit<};
    ghost use Rattle.rpki.specs.Prelude.{SpellsBare, bare, bare_octets, bare-spelled, bare-value};
    ghost use Rattle.rpki.specs.declared.crypto.keys.PublicKeyFormat.TheVariants.{Rsa};

    ghost spells = { SpellsBare (136 ∷ 55 ∷ []) };

    ghost fault = { (bare (136 ∷ 55 ∷ [])).fault };

    ghost written = { λ _. bare_octets (136 ∷ 55 ∷ []) };

    ghost norm = { λ a. a };

    ghost format = { λ _. Rsa };

    ghost fits = { λ _. Unit {0} };

    ghost spelled_value = { λ a s h. bare-value (136 ∷ 55 ∷ []) a s h };

    ghost spells_one = { λ a b s h k. refl };

    ghost written_spells = { λ a. bare-spelled (136 ∷ 55 ∷ []) a (lit< tt) };

    ghost norm_norm = { λ _. refl };

    ghost written_norm = { λ _. refl };

    fn signing_algorithm(&self) -> SigningAlgorithm {
        SigningAlgorithm::RsaSha256
    }

    /// A SEQUENCE of the object identifier and nothing else.
    ///
    /// The errors of `in_sequence` where there is none; `Content` for another identifier; `Trailing` for parameters.
    fn x509_take_from(cons: &mut Constructed<'_>) -> Result<Self, DecodeError>
        ensures { Takes (λ a. a) (bare (136 ∷ 55 ∷ [])) (left cons.old) (left cons.new) result }
    {
        cons.in_sequence(|contents| contents.skip_oid_if(OWN_NAME))?;
        Ok(OwnAlgorithm { only: () })
    }

    fn x509_encode(&self) -> Self::Encoder {
        Sequence::new(OWN_NAME.encode())
    }
}
