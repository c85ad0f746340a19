//! Formats of public keys, as algorithm identifiers.

ghost use Rattle.std.specs.Prelude.{◌≡◌, ◌≢◌, ◌↔◌, IsTrue, codes};
ghost use Rattle.rpki_der.specs.Prelude.{left, Takes, TakesAll};
ghost use Rattle.rpki.specs.declared.crypto.keys.PublicKeyFormat.{PublicKeyFormat};
ghost use Rattle.rpki.specs.KeyFormat.{SpellsFormat, IsFormatName, format_octets};
ghost use Rattle.rpki.specs.AlgorithmFault.{format_parts, key_format};
ghost use Rattle.rpki.specs.UnknownAlgorithm.{BeginsUnknown, NamesUnknown, IsRefusedWith};

use crate::crypto::algorithm_identifier::{is_named, take_null_or_nothing};
use crate::crypto::{PublicKeyFormat, RpkiSignatureAlgorithm};
use crate::oid;
use rpki_der::{ConstOid, Constructed, DecodeError, Primitive, PrimitiveContent, Sequence, Values};

/// An encoder for a format of keys: its object identifier, and then a NULL for RSA or the curve for P-256.
pub type PublicKeyFormatEncoder = Sequence<
    (
        Primitive<ConstOid>,
        Option<Primitive<()>>,
        Option<Primitive<ConstOid>>,
    ),
>;

impl PublicKeyFormat {
    /// Whether certificates of the RPKI may have keys of this format: RSA alone (RFC 7935 3).
    pub fn allow_rpki_cert(self) -> bool
        ensures { IsTrue result ↔ (self ≡ PublicKeyFormat.Rsa) }
    {
        matches!(self, PublicKeyFormat::Rsa)
    }

    /// Whether certificates of BGPsec routers may have keys of this format: P-256 alone (RFC 8608 3).
    pub fn allow_router_cert(self) -> bool
        ensures { IsTrue result ↔ (self ≡ PublicKeyFormat.EcdsaP256) }
    {
        matches!(self, PublicKeyFormat::EcdsaP256)
    }

    /// The algorithm identifier of a format of keys (RFC 5280 4.1.2.7): rsaEncryption with a NULL or without, or
    /// id-ecPublicKey with the curve P-256. Allocates nothing.
    ///
    /// The errors are those of a SEQUENCE; then `Content` with the text `invalid public key format` for another object
    /// identifier; then that of the part that is malformed, and `Trailing` for octets that follow the parts.
    pub fn take_from(cons: &mut Constructed<'_>) -> Result<PublicKeyFormat, DecodeError>
        ensures reads { Takes (λ f. f) key_format (left cons.old) (left cons.new) result }
        ensures unknown { NamesUnknown IsFormatName (left cons.old)
            → IsRefusedWith (codes "invalid public key format") result }
    {
        cons.in_sequence(
            |contents|
                ensures reads { TakesAll (λ f. f) format_parts (left contents.old) (left contents.new) result }
                ensures unknown { BeginsUnknown IsFormatName (left contents.old)
                    → IsRefusedWith (codes "invalid public key format") result }
            {
                let identifier = contents.take_oid()?;
                if is_named(&identifier, oid::RSA_ENCRYPTION) {
                    take_null_or_nothing(contents)?;
                    Ok(PublicKeyFormat::Rsa)
                } else if is_named(&identifier, oid::EC_PUBLIC_KEY) {
                    contents.skip_oid_if(oid::SECP256R1)?;
                    Ok(PublicKeyFormat::EcdsaP256)
                } else {
                    Err(DecodeError::content("invalid public key format"))
                }
            },
        )
    }

    /// An encoder for the algorithm identifier, with a NULL for RSA.
    pub fn encode(self) -> PublicKeyFormatEncoder
        ensures octets { ⟦<PublicKeyFormatEncoder as Values>⟧.encoded result ≡ format_octets self }
        ensures short { ⟦<PublicKeyFormatEncoder as Values>⟧.is_short result }
        // What is written is read as the format.
        ensures read_back { SpellsFormat self (format_octets self) }
        // Formats have the same encoding exactly where they are equal.
        ensures same { (other : PublicKeyFormat) → (format_octets self ≡ format_octets other) ↔ (self ≡ other) }
    {
        match self {
            PublicKeyFormat::Rsa => {
                let parameters = Some(().encode());
                Sequence::new((oid::RSA_ENCRYPTION.encode(), parameters, None))
            }
            PublicKeyFormat::EcdsaP256 => {
                let curve = Some(oid::SECP256R1.encode());
                Sequence::new((oid::EC_PUBLIC_KEY.encode(), None, curve))
            }
        }
    }
}

/// Signatures of the RPKI are made with RSA keys (RFC 7935 2).
impl From<RpkiSignatureAlgorithm> for PublicKeyFormat {
    ghost use Rattle.std.specs.Prelude.{◌≡◌};
    ghost use Rattle.rpki.specs.declared.crypto.keys.PublicKeyFormat.TheVariants.{Rsa};

    ghost from_gives = { λ _ f. f ≡ Rsa };

    fn from(_algorithm: RpkiSignatureAlgorithm) -> PublicKeyFormat {
        PublicKeyFormat::Rsa
    }
}
