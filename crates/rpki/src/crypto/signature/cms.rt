//! The signature algorithm of the RPKI in signed objects (RFC 5652, RFC 7935 2).

ghost use Rattle.std.specs.Prelude.{◌≡◌, ◌≢◌, ◌↔◌, IsTrue, true, codes};
ghost use Rattle.rpki_der.specs.Prelude.{left, Takes, TakesAll};
ghost use Rattle.rpki.specs.Oids.{rsa_encryption};
ghost use Rattle.rpki.specs.AlgorithmOctets.{algorithm_octets};
ghost use Rattle.rpki.specs.SignatureNames.{IsCmsName, SpellsCms};
ghost use Rattle.rpki.specs.AlgorithmFault.{cms_parts, cms};
ghost use Rattle.rpki.specs.UnknownAlgorithm.{BeginsUnknown, NamesUnknown, IsRefusedWith};

use super::RpkiSignatureAlgorithm;
use crate::crypto::algorithm_identifier::{is_named, take_null_or_nothing};
use crate::oid;
use rpki_der::{
    ConstOid, Constructed, DecodeError, Oid, Primitive, PrimitiveContent, Sequence, Values,
};

impl RpkiSignatureAlgorithm {
    /// The algorithm identifier in a signed object: rsaEncryption or sha256WithRSAEncryption, each with a NULL or
    /// without. Which identifier it was isn't remembered. Allocates nothing.
    ///
    /// The errors are those of a SEQUENCE; then `Content` with the text `invalid signature algorithm` for another
    /// object identifier; then that of the part that is malformed, and `Trailing` for other parameters.
    pub fn cms_take_from(cons: &mut Constructed<'_>) -> Result<RpkiSignatureAlgorithm, DecodeError>
        ensures reads { Takes (λ a. a) cms (left cons.old) (left cons.new) result }
        ensures unknown { NamesUnknown IsCmsName (left cons.old)
            → IsRefusedWith (codes "invalid signature algorithm") result }
    {
        let has_parameters = cons.in_sequence(
            |contents|
                ensures reads { TakesAll (λ b. b) cms_parts (left contents.old) (left contents.new) result }
                ensures unknown { BeginsUnknown IsCmsName (left contents.old)
                    → IsRefusedWith (codes "invalid signature algorithm") result }
            {
                let identifier = contents.take_oid()?;
                if is_cms_name(&identifier) {
                    take_null_or_nothing(contents)
                } else {
                    Err(DecodeError::content("invalid signature algorithm"))
                }
            },
        )?;
        Ok(RpkiSignatureAlgorithm { has_parameters })
    }

    /// An encoder for the algorithm identifier in a signed object: rsaEncryption with a NULL (RFC 7935 2).
    pub fn cms_encode(&self) -> Sequence<(Primitive<ConstOid>, Primitive<()>)>
        ensures octets { ⟦<Sequence<(Primitive<ConstOid>, Primitive<()>)> as Values>⟧.encoded result
            ≡ algorithm_octets rsa_encryption true }
        ensures short { ⟦<Sequence<(Primitive<ConstOid>, Primitive<()>)> as Values>⟧.is_short result }
        // What is written is read as the algorithm with parameters.
        ensures read_back { SpellsCms true (algorithm_octets rsa_encryption true) }
    {
        let identifier = oid::RSA_ENCRYPTION.encode();
        let parameters = ().encode();
        Sequence::new((identifier, parameters))
    }
}

/// Whether it is one of the two identifiers.
fn is_cms_name(found: &Oid<&[u8]>) -> bool
    ensures { IsTrue result ↔ IsCmsName found.now.0.now }
{
    is_named(found, oid::RSA_ENCRYPTION) || is_named(found, oid::SHA256_WITH_RSA_ENCRYPTION)
}
