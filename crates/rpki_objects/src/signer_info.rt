//! The signer of a signed object (RFC 5652 5.3, RFC 6488 2.1.6).
//!
//! ```text
//! SignerInfo ::= SEQUENCE {
//!     version             INTEGER (3),
//!     sid                 [0] IMPLICIT OCTET STRING,
//!     digestAlgorithm     AlgorithmIdentifier,
//!     signedAttrs         [0] IMPLICIT SET OF Attribute,
//!     signatureAlgorithm  AlgorithmIdentifier,
//!     signature           OCTET STRING }
//! ```

ghost use Rattle.rpki_der.specs.Prelude.{left, Takes, TakesAll};
ghost use Rattle.rpki_objects.specs.SignedObject.{signer_identifier, signer_of, signer_fields_of, signer_fields};
ghost use Rattle.rpki_objects.specs.SignedObject.{signer_info};

use crate::encapsulated::take_kept_octets;
use rpki::crypto::{
    DigestAlgorithm, KeyIdentifier, RpkiSignature, RpkiSignatureAlgorithm, Signature,
};
use rpki::der::{Class, Constructed, DecodeError, Keep, Tag};
use rpki_attributes::SignedAttrs;

/// A signer: the identifier of its key, the signed attributes, and the signature.
#[derive(Drop)]
pub struct SignerInfo {
    /// The identifier of the signer's key.
    pub sid: KeyIdentifier,
    /// What is signed.
    pub signed_attrs: SignedAttrs,
    /// The signature.
    pub signature: RpkiSignature,
}

/// The identifier of the signer's key, under the implicit tag 0.
pub(crate) fn take_identifier(cons: &mut Constructed<'_>) -> Result<KeyIdentifier, DecodeError>
    ensures { Takes (λ k. k) signer_identifier (left cons.old) (left cons.new) result }
{
    let mut after = *cons;
    let octets = after.take_primitive_if(Tag::new(Class::Context, 0))?;
    match KeyIdentifier::try_from(octets) {
        Ok(identifier) => {
            *cons = after;
            Ok(identifier)
        }
        Err(_) => Err(DecodeError::content("invalid key identifier")),
    }
}

impl SignerInfo {
    /// Reads a signer: a SEQUENCE of the version 3, a key identifier, SHA-256, signed attributes, the algorithm of the
    /// signature and the signature, and nothing else. An allocator copies the octets, and
    /// [Shared](rpki::der::Shared) shares them; requires that `keep` can keep parts of the rest.
    ///
    /// The errors are those of a SEQUENCE; then that of the first part that could not be read, as
    /// [SignedAttrs::take_from] says it of the attributes, or `Trailing` if more follows; `OutOfMemory` if allocation
    /// fails. An error leaves the cursor where it was.
    pub fn take_from<K: Keep>(
        keep: K,
        strict: bool,
        cons: &mut Constructed<'_>,
    ) -> Result<SignerInfo, DecodeError>
        requires { K.holds keep (left cons.old) }
        ensures { Takes (λ x. signer_fields_of (signer_of x)) (signer_info strict) (left cons.old) (left cons.new)
            result }
    {
        cons.in_sequence_with(
            keep,
            |contents, keep|
                requires { K.holds keep (left contents.old) }
                ensures { TakesAll (λ x. signer_fields_of (signer_of x)) (signer_fields strict) (left contents.old)
                    (left contents.new) result }
            {
                contents.skip_u8_if(3)?;
                let sid = match take_identifier(contents) {
                    Ok(sid) => sid,
                    Err(e) => return Err(e),
                };
                DigestAlgorithm::take_from(contents)?;
                let signed_attrs = SignedAttrs::take_from(keep.allocator(), strict, contents)?;
                let algorithm = match RpkiSignatureAlgorithm::cms_take_from(contents) {
                    Ok(algorithm) => algorithm,
                    Err(e) => return Err(e),
                };
                let value = take_kept_octets(keep, contents)?;
                Ok(SignerInfo {
                    sid,
                    signed_attrs,
                    signature: Signature::new(algorithm, value),
                })
            },
        )
    }
}
