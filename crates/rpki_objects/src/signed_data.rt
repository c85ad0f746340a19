//! What a signed object is made of (RFC 5652 5.1, RFC 6488 2.1).
//!
//! ```text
//! SignedData ::= SEQUENCE {
//!     version           INTEGER (3),
//!     digestAlgorithms  SET OF AlgorithmIdentifier,
//!     encapContentInfo  EncapsulatedContentInfo,
//!     certificates      [0] IMPLICIT SET OF Certificate,
//!     signerInfos       SET OF SignerInfo }
//! ```

ghost use Rattle.rpki_der.specs.Prelude.{left, Takes, TakesAll};
ghost use Rattle.rpki_objects.specs.SignedObject.{object_of, data_fields_of, data_fields, signed_data, certificate};
ghost use Rattle.rpki_objects.specs.SignedObject.{certificates};
ghost use Rattle.rpki_objects.specs.SignedObject.{signer_of, signer_fields_of, signer_infos};

use crate::encapsulated::EncapsulatedContent;
use crate::signer_info::SignerInfo;
use rpki::crypto::DigestAlgorithm;
use rpki::der::{Class, Constructed, DecodeError, Keep, Tag};
use rpki_cert::Cert;

/// The content, the certificate of the signer, and the signer.
#[derive(Drop)]
pub(crate) struct SignedData {
    pub content: EncapsulatedContent,
    pub cert: Cert,
    pub signer: SignerInfo,
}

/// The one certificate, under the implicit tag 0.
fn take_certificates<K: Keep>(keep: K, cons: &mut Constructed<'_>) -> Result<Cert, DecodeError>
    requires { K.holds keep (left cons.old) }
    ensures { Takes (λ x. x) certificates (left cons.old) (left cons.new) result }
{
    cons.in_constructed_with(
        Tag::new(Class::Context, 0),
        keep,
        |contents, keep|
            requires { K.holds keep (left contents.old) }
            ensures { Takes (λ x. x) certificate (left contents.old) (left contents.new) result }
        { Ok(Cert::take_from(keep, contents)?) },
    )
}

/// The SET of the one signer.
fn take_signers<K: Keep>(
    keep: K,
    strict: bool,
    cons: &mut Constructed<'_>,
) -> Result<SignerInfo, DecodeError>
    requires { K.holds keep (left cons.old) }
    ensures { Takes (λ x. signer_fields_of (signer_of x)) (signer_infos strict) (left cons.old) (left cons.new)
        result }
{
    cons.in_set_with(
        keep,
        |contents, keep|
            requires { K.holds keep (left contents.old) }
        { SignerInfo::take_from(keep, strict, contents) },
    )
}

impl SignedData {
    /// A SEQUENCE of the version 3, a SET of SHA-256 alone, the content, the certificate and the signer, and nothing
    /// else.
    pub(crate) fn take_from<K: Keep>(
        keep: K,
        strict: bool,
        cons: &mut Constructed<'_>,
    ) -> Result<SignedData, DecodeError>
        requires { K.holds keep (left cons.old) }
        ensures { Takes (λ x. data_fields_of (object_of x)) (signed_data strict) (left cons.old) (left cons.new)
            result }
    {
        cons.in_sequence_with(
            keep,
            |contents, keep|
                requires { K.holds keep (left contents.old) }
                ensures { TakesAll (λ x. data_fields_of (object_of x)) (data_fields strict) (left contents.old)
                    (left contents.new) result }
            {
                contents.skip_u8_if(3)?;
                DigestAlgorithm::skip_set(contents)?;
                let content = EncapsulatedContent::take_from(keep, contents)?;
                let cert = take_certificates(keep, contents)?;
                let signer = take_signers(keep, strict, contents)?;
                Ok(SignedData {
                    content,
                    cert,
                    signer,
                })
            },
        )
    }
}
