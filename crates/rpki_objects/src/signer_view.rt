//! The signer of a signed object, read in place without memory (RFC 5652 5.3, RFC 6488 2.1.6).

ghost use Rattle.std.specs.Prelude.{IfOk, IfErr};
ghost use Rattle.rpki_der.specs.Prelude.{left};
ghost use Rattle.rpki_objects.specs.SignedObjectView.{IsSignerIn, AreSignersAt, AreSignerFieldsWrong, AreSignersWrong};

use crate::content_view::read_octets;
use crate::object_part::ObjectPart;
use crate::signer_info::take_identifier;
use rpki::crypto::{DigestAlgorithm, KeyIdentifier, RpkiSignatureAlgorithm};
use rpki::der::{Constructed, Section, Tag};
use rpki_attributes::{SignedAttrsView, attributes_fault};
use rpki_parse::Malformed;
use rpki_x509::inside;

/// A signer.
#[derive(Clone, Copy)]
pub struct SignerView<'a> {
    /// The identifier of the signer's key.
    pub identifier: KeyIdentifier,
    /// What is signed.
    pub signed_attrs: SignedAttrsView<'a>,
    /// The algorithm of the signature.
    pub algorithm: RpkiSignatureAlgorithm,
    /// The octets of the signature.
    pub signature: Section<'a>,
}

/// The fields, which are the whole rest.
fn read_fields<'a>(
    contents: Constructed<'a>,
    strict: bool,
) -> Result<SignerView<'a>, Malformed<ObjectPart>>
    ensures ok { IfOk result (λ v. IsSignerIn strict (left contents.entry) v) }
    ensures err { IfErr result (λ q. AreSignerFieldsWrong strict (left contents.entry) q) }
{
    let mut rest = contents;
    match rest.skip_u8_if(3) {
        Ok(()) => {}
        Err(error) => return Err(Malformed {
            part: ObjectPart::SignerVersion,
            error,
        }),
    }
    let identifier = match take_identifier(&mut rest) {
        Ok(identifier) => identifier,
        Err(error) => return Err(Malformed {
            part: ObjectPart::SignerIdentifier,
            error,
        }),
    };
    match DigestAlgorithm::take_from(&mut rest) {
        Ok(_) => {}
        Err(error) => return Err(Malformed {
            part: ObjectPart::SignerDigestAlgorithm,
            error,
        }),
    }
    let attributes = rest;
    let signed_attrs = match SignedAttrsView::take_from(&mut rest, strict) {
        Some(found) => found,
        None => return Err(Malformed {
            part: ObjectPart::SignedAttrs,
            error: attributes_fault(attributes, strict),
        }),
    };
    let algorithm = match RpkiSignatureAlgorithm::cms_take_from(&mut rest) {
        Ok(algorithm) => algorithm,
        Err(error) => return Err(Malformed {
            part: ObjectPart::SignatureAlgorithm,
            error,
        }),
    };
    match read_octets(rest) {
        Ok(octets) => Ok(SignerView {
            identifier,
            signed_attrs,
            algorithm,
            signature: Section {
                octets,
                following: 0,
            },
        }),
        Err(error) => Err(Malformed {
            part: ObjectPart::Signature,
            error,
        }),
    }
}

/// The one signer of the SET that is the whole rest.
pub(crate) fn read_signers<'a>(
    rest: Constructed<'a>,
    strict: bool,
) -> Result<SignerView<'a>, Malformed<ObjectPart>>
    ensures ok { IfOk result (λ v. AreSignersAt strict (left rest.entry) v) }
    ensures err { IfErr result (λ q. AreSignersWrong strict (left rest.entry) q) }
{
    let signers = match inside(rest, Tag::SET) {
        Ok(contents) => contents,
        Err(error) => return Err(Malformed {
            part: ObjectPart::Signers,
            error,
        }),
    };
    match inside(signers, Tag::SEQUENCE) {
        Ok(contents) => read_fields(contents, strict),
        Err(error) => Err(Malformed {
            part: ObjectPart::Signer,
            error,
        }),
    }
}
