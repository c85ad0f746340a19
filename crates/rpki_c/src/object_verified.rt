//! Signed objects that the key of their certificate has signed.

ghost use Rattle.std.specs.Prelude.{◌≡◌, ℕ, Bool, List, MatchResult};
ghost use Rattle.sha2.specs.Sha256.{sha256};
ghost use Rattle.rpki_attributes.specs.SignedAttributes.{message_of};
ghost use Rattle.rpki_objects.specs.SignedObject.{ObjectParts};
ghost use Rattle.rpki_objects.specs.SignedObjectView.{IsObjectAt};
ghost use Rattle.rpki_cert.specs.Cert.{CertParts};
ghost use Rattle.rpki_cert.specs.View.{IsCertAt};
ghost use Rattle.rpki_c.specs.SignedObject.{HasSignedContent, IsContentWrong, IsCertTold, IsObjectVerified};
ghost use Rattle.rpki_c.specs.Key.{IsVerifiedBy};

use crate::certificate_extensions::known_number;
use crate::file_digest::has_digest;
use crate::signed_object::object_part_number;
use crate::status::{BAD_SIGNATURE, KEY_NOT_ACCEPTED, OTHER_DIGEST, OTHER_SIGNER, OTHER_TYPE};
use rpki::crypto::{KeyIdentifier, PublicKeyFormat, PublicKeyView};
use rpki_cert::{CertView, is_identifier};
use rpki_objects::SignedObjectView;
use rpki_rsa::Key;
use rpki_x509::are_same;
use sha2::{Digest, Sha256};

/// The digest by SHA-256 of what is signed: of the attributes, but with the tag of a SET in place of their first octet
/// (RFC 5652 5.4).
fn attributes_digest(attributes: &[u8]) -> [u8; 32]
    ensures { result ≡ sha256 (message_of attributes.now) }
{
    let mut hasher = Sha256::new();
    match attributes {
        [] => {}
        [_, behind @ ..] => {
            hasher.update(&[0x31]);
            hasher.update(behind);
        }
    }
    hasher.finalize()
}

/// The status of a signature of the attributes by the key.
pub(crate) fn attributes_verified(
    key: &PublicKeyView<'_>,
    attributes: &[u8],
    signature: &[u8],
) -> u8
    ensures { IsVerifiedBy key.now (message_of attributes.now) signature.now result }
{
    if key.algorithm() != PublicKeyFormat::Rsa {
        return KEY_NOT_ACCEPTED;
    }
    match Key::from_bits(key.bits()) {
        Ok(ready) => {
            let digest = attributes_digest(attributes);
            if ready.verifies_digest(&digest, signature) {
                0
            } else {
                BAD_SIGNATURE
            }
        }
        Err(_) => KEY_NOT_ACCEPTED,
    }
}

/// Tests that the type of the content and its digest are those that are signed. The error is `OTHER_TYPE` or
/// `OTHER_DIGEST`.
pub(crate) fn test_content(found: &SignedObjectView<'_>) -> Result<(), u8>
    ensures { (strict : Bool) (s : List ℕ) (x : ObjectParts) → IsObjectAt strict s found.now x
        → MatchResult result (λ _. HasSignedContent x) (λ status. IsContentWrong x status) }
{
    let values = &found.signer.signed_attrs.values;
    if !are_same(found.content.content_type.octets, values.content_type.0) {
        return Err(OTHER_TYPE);
    }
    if !has_digest(
        found.content.content.octets,
        &values.message_digest.into_array(),
    ) {
        return Err(OTHER_DIGEST);
    }
    Ok(())
}

/// The status of the certificate, as the one of the signer with this identifier, and of a signature of the attributes
/// by its key.
fn signer_told(
    cert: &CertView<'_>,
    identifier: KeyIdentifier,
    attributes: &[u8],
    signature: &[u8],
) -> u8
    ensures { (s : List ℕ) (x : CertParts) → IsCertAt s cert.now x
        → IsCertTold x identifier (message_of attributes.now) signature.now result }
{
    let keyed = &cert.tbs.named.keyed;
    let known = match keyed.known() {
        Ok(known) => known,
        Err(part) => return known_number(part),
    };
    if !is_identifier(known.subject_key_identifier, identifier) {
        return OTHER_SIGNER;
    }
    attributes_verified(&keyed.key, attributes, signature)
}

/// Reads a signed object, and says whether the key of its certificate has signed it (RFC 6488 3, RFC 5652 5.4, 5.6):
/// whether the type of the content and its digest by SHA-256 are those that are signed; the signer's identifier is the
/// certificate's subject key identifier; and the certificate's key has signed the attributes, by RSA with SHA-256.
/// Whose certificate it is, and whether that is valid, is not looked at. If `strict`, as of `rpki_signed_object`.
///
/// The status is 0. Else it is, in this order: as of `rpki_signed_object`; `OTHER_TYPE`; `OTHER_DIGEST`; as of
/// `rpki_certificate_extensions` of the certificate; `OTHER_SIGNER`; `KEY_NOT_ACCEPTED` or `BAD_SIGNATURE`, as of
/// `rpki_verify`. Nothing is allocated.
#[unsafe(no_mangle)]
pub extern "C" fn rpki_object_verify(octets: &[u8], strict: bool) -> u8
    ensures { IsObjectVerified strict octets.now result }
{
    let found = match SignedObjectView::read(octets, strict) {
        Ok(found) => found,
        Err(wrong) => return object_part_number(wrong.part),
    };
    match test_content(&found) {
        Ok(()) => signer_told(
            &found.cert.parts,
            found.signer.identifier,
            found.signer.signed_attrs.octets.octets,
            found.signer.signature.octets,
        ),
        Err(status) => status,
    }
}
