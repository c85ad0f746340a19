//! Signed objects (RFC 5652, in the profile of RFC 6488).
//!
//! ```text
//! ContentInfo ::= SEQUENCE {
//!     contentType  OBJECT IDENTIFIER (id-signedData),
//!     content      [0] EXPLICIT SignedData }
//! ```

ghost use Rattle.std.specs.Prelude.{◌≡◌, ◌↔◌, IsTrue};
ghost use Rattle.rpki_der.specs.Prelude.{left, Takes, TakesAll, TakesWhole, CanShare};
ghost use Rattle.rpki_objects.specs.SignedObject.{object_of, data_fields_of, object_fields_of, object_fields};
ghost use Rattle.rpki_objects.specs.SignedObject.{signed_object};
ghost use Rattle.rpki_objects.specs.SignedObject.{explicit_data};

use crate::signed_data::SignedData;
use bytes::Bytes;
use rpki::crypto::{KeyIdentifier, RpkiSignature};
use rpki::der::{Class, ConstOid, Constructed, DecodeError, Keep, Oid, Shared, Tag};
use rpki::oid;
use rpki::repository::x509::Time;
use rpki_cert::Cert;
use rpki_x509::MessageDigest;
use std::alloc::Global;
use std::marker::Model;

/// A signed object: a content with its type, the certificate of its signer, and what the signer signs with its
/// signature. Nothing of it is verified.
#[derive(Drop)]
pub struct SignedObject {
    data: SignedData,
}

impl Model for SignedObject {
    ghost use Rattle.rpki_objects.specs.SignedObject.{ObjectParts, object_of};

    ghost Value = { ObjectParts };

    ghost view = { λ x. object_of x.data };
}

/// The signed data, under the explicit tag 0.
fn take_data<K: Keep>(
    keep: K,
    strict: bool,
    cons: &mut Constructed<'_>,
) -> Result<SignedData, DecodeError>
    requires { K.holds keep (left cons.old) }
    ensures { Takes (λ x. data_fields_of (object_of x)) (explicit_data strict) (left cons.old) (left cons.new) result }
{
    cons.in_constructed_with(
        Tag::new(Class::Context, 0),
        keep,
        |contents, keep|
            requires { K.holds keep (left contents.old) }
        { SignedData::take_from(keep, strict, contents) },
    )
}

impl SignedObject {
    /// Reads a signed object (RFC 6488 2), in DER: one digest algorithm, which is SHA-256; one certificate; no
    /// revocation lists; one signer, whose key is named by its identifier, with signed attributes as
    /// [SignedAttrs::take_from](crate::SignedAttrs::take_from) reads them, and without unsigned attributes. An
    /// allocator copies the octets, and [Shared](rpki::der::Shared) shares them; requires that `keep` can keep parts of
    /// the rest.
    ///
    /// The errors are those of a SEQUENCE; then that of the leftmost part that could not be read, of the parts in it,
    /// in turn, or `Trailing` if more follows; `OutOfMemory` if allocation fails. An error leaves the cursor where it
    /// was.
    pub fn take_from<K: Keep>(
        keep: K,
        strict: bool,
        cons: &mut Constructed<'_>,
    ) -> Result<SignedObject, DecodeError>
        requires { K.holds keep (left cons.old) }
        ensures { Takes object_fields_of (signed_object strict) (left cons.old) (left cons.new) result }
    {
        cons.in_sequence_with(
            keep,
            |contents, keep|
                requires { K.holds keep (left contents.old) }
                ensures { TakesAll object_fields_of (object_fields strict) (left contents.old) (left contents.new)
                    result }
            {
                contents.skip_oid_if(oid::SIGNED_DATA)?;
                let data = take_data(keep, strict, contents)?;
                Ok(SignedObject { data })
            },
        )
    }

    /// A signed object, and nothing else. It shares the octets.
    ///
    /// The errors are those of [SignedObject::take_from]; then `Trailing` if something follows the object.
    pub fn decode(alloc: Global, bytes: Bytes, strict: bool) -> Result<SignedObject, DecodeError>
        ensures { TakesWhole object_fields_of (signed_object strict) bytes result }
    {
        Constructed::new(&bytes).whole_with(
            Shared::new(alloc, &bytes),
            |cons, keep|
                requires { CanShare keep (left cons.old) }
            { SignedObject::take_from(keep, strict, cons) },
        )
    }

    /// The type of the content.
    pub fn content_type(&self) -> &Oid<Bytes>
        ensures { result.now.0 ≡ self.now.content.content_type }
    {
        &self.data.content.econtent_type
    }

    /// Whether the content has this type.
    pub(crate) fn has_type(&self, wanted: ConstOid) -> bool
        ensures { IsTrue result ↔ (self.now.content.content_type ≡ wanted.entry.0.now) }
    {
        self.content_type().0.as_slice() == wanted.0
    }

    /// The octets of the content.
    pub fn content(&self) -> &Bytes
        ensures { result.now ≡ self.now.content.content }
    {
        &self.data.content.econtent
    }

    /// The certificate of the signer.
    pub fn cert(&self) -> &Cert
        ensures { result.now ≡ self.now.cert }
    {
        &self.data.cert
    }

    /// The identifier of the signer's key.
    pub fn signer_identifier(&self) -> KeyIdentifier
        ensures { result ≡ self.now.signer.identifier }
    {
        self.data.signer.sid
    }

    /// The type of the content that the signer signs.
    pub fn signed_content_type(&self) -> &Oid<Bytes>
        ensures { result.now.0 ≡ self.now.signer.attributes.values.content_type }
    {
        &self.data.signer.signed_attrs.content_type
    }

    /// The digest of the content that the signer signs.
    pub fn message_digest(&self) -> MessageDigest
        ensures { result ≡ self.now.signer.attributes.values.message_digest }
    {
        self.data.signer.signed_attrs.message_digest
    }

    /// When the attributes were signed, where that is said.
    pub fn signing_time(&self) -> Option<Time>
        ensures { result ≡ self.now.signer.attributes.values.signing_time }
    {
        self.data.signer.signed_attrs.signing_time
    }

    /// When the attributes were signed, in seconds since 1970, where that is said.
    pub fn binary_signing_time(&self) -> Option<u64>
        ensures { result ≡ self.now.signer.attributes.values.binary_signing_time }
    {
        self.data.signer.signed_attrs.binary_signing_time
    }

    /// What is signed: the attributes as they came, but after the tag of a SET in place of the implicit tag (RFC 5652
    /// 5.4).
    pub fn message(&self) -> &Bytes
        ensures { result.now ≡ self.now.signer.attributes.message }
    {
        &self.data.signer.signed_attrs.message
    }

    /// The signature of the attributes.
    pub fn signature(&self) -> &RpkiSignature
        ensures { result.now ≡ self.now.signer.signature }
    {
        &self.data.signer.signature
    }
}
