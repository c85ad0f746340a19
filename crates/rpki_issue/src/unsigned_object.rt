//! A signed object in two steps: what is to be signed, and then its signature (RFC 5652, RFC 6488).

ghost use Rattle.std.specs.Prelude.{◌≡◌, IfOk, IfErr};
ghost use Rattle.rpki_attributes.specs.SignedAttributes.{values_known};
ghost use Rattle.rpki.specs.Checkers.{checkers_of};
ghost use Rattle.rpki_objects.specs.EncodedObject.{built_of, object_octets, IsObjectReadBack};
ghost use Rattle.rpki_issue.specs.SignedObjects.{said_of, IsMessageOf, IsObjectToSign, IsTypeRefused, IsIssuedObject};
ghost use Rattle.rpki_issue.specs.SignedObjects.{IsObjectRefused, IsCertRefused, IsOnlyCert, IsBuildRefused};

use crate::error::IssueError;
use bytes::Bytes;
use rpki::crypto::{Provider, RpkiSignatureAlgorithm, Signature};
use rpki::der::{Captured, Oid, Values};
use rpki::repository::x509::Time;
use rpki_attributes::{AttributesBuilder, KnownAttributes};
use rpki_cert::Cert;
use rpki_objects::{SignedObjectBuilder, SignedObjectParts};
use rpki_x509::MessageDigest;
use std::alloc::Global;
use std::marker::Model;

/// A signed object that is to be signed by the key of a certificate of its own: the content, and the signed attributes.
#[derive(Drop)]
pub struct UnsignedObject<'a> {
    attributes: KnownAttributes<'a>,
    content: &'a [u8],
    message: Captured,
}

impl<'a> Model for UnsignedObject<'a> {
    ghost use Rattle.rpki_attributes.specs.SignedAttributes.{values_known};
    ghost use Rattle.rpki_issue.specs.SignedObjects.{ObjectToSign, IsMessageOf, AreTimed};

    ghost Value = { ObjectToSign };

    ghost view = { λ x. record {
      attributes = values_known x.attributes;
      content = x.content.now;
      message = x.message;
    } };

    ghost invariant = { λ x. IsMessageOf (values_known x.attributes) x.message
        × AreTimed (values_known x.attributes) };
}

/// The message of these attributes.
///
/// The errors are `ContentType` for a type that is no object identifier, and `OutOfMemory` if allocation fails.
fn write_message(alloc: Global, attributes: &KnownAttributes<'_>) -> Result<Captured, IssueError>
    ensures ok { IfOk result (λ c. IsMessageOf (values_known attributes.now) c) }
    ensures err { IfErr result (λ e. IsTypeRefused (values_known attributes.now).content_type e) }
{
    let Some(builder) = AttributesBuilder::new(attributes) else {
        return Err(IssueError::ContentType);
    };
    match Captured::from_values(alloc, &builder.encode_message()) {
        Ok(message) => Ok(message),
        Err(_) => Err(IssueError::OutOfMemory),
    }
}

/// The certificate that the octets are.
///
/// The errors are `Certificate` where they are none, and `OutOfMemory` if allocation fails.
fn read_certificate(alloc: Global, octets: &Captured) -> Result<Cert, IssueError>
    ensures ok { IfOk result (λ c. IsOnlyCert octets.now c) }
    ensures err { IfErr result (λ e. IsCertRefused octets.now e) }
{
    let copy = match octets.clone() {
        Ok(copy) => copy,
        Err(_) => return Err(IssueError::OutOfMemory),
    };
    match Cert::decode(alloc, copy.into_bytes()) {
        Ok(cert) => Ok(cert),
        Err(wrong) => {
            if wrong.is_out_of_memory() {
                return Err(IssueError::OutOfMemory);
            }
            Err(IssueError::Certificate)
        }
    }
}

/// The octets of an object of these parts.
///
/// The errors are `TooLong` for parts of 2^30 octets or more, and `OutOfMemory` if allocation fails.
fn write_object(alloc: Global, parts: &SignedObjectParts<'_>) -> Result<Captured, IssueError>
    ensures ok { IfOk result (λ c. c ≡ object_octets (built_of parts.now)) }
    ensures read { IfOk result (λ _. IsObjectReadBack (built_of parts.now)) }
    ensures err { IfErr result (λ e. IsBuildRefused (built_of parts.now) e) }
{
    let Some(builder) = SignedObjectBuilder::new(parts) else {
        return Err(IssueError::TooLong);
    };
    match Captured::from_values(alloc, &builder.encode()) {
        Ok(made) => Ok(made),
        Err(_) => Err(IssueError::OutOfMemory),
    }
}

impl<'a> UnsignedObject<'a> {
    /// What is to be signed of an object of this type with this content, as an encoder has written it: the first of two
    /// steps. The attributes have its digest, which the provider computes, and when it is signed (RFC 9589 4).
    ///
    /// The errors are `ContentType` for a type that is no object identifier, and `OutOfMemory` if allocation fails.
    pub fn new<P: Provider>(
        alloc: Global,
        provider: &P,
        content_type: Oid<&'a [u8]>,
        content: &'a [u8],
        signing_time: Time,
    ) -> Result<UnsignedObject<'a>, IssueError>
        ensures ok { IfOk result (λ u. IsObjectToSign (said_of (P.sha256_of provider.now) content_type.entry.0.now
            content.entry.now signing_time) content.entry.now u) }
        ensures err { IfErr result (λ e. IsTypeRefused content_type.entry.0.now e) }
    {
        let attributes = KnownAttributes {
            content_type,
            message_digest: MessageDigest::of(provider, content),
            signing_time: Some(signing_time),
            binary_signing_time: None,
        };
        match write_message(alloc, &attributes) {
            Ok(message) => Ok(UnsignedObject {
                attributes,
                content,
                message,
            }),
            Err(e) => Err(e),
        }
    }

    /// What the key of the object's certificate signs.
    pub fn message(&self) -> &[u8]
        ensures { result.now ≡ self.now.message }
    {
        self.message.as_slice()
    }

    /// The object with this certificate and this signature of the message: the second of two steps. The signature is
    /// verified by the certificate's key, as the provider does, whoever made it; that the certificate is one of the
    /// object, a validator looks at.
    ///
    /// The errors are `Certificate` for octets that are none; `BadSignature` if its key or the provider says no;
    /// `TooLong` for 2^30 octets or more, or more values than the certificate; and `OutOfMemory` if allocation fails.
    pub fn signed<P: Provider>(
        self,
        alloc: Global,
        provider: &P,
        certificate: &Captured,
        signature: Bytes,
    ) -> Result<Captured, IssueError>
        // The octets are read as the object.
        ensures ok { IfOk result (λ c. IsIssuedObject (checkers_of P.Provider provider.now) self.entry certificate.now
            signature c) }
        ensures err { IfErr result (λ e. IsObjectRefused (checkers_of P.Provider provider.now) self.entry
            certificate.now signature e) }
    {
        let cert = match read_certificate(alloc, certificate) {
            Ok(cert) => cert,
            Err(e) => return Err(e),
        };
        let key = cert.tbs().subject_public_key_info();
        let signature = Signature::new(RpkiSignatureAlgorithm::default(), signature);
        match key.verify(provider, self.message.as_slice(), &signature) {
            Ok(()) => {}
            Err(_) => return Err(IssueError::BadSignature),
        }
        let parts = SignedObjectParts {
            attributes: self.attributes,
            content: self.content,
            certificate,
            signer_identifier: key.key_identifier(provider),
            signature: signature.value().as_slice(),
        };
        match write_object(alloc, &parts) {
            Ok(made) => Ok(made),
            Err(e) => Err(e),
        }
    }
}
