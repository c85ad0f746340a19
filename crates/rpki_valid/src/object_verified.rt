//! Whether signed objects are valid at a moment (RFC 6488 3).

ghost use Rattle.std.specs.Prelude.{◌≡◌, None, IfOk};
ghost use Rattle.rpki_cert.specs.declared.profile.Profile.TheVariants.{Ee};
ghost use Rattle.rpki_valid.specs.ResourceSet.{AreWithin};
ghost use Rattle.rpki_cert.specs.RuleError.{ChecksBy};
ghost use Rattle.rpki_valid.specs.Valid.{HasReason, HasSubject, IsOtherSubject};
ghost use Rattle.rpki.specs.Checkers.{checkers_of};
ghost use Rattle.rpki_valid.specs.Verified.{verified_by, holder, HasPath};
ghost use Rattle.rpki_valid.specs.ObjectVerified.{HasSignedType, HasSignedDigest, IsSignedByKey, ChecksSigned};
ghost use Rattle.rpki_valid.specs.CrlIssued.{HasListedPath};
ghost use Rattle.rpki_valid.specs.ObjectVerified.{ChecksObject, ChecksListedObject};
ghost use Rattle.rpki_valid.specs.ErrorTexts.{content_type_text, digest_text, signer_text, unsigned_object_text};

use crate::current_crl::CurrentCrl;
use crate::resource::set::ResourceSet;
use crate::resource_cert::ResourceCert;
use crate::verify::unverified;
use rpki::crypto::Provider;
use rpki::repository::error::ValidationError;
use rpki::repository::x509::Time;
use rpki_cert::is_identifier;
use rpki_contents::MessageDigest;
use rpki_objects::SignedObject;
use rpki_rsa::PreparingProvider;
use std::alloc::Global;

/// Whether the content has the type that is signed.
fn verify_content_type(object: &SignedObject) -> Result<(), ValidationError>
    ensures { ChecksBy (HasSignedType object.now) (HasReason content_type_text) result }
{
    if object.signed_content_type().0 == object.content_type().0 {
        return Ok(());
    }
    Err(unverified("RFC 6488 3: content type mismatch"))
}

/// Whether the content has the digest that is signed.
fn verify_digest<P: Provider>(object: &SignedObject, provider: &P) -> Result<(), ValidationError>
    ensures { ChecksBy (HasSignedDigest (P.sha256_of provider.now) object.now)
        (HasReason digest_text) result }
{
    if object.message_digest() == MessageDigest::of(provider, object.content().as_slice()) {
        return Ok(());
    }
    Err(unverified("RFC 6488 3: message digest mismatch"))
}

/// Whether the signer's identifier is the certificate's subject key identifier.
fn verify_signer(object: &SignedObject) -> Result<(), ValidationError>
    ensures { ChecksBy (HasSubject object.now.signer.identifier object.now.cert.tbs)
        (IsOtherSubject signer_text object.now.cert.tbs) result }
{
    match object.cert().tbs().subject_key_identifier() {
        Ok(found) => {
            if is_identifier(found, object.signer_identifier()) {
                return Ok(());
            }
            Err(unverified("RFC 6488 3: subject key identifier mismatch"))
        }
        Err(e) => Err(e),
    }
}

/// Whether the key of the certificate has signed the attributes.
fn verify_attributes<P: Provider>(
    object: &SignedObject,
    provider: &P,
) -> Result<(), ValidationError>
    ensures { ChecksBy (IsSignedByKey (checkers_of P.Provider provider.now) object.now) (HasReason unsigned_object_text)
        result }
{
    let key = object.cert().tbs().subject_public_key_info();
    match key.verify(provider, object.message().as_slice(), object.signature()) {
        Ok(()) => Ok(()),
        Err(_) => Err(unverified("RFC 6488 3: bad signature")),
    }
}

/// Tests that the key of the certificate has signed the content: its type and its digest are those that are signed,
/// the signer's identifier is the certificate's subject key identifier, and the signature of the attributes is by
/// the certificate's key, of RSA, as the provider says (RFC 6488 3, RFC 5652 5.4, 5.6). Whose certificate it is,
/// isn't looked at: see [CurrentCrl::verify_object]. Allocates nothing.
///
/// The error is `Verification` of the first that doesn't hold, after `RFC 6488 3: `: `content type mismatch`; `message
/// digest mismatch`; then that of a malformed subject key identifier, or `subject key identifier mismatch`; `bad
/// signature`.
pub fn verify_object_signature<P: Provider>(
    object: &SignedObject,
    provider: &P,
) -> Result<(), ValidationError>
    ensures { ChecksSigned (checkers_of P.Provider provider.now) object.now result }
{
    verify_content_type(object)?;
    verify_digest(object, provider)?;
    verify_signer(object)?;
    verify_attributes(object, provider)
}

impl<'p, P: PreparingProvider> ResourceCert<'p, P> {
    /// As [CurrentCrl::verify_object], at a moment, but without a list of the authority: the certificate of the object
    /// may be revoked.
    ///
    /// The errors are those of [CurrentCrl::verify_object], but that of a revoked certificate.
    pub fn verify_object_without_list(
        &self,
        alloc: Global,
        object: &SignedObject,
        at: Time,
    ) -> Result<ResourceSet, ValidationError>
        ensures exactly { ChecksObject None (verified_by P.Provider self.now) at object.now result }
        ensures path { IfOk result (λ v. HasPath Ee self.now.terms self.now.asked None
            (checkers_of P.Provider self.now.provider) at (holder object.now.cert v)) }
        ensures within { IfOk result (λ v. AreWithin v self.now.resources) }
    {
        verify_object_signature(object, self.provider())?;
        self.verify_ee_without_list(alloc, object.cert(), at)
    }
}

impl<'a, 'p, P: PreparingProvider> CurrentCrl<'a, 'p, P> {
    /// Tests that the object is valid at the moment of the list (RFC 6488 3): its signer has signed it, as
    /// [verify_object_signature] says, and the certificate is one of an end entity, which the authority has issued, and
    /// its list doesn't have, and all of whose path is valid. Returns the resources that the path gives the
    /// certificate.
    ///
    /// The errors are those of [verify_object_signature]; then those of [CurrentCrl::verify_ee].
    pub fn verify_object(
        &self,
        alloc: Global,
        object: &SignedObject,
    ) -> Result<ResourceSet, ValidationError>
        ensures exactly { ChecksListedObject P.Provider self.now object.now result }
        ensures path { IfOk result (λ v. HasListedPath P.Provider Ee self.now object.now.cert v) }
        ensures within { IfOk result (λ v. AreWithin v self.now.issuer.resources) }
    {
        verify_object_signature(object, self.issuer().provider())?;
        self.verify_ee(alloc, object.cert())
    }
}
