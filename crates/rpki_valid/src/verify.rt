//! Whether certificates are valid at a moment (RFC 5280 6.1.3, RFC 6487 7.2), but for their resources.

ghost use Rattle.std.specs.Prelude.{◌≡◌, ◌↔◌, ◌⊎◌, false, None, Option, IsTrue};
ghost use Rattle.rpki_time.specs.Validity.{HoldsAt};
ghost use Rattle.rpki.specs.Checkers.{checkers_of};
ghost use Rattle.rpki_cert.specs.Cert.{find};
ghost use Rattle.rpki_x509.specs.Authority.{authority_key_identifier};
ghost use Rattle.rpki_cert.specs.Known.{are_understood};
ghost use Rattle.rpki_cert.specs.RuleError.{ChecksBy};
ghost use Rattle.rpki_valid.specs.Valid.{HasReason, IsPeriodError, HasSigned, HasSubject, IsOtherSubject, ChecksSigned};
ghost use Rattle.rpki_valid.specs.Valid.{HasAuthority, IsOtherAuthority, ChecksIssued, ChecksAnchor};
ghost use Rattle.rpki_valid.specs.ErrorTexts.{issuer_text, critical_text, subject_text};

use rpki::crypto::{KeyIdentifier, Provider, PublicKey, PublicKeyFormat, RpkiSignature};
use rpki::der::ContentError;
use rpki::oid;
use rpki::repository::error::{ValidationError, VerificationError};
use rpki::repository::x509::{NameOctets, Time, Validity, ValidityPeriodError};
use rpki_cert::{Cert, TbsCert, are_understood, find_extension, is_identifier};

/// The error of this text.
pub fn unverified(text: &'static str) -> ValidationError
    ensures { HasReason text.now result }
{
    ValidationError::Verification(VerificationError::new(ContentError::from_static(text)))
}

/// Whether the names have the same octets.
fn is_named(name: &NameOctets, wanted: &NameOctets) -> bool
    ensures { IsTrue result ↔ (name.now ≡ wanted.now) }
{
    *name == *wanted
}

/// Whether the period of a certificate holds at the moment.
///
/// The error is `Verification` with the text `RFC 6487 7.2: certificate is not yet valid`, or `RFC 6487 7.2:
/// certificate has expired`.
pub fn verify_period(period: Validity, at: Time) -> Result<(), ValidationError>
    ensures { ChecksBy (HoldsAt period at) (IsPeriodError period at) result }
{
    match period.verify_at(at) {
        Ok(()) => Ok(()),
        Err(ValidityPeriodError::TooNew) => {
            Err(unverified("RFC 6487 7.2: certificate is not yet valid"))
        }
        Err(ValidityPeriodError::TooOld) => {
            Err(unverified("RFC 6487 7.2: certificate has expired"))
        }
    }
}

/// Whether the identifier of the issuer's key is there and is this one.
fn verify_authority(cert: &TbsCert, wanted: KeyIdentifier) -> Result<(), ValidationError>
    ensures { ChecksBy (HasAuthority wanted cert.now) (IsOtherAuthority cert.now) result }
{
    match cert.authority_key_identifier() {
        Ok(found) => {
            if is_identifier(found, wanted) {
                return Ok(());
            }
            Err(unverified("RFC 6487 7.2: authority key identifier mismatch"))
        }
        Err(e) => Err(e),
    }
}

/// Whether the identifier of the issuer's key isn't there, or is this one.
fn verify_own_authority(cert: &TbsCert, wanted: KeyIdentifier) -> Result<(), ValidationError>
    ensures { ChecksBy ((find authority_key_identifier cert.now.extensions ≡ None) ⊎ HasAuthority wanted cert.now)
        (IsOtherAuthority cert.now) result }
{
    match find_extension(cert.extensions(), oid::CE_AUTHORITY_KEY_IDENTIFIER) {
        Some(_) => verify_authority(cert, wanted),
        None => Ok(()),
    }
}

/// Whether the identifier of the subject's key is there and is this one.
fn verify_subject(cert: &TbsCert, wanted: KeyIdentifier) -> Result<(), ValidationError>
    ensures { ChecksBy (HasSubject wanted cert.now) (IsOtherSubject subject_text cert.now) result }
{
    match cert.subject_key_identifier() {
        Ok(found) => {
            if is_identifier(found, wanted) {
                return Ok(());
            }
            Err(unverified("RFC 6487 7.2: subject key identifier mismatch"))
        }
        Err(e) => Err(e),
    }
}

/// Whether every critical extension is a known one.
fn verify_critical(cert: &TbsCert) -> Result<(), ValidationError>
    ensures { ChecksBy (IsTrue (are_understood cert.now.extensions))
        (HasReason critical_text) result }
{
    if are_understood(cert.extensions()) {
        return Ok(());
    }
    Err(unverified("RFC 6487 7.2: unknown critical extension"))
}

/// Whether the issuer has this name.
fn verify_issuer(cert: &TbsCert, issuer: &NameOctets) -> Result<(), ValidationError>
    ensures { ChecksBy (cert.now.issuer ≡ issuer.now) (HasReason issuer_text) result }
{
    if is_named(cert.issuer(), issuer) {
        return Ok(());
    }
    Err(unverified("RFC 6487 7.2: issuer name mismatch"))
}

/// Whether the key has signed the octets: this is the signature. The error is `Verification` with the text.
pub fn verify_signature<P: Provider>(
    octets: &[u8],
    signature: &RpkiSignature,
    provider: &P,
    key: &PublicKey,
    text: &'static str,
) -> Result<(), ValidationError>
    ensures { ChecksBy (HasSigned (checkers_of P.Provider provider.now) key.now octets.now signature.now)
        (HasReason text.now) result }
{
    match key.verify(provider, octets, signature) {
        Ok(()) => Ok(()),
        Err(_) => Err(unverified(text)),
    }
}

/// Whether this key has signed the certificate, and it is valid at the moment, the key identifier of the issuer
/// aside.
fn verify_signed<P: Provider>(
    cert: &Cert,
    provider: &P,
    issuer: &NameOctets,
    issuer_key: &PublicKey,
    at: Time,
) -> Result<(), ValidationError>
    ensures { ChecksSigned (checkers_of P.Provider provider.now) issuer.now issuer_key.now at cert.now result }
{
    let own = cert.tbs();
    let signed = cert.signed_data();
    verify_signature(
        signed.data().as_slice(),
        signed.signature(),
        provider,
        issuer_key,
        "RFC 6487 7.2: bad signature",
    )?;
    verify_period(own.validity(), at)?;
    verify_issuer(own, issuer)?;
    verify_critical(own)?;
    let subject = own.subject_public_key_info().key_identifier(provider);
    verify_subject(own, subject)
}

/// As [verify_issued], where the identifier of the issuer's key is at hand.
pub(crate) fn verify_issued_by<P: Provider>(
    cert: &Cert,
    provider: &P,
    issuer: &TbsCert,
    authority: KeyIdentifier,
    at: Time,
) -> Result<(), ValidationError>
    requires { authority ≡ P.sha1_of provider.now issuer.now.key.bits.octets }
    ensures { ChecksIssued (checkers_of P.Provider provider.now) issuer.now at cert.now result }
{
    verify_signed(
        cert,
        provider,
        issuer.subject(),
        issuer.subject_public_key_info(),
        at,
    )?;
    verify_authority(cert.tbs(), authority)
}

/// Whether the one certificate has issued the other; that the issuer is an authority, is itself valid or issued by
/// another, and that either has its profile, is not looked at, so that this alone is no verification: for that see
/// [ResourceCert](crate::ResourceCert). What is looked at is the signature, the period at the moment, the issuer's
/// name, and both key identifiers (RFC 5280 6.1.3, RFC 6487 7.2). Allocates nothing.
///
/// The error is that of the first of: the signature, the period, the issuer's name, an unknown critical extension,
/// the identifier of the subject's key, that of the issuer's; of an identifier that is there and malformed, that; else
/// `Verification` with a text that begins with `RFC 6487 7.2`.
pub fn verify_issued<P: Provider>(
    cert: &Cert,
    provider: &P,
    issuer: &TbsCert,
    at: Time,
) -> Result<(), ValidationError>
    ensures { ChecksIssued (checkers_of P.Provider provider.now) issuer.now at cert.now result }
{
    let authority = issuer.subject_public_key_info().key_identifier(provider);
    verify_issued_by(cert, provider, issuer, authority, at)
}

/// Whether its own key has signed the certificate and it is valid at the moment, its issuer is its subject, and the
/// identifier of the issuer's key is left out, or is that of its own (RFC 6487 4.8.3).
///
/// The errors are those of [verify_issued].
pub(crate) fn verify_anchor<P: Provider>(
    cert: &Cert,
    provider: &P,
    at: Time,
) -> Result<(), ValidationError>
    ensures { ChecksAnchor (checkers_of P.Provider provider.now) at cert.now result }
{
    let own = cert.tbs();
    verify_signed(
        cert,
        provider,
        own.subject(),
        own.subject_public_key_info(),
        at,
    )?;
    let authority = own.subject_public_key_info().key_identifier(provider);
    verify_own_authority(own, authority)
}
