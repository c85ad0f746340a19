//! Signatures of certificates and revocation lists.

ghost use Rattle.std.specs.Prelude.{◌≡◌};
ghost use Rattle.std.specs.Option.{option_copied};
ghost use Rattle.rpki_cert.specs.RuleError.{ChecksBy};
ghost use Rattle.rpki_valid.specs.Valid.{HasReason, IsSignedBy};
ghost use Rattle.rpkicert.specs.Fault.{bad_text};
ghost use Rattle.rpkicert.specs.Requirements.{checkers, is_self_issued, IsSelfSigned, IsListIssued, IsListUnissued};
ghost use Rattle.rpkicert.specs.RequirementsView.{ChecksOne};

use rpki::crypto::PublicKey;
use rpki::repository::error::ValidationError;
use rpki_cert::{Cert, TbsCert};
use rpki_crl::Crl;
use rpki_digests::RsaProvider;
use rpki_valid::{unverified, verify_signature};

/// What signatures are verified with, and digests made.
pub const PROVIDER: RsaProvider = RsaProvider;

/// Whether the certificate's subject is its issuer.
pub fn is_self_issued(cert: &Cert) -> bool
    ensures { result ≡ is_self_issued cert.now }
{
    let own = cert.tbs();
    *own.issuer() == *own.subject()
}

/// Whether its own key has signed the certificate.
fn verify_self_signed(cert: &Cert) -> Result<(), ValidationError>
    ensures { ChecksBy (IsSelfSigned cert.now) (HasReason bad_text) result }
{
    let signed = cert.signed_data();
    let key = cert.tbs().subject_public_key_info();
    verify_signature(
        signed.data().as_slice(),
        signed.signature(),
        &PROVIDER,
        key,
        "bad signature",
    )
}

/// The same where a certificate is there.
pub fn check_anchor(cert: Option<&Cert>) -> Result<(), ValidationError>
    ensures { ChecksOne IsSelfSigned (λ _. HasReason bad_text) (option_copied cert.entry) result }
{
    match cert {
        Some(cert) => verify_self_signed(cert),
        None => Ok(()),
    }
}

/// Whether the key has signed the list.
fn verify_list_signed(key: &PublicKey, list: &Crl) -> Result<(), ValidationError>
    ensures { ChecksBy (IsSignedBy checkers key.now list.now.signed) (HasReason bad_text) result }
{
    let signed = list.signed_data();
    verify_signature(
        signed.data().as_slice(),
        signed.signature(),
        &PROVIDER,
        key,
        "bad signature",
    )
}

/// Whether the key of the certificate has signed the list, which names its subject as the issuer, and the key.
///
/// The error is `Verification` of the first that isn't so: `bad signature`; `issuer name mismatch`; `authority key
/// identifier mismatch`.
pub fn verify_list(issuer: &TbsCert, list: &Crl) -> Result<(), ValidationError>
    ensures { ChecksBy (IsListIssued issuer.now list.now) (IsListUnissued issuer.now list.now) result }
{
    verify_list_signed(issuer.subject_public_key_info(), list)?;
    if *list.issuer() != *issuer.subject() {
        return Err(unverified("issuer name mismatch"));
    }
    if list.authority_key_identifier()
        != issuer.subject_public_key_info().key_identifier(&PROVIDER)
    {
        return Err(unverified("authority key identifier mismatch"));
    }
    Ok(())
}
