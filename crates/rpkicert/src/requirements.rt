//! What an object is checked against: its own rules, an issuer and a moment.

ghost use Rattle.std.specs.Prelude.{◌≡◌, MatchResult, option_map};
ghost use Rattle.std.specs.Option.{option_copied};
ghost use Rattle.rpki_time.specs.Validity.{HoldsAt};
ghost use Rattle.rpki_cert.specs.RuleError.{ChecksBy};
ghost use Rattle.rpki_valid.specs.Valid.{HasReason, IsPeriodError};
ghost use Rattle.rpkicert.specs.Fault.{bad_text};
ghost use Rattle.rpkicert.specs.Requirements.{signer_of, list_of, signer_period, list_period, manifest_period};
ghost use Rattle.rpkicert.specs.Requirements.{IsCertIssued, IsCertUnissued, IsListIssued, IsListUnissued};
ghost use Rattle.rpkicert.specs.Requirements.{ArePeriodsHeld, BreaksPeriods, HasIssuer, BreaksIssuer, IsSelfSigned};
ghost use Rattle.rpkicert.specs.Requirements.{self_issued, anchor_of, IsNotOn, IsRevokedError};
ghost use Rattle.rpki_valid.specs.ErrorTexts.{revoked_text};
ghost use Rattle.rpkicert.specs.Requirements.{IsUpdateError, IsVerified, IsUnverifiedBy};
ghost use Rattle.rpkicert.specs.RequirementsView.{terms_of, by_clause, ChecksBoth, HoldsBoth, HoldsOne, Judges};
ghost use Rattle.rpkicert.specs.declared.fault.Clause.TheVariants as C;

use crate::alone::hold_alone;
use crate::fault::{Clause, Fault};
use crate::profile::Inspection;
use crate::signed::{PROVIDER, check_anchor, is_self_issued, verify_list};
use rpki::repository::error::ValidationError;
use rpki::repository::x509::{Time, Validity};
use rpki_cert::{Cert, TbsCert};
use rpki_crl::Crl;
use rpki_fields::Object;
use rpki_valid::{unverified, verify_issued, verify_period};
use std::alloc::Global;

/// What an object is checked against.
#[derive(Clone, Copy)]
pub struct Requirements<'a> {
    /// The profile of its certificate.
    pub inspection: Option<Inspection>,
    /// The certificate that has issued it.
    pub issuer: Option<&'a TbsCert>,
    /// The issuer's revocation list, which doesn't have it.
    pub revocations: Option<&'a Crl>,
    /// A moment within its periods.
    pub moment: Option<Time>,
}

/// The certificate in the profile of the RPKI that the object is, or that of its signer; a revocation list has none.
pub fn signer(object: &Object) -> Option<&Cert>
    ensures { option_map (λ c. c.now) result ≡ signer_of object.now }
{
    match object {
        Object::Certificate(cert) => Some(cert),
        Object::Crl(_) => None,
        Object::Manifest(manifest) => Some(manifest.object().cert()),
        Object::Roa(origins) => Some(origins.object().cert()),
        Object::Aspa(attestation) => Some(attestation.object().cert()),
        Object::Checklist(object) => Some(object.cert()),
        Object::TrustAnchorKey(object) => Some(object.cert()),
        Object::Ghostbusters(object) => Some(object.cert()),
        Object::SignedObject(object) => Some(object.cert()),
        Object::OtherCertificate(_) => None,
    }
}

/// The certificate, if it is self-issued.
fn self_issued(cert: &Cert) -> Option<&Cert>
    ensures { option_map (λ c. c.now) result ≡ self_issued cert.now }
{
    if is_self_issued(cert) {
        return Some(cert);
    }
    None
}

/// The self-issued certificate that the object is, where no issuer is asked for.
fn anchor<'a>(issuer: Option<&TbsCert>, object: &'a Object) -> Option<&'a Cert>
    ensures { option_map (λ c. c.now) result ≡ anchor_of (option_map (λ t. t.now) issuer.entry) object.now }
{
    match issuer {
        Some(_) => None,
        None => match object {
            Object::Certificate(cert) => self_issued(cert),
            _ => None,
        },
    }
}

/// The revocation list that the object is.
pub fn list(object: &Object) -> Option<&Crl>
    ensures { option_map (λ l. l.now) result ≡ list_of object.now }
{
    match object {
        Object::Crl(list) => Some(list),
        _ => None,
    }
}

/// The period of the certificate that the object is, or of that of its signer.
pub fn signer_period(object: &Object) -> Option<Validity>
    ensures { result ≡ signer_period object.now }
{
    match signer(object) {
        Some(cert) => Some(cert.tbs().validity()),
        None => None,
    }
}

/// From this update to the next, of the revocation list that the object is.
pub fn list_period(object: &Object) -> Option<Validity>
    ensures { result ≡ list_period object.now }
{
    match object {
        Object::Crl(list) => { Some(Validity::new(list.this_update(), list.next_update())) }
        _ => None,
    }
}

/// From this update to the next, of the manifest that the object is.
pub fn manifest_period(object: &Object) -> Option<Validity>
    ensures { result ≡ manifest_period object.now }
{
    match object {
        Object::Manifest(manifest) => {
            let content = manifest.content();
            Some(Validity::new(content.this_update(), content.next_update()))
        }
        _ => None,
    }
}

/// Whether the one certificate has issued the other; where both are there.
///
/// The errors are those of [verify_issued].
fn check_signer(issuer: Option<&TbsCert>, cert: Option<&Cert>) -> Result<(), ValidationError>
    ensures { ChecksBoth IsCertIssued IsCertUnissued (option_copied issuer.entry) (option_copied cert.entry) result }
{
    match issuer {
        Some(issuer) => match cert {
            Some(cert) => {
                verify_issued(cert, &PROVIDER, issuer, cert.tbs().validity().not_before())
            }
            None => Ok(()),
        },
        None => Ok(()),
    }
}

/// Whether the certificate has issued the list; where both are there.
fn check_list(issuer: Option<&TbsCert>, list: Option<&Crl>) -> Result<(), ValidationError>
    ensures { ChecksBoth IsListIssued IsListUnissued (option_copied issuer.entry) (option_copied list.entry) result }
{
    match issuer {
        Some(issuer) => match list {
            Some(list) => verify_list(issuer, list),
            None => Ok(()),
        },
        None => Ok(()),
    }
}

/// Whether the list doesn't have the certificate.
///
/// The error is `Verification` with the text `RFC 6487 7.2: revoked certificate`.
fn verify_unrevoked(list: &Crl, cert: &Cert) -> Result<(), ValidationError>
    ensures { ChecksBy (IsNotOn list.now cert.now) (HasReason revoked_text) result }
{
    if list.contains(cert.tbs().serial_number()) {
        return Err(unverified("RFC 6487 7.2: revoked certificate"));
    }
    Ok(())
}

/// The same where both are there.
fn check_revoked(list: Option<&Crl>, cert: Option<&Cert>) -> Result<(), ValidationError>
    ensures { ChecksBoth IsNotOn IsRevokedError (option_copied list.entry) (option_copied cert.entry) result }
{
    match list {
        Some(list) => match cert {
            Some(cert) => verify_unrevoked(list, cert),
            None => Ok(()),
        },
        None => Ok(()),
    }
}

/// Whether the period holds at the moment; where both are there.
fn check_period(period: Option<Validity>, moment: Option<Time>) -> Result<(), ValidationError>
    ensures { ChecksBoth HoldsAt IsPeriodError period moment result }
{
    match period {
        Some(period) => match moment {
            Some(moment) => verify_period(period, moment),
            None => Ok(()),
        },
        None => Ok(()),
    }
}

/// Whether the moment is within this update and the next, both included.
///
/// The error is `Verification` of the first that isn't so: `issued later`; `stale`.
fn verify_updates(period: Validity, moment: Time) -> Result<(), ValidationError>
    ensures { ChecksBy (HoldsAt period moment) (IsUpdateError period moment) result }
{
    if period.not_before() <= moment {
        if moment <= period.not_after() {
            return Ok(());
        }
        return Err(unverified("stale"));
    }
    Err(unverified("issued later"))
}

/// The same where both are there.
fn check_updates(period: Option<Validity>, moment: Option<Time>) -> Result<(), ValidationError>
    ensures { ChecksBoth HoldsAt IsUpdateError period moment result }
{
    match period {
        Some(period) => match moment {
            Some(moment) => verify_updates(period, moment),
            None => Ok(()),
        },
        None => Ok(()),
    }
}

/// The fault of a check that this clause asks for.
pub fn by(clause: Clause, checked: Result<(), ValidationError>) -> Result<(), Fault>
    ensures { result ≡ by_clause clause checked }
{
    match checked {
        Ok(()) => Ok(()),
        Err(e) => Err(Fault::Unverified(clause, e)),
    }
}

/// The clause that a self-issued certificate, where no issuer is asked for, is signed by its own key.
fn hold_anchor(terms: &Requirements<'_>, object: &Object) -> Result<(), Fault>
    ensures { HoldsOne C.Anchor IsSelfSigned (λ _. HasReason bad_text)
        (anchor_of (terms_of terms.now).issuer object.now) result }
{
    by(Clause::Anchor, check_anchor(anchor(terms.issuer, object)))
}

/// The clause that the certificate has the issuer.
fn hold_cert(terms: &Requirements<'_>, object: &Object) -> Result<(), Fault>
    ensures { HoldsBoth C.Certificate IsCertIssued IsCertUnissued (terms_of terms.now).issuer (signer_of object.now)
        result }
{
    by(
        Clause::Certificate,
        check_signer(terms.issuer, signer(object)),
    )
}

/// The clause that the list has the issuer.
fn hold_list(terms: &Requirements<'_>, object: &Object) -> Result<(), Fault>
    ensures { HoldsBoth C.List IsListIssued IsListUnissued (terms_of terms.now).issuer (list_of object.now) result }
{
    by(Clause::List, check_list(terms.issuer, list(object)))
}

/// The clause that the issuer's revocation list doesn't have the certificate.
fn hold_unrevoked(terms: &Requirements<'_>, object: &Object) -> Result<(), Fault>
    ensures { HoldsBoth C.Revoked IsNotOn IsRevokedError (terms_of terms.now).revocations (signer_of object.now)
        result }
{
    by(
        Clause::Revoked,
        check_revoked(terms.revocations, signer(object)),
    )
}

/// The clause that the period of the certificate holds.
fn hold_cert_at(terms: &Requirements<'_>, object: &Object) -> Result<(), Fault>
    ensures { HoldsBoth C.Period HoldsAt IsPeriodError (signer_period object.now) terms.now.moment result }
{
    by(
        Clause::Period,
        check_period(signer_period(object), terms.moment),
    )
}

/// The clause that the updates of the list hold.
fn hold_list_at(terms: &Requirements<'_>, object: &Object) -> Result<(), Fault>
    ensures { HoldsBoth C.Updates HoldsAt IsUpdateError (list_period object.now) terms.now.moment result }
{
    by(
        Clause::Updates,
        check_updates(list_period(object), terms.moment),
    )
}

/// The clause that the updates of the manifest hold.
fn hold_manifest_at(terms: &Requirements<'_>, object: &Object) -> Result<(), Fault>
    ensures { HoldsBoth C.Manifest HoldsAt IsUpdateError (manifest_period object.now) terms.now.moment result }
{
    by(
        Clause::Manifest,
        check_updates(manifest_period(object), terms.moment),
    )
}

/// The clauses that the periods hold at the moment: of the certificate, between the updates of a list, and those of a
/// manifest.
fn hold_periods(terms: &Requirements<'_>, object: &Object) -> Result<(), Fault>
    ensures { Judges (ArePeriodsHeld (terms_of terms.now) object.now) (BreaksPeriods (terms_of terms.now) object.now)
        result }
{
    hold_cert_at(terms, object)?;
    hold_list_at(terms, object)?;
    hold_manifest_at(terms, object)
}

/// The clauses of the issuer: that a self-issued certificate, where none is asked for, is signed by its own key; that
/// the issuer has issued the certificate, and the list; and that its revocation list doesn't have the certificate.
fn hold_issuer(terms: &Requirements<'_>, object: &Object) -> Result<(), Fault>
    ensures { Judges (HasIssuer (terms_of terms.now) object.now) (BreaksIssuer (terms_of terms.now) object.now) result }
{
    hold_anchor(terms, object)?;
    hold_cert(terms, object)?;
    hold_list(terms, object)?;
    hold_unrevoked(terms, object)
}

/// Whether the object's periods hold at the moment, where one is asked for; whether it holds by itself; and whether it
/// has the issuer, where one is asked for, and isn't on its revocation list, or is signed by its own key, where it is
/// self-issued.
///
/// The error is `Unverified` with the first clause that is broken: [hold_periods]; [hold_alone]; [hold_issuer];
/// `OutOfMemory` if allocation fails.
pub fn verify(alloc: Global, terms: &Requirements<'_>, object: &Object) -> Result<(), Fault>
    ensures { MatchResult result (λ _. IsVerified (terms_of terms.now) object.now)
        (IsUnverifiedBy (terms_of terms.now) object.now) }
{
    hold_periods(terms, object)?;
    hold_alone(alloc, object)?;
    hold_issuer(terms, object)
}
