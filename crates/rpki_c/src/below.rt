//! Certificates below an authority of a path.

ghost use Rattle.std.specs.Prelude.{◌≡◌, List, ℕ, true, IfOk, IfErr};
ghost use Rattle.rpki_cert.specs.Cert.{CertParts};
ghost use Rattle.rpki_cert.specs.View.{IsCertAt};
ghost use Rattle.rpki_cert.specs.KnownView.{AreKnown};
ghost use Rattle.rpki_cert.specs.Profile.{HasProfile};
ghost use Rattle.rpki_c.specs.CertificateProfile.{IsRefusedAs};
ghost use Rattle.rpki_c.specs.Issued.{IsToldSigned};
ghost use Rattle.rpki_c.specs.Moments.{IsToldOf};
ghost use Rattle.rpki_c.specs.Below.{Then, IsIssuedTold, IsListedBy, IsBelowTold, TestsBelow};

use crate::authority::Authority;
use crate::certificate_of_profile::check_number;
use crate::issued::{key_of, test_names};
use crate::periods::told_of;
use crate::status::{CONTENT, NO_ISSUER, NO_LIST, OTHER_KEY, REVOKED};
use crate::time_writing::time_of;
use crate::verification::verified;
use rpki_cert::{CertView, KnownView, Profile, is_identifier};
use rpki_crl::entries_contain;
use rpki_time::{Serial, Time};

/// Whether the certificate names its own key (RFC 6487 4.8.2), and the key of the other has signed it.
fn signed_told(cert: &CertView<'_>, known: &KnownView, issuer: &CertView<'_>) -> u8
    ensures { (s t : List ℕ) (x y : CertParts) → IsCertAt s cert.now x → IsCertAt t issuer.now y
        → IsToldSigned x y known.now result }
{
    if !is_identifier(known.subject_key_identifier, key_of(cert)) {
        return OTHER_KEY;
    }
    verified(
        &issuer.tbs.named.keyed.key,
        cert.parts.signed.octets,
        cert.parts.signature.octets,
    )
}

/// Whether the other has signed the certificate, and whether its period holds at the time.
fn signed_at(cert: &CertView<'_>, known: &KnownView, issuer: &CertView<'_>, time: Time) -> u8
    ensures { (s t : List ℕ) (x y : CertParts) → IsCertAt s cert.now x → IsCertAt t issuer.now y
        → Then (IsToldSigned x y known.now) (IsToldOf x.tbs.validity time) result }
{
    let status = signed_told(cert, known, issuer);
    if status != 0 {
        return status;
    }
    told_of(cert.tbs.named.validity, time)
}

/// Whether the other has issued the certificate, valid at the time.
fn issued_told(cert: &CertView<'_>, known: &KnownView, issuer: &CertView<'_>, time: Time) -> u8
    ensures { (s t : List ℕ) (x y : CertParts) → IsCertAt s cert.now x → IsCertAt t issuer.now y
        → IsIssuedTold x known.now y time result }
{
    match test_names(cert, known, issuer) {
        Ok(()) => signed_at(cert, known, issuer, time),
        Err(status) => status,
    }
}

/// Whether the authority has a manifest, without which nothing that it issues is valid (RFC 9286 6.2).
pub(crate) fn has_manifest(by: &Authority<'_>) -> bool
    ensures { result ≡ by.now.has_manifest }
{
    by.has_manifest
}

/// Whether the authority's list has an entry of this serial number.
fn listed_told(by: &Authority<'_>, serial: Serial) -> u8
    ensures { IsListedBy by.now serial result }
{
    if !by.has_list {
        return NO_LIST;
    }
    match entries_contain(by.revoked_certs.octets, serial) {
        Ok(true) => REVOKED,
        Ok(false) => 0,
        Err(e) => e.number(),
    }
}

/// Whether the other, which is the authority's certificate, has issued this one, and the list doesn't have it.
fn unrevoked_told(
    by: &Authority<'_>,
    cert: &CertView<'_>,
    known: &KnownView,
    issuer: &CertView<'_>,
    time: Time,
) -> u8
    ensures { (s t : List ℕ) (x y : CertParts) → IsCertAt s cert.now x → IsCertAt t issuer.now y
        → Then (IsIssuedTold x known.now y time) (IsListedBy by.now x.tbs.serial) result }
{
    let status = issued_told(cert, known, issuer, time);
    if status != 0 {
        return status;
    }
    listed_told(by, cert.tbs.serial_number)
}

/// Whether the authority has issued the certificate, valid at the moment of the path, and its list doesn't have it.
fn below_told(by: &Authority<'_>, cert: &CertView<'_>, known: &KnownView) -> u8
    ensures { (s : List ℕ) (x : CertParts) → IsCertAt s cert.now x → IsBelowTold by.now x known.now result }
{
    let issuer = match CertView::read(by.certificate.octets) {
        Ok(issuer) => issuer,
        Err(_) => return NO_ISSUER,
    };
    match time_of(&by.moment) {
        Some(time) => unrevoked_told(by, cert, known, &issuer, time),
        None => CONTENT,
    }
}

/// Tests the certificate by the profile; says what its extensions say.
pub(crate) fn profiled(cert: &CertView<'_>, profile: Profile) -> Result<KnownView, u8>
    requires { (s : List ℕ) × (x : CertParts) × IsCertAt s cert.now x }
    ensures ok { IfOk result (λ known. (s : List ℕ) (x : CertParts) → IsCertAt s cert.now x
        → AreKnown x.tbs.extensions known × HasProfile profile true x.tbs) }
    ensures err { IfErr result (λ status. (s : List ℕ) (x : CertParts) → IsCertAt s cert.now x
        → IsRefusedAs s profile true status) }
{
    match cert.check(profile, true) {
        Ok(known) => Ok(known),
        Err(error) => Err(check_number(error)),
    }
}

/// Tests that the certificate has the profile, that the authority has issued it, valid at the moment of the path, and
/// that its list doesn't have it (RFC 6487 7.2); says what its extensions say. Nothing is allocated.
///
/// The error is, in this order: as the status of `rpki_certificate_extensions`; as that of `rpki_certificate_inspect`;
/// `NO_ISSUER`, where the authority's certificate is none; `CONTENT`, where the years 0 to 9999 have no such time as
/// its moment; `OTHER_ISSUER`; `OTHER_AUTHORITY`; `OTHER_KEY`; `KEY_NOT_ACCEPTED` or `BAD_SIGNATURE`, as of
/// `rpki_verify`; `TOO_NEW`; `TOO_OLD`; `NO_LIST`; as of `rpki_crl_contains`, where its list is none; `REVOKED`.
pub(crate) fn below(
    by: &Authority<'_>,
    cert: &CertView<'_>,
    profile: Profile,
) -> Result<KnownView, u8>
    requires { (s : List ℕ) × (x : CertParts) × IsCertAt s cert.now x }
    ensures { (s : List ℕ) (x : CertParts) → IsCertAt s cert.now x → TestsBelow profile by.now s x result }
{
    let known = match profiled(cert, profile) {
        Ok(known) => known,
        Err(status) => return Err(status),
    };
    let status = below_told(by, cert, &known);
    if status != 0 {
        return Err(status);
    }
    Ok(known)
}
