//! Certificates, checked against a profile.

ghost use Rattle.std.specs.Prelude.{◌≡◌, ◌<◌, IfSome, IfNone};
ghost use Rattle.rpki_c.specs.CertificateProfile.{cert_rule_number, profile_number, IsInspectedAs};
ghost use Rattle.rpki_c.specs.CertificateProfile.{IsCertificateInspected};

use crate::certificate::part_number;
use crate::status::NO_PROFILE;
use rpki_cert::{CertRule, CertView, Profile};

/// How a rule is passed.
pub(crate) fn cert_rule_number(rule: CertRule) -> u8
    ensures { result ≡ cert_rule_number rule }
{
    match rule {
        CertRule::SerialNumber => 85,
        CertRule::CriticalExtensions => 86,
        CertRule::Issuer => 87,
        CertRule::Subject => 88,
        CertRule::RouterSubject => 89,
        CertRule::RsaKey => 90,
        CertRule::RouterKey => 91,
        CertRule::BasicConstraints => 92,
        CertRule::NoBasicConstraints => 93,
        CertRule::SubjectKeyIdentifier => 94,
        CertRule::AuthorityKeyIdentifier => 95,
        CertRule::AuthorityUsage => 96,
        CertRule::EndUsage => 97,
        CertRule::NoExtendedKeyUsage => 98,
        CertRule::RouterPurpose => 99,
        CertRule::RevocationList => 100,
        CertRule::NoRevocationList => 101,
        CertRule::IssuerCertificate => 102,
        CertRule::NoIssuerCertificate => 103,
        CertRule::Repository => 104,
        CertRule::Manifest => 105,
        CertRule::SignedObject => 106,
        CertRule::NoSubjectAccess => 107,
        CertRule::CertificatePolicies => 108,
        CertRule::Resources => 109,
        CertRule::RouterNumbers => 110,
        CertRule::ObjectAccess => 111,
        CertRule::Validity => 112,
        CertRule::OwnAuthority => 113,
        CertRule::SelfIssued => 114,
        CertRule::ResourceVersion => 115,
        CertRule::ResourceBlocks => 116,
        CertRule::OwnResources => 117,
        CertRule::ManifestPlace => 118,
        CertRule::Notifications => 119,
        CertRule::IssuerSize => 156,
        CertRule::SubjectSize => 157,
        CertRule::RouterSerialNumber => 158,
    }
}

/// The profile of this number.
pub(crate) fn profile_of(number: u8) -> Option<Profile>
    ensures some { IfSome result (λ p. number ≡ profile_number p) }
    ensures none { IfNone result (4 < number) }
{
    match number {
        0 => Some(Profile::Ta),
        1 => Some(Profile::Ca),
        2 => Some(Profile::Ee),
        3 => Some(Profile::Router),
        4 => Some(Profile::DetachedEe),
        _ => None,
    }
}

/// Reads a resource certificate, and tests it by the profile; returns the status.
fn inspect(octets: &[u8], profile: Profile, strict: bool) -> u8
    ensures { IsInspectedAs octets.now profile strict result }
{
    match CertView::read(octets) {
        Ok(found) => match found.test(profile, strict) {
            Ok(()) => 0,
            Err(rule) => cert_rule_number(rule),
        },
        Err(wrong) => part_number(wrong.part),
    }
}

/// Reads a resource certificate, and tests it by the profile of this number (RFC 6487 4, RFC 8209 3.1, RFC 9323 2): 0
/// is that of trust anchors, 1 that of certification authorities, 2 that of end entities that sign an object, 3 that of
/// BGPsec routers, 4 that of end entities without subject information access. The names are looked at if `strict`.
///
/// The status is 0; 85 to 119 and 156 to 158 where the certificate is not of the profile, by the rule that it breaks
/// first; 64 to 79 where the octets are no certificate, as that of [crate::certificate::rpki_certificate]; 12 for
/// another number of a profile, before the octets are looked at. Nothing is allocated.
#[unsafe(no_mangle)]
pub extern "C" fn rpki_certificate_inspect(octets: &[u8], profile: u8, strict: bool) -> u8
    ensures { IsCertificateInspected octets.now profile strict result }
{
    match profile_of(profile) {
        Some(profile) => inspect(octets, profile, strict),
        None => NO_PROFILE,
    }
}
