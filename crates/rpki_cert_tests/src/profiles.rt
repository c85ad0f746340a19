//! Which rule of a profile a certificate breaks first (RFC 6487 4, RFC 8209 3.1, RFC 9323 2).

use crate::certificates::{ANCHOR, AUTHORITY, BARE, DETACHED, ROUTER, SIGNER};
use bytes::Bytes;
use rpki_cert::{Cert, CertRule, CertView, CheckError, Profile};
use rpki_der_tests::changed::changed;
use rpki_der_tests::rows;
use std::test::Fail;

/// A name; a certificate, octets in it and those in their place; a profile, and whether names are checked against it;
/// and the rule that is broken first.
const ROWS: &[(&str, &str, &str, &str, Profile, bool, Option<CertRule>)] = &rows! {
    ("a trust anchor", ANCHOR, "", "", Profile::Ta, true, None),
    ("an authority", AUTHORITY, "", "", Profile::Ca, true, None),
    ("a signer", SIGNER, "", "", Profile::Ee, true, None),
    ("a signer of what is in no repository", DETACHED, "", "", Profile::DetachedEe, true, None),
    ("a router", ROUTER, "", "", Profile::Router, true, None),
    ("serial number 0", AUTHORITY, "020107300d", "020100300d", Profile::Ca, true, Some(CertRule::SerialNumber)),
    ("an unknown extension that is critical", AUTHORITY, "0603551d0f0101ff", "0603551d7f0101ff", Profile::Ca, true,
     Some(CertRule::CriticalExtensions)),
    ("an issuer by UTF-8", AUTHORITY, "060355040313027461", "06035504030c027461", Profile::Ca, true,
     Some(CertRule::Issuer)),
    ("an issuer by UTF-8, lax", AUTHORITY, "060355040313027461", "06035504030c027461", Profile::Ca, false, None),
    ("a period that ends in 2025", AUTHORITY, "170d333630313031", "170d323530313031", Profile::Ca, true,
     Some(CertRule::Validity)),
    ("no subject key identifier", AUTHORITY, "0603551d0e", "0603551d7f", Profile::Ca, true,
     Some(CertRule::SubjectKeyIdentifier)),
    ("a subject key identifier with an octet after it", AUTHORITY, "04160414", "04160413", Profile::Ca, true,
     Some(CertRule::SubjectKeyIdentifier)),
    ("another policy", AUTHORITY, "2b06010505070e02", "2b06010505070e04", Profile::Ca, true,
     Some(CertRule::CertificatePolicies)),
    ("no resources", BARE, "", "", Profile::Ca, true, Some(CertRule::Resources)),
    ("addresses of the other version", AUTHORITY, "2b06010505070107", "2b0601050507011c", Profile::Ca, true,
     Some(CertRule::ResourceVersion)),
    ("numbers twice", AUTHORITY, "020300fbf2", "020300fbf0", Profile::Ca, true, Some(CertRule::ResourceBlocks)),
    ("a subject by UTF-8", AUTHORITY, "060355040313026361", "06035504030c026361", Profile::Ca, true,
     Some(CertRule::Subject)),
    ("a subject by UTF-8, lax", AUTHORITY, "060355040313026361", "06035504030c026361", Profile::Ca, false, None),
    ("the exponent 65539", AUTHORITY, "0203010001", "0203010003", Profile::Ca, true, Some(CertRule::RsaKey)),
    ("an extended key usage", AUTHORITY, "0603551d1f", "0603551d25", Profile::Ca, true,
     Some(CertRule::NoExtendedKeyUsage)),
    ("constraints of FALSE", AUTHORITY, "30030101ff", "3003010100", Profile::Ca, true,
     Some(CertRule::BasicConstraints)),
    ("a signer with constraints", SIGNER, "0603551d1f", "0603551d13", Profile::Ee, true,
     Some(CertRule::NoBasicConstraints)),
    ("an authority with the usage of a signer", AUTHORITY, "03020106", "03020780", Profile::Ca, true,
     Some(CertRule::AuthorityUsage)),
    ("a signer with the usage of an authority", SIGNER, "03020780", "03020106", Profile::Ee, true,
     Some(CertRule::EndUsage)),
    ("no authority key identifier", AUTHORITY, "0603551d23", "0603551d7f", Profile::Ca, true,
     Some(CertRule::AuthorityKeyIdentifier)),
    ("no revocation list", AUTHORITY, "0603551d1f", "0603551d7f", Profile::Ca, true, Some(CertRule::RevocationList)),
    ("a trust anchor with a revocation list", AUTHORITY, "", "", Profile::Ta, true, Some(CertRule::NoRevocationList)),
    ("a trust anchor with a certificate of its issuer", AUTHORITY, "0603551d1f", "0603551d7f", Profile::Ta, true,
     Some(CertRule::NoIssuerCertificate)),
    ("no certificate of the issuer", AUTHORITY, "2b06010505070101", "2b0601050507017f", Profile::Ca, true,
     Some(CertRule::IssuerCertificate)),
    ("no repository", AUTHORITY, "2b06010505073005", "2b0601050507300f", Profile::Ca, true, Some(CertRule::Repository)),
    ("no manifest", AUTHORITY, "2b0601050507300a", "2b0601050507300f", Profile::Ca, true, Some(CertRule::Manifest)),
    ("a manifest beside the repository", AUTHORITY, "63612f63612e6d6674", "63622f63612e6d6674", Profile::Ca, true,
     Some(CertRule::ManifestPlace)),
    ("notifications by rsync", ANCHOR, "68747470733a2f2f", "7273796e633a2f2f", Profile::Ta, true,
     Some(CertRule::Notifications)),
    ("no signed object", SIGNER, "2b0601050507300b", "2b0601050507300f", Profile::Ee, true,
     Some(CertRule::SignedObject)),
    ("a signer as one of what is in no repository", SIGNER, "", "", Profile::DetachedEe, true,
     Some(CertRule::NoSubjectAccess)),
    ("a trust anchor of another issuer", ANCHOR, "13027461301e", "13027462301e", Profile::Ta, true,
     Some(CertRule::SelfIssued)),
    ("a router by IA5", ROUTER, "0603550403130f", "0603550403160f", Profile::Router, true,
     Some(CertRule::RouterSubject)),
    ("a router by IA5, lax", ROUTER, "0603550403130f", "0603550403160f", Profile::Router, false, None),
    ("a compressed point", ROUTER, "03420004", "03420002", Profile::Router, true, Some(CertRule::RouterKey)),
    ("a purpose that is no router's", ROUTER, "2b0601050507031e", "2b0601050507031d", Profile::Router, true,
     Some(CertRule::RouterPurpose)),
};

/// What a test found of a certificate.
#[derive(Clone, Copy, Debug, PartialEq)]
enum Outcome {
    /// It has the profile.
    Obeyed,
    /// It breaks this rule first.
    Broken(CertRule),
    /// It is no certificate, or can't be changed so.
    Refused,
}

/// The outcome of a test.
fn outcome_of(tested: Result<(), CertRule>) -> Outcome {
    match tested {
        Ok(()) => Outcome::Obeyed,
        Err(rule) => Outcome::Broken(rule),
    }
}

/// What is found of the certificate where it is kept.
fn kept(cert: &Cert, profile: Profile, strict: bool) -> Outcome {
    outcome_of(cert.tbs().test(profile, strict))
}

/// What is found of it in place.
fn in_place(octets: &[u8], profile: Profile, strict: bool) -> Outcome {
    match CertView::read(octets) {
        Ok(cert) => outcome_of(cert.test(profile, strict)),
        Err(_) => Outcome::Refused,
    }
}

/// What is found of it by one rule after another.
fn one_by_one(cert: &Cert, profile: Profile, strict: bool) -> Outcome {
    for rule in profile.rules() {
        if cert.tbs().inspect_rule(strict, *rule).is_err() {
            return Outcome::Broken(*rule);
        }
    }
    Outcome::Obeyed
}

/// Whether a check at once comes to the same, where no extension is malformed.
fn is_checked(octets: &[u8], profile: Profile, strict: bool, wanted: Outcome) -> bool {
    match CertView::read(octets) {
        Ok(cert) => match cert.check(profile, strict) {
            Ok(_) => wanted == Outcome::Obeyed,
            Err(CheckError::Rule(rule)) => wanted == Outcome::Broken(rule),
            Err(CheckError::Extension(_)) => wanted != Outcome::Obeyed,
        },
        Err(_) => false,
    }
}

#[test]
fn each_rule_is_asked(rt: HostRuntime) -> Result<(), Fail> {
    for (name, text, from, to, profile, strict, rule) in ROWS {
        let octets = changed(rt.alloc(), text, &[(*from, *to)])?.unwrap_or(Vec::new(rt.alloc()));
        let bytes = Bytes::copy_from_slice(rt.alloc(), octets.as_slice())?;
        let cert = Cert::decode(rt.alloc(), bytes).ok();
        let (profile, strict) = (*profile, *strict);
        let wanted = rule.map_or(Outcome::Obeyed, Outcome::Broken);
        let seen = in_place(octets.as_slice(), profile, strict);
        let checked = is_checked(octets.as_slice(), profile, strict, wanted);
        let found = cert.as_ref().map(|cert| kept(cert, profile, strict));
        assert_eq!(rt; found, Some(wanted), "{name}");
        let found = cert.as_ref().map(|cert| one_by_one(cert, profile, strict));
        assert_eq!(rt; found, Some(wanted), "{name}, by one rule");
        assert_eq!(rt; seen, wanted, "{name}, in place");
        assert!(rt; checked, "{name}, at once");
    }
    Ok(())
}

/// Every profile.
const PROFILES: &[Profile] = &rows! {
    Profile::Ta, Profile::Ca, Profile::Ee, Profile::DetachedEe, Profile::Router
};

#[test]
fn each_profile_begins_alike(rt: HostRuntime) -> Result<(), Fail> {
    for profile in PROFILES {
        let rules = profile.rules();
        assert_eq!(rt; rules[0], CertRule::SerialNumber, "{profile:?}");
        assert_eq!(rt; rules[9], CertRule::ResourceBlocks, "{profile:?}");
    }
    Ok(())
}
