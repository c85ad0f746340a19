//! The rules of the profiles of certificates, and the errors of certificates that break them.

ghost use Rattle.std.specs.Prelude.{◌≡◌};
ghost use Rattle.rpki_der.specs.ErrorText.{text_of};
ghost use Rattle.rpki.specs.ErrorContent.{content_of};
ghost use Rattle.rpki_cert.specs.Rule.{rule_text};

use rpki::der::ContentError;
use rpki::repository::error::InspectionError;

/// A rule of a profile of certificates (RFC 6487 4, RFC 8209 3.1).
#[derive(Clone, Copy, Debug, PartialEq, Eq)]
pub enum CertRule {
    /// The serial number is positive (RFC 5280 4.1.2.2).
    SerialNumber,
    /// Every critical extension is a known one (RFC 5280 4.2).
    CriticalExtensions,
    /// The issuer has a name of the RPKI (RFC 6487 4.4).
    Issuer,
    /// Each value of the issuer's name is a string of 1 to 64 characters (RFC 5280 A.1).
    IssuerSize,
    /// The period ends no earlier than it begins (RFC 5280 4.1.2.5, RFC 6487 4.6).
    Validity,
    /// The subject has a name of the RPKI (RFC 6487 4.5).
    Subject,
    /// The subject has a name of a router (RFC 8209 3.1.1).
    RouterSubject,
    /// Each value of the subject's name is a string of 1 to 64 characters (RFC 5280 A.1).
    SubjectSize,
    /// The serial number of a router's name is a PrintableString (RFC 8209 3.1.1).
    RouterSerialNumber,
    /// The subject's key is an RSA key with a modulus of 2,048 bits and the exponent 65537, and no bit is unused
    /// (RFC 7935 3).
    RsaKey,
    /// The subject's key is a P-256 key: 65 octets that begin with 04, and no bit is unused (RFC 8608 3.1, RFC 5480
    /// 2.2).
    RouterKey,
    /// The basic constraints are there, critical, with cA TRUE and without a length of paths (RFC 6487 4.8.1).
    BasicConstraints,
    /// There are no basic constraints (RFC 6487 4.8.1).
    NoBasicConstraints,
    /// The subject key identifier is there, and not critical (RFC 6487 4.8.2).
    SubjectKeyIdentifier,
    /// The authority key identifier is there, and not critical (RFC 6487 4.8.3).
    AuthorityKeyIdentifier,
    /// The authority key identifier of a trust anchor is left out; or it is not critical, and is the subject key
    /// identifier (RFC 6487 4.8.3).
    OwnAuthority,
    /// The issuer of a trust anchor is its subject (RFC 8630 2.3, RFC 5280 3.2).
    SelfIssued,
    /// The key usage is there, critical, and is that of a certification authority (RFC 6487 4.8.4).
    AuthorityUsage,
    /// The key usage is there, critical, and is that of an end entity (RFC 6487 4.8.4).
    EndUsage,
    /// There is no extended key usage (RFC 6487 4.8.5).
    NoExtendedKeyUsage,
    /// The extended key usage is there, not critical, and has the purpose of a router (RFC 8209 3.1.3.2).
    RouterPurpose,
    /// The URI of the revocation list is there (RFC 6487 4.8.6).
    RevocationList,
    /// There are no CRL distribution points (RFC 6487 4.8.6).
    NoRevocationList,
    /// The URI of the issuer's certificate is there (RFC 6487 4.8.7).
    IssuerCertificate,
    /// There is no authority information access (RFC 6487 4.8.7).
    NoIssuerCertificate,
    /// The URI of the repository is there (RFC 6487 4.8.8.1).
    Repository,
    /// The URI of the manifest is there (RFC 6487 4.8.8.1).
    Manifest,
    /// The URI of the manifest lies below that of the repository, whose objects it lists (RFC 6487 4.8.8.1, RFC 9286
    /// 2).
    ManifestPlace,
    /// The URI of the signed object is there (RFC 6487 4.8.8.2).
    SignedObject,
    /// The subject information access is there, of no method but those of the signed object and of the repository's
    /// notifications (RFC 6487 4.8.8.2, RFC 8182 3.2).
    ObjectAccess,
    /// The subject information access is there, and tells where changes of the repository are by https URIs alone
    /// (RFC 8182 3.2).
    Notifications,
    /// There is no subject information access (RFC 8209 3.1.3.3, RFC 9323 2).
    NoSubjectAccess,
    /// The certificate policies are there, critical, and exactly one of the RPKI (RFC 6487 4.8.9).
    CertificatePolicies,
    /// Addresses or numbers of autonomous systems are there, each critical (RFC 6487 4.8.10, 4.8.11).
    Resources,
    /// Policy and resources are of one version: with the policy of RFC 6484 only the extensions of RFC 3779, with that
    /// of RFC 8360 only the extensions of RFC 8360 (RFC 8360 4.2).
    ResourceVersion,
    /// Addresses and numbers, where they are there, are in canonical form, without a SAFI and without routing domain
    /// identifiers (RFC 3779 2.2.3, 3.2.3, RFC 6487 4.8.10, 4.8.11).
    ResourceBlocks,
    /// No resources are those of the issuer (RFC 8630 2.3, RFC 8209 3.1.3.5).
    OwnResources,
    /// Numbers of autonomous systems are there, and no addresses (RFC 8209 3.1.3.4, 3.1.3.5).
    RouterNumbers,
}

impl CertRule {
    /// The text of a certificate that breaks the rule.
    fn text(self) -> &'static str
        ensures { result.now ≡ rule_text self }
    {
        match self {
            CertRule::SerialNumber => "RFC 5280 4.1.2.2: serial number is 0",
            CertRule::CriticalExtensions => "RFC 5280 4.2: unknown critical extension",
            CertRule::Issuer => "RFC 6487 4.4: issuer has no name of the RPKI",
            CertRule::IssuerSize =>
                "RFC 5280 A.1: value of the issuer is not of 1 to 64 characters",
            CertRule::Validity => "RFC 5280 4.1.2.5: period ends before it begins",
            CertRule::Subject => "RFC 6487 4.5: subject has no name of the RPKI",
            CertRule::RouterSubject => "RFC 8209 3.1.1: subject has no name of a router",
            CertRule::SubjectSize =>
                "RFC 5280 A.1: value of the subject is not of 1 to 64 characters",
            CertRule::RouterSerialNumber => {
                "RFC 8209 3.1.1: serial number of the subject is no PrintableString"
            }
            CertRule::RsaKey => "RFC 7935 3: key is no RSA key of 2048 bits and the exponent 65537",
            CertRule::RouterKey => "RFC 8608 3.1: key is no uncompressed point on P-256",
            CertRule::BasicConstraints => "RFC 6487 4.8.1: missing basic constraints",
            CertRule::NoBasicConstraints => "RFC 6487 4.8.1: basic constraints of an end entity",
            CertRule::SubjectKeyIdentifier => "RFC 6487 4.8.2: missing subject key identifier",
            CertRule::AuthorityKeyIdentifier => "RFC 6487 4.8.3: missing authority key identifier",
            CertRule::OwnAuthority => {
                "RFC 6487 4.8.3: authority key identifier of a trust anchor is not its own"
            }
            CertRule::SelfIssued => "RFC 8630 2.3: issuer of a trust anchor is not its subject",
            CertRule::AuthorityUsage | CertRule::EndUsage =>
                "RFC 6487 4.8.4: missing or another key usage",
            CertRule::NoExtendedKeyUsage => {
                "RFC 6487 4.8.5: extended key usage of a key of the RPKI"
            }
            CertRule::RouterPurpose => "RFC 8209 3.1.3.2: missing purpose of a router",
            CertRule::RevocationList => "RFC 6487 4.8.6: missing URI of the revocation list",
            CertRule::NoRevocationList => {
                "RFC 6487 4.8.6: CRL distribution points of a trust anchor"
            }
            CertRule::IssuerCertificate => {
                "RFC 6487 4.8.7: missing URI of the issuer's certificate"
            }
            CertRule::NoIssuerCertificate => {
                "RFC 6487 4.8.7: authority information access of a trust anchor"
            }
            CertRule::Repository => "RFC 6487 4.8.8.1: missing URI of the repository",
            CertRule::Manifest => "RFC 6487 4.8.8.1: missing URI of the manifest",
            CertRule::ManifestPlace => {
                "RFC 6487 4.8.8.1, RFC 9286 2: manifest is not in the repository"
            }
            CertRule::SignedObject => "RFC 6487 4.8.8.2: missing URI of the signed object",
            CertRule::ObjectAccess => "RFC 6487 4.8.8.2: other access method of an end entity",
            CertRule::Notifications => "RFC 8182 3.2: notifications without an https URI",
            CertRule::NoSubjectAccess => "RFC 8209 3.1.3.3, RFC 9323 2: subject information access",
            CertRule::CertificatePolicies => "RFC 6487 4.8.9: missing certificate policies",
            CertRule::Resources => {
                "RFC 6487 4.8.10, 4.8.11: missing resources, or ones that are not critical"
            }
            CertRule::ResourceVersion => "RFC 8360 4.2: policy and resources of two versions",
            CertRule::ResourceBlocks => {
                "RFC 6487 4.8.10, 4.8.11: resources that are not in canonical form"
            }
            CertRule::OwnResources => "RFC 8630 2.3, RFC 8209 3.1.3.5: resources of the issuer",
            CertRule::RouterNumbers => {
                "RFC 8209 3.1.3.4, 3.1.3.5: missing numbers, or addresses are there"
            }
        }
    }

    /// The error of a certificate that breaks the rule.
    pub(crate) fn error(self) -> InspectionError
        ensures { text_of (content_of result) ≡ rule_text self }
    {
        InspectionError::new(ContentError::from_static(self.text()))
    }
}
