//! A signer that was told the signature, and why nothing is issued, as a word.

use bytes::Bytes;
use rpki_cert::CertRule;
use rpki_issue::{IssueError, Signer, SigningError};

/// Returns a signature that someone else made, of whatever.
#[derive(Drop)]
pub struct Told {
    pub signature: Bytes,
}

impl Signer for Told {
    type Error = &'static str;

    fn sign(&mut self, _message: &[u8]) -> Result<Bytes, &'static str> {
        match self.signature.clone() {
            Ok(signature) => Ok(signature),
            Err(_) => Err("OutOfMemory"),
        }
    }
}

/// The name of a rule.
fn rule_name(rule: CertRule) -> &'static str {
    match rule {
        CertRule::SerialNumber => "Rule SerialNumber",
        CertRule::CriticalExtensions => "Rule CriticalExtensions",
        CertRule::Issuer => "Rule Issuer",
        CertRule::IssuerSize => "Rule IssuerSize",
        CertRule::Validity => "Rule Validity",
        CertRule::Subject => "Rule Subject",
        CertRule::RouterSubject => "Rule RouterSubject",
        CertRule::SubjectSize => "Rule SubjectSize",
        CertRule::RouterSerialNumber => "Rule RouterSerialNumber",
        CertRule::RsaKey => "Rule RsaKey",
        CertRule::RouterKey => "Rule RouterKey",
        CertRule::BasicConstraints => "Rule BasicConstraints",
        CertRule::NoBasicConstraints => "Rule NoBasicConstraints",
        CertRule::SubjectKeyIdentifier => "Rule SubjectKeyIdentifier",
        CertRule::AuthorityKeyIdentifier => "Rule AuthorityKeyIdentifier",
        CertRule::OwnAuthority => "Rule OwnAuthority",
        CertRule::SelfIssued => "Rule SelfIssued",
        CertRule::AuthorityUsage => "Rule AuthorityUsage",
        CertRule::EndUsage => "Rule EndUsage",
        CertRule::NoExtendedKeyUsage => "Rule NoExtendedKeyUsage",
        CertRule::RouterPurpose => "Rule RouterPurpose",
        CertRule::RevocationList => "Rule RevocationList",
        CertRule::NoRevocationList => "Rule NoRevocationList",
        CertRule::IssuerCertificate => "Rule IssuerCertificate",
        CertRule::NoIssuerCertificate => "Rule NoIssuerCertificate",
        CertRule::Repository => "Rule Repository",
        CertRule::Manifest => "Rule Manifest",
        CertRule::ManifestPlace => "Rule ManifestPlace",
        CertRule::SignedObject => "Rule SignedObject",
        CertRule::ObjectAccess => "Rule ObjectAccess",
        CertRule::Notifications => "Rule Notifications",
        CertRule::NoSubjectAccess => "Rule NoSubjectAccess",
        CertRule::CertificatePolicies => "Rule CertificatePolicies",
        CertRule::Resources => "Rule Resources",
        CertRule::ResourceVersion => "Rule ResourceVersion",
        CertRule::ResourceBlocks => "Rule ResourceBlocks",
        CertRule::OwnResources => "Rule OwnResources",
        CertRule::RouterNumbers => "Rule RouterNumbers",
    }
}

/// The name of a refusal; of a rule that is broken, the rule's.
pub fn refusal(error: IssueError) -> &'static str {
    match error {
        IssueError::Uri => "Uri",
        IssueError::Period => "Period",
        IssueError::Doubled => "Doubled",
        IssueError::Resources => "Resources",
        IssueError::TooLong => "TooLong",
        IssueError::Rule(rule) => rule_name(rule),
        IssueError::ContentType => "ContentType",
        IssueError::Certificate => "Certificate",
        IssueError::BadSignature => "BadSignature",
        IssueError::OutOfMemory => "OutOfMemory",
    }
}

/// The same of both steps at once; the signer's own error as it is.
pub fn signing_refusal(error: SigningError<&'static str>) -> &'static str {
    match error {
        SigningError::Signer(text) => text,
        SigningError::Refused(error) => refusal(error),
    }
}
