//! How a certificate violates a profile.

ghost use Rattle.std.specs.Prelude.{◌≡◌, IfOk, string_bytes};
ghost use Rattle.rpkicert.specs.Violation.{has_section, part_text, violation_text};

use rpki::repository::error::ValidationError;
use rpki_cert::CertRule;
use std::alloc::{AllocError, Global};

/// A rule of a profile that a certificate breaks, and how.
#[derive(Clone, Copy, Debug)]
pub struct Violation {
    /// The rule.
    pub rule: CertRule,
    /// The error.
    pub error: ValidationError,
}

/// The section of a rule on a name, or on an extension that has to be there, and which it is. Other rules have none:
/// their texts say both.
fn part_text(rule: CertRule) -> &'static str
    ensures { result.now ≡ part_text rule }
{
    match rule {
        CertRule::Issuer => "RFC 6487 4.4: issuer: ",
        CertRule::Subject => "RFC 6487 4.5: subject: ",
        CertRule::RouterSubject => "RFC 8209 3.1.1: subject: ",
        CertRule::BasicConstraints => "RFC 6487 4.8.1: basic constraints: ",
        CertRule::SubjectKeyIdentifier => "RFC 6487 4.8.2: subject key identifier: ",
        CertRule::AuthorityKeyIdentifier => "RFC 6487 4.8.3: authority key identifier: ",
        CertRule::OwnAuthority => "RFC 6487 4.8.3: authority key identifier: ",
        CertRule::AuthorityUsage => "RFC 6487 4.8.4: key usage: ",
        CertRule::EndUsage => "RFC 6487 4.8.4: key usage: ",
        CertRule::RouterPurpose => "RFC 8209 3.1.3.2: extended key usage: ",
        CertRule::RevocationList => "RFC 6487 4.8.6: CRL distribution points: ",
        CertRule::IssuerCertificate => "RFC 6487 4.8.7: authority information access: ",
        CertRule::Repository => "RFC 6487 4.8.8.1: subject information access: ",
        CertRule::Manifest => "RFC 6487 4.8.8.1: subject information access: ",
        CertRule::SignedObject => "RFC 6487 4.8.8.2: subject information access: ",
        CertRule::CertificatePolicies => "RFC 6487 4.8.9: certificate policies: ",
        CertRule::ResourceVersion => "RFC 6487 4.8.9: certificate policies: ",
        _ => "",
    }
}

/// Whether the text begins with a section, as those of rules do.
pub fn has_section(text: &[u8]) -> bool
    ensures { result ≡ has_section text.now }
{
    text.starts_with(b"RFC ") || text.starts_with(b"draft-")
}

impl Violation {
    /// What a person reads of it: the section of the rule, and what is wrong. The text of a rule has both; the error of
    /// a name, or of an extension that is malformed or not as critical as it has to be, has neither, and is put after
    /// the section and what it is the error of.
    ///
    /// Returns `AllocError` if allocation fails.
    pub fn text(self, alloc: Global) -> Result<String, AllocError>
        ensures { IfOk result (λ text. string_bytes text ≡ violation_text self) }
    {
        let error = self.error;
        let said = format!(in alloc; "{error}")?;
        if has_section(said.as_bytes()) {
            return Ok(said);
        }
        let part = part_text(self.rule);
        format!(in alloc; "{part}{said}")
    }
}
