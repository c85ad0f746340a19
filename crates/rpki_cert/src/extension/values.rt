//! What the extensions of a certificate say, each of them read once (RFC 6487 4.8).

ghost use Rattle.std.specs.Prelude.{List, IfOk, IfErr};
ghost use Rattle.rpki.specs.ExtensionValue.{ExtensionParts};
ghost use Rattle.rpki_cert.specs.Inspected.{AreIn, AreValues};
ghost use Rattle.rpki_cert.specs.KnownView.{AreKnown, IsFirstWrong};

use crate::extension::accessors::{constraints_in, said};
use crate::extension::contents::{AuthorityContent, PoliciesContent, SubjectContent, UsageContent};
use crate::extension::key_usage::KeyUsage;
use crate::extension::kind::ExtensionKind;
use crate::extension::known_part::KnownPart;
use crate::extension::known_view::KnownView;
use crate::extension::policy::Overclaim;
use crate::extension::source::ExtensionSource;
use rpki::crypto::KeyIdentifier;
use rpki::repository::error::ValidationError;

/// What the basic constraints, both key identifiers, the key usage and the policy say; or the error of one that is
/// malformed, or not as critical as it has to be.
#[derive(Clone, Copy)]
pub(crate) struct ExtensionValues {
    /// Whether the subject is a certification authority (RFC 6487 4.8.1).
    pub(crate) ca: Result<bool, ValidationError>,
    /// The identifier of the subject's key, where the extension is there (RFC 6487 4.8.2).
    pub(crate) subject_key_identifier: Result<Option<KeyIdentifier>, ValidationError>,
    /// The identifier of the issuer's key, where the extension is there (RFC 6487 4.8.3).
    pub(crate) authority_key_identifier: Result<Option<KeyIdentifier>, ValidationError>,
    /// What the subject's key may be used for, where the extension is there (RFC 6487 4.8.4).
    pub(crate) key_usage: Result<Option<KeyUsage>, ValidationError>,
    /// What the policy says, where the extension is there (RFC 6487 4.8.9, RFC 8360 4.2.1).
    pub(crate) overclaim: Result<Option<Overclaim>, ValidationError>,
}

impl ExtensionValues {
    /// What these extensions say.
    pub(crate) fn of(all: &ExtensionSource<'_>) -> ExtensionValues
        ensures { (xs : List ExtensionParts) → AreIn xs all.now → AreValues xs result }
    {
        ExtensionValues {
            ca: constraints_in(all.find(ExtensionKind::BasicConstraints)),
            subject_key_identifier: said::<SubjectContent>(all.find(
                ExtensionKind::SubjectKeyIdentifier,
            )),
            authority_key_identifier: said::<AuthorityContent>(all.find(
                ExtensionKind::AuthorityKeyIdentifier,
            )),
            key_usage: said::<UsageContent>(all.find(ExtensionKind::KeyUsage)),
            overclaim: said::<PoliciesContent>(all.find(ExtensionKind::CertificatePolicies)),
        }
    }

    /// What all five say.
    ///
    /// The error is an extension that is there, but malformed, or not as critical as it has to be: the first of them.
    pub(crate) fn known(&self) -> Result<KnownView, KnownPart>
        ensures ok { IfOk result (λ v. (xs : List ExtensionParts) → AreValues xs self.now → AreKnown xs v) }
        ensures err { IfErr result (λ q. (xs : List ExtensionParts) → AreValues xs self.now → IsFirstWrong xs q) }
    {
        let Ok(ca) = self.ca else {
            return Err(KnownPart::BasicConstraints);
        };
        let Ok(subject_key_identifier) = self.subject_key_identifier else {
            return Err(KnownPart::SubjectKeyIdentifier);
        };
        let Ok(authority_key_identifier) = self.authority_key_identifier else {
            return Err(KnownPart::AuthorityKeyIdentifier);
        };
        let Ok(key_usage) = self.key_usage else {
            return Err(KnownPart::KeyUsage);
        };
        let Ok(overclaim) = self.overclaim else {
            return Err(KnownPart::CertificatePolicies);
        };
        Ok(KnownView {
            ca,
            subject_key_identifier,
            authority_key_identifier,
            key_usage,
            overclaim,
        })
    }
}
