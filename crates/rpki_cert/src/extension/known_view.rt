//! What the extensions of a certificate say, read in place without memory (RFC 6487 4.8).

ghost use Rattle.std.specs.Prelude.{IfOk, IfErr};
ghost use Rattle.rpki_cert.specs.ExtensionTable.{OfListed};
ghost use Rattle.rpki_cert.specs.KnownView.{AreKnown, IsFirstWrong};

use crate::extension::accessors::{constraints_in, said};
use crate::extension::contents::{AuthorityContent, PoliciesContent, SubjectContent, UsageContent};
use crate::extension::key_usage::KeyUsage;
use crate::extension::kind::ExtensionKind;
use crate::extension::known_part::KnownPart;
use crate::extension::policy::Overclaim;
use crate::extension::table::ExtensionTable;
use crate::extension::values::ExtensionValues;
use crate::read::fields::Keyed;
use rpki::crypto::KeyIdentifier;

/// What the extensions say that are read without memory.
#[derive(Clone, Copy)]
pub struct KnownView {
    /// Whether the subject is a certification authority (RFC 6487 4.8.1).
    pub ca: bool,
    /// The identifier of the subject's key, where the extension is there (RFC 6487 4.8.2).
    pub subject_key_identifier: Option<KeyIdentifier>,
    /// The identifier of the issuer's key, where the extension is there (RFC 6487 4.8.3).
    pub authority_key_identifier: Option<KeyIdentifier>,
    /// What the subject's key may be used for, where the extension is there (RFC 6487 4.8.4).
    pub key_usage: Option<KeyUsage>,
    /// What the policy says of resources that the issuer's certificate hasn't, where the extension is there (RFC 6487
    /// 4.8.9, RFC 8360 4.2.1).
    pub overclaim: Option<Overclaim>,
}

impl ExtensionTable<'_> {
    /// What the extensions say: the basic constraints, both key identifiers, the key usage and the policy. Allocates
    /// nothing.
    ///
    /// The error is an extension that is there, but malformed, or not as critical as it has to be: the first of these
    /// five.
    pub fn known(&self) -> Result<KnownView, KnownPart>
        ensures ok { IfOk result (λ v. OfListed self.now (λ xs. AreKnown xs v)) }
        ensures err { IfErr result (λ q. OfListed self.now (λ xs. IsFirstWrong xs q)) }
    {
        let values = ExtensionValues {
            ca: constraints_in(self.find(ExtensionKind::BasicConstraints)),
            subject_key_identifier: said::<SubjectContent>(self.find(
                ExtensionKind::SubjectKeyIdentifier,
            )),
            authority_key_identifier: said::<AuthorityContent>(self.find(
                ExtensionKind::AuthorityKeyIdentifier,
            )),
            key_usage: said::<UsageContent>(self.find(ExtensionKind::KeyUsage)),
            overclaim: said::<PoliciesContent>(self.find(ExtensionKind::CertificatePolicies)),
        };
        values.known()
    }
}

impl<'a> Keyed<'a> {
    /// What the extensions say, as [ExtensionTable::known].
    pub fn known(&self) -> Result<KnownView, KnownPart>
        ensures ok { IfOk result (λ v. OfListed self.now.extensions (λ xs. AreKnown xs v)) }
        ensures err { IfErr result (λ q. OfListed self.now.extensions (λ xs. IsFirstWrong xs q)) }
    {
        self.extensions.known()
    }
}
