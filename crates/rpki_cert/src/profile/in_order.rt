//! The rules of each profile, tested in sequence (RFC 6487 4, RFC 8209 3.1, RFC 9323 2).

ghost use Rattle.std.specs.Prelude.{◌∷◌, []};
ghost use Rattle.rpki_cert.specs.declared.profile.Profile.TheVariants.{Ta, Ca, Ee, DetachedEe, Router};
ghost use Rattle.rpki_cert.specs.Cert.{TbsParts};
ghost use Rattle.rpki_cert.specs.Inspected.{IsReadOf};
ghost use Rattle.rpki_cert.specs.Profile.{common_rules, subject_rules, authority_rules, repository_rules, end_rules};
ghost use Rattle.rpki_cert.specs.Profile.{issuer_rules, rules_of};
ghost use Rattle.rpki_cert.specs.RuleError.{TestsRules};

use crate::profile::Profile;
use crate::profile::inspected::Inspected;
use crate::profile::rule::CertRule;
use rpki::repository::error::ValidationError;

/// A rule that was not obeyed.
#[derive(Clone, Copy)]
pub(crate) struct Refusal {
    /// The rule.
    pub(crate) rule: CertRule,
    /// The error.
    pub(crate) error: ValidationError,
}

impl Inspected<'_> {
    /// Tests this rule. It is inlined, so that a call that names the rule is compiled to the test of that rule alone.
    #[inline(always)]
    fn obeys(&self, strict: bool, rule: CertRule) -> Result<(), Refusal>
        ensures { (t : TbsParts) → IsReadOf t self.now → TestsRules strict t (rule ∷ []) result }
    {
        match self.inspect_rule(strict, rule) {
            Ok(()) => Ok(()),
            Err(error) => Err(Refusal { rule, error }),
        }
    }

    /// Tests the rules that every profile begins with.
    fn obeys_common(&self, strict: bool) -> Result<(), Refusal>
        ensures { (t : TbsParts) → IsReadOf t self.now → TestsRules strict t common_rules result }
    {
        self.obeys(strict, CertRule::SerialNumber)?;
        self.obeys(strict, CertRule::CriticalExtensions)?;
        self.obeys(strict, CertRule::Issuer)?;
        self.obeys(strict, CertRule::IssuerSize)?;
        self.obeys(strict, CertRule::Validity)?;
        self.obeys(strict, CertRule::SubjectKeyIdentifier)?;
        self.obeys(strict, CertRule::CertificatePolicies)?;
        self.obeys(strict, CertRule::Resources)?;
        self.obeys(strict, CertRule::ResourceVersion)?;
        self.obeys(strict, CertRule::ResourceBlocks)
    }

    /// Tests the rules of a subject with a name of the RPKI and an RSA key.
    fn obeys_subject(&self, strict: bool) -> Result<(), Refusal>
        ensures { (t : TbsParts) → IsReadOf t self.now → TestsRules strict t subject_rules result }
    {
        self.obeys(strict, CertRule::Subject)?;
        self.obeys(strict, CertRule::SubjectSize)?;
        self.obeys(strict, CertRule::RsaKey)?;
        self.obeys(strict, CertRule::NoExtendedKeyUsage)
    }

    /// Tests the rules of certification authorities.
    fn obeys_authority(&self, strict: bool) -> Result<(), Refusal>
        ensures { (t : TbsParts) → IsReadOf t self.now → TestsRules strict t authority_rules result }
    {
        self.obeys(strict, CertRule::BasicConstraints)?;
        self.obeys(strict, CertRule::AuthorityUsage)
    }

    /// Tests the rules of end entities.
    fn obeys_end(&self, strict: bool) -> Result<(), Refusal>
        ensures { (t : TbsParts) → IsReadOf t self.now → TestsRules strict t end_rules result }
    {
        self.obeys(strict, CertRule::NoBasicConstraints)?;
        self.obeys(strict, CertRule::EndUsage)
    }

    /// Tests the rules of those who publish.
    fn obeys_repository(&self, strict: bool) -> Result<(), Refusal>
        ensures { (t : TbsParts) → IsReadOf t self.now → TestsRules strict t repository_rules result }
    {
        self.obeys(strict, CertRule::Repository)?;
        self.obeys(strict, CertRule::Manifest)?;
        self.obeys(strict, CertRule::ManifestPlace)?;
        self.obeys(strict, CertRule::Notifications)
    }

    /// Tests the rules of certificates that another issued.
    fn obeys_issuer(&self, strict: bool) -> Result<(), Refusal>
        ensures { (t : TbsParts) → IsReadOf t self.now → TestsRules strict t issuer_rules result }
    {
        self.obeys(strict, CertRule::AuthorityKeyIdentifier)?;
        self.obeys(strict, CertRule::RevocationList)?;
        self.obeys(strict, CertRule::IssuerCertificate)
    }

    /// Tests the rules of trust anchors.
    fn obeys_ta(&self, strict: bool) -> Result<(), Refusal>
        ensures { (t : TbsParts) → IsReadOf t self.now → TestsRules strict t (rules_of Ta) result }
    {
        self.obeys_common(strict)?;
        self.obeys_subject(strict)?;
        self.obeys_authority(strict)?;
        self.obeys(strict, CertRule::NoRevocationList)?;
        self.obeys(strict, CertRule::NoIssuerCertificate)?;
        self.obeys_repository(strict)?;
        self.obeys(strict, CertRule::SelfIssued)?;
        self.obeys(strict, CertRule::OwnAuthority)?;
        self.obeys(strict, CertRule::OwnResources)
    }

    /// Tests the rules of certification authorities that another issued.
    fn obeys_ca(&self, strict: bool) -> Result<(), Refusal>
        ensures { (t : TbsParts) → IsReadOf t self.now → TestsRules strict t (rules_of Ca) result }
    {
        self.obeys_common(strict)?;
        self.obeys_subject(strict)?;
        self.obeys_authority(strict)?;
        self.obeys_repository(strict)?;
        self.obeys_issuer(strict)
    }

    /// Tests the rules of end entities that sign an object.
    fn obeys_ee(&self, strict: bool) -> Result<(), Refusal>
        ensures { (t : TbsParts) → IsReadOf t self.now → TestsRules strict t (rules_of Ee) result }
    {
        self.obeys_common(strict)?;
        self.obeys_subject(strict)?;
        self.obeys_end(strict)?;
        self.obeys(strict, CertRule::SignedObject)?;
        self.obeys(strict, CertRule::ObjectAccess)?;
        self.obeys(strict, CertRule::Notifications)?;
        self.obeys_issuer(strict)
    }

    /// Tests the rules of end entities without subject information access.
    fn obeys_detached_ee(&self, strict: bool) -> Result<(), Refusal>
        ensures { (t : TbsParts) → IsReadOf t self.now → TestsRules strict t (rules_of DetachedEe) result }
    {
        self.obeys_common(strict)?;
        self.obeys_subject(strict)?;
        self.obeys_end(strict)?;
        self.obeys(strict, CertRule::NoSubjectAccess)?;
        self.obeys_issuer(strict)
    }

    /// Tests the rules of BGPsec routers.
    fn obeys_router(&self, strict: bool) -> Result<(), Refusal>
        ensures { (t : TbsParts) → IsReadOf t self.now → TestsRules strict t (rules_of Router) result }
    {
        self.obeys_common(strict)?;
        self.obeys(strict, CertRule::RouterSubject)?;
        self.obeys(strict, CertRule::SubjectSize)?;
        self.obeys(strict, CertRule::RouterSerialNumber)?;
        self.obeys(strict, CertRule::RouterKey)?;
        self.obeys_end(strict)?;
        self.obeys(strict, CertRule::RouterNumbers)?;
        self.obeys(strict, CertRule::OwnResources)?;
        self.obeys(strict, CertRule::NoSubjectAccess)?;
        self.obeys(strict, CertRule::RouterPurpose)?;
        self.obeys_issuer(strict)
    }

    /// Tests the rules of the profile, in order.
    pub(crate) fn obeys_profile(&self, profile: Profile, strict: bool) -> Result<(), Refusal>
        ensures { (t : TbsParts) → IsReadOf t self.now → TestsRules strict t (rules_of profile) result }
    {
        match profile {
            Profile::Ta => self.obeys_ta(strict),
            Profile::Ca => self.obeys_ca(strict),
            Profile::Ee => self.obeys_ee(strict),
            Profile::DetachedEe => self.obeys_detached_ee(strict),
            Profile::Router => self.obeys_router(strict),
        }
    }
}
