//! The profiles of certificates (RFC 6487 4, RFC 8209 3.1, RFC 9323 2).

ghost use Rattle.std.specs.Prelude.{◌≡◌, List, ℕ, IfOk, IfErr};
ghost use Rattle.rpki_cert.specs.declared.profile.Profile.TheVariants.{Ta, Ca, Ee, DetachedEe, Router};
ghost use Rattle.rpki_cert.specs.Cert.{TbsParts, CertParts};
ghost use Rattle.rpki_cert.specs.View.{IsCertAt};
ghost use Rattle.rpki_cert.specs.Inspected.{IsReadOf};
ghost use Rattle.rpki_cert.specs.KnownView.{AreKnown};
ghost use Rattle.rpki_cert.specs.Profile.{rules_of, HasProfile, TestsProfile, InspectsProfile, IsCheckError};
ghost use Rattle.rpki_cert.specs.Rule.{Obeys};
ghost use Rattle.rpki_cert.specs.RuleError.{ChecksBy, IsRuleError};

pub mod checks;
mod in_order;
pub mod inspected;
pub mod key_rule;
pub mod name_values;
pub mod rule;
pub mod uri_prefix;

use crate::extension::known_part::KnownPart;
use crate::extension::known_view::KnownView;
use crate::profile::in_order::Refusal;
use crate::profile::inspected::Inspected;
use crate::profile::rule::CertRule;
use crate::read::view::CertView;
use crate::tbs::TbsCert;
use rpki::repository::error::ValidationError;

/// A profile of certificates (RFC 6487 4, RFC 8209 3.1, RFC 9323 2): the rules that a certificate has to obey.
#[derive(Clone, Copy, Debug, PartialEq, Eq)]
pub enum Profile {
    /// That of trust anchors: certification authorities that are their own issuers (RFC 6487 4, RFC 8630 2.3).
    Ta,
    /// That of certification authorities (RFC 6487 4).
    Ca,
    /// That of end entities that sign an object (RFC 6487 4).
    Ee,
    /// That of end entities without subject information access, whose key signs what is in no repository, as a signed
    /// checklist (RFC 6487 4, RFC 9323 2).
    DetachedEe,
    /// That of BGPsec routers (RFC 8209 3.1).
    Router,
}

/// The rules of trust anchors.
const TA: &[CertRule] = &[
    CertRule::SerialNumber,
    CertRule::CriticalExtensions,
    CertRule::Issuer,
    CertRule::IssuerSize,
    CertRule::Validity,
    CertRule::SubjectKeyIdentifier,
    CertRule::CertificatePolicies,
    CertRule::Resources,
    CertRule::ResourceVersion,
    CertRule::ResourceBlocks,
    CertRule::Subject,
    CertRule::SubjectSize,
    CertRule::RsaKey,
    CertRule::NoExtendedKeyUsage,
    CertRule::BasicConstraints,
    CertRule::AuthorityUsage,
    CertRule::NoRevocationList,
    CertRule::NoIssuerCertificate,
    CertRule::Repository,
    CertRule::Manifest,
    CertRule::ManifestPlace,
    CertRule::Notifications,
    CertRule::SelfIssued,
    CertRule::OwnAuthority,
    CertRule::OwnResources,
];

/// The rules of certification authorities.
const CA: &[CertRule] = &[
    CertRule::SerialNumber,
    CertRule::CriticalExtensions,
    CertRule::Issuer,
    CertRule::IssuerSize,
    CertRule::Validity,
    CertRule::SubjectKeyIdentifier,
    CertRule::CertificatePolicies,
    CertRule::Resources,
    CertRule::ResourceVersion,
    CertRule::ResourceBlocks,
    CertRule::Subject,
    CertRule::SubjectSize,
    CertRule::RsaKey,
    CertRule::NoExtendedKeyUsage,
    CertRule::BasicConstraints,
    CertRule::AuthorityUsage,
    CertRule::Repository,
    CertRule::Manifest,
    CertRule::ManifestPlace,
    CertRule::Notifications,
    CertRule::AuthorityKeyIdentifier,
    CertRule::RevocationList,
    CertRule::IssuerCertificate,
];

/// The rules of end entities that sign an object.
const EE: &[CertRule] = &[
    CertRule::SerialNumber,
    CertRule::CriticalExtensions,
    CertRule::Issuer,
    CertRule::IssuerSize,
    CertRule::Validity,
    CertRule::SubjectKeyIdentifier,
    CertRule::CertificatePolicies,
    CertRule::Resources,
    CertRule::ResourceVersion,
    CertRule::ResourceBlocks,
    CertRule::Subject,
    CertRule::SubjectSize,
    CertRule::RsaKey,
    CertRule::NoExtendedKeyUsage,
    CertRule::NoBasicConstraints,
    CertRule::EndUsage,
    CertRule::SignedObject,
    CertRule::ObjectAccess,
    CertRule::Notifications,
    CertRule::AuthorityKeyIdentifier,
    CertRule::RevocationList,
    CertRule::IssuerCertificate,
];

/// The rules of end entities without subject information access.
const DETACHED_EE: &[CertRule] = &[
    CertRule::SerialNumber,
    CertRule::CriticalExtensions,
    CertRule::Issuer,
    CertRule::IssuerSize,
    CertRule::Validity,
    CertRule::SubjectKeyIdentifier,
    CertRule::CertificatePolicies,
    CertRule::Resources,
    CertRule::ResourceVersion,
    CertRule::ResourceBlocks,
    CertRule::Subject,
    CertRule::SubjectSize,
    CertRule::RsaKey,
    CertRule::NoExtendedKeyUsage,
    CertRule::NoBasicConstraints,
    CertRule::EndUsage,
    CertRule::NoSubjectAccess,
    CertRule::AuthorityKeyIdentifier,
    CertRule::RevocationList,
    CertRule::IssuerCertificate,
];

/// The rules of BGPsec routers.
const ROUTER: &[CertRule] = &[
    CertRule::SerialNumber,
    CertRule::CriticalExtensions,
    CertRule::Issuer,
    CertRule::IssuerSize,
    CertRule::Validity,
    CertRule::SubjectKeyIdentifier,
    CertRule::CertificatePolicies,
    CertRule::Resources,
    CertRule::ResourceVersion,
    CertRule::ResourceBlocks,
    CertRule::RouterSubject,
    CertRule::SubjectSize,
    CertRule::RouterSerialNumber,
    CertRule::RouterKey,
    CertRule::NoBasicConstraints,
    CertRule::EndUsage,
    CertRule::RouterNumbers,
    CertRule::OwnResources,
    CertRule::NoSubjectAccess,
    CertRule::RouterPurpose,
    CertRule::AuthorityKeyIdentifier,
    CertRule::RevocationList,
    CertRule::IssuerCertificate,
];

impl Profile {
    /// The rules of the profile, each with its section of an RFC, in the order in which they are tested.
    pub fn rules(self) -> &'static [CertRule]
        ensures { result.now ≡ rules_of self }
    {
        match self {
            Profile::Ta => TA,
            Profile::Ca => CA,
            Profile::Ee => EE,
            Profile::DetachedEe => DETACHED_EE,
            Profile::Router => ROUTER,
        }
    }
}

impl Inspected<'_> {
    /// Tests the certificate by the profile; the error is that of the first rule that is broken.
    fn inspect(&self, profile: Profile, strict: bool) -> Result<(), ValidationError>
        ensures { (t : TbsParts) → IsReadOf t self.now → InspectsProfile profile strict t result }
    {
        match self.obeys_profile(profile, strict) {
            Ok(()) => Ok(()),
            Err(Refusal { rule: _, error }) => Err(error),
        }
    }

    /// Tests the certificate by the profile; returns the rule that it breaks first.
    fn test(&self, profile: Profile, strict: bool) -> Result<(), CertRule>
        ensures { (t : TbsParts) → IsReadOf t self.now → TestsProfile profile strict t result }
    {
        match self.obeys_profile(profile, strict) {
            Ok(()) => Ok(()),
            Err(Refusal { rule, error: _ }) => Err(rule),
        }
    }
}

impl TbsCert {
    /// Tests that the certificate has the profile. The names are looked at if `strict`.
    ///
    /// The error is that of the first of [Profile::rules] that is broken: `Inspection` with the rule's text; or, for an
    /// extension that the rule wants, `Inspection` with the text `extension is not as critical as it has to be`, or
    /// `Decoding` if its octets are malformed. Allocates nothing.
    pub fn inspect(&self, profile: Profile, strict: bool) -> Result<(), ValidationError>
        ensures { InspectsProfile profile strict self.now result }
    {
        self.inspected().inspect(profile, strict)
    }

    /// Tests that the certificate has the profile, as [TbsCert::inspect] does; returns the first of [Profile::rules]
    /// that it breaks. An extension that a rule wants and that is malformed, or not as critical as it has to be, breaks
    /// the rule. Allocates nothing.
    pub fn test(&self, profile: Profile, strict: bool) -> Result<(), CertRule>
        ensures { TestsProfile profile strict self.now result }
    {
        self.inspected().test(profile, strict)
    }

    /// Tests that the certificate obeys one rule, whatever others it breaks. The names are looked at if `strict`.
    ///
    /// The error is the one that [TbsCert::inspect] gives where this rule is the first that is broken. Allocates
    /// nothing.
    pub fn inspect_rule(&self, strict: bool, rule: CertRule) -> Result<(), ValidationError>
        ensures { ChecksBy (Obeys strict self.now rule) (IsRuleError self.now rule) result }
    {
        self.inspected().inspect_rule(strict, rule)
    }

    /// [TbsCert::inspect] by the profile of a trust anchor.
    pub fn inspect_ta(&self, strict: bool) -> Result<(), ValidationError>
        ensures { InspectsProfile Ta strict self.now result }
    {
        self.inspect(Profile::Ta, strict)
    }

    /// [TbsCert::test] by the profile of a trust anchor.
    pub fn test_ta(&self, strict: bool) -> Result<(), CertRule>
        ensures { TestsProfile Ta strict self.now result }
    {
        self.test(Profile::Ta, strict)
    }

    /// [TbsCert::inspect] by the profile of a certification authority.
    pub fn inspect_ca(&self, strict: bool) -> Result<(), ValidationError>
        ensures { InspectsProfile Ca strict self.now result }
    {
        self.inspect(Profile::Ca, strict)
    }

    /// [TbsCert::test] by the profile of a certification authority.
    pub fn test_ca(&self, strict: bool) -> Result<(), CertRule>
        ensures { TestsProfile Ca strict self.now result }
    {
        self.test(Profile::Ca, strict)
    }

    /// [TbsCert::inspect] by the profile of an end entity that signs an object.
    pub fn inspect_ee(&self, strict: bool) -> Result<(), ValidationError>
        ensures { InspectsProfile Ee strict self.now result }
    {
        self.inspect(Profile::Ee, strict)
    }

    /// [TbsCert::test] by the profile of an end entity that signs an object.
    pub fn test_ee(&self, strict: bool) -> Result<(), CertRule>
        ensures { TestsProfile Ee strict self.now result }
    {
        self.test(Profile::Ee, strict)
    }

    /// [TbsCert::inspect] by the profile of an end entity without subject information access.
    pub fn inspect_detached_ee(&self, strict: bool) -> Result<(), ValidationError>
        ensures { InspectsProfile DetachedEe strict self.now result }
    {
        self.inspect(Profile::DetachedEe, strict)
    }

    /// [TbsCert::test] by the profile of an end entity without subject information access.
    pub fn test_detached_ee(&self, strict: bool) -> Result<(), CertRule>
        ensures { TestsProfile DetachedEe strict self.now result }
    {
        self.test(Profile::DetachedEe, strict)
    }

    /// [TbsCert::inspect] by the profile of a BGPsec router.
    pub fn inspect_router(&self, strict: bool) -> Result<(), ValidationError>
        ensures { InspectsProfile Router strict self.now result }
    {
        self.inspect(Profile::Router, strict)
    }

    /// [TbsCert::test] by the profile of a BGPsec router.
    pub fn test_router(&self, strict: bool) -> Result<(), CertRule>
        ensures { TestsProfile Router strict self.now result }
    {
        self.test(Profile::Router, strict)
    }
}

/// Why a certificate is not what [CertView::check] asks of it.
#[derive(Clone, Copy, Debug, PartialEq, Eq)]
pub enum CheckError {
    /// An extension is malformed, or not as critical as it has to be: the first, as [ExtensionTable::known] has them.
    ///
    /// [ExtensionTable::known]: crate::ExtensionTable::known
    Extension(KnownPart),
    /// The certificate breaks this rule of the profile first.
    Rule(CertRule),
}

impl CertView<'_> {
    /// Tests that the certificate has the profile, in place, as [TbsCert::test] does. Allocates nothing.
    pub fn test(&self, profile: Profile, strict: bool) -> Result<(), CertRule>
        requires { (s : List ℕ) × (x : CertParts) × IsCertAt s self.now x }
        ensures { (s : List ℕ) (x : CertParts) → IsCertAt s self.now x → TestsProfile profile strict x.tbs result }
    {
        self.inspected().test(profile, strict)
    }

    /// What the extensions say, of a certificate that has the profile: [Keyed::known](crate::Keyed::known) and
    /// [CertView::test] at once, each extension read once. Allocates nothing.
    ///
    /// The error is that of the extensions; else the rule of the profile that is broken first.
    pub fn check(&self, profile: Profile, strict: bool) -> Result<KnownView, CheckError>
        requires { (s : List ℕ) × (x : CertParts) × IsCertAt s self.now x }
        ensures ok { IfOk result (λ v. (s : List ℕ) (x : CertParts) → IsCertAt s self.now x
            → AreKnown x.tbs.extensions v × HasProfile profile strict x.tbs) }
        ensures err { IfErr result (λ e. (s : List ℕ) (x : CertParts) → IsCertAt s self.now x
            → IsCheckError profile strict x.tbs e) }
    {
        let inspected = self.inspected();
        match inspected.values.known() {
            Ok(known) => match inspected.test(profile, strict) {
                Ok(()) => Ok(known),
                Err(rule) => Err(CheckError::Rule(rule)),
            },
            Err(part) => Err(CheckError::Extension(part)),
        }
    }
}
