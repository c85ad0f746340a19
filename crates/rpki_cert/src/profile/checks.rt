//! The rules of the profiles of certificates, one by one (RFC 6487 4, RFC 8209 3.1).

ghost use Rattle.std.specs.Prelude.{◌≡◌, ◌<◌, ◌↔◌, ◌&&◌, not, true, false, List, None, Some, Option, IsTrue};
ghost use Rattle.rpki_der.specs.Reading.{AnyFault};
ghost use Rattle.rpki_der.specs.Leaves.{bits_of};
ghost use Rattle.rpki.specs.KeyIdentifier.{SpellsKeyIdentifier};
ghost use Rattle.rpki.specs.NameRule.{BreaksRpkiRule, BreaksRouterRule, rpki_text, router_text};
ghost use Rattle.rpki.specs.PublicKey.{key_of};
ghost use Rattle.rpki.specs.StrictName.{IsRpkiName, IsRouterName};
ghost use Rattle.rpki.specs.ExtensionValue.{ExtensionParts};
ghost use Rattle.rpki_cert.specs.Cert.{TbsParts, find};
ghost use Rattle.rpki_cert.specs.ExtensionTable.{identifier_of};
ghost use Rattle.rpki_cert.specs.Known.{certificate_policies, Says};
ghost use Rattle.rpki_cert.specs.ExtensionContent.{SpellsConstraints, SpellsUsage, SpellsPurposes};
ghost use Rattle.rpki_x509.specs.Authority.{WholeFault};
ghost use Rattle.rpki_cert.specs.ExtensionContent.{constraints_content, usage_content};
ghost use Rattle.rpki_cert.specs.Access.{SpellsPoints, SpellsHeldAccess};
ghost use Rattle.rpki_cert.specs.AccessInformation.{SpellsUriOf, IsTold};
ghost use Rattle.rpki_cert.specs.Keys.{IsRpkiKey, IsRouterKey};
ghost use Rattle.rpki_cert.specs.NameValues.{PermitsName};
ghost use Rattle.rpki_cert.specs.RuleWords.{SaysSome, SaysManifestBelow, IsOrdered, has_addresses};
ghost use Rattle.rpki_cert.specs.RuleWords.{has_numbers};
ghost use Rattle.rpki_cert.specs.RuleWords.{is_critical, has_resources, is_of_version};
ghost use Rattle.rpki_cert.specs.Inspected.{AreConstraintsSaid, AreIn, IsAuthoritySaid, IsPolicySaid, IsReadOf};
ghost use Rattle.rpki_cert.specs.Inspected.{IsSaidBy, IsSubjectSaid, IsUsageSaid};
ghost use Rattle.rpki_cert.specs.Rule.{Obeys};
ghost use Rattle.rpki_cert.specs.RuleError.{ChecksBy, SaysRule, SaysName, ChecksSome, ChecksValue, ChecksUri};
ghost use Rattle.rpki_cert.specs.RuleError.{ChecksVersion, ChecksOwn, IsRuleError};

use crate::extension::access_information::AccessInformation;
use crate::extension::access_method::AccessMethod;
use crate::extension::access_rule::AccessRule;
use crate::extension::accessors::{information_in, is_identifier, points_in, purposes_in, uri_in};
use crate::extension::contents::{
    AuthorityContent, ExtensionContent, PoliciesContent, SubjectContent,
};
use crate::extension::key_usage::KeyUsage;
use crate::extension::kind::ExtensionKind;
use crate::extension::policy::Overclaim;
use crate::extension::source::ExtensionSource;
use crate::profile::inspected::Inspected;
use crate::profile::key_rule::KeyBits;
use crate::profile::name_values::ValueRule;
use crate::profile::rule::CertRule;
use crate::profile::uri_prefix::lies_below;
use crate::resource::extensions::{are_own, are_well_formed};
use rpki::crypto::KeyIdentifier;
use rpki::repository::error::ValidationError;
use rpki::repository::x509::{ExtensionView, NameView, Serial, Validity};
use rpki_x509::are_same;

/// The error of a certificate that breaks the rule.
fn rejected(rule: CertRule) -> ValidationError
    ensures { SaysRule rule result }
{
    ValidationError::Inspection(rule.error())
}

/// Whether the serial number is 0.
fn is_zero(serial: Serial) -> bool
    ensures { IsTrue result ↔ (serial ≡ 0) }
{
    serial == Serial::from(0u64)
}

/// Whether the use is there and is this one.
fn is_there(found: Option<KeyUsage>, wanted: KeyUsage) -> bool
    ensures { IsTrue result ↔ (found ≡ Option.Some wanted) }
{
    match found {
        Some(found) => found == wanted,
        None => false,
    }
}

/// Whether the purpose of a router is there.
fn is_router(found: Option<bool>) -> bool
    ensures { IsTrue result ↔ (found ≡ Option.Some true) }
{
    match found {
        Some(router) => router,
        None => false,
    }
}

/// Whether addresses are there.
fn has_addresses(all: &ExtensionSource<'_>) -> bool
    ensures { (xs : List ExtensionParts) → AreIn xs all.now → result ≡ has_addresses xs }
{
    all.find(ExtensionKind::IpResources).is_some()
        || all.find(ExtensionKind::IpResourcesV2).is_some()
}

/// Whether numbers of autonomous systems are there.
fn has_numbers(all: &ExtensionSource<'_>) -> bool
    ensures { (xs : List ExtensionParts) → AreIn xs all.now → result ≡ has_numbers xs }
{
    all.find(ExtensionKind::AsResources).is_some()
        || all.find(ExtensionKind::AsResourcesV2).is_some()
}

/// Whether the extension of this kind is critical, or not there.
fn is_critical_at(all: &ExtensionSource<'_>, kind: ExtensionKind) -> bool
    ensures { (xs : List ExtensionParts) → AreIn xs all.now → result ≡ is_critical (find (identifier_of kind) xs) }
{
    match all.find(kind) {
        Some(extension) => extension.critical(),
        None => true,
    }
}

/// Whether resources are there, and critical.
fn has_resources(all: &ExtensionSource<'_>) -> bool
    ensures { (xs : List ExtensionParts) → AreIn xs all.now → result ≡ has_resources xs }
{
    (has_addresses(all) || has_numbers(all))
        && is_critical_at(all, ExtensionKind::IpResources)
        && is_critical_at(all, ExtensionKind::IpResourcesV2)
        && is_critical_at(all, ExtensionKind::AsResources)
        && is_critical_at(all, ExtensionKind::AsResourcesV2)
}

/// Whether numbers of autonomous systems are there, and no addresses.
fn has_numbers_alone(all: &ExtensionSource<'_>) -> bool
    ensures { (xs : List ExtensionParts) → AreIn xs all.now → result ≡ (has_numbers xs && not (has_addresses xs)) }
{
    has_numbers(all) && !has_addresses(all)
}

/// Whether no resources are there of the other version than the policy's.
fn is_of_version(policy: Overclaim, all: &ExtensionSource<'_>) -> bool
    ensures { (xs : List ExtensionParts) → AreIn xs all.now → result ≡ is_of_version policy xs }
{
    match policy {
        Overclaim::Refuse => {
            all.find(ExtensionKind::IpResourcesV2).is_none()
                && all.find(ExtensionKind::AsResourcesV2).is_none()
        }
        Overclaim::Trim => {
            all.find(ExtensionKind::IpResources).is_none()
                && all.find(ExtensionKind::AsResources).is_none()
        }
    }
}

/// Whether the policy is there, and no resources of another version.
fn inspect_version(
    said: &Result<Option<Overclaim>, ValidationError>,
    all: &ExtensionSource<'_>,
) -> Result<(), ValidationError>
    ensures { (xs : List ExtensionParts) → AreIn xs all.now
        → IsPolicySaid (find certificate_policies xs) said.now
        → ChecksVersion xs result }
{
    match said {
        Ok(Some(policy)) => {
            if is_of_version(*policy, all) {
                return Ok(());
            }
            Err(rejected(CertRule::ResourceVersion))
        }
        Ok(None) => Err(rejected(CertRule::ResourceVersion)),
        Err(e) => Err(*e),
    }
}

/// Whether access information was found, each description of which obeys the rule.
fn has_held_access(
    told: &Result<Option<AccessInformation<'_>>, ValidationError>,
    rule: AccessRule,
) -> bool
    ensures { (found : Option ExtensionParts) → IsTold found told.now
        → IsTrue result ↔ SaysSome false (SpellsHeldAccess rule) found }
{
    match told {
        Ok(Some(access)) => access.obeys(rule),
        Ok(None) => false,
        Err(_) => false,
    }
}

/// Whether access information was found that has the URI of a manifest below that of its repository.
fn has_manifest_below(told: &Result<Option<AccessInformation<'_>>, ValidationError>) -> bool
    ensures { (found : Option ExtensionParts) → IsTold found told.now
        → IsTrue result ↔ SaysManifestBelow found }
{
    match uri_in(told, AccessMethod::CaRepository) {
        Ok(Some(base)) => match uri_in(told, AccessMethod::RpkiManifest) {
            Ok(Some(text)) => lies_below(base, text),
            Ok(None) => false,
            Err(_) => false,
        },
        Ok(None) => false,
        Err(_) => false,
    }
}

/// Whether nothing was found, as the rule has it.
fn inspect_absent(found: Option<ExtensionView<'_>>, rule: CertRule) -> Result<(), ValidationError>
    ensures { ChecksBy (found.entry ≡ None) (SaysRule rule) result }
{
    match found {
        Some(_) => Err(rejected(rule)),
        None => Ok(()),
    }
}

/// Whether this holds, as the rule has it.
fn inspect_that(holds: bool, rule: CertRule) -> Result<(), ValidationError>
    ensures { ChecksBy (IsTrue holds) (SaysRule rule) result }
{
    if holds { Ok(()) } else { Err(rejected(rule)) }
}

/// Whether the serial number is positive.
fn inspect_serial(serial: Serial) -> Result<(), ValidationError>
    ensures { ChecksBy (0 < serial) (SaysRule CertRule.SerialNumber) result }
{
    if is_zero(serial) {
        return Err(rejected(CertRule::SerialNumber));
    }
    Ok(())
}

/// Whether the period ends no earlier than it begins.
fn inspect_validity(period: Validity) -> Result<(), ValidationError>
    ensures { ChecksBy (IsOrdered period) (SaysRule CertRule.Validity) result }
{
    if period.not_before() <= period.not_after() {
        return Ok(());
    }
    Err(rejected(CertRule::Validity))
}

/// Whether the key is one of the RPKI's certificates.
fn inspect_key(key: &KeyBits<'_>) -> Result<(), ValidationError>
    ensures { ChecksBy (IsRpkiKey (key_of key.now.format (bits_of key.now.unused key.now.octets.now)))
        (SaysRule CertRule.RsaKey) result }
{
    if !key.is_rpki_key() {
        return Err(rejected(CertRule::RsaKey));
    }
    Ok(())
}

/// Whether the key is one of routers' certificates.
fn inspect_router_key(key: &KeyBits<'_>) -> Result<(), ValidationError>
    ensures { ChecksBy (IsRouterKey (key_of key.now.format (bits_of key.now.unused key.now.octets.now)))
        (SaysRule CertRule.RouterKey) result }
{
    if !key.is_router_key() {
        return Err(rejected(CertRule::RouterKey));
    }
    Ok(())
}

/// Whether the names have the same octets.
fn inspect_same(issuer: &NameView<'_>, subject: &NameView<'_>) -> Result<(), ValidationError>
    ensures { ChecksBy (issuer.now ≡ subject.now) (SaysRule CertRule.SelfIssued) result }
{
    if !are_same(issuer.octets(), subject.octets()) {
        return Err(rejected(CertRule::SelfIssued));
    }
    Ok(())
}

/// Whether the name is one of the RPKI.
fn inspect_name(name: &NameView<'_>, strict: bool) -> Result<(), ValidationError>
    ensures { ChecksBy (IsTrue strict → IsRpkiName name.now) (SaysName BreaksRpkiRule rpki_text name.now) result }
{
    if !strict {
        return Ok(());
    }
    match name.test_rpki() {
        Ok(()) => Ok(()),
        Err(rule) => Err(ValidationError::Inspection(rule.rpki_error())),
    }
}

/// Whether the name is one of a router.
fn inspect_router_name(name: &NameView<'_>, strict: bool) -> Result<(), ValidationError>
    ensures { ChecksBy (IsTrue strict → IsRouterName name.now) (SaysName BreaksRouterRule router_text name.now) result }
{
    if !strict {
        return Ok(());
    }
    match name.test_router() {
        Ok(()) => Ok(()),
        Err(rule) => Err(ValidationError::Inspection(rule.router_error())),
    }
}

/// Whether the values of a name are as this asks, as the rule has it.
fn inspect_values(
    name: &NameView<'_>,
    asked: ValueRule,
    strict: bool,
    rule: CertRule,
) -> Result<(), ValidationError>
    ensures { ChecksBy (IsTrue strict → PermitsName asked name.now) (SaysRule rule) result }
{
    if strict && !asked.permits_name(name) {
        return Err(rejected(rule));
    }
    Ok(())
}

/// Whether a value of the extension was found; where none was, this rule is broken.
fn inspect_said<T: ExtensionContent>(
    said: &Result<Option<T::Value>, ValidationError>,
    broken: CertRule,
) -> Result<(), ValidationError>
    ensures { (x : Option ExtensionParts) → IsSaidBy T.CRITICAL T.content x said.now
        → ChecksSome T.CRITICAL T.content.spells (WholeFault T.content) broken x result }
{
    match said {
        Ok(Some(_)) => Ok(()),
        Ok(None) => Err(rejected(broken)),
        Err(e) => Err(*e),
    }
}

/// Whether the subject key identifier was found and is this one.
fn has_identifier(
    said: &Result<Option<KeyIdentifier>, ValidationError>,
    wanted: KeyIdentifier,
) -> bool
    ensures { (found : Option ExtensionParts) → IsSubjectSaid found said.now
        → IsTrue result ↔ Says false SpellsKeyIdentifier found (Some wanted) }
{
    match said {
        Ok(identifier) => is_identifier(*identifier, wanted),
        Err(_) => false,
    }
}

/// Whether no authority key identifier was found, or one that is the subject key identifier.
fn inspect_own_authority(
    said: &Result<Option<KeyIdentifier>, ValidationError>,
    subject: &Result<Option<KeyIdentifier>, ValidationError>,
) -> Result<(), ValidationError>
    ensures { (found other : Option ExtensionParts)
        → IsAuthoritySaid found said.now
        → IsSubjectSaid other subject.now
        → ChecksOwn found other result }
{
    match said {
        Ok(Some(identifier)) => {
            if has_identifier(subject, *identifier) {
                return Ok(());
            }
            Err(rejected(CertRule::OwnAuthority))
        }
        Ok(None) => Ok(()),
        Err(e) => Err(*e),
    }
}

/// Whether basic constraints were found.
fn inspect_constraints(said: &Result<bool, ValidationError>) -> Result<(), ValidationError>
    ensures { (x : Option ExtensionParts) → AreConstraintsSaid x said.now
        → ChecksValue true SpellsConstraints (WholeFault constraints_content)
        CertRule.BasicConstraints x tt result }
{
    match said {
        Ok(true) => Ok(()),
        Ok(false) => Err(rejected(CertRule::BasicConstraints)),
        Err(e) => Err(*e),
    }
}

/// Whether this use of the key was found.
fn inspect_usage(
    said: &Result<Option<KeyUsage>, ValidationError>,
    wanted: KeyUsage,
    rule: CertRule,
) -> Result<(), ValidationError>
    ensures { (x : Option ExtensionParts) → IsUsageSaid x said.now
        → ChecksValue true SpellsUsage (WholeFault usage_content) rule x wanted result }
{
    match said {
        Ok(usage) => {
            if is_there(*usage, wanted) {
                return Ok(());
            }
            Err(rejected(rule))
        }
        Err(e) => Err(*e),
    }
}

/// Whether the purpose of a router was found.
fn inspect_purpose(found: Option<ExtensionView<'_>>) -> Result<(), ValidationError>
    ensures { ChecksValue false SpellsPurposes AnyFault CertRule.RouterPurpose found.entry true result }
{
    match purposes_in(found) {
        Ok(purpose) => {
            if is_router(purpose) {
                return Ok(());
            }
            Err(rejected(CertRule::RouterPurpose))
        }
        Err(e) => Err(e),
    }
}

/// Whether the URI of a revocation list was found.
fn inspect_revocation(found: Option<ExtensionView<'_>>) -> Result<(), ValidationError>
    ensures { ChecksUri SpellsPoints CertRule.RevocationList found.entry result }
{
    match points_in(found) {
        Ok(Some(_)) => Ok(()),
        Ok(None) => Err(rejected(CertRule::RevocationList)),
        Err(e) => Err(e),
    }
}

/// Whether access information tells a URI of this method, as the rule has it.
fn inspect_access(
    told: &Result<Option<AccessInformation<'_>>, ValidationError>,
    method: AccessMethod,
    rule: CertRule,
) -> Result<(), ValidationError>
    ensures { (found : Option ExtensionParts) → IsTold found told.now
        → ChecksUri (SpellsUriOf method) rule found result }
{
    match uri_in(told, method) {
        Ok(Some(_)) => Ok(()),
        Ok(None) => Err(rejected(rule)),
        Err(e) => Err(e),
    }
}

/// Whether access information was found, each description of which obeys the rule of access.
fn inspect_held(
    told: &Result<Option<AccessInformation<'_>>, ValidationError>,
    held: AccessRule,
    rule: CertRule,
) -> Result<(), ValidationError>
    ensures { (found : Option ExtensionParts) → IsTold found told.now
        → ChecksBy (SaysSome false (SpellsHeldAccess held) found) (SaysRule rule) result }
{
    if !has_held_access(told, held) {
        return Err(rejected(rule));
    }
    Ok(())
}

/// Whether the URI of the manifest was found below that of the repository.
fn inspect_place(
    told: &Result<Option<AccessInformation<'_>>, ValidationError>,
) -> Result<(), ValidationError>
    ensures { (found : Option ExtensionParts) → IsTold found told.now
        → ChecksBy (SaysManifestBelow found) (SaysRule CertRule.ManifestPlace) result }
{
    if !has_manifest_below(told) {
        return Err(rejected(CertRule::ManifestPlace));
    }
    Ok(())
}

impl Inspected<'_> {
    /// Whether the certificate obeys the rule. The names are looked at if `strict`.
    #[inline(always)]
    pub(crate) fn inspect_rule(&self, strict: bool, rule: CertRule) -> Result<(), ValidationError>
        ensures { (t : TbsParts) → IsReadOf t self.now → ChecksBy (Obeys strict t rule) (IsRuleError t rule) result }
    {
        let all = &self.extensions;
        let values = &self.values;
        match rule {
            CertRule::SerialNumber => inspect_serial(self.serial_number),
            CertRule::CriticalExtensions => inspect_that(
                all.are_understood(),
                CertRule::CriticalExtensions,
            ),
            CertRule::Issuer => inspect_name(&self.issuer, strict),
            CertRule::IssuerSize => inspect_values(
                &self.issuer,
                ValueRule::Size,
                strict,
                CertRule::IssuerSize,
            ),
            CertRule::Validity => inspect_validity(self.validity),
            CertRule::Subject => inspect_name(&self.subject, strict),
            CertRule::RouterSubject => inspect_router_name(&self.subject, strict),
            CertRule::SubjectSize => inspect_values(
                &self.subject,
                ValueRule::Size,
                strict,
                CertRule::SubjectSize,
            ),
            CertRule::RouterSerialNumber => inspect_values(
                &self.subject,
                ValueRule::SerialNumber,
                strict,
                CertRule::RouterSerialNumber,
            ),
            CertRule::RsaKey => inspect_key(&self.key),
            CertRule::RouterKey => inspect_router_key(&self.key),
            CertRule::BasicConstraints => inspect_constraints(&values.ca),
            CertRule::NoBasicConstraints => inspect_absent(
                all.find(ExtensionKind::BasicConstraints),
                CertRule::NoBasicConstraints,
            ),
            CertRule::SubjectKeyIdentifier => inspect_said::<SubjectContent>(
                &values.subject_key_identifier,
                CertRule::SubjectKeyIdentifier,
            ),
            CertRule::AuthorityKeyIdentifier => inspect_said::<AuthorityContent>(
                &values.authority_key_identifier,
                CertRule::AuthorityKeyIdentifier,
            ),
            CertRule::OwnAuthority => inspect_own_authority(
                &values.authority_key_identifier,
                &values.subject_key_identifier,
            ),
            CertRule::SelfIssued => inspect_same(&self.issuer, &self.subject),
            CertRule::AuthorityUsage => inspect_usage(
                &values.key_usage,
                KeyUsage::Ca,
                CertRule::AuthorityUsage,
            ),
            CertRule::EndUsage => inspect_usage(
                &values.key_usage,
                KeyUsage::Ee,
                CertRule::EndUsage,
            ),
            CertRule::NoExtendedKeyUsage => inspect_absent(
                all.find(ExtensionKind::ExtendedKeyUsage),
                CertRule::NoExtendedKeyUsage,
            ),
            CertRule::RouterPurpose => inspect_purpose(all.find(ExtensionKind::ExtendedKeyUsage)),
            CertRule::RevocationList => inspect_revocation(all.find(
                ExtensionKind::CrlDistributionPoints,
            )),
            CertRule::NoRevocationList => inspect_absent(
                all.find(ExtensionKind::CrlDistributionPoints),
                CertRule::NoRevocationList,
            ),
            CertRule::IssuerCertificate => inspect_access(
                &information_in(all.find(ExtensionKind::AuthorityInfoAccess)),
                AccessMethod::CaIssuers,
                CertRule::IssuerCertificate,
            ),
            CertRule::NoIssuerCertificate => inspect_absent(
                all.find(ExtensionKind::AuthorityInfoAccess),
                CertRule::NoIssuerCertificate,
            ),
            CertRule::Repository => inspect_access(
                &self.access,
                AccessMethod::CaRepository,
                CertRule::Repository,
            ),
            CertRule::Manifest => inspect_access(
                &self.access,
                AccessMethod::RpkiManifest,
                CertRule::Manifest,
            ),
            CertRule::SignedObject => inspect_access(
                &self.access,
                AccessMethod::SignedObject,
                CertRule::SignedObject,
            ),
            CertRule::ManifestPlace => inspect_place(&self.access),
            CertRule::ObjectAccess => inspect_held(
                &self.access,
                AccessRule::EndEntity,
                CertRule::ObjectAccess,
            ),
            CertRule::Notifications => inspect_held(
                &self.access,
                AccessRule::Notification,
                CertRule::Notifications,
            ),
            CertRule::NoSubjectAccess => inspect_absent(
                all.find(ExtensionKind::SubjectInfoAccess),
                CertRule::NoSubjectAccess,
            ),
            CertRule::CertificatePolicies => inspect_said::<PoliciesContent>(
                &values.overclaim,
                CertRule::CertificatePolicies,
            ),
            CertRule::Resources => inspect_that(has_resources(all), CertRule::Resources),
            CertRule::ResourceVersion => inspect_version(&values.overclaim, all),
            CertRule::ResourceBlocks => inspect_that(
                are_well_formed(all),
                CertRule::ResourceBlocks,
            ),
            CertRule::OwnResources => inspect_that(are_own(all), CertRule::OwnResources),
            CertRule::RouterNumbers => inspect_that(
                has_numbers_alone(all),
                CertRule::RouterNumbers,
            ),
        }
    }
}
