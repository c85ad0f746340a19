//! Certificates that are verified up to a trust anchor, and their resources (RFC 5280 6.1, RFC 6487 7.2, RFC 8360 4.2).

ghost use Rattle.std.specs.Prelude.{◌≡◌, ◌↔◌, ◌+◌, ◌<◌, ◌≤◌, true, None, Some, IfOk, IfErr};
ghost use Rattle.std.specs.Option.{option_copied};
ghost use Rattle.jiff.specs.Types.{DateTime as Civil};
ghost use Rattle.rpki_time.specs.Validity.{HoldsAt};
ghost use Rattle.rpki_cert.specs.Known.{certificate_policies};
ghost use Rattle.rpki_cert.specs.ExtensionContent.{SpellsPolicies};
ghost use Rattle.rpki_cert.specs.RuleError.{ChecksBy};
ghost use Rattle.rpki_cert.specs.RuleWords.{HasSome};
ghost use Rattle.rpki_cert.specs.declared.profile.Profile.TheVariants.{Ca, Ee, DetachedEe, Router};
ghost use Rattle.rpki_cert.specs.ResourceExtensions.{AreWellFormed};
ghost use Rattle.rpki_valid.specs.ResourceSet.{AreWithin};
ghost use Rattle.rpki_valid.specs.Revocation.{IsUnrevoked};
ghost use Rattle.rpki_valid.specs.Valid.{HasReason};
ghost use Rattle.rpki.specs.Checkers.{checkers_of};
ghost use Rattle.rpki_valid.specs.Verified.{authority_of, verified_by, holder, IsRootWith, IsVerified};
ghost use Rattle.rpki_valid.specs.Verified.{IsVerifiedBy, HasPath, ChecksPath, ChecksLink, ChecksRoot};
ghost use Rattle.rpki_valid.specs.Verified.{IsRefusedAuthority, IsRefusedRoot, terms_in};
ghost use Rattle.rpki_valid.specs.ErrorTexts.{revoked_text, other_key_text, too_long_text};

use crate::resource::claim::{settle, settle_anchor};
use crate::resource::set::ResourceSet;
use crate::staleness::Staleness;
use crate::terms::Terms;
use crate::verify::{unverified, verify_anchor, verify_issued_by, verify_period};
use rpki::crypto::{KeyIdentifier, Provider, PublicKey};
use rpki::repository::error::ValidationError;
use rpki::repository::x509::{Time, Validity};
use rpki_cert::{Cert, Profile};
use rpki_crl::Crl;
use rpki_objects::Strictness;
use rpki_rsa::{PreparingProvider, WithKey};
use std::alloc::Global;
use std::marker::Model;

/// The certificate of an authority that was verified: a path of authorities leads from it to a trust anchor, which
/// gives it its resources. Only [ResourceCert::verify_ta], [CurrentCrl::verify_ca](crate::CurrentCrl::verify_ca) and
/// [ResourceCert::verify_ca_without_list] make one, and only it issues certificates that are verified.
#[derive(Drop)]
pub struct ResourceCert<'p, P: PreparingProvider> {
    cert: Cert,
    resources: ResourceSet,
    period: Validity,
    terms: Terms<'p>,
    depth: u32,
    asked: Option<Staleness>,
    provider: &'p P,
    /// The identifier of the certificate's key.
    key_identifier: KeyIdentifier,
    /// The certificate's key, prepared for what the authority has signed.
    prepared_key: P::PreparedKey,
}

impl<'p, P: PreparingProvider> Model for ResourceCert<'p, P> {
    ghost use Rattle.std.specs.Prelude.{◌≡◌};
    ghost use Rattle.rpki_valid.specs.Verified.{Authority, authority_of, terms_of, verified_by, IsVerified};

    ghost Value = { Authority P };

    ghost view = { λ v. authority_of v.cert v.resources v.period
        (terms_of v.terms.key.now v.terms.strictness v.terms.deepest) v.depth v.asked v.provider.now };

    ghost invariant = { λ v. IsVerified (verified_by P.Provider
        (authority_of v.cert v.resources v.period (terms_of v.terms.key.now v.terms.strictness v.terms.deepest) v.depth
        v.asked v.provider.now)) × (v.key_identifier ≡ P.sha1_of v.provider.now v.cert.tbs.key.bits.octets)
        × P.is_prepared v.provider.now v.cert.tbs.key.bits.octets v.prepared_key };
}

/// Tests what [ResourceCert::verify_ta] does; returns the resources that the certificate lists.
fn check_ta<P: Provider>(
    cert: &Cert,
    alloc: Global,
    provider: &P,
    terms: Terms<'_>,
    at: Time,
) -> Result<ResourceSet, ValidationError>
    ensures { ChecksRoot (terms_in terms.entry) (checkers_of P.Provider provider.now) at cert.now result }
{
    cert.tbs().inspect_ta(terms.strictness.names)?;
    verify_anchor(cert, provider, at)?;
    verify_key(cert, terms.key)?;
    settle_anchor(cert.tbs(), alloc)
}

/// Whether the key of the certificate is that of the locator (RFC 8630 3).
fn verify_key(cert: &Cert, key: &PublicKey) -> Result<(), ValidationError>
    ensures { ChecksBy (cert.now.tbs.key ≡ key.now) (HasReason other_key_text) result }
{
    if *cert.tbs().subject_public_key_info() == *key {
        return Ok(());
    }
    Err(unverified("RFC 8630 3: key is not that of the locator"))
}

/// The rule that the certificate is not on the list, where there is one (RFC 6487 7.2).
fn verify_unrevoked(cert: &Cert, list: Option<&Crl>) -> Result<(), ValidationError>
    ensures { ChecksBy (IsUnrevoked (option_copied list.entry) cert.now) (HasReason revoked_text) result }
{
    match list {
        Some(list) => {
            if list.contains(cert.tbs().serial_number()) {
                return Err(unverified("RFC 6487 7.2: revoked certificate"));
            }
            Ok(())
        }
        None => Ok(()),
    }
}

impl<'p, P: PreparingProvider> ResourceCert<'p, P> {
    /// The authority of these parts. Requires that it is verified.
    pub(crate) fn of_parts(
        cert: Cert,
        resources: ResourceSet,
        period: Validity,
        terms: Terms<'p>,
        depth: u32,
        asked: Option<Staleness>,
        provider: &'p P,
    ) -> ResourceCert<'p, P>
        requires { IsVerified (verified_by P.Provider (authority_of cert resources period (terms_in terms) depth asked
            provider.now)) }
        ensures { result ≡ authority_of cert resources period
            (terms_in terms.entry) depth asked provider.now }
    {
        let key = cert.tbs().subject_public_key_info();
        let key_identifier = key.key_identifier(provider);
        let prepared_key = provider.prepare_key(key.bits());
        ResourceCert {
            cert,
            resources,
            period,
            terms,
            depth,
            asked,
            provider,
            key_identifier,
            prepared_key,
        }
    }

    /// The identifier of the certificate's key (RFC 6487 4.8.2).
    pub fn key_identifier(&self) -> KeyIdentifier
        ensures { result ≡ P.sha1_of self.now.provider self.now.cert.tbs.key.bits.octets }
    {
        self.key_identifier
    }

    /// The provider, with the certificate's key prepared.
    pub(crate) fn with_key(&self) -> WithKey<'_, P>
        ensures { result ≡ self.now.provider }
    {
        let key = self.cert.tbs().subject_public_key_info();
        WithKey::new(self.provider, key.bits(), &self.prepared_key)
    }

    /// The certificate.
    pub fn cert(&self) -> &Cert
        ensures value { result.now ≡ self.now.cert }
        // Its path is valid at each moment of the period, and gives it its resources.
        ensures verified { IsVerified (verified_by P.Provider self.now) }
    {
        &self.cert
    }

    /// The resources that its path gives it.
    pub fn resources(&self) -> &ResourceSet
        ensures { result.now ≡ self.now.resources }
    {
        &self.resources
    }

    /// The provider that its signature was checked with.
    pub fn provider(&self) -> &'p P
        ensures { result.now ≡ self.now.provider }
    {
        self.provider
    }

    /// The period in which its certificate, and each of the path to the trust anchor, is valid, and the lists count
    /// that have none of these.
    pub fn period(&self) -> Validity
        ensures { result ≡ self.now.period }
    {
        self.period
    }

    /// What its path is checked against, and all that it issues.
    pub fn terms(&self) -> Terms<'p>
        ensures { terms_in result ≡ self.now.terms }
    {
        self.terms
    }

    /// Which rules its path was checked against strictly, and what it issues will be.
    pub fn strictness(&self) -> Strictness
        ensures { result ≡ self.now.terms.strictness }
    {
        self.terms.strictness
    }

    /// How many steps lead up from it to the trust anchor, whose own number is 0.
    pub fn depth(&self) -> u32
        ensures { result ≡ self.now.depth }
    {
        self.depth
    }

    /// The number of steps of what it issues; the error of a path that is too long.
    pub(crate) fn next_depth(&self) -> Result<u32, ValidationError>
        ensures next { IfOk result (λ n. n ≡ self.now.depth + 1) }
        ensures below { IfOk result (λ n. n ≤ self.now.terms.deepest) }
        ensures within { IfOk result (λ _. self.now.depth < self.now.terms.deepest) }
        ensures refused { IfErr result (λ e. (self.now.depth < self.now.terms.deepest → ⊥)
            × HasReason too_long_text e) }
    {
        if self.depth < self.terms.deepest {
            return Ok(self.depth + 1);
        }
        Err(unverified("path is too long"))
    }

    /// What was asked of the lists on each step of its path; None where a step was taken without a list.
    pub fn asked(&self) -> Option<Staleness>
        ensures { result ≡ self.now.asked }
    {
        self.asked
    }

    /// Tests that the certificate is a trust anchor: it has the profile of one (RFC 6487 4), its own key has signed it,
    /// which is the key that its locator names (RFC 8630 3), and it is valid at the moment. All below it is checked
    /// against the terms too. Its resources are those that it lists.
    ///
    /// The errors are those of [TbsCert::inspect_ta](rpki_cert::TbsCert::inspect_ta); then those of
    /// [verify_issued](crate::verify_issued); then `Verification` with the text `RFC 8630 3: key is not that of the
    /// locator`; then `OutOfMemory` if allocation fails.
    pub fn verify_ta(
        alloc: Global,
        cert: Cert,
        provider: &'p P,
        terms: Terms<'p>,
        at: Time,
    ) -> Result<ResourceCert<'p, P>, ValidationError>
        ensures ok { IfOk result (λ v. IsRootWith (terms_in terms.entry) (checkers_of P.Provider provider.now) at cert
            v.resources) }
        ensures cert { IfOk result (λ v. v.cert ≡ cert) }
        ensures period { IfOk result (λ v. v.period ≡ cert.tbs.validity) }
        ensures terms { IfOk result (λ v. v.terms ≡ terms_in terms.entry) }
        ensures depth { IfOk result (λ v. v.depth ≡ 0) }
        ensures asked { IfOk result (λ v. v.asked ≡ Some Staleness.Refused) }
        ensures provider { IfOk result (λ v. v.provider ≡ provider.now) }
        ensures err { IfErr result (λ e. IsRefusedRoot (terms_in terms.entry) (checkers_of P.Provider provider.now) at
            cert e) }
    {
        let resources = check_ta(&cert, alloc, provider, terms, at)?;
        let period = cert.tbs().validity();
        let asked = Some(Staleness::Refused);
        Ok(ResourceCert::of_parts(cert, resources, period, terms, 0, asked, provider))
    }

    /// Whether the authority has issued the certificate, which the list, where there is one, doesn't have, and all of
    /// its path is valid at the moment; returns the resources that the path gives it.
    fn verify_path(
        &self,
        alloc: Global,
        cert: &Cert,
        list: Option<&Crl>,
        at: Time,
    ) -> Result<ResourceSet, ValidationError>
        requires policy { HasSome certificate_policies true SpellsPolicies cert.now.tbs.extensions }
        requires form { AreWellFormed cert.now.tbs.extensions }
        ensures exactly { ChecksPath (option_copied list.entry) (verified_by P.Provider self.now) at cert.now result }
        ensures verified { IsVerified (verified_by P.Provider self.now) }
    {
        let authority = self.cert();
        verify_period(self.period(), at)?;
        let issuer = authority.tbs();
        let provider = self.with_key();
        verify_issued_by(cert, &provider, issuer, self.key_identifier(), at)?;
        verify_unrevoked(cert, list)?;
        settle(cert.tbs(), alloc, self.resources())
    }

    /// Tests that the certificate has the profile, that the verified authority has issued it, that the list, where
    /// there is one, doesn't have it, and that all of its path is valid at the moment; returns the resources that the
    /// path gives it. Whose list it is, isn't looked at.
    pub(crate) fn check_link(
        &self,
        alloc: Global,
        cert: &Cert,
        list: Option<&Crl>,
        profile: Profile,
        at: Time,
    ) -> Result<ResourceSet, ValidationError>
        ensures exactly { ChecksLink profile (option_copied list.entry) (verified_by P.Provider self.now) at cert.now
            result }
        ensures within { IfOk result (λ v. AreWithin v self.now.resources) }
        ensures verified { IfOk result (λ _. IsVerified (verified_by P.Provider self.now)) }
    {
        cert.tbs().inspect(profile, self.strictness().names)?;
        self.verify_path(alloc, cert, list, at)
    }

    /// Tests what [ResourceCert::check_link] does, without a list.
    fn verify_unlisted(
        &self,
        alloc: Global,
        cert: &Cert,
        profile: Profile,
        at: Time,
    ) -> Result<ResourceSet, ValidationError>
        ensures exactly { ChecksLink profile None (verified_by P.Provider self.now) at cert.now result }
        ensures path { IfOk result (λ v. HasPath profile self.now.terms self.now.asked None
            (checkers_of P.Provider self.now.provider) at (holder cert.now v)) }
        ensures within { IfOk result (λ v. AreWithin v self.now.resources) }
        ensures verified { IfOk result (λ _. IsVerified (verified_by P.Provider self.now)) }
    {
        self.check_link(alloc, cert, None, profile, at)
    }

    /// As [CurrentCrl::verify_ca](crate::CurrentCrl::verify_ca), at a moment, but without a list of the authority: the
    /// certificate may be revoked, and so may be all below it.
    ///
    /// The errors are those of [CurrentCrl::verify_ca](crate::CurrentCrl::verify_ca), but that of a revoked
    /// certificate.
    pub fn verify_ca_without_list(
        &self,
        alloc: Global,
        cert: Cert,
        at: Time,
    ) -> Result<ResourceCert<'p, P>, ValidationError>
        ensures ok { IfOk result (λ v. IsVerifiedBy Ca None (verified_by P.Provider self.now) at cert v.resources) }
        ensures path { IfOk result (λ v. HasPath Ca self.now.terms self.now.asked None
            (checkers_of P.Provider self.now.provider) at (holder cert v.resources)) }
        ensures within { IfOk result (λ v. AreWithin v.resources self.now.resources) }
        ensures cert { IfOk result (λ v. v.cert ≡ cert) }
        ensures period { IfOk result (λ v. (m : Civil)
            → HoldsAt v.period m ↔ (HoldsAt self.now.period m × HoldsAt cert.tbs.validity m)) }
        ensures terms { IfOk result (λ v. v.terms ≡ self.now.terms) }
        ensures depth { IfOk result (λ v. v.depth ≡ self.now.depth + 1) }
        ensures asked { IfOk result (λ v. v.asked ≡ None) }
        ensures provider { IfOk result (λ v. v.provider ≡ self.now.provider) }
        ensures err { IfErr result (λ e. IsRefusedAuthority None (verified_by P.Provider self.now) at cert e) }
    {
        let depth = self.next_depth()?;
        let resources = self.verify_unlisted(alloc, &cert, Profile::Ca, at)?;
        let period = self.period().trim(cert.tbs().validity());
        let terms = self.terms();
        let provider = self.provider();
        let asked = None;
        Ok(ResourceCert::of_parts(cert, resources, period, terms, depth, asked, provider))
    }

    /// As [CurrentCrl::verify_ee](crate::CurrentCrl::verify_ee), at a moment, but without a list of the authority: the
    /// certificate may be revoked.
    pub fn verify_ee_without_list(
        &self,
        alloc: Global,
        cert: &Cert,
        at: Time,
    ) -> Result<ResourceSet, ValidationError>
        ensures exactly { ChecksLink Ee None (verified_by P.Provider self.now) at cert.now result }
        ensures path { IfOk result (λ v. HasPath Ee self.now.terms self.now.asked None
            (checkers_of P.Provider self.now.provider) at (holder cert.now v)) }
        ensures within { IfOk result (λ v. AreWithin v self.now.resources) }
    {
        self.verify_unlisted(alloc, cert, Profile::Ee, at)
    }

    /// As [CurrentCrl::verify_detached_ee](crate::CurrentCrl::verify_detached_ee), at a moment, but without a list of
    /// the authority: the certificate may be revoked.
    pub fn verify_detached_ee_without_list(
        &self,
        alloc: Global,
        cert: &Cert,
        at: Time,
    ) -> Result<ResourceSet, ValidationError>
        ensures exactly { ChecksLink DetachedEe None (verified_by P.Provider self.now) at cert.now result }
        ensures path { IfOk result (λ v. HasPath DetachedEe self.now.terms self.now.asked None
            (checkers_of P.Provider self.now.provider) at (holder cert.now v)) }
        ensures within { IfOk result (λ v. AreWithin v self.now.resources) }
    {
        self.verify_unlisted(alloc, cert, Profile::DetachedEe, at)
    }

    /// As [CurrentCrl::verify_router](crate::CurrentCrl::verify_router), at a moment, but without a list of the
    /// authority: the certificate may be revoked.
    pub fn verify_router_without_list(
        &self,
        alloc: Global,
        cert: &Cert,
        at: Time,
    ) -> Result<ResourceSet, ValidationError>
        ensures exactly { ChecksLink Router None (verified_by P.Provider self.now) at cert.now result }
        ensures path { IfOk result (λ v. HasPath Router self.now.terms self.now.asked None
            (checkers_of P.Provider self.now.provider) at (holder cert.now v)) }
        ensures within { IfOk result (λ v. AreWithin v self.now.resources) }
    {
        self.verify_unlisted(alloc, cert, Profile::Router, at)
    }
}
