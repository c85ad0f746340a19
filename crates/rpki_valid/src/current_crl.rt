//! Revocation lists that count, and what an authority issues that they don't have (RFC 5280 6.3.3, RFC 6487 7.2).

ghost use Rattle.std.specs.Prelude.{◌≡◌, ◌↔◌, ◌+◌, Option, Some, IfOk, IfErr};
ghost use Rattle.jiff.specs.Types.{DateTime as Civil};
ghost use Rattle.rpki_time.specs.Validity.{HoldsAt};
ghost use Rattle.rpki_cert.specs.RuleError.{ChecksBy};
ghost use Rattle.rpki_cert.specs.declared.profile.Profile.TheVariants.{Ca, Ee, DetachedEe, Router};
ghost use Rattle.rpki_crl.specs.Crl.{listed, is_revoked};
ghost use Rattle.rpki_valid.specs.CrlIssued.{in_force, IsIssuedBy, IsRefusedList, ChecksList, CountsAt, HasListedPath};
ghost use Rattle.rpki_valid.specs.ResourceSet.{AreWithin};
ghost use Rattle.rpki_valid.specs.Revocation.{IsOutAt, IsFreshAt, least_asked};
ghost use Rattle.rpki_valid.specs.Valid.{HasReason};
ghost use Rattle.rpki_valid.specs.Verified.{verified_by, IsVerified, IsVerifiedBy, ChecksLink, IsRefusedAuthority};
ghost use Rattle.rpki_valid.specs.ErrorTexts.{list_issuer_text, list_authority_text, later_list_text};
ghost use Rattle.rpki_valid.specs.ErrorTexts.{stale_list_text};

use crate::resource::set::ResourceSet;
use crate::resource_cert::ResourceCert;
use crate::staleness::Staleness;
use crate::verify::{unverified, verify_period, verify_signature};
use rpki::crypto::KeyIdentifier;
use rpki::repository::error::ValidationError;
use rpki::repository::x509::{NameOctets, Time, Validity};
use rpki_cert::{Cert, Profile};
use rpki_crl::Crl;
use rpki_rsa::PreparingProvider;
use std::alloc::Global;
use std::marker::Model;

/// A revocation list that counts at a moment, and the verified authority that has issued it. Only [ResourceCert::crl]
/// makes one, so that the list of another authority, one of the future, or one that is stale where that is refused, is
/// never asked whether a certificate is revoked. What the authority has issued is verified by it.
#[derive(Drop)]
pub struct CurrentCrl<'a, 'p, P: PreparingProvider> {
    issuer: &'a ResourceCert<'p, P>,
    list: &'a Crl,
    staleness: Staleness,
    at: Time,
}

impl<'a, 'p, P: PreparingProvider> Model for CurrentCrl<'a, 'p, P> {
    ghost use Rattle.rpki_valid.specs.CrlIssued.{InForce, in_force, IsIssuedBy};
    ghost use Rattle.rpki_valid.specs.Verified.{verified_by};

    ghost Value = { InForce P };

    ghost view = { λ v. in_force v.issuer.now v.list.now v.staleness v.at };

    ghost invariant = { λ v. IsIssuedBy v.staleness (verified_by P.Provider v.issuer.now) v.at
        v.list.now };
}

/// Whether the issuer has this name.
fn verify_issuer(list: &Crl, issuer: &NameOctets) -> Result<(), ValidationError>
    ensures { ChecksBy (list.now.list.issuer ≡ issuer.now) (HasReason list_issuer_text) result }
{
    if *list.issuer() == *issuer {
        return Ok(());
    }
    Err(unverified("RFC 5280 6.3.3: issuer name mismatch"))
}

/// Whether the identifier of the issuer's key is this one.
fn verify_authority(list: &Crl, wanted: KeyIdentifier) -> Result<(), ValidationError>
    ensures { ChecksBy (list.now.list.extensions.authority ≡ wanted)
        (HasReason list_authority_text) result }
{
    if list.authority_key_identifier() == wanted {
        return Ok(());
    }
    Err(unverified("RFC 5280 6.3.3: authority key identifier mismatch"))
}

/// Whether the list was issued by the moment.
fn verify_out(list: &Crl, at: Time) -> Result<(), ValidationError>
    ensures { ChecksBy (IsOutAt at list.now) (HasReason later_list_text) result }
{
    if list.this_update() <= at {
        return Ok(());
    }
    Err(unverified("RFC 5280 6.3.3: issued later"))
}

/// Whether the next list was not due before the moment, where that is asked.
fn verify_fresh(list: &Crl, staleness: Staleness, at: Time) -> Result<(), ValidationError>
    ensures { ChecksBy (IsFreshAt staleness at list.now) (HasReason stale_list_text) result }
{
    match staleness {
        Staleness::Refused => {
            if at <= list.next_update() {
                return Ok(());
            }
            Err(unverified("RFC 5280 6.3.3: stale list"))
        }
        Staleness::Accepted => Ok(()),
    }
}

/// What is asked of lists both here and there.
fn least_asked(one: Option<Staleness>, other: Option<Staleness>) -> Option<Staleness>
    ensures { result ≡ least_asked one other }
{
    match one {
        None => None,
        Some(Staleness::Refused) => other,
        Some(Staleness::Accepted) => match other {
            None => None,
            Some(_) => Some(Staleness::Accepted),
        },
    }
}

impl<'p, P: PreparingProvider> ResourceCert<'p, P> {
    /// Tests what [ResourceCert::crl] does.
    fn verify_list(&self, list: &Crl, staleness: Staleness, at: Time) -> Result<(), ValidationError>
        ensures { ChecksList staleness (verified_by P.Provider self.now) at list.now result }
    {
        verify_period(self.period(), at)?;
        let authority = self.cert().tbs();
        let key = authority.subject_public_key_info();
        let signed = list.signed_data();
        let provider = self.with_key();
        verify_signature(
            signed.data().as_slice(),
            signed.signature(),
            &provider,
            key,
            "RFC 5280 6.3.3: bad signature",
        )?;
        verify_issuer(list, authority.subject())?;
        verify_authority(list, self.key_identifier())?;
        verify_out(list, at)?;
        verify_fresh(list, staleness, at)
    }

    /// Tests that the verified authority has issued the list, and that it counts at the moment: all certificates of the
    /// authority's path hold at the moment, its key has signed the list, which names it and the key (RFC 5280 6.3.3,
    /// RFC 6487 5), the list was issued by the moment, and the next one was not due before it, unless a stale list is
    /// accepted. Allocates nothing.
    ///
    /// The error is `Verification` of the first that doesn't hold: the period, as of [verify_period]; then, after `RFC
    /// 5280 6.3.3: `, `bad signature`; `issuer name mismatch`; `authority key identifier mismatch`; `issued later`;
    /// `stale list`.
    pub fn crl<'a>(
        &'a self,
        list: &'a Crl,
        staleness: Staleness,
        at: Time,
    ) -> Result<CurrentCrl<'a, 'p, P>, ValidationError>
        ensures ok { IfOk result (λ v. v ≡ in_force self.now list.now staleness at) }
        ensures issued { IfOk result (λ _. IsIssuedBy staleness (verified_by P.Provider self.now) at list.now) }
        ensures err { IfErr result (λ e. IsRefusedList staleness (verified_by P.Provider self.now) at list.now e) }
    {
        self.verify_list(list, staleness, at)?;
        Ok(CurrentCrl {
            issuer: self,
            list,
            staleness,
            at,
        })
    }
}

impl<'a, 'p, P: PreparingProvider> CurrentCrl<'a, 'p, P> {
    /// The authority.
    pub fn issuer(&self) -> &'a ResourceCert<'p, P>
        ensures value { result.now ≡ self.now.issuer }
        // It has issued the list, which counts at the moment.
        ensures issued { IsIssuedBy self.now.staleness (verified_by P.Provider self.now.issuer) self.now.at
            self.now.list }
    {
        self.issuer
    }

    /// The list.
    pub fn list(&self) -> &'a Crl
        ensures value { result.now ≡ self.now.list }
        // The authority has issued it, and it counts at the moment.
        ensures issued { IsIssuedBy self.now.staleness (verified_by P.Provider self.now.issuer) self.now.at
            self.now.list }
    {
        self.list
    }

    /// Whether a stale list counts.
    pub fn staleness(&self) -> Staleness
        ensures { result ≡ self.now.staleness }
    {
        self.staleness
    }

    /// The moment.
    pub fn at(&self) -> Time
        ensures { result ≡ self.now.at }
    {
        self.at
    }

    /// Whether the list has the certificate, by its serial number (RFC 5280 6.3.3). Whether the authority has issued
    /// it, isn't looked at.
    pub fn is_revoked(&self, cert: &Cert) -> bool
        ensures { result ≡ is_revoked cert.now.tbs.serial (listed self.now.list.list.revoked) }
    {
        self.list.contains(cert.tbs().serial_number())
    }

    /// The period in which all certificates of the authority's path hold, and the list counts.
    pub fn period(&self) -> Validity
        ensures { (m : Civil) → HoldsAt result m ↔ CountsAt self.now m }
    {
        let above = self.issuer.period();
        let end = match self.staleness {
            Staleness::Refused => self.list.next_update(),
            Staleness::Accepted => above.not_after(),
        };
        above.trim(Validity::new(self.list.this_update(), end))
    }

    /// Tests that the certificate has the profile, that the authority has issued it, that the list doesn't have it, and
    /// that all of its path is valid at the moment; returns the resources that the path gives it.
    fn verify_link(
        &self,
        alloc: Global,
        cert: &Cert,
        profile: Profile,
    ) -> Result<ResourceSet, ValidationError>
        ensures exactly { ChecksLink profile (Some self.now.list) (verified_by P.Provider self.now.issuer) self.now.at
            cert.now result }
        ensures path { IfOk result (λ v. HasListedPath P.Provider profile self.now cert.now v) }
        ensures within { IfOk result (λ v. AreWithin v self.now.issuer.resources) }
        ensures verified { IfOk result (λ _. IsVerified (verified_by P.Provider self.now.issuer)) }
        ensures issued { IsIssuedBy self.now.staleness (verified_by P.Provider self.now.issuer) self.now.at
            self.now.list }
    {
        let list = self.list();
        self.issuer()
            .check_link(alloc, cert, Some(list), profile, self.at())
    }

    /// Tests that the certificate has the profile of a certification authority (RFC 6487 4), that the verified
    /// authority has issued it, that its list doesn't have it, and that it and all of the path to the trust anchor is
    /// valid at the moment of the list. It is checked against the terms of the path.
    ///
    /// Its resources are settled under the issuer's, by its own policy: with that of RFC 6484 they are what it claims,
    /// which the issuer has to have (RFC 6487 7.2); with that of RFC 8360 they are so much of it as the issuer has
    /// (RFC 8360 4.2.4). Where it claims the issuer's, they are these. Its period ends where the list ceases to count.
    ///
    /// The errors are `Verification` with the text `path is too long`; then those of
    /// [TbsCert::inspect_ca](rpki_cert::TbsCert::inspect_ca); then those of
    /// [verify_issued](crate::verify_issued); then `Verification` with the text `RFC 6487 7.2: revoked certificate`, or
    /// `RFC 6487 7.2: resources that the issuer does not have`; else `OutOfMemory` if allocation fails.
    pub fn verify_ca(
        &self,
        alloc: Global,
        cert: Cert,
    ) -> Result<ResourceCert<'p, P>, ValidationError>
        ensures ok { IfOk result (λ v. IsVerifiedBy Ca (Some self.now.list) (verified_by P.Provider self.now.issuer)
            self.now.at cert v.resources) }
        ensures path { IfOk result (λ v. HasListedPath P.Provider Ca self.now cert v.resources) }
        ensures within { IfOk result (λ v. AreWithin v.resources self.now.issuer.resources) }
        ensures cert { IfOk result (λ v. v.cert ≡ cert) }
        ensures period { IfOk result (λ v. (m : Civil)
            → HoldsAt v.period m ↔ (CountsAt self.now m × HoldsAt cert.tbs.validity m)) }
        ensures terms { IfOk result (λ v. v.terms ≡ self.now.issuer.terms) }
        ensures depth { IfOk result (λ v. v.depth ≡ self.now.issuer.depth + 1) }
        ensures asked { IfOk result (λ v. v.asked ≡ least_asked self.now.issuer.asked (Some self.now.staleness)) }
        ensures provider { IfOk result (λ v. v.provider ≡ self.now.issuer.provider) }
        ensures err { IfErr result (λ e. IsRefusedAuthority (Some self.now.list)
            (verified_by P.Provider self.now.issuer) self.now.at cert e) }
        // The authority has issued the list, and it counts at the moment.
        ensures issued { IsIssuedBy self.now.staleness (verified_by P.Provider self.now.issuer) self.now.at
            self.now.list }
    {
        let depth = self.issuer().next_depth()?;
        let resources = self.verify_link(alloc, &cert, Profile::Ca)?;
        let period = self.period().trim(cert.tbs().validity());
        let issuer = self.issuer();
        let asked = least_asked(issuer.asked(), Some(self.staleness()));
        Ok(ResourceCert::of_parts(
            cert,
            resources,
            period,
            issuer.terms(),
            depth,
            asked,
            issuer.provider(),
        ))
    }

    /// As [CurrentCrl::verify_ca], of an end entity that signs an object; returns its resources.
    ///
    /// The errors are those of [TbsCert::inspect_ee](rpki_cert::TbsCert::inspect_ee); then as there.
    pub fn verify_ee(&self, alloc: Global, cert: &Cert) -> Result<ResourceSet, ValidationError>
        ensures exactly { ChecksLink Ee (Some self.now.list) (verified_by P.Provider self.now.issuer) self.now.at
            cert.now result }
        ensures path { IfOk result (λ v. HasListedPath P.Provider Ee self.now cert.now v) }
        ensures within { IfOk result (λ v. AreWithin v self.now.issuer.resources) }
    {
        self.verify_link(alloc, cert, Profile::Ee)
    }

    /// As [CurrentCrl::verify_ca], of an end entity without subject information access (RFC 9323 2); returns its
    /// resources.
    ///
    /// The errors are those of [TbsCert::inspect_detached_ee](rpki_cert::TbsCert::inspect_detached_ee); then as there.
    pub fn verify_detached_ee(
        &self,
        alloc: Global,
        cert: &Cert,
    ) -> Result<ResourceSet, ValidationError>
        ensures exactly { ChecksLink DetachedEe (Some self.now.list) (verified_by P.Provider self.now.issuer)
            self.now.at cert.now result }
        ensures path { IfOk result (λ v. HasListedPath P.Provider DetachedEe self.now cert.now v) }
        ensures within { IfOk result (λ v. AreWithin v self.now.issuer.resources) }
    {
        self.verify_link(alloc, cert, Profile::DetachedEe)
    }

    /// As [CurrentCrl::verify_ca], of a BGPsec router (RFC 8209 3.1); returns its resources.
    ///
    /// The errors are those of [TbsCert::inspect_router](rpki_cert::TbsCert::inspect_router); then as there.
    pub fn verify_router(&self, alloc: Global, cert: &Cert) -> Result<ResourceSet, ValidationError>
        ensures exactly { ChecksLink Router (Some self.now.list) (verified_by P.Provider self.now.issuer) self.now.at
            cert.now result }
        ensures path { IfOk result (λ v. HasListedPath P.Provider Router self.now cert.now v) }
        ensures within { IfOk result (λ v. AreWithin v self.now.issuer.resources) }
        // The authority has issued the list, and it counts at the moment.
        ensures issued { IsIssuedBy self.now.staleness (verified_by P.Provider self.now.issuer) self.now.at
            self.now.list }
    {
        self.verify_link(alloc, cert, Profile::Router)
    }
}
