//! Whether route origin attestations are valid at a moment (RFC 9582 5).

ghost use Rattle.std.specs.Prelude.{◌≡◌, IfOk};
ghost use Rattle.rpki_cert.specs.declared.profile.Profile.TheVariants.{Ee};
ghost use Rattle.rpki_contents.specs.Within.{AreWithin};
ghost use Rattle.rpki_valid.specs.ResourceSet.{AreWithin as AreHeldWithin};
ghost use Rattle.rpki_valid.specs.CrlIssued.{HasListedPath};
ghost use Rattle.rpki_valid.specs.Processed.{ChecksRules, IsOriginOutside, KeepsOriginRules, BreaksOriginRules};
ghost use Rattle.rpki_valid.specs.Processed.{ProcessesOrigin, ChecksOwnRules, KeepsOwnOriginRules};
ghost use Rattle.rpki_valid.specs.Processed.{IsOwnOriginError};

use crate::current_crl::CurrentCrl;
use crate::object_resources::{verify_addresses, verify_no_numbers, verify_own_addresses};
use crate::resource::claim::settle_anchor;
use crate::resource::set::ResourceSet;
use crate::verify::unverified;
use rpki::der::DecodeError;
use rpki::repository::error::ValidationError;
use rpki_objects::Roa;
use rpki_rsa::PreparingProvider;
use std::alloc::Global;

/// The rule that each prefix is among the resources (RFC 9582 5).
fn verify_within(roa: &Roa, alloc: Global, held: &ResourceSet) -> Result<(), ValidationError>
    ensures { ChecksRules (AreWithin roa.now.content held.now.ipv4 held.now.ipv6)
        (IsOriginOutside roa.now held.now) result }
{
    match roa.content().is_within(alloc, &held.ipv4, &held.ipv6) {
        Ok(true) => Ok(()),
        Ok(false) => Err(unverified("RFC 9582 5: prefix outside of the resources")),
        Err(_) => Err(ValidationError::Decoding(DecodeError::OutOfMemory)),
    }
}

/// The rules of route origin attestations, in their order.
fn verify_rules(roa: &Roa, alloc: Global, held: &ResourceSet) -> Result<(), ValidationError>
    ensures { ChecksRules (KeepsOriginRules roa.now held.now)
        (BreaksOriginRules roa.now held.now) result }
{
    let cert = roa.object().cert().tbs();
    verify_addresses(cert)?;
    verify_own_addresses(cert)?;
    verify_no_numbers(cert)?;
    verify_within(roa, alloc, held)
}

/// Tests the rules of route origin attestations that need no issuer, for the resources that the certificate lists:
/// it names addresses, which are not its issuer's, and no numbers of autonomous systems, and has the addresses of
/// each prefix (RFC 9582 5). Whether the object is signed, and its certificate is valid, is not looked at: see
/// [verify_object_signature](crate::verify_object_signature) and [CurrentCrl::process_roa].
///
/// The error is `Verification` of the first rule that is broken, after `RFC 9582 5: `: `no addresses`; `inherited
/// addresses`; `AS numbers beside prefixes`; `prefix outside of the resources`; or `OutOfMemory` if allocation fails.
pub fn verify_own_roa(roa: &Roa, alloc: Global) -> Result<(), ValidationError>
    ensures { ChecksOwnRules (KeepsOwnOriginRules roa.now) (IsOwnOriginError roa.now) result }
{
    let cert = roa.object().cert().tbs();
    verify_addresses(cert)?;
    verify_own_addresses(cert)?;
    verify_no_numbers(cert)?;
    let held = settle_anchor(cert, alloc)?;
    verify_within(roa, alloc, &held)
}

impl<'a, 'p, P: PreparingProvider> CurrentCrl<'a, 'p, P> {
    /// Tests that the attestation is valid at the moment of the list: its object is, as [CurrentCrl::verify_object]
    /// says; and its certificate names addresses, which are not its issuer's, and no numbers of autonomous systems, and
    /// has the addresses of each prefix (RFC 9582 5). Returns the resources that the path gives the certificate.
    ///
    /// The errors are those of [CurrentCrl::verify_object]; then those of [verify_own_roa].
    pub fn process_roa(&self, alloc: Global, roa: &Roa) -> Result<ResourceSet, ValidationError>
        ensures exactly { ProcessesOrigin P.Provider self.now roa.now result }
        ensures path { IfOk result (λ v. HasListedPath P.Provider Ee self.now roa.now.object.cert v) }
        ensures within { IfOk result (λ v. AreHeldWithin v self.now.issuer.resources) }
    {
        let held = self.verify_object(alloc, roa.object())?;
        verify_rules(roa, alloc, &held)?;
        Ok(held)
    }
}
