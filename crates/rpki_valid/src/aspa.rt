//! Whether attestations of the providers of an autonomous system are valid at a moment
//! (draft-ietf-sidrops-aspa-profile 4).

ghost use Rattle.std.specs.Prelude.{◌≡◌, IfOk};
ghost use Rattle.rpki_cert.specs.declared.profile.Profile.TheVariants.{Ee};
ghost use Rattle.rpki_cert.specs.RuleError.{ChecksBy};
ghost use Rattle.rpki_resources.specs.Blocks.{IsAmong};
ghost use Rattle.rpki_valid.specs.ResourceSet.{AreWithin};
ghost use Rattle.rpki_valid.specs.Valid.{HasReason};
ghost use Rattle.rpki_valid.specs.CrlIssued.{HasListedPath};
ghost use Rattle.rpki_valid.specs.Processed.{ChecksRules, KeepsAspaRules, BreaksAspaRules, ProcessesAspa};
ghost use Rattle.rpki_valid.specs.Processed.{ChecksOwnRules, KeepsOwnAspaRules, IsOwnAspaError};
ghost use Rattle.rpki_valid.specs.ErrorTexts.{customer_outside_text};

use crate::current_crl::CurrentCrl;
use crate::object_resources::{verify_no_addresses, verify_numbers, verify_own_numbers};
use crate::resource::claim::settle_anchor;
use crate::resource::set::ResourceSet;
use crate::verify::unverified;
use rpki::repository::error::ValidationError;
use rpki_objects::Aspa;
use rpki_rsa::PreparingProvider;
use std::alloc::Global;

/// The rule that the customer is one of the numbers (draft-ietf-sidrops-aspa-profile 4).
fn verify_within(aspa: &Aspa, held: &ResourceSet) -> Result<(), ValidationError>
    ensures { ChecksBy (IsAmong aspa.now.content.customer held.now.asn)
        (HasReason customer_outside_text) result }
{
    if aspa.content().is_within(&held.asn) {
        return Ok(());
    }
    Err(unverified("draft-ietf-sidrops-aspa-profile 4: customer outside of the resources"))
}

/// The rules of attestations of providers, in their order.
fn verify_rules(aspa: &Aspa, held: &ResourceSet) -> Result<(), ValidationError>
    ensures { ChecksRules (KeepsAspaRules aspa.now held.now)
        (BreaksAspaRules aspa.now held.now) result }
{
    let cert = aspa.object().cert().tbs();
    verify_numbers(cert)?;
    verify_own_numbers(cert)?;
    verify_no_addresses(cert)?;
    verify_within(aspa, held)
}

/// Tests the rules of attestations of providers that need no issuer, for the resources that the certificate lists:
/// it names numbers of autonomous systems, which are not its issuer's, and no addresses, and has the number of the
/// customer (draft-ietf-sidrops-aspa-profile 4). Whether the object is signed, and its certificate is valid, is not
/// looked at: see [verify_object_signature](crate::verify_object_signature) and [CurrentCrl::process_aspa].
///
/// The error is `Verification` of the first rule that is broken, after `draft-ietf-sidrops-aspa-profile 4: `: `no AS
/// numbers`; `inherited AS numbers`; `addresses beside AS numbers`; `customer outside of the resources`; or
/// `OutOfMemory` if allocation fails.
pub fn verify_own_aspa(aspa: &Aspa, alloc: Global) -> Result<(), ValidationError>
    ensures { ChecksOwnRules (KeepsOwnAspaRules aspa.now) (IsOwnAspaError aspa.now) result }
{
    let cert = aspa.object().cert().tbs();
    verify_numbers(cert)?;
    verify_own_numbers(cert)?;
    verify_no_addresses(cert)?;
    let held = settle_anchor(cert, alloc)?;
    verify_within(aspa, &held)
}

impl<'a, 'p, P: PreparingProvider> CurrentCrl<'a, 'p, P> {
    /// Tests that the attestation is valid at the moment of the list: its object is, as [CurrentCrl::verify_object]
    /// says; and its certificate names numbers of autonomous systems, which are not its issuer's, and no addresses, and
    /// has the number of the customer (draft-ietf-sidrops-aspa-profile 4). Returns the resources that the path gives
    /// the certificate.
    ///
    /// The errors are those of [CurrentCrl::verify_object]; then that of the first rule that is broken, as of
    /// [verify_own_aspa].
    pub fn process_aspa(&self, alloc: Global, aspa: &Aspa) -> Result<ResourceSet, ValidationError>
        ensures exactly { ProcessesAspa P.Provider self.now aspa.now result }
        ensures path { IfOk result (λ v. HasListedPath P.Provider Ee self.now aspa.now.object.cert v) }
        ensures within { IfOk result (λ v. AreWithin v self.now.issuer.resources) }
    {
        let held = self.verify_object(alloc, aspa.object())?;
        verify_rules(aspa, &held)?;
        Ok(held)
    }
}
