//! The resources that a trust anchor has.

ghost use Rattle.std.specs.Prelude.{List, ℕ, IfOk, IfErr};
ghost use Rattle.rpki_resources.specs.declared.choice.ResourcesChoice.{ResourcesChoice};
ghost use Rattle.rpki_resources.specs.declared.kind.ResourceKind.TheVariants.{AsNumbers};
ghost use Rattle.rpki_resources.specs.Encoded.{AreBlocksOf};
ghost use Rattle.rpki_resources.specs.Kept.{IsChoiceOf};
ghost use Rattle.rpki_resources.specs.Settled.{IsAnchored};
ghost use Rattle.rpki_cert.specs.Cert.{CertParts};
ghost use Rattle.rpki_cert.specs.View.{IsCertAt};
ghost use Rattle.rpki_c.specs.Owned.{AreNotAnchored, HasAnchoredAddresses, HasNoAnchoredAddresses};
ghost use Rattle.rpki_c.specs.Owned.{HasAnchoredNumbers, HasNoAnchoredNumbers};

use crate::certificate_resources::{claimed_addresses, claimed_numbers};
use crate::owned::Addresses;
use crate::status::{OTHER_RESOURCES, OUT_OF_MEMORY, WRONG_RESOURCES};
use rpki_cert::CertView;
use rpki_resources::{Blocks, ChoiceView, ResourcesChoice, SettleError};
use std::alloc::Global;

/// What is listed, of one kind. The error is `OTHER_RESOURCES`, where it is the issuer's; or `OUT_OF_MEMORY`.
fn anchored(alloc: Global, choice: &ChoiceView<'_>) -> Result<Blocks, u8>
    ensures ok { IfOk result (λ own. (v : ResourcesChoice) → IsChoiceOf v choice.now → IsAnchored v own) }
    ensures err { IfErr result (λ status. (v : ResourcesChoice) → IsChoiceOf v choice.now
        → AreNotAnchored v status) }
{
    let Ok(kept) = ResourcesChoice::from_view(alloc, choice) else {
        return Err(OUT_OF_MEMORY);
    };
    match kept.settle_anchor(alloc) {
        Ok(own) => Ok(own),
        Err(SettleError::Inherits) => Err(OTHER_RESOURCES),
        Err(_) => Err(OUT_OF_MEMORY),
    }
}

/// The addresses that a certificate lists. The error is the rule that its resources are critical and in canonical form;
/// or as that of [anchored].
pub(crate) fn anchored_addresses(alloc: Global, cert: &CertView<'_>) -> Result<Addresses, u8>
    ensures ok { IfOk result (λ own. (s : List ℕ) (x : CertParts) → IsCertAt s cert.now x
        → HasAnchoredAddresses x own) }
    ensures err { IfErr result (λ status. (s : List ℕ) (x : CertParts) → IsCertAt s cert.now x
        → HasNoAnchoredAddresses x status) }
{
    let claim = match cert.tbs.named.keyed.ip_resources() {
        Ok(said) => claimed_addresses(said),
        Err(_) => return Err(WRONG_RESOURCES),
    };
    let v4 = match anchored(alloc, &claim.v4) {
        Ok(v4) => v4,
        Err(status) => return Err(status),
    };
    match anchored(alloc, &claim.v6) {
        Ok(v6) => Ok(Addresses { v4, v6 }),
        Err(status) => Err(status),
    }
}

/// The AS numbers that a certificate lists. The error is as that of [anchored_addresses].
pub(crate) fn anchored_numbers(alloc: Global, cert: &CertView<'_>) -> Result<Blocks, u8>
    requires { (s : List ℕ) × (x : CertParts) × IsCertAt s cert.now x }
    ensures ok { IfOk result (λ own. (s : List ℕ) (x : CertParts) → IsCertAt s cert.now x
        → HasAnchoredNumbers x own) }
    ensures fit { IfOk result (λ own. AreBlocksOf AsNumbers own) }
    ensures err { IfErr result (λ status. (s : List ℕ) (x : CertParts) → IsCertAt s cert.now x
        → HasNoAnchoredNumbers x status) }
{
    match cert.tbs.named.keyed.as_resources() {
        Ok(said) => match anchored(alloc, &claimed_numbers(said)) {
            Ok(own) => Ok(own),
            Err(status) => Err(status),
        },
        Err(_) => Err(WRONG_RESOURCES),
    }
}
