//! The resources that a certificate has under those of an authority of a path.

ghost use Rattle.std.specs.Prelude.{List, ℕ, IfOk, IfErr};
ghost use Rattle.rpki_resources.specs.declared.choice.ResourcesChoice.{ResourcesChoice};
ghost use Rattle.rpki_resources.specs.declared.resources.IpResources.{IpResources};
ghost use Rattle.rpki_resources.specs.declared.kind.ResourceKind.TheVariants.{AsNumbers};
ghost use Rattle.rpki_resources.specs.Encoded.{AreBlocksOf};
ghost use Rattle.rpki_resources.specs.Kept.{IsChoiceOf, AreIpResourcesOf};
ghost use Rattle.rpki_cert.specs.Cert.{CertParts};
ghost use Rattle.rpki_cert.specs.View.{IsCertAt};
ghost use Rattle.rpki_c.specs.Settling.{AreFitting};
ghost use Rattle.rpki_c.specs.Owned.{AreOwned, AreNotOwned, AreAsOwned, AreAsNotOwned, GivesAddresses, GivesNumbers};

use crate::as_blocks::AsEntry;
use crate::certificate_resources::{claimed_addresses, claimed_numbers};
use crate::held::{are_as_untold, are_untold, held, held_as};
use crate::ip_blocks::IpEntry;
use crate::settling::{settle, settle_number};
use crate::status::{NO_ANSWER, NO_POLICIES, OUT_OF_MEMORY, WRONG_RESOURCES};
use rpki_cert::{CertView, KnownView, Overclaim};
use rpki_resources::{AddressFamily, Blocks, ChoiceView, IpResourcesView};
use std::alloc::Global;

/// Addresses of both families.
#[derive(Drop)]
pub(crate) struct Addresses {
    /// Those of IP version 4.
    pub(crate) v4: Blocks,
    /// Those of IP version 6.
    pub(crate) v6: Blocks,
}

/// Settles addresses under those of an issuer. The error is `OTHER_RESOURCES` or `OUT_OF_MEMORY`.
pub(crate) fn own_addresses(
    alloc: Global,
    policy: Overclaim,
    claim: &IpResourcesView<'_>,
    issuer: &[IpEntry],
) -> Result<Addresses, u8>
    ensures ok { IfOk result (λ own. (v : IpResources) → AreIpResourcesOf v claim.now
        → AreOwned policy v issuer.now own) }
    ensures err { IfErr result (λ status. (v : IpResources) → AreIpResourcesOf v claim.now
        → AreNotOwned policy v issuer.now status) }
{
    let Ok(over4) = held(alloc, AddressFamily::Ipv4, issuer) else {
        return Err(OUT_OF_MEMORY);
    };
    let Ok(over6) = held(alloc, AddressFamily::Ipv6, issuer) else {
        return Err(OUT_OF_MEMORY);
    };
    let v4 = match settle(alloc, policy, &claim.v4, &over4) {
        Ok(v4) => v4,
        Err(error) => return Err(settle_number(error)),
    };
    match settle(alloc, policy, &claim.v6, &over6) {
        Ok(v6) => Ok(Addresses { v4, v6 }),
        Err(error) => Err(settle_number(error)),
    }
}

/// Settles AS numbers under those of an issuer. The error is as that of [own_addresses].
pub(crate) fn own_numbers(
    alloc: Global,
    policy: Overclaim,
    claim: &ChoiceView<'_>,
    issuer: &[AsEntry],
) -> Result<Blocks, u8>
    requires { (v : ResourcesChoice) → IsChoiceOf v claim.now → AreFitting v }
    ensures ok { IfOk result (λ own. (v : ResourcesChoice) → IsChoiceOf v claim.now
        → AreAsOwned policy v issuer.now own) }
    ensures fit { IfOk result (λ own. AreBlocksOf AsNumbers own) }
    ensures err { IfErr result (λ status. (v : ResourcesChoice) → IsChoiceOf v claim.now
        → AreAsNotOwned policy v issuer.now status) }
{
    let Ok(over) = held_as(alloc, issuer) else {
        return Err(OUT_OF_MEMORY);
    };
    match settle(alloc, policy, claim, &over) {
        Ok(own) => {
            let _blocks = own.as_slice();
            Ok(own)
        }
        Err(error) => Err(settle_number(error)),
    }
}

/// The addresses that the certificate, whose extensions say this, has under these blocks of its issuer.
///
/// The error is, in this order: `NO_ANSWER`, where a block says that addresses are those of an issuer; the rule that a
/// certificate has policies; the rule that its resources are critical and in canonical form; `OTHER_RESOURCES`; or
/// `OUT_OF_MEMORY`.
pub(crate) fn addresses_under(
    alloc: Global,
    cert: &CertView<'_>,
    known: &KnownView,
    issuer: &[IpEntry],
) -> Result<Addresses, u8>
    ensures { (s : List ℕ) (x : CertParts) → IsCertAt s cert.now x
        → GivesAddresses known.now x issuer.now result }
{
    if are_untold(issuer) {
        return Err(NO_ANSWER);
    }
    let Some(policy) = known.overclaim else {
        return Err(NO_POLICIES);
    };
    match cert.tbs.named.keyed.ip_resources() {
        Ok(said) => match own_addresses(alloc, policy, &claimed_addresses(said), issuer) {
            Ok(own) => Ok(own),
            Err(status) => Err(status),
        },
        Err(_) => Err(WRONG_RESOURCES),
    }
}

/// As [addresses_under], of AS numbers.
pub(crate) fn numbers_under(
    alloc: Global,
    cert: &CertView<'_>,
    known: &KnownView,
    issuer: &[AsEntry],
) -> Result<Blocks, u8>
    requires { (s : List ℕ) × (x : CertParts) × IsCertAt s cert.now x }
    ensures gives { (s : List ℕ) (x : CertParts) → IsCertAt s cert.now x
        → GivesNumbers known.now x issuer.now result }
    ensures fit { IfOk result (λ own. AreBlocksOf AsNumbers own) }
{
    if are_as_untold(issuer) {
        return Err(NO_ANSWER);
    }
    let Some(policy) = known.overclaim else {
        return Err(NO_POLICIES);
    };
    match cert.tbs.named.keyed.as_resources() {
        Ok(said) => match own_numbers(alloc, policy, &claimed_numbers(said), issuer) {
            Ok(own) => Ok(own),
            Err(status) => Err(status),
        },
        Err(_) => Err(WRONG_RESOURCES),
    }
}
