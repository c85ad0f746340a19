//! What a certificate claims of resources, and what of it is settled (RFC 6487 7.2, RFC 8360 4.2.4).

ghost use Rattle.std.specs.Prelude.{◌≡◌, true, IfOk, IfErr};
ghost use Rattle.rpki_resources.specs.declared.block.Block.{Block};
ghost use Rattle.rpki_resources.specs.declared.resources.IpResources.{IpResources};
ghost use Rattle.rpki_resources.specs.declared.resources.AsResources.{AsResources};
ghost use Rattle.rpki_valid.specs.declared.resource.set.ResourceSet.{ResourceSet};
ghost use Rattle.rpki_cert.specs.Known.{certificate_policies};
ghost use Rattle.rpki_cert.specs.ExtensionContent.{SpellsPolicies};
ghost use Rattle.rpki_cert.specs.RuleWords.{HasSome};
ghost use Rattle.rpki_cert.specs.ResourceExtensions.{AreWellFormed, AreOwn};
ghost use Rattle.rpki_valid.specs.ResourceSet.{AreAddressesOf, AreNumbersOf, ListsAddresses, ListsNumbers};
ghost use Rattle.rpki_valid.specs.ResourceSet.{IsOnlyClaim, IsSettledBy, AreSettledBy};
ghost use Rattle.rpki_valid.specs.ResourceSet.{AreAnchored, IsUnsettled, IsKindUnsettled, IsUnanchored, IsOut};
ghost use Rattle.rpki_valid.specs.ResourceSet.{SettlesUnder, HasOwnResources, SettlesOwn};

use crate::resource::set::ResourceSet;
use crate::verify::unverified;
use rpki::der::DecodeError;
use rpki::repository::error::ValidationError;
use rpki_cert::{Overclaim, TbsCert};
use rpki_resources::{
    AsResources, Blocks, ChoiceView, IpResources, IpResourcesView, ResourcesChoice, SettleError,
};
use std::alloc::{AllocError, Global};

/// What a certificate claims of resources.
#[derive(Debug, Drop)]
pub struct Claim {
    /// The addresses.
    pub addresses: IpResources,
    /// The numbers of autonomous systems.
    pub numbers: AsResources,
}

/// The error of an allocation that failed.
fn out_of_memory() -> ValidationError
    ensures { IsOut result }
{
    ValidationError::Decoding(DecodeError::OutOfMemory)
}

/// Keeps addresses that were read in place; where no extension is there, no kind is named.
///
/// Returns `AllocError` if allocation fails, only where blocks are listed.
fn keep_addresses(
    alloc: Global,
    found: Option<IpResourcesView<'_>>,
) -> Result<IpResources, AllocError>
    ensures kept { IfOk result (λ v. AreAddressesOf v found.entry) }
    ensures only { IfOk result (λ v. (w : IpResources) → AreAddressesOf w found.entry → w ≡ v) }
    ensures memory { IfErr result (λ _. ListsAddresses found.entry) }
{
    match found {
        Some(view) => {
            let v4 = ResourcesChoice::from_view(alloc, &view.v4)?;
            let v6 = ResourcesChoice::from_view(alloc, &view.v6)?;
            Ok(IpResources { v4, v6 })
        }
        None => Ok(IpResources {
            v4: ResourcesChoice::Missing,
            v6: ResourcesChoice::Missing,
        }),
    }
}

/// Keeps numbers that were read in place; where no extension is there, none are named.
///
/// Returns `AllocError` if allocation fails, only where blocks are listed.
fn keep_numbers(alloc: Global, found: Option<ChoiceView<'_>>) -> Result<AsResources, AllocError>
    ensures kept { IfOk result (λ v. AreNumbersOf v found.entry) }
    ensures only { IfOk result (λ v. (w : AsResources) → AreNumbersOf w found.entry → w ≡ v) }
    ensures memory { IfErr result (λ _. ListsNumbers found.entry) }
{
    match found {
        Some(view) => {
            let numbers = ResourcesChoice::from_view(alloc, &view)?;
            Ok(AsResources { numbers })
        }
        None => Ok(AsResources {
            numbers: ResourcesChoice::Missing,
        }),
    }
}

/// What is settled of one kind, as the policy says.
///
/// Returns `Overclaim` if the policy refuses what the issuer doesn't have; `OutOfMemory` if allocation fails.
fn settle_kind(
    alloc: Global,
    policy: Overclaim,
    choice: &ResourcesChoice,
    issuer: &Blocks,
) -> Result<Blocks, SettleError>
    ensures settled { IfOk result (λ x. IsSettledBy policy choice.now issuer.now x) }
    ensures refused { IfErr result (λ e. IsKindUnsettled (IsSettledBy policy choice.now issuer.now) e) }
{
    match policy {
        Overclaim::Refuse => choice.settle(alloc, issuer),
        Overclaim::Trim => match choice.trim(alloc, issuer) {
            Ok(blocks) => Ok(blocks),
            Err(_) => Err(SettleError::OutOfMemory),
        },
    }
}

impl Claim {
    /// What is settled of each kind under the issuer's resources, as the policy says.
    ///
    /// Returns `Overclaim` if the policy refuses what the issuer doesn't have; `OutOfMemory` if allocation fails.
    fn settle(
        &self,
        alloc: Global,
        policy: Overclaim,
        issuer: &ResourceSet,
    ) -> Result<ResourceSet, SettleError>
        ensures settled { IfOk result (λ x. AreSettledBy policy self.now issuer.now x) }
        ensures refused { IfErr result (λ e. IsUnsettled (AreSettledBy policy self.now issuer.now) e) }
    {
        let ipv4 = match settle_kind(alloc, policy, &self.addresses.v4, &issuer.ipv4) {
            Ok(blocks) => blocks,
            Err(e) => return Err(e),
        };
        let ipv6 = match settle_kind(alloc, policy, &self.addresses.v6, &issuer.ipv6) {
            Ok(blocks) => blocks,
            Err(e) => return Err(e),
        };
        match settle_kind(alloc, policy, &self.numbers.numbers, &issuer.asn) {
            Ok(asn) => Ok(ResourceSet { ipv4, ipv6, asn }),
            Err(e) => Err(e),
        }
    }

    /// The resources of a trust anchor that claims these.
    ///
    /// Returns `Inherits` if it claims those of an issuer; `OutOfMemory` if allocation fails.
    fn settle_anchor(&self, alloc: Global) -> Result<ResourceSet, SettleError>
        ensures settled { IfOk result (λ x. AreAnchored self.now x) }
        ensures refused { IfErr result (λ e. IsUnanchored self.now e) }
    {
        let ipv4 = match self.addresses.v4.settle_anchor(alloc) {
            Ok(blocks) => blocks,
            Err(e) => return Err(e),
        };
        let ipv6 = match self.addresses.v6.settle_anchor(alloc) {
            Ok(blocks) => blocks,
            Err(e) => return Err(e),
        };
        match self.numbers.numbers.settle_anchor(alloc) {
            Ok(asn) => Ok(ResourceSet { ipv4, ipv6, asn }),
            Err(e) => Err(e),
        }
    }
}

/// What the certificate claims of resources.
///
/// Returns `OutOfMemory` if allocation fails.
fn claim_of(cert: &TbsCert, alloc: Global) -> Result<Claim, ValidationError>
    requires { AreWellFormed cert.now.extensions }
    ensures claimed { IfOk result (λ c. IsOnlyClaim cert.now.extensions c) }
    ensures refused { IfErr result (λ e. IsOut e) }
{
    let found = match cert.ip_resources() {
        Ok(found) => found,
        Err(e) => return Err(e),
    };
    let addresses = match keep_addresses(alloc, found) {
        Ok(addresses) => addresses,
        Err(_) => return Err(out_of_memory()),
    };
    let listed = match cert.as_resources() {
        Ok(listed) => listed,
        Err(e) => return Err(e),
    };
    match keep_numbers(alloc, listed) {
        Ok(numbers) => Ok(Claim { addresses, numbers }),
        Err(_) => Err(out_of_memory()),
    }
}

/// The resources of the certificate under those of its issuer, by its own policy: with that of RFC 6484 what it
/// claims, which the issuer has to have; with that of RFC 8360 so much of it as the issuer has.
///
/// The error is that of a certificate that claims what its issuer doesn't have; else `OutOfMemory` if allocation
/// fails.
pub(crate) fn settle(
    cert: &TbsCert,
    alloc: Global,
    issuer: &ResourceSet,
) -> Result<ResourceSet, ValidationError>
    requires policy { HasSome certificate_policies true SpellsPolicies cert.now.extensions }
    requires form { AreWellFormed cert.now.extensions }
    ensures { SettlesUnder cert.now.extensions issuer.now result }
{
    let policy = match cert.overclaim() {
        Ok(Some(policy)) => policy,
        Ok(None) => return Err(unverified("RFC 6487 7.2: resources that the issuer does not have")),
        Err(e) => return Err(e),
    };
    let claim = match claim_of(cert, alloc) {
        Ok(claim) => claim,
        Err(e) => return Err(e),
    };
    match claim.settle(alloc, policy, issuer) {
        Ok(resources) => Ok(resources),
        Err(SettleError::Overclaim) => {
            Err(unverified("RFC 6487 7.2: resources that the issuer does not have"))
        }
        Err(_) => Err(out_of_memory()),
    }
}

/// The resources of a certificate that are its own, as those of a trust anchor are: what it lists.
///
/// Returns `OutOfMemory` if allocation fails.
pub fn settle_anchor(cert: &TbsCert, alloc: Global) -> Result<ResourceSet, ValidationError>
    requires form { AreWellFormed cert.now.extensions }
    requires own { AreOwn cert.now.extensions }
    ensures settled { SettlesOwn cert.now.extensions result }
    ensures only { IfOk result (λ v. (w : ResourceSet) → HasOwnResources cert.now.extensions w → w ≡ v) }
{
    let claim = match claim_of(cert, alloc) {
        Ok(claim) => claim,
        Err(e) => return Err(e),
    };
    match claim.settle_anchor(alloc) {
        Ok(resources) => Ok(resources),
        Err(_) => Err(out_of_memory()),
    }
}
