//! Resources settled under those of an issuer.

ghost use Rattle.std.specs.Prelude.{◌≡◌, ◌≢◌, ◌≤◌, ◌<◌, ◌+◌, ◌^◌, IfOk, IfErr, map, length};
ghost use Rattle.rpki_resources.specs.declared.choice.ResourcesChoice.{ResourcesChoice};
ghost use Rattle.rpki_resources.specs.declared.resources.IpResources.{IpResources};
ghost use Rattle.rpki_resources.specs.declared.kind.ResourceKind.TheVariants.{AsNumbers};
ghost use Rattle.rpki_resources.specs.Encoded.{AreBlocksOf};
ghost use Rattle.rpki_resources.specs.Kept.{IsChoiceOf, AreIpResourcesOf};
ghost use Rattle.rpki_c.specs.Filled.{IsFilled};
ghost use Rattle.rpki_c.specs.Resources.{ip_entry, as_entry, IsFilledAt};
ghost use Rattle.rpki_c.specs.Settling.{IsSettledBy, IsOverclaimed, settled_entries, AreSettledUnder};
ghost use Rattle.rpki_c.specs.Settling.{AreAsSettledUnder, AreFitting};

use crate::as_blocks::{AsEntry, entry_of as as_entry_of};
use crate::held::{held, held_as};
use crate::ip_blocks::{IpEntry, entry_of};
use crate::status::{OTHER_RESOURCES, OUT_OF_MEMORY, TOO_SMALL};
use rpki_cert::Overclaim;
use rpki_resources::{
    AddressFamily, Block, Blocks, ChoiceView, IpResourcesView, ResourcesChoice, SettleError,
};
use std::alloc::Global;

/// What is settled of one kind.
///
/// Returns `Overclaim` where the policy rejects what the issuer doesn't have; `OutOfMemory` if allocation fails.
pub(crate) fn settle(
    alloc: Global,
    policy: Overclaim,
    choice: &ChoiceView<'_>,
    issuer: &Blocks,
) -> Result<Blocks, SettleError>
    ensures settled { IfOk result (λ x. (v : ResourcesChoice) → IsChoiceOf v choice.now
        → IsSettledBy policy v issuer.now x) }
    ensures refused { IfErr result (λ e. e ≡ SettleError.Overclaim → (v : ResourcesChoice) → IsChoiceOf v choice.now
        → IsOverclaimed policy v issuer.now) }
    ensures some { IfOk result (λ _. (v : ResourcesChoice) × IsChoiceOf v choice.now) }
{
    let kept = ResourcesChoice::from_view(alloc, choice)?;
    match policy {
        Overclaim::Refuse => match kept.settle(alloc, issuer) {
            Ok(blocks) => Ok(blocks),
            Err(error) => Err(error),
        },
        Overclaim::Trim => match kept.trim(alloc, issuer) {
            Ok(blocks) => Ok(blocks),
            Err(_) => Err(SettleError::OutOfMemory),
        },
    }
}

/// How an error is passed.
pub(crate) fn settle_number(error: SettleError) -> u8
    ensures overclaim { error ≡ SettleError.Overclaim → result ≡ 58 }
    ensures memory { error ≢ SettleError.Overclaim → result ≡ 7 }
{
    match error {
        SettleError::Overclaim => OTHER_RESOURCES,
        _ => OUT_OF_MEMORY,
    }
}

/// Writes how the addresses of a family are passed to the array, from this place on.
fn write_blocks(family: AddressFamily, blocks: &[Block], entries: &mut [IpEntry], from: usize)
    requires { from + length blocks.now ≤ length entries.old }
    ensures { IsFilledAt from (map (ip_entry family) blocks.now) entries.old entries.new }
{
    let mut rest = blocks;
    let mut number = from;
    'each: while let Some((first, following)) = rest.split_first() {
        entries[number] = entry_of(family, *first);
        number += 1;
        rest = following;
    }
}

/// Fills addresses of both families in.
pub(crate) fn fill(v4: &[Block], v6: &[Block], entries: &mut [IpEntry], count: &mut usize) -> u8
    requires { length v4.now + length v6.now < 2 ^ 64 }
    ensures { IsFilled (settled_entries v4.now v6.now) result entries.old entries.new count.new }
{
    let first = v4.len();
    let all = first + v6.len();
    *count = all;
    if entries.len() < all {
        return TOO_SMALL;
    }
    write_blocks(AddressFamily::Ipv4, v4, entries, 0);
    write_blocks(AddressFamily::Ipv6, v6, entries, first);
    0
}

/// Settles addresses under those of an issuer, and fills them in.
pub(crate) fn settle_addresses(
    alloc: Global,
    policy: Overclaim,
    claim: &IpResourcesView<'_>,
    issuer: &[IpEntry],
    entries: &mut [IpEntry],
    count: &mut usize,
) -> u8
    ensures { (v : IpResources) → AreIpResourcesOf v claim.now
        → AreSettledUnder policy v issuer.now result entries.old entries.new count.old count.new }
{
    let Ok(v4) = held(alloc, AddressFamily::Ipv4, issuer) else {
        return OUT_OF_MEMORY;
    };
    let Ok(v6) = held(alloc, AddressFamily::Ipv6, issuer) else {
        return OUT_OF_MEMORY;
    };
    let own4 = match settle(alloc, policy, &claim.v4, &v4) {
        Ok(own4) => own4,
        Err(error) => return settle_number(error),
    };
    let own6 = match settle(alloc, policy, &claim.v6, &v6) {
        Ok(own6) => own6,
        Err(error) => return settle_number(error),
    };
    fill(own4.as_slice(), own6.as_slice(), entries, count)
}

/// Fills AS numbers in.
pub(crate) fn fill_as(blocks: &[Block], entries: &mut [AsEntry], count: &mut usize) -> u8
    requires { AreBlocksOf AsNumbers blocks.now }
    ensures { IsFilled (map as_entry blocks.now) result entries.old entries.new count.new }
{
    *count = blocks.len();
    if entries.len() < blocks.len() {
        return TOO_SMALL;
    }
    let mut rest = blocks;
    let mut number = 0;
    'each: while let Some((first, following)) = rest.split_first() {
        entries[number] = as_entry_of(*first);
        number += 1;
        rest = following;
    }
    0
}

/// Settles AS numbers under those of an issuer, and fills them in.
pub(crate) fn settle_numbers(
    alloc: Global,
    policy: Overclaim,
    claim: &ChoiceView<'_>,
    issuer: &[AsEntry],
    entries: &mut [AsEntry],
    count: &mut usize,
) -> u8
    requires { (v : ResourcesChoice) → IsChoiceOf v claim.now → AreFitting v }
    ensures { (v : ResourcesChoice) → IsChoiceOf v claim.now
        → AreAsSettledUnder policy v issuer.now result entries.old entries.new count.old count.new }
{
    let Ok(numbers) = held_as(alloc, issuer) else {
        return OUT_OF_MEMORY;
    };
    match settle(alloc, policy, claim, &numbers) {
        Ok(own) => fill_as(own.as_slice(), entries, count),
        Err(error) => settle_number(error),
    }
}
