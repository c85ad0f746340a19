//! The resources that a certificate has under those of its issuer.

ghost use Rattle.std.specs.Prelude.{◌≡◌};
ghost use Rattle.rpki_c.specs.Settling.{claimed_addresses, claimed_numbers, IsIpSettled, IsAsSettled};

use crate::as_blocks::AsEntry;
use crate::held::{are_as_untold, are_untold};
use crate::ip_blocks::IpEntry;
use crate::policies::read_policy;
use crate::settling::{settle_addresses, settle_numbers};
use crate::status::{NO_ANSWER, WRONG_RESOURCES};
use rpki_resources::{ChoiceView, IpResourcesView};
use std::alloc::Global;

/// The resources that an extension of addresses says; none of either family where it isn't there.
pub(crate) fn claimed_addresses<'a>(found: Option<IpResourcesView<'a>>) -> IpResourcesView<'a>
    ensures { result ≡ claimed_addresses found.entry }
{
    match found {
        Some(claim) => claim,
        None => IpResourcesView {
            v4: ChoiceView::Missing,
            v6: ChoiceView::Missing,
        },
    }
}

/// The resources that an extension of AS numbers says; none where it isn't there.
pub(crate) fn claimed_numbers<'a>(found: Option<ChoiceView<'a>>) -> ChoiceView<'a>
    ensures { result ≡ claimed_numbers found.entry }
{
    match found {
        Some(claim) => claim,
        None => ChoiceView::Missing,
    }
}

/// Reads a resource certificate, and writes the addresses that it has under those of its issuer: for each family it
/// claims none, its issuer's, or those that it lists. With the policy of RFC 6484 the issuer has to have what is listed
/// (RFC 6487 7.2); with that of RFC 8360 so much of it is written as the issuer has (RFC 8360 4.2.4.4). The issuer's
/// addresses are blocks in any order, as this call and `rpki_ip_blocks` write them. There is an entry for each block,
/// in canonical form, those of IP version 4 first.
///
/// The status is 0, and `count` says how many entries were written; the rest of the array is unchanged. It is
/// `TOO_SMALL` where the array has no room for all of them: `count` says how many there are, and no entry is written.
/// Else neither is written, and it is, in this order: `NO_ANSWER`, where a block of the issuer says that addresses are
/// those of its own issuer; as of `rpki_certificate_extensions`; the rule that a certificate has policies; the rule
/// that policy and resources are of one version (RFC 8360 4.2), so that one extension at most says which addresses
/// these are; the rule that its resources are critical and in canonical form; `OTHER_RESOURCES`, where the issuer
/// doesn't have what is listed; or `OUT_OF_MEMORY`.
#[unsafe(no_mangle)]
pub extern "C" fn rpki_ip_settle(
    alloc: Global,
    octets: &[u8],
    issuer: &[IpEntry],
    entries: &mut [IpEntry],
    count: &mut usize,
) -> u8
    ensures { IsIpSettled octets.now issuer.now result entries.old entries.new count.old count.new }
{
    if are_untold(issuer) {
        return NO_ANSWER;
    }
    let read = match read_policy(octets) {
        Ok(read) => read,
        Err(status) => return status,
    };
    match read.0.cert.tbs.named.keyed.ip_resources() {
        Ok(said) => settle_addresses(
            alloc,
            read.1,
            &claimed_addresses(said),
            issuer,
            entries,
            count,
        ),
        Err(_) => WRONG_RESOURCES,
    }
}

/// As [rpki_ip_settle], of AS numbers, in their order.
#[unsafe(no_mangle)]
pub extern "C" fn rpki_as_settle(
    alloc: Global,
    octets: &[u8],
    issuer: &[AsEntry],
    entries: &mut [AsEntry],
    count: &mut usize,
) -> u8
    ensures { IsAsSettled octets.now issuer.now result entries.old entries.new count.old count.new }
{
    if are_as_untold(issuer) {
        return NO_ANSWER;
    }
    let read = match read_policy(octets) {
        Ok(read) => read,
        Err(status) => return status,
    };
    match read.0.cert.tbs.named.keyed.as_resources() {
        Ok(said) => settle_numbers(
            alloc,
            read.1,
            &claimed_numbers(said),
            issuer,
            entries,
            count,
        ),
        Err(_) => WRONG_RESOURCES,
    }
}
