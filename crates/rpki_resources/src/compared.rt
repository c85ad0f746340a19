//! Whether resources encompass others, by one pass over the octets of both: what is compared is checked as it is read.

ghost use Rattle.std.specs.Prelude.{◌≡◌, ◌≤◌, ◌↔◌, List, Some, IsTrue, IfSome, IfNone};
ghost use Rattle.rpki_der.specs.Cursor.{left};
ghost use Rattle.rpki_resources.specs.declared.block.Block.{Block};
ghost use Rattle.rpki_resources.specs.declared.choice.ResourcesChoice.{ResourcesChoice};
ghost use Rattle.rpki_resources.specs.Listed.{AreBlocks, SpellsFollowing};
ghost use Rattle.rpki_resources.specs.Unread.{IsUnread, AreWithin, HasNoAnswer};
ghost use Rattle.rpki_resources.specs.Compared.{BothFollow, NotBothFollow, ArePart, AreNotBoth, AreIpWithin};
ghost use Rattle.rpki_resources.specs.Compared.{HasNoIpAnswer, AreAsWithin, HasNoAsAnswer};

use crate::block::Block;
use crate::block_list::take_next;
use crate::family::AddressFamily;
use crate::frames::{Unread, find_as, find_ip};
use crate::kind::ResourceKind;
use rpki_der::Constructed;

/// Whether all of the octets are blocks that may be after this number, or there are none.
fn are_following(octets: Constructed<'_>, kind: ResourceKind, last: u128) -> bool
    ensures { IsTrue result ↔ ((bs : List Block) × SpellsFollowing kind (Some last) bs (left octets.entry)) }
{
    let mut rest = octets;
    let mut high = last;
    'each: while !rest.is_empty() {
        match take_next(&mut rest, kind, Some(high)) {
            Ok(block) => high = block.high,
            Err(_) => return false,
        }
    }
    true
}

/// Whether all of the octets are blocks in canonical form, one at least.
fn are_blocks(octets: Constructed<'_>, kind: ResourceKind) -> bool
    ensures { IsTrue result ↔ ((bs : List Block) × AreBlocks kind bs (left octets.entry)) }
{
    let mut rest = octets;
    match take_next(&mut rest, kind, None) {
        Ok(first) => are_following(rest, kind, first.high),
        Err(_) => false,
    }
}

/// Whether each number of the inner block is in the outer one.
fn holds(outer: Block, inner: Block) -> bool
    ensures { IsTrue result ↔ ((outer.low ≤ inner.low) × (inner.high ≤ outer.high)) }
{
    outer.low <= inner.low && inner.high <= outer.high
}

/// The answer, where each of both octets are blocks that may be after a number, or there are none.
fn answered(
    answer: bool,
    kind: ResourceKind,
    inners: Constructed<'_>,
    inner: u128,
    outers: Constructed<'_>,
    outer: u128,
) -> Option<bool>
    ensures some { IfSome result (λ b. (b ≡ answer)
        × BothFollow kind inner (left inners.entry) outer (left outers.entry)) }
    ensures none { IfNone result (NotBothFollow kind inner (left inners.entry) outer (left outers.entry)) }
{
    if !are_following(inners, kind, inner) {
        return None;
    }
    if !are_following(outers, kind, outer) {
        return None;
    }
    Some(answer)
}

/// Whether each number of some blocks is in others; None where either octets aren't blocks in canonical form, one at
/// least. Each block is read once.
fn is_part(part: Constructed<'_>, whole: Constructed<'_>, kind: ResourceKind) -> Option<bool>
    ensures some { IfSome result (λ b. ArePart kind (left part.entry) (left whole.entry) b) }
    ensures none { IfNone result (AreNotBoth kind (left part.entry) (left whole.entry)) }
{
    let mut inners = part;
    let mut outers = whole;
    let Ok(mut inner) = take_next(&mut inners, kind, None) else {
        return None;
    };
    let Ok(mut outer) = take_next(&mut outers, kind, None) else {
        return None;
    };
    'pairs: loop {
        if outer.high < inner.low {
            if outers.is_empty() {
                return answered(false, kind, inners, inner.high, outers, outer.high);
            }
            match take_next(&mut outers, kind, Some(outer.high)) {
                Ok(block) => outer = block,
                Err(_) => return None,
            }
        } else if holds(outer, inner) {
            if inners.is_empty() {
                return answered(true, kind, inners, inner.high, outers, outer.high);
            }
            match take_next(&mut inners, kind, Some(inner.high)) {
                Ok(block) => inner = block,
                Err(_) => return None,
            }
        } else {
            return answered(false, kind, inners, inner.high, outers, outer.high);
        }
    }
}

/// Whether there are resources of the kind that were found.
fn are_there(found: Unread<'_>, kind: ResourceKind) -> bool
    ensures { IsTrue result ↔ ((v : ResourcesChoice) × IsUnread kind found.entry v) }
{
    match found {
        Unread::Missing => true,
        Unread::Inherit => true,
        Unread::Listed(octets) => are_blocks(octets, kind),
    }
}

/// Whether resources are within those of an issuer; None where either are none of the kind, or where they list blocks,
/// and the issuer's octets don't say which it has.
fn is_within(inner: Unread<'_>, outer: Unread<'_>, kind: ResourceKind) -> Option<bool>
    ensures some { IfSome result (λ b. AreWithin kind inner.entry outer.entry b) }
    ensures none { IfNone result (HasNoAnswer kind inner.entry outer.entry) }
{
    match inner {
        Unread::Listed(part) => match outer {
            Unread::Listed(whole) => is_part(part, whole, kind),
            Unread::Inherit => None,
            Unread::Missing => {
                if are_blocks(part, kind) {
                    return Some(false);
                }
                None
            }
        },
        _ => {
            if are_there(outer, kind) {
                return Some(true);
            }
            None
        }
    }
}

/// Whether the addresses of the second contents of the extension of IP address blocks (RFC 3779 2.2.3, RFC 6487 4.8.10)
/// are within those of the first, its issuer's (RFC 6487 7.2): in each family none are listed, or they are the
/// issuer's, or each of those that are listed is listed by the first. It reads each block once and allocates nothing.
///
/// None where either octets aren't such contents, and where the second lists addresses of a family of which the first
/// has those of its own issuer.
pub fn ip_resources_encompass(outer: &[u8], inner: &[u8]) -> Option<bool>
    ensures some { IfSome result (λ answer. AreIpWithin outer.now inner.now answer) }
    ensures none { IfNone result (HasNoIpAnswer outer.now inner.now) }
{
    let Some(issuer) = find_ip(outer) else {
        return None;
    };
    let Some(subject) = find_ip(inner) else {
        return None;
    };
    let Some(v4) = is_within(
        subject.v4,
        issuer.v4,
        ResourceKind::Addresses(AddressFamily::Ipv4),
    ) else {
        return None;
    };
    let Some(v6) = is_within(
        subject.v6,
        issuer.v6,
        ResourceKind::Addresses(AddressFamily::Ipv6),
    ) else {
        return None;
    };
    Some(v4 && v6)
}

/// As [ip_resources_encompass], of the contents of two extensions of AS identifiers (RFC 3779 3.2.3, RFC 6487 4.8.11).
pub fn as_resources_encompass(outer: &[u8], inner: &[u8]) -> Option<bool>
    ensures some { IfSome result (λ answer. AreAsWithin outer.now inner.now answer) }
    ensures none { IfNone result (HasNoAsAnswer outer.now inner.now) }
{
    let Some(issuer) = find_as(outer) else {
        return None;
    };
    let Some(subject) = find_as(inner) else {
        return None;
    };
    is_within(subject, issuer, ResourceKind::AsNumbers)
}
