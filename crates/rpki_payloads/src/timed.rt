//! Payloads with the second until which they are valid.

ghost use Rattle.std.specs.Prelude.{◌≡◌, ◌↔◌, IsTrue, IfOk, MatchOption, map, slice_get};
ghost use Rattle.std.specs.List.{Contains, flat_map};
ghost use Rattle.std.specs.List.Sorted.{IsStrictlySortedBy};
ghost use Rattle.rpki_payloads.specs.declared.timed.TimedVrp.{TimedVrp as T};
ghost use Rattle.rpki_payloads.specs.Payloads.{AreUnitedTimed};
ghost use Rattle.rpki_payloads.specs.Sets.{IsSetOf};
ghost use Rattle.rpki_payloads.specs.Timed.{AreLatest, IsLatest, endless, timed_cmp};

use crate::order::sort_once;
use crate::payloads::Payloads;
use crate::vrp::Vrp;
use std::alloc::{AllocError, Global};

/// The last second of the year 9999, until which a payload is valid that has no end of its own (RFC 5280 4.1.2.5).
const NO_END: u64 = 253_402_300_799;

/// A prefix that an AS may announce, and until when. In order the payload decides, and then the end.
#[derive(Clone, Copy, Debug, PartialEq, Eq, PartialOrd, Ord)]
pub struct TimedVrp {
    /// The payload.
    pub vrp: Vrp,
    /// The last second in which it is valid, since 1970-01-01T00:00:00Z.
    pub expires: u64,
}

/// Puts the payloads in order, each with each of its ends once.
pub(crate) fn sort_timed(all: &mut Vec<TimedVrp>)
    ensures { IsSetOf timed_cmp (Contains all.old.items) all.new.items }
{
    sort_once(all);
}

/// Whether the next one has the same payload.
fn is_followed(first: TimedVrp, following: &[TimedVrp]) -> bool
    ensures { IsTrue result ↔ MatchOption (slice_get following.now 0) ⊥ (λ next. next.vrp ≡ first.vrp) }
{
    match following.split_first() {
        Some((next, _)) => next.vrp == first.vrp,
        None => false,
    }
}

/// The last of those with the same payload, where they are in order.
fn last_of_each(alloc: Global, all: &[TimedVrp]) -> Result<Vec<TimedVrp>, AllocError>
    requires { IsStrictlySortedBy timed_cmp all.now }
    ensures { IfOk result (λ kept. (t : T) → Contains kept.items t ↔ IsLatest all.now t) }
{
    let mut kept = Vec::new(alloc);
    let mut rest = all;
    'all: while let Some((first, following)) = rest.split_first() {
        if !is_followed(*first, following) {
            kept.push(*first)?;
        }
        rest = following;
    }
    Ok(kept)
}

/// Each payload once, with its latest end, in order.
///
/// Returns `AllocError` if allocation fails.
pub fn latest_of(alloc: Global, mut all: Vec<TimedVrp>) -> Result<Vec<TimedVrp>, AllocError>
    ensures { IfOk result (λ latest. AreLatest all.items latest.items) }
{
    sort_timed(&mut all);
    let mut latest = last_of_each(alloc, all.as_slice())?;
    sort_timed(&mut latest);
    Ok(latest)
}

/// Those under each locator.
fn joined_timed(alloc: Global, all: &[Payloads]) -> Result<Vec<TimedVrp>, AllocError>
    ensures { IfOk result (λ timed. timed.items ≡ flat_map (λ p. p.timed) all.now) }
{
    let mut timed = Vec::new(alloc);
    'all: for one in all {
        timed.extend_from_slice(one.timed())?;
    }
    Ok(timed)
}

/// The prefixes of all locators: each once, with its latest end under any of them, in order.
///
/// Returns `AllocError` if allocation fails.
pub(crate) fn united_timed(alloc: Global, all: &[Payloads]) -> Result<Vec<TimedVrp>, AllocError>
    ensures { IfOk result (λ timed. AreUnitedTimed all.now timed.items) }
{
    let timed = joined_timed(alloc, all)?;
    latest_of(alloc, timed)
}

/// The payloads, with no end of their own.
pub(crate) fn endless_of(alloc: Global, vrps: &[Vrp]) -> Result<Vec<TimedVrp>, AllocError>
    ensures { IfOk result (λ all. all.items ≡ map endless vrps.now) }
{
    let mut all = Vec::new(alloc);
    'vrps: for vrp in vrps {
        all.push(TimedVrp {
            vrp: *vrp,
            expires: NO_END,
        })?;
    }
    Ok(all)
}
