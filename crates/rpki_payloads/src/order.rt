//! Payloads in order, each once.

ghost use Rattle.std.specs.Prelude.{◌≡◌, IfOk, map};
ghost use Rattle.std.specs.List.{Contains, flat_map};
ghost use Rattle.std.specs.List.Sorted.{IsStrictlySortedBy};
ghost use Rattle.rpki_payloads.specs.Payloads.{AreUnited, AreUnitedPairs};
ghost use Rattle.rpki_payloads.specs.Sets.{IsSetOf};
ghost use Rattle.rpki_payloads.specs.Vrp.{IsExact, vrp_cmp, vrp_of, AreOrigins};

use crate::payloads::Payloads;
use crate::vap::{CustomerProvider, sort_pairs};
use crate::vrp::Vrp;
use rpki_contents::RouteOrigin;
use std::alloc::{AllocError, Global};

/// Puts all in order, each once.
pub(crate) fn sort_once<T: Ord + Drop>(all: &mut Vec<T>)
    ensures order { IsStrictlySortedBy T.cmp all.new.items }
    ensures none { (v : T) → Contains all.new.items v → Contains all.old.items v }
    ensures all { IsExact T.cmp → (v : T) → Contains all.old.items v → Contains all.new.items v }
{
    all.sort_unstable();
    all.dedup();
}

/// Puts the payloads in order, each once.
pub fn sort_vrps(vrps: &mut Vec<Vrp>)
    ensures { IsSetOf vrp_cmp (Contains vrps.old.items) vrps.new.items }
{
    sort_once(vrps);
}

/// The payloads of these route origins, as often and in the order as they are.
fn converted(alloc: Global, origins: &[RouteOrigin]) -> Result<Vec<Vrp>, AllocError>
    ensures { IfOk result (λ vrps. vrps.items ≡ map vrp_of origins.now) }
{
    let mut vrps = Vec::new(alloc);
    'origins: for origin in origins {
        vrps.push(Vrp::from(*origin))?;
    }
    Ok(vrps)
}

/// The payloads of these route origins: each once, in order.
///
/// Returns `AllocError` if allocation fails.
pub fn vrps_of(alloc: Global, origins: &[RouteOrigin]) -> Result<Vec<Vrp>, AllocError>
    ensures { IfOk result (λ vrps. AreOrigins origins.now vrps.items) }
{
    let mut vrps = converted(alloc, origins)?;
    sort_vrps(&mut vrps);
    Ok(vrps)
}

/// Adds the payloads of each locator.
fn joined(alloc: Global, all: &[Payloads]) -> Result<Vec<Vrp>, AllocError>
    ensures { IfOk result (λ vrps. vrps.items ≡ flat_map (λ p. p.vrps) all.now) }
{
    let mut vrps = Vec::new(alloc);
    'all: for one in all {
        vrps.extend_from_slice(one.vrps())?;
    }
    Ok(vrps)
}

/// The route origins of all locators: each once, in order.
///
/// Returns `AllocError` if allocation fails.
pub fn united(alloc: Global, all: &[Payloads]) -> Result<Vec<Vrp>, AllocError>
    ensures { IfOk result (λ vrps. AreUnited all.now vrps.items) }
{
    let mut vrps = joined(alloc, all)?;
    sort_vrps(&mut vrps);
    Ok(vrps)
}

/// Adds the providers of each locator.
fn joined_pairs(alloc: Global, all: &[Payloads]) -> Result<Vec<CustomerProvider>, AllocError>
    ensures { IfOk result (λ pairs. pairs.items ≡ flat_map (λ p. p.pairs) all.now) }
{
    let mut pairs = Vec::new(alloc);
    'all: for one in all {
        pairs.extend_from_slice(one.pairs())?;
    }
    Ok(pairs)
}

/// The providers of all locators: each once, in order.
///
/// Returns `AllocError` if allocation fails.
pub fn united_pairs(alloc: Global, all: &[Payloads]) -> Result<Vec<CustomerProvider>, AllocError>
    ensures { IfOk result (λ pairs. AreUnitedPairs all.now pairs.items) }
{
    let mut pairs = joined_pairs(alloc, all)?;
    sort_pairs(&mut pairs);
    Ok(pairs)
}
