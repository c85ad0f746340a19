//! Filters of local exceptions (RFC 8416 3.3).

ghost use Rattle.std.specs.Prelude.{◌↔◌, IfOk};
ghost use Rattle.std.specs.List.{Contains};
ghost use Rattle.rpki_payloads.specs.declared.timed.TimedVrp.{TimedVrp as T};
ghost use Rattle.rpki_payloads.specs.declared.vrp.Vrp.{Vrp as V};
ghost use Rattle.rpki_payloads.specs.FilterKeys.{AskFor};

use crate::filter_keys::FilterKeys;
use crate::timed::TimedVrp;
use crate::vrp::Vrp;
use rpki_resources::Prefix;
use std::alloc::{AllocError, Global};

/// Which payloads are taken away: those whose prefix is covered by the filter's, and whose AS number is the filter's,
/// as far as it has them (RFC 8416 3.3.1).
#[derive(Clone, Copy, Debug, PartialEq, Eq)]
pub struct PrefixFilter {
    /// The prefix.
    pub prefix: Option<Prefix>,
    /// The AS number.
    pub asn: Option<u32>,
}

/// The payloads that no filter matches, in their order.
pub(crate) fn kept(
    alloc: Global,
    filters: &FilterKeys,
    vrps: &[Vrp],
) -> Result<Vec<Vrp>, AllocError>
    ensures { IfOk result (λ kept. (v : V) → Contains kept.items v
        ↔ (Contains vrps.now v × (AskFor filters.now v → ⊥))) }
{
    let mut kept = Vec::new(alloc);
    let mut rest = vrps;
    'vrps: while let Some((first, following)) = rest.split_first() {
        if !filters.ask_for(*first) {
            kept.push(*first)?;
        }
        rest = following;
    }
    Ok(kept)
}

/// The payloads that no filter matches, with their ends, in their order.
pub(crate) fn kept_timed(
    alloc: Global,
    filters: &FilterKeys,
    all: &[TimedVrp],
) -> Result<Vec<TimedVrp>, AllocError>
    ensures { IfOk result (λ kept. (t : T) → Contains kept.items t
        ↔ (Contains all.now t × (AskFor filters.now t.vrp → ⊥))) }
{
    let mut kept = Vec::new(alloc);
    let mut rest = all;
    'all: while let Some((first, following)) = rest.split_first() {
        if !filters.ask_for(first.vrp) {
            kept.push(*first)?;
        }
        rest = following;
    }
    Ok(kept)
}
