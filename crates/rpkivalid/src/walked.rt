//! What is found under one locator: what is valid, and what is rejected.

ghost use Rattle.std.specs.Prelude.{IfOk};
ghost use Rattle.rpkivalid.specs.WalkedView.{IsWalkBy};

use crate::cache::Cache;
use crate::locators::Named;
use crate::sources::Sources;
use rpki::repository::x509::Time;
use rpki_objects::Strictness;
use rpki_rsa::PreparingProvider;
use rpki_valid::Terms;
use rpki_validation::{Outcome, Reason, Stop, validate};
use std::alloc::{AllocError, Global};

/// What is found under a locator.
#[derive(Drop)]
pub enum Walk {
    /// What is valid, and what is rejected.
    Found(Outcome),
    /// Why the locator has no trust anchor.
    NoAnchor(Reason),
}

/// What is found under the locator.
///
/// Returns `AllocError` if allocation fails.
pub fn walk_of<S: Sources, P: PreparingProvider>(
    alloc: Global,
    sources: &S,
    folder: &str,
    provider: &P,
    strictness: Strictness,
    depth: u32,
    at: Time,
    named: &Named,
) -> Result<Walk, AllocError>
    ensures { IfOk result (IsWalkBy P.Provider provider.now (S.holds sources.now) folder.now strictness at depth
        named.now) }
{
    let cache = Cache {
        sources,
        folder,
        name: named.name.as_str(),
    };
    let terms = Terms {
        key: &named.locator.key,
        strictness,
        deepest: depth,
    };
    let uris = named.locator.uris.as_slice();
    match validate(alloc, &cache, provider, uris, terms, at) {
        Ok(outcome) => Ok(Walk::Found(outcome)),
        Err(Stop::Rejected(reason)) => Ok(Walk::NoAnchor(reason)),
        Err(Stop::OutOfMemory) => Err(AllocError),
    }
}
