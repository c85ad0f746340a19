//! Authorities that are still to be looked at.

ghost use Rattle.std.specs.Prelude.{◌≡◌, [], IfOk, IfSome, IfNone};
ghost use Rattle.rpki_validation.specs.Waiting.{AddsWaiting, IsFirstWaiting};

use crate::met::{Mark, mark_of};
use rpki_rsa::PreparingProvider;
use rpki_valid::ResourceCert;
use std::alloc::{AllocError, Global};
use std::collections::BTreeMap;
use std::marker::Model;

/// Authorities that are still to be looked at, in their order: those that are named first; of these, and of the others,
/// those that are fewer steps below the trust anchor; and then by what tells them apart.
#[derive(Drop)]
pub(crate) struct Waiting<'p, P: PreparingProvider> {
    all: BTreeMap<(bool, u32, Mark), ResourceCert<'p, P>>,
}

impl<'p, P: PreparingProvider> Model for Waiting<'p, P> {
    ghost use Rattle.std.specs.Prelude.{List};
    ghost use Rattle.rpki_validation.specs.Waiting.{Entry, entries_of};

    ghost Value = { List (Entry P) };

    ghost view = { λ x. entries_of (λ v. v.items) x.all };
}

impl<'p, P: PreparingProvider> Waiting<'p, P> {
    /// None.
    pub(crate) fn new(alloc: Global) -> Waiting<'p, P>
        ensures { result ≡ [] }
    {
        Waiting {
            all: BTreeMap::new(alloc),
        }
    }

    /// Adds the authority, in place of one that is alike, as many steps down, and named as well, or not either.
    ///
    /// Returns `AllocError` if allocation fails.
    pub(crate) fn add(
        &mut self,
        alloc: Global,
        is_named: bool,
        authority: ResourceCert<'p, P>,
    ) -> Result<(), AllocError>
        ensures { IfOk result (λ _. AddsWaiting is_named authority.entry self.old self.new) }
    {
        let mark = mark_of(alloc, &authority)?;
        let _alike = self
            .all
            .insert((!is_named, authority.depth(), mark), authority)?;
        Ok(())
    }

    /// Takes the first of them, with whether it is named.
    pub(crate) fn take_first(&mut self) -> Option<(bool, ResourceCert<'p, P>)>
        ensures some { IfSome result (λ x. IsFirstWaiting x.0 x.1 self.old self.new) }
        ensures none { IfNone result (self.old ≡ []) }
    {
        match self.all.pop_first() {
            Some(((is_other, _, _), authority)) => Some((!is_other, authority)),
            None => None,
        }
    }
}
