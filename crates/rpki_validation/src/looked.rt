//! Authorities that were looked at.

ghost use Rattle.std.specs.Prelude.{◌≡◌, [], IfOk};
ghost use Rattle.rpki_validation.specs.Basis.{holder_of};
ghost use Rattle.rpki_validation.specs.Looked.{InsertsLooked};

use crate::met::Met;
use rpki_rsa::PreparingProvider;
use rpki_valid::ResourceCert;
use std::alloc::{AllocError, Global};

/// Authorities that were looked at: those that are named, and where all of them publish.
#[derive(Drop)]
pub(crate) struct Looked {
    pub(crate) named: Met,
    pub(crate) places: Met,
}

impl Looked {
    /// None.
    pub(crate) fn new(alloc: Global) -> Looked
        ensures named { result.named ≡ [] }
        ensures places { result.places ≡ [] }
    {
        Looked {
            named: Met::new(alloc),
            places: Met::new(alloc),
        }
    }

    /// Adds the authority, and returns whether it is still to be looked at: of those that are named, where none was
    /// that is alike; of the others, where none was that publishes at the same place.
    ///
    /// Returns `AllocError` if allocation fails.
    pub(crate) fn insert<'p, P: PreparingProvider>(
        &mut self,
        alloc: Global,
        is_named: bool,
        authority: &ResourceCert<'p, P>,
    ) -> Result<bool, AllocError>
        ensures { IfOk result (InsertsLooked is_named (holder_of authority.now) self.old self.new) }
    {
        let is_new_place = self.places.insert_place(alloc, authority)?;
        if is_named {
            return self.named.insert(alloc, authority);
        }
        Ok(is_new_place)
    }
}
