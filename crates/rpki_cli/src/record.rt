//! A list of calls that only clauses read.

ghost use Rattle.std.specs.Prelude.{◌≡◌, [], ◌∷◌, List};
ghost use Rattle.std.specs.Borrow.{ftrue};
ghost use Rattle.rpki_cli.specs.Call.{Call, call_of};

use std::marker::{Model, PhantomData};

/// Calls that have failed, the last first.
#[derive(Drop)]
pub struct Record {
    marker: PhantomData<u8>,
    pub ghost calls: { List Call },
}

impl Model for Record {
    ghost also_owns = { λ _. ftrue };
}

impl Record {
    /// None.
    pub(crate) fn new() -> Record
        ensures { result.calls ≡ [] }
    {
        Record {
            marker: PhantomData,
        }
    }

    /// Notes a call, by its number, and its name or text.
    pub(crate) fn note(&mut self, _numbers: &[u64], _octets: &[u8])
        ensures { self.new.calls ≡ call_of _numbers.now _octets.now ∷ self.old.calls }
    {}
}
