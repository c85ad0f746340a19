//! Values of one type, in sequence.

ghost use Rattle.rpki_der.specs.Cursor.{left};
ghost use Rattle.rpki_der.specs.Each.{CallReads, ReadsEach};
ghost use Rattle.rpki_der.specs.Fold.{CallFolds, Folds};

use crate::cursor::Constructed;
use crate::error::DecodeError;
use std::alloc::Global;

impl<'a> Constructed<'a> {
    /// The values of the rest, as the contents of a SEQUENCE OF or a SET OF are (X.690 8.10, 8.12), in their order:
    /// `op` reads in sequence, until nothing remains. There may be none.
    ///
    /// Returns the error of `op`; `Trailing` where `op` returns a value and the cursor hasn't moved on; `OutOfMemory`
    /// if allocation fails for a value that was read. An error leaves the cursor where it was.
    pub fn take_each<
        T: Drop,
        E: Drop + From<DecodeError>,
        F: Fn(&mut Constructed<'a>) -> Result<T, E>,
    >(&mut self, alloc: Global, op: F) -> Result<Vec<T>, E>
        requires { F.IsAlwaysCallable op }
        ensures { ReadsEach (λ v. v.items) (λ c e. E.from_gives c e) (CallReads F.Fn op) (left self.old)
            (left self.new) result }
    {
        let mut rest = *self;
        let mut values = Vec::new(alloc);
        'values: while !rest.is_empty() {
            let before = rest.len();
            let value = op(&mut rest)?;
            if rest.len() >= before {
                return Err(E::from(DecodeError::Trailing));
            }
            if let Err(e) = values.push(value) {
                return Err(E::from(DecodeError::from(e)));
            }
        }
        *self = rest;
        Ok(values)
    }

    /// The state that the values of the rest lead to, in sequence, until nothing remains: `op` reads one and returns
    /// the next state, beginning with `first`. So attributes or extensions are read of which each kind occurs once at
    /// most, in any order. There may be none.
    ///
    /// Returns the error of `op`; `Trailing` where `op` returns a state and the cursor hasn't moved on. An error leaves
    /// the cursor where it was.
    pub fn fold_each<
        S: Drop,
        E: Drop + From<DecodeError>,
        F: Fn(&mut Constructed<'a>, S) -> Result<S, E>,
    >(&mut self, first: S, op: F) -> Result<S, E>
        requires { F.IsAlwaysCallable op }
        ensures { Folds (λ c e. E.from_gives c e) (CallFolds F.Fn op) first (left self.old) (left self.new) result }
    {
        let mut rest = *self;
        let mut state = first;
        'values: while !rest.is_empty() {
            let before = rest.len();
            let next = op(&mut rest, state)?;
            if rest.len() >= before {
                return Err(E::from(DecodeError::Trailing));
            }
            state = next;
        }
        *self = rest;
        Ok(state)
    }
}
