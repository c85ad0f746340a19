//! Values of one type, in sequence: the contents of a SEQUENCE OF or a SET OF (X.690 8.10, 8.12).

ghost use Rattle.std.specs.Prelude.{◌≡◌, ℕ, List, Result};
ghost use Rattle.rpki_der.specs.Cursor.{left};
ghost use Rattle.rpki_parse.specs.Words.{Moves, kinds, parsed};
ghost use Rattle.rpki_parse.specs.Fold.{fold_at};

use rpki_der::{Constructed, DecodeError};

/// A reader of the next value of a list, in the light of those before it.
pub trait Step {
    /// What is known of the values that were read.
    type State: Copy;

    /// The next value as a function: what is known with it, and what follows it.
    ghost next_at: { Self → Self.State → List ℕ → Result (Self.State × List ℕ) ℕ };

    /// Reads the next value, and returns what is known with it. A value takes some octets.
    fn next(
        &self,
        state: Self::State,
        cons: &mut Constructed<'_>,
    ) -> Result<Self::State, DecodeError>
        ensures reads { parsed (λ x. x) result (left cons.new) ≡ next_at self.now state (left cons.old) }
        ensures moves { Moves (left cons.old) (left cons.new) result };
}

/// What is known of all remaining values, and how many they are, from what is known first. There may be none.
///
/// Returns the error of the first value that isn't there.
#[inline(always)]
pub fn fold<S: Step>(
    contents: Constructed<'_>,
    first: S::State,
    step: &S,
) -> Result<(S::State, usize), DecodeError>
    ensures { kinds result ≡ fold_at (S.next_at step.now) first (left contents.entry) }
{
    let mut rest = contents;
    let mut state = first;
    let mut count = 0;
    'each: while !rest.is_empty() {
        state = match step.next(state, &mut rest) {
            Ok(next) => next,
            Err(e) => return Err(e),
        };
        count += 1;
    }
    Ok((state, count))
}
