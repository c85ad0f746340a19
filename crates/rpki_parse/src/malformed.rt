//! Errors that say which part is malformed, and why.

ghost use Rattle.std.specs.Prelude.{◌≡◌};
ghost use Rattle.rpki_parse.specs.Parts.{at_part, told};
ghost use Rattle.rpki_parse.specs.Words.{kinds};

use rpki_der::DecodeError;

/// The malformed part of a content, and why: the leftmost error, as a reader of that part returns it.
#[derive(Clone, Copy, Debug, PartialEq, Eq, Drop)]
pub struct Malformed<P> {
    /// The part.
    pub part: P,
    /// What is wrong with it.
    pub error: DecodeError,
}

/// What was read; an error is of this part.
#[inline(always)]
pub fn at_part<T: Drop, P: Drop>(part: P, read: Result<T, DecodeError>) -> Result<T, Malformed<P>>
    ensures { told (λ x. x) result ≡ at_part part (kinds read) }
{
    match read {
        Ok(found) => Ok(found),
        Err(error) => Err(Malformed { part, error }),
    }
}
