//! An encoder that is one or another (X.690 8.13).

ghost use Rattle.rpki_resources.specs.Either.{either_of, OfEither};

use rpki_der::Values;
use std::io;
use std::io::Write;

/// The values of one encoder, or those of another.
#[derive(Drop)]
pub enum Either<A, B> {
    /// Those of the one.
    One(A),
    /// Those of the other.
    Other(B),
}

impl<A: Values, B: Values> Values for Either<A, B> {
    ghost use Rattle.rpki_resources.specs.declared.encode.either.Either.TheVariants.{One, Other};

    ghost tree = { either_of A.tree B.tree };

    ghost encoded = { either_of A.encoded B.encoded };

    ghost is_short = { OfEither A.is_short B.is_short };

    ghost spelled = { elim [ One a ↦ A.spelled a | Other b ↦ B.spelled b ] };

    ghost measured = { elim [ One a ↦ A.measured a | Other b ↦ B.measured b ] };

    ghost are_values = { elim [ One a ↦ λ h. A.are_values a h | Other b ↦ λ h. B.are_values b h ] };

    fn fits(&self) -> bool {
        match self {
            Either::One(values) => values.fits(),
            Either::Other(values) => values.fits(),
        }
    }

    fn count(&self) -> u64 {
        match self {
            Either::One(values) => values.count(),
            Either::Other(values) => values.count(),
        }
    }

    fn encoded_len(&self) -> u64 {
        match self {
            Either::One(values) => values.encoded_len(),
            Either::Other(values) => values.encoded_len(),
        }
    }

    fn write_encoded<W: Write>(&self, out: &mut W) -> Result<(), io::Error> {
        match self {
            Either::One(values) => values.write_encoded(out),
            Either::Other(values) => values.write_encoded(out),
        }
    }
}
