//! Laws of the definitions.

ghost use Rattle.std.specs.Prelude.{◌↔◌, IsTrue};
ghost use Rattle.rpki_parse.specs.Parts.{HaveSameParts};
ghost use Rattle.rpki_parse.specs.declared.malformed.Malformed.{Malformed as Wrong};

use crate::malformed::Malformed;
use rpki_der::DecodeError;

/// Errors are equal exactly where their parts are equal, and the errors of these.
pub fn equal_errors_have_equal_parts<P: PartialEq>()
    ensures { (p q : Wrong P) → IsTrue (⟦<Malformed<P> as PartialEq>⟧.eq p q)
        ↔ HaveSameParts P.eq (⟦<DecodeError as PartialEq>⟧.eq) p q }
{}
