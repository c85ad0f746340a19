//! Laws of the definitions.

ghost use Rattle.std.specs.Prelude.{◌↔◌, IsTrue};
ghost use Rattle.rpki_rsa.specs.ErrorText.{AreSameErrors};
ghost use Rattle.rpki_rsa.specs.declared.error.KeyError.{KeyError as WrongKey};

use crate::error::KeyError;
use rpki_der::DecodeError;

/// Errors of keys are equal exactly where they are one, and of octets that are no key the errors of these are equal.
pub fn equal_errors_have_equal_parts()
    ensures { (x y : WrongKey) → IsTrue (⟦<KeyError as PartialEq>⟧.eq x y)
        ↔ AreSameErrors (⟦<DecodeError as PartialEq>⟧.eq) x y }
{}
