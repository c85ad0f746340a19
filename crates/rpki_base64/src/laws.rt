//! Laws of what the compiler derives. The function does nothing, and its contract is the law that it is named for.

ghost use Rattle.std.specs.Prelude.{◌≡◌, ◌↔◌, IsTrue};
ghost use Rattle.rpki_base64.specs.declared.flavours.Base64Error.{Base64Error as NoBase64};

use crate::flavours::Base64Error;

/// Errors are equal exactly where they are one.
pub fn equal_errors_are_one()
    ensures { (d e : NoBase64) → IsTrue (⟦<Base64Error as PartialEq>⟧.eq d e) ↔ (d ≡ e) }
{}
