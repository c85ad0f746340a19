//! Allocation failures among errors.

ghost use Rattle.std.specs.Prelude.{◌≡◌};
ghost use Rattle.rpki_cert.specs.Known.{is_memory};

use rpki::der::DecodeError;
use rpki::repository::error::ValidationError;

/// Whether the error is an allocation failure.
pub fn is_memory(e: ValidationError) -> bool
    ensures { result ≡ is_memory e }
{
    match e {
        ValidationError::Decoding(DecodeError::OutOfMemory) => true,
        _ => false,
    }
}
