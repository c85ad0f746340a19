//! Why octets are no certificate: a part, and what is wrong with it.

use crate::read::cert_part::CertPart;
use rpki::der::DecodeError;
use std::error::Error;
use std::fmt;

/// The malformed part of a certificate, and why: the leftmost error, as a reader of that part returns it.
#[derive(Clone, Copy, Debug, PartialEq, Eq)]
pub struct CertError {
    /// The part.
    pub part: CertPart,
    /// What is wrong with it.
    pub error: DecodeError,
}

impl CertError {
    ghost use Rattle.std.specs.Prelude.{◌≡◌, ◌↔◌, IsTrue};

    /// Whether allocation failed: nothing is known of the octets.
    pub fn is_out_of_memory(self) -> bool
        ensures { IsTrue result ↔ (self.error ≡ DecodeError.OutOfMemory) }
    {
        match self.error {
            DecodeError::OutOfMemory => true,
            _ => false,
        }
    }
}

/// What a person reads: the text of the error, without the part.
impl fmt::Display for CertError {
    ghost use Rattle.std.specs.Prelude.{Some};
    ghost use Rattle.rpki_der.specs.Prelude.{error_text};

    ghost output = { λ e. Some (error_text e.error) };

    fn fmt<W: fmt::Write>(&self, f: &mut fmt::Formatter<W>) -> fmt::Result {
        self.error.fmt(f)
    }
}

impl Error for CertError {}

/// The error without its part.
impl From<CertError> for DecodeError {
    ghost use Rattle.std.specs.Prelude.{◌≡◌};

    ghost from_gives = { λ wrong e. e ≡ wrong.error };

    fn from(wrong: CertError) -> DecodeError {
        wrong.error
    }
}
