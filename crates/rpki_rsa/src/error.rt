//! Errors of reading keys.

use rpki_der::DecodeError;
use std::error::Error;
use std::fmt;

/// Why bits are not those of a key that is accepted.
#[derive(Clone, Copy, Debug, PartialEq, Eq)]
pub enum KeyError {
    /// They are not an RSAPublicKey (RFC 8017 A.1.1).
    Malformed(DecodeError),
    /// The modulus has fewer than [LEAST_BITS](crate::LEAST_BITS) bits.
    ShortModulus,
    /// The modulus has more than [MOST_BITS](crate::MOST_BITS) bits.
    LongModulus,
    /// The modulus is even.
    EvenModulus,
    /// The exponent is 2^64 or more.
    LargeExponent,
    /// The exponent is even.
    EvenExponent,
    /// The exponent is 1.
    ExponentOne,
}

/// What a person reads: of octets that are no RSAPublicKey, what is wrong with them.
impl fmt::Display for KeyError {
    ghost use Rattle.std.specs.Prelude.{Some};
    ghost use Rattle.rpki_rsa.specs.ErrorText.{key_error_text};

    ghost output = { λ e. Some (key_error_text e) };

    fn fmt<W: fmt::Write>(&self, f: &mut fmt::Formatter<W>) -> fmt::Result {
        match self {
            KeyError::Malformed(inner) => inner.fmt(f),
            KeyError::ShortModulus => f.write_str("modulus of fewer than 2,048 bits"),
            KeyError::LongModulus => f.write_str("modulus of more than 4,096 bits"),
            KeyError::EvenModulus => f.write_str("even modulus"),
            KeyError::LargeExponent => f.write_str("exponent of 2^64 or more"),
            KeyError::EvenExponent => f.write_str("even exponent"),
            KeyError::ExponentOne => f.write_str("exponent of 1"),
        }
    }
}

impl Error for KeyError {}

impl From<DecodeError> for KeyError {
    ghost use Rattle.std.specs.Prelude.{◌≡◌};
    ghost use Rattle.rpki_rsa.specs.declared.error.KeyError.TheVariants.{Malformed};

    ghost from_gives = { λ d e. e ≡ Malformed d };

    fn from(e: DecodeError) -> KeyError {
        KeyError::Malformed(e)
    }
}
