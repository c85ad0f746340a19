//! Errors of decoding.

ghost use Rattle.std.specs.Prelude.{◌≡◌};
ghost use Rattle.rpki_der.specs.Error.{error_number};
ghost use Rattle.rpki_der.specs.declared.error.DecodeError.TheVariants.{OutOfMemory};

use std::alloc::{AllocError, AllocFailed};
use std::error::Error;
use std::fmt;

/// An error in the contents of a value, as a text.
#[derive(Clone, Copy, Debug, PartialEq, Eq)]
pub struct ContentError {
    text: &'static str,
}

impl ContentError {
    ghost use Rattle.rpki_der.specs.ErrorText.{text_of};

    /// The error of this text.
    pub fn from_static(text: &'static str) -> ContentError
        ensures { text_of result ≡ text.now }
    {
        ContentError { text }
    }
}

impl fmt::Display for ContentError {
    ghost use Rattle.std.specs.Prelude.{Some};
    ghost use Rattle.rpki_der.specs.ErrorText.{text_of};

    ghost output = { λ e. Some (text_of e) };

    fn fmt<W: fmt::Write>(&self, f: &mut fmt::Formatter<W>) -> fmt::Result {
        f.write_str(self.text)
    }
}

impl Error for ContentError {}

/// Why octets could not be read as the requested value.
#[derive(Clone, Copy, Debug, PartialEq, Eq)]
pub enum DecodeError {
    /// The octets end before the value does.
    Truncated,
    /// The identifier octets are not those of a tag (X.690 8.1.2): not in the shortest form, of a number of 2^28 or
    /// more, or of the tag universal 0.
    BadTag,
    /// The length octets are not in the shortest definite form (X.690 8.1.3, 10.1), or announce 2^32 octets or more.
    BadLength,
    /// The value has another tag, or another form.
    Unexpected,
    /// The contents are not those of the requested type.
    Content(ContentError),
    /// Octets follow the value.
    Trailing,
    /// Allocation failed.
    OutOfMemory,
}

impl DecodeError {
    ghost use Rattle.rpki_der.specs.ErrorText.{content_error, error_text};

    /// The error `Content` with this text.
    pub fn content(text: &'static str) -> DecodeError
        ensures { result ≡ content_error text.entry }
    {
        DecodeError::Content(ContentError { text })
    }

    /// The number under which a program reports the error: 1 to 7, in the order of the variants.
    pub fn number(&self) -> u8
        ensures { result ≡ error_number self.now }
    {
        match self {
            DecodeError::Truncated => 1,
            DecodeError::BadTag => 2,
            DecodeError::BadLength => 3,
            DecodeError::Unexpected => 4,
            DecodeError::Content(_) => 5,
            DecodeError::Trailing => 6,
            DecodeError::OutOfMemory => 7,
        }
    }

    /// The text of the error.
    fn text(&self) -> &'static str
        ensures { result.now ≡ error_text self.now }
    {
        match self {
            DecodeError::Content(inner) => inner.text,
            DecodeError::Truncated => "truncated value",
            DecodeError::BadTag => "malformed tag",
            DecodeError::BadLength => "malformed length",
            DecodeError::Unexpected => "unexpected value",
            DecodeError::Trailing => "trailing data",
            DecodeError::OutOfMemory => "out of memory",
        }
    }
}

/// What a person reads: of an error of contents its text, of the others the texts `truncated value`, `malformed tag`,
/// `malformed length`, `unexpected value`, `trailing data` and `out of memory`.
impl fmt::Display for DecodeError {
    ghost use Rattle.std.specs.Prelude.{Some};
    ghost use Rattle.rpki_der.specs.ErrorText.{error_text};

    ghost output = { λ e. Some (error_text e) };

    fn fmt<W: fmt::Write>(&self, f: &mut fmt::Formatter<W>) -> fmt::Result {
        f.write_str(self.text())
    }
}

impl Error for DecodeError {}

impl From<AllocError> for DecodeError {
    ghost from_gives = { λ _ e. e ≡ OutOfMemory };

    fn from(_e: AllocError) -> DecodeError {
        DecodeError::OutOfMemory
    }
}

impl<T: Drop> From<AllocFailed<T>> for DecodeError {
    ghost from_gives = { λ _ e. e ≡ OutOfMemory };

    fn from(_e: AllocFailed<T>) -> DecodeError {
        DecodeError::OutOfMemory
    }
}

/// The error with the same text: of an error of contents, the one inside.
impl From<DecodeError> for ContentError {
    ghost use Rattle.rpki_der.specs.Error.{IsContentOf};

    ghost from_gives = { IsContentOf };

    fn from(e: DecodeError) -> ContentError {
        match e {
            DecodeError::Content(inner) => inner,
            other => ContentError { text: other.text() },
        }
    }
}
