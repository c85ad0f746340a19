//! Errors of URIs.

use std::alloc::AllocError;
use std::fmt;

/// Why a text is not a URI, or why two texts cannot be joined to one.
#[derive(Clone, Copy, Debug, PartialEq, Eq, Drop)]
pub enum Error {
    /// There is a character that a URI may not have: `check_uri_ascii` has the list.
    InvalidCharacters,
    /// The authority, the module or the slash after the module of an rsync URI is missing, or the authority of an https
    /// URI has 256 octets or more.
    BadUri,
    /// An rsync URI has 3,072 octets or more after its scheme and the slashes, or a path that is joined or the text
    /// that joining gives has as many.
    LongUri,
    /// The text doesn't begin with the scheme that is read, a colon and two slashes.
    BadScheme,
    /// A segment is `.` or `..` (RFC 3986 section 3.3). Here and below, the authority and the module of an rsync URI
    /// count as segments.
    DotSegments,
    /// A segment that is not the last is empty.
    EmptySegments,
    /// A segment has 256 octets or more.
    LongSegments,
    /// Allocation failed.
    OutOfMemory,
}

impl Error {
    ghost use Rattle.std.specs.Prelude.{◌≡◌, ◌↔◌, IsTrue};
    ghost use Rattle.rpki_text.specs.ErrorText.{error_number};

    /// The error's number, from 1 to 8, by which programs report it.
    pub fn number(self) -> u8
        ensures { result ≡ error_number self }
    {
        match self {
            Error::InvalidCharacters => 1,
            Error::BadUri => 2,
            Error::LongUri => 3,
            Error::BadScheme => 4,
            Error::DotSegments => 5,
            Error::EmptySegments => 6,
            Error::LongSegments => 7,
            Error::OutOfMemory => 8,
        }
    }

    /// Whether allocation failed: nothing is known of the text.
    pub fn is_out_of_memory(self) -> bool
        ensures { IsTrue result ↔ (self ≡ Error.OutOfMemory) }
    {
        match self {
            Error::OutOfMemory => true,
            _ => false,
        }
    }
}

impl fmt::Display for Error {
    ghost use Rattle.std.specs.Prelude.{Some};
    ghost use Rattle.rpki_text.specs.ErrorText.{error_text};

    ghost output = { λ e. Some (error_text e) };

    fn fmt<W: fmt::Write>(&self, f: &mut fmt::Formatter<W>) -> fmt::Result {
        f.write_str(match self {
            Error::InvalidCharacters => "invalid characters",
            Error::BadUri => "bad URI",
            Error::LongUri => "URI exceeds 3072 characters",
            Error::BadScheme => "bad URI scheme",
            Error::DotSegments => "URI with dot path segments",
            Error::EmptySegments => "URI with empty path segments",
            Error::LongSegments => "one or more segments are longer than 255 characters",
            Error::OutOfMemory => "out of memory",
        })
    }
}

impl std::error::Error for Error {}

impl From<AllocError> for Error {
    ghost use Rattle.std.specs.Prelude.{◌≡◌};
    ghost use Rattle.rpki_text.specs.declared.uri.error.Error.TheVariants.{OutOfMemory};

    ghost from_gives = { λ _ e. e ≡ OutOfMemory };

    fn from(_e: AllocError) -> Error {
        Error::OutOfMemory
    }
}
