//! The two schemes of RPKI URIs.

ghost use Rattle.std.specs.Prelude.{◌≡◌, IfOk, codes, string_bytes};
ghost use Rattle.rpki_text.specs.SchemeText.{scheme_name, scheme_text, is_https_scheme, is_rsync_scheme};

use std::alloc::{AllocError, Global};
use std::fmt;

/// The scheme of a URI (RFC 3986 section 3.1).
#[derive(Clone, Copy, Debug, PartialEq, Eq, Drop)]
pub enum Scheme {
    /// `https` (RFC 9110 section 4.2.2).
    Https,
    /// `rsync` (RFC 5781).
    Rsync,
}

impl Scheme {
    /// Whether this is `https`.
    pub fn is_https(self) -> bool
        ensures { result ≡ is_https_scheme self }
    {
        matches!(self, Scheme::Https)
    }

    /// Whether this is `rsync`.
    pub fn is_rsync(self) -> bool
        ensures { result ≡ is_rsync_scheme self }
    {
        matches!(self, Scheme::Rsync)
    }

    /// The scheme's name in lower case, without a colon.
    pub fn as_str(self) -> &'static str
        ensures { result.now ≡ scheme_name self }
    {
        match self {
            Scheme::Https => "https",
            Scheme::Rsync => "rsync",
        }
    }

    /// The beginning of a URI of this scheme: its name, a colon and two slashes, as Display prints it.
    ///
    /// Returns `AllocError` if allocation fails.
    pub fn into_string(self, alloc: Global) -> Result<String, AllocError>
        ensures { IfOk result (λ text. string_bytes text ≡ scheme_text self) }
    {
        String::from_str(alloc, self.beginning())
    }

    fn beginning(self) -> &'static str
        ensures { result.now ≡ scheme_text self }
    {
        match self {
            Scheme::Https => "https://",
            Scheme::Rsync => "rsync://",
        }
    }
}

impl fmt::Display for Scheme {
    ghost use Rattle.std.specs.Prelude.{Some};

    ghost output = { λ s. Some (scheme_text s) };

    fn fmt<W: fmt::Write>(&self, f: &mut fmt::Formatter<W>) -> fmt::Result {
        f.write_str(self.beginning())
    }
}
