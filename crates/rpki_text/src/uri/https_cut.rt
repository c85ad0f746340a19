//! Https URIs that were read before: a text, and where its path begins. No text is read again.

ghost use Rattle.std.specs.Prelude.{◌≡◌, ◌≤◌, true, false, length, bytes_eq, Some, None, IfSome, IfNone, IfOk, OnOk};
ghost use Rattle.std.specs.Prelude.{IfErr};
ghost use Rattle.std.specs.List.{list_all};
ghost use Rattle.rpki_text.specs.Segments.{is_dir};
ghost use Rattle.rpki_text.specs.UriText.{lowercase, is_uri_byte};
ghost use Rattle.rpki_text.specs.HttpsText.{IsHttpsCut, https_uri_of, same_https, https_parent_of, IsHttpsParentEnd};
ghost use Rattle.rpki_text.specs.HttpsText.{https_joined, https_into_dir};
ghost use Rattle.rpki_text.specs.Places.{IsHttpsStart};

use super::characters::{check_uri_ascii, eq_ignore_case};
use super::error::Error;
use super::joined::Joined;
use super::path::{ends_in_slash, is_closed, len_above};

/// The length of the scheme and the slashes after it.
pub(super) const SCHEME_LEN: usize = 8;

/// The octets of a text, and where the path of an https URI begins in them.
///
/// Where the text is a URI, and the place is its own, the answers are those of `Https`. Else they are of what is at
/// this place. Nothing is read again, and nothing is allocated.
#[derive(Clone, Copy)]
pub struct HttpsCut<'a> {
    pub(super) text: &'a [u8],
    pub(super) path_start: usize,
    ghost laid_out: { IsHttpsStart (length text.now) path_start },
}

/// # The text and its parts
impl<'a> HttpsCut<'a> {
    ghost use Rattle.rpki_text.specs.Cuts.{https_cut_text, https_authority_in, https_path_in, IsOwnHttps};

    /// The text with this place; `None` where no path can begin there in a text of its length, after `https://`.
    pub fn at(text: &'a [u8], path_start: usize) -> Option<HttpsCut<'a>>
        ensures text { IfSome result (λ u. https_cut_text u ≡ text.now) }
        ensures starts { IfSome result (λ _. IsHttpsStart (length text.now) path_start) }
        ensures own { IfSome result (λ u. IsHttpsCut text.now path_start → IsOwnHttps u) }
        ensures none { IfNone result (IsHttpsStart (length text.now) path_start → ⊥) }
    {
        if path_start < SCHEME_LEN || text.len() < path_start {
            return None;
        }
        Some(HttpsCut { text, path_start })
    }

    /// A text that was read, with the place that was found.
    pub(super) fn of(text: &'a [u8], path_start: usize) -> HttpsCut<'a>
        requires { IsHttpsCut text.now path_start }
        ensures text { https_cut_text result ≡ text.now }
        ensures own { IsOwnHttps result }
    {
        HttpsCut { text, path_start }
    }

    /// The text in octets.
    pub fn as_slice(&self) -> &'a [u8]
        ensures { result.now ≡ https_cut_text self.now }
    {
        self.text
    }

    /// The authority as it was spelled, which may be empty.
    pub fn authority(&self) -> &'a [u8]
        ensures { result.now ≡ https_authority_in self.now }
    {
        &self.text[SCHEME_LEN..self.path_start]
    }

    /// The path: empty, or everything from the first slash after `https://`.
    pub fn path(&self) -> &'a [u8]
        ensures { result.now ≡ https_path_in self.now }
    {
        &self.text[self.path_start..]
    }

    /// Whether the path is empty or ends with a slash.
    pub fn path_is_dir(&self) -> bool
        ensures { result ≡ is_dir (https_path_in self.now) }
    {
        is_closed(self.path())
    }
}

/// # Comparisons
impl<'a> HttpsCut<'a> {
    ghost use Rattle.rpki_text.specs.Cuts.{https_cut_text, https_authority_in, IsOwnHttps};

    /// Whether both are the same URI.
    pub fn is_equal_to(&self, other: &HttpsCut<'_>) -> bool
        ensures { IsOwnHttps self.now → IsOwnHttps other.now
            → result ≡ same_https (https_uri_of (https_cut_text self.now)) (https_uri_of (https_cut_text other.now)) }
    {
        self.has_authority_of(other) && self.path() == other.path()
    }

    /// Whether both have the same authority, without regard to case.
    pub fn has_authority_of(&self, other: &HttpsCut<'_>) -> bool
        ensures { result
            ≡ bytes_eq (lowercase (https_authority_in self.now)) (lowercase (https_authority_in other.now)) }
    {
        eq_ignore_case(self.authority(), other.authority())
    }
}

/// # Paths
impl<'a> HttpsCut<'a> {
    ghost use Rattle.rpki_text.specs.Cuts.{https_cut_text, IsOwnHttps, joined_text};

    /// The length of the text of the URI above, which is the beginning of this one: one last slash of the path dropped,
    /// and then everything after the last remaining slash. `None` if nothing remains.
    pub fn parent_len(&self) -> Option<usize>
        ensures end { IfSome result (λ n. IsOwnHttps self.now → IsHttpsParentEnd (https_cut_text self.now) n) }
        ensures within { IfSome result (λ n. n ≤ length (https_cut_text self.now)) }
        ensures none { IfNone result (IsOwnHttps self.now → https_parent_of (https_cut_text self.now) ≡ None) }
    {
        let len = len_above(self.path())?;
        Some(self.path_start + len)
    }

    /// The text that `Https::join` makes of this URI and the path, before it is written.
    ///
    /// Returns `Error::InvalidCharacters` for a character that a URI may not have.
    pub fn joined<'s>(&'s self, path: &'s [u8]) -> Result<Joined<'s>, Error>
        ensures text { IfOk result (λ j. IsOwnHttps self.now
            → joined_text j ≡ https_joined (https_cut_text self.now) path.now) }
        ensures ok { OnOk result (list_all is_uri_byte path.now ≡ true) }
        ensures err { IfErr result (λ e. (e ≡ Error.InvalidCharacters) × (list_all is_uri_byte path.now ≡ false)) }
    {
        check_uri_ascii(path)?;
        Ok(Joined::new(self.text, !ends_in_slash(self.path()), path))
    }

    /// The text with a slash last, unless the path is empty or has one, before it is written.
    pub fn as_dir(&self) -> Joined<'_>
        ensures { IsOwnHttps self.now → joined_text result ≡ https_into_dir (https_cut_text self.now) }
    {
        Joined::new(self.text, !self.path_is_dir(), b"")
    }
}
