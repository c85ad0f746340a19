//! Rsync URIs that were read before: a text, and where its parts begin. No text is read again.

ghost use Rattle.std.specs.Prelude.{◌≡◌, ◌≢◌, ◌≤◌, ◌+◌, ℕ, length, drop, Some, None, IfSome, IfNone};
ghost use Rattle.std.specs.Prelude.{IfOk, OnOk, IfErr};
ghost use Rattle.std.specs.Option.{option_copied};
ghost use Rattle.rpki_text.specs.Segments.{is_dir, with_slash};
ghost use Rattle.rpki_text.specs.RsyncText.{IsCut, uri_of, relative, same_uri, is_parent, is_identical, parent_of};
ghost use Rattle.rpki_text.specs.RsyncText.{IsParentEnd, joined, join_refusal, module_of};
ghost use Rattle.rpki_text.specs.Places.{IsRelativeAt, AreStarts};

use super::characters::{check_uri_ascii, eq_ignore_case};
use super::error::Error;
use super::joined::Joined;
use super::path::{LEN_LIMIT, check_path, is_closed, parent_len, path_below};
use std::ops::Range;

/// The length of the scheme and the slashes after it.
pub(super) const SCHEME_LEN: usize = 8;

/// Where the name of the module and the path begin in the text.
#[derive(Clone, Copy, Debug)]
pub(super) struct Places {
    pub(super) module_start: usize,
    pub(super) path_start: usize,
}

/// The octets of a text, and where the name of the module and the path of an rsync URI begin in them.
///
/// Where the text is a URI, perhaps a long one, and the places are its own, the answers are those of `Rsync`. Else they
/// are of what is at these places. Nothing is read again, and nothing is allocated.
#[derive(Clone, Copy)]
pub struct RsyncCut<'a> {
    pub(super) text: &'a [u8],
    pub(super) places: Places,
    ghost laid_out: { AreStarts (length text.now) places.module_start places.path_start },
}

/// # The text and its parts
impl<'a> RsyncCut<'a> {
    ghost use Rattle.rpki_text.specs.Cuts.{cut_text, authority_in, module_name_in, path_in, IsOwn};

    /// The text with these places; `None` where no parts can begin there in a text of its length: the name of the
    /// module after `rsync://` and a slash, the path after that name's beginning.
    pub fn at(text: &'a [u8], module_start: usize, path_start: usize) -> Option<RsyncCut<'a>>
        ensures text { IfSome result (λ u. cut_text u ≡ text.now) }
        ensures starts { IfSome result (λ _. AreStarts (length text.now) module_start path_start) }
        ensures own { IfSome result (λ u. IsCut text.now module_start path_start → IsOwn u) }
        ensures none { IfNone result (AreStarts (length text.now) module_start path_start → ⊥) }
    {
        if module_start <= SCHEME_LEN || path_start <= module_start || text.len() < path_start {
            return None;
        }
        let places = Places {
            module_start,
            path_start,
        };
        Some(RsyncCut { text, places })
    }

    /// A text that was read, with the places that were found.
    pub(super) fn of(text: &'a [u8], places: Places) -> RsyncCut<'a>
        requires { IsCut text.now places.module_start places.path_start }
        ensures text { cut_text result ≡ text.now }
        ensures own { IsOwn result }
    {
        RsyncCut { text, places }
    }

    /// The text in octets.
    pub fn as_slice(&self) -> &'a [u8]
        ensures { result.now ≡ cut_text self.now }
    {
        self.text
    }

    /// The authority as it was spelled.
    pub fn authority(&self) -> &'a [u8]
        ensures { result.now ≡ authority_in self.now }
    {
        &self.text[SCHEME_LEN..self.places.module_start - 1]
    }

    /// The module's name, without slashes.
    pub fn module_name(&self) -> &'a [u8]
        ensures { result.now ≡ module_name_in self.now }
    {
        &self.text[self.places.module_start..self.places.path_start - 1]
    }

    /// Everything up to the path as it was spelled: the scheme, the authority and the module, with the slash after it.
    pub fn module(&self) -> &'a [u8]
        ensures { IsOwn self.now → result.now ≡ module_of (cut_text self.now) }
    {
        &self.text[..self.places.path_start]
    }

    /// The path, without a slash before it.
    pub fn path(&self) -> &'a [u8]
        ensures { result.now ≡ path_in self.now }
    {
        &self.text[self.places.path_start..]
    }

    /// Whether the path is empty or ends with a slash.
    pub fn path_is_dir(&self) -> bool
        ensures { result ≡ is_dir (path_in self.now) }
    {
        is_closed(self.path())
    }
}

/// # Comparisons
impl<'a> RsyncCut<'a> {
    ghost use Rattle.rpki_text.specs.Cuts.{cut_text, same_module_in, IsOwn};

    /// Whether both are the same URI.
    pub fn is_equal_to(&self, other: &RsyncCut<'_>) -> bool
        ensures { IsOwn self.now → IsOwn other.now
            → result ≡ same_uri (uri_of (cut_text self.now)) (uri_of (cut_text other.now)) }
    {
        self.has_module_of(other) && self.path() == other.path()
    }

    /// Whether `other` lies below this URI.
    pub fn is_parent_of(&self, other: &RsyncCut<'_>) -> bool
        ensures { IsOwn self.now → IsOwn other.now
            → result ≡ is_parent (uri_of (cut_text self.now)) (uri_of (cut_text other.now)) }
    {
        match other.relative_to(self) {
            Some(path) => !path.is_empty(),
            None => false,
        }
    }

    /// Whether both have the same authority, module and segments, with or without a slash last.
    pub fn is_identical_to(&self, other: &RsyncCut<'_>) -> bool
        ensures { IsOwn self.now → IsOwn other.now
            → result ≡ is_identical (uri_of (cut_text self.now)) (uri_of (cut_text other.now)) }
    {
        match self.relative_to(other) {
            Some(path) => path.is_empty(),
            None => false,
        }
    }

    /// Whether both have the same authority, ignoring case, and the same module.
    fn has_module_of(&self, other: &RsyncCut<'_>) -> bool
        ensures { result ≡ same_module_in self.now other.now }
    {
        eq_ignore_case(self.authority(), other.authority())
            && self.module_name() == other.module_name()
    }
}

/// # Paths
impl<'a> RsyncCut<'a> {
    ghost use Rattle.rpki_text.specs.Cuts.{cut_text, IsOwn, joined_text};

    /// The path from `base` to this URI, with this one's last slash, which ends this text: empty if the segments are
    /// the same, and `None` where no path leads there.
    pub fn relative_to(&self, base: &RsyncCut<'_>) -> Option<&'a [u8]>
        ensures path { IsOwn self.now → IsOwn base.now
            → option_copied result ≡ relative (uri_of (cut_text self.now)) (uri_of (cut_text base.now)) }
        ensures tail { IfSome result (λ p. (n : ℕ) × (p.now ≡ drop n (cut_text self.now))) }
    {
        if !self.has_module_of(base) {
            return None;
        }
        path_below(self.path(), base.path())
    }

    /// Where the path from `base` to this URI is in this text, which ends with it; `None` where there is none.
    pub fn relative_range(&self, base: &RsyncCut<'_>) -> Option<Range<usize>>
        ensures some { IfSome result (λ r. IsOwn self.now → IsOwn base.now
            → IsRelativeAt (cut_text self.now) (cut_text base.now) r) }
        ensures within { IfSome result (λ r. (r.start ≤ r.end) × (r.end ≤ length (cut_text self.now))) }
        ensures none { IfNone result (IsOwn self.now → IsOwn base.now
            → relative (uri_of (cut_text self.now)) (uri_of (cut_text base.now)) ≡ None) }
    {
        let path = self.relative_to(base)?;
        Some(self.text.len() - path.len()..self.text.len())
    }

    /// The length of the parent's text, which is the beginning of this one: this text up to its last segment. `None` if
    /// there is no segment.
    pub fn parent_len(&self) -> Option<usize>
        ensures segments { IfSome result (λ n. IsOwn self.now → IsParentEnd (cut_text self.now) n) }
        ensures within { IfSome result (λ n. n ≤ length (cut_text self.now)) }
        ensures none { IfNone result (IsOwn self.now → parent_of (cut_text self.now) ≡ None) }
    {
        let len = parent_len(self.path())?;
        Some(self.places.path_start + len)
    }

    /// The text that `Rsync::join` makes of this URI and the path, before it is written.
    ///
    /// The errors are those of `Rsync::join`, but for `Error::OutOfMemory`.
    pub fn joined<'s>(&'s self, path: &'s [u8]) -> Result<Joined<'s>, Error>
        ensures text { IfOk result (λ j. IsOwn self.now → joined_text j ≡ joined (cut_text self.now) path.now) }
        ensures ok { OnOk result (IsOwn self.now → join_refusal (cut_text self.now) path.now ≡ None) }
        ensures err { IfErr result (λ e. IsOwn self.now → join_refusal (cut_text self.now) path.now ≡ Some e) }
        ensures memory { IfErr result (λ e. e ≢ Error.OutOfMemory) }
    {
        if path.is_empty() {
            return Ok(Joined::new(self.text, false, path));
        }
        check_uri_ascii(path)?;
        check_path(path)?;
        let joined = Joined::new(self.text, !self.path_is_dir(), path);
        if joined.len() >= LEN_LIMIT {
            return Err(Error::LongUri);
        }
        Ok(joined)
    }

    /// The text with a slash last, unless the path is empty or has one, before it is written.
    pub fn as_dir(&self) -> Joined<'_>
        ensures { IsOwn self.now → joined_text result ≡ with_slash (cut_text self.now) }
    {
        Joined::new(self.text, !self.path_is_dir(), b"")
    }
}
