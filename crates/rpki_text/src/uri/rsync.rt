//! Rsync URIs (RFC 5781).

ghost use Rattle.std.specs.Prelude.{◌≡◌, ◌<◌, not, true, false, length, take, nat_eq, nat_lt};
ghost use Rattle.std.specs.Prelude.{codes, Some, None, MatchResult, ◌+◌, ◌-◌, ◌++◌, IfSome, IsOk, IfOk};
ghost use Rattle.std.specs.Prelude.{OnOk, OnErr, IfErr, is_some, [], string_bytes};
ghost use Rattle.std.specs.Cow.{cow_str_bytes};
ghost use Rattle.std.specs.List.{list_all, ends_with};
ghost use Rattle.std.specs.Option.{option_copied, option_map, unwrap_or};
ghost use Rattle.std.specs.Ordering.{on};
ghost use Rattle.rpki_text.specs.SameUriLaws.{same_uri-hashed, texts_equiv, texts_per};
ghost use Rattle.rpki_text.specs.Segments.{is_dir, with_slash};
ghost use Rattle.rpki_text.specs.UriText.{lowercase, is_uri_byte};
ghost use Rattle.rpki_text.specs.Views.{rsync_text};
ghost use Rattle.rpki_text.specs.Cuts.{cut_text, IsOwn};
ghost use Rattle.rpki_text.specs.RsyncText.{rsync_refusal, IsRsyncUri, uri_of, Spells, relative};
ghost use Rattle.rpki_text.specs.RsyncText.{is_parent, is_identical, IsWayBack, IsParentText, IsRsync, parent_uri};
ghost use Rattle.rpki_text.specs.RsyncText.{parent_of, joined, joined_uri, join_refusal, same_uri, hashed, IsCut};
ghost use Rattle.rpki_text.specs.RsyncText.{authority_of, module_name_of, module_of, IsAboveAllBelow};
ghost use Rattle.rpki_text.specs.RsyncText.{canonical_module_of, path_of, eq_rsync_bytes};

use super::characters::{
    has_no_capital, hash_in_lower_case, in_lower_case, same_but_case, uri_text,
};
use super::error::Error;
use super::rsync_cut::{Places, RsyncCut};
use super::rsync_view::{RsyncView, check_rsync};
use bytes::Bytes;
use std::alloc::{AllocError, Global};
use std::borrow::CowStr;
use std::fmt;
use std::hash::{Hash, Hasher};
use std::marker::Model;

/// An rsync URI: an authority, a module and a path (RFC 5781 section 2).
///
/// It keeps the text that it was spelled with. What the text stands for is the authority in lower case, the module, the
/// path's segments, and whether the path ends with a slash; equality and hash go by these.
#[derive(Debug, Drop)]
pub struct Rsync {
    bytes: Bytes,
    places: Places,
}

impl Model for Rsync {
    ghost use Rattle.std.specs.Prelude.{ℕ, List};

    ghost Value = { List ℕ };

    ghost use Rattle.rpki_text.specs.RsyncText.{IsCut};

    ghost view = { λ u. u.bytes };

    ghost invariant = { λ u. IsCut u.bytes u.places.module_start u.places.path_start };
}

/// # Reading
impl Rsync {
    /// Reads a URI, whose text is then exactly these octets. Allocates nothing.
    ///
    /// Returns the first of these errors that applies: `Error::InvalidCharacters` for a character that a URI may not
    /// have; `Error::BadScheme` unless the text begins with `rsync://`, ignoring case; `Error::LongUri` for 3,072
    /// octets or more after that; then, of the pieces between slashes from the left, the first that is `.` or `..`
    /// (`Error::DotSegments`), has 256 octets or more (`Error::LongSegments`), or is empty and not the last
    /// (`Error::EmptySegments`); `Error::BadUri` if the authority, the module or the slash after the module is missing.
    pub fn from_bytes(bytes: Bytes) -> Result<Rsync, Error>
        ensures { MatchResult result (λ u. (u ≡ bytes) × (rsync_refusal bytes ≡ None))
            (λ e. rsync_refusal bytes ≡ Some e) }
    {
        let places = check_rsync(bytes.as_slice())?;
        Ok(Rsync { bytes, places })
    }

    /// Reads a URI from a copy of the octets.
    ///
    /// The errors are those of `from_bytes`; then `Error::OutOfMemory` if allocation fails.
    pub fn from_slice(alloc: Global, slice: &[u8]) -> Result<Rsync, Error>
        ensures ok { IfOk result (λ u. (u ≡ slice.now) × (rsync_refusal slice.now ≡ None)) }
        ensures err { IfErr result (λ e. e ≡ unwrap_or (rsync_refusal slice.now) Error.OutOfMemory) }
    {
        let places = check_rsync(slice)?;
        let bytes = Bytes::copy_from_slice(alloc, slice)?;
        Ok(Rsync { bytes, places })
    }

    /// Reads a URI from a text, whose memory it keeps.
    ///
    /// The errors are those of `from_bytes`; then `Error::OutOfMemory` if allocation fails. After an error the text is
    /// dropped.
    pub fn from_string(text: String) -> Result<Rsync, Error>
        ensures ok { IfOk result (λ u. (u ≡ string_bytes text) × (rsync_refusal (string_bytes text) ≡ None)) }
        ensures err { IfErr result (λ e. e ≡ unwrap_or (rsync_refusal (string_bytes text)) Error.OutOfMemory) }
    {
        let places = check_rsync(text.as_bytes())?;
        let bytes = Bytes::from_string(text)?;
        Ok(Rsync { bytes, places })
    }

    /// Reads a URI from a copy of the text.
    ///
    /// The errors are those of `from_bytes`; then `Error::OutOfMemory` if allocation fails.
    pub fn from_str(alloc: Global, text: &str) -> Result<Rsync, Error>
        ensures ok { IfOk result (λ u. (u ≡ text.now) × (rsync_refusal text.now ≡ None)) }
        ensures err { IfErr result (λ e. e ≡ unwrap_or (rsync_refusal text.now) Error.OutOfMemory) }
    {
        Rsync::from_slice(alloc, text.as_bytes())
    }

    /// Returns a copy of the URI that shares its text.
    ///
    /// Returns `AllocError` if allocation fails.
    pub fn clone(&self) -> Result<Rsync, AllocError>
        ensures { IfOk result (λ copy. copy ≡ self.now) }
    {
        let bytes = self.bytes.clone()?;
        Ok(Rsync {
            bytes,
            places: self.places,
        })
    }

    /// Moves the text, unchanged, to memory that nothing else shares.
    ///
    /// Returns `AllocError` if allocation fails, and then changes nothing.
    pub fn unshare(&mut self, alloc: Global) -> Result<(), AllocError>
        ensures { self.new ≡ self.old }
    {
        let bytes = Bytes::copy_from_slice(alloc, self.bytes.as_slice())?;
        self.bytes = bytes;
        Ok(())
    }
}

/// # The text and its parts
impl Rsync {
    /// The text as it was spelled, in octets. It spells this URI, nothing is wrong with it except perhaps its length,
    /// and if it has at most 3,079 octets it is accepted when it is read again.
    pub fn as_slice(&self) -> &[u8]
        ensures text { result.now ≡ self.now }
        ensures spelled { Spells self.now (uri_of self.now) }
        ensures uri { IsRsyncUri (uri_of self.now) }
        ensures form { IsRsync self.now }
        ensures parses_again { length self.now < 3080 → rsync_refusal self.now ≡ None }
    {
        self.bytes.as_slice()
    }

    /// The text as it was spelled.
    pub fn as_str(&self) -> &str
        ensures { result.now ≡ self.now }
    {
        uri_text(self.as_slice())
    }

    /// This URI over the octets of its text, as it is read by `RsyncView::from_slice`.
    pub fn view(&self) -> RsyncView<'_>
        ensures { rsync_text result ≡ self.now }
    {
        RsyncView::of(self.cut())
    }

    /// The text with the places of its parts.
    fn cut(&self) -> RsyncCut<'_>
        ensures text { cut_text result ≡ self.now }
        ensures own { IsOwn result }
    {
        RsyncCut::of(self.bytes.as_slice(), self.places)
    }

    /// The text as it was spelled, in the memory that this URI shares.
    ///
    /// Returns `AllocError` if allocation fails.
    pub fn to_bytes(&self) -> Result<Bytes, AllocError>
        ensures { IfOk result (λ bytes. bytes ≡ self.now) }
    {
        let bytes = self.bytes.clone()?;
        Ok(bytes)
    }

    /// The authority as it was spelled.
    pub fn authority(&self) -> &str
        ensures { result.now ≡ authority_of self.now }
    {
        self.view().authority()
    }

    /// The authority in lower case.
    ///
    /// Returns `AllocError` if the text has to be written and allocation fails.
    pub fn canonical_authority(&self, alloc: Global) -> Result<CowStr<'_, Global>, AllocError>
        ensures ok { IfOk result (λ text. cow_str_bytes text ≡ lowercase (authority_of self.now)) }
        ensures free { lowercase (authority_of self.now) ≡ authority_of self.now → IsOk result }
    {
        in_lower_case(alloc, self.authority())
    }

    /// The module's name, without slashes.
    pub fn module_name(&self) -> &str
        ensures { result.now ≡ module_name_of self.now }
    {
        self.view().module_name()
    }

    /// Everything up to the path as it was spelled: the scheme, the authority and the module, with the slash after it.
    pub fn module(&self) -> &str
        ensures { result.now ≡ module_of self.now }
    {
        self.view().module()
    }

    /// Everything up to the path, with the scheme and the authority in lower case.
    ///
    /// Returns `AllocError` if the text has to be written and allocation fails.
    pub fn canonical_module(&self, alloc: Global) -> Result<CowStr<'_, Global>, AllocError>
        ensures ok { IfOk result (λ text. cow_str_bytes text ≡ canonical_module_of self.now) }
        ensures free { canonical_module_of self.now ≡ module_of self.now → IsOk result }
    {
        let site = self.site();
        if has_no_capital(site) {
            return Ok(CowStr::Borrowed(self.module()));
        }
        let mut text = String::from_str(alloc, uri_text(site))?;
        text.make_ascii_lowercase();
        text.push_str(self.module_name())?;
        text.push_str("/")?;
        Ok(CowStr::Owned(text))
    }

    /// The path, without a slash before it.
    pub fn path(&self) -> &str
        ensures { result.now ≡ path_of self.now }
    {
        self.view().path()
    }

    /// The path in octets.
    pub fn path_bytes(&self) -> &[u8]
        ensures { result.now ≡ path_of self.now }
    {
        self.cut().path()
    }

    /// Whether the path is empty or ends with a slash.
    pub fn path_is_dir(&self) -> bool
        ensures { result ≡ is_dir (path_of self.now) }
    {
        self.cut().path_is_dir()
    }

    /// Whether the path, in octets, ends with `end`.
    pub fn ends_with(&self, end: &str) -> bool
        ensures { result ≡ ends_with nat_eq (path_of self.now) end.now }
    {
        self.path_bytes().ends_with(end.as_bytes())
    }

    /// The scheme, the authority and the slash after it.
    fn site(&self) -> &[u8]
        ensures lower { lowercase result.now ≡ codes "rsync://" ++ lowercase (authority_of self.now) ++ codes "/" }
        ensures module { module_of self.now ≡ result.now ++ module_name_of self.now ++ codes "/" }
        ensures characters { list_all is_uri_byte result.now ≡ true }
    {
        let (front, _) = self.bytes.as_slice().split_at(self.places.module_start);
        front
    }

    /// Everything after the scheme, the authority and the slash after it.
    fn rest_bytes(&self) -> &[u8]
        ensures { result.now ≡ module_name_of self.now ++ codes "/" ++ path_of self.now }
    {
        let (_, rest) = self.bytes.as_slice().split_at(self.places.module_start);
        rest
    }
}

/// # Paths
impl Rsync {
    /// Puts a slash last, unless the path is empty or has one. There is no test of length, so the text may become one
    /// that is rejected when it is read again.
    ///
    /// Returns `AllocError` if allocation fails, and then changes nothing. If the path is a directory already,
    /// allocates nothing and returns no error.
    pub fn path_into_dir(&mut self, alloc: Global) -> Result<(), AllocError>
        ensures ok { OnOk result (self.new ≡ with_slash self.old) }
        ensures meaning { OnOk result (uri_of self.new ≡ record (uri_of self.old) { is_dir = true }) }
        ensures begins { OnOk result (take (length self.old) self.new ≡ self.old) }
        ensures err { OnErr result (self.new ≡ self.old) }
        ensures free { IfErr result (λ _. is_dir (path_of self.old) ≡ false) }
    {
        if self.path_is_dir() {
            return Ok(());
        }
        let bytes = self.cut().as_dir().to_bytes(alloc)?;
        self.bytes = bytes;
        Ok(())
    }

    /// The URI without its last segment, a slash last; `None` if there is no segment. Its text is a prefix of this
    /// one's.
    ///
    /// Returns `AllocError` if allocation fails.
    pub fn parent(&self) -> Result<Option<Rsync>, AllocError>
        ensures text { IfOk result (λ o. o ≡ parent_of self.now) }
        ensures meaning { IfOk result (λ o. option_map uri_of o ≡ parent_uri (uri_of self.now)) }
        ensures there { IfOk result (λ o. is_some o ≡ nat_lt 0 (length (uri_of self.now).segments)) }
        ensures above { IfOk result (λ o. IfSome o (λ p. IsParentText p self.now)) }
        ensures none { path_of self.now ≡ [] → result ≡ Ok None }
    {
        let places = self.places;
        let Some(len) = self.view().parent_len() else {
            return Ok(None);
        };
        let bytes = self.bytes.slice(0..len)?;
        Ok(Some(Rsync { bytes, places }))
    }

    /// The URI with the path's segments appended to its own, and this text as its prefix; a slash is put between if
    /// this one's text ends without one. An empty path gives a copy, for which the only error is `Error::OutOfMemory`.
    /// `relative_to` gives the path back.
    ///
    /// For a path that is not empty, returns the first of these errors that applies: `Error::InvalidCharacters`;
    /// `Error::LongUri` for 3,072 octets or more of path; the error of its segments, as in `from_bytes`;
    /// `Error::LongUri` for a whole text of 3,072 octets or more; `Error::OutOfMemory` if allocation fails.
    pub fn join(&self, alloc: Global, path: &[u8]) -> Result<Rsync, Error>
        ensures text { IfOk result (λ u. u ≡ joined self.now path.now) }
        ensures meaning { IfOk result (λ u. uri_of u ≡ joined_uri (uri_of self.now) path.now) }
        ensures begins { IfOk result (λ u. take (length self.now) u ≡ self.now) }
        ensures back { IfOk result (λ u. relative (uri_of u) (uri_of self.now) ≡ Some path.now) }
        ensures ok { OnOk result (join_refusal self.now path.now ≡ None) }
        ensures err { IfErr result (λ e. e ≡ unwrap_or (join_refusal self.now path.now) Error.OutOfMemory) }
    {
        let places = self.places;
        let bytes = self.joined_text(alloc, path)?;
        Ok(Rsync { bytes, places })
    }

    /// The path from `other` to this URI, with this one's last slash: `None` unless both have the same authority,
    /// ignoring case, and the same module, and the other's segments are a prefix of this one's; empty if no segment
    /// remains. Where it is not empty, joining it to `other` gives an equal URI, unless this text has 3,072 octets or
    /// more. Allocates nothing.
    pub fn relative_to(&self, other: &Rsync) -> Option<&str>
        ensures path { option_copied result ≡ relative (uri_of self.now) (uri_of other.now) }
        ensures back { IfSome result (λ p. 0 < length p.now → IsWayBack self.now other.now p.now) }
        ensures same { IfSome result (λ p. p.now ≡ [] → is_identical (uri_of self.now) (uri_of other.now) ≡ true) }
    {
        self.view().relative_to(&other.view())
    }

    /// Whether `other` lies below this URI: the same authority and module, and this one's segments are a proper prefix
    /// of the other's. No URI lies below itself, and what lies below one that lies below a third lies below the third.
    /// Allocates nothing.
    pub fn is_parent_of(&self, other: &Rsync) -> bool
        ensures value { result ≡ is_parent (uri_of self.now) (uri_of other.now) }
        ensures irreflexive { is_parent (uri_of self.now) (uri_of self.now) ≡ false }
        ensures transitive { IsAboveAllBelow (uri_of self.now) (uri_of other.now) }
    {
        self.cut().is_parent_of(&other.cut())
    }

    /// Whether both have the same authority, module and segments, with or without a slash last. Allocates nothing.
    pub fn is_identical_to(&self, other: &Rsync) -> bool
        ensures { result ≡ is_identical (uri_of self.now) (uri_of other.now) }
    {
        self.cut().is_identical_to(&other.cut())
    }

    /// The text with the path joined to it.
    fn joined_text(&self, alloc: Global, path: &[u8]) -> Result<Bytes, Error>
        ensures text { IfOk result (λ b. b ≡ joined self.now path.now) }
        ensures ok { OnOk result (join_refusal self.now path.now ≡ None) }
        ensures err { IfErr result (λ e. e ≡ unwrap_or (join_refusal self.now path.now) Error.OutOfMemory) }
    {
        let cut = self.cut();
        let joined = cut.joined(path)?;
        if path.is_empty() {
            return Ok(self.bytes.clone()?);
        }
        Ok(joined.to_bytes(alloc)?)
    }
}

/// # Equality and hash
impl Rsync {
    /// Whether these octets are the text but for the case of its scheme and its authority. For octets that are read as
    /// a URI this is equality with that URI.
    pub fn eq_bytes(&self, other: &[u8]) -> bool
        ensures text { result ≡ eq_rsync_bytes self.now other.now }
        ensures uri { rsync_refusal other.now ≡ None → result ≡ same_uri (uri_of self.now) (uri_of other.now) }
    {
        same_but_case(self.bytes.as_slice(), self.places.module_start - 1, other)
    }
}

impl PartialEq for Rsync {
    ghost eq = { on uri_of same_uri };

    ghost laws = { texts_per };

    fn eq(&self, other: &Rsync) -> bool {
        self.cut().is_equal_to(&other.cut())
    }
}

impl Eq for Rsync {
    ghost laws = { texts_equiv };
}

impl Hash for Rsync {
    ghost hash_input = { hashed };

    ghost respects_eq = { same_uri-hashed };

    fn hash<H: Hasher>(&self, state: &mut H) {
        hash_in_lower_case(self.site(), state);
        self.rest_bytes().hash(state);
    }
}

impl fmt::Display for Rsync {
    ghost output = { λ u. Some u };

    fn fmt<W: fmt::Write>(&self, f: &mut fmt::Formatter<W>) -> fmt::Result {
        f.write_str(self.as_str())
    }
}
