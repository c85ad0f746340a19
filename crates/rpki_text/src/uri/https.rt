//! Https URIs (RFC 9110 section 4.2.2).

ghost use Rattle.std.specs.Prelude.{◌≡◌, false, length, take, bytes_eq, codes, Some, None, MatchResult, ◌+◌};
ghost use Rattle.std.specs.Prelude.{◌++◌, IfSome, IsOk, IfOk, OnOk, OnErr, IfErr, string_bytes};
ghost use Rattle.std.specs.Cow.{cow_str_bytes};
ghost use Rattle.std.specs.Option.{option_map, unwrap_or};
ghost use Rattle.std.specs.Ordering.{on};
ghost use Rattle.rpki_text.specs.SameHttpsLaws.{same_https-hashed, https_equiv, https_per};
ghost use Rattle.rpki_text.specs.Segments.{is_dir, with_slash};
ghost use Rattle.rpki_text.specs.UriText.{lowercase};
ghost use Rattle.rpki_text.specs.Views.{https_text};
ghost use Rattle.rpki_text.specs.Cuts.{https_cut_text, IsOwnHttps};
ghost use Rattle.rpki_text.specs.HttpsText.{https_refusal, IsHttpsCut, https_authority, https_path, https_uri_of};
ghost use Rattle.rpki_text.specs.HttpsText.{IsHttpsUri, SpellsHttps, same_https, https_hashed, eq_https_bytes};
ghost use Rattle.rpki_text.specs.HttpsText.{https_joined, https_joined_uri, https_join_refusal};
ghost use Rattle.rpki_text.specs.HttpsText.{https_into_dir, https_parent_of, https_parent_uri};

use super::characters::{hash_in_lower_case, in_lower_case, same_but_case, uri_text};
use super::error::Error;
use super::https_cut::HttpsCut;
use super::https_view::{HttpsView, check_https};
use super::scheme::Scheme;
use bytes::Bytes;
use std::alloc::{AllocError, Global};
use std::borrow::CowStr;
use std::fmt;
use std::hash::{Hash, Hasher};
use std::marker::Model;

/// An https URI: an authority, which may be empty, and a path, which is empty or begins with a slash (RFC 9110
/// section 4.2.2, RFC 3986 section 3).
///
/// It keeps the text that it was spelled with. What the text stands for is the authority in lower case and the path;
/// equality and hash go by these.
#[derive(Debug, Drop)]
pub struct Https {
    bytes: Bytes,
    path_start: usize,
}

impl Model for Https {
    ghost use Rattle.std.specs.Prelude.{ℕ, List};

    ghost Value = { List ℕ };

    ghost use Rattle.rpki_text.specs.HttpsText.{IsHttpsCut};

    ghost view = { λ u. u.bytes };

    ghost invariant = { λ u. IsHttpsCut u.bytes u.path_start };
}

/// # Reading
impl Https {
    /// Reads a URI, whose text is then exactly these octets. Allocates nothing.
    ///
    /// Returns the first of these errors that applies: `Error::InvalidCharacters` for a character that a URI may not
    /// have; `Error::BadScheme` unless the text begins with `https://`, ignoring case; `Error::BadUri` for an authority
    /// of 256 octets or more.
    pub fn from_bytes(bytes: Bytes) -> Result<Https, Error>
        ensures { MatchResult result (λ u. (u ≡ bytes) × (https_refusal bytes ≡ None))
            (λ e. https_refusal bytes ≡ Some e) }
    {
        let path_start = check_https(bytes.as_slice())?;
        Ok(Https { bytes, path_start })
    }

    /// Reads a URI from a copy of the octets.
    ///
    /// The errors are those of `from_bytes`; then `Error::OutOfMemory` if allocation fails.
    pub fn from_slice(alloc: Global, slice: &[u8]) -> Result<Https, Error>
        ensures ok { IfOk result (λ u. (u ≡ slice.now) × (https_refusal slice.now ≡ None)) }
        ensures err { IfErr result (λ e. e ≡ unwrap_or (https_refusal slice.now) Error.OutOfMemory) }
    {
        let path_start = check_https(slice)?;
        let bytes = Bytes::copy_from_slice(alloc, slice)?;
        Ok(Https { bytes, path_start })
    }

    /// Reads a URI from a text, whose memory it keeps.
    ///
    /// The errors are those of `from_bytes`; then `Error::OutOfMemory` if allocation fails. After an error the text is
    /// dropped.
    pub fn from_string(text: String) -> Result<Https, Error>
        ensures ok { IfOk result (λ u. (u ≡ string_bytes text) × (https_refusal (string_bytes text) ≡ None)) }
        ensures err { IfErr result (λ e. e ≡ unwrap_or (https_refusal (string_bytes text)) Error.OutOfMemory) }
    {
        let path_start = check_https(text.as_bytes())?;
        let bytes = Bytes::from_string(text)?;
        Ok(Https { bytes, path_start })
    }

    /// Reads a URI from a copy of the text.
    ///
    /// The errors are those of `from_bytes`; then `Error::OutOfMemory` if allocation fails.
    pub fn from_str(alloc: Global, text: &str) -> Result<Https, Error>
        ensures ok { IfOk result (λ u. (u ≡ text.now) × (https_refusal text.now ≡ None)) }
        ensures err { IfErr result (λ e. e ≡ unwrap_or (https_refusal text.now) Error.OutOfMemory) }
    {
        Https::from_slice(alloc, text.as_bytes())
    }

    /// Returns a copy of the URI that shares its text.
    ///
    /// Returns `AllocError` if allocation fails.
    pub fn clone(&self) -> Result<Https, AllocError>
        ensures { IfOk result (λ copy. copy ≡ self.now) }
    {
        let bytes = self.bytes.clone()?;
        Ok(Https {
            bytes,
            path_start: self.path_start,
        })
    }

    /// Moves the text, unchanged, to memory that nothing else shares.
    ///
    /// Returns `AllocError` if allocation fails, and then changes nothing.
    pub fn unshare(&mut self, alloc: Global) -> Result<(), AllocError>
        ensures { self.new ≡ self.old }
    {
        let bytes = Bytes::copy_from_slice(alloc, self.bytes.as_slice())?;
        self.bytes = bytes;
        Ok(())
    }
}

/// # The text and its parts
impl Https {
    /// The text as it was spelled, in octets. It spells this URI, and is accepted when it is read again.
    pub fn as_slice(&self) -> &[u8]
        ensures text { result.now ≡ self.now }
        ensures spelled { SpellsHttps self.now (https_uri_of self.now) }
        ensures uri { IsHttpsUri (https_uri_of self.now) }
        ensures parses_again { https_refusal self.now ≡ None }
    {
        self.bytes.as_slice()
    }

    /// The text as it was spelled.
    pub fn as_str(&self) -> &str
        ensures { result.now ≡ self.now }
    {
        uri_text(self.as_slice())
    }

    /// This URI over the octets of its text, as it is read by `HttpsView::from_slice`.
    pub fn view(&self) -> HttpsView<'_>
        ensures { https_text result ≡ self.now }
    {
        HttpsView::of(self.cut())
    }

    /// The text with the place of its path.
    fn cut(&self) -> HttpsCut<'_>
        ensures text { https_cut_text result ≡ self.now }
        ensures own { IsOwnHttps result }
    {
        HttpsCut::of(self.bytes.as_slice(), self.path_start)
    }

    /// The text as it was spelled, in the memory that this URI shares.
    pub fn as_bytes(&self) -> &Bytes
        ensures { result.now ≡ self.now }
    {
        &self.bytes
    }

    /// The scheme, which is always `https`.
    pub fn scheme(&self) -> Scheme
        ensures { result ≡ Scheme.Https }
    {
        Scheme::Https
    }

    /// The authority as it was spelled.
    pub fn authority(&self) -> &str
        ensures { result.now ≡ https_authority self.now }
    {
        self.view().authority()
    }

    /// The authority in lower case.
    ///
    /// Returns `AllocError` if the text has to be written and allocation fails.
    pub fn canonical_authority(&self, alloc: Global) -> Result<CowStr<'_, Global>, AllocError>
        ensures ok { IfOk result (λ text. cow_str_bytes text ≡ lowercase (https_authority self.now)) }
        ensures free { lowercase (https_authority self.now) ≡ https_authority self.now → IsOk result }
    {
        in_lower_case(alloc, self.authority())
    }

    /// The path: empty, or everything from the first slash after `https://`.
    pub fn path(&self) -> &str
        ensures { result.now ≡ https_path self.now }
    {
        self.view().path()
    }

    /// Whether the path is empty or ends with a slash.
    pub fn path_is_dir(&self) -> bool
        ensures { result ≡ is_dir (https_path self.now) }
    {
        self.cut().path_is_dir()
    }

    /// The scheme and the authority.
    fn site(&self) -> &[u8]
        ensures { lowercase result.now ≡ codes "https://" ++ lowercase (https_authority self.now) }
    {
        let (front, _) = self.bytes.as_slice().split_at(self.path_start);
        front
    }
}

/// # Paths
impl Https {
    /// Puts a slash last, unless the path is empty or has one. The old text is a prefix of the new one.
    ///
    /// Returns `AllocError` if allocation fails, and then changes nothing. If the path is a directory already,
    /// allocates nothing and returns no error.
    pub fn path_into_dir(&mut self, alloc: Global) -> Result<(), AllocError>
        ensures ok { OnOk result (self.new ≡ https_into_dir self.old) }
        ensures meaning { OnOk result (https_uri_of self.new
            ≡ record (https_uri_of self.old) { path = with_slash (https_path self.old) }) }
        ensures begins { OnOk result (take (length self.old) self.new ≡ self.old) }
        ensures err { OnErr result (self.new ≡ self.old) }
        ensures free { IfErr result (λ _. is_dir (https_path self.old) ≡ false) }
    {
        if self.path_is_dir() {
            return Ok(());
        }
        let bytes = self.cut().as_dir().to_bytes(alloc)?;
        self.bytes = bytes;
        Ok(())
    }

    /// The URI above: one last slash of the path dropped, and then everything after the last remaining slash; `None`
    /// if nothing remains. Its text is a prefix of this one's.
    ///
    /// Returns `AllocError` if allocation fails.
    pub fn parent(&self) -> Result<Option<Https>, AllocError>
        ensures text { IfOk result (λ o. o ≡ https_parent_of self.now) }
        ensures meaning { IfOk result (λ o. option_map https_uri_of o ≡ https_parent_uri (https_uri_of self.now)) }
        ensures begins { IfOk result (λ o. IfSome o (λ p. take (length p) self.now ≡ p)) }
        ensures none { https_parent_of self.now ≡ None → result ≡ Ok None }
    {
        let path_start = self.path_start;
        let Some(len) = self.cut().parent_len() else {
            return Ok(None);
        };
        let bytes = self.bytes.slice(0..len)?;
        Ok(Some(Https { bytes, path_start }))
    }

    /// The URI with the path appended to its own, and this text as its prefix; a slash is put between if this one's
    /// path is empty or ends without one, also for an empty argument.
    ///
    /// Returns `Error::InvalidCharacters` for a character that a URI may not have; then `Error::OutOfMemory` if
    /// allocation fails.
    pub fn join(&self, alloc: Global, path: &[u8]) -> Result<Https, Error>
        ensures text { IfOk result (λ u. u ≡ https_joined self.now path.now) }
        ensures meaning { IfOk result (λ u. https_uri_of u ≡ https_joined_uri (https_uri_of self.now) path.now) }
        ensures begins { IfOk result (λ u. take (length self.now) u ≡ self.now) }
        ensures ok { OnOk result (https_join_refusal path.now ≡ None) }
        ensures err { IfErr result (λ e. e ≡ unwrap_or (https_join_refusal path.now) Error.OutOfMemory) }
    {
        let path_start = self.path_start;
        let bytes = self.cut().joined(path)?.to_bytes(alloc)?;
        Ok(Https { bytes, path_start })
    }
}

/// # Equality and hash
impl Https {
    /// Whether both have the same authority, without regard to case.
    pub fn eq_authority(&self, other: &Https) -> bool
        ensures { result ≡ bytes_eq (lowercase (https_authority self.now)) (lowercase (https_authority other.now)) }
    {
        self.cut().has_authority_of(&other.cut())
    }

    /// Whether these octets are the text but for the case of its scheme and its authority. For octets that are read as
    /// a URI this is equality with that URI.
    pub fn eq_bytes(&self, other: &[u8]) -> bool
        ensures text { result ≡ eq_https_bytes self.now other.now }
        ensures uri { https_refusal other.now ≡ None
            → result ≡ same_https (https_uri_of self.now) (https_uri_of other.now) }
    {
        same_but_case(self.bytes.as_slice(), self.path_start, other)
    }
}

impl PartialEq for Https {
    ghost eq = { on https_uri_of same_https };

    ghost laws = { https_per };

    fn eq(&self, other: &Https) -> bool {
        self.cut().is_equal_to(&other.cut())
    }
}

impl Eq for Https {
    ghost laws = { https_equiv };
}

impl Hash for Https {
    ghost hash_input = { https_hashed };

    ghost respects_eq = { same_https-hashed };

    fn hash<H: Hasher>(&self, state: &mut H) {
        hash_in_lower_case(self.site(), state);
        self.path().as_bytes().hash(state);
    }
}

impl fmt::Display for Https {
    ghost output = { λ u. Some u };

    fn fmt<W: fmt::Write>(&self, f: &mut fmt::Formatter<W>) -> fmt::Result {
        f.write_str(self.as_str())
    }
}
