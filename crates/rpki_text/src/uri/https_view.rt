//! Https URIs in borrowed octets (RFC 9110 section 4.2.2).

ghost use Rattle.std.specs.Prelude.{◌≡◌, ◌≢◌, length, None, Some, MatchResult, IfOk, OnOk, IfErr};
ghost use Rattle.rpki_text.specs.HttpsText.{https_refusal, IsHttpsCut, https_authority, https_path};
ghost use Rattle.rpki_text.specs.Places.{IsPartAt};
ghost use Rattle.rpki_text.specs.Cuts.{IsOwnHttps};

use super::characters::{check_uri_ascii, slash_at, starts_with_ignore_case, uri_text};
use super::error::Error;
use super::https_cut::{HttpsCut, SCHEME_LEN};
use std::ops::Range;

/// An authority has fewer octets than this.
const AUTHORITY_LIMIT: usize = 256;

/// An https URI in borrowed octets: what `Https` says of its text, without a copy and without an allocation.
///
/// Each part is a part of these octets, and has its range in them.
#[derive(Clone, Copy)]
pub struct HttpsView<'a> {
    cut: HttpsCut<'a>,
    ghost own: { IsOwnHttps cut },
}

impl<'a> HttpsView<'a> {
    ghost use Rattle.rpki_text.specs.Views.{https_text};
    ghost use Rattle.rpki_text.specs.Cuts.{https_cut_text};

    /// Reads a URI, whose text is then exactly these octets. Allocates nothing.
    ///
    /// The errors are those of `Https::from_bytes`.
    pub fn from_slice(slice: &'a [u8]) -> Result<HttpsView<'a>, Error>
        ensures read { MatchResult result (λ u. (https_text u ≡ slice.now) × (https_refusal slice.now ≡ None))
            (λ e. https_refusal slice.now ≡ Some e) }
        ensures memory { IfErr result (λ e. e ≢ Error.OutOfMemory) }
    {
        let path_start = check_https(slice)?;
        Ok(HttpsView {
            cut: HttpsCut::of(slice, path_start),
        })
    }

    /// A view of a text that was read already.
    pub(super) fn of(cut: HttpsCut<'a>) -> HttpsView<'a>
        requires { IsOwnHttps cut }
        ensures { https_text result ≡ https_cut_text cut.entry }
    {
        HttpsView { cut }
    }

    /// The text with the place of its path.
    pub fn cut(&self) -> HttpsCut<'a>
        ensures text { https_cut_text result ≡ https_text self.now }
        ensures own { IsOwnHttps result }
    {
        self.cut
    }

    /// The text as it was spelled, in octets. It is accepted when it is read again.
    pub fn as_slice(&self) -> &'a [u8]
        ensures text { result.now ≡ https_text self.now }
        ensures parses_again { https_refusal (https_text self.now) ≡ None }
    {
        self.cut.as_slice()
    }

    /// The text as it was spelled.
    pub fn as_str(&self) -> &'a str
        ensures { result.now ≡ https_text self.now }
    {
        uri_text(self.as_slice())
    }

    /// The authority as it was spelled, which may be empty.
    pub fn authority(&self) -> &'a str
        ensures { result.now ≡ https_authority (https_text self.now) }
    {
        uri_text(self.cut.authority())
    }

    /// Where the authority is in the text: after `https://`.
    pub fn authority_range(&self) -> Range<usize>
        ensures part { IsPartAt (https_text self.now) result (https_authority (https_text self.now)) }
        ensures first { result.start ≡ 8 }
    {
        SCHEME_LEN..self.cut.path_start
    }

    /// The path: empty, or everything from the first slash after `https://`.
    pub fn path(&self) -> &'a str
        ensures { result.now ≡ https_path (https_text self.now) }
    {
        uri_text(self.cut.path())
    }

    /// Where the path is in the text: from its start to the end of the text.
    pub fn path_range(&self) -> Range<usize>
        ensures path { IsPartAt (https_text self.now) result (https_path (https_text self.now)) }
        ensures last { result.end ≡ length (https_text self.now) }
    {
        self.cut.path_start..self.cut.text.len()
    }
}

/// Tests a text, and finds where its path begins.
pub(super) fn check_https(text: &[u8]) -> Result<usize, Error>
    ensures ok { OnOk result (https_refusal text.now ≡ None) }
    ensures cut { IfOk result (λ n. IsHttpsCut text.now n) }
    ensures err { IfErr result (λ e. https_refusal text.now ≡ Some e) }
{
    check_uri_ascii(text)?;
    if !starts_with_ignore_case(text, b"https://") {
        return Err(Error::BadScheme);
    }
    let (_, rest) = text.split_at(SCHEME_LEN);
    let authority = slash_at(rest);
    if authority >= AUTHORITY_LIMIT {
        return Err(Error::BadUri);
    }
    Ok(SCHEME_LEN + authority)
}
