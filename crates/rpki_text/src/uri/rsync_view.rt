//! Rsync URIs in borrowed octets (RFC 5781).

ghost use Rattle.std.specs.Prelude.{◌≡◌, ◌≢◌, ◌≤◌, ◌<◌, ◌+◌, [], true, length, take, Some, None, MatchResult};
ghost use Rattle.std.specs.Prelude.{IfSome, IfNone, IfOk, OnOk, OnErr, IfErr, is_some};
ghost use Rattle.std.specs.Option.{option_copied};
ghost use Rattle.rpki_text.specs.Segments.{is_dir};
ghost use Rattle.rpki_text.specs.RsyncText.{rsync_refusal, has_module, uri_of, relative, is_identical, IsWayBack};
ghost use Rattle.rpki_text.specs.RsyncText.{IsRsync, IsCut, authority_of, module_name_of, module_of, path_of};
ghost use Rattle.rpki_text.specs.RsyncText.{parent_of, joined, join_refusal, StartAt, IsParentEnd};
ghost use Rattle.rpki_text.specs.Places.{IsPartAt, IsRelativeAt};
ghost use Rattle.rpki_text.specs.Buffer.{IsWritten};
ghost use Rattle.rpki_text.specs.Cuts.{IsOwn};

use super::characters::{check_uri_ascii, slash_at, starts_with_ignore_case, uri_text};
use super::error::Error;
use super::path::check_path;
use super::rsync_cut::{Places, RsyncCut, SCHEME_LEN};
use std::ops::Range;

/// An rsync URI in borrowed octets: what `Rsync` says of its text, without a copy and without an allocation.
///
/// Each part is a part of these octets, and has its range in them.
#[derive(Clone, Copy)]
pub struct RsyncView<'a> {
    cut: RsyncCut<'a>,
    ghost own: { IsOwn cut },
}

/// # The text and its parts
impl<'a> RsyncView<'a> {
    ghost use Rattle.rpki_text.specs.Views.{rsync_text};
    ghost use Rattle.rpki_text.specs.Cuts.{cut_text};

    /// Reads a URI, whose text is then exactly these octets. Allocates nothing.
    ///
    /// The errors are those of `Rsync::from_bytes`.
    pub fn from_slice(slice: &'a [u8]) -> Result<RsyncView<'a>, Error>
        ensures read { MatchResult result (λ u. (rsync_text u ≡ slice.now) × (rsync_refusal slice.now ≡ None))
            (λ e. rsync_refusal slice.now ≡ Some e) }
        ensures memory { IfErr result (λ e. e ≢ Error.OutOfMemory) }
    {
        let places = check_rsync(slice)?;
        Ok(RsyncView {
            cut: RsyncCut::of(slice, places),
        })
    }

    /// A view of a text that was read already.
    pub(super) fn of(cut: RsyncCut<'a>) -> RsyncView<'a>
        requires { IsOwn cut }
        ensures { rsync_text result ≡ cut_text cut.entry }
    {
        RsyncView { cut }
    }

    /// The text with the places of its parts.
    pub fn cut(&self) -> RsyncCut<'a>
        ensures text { cut_text result ≡ rsync_text self.now }
        ensures own { IsOwn result }
    {
        self.cut
    }

    /// The text as it was spelled, in octets. Nothing is wrong with it except perhaps its length.
    pub fn as_slice(&self) -> &'a [u8]
        ensures text { result.now ≡ rsync_text self.now }
        ensures form { IsRsync (rsync_text self.now) }
    {
        self.cut.as_slice()
    }

    /// The text as it was spelled.
    pub fn as_str(&self) -> &'a str
        ensures { result.now ≡ rsync_text self.now }
    {
        uri_text(self.as_slice())
    }

    /// The authority as it was spelled.
    pub fn authority(&self) -> &'a str
        ensures { result.now ≡ authority_of (rsync_text self.now) }
    {
        uri_text(self.cut.authority())
    }

    /// Where the authority is in the text: after `rsync://`.
    pub fn authority_range(&self) -> Range<usize>
        ensures part { IsPartAt (rsync_text self.now) result (authority_of (rsync_text self.now)) }
        ensures first { result.start ≡ 8 }
    {
        SCHEME_LEN..self.cut.places.module_start - 1
    }

    /// The module's name, without slashes.
    pub fn module_name(&self) -> &'a str
        ensures { result.now ≡ module_name_of (rsync_text self.now) }
    {
        uri_text(self.cut.module_name())
    }

    /// Where the module's name is in the text: after the authority and a slash.
    pub fn module_name_range(&self) -> Range<usize>
        ensures part { IsPartAt (rsync_text self.now) result (module_name_of (rsync_text self.now)) }
        ensures first { result.start ≡ 9 + length (authority_of (rsync_text self.now)) }
    {
        self.cut.places.module_start..self.cut.places.path_start - 1
    }

    /// Everything up to the path as it was spelled: the scheme, the authority and the module, with the slash after it.
    pub fn module(&self) -> &'a str
        ensures { result.now ≡ module_of (rsync_text self.now) }
    {
        uri_text(self.cut.module())
    }

    /// The path, without a slash before it.
    pub fn path(&self) -> &'a str
        ensures { result.now ≡ path_of (rsync_text self.now) }
    {
        uri_text(self.cut.path())
    }

    /// Where the path is in the text: from its start to the end of the text.
    pub fn path_range(&self) -> Range<usize>
        ensures path { IsPartAt (rsync_text self.now) result (path_of (rsync_text self.now)) }
        ensures last { result.end ≡ length (rsync_text self.now) }
    {
        self.cut.places.path_start..self.cut.text.len()
    }

    /// Whether the path is empty or ends with a slash.
    pub fn path_is_dir(&self) -> bool
        ensures { result ≡ is_dir (path_of (rsync_text self.now)) }
    {
        self.cut.path_is_dir()
    }
}

/// # Paths
impl<'a> RsyncView<'a> {
    ghost use Rattle.rpki_text.specs.Views.{rsync_text};

    /// The path from `base` to this URI, with this one's last slash, as a part of this text: the same as
    /// `Rsync::relative_to`. Allocates nothing.
    pub fn relative_to(&self, base: &RsyncView<'_>) -> Option<&'a str>
        ensures path { option_copied result ≡ relative (uri_of (rsync_text self.now)) (uri_of (rsync_text base.now)) }
        ensures back { IfSome result (λ p. 0 < length p.now
            → IsWayBack (rsync_text self.now) (rsync_text base.now) p.now) }
        ensures same { IfSome result (λ p. p.now ≡ []
            → is_identical (uri_of (rsync_text self.now)) (uri_of (rsync_text base.now)) ≡ true) }
    {
        let path = self.cut.relative_to(&base.cut)?;
        Some(uri_text(path))
    }

    /// Where the path from `base` to this URI is in this text, which ends with it; `None` where there is none.
    pub fn relative_range(&self, base: &RsyncView<'_>) -> Option<Range<usize>>
        ensures some { IfSome result (λ r. IsRelativeAt (rsync_text self.now) (rsync_text base.now) r) }
        ensures none { IfNone result (relative (uri_of (rsync_text self.now)) (uri_of (rsync_text base.now)) ≡ None) }
    {
        self.cut.relative_range(&base.cut)
    }

    /// The length of the parent's text, which is the beginning of this one: this text up to its last segment. `None` if
    /// there is no segment. Allocates nothing.
    pub fn parent_len(&self) -> Option<usize>
        ensures some { IfSome result (λ n. parent_of (rsync_text self.now) ≡ Some (take n (rsync_text self.now))) }
        ensures within { IfSome result (λ n. n ≤ length (rsync_text self.now)) }
        ensures segments { IfSome result (λ n. IsParentEnd (rsync_text self.now) n) }
        ensures none { IfNone result (parent_of (rsync_text self.now) ≡ None) }
    {
        self.cut.parent_len()
    }

    /// The length of the text that `Rsync::join` makes of this URI and the path. Allocates nothing.
    ///
    /// The errors are those of `Rsync::join`, but for `Error::OutOfMemory`.
    pub fn joined_len(&self, path: &[u8]) -> Result<usize, Error>
        ensures value { IfOk result (λ n. n ≡ length (joined (rsync_text self.now) path.now)) }
        ensures ok { OnOk result (join_refusal (rsync_text self.now) path.now ≡ None) }
        ensures err { IfErr result (λ e. join_refusal (rsync_text self.now) path.now ≡ Some e) }
        ensures memory { IfErr result (λ e. e ≢ Error.OutOfMemory) }
    {
        let joined = self.cut.joined(path)?;
        Ok(joined.len())
    }

    /// Writes the text that `Rsync::join` makes of this URI and the path to the front of the buffer, and returns its
    /// length; `None` if the buffer is shorter. Allocates nothing. Unless a length is returned, nothing is written.
    ///
    /// The errors are those of `joined_len`.
    pub fn join_into(&self, path: &[u8], buffer: &mut [u8]) -> Result<Option<usize>, Error>
        ensures written { IfOk result (λ o. IfSome o (λ n.
            IsWritten (joined (rsync_text self.now) path.now) buffer.old buffer.new n)) }
        ensures small { IfOk result (λ o. IfNone o
            ((length buffer.old < length (joined (rsync_text self.now) path.now)) × (buffer.new ≡ buffer.old))) }
        ensures ok { OnOk result (join_refusal (rsync_text self.now) path.now ≡ None) }
        ensures err { IfErr result (λ e. join_refusal (rsync_text self.now) path.now ≡ Some e) }
        ensures kept { OnErr result (buffer.new ≡ buffer.old) }
        ensures memory { IfErr result (λ e. e ≢ Error.OutOfMemory) }
    {
        let joined = self.cut.joined(path)?;
        Ok(joined.write_to(buffer))
    }
}

/// Where the module name and the path begin.
#[tactic(auto, using(crate::proofs::UriLaws::places))]
fn module_and_path(text: &[u8]) -> Option<Places>
    requires { 8 ≤ length text.now }
    ensures full { has_module text.now ≡ is_some result }
    ensures starts { IfSome result (λ p. StartAt text.now p.module_start p.path_start) }
{
    let (_, rest) = text.split_at(SCHEME_LEN);
    let authority = slash_at(rest);
    if authority == 0 {
        return None;
    }
    if authority == rest.len() {
        return None;
    }
    let (_, tail) = rest.split_at(authority + 1);
    let module = slash_at(tail);
    if module == 0 {
        return None;
    }
    if module == tail.len() {
        return None;
    }
    Some(Places {
        module_start: SCHEME_LEN + authority + 1,
        path_start: SCHEME_LEN + authority + module + 2,
    })
}

/// Tests a text, and finds where its module name and its path begin.
#[tactic(auto, using(crate::proofs::UriLaws::refusals))]
pub(super) fn check_rsync(text: &[u8]) -> Result<Places, Error>
    ensures ok { OnOk result (rsync_refusal text.now ≡ None) }
    ensures cut { IfOk result (λ p. IsCut text.now p.module_start p.path_start) }
    ensures err { IfErr result (λ e. rsync_refusal text.now ≡ Some e) }
{
    check_uri_ascii(text)?;
    if !starts_with_ignore_case(text, b"rsync://") {
        return Err(Error::BadScheme);
    }
    check_path(&text[SCHEME_LEN..])?;
    match module_and_path(text) {
        Some(places) => Ok(places),
        None => Err(Error::BadUri),
    }
}
