//! A key of a trust anchor, with what a locator says of it (RFC 9691 3.2.2), read in place without memory.

ghost use Rattle.std.specs.Prelude.{◌≡◌, ◌<◌, ◌++◌, IfOk, IfSome, OnOk, length};
ghost use Rattle.rpki_der.specs.Prelude.{left};
ghost use Rattle.rpki_locator.specs.Locator.{is_anchor_uri};
ghost use Rattle.rpki_parse.specs.Words.{Moves, kinds, parsed};
ghost use Rattle.rpki_records.specs.AnchorKeys.{algorithm_at, anchor_key_at, comments_at, found_key};
ghost use Rattle.rpki_records.specs.AnchorKeys.{given_comment_at, given_uri_at, key_at, key_parts, skip_comment_at};
ghost use Rattle.rpki_records.specs.AnchorKeys.{skip_uri_at, uri_at, uris_at, whole_key};
ghost use Rattle.rpki_records.specs.Words.{firsts, seen, where_there};

use rpki::uri::{HttpsView, RsyncView};
use rpki_der::{Constructed, DecodeError, Ia5String, Utf8String};
use rpki_parse::{Step, finish, fold, take_bits, take_ia5, take_oid, take_sequence, take_utf8};
use std::alloc::{AllocError, Global};

/// A key of a trust anchor, whose parts are borrowed from the octets that it was read from.
#[derive(Clone, Copy)]
pub struct AnchorKey<'a> {
    /// The comments, in sequence: the contents of their list.
    pub comments: &'a [u8],
    /// How many comments there are.
    pub comment_count: usize,
    /// The URIs of the certificate, in sequence: the contents of their list.
    pub uris: &'a [u8],
    /// How many URIs there are.
    pub uri_count: usize,
    /// The key: a SubjectPublicKeyInfo (RFC 5280 4.1.2.7).
    pub key: &'a [u8],
}

/// The comments of a key that have yet to be given, in order.
#[derive(Clone, Copy)]
pub struct CommentCursor<'a> {
    /// The rest of their octets.
    pub rest: Constructed<'a>,
}

/// The URIs of a key that have yet to be given, in order.
#[derive(Clone, Copy)]
pub struct UriCursor<'a> {
    /// The rest of their octets.
    pub rest: Constructed<'a>,
}

/// Reads a comment.
#[derive(Drop)]
struct CommentStep;

impl Step for CommentStep {
    type State = ();

    ghost next_at = { λ _ _. skip_comment_at };

    fn next(&self, _: (), cons: &mut Constructed<'_>) -> Result<(), DecodeError> {
        take_utf8(cons)?;
        Ok(())
    }
}

/// How many comments there are, which are the whole rest.
#[tactic(auto, unfolding(crate::specs::AnchorKeys::comments_at))]
fn count_comments(contents: Constructed<'_>) -> Result<usize, DecodeError>
    ensures { kinds result ≡ comments_at (left contents.entry) }
{
    let (_, count) = fold(contents, (), &CommentStep)?;
    Ok(count)
}

/// Whether this is an rsync URI of a single object, not of a folder, or an https URI (RFC 8630 2.2).
fn is_anchor_uri(text: &[u8]) -> bool
    ensures { result ≡ is_anchor_uri text.now }
{
    if let Ok(uri) = RsyncView::from_slice(text) {
        if !uri.path_is_dir() {
            return true;
        }
    }
    HttpsView::from_slice(text).is_ok()
}

/// A URI, an IA5String.
fn take_uri<'a>(cons: &mut Constructed<'a>) -> Result<Ia5String<'a>, DecodeError>
    ensures reads { parsed (λ uri. uri) result (left cons.new) ≡ uri_at (left cons.old) }
    ensures moves { Moves (left cons.old) (left cons.new) result }
{
    let mut after = *cons;
    let uri = take_ia5(&mut after)?;
    if !is_anchor_uri(uri.as_str().as_bytes()) {
        return Err(DecodeError::content("neither an rsync URI of an object nor an https URI"));
    }
    *cons = after;
    Ok(uri)
}

/// Reads a URI.
#[derive(Drop)]
struct UriStep;

impl Step for UriStep {
    type State = ();

    ghost next_at = { λ _ _. skip_uri_at };

    fn next(&self, _: (), cons: &mut Constructed<'_>) -> Result<(), DecodeError> {
        take_uri(cons)?;
        Ok(())
    }
}

/// How many URIs there are, which are the whole rest: one at least.
#[tactic(auto, unfolding(crate::specs::AnchorKeys::uris_at))]
fn count_uris(contents: Constructed<'_>) -> Result<usize, DecodeError>
    ensures { kinds result ≡ uris_at (left contents.entry) }
{
    let (_, count) = fold(contents, (), &UriStep)?;
    if count == 0 {
        return Err(DecodeError::content("no URI"));
    }
    Ok(count)
}

/// Moves past the identifier of an algorithm and its parameters.
fn skip_algorithm(cons: &mut Constructed<'_>) -> Result<(), DecodeError>
    ensures { parsed (λ v. v) result (left cons.new) ≡ algorithm_at (left cons.old) }
{
    let mut after = *cons;
    let mut contents = take_sequence(&mut after)?;
    take_oid(&mut contents)?;
    *cons = after;
    Ok(())
}

/// Moves past a SubjectPublicKeyInfo.
#[tactic(auto, unfolding(crate::specs::AnchorKeys::key_at))]
fn skip_key(cons: &mut Constructed<'_>) -> Result<(), DecodeError>
    ensures reads { parsed (λ v. v) result (left cons.new) ≡ key_at (left cons.old) }
    ensures moves { Moves (left cons.old) (left cons.new) result }
{
    let mut after = *cons;
    let mut contents = take_sequence(&mut after)?;
    skip_algorithm(&mut contents)?;
    take_bits(&mut contents)?;
    finish(contents)?;
    *cons = after;
    Ok(())
}

/// The octets of a SubjectPublicKeyInfo, which is the whole rest.
fn key_octets<'a>(contents: Constructed<'a>) -> Result<&'a [u8], DecodeError>
    ensures { seen (λ x. x.now) result ≡ whole_key (left contents.entry) }
{
    let mut rest = contents;
    skip_key(&mut rest)?;
    finish(rest)?;
    Ok(contents.rest())
}

/// The parts, which are the whole rest.
fn read_parts<'a>(contents: Constructed<'a>) -> Result<AnchorKey<'a>, DecodeError>
    ensures { seen found_key result ≡ key_parts (left contents.entry) }
{
    let mut rest = contents;
    let comments = take_sequence(&mut rest)?;
    let comment_count = count_comments(comments)?;
    let uris = take_sequence(&mut rest)?;
    let uri_count = count_uris(uris)?;
    let key = key_octets(rest)?;
    Ok(AnchorKey {
        comments: comments.rest(),
        comment_count,
        uris: uris.rest(),
        uri_count,
        key,
    })
}

impl<'a> AnchorKey<'a> {
    /// Reads a key: a SEQUENCE of comments, URIs of its certificate, one at least, and the key, and nothing else.
    /// Allocates nothing.
    ///
    /// The error is that of the leftmost part that isn't there; `Content` for a URI that is neither an rsync URI of a
    /// single object nor an https URI, and where there is none; `Trailing` if more follows. An error leaves the cursor
    /// where it was.
    #[tactic(auto, unfolding(crate::specs::AnchorKeys::anchor_key_at))]
    pub fn take_from(cons: &mut Constructed<'a>) -> Result<AnchorKey<'a>, DecodeError>
        ensures reads { parsed found_key result (left cons.new) ≡ anchor_key_at (left cons.old) }
        ensures moves { Moves (left cons.old) (left cons.new) result }
    {
        let mut after = *cons;
        let contents = take_sequence(&mut after)?;
        let key = read_parts(contents)?;
        *cons = after;
        Ok(key)
    }

    /// A cursor over the comments, in order.
    pub fn comments(self) -> CommentCursor<'a>
        ensures { left result.rest ≡ self.entry.comments.now }
    {
        CommentCursor {
            rest: Constructed::from_slice(self.comments),
        }
    }

    /// A cursor over the URIs, in the order in which they are tried.
    pub fn uris(self) -> UriCursor<'a>
        ensures { left result.rest ≡ self.entry.uris.now }
    {
        UriCursor {
            rest: Constructed::from_slice(self.uris),
        }
    }
}

impl<'a> CommentCursor<'a> {
    /// The next comment; None where none remains, or the remaining octets are no comments.
    pub fn next_comment(&mut self) -> Option<Utf8String<'a>>
        ensures given { (result, left self.new.rest) ≡ given_comment_at (left self.old.rest) }
        ensures shorter { IfSome result (λ _. length (left self.new.rest) < length (left self.old.rest)) }
    {
        match take_utf8(&mut self.rest) {
            Ok(comment) => Some(comment),
            Err(_) => None,
        }
    }
}

impl<'a> UriCursor<'a> {
    /// The next URI; None where none remains, or the remaining octets are no URIs.
    pub fn next_uri(&mut self) -> Option<Ia5String<'a>>
        ensures given { (result, left self.new.rest) ≡ given_uri_at (left self.old.rest) }
        ensures shorter { IfSome result (λ _. length (left self.new.rest) < length (left self.old.rest)) }
    {
        match take_uri(&mut self.rest) {
            Ok(uri) => Some(uri),
            Err(_) => None,
        }
    }
}

/// Adds a comment, where there is one.
fn push_comment<'a>(
    comments: &mut Vec<Utf8String<'a>>,
    comment: Option<Utf8String<'a>>,
) -> Result<(), AllocError>
    ensures { OnOk result (comments.new.items ≡ comments.old.items ++ where_there comment.entry) }
{
    match comment {
        Some(comment) => {
            comments.push(comment)?;
            Ok(())
        }
        None => Ok(()),
    }
}

/// Adds a URI, where there is one.
fn push_uri<'a>(uris: &mut Vec<Ia5String<'a>>, uri: Option<Ia5String<'a>>) -> Result<(), AllocError>
    ensures { OnOk result (uris.new.items ≡ uris.old.items ++ where_there uri.entry) }
{
    match uri {
        Some(uri) => {
            uris.push(uri)?;
            Ok(())
        }
        None => Ok(()),
    }
}

impl<'a> AnchorKey<'a> {
    /// All comments, in order.
    ///
    /// Returns `AllocError` if allocation fails.
    pub fn all_comments(self, alloc: Global) -> Result<Vec<Utf8String<'a>>, AllocError>
        ensures { IfOk result (λ v. v.items
            ≡ firsts given_comment_at self.entry.comment_count self.entry.comments.now) }
    {
        let mut comments = Vec::new(alloc);
        let mut cursor = self.comments();
        'comments: for number in 0..self.comment_count {
            push_comment(&mut comments, cursor.next_comment())?;
        }
        Ok(comments)
    }

    /// All URIs, in the order in which they are tried.
    ///
    /// Returns `AllocError` if allocation fails.
    pub fn all_uris(self, alloc: Global) -> Result<Vec<Ia5String<'a>>, AllocError>
        ensures { IfOk result (λ v. v.items ≡ firsts given_uri_at self.entry.uri_count self.entry.uris.now) }
    {
        let mut uris = Vec::new(alloc);
        let mut cursor = self.uris();
        'uris: for number in 0..self.uri_count {
            push_uri(&mut uris, cursor.next_uri())?;
        }
        Ok(uris)
    }
}
