//! Paths: what follows the module of a URI, cut into segments at its slashes (RFC 3986 section 3.3).

ghost use Rattle.std.specs.Prelude.{◌≡◌, ◌≤◌, ◌<◌, ◌-◌, ◌&&◌, ◌||◌, ◌==◌, [], ◌∷◌, ℕ, not, true, length, take, drop};
ghost use Rattle.std.specs.Prelude.{Some, None, MatchResult, MatchOption, IfSome, IfNone};
ghost use Rattle.std.specs.Iterator.{YieldsFirstBy, item_count};
ghost use Rattle.std.specs.List.{suffix_len};
ghost use Rattle.std.specs.Option.{option_copied};
ghost use Rattle.rpki_text.specs.Segments.{is_slash, pieces, segments, is_dir, IsParentLen};
ghost use Rattle.rpki_text.specs.RsyncText.{piece_refusal, names_refusal, path_refusal, path_left};
ghost use Rattle.rpki_text.specs.HttpsText.{ends_in_slash, without_slash, path_above};

use super::characters::slash_at;
use super::error::Error;

/// A path, and a text without its scheme and the slashes after it, has fewer octets than this.
pub(super) const LEN_LIMIT: usize = 3072;

/// A segment has fewer octets than this.
const SEGMENT_LIMIT: usize = 256;

/// Tests one piece between slashes.
fn check_piece(piece: &[u8]) -> Result<(), Error>
    ensures { MatchResult result (λ _. piece_refusal piece.now ≡ None)
        (λ e. piece_refusal piece.now ≡ Some e) }
{
    if piece.is_empty() {
        return Err(Error::EmptySegments);
    }
    if matches!(piece, b"." | b"..") {
        return Err(Error::DotSegments);
    }
    if piece.len() >= SEGMENT_LIMIT {
        return Err(Error::LongSegments);
    }
    Ok(())
}

/// The first segment of a path, and the path after it.
#[tactic(auto, using(crate::proofs::SegmentLaws::segment_steps))]
fn first_segment(path: &[u8]) -> Option<(&[u8], &[u8])>
    ensures { MatchOption result (segments path.now ≡ [])
        (λ p. segments path.now ≡ p.0.now ∷ segments p.1.now) }
{
    if path.is_empty() {
        return None;
    }
    let end = slash_at(path);
    if end == path.len() {
        Some((path, &path[end..]))
    } else {
        Some((&path[..end], &path[end + 1..]))
    }
}

/// The segments of a path, from the left.
#[derive(Drop)]
struct Segments<'a> {
    rest: &'a [u8],
}

impl<'a> Iterator for Segments<'a> {
    type Item = &'a [u8];

    ghost next_gives = { YieldsFirstBy (λ x. x.now) (λ s. segments s.rest.now) };

    ghost remaining = { item_count (λ s. segments s.rest.now) };

    fn next(&mut self) -> Option<&'a [u8]> {
        let (segment, rest) = first_segment(self.rest)?;
        self.rest = rest;
        Some(segment)
    }
}

/// Whether an octet that follows a slash is a slash or a dot: only there a segment is empty, `.` or `..`. It has no
/// branch, so that many octets are tested at a time.
fn is_odd(before: u8, b: u8) -> bool
    ensures { result ≡ (is_slash before && (is_slash b || b == 46)) }
{
    (before == b'/') & ((b == b'/') | (b == b'.'))
}

/// Whether each segment begins with another octet than a slash and a dot. It looks at all octets, many at a time.
fn are_ordinary(path: &[u8]) -> bool
    requires { length path.now < 256 }
    ensures { result ≡ true → names_refusal (segments path.now) ≡ None }
{
    if path.is_empty() {
        return true;
    }
    let mut are = !is_odd(b'/', path[0]);
    for i in 1..path.len() {
        are = are & !is_odd(path[i - 1], path[i]);
    }
    are
}

/// The rest of a path after segments with which nothing is wrong: nothing, for most paths.
fn after_ordinary(path: &[u8]) -> &[u8]
    ensures { names_refusal (segments path.now) ≡ names_refusal (segments result.now) }
{
    let mut rest = path;
    while rest.len() >= SEGMENT_LIMIT {
        let (window, _) = rest.split_at(SEGMENT_LIMIT - 1);
        let (front, tail) = rest.split_at(after_last_slash(window));
        if front.is_empty() || !are_ordinary(front) {
            return rest;
        }
        rest = tail;
    }
    if are_ordinary(rest) { &[] } else { rest }
}

/// Tests the length of a path, and its segments from the left.
///
/// Returns the first of these errors that applies: `Error::LongUri` for 3,072 octets or more; then, of the pieces
/// between slashes from the left, the first that is `.` or `..` (`Error::DotSegments`), has 256 octets or more
/// (`Error::LongSegments`), or is empty and not the last (`Error::EmptySegments`).
pub(super) fn check_path(path: &[u8]) -> Result<(), Error>
    ensures { MatchResult result (λ _. path_refusal path.now ≡ None)
        (λ e. path_refusal path.now ≡ Some e) }
{
    if path.len() >= LEN_LIMIT {
        return Err(Error::LongUri);
    }
    for piece in (Segments {
        rest: after_ordinary(path),
    }) {
        check_piece(piece)?;
    }
    Ok(())
}

/// The rest of a path that is the base or lies below it: what comes after the base's octets and a slash. A slash at the
/// end of the base doesn't count, and every path lies below an empty one. The base is the path of a URI.
pub(super) fn path_below<'a>(path: &'a [u8], base: &[u8]) -> Option<&'a [u8]>
    ensures below { names_refusal (segments base.now) ≡ None
        → option_copied result ≡ path_left path.now (segments base.now) }
    ensures tail { IfSome result (λ p. (n : ℕ) × (p.now ≡ drop n path.now)) }
{
    if base.is_empty() {
        return Some(path);
    }
    let rest = path.strip_prefix(without_last_slash(base))?;
    let Some((first, below)) = rest.split_first() else {
        return Some(rest);
    };
    if *first == b'/' { Some(below) } else { None }
}

/// Whether the path is empty or ends with a slash.
pub(super) fn is_closed(path: &[u8]) -> bool
    ensures { result ≡ is_dir path.now }
{
    match path.last() {
        None => true,
        Some(last) => *last == b'/',
    }
}

/// Whether the path ends with a slash.
pub(super) fn ends_in_slash(path: &[u8]) -> bool
    ensures { result ≡ ends_in_slash path.now }
{
    match path.last() {
        None => false,
        Some(last) => *last == b'/',
    }
}

/// How much of the text is up to its last slash, with it.
fn after_last_slash(text: &[u8]) -> usize
    ensures within { result ≤ length text.now }
    ensures front { is_dir (take result text.now) ≡ true }
    ensures back { pieces (drop result text.now) ≡ drop result text.now ∷ [] }
    ensures value { result ≡ length text.now - suffix_len (λ b. not (is_slash b)) text.now }
{
    let mut end = text.len();
    while end > 0 && text[end - 1] != b'/' {
        end -= 1;
    }
    end
}

/// How much of the path of an rsync URI is before its last segment; `None` if the path is empty.
pub(super) fn parent_len(path: &[u8]) -> Option<usize>
    ensures none { IfNone result (path.now ≡ []) }
    ensures some { IfSome result (λ n. IsParentLen path.now n) }
{
    let last = path.last()?;
    if *last == b'/' {
        let (front, _) = path.split_at(path.len() - 1);
        Some(after_last_slash(front))
    } else {
        Some(after_last_slash(path))
    }
}

/// A path without one last slash.
fn without_last_slash(path: &[u8]) -> &[u8]
    ensures { result.now ≡ without_slash path.now }
{
    let Some((last, front)) = path.split_last() else {
        return path;
    };
    if *last == b'/' { front } else { path }
}

/// How much of the path of an https URI is above it, if anything is: one last slash dropped, and then everything
/// after the last remaining slash.
pub(super) fn len_above(path: &[u8]) -> Option<usize>
    ensures none { IfNone result (path_above path.now ≡ None) }
    ensures some { IfSome result (λ n. path_above path.now ≡ Some (take n path.now)) }
    ensures within { IfSome result (λ n. n ≤ length path.now) }
{
    let front = without_last_slash(path);
    if front.is_empty() {
        return None;
    }
    Some(after_last_slash(front))
}
