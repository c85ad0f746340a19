//! Rsync URIs that were read before: a text, and where its parts are. No text is read again.

ghost use Rattle.std.specs.Prelude.{◌≡◌, ◌↔◌, IsTrue, length, IfSome, IfNone};
ghost use Rattle.rpki_text.specs.RsyncText.{uri_of, same_uri, is_parent, is_identical, parent_of, joined, join_refusal};
ghost use Rattle.rpki_text.specs.Segments.{with_slash};
ghost use Rattle.rpki_text.specs.Cuts.{cut_text, IsOwn};
ghost use Rattle.rpki_c.specs.UriPlaces.{IsToldByParts, IsStoredByParts, IsMadeByParts, IsJoinedByParts};
ghost use Rattle.rpki_c.specs.UriPlaces.{IsParentByParts, AreParts, AreLaidOut, rsync_places, IsRelativeByParts};
ghost use Rattle.rpki_c.specs.UriPlaces.{canonical_of};

use crate::place::Place;
use crate::rsync::{RsyncParts, uri_fault};
use crate::status::{NO_ANSWER, OTHER_PARTS};
use crate::stored::{store_joined, store_lower};
use rpki_text::uri::RsyncCut;

/// The length of the scheme and the slashes after it.
const SCHEME_LEN: usize = 8;

/// Whether the places are laid out as those of a text of this length.
fn are_laid_out(len: usize, parts: &RsyncParts) -> bool
    ensures { IsTrue result ↔ AreLaidOut len parts.now }
{
    let module = parts.module_name.start;
    let path = parts.path.start;
    if parts.authority.start != SCHEME_LEN || module <= SCHEME_LEN || path <= module || len < path {
        return false;
    }
    parts.authority.length == module - SCHEME_LEN - 1
        && parts.module_name.length == path - module - 1
        && parts.path.length == len - path
}

/// The text with these places; `None` where they are not laid out as those of a text of this length.
fn cut<'a>(text: &'a [u8], parts: &RsyncParts) -> Option<RsyncCut<'a>>
    ensures text { IfSome result (λ u. cut_text u ≡ text.now) }
    ensures laid_out { IfSome result (λ _. AreLaidOut (length text.now) parts.now) }
    ensures own { IfSome result (λ u. AreParts text.now parts.now → IsOwn u) }
    ensures none { IfNone result (AreLaidOut (length text.now) parts.now → ⊥) }
{
    if !are_laid_out(text.len(), parts) {
        return None;
    }
    match RsyncCut::at(text, parts.module_name.start, parts.path.start) {
        Some(cut) => Some(cut),
        None => None,
    }
}

/// Says where in the text of `uri` the path is that leads from `base` to it.
///
/// Of both the parts are those that `rpki_rsync_parse` found. The status is 0; `NO_ANSWER` where no path leads there;
/// `OTHER_PARTS` where the places of one are not laid out as those of its text are. Unless it is 0, nothing is written.
#[unsafe(no_mangle)]
pub extern "C" fn rpki_rsync_parts_relative_to(
    uri: &[u8],
    parts: &RsyncParts,
    base: &[u8],
    base_parts: &RsyncParts,
    out: &mut Place,
) -> u8
    ensures { IsRelativeByParts uri.now parts.now base.now base_parts.now result out.old out.new }
{
    let Some(target) = cut(uri, parts) else {
        return OTHER_PARTS;
    };
    let Some(origin) = cut(base, base_parts) else {
        return OTHER_PARTS;
    };
    let Some(range) = target.relative_range(&origin) else {
        return NO_ANSWER;
    };
    *out = Place::of_range(range);
    0
}

/// Tells whether both are the same URI: the same parts, the authority in any case.
///
/// The status is 0; `OTHER_PARTS` as in [rpki_rsync_parts_relative_to], and then nothing is written.
#[unsafe(no_mangle)]
pub extern "C" fn rpki_rsync_parts_equal(
    uri: &[u8],
    parts: &RsyncParts,
    other: &[u8],
    other_parts: &RsyncParts,
    out: &mut bool,
) -> u8
    ensures { IsToldByParts rsync_places uri.now parts.now other.now other_parts.now result out.old out.new
        (same_uri (uri_of uri.now) (uri_of other.now)) }
{
    let Some(u) = cut(uri, parts) else {
        return OTHER_PARTS;
    };
    let Some(v) = cut(other, other_parts) else {
        return OTHER_PARTS;
    };
    *out = u.is_equal_to(&v);
    0
}

/// Tells whether `other` lies below `uri`: the same authority, ignoring case, and module, and more segments that begin
/// with those of `uri`.
///
/// The status is 0; `OTHER_PARTS` as in [rpki_rsync_parts_relative_to], and then nothing is written.
#[unsafe(no_mangle)]
pub extern "C" fn rpki_rsync_parts_is_parent_of(
    uri: &[u8],
    parts: &RsyncParts,
    other: &[u8],
    other_parts: &RsyncParts,
    out: &mut bool,
) -> u8
    ensures { IsToldByParts rsync_places uri.now parts.now other.now other_parts.now result out.old out.new
        (is_parent (uri_of uri.now) (uri_of other.now)) }
{
    let Some(u) = cut(uri, parts) else {
        return OTHER_PARTS;
    };
    let Some(v) = cut(other, other_parts) else {
        return OTHER_PARTS;
    };
    *out = u.is_parent_of(&v);
    0
}

/// Tells whether both have the same authority, ignoring case, module and segments, with or without a slash last.
///
/// The status is 0; `OTHER_PARTS` as in [rpki_rsync_parts_relative_to], and then nothing is written.
#[unsafe(no_mangle)]
pub extern "C" fn rpki_rsync_parts_is_identical_to(
    uri: &[u8],
    parts: &RsyncParts,
    other: &[u8],
    other_parts: &RsyncParts,
    out: &mut bool,
) -> u8
    ensures { IsToldByParts rsync_places uri.now parts.now other.now other_parts.now result out.old out.new
        (is_identical (uri_of uri.now) (uri_of other.now)) }
{
    let Some(u) = cut(uri, parts) else {
        return OTHER_PARTS;
    };
    let Some(v) = cut(other, other_parts) else {
        return OTHER_PARTS;
    };
    *out = u.is_identical_to(&v);
    0
}

/// Writes the text in canonical form, its scheme and its authority in lower case, to the front of the buffer. Two URIs
/// are the same exactly where these texts are.
///
/// The status is 0; `TOO_SMALL` where the buffer is shorter, and nothing is written to it; in both cases `written` is
/// the length of the text. `OTHER_PARTS` where the places are not laid out as those of the text are; then nothing is
/// written.
#[unsafe(no_mangle)]
pub extern "C" fn rpki_rsync_parts_canonical(
    text: &[u8],
    parts: &RsyncParts,
    out: &mut [u8],
    written: &mut usize,
) -> u8
    ensures { IsStoredByParts rsync_places text.now parts.now (canonical_of text.now)
        result out.old out.new written.old written.new }
{
    if !are_laid_out(text.len(), parts) {
        return OTHER_PARTS;
    }
    store_lower(text, parts.module_name.start, out, written)
}

/// Says how many of the first octets of the text are the text of the URI's parent. Its parts are the same, and the path
/// ends there.
///
/// The status is 0; `NO_ANSWER` where there is no segment; `OTHER_PARTS` where the places are not laid out as those of
/// the text are. Unless it is 0, nothing is written.
#[unsafe(no_mangle)]
pub extern "C" fn rpki_rsync_parts_parent(text: &[u8], parts: &RsyncParts, out: &mut usize) -> u8
    ensures { IsParentByParts rsync_places text.now parts.now (parent_of text.now) result out.old out.new }
{
    let Some(uri) = cut(text, parts) else {
        return OTHER_PARTS;
    };
    let Some(len) = uri.parent_len() else {
        return NO_ANSWER;
    };
    *out = len;
    0
}

/// Writes the text of the base with the path joined to it to the front of the buffer. Its parts are the same, and the
/// path ends with the text.
///
/// The status is 0; `TOO_SMALL` where the buffer is shorter, and nothing is written to it; in both cases `written` is
/// the length of the text. Else it is the number of the first error of the path, or `OTHER_PARTS` where the places are
/// not laid out as those of the base are; then nothing is written.
#[unsafe(no_mangle)]
pub extern "C" fn rpki_rsync_parts_join(
    base: &[u8],
    parts: &RsyncParts,
    path: &[u8],
    out: &mut [u8],
    written: &mut usize,
) -> u8
    ensures { IsJoinedByParts rsync_places base.now parts.now (join_refusal base.now path.now)
        (joined base.now path.now) result out.old out.new written.old written.new }
{
    let Some(uri) = cut(base, parts) else {
        return OTHER_PARTS;
    };
    match uri.joined(path) {
        Ok(joined) => store_joined(&joined, out, written),
        Err(e) => uri_fault(e),
    }
}

/// Writes the text with a slash last, unless its path is empty or has one, to the front of the buffer. Its parts are
/// the same, and the path ends with the text, which may be too long to be read again.
///
/// The statuses are those of [rpki_rsync_parts_canonical].
#[unsafe(no_mangle)]
pub extern "C" fn rpki_rsync_parts_into_dir(
    text: &[u8],
    parts: &RsyncParts,
    out: &mut [u8],
    written: &mut usize,
) -> u8
    ensures { IsMadeByParts rsync_places text.now parts.now (with_slash text.now)
        result out.old out.new written.old written.new }
{
    let Some(uri) = cut(text, parts) else {
        return OTHER_PARTS;
    };
    store_joined(&uri.as_dir(), out, written)
}
