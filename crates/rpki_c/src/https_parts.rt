//! Https URIs that were read before: a text, and where its parts are. No text is read again.

ghost use Rattle.std.specs.Prelude.{◌≡◌, ◌↔◌, IsTrue, length, IfSome, IfNone};
ghost use Rattle.rpki_text.specs.HttpsText.{https_uri_of, same_https, https_parent_of, https_joined};
ghost use Rattle.rpki_text.specs.HttpsText.{https_join_refusal, https_into_dir};
ghost use Rattle.rpki_text.specs.Cuts.{https_cut_text, IsOwnHttps};
ghost use Rattle.rpki_c.specs.UriPlaces.{IsToldByParts, IsStoredByParts, IsMadeByParts, IsJoinedByParts};
ghost use Rattle.rpki_c.specs.UriPlaces.{IsParentByParts, AreHttpsParts, AreHttpsLaidOut, https_places};
ghost use Rattle.rpki_c.specs.UriPlaces.{https_canonical_of};

use crate::https::HttpsParts;
use crate::rsync::uri_fault;
use crate::status::{NO_ANSWER, OTHER_PARTS};
use crate::stored::{store_joined, store_lower};
use rpki_text::uri::HttpsCut;

/// The length of the scheme and the slashes after it.
const SCHEME_LEN: usize = 8;

/// Whether the places are laid out as those of a text of this length.
fn are_laid_out(len: usize, parts: &HttpsParts) -> bool
    ensures { IsTrue result ↔ AreHttpsLaidOut len parts.now }
{
    let path = parts.path.start;
    if parts.authority.start != SCHEME_LEN || path < SCHEME_LEN || len < path {
        return false;
    }
    parts.authority.length == path - SCHEME_LEN && parts.path.length == len - path
}

/// The text with these places; `None` where they are not laid out as those of a text of this length.
fn cut<'a>(text: &'a [u8], parts: &HttpsParts) -> Option<HttpsCut<'a>>
    ensures text { IfSome result (λ u. https_cut_text u ≡ text.now) }
    ensures laid_out { IfSome result (λ _. AreHttpsLaidOut (length text.now) parts.now) }
    ensures own { IfSome result (λ u. AreHttpsParts text.now parts.now → IsOwnHttps u) }
    ensures none { IfNone result (AreHttpsLaidOut (length text.now) parts.now → ⊥) }
{
    if !are_laid_out(text.len(), parts) {
        return None;
    }
    match HttpsCut::at(text, parts.path.start) {
        Some(cut) => Some(cut),
        None => None,
    }
}

/// Tells whether both are the same URI: the same parts, the authority in any case.
///
/// Of both the parts are those that `rpki_https_parse` found. The status is 0; `OTHER_PARTS` where the places of one
/// are not laid out as those of its text are, and then nothing is written.
#[unsafe(no_mangle)]
pub extern "C" fn rpki_https_parts_equal(
    uri: &[u8],
    parts: &HttpsParts,
    other: &[u8],
    other_parts: &HttpsParts,
    out: &mut bool,
) -> u8
    ensures { IsToldByParts https_places uri.now parts.now other.now other_parts.now result out.old out.new
        (same_https (https_uri_of uri.now) (https_uri_of other.now)) }
{
    let Some(u) = cut(uri, parts) else {
        return OTHER_PARTS;
    };
    let Some(v) = cut(other, other_parts) else {
        return OTHER_PARTS;
    };
    *out = u.is_equal_to(&v);
    0
}

/// Writes the text in canonical form, its scheme and its authority in lower case, to the front of the buffer. Two URIs
/// are the same exactly where these texts are.
///
/// The status is 0; `TOO_SMALL` where the buffer is shorter, and nothing is written to it; in both cases `written` is
/// the length of the text. `OTHER_PARTS` where the places are not laid out as those of the text are; then nothing is
/// written.
#[unsafe(no_mangle)]
pub extern "C" fn rpki_https_parts_canonical(
    text: &[u8],
    parts: &HttpsParts,
    out: &mut [u8],
    written: &mut usize,
) -> u8
    ensures { IsStoredByParts https_places text.now parts.now (https_canonical_of text.now)
        result out.old out.new written.old written.new }
{
    if !are_laid_out(text.len(), parts) {
        return OTHER_PARTS;
    }
    store_lower(text, parts.path.start, out, written)
}

/// Says how many of the first octets of the text are the text of the URI above: one last slash of the path dropped, and
/// then everything after the last remaining slash. Its parts are the same, and the path ends there.
///
/// The status is 0; `NO_ANSWER` where nothing remains; `OTHER_PARTS` where the places are not laid out as those of the
/// text are. Unless it is 0, nothing is written.
#[unsafe(no_mangle)]
pub extern "C" fn rpki_https_parts_parent(text: &[u8], parts: &HttpsParts, out: &mut usize) -> u8
    ensures { IsParentByParts https_places text.now parts.now (https_parent_of text.now) result out.old out.new }
{
    let Some(uri) = cut(text, parts) else {
        return OTHER_PARTS;
    };
    let Some(len) = uri.parent_len() else {
        return NO_ANSWER;
    };
    *out = len;
    0
}

/// Writes the text of the base with the path joined to it to the front of the buffer. Its parts are the same, and the
/// path ends with the text.
///
/// The status is 0; `TOO_SMALL` where the buffer is shorter, and nothing is written to it; in both cases `written` is
/// the length of the text. Else it is the number of the error of the path, or `OTHER_PARTS` where the places are not
/// laid out as those of the base are; then nothing is written.
#[unsafe(no_mangle)]
pub extern "C" fn rpki_https_parts_join(
    base: &[u8],
    parts: &HttpsParts,
    path: &[u8],
    out: &mut [u8],
    written: &mut usize,
) -> u8
    ensures { IsJoinedByParts https_places base.now parts.now (https_join_refusal path.now)
        (https_joined base.now path.now) result out.old out.new written.old written.new }
{
    let Some(uri) = cut(base, parts) else {
        return OTHER_PARTS;
    };
    match uri.joined(path) {
        Ok(joined) => store_joined(&joined, out, written),
        Err(e) => uri_fault(e),
    }
}

/// Writes the text with a slash last, unless its path is empty or has one, to the front of the buffer. Its parts are
/// the same, and the path ends with the text.
///
/// The statuses are those of [rpki_https_parts_canonical].
#[unsafe(no_mangle)]
pub extern "C" fn rpki_https_parts_into_dir(
    text: &[u8],
    parts: &HttpsParts,
    out: &mut [u8],
    written: &mut usize,
) -> u8
    ensures { IsMadeByParts https_places text.now parts.now (https_into_dir text.now)
        result out.old out.new written.old written.new }
{
    let Some(uri) = cut(text, parts) else {
        return OTHER_PARTS;
    };
    store_joined(&uri.as_dir(), out, written)
}
