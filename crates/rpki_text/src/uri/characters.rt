//! The characters of URIs, and texts that are compared without regard to case.

ghost use Rattle.std.specs.Prelude.{◌≡◌, ◌↔◌, ◌≤◌, true, false, length, take, bytes_eq, IsTrue, IsOk, IfOk};
ghost use Rattle.std.specs.Prelude.{MatchResult, fold, flat_map};
ghost use Rattle.std.specs.Char.{is_ascii_uppercase};
ghost use Rattle.std.specs.List.{list_all, list_any, position_or_len};
ghost use Rattle.std.specs.Hash as fed;
ghost use Rattle.std.specs.Cow.{cow_str_bytes};
ghost use Rattle.rpki_text.specs.Segments.{is_slash};
ghost use Rattle.rpki_text.specs.UriText.{is_uri_byte, lowercase, same_text};

use super::error::Error;
use std::alloc::{AllocError, Global};
use std::borrow::CowStr;
use std::hash::Hasher;
use std::str;

/// Whether this is a character that a URI may have. It has no branch, so that many octets are tested at a time.
#[tactic(auto, unfolding(crate::specs::UriText::is_uri_byte))]
fn is_uri_byte(b: u8) -> bool
    ensures { result ≡ is_uri_byte b }
{
    let is_mark = (b == b'!') | (b == b'=') | (b == b'_') | (b == b'~');
    let is_upper = (b >= b'A') & (b <= b'Z');
    let is_lower = (b >= b'a') & (b <= b'z');
    is_mark | ((b >= b'$') & (b <= b';')) | is_upper | is_lower
}

/// Whether each octet is a character that a URI may have. It looks at all of them, many at a time.
fn are_uri_bytes(text: &[u8]) -> bool
    ensures { result ≡ list_all is_uri_byte text.now }
{
    let mut are = true;
    for b in text {
        are = are & is_uri_byte(*b);
    }
    are
}

/// Tests that each octet is a character that a URI may have: `!`, `$` to `;`, `=`, `A` to `Z`, `_`, `a` to `z` and `~`.
/// These are the characters of RFC 3986 section 2 without `#`, `?`, `@`, `[` and `]`, so there is no query, no fragment
/// and no user information.
///
/// Returns `Error::InvalidCharacters` if there is another character. Allocates nothing.
pub fn check_uri_ascii(text: &[u8]) -> Result<(), Error>
    ensures { MatchResult result (λ _. list_all is_uri_byte text.now ≡ true)
        (λ e. (e ≡ Error.InvalidCharacters) × (list_all is_uri_byte text.now ≡ false)) }
{
    if are_uri_bytes(text) {
        Ok(())
    } else {
        Err(Error::InvalidCharacters)
    }
}

/// Whether `s` begins with `expected`, without regard to the case of ASCII letters: false if `s` is shorter.
pub fn starts_with_ignore_case(s: &[u8], expected: &[u8]) -> bool
    ensures { result ≡ bytes_eq (lowercase (take (length expected.now) s.now)) (lowercase expected.now) }
{
    s.len() >= expected.len() && eq_ignore_case(&s[..expected.len()], expected)
}

/// Whether both are the same, without regard to the case of ASCII letters. Those that are spelled alike take less time.
pub(super) fn eq_ignore_case(s: &[u8], other: &[u8]) -> bool
    ensures { result ≡ bytes_eq (lowercase s.now) (lowercase other.now) }
{
    s == other || (s.len() == other.len() && are_alike(s, other))
}

/// Whether both, which have one length, are the same without regard to the case of ASCII letters. It looks at all of
/// the octets, many at a time.
fn are_alike(s: &[u8], other: &[u8]) -> bool
    requires { length s.now ≡ length other.now }
    ensures { result ≡ bytes_eq (lowercase s.now) (lowercase other.now) }
{
    let mut are = true;
    for i in 0..s.len() {
        are = are & (s[i].to_ascii_lowercase() == other[i].to_ascii_lowercase());
    }
    are
}

/// Where the first slash is, or the length.
pub(super) fn slash_at(s: &[u8]) -> usize
    ensures value { result ≡ position_or_len is_slash s.now }
    ensures within { result ≤ length s.now }
{
    s.iter().take_while(|b| **b != b'/').count()
}

/// The octets of a URI as text.
pub(super) fn uri_text(bytes: &[u8]) -> &str
    requires { list_all is_uri_byte bytes.now ≡ true }
    ensures { result.now ≡ bytes.now }
{
    unsafe { str::from_utf8_unchecked(bytes) }
}

/// Whether the text has a capital letter.
fn has_capital(text: &[u8]) -> bool
    ensures { result ≡ list_any is_ascii_uppercase text.now }
{
    text.iter().any(|b| b.is_ascii_uppercase())
}

/// Whether the text has no capital letter: exactly then the text in lower case is itself.
pub(super) fn has_no_capital(text: &[u8]) -> bool
    ensures { IsTrue result ↔ (lowercase text.now ≡ text.now) }
{
    !has_capital(text)
}

/// The text in lower case: borrowed, with nothing allocated, if the text is in lower case already.
///
/// Returns `AllocError` if allocation fails.
pub(super) fn in_lower_case(alloc: Global, text: &str) -> Result<CowStr<'_, Global>, AllocError>
    ensures ok { IfOk result (λ lower. cow_str_bytes lower ≡ lowercase text.now) }
    ensures free { lowercase text.now ≡ text.now → IsOk result }
{
    if has_no_capital(text.as_bytes()) {
        return Ok(CowStr::Borrowed(text));
    }
    let mut lower = String::from_str(alloc, text)?;
    lower.make_ascii_lowercase();
    Ok(CowStr::Owned(lower))
}

/// Whether the octets are the same but for the case of the letters among the first `len`.
pub(super) fn same_but_case(text: &[u8], len: usize, other: &[u8]) -> bool
    requires { len ≤ length text.now }
    ensures { result ≡ same_text len text.now other.now }
{
    if text.len() != other.len() {
        return false;
    }
    let (front, rest) = text.split_at(len);
    let (other_front, other_rest) = other.split_at(len);
    front.eq_ignore_ascii_case(other_front) && rest == other_rest
}

/// Hashes the octets one by one, in lower case.
pub(super) fn hash_in_lower_case<H: Hasher>(bytes: &[u8], state: &mut H)
    ensures { state.new ≡ fold H.write state.old (flat_map fed.u8 (lowercase bytes.now)) }
{
    for b in bytes {
        state.write_u8(b.to_ascii_lowercase());
    }
}
