//! Trust anchor keys.

ghost use Rattle.std.specs.Prelude.{◌≡◌};
ghost use Rattle.rpki_der.specs.Prelude.{optional_of};
ghost use Rattle.rpki_records.specs.AnchorKeys.{found_key, found_tak, tak};
ghost use Rattle.rpki_c.specs.AnchorKeys.{key_where, no_key, passed, passed_key, tak_part_number, IsTakRead};
ghost use Rattle.rpki_c.specs.Whole.{told_error};

use crate::span::Span;
use rpki_records::{AnchorKey, TakPart, TakView};

/// A key of a trust anchor, with what a locator says of it.
#[repr(C)]
#[derive(Clone, Copy)]
pub struct AnchorKeyParts<'a> {
    /// The comments, in sequence.
    pub comments: Span<'a>,
    /// How many comments there are.
    pub comment_count: usize,
    /// The URIs of the certificate, in sequence.
    pub uris: Span<'a>,
    /// How many URIs there are.
    pub uri_count: usize,
    /// The key: a SubjectPublicKeyInfo.
    pub key: Span<'a>,
}

/// The parts of a content of trust anchor keys.
#[repr(C)]
#[derive(Clone, Copy)]
pub struct TakParts<'a> {
    /// The current key.
    pub current: AnchorKeyParts<'a>,
    /// The key that was current before, where it is there.
    pub predecessor: AnchorKeyParts<'a>,
    /// The key that will be current, where it is there.
    pub successor: AnchorKeyParts<'a>,
    /// Whether there is a predecessor.
    pub has_predecessor: bool,
    /// Whether there is a successor.
    pub has_successor: bool,
}

/// How a malformed part is passed.
fn tak_part_number(part: TakPart) -> u8
    ensures { result ≡ tak_part_number part }
{
    match part {
        TakPart::Tak => 192,
        TakPart::Version => 193,
        TakPart::Current => 194,
        TakPart::Predecessor => 195,
        TakPart::Successor => 196,
    }
}

/// The key, as it is passed.
fn key_of<'a>(found: AnchorKey<'a>) -> AnchorKeyParts<'a>
    ensures { passed_key result ≡ found_key found.entry }
{
    AnchorKeyParts {
        comments: Span::of(found.comments),
        comment_count: found.comment_count,
        uris: Span::of(found.uris),
        uri_count: found.uri_count,
        key: Span::of(found.key),
    }
}

/// No key: no octets.
fn no_key() -> AnchorKeyParts<'static>
    ensures { passed_key result ≡ no_key }
{
    AnchorKeyParts {
        comments: Span::of(&[]),
        comment_count: 0,
        uris: Span::of(&[]),
        uri_count: 0,
        key: Span::of(&[]),
    }
}

/// The key, where it is there; else none.
fn key_where<'a>(found: Option<AnchorKey<'a>>) -> AnchorKeyParts<'a>
    ensures { passed_key result ≡ key_where (optional_of found_key found.entry) }
{
    match found {
        Some(key) => key_of(key),
        None => no_key(),
    }
}

/// The parts of the content.
fn tak_of<'a>(found: TakView<'a>) -> TakParts<'a>
    ensures { passed result ≡ found_tak found.entry }
{
    TakParts {
        current: key_of(found.current),
        predecessor: key_where(found.predecessor),
        successor: key_where(found.successor),
        has_predecessor: found.predecessor.is_some(),
        has_successor: found.successor.is_some(),
    }
}

/// Reads trust anchor keys (RFC 9691 3.2), and says what their parts are.
///
/// The status is 0. Else it is the number of the leftmost malformed part, and `out` is unchanged. Nothing is
/// allocated.
#[unsafe(no_mangle)]
pub extern "C" fn rpki_tak<'a>(octets: &'a [u8], out: &mut TakParts<'a>) -> u8
    ensures { IsTakRead octets.now result out.old out.new }
{
    match TakView::read(octets) {
        Ok(found) => {
            *out = tak_of(found);
            0
        }
        Err(wrong) => tak_part_number(wrong.part),
    }
}

/// Reads trust anchor keys, as [rpki_tak] does, and says what is wrong with the malformed part.
///
/// The status is that of [rpki_tak]. Where it is a part, 192 to 196, `error` is the number of the error, that of
/// `DecodeError`, as a reader of that part returns it; where it is 0, `error` is unchanged. Nothing is allocated.
#[unsafe(no_mangle)]
pub extern "C" fn rpki_tak_error(octets: &[u8], error: &mut u8) -> u8
    ensures { (result, error.new) ≡ told_error tak_part_number error.old (tak octets.now) }
{
    match TakView::read(octets) {
        Ok(_) => 0,
        Err(wrong) => {
            *error = wrong.error.number();
            tak_part_number(wrong.part)
        }
    }
}
