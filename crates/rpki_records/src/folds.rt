//! Folded lines of a vCard (RFC 6350 3.2).

ghost use Rattle.std.specs.Prelude.{◌≡◌, ◌≤◌, ◌<◌, IfOk, IfSome, length};
ghost use Rattle.std.specs.Option.{option_map};
ghost use Rattle.rpki_records.specs.Folds.{after_folds, begins_fold, is_blank, next_octet, unfolded};

use std::alloc::{AllocError, Global};

/// Whether the octet is a space or a horizontal tab.
fn is_blank(octet: u8) -> bool
    ensures { result ≡ is_blank octet }
{
    octet == b' ' || octet == b'\t'
}

/// Whether a line break and a space or a horizontal tab are in front.
pub(crate) fn begins_fold(octets: &[u8]) -> bool
    ensures { result ≡ begins_fold octets.now }
{
    match octets {
        [first, second, third, ..] => { *first == b'\r' && (*second == b'\n' && is_blank(*third)) }
        _ => false,
    }
}

/// The octets without the folds in front.
pub(crate) fn after_folds(octets: &[u8]) -> &[u8]
    ensures rest { result.now ≡ after_folds octets.now }
    ensures less { length result.now ≤ length octets.now }
{
    let mut rest = octets;
    'octets: while let [_, after @ ..] = rest {
        if !begins_fold(rest) {
            return rest;
        }
        rest = &after[2..];
    }
    rest
}

/// The first octet that is of no fold, and what follows it.
pub(crate) fn next_octet(octets: &[u8]) -> Option<(u8, &[u8])>
    ensures next { option_map (λ p. (p.0, p.1.now)) result ≡ next_octet octets.now }
    ensures shorter { IfSome result (λ p. length p.1.now < length octets.now) }
{
    match after_folds(octets) {
        [octet, after @ ..] => Some((*octet, after)),
        [] => None,
    }
}

/// Octets of a vCard with each line in one piece: without each line break that a space or a horizontal tab follows, and
/// without that (RFC 6350 3.2).
///
/// Returns `AllocError` if allocation fails.
pub fn unfold(alloc: Global, octets: &[u8]) -> Result<Vec<u8>, AllocError>
    ensures { IfOk result (λ text. text.items ≡ unfolded octets.now) }
{
    let mut text = Vec::new(alloc);
    let mut rest = octets;
    'octets: while let [octet, after @ ..] = rest {
        if begins_fold(rest) {
            rest = &after[2..];
        } else {
            text.push(*octet)?;
            rest = after;
        }
    }
    Ok(text)
}
