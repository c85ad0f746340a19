//! What is written to the front of the caller's buffer.

ghost use Rattle.std.specs.Prelude.{◌≡◌, ◌≤◌, ◌<◌, ◌^◌, ◌++◌, IfSome, length, take, drop};
ghost use Rattle.rpki_text.specs.UriText.{lowercase};
ghost use Rattle.rpki_text.specs.Cuts.{joined_text};
ghost use Rattle.rpki_c.specs.Stored.{IsStored};
ghost use Rattle.rpki_c.specs.Made.{IsMade, IsMadeIf};

use crate::status::{OUT_OF_MEMORY, TOO_LONG, TOO_SMALL};
use rpki_der::Values;
use rpki_text::uri::Joined;
use std::alloc::Global;

/// Writes the text with what is joined to it to the front of the buffer, and tells how many octets these are.
///
/// The status is 0, or `TOO_SMALL` where the buffer is shorter; then nothing is written to it.
pub(crate) fn store_joined(joined: &Joined<'_>, out: &mut [u8], written: &mut usize) -> u8
    ensures { IsStored (joined_text joined.now) result out.old out.new written.new }
{
    *written = joined.len();
    match joined.write_to(out) {
        Some(_) => 0,
        None => TOO_SMALL,
    }
}

/// Writes the octets, the first of them in lower case, to the front of the buffer, and tells how many octets these are.
///
/// The status is as that of [store_joined].
pub(crate) fn store_lower(octets: &[u8], lower: usize, out: &mut [u8], written: &mut usize) -> u8
    requires { lower ≤ length octets.now }
    ensures { IsStored (lowercase (take lower octets.now) ++ drop lower octets.now) result
        out.old out.new written.new }
{
    let len = octets.len();
    *written = len;
    if out.len() < len {
        return TOO_SMALL;
    }
    out[..len].copy_from_slice(octets);
    out[..lower].make_ascii_lowercase();
    0
}

/// Writes the octets to the front of the buffer, and tells how many they are.
///
/// The status is as that of [store_joined].
pub(crate) fn store(octets: &[u8], out: &mut [u8], written: &mut usize) -> u8
    ensures { IsStored octets.now result out.old out.new written.new }
{
    let len = octets.len();
    *written = len;
    if out.len() < len {
        return TOO_SMALL;
    }
    out[..len].copy_from_slice(octets);
    0
}

/// The octets of the values, for which room is taken at once; `None` where allocation fails.
fn octets_of<V: Values>(alloc: Global, values: &V) -> Option<Vec<u8>>
    requires { V.is_short values.now × (length (V.encoded values.now) < 2 ^ 63) }
    ensures { IfSome result (λ v. v.items ≡ V.encoded values.now) }
{
    let Ok(mut octets) = Vec::with_capacity(alloc, values.encoded_len() as usize) else {
        return None;
    };
    match values.write_encoded(&mut octets) {
        Ok(()) => Some(octets),
        Err(_) => None,
    }
}

/// Writes the values, which fit, to the front of the buffer, and tells how many octets they are.
///
/// The status is as that of [store_joined], or `OUT_OF_MEMORY` where allocation fails; then nothing is written.
pub(crate) fn store_values<V: Values>(
    alloc: Global,
    values: &V,
    out: &mut [u8],
    written: &mut usize,
) -> u8
    requires { V.is_short values.now × (length (V.encoded values.now) < 2 ^ 63) }
    ensures { IsMade (V.encoded values.now) result out.old out.new written.old written.new }
{
    match octets_of(alloc, values) {
        Some(octets) => store(octets.as_slice(), out, written),
        None => OUT_OF_MEMORY,
    }
}

/// Writes the values to the front of the buffer, and tells how many octets they are.
///
/// The status is as that of [store_values], or `TOO_LONG` where they don't fit; then nothing is written.
pub(crate) fn store_if_short<V: Values>(
    alloc: Global,
    values: &V,
    out: &mut [u8],
    written: &mut usize,
) -> u8
    ensures { IsMadeIf (V.is_short values.now × (length (V.encoded values.now) < 2 ^ 63)) (V.encoded values.now) result
        out.old out.new written.old written.new }
{
    if !values.fits() {
        return TOO_LONG;
    }
    store_values(alloc, values, out, written)
}
