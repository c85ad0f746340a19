//! Where octets go wrong.

ghost use Rattle.std.specs.Prelude.{◌≡◌, ◌+◌, ◌<◌, ◌≤◌, ℕ, IfSome, IfNone, IfOk, IfErr, length, take, drop};
ghost use Rattle.rpki_der.specs.Members.{IsValue};
ghost use Rattle.rpki_der.specs.declared.error.DecodeError.{DecodeError};
ghost use Rattle.rpki_der.specs.declared.tag.Header.{Header};
ghost use Rattle.rpki_der.specs.Reading.{Spells};
ghost use Rattle.rpki_der.specs.Values.{SpellsHeader};
ghost use Rattle.rpki_der.specs.Walk.{HasConstructed};
ghost use Rattle.rpki_c.specs.Front.{IsFaultAt, IsFaultTold};

use crate::status::NO_ANSWER;
use rpki_der::{DecodeError, Header, read_header};
use std::alloc::Global;

/// The header at the front, whose contents are all there, and how many octets the header takes; None where there is
/// none.
fn header_within(octets: &[u8]) -> Option<(Header, usize)>
    requires { 0 < length octets.now }
    ensures within { IfSome result (λ x. x.1 + x.0.length ≤ length octets.now) }
    ensures found { IfSome result (λ x. Spells SpellsHeader octets.now x.0 (drop x.1 octets.now)) }
    ensures none { IfNone result ((e : DecodeError) × IsFaultAt octets.now e 0) }
{
    let (found, size) = match read_header(octets) {
        Ok(found) => found,
        Err(_) => return None,
    };
    if octets.len() - size < found.length as usize {
        return None;
    }
    Some((found, size))
}

/// The place of the leftmost fault of octets that no value begins: where the value begins that isn't one. None where a
/// value begins them. The end of the innermost open value is in a variable, and those of the values around it are on a
/// stack, outermost first.
fn fault_of(alloc: Global, octets: &[u8]) -> Result<Option<usize>, DecodeError>
    requires { 0 < length octets.now }
    ensures found { IfOk result (λ place. IfSome place (λ n. (e : DecodeError) × IsFaultAt octets.now e n)) }
    ensures none { IfOk result (λ place. IfNone place ((n : ℕ) × IsValue (take n octets.now))) }
    ensures refused { IfErr result (λ e. (e ≡ DecodeError.OutOfMemory) × HasConstructed octets.now) }
{
    let (first, size) = match header_within(octets) {
        Some(found) => found,
        None => return Ok(Some(0)),
    };
    let mut end = size + first.length as usize;
    if !first.constructed {
        return Ok(None);
    }
    let mut around = Vec::new(alloc);
    let mut place = size;
    'values: loop {
        if place == end {
            end = match around.pop() {
                Some(outer) => outer,
                None => return Ok(None),
            };
            continue;
        }
        let (found, size) = match header_within(&octets[place..end]) {
            Some(found) => found,
            None => return Ok(Some(place)),
        };
        let past = place + size + found.length as usize;
        if !found.constructed {
            place = past;
            continue;
        }
        around.push(end)?;
        end = past;
        place += size;
    }
}

/// Tells where the value at the front of the octets goes wrong: the place where the leftmost value begins that isn't
/// one, itself or nested in it (X.690 8.1.1, 8.1.2.5). There no header begins; or one does, and its contents pass the
/// end of the value around it or of the octets.
///
/// The status is 0, and `at` is the place; it is 0 where there are no octets. It is 10 where a value begins the octets,
/// and 7 where allocation failed, which it can only if a constructed value begins them; then `at` is unchanged.
#[unsafe(no_mangle)]
pub extern "C" fn rpki_fault(alloc: Global, octets: &[u8], at: &mut usize) -> u8
    ensures { IsFaultTold octets.now result at.old at.new }
{
    if octets.is_empty() {
        *at = 0;
        return 0;
    }
    let found = match fault_of(alloc, octets) {
        Ok(found) => found,
        Err(e) => return e.number(),
    };
    match found {
        Some(place) => {
            *at = place;
            0
        }
        None => NO_ANSWER,
    }
}
