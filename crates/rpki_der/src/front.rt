//! What is at the front of a slice, read without a cursor and without a copy.

ghost use Rattle.std.specs.Prelude.{◌≡◌, ◌+◌, ◌-◌, ◌*◌, ◌^◌, ◌<◌, ◌≤◌, ◌⊎◌, List, [], length, take, drop, Err, IfOk};
ghost use Rattle.std.specs.Prelude.{IfErr, OnErr};
ghost use Rattle.rpki_der.specs.declared.error.DecodeError.{DecodeError};
ghost use Rattle.rpki_der.specs.Reading.{Accepts, Refuses, Refusal, OrMemoryWhere};
ghost use Rattle.rpki_der.specs.Values.{SpellsHeader, IsHeaderFault};
ghost use Rattle.rpki_der.specs.Members.{SpellsValue};
ghost use Rattle.rpki_der.specs.NestedFault.{IsCaptureFault};
ghost use Rattle.rpki_der.specs.Walk.{HasConstructed, HasEither, CountsHeaders};
ghost use Rattle.rpki_der.specs.Index.{Entry, IsIndex};

use crate::error::DecodeError;
use crate::header::{HeaderAndRest, header};
use crate::index::HeaderEntry;
use crate::tag::{Header, Steps};
use crate::walk::walk_value;
use std::alloc::Global;

/// The header at the front (X.690 8.1.2, 8.1.3), and how many octets it takes. Allocates nothing.
///
/// The errors are those of [Constructed::take_header](crate::Constructed::take_header).
#[inline(always)]
pub fn read_header(octets: &[u8]) -> Result<(Header, usize), DecodeError>
    ensures within { IfOk result (λ x. x.1 ≤ length octets.now) }
    ensures ok { IfOk result (λ x. Accepts SpellsHeader octets.now x.0 (drop x.1 octets.now)) }
    ensures err { IfErr result (λ e. Refuses SpellsHeader octets.now × IsHeaderFault octets.now e) }
{
    let HeaderAndRest { header, rest } = header(octets)?;
    Ok((header, octets.len() - rest.len()))
}

/// How many octets the value at the front takes, with everything nested in it (X.690 8.1.1, 8.1.2.5).
///
/// Each header that is read, at any depth, raises `steps` by one, the last one of a rejected value too. Requires that
/// their count and the octets are together below 2^64.
///
/// The errors are those of [Constructed::walk](crate::Constructed::walk), and `Truncated` if there are no octets.
/// Returns `OutOfMemory` only if a constructed value begins the octets.
#[inline(never)]
pub fn walk_octets(alloc: Global, octets: &[u8], steps: &mut Steps) -> Result<usize, DecodeError>
    requires room { steps.old + length octets.now < 2 ^ 64 }
    ensures within { IfOk result (λ n. n ≤ length octets.now) }
    ensures accepted { IfOk result (λ n. Accepts SpellsValue octets.now (take n octets.now) (drop n octets.now)) }
    ensures refused { IfErr result (λ e. Refusal SpellsValue (OrMemoryWhere HasConstructed IsCaptureFault)
        octets.now octets.now e) }
    ensures fault { (e : DecodeError) → IsCaptureFault octets.now e
        → (result ≡ Err DecodeError.OutOfMemory) ⊎ (result ≡ Err e) }
    ensures raised { steps.old ≤ steps.new }
    ensures nothing { octets.now ≡ [] → steps.new ≡ steps.old }
    ensures counted { IfOk result (λ n. CountsHeaders octets.now (drop n octets.now) (steps.new - steps.old)) }
    ensures bound { OnErr result (2 * (steps.new - steps.old) ≤ length octets.now + 2) }
{
    if octets.is_empty() {
        return Err(DecodeError::Truncated);
    }
    // a variable of its own is kept in a register
    let mut own = steps.copied();
    let size = walk_value(alloc, octets, 0, false, &mut Vec::new(alloc), &mut own);
    *steps = own;
    size
}

/// How many octets the value at the front takes, and its index: an entry for each header, at every depth, in order of
/// place, as [Captured::headers](crate::Captured::headers) has it.
///
/// The errors are those of [walk_octets]. Returns `OutOfMemory` only if a value begins the octets.
pub fn index_octets(alloc: Global, octets: &[u8]) -> Result<(usize, Vec<HeaderEntry>), DecodeError>
    ensures within { IfOk result (λ x. x.0 ≤ length octets.now) }
    ensures accepted { IfOk result (λ x. Accepts SpellsValue octets.now (take x.0 octets.now) (drop x.0 octets.now)) }
    ensures index { IfOk result (λ x. IsIndex (take x.0 octets.now) x.1.items) }
    ensures only { IfOk result (λ x. (y : List Entry) → IsIndex (take x.0 octets.now) y → y ≡ x.1.items) }
    ensures refused { IfErr result (λ e. Refusal SpellsValue (OrMemoryWhere HasEither IsCaptureFault)
        octets.now octets.now e) }
    ensures fault { (e : DecodeError) → IsCaptureFault octets.now e
        → (result ≡ Err DecodeError.OutOfMemory) ⊎ (result ≡ Err e) }
{
    if octets.is_empty() {
        return Err(DecodeError::Truncated);
    }
    let mut index = Vec::new(alloc);
    let size = walk_value(alloc, octets, 0, true, &mut index, &mut Steps::new())?;
    Ok((size, index))
}
