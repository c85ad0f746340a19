//! One value, read with everything nested in it.
//!
//! The contents of a constructed value are values that fill them (X.690 8.1.2.5), to any depth. Only structure counts:
//! the contents of a primitive value are passed over by their length.

ghost use Rattle.std.specs.Prelude.{◌≡◌, ◌+◌, ◌-◌, ◌*◌, ◌^◌, ◌<◌, ◌≤◌, ◌⊎◌, ℕ, List, [], length, take, drop, Ok, Err};
ghost use Rattle.std.specs.Prelude.{IfOk, IfErr, IfSome, OnErr, ◌++◌, ◌∷◌, true, false};
ghost use Rattle.rpki_der.specs.declared.error.DecodeError.{DecodeError};
ghost use Rattle.rpki_der.specs.Reading.{Spells, Accepts, Refusal, Reads, ReadsWhere, OrMemoryWhere};
ghost use Rattle.rpki_der.specs.Values.{SpellsHeader};
ghost use Rattle.rpki_der.specs.Members.{IsValueOf, SpellsValue};
ghost use Rattle.rpki_der.specs.NestedFault.{IsNestedFault, IsCaptureFault};
ghost use Rattle.rpki_der.specs.Walk.{IsNotEmpty, HasConstructed, HasEither, TakesMemory, SpellsAnyValue};
ghost use Rattle.rpki_der.specs.Walk.{CountsHeaders};
ghost use Rattle.rpki_der.specs.IndexParts.{IsListed, IsEnd, noted, name_of};

use crate::captured::Captured;
use crate::cursor::Constructed;
use crate::error::DecodeError;
use crate::front::{index_octets, walk_octets};
use crate::header::{HeaderAndRest, header};
use crate::index::HeaderEntry;
use crate::keep::Keep;
use crate::tag::{Header, Steps};
use std::alloc::Global;

/// The header at the front, whose contents are all there, and how many octets the header takes.
#[inline(always)]
fn take_header_within(octets: &[u8], steps: &mut Steps) -> Result<(Header, usize), DecodeError>
    requires some { 0 < length octets.now }
    requires room { steps.old < 2 ^ 64 - 1 }
    ensures counted { steps.new ≡ steps.old + 1 }
    ensures within { IfOk result (λ x. x.1 + x.0.length ≤ length octets.now) }
    ensures found { IfOk result (λ x. Spells SpellsHeader octets.now x.0 (drop x.1 octets.now)) }
    ensures refused { IfErr result (λ e. IsNestedFault octets.now e) }
{
    steps.raise();
    let HeaderAndRest { header, rest } = header(octets)?;
    if rest.len() < header.length as usize {
        return Err(DecodeError::Truncated);
    }
    Ok((header, octets.len() - rest.len()))
}

/// For how many entries room is made at first, where a constructed value of so many octets begins: more than
/// certificates have, one for eight octets, and no more than 256, since contents may be all in one primitive value.
fn first_room(size: usize) -> usize
    ensures { result ≤ 256 }
{
    if size < 2016 { size / 8 + 4 } else { 256 }
}

/// Adds the entry of a value, where entries are kept. Returns what identifies the value while it is open: the number of
/// the entry, or the end of the value where no entries are kept.
fn note(
    entries: &mut Vec<HeaderEntry>,
    keep: bool,
    entry: HeaderEntry,
    past: usize,
) -> Result<usize, DecodeError>
    ensures noted { IfOk result (λ _. entries.new.items ≡ entries.old.items ++ noted keep entry) }
    ensures named { IfOk result (λ n. n ≡ name_of keep (length entries.old.items) past) }
    ensures refused { IfErr result (λ e. (e ≡ DecodeError.OutOfMemory) × (keep ≡ true)) }
{
    if !keep {
        return Ok(past);
    }
    let number = entries.len();
    if number == 0 && entry.constructed() {
        entries.reserve(first_room(past))?;
    }
    entries.push(entry)?;
    Ok(number)
}

/// Where the open value that `name` identifies ends.
fn end_of(entries: &[HeaderEntry], keep: bool, before: usize, name: usize) -> usize
    requires { (end : ℕ) × IsEnd keep before entries.now name end }
    ensures { IsEnd keep before entries.now name result }
{
    if keep {
        entries[name].past() - before
    } else {
        name
    }
}

/// How many octets the value at the front takes. Where entries are kept, those of all its headers are added. Places are
/// counted from `before` octets in front.
///
/// An open value is known by the number of its entry, or by its end where no entries are kept. The innermost one and
/// its end are in variables, and those around it on a stack, outermost first.
#[inline(always)]
pub(crate) fn walk_value(
    alloc: Global,
    octets: &[u8],
    before: usize,
    keep: bool,
    entries: &mut Vec<HeaderEntry>,
    steps: &mut Steps,
) -> Result<usize, DecodeError>
    requires some { 0 < length octets.now }
    requires room { steps.old + length octets.now < 2 ^ 64 }
    requires places { before + length octets.now < 2 ^ 64 }
    ensures within { IfOk result (λ n. n ≤ length octets.now) }
    ensures raised { steps.old ≤ steps.new }
    ensures accepted { IfOk result (λ n. IsValueOf (steps.new - steps.old) (take n octets.now)) }
    ensures refused { IfErr result (λ e. ((e ≡ DecodeError.OutOfMemory) × TakesMemory keep octets.now)
        ⊎ IsNestedFault octets.now e) }
    ensures bound { OnErr result (2 * (steps.new - steps.old) ≤ length octets.now + 2) }
    ensures kept { keep ≡ true → IfOk result (λ n. IsListed before entries.old.items
        (take n octets.now) entries.new.items) }
{
    let (first, size) = match take_header_within(octets, steps) {
        Ok(entered) => entered,
        Err(e) => return Err(e),
    };
    let past = size + first.length as usize;
    let entry = HeaderEntry::new(before, &first, None);
    let name = note(entries, keep, entry, past)?;
    if !first.constructed {
        return Ok(past);
    }
    let mut open = Vec::new(alloc);
    let mut innermost = name;
    let mut end = past;
    let mut place = size;
    'values: loop {
        if place == end {
            innermost = match open.pop() {
                Some(outer) => outer,
                None => return Ok(place),
            };
            end = end_of(entries.as_slice(), keep, before, innermost);
            continue;
        }
        let (found, size) = match take_header_within(&octets[place..end], steps) {
            Ok(entered) => entered,
            Err(e) => return Err(e),
        };
        let past = place + size + found.length as usize;
        let entry = HeaderEntry::new(before + place, &found, Some(innermost));
        let inner = note(entries, keep, entry, past)?;
        if !found.constructed {
            place = past;
            continue;
        }
        open.push(innermost)?;
        innermost = inner;
        end = past;
        place += size;
    }
}

impl<'a> Constructed<'a> {
    ghost use Rattle.rpki_der.specs.Cursor.{left};

    /// Moves past one value with everything nested in it (X.690 8.1.1, 8.1.2.5), or returns None if nothing remains.
    ///
    /// Each header that is read, at any depth, raises `steps` by one, the last one of a rejected value too. Requires
    /// that their count and the octets left are together below 2^64.
    ///
    /// An error leaves the cursor where it was. It is the first one from the left: `Truncated`, `BadTag` or `BadLength`
    /// where a value has to begin and no header does; or `Truncated` where a value passes the end of the one that
    /// contains it. Returns `OutOfMemory` if the stack of open values cannot grow; for a primitive value the call
    /// allocates nothing.
    pub fn walk(&mut self, alloc: Global, steps: &mut Steps) -> Result<Option<()>, DecodeError>
        requires room { steps.old + length (left self.old) < 2 ^ 64 }
        ensures reads { ReadsWhere IsNotEmpty (λ _. tt) SpellsAnyValue (OrMemoryWhere HasConstructed IsNestedFault)
            (left self.old) (left self.new) result }
        ensures fault { (e : DecodeError) → IsNestedFault (left self.old) e
            → (result ≡ Err DecodeError.OutOfMemory) ⊎ (result ≡ Err e) }
        ensures raised { steps.old ≤ steps.new }
        ensures nothing { left self.old ≡ [] → steps.new ≡ steps.old }
        ensures counted { IfOk result (λ o. IfSome o
            (λ _. CountsHeaders (left self.old) (left self.new) (steps.new - steps.old))) }
        ensures bound { OnErr result (2 * (steps.new - steps.old) ≤ length (left self.old) + 2) }
    {
        let octets = self.rest();
        if octets.is_empty() {
            return Ok(None);
        }
        let size = walk_octets(alloc, octets, steps)?;
        let (_, following) = self.split_at(size);
        *self = following;
        Ok(Some(()))
    }

    /// Moves past one value, or returns None if nothing remains: as `walk`, with the same errors, and no count.
    pub fn skip_one(&mut self, alloc: Global) -> Result<Option<()>, DecodeError>
        ensures reads { ReadsWhere IsNotEmpty (λ _. tt) SpellsAnyValue (OrMemoryWhere HasConstructed IsNestedFault)
            (left self.old) (left self.new) result }
        ensures fault { (e : DecodeError) → IsNestedFault (left self.old) e
            → (result ≡ Err DecodeError.OutOfMemory) ⊎ (result ≡ Err e) }
    {
        if self.rest().is_empty() {
            return Ok(None);
        }
        self.walk(alloc, &mut Steps::new())
    }

    /// Exactly the octets of one value with everything nested in it, kept; moves past them. An allocator copies them,
    /// and [Shared](crate::Shared) shares them; requires that `keep` can keep parts of the rest.
    ///
    /// The errors are those of `walk`, with the cursor where it was, and `Truncated` if nothing remains. Returns
    /// `OutOfMemory` also if the octets cannot be kept.
    pub fn capture_one<K: Keep>(&mut self, keep: K) -> Result<Captured, DecodeError>
        requires { K.holds keep (left self.old) }
        ensures reads { Reads (λ c. c) SpellsValue (OrMemoryWhere HasEither IsCaptureFault) (left self.old)
            (left self.new) result }
        ensures fault { (e : DecodeError) → IsCaptureFault (left self.old) e
            → (result ≡ Err DecodeError.OutOfMemory) ⊎ (result ≡ Err e) }
    {
        let (size, index) = index_octets(keep.allocator(), self.rest())?;
        let (value, following) = self.split_at(size);
        let bytes = self.keep_part(keep, value.rest(), &following)?;
        *self = following;
        Ok(Captured::of_index(bytes, index))
    }
}
