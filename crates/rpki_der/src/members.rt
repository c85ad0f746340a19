//! The members of captured values, by their entries in the index.

ghost use Rattle.std.specs.Prelude.{◌≡◌, ◌+◌, ◌<◌, ℕ, ⊤, Some, None, List, length, drop, IfSome, slice_get};
ghost use Rattle.std.specs.Prelude.{slice_range};
ghost use Rattle.std.specs.List.{AllByRecursion};
ghost use Rattle.rpki_der.specs.Index.{Entry, IsIndex, StandsAt};
ghost use Rattle.rpki_der.specs.IndexMembers.{member_numbers, HasEntry};
ghost use Rattle.rpki_der.specs.IndexOrder.{AreInOrder, HasEnd};

use crate::captured::Captured;
use crate::cursor::Constructed;
use crate::index::HeaderEntry;
use std::alloc::AllocError;

/// The numbers of the entries of the members of one value, or of the values that are in no other, in order. From one
/// member it goes to the next by halving, past the entries of all that is inside.
#[derive(Debug, Drop)]
pub struct Members<'a> {
    entries: &'a [HeaderEntry],
    parent: Option<usize>,
    /// The place just past the parent's contents.
    past: Option<usize>,
    /// The number of the first entry that was not looked at.
    next: usize,
    ghost ordered: { AreInOrder entries.now },
    ghost ends: { (p : ℕ) → past ≡ Some p → HasEnd parent entries.now p },
}

impl<'a> Members<'a> {
    ghost use Rattle.rpki_der.specs.MembersLeft.{numbers_behind};

    /// The number of the first entry after this one, of a member, that does not begin in its value.
    fn after(&self, number: usize) -> usize
        requires within { number < length self.now.entries.now }
        requires member { (e : Entry) → slice_get self.now.entries.now number ≡ Some e → e.parent ≡ self.now.parent }
        ensures { numbers_behind self.now (number + 1) ≡ numbers_behind self.now result }
    {
        let value = entry_of(self.entries, number);
        let mut low = number + 1;
        if !value.constructed() {
            return low;
        }
        let past = value.past();
        let mut high = self.entries.len();
        'halves: while low < high {
            let middle = low + (high - low) / 2;
            let found = entry_of(self.entries, middle);
            if found.place() < past {
                low = middle + 1;
            } else {
                high = middle;
            }
        }
        low
    }
}

/// Returns a copy, which has the same members left. It never fails.
impl<'a> Clone for Members<'a> {
    ghost use Rattle.rpki_der.specs.MembersLeft.{numbers_left};

    ghost is_clone = { λ m n. numbers_left n ≡ numbers_left m };

    ghost is_infallible = { λ _. ⊤ };

    fn clone(&self) -> Result<Members<'a>, AllocError> {
        Ok(Members {
            entries: self.entries,
            parent: self.parent,
            past: self.past,
            next: self.next,
        })
    }
}

impl<'a> Iterator for Members<'a> {
    ghost use Rattle.std.specs.Iterator.{YieldsFirst, item_count};
    ghost use Rattle.rpki_der.specs.MembersLeft.{numbers_left};

    type Item = usize;

    ghost next_gives = { YieldsFirst numbers_left };

    ghost remaining = { item_count numbers_left };

    fn next(&mut self) -> Option<usize> {
        'entries: while self.next < self.entries.len() {
            let number = self.next;
            let found = entry_of(self.entries, number);
            if let Some(past) = self.past {
                if past <= found.place() {
                    return None;
                }
            }
            if found.parent() == self.parent {
                self.next = self.after(number);
                return Some(number);
            }
            self.next += 1;
        }
        None
    }
}

/// The entry of this number in an index.
fn entry_of(index: &[HeaderEntry], number: usize) -> HeaderEntry
    requires { number < length index.now }
    ensures { slice_get index.now number ≡ Some result }
{
    index[number]
}

impl Captured {
    ghost use Rattle.rpki_der.specs.Cursor.{left};
    ghost use Rattle.rpki_der.specs.MembersLeft.{numbers_left};

    /// The entry of this number.
    fn entry(&self, number: usize) -> HeaderEntry
        requires { HasEntry self.now number }
        ensures is { (index : List Entry) → IsIndex self.now index → slice_get index number ≡ Some result }
        ensures stands { StandsAt self.now result }
    {
        entry_of(self.headers(), number)
    }

    /// The numbers of the entries that have this parent, in order: of the members of the value whose entry has the
    /// number, or of the captured values themselves where there is no parent. They are numbers in [Captured::headers].
    /// Allocates nothing.
    ///
    /// Requires that the number of a parent is below `headers().len()`.
    pub fn members(&self, parent: Option<usize>) -> Members<'_>
        requires { IfSome parent (HasEntry self.now) }
        ensures numbers { (index : List Entry) → IsIndex self.now index
            → numbers_left result ≡ member_numbers parent index }
        // Each is below `headers().len()`.
        ensures entries { AllByRecursion (HasEntry self.now) (numbers_left result) }
    {
        match parent {
            None => self.outer_members(),
            Some(number) => self.inner_members(number),
        }
    }

    /// The numbers of the entries of the captured values themselves.
    fn outer_members(&self) -> Members<'_>
        ensures { (index : List Entry) × IsIndex self.now index × (numbers_left result ≡ member_numbers None index) }
    {
        Members {
            entries: self.headers(),
            parent: None,
            past: None,
            next: 0,
        }
    }

    /// The numbers of the entries of the members of the value whose entry has this number.
    fn inner_members(&self, number: usize) -> Members<'_>
        requires { HasEntry self.now number }
        ensures { (index : List Entry) × IsIndex self.now index
            × (numbers_left result ≡ member_numbers (Some number) index) }
    {
        let entries = self.headers();
        let value = entry_of(entries, number);
        Members {
            entries,
            parent: Some(number),
            past: Some(value.past()),
            next: number + 1,
        }
    }

    /// The contents octets of the value whose entry has this number, without a copy. Allocates nothing.
    ///
    /// Requires that the number is below `headers().len()`.
    pub fn contents(&self, entry: usize) -> &[u8]
        requires { HasEntry self.now entry }
        ensures { (index : List Entry) (e : Entry) → IsIndex self.now index → slice_get index entry ≡ Some e
            → result.now ≡ slice_range self.now e.contents e.past }
    {
        let found = self.entry(entry);
        let octets = self.as_slice();
        &octets[found.contents()..found.past()]
    }

    /// A cursor on the contents octets of the value whose entry has this number. Allocates nothing.
    ///
    /// Requires that the number is below `headers().len()`.
    pub fn contents_cursor(&self, entry: usize) -> Constructed<'_>
        requires { HasEntry self.now entry }
        ensures { (index : List Entry) (e : Entry) → IsIndex self.now index → slice_get index entry ≡ Some e
            → left result ≡ slice_range self.now e.contents e.past }
    {
        let found = self.entry(entry);
        let (_, following) = self.cursor().split_at(found.contents());
        let (contents, _) = following.split_at(found.past() - found.contents());
        contents
    }
}
