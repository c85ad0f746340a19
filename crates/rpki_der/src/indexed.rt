//! A cursor on captured values, which takes headers from their index.

ghost use Rattle.std.specs.Prelude.{◌≡◌, ◌≤◌, ◌<◌, ◌+◌, ◌-◌, List, ℕ, length, take, drop, IfOk, IfErr, IfSome};
ghost use Rattle.std.specs.Prelude.{slice_range};
ghost use Rattle.std.specs.List.{AllByRecursion};
ghost use Rattle.rpki_der.specs.Index.{StandsAt};
ghost use Rattle.std.proofs.Props.{props};

use crate::captured::Captured;
use crate::cursor::Cursor;
use crate::error::DecodeError;
use crate::header::{HeaderAndRest, header};
use crate::index::HeaderEntry;
use crate::tag::{Header, Tag};

/// The rest of captured values, or of the contents of one of them. It takes each header from their index, instead
/// of reading it again.
#[derive(Clone, Copy)]
pub struct IndexedCursor<'a> {
    source: &'a [u8],
    start: usize,
    end: usize,
    index: &'a [HeaderEntry],
    /// A hint: all entries before this number are of headers before the start. Nothing rests on it.
    next: usize,
    ghost ordered: { start ≤ end },
    ghost inside: { end ≤ length source.now },
    ghost stands: { AllByRecursion (StandsAt source.now) index.now } by { Prim.hlevel props },
}

impl Captured {
    ghost use Rattle.rpki_der.specs.IndexedCursor.{indexed_left};

    /// A cursor on all of the values that takes headers from the index.
    #[tactic(auto, using(crate::proofs::CursorLaws::cuts), unfolding(crate::specs::IndexedCursor::indexed_left))]
    pub fn indexed_cursor(&self) -> IndexedCursor<'_>
        ensures { indexed_left result ≡ self.now }
    {
        let source = self.as_slice();
        IndexedCursor {
            source,
            start: 0,
            end: source.len(),
            index: self.headers(),
            next: 0,
        }
    }
}

impl<'a> IndexedCursor<'a> {
    ghost use Rattle.rpki_der.specs.IndexedCursor.{indexed_left};
    ghost use Rattle.rpki_der.specs.Reading.{Reads, Accepts, Refuses};
    ghost use Rattle.rpki_der.specs.Values.{SpellsHeader, SpellsContents, IsHeaderFault, IsContentsFault};

    /// The number of the first entry that is not before the start.
    fn number(&self) -> usize {
        let mut low = self.next;
        if low < self.index.len() && self.index[low].place() == self.start {
            return low;
        }
        let mut high = self.index.len();
        'halves: while low < high {
            let middle = low + (high - low) / 2;
            if self.index[middle].place() < self.start {
                low = middle + 1;
            } else {
                high = middle;
            }
        }
        low
    }

    /// The entry of this number, if it is of the header at the front.
    fn entry(&self, number: usize) -> Option<HeaderEntry>
        ensures stands { IfSome result (λ e. StandsAt self.now.source.now e × (e.place ≡ self.now.start)
            × (e.past ≤ self.now.end)) }
        ensures there { IfSome result (λ _. number < length self.now.index.now) }
    {
        let found = self.index.get(number)?;
        if found.place() == self.start && found.past() <= self.end {
            Some(*found)
        } else {
            None
        }
    }

    /// The remaining octets.
    #[tactic(auto, using(crate::proofs::CursorLaws::cuts), unfolding(crate::specs::IndexedCursor::indexed_left))]
    fn rest(&self) -> &'a [u8]
        ensures { result.now ≡ indexed_left self.now }
    {
        &self.source[self.start..self.end]
    }

    /// How many octets remain.
    #[tactic(auto, using(crate::proofs::CursorLaws::cuts), unfolding(crate::specs::IndexedCursor::indexed_left))]
    fn len(&self) -> usize
        ensures { result ≡ length (indexed_left self.now) }
    {
        self.end - self.start
    }

    /// The first `at` octets, and those after them.
    fn split_at(&self, at: usize) -> (IndexedCursor<'a>, IndexedCursor<'a>)
        requires { at ≤ length (indexed_left self.now) }
        ensures front { indexed_left result.0 ≡ take at (indexed_left self.now) }
        ensures following { indexed_left result.1 ≡ drop at (indexed_left self.now) }
    {
        let seam = self.start + at;
        let front = IndexedCursor {
            source: self.source,
            start: self.start,
            end: seam,
            index: self.index,
            next: self.next,
        };
        let following = IndexedCursor {
            source: self.source,
            start: seam,
            end: self.end,
            index: self.index,
            next: self.next,
        };
        (front, following)
    }

    /// The header at the front, and a cursor on what follows.
    fn after_header(&self) -> Result<(Header, IndexedCursor<'a>), DecodeError>
        ensures ok { IfOk result (λ x. Accepts SpellsHeader (indexed_left self.now) x.0 (indexed_left x.1)) }
        ensures err { IfErr result (λ e. Refuses SpellsHeader (indexed_left self.now)
            × IsHeaderFault (indexed_left self.now) e) }
    {
        let number = self.number();
        if let Some(entry) = self.entry(number) {
            return Ok((
                entry.header(),
                IndexedCursor {
                    source: self.source,
                    start: entry.contents(),
                    end: self.end,
                    index: self.index,
                    next: number + 1,
                },
            ));
        }
        let HeaderAndRest { header, rest } = header(self.rest())?;
        let following = IndexedCursor {
            source: self.source,
            start: self.end - rest.len(),
            end: self.end,
            index: self.index,
            next: self.next,
        };
        Ok((header, following))
    }

    /// The contents of a value of this tag and form; moves past the value.
    fn take_contents(
        &mut self,
        tag: Tag,
        constructed: bool,
    ) -> Result<IndexedCursor<'a>, DecodeError>
        ensures { Reads indexed_left (SpellsContents tag constructed) (IsContentsFault tag constructed)
            (indexed_left self.old) (indexed_left self.new) result }
    {
        let (found, following) = match self.after_header() {
            Ok(found) => found,
            Err(e) => return Err(e),
        };
        if !found.names(tag, constructed) {
            return Err(DecodeError::Unexpected);
        }
        let length = found.length as usize;
        if following.len() < length {
            return Err(DecodeError::Truncated);
        }
        let (contents, after) = following.split_at(length);
        *self = after;
        Ok(contents)
    }
}

impl<'a> Cursor for IndexedCursor<'a> {
    ghost use Rattle.rpki_der.specs.IndexedCursor.{indexed_left};

    ghost octets_left = { indexed_left };

    fn octets(&self) -> &[u8] {
        self.rest()
    }

    fn take_value_contents(&mut self, tag: Tag, constructed: bool) -> Result<Self, DecodeError> {
        self.take_contents(tag, constructed)
    }
}
