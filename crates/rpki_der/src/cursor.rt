//! A cursor over octets.

ghost use Rattle.std.specs.Prelude.{◌≡◌, ◌≢◌, ◌≤◌, ◌<◌, ◌+◌, ◌-◌, ◌^◌, ℕ, List, [], length, take, drop, IsTrue, ◌↔◌};
ghost use Rattle.std.specs.Prelude.{MatchResult, IfOk, IfErr, IfSome};
ghost use Rattle.rpki_der.specs.Reading.{Reads};
ghost use Rattle.rpki_der.specs.Values.{SpellsContents, IsContentsFault};

use crate::error::DecodeError;
use crate::header::{HeaderAndRest, begins_with, header, short_header};
use crate::keep::Keep;
use crate::section::Section;
use crate::tag::{Header, Steps, Tag};
use bytes::Bytes;
use std::alloc::AllocError;
use std::marker::Model;

/// A cursor over values: on octets ([Constructed]), or on captured values by their index
/// ([IndexedCursor](crate::IndexedCursor)). A reader that is generic over it reads both.
pub trait Cursor: Copy {
    /// The rest.
    ghost octets_left: { Self → List ℕ };

    /// The remaining octets.
    fn octets(&self) -> &[u8]
        ensures { result.now ≡ octets_left self.now };

    /// Whether nothing remains.
    fn is_at_end(&self) -> bool
        ensures { IsTrue result ↔ (octets_left self.now ≡ []) }
    {
        self.octets().is_empty()
    }

    /// A cursor on the contents of a value of this tag and form; moves past the value. The contents are not validated.
    ///
    /// The errors are those of a header; then `Unexpected` for another tag or form; then `Truncated`.
    fn take_value_contents(&mut self, tag: Tag, constructed: bool) -> Result<Self, DecodeError>
        ensures { Reads octets_left (SpellsContents tag constructed) (IsContentsFault tag constructed)
            (octets_left self.old) (octets_left self.new) result };
}

/// The rest of octets, or of the contents of a value in them.
///
/// A reader moves the cursor past what it reads. A reader that fails leaves it where it was. A cursor is a slice, two
/// words, and doesn't know what octets that is a part of: a reader that keeps some of them asks for what it needs, a
/// [Keep].
#[derive(Clone, Copy)]
pub struct Constructed<'a> {
    rest: &'a [u8],
}

/// A header that was read, and a cursor on what follows it.
#[derive(Drop)]
pub(crate) struct HeaderAndCursor<'a> {
    pub(crate) header: Header,
    pub(crate) following: Constructed<'a>,
}

impl<'a> Model for HeaderAndCursor<'a> {
    ghost use Rattle.std.specs.Prelude.{ℕ, List};
    ghost use Rattle.rpki_der.specs.declared.tag.Header.{Header};
    ghost use Rattle.rpki_der.specs.Cursor.{left};

    ghost Value = { Header × List ℕ };

    ghost view = { λ x. (x.header, left x.following) };
}

impl<'a> Constructed<'a> {
    ghost use Rattle.rpki_der.specs.Cursor.{left};
    ghost use Rattle.rpki_der.specs.Reading.{Reads, Accepts, Refuses};
    ghost use Rattle.rpki_der.specs.Values.{SpellsHeader, HasTag, IsHeaderFault};
    ghost use Rattle.rpki_der.specs.Standing.{StandsBefore};

    /// A cursor on all of the octets. What a reader keeps of them, [Shared](crate::Shared) shares.
    pub fn new(source: &'a Bytes) -> Constructed<'a>
        ensures { left result ≡ source.now }
    {
        Constructed::from_slice(source.as_slice())
    }

    /// A cursor on all of the octets. What a reader keeps of them, an allocator copies.
    #[inline(always)]
    #[tactic(auto, unfolding(crate::specs::Cursor::left))]
    pub fn from_slice(octets: &'a [u8]) -> Constructed<'a>
        ensures { left result ≡ octets.now }
    {
        Constructed { rest: octets }
    }

    /// The remaining octets.
    #[inline(always)]
    #[tactic(auto, unfolding(crate::specs::Cursor::left))]
    pub fn rest(&self) -> &'a [u8]
        ensures { result.now ≡ left self.now }
    {
        self.rest
    }

    /// Whether nothing remains.
    #[inline(always)]
    #[tactic(auto, unfolding(crate::specs::Cursor::left))]
    pub fn is_empty(&self) -> bool
        ensures { IsTrue result ↔ (left self.now ≡ []) }
    {
        self.rest.is_empty()
    }

    /// How many octets remain.
    #[inline(always)]
    #[tactic(auto, unfolding(crate::specs::Cursor::left))]
    pub(crate) fn len(&self) -> usize
        ensures { result ≡ length (left self.now) }
    {
        self.rest.len()
    }

    /// The first `at` octets, and those after them.
    #[inline(always)]
    #[tactic(auto, unfolding(crate::specs::Cursor::left))]
    pub(crate) fn split_at(&self, at: usize) -> (Constructed<'a>, Constructed<'a>)
        requires { at ≤ length (left self.now) }
        ensures front { left result.0 ≡ take at (left self.now) }
        ensures following { left result.1 ≡ drop at (left self.now) }
    {
        let (before, after) = self.rest.split_at(at);
        let front = Constructed { rest: before };
        let following = Constructed { rest: after };
        (front, following)
    }

    /// Returns Ok if nothing remains, else `Trailing`: the last step of a reader of whole octets, or of whole contents.
    #[inline(always)]
    pub fn finish(self) -> Result<(), DecodeError>
        ensures { MatchResult result (λ _. left self.entry ≡ [])
            (λ e. (e ≡ DecodeError.Trailing) × (left self.entry ≢ [])) }
    {
        if self.is_empty() {
            Ok(())
        } else {
            Err(DecodeError::Trailing)
        }
    }

    /// The header at the front, and a cursor on what follows.
    #[inline(always)]
    #[tactic(auto, unfolding(crate::specs::Cursor::left))]
    pub(crate) fn after_header(&self) -> Result<HeaderAndCursor<'a>, DecodeError>
        ensures ok { IfOk result (λ x. Accepts SpellsHeader (left self.now) x.0 x.1) }
        ensures err { IfErr result (λ e. Refuses SpellsHeader (left self.now) × IsHeaderFault (left self.now) e) }
    {
        let HeaderAndRest { header, rest } = header(self.rest)?;
        let following = Constructed { rest };
        Ok(HeaderAndCursor { header, following })
    }

    /// The header at the front, and a cursor on what follows, where the header is two octets.
    #[inline(always)]
    #[tactic(auto, unfolding(crate::specs::Cursor::left))]
    pub(crate) fn after_short_header(&self) -> Option<(Header, Constructed<'a>)>
        ensures { IfSome result (λ x. Accepts SpellsHeader (left self.now) x.0 (left x.1)) }
    {
        match short_header(self.rest) {
            Some((found, rest)) => Some((found, Constructed { rest })),
            None => None,
        }
    }

    /// The header at the front (X.690 8.1.2, 8.1.3). The cursor moves past the header alone.
    ///
    /// The count of steps rises by one, also if the call fails; requires that it is below 2^64 - 1. The errors are
    /// `Truncated`, `BadTag` and `BadLength`: the octets are read from the left, and the first that cannot be continued
    /// to a legal encoding decides.
    pub fn take_header(&mut self, steps: &mut Steps) -> Result<Header, DecodeError>
        requires { steps.old < 2 ^ 64 - 1 }
        ensures reads { Reads (λ h. h) SpellsHeader IsHeaderFault (left self.old) (left self.new) result }
        ensures counted { steps.new ≡ steps.old + 1 }
    {
        steps.raise();
        let HeaderAndCursor { header, following } = self.after_header()?;
        *self = following;
        Ok(header)
    }

    /// Whether the rest begins with the identifier octets of this tag, in either form.
    #[inline(always)]
    pub fn has_tag(&self, tag: Tag) -> bool
        ensures { IsTrue result ↔ HasTag tag (left self.now) }
    {
        begins_with(self.rest(), tag)
    }

    /// Whether exactly these octets remain.
    pub(crate) fn rest_is(&self, expected: &[u8]) -> bool
        ensures { IsTrue result ↔ (left self.now ≡ expected.now) }
    {
        self.rest() == expected
    }

    /// Whether the part is in the remaining octets, right before the rest of another cursor, with which they end.
    #[tactic(auto, unfolding(crate::specs::Cursor::left))]
    pub fn stands_before(&self, part: &[u8], after: &Constructed<'_>) -> bool
        ensures { IsTrue result ↔ StandsBefore (left self.now) part.now (left after.now) }
    {
        Section::is_end(self.rest, after.rest)
            && Section::is_end(
                self.rest.split_at(self.rest.len() - after.rest.len()).0,
                part,
            )
    }

    /// Keeps a part of the remaining octets: that which is before the rest of another cursor
    /// ([Constructed::stands_before]). An allocator copies it, and [Shared](crate::Shared) shares it; requires that
    /// `keep` can keep parts of the rest.
    ///
    /// Returns `AllocError` if allocation fails.
    #[tactic(auto, unfolding(crate::specs::Cursor::left))]
    pub fn keep_part<K: Keep>(
        &self,
        keep: K,
        part: &[u8],
        after: &Constructed<'_>,
    ) -> Result<Bytes, AllocError>
        requires held { K.holds keep (left self.now) }
        requires stands { StandsBefore (left self.now) part.now (left after.now) }
        ensures { IfOk result (λ b. b ≡ part.now) }
    {
        let end = self.rest.len() - after.rest.len();
        let kept = keep.keep(self.rest, end - part.len(), end)?;
        Ok(kept)
    }
}

impl<'a> Cursor for Constructed<'a> {
    ghost use Rattle.rpki_der.specs.Cursor.{left};

    ghost octets_left = { left };

    fn octets(&self) -> &[u8] {
        self.rest()
    }

    fn take_value_contents(&mut self, tag: Tag, constructed: bool) -> Result<Self, DecodeError> {
        self.take_contents(tag, constructed)
    }
}
