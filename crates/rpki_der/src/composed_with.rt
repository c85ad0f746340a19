//! Values whose contents another reader reads, which keeps some of the octets.

ghost use Rattle.std.specs.Prelude.{true};
ghost use Rattle.rpki_der.specs.Cursor.{left};
ghost use Rattle.rpki_der.specs.TagName.{sequence, set};
ghost use Rattle.rpki_der.specs.Composed.{ReadsInside, ReadsWhole};
ghost use Rattle.rpki_der.specs.Each.{ReadsEach};
ghost use Rattle.rpki_der.specs.Keeping.{TakesKept, KeptReads, TakesEachKept, KeptCallReads, LeavesRest};

use crate::cursor::Constructed;
use crate::error::DecodeError;
use crate::keep::Keep;
use crate::tag::Tag;

impl<'a> Constructed<'a> {
    /// As [Constructed::whole], for a reader that keeps octets: `op` gets the keeper.
    ///
    /// Requires that `keep` can keep parts of the rest.
    pub fn whole_with<
        K: Keep,
        T: Drop,
        E: Drop + From<DecodeError>,
        F: FnOnce(&mut Constructed<'a>, K) -> Result<T, E>,
    >(self, keep: K, op: F) -> Result<T, E>
        requires callable { TakesKept K.holds F.FnOnce op }
        requires held { K.holds keep (left self) }
        ensures { ReadsWhole (λ c e. E.from_gives c e) (KeptReads K.holds F.FnOnce op) (left self.entry) result }
    {
        let mut rest = self;
        let found = op(&mut rest, keep)?;
        rest.finish()?;
        Ok(found)
    }

    /// As [Constructed::in_constructed], for a reader that keeps octets: `op` gets the keeper for the contents.
    ///
    /// Requires that `keep` can keep parts of the rest.
    pub fn in_constructed_with<
        K: Keep,
        T: Drop,
        E: Drop + From<DecodeError>,
        F: FnOnce(&mut Constructed<'a>, K) -> Result<T, E>,
    >(&mut self, tag: Tag, keep: K, op: F) -> Result<T, E>
        requires callable { TakesKept K.holds F.FnOnce op }
        requires held { K.holds keep (left self.old) }
        ensures { ReadsInside tag true (λ c e. E.from_gives c e) (KeptReads K.holds F.FnOnce op) (left self.old)
            (left self.new) result }
    {
        let mut after = *self;
        let mut contents = after.take_contents(tag, true)?;
        let within = keep.before(self.rest(), contents.rest(), after.rest());
        let found = op(&mut contents, within)?;
        contents.finish()?;
        *self = after;
        Ok(found)
    }

    /// As [Constructed::in_sequence], for a reader that keeps octets: `op` gets the keeper for the contents.
    ///
    /// Requires that `keep` can keep parts of the rest.
    pub fn in_sequence_with<
        K: Keep,
        T: Drop,
        E: Drop + From<DecodeError>,
        F: FnOnce(&mut Constructed<'a>, K) -> Result<T, E>,
    >(&mut self, keep: K, op: F) -> Result<T, E>
        requires callable { TakesKept K.holds F.FnOnce op }
        requires held { K.holds keep (left self.old) }
        ensures { ReadsInside sequence true (λ c e. E.from_gives c e) (KeptReads K.holds F.FnOnce op)
            (left self.old) (left self.new) result }
    {
        self.in_constructed_with(Tag::SEQUENCE, keep, op)
    }

    /// As [Constructed::in_set], for a reader that keeps octets: `op` gets the keeper for the contents.
    ///
    /// Requires that `keep` can keep parts of the rest.
    pub fn in_set_with<
        K: Keep,
        T: Drop,
        E: Drop + From<DecodeError>,
        F: FnOnce(&mut Constructed<'a>, K) -> Result<T, E>,
    >(&mut self, keep: K, op: F) -> Result<T, E>
        requires callable { TakesKept K.holds F.FnOnce op }
        requires held { K.holds keep (left self.old) }
        ensures { ReadsInside set true (λ c e. E.from_gives c e) (KeptReads K.holds F.FnOnce op) (left self.old)
            (left self.new) result }
    {
        self.in_constructed_with(Tag::SET, keep, op)
    }

    /// As [Constructed::take_each], for a reader that keeps octets: `op` gets the keeper.
    ///
    /// Requires that `keep` can keep parts of the rest, and that `op`, where it returns a value, reads from the
    /// front.
    pub fn take_each_with<
        K: Keep,
        T: Drop,
        E: Drop + From<DecodeError>,
        F: Fn(&mut Constructed<'a>, K) -> Result<T, E>,
    >(&mut self, keep: K, op: F) -> Result<Vec<T>, E>
        requires callable { TakesEachKept K.holds F.Fn op }
        requires front { LeavesRest (KeptCallReads K.holds F.Fn op) }
        requires held { K.holds keep (left self.old) }
        ensures { ReadsEach (λ v. v.items) (λ c e. E.from_gives c e) (KeptCallReads K.holds F.Fn op) (left self.old)
            (left self.new) result }
    {
        let mut rest = *self;
        let mut values = Vec::new(keep.allocator());
        'values: while !rest.is_empty() {
            let before = rest.len();
            let value = op(&mut rest, keep)?;
            if rest.len() >= before {
                return Err(E::from(DecodeError::Trailing));
            }
            if let Err(e) = values.push(value) {
                return Err(E::from(DecodeError::from(e)));
            }
        }
        *self = rest;
        Ok(values)
    }
}
