//! Values whose contents another reader reads.

ghost use Rattle.std.specs.Prelude.{true};
ghost use Rattle.std.specs.Fn.{FnOnceReturnsAtMut};
ghost use Rattle.rpki_der.specs.Cursor.{left};
ghost use Rattle.rpki_der.specs.TagName.{sequence, set};
ghost use Rattle.rpki_der.specs.Composed.{ReadsInside, ReadsWhole};

use crate::cursor::Constructed;
use crate::error::DecodeError;
use crate::tag::Tag;

impl<'a> Constructed<'a> {
    /// Reads a value of this tag and form, whose contents `op` reads to their end. The cursor moves only where all of
    /// it succeeds.
    fn in_value<
        T: Drop,
        E: Drop + From<DecodeError>,
        F: FnOnce(&mut Constructed<'a>) -> Result<T, E>,
    >(&mut self, tag: Tag, constructed: bool, op: F) -> Result<T, E>
        requires { F.IsAlwaysCallable op }
        ensures { ReadsInside tag constructed (λ c e. E.from_gives c e) (FnOnceReturnsAtMut F.FnOnce op)
            (left self.old) (left self.new) result }
    {
        let mut after = *self;
        let mut contents = after.take_contents(tag, constructed)?;
        let found = op(&mut contents)?;
        contents.finish()?;
        *self = after;
        Ok(found)
    }

    /// Reads the whole rest by `op`.
    ///
    /// Returns the error of `op`; `Trailing` if it leaves something.
    pub fn whole<
        T: Drop,
        E: Drop + From<DecodeError>,
        F: FnOnce(&mut Constructed<'a>) -> Result<T, E>,
    >(self, op: F) -> Result<T, E>
        requires { F.IsAlwaysCallable op }
        ensures { ReadsWhole (λ c e. E.from_gives c e) (FnOnceReturnsAtMut F.FnOnce op) (left self.entry) result }
    {
        let mut rest = self;
        let found = op(&mut rest)?;
        rest.finish()?;
        Ok(found)
    }

    /// Reads a constructed value of this tag, as of an explicit context tag (X.690 8.14), whose contents `op` reads to
    /// their end.
    ///
    /// Returns an error of [Constructed::take_constructed_if] if there is no such value; the error of `op` if that
    /// rejects the contents; `Trailing` if it leaves some of them. An error leaves the cursor where it was.
    pub fn in_constructed<
        T: Drop,
        E: Drop + From<DecodeError>,
        F: FnOnce(&mut Constructed<'a>) -> Result<T, E>,
    >(&mut self, tag: Tag, op: F) -> Result<T, E>
        requires { F.IsAlwaysCallable op }
        ensures { ReadsInside tag true (λ c e. E.from_gives c e) (FnOnceReturnsAtMut F.FnOnce op) (left self.old)
            (left self.new) result }
    {
        self.in_value(tag, true, op)
    }

    /// Reads a SEQUENCE (X.690 8.9) whose contents `op` reads to their end.
    ///
    /// Returns an error of [Constructed::take_sequence] if there is no such value; the error of `op` if that rejects
    /// the contents; `Trailing` if it leaves some of them. An error leaves the cursor where it was.
    pub fn in_sequence<
        T: Drop,
        E: Drop + From<DecodeError>,
        F: FnOnce(&mut Constructed<'a>) -> Result<T, E>,
    >(&mut self, op: F) -> Result<T, E>
        requires { F.IsAlwaysCallable op }
        ensures { ReadsInside sequence true (λ c e. E.from_gives c e) (FnOnceReturnsAtMut F.FnOnce op)
            (left self.old) (left self.new) result }
    {
        self.in_value(Tag::SEQUENCE, true, op)
    }

    /// Reads a SET (X.690 8.11) whose contents `op` reads to their end.
    ///
    /// Returns an error of [Constructed::take_set] if there is no such value; the error of `op` if that rejects the
    /// contents; `Trailing` if it leaves some of them. An error leaves the cursor where it was.
    pub fn in_set<
        T: Drop,
        E: Drop + From<DecodeError>,
        F: FnOnce(&mut Constructed<'a>) -> Result<T, E>,
    >(&mut self, op: F) -> Result<T, E>
        requires { F.IsAlwaysCallable op }
        ensures { ReadsInside set true (λ c e. E.from_gives c e) (FnOnceReturnsAtMut F.FnOnce op)
            (left self.old) (left self.new) result }
    {
        self.in_value(Tag::SET, true, op)
    }
}
