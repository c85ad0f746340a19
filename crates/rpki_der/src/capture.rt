//! Values that a reader reads, kept.

ghost use Rattle.std.specs.Fn.{FnOnceReturnsAtMut};
ghost use Rattle.rpki_der.specs.Cursor.{left};
ghost use Rattle.rpki_der.specs.Capture.{Captures};

use crate::captured::Captured;
use crate::cursor::Constructed;
use crate::error::DecodeError;
use crate::from_values::index_values;
use crate::keep::Keep;

impl<'a> Constructed<'a> {
    /// Keeps the octets that `op` reads, with their index: as many from the front as `op` takes away. An allocator
    /// copies them, and [Shared](crate::Shared) shares them; requires that `keep` can keep parts of the rest.
    ///
    /// Returns the error of `op`. Where `op` succeeds, returns `Trailing` if it leaves more octets than there were, the
    /// error of the first of the octets that is no value if they are not values, and `OutOfMemory` if allocation fails.
    /// An error leaves the cursor where it was.
    pub fn capture<
        K: Keep,
        E: Drop + From<DecodeError>,
        F: FnOnce(&mut Constructed<'a>) -> Result<(), E>,
    >(&mut self, keep: K, op: F) -> Result<Captured, E>
        requires callable { F.IsAlwaysCallable op }
        requires held { K.holds keep (left self.old) }
        ensures { Captures (λ c e. E.from_gives c e) (FnOnceReturnsAtMut F.FnOnce op) (left self.old) (left self.new)
            result }
    {
        let mut following = *self;
        op(&mut following)?;
        let Some(size) = self.len().checked_sub(following.len()) else {
            return Err(E::from(DecodeError::Trailing));
        };
        let (front, following) = self.split_at(size);
        let index = index_values(keep.allocator(), front.rest())?;
        let octets = match self.keep_part(keep, front.rest(), &following) {
            Ok(octets) => octets,
            Err(e) => return Err(E::from(DecodeError::from(e))),
        };
        *self = following;
        Ok(Captured::of_index(octets, index))
    }
}
