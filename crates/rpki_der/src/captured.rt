//! Values that were read or made, as their octets.

ghost use Rattle.std.specs.Prelude.{◌≡◌, ◌<◌, ℕ, List, length, IfOk, count_by, is_none};
ghost use Rattle.std.specs.List.{AllByRecursion};
ghost use Rattle.rpki_der.specs.Members.{AreValues};
ghost use Rattle.rpki_der.specs.Index.{Entry, IsIndex, StandsAt};
ghost use Rattle.rpki_der.specs.IndexMembers.{HasEntry};

use crate::cursor::Constructed;
use crate::index::HeaderEntry;
use crate::keep::Shared;
use bytes::Bytes;
use std::alloc::{AllocError, Global};
use std::marker::Model;

/// A list of values, as the octets that encode them in sequence (X.690 8.1.1, 8.1.2.5). At every depth the
/// contents of a constructed value are values that fill them; the contents of primitive values are not validated. An
/// index of all their headers is kept with them.
#[derive(Debug, Drop)]
pub struct Captured {
    bytes: Bytes,
    index: Vec<HeaderEntry>,
}

impl Model for Captured {
    ghost use Rattle.std.specs.Prelude.{ℕ, List};
    ghost use Rattle.rpki_der.specs.Index.{IsIndex};

    ghost Value = { List ℕ };

    ghost view = { λ c. c.bytes };

    ghost invariant = { λ c. IsIndex c.bytes c.index.items };
}

impl Captured {
    ghost use Rattle.rpki_der.specs.Cursor.{left};
    ghost use Rattle.rpki_der.specs.Sharing.{CanShare};

    /// Wraps the values that these octets encode, with their index.
    pub(crate) fn of_index(bytes: Bytes, index: Vec<HeaderEntry>) -> Captured
        requires { IsIndex bytes index.items }
        ensures { result ≡ bytes }
    {
        Captured { bytes, index }
    }

    /// The octets.
    pub fn as_slice(&self) -> &[u8]
        ensures { result.now ≡ self.now }
    {
        self.bytes.as_slice()
    }

    /// The octets alone, without the index.
    pub fn into_bytes(self) -> Bytes
        ensures { result ≡ self }
    {
        self.bytes
    }

    /// How many values they are. What is nested inside another value isn't counted.
    pub fn values(&self) -> usize
        ensures count { AreValues result self.now }
        ensures members { (j k : ℕ) (v : AreValues j self.now) (w : AreValues k self.now) → v.members ≡ w.members }
    {
        outer_count(&self.index)
    }

    /// The index: an entry for each header, at every depth, in order of place. Places are counted from the first of the
    /// octets.
    pub fn headers(&self) -> &[HeaderEntry]
        ensures index { IsIndex self.now result.now }
        ensures only { (x : List Entry) → IsIndex self.now x → x ≡ result.now }
        ensures places { AllByRecursion (StandsAt self.now) result.now }
        // The numbers below its length are those of entries.
        ensures numbers { (n : ℕ) → n < length result.now → HasEntry self.now n }
    {
        &self.index
    }

    /// A keeper that shares parts of the octets, for a reader on [Captured::cursor].
    pub fn shared(&self, alloc: Global) -> Shared<'_>
        ensures { CanShare result self.now }
    {
        Shared::new(alloc, &self.bytes)
    }

    /// A cursor on all of the octets.
    pub fn cursor(&self) -> Constructed<'_>
        ensures { left result ≡ self.now }
    {
        Constructed::new(&self.bytes)
    }

    /// Returns a copy of the values, octet for octet, that shares the octets and copies the index.
    ///
    /// Returns `AllocError` if allocation fails.
    pub fn clone(&self) -> Result<Captured, AllocError>
        ensures { IfOk result (λ c. c ≡ self.now) }
    {
        let bytes = self.bytes.clone()?;
        let index = Vec::from_slice(*self.index.allocator(), &self.index)?;
        Ok(Captured::of_index(bytes, index))
    }
}

/// How many entries are of values that are not nested in another.
fn outer_count(index: &[HeaderEntry]) -> usize
    ensures { result ≡ count_by (λ e. is_none e.parent) index.now }
{
    index.iter().filter(|e| e.parent().is_none()).count()
}
