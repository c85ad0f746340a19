//! Bit strings.

ghost use Rattle.std.specs.Prelude.{false, ◌≡◌, ◌<◌, ◌∷◌, length, drop, IsTrue, IfOk, ◌↔◌};
ghost use Rattle.rpki_der.specs.Leaves.{AreBits, bits_of};

use crate::cursor::Constructed;
use crate::error::DecodeError;
use crate::keep::Keep;
use crate::tag::Tag;
use bytes::Bytes;
use std::alloc::AllocError;
use std::marker::Model;

/// A bit string (X.690 8.6): shared octets, and how many bits of the last octet are not used.
///
/// At most seven bits are unused, none where there is no octet, and all of them are zero (X.690 11.2.1).
#[derive(Debug, Drop)]
pub struct BitString {
    unused: u8,
    bytes: Bytes,
}

impl Model for BitString {
    ghost use Rattle.rpki_der.specs.Leaves.{Bits, AreBits, bits_of};

    ghost Value = { Bits };

    ghost view = { λ b. bits_of b.unused b.bytes };

    ghost invariant = { λ b. AreBits (bits_of b.unused b.bytes) };
}

impl BitString {
    /// Whether a bit string of these octets may have this many unused bits: at most 7, none where there is no octet,
    /// and all of them zero (X.690 8.6.2, 11.2.1).
    pub fn is_legal(unused: u8, octets: &[u8]) -> bool
        ensures { IsTrue result ↔ AreBits (bits_of unused octets.now) }
    {
        match octets.last() {
            None => unused == 0,
            Some(last) => unused < 8 && *last % (1 << unused) == 0,
        }
    }

    /// The bit string of these octets, of whose last this many bits are unused. Requires that the two are legal, as
    /// [BitString::is_legal] tests.
    pub fn new(unused: u8, bytes: Bytes) -> BitString
        requires { AreBits (bits_of unused bytes) }
        ensures { result ≡ bits_of unused bytes }
    {
        BitString { unused, bytes }
    }

    /// How many bits of the last octet are not used: 0 to 7.
    pub fn unused(&self) -> u8
        ensures value { result ≡ self.now.unused }
        ensures legal { AreBits self.now }
    {
        self.unused
    }

    /// The octets.
    pub fn octet_slice(&self) -> &[u8]
        ensures { result.now ≡ self.now.octets }
    {
        self.bytes.as_slice()
    }

    /// The octets, shared.
    ///
    /// Returns `AllocError` if allocation fails.
    pub fn octet_bytes(&self) -> Result<Bytes, AllocError>
        ensures { IfOk result (λ b. b ≡ self.now.octets) }
    {
        self.bytes.clone()
    }

    /// The octets alone, without the count of unused bits.
    pub fn into_octets(self) -> Bytes
        ensures { result ≡ self.octets }
    {
        self.bytes
    }

    /// Returns a copy of the bit string that shares its octets.
    ///
    /// Returns `AllocError` if allocation fails.
    pub fn clone(&self) -> Result<BitString, AllocError>
        ensures { IfOk result (λ b. b ≡ self.now) }
    {
        let bytes = self.bytes.clone()?;
        Ok(BitString {
            unused: self.unused,
            bytes,
        })
    }
}

/// Two bit strings are equal where their octets and their counts of unused bits are.
impl PartialEq for BitString {
    ghost use Rattle.rpki_der.specs.Equal.{same_bits};
    ghost use Rattle.rpki_der.specs.EqualLaws.{same_bits_equivalence};
    ghost use Rattle.std.specs.Cmp.{partial_equiv_from_equiv};

    ghost eq = { same_bits };

    ghost laws = { partial_equiv_from_equiv same_bits_equivalence };

    fn eq(&self, other: &BitString) -> bool {
        self.unused == other.unused && self.bytes.as_slice() == other.bytes.as_slice()
    }
}

impl Eq for BitString {
    ghost use Rattle.rpki_der.specs.EqualLaws.{same_bits_equivalence};

    ghost laws = { same_bits_equivalence };
}

/// A bit string (X.690 8.6) whose octets are borrowed, as [BitString] otherwise.
#[derive(Debug, Drop)]
pub struct BitSlice<'a> {
    unused: u8,
    octets: &'a [u8],
}

impl<'a> Model for BitSlice<'a> {
    ghost use Rattle.rpki_der.specs.Leaves.{Bits, AreBits, bits_of};

    ghost Value = { Bits };

    ghost view = { λ b. bits_of b.unused b.octets.now };

    ghost invariant = { λ b. AreBits (bits_of b.unused b.octets.now) };
}

impl<'a> BitSlice<'a> {
    /// How many bits of the last octet are not used: 0 to 7.
    pub fn unused(&self) -> u8
        ensures value { result ≡ self.now.unused }
        ensures legal { AreBits self.now }
    {
        self.unused
    }

    /// The octets.
    pub fn octet_slice(&self) -> &'a [u8]
        ensures { result.now ≡ self.now.octets }
    {
        self.octets
    }
}

impl<'a> Constructed<'a> {
    ghost use Rattle.rpki_der.specs.Cursor.{left};
    ghost use Rattle.rpki_der.specs.TagName.{bit_string};
    ghost use Rattle.rpki_der.specs.Values.{SpellsLeaf, IsLeafFault, ReadsLeaf};
    ghost use Rattle.rpki_der.specs.Leaves.{IsBits};
    ghost use Rattle.rpki_der.specs.Reading.{ReadsKept};

    /// A bit string (X.690 8.6, 11.2) that borrows its octets. Allocates nothing.
    ///
    /// The errors are those of a header; then `Unexpected` for another tag or form; then `Truncated`; then `Content`
    /// for contents that are not those of a bit string.
    #[inline(always)]
    pub fn take_bits(&mut self) -> Result<BitSlice<'a>, DecodeError>
        ensures { ReadsLeaf (λ b. b) bit_string IsBits (left self.old) (left self.new) result }
    {
        let mut after = *self;
        let contents = after.take_contents(Tag::BIT_STRING, false)?;
        let [unused, octets @ ..] = contents.rest() else {
            return Err(DecodeError::content("malformed BIT STRING"));
        };
        if !BitString::is_legal(*unused, octets) {
            return Err(DecodeError::content("malformed BIT STRING"));
        }
        *self = after;
        Ok(BitSlice {
            unused: *unused,
            octets,
        })
    }

    /// A bit string (X.690 8.6, 11.2), whose octets are kept. An allocator copies them, and [Shared](crate::Shared)
    /// shares them; requires that `keep` can keep parts of the rest.
    ///
    /// The errors are those of a header; then `Unexpected` for another tag or form; then `Truncated`; then `Content`
    /// for contents that are not those of a bit string; then `OutOfMemory` if allocation fails.
    pub fn take_bit_string<K: Keep>(&mut self, keep: K) -> Result<BitString, DecodeError>
        requires { K.holds keep (left self.old) }
        ensures { ReadsKept (λ b. b) (SpellsLeaf bit_string false IsBits) (IsLeafFault bit_string false IsBits)
            (left self.old) (left self.new) result }
    {
        let mut after = *self;
        let contents = after.take_contents(Tag::BIT_STRING, false)?;
        let [unused, octets @ ..] = contents.rest() else {
            return Err(DecodeError::content("malformed BIT STRING"));
        };
        if !BitString::is_legal(*unused, octets) {
            return Err(DecodeError::content("malformed BIT STRING"));
        }
        let bytes = self.keep_part(keep, octets, &after)?;
        *self = after;
        Ok(BitString::new(*unused, bytes))
    }
}
