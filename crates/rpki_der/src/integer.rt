//! Non-negative INTEGERs.

ghost use Rattle.std.specs.Prelude.{false, ◌≡◌, ◌≢◌, ◌<◌, ◌≤◌, ◌^◌, ◌↔◌, ℕ, IsTrue, [], length, drop, IfOk, IfErr};
ghost use Rattle.std.specs.Prelude.{IfSome, IfNone};
ghost use Rattle.rpki_der.specs.Number.{number_of};
ghost use Rattle.rpki_der.specs.Integer.{IsUnsigned, IsUnsignedBelow, IsNumber, IsMagnitude};

use crate::cursor::Constructed;
use crate::error::DecodeError;
use crate::tag::Tag;
use std::alloc::AllocError;
use std::marker::Model;

/// Error returned when octets are not a number.
#[derive(Clone, Copy, Debug, PartialEq, Eq)]
pub enum InvalidInteger {
    /// The input is empty.
    Empty,
    /// Allocation failed.
    OutOfMemory,
}

impl From<AllocError> for InvalidInteger {
    ghost use Rattle.std.specs.Prelude.{◌≡◌};
    ghost use Rattle.rpki_der.specs.declared.integer.InvalidInteger.TheVariants.{OutOfMemory};

    ghost from_gives = { λ _ e. e ≡ OutOfMemory };

    fn from(_e: AllocError) -> InvalidInteger {
        InvalidInteger::OutOfMemory
    }
}

/// A non-negative INTEGER: its octets, the most significant first, without leading zeros; zero is one octet.
#[derive(Debug, Drop)]
pub struct Unsigned<'a> {
    octets: &'a [u8],
}

impl<'a> Model for Unsigned<'a> {
    ghost use Rattle.std.specs.Prelude.{ℕ, List};
    ghost use Rattle.rpki_der.specs.Integer.{IsMagnitude};

    ghost Value = { List ℕ };

    ghost view = { λ u. u.octets.now };

    ghost invariant = { λ u. IsMagnitude u.octets.now };
}

/// How many leading zeros can be left out: all, but the last octet always stays.
fn leading_zeros(octets: &[u8]) -> usize
    requires { 0 < length octets.now }
    ensures within { result < length octets.now }
    ensures magnitude { IsMagnitude (drop result octets.now) }
    ensures value { number_of (drop result octets.now) ≡ number_of octets.now }
{
    let mut start = 0;
    while start + 1 < octets.len() && octets[start] == 0 {
        start += 1;
    }
    start
}

impl<'a> Unsigned<'a> {
    /// The number that the octets write, the most significant first. Leading zeros are left out.
    ///
    /// Returns `Empty` if there are no octets. Allocates nothing.
    pub fn from_slice(octets: &'a [u8]) -> Result<Unsigned<'a>, InvalidInteger>
        ensures value { IfOk result (λ u. number_of u ≡ number_of octets.now) }
        ensures magnitude { IfOk result IsMagnitude }
        ensures some { IfOk result (λ _. octets.now ≢ []) }
        ensures refused { IfErr result (λ e. (e ≡ InvalidInteger.Empty) × (octets.now ≡ [])) }
    {
        if octets.is_empty() {
            return Err(InvalidInteger::Empty);
        }
        let start = leading_zeros(octets);
        Ok(Unsigned {
            octets: &octets[start..],
        })
    }

    /// The octets of the number, the most significant first, without leading zeros; zero is one octet.
    pub fn as_slice(&self) -> &'a [u8]
        ensures octets { result.now ≡ self.now }
        ensures magnitude { IsMagnitude self.now }
    {
        self.octets
    }
}

/// The number whose INTEGER has these contents, if it is non-negative and none of its octets can be left out.
fn unsigned_of(contents: &[u8]) -> Option<Unsigned<'_>>
    ensures value { IfSome result (λ u. IsUnsigned (number_of u) contents.now) }
    ensures none { IfNone result ((n : ℕ) → IsUnsigned n contents.now → ⊥) }
{
    if contents.is_empty() || contents[0] >= 128 {
        return None;
    }
    if contents.len() == 1 || contents[0] > 0 {
        return Some(Unsigned { octets: contents });
    }
    if contents[1] < 128 {
        return None;
    }
    Some(Unsigned {
        octets: &contents[1..],
    })
}

/// The number that at most eight octets write, the most significant first.
fn small_number(octets: &[u8]) -> u64
    requires { length octets.now ≤ 8 }
    ensures { result ≡ number_of octets.now }
{
    let mut number = 0;
    let mut rest = octets;
    'octets: while let Some((first, following)) = rest.split_first() {
        number = number * 256 + u64::from(*first);
        rest = following;
    }
    number
}

/// The number whose INTEGER has these contents, if it is below 2^64 and none of its octets can be left out.
fn u64_of(contents: &[u8]) -> Option<u64>
    ensures value { IfSome result (λ n. IsUnsignedBelow (2 ^ 64) n contents.now) }
    ensures none { IfNone result ((n : ℕ) → IsUnsignedBelow (2 ^ 64) n contents.now → ⊥) }
{
    let number = match unsigned_of(contents) {
        Some(number) => number,
        None => return None,
    };
    if number.as_slice().len() > 8 {
        return None;
    }
    Some(small_number(number.as_slice()))
}

/// The number whose INTEGER has these contents, if it is below 2^8 and none of its octets can be left out.
fn u8_of(contents: &[u8]) -> Option<u8>
    ensures value { IfSome result (λ n. IsUnsignedBelow (2 ^ 8) n contents.now) }
    ensures none { IfNone result ((n : ℕ) → IsUnsignedBelow (2 ^ 8) n contents.now → ⊥) }
{
    match u64_of(contents) {
        Some(number) if number < 256 => Some(number as u8),
        _ => None,
    }
}

/// The number whose INTEGER has these contents, if it is below 2^32 and none of its octets can be left out.
fn u32_of(contents: &[u8]) -> Option<u32>
    ensures value { IfSome result (λ n. IsUnsignedBelow (2 ^ 32) n contents.now) }
    ensures none { IfNone result ((n : ℕ) → IsUnsignedBelow (2 ^ 32) n contents.now → ⊥) }
{
    match u64_of(contents) {
        Some(number) if number < 4_294_967_296 => Some(number as u32),
        _ => None,
    }
}

/// Whether these are the contents of the INTEGER of this number.
fn is_number(contents: &[u8], expected: u8) -> bool
    ensures { IsTrue result ↔ IsUnsigned expected contents.now }
{
    match u8_of(contents) {
        Some(number) => number == expected,
        None => false,
    }
}

impl<'a> Constructed<'a> {
    ghost use Rattle.rpki_der.specs.Cursor.{left};
    ghost use Rattle.rpki_der.specs.TagName.{integer};
    ghost use Rattle.rpki_der.specs.Values.{ReadsLeaf};

    /// A non-negative INTEGER (X.690 8.3).
    ///
    /// The errors are those of a header; then `Unexpected` for another tag or form; then `Truncated`; then `Content`
    /// for contents that are empty, negative or begin with nine equal bits.
    pub fn take_unsigned(&mut self) -> Result<Unsigned<'a>, DecodeError>
        ensures { ReadsLeaf number_of integer IsUnsigned (left self.old) (left self.new) result }
    {
        let mut after = *self;
        let contents = after.take_contents(Tag::INTEGER, false)?;
        match unsigned_of(contents.rest()) {
            Some(number) => {
                *self = after;
                Ok(number)
            }
            None => Err(DecodeError::content("malformed INTEGER")),
        }
    }

    /// A non-negative INTEGER (X.690 8.3) below 2^64.
    ///
    /// The errors are those of [Constructed::take_unsigned]; `Content` also for a number of 2^64 or more.
    pub fn take_u64(&mut self) -> Result<u64, DecodeError>
        ensures { ReadsLeaf (λ n. n) integer (IsUnsignedBelow (2 ^ 64)) (left self.old) (left self.new) result }
    {
        let mut after = *self;
        let contents = after.take_contents(Tag::INTEGER, false)?;
        match u64_of(contents.rest()) {
            Some(number) => {
                *self = after;
                Ok(number)
            }
            None => Err(DecodeError::content("malformed INTEGER, or one of 2^64 or more")),
        }
    }

    /// A non-negative INTEGER (X.690 8.3) below 2^32, as the number of an autonomous system (RFC 6793).
    ///
    /// The errors are those of [Constructed::take_unsigned]; `Content` also for a number of 2^32 or more.
    pub fn take_u32(&mut self) -> Result<u32, DecodeError>
        ensures { ReadsLeaf (λ n. n) integer (IsUnsignedBelow (2 ^ 32)) (left self.old) (left self.new) result }
    {
        let mut after = *self;
        let contents = after.take_contents(Tag::INTEGER, false)?;
        match u32_of(contents.rest()) {
            Some(number) => {
                *self = after;
                Ok(number)
            }
            None => Err(DecodeError::content("malformed INTEGER, or one of 2^32 or more")),
        }
    }

    /// Moves past exactly this INTEGER (X.690 8.3), as the version of a structure.
    ///
    /// The errors are those of [Constructed::take_unsigned]; `Content` also for another number.
    pub fn skip_u8_if(&mut self, expected: u8) -> Result<(), DecodeError>
        ensures { ReadsLeaf (λ _. tt) integer (IsNumber expected) (left self.old) (left self.new) result }
    {
        let mut after = *self;
        let contents = after.take_contents(Tag::INTEGER, false)?;
        if !is_number(contents.rest(), expected) {
            return Err(DecodeError::content("unexpected INTEGER"));
        }
        *self = after;
        Ok(())
    }

    /// A non-negative INTEGER (X.690 8.3) below 2^8, as a version or the length of a path.
    ///
    /// The errors are those of [Constructed::take_unsigned]; `Content` also for a number of 2^8 or more.
    pub fn take_u8(&mut self) -> Result<u8, DecodeError>
        ensures { ReadsLeaf (λ n. n) integer (IsUnsignedBelow (2 ^ 8)) (left self.old) (left self.new) result }
    {
        let mut after = *self;
        let contents = after.take_contents(Tag::INTEGER, false)?;
        match u8_of(contents.rest()) {
            Some(number) => {
                *self = after;
                Ok(number)
            }
            None => Err(DecodeError::content("malformed INTEGER, or one of 2^8 or more")),
        }
    }
}
