//! How a reader keeps octets: as a copy, or shared.

ghost use Rattle.std.specs.Prelude.{◌≡◌, ◌≤◌, ◌++◌, ◌↔◌, ℕ, List, length, IsTrue, IfOk, slice_range};
ghost use Rattle.rpki_der.specs.Standing.{StandsBefore};

use bytes::Bytes;
use std::alloc::{AllocError, Global};

/// How a reader keeps some of the remaining octets of a cursor: the allocator, [Global], copies them; [Shared]
/// shares the octets that they are a part of.
pub trait Keep: Copy {
    /// The octets of which it can keep parts.
    ghost holds: { Self → List ℕ → Type 0 };

    /// The allocator, for all else that a reader allocates.
    fn allocator(&self) -> Global;

    /// Whether it can keep parts of the octets: what readers require of it. [Shared] compares them with those that it
    /// shares. Allocates nothing.
    fn can_keep(&self, octets: &[u8]) -> bool
        ensures { IsTrue result ↔ holds self.now octets.now };

    /// Keeps the part of the octets from the place `start` to before the place `end`, counted from 0.
    ///
    /// Requires that it can keep parts of the octets. Returns `AllocError` if allocation fails.
    fn keep(&self, octets: &[u8], start: usize, end: usize) -> Result<Bytes, AllocError>
        requires held { holds self.now octets.now }
        requires ordered { start ≤ end }
        requires within { end ≤ length octets.now }
        ensures { IfOk result (λ b. b ≡ slice_range octets.now start end) };

    /// The keeper for a part of the octets, such as the contents of a value, that is before the rest of them.
    ///
    /// Requires that it can keep parts of the octets.
    fn before(&self, octets: &[u8], part: &[u8], rest: &[u8]) -> Self
        requires held { holds self.now octets.now }
        requires stands { StandsBefore octets.now part.now rest.now }
        ensures { holds result part.now };

    /// Where it can keep parts of octets, it can keep parts of what follows a beginning of them.
    ghost rest_held: { (k : Self) (front rest : List ℕ) → holds k (front ++ rest) → holds k rest };
}

/// Copies parts of any octets.
impl Keep for Global {
    ghost holds = { λ k s. Unit {0} };

    ghost rest_held = { λ k front rest held. held };

    fn allocator(&self) -> Global {
        *self
    }

    fn can_keep(&self, _octets: &[u8]) -> bool {
        true
    }

    fn keep(&self, octets: &[u8], start: usize, end: usize) -> Result<Bytes, AllocError> {
        Bytes::copy_from_slice(*self, &octets[start..end])
    }

    fn before(&self, _octets: &[u8], _part: &[u8], _rest: &[u8]) -> Global {
        *self
    }
}

/// A keeper that shares parts of octets, without a copy.
#[derive(Clone, Copy)]
pub struct Shared<'a> {
    alloc: Global,
    bytes: &'a Bytes,
    /// Where those octets end of which it keeps parts.
    end: usize,
}

impl<'a> Shared<'a> {
    ghost use Rattle.rpki_der.specs.Sharing.{CanShare};

    /// A keeper for these octets.
    pub fn new(alloc: Global, bytes: &'a Bytes) -> Shared<'a>
        ensures { CanShare result bytes.now }
    {
        Shared {
            alloc,
            bytes,
            end: bytes.len(),
        }
    }
}

impl<'a> Keep for Shared<'a> {
    ghost use Rattle.rpki_der.specs.Sharing.{CanShare};
    ghost use Rattle.rpki_der.specs.StandingLaws.{rest-stands};

    ghost holds = { CanShare };

    ghost rest_held = { λ k front rest held. rest-stands front rest held };

    fn allocator(&self) -> Global {
        self.alloc
    }

    fn can_keep(&self, octets: &[u8]) -> bool {
        let all = self.bytes.as_slice();
        if octets.len() > self.end || self.end > all.len() {
            return false;
        }
        &all[self.end - octets.len()..self.end] == octets
    }

    fn keep(&self, octets: &[u8], start: usize, end: usize) -> Result<Bytes, AllocError> {
        let first = self.end - octets.len();
        let part = self.bytes.slice(first + start..first + end)?;
        Ok(part)
    }

    #[inline(always)]
    fn before(&self, _octets: &[u8], _part: &[u8], rest: &[u8]) -> Shared<'a> {
        Shared {
            alloc: self.alloc,
            bytes: self.bytes,
            end: self.end - rest.len(),
        }
    }
}
