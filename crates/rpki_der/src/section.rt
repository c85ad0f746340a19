//! A part of octets, and where it is in them.

ghost use Rattle.std.specs.Prelude.{◌≡◌, ◌↔◌, ◌++◌, ℕ, List, IfOk, IsTrue};
ghost use Rattle.rpki_der.specs.Section.{IsSection, IsSectionOf};

use crate::keep::Keep;
use bytes::Bytes;
use std::alloc::AllocError;

/// A part of octets, and where it is in them.
#[derive(Clone, Copy)]
pub struct Section<'a> {
    /// The octets of the part.
    pub octets: &'a [u8],
    /// How many octets follow them.
    pub following: usize,
}

impl<'a> Section<'a> {
    /// Whether the rest are the last of the octets.
    pub fn is_end(octets: &[u8], rest: &[u8]) -> bool
        ensures { IsTrue result ↔ ((front : List ℕ) × (octets.now ≡ front ++ rest.now)) }
    {
        rest.len() <= octets.len() && octets.split_at(octets.len() - rest.len()).1 == rest
    }

    /// The octets in front of the rest. Requires that these are the last ones of them ([Section::is_end]).
    pub fn before(octets: &'a [u8], rest: &[u8]) -> Section<'a>
        requires { (front : List ℕ) × (octets.now ≡ front ++ rest.now) }
        ensures { (front : List ℕ) → octets.entry.now ≡ front ++ rest.now → IsSection result front rest.now }
    {
        Section {
            octets: &octets[..octets.len() - rest.len()],
            following: rest.len(),
        }
    }

    /// Whether the section is one of these octets.
    pub fn is_of(&self, octets: &[u8]) -> bool
        ensures { IsTrue result ↔ IsSectionOf octets.now self.now.octets.now self.now.following }
    {
        self.following <= octets.len()
            && Section::is_end(
                octets.split_at(octets.len() - self.following).0,
                self.octets,
            )
    }

    /// Keeps the section. Requires that it is one of these octets ([Section::is_of]), and that `keep` can keep parts of
    /// them.
    ///
    /// Returns `AllocError` if allocation fails.
    pub fn kept<K: Keep>(self, keep: K, octets: &[u8]) -> Result<Bytes, AllocError>
        requires held { K.holds keep octets.now }
        requires stands { IsSectionOf octets.now self.octets.now self.following }
        ensures { IfOk result (λ b. b ≡ self.entry.octets.now) }
    {
        let end = octets.len() - self.following;
        keep.keep(octets, end - self.octets.len(), end)
    }
}
