//! A short text, which takes no memory.

ghost use Rattle.std.specs.Prelude.{◌≡◌, ◌≤◌, ◌+◌, ◌++◌, [], length};

use std::marker::Model;

/// The most octets that a text has.
const MOST: usize = 128;

/// A text of at most 128 octets.
#[derive(Drop)]
pub(crate) struct Line {
    octets: [u8; MOST],
    size: usize,
}

impl Model for Line {
    ghost use Rattle.std.specs.Prelude.{ℕ, List, ◌≤◌, take};

    ghost Value = { List ℕ };

    ghost view = { λ t. take t.size t.octets };

    ghost invariant = { λ t. t.size ≤ 128 };
}

impl Line {
    /// The empty text.
    pub(crate) fn empty() -> Line
        ensures { result ≡ [] }
    {
        Line {
            octets: [0; MOST],
            size: 0,
        }
    }

    /// The octets of the text.
    pub(crate) fn as_slice(&self) -> &[u8]
        ensures { result.now ≡ self.now }
    {
        &self.octets[..self.size]
    }

    /// Appends octets, for which there is room.
    pub(crate) fn push(&mut self, octets: &[u8])
        requires { length self.old + length octets.now ≤ 128 }
        ensures { self.new ≡ self.old ++ octets.now }
    {
        let end = self.size + octets.len();
        self.octets[self.size..end].copy_from_slice(octets);
        self.size = end;
    }
}
