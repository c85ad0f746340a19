//! Where a part of the caller's octets is.

ghost use Rattle.std.specs.Prelude.{◌≡◌, ◌≤◌, ◌+◌, ℕ, List};
ghost use Rattle.rpki_text.specs.Places.{IsPartAt};
ghost use Rattle.rpki_c.specs.Uri.{IsPlace};

use std::ops::Range;

/// Where a part of octets is.
#[repr(C)]
#[derive(Clone, Copy)]
pub struct Place {
    /// How many octets are before it.
    pub start: usize,
    /// How many octets it has.
    pub length: usize,
}

impl Place {
    /// Where a range of octets is. Requires that it doesn't end before it starts.
    pub(crate) fn of_range(range: Range<usize>) -> Place
        requires { range.start ≤ range.end }
        ensures part { (s part : List ℕ) → IsPartAt s range part → IsPlace s result part }
        ensures first { result.start ≡ range.start }
        ensures last { result.start + result.length ≡ range.end }
    {
        Place {
            start: range.start,
            length: range.end - range.start,
        }
    }
}
