//! Lists of values that can be written.

ghost use Rattle.std.specs.Prelude.{◌≡◌, ℕ, List, ◌<◌, ◌^◌, ◌↔◌, length, IsTrue};
ghost use Rattle.rpki_der.specs.Written.{Writes};
ghost use Rattle.rpki_der.specs.Members.{AreValues, IsValueList};
ghost use Rattle.rpki_der.specs.Tree.{Tree, tree_octets, IsShortTree};

use std::io;
use std::io::Write;

/// A list of well-formed values that can be written.
///
/// `fits` is the precondition of the other three methods: a length announces fewer than 2^32 octets of contents, and
/// what is written as a whole has fewer than 2^63 octets.
pub trait Values {
    /// What is written, as a tree of values. The laws at the end say that the octets are its octets, and that "short"
    /// is said of each value in it.
    ghost tree: { Self → Tree };

    /// The octets that are written.
    ghost encoded: { Self → List ℕ };

    /// Each value, at each depth, has contents of fewer than 2^32 octets.
    ghost is_short: { Self → Type 0 };

    /// Whether the values can be written: each value, at each depth, has contents of fewer than 2^32 octets, and all
    /// together have fewer than 2^63.
    fn fits(&self) -> bool
        ensures { IsTrue result ↔ (is_short self.now × (length (encoded self.now) < 2 ^ 63)) };

    /// How many values are written, not counting nested values. Requires that they fit.
    fn count(&self) -> u64
        requires { is_short self.now × (length (encoded self.now) < 2 ^ 63) }
        ensures { AreValues result (encoded self.now) };

    /// How many octets are written. Requires that the values fit.
    fn encoded_len(&self) -> u64
        requires { is_short self.now × (length (encoded self.now) < 2 ^ 63) }
        ensures { result ≡ length (encoded self.now) };

    /// Writes the values. Requires that they fit.
    ///
    /// The first error of the writer ends the call and is returned; a write of 0 octets is an error of the kind
    /// `WriteZero`. After an error the writer has received a prefix of the octets.
    fn write_encoded<W: Write>(&self, out: &mut W) -> Result<(), io::Error>
        requires { is_short self.now × (length (encoded self.now) < 2 ^ 63) }
        ensures { Writes (W.contents out.old) (W.contents out.new) result (encoded self.now) };

    /// The octets that are written are those of the tree.
    ghost spelled: { (x : Self) → encoded x ≡ tree_octets (tree x) };

    /// Each value, at each depth, has contents of fewer than 2^32 octets exactly where each value of the tree has.
    ghost measured: { (x : Self) → is_short x ↔ IsShortTree (tree x) };

    /// What is written are values, in sequence.
    ghost are_values: { (x : Self) → is_short x → IsValueList (encoded x) };
}
