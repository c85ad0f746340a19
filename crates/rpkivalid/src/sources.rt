//! What a run reads.

use bytes::Bytes;
use rpki::repository::x509::Time;
use std::alloc::{AllocError, Global};

/// Files by their paths, and a clock.
pub trait Sources {
    ghost use Rattle.std.specs.Prelude.{◌≡◌, [], ℕ, List, Option, true, IfSome, IfOk};
    ghost use Rattle.jiff.specs.Types.{DateTime};

    // What there is by a path: the octets, or None where there is no file; or nothing is said of it.
    ghost holds: { Self → Option (List ℕ → Option (List ℕ)) };

    // The moment that the clock has, or None where there is no clock; or nothing is said of it.
    ghost clock: { Self → Option (Option DateTime) };

    /// The octets of the file at the path; None where there is none, or it can't be read.
    ///
    /// Returns `AllocError` if allocation fails.
    fn read(&self, alloc: Global, path: &str) -> Result<Option<Bytes>, AllocError>
        ensures { IfSome (holds self.now) (λ files. IfOk result (λ found. found ≡ files path.now)) };

    /// The same, of a file in the folder of a copy, or below it: None also where what is there is none of the copy.
    ///
    /// Returns `AllocError` if allocation fails.
    fn read_in(&self, alloc: Global, folder: &str, path: &str) -> Result<Option<Bytes>, AllocError>
        ensures { IfSome (holds self.now) (λ files. IfOk result (λ found. found ≡ files path.now)) };

    /// The same, of a file that may be larger than an object of a repository: what another validator wrote.
    ///
    /// Returns `AllocError` if allocation fails.
    fn read_large(&self, alloc: Global, path: &str) -> Result<Option<Bytes>, AllocError>
        ensures { IfSome (holds self.now) (λ files. IfOk result (λ found. found ≡ files path.now)) };

    /// Whether each file that is there could be read, until now.
    fn is_read(&self) -> bool
        ensures { IfSome (holds self.now) (λ _. result ≡ true) };

    /// Lines that say what was there and could not be read, until now, each with its path.
    ///
    /// Returns `AllocError` if allocation fails.
    fn unread(&self, alloc: Global) -> Result<Vec<u8>, AllocError>
        ensures { IfSome (holds self.now) (λ _. IfOk result (λ lines. lines.items ≡ [])) };

    /// How many seconds it took until now, whole ones.
    fn seconds(&self) -> u64;

    /// The moment that the clock has. None where it has none of the years 0 to 9999.
    fn now(&self) -> Option<Time>
        ensures { IfSome (clock self.now) (λ at. result ≡ at) };
}
