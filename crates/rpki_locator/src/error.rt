//! Why a text is no locator.

use rpki::der::DecodeError;
use std::alloc::AllocError;

/// Why a text is no trust anchor locator (RFC 8630 2.2). Lines are counted from 1.
#[derive(Clone, Copy, Debug, Drop)]
pub enum LocatorError {
    /// A line in front of the empty one is neither a comment nor a URI of a single object: the first such line.
    OtherUri(usize),
    /// No URI follows the comments: the line where one is due.
    NoUri(usize),
    /// No empty line follows the URIs: the line where it is due.
    NoKey(usize),
    /// What follows the empty line is no base 64: the line where it begins.
    OtherText(usize),
    /// What that stands for is no public key: the line where it begins, and why.
    OtherKey(usize, DecodeError),
    /// Allocation failed.
    OutOfMemory,
}

impl From<AllocError> for LocatorError {
    ghost from_gives = { λ _ e. e ≡ OutOfMemory };

    ghost use Rattle.std.specs.Prelude.{◌≡◌};
    ghost use Rattle.rpki_locator.specs.declared.error.LocatorError.TheVariants.{OutOfMemory};

    fn from(_: AllocError) -> LocatorError {
        LocatorError::OutOfMemory
    }
}
