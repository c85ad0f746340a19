//! The input, read to its end.

ghost use Rattle.std.specs.Prelude.{◌≡◌, ◌≤◌, length, OnOk, IfOk, IfErr, IfSome};
ghost use Rattle.std.specs.Io.KnownBytes.{IsAtEnd};
ghost use Rattle.rpkibasic.specs.Input.{most_calls, most_octets, IsUnread};

use std::alloc::{AllocError, Global};
use std::io;
use std::io::Read;

/// Why an input was not read to its end.
#[derive(Clone, Copy)]
pub enum Unread {
    /// The reader failed.
    Failed(io::Error),
    /// No call of the reader found the end.
    Endless,
    /// Allocation failed.
    OutOfMemory,
}

impl From<io::Error> for Unread {
    ghost use Rattle.std.specs.Prelude.{◌≡◌};
    ghost use Rattle.rpkibasic.specs.declared.input.Unread.TheVariants.{Failed};

    ghost from_gives = { λ e unread. unread ≡ Failed e };

    fn from(e: io::Error) -> Unread {
        Unread::Failed(e)
    }
}

impl From<AllocError> for Unread {
    ghost use Rattle.std.specs.Prelude.{◌≡◌};
    ghost use Rattle.rpkibasic.specs.declared.input.Unread.TheVariants.{OutOfMemory};

    ghost from_gives = { λ _ unread. unread ≡ OutOfMemory };

    fn from(_: AllocError) -> Unread {
        Unread::OutOfMemory
    }
}

/// How often the reader is called at most.
const CALLS: u32 = 16_777_216;

/// All of the input.
///
/// Returns `Failed` if the reader fails; `Endless` if it has not come to its end after 16,777,216 calls; `OutOfMemory`
/// if allocation fails.
pub fn read_all<R: Read>(alloc: Global, input: &mut R) -> Result<Vec<u8>, Unread>
    ensures whole { IfOk result (λ v. IfSome (R.remaining input.old) (λ octets. v.items ≡ octets)) }
    ensures end { OnOk result (IsAtEnd (R.remaining input.new)) }
    ensures most { IfOk result (λ v. length v.items ≤ most_octets most_calls) }
    ensures unread { IfErr result (λ why. IfSome (R.remaining input.old) (λ octets. IsUnread most_calls octets why)) }
{
    read_by(alloc, CALLS, input)
}

/// All of the input, by so many calls of the reader at most, each for 65,536 octets.
///
/// The errors are those of [read_all]; `Endless` if the reader has not come to its end after so many calls.
pub fn read_by<R: Read>(alloc: Global, calls: u32, input: &mut R) -> Result<Vec<u8>, Unread>
    ensures whole { IfOk result (λ v. IfSome (R.remaining input.old) (λ octets. v.items ≡ octets)) }
    ensures end { OnOk result (IsAtEnd (R.remaining input.new)) }
    ensures most { IfOk result (λ v. length v.items ≤ most_octets calls) }
    ensures unread { IfErr result (λ why. IfSome (R.remaining input.old) (λ octets. IsUnread calls octets why)) }
{
    let mut all = Vec::new(alloc);
    let mut buffer = [0u8; 65_536];
    for _ in 0..calls {
        match input.read(&mut buffer)? {
            0 => return Ok(all),
            n => all.extend_from_slice(&buffer[..n])?,
        }
    }
    Err(Unread::Endless)
}
