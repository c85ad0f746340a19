//! Files, read to their end.

ghost use Rattle.std.specs.Prelude.{IfSome};
ghost use Rattle.rpkicert.specs.Outcome.{IsReadFrom};
ghost use Rattle.rpkicert.specs.View.{read_of};

use crate::fault::{Cause, Fault};
use std::alloc::Global;
use std::io::Read;

/// How many octets a file has at most.
const MOST: usize = 4_000_000;

/// All that the reader has left.
///
/// Returns `TooLarge` if that is more than 4,000,000 octets; `Unreadable` if the reader fails; `OutOfMemory` if
/// allocation fails.
pub fn read_whole<R: Read>(alloc: Global, input: &mut R) -> Result<Vec<u8>, Fault>
    ensures { IfSome (R.remaining input.old) (λ octets. IsReadFrom octets (read_of result)) }
{
    let mut all = Vec::new(alloc);
    let mut buffer = [0u8; 4096];
    for _ in 0..4_000_001u32 {
        match input.read(&mut buffer) {
            Ok(0) => return Ok(all),
            Ok(n) => {
                if n > MOST - all.len() {
                    return Err(Fault::TooLarge);
                }
                all.extend_from_slice(&buffer[..n])?;
            }
            Err(e) => return Err(Fault::Unreadable(Cause::of(e.kind()))),
        }
    }
    Err(Fault::TooLarge)
}
