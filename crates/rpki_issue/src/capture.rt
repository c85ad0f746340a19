//! Octets that were written, as captured values.

ghost use Rattle.std.specs.Prelude.{◌≡◌, ◌<◌, ◌^◌, [], true, length, IfOk, IfErr};
ghost use Rattle.rpki_der.specs.Prelude.{left, sequence, tlv, AreValues};
ghost use Rattle.rpki_issue.specs.declared.error.IssueError.TheVariants.{OutOfMemory};
ghost use Rattle.rpki_issue.specs.Written.{IsKeyedRefusal};

use crate::error::IssueError;
use rpki::der::{Captured, Constructed, DecodeError, Sequence};
use std::alloc::Global;

/// Moves past all of the octets.
fn take_all(cons: &mut Constructed<'_>) -> Result<(), DecodeError>
    ensures { left cons.new ≡ [] }
{
    *cons = Constructed::from_slice(&[]);
    Ok(())
}

/// The octets, which are values, captured.
///
/// The error is `OutOfMemory`, if allocation fails.
pub(crate) fn capture(alloc: Global, octets: &[u8]) -> Result<Captured, IssueError>
    ensures ok { IfOk result (λ c. c ≡ octets.now) }
    ensures err { IfErr result (λ e. e ≡ OutOfMemory) }
{
    let mut cons = Constructed::from_slice(octets);
    match cons.capture(alloc, |cons| take_all(cons)) {
        Ok(captured) => Ok(captured),
        Err(_) => Err(IssueError::OutOfMemory),
    }
}

/// A SEQUENCE of the octets, which are values, captured.
///
/// The errors are `TooLong` for 2^32 octets or more, and `OutOfMemory` if allocation fails.
pub(crate) fn capture_sequence(alloc: Global, contents: &[u8]) -> Result<Captured, IssueError>
    ensures ok { IfOk result (λ c. c ≡ tlv sequence true contents.now) }
    ensures one { IfOk result (λ c. AreValues 1 c) }
    ensures few { IfOk result (λ _. length contents.now < 2 ^ 32) }
    ensures err { IfErr result (λ e. IsKeyedRefusal (length contents.now < 2 ^ 32) e) }
{
    if contents.len() >= 1 << 32 {
        return Err(IssueError::TooLong);
    }
    let captured = capture(alloc, contents)?;
    // its clause says that they are values
    let _ = captured.values();
    match Captured::from_values(alloc, &Sequence::new(&captured)) {
        Ok(octets) => Ok(octets),
        Err(_) => Err(IssueError::OutOfMemory),
    }
}
