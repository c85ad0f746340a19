//! Why a run has no result.

ghost use Rattle.std.specs.Prelude.{◌≡◌};
ghost use Rattle.rpki_der.specs.Written.{WritesOrCuts};
ghost use Rattle.rpkibasic.specs.Fault.{line, text_of, status_of};
ghost use Rattle.rpkibasic.specs.Run.{IsTold};

use crate::input::Unread;
use rpki::der::{DecodeError, write_whole};
use rpki::uri;
use std::alloc::{AllocError, AllocFailed};
use std::io;
use std::io::Write;

/// Why a run has no result.
#[derive(Clone, Copy, Debug, PartialEq, Eq)]
pub enum Fault {
    /// The words name no command.
    Usage,
    /// The input is rejected as DER.
    Refused(DecodeError),
    /// The input is rejected as a URI.
    RefusedUri(uri::Error),
    /// The contents that would be written have 2^32 octets or more, and no length announces them.
    TooLong,
    /// Allocation failed.
    OutOfMemory,
    /// The input could not be read to its end.
    Input,
    /// The output could not be written.
    Output,
}

/// The line that says how the program is used.
pub const USAGE: &[u8] = b"usage: rpkibasic again|data|key|uri|ext|name\n";

impl Fault {
    /// The exit status for it.
    pub fn status(self) -> u8
        ensures { result ≡ status_of self }
    {
        match self {
            Fault::Usage => 2,
            _ => 1,
        }
    }
}

impl From<AllocError> for Fault {
    ghost use Rattle.std.specs.Prelude.{◌≡◌};
    ghost use Rattle.rpkibasic.specs.declared.fault.Fault.TheVariants.{OutOfMemory};

    ghost from_gives = { λ _ f. f ≡ OutOfMemory };

    fn from(_e: AllocError) -> Fault {
        Fault::OutOfMemory
    }
}

impl<T: Drop> From<AllocFailed<T>> for Fault {
    ghost use Rattle.std.specs.Prelude.{◌≡◌};
    ghost use Rattle.rpkibasic.specs.declared.fault.Fault.TheVariants.{OutOfMemory};

    ghost from_gives = { λ _ f. f ≡ OutOfMemory };

    fn from(_e: AllocFailed<T>) -> Fault {
        Fault::OutOfMemory
    }
}

/// An allocation failure is a fault of its own, and no error of the input.
impl From<DecodeError> for Fault {
    ghost use Rattle.std.specs.Prelude.{◌≡◌};
    ghost use Rattle.rpkibasic.specs.Fault.{refusal};

    ghost from_gives = { λ e f. f ≡ refusal e };

    fn from(e: DecodeError) -> Fault {
        match e {
            DecodeError::OutOfMemory => Fault::OutOfMemory,
            e => Fault::Refused(e),
        }
    }
}

/// An allocation failure is a fault of its own, and no error of the input.
impl From<uri::Error> for Fault {
    ghost use Rattle.std.specs.Prelude.{◌≡◌};
    ghost use Rattle.rpkibasic.specs.Fault.{uri_refusal};

    ghost from_gives = { λ e f. f ≡ uri_refusal e };

    fn from(e: uri::Error) -> Fault {
        match e {
            uri::Error::OutOfMemory => Fault::OutOfMemory,
            e => Fault::RefusedUri(e),
        }
    }
}

/// A reader that fails, and one that never comes to its end, are one fault.
impl From<Unread> for Fault {
    ghost use Rattle.std.specs.Prelude.{◌≡◌};
    ghost use Rattle.rpkibasic.specs.Fault.{unread_fault};

    ghost from_gives = { λ unread f. f ≡ unread_fault unread };

    fn from(unread: Unread) -> Fault {
        match unread {
            Unread::Failed(_) | Unread::Endless => Fault::Input,
            Unread::OutOfMemory => Fault::OutOfMemory,
        }
    }
}

/// The line of a fault, up to the number where the input is rejected.
fn text_of(fault: Fault) -> &'static [u8]
    ensures { result.now ≡ text_of fault }
{
    match fault {
        Fault::Usage => USAGE,
        Fault::Refused(_) | Fault::RefusedUri(_) => b"refused ",
        Fault::TooLong => b"too long\n",
        Fault::OutOfMemory => b"out of memory\n",
        Fault::Input => b"input could not be read\n",
        Fault::Output => b"output could not be written\n",
    }
}

/// Writes the line of the fault.
fn tell<F: Write>(faults: &mut F, fault: Fault) -> io::Result<()>
    ensures { WritesOrCuts (F.contents faults.old) (F.contents faults.new) result (line fault) }
{
    write_whole(faults, text_of(fault))?;
    match fault {
        Fault::Refused(e) => write_whole(faults, &[b'0' + e.number(), b'\n']),
        Fault::RefusedUri(e) => write_whole(faults, &[b'0' + e.number(), b'\n']),
        Fault::Usage | Fault::TooLong | Fault::OutOfMemory | Fault::Input | Fault::Output => Ok(()),
    }
}

/// Writes the line of the fault, as far as the writer takes it, and returns the exit status.
pub fn refuse<F: Write>(faults: &mut F, fault: Fault) -> u8
    ensures told { IsTold (F.contents faults.old) (F.contents faults.new) fault }
    ensures status { result ≡ status_of fault }
{
    let _ = tell(faults, fault);
    fault.status()
}
