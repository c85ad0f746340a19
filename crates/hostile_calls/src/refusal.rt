//! Why a call made nothing, and why a run reports no call.

use rpki::der::{DecodeError, InvalidInteger};
use rpki::uri;
use rpki::util::base64::{Base64Error, XmlDecodeError};
use std::alloc::{AllocError, AllocFailed};
use std::io;

/// Why a call made nothing.
#[derive(Clone, Copy, Debug, PartialEq, Eq, Drop)]
pub enum Refusal {
    /// The call rejected its input, with an error of this number; 0 for an error that has none.
    Refused(u8),
    /// Allocation failed.
    OutOfMemory,
    /// There is no such call, or its precondition does not hold.
    NoCall,
}

impl From<AllocError> for Refusal {
    fn from(_: AllocError) -> Refusal {
        Refusal::OutOfMemory
    }
}

impl From<DecodeError> for Refusal {
    fn from(e: DecodeError) -> Refusal {
        match e {
            DecodeError::OutOfMemory => Refusal::OutOfMemory,
            e => Refusal::Refused(e.number()),
        }
    }
}

impl From<uri::Error> for Refusal {
    fn from(e: uri::Error) -> Refusal {
        match e {
            uri::Error::OutOfMemory => Refusal::OutOfMemory,
            e => Refusal::Refused(e.number()),
        }
    }
}

impl From<InvalidInteger> for Refusal {
    fn from(e: InvalidInteger) -> Refusal {
        match e {
            InvalidInteger::OutOfMemory => Refusal::OutOfMemory,
            InvalidInteger::Empty => Refusal::Refused(0),
        }
    }
}

impl From<Base64Error> for Refusal {
    fn from(e: Base64Error) -> Refusal {
        match e {
            Base64Error::OutOfMemory => Refusal::OutOfMemory,
            Base64Error::Refused(_) => Refusal::Refused(0),
        }
    }
}

impl From<XmlDecodeError> for Refusal {
    fn from(e: XmlDecodeError) -> Refusal {
        Refusal::from(*e.cause())
    }
}

/// Why a run reports no call.
#[derive(Debug, Drop)]
pub enum Failure {
    /// The words name no call.
    Usage,
    /// The arguments of the call could not be made: they are rejected.
    Refused,
    /// Allocation failed before the call.
    OutOfMemory,
    /// The input could not be read, or the output not be written.
    Stream,
}

impl From<AllocError> for Failure {
    fn from(_: AllocError) -> Failure {
        Failure::OutOfMemory
    }
}

impl<T: Drop> From<AllocFailed<T>> for Failure {
    fn from(_: AllocFailed<T>) -> Failure {
        Failure::OutOfMemory
    }
}

impl From<io::Error> for Failure {
    fn from(e: io::Error) -> Failure {
        match e.kind() {
            io::ErrorKind::OutOfMemory => Failure::OutOfMemory,
            _ => Failure::Stream,
        }
    }
}

impl From<Refusal> for Failure {
    fn from(refusal: Refusal) -> Failure {
        match refusal {
            Refusal::OutOfMemory => Failure::OutOfMemory,
            Refusal::Refused(_) => Failure::Refused,
            Refusal::NoCall => Failure::Usage,
        }
    }
}

impl From<DecodeError> for Failure {
    fn from(e: DecodeError) -> Failure {
        Failure::from(Refusal::from(e))
    }
}

impl From<uri::Error> for Failure {
    fn from(e: uri::Error) -> Failure {
        Failure::from(Refusal::from(e))
    }
}
