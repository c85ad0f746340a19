//! Why work on an object ends.

use crate::reason::Reason;
use rpki::der::DecodeError;
use rpki::repository::error::ValidationError;
use rpki_cert::CertError;
use std::alloc::{AllocError, AllocFailed};

/// Why work on an object ends without a result.
#[derive(Debug, Drop)]
pub enum Stop {
    /// The object is rejected.
    Rejected(Reason),
    /// Allocation failed.
    OutOfMemory,
}

impl From<AllocError> for Stop {
    ghost use Rattle.std.specs.Prelude.{◌≡◌};
    ghost use Rattle.rpki_validation.specs.declared.stop.Stop.TheVariants.{OutOfMemory};

    ghost from_gives = { λ _ s. s ≡ OutOfMemory };

    fn from(_: AllocError) -> Stop {
        Stop::OutOfMemory
    }
}

impl<T: Drop> From<AllocFailed<T>> for Stop {
    ghost use Rattle.std.specs.Prelude.{◌≡◌};
    ghost use Rattle.rpki_validation.specs.declared.stop.Stop.TheVariants.{OutOfMemory};

    ghost from_gives = { λ _ s. s ≡ OutOfMemory };

    fn from(_: AllocFailed<T>) -> Stop {
        Stop::OutOfMemory
    }
}

impl From<DecodeError> for Stop {
    ghost use Rattle.std.specs.Prelude.{◌≡◌};
    ghost use Rattle.rpki_validation.specs.Finding.{stop_of};

    ghost from_gives = { λ e s. s ≡ stop_of e };

    fn from(e: DecodeError) -> Stop {
        match e {
            DecodeError::OutOfMemory => Stop::OutOfMemory,
            e => Stop::Rejected(Reason::Malformed(e)),
        }
    }
}

impl From<CertError> for Stop {
    ghost use Rattle.std.specs.Prelude.{◌≡◌};
    ghost use Rattle.rpki_validation.specs.Finding.{cert_stop_of};

    ghost from_gives = { λ e s. s ≡ cert_stop_of e };

    fn from(e: CertError) -> Stop {
        match e.error {
            DecodeError::OutOfMemory => Stop::OutOfMemory,
            _ => Stop::Rejected(Reason::MalformedCert(e)),
        }
    }
}

impl From<ValidationError> for Stop {
    ghost use Rattle.std.specs.Prelude.{◌≡◌};
    ghost use Rattle.rpki_validation.specs.Finding.{invalid_stop_of};

    ghost from_gives = { λ e s. s ≡ invalid_stop_of e };

    fn from(e: ValidationError) -> Stop {
        match e {
            ValidationError::Decoding(DecodeError::OutOfMemory) => Stop::OutOfMemory,
            e => Stop::Rejected(Reason::Invalid(e)),
        }
    }
}
