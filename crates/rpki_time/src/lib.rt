//! Serial numbers, times and validity periods, as certificates have them (RFC 5280 4.1.2.2, 4.1.2.5).
//!
//! `Serial::take_from`, `Time::take_from` and `Validity::take_from` read them from a cursor of `rpki_der`.
//! `crates/rpki_examples/src/revoked.rt` reads the first two; docs/CALLING.md explains it.
#![tactic(auto)]

mod decimal;
pub mod laws;
mod serial;
mod text;
mod time;
mod time_encoder;
mod time_reader;
mod validity;

pub use decimal::{RepresentationError, SerialText};
pub use serial::{Serial, SerialSliceError};
pub use time::{Time, TimeParseError};
pub use time_encoder::{GeneralizedTime, UtcTime, VariedTime};
pub use validity::{Validity, ValidityPeriodError};
