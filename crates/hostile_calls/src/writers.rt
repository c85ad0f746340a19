//! Encoders over writers that fail.

use crate::refusal::Failure;
use crate::report::Report;
use rpki::der::Values;
use std::alloc::Global;
use std::io;
use std::io::{ErrorKind, Write};

/// How a writer works, and how it fails.
#[derive(Clone, Copy, Debug)]
pub struct Way {
    /// How many octets it takes at a call, at most.
    most: usize,
    /// Why a call fails. A writer without an error takes no octet.
    error: Option<ErrorKind>,
    /// Whether one call fails and those after it work, or all from that one on fail.
    once: bool,
}

impl Way {
    /// The way of this number, of twelve; None past the last. The first six take an octet at a call, and of each six
    /// the first three fail once: by a broken pipe, by an interruption, and by taking nothing.
    fn of_number(number: u64) -> Option<Way> {
        let error = match number % 3 {
            0 => Some(ErrorKind::BrokenPipe),
            1 => Some(ErrorKind::Interrupted),
            _ => None,
        };
        if number >= 12 {
            return None;
        }
        Some(Way {
            most: if number < 6 { 1 } else { usize::MAX },
            error,
            once: number % 6 < 3,
        })
    }
}

/// Takes octets in pieces, and fails.
#[derive(Drop)]
struct Failing {
    held: Vec<u8>,
    way: Way,
    /// How many calls there were.
    calls: u64,
    /// How many calls work before one that fails.
    at: u64,
}

impl Write for Failing {
    fn write(&mut self, octets: &[u8]) -> io::Result<usize> {
        let call = self.calls;
        self.calls = call.saturating_add(1);
        if call == self.at || (call > self.at && !self.way.once) {
            return match self.way.error {
                Some(kind) => Err(io::Error::from(kind)),
                None => Ok(0),
            };
        }
        let count = octets.len().min(self.way.most);
        self.held.extend_from_slice(&octets[..count])?;
        Ok(count)
    }

    fn flush(&mut self) -> io::Result<()> {
        Ok(())
    }
}

/// What a writer holds that fails at this call, and whether it failed, reported in a line.
fn tell_one<V: Values>(
    alloc: Global,
    report: Report,
    values: &V,
    (number, way): (u64, Way),
    at: u64,
) -> Result<bool, Failure> {
    if !values.fits() {
        return Err(Failure::Refused);
    }
    let mut out = Failing {
        held: Vec::new(alloc),
        way,
        calls: 0,
        at,
    };
    let error = match values.write_encoded(&mut out) {
        Ok(()) => None,
        Err(e) => Some(e.kind()),
    };
    report.writer((number, at, out.calls), error, out.held.as_slice())?;
    Ok(error.is_some())
}

/// Writes the values to a writer that fails at its first call, at its second, and so on until none fails, in each way;
/// and reports each time what it holds then.
pub fn tell<V: Values>(alloc: Global, report: Report, values: &V) -> Result<(), Failure> {
    for number in 0..u64::MAX {
        let Some(way) = Way::of_number(number) else {
            break;
        };
        for at in 0..u64::MAX {
            if !tell_one(alloc, report, values, (number, way), at)? {
                break;
            }
        }
    }
    Ok(())
}
