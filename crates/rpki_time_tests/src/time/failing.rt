//! Encoders over writers that fail once, and would work again after it.

use super::*;
use std::io::Write;

/// Takes at most so many octets at a call. The call after so many calls fails, with an error of this kind or by taking
/// nothing, and those after that one take octets again.
#[derive(Drop)]
pub struct FailsOnce {
    held: Vec<u8>,
    most: usize,
    calls: usize,
    error: Option<ErrorKind>,
    has_failed: bool,
}

impl FailsOnce {
    /// A writer that takes all, and does not fail.
    pub fn never(alloc: Global) -> FailsOnce {
        FailsOnce {
            held: Vec::new(alloc),
            most: usize::MAX,
            calls: usize::MAX,
            error: None,
            has_failed: false,
        }
    }

    /// Whether no call failed, and it holds these octets.
    pub fn has_written(&self, octets: &[u8]) -> bool {
        !self.has_failed && self.held.as_slice() == octets
    }

    /// Whether a call failed, it holds a beginning of these octets and not all of them, and this is the error.
    fn has_failed(&self, octets: &[u8], error: io::Error) -> bool {
        let held = self.held.as_slice();
        self.has_failed
            && held.len() < octets.len()
            && octets.starts_with(held)
            && error.kind() == self.error.unwrap_or(ErrorKind::WriteZero)
    }
}

impl Write for FailsOnce {
    fn write(&mut self, octets: &[u8]) -> io::Result<usize> {
        if self.calls == 0 && !self.has_failed {
            self.has_failed = true;
            return match self.error {
                Some(kind) => Err(io::Error::from(kind)),
                None => Ok(0),
            };
        }
        self.calls = self.calls.saturating_sub(1);
        let count = octets.len().min(self.most);
        self.held.extend_from_slice(&octets[..count])?;
        Ok(count)
    }

    fn flush(&mut self) -> io::Result<()> {
        Ok(())
    }
}

/// How many octets the writer takes at a call, and how it fails.
const FAILURES: [(usize, Option<ErrorKind>); 5] = [
    (1, Some(ErrorKind::BrokenPipe)),
    (1, Some(ErrorKind::Interrupted)),
    (1, None),
    (usize::MAX, Some(ErrorKind::Interrupted)),
    (usize::MAX, None),
];

/// Whether a writer that fails after so many calls ends the call and holds a beginning of the octets, or does not fail
/// and holds all.
fn ends_there(
    alloc: Global,
    (written, expected): (Written, &[u8]),
    (most, error): (usize, Option<ErrorKind>),
    calls: usize,
) -> bool {
    // A value of n octets takes n calls of one octet, or at least one call.
    let least = if most == 1 { expected.len() } else { 1 };
    let mut out = FailsOnce {
        most,
        calls,
        error,
        ..FailsOnce::never(alloc)
    };
    match write_to(alloc, &mut out, written) {
        Ok(_) => calls >= least && out.has_written(expected),
        Err(e) => {
            let one_by_one = most > 1 || out.held.len() == calls;
            calls < expected.len() && one_by_one && out.has_failed(expected, e)
        }
    }
}

/// The same after each number of calls: the first after which it is not so.
fn first_fault(
    alloc: Global,
    row: (Written, &[u8]),
    failure: (usize, Option<ErrorKind>),
) -> Option<usize> {
    (0..=row.1.len()).find(|calls| !ends_there(alloc, row, failure, *calls))
}

#[test]
fn a_failed_writer_holds_a_beginning(rt: HostRuntime) {
    for (name, written, expected) in WRITTEN {
        for (case, failure) in FAILURES.iter().enumerate() {
            let fault = first_fault(rt.alloc(), (*written, expected), *failure);
            assert!(rt; fault.is_none(), "{name}, failure {case}, calls {fault:?}");
        }
    }
}
