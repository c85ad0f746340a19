//! Runs over readers and writers that fail, and over a reader that comes to its end late or never.

use super::{
    ABC_KEY, FALSE_LEFT_OUT, FALSE_SPELLED, FIRST, ROUTER_NAME, Seen, USAGE_LINE, fault_rows, owned,
};
use crate::fault::{Fault, refuse};
use crate::input::{Unread, read_by};
use crate::runs::run;
use std::alloc::{AllocError, Global};
use std::io;
use std::io::{ErrorKind, Read, Write};
use std::test::Fail;

/// When a reader or a writer fails.
#[derive(Clone, Copy, Debug)]
struct Failure {
    /// How many octets it moves at a call, at most.
    most: usize,
    /// How many calls work before one that fails.
    calls: usize,
    /// How many calls fail then, before the next that works.
    failures: usize,
    /// Why they fail. A writer without an error takes no octet.
    error: Option<ErrorKind>,
}

/// No call fails.
const NEVER: Failure = Failure {
    most: usize::MAX,
    calls: usize::MAX,
    failures: 0,
    error: None,
};

/// No call works.
const BROKEN: Failure = Failure {
    most: 1,
    calls: 0,
    failures: usize::MAX,
    error: Some(ErrorKind::BrokenPipe),
};

impl Failure {
    /// The same after so many calls.
    fn after(self, calls: usize) -> Failure {
        Failure { calls, ..self }
    }

    /// Whether the next call fails.
    fn is_now(&mut self) -> bool {
        if self.calls > 0 {
            self.calls -= 1;
            return false;
        }
        let fails = self.failures > 0;
        self.failures = self.failures.saturating_sub(1);
        fails
    }
}

/// Gives a text in pieces.
#[derive(Drop)]
struct FailingReader {
    text: &'static [u8],
    failure: Failure,
}

impl Read for FailingReader {
    fn read(&mut self, buf: &mut [u8]) -> io::Result<usize> {
        if self.failure.is_now() {
            let kind = self.failure.error.unwrap_or(ErrorKind::Other);
            return Err(io::Error::from(kind));
        }
        let count = self.text.len().min(self.failure.most).min(buf.len());
        let (given, left) = self.text.split_at(count);
        buf[..count].copy_from_slice(given);
        self.text = left;
        Ok(count)
    }
}

/// Gives one octet at each call before the last one, which finds the end, and keeps the least room that it was given.
#[derive(Drop)]
struct LongReader {
    last: usize,
    calls: usize,
    least: usize,
}

impl Read for LongReader {
    fn read(&mut self, buf: &mut [u8]) -> io::Result<usize> {
        self.calls = self.calls.saturating_add(1);
        self.least = self.least.min(buf.len());
        match buf.first_mut() {
            Some(place) if self.calls < self.last => {
                *place = 0x31;
                Ok(1)
            }
            _ => Ok(0),
        }
    }
}

/// Takes octets in pieces.
#[derive(Drop)]
struct FailingWriter {
    held: Vec<u8>,
    failure: Failure,
}

impl Write for FailingWriter {
    fn write(&mut self, octets: &[u8]) -> io::Result<usize> {
        if self.failure.is_now() {
            return match self.failure.error {
                Some(kind) => Err(io::Error::from(kind)),
                None => Ok(0),
            };
        }
        let count = octets.len().min(self.failure.most);
        self.held.extend_from_slice(&octets[..count])?;
        Ok(count)
    }

    fn flush(&mut self) -> io::Result<()> {
        Ok(())
    }
}

/// A run over a reader and writers that fail so.
fn run_over_failing<R: Read>(
    alloc: Global,
    words: &[&str],
    input: &mut R,
    output: Failure,
    faults: Failure,
) -> Result<Seen, AllocError> {
    let words = owned(alloc, words)?;
    let mut output = FailingWriter {
        held: Vec::new(alloc),
        failure: output,
    };
    let mut faults = FailingWriter {
        held: Vec::new(alloc),
        failure: faults,
    };
    let status = run(alloc, words.as_slice(), input, &mut output, &mut faults);
    Ok(Seen {
        status,
        output: output.held,
        faults: faults.held,
    })
}

/// Ways to fail: once and for all, once, and by taking nothing; an octet at a call, or a piece as it comes.
const FAILURES: &[(&str, Failure)] = &[
    ("broken", BROKEN),
    (
        "an error",
        Failure {
            most: 1,
            calls: 0,
            failures: 1,
            error: Some(ErrorKind::BrokenPipe),
        },
    ),
    (
        "an interruption",
        Failure {
            most: 1,
            calls: 0,
            failures: 1,
            error: Some(ErrorKind::Interrupted),
        },
    ),
    (
        "nothing taken",
        Failure {
            most: 1,
            calls: 0,
            failures: 1,
            error: None,
        },
    ),
    (
        "an interruption of a whole piece",
        Failure {
            most: usize::MAX,
            calls: 0,
            failures: 1,
            error: Some(ErrorKind::Interrupted),
        },
    ),
    (
        "nothing taken of a whole piece",
        Failure {
            most: usize::MAX,
            calls: 0,
            failures: 1,
            error: None,
        },
    ),
];

fn failures() -> &'static [(&'static str, Failure)] {
    FAILURES
}

impl Failure {
    /// Whether a writer that fails so may hold this of the text, and fail: a part of it, and with an octet at a call
    /// as many octets as calls worked.
    fn cuts(self, held: &[u8], text: &[u8]) -> bool {
        let counted = self.most > 1 || held.len() == self.calls;
        counted && held.len() < text.len() && text.starts_with(held)
    }

    /// Whether a writer that fails so may take the whole text.
    fn passes(self, text: &[u8]) -> bool {
        let least = if self.most == 1 { text.len() } else { 1 };
        self.calls >= least
    }
}

/// Words, an input and the output.
struct Answered {
    name: &'static str,
    words: &'static [&'static str],
    input: &'static [u8],
    output: &'static [u8],
}

/// One row for each word, and one without words.
const ANSWERED: &[Answered] = &[
    Answered {
        name: "again",
        words: &["again"],
        input: FIRST,
        output: FIRST,
    },
    Answered {
        name: "data",
        words: &["data"],
        input: FIRST,
        output: &[0x30, 0x00],
    },
    Answered {
        name: "key",
        words: &["key"],
        input: ABC_KEY,
        output: b"A9993E364706816ABA3E25717850C26C9CD0D89D\n",
    },
    Answered {
        name: "uri",
        words: &["uri"],
        input: b"rSync://hOst/module/foo/bar\n",
        output: b"scheme rsync\nauthority host\nmodule module\npath foo/bar\n",
    },
    Answered {
        name: "ext",
        words: &["ext"],
        input: FALSE_SPELLED,
        output: FALSE_LEFT_OUT,
    },
    Answered {
        name: "name",
        words: &["name"],
        input: ROUTER_NAME,
        output: b"rpki no\nrouter yes\n",
    },
    Answered {
        name: "no words",
        words: &[],
        input: b"",
        output: USAGE_LINE,
    },
];

fn answered_rows() -> &'static [Answered] {
    ANSWERED
}

/// How many calls of an input that fails so find all of it and its end: one for each octet or one for all, and one
/// more.
fn calls_needed(row: &Answered, failure: Failure) -> usize {
    if failure.most == 1 {
        row.input.len().saturating_add(1)
    } else {
        2
    }
}

/// Whether the run is answered, or gives up, as it should where the input fails so. Without words no call is made.
fn is_answered_over(alloc: Global, row: &Answered, failure: Failure) -> Result<bool, AllocError> {
    let needed = calls_needed(row, failure);
    let mut reader = FailingReader {
        text: row.input,
        failure,
    };
    let seen = run_over_failing(alloc, row.words, &mut reader, NEVER, NEVER)?;
    let left = reader.failure.calls;
    if row.words.is_empty() {
        return Ok(left == failure.calls && seen.is(0, row.output, b""));
    }
    if failure.calls == needed {
        return Ok(left == 0 && seen.is(0, row.output, b""));
    }
    Ok(seen.is(1, b"", b"input could not be read\n"))
}

/// The first number of calls after which the run is not answered as it should be.
fn wrong_input(
    alloc: Global,
    row: &Answered,
    failure: Failure,
) -> Result<Option<usize>, AllocError> {
    for calls in 0..=calls_needed(row, failure) {
        if !is_answered_over(alloc, row, failure.after(calls))? {
            return Ok(Some(calls));
        }
    }
    Ok(None)
}

#[test]
fn failed_inputs(rt: HostRuntime) -> Result<(), Fail> {
    for row in answered_rows() {
        for (how, failure) in failures() {
            let wrong = wrong_input(rt.alloc(), row, *failure)?;
            assert!(rt; wrong.is_none(), "{}, {how}, {wrong:?} calls", row.name);
        }
    }
    Ok(())
}

/// Names, how often the reader may be called, the call at which it comes to its end, and how many octets are read; None
/// where no call remains to find the end. `tests/hostile` has the number of calls that the program makes.
const BOUNDS: &[(&str, u32, usize, Option<usize>)] = &[
    ("no call", 0, 1, None),
    ("one call, which finds the end", 1, 1, Some(0)),
    ("one call, and an octet", 1, 2, None),
    ("the last of two calls finds the end", 2, 2, Some(1)),
    ("two calls, and two octets", 2, 3, None),
    (
        "the last of a hundred calls finds the end",
        100,
        100,
        Some(99),
    ),
    ("a hundred calls, and a hundred octets", 100, 101, None),
    (
        "the first of a hundred calls finds the end",
        100,
        1,
        Some(0),
    ),
];

/// The rows.
fn bounds() -> &'static [(&'static str, u32, usize, Option<usize>)] {
    BOUNDS
}

/// How many octets are read, or None for `Endless`; how often the reader was called, and whether each time for 4,096
/// octets or more. None where reading ends with another error.
fn read_of_long(alloc: Global, calls: u32, last: usize) -> Option<(Option<usize>, usize, bool)> {
    let mut reader = LongReader {
        last,
        calls: 0,
        least: usize::MAX,
    };
    let octets = match read_by(alloc, calls, &mut reader) {
        Ok(all) => Some(all.len()),
        Err(Unread::Endless) => None,
        Err(_) => return None,
    };
    Some((octets, reader.calls, reader.least >= 4_096))
}

#[test]
fn the_last_read_finds_the_end(rt: HostRuntime) {
    for (name, calls, last, octets) in bounds() {
        let found = read_of_long(rt.alloc(), *calls, *last);
        let called = (*last).min(*calls as usize);
        assert!(rt; found == Some((*octets, called, true)), "{name}, {found:?}");
    }
}

/// Whether the run is answered, or gives up, as it should where the output fails so.
fn is_answered_to(alloc: Global, row: &Answered, failing: Failure) -> Result<bool, AllocError> {
    let mut reader = row.input;
    let seen = run_over_failing(alloc, row.words, &mut reader, failing, NEVER)?;
    if failing.passes(row.output) {
        return Ok(seen.is(0, row.output, b""));
    }
    let cut = failing.cuts(seen.output.as_slice(), row.output);
    let line = b"output could not be written\n".as_slice();
    Ok(cut && seen.status == 1 && seen.faults.as_slice() == line)
}

/// The first number of calls after which the run is not answered as it should be.
fn wrong_output(
    alloc: Global,
    row: &Answered,
    failure: Failure,
) -> Result<Option<usize>, AllocError> {
    for calls in 0..=row.output.len() {
        if !is_answered_to(alloc, row, failure.after(calls))? {
            return Ok(Some(calls));
        }
    }
    Ok(None)
}

#[test]
fn failed_outputs(rt: HostRuntime) -> Result<(), Fail> {
    for row in answered_rows() {
        for (how, failure) in failures() {
            let wrong = wrong_output(rt.alloc(), row, *failure)?;
            assert!(rt; wrong.is_none(), "{}, {how}, {wrong:?} calls", row.name);
        }
    }
    Ok(())
}

/// A run that is refused: the words, the input, how the input and the output fail, the status and the line.
struct Refused {
    name: &'static str,
    words: &'static [&'static str],
    input: &'static [u8],
    unread: Failure,
    unwritten: Failure,
    status: u8,
    line: &'static [u8],
}

const REFUSED: &[Refused] = &[
    Refused {
        name: "another word",
        words: &["x"],
        input: b"",
        unread: NEVER,
        unwritten: NEVER,
        status: 2,
        line: USAGE_LINE,
    },
    Refused {
        name: "again, of nothing",
        words: &["again"],
        input: b"",
        unread: NEVER,
        unwritten: NEVER,
        status: 1,
        line: b"refused 1\n",
    },
    Refused {
        name: "key, of a SET",
        words: &["key"],
        input: &[0x31, 0x00],
        unread: NEVER,
        unwritten: NEVER,
        status: 1,
        line: b"refused 4\n",
    },
    Refused {
        name: "name, of an empty name",
        words: &["name"],
        input: &[0x30, 0x00],
        unread: NEVER,
        unwritten: NEVER,
        status: 1,
        line: b"refused 5\n",
    },
    Refused {
        name: "uri, without an authority",
        words: &["uri"],
        input: b"rsync:///module/foo",
        unread: NEVER,
        unwritten: NEVER,
        status: 1,
        line: b"refused 6\n",
    },
    Refused {
        name: "data, of a broken input",
        words: &["data"],
        input: FIRST,
        unread: BROKEN,
        unwritten: NEVER,
        status: 1,
        line: b"input could not be read\n",
    },
    Refused {
        name: "data, to a broken output",
        words: &["data"],
        input: FIRST,
        unread: NEVER,
        unwritten: BROKEN,
        status: 1,
        line: b"output could not be written\n",
    },
];

fn refused_rows() -> &'static [Refused] {
    REFUSED
}

/// Whether a writer that fails so may hold this of a line, which may come in more than one piece.
fn may_hold(failing: Failure, held: &[u8], line: &[u8]) -> bool {
    let whole = failing.passes(line) && held == line;
    let cut = failing.cuts(held, line) && (failing.most > 1 || !failing.passes(line));
    whole || cut
}

/// Whether the run is refused as it should be where the line of the fault fails so.
fn is_refused(alloc: Global, row: &Refused, failing: Failure) -> Result<bool, AllocError> {
    let mut reader = FailingReader {
        text: row.input,
        failure: row.unread,
    };
    let seen = run_over_failing(alloc, row.words, &mut reader, row.unwritten, failing)?;
    let held = may_hold(failing, seen.faults.as_slice(), row.line);
    Ok(held && seen.status == row.status && seen.output.is_empty())
}

/// The first number of calls after which the run is not refused as it should be.
fn wrong_refusal(
    alloc: Global,
    row: &Refused,
    failure: Failure,
) -> Result<Option<usize>, AllocError> {
    for calls in 0..=row.line.len() {
        if !is_refused(alloc, row, failure.after(calls))? {
            return Ok(Some(calls));
        }
    }
    Ok(None)
}

#[test]
fn failed_faults(rt: HostRuntime) -> Result<(), Fail> {
    for row in refused_rows() {
        for (how, failure) in failures() {
            let wrong = wrong_refusal(rt.alloc(), row, *failure)?;
            assert!(rt; wrong.is_none(), "{}, {how}, {wrong:?} calls", row.name);
        }
    }
    Ok(())
}

/// Whether telling the fault to a writer that fails so returns the status, and leaves what it may of the line.
fn is_told(alloc: Global, fault: Fault, (status, line): (u8, &[u8]), failing: Failure) -> bool {
    let mut writer = FailingWriter {
        held: Vec::new(alloc),
        failure: failing,
    };
    let returned = refuse(&mut writer, fault);
    returned == status && may_hold(failing, writer.held.as_slice(), line)
}

/// The first number of calls after which the fault is not told as it should be.
fn wrong_fault(alloc: Global, fault: Fault, seen: (u8, &[u8]), failure: Failure) -> Option<usize> {
    for calls in 0..=seen.1.len() {
        if !is_told(alloc, fault, seen, failure.after(calls)) {
            return Some(calls);
        }
    }
    None
}

#[test]
fn each_fault_over_failing_writers(rt: HostRuntime) {
    for (name, fault, status, line) in fault_rows() {
        for (how, failure) in failures() {
            let wrong = wrong_fault(rt.alloc(), *fault, (*status, line), *failure);
            assert!(rt; wrong.is_none(), "{name}, {how}, {wrong:?} calls");
        }
    }
}
