//! Runs over inputs and outputs in memory.

mod failing;
mod names;
mod provider;
mod worked;

use crate::arguments::words_of;
use crate::fault::{Fault, refuse};
use crate::input::Unread;
use crate::runs::run;
use rpki::der::DecodeError;
use rpki::uri;
use std::alloc::{AllocError, Global};
use std::io;
use std::io::ErrorKind;
use std::test::Fail;

/// An algorithm identifier with parameters, an algorithm identifier without them, and the ends of signed data.
const WITH_PARAMETERS: &[u8] = &[
    0x30, 0x0d, 0x06, 0x09, 0x2a, 0x86, 0x48, 0x86, 0xf7, 0x0d, 0x01, 0x01, 0x0b, 0x05, 0x00,
];

const WITHOUT_PARAMETERS: &[u8] = &[
    0x30, 0x0b, 0x06, 0x09, 0x2a, 0x86, 0x48, 0x86, 0xf7, 0x0d, 0x01, 0x01, 0x0b,
];

/// The same two of RSA keys.
const RSA_WITH_PARAMETERS: &[u8] = &[
    0x30, 0x0d, 0x06, 0x09, 0x2a, 0x86, 0x48, 0x86, 0xf7, 0x0d, 0x01, 0x01, 0x01, 0x05, 0x00,
];

const RSA_WITHOUT_PARAMETERS: &[u8] = &[
    0x30, 0x0b, 0x06, 0x09, 0x2a, 0x86, 0x48, 0x86, 0xf7, 0x0d, 0x01, 0x01, 0x01,
];

/// Signed data with parameters, whose slice is an empty SEQUENCE and whose signature is `AA`.
const FIRST: &[u8] =
    b"\x30\x15\x30\x00\x30\x0d\x06\x09\x2a\x86\x48\x86\xf7\x0d\x01\x01\x0b\x05\x00\x03\x02\x00\xaa";

/// An RSA key whose bits are the octets `abc`.
const ABC_KEY: &[u8] =
    b"\x30\x15\x30\x0d\x06\x09\x2a\x86\x48\x86\xf7\x0d\x01\x01\x01\x05\x00\x03\x04\x00\x61\x62\x63";

/// Basic constraints that are not critical, with FALSE and without it, and critical ones.
const FALSE_SPELLED: &[u8] = &[
    0x30, 0x0c, 0x06, 0x03, 0x55, 0x1d, 0x13, 0x01, 0x01, 0x00, 0x04, 0x02, 0x30, 0x00,
];

const FALSE_LEFT_OUT: &[u8] = &[
    0x30, 0x09, 0x06, 0x03, 0x55, 0x1d, 0x13, 0x04, 0x02, 0x30, 0x00,
];

const CRITICAL: &[u8] = &[
    0x30, 0x0c, 0x06, 0x03, 0x55, 0x1d, 0x13, 0x01, 0x01, 0xff, 0x04, 0x02, 0x30, 0x00,
];

/// A name that routers alone may have: an organization name, as a UTF8String, and a common name.
const ROUTER_NAME: &[u8] = &[
    0x30, 0x18, 0x31, 0x0a, 0x30, 0x08, 0x06, 0x03, 0x55, 0x04, 0x0a, 0x0c, 0x01, 0x42, 0x31, 0x0a,
    0x30, 0x08, 0x06, 0x03, 0x55, 0x04, 0x03, 0x13, 0x01, 0x41,
];

const USAGE_LINE: &[u8] = b"usage: rpkibasic again|data|key|uri|ext|name\n";

/// What is seen of a run: the status, the output and the faults.
#[derive(Drop)]
struct Seen {
    status: u8,
    output: Vec<u8>,
    faults: Vec<u8>,
}

impl Seen {
    /// Whether this is what is seen.
    fn is(&self, status: u8, output: &[u8], faults: &[u8]) -> bool {
        self.status == status
            && self.output.as_slice() == output
            && self.faults.as_slice() == faults
    }
}

/// The words, each a text of its own.
fn owned(alloc: Global, words: &[&str]) -> Result<Vec<String>, AllocError> {
    let mut owned = Vec::new(alloc);
    for word in words {
        owned.push(String::from_str(alloc, word)?)?;
    }
    Ok(owned)
}

/// A run of these words over this input.
fn run_over(alloc: Global, words: &[&str], input: &[u8]) -> Result<Seen, AllocError> {
    let words = owned(alloc, words)?;
    let mut left = input;
    let mut output = Vec::new(alloc);
    let mut faults = Vec::new(alloc);
    let status = run(alloc, words.as_slice(), &mut left, &mut output, &mut faults);
    Ok(Seen {
        status,
        output,
        faults,
    })
}

/// The parts, in sequence.
fn joined(alloc: Global, parts: &[&[u8]]) -> Result<Vec<u8>, AllocError> {
    let mut all = Vec::new(alloc);
    for part in parts {
        all.extend_from_slice(part)?;
    }
    Ok(all)
}

/// Whether `again` says of the octets that they are cut short.
fn is_cut_short(alloc: Global, octets: &[u8]) -> Result<bool, AllocError> {
    let seen = run_over(alloc, &["again"], octets)?;
    Ok(seen.is(1, b"", b"refused 1\n"))
}

#[test]
fn proper_beginnings_are_truncated(rt: HostRuntime) -> Result<(), Fail> {
    for length in 0..FIRST.len() {
        let cut = is_cut_short(rt.alloc(), &FIRST[..length])?;
        assert!(rt; cut, "{length} octets");
    }
    Ok(())
}

/// The beginning of a URI, and so many `a` after it, the status, and the fault.
struct Long {
    name: &'static str,
    front: &'static [u8],
    times: usize,
    status: u8,
    faults: &'static [u8],
}

const LONG: &[Long] = &[
    Long {
        name: "an rsync segment of 255",
        front: b"rsync://host/module/",
        times: 255,
        status: 0,
        faults: b"",
    },
    Long {
        name: "an rsync segment of 256",
        front: b"rsync://host/module/",
        times: 256,
        status: 1,
        faults: b"refused 7\n",
    },
    Long {
        name: "an rsync URI of 3,080",
        front: b"rsync://host/module/",
        times: 3_060,
        status: 1,
        faults: b"refused 3\n",
    },
    Long {
        name: "an https authority of 255",
        front: b"https://",
        times: 255,
        status: 0,
        faults: b"",
    },
    Long {
        name: "an https authority of 256",
        front: b"https://",
        times: 256,
        status: 1,
        faults: b"refused 2\n",
    },
    Long {
        name: "an https segment of 4,096",
        front: b"https://h/",
        times: 4_096,
        status: 0,
        faults: b"",
    },
];

fn long_rows() -> &'static [Long] {
    LONG
}

/// Whether the status and the fault are those of the row.
fn is_long(alloc: Global, row: &Long) -> Result<bool, AllocError> {
    let mut uri = Vec::from_slice(alloc, row.front)?;
    for _ in 0..row.times {
        uri.push(b'a')?;
    }
    let seen = run_over(alloc, &["uri"], uri.as_slice())?;
    Ok(seen.status == row.status && seen.faults.as_slice() == row.faults)
}

#[test]
fn long_uris(rt: HostRuntime) -> Result<(), Fail> {
    for row in long_rows() {
        assert!(rt; is_long(rt.alloc(), row)?, "{}", row.name);
    }
    Ok(())
}

/// Whether signed data is read with another octet at this place. What is then written is the input, but for the count
/// of unused bits, which is written as 0.
fn is_read_with(alloc: Global, at: usize, octet: u8) -> Result<bool, Fail> {
    let mut input = Vec::from_slice(alloc, FIRST)?;
    match input.get_mut(at) {
        Some(place) if *place != octet => *place = octet,
        _ => return Ok(false),
    }
    let seen = run_over(alloc, &["again"], input.as_slice())?;
    let written = if at == 21 { FIRST } else { input.as_slice() };
    if seen.is(0, written, b"") {
        return Ok(true);
    }
    if seen.status != 1 || !seen.output.is_empty() {
        return Err(Fail::from("neither read nor refused"));
    }
    Ok(false)
}

/// How many of the 255 changes of one octet of signed data are still read.
fn read_with_another_octet(alloc: Global, at: usize) -> Result<usize, Fail> {
    let mut read = 0usize;
    for octet in 0..=255u8 {
        if is_read_with(alloc, at, octet)? {
            read = read.saturating_add(1);
        }
    }
    Ok(read)
}

#[test]
fn one_octet_changed(rt: HostRuntime) -> Result<(), Fail> {
    for at in 0..23 {
        // The tag of the slice, the count of unused bits, and the signature.
        let expected = match at {
            2 => 245,
            21 => 1,
            22 => 255,
            _ => 0,
        };
        assert_eq!(rt;
            read_with_another_octet(rt.alloc(), at)?,
            expected,
            "octet {at}"
        );
    }
    Ok(())
}

/// Each fault, its status and its line.
const FAULTS: &[(&str, Fault, u8, &[u8])] = &[
    ("usage", Fault::Usage, 2, USAGE_LINE),
    (
        "truncated octets",
        Fault::Refused(DecodeError::Truncated),
        1,
        b"refused 1\n",
    ),
    (
        "trailing octets",
        Fault::Refused(DecodeError::Trailing),
        1,
        b"refused 6\n",
    ),
    (
        "a long segment",
        Fault::RefusedUri(uri::Error::LongSegments),
        1,
        b"refused 7\n",
    ),
    ("too long", Fault::TooLong, 1, b"too long\n"),
    ("no memory", Fault::OutOfMemory, 1, b"out of memory\n"),
    ("input", Fault::Input, 1, b"input could not be read\n"),
    ("output", Fault::Output, 1, b"output could not be written\n"),
];

fn fault_rows() -> &'static [(&'static str, Fault, u8, &'static [u8])] {
    FAULTS
}

/// Whether this is the status of the fault, and telling it returns the status and writes the line.
fn is_told(alloc: Global, fault: Fault, status: u8, line: &[u8]) -> bool {
    let mut faults = Vec::new(alloc);
    let returned = refuse(&mut faults, fault);
    returned == status && fault.status() == status && faults.as_slice() == line
}

#[test]
fn fault_lines(rt: HostRuntime) {
    for (name, fault, status, line) in fault_rows() {
        assert!(rt; is_told(rt.alloc(), *fault, *status, line), "{name}");
    }
}

#[test]
fn faults_of_memory(rt: HostRuntime) {
    assert!(rt; Fault::from(DecodeError::OutOfMemory) == Fault::OutOfMemory);
    assert!(rt; Fault::from(uri::Error::OutOfMemory) == Fault::OutOfMemory);
}

#[test]
fn faults_of_unread_inputs(rt: HostRuntime) {
    let failed = Unread::Failed(io::Error::from(ErrorKind::OutOfMemory));
    assert!(rt; Fault::from(failed) == Fault::Input, "a failed read");
    assert!(rt;
        Fault::from(Unread::Endless) == Fault::Input,
        "an endless input"
    );
    assert!(rt;
        Fault::from(Unread::OutOfMemory) == Fault::OutOfMemory,
        "no memory"
    );
}

/// The program's arguments, and the words.
const ARGUMENTS: &[(&str, &[&str], &[&str])] = &[
    ("no arguments", &[], &[]),
    ("the program's name", &["rpkibasic"], &[]),
    ("a word", &["rpkibasic", "again"], &["again"]),
    ("two words", &["again", "key", "x"], &["key", "x"]),
    ("an empty word", &["", ""], &[""]),
];

fn argument_rows() -> &'static [(
    &'static str,
    &'static [&'static str],
    &'static [&'static str],
)] {
    ARGUMENTS
}

/// Whether these are the words of the arguments.
fn are_words(alloc: Global, arguments: &[&str], words: &[&str]) -> Result<bool, AllocError> {
    let given = owned(alloc, arguments)?.into_iter();
    let found = words_of(alloc, Ok(given));
    let expected = owned(alloc, words)?;
    Ok(found == Ok(expected))
}

#[test]
fn words_of_arguments(rt: HostRuntime) -> Result<(), Fail> {
    for (name, arguments, words) in argument_rows() {
        assert!(rt; are_words(rt.alloc(), arguments, words)?, "{name}");
    }
    Ok(())
}

/// Whether this is the fault where there are no arguments for this reason.
fn is_fault_of_arguments(alloc: Global, kind: ErrorKind, fault: Fault) -> bool {
    words_of(alloc, Err(io::Error::from(kind))) == Err(fault)
}

#[test]
fn faults_of_arguments(rt: HostRuntime) {
    let memory = is_fault_of_arguments(rt.alloc(), ErrorKind::OutOfMemory, Fault::OutOfMemory);
    assert!(rt; memory, "no memory");
    let text = is_fault_of_arguments(rt.alloc(), ErrorKind::InvalidData, Fault::Usage);
    assert!(rt; text, "a word that is no text");
}

/// Puts the header of a SEQUENCE of so many octets before them, in octets that are in reverse.
fn wrap_reversed(octets: &mut Vec<u8>) -> Result<(), AllocError> {
    let length = octets.len();
    if length >= 65_536 {
        return Ok(());
    }
    octets.push((length % 256) as u8)?;
    if length >= 256 {
        octets.push((length / 256) as u8)?;
        octets.push(0x82)?;
    } else if length >= 128 {
        octets.push(0x81)?;
    }
    octets.push(0x30)?;
    Ok(())
}

/// The octets in reverse.
fn reversed(alloc: Global, octets: &[u8]) -> Result<Vec<u8>, AllocError> {
    let mut all = Vec::new(alloc);
    for octet in octets.iter().rev() {
        all.push(*octet)?;
    }
    Ok(all)
}

/// Signed data of an empty SEQUENCE in 10,000 others.
fn nested(alloc: Global) -> Result<Vec<u8>, AllocError> {
    let mut octets = Vec::from_slice(alloc, &[0xaa, 0x00, 0x02, 0x03])?;
    octets.extend_from_slice(reversed(alloc, WITH_PARAMETERS)?.as_slice())?;
    let mut data = Vec::new(alloc);
    for _ in 0..10_001 {
        wrap_reversed(&mut data)?;
    }
    octets.extend_from_slice(data.as_slice())?;
    wrap_reversed(&mut octets)?;
    reversed(alloc, octets.as_slice())
}

/// Whether `again` writes the octets as they are.
fn is_written_again(alloc: Global, octets: &[u8]) -> Result<bool, AllocError> {
    let seen = run_over(alloc, &["again"], octets)?;
    Ok(seen.is(0, octets, b""))
}

#[test]
fn deep_nesting(rt: HostRuntime) -> Result<(), Fail> {
    let input = nested(rt.alloc())?;
    assert_eq!(rt; input.len(), 39_856);
    assert!(rt; is_written_again(rt.alloc(), input.as_slice())?);
    Ok(())
}
