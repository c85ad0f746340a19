//! Lines that report what is seen of a call. Reporting allocates nothing.

use crate::made::{Made, Outcome};
use crate::refusal::Refusal;
use rpki::der::{Header, Values};
use rpki::util::hex::encode_u8;
use std::io::{ErrorKind, Stdout, Write};
use std::{fmt, io};

/// How many octets are written in one piece, as digits.
const PIECE: usize = 2_048;

/// Writes each octet as two hexadecimal digits.
#[derive(Clone, Copy)]
pub struct Digits {
    out: Stdout,
}

impl Write for Digits {
    fn write(&mut self, octets: &[u8]) -> io::Result<usize> {
        let count = octets.len().min(PIECE);
        let mut digits = [0u8; 2 * PIECE];
        for at in 0..count {
            let [high, low] = encode_u8(octets[at]);
            digits[2 * at] = high;
            digits[2 * at + 1] = low;
        }
        self.out.write_all(&digits[..2 * count])?;
        Ok(count)
    }

    fn flush(&mut self) -> io::Result<()> {
        Ok(())
    }
}

/// Reports what is seen of a call, a line each: a word, and mostly a value.
#[derive(Clone, Copy)]
pub struct Report {
    out: Stdout,
}

impl Report {
    /// The report that goes there.
    pub fn new(out: Stdout) -> Report {
        Report { out }
    }

    /// A line of words.
    pub fn words(&self, words: &str) -> io::Result<()> {
        let mut out = self.out;
        writeln!(out, "{words}")
    }

    /// A line of a word and what is shown of a value.
    pub fn shown<T: fmt::Display>(&self, word: &str, value: &T) -> io::Result<()> {
        let mut out = self.out;
        writeln!(out, "{word} {value}")
    }

    /// A line of a word and a number.
    pub fn number(&self, word: &str, number: u64) -> io::Result<()> {
        let mut out = self.out;
        writeln!(out, "{word} {number}")
    }

    /// A line of a word and octets, in hexadecimal.
    pub fn octets(&self, word: &str, octets: &[u8]) -> io::Result<()> {
        let mut out = self.out;
        write!(out, "{word} ")?;
        Digits { out }.write_all(octets)?;
        out.write_all(b"\n")
    }

    /// A line of a word and the octets that are written of values; `long` in their place where they do not fit.
    pub fn values<V: Values>(&self, word: &str, values: &V) -> io::Result<()> {
        let mut out = self.out;
        write!(out, "{word} ")?;
        if values.fits() {
            values.write_encoded(&mut Digits { out })?;
        } else {
            out.write_all(b"long")?;
        }
        out.write_all(b"\n")
    }

    /// The lines of a header.
    pub fn header(&self, header: &Header) -> io::Result<()> {
        let mut out = self.out;
        let class = header.tag.class();
        let number = header.tag.number();
        let constructed = header.constructed;
        let length = header.length;
        writeln!(out, "made {class:?} {number} {constructed} {length}")
    }

    /// The line of a writer: which, at which call it fails, how often it was called, how the encoder ended, and the
    /// octets that the writer holds.
    pub fn writer(
        &self,
        (number, at, calls): (u64, u64, u64),
        error: Option<ErrorKind>,
        held: &[u8],
    ) -> io::Result<()> {
        let mut out = self.out;
        match error {
            Some(kind) => write!(out, "{number} {at} {calls} {kind:?} ")?,
            None => write!(out, "{number} {at} {calls} done ")?,
        }
        Digits { out }.write_all(held)?;
        out.write_all(b"\n")
    }

    /// The line of an error.
    pub fn refused(&self, refusal: Refusal) -> io::Result<()> {
        match refusal {
            Refusal::Refused(number) => self.number("refused", u64::from(number)),
            Refusal::OutOfMemory => self.words("out of memory"),
            Refusal::NoCall => self.words("no such call"),
        }
    }

    /// The line of what a call made.
    pub fn made(&self, made: &Made) -> io::Result<()> {
        match made {
            Made::Nothing => self.words("nothing"),
            Made::Done => self.words("done"),
            Made::Octets(octets) => self.octets("made", octets.as_slice()),
            Made::Data(octets) => self.octets("made", octets.as_slice()),
            Made::Text(text) => self.octets("made", text.as_bytes()),
            Made::Rsync(uri) => self.octets("made", uri.as_slice()),
            Made::Https(uri) => self.octets("made", uri.as_slice()),
            Made::Captured(values) => self.values("made", &values),
            Made::Size(size) => self.number("size", *size as u64),
            Made::Index(size, entries) => {
                self.number("size", *size as u64)?;
                self.number("entries", entries.len() as u64)
            }
            Made::Bits(bits) => self.values("made", &bits.encode_ref()),
            Made::Key(key) => self.values("made", &key.encode_ref()),
            Made::Name(name) => self.values("made", &name.encode_ref()),
            Made::Extension(extension) => self.values("made", &extension.encode_ref()),
            Made::Signed(signed) => self.values("made", &signed.encode_ref()),
            Made::Signature(signature) => self.octets("made", signature.value().as_slice()),
        }
    }

    /// The line of what a call made, or of its error.
    pub fn outcome(&self, outcome: Outcome) -> io::Result<()> {
        match outcome {
            Ok(made) => self.made(&made),
            Err(refusal) => self.refused(refusal),
        }
    }
}
