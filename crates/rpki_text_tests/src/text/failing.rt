//! Encoders over writers that fail.

use rpki_der::{PrimitiveContent, Values};
use rpki_text::uri::{Https, Rsync};
use rpki_text::util::base64::Slurm;
use std::alloc::Global;
use std::io;
use std::io::{ErrorKind, Write};
use std::test::Fail;

/// A writer that takes so many octets at a call, and fails after so many calls: at that one call or from there on.
#[derive(Drop)]
struct Failing {
    held: Vec<u8>,
    most: usize,
    calls: usize,
    fails_at: usize,
    once: bool,
    kind: ErrorKind,
}

impl Write for Failing {
    fn write(&mut self, octets: &[u8]) -> io::Result<usize> {
        let call = self.calls;
        self.calls = call.saturating_add(1);
        if call == self.fails_at || (call > self.fails_at && !self.once) {
            return Err(io::Error::from(self.kind));
        }
        let count = octets.len().min(self.most);
        self.held.extend_from_slice(&octets[..count])?;
        Ok(count)
    }

    fn flush(&mut self) -> io::Result<()> {
        Ok(())
    }
}

#[derive(Clone, Copy, Debug)]
enum Encoder {
    RsyncString,
    RsyncName,
    HttpsString,
    HttpsName,
    Slurm,
}

const RSYNC: &str = "rSync://hOst/module/";

const HTTPS: &str = "hTtps://h";

/// What each encoder writes, how many octets the writer takes at a call, and how many calls that makes.
const ENCODERS: [(Encoder, &[u8], usize, usize); 5] = [
    (Encoder::RsyncString, b"\x16\x14rSync://hOst/module/", 1, 22),
    (Encoder::RsyncName, b"\x86\x14rSync://hOst/module/", 1, 22),
    (Encoder::HttpsString, b"\x16\x09hTtps://h", 1, 11),
    (Encoder::HttpsName, b"\x86\x09hTtps://h", 1, 11),
    // The digits of 800 octets, written in two parts, of 1,024 and 43.
    (Encoder::Slurm, &[b'A'; 1067], 512, 3),
];

/// Writes values that fit.
fn write<V: Values>(values: &V, out: &mut Failing) -> Result<io::Result<()>, Fail> {
    if !values.fits() {
        return Err(Fail::from("too long"));
    }
    Ok(values.write_encoded(out))
}

fn encode(alloc: Global, encoder: Encoder, out: &mut Failing) -> Result<io::Result<()>, Fail> {
    let rsync = Rsync::from_str(alloc, RSYNC)?;
    let https = Https::from_str(alloc, HTTPS)?;
    match encoder {
        Encoder::RsyncString => write(&(&rsync).encode(), out),
        Encoder::RsyncName => write(&rsync.encode_general_name(), out),
        Encoder::HttpsString => write(&(&https).encode(), out),
        Encoder::HttpsName => write(&https.encode_general_name(), out),
        Encoder::Slurm => Ok(Slurm.write_encoded_slice(&[0; 800], out)),
    }
}

/// Where the writer fails: at one call of its own, or from there on.
const FAILURES: [(ErrorKind, bool); 4] = [
    (ErrorKind::BrokenPipe, false),
    (ErrorKind::BrokenPipe, true),
    (ErrorKind::Interrupted, false),
    (ErrorKind::Interrupted, true),
];

/// The writer after the encoder, and the error that the encoder returned.
fn outcome(
    alloc: Global,
    (encoder, most): (Encoder, usize),
    (kind, once): (ErrorKind, bool),
    fails_at: usize,
) -> Result<(Failing, Option<ErrorKind>), Fail> {
    let mut out = Failing {
        held: Vec::new(alloc),
        most,
        calls: 0,
        fails_at,
        once,
        kind,
    };
    match encode(alloc, encoder, &mut out)? {
        Ok(()) => Ok((out, None)),
        Err(error) => Ok((out, Some(error.kind()))),
    }
}

/// Whether the writer holds what it took before it failed and was not called again, and the encoder returned its error;
/// or, where it would fail later only, whether it holds all.
fn ends_there(
    alloc: Global,
    (encoder, octets, most, calls): (Encoder, &[u8], usize, usize),
    failure: (ErrorKind, bool),
    fails_at: usize,
) -> Result<bool, Fail> {
    let (out, error) = outcome(alloc, (encoder, most), failure, fails_at)?;
    if fails_at >= calls {
        return Ok(error.is_none() && out.held.as_slice() == octets);
    }
    let held = octets.len().min(most.saturating_mul(fails_at));
    Ok(
        error == Some(failure.0)
            && out.calls == fails_at.saturating_add(1)
            && out.held.as_slice() == &octets[..held],
    )
}

/// The first error of the writer ends the call: the writer holds what it took before, and isn't called again.
#[test]
fn encoders_end_at_the_first_error(rt: HostRuntime) -> Result<(), Fail> {
    for row in ENCODERS {
        for failure in FAILURES {
            for fails_at in 0..=row.3 {
                let ends = ends_there(rt.alloc(), row, failure, fails_at)?;
                assert!(rt; ends, "{:?} {failure:?} {fails_at}", row.0);
            }
        }
    }
    Ok(())
}
