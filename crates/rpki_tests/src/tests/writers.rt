//! Writers that fail once.

use super::algorithms::{WRITINGS, write};
use super::identifiers::SPELLED;
use super::keys::{KEY_OF_ABC, SUBJECT, decoded};
use super::names::name_by;
use super::signed_data::SIGNED;
use super::{Always, DIGEST_OF_ABC, signed_data};
use bytes::Bytes;
use rpki::crypto::KeyIdentifier;
use rpki::oid;
use rpki::repository::x509::encode_extension;
use rpki_der::{Primitive, PrimitiveContent, Sequence, Values};
use rpki_der_tests::hexadecimal::octets_of;
use std::alloc::Global;
use std::io;
use std::io::{ErrorKind, Write};
use std::test::Fail;

/// At which call a writer fails, and how.
#[derive(Clone, Copy, Debug)]
pub(super) struct Fault {
    at: usize,
    kind: ErrorKind,
}

/// That of a writer that doesn't fail.
pub(super) const NO_FAULT: Fault = Fault {
    at: usize::MAX,
    kind: ErrorKind::Other,
};

/// Fails at one call, and takes an octet at each other one.
#[derive(Drop)]
struct FailingOnce {
    held: Vec<u8>,
    calls: usize,
    fault: Fault,
}

impl Write for FailingOnce {
    fn write(&mut self, octets: &[u8]) -> io::Result<usize> {
        let call = self.calls;
        self.calls = call.saturating_add(1);
        if call == self.fault.at {
            return Err(io::Error::from(self.fault.kind));
        }
        let count = octets.len().min(1);
        self.held.extend_from_slice(&octets[..count])?;
        Ok(count)
    }

    fn flush(&mut self) -> io::Result<()> {
        Ok(())
    }
}

/// What a writer holds after a call, how often it was called, and why the call failed.
#[derive(Drop)]
pub(super) struct Ended {
    pub octets: Bytes,
    calls: usize,
    error: Option<ErrorKind>,
}

/// Writes the values to a writer that fails so.
pub(super) fn written_until<V: Values>(
    alloc: Global,
    fault: Fault,
    values: &V,
) -> Result<Ended, Fail> {
    if !values.fits() {
        return Err(Fail::from("too long"));
    }
    let mut out = FailingOnce {
        held: Vec::new(alloc),
        calls: 0,
        fault,
    };
    let error = values.write_encoded(&mut out).err().map(|e| e.kind());
    Ok(Ended {
        calls: out.calls,
        octets: Bytes::from_vec(out.held)?,
        error,
    })
}

/// Whether the call ended at the failure, with its kind, and left what the earlier calls took; or, where there was no
/// such call, wrote everything.
fn is_ended(ended: &Ended, fault: Fault, expected: &[u8]) -> bool {
    let (held, calls, error) = if fault.at < expected.len() {
        (&expected[..fault.at], fault.at + 1, Some(fault.kind))
    } else {
        (expected, expected.len(), None)
    };
    ended.octets.as_slice() == held && ended.calls == calls && ended.error == error
}

const KINDS: [ErrorKind; 3] = [
    ErrorKind::Interrupted,
    ErrorKind::WouldBlock,
    ErrorKind::BrokenPipe,
];

#[test]
fn a_fault_ends_the_writing_of_an_algorithm(rt: HostRuntime) -> Result<(), Fail> {
    for (writer, expected) in WRITINGS {
        let expected = octets_of(rt.alloc(), expected)?;
        for kind in KINDS {
            for at in 0..=expected.len() {
                let fault = Fault { at, kind };
                let ended = write(rt.alloc(), fault, *writer)?;
                assert!(rt; is_ended(&ended, fault, &expected), "{writer:?}, {fault:?}");
            }
        }
    }
    Ok(())
}

#[derive(Clone, Copy, Debug)]
enum Encoder {
    Key,
    BorrowedKey,
    Subject,
    Identifier,
    Name,
    Extension,
    Signed,
}

/// Basic constraints of no authority, as a critical extension.
const CONSTRAINTS: &str = "300c0603551d130101ff04023000";

const ENCODERS: &[(Encoder, &str)] = &[
    (Encoder::Key, KEY_OF_ABC),
    (Encoder::BorrowedKey, KEY_OF_ABC),
    (Encoder::Subject, SUBJECT),
    (Encoder::Identifier, SPELLED),
    (Encoder::Name, SUBJECT),
    (Encoder::Extension, CONSTRAINTS),
    (Encoder::Signed, SIGNED),
];

/// What the encoder writes.
fn encoded(alloc: Global, fault: Fault, encoder: Encoder) -> Result<Ended, Fail> {
    let key = decoded(alloc, KEY_OF_ABC)?;
    match encoder {
        Encoder::Key => written_until(alloc, fault, &key.encode()),
        Encoder::BorrowedKey => written_until(alloc, fault, &key.encode_ref()),
        Encoder::Subject => {
            let encoder = key.encode_subject_name(&Always { answer: true });
            written_until(alloc, fault, &encoder)
        }
        Encoder::Identifier => {
            written_until(alloc, fault, &KeyIdentifier::from(DIGEST_OF_ABC).encode())
        }
        Encoder::Name => written_until(alloc, fault, &name_by(alloc, SUBJECT)?.encode_ref()),
        Encoder::Extension => {
            let constraints = Sequence::new(None::<Primitive<()>>);
            let extension = encode_extension(oid::CE_BASIC_CONSTRAINTS, true, constraints);
            written_until(alloc, fault, &extension)
        }
        Encoder::Signed => {
            let signed = signed_data::decoded(alloc, SIGNED)?;
            written_until(alloc, fault, &signed.encode_ref())
        }
    }
}

#[test]
fn a_fault_ends_the_writing_of_a_value(rt: HostRuntime) -> Result<(), Fail> {
    for (encoder, expected) in ENCODERS {
        let expected = octets_of(rt.alloc(), expected)?;
        for kind in KINDS {
            for at in 0..=expected.len() {
                let fault = Fault { at, kind };
                let ended = encoded(rt.alloc(), fault, *encoder)?;
                let is_ended = is_ended(&ended, fault, &expected);
                assert!(rt; is_ended, "{encoder:?}, {fault:?}");
            }
        }
    }
    Ok(())
}
