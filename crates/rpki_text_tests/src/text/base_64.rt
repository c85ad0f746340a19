//! Base 64.

use super::shown;
use rpki_text::util::base64::{
    Base64Error, DecodeError, DecodeSliceError, Serde, Slurm, Xml, XmlDecodeError,
};
use std::alloc::Global;
use std::error::Error;
use std::io;
use std::test::Fail;

/// What a text is decoded to: the octets, or why it is rejected.
type Decoded = Result<&'static [u8], DecodeError>;

/// Whether this is what was decoded.
fn is_decoded(read: Result<Vec<u8>, Base64Error>, want: Decoded) -> bool {
    match (read, want) {
        (Ok(octets), Ok(want)) => octets.as_slice() == want,
        (Err(Base64Error::Refused(error)), Err(want)) => error == want,
        _ => false,
    }
}

/// The same of XML.
fn is_decoded_xml(read: Result<Vec<u8>, XmlDecodeError>, want: Decoded) -> bool {
    match read {
        Ok(octets) => is_decoded(Ok(octets), want),
        Err(error) => is_decoded(Err(*error.cause()), want),
    }
}

const XML_TEXTS: [(&str, Decoded); 10] = [
    ("Zm9v\n YmFy", Ok(b"foobar")),
    ("Zm9v", Ok(b"foo")),
    ("", Ok(b"")),
    (" \t\n\x0C\r", Ok(b"")),
    ("Zg==", Ok(b"f")),
    ("Z g\n= =", Ok(b"f")),
    ("Zg", Err(DecodeError::InvalidPadding)),
    ("Zm 9v\n!", Err(DecodeError::InvalidByte(4, 33))),
    ("-_8=", Err(DecodeError::InvalidByte(0, 45))),
    (" Z\u{e9}", Err(DecodeError::InvalidByte(1, 195))),
];

#[test]
fn xml_texts(rt: HostRuntime) {
    for (text, want) in XML_TEXTS {
        let found = Xml.decode(rt.alloc(), text);
        assert!(rt; is_decoded_xml(found, want), "{text}");
    }
}

#[test]
fn octets_of_xml_texts(rt: HostRuntime) {
    for (text, want) in XML_TEXTS {
        let found = Xml.decode_bytes(rt.alloc(), text.as_bytes());
        assert!(rt; is_decoded_xml(found, want), "{text}");
    }
}

/// Octets that are no text.
#[rattlefmt::skip]
const XML_OCTETS: [(&str, &[u8], Decoded); 2] = [
    ("FF after a letter", b"\x5A\xFF", Err(DecodeError::InvalidByte(1, 255))),
    ("FF after spaces and a letter", b" \n\x5A\xFF", Err(DecodeError::InvalidByte(3, 255))),
];

#[test]
fn other_octets_of_xml(rt: HostRuntime) {
    for (name, octets, want) in XML_OCTETS {
        let found = Xml.decode_bytes(rt.alloc(), octets);
        assert!(rt; is_decoded_xml(found, want), "{name}");
    }
}

/// A text, and what it is decoded to by Serde and by Slurm.
#[rattlefmt::skip]
const OTHER_TEXTS: [(&str, Decoded, Decoded); 8] = [
    ("-_8", Err(DecodeError::InvalidByte(0, 45)), Ok(&[0xFB, 0xFF])),
    ("+/8=", Ok(&[0xFB, 0xFF]), Err(DecodeError::InvalidByte(0, 43))),
    ("Zg", Err(DecodeError::InvalidPadding), Ok(b"f")),
    ("Zg==", Ok(b"f"), Ok(b"f")),
    ("Zm9v", Ok(b"foo"), Ok(b"foo")),
    ("Zm8=", Ok(b"fo"), Ok(b"fo")),
    ("Zm9v\n", Err(DecodeError::InvalidByte(4, 10)), Err(DecodeError::InvalidByte(4, 10))),
    ("", Ok(b""), Ok(b"")),
];

#[test]
fn serde_texts(rt: HostRuntime) {
    for (text, want, _) in OTHER_TEXTS {
        assert!(rt; is_decoded(Serde.decode(rt.alloc(), text), want), "{text}");
    }
}

#[test]
fn slurm_texts(rt: HostRuntime) {
    for (text, _, want) in OTHER_TEXTS {
        assert!(rt; is_decoded(Slurm.decode(rt.alloc(), text), want), "{text}");
    }
}

/// Octets, their text in XML and by Serde, and that of Slurm.
const ENCODINGS: [(&[u8], &str, &str); 4] = [
    (&[0xFB, 0xFF], "+/8=", "-_8"),
    (b"f", "Zg==", "Zg"),
    (b"foobar", "Zm9vYmFy", "Zm9vYmFy"),
    (b"", "", ""),
];

/// The text that Slurm writes.
fn written(alloc: Global, octets: &[u8]) -> io::Result<Vec<u8>> {
    let mut out: Vec<u8> = Vec::new(alloc);
    Slurm.write_encoded_slice(octets, &mut out)?;
    Ok(out)
}

#[test]
fn encodings(rt: HostRuntime) -> Result<(), Fail> {
    for (octets, want, _) in ENCODINGS {
        let text = Xml.encode(rt.alloc(), octets)?;
        assert!(rt; text.as_str() == want, "XML {want}");
        let text = Serde.encode(rt.alloc(), octets)?;
        assert!(rt; text.as_str() == want, "Serde {want}");
    }
    Ok(())
}

#[test]
fn encodings_by_slurm(rt: HostRuntime) -> Result<(), Fail> {
    for (octets, _, want) in ENCODINGS {
        let text = Slurm.encode(rt.alloc(), octets)?;
        assert!(rt; text.as_str() == want, "{want}");
        let printed = shown(rt.alloc(), Slurm.display(octets))?;
        assert!(rt; printed.as_str() == want, "{want} as printed");
        let text = written(rt.alloc(), octets)?;
        assert!(rt; text.as_slice() == want.as_bytes(), "{want} as written");
    }
    Ok(())
}

/// So many octets that are zero, and how many digits they have, each that of six zero bits: four for three octets, two
/// more for one and three more for two.
const ZEROS: [(usize, usize); 4] = [(767, 1023), (768, 1024), (769, 1026), (1537, 2050)];

#[test]
fn long_encodings(rt: HostRuntime) -> Result<(), Fail> {
    for (octets, digits) in ZEROS {
        let zeros = vec![in rt.alloc(); 0u8; octets]?;
        let text = written(rt.alloc(), zeros.as_slice())?;
        let expected = vec![in rt.alloc(); b'A'; digits]?;
        assert!(rt; text.as_slice() == expected.as_slice(), "{octets} octets");
    }
    Ok(())
}

/// Why a text is not decoded into a slice: it has no room there, or is rejected.
#[derive(Clone, Copy)]
enum Refusal {
    NoRoom,
    Text,
}

fn is_refusal(error: DecodeSliceError, want: Refusal) -> bool {
    match error {
        DecodeSliceError::OutputSliceTooSmall => matches!(want, Refusal::NoRoom),
        DecodeSliceError::DecodeError(_) => matches!(want, Refusal::Text),
    }
}

/// Whether a text is read so into four dots, of which the first may be written over: how many octets it is, and what
/// the four are then.
fn is_sliced(text: &str, room: usize, want: Result<(usize, &[u8; 4]), Refusal>) -> bool {
    let mut buf = [b'.'; 4];
    let read = Slurm.decode_slice(text, &mut buf[..room.min(4)]);
    match (read, want) {
        (Ok(count), Ok((wanted, held))) => count == wanted && buf == *held,
        (Err(error), Err(refusal)) => is_refusal(error, refusal),
        _ => false,
    }
}

const SLICES: [(&str, usize, Result<(usize, &[u8; 4]), Refusal>); 6] = [
    ("Zg", 1, Ok((1, b"f..."))),
    ("Zg==", 4, Ok((1, b"f..."))),
    ("Zm9v", 4, Ok((3, b"foo."))),
    ("Zm9v", 2, Err(Refusal::NoRoom)),
    ("Z", 4, Err(Refusal::Text)),
    ("", 0, Ok((0, b"...."))),
];

#[test]
fn slices(rt: HostRuntime) {
    for (text, room, want) in SLICES {
        assert!(rt; is_sliced(text, room, want), "{text} into {room}");
    }
}

const REFUSED: Base64Error = Base64Error::Refused(DecodeError::InvalidPadding);

/// The text of an error.
fn error_text<E: Error + Drop>(alloc: Global, error: E) -> Result<String, Fail> {
    shown(alloc, error)
}

#[test]
fn errors_have_texts(rt: HostRuntime) -> Result<(), Fail> {
    let memory = error_text(rt.alloc(), Base64Error::OutOfMemory)?;
    assert!(rt; memory.as_str() == "out of memory");
    assert!(rt; !error_text(rt.alloc(), REFUSED)?.is_empty());
    Ok(())
}

#[test]
fn errors_of_xml_have_texts(rt: HostRuntime) -> Result<(), Fail> {
    let Some(error) = Xml.decode(rt.alloc(), "Zg").err() else {
        return Err(Fail::from("read without padding"));
    };
    assert!(rt; *error.cause() == REFUSED);
    assert!(rt; !error_text(rt.alloc(), error)?.is_empty());
    Ok(())
}
