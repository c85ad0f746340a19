//! Names, and their inspections.

use super::{source_of, written};
use bytes::Bytes;
use rpki::repository::error::InspectionError;
use rpki::repository::x509::*;
use rpki_der::{Constructed, ContentError, DecodeError};
use rpki_der_tests::kinds::{Outcome, outcome_of, refused};
use std::alloc::Global;
use std::test::Fail;

/// The name of one common name, A, as a PrintableString.
const NAME: &str = "300c310a30080603550403130141";

/// The same as a UTF8String.
const UTF8_NAME: &str = "300c310a300806035504030c0141";

/// Octets that are no name, and why: the kind of the error, and its text where it is one of contents.
#[rattlefmt::skip]
const REFUSED: &[(&str, &str, Outcome, &str)] = &[
    ("empty SEQUENCE", "3000", Outcome::Content, "empty distinguished name"),
    ("empty SET", "30023100", Outcome::Content, "empty relative distinguished name"),
    ("attribute without a value", "3009310730050603550403", Outcome::Content, "invalid name"),
    ("NULL after the value", "300d310b3009060355040305000500", Outcome::Trailing, ""),
    ("SET", "3100", Outcome::Unexpected, ""),
    ("length in long form", "308100", Outcome::BadLength, ""),
    ("SEQUENCE for a SET", "30023000", Outcome::Unexpected, ""),
    ("nothing", "", Outcome::Truncated, ""),
];

/// Names, and the texts of the two strict inspections' errors, of the RPKI and of routers, empty where there is none.
#[rattlefmt::skip]
const INSPECTED: &[(&str, &str, &str, &str)] = &[
    ("a common name", NAME, "", ""),
    ("a common name of UTF-8", UTF8_NAME, "invalid name", ""),
    ("a common name without characters", "300b3109300706035504031300", "", ""),
    ("a serial number of UTF-8", "300c310a300806035504050c0141", "invalid name", "missing common name"),
    ("a common name and a serial number of UTF-8", "3018310a300806035504030c0140310a300806035504050c0141",
        "invalid name", ""),
    ("a serial number of another string", "300c310a30080603550405160141", "invalid name",
        "unpermitted string variant in common name"),
    ("a serial number", "300c310a30080603550405130141", "missing common name", "missing common name"),
    ("two common names", "3018310a30080603550403130141310a30080603550403130141", "multiple common names",
        "multiple common names"),
    ("two serial numbers", "3018310a30080603550405130141310a30080603550405130141", "multiple serial numbers",
        "multiple serial numbers"),
    ("a common name of another string", "300c310a30080603550403160141", "invalid name",
        "unpermitted string variant in common name"),
    ("a serial number and a common name", "3018310a30080603550405130141310a30080603550403130141", "", ""),
    ("a serial number and a common name in one SET", "301631143008060355040513014130080603550403130141", "", ""),
    ("an organization name and a common name", "3018310a3008060355040a130142310a30080603550403130141", "", ""),
    ("an organization name and a common name in one SET", "301631143008060355040a13014230080603550403130141", "", ""),
    ("an organization name", "300c310a3008060355040a130142", "missing common name", "missing common name"),
    ("two organization names", "3024310a3008060355040a130142310a3008060355040a130142310a30080603550403130141",
        "multiple organization names", "multiple organization names"),
    ("an organization name of UTF-8", "3018310a3008060355040a0c0142310a30080603550403130141", "invalid name", ""),
    ("an organization name of another string", "3018310a3008060355040a160142310a30080603550403130141", "invalid name",
        "unpermitted string variant in common name"),
    ("a second organization name, of another string",
        "3024310a3008060355040a130142310a3008060355040a160142310a30080603550403130141", "multiple organization names",
        "multiple organization names"),
    ("a common name before an organization name", "3018310a30080603550403130141310a3008060355040a130142", "", ""),
    ("all three", "3024310a30080603550405130141310a3008060355040a130142310a30080603550403130141", "", ""),
    ("an organizational unit", "3018310a3008060355040b130142310a30080603550403130141", "invalid name", "invalid name"),
];

/// The name that these octets begin with.
pub(super) fn name_of(alloc: Global, source: &Bytes) -> Result<Name, DecodeError> {
    Name::take_from(alloc, &mut Constructed::new(source))
}

/// The same of hexadecimal digits.
pub(super) fn name_by(alloc: Global, digits: &str) -> Result<Name, DecodeError> {
    name_of(alloc, &source_of(alloc, digits)?)
}

#[test]
fn names_are_refused(rt: HostRuntime) {
    for (name, digits, outcome, text) in REFUSED {
        let same = match name_by(rt.alloc(), digits) {
            Ok(_) => false,
            Err(DecodeError::Content(e)) => {
                *outcome == Outcome::Content && e == ContentError::from_static(text)
            }
            Err(e) => refused(&e) == *outcome,
        };
        assert!(rt; same, "{name}");
    }
}

/// Whether the result is this error, or none where the text is empty.
fn is_text(answer: Result<(), InspectionError>, text: &'static str) -> bool {
    match answer {
        Ok(()) => text.is_empty(),
        Err(e) => e == InspectionError::new(ContentError::from_static(text)),
    }
}

#[test]
fn names_are_inspected(rt: HostRuntime) -> Result<(), Fail> {
    for (row, digits, rpki, router) in INSPECTED {
        let name = name_by(rt.alloc(), digits)?;
        assert!(rt; is_text(name.inspect_rpki(true), rpki), "RPKI: {row}");
        assert!(rt; is_text(name.inspect_router(true), router), "router: {row}");
    }
    Ok(())
}

#[test]
fn names_are_accepted_unless_strict(rt: HostRuntime) -> Result<(), Fail> {
    for (row, digits, _, _) in INSPECTED {
        let name = name_by(rt.alloc(), digits)?;
        assert!(rt; name.inspect_rpki(false).is_ok(), "RPKI: {row}");
        assert!(rt; name.inspect_router(false).is_ok(), "router: {row}");
    }
    Ok(())
}

#[test]
fn names_are_written_as_read(rt: HostRuntime) -> Result<(), Fail> {
    let source = source_of(rt.alloc(), NAME)?;
    let name = name_of(rt.alloc(), &source)?;
    let octets = written(rt.alloc(), &name.encode_ref())?.ok_or("too long")?;
    assert_eq!(rt; octets.as_slice(), source.as_slice());
    assert_eq!(rt; name.as_slice(), source.as_slice());
    Ok(())
}

#[test]
fn names_are_compared(rt: HostRuntime) -> Result<(), Fail> {
    let name = name_by(rt.alloc(), NAME)?;
    assert!(rt; name.clone()? == name, "a copy");
    assert!(rt; name_by(rt.alloc(), UTF8_NAME)? != name, "another name");
    Ok(())
}

#[test]
fn names_are_read_one_by_one(rt: HostRuntime) -> Result<(), Fail> {
    let source = source_of(rt.alloc(), "300c310a300806035504031301410500")?;
    let mut cons = Constructed::new(&source);
    let name = Name::take_from(rt.alloc(), &mut cons)?;
    let expected = source_of(rt.alloc(), NAME)?;
    assert_eq!(rt; name.view().octets(), expected.as_slice());
    assert_eq!(rt; cons.rest(), [0x05, 0x00].as_slice());
    Ok(())
}

/// A name, the octets, how a reader of whole octets ends on them, and how many octets remain after a name.
#[rattlefmt::skip]
const WHOLE: [(&str, &str, Outcome, usize); 4] = [
    ("a name", NAME, Outcome::Read, 0),
    ("a name, and a NULL", "300c310a300806035504031301410500", Outcome::Trailing, 2),
    ("an empty name", "3000", Outcome::Content, 2),
    ("a name cut short", "300c310a30", Outcome::Truncated, 5),
];

#[test]
fn whole_names_are_read(rt: HostRuntime) -> Result<(), Fail> {
    for (name, digits, expected, left) in WHOLE {
        let source = source_of(rt.alloc(), digits)?;
        let mut cons = Constructed::from_slice(&source);
        // The name is kept by the other reader: here only the place of the cursor tells.
        let _ = Name::skip_in(&mut cons);
        assert_eq!(rt; cons.rest().len(), left, "{name}");
        let outcome = outcome_of(Name::decode(rt.alloc(), source));
        assert_eq!(rt; outcome, expected, "{name}");
    }
    Ok(())
}
