//! Worked cases of serial numbers, times and validity periods.

mod decimal;
mod failing;
mod laws;
mod periods;
mod times;
mod values;

use failing::FailsOnce;
use jiff::SignedDuration;
use rpki_der::{Captured, Constructed, ContentError, DecodeError, PrimitiveContent, Tag, Values};
use rpki_der_tests::kinds::{Outcome, refused};
use rpki_der_tests::rows;
use rpki_time::*;
use std::alloc::{AllocError, Global};
use std::io;
use std::io::ErrorKind;
use std::test::Fail;

/// The year, month, day, hour, minute and second.
type Parts = (i32, u32, u32, u32, u32, u32);

/// The reader that a case calls.
#[derive(Clone, Copy, Debug)]
enum Reader {
    Serial,
    Time,
    OptionalTime,
    GeneralizedTime,
    Period,
}

/// What a reader returned: a value, None, or an error by its kind, except for the two with a promised text.
#[derive(Clone, Copy, Debug, PartialEq)]
enum Found {
    Serial([u8; 20]),
    Time(Parts),
    Period(Parts, Parts),
    Nothing,
    Malformed,
    TooLong,
    Refused(Outcome),
}

fn parts_of(time: Time) -> Parts {
    (
        time.year(),
        time.month(),
        time.day(),
        time.hour(),
        time.minute(),
        time.second(),
    )
}

fn time_of(parts: Parts) -> Option<Time> {
    Time::utc(parts.0, parts.1, parts.2, parts.3, parts.4, parts.5)
}

/// The time that many nanoseconds after the time of these parts.
fn moment_of(parts: Parts, nanoseconds: i64) -> Option<Time> {
    let time = time_of(parts)?;
    time.checked_add(SignedDuration::from_nanos(nanoseconds))
}

/// The period between the beginnings of two years.
fn period_of(years: (i32, i32)) -> Option<Validity> {
    let start = time_of((years.0, 1, 1, 0, 0, 0))?;
    let end = time_of((years.1, 1, 1, 0, 0, 0))?;
    Some(Validity::new(start, end))
}

fn refusal(e: &DecodeError) -> Found {
    if *e == DecodeError::Content(ContentError::from_static("malformed time value")) {
        return Found::Malformed;
    }
    if *e == DecodeError::Content(ContentError::from_static("serial number longer than 20 bytes")) {
        return Found::TooLong;
    }
    Found::Refused(refused(e))
}

fn of_serial(serial: Serial) -> Found {
    Found::Serial(serial.into_array())
}

fn of_time(time: Time) -> Found {
    Found::Time(parts_of(time))
}

fn of_optional(time: Option<Time>) -> Found {
    match time {
        Some(time) => of_time(time),
        None => Found::Nothing,
    }
}

fn of_period(period: Validity) -> Found {
    Found::Period(parts_of(period.not_before()), parts_of(period.not_after()))
}

/// What was found, or why nothing was.
fn told(answer: Result<Found, DecodeError>) -> Found {
    match answer {
        Ok(found) => found,
        Err(e) => refusal(&e),
    }
}

fn answer(reader: Reader, cursor: &mut Constructed<'_>) -> Found {
    told(match reader {
        Reader::Serial => Serial::take_from(cursor).map(of_serial),
        Reader::Time => Time::take_from(cursor).map(of_time),
        Reader::OptionalTime => Time::take_opt_from(cursor).map(of_optional),
        Reader::GeneralizedTime => Time::take_generalized_from(cursor).map(of_time),
        Reader::Period => Validity::take_from(cursor).map(of_period),
    })
}

/// An OCTET STRING of the octets.
fn string_of(alloc: Global, octets: &[u8]) -> Result<Captured, AllocError> {
    let string = octets.encode();
    if !string.fits() {
        return Err(AllocError);
    }
    Captured::from_values(alloc, &string)
}

/// What the reader returns on these octets, which follow the header of an OCTET STRING; and how many remain.
fn read(alloc: Global, reader: Reader, octets: &[u8]) -> Result<(Found, usize), AllocError> {
    let whole = string_of(alloc, octets)?.into_bytes();
    if whole.len() < octets.len() {
        return Err(AllocError);
    }
    let source = whole.slice(whole.len() - octets.len()..)?;
    let mut cursor = Constructed::new(&source);
    let found = answer(reader, &mut cursor);
    Ok((found, cursor.rest().len()))
}

const READ: &[(&str, Reader, &[u8], (Found, usize))] = &rows! {
    ("serial number 66051, and an octet", Reader::Serial, b"\x02\x03\x01\x02\x03\x05",
     (Found::Serial(*b"\0\0\0\0\0\0\0\0\0\0\0\0\0\0\0\0\0\x01\x02\x03"), 1)),
    ("greatest serial number", Reader::Serial,
     b"\x02\x14\x7f\xff\xff\xff\xff\xff\xff\xff\xff\xff\xff\xff\xff\xff\xff\xff\xff\xff\xff\xff",
     (Found::Serial(*b"\x7f\xff\xff\xff\xff\xff\xff\xff\xff\xff\xff\xff\xff\xff\xff\xff\xff\xff\xff\xff"), 0)),
    ("serial number of 21 octets", Reader::Serial, b"\x02\x15\0\x80\0\0\0\0\0\0\0\0\0\0\0\0\0\0\0\0\0\0\0",
     (Found::TooLong, 23)),
    ("21 octets of zeros", Reader::Serial, b"\x02\x15\0\0\0\0\0\0\0\0\0\0\0\0\0\0\0\0\0\0\0\0\0",
     (Found::Refused(Outcome::Content), 23)),
    ("serial number without contents", Reader::Serial, b"\x02\0", (Found::Refused(Outcome::Content), 2)),
    ("negative serial number", Reader::Serial, b"\x02\x01\x80", (Found::Refused(Outcome::Content), 3)),
    ("serial number cut short", Reader::Serial, b"\x02\x03\x01", (Found::Refused(Outcome::Truncated), 3)),
    ("constructed serial number", Reader::Serial, b"\x22\0", (Found::Refused(Outcome::Unexpected), 2)),
    ("serial number with a length in long form", Reader::Serial, b"\x02\x81\x01\x05",
     (Found::Refused(Outcome::BadLength), 4)),
    ("no tag", Reader::Serial, b"\0\0", (Found::Refused(Outcome::BadTag), 2)),
    ("UTC time 1950, and a NULL", Reader::Time, b"\x17\x0d500101000000Z\x05\0",
     (Found::Time((1950, 1, 1, 0, 0, 0)), 2)),
    ("last UTC time", Reader::Time, b"\x17\x0d491231235959Z", (Found::Time((2049, 12, 31, 23, 59, 59)), 0)),
    ("UTC time 1980", Reader::Time, b"\x17\x0d801001163015Z", (Found::Time((1980, 10, 1, 16, 30, 15)), 0)),
    ("UTC time 2030", Reader::Time, b"\x17\x0d301001163015Z", (Found::Time((2030, 10, 1, 16, 30, 15)), 0)),
    ("generalized time 2030", Reader::Time, b"\x18\x0f20301001163015Z", (Found::Time((2030, 10, 1, 16, 30, 15)), 0)),
    ("last generalized time", Reader::Time, b"\x18\x0f99991231235959Z", (Found::Time((9999, 12, 31, 23, 59, 59)), 0)),
    ("generalized time of year 0", Reader::Time, b"\x18\x0f00000101000000Z", (Found::Time((0, 1, 1, 0, 0, 0)), 0)),
    ("29 February 1900", Reader::Time, b"\x18\x0f19000229000000Z", (Found::Malformed, 17)),
    ("letter in a generalized day", Reader::Time, b"\x18\x0f2030a001163015Z", (Found::Malformed, 17)),
    ("sign in a generalized day", Reader::Time, b"\x18\x0f2030+001163015Z", (Found::Malformed, 17)),
    ("letter in a UTC day", Reader::Time, b"\x17\x0d30a001163015Z", (Found::Malformed, 15)),
    ("sign in a UTC day", Reader::Time, b"\x17\x0d30+001163015Z", (Found::Malformed, 15)),
    ("second 60", Reader::Time, b"\x17\x0d491231235960Z", (Found::Malformed, 15)),
    ("UTC time with a fraction", Reader::Time, b"\x17\x0e4912312359590Z", (Found::Malformed, 16)),
    ("generalized time of UTC length", Reader::Time, b"\x18\x0d500101000000Z", (Found::Malformed, 15)),
    ("tag 23 of class context", Reader::Time, b"\x97\x0d500101000000Z", (Found::Malformed, 15)),
    ("tag number 279", Reader::Time, b"\x1f\x82\x17\x0d500101000000Z", (Found::Malformed, 17)),
    ("NULL for a time", Reader::Time, b"\x05\0", (Found::Malformed, 2)),
    ("NULL cut short", Reader::Time, b"\x05\x01", (Found::Refused(Outcome::Truncated), 2)),
    ("UTC time cut short", Reader::Time, b"\x17\x0d500101", (Found::Refused(Outcome::Truncated), 8)),
    ("constructed UTC time", Reader::Time, b"\x37\x05\0", (Found::Refused(Outcome::Unexpected), 3)),
    ("SEQUENCE for a time", Reader::Time, b"\x30\x7f", (Found::Refused(Outcome::Unexpected), 2)),
    ("constructed generalized time of the greatest length", Reader::Time, b"\x38\x84\xff\xff\xff\xff",
     (Found::Refused(Outcome::Unexpected), 6)),
    ("no time at the end", Reader::Time, b"", (Found::Refused(Outcome::Truncated), 0)),
    ("optional UTC time", Reader::OptionalTime, b"\x17\x0d500101000000Z", (Found::Time((1950, 1, 1, 0, 0, 0)), 0)),
    ("generalized time alone", Reader::GeneralizedTime, b"\x18\x0f20300102030405Z\x05",
     (Found::Time((2030, 1, 2, 3, 4, 5)), 1)),
    ("generalized time alone, of a year of UTC time", Reader::GeneralizedTime, b"\x18\x0f19990102030405Z",
     (Found::Time((1999, 1, 2, 3, 4, 5)), 0)),
    ("UTC time for generalized time", Reader::GeneralizedTime, b"\x17\x0d990102030405Z",
     (Found::Refused(Outcome::Unexpected), 15)),
    ("generalized time alone without seconds", Reader::GeneralizedTime, b"\x18\x0d203001020304Z",
     (Found::Malformed, 15)),
    ("optional generalized time", Reader::OptionalTime, b"\x18\x0f00000101000000Z",
     (Found::Time((0, 1, 1, 0, 0, 0)), 0)),
    ("nothing", Reader::OptionalTime, b"", (Found::Nothing, 0)),
    ("half a tag", Reader::OptionalTime, b"\x1f", (Found::Nothing, 1)),
    ("no tag, optional", Reader::OptionalTime, b"\0", (Found::Nothing, 1)),
    ("class context, optional", Reader::OptionalTime, b"\x97\0", (Found::Nothing, 2)),
    ("SEQUENCE, optional", Reader::OptionalTime, b"\x30\0", (Found::Nothing, 2)),
    ("UTC time of one octet", Reader::OptionalTime, b"\x17", (Found::Refused(Outcome::Truncated), 1)),
    ("generalized time cut short", Reader::OptionalTime, b"\x18\x0f", (Found::Refused(Outcome::Truncated), 2)),
    ("constructed UTC time, optional", Reader::OptionalTime, b"\x37\0", (Found::Refused(Outcome::Unexpected), 2)),
    ("constructed generalized time, optional", Reader::OptionalTime, b"\x38\x05",
     (Found::Refused(Outcome::Unexpected), 2)),
    ("UTC time without contents", Reader::OptionalTime, b"\x17\0", (Found::Malformed, 2)),
    ("both kinds of time, and an octet", Reader::Period, b"\x30\x20\x17\x0d200101000000Z\x18\x0f20500101000000Z\x30",
     (Found::Period((2020, 1, 1, 0, 0, 0), (2050, 1, 1, 0, 0, 0)), 1)),
    ("SET for a validity period", Reader::Period, b"\x31\0", (Found::Refused(Outcome::Unexpected), 2)),
    ("validity period with a length in long form", Reader::Period, b"\x30\x81\0",
     (Found::Refused(Outcome::BadLength), 3)),
    ("one time alone", Reader::Period, b"\x30\x0f\x17\x0d200101000000Z", (Found::Refused(Outcome::Truncated), 17)),
    ("second time malformed", Reader::Period, b"\x30\x1f\x17\x0d200101000000Z\x17\x0e2001010000000Z",
     (Found::Malformed, 33)),
    ("three times", Reader::Period, b"\x30\x2d\x17\x0d200101000000Z\x17\x0d200101000000Z\x17\x0d200101000000Z",
     (Found::Refused(Outcome::Trailing), 47)),
};

#[test]
fn values_are_read(rt: HostRuntime) -> Result<(), Fail> {
    for (name, reader, octets, expected) in READ {
        assert_eq!(rt; read(rt.alloc(), *reader, octets)?, *expected, "{name}");
    }
    Ok(())
}

/// What is written. A time by itself is written a nanosecond before the next second, which no text shows.
#[derive(Clone, Copy, Debug)]
enum Written {
    Zero,
    Octets(&'static [u8]),
    Number(u128),
    Small(u64),
    Utc(Parts),
    Generalized(Parts),
    Varied(Parts),
    Period(Parts, Parts),
}

/// What the reader of whole octets returns.
fn read_whole(reader: Reader, octets: &[u8]) -> Found {
    told(match reader {
        Reader::Serial => Serial::decode(octets).map(of_serial),
        Reader::Time | Reader::OptionalTime => Time::decode(octets).map(of_time),
        Reader::GeneralizedTime => Constructed::from_slice(octets)
            .whole(|cons| Time::take_generalized_from(cons))
            .map(of_time),
        Reader::Period => Validity::decode(octets).map(of_period),
    })
}

/// What a reader of whole octets returns where a reader of their beginning returns this and leaves so many.
fn of_whole(found: Found, left: usize) -> Found {
    match found {
        Found::Serial(_) | Found::Time(_) | Found::Period(_, _) if left > 0 => {
            Found::Refused(Outcome::Trailing)
        }
        _ => found,
    }
}

#[test]
fn whole_values_are_read(rt: HostRuntime) {
    for (name, reader, octets, (found, left)) in READ {
        if *found != Found::Nothing {
            let wanted = of_whole(*found, *left);
            assert_eq!(rt; read_whole(*reader, octets), wanted, "{name}");
        }
    }
}

/// Captures values that fit, and writes them to the writer too.
fn put<V: Values>(alloc: Global, out: &mut FailsOnce, values: &V) -> io::Result<Captured> {
    if !values.fits() {
        return Err(io::Error::from(ErrorKind::InvalidInput));
    }
    let captured = Captured::from_values(alloc, values)?;
    values.write_encoded(out)?;
    Ok(captured)
}

/// The value, or an error of the writer.
fn some<T: Drop>(value: Option<T>) -> io::Result<T> {
    match value {
        Some(value) => Ok(value),
        None => Err(io::Error::from(ErrorKind::InvalidInput)),
    }
}

fn write_to(alloc: Global, out: &mut FailsOnce, written: Written) -> io::Result<Captured> {
    let last = 999_999_999;
    match written {
        Written::Zero => put(alloc, out, &Serial::default().encode()),
        Written::Octets(octets) => {
            let serial = some(Serial::from_slice(octets).ok())?;
            put(alloc, out, &serial.encode())
        }
        Written::Number(number) => put(alloc, out, &Serial::from(number).encode()),
        Written::Small(number) => put(alloc, out, &Serial::from(number).encode()),
        Written::Utc(parts) => put(alloc, out, &some(moment_of(parts, last))?.encode_utc_time()),
        Written::Generalized(parts) => {
            put(
                alloc,
                out,
                &some(moment_of(parts, last))?.encode_generalized_time(),
            )
        }
        Written::Varied(parts) => put(alloc, out, &some(moment_of(parts, last))?.encode_varied()),
        Written::Period(start, end) => {
            let period = Validity::new(some(time_of(start))?, some(time_of(end))?);
            put(alloc, out, &period.encode())
        }
    }
}

const WRITTEN: &[(&str, Written, &[u8])] = &rows! {
    ("zero", Written::Zero, b"\x02\x01\0"),
    ("a serial number that begins with a bit", Written::Octets(b"\0\0\0\0\0\0\0\0\0\0\0\0\0\0\0\0\0\x81\x02\x03"),
     b"\x02\x04\0\x81\x02\x03"),
    ("the greatest number", Written::Number(u128::MAX),
     b"\x02\x11\0\xff\xff\xff\xff\xff\xff\xff\xff\xff\xff\xff\xff\xff\xff\xff\xff"),
    ("128", Written::Small(128), b"\x02\x02\0\x80"),
    ("127", Written::Small(127), b"\x02\x01\x7f"),
    ("a UTC time of 2060", Written::Utc((2060, 1, 1, 0, 0, 0)), b"\x17\x0d600101000000Z"),
    ("a generalized time of 2020", Written::Generalized((2020, 1, 1, 0, 0, 0)), b"\x18\x0f20200101000000Z"),
    ("a time of 2060", Written::Varied((2060, 1, 1, 0, 0, 0)), b"\x18\x0f20600101000000Z"),
    ("the last moment of 1949", Written::Varied((1949, 12, 31, 23, 59, 59)), b"\x18\x0f19491231235959Z"),
    ("the first moment of 1950", Written::Varied((1950, 1, 1, 0, 0, 0)), b"\x17\x0d500101000000Z"),
    ("the last moment of 2049", Written::Varied((2049, 12, 31, 23, 59, 59)), b"\x17\x0d491231235959Z"),
    ("a period of both kinds of time", Written::Period((2020, 1, 1, 0, 0, 0), (2050, 1, 1, 0, 0, 0)),
     b"\x30\x20\x17\x0d200101000000Z\x18\x0f20500101000000Z"),
};

#[test]
fn contents_have_their_tags(rt: HostRuntime) {
    assert!(rt; <Serial as PrimitiveContent>::TAG == Tag::INTEGER);
    assert!(rt; <UtcTime as PrimitiveContent>::TAG == Tag::UTC_TIME);
    assert!(rt; <GeneralizedTime as PrimitiveContent>::TAG == Tag::GENERALIZED_TIME);
}

/// Whether the octets are captured, and are written to a writer too.
fn is_written(alloc: Global, written: Written, expected: &[u8]) -> io::Result<(bool, bool)> {
    let mut out = FailsOnce::never(alloc);
    let found = write_to(alloc, &mut out, written)?;
    Ok((found.as_slice() == expected, out.has_written(expected)))
}

#[test]
fn values_are_written(rt: HostRuntime) -> Result<(), Fail> {
    for (name, written, expected) in WRITTEN {
        let (captured, put) = is_written(rt.alloc(), *written, expected)?;
        assert!(rt; captured, "{name}");
        assert!(rt; put, "{name} to a writer");
    }
    Ok(())
}

/// Octets, and the number that they are, or why they are none.
const SLICES: &[(&str, &[u8], Result<u64, SerialSliceError>)] = &rows! {
    ("three octets", &[1, 2, 3], Ok(0x10203)),
    ("a zero and an octet", &[0, 1], Ok(1)),
    ("128", &[0x80], Ok(128)),
    ("20 zeros", &[0; 20], Ok(0)),
    ("nothing", &[], Err(SerialSliceError::Empty)),
    ("21 zeros", &[0; 21], Err(SerialSliceError::Long)),
    ("20 octets that begin with a bit", b"\x80\0\0\0\0\0\0\0\0\0\0\0\0\0\0\0\0\0\0\0", Err(SerialSliceError::Long)),
};

/// Whether the octets are this number, or are rejected so.
fn is_serial(octets: &[u8], expected: Result<u64, SerialSliceError>) -> bool {
    match (Serial::from_slice(octets), expected) {
        (Ok(serial), Ok(number)) => serial == Serial::from(number),
        (Err(found), Err(wanted)) => {
            found == wanted && ContentError::from(found) == ContentError::from(wanted)
        }
        _ => false,
    }
}

#[test]
fn serials_of_slices(rt: HostRuntime) {
    for (name, octets, expected) in SLICES {
        assert!(rt; is_serial(octets, *expected), "{name}");
    }
}

/// The octets of a serial number, and whether their first bit is set.
const ARRAYS: &[(&str, [u8; 20], bool)] = &[
    ("20 times 0", [0; 20], false),
    ("20 times 7F", [0x7f; 20], false),
    ("20 times 80", [0x80; 20], true),
];

/// Whether the octets are a serial number and are read back, or both ways to make one reject them.
fn is_array(octets: [u8; 20], refused: bool) -> bool {
    match (Serial::from_array(octets), Serial::try_from(octets)) {
        (Ok(serial), Ok(other)) => {
            !refused && serial == other && <[u8; 20]>::from(serial) == octets
        }
        (Err(SerialSliceError::Long), Err(SerialSliceError::Long)) => refused,
        _ => false,
    }
}

#[test]
fn serials_of_arrays(rt: HostRuntime) {
    for (name, octets, refused) in ARRAYS {
        assert!(rt; is_array(*octets, *refused), "{name}");
    }
}
