//! Extensions that are read, and those that are made.

use super::{source_of, written};
use bytes::Bytes;
use rpki::oid;
use rpki::repository::x509::{CertExtension, encode_extension};
use rpki_der::{Constructed, DecodeError, Primitive, PrimitiveContent, Sequence};
use rpki_der_tests::kinds::{Outcome, optional_outcome_of, outcome_of};
use std::alloc::Global;
use std::test::Fail;

/// A name, an extension as it is spelled, its identifier, whether it is critical, its contents, and what is written of
/// it.
type Row = (
    &'static str,
    &'static str,
    &'static str,
    bool,
    &'static str,
    &'static str,
);

/// Basic constraints, key usage and no known extension.
#[rattlefmt::skip]
const READ: [Row; 4] = [
    ("FALSE that is spelled", "300c0603551d1301010004023000", "551d13", false, "3000", "30090603551d1304023000"),
    ("critical basic constraints", "300c0603551d130101ff04023000", "551d13", true, "3000",
        "300c0603551d130101ff04023000"),
    ("key usage", "300b0603551d0f040403020106", "551d0f", false, "03020106", "300b0603551d0f040403020106"),
    ("octets that are no value", "300606012a0401ff", "2a", false, "ff", "300606012a0401ff"),
];

/// Octets that no extension begins, and the error.
#[rattlefmt::skip]
const REFUSED: &[(&str, &str, Outcome)] = &[
    ("nothing", "", Outcome::Truncated),
    ("SET", "3100", Outcome::Unexpected),
    ("primitive SEQUENCE", "1000", Outcome::Unexpected),
    ("length in long form", "308100", Outcome::BadLength),
    ("no identifier", "3000", Outcome::Truncated),
    ("no OCTET STRING", "30050603551d13", Outcome::Truncated),
    ("no identifier, and no header after it", "30050601801f80", Outcome::Content),
    ("BOOLEAN that is neither TRUE nor FALSE", "300c0603551d1301010104023000", Outcome::Content),
    ("constructed BOOLEAN", "300b0603551d13210004023000", Outcome::Unexpected),
    ("BOOLEAN without contents", "300b0603551d13010004023000", Outcome::Content),
    ("two BOOLEANs", "300f0603551d130101ff0101ff04023000", Outcome::Unexpected),
    ("OCTET STRING that passes the end", "30090603551d1304033000", Outcome::Truncated),
    ("NULL after the OCTET STRING", "300b0603551d13040230000500", Outcome::Trailing),
];

/// How the optional reader ends.
#[rattlefmt::skip]
const OPTIONAL: &[(&str, &str, Outcome)] = &[
    ("nothing", "", Outcome::Absent),
    ("SET", "3100", Outcome::Absent),
    ("primitive SEQUENCE", "1000", Outcome::Unexpected),
    ("no identifier", "3000", Outcome::Truncated),
    ("length in long form", "308100", Outcome::BadLength),
    ("extension", "300606012a0401ff", Outcome::Read),
];

/// The extension that these octets begin with.
fn extension_of(alloc: Global, source: &Bytes) -> Result<CertExtension, DecodeError> {
    CertExtension::take_from(alloc, &mut Constructed::new(source))
}

/// Whether the extension has the parts of the row, and is written as the row says.
fn is_read(
    alloc: Global,
    extension: &CertExtension,
    (_, _, id, critical, content, expected): Row,
) -> Result<bool, Fail> {
    let (id, content) = (source_of(alloc, id)?, source_of(alloc, content)?);
    let octets = written(alloc, &extension.encode_ref())?.ok_or("too long")?;
    Ok(
        extension.id().0 == id.as_slice()
            && extension.critical() == critical
            && extension.octets() == content.as_slice()
            && extension.cursor().rest() == content.as_slice()
            && octets == source_of(alloc, expected)?,
    )
}

#[test]
fn extensions_are_read(rt: HostRuntime) -> Result<(), Fail> {
    for row in READ {
        let extension = extension_of(rt.alloc(), &source_of(rt.alloc(), row.1)?)?;
        assert!(rt; is_read(rt.alloc(), &extension, row)?, "{}", row.0);
        let copy = extension.clone()?;
        assert!(rt; is_read(rt.alloc(), &copy, row)?, "a copy: {}", row.0);
    }
    Ok(())
}

#[test]
fn whole_extensions_are_read(rt: HostRuntime) -> Result<(), Fail> {
    for row in READ {
        let extension = CertExtension::decode(rt.alloc(), source_of(rt.alloc(), row.1)?)?;
        assert!(rt; is_read(rt.alloc(), &extension, row)?, "{}", row.0);
    }
    Ok(())
}

#[test]
fn other_octets_are_refused(rt: HostRuntime) -> Result<(), Fail> {
    for (name, digits, expected) in REFUSED {
        let source = source_of(rt.alloc(), digits)?;
        let mut cons = Constructed::new(&source);
        let found = outcome_of(CertExtension::take_from(rt.alloc(), &mut cons));
        assert_eq!(rt; found, *expected, "{name}");
        assert_eq!(rt; cons.rest(), source.as_slice(), "left by {name}");
    }
    Ok(())
}

#[test]
fn an_extension_may_be_absent(rt: HostRuntime) -> Result<(), Fail> {
    for (name, digits, expected) in OPTIONAL {
        let source = source_of(rt.alloc(), digits)?;
        let found = CertExtension::take_opt_from(rt.alloc(), &mut Constructed::new(&source));
        assert_eq!(rt; optional_outcome_of(found), *expected, "{name}");
    }
    Ok(())
}

/// Other spellings, and whether they are equal to the first that is read.
#[rattlefmt::skip]
const COMPARED: &[(&str, &str, bool)] = &[
    ("FALSE that is left out", "30090603551d1304023000", true),
    ("critical", "300c0603551d130101ff04023000", false),
    ("another identifier", "30090603551d0f04023000", false),
    ("other contents", "30090603551d1304023100", false),
];

#[test]
fn extensions_are_equal_where_their_parts_are(rt: HostRuntime) -> Result<(), Fail> {
    let first = extension_of(rt.alloc(), &source_of(rt.alloc(), READ[0].1)?)?;
    for (name, digits, expected) in COMPARED {
        let other = extension_of(rt.alloc(), &source_of(rt.alloc(), digits)?)?;
        assert_eq!(rt; first == other, *expected, "{name}");
    }
    Ok(())
}

/// Whether basic constraints are critical, and what is written of those of no authority: an empty SEQUENCE.
#[rattlefmt::skip]
const WRITTEN: [(bool, &str); 2] = [
    (true, "300c0603551d130101ff04023000"),
    (false, "30090603551d1304023000"),
];

#[test]
fn extensions(rt: HostRuntime) -> Result<(), Fail> {
    for (critical, expected) in WRITTEN {
        let constraints = Sequence::new(None::<Primitive<()>>);
        let extension = encode_extension(oid::CE_BASIC_CONSTRAINTS, critical, constraints);
        let octets = written(rt.alloc(), &extension)?.ok_or("too long")?;
        assert_eq!(rt; octets, source_of(rt.alloc(), expected)?, "{critical}");
    }
    Ok(())
}
