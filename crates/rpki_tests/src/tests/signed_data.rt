//! Signatures, and signed data of the RPKI.

use super::algorithms::{RSA_SIGNATURE, RSA_SIGNATURE_WITHOUT};
use super::{source_of, written};
use bytes::Bytes;
use rpki::crypto::{RpkiSignature, RpkiSignatureAlgorithm, Signature, SignatureAlgorithm};
use rpki::repository::x509::SignedData;
use rpki_der::{Constructed, DecodeError};
use rpki_der_tests::kinds::{Outcome, outcome_of};
use std::alloc::Global;
use std::test::Fail;

/// The signature of the algorithm that these octets identify.
fn signature_of(alloc: Global, digits: &str, value: &str) -> Result<RpkiSignature, DecodeError> {
    let source = source_of(alloc, digits)?;
    let algorithm = RpkiSignatureAlgorithm::x509_take_from(&mut Constructed::new(&source))?;
    Ok(Signature::new(algorithm, source_of(alloc, value)?))
}

/// Algorithm identifiers and octets of signatures, and whether they are those of an identifier with parameters and AA.
const SIGNATURES: &[(&str, &str, &str, bool)] = &[
    ("the same", RSA_SIGNATURE, "aa", true),
    ("without NULL", RSA_SIGNATURE_WITHOUT, "aa", false),
    ("another octet", RSA_SIGNATURE, "ab", false),
    ("two octets", RSA_SIGNATURE, "aaaa", false),
    ("no octet", RSA_SIGNATURE, "", false),
];

#[test]
fn signatures_are_compared(rt: HostRuntime) -> Result<(), Fail> {
    let with = RpkiSignatureAlgorithm::default();
    let first = Signature::new(with, Bytes::from_static(b"\xAA"));
    for (name, identifier, value, equal) in SIGNATURES {
        let signature = signature_of(rt.alloc(), identifier, value)?;
        assert_eq!(rt; signature == first, *equal, "{name}");
    }
    Ok(())
}

#[test]
fn signatures_are_their_parts(rt: HostRuntime) -> Result<(), Fail> {
    let with = RpkiSignatureAlgorithm::default();
    for (name, identifier, value, _) in SIGNATURES {
        let copy = signature_of(rt.alloc(), identifier, value)?.clone()?;
        let has_parameters = *identifier == RSA_SIGNATURE;
        assert_eq!(rt; *copy.algorithm() == with, has_parameters, "{name}");
        let (algorithm, octets) = copy.unwrap();
        assert_eq!(rt; algorithm == with, has_parameters, "{name}");
        assert_eq!(rt; octets, source_of(rt.alloc(), value)?, "{name}");
    }
    Ok(())
}

pub(super) const SIGNED: &str = "30153000300d06092a864886f70d01010b0500030200aa";

const SIGNED_WITHOUT: &str = "30133000300b06092a864886f70d01010b030200aa";

pub(super) const SIGNED_WITH_COUNT: &str = "30153000300d06092a864886f70d01010b0500030201aa";

const EMPTY_INTEGER: &str = "301730020200300d06092a864886f70d01010b0500030200aa";

/// A name, octets that are signed data, the data, whether the value is equal to that of SIGNED, and what is written of
/// it.
#[rattlefmt::skip]
const ROWS: &[(&str, &str, &str, bool, &str)] = &[
    ("signed data", SIGNED, "3000", true, SIGNED),
    ("without NULL", SIGNED_WITHOUT, "3000", false, SIGNED),
    ("an unused bit", SIGNED_WITH_COUNT, "3000", true, SIGNED),
    ("an empty INTEGER", EMPTY_INTEGER, "30020200", false, EMPTY_INTEGER),
];

/// The signed data that these octets are.
pub(super) fn decoded(alloc: Global, digits: &str) -> Result<SignedData, DecodeError> {
    decoded_by(alloc, digits)
}

/// The signed data of any algorithm that these octets are.
pub(super) fn decoded_by<Alg: SignatureAlgorithm + Drop>(
    alloc: Global,
    digits: &str,
) -> Result<SignedData<Alg>, DecodeError> {
    SignedData::decode(alloc, source_of(alloc, digits)?)
}

/// Whether the signed data that these octets are is written as expected.
pub(super) fn is_written_as<Alg: SignatureAlgorithm + Drop + 'static>(
    alloc: Global,
    digits: &str,
    expected: &str,
) -> Result<bool, DecodeError>
where
    Alg::Encoder: Drop,
{
    let signed = decoded_by::<Alg>(alloc, digits)?;
    match written(alloc, &signed.encode_ref())? {
        Some(found) => Ok(found == source_of(alloc, expected)?),
        None => Ok(false),
    }
}

#[test]
fn signed_data_is_written_again(rt: HostRuntime) -> Result<(), Fail> {
    for (name, digits, _, _, expected) in ROWS {
        let same = is_written_as::<RpkiSignatureAlgorithm>(rt.alloc(), digits, expected)?;
        assert!(rt; same, "{name}");
    }
    Ok(())
}

#[test]
fn signed_data_is_compared(rt: HostRuntime) -> Result<(), Fail> {
    let first = decoded(rt.alloc(), SIGNED)?;
    for (name, digits, _, equal, _) in ROWS {
        let signed = decoded(rt.alloc(), digits)?;
        assert_eq!(rt; signed == first, *equal, "{name}");
    }
    Ok(())
}

#[test]
fn signed_data_has_parts(rt: HostRuntime) -> Result<(), Fail> {
    for (name, digits, data, _, _) in ROWS {
        let signed = decoded(rt.alloc(), digits)?.clone()?;
        let data = source_of(rt.alloc(), data)?;
        assert_eq!(rt; signed.data().as_slice(), data.as_slice(), "value: {name}");
        let signature = signed.signature().value().as_slice();
        assert_eq!(rt; signature, b"\xAA".as_slice(), "signature: {name}");
    }
    Ok(())
}

/// Octets that are no signed data.
#[rattlefmt::skip]
const REFUSED: &[(&str, &str, Outcome)] = &[
    ("two unused bits that are not zero", "30153000300d06092a864886f70d01010b0500030202aa", Outcome::Content),
    ("value that passes the end of the one that contains it", "301730020405300d06092a864886f70d01010b0500030200aa",
        Outcome::Truncated),
    ("octet after the signature", "30163000300d06092a864886f70d01010b0500030200aa00", Outcome::Trailing),
    ("octet after the SEQUENCE", "30153000300d06092a864886f70d01010b0500030200aa00", Outcome::Trailing),
    ("empty SEQUENCE", "3000", Outcome::Truncated),
    ("SET", "3100", Outcome::Unexpected),
    ("length in long form", "308100", Outcome::BadLength),
    ("nothing", "", Outcome::Truncated),
];

#[test]
fn other_octets_are_no_signed_data(rt: HostRuntime) {
    for (name, digits, expected) in REFUSED {
        let outcome = outcome_of(decoded(rt.alloc(), digits));
        assert_eq!(rt; outcome, *expected, "{name}");
    }
}

/// Octets that begin with the three parts, and with signed data; a NULL follows in both.
const PARTS_AND_NULL: &str = "3000300d06092a864886f70d01010b0500030200aa0500";

const SIGNED_AND_NULL: &str = "30153000300d06092a864886f70d01010b0500030200aa0500";

/// The signed data at the front, in its SEQUENCE or as the three parts alone, and how many octets follow it.
fn read_front(
    alloc: Global,
    in_sequence: bool,
    digits: &str,
) -> Result<(SignedData, usize), DecodeError> {
    let source = source_of(alloc, digits)?;
    let mut cons = Constructed::new(&source);
    let signed = if in_sequence {
        SignedData::take_from(alloc, &mut cons)?
    } else {
        SignedData::from_constructed(alloc, &mut cons)?
    };
    Ok((signed, cons.rest().len()))
}

/// Octets that begin with no parts of signed data.
#[rattlefmt::skip]
const NO_PARTS: &[(&str, &str, Outcome)] = &[
    ("nothing", "", Outcome::Truncated),
    ("value that passes the end", "0405", Outcome::Truncated),
    ("nothing after a value", "3000", Outcome::Truncated),
    ("another algorithm", "300030050603550403030200aa", Outcome::Content),
];

#[test]
fn parts_are_refused(rt: HostRuntime) {
    for (name, digits, expected) in NO_PARTS {
        let outcome = outcome_of(read_front(rt.alloc(), false, digits));
        assert_eq!(rt; outcome, *expected, "{name}");
    }
}

const FRONTS: &[(&str, bool, &str)] = &[
    ("three parts", false, PARTS_AND_NULL),
    ("SEQUENCE", true, SIGNED_AND_NULL),
];

#[test]
fn signed_data_is_read_one_by_one(rt: HostRuntime) -> Result<(), Fail> {
    let first = decoded(rt.alloc(), SIGNED)?;
    for (name, in_sequence, digits) in FRONTS {
        let (signed, left) = read_front(rt.alloc(), *in_sequence, digits)?;
        assert_eq!(rt; (signed == first, left), (true, 2), "{name}");
    }
    Ok(())
}

#[test]
fn signed_data_is_made_of_its_parts(rt: HostRuntime) -> Result<(), Fail> {
    let source = source_of(rt.alloc(), PARTS_AND_NULL)?;
    let value = Constructed::new(&source).capture_one(rt.alloc())?;
    let signature = signature_of(rt.alloc(), RSA_SIGNATURE, "aa")?;
    assert!(rt; SignedData::new(value, signature) == decoded(rt.alloc(), SIGNED)?);
    Ok(())
}
