//! What a certificate says (RFC 5280 4.1, RFC 6487 4.8), and what is none.

use crate::certificates::{ANCHOR, AUTHORITY, DETACHED, ROUTER, SIGNER};
use bytes::Bytes;
use rpki::der::DecodeError;
use rpki::repository::x509::Serial;
use rpki_cert::{Cert, CertError, CertPart, CertView, KeyUsage, Overclaim, TbsCert};
use rpki_der_tests::changed::changed;
use rpki_der_tests::hexadecimal::octets_of;
use rpki_der_tests::kinds::{Outcome, outcome_of};
use rpki_der_tests::rows;
use std::alloc::{AllocError, Global};
use std::test::Fail;

/// A name; a certificate; its serial number, how many extensions it has, whether it is an authority, and the use of its
/// key, as `openssl x509 -text` prints them.
type Row = (&'static str, &'static str, u64, usize, bool, KeyUsage);

const ROWS: &[Row] = &rows! {
    ("a trust anchor", ANCHOR, 5, 7, true, KeyUsage::Ca),
    ("an authority", AUTHORITY, 7, 10, true, KeyUsage::Ca),
    ("a signer", SIGNER, 11, 8, false, KeyUsage::Ee),
    ("a signer of what is in no repository", DETACHED, 13, 7, false, KeyUsage::Ee),
    ("a router", ROUTER, 15, 8, false, KeyUsage::Ee),
};

/// Whether the certificate says this.
fn says(tbs: &TbsCert, row: &Row) -> bool {
    tbs.serial_number() == Serial::from(row.2)
        && tbs.extensions().len() == row.3
        && tbs.basic_ca() == Ok(row.4)
        && tbs.key_usage() == Ok(Some(row.5))
        && tbs.overclaim() == Ok(Some(Overclaim::Refuse))
}

/// The certificate that the octets are.
fn decode(alloc: Global, octets: &[u8]) -> Result<Cert, DecodeError> {
    let bytes = Bytes::copy_from_slice(alloc, octets)?;
    Ok(Cert::decode(alloc, bytes)?)
}

/// Whether it says this in place, too.
fn says_in_place(octets: &[u8], row: &Row) -> bool {
    match CertView::read(octets) {
        Ok(cert) => match cert.tbs.named.keyed.known() {
            Ok(known) => {
                cert.tbs.serial_number == Serial::from(row.2)
                    && known.ca == row.4
                    && known.key_usage == Some(row.5)
                    && known.overclaim == Some(Overclaim::Refuse)
            }
            Err(_) => false,
        },
        Err(_) => false,
    }
}

#[test]
fn certificates_are_read(rt: HostRuntime) -> Result<(), Fail> {
    for row in ROWS {
        let octets = octets_of(rt.alloc(), row.1)?;
        let cert = decode(rt.alloc(), octets.as_slice())?;
        assert!(rt; says(cert.tbs(), row), "{}", row.0);
        let same = says_in_place(octets.as_slice(), row);
        assert!(rt; same, "{}, in place", row.0);
    }
    Ok(())
}

/// A name, octets of the authority and those in their place, how reading it ends, and the malformed part.
const WRONG: &[(&str, &str, &str, Outcome, CertPart)] = &rows! {
    ("a SET around all", "3082044f3082", "3182044f3082", Outcome::Unexpected, CertPart::Certificate),
    ("version 2", "a003020102", "a003020101", Outcome::Content, CertPart::Version),
    ("a serial number below 0", "020107300d", "020187300d", Outcome::Content, CertPart::SerialNumber),
    ("sha384WithRSAEncryption in what is signed", "06092a864886f70d01010b0500300d310b",
     "06092a864886f70d01010c0500300d310b", Outcome::Content, CertPart::TbsAlgorithm),
    ("sha384WithRSAEncryption behind it", "06092a864886f70d01010b05000382", "06092a864886f70d01010c05000382",
     Outcome::Content, CertPart::Algorithm),
    ("an issuer of two SEQUENCEs", "310b3009060355040313027461301e", "300b3009060355040313027461301e",
     Outcome::Unexpected, CertPart::Issuer),
    ("a period of strings", "301e170d", "301e160d", Outcome::Content, CertPart::Validity),
    ("a subject without identifier", "0603550403130263613082", "0503550403130263613082", Outcome::Unexpected,
     CertPart::Subject),
    ("another key", "06092a864886f70d010101", "06092a864886f70d010102", Outcome::Content, CertPart::PublicKey),
    ("an extension twice", "0603551d23", "0603551d0e", Outcome::Content, CertPart::ExtensionIdentifiers),
    ("an extension of a BIT STRING", "0603551d0e0416", "0603551d0e0316", Outcome::Unexpected, CertPart::Extensions),
};

/// How reading ends, and the malformed part.
fn told<T: Drop>(answer: Result<T, CertError>) -> (Outcome, Option<CertPart>) {
    match answer {
        Ok(_) => (Outcome::Read, None),
        Err(wrong) => (outcome_of::<()>(Err(wrong.error)), Some(wrong.part)),
    }
}

/// How octets are decoded, and read in place.
fn both(alloc: Global, octets: &[u8]) -> Result<[(Outcome, Option<CertPart>); 2], AllocError> {
    let bytes = Bytes::copy_from_slice(alloc, octets)?;
    Ok([
        told(Cert::decode(alloc, bytes)),
        told(CertView::read(octets)),
    ])
}

#[test]
fn others_are_rejected(rt: HostRuntime) -> Result<(), Fail> {
    for (name, from, to, outcome, part) in WRONG {
        let octets = changed(rt.alloc(), AUTHORITY, &[(*from, *to)])?;
        assert!(rt; octets.is_some(), "{name}: no such octets");
        let octets = octets.unwrap_or(Vec::new(rt.alloc()));
        let wanted = (*outcome, Some(*part));
        let [decoded, viewed] = both(rt.alloc(), octets.as_slice())?;
        assert_eq!(rt; decoded, wanted, "{name}");
        assert_eq!(rt; viewed, wanted, "{name}, in place");
    }
    Ok(())
}

/// Each beginning of a certificate is none.
#[test]
fn beginnings_are_rejected(rt: HostRuntime) -> Result<(), Fail> {
    let octets = octets_of(rt.alloc(), AUTHORITY)?;
    for size in 0..octets.len() {
        let front = &octets.as_slice()[..size];
        let wanted = (Outcome::Truncated, Some(CertPart::Certificate));
        let [decoded, viewed] = both(rt.alloc(), front)?;
        assert_eq!(rt; decoded, wanted, "{size}");
        assert_eq!(rt; viewed, wanted, "{size}, in place");
    }
    Ok(())
}
