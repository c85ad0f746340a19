//! The provider of the program: its table, its digests, and what it verifies.

use super::{ABC_KEY, FIRST};
use crate::provider::{BenchProvider, Row};
use bytes::Bytes;
use rpki::crypto::{DigestAlgorithm, Provider, PublicKey, RpkiSignatureAlgorithm, sha1_digest};
use rpki::repository::x509::SignedData;
use std::alloc::{AllocError, Global};
use std::test::Fail;

/// The bits of a key, a message, and its signature.
type RowOctets = (&'static [u8], &'static [u8], &'static [u8]);

/// A table of these rows.
fn table_of(alloc: Global, rows: &[RowOctets]) -> Result<Vec<Row>, AllocError> {
    let mut table = Vec::new(alloc);
    for (bits, message, signature) in rows {
        let bits = Vec::from_slice(alloc, bits)?;
        let message = Vec::from_slice(alloc, message)?;
        let signature = Vec::from_slice(alloc, signature)?;
        table.push((bits, message, signature))?;
    }
    Ok(table)
}

/// A table of two rows.
const TWO_ROWS: [RowOctets; 2] = [
    (b"bits", b"message", b"signature"),
    (b"abc", &[0x30, 0x00], &[]),
];

/// What is looked up in it, and whether it is there.
const LOOKED_UP: &[(&str, RowOctets, bool)] = &[
    ("the first row", (b"bits", b"message", b"signature"), true),
    ("the second row", (b"abc", &[0x30, 0x00], &[]), true),
    ("shorter bits", (b"bit", b"message", b"signature"), false),
    (
        "a longer message",
        (b"bits", b"messages", b"signature"),
        false,
    ),
    ("no signature", (b"bits", b"message", b""), false),
    (
        "bits and signature exchanged",
        (b"signature", b"message", b"bits"),
        false,
    ),
    (
        "bits of the second row",
        (b"abc", b"message", b"signature"),
        false,
    ),
    (
        "bits of the first row",
        (b"bits", &[0x30, 0x00], &[]),
        false,
    ),
    ("nothing", (b"", b"", b""), false),
];

fn looked_up_rows() -> &'static [(&'static str, RowOctets, bool)] {
    LOOKED_UP
}

/// Whether the row is there, as the provider says of RSA and of ECDSA.
fn is_there(provider: &BenchProvider, (bits, message, signature): RowOctets) -> (bool, bool) {
    (
        provider.rsa_check(bits, message, signature),
        provider.ecdsa_check(bits, message, signature),
    )
}

#[test]
fn signatures_of_a_table(rt: HostRuntime) -> Result<(), Fail> {
    let provider = BenchProvider::new(table_of(rt.alloc(), &TWO_ROWS)?);
    for (name, row, there) in looked_up_rows() {
        assert!(rt; is_there(&provider, *row) == (*there, *there), "{name}");
    }
    Ok(())
}

#[test]
fn digests(rt: HostRuntime) -> Result<(), Fail> {
    let provider = BenchProvider::new(Vec::new(rt.alloc()));
    assert_eq!(rt;
        sha1_digest(&provider, b""),
        [
            0xda, 0x39, 0xa3, 0xee, 0x5e, 0x6b, 0x4b, 0x0d, 0x32, 0x55, 0xbf, 0xef, 0x95, 0x60,
            0x18, 0x90, 0xaf, 0xd8, 0x07, 0x09,
        ]
    );
    assert_eq!(rt;
        DigestAlgorithm::default().digest(&provider, b"abc"),
        [
            0xba, 0x78, 0x16, 0xbf, 0x8f, 0x01, 0xcf, 0xea, 0x41, 0x41, 0x40, 0xde, 0x5d, 0xae,
            0x22, 0x23, 0xb0, 0x03, 0x61, 0xa3, 0x96, 0x17, 0x7a, 0x9c, 0xb4, 0x10, 0xff, 0x61,
            0xf2, 0x00, 0x15, 0xad,
        ]
    );
    Ok(())
}

/// Signed data with an unused bit of the signature.
const WITH_COUNT: &[u8] =
    b"\x30\x15\x30\x00\x30\x0d\x06\x09\x2a\x86\x48\x86\xf7\x0d\x01\x01\x0b\x05\x00\x03\x02\x01\xaa";

/// Whether the signed data is by the key, as the provider says; no where the one or the other is rejected.
fn verifies(alloc: Global, provider: &BenchProvider, octets: &'static [u8]) -> bool {
    let key = match PublicKey::decode(alloc, Bytes::from_static(ABC_KEY)) {
        Ok(key) => key,
        Err(_) => return false,
    };
    match SignedData::<RpkiSignatureAlgorithm>::decode(alloc, Bytes::from_static(octets)) {
        Ok(signed) => signed.verify_signature(provider, &key).is_ok(),
        Err(_) => false,
    }
}

/// Whether signed data verifies, without unused bits of the signature and with one.
fn both_verify(alloc: Global, provider: &BenchProvider) -> (bool, bool) {
    (
        verifies(alloc, provider, FIRST),
        verifies(alloc, provider, WITH_COUNT),
    )
}

#[test]
fn signed_data_verifies_by_the_table(rt: HostRuntime) -> Result<(), Fail> {
    let table = table_of(rt.alloc(), &[(b"abc", &[0x30, 0x00], &[0xaa])])?;
    let provider = BenchProvider::new(table);
    assert!(rt; both_verify(rt.alloc(), &provider) == (true, true));
    Ok(())
}

#[test]
fn nothing_verifies_by_an_empty_table(rt: HostRuntime) {
    let provider = BenchProvider::new(Vec::new(rt.alloc()));
    assert!(rt; both_verify(rt.alloc(), &provider) == (false, false));
}
