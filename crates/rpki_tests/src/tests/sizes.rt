//! Keys and signatures of real sizes, written and read again. `tests/hostile` has more sizes, and all other calls.

use super::written;
use bytes::Bytes;
use rpki::crypto::{PublicKey, RpkiSignatureAlgorithm, SignatureAlgorithm};
use rpki::repository::x509::SignedData;
use rpki_der::{BitString, Constructed, DecodeError, PrimitiveContent, Sequence};
use std::alloc::Global;
use std::test::Fail;

/// The octets of the largest number, and of the largest signature.
static OCTETS: [u8; 512] = [0xC1; 512];

/// How many octets there are: about the largest length that takes one octet, about the largest that takes two, and as
/// RSA keys of 2,048 and of 4,096 bits have.
const SIZES: &[usize] = &[1, 127, 128, 255, 256, 512];

/// So many of the octets.
fn octets_of(size: usize) -> &'static [u8] {
    &OCTETS[..size.min(512)]
}

/// Whether the RSA key whose modulus has so many octets is written, and read again.
fn key_is_read_again(alloc: Global, size: usize) -> Result<bool, Fail> {
    let key = PublicKey::rsa_from_components(alloc, octets_of(size), &[1, 0, 1])?;
    let octets = written(alloc, &key.encode_ref())?.ok_or("too long")?;
    let again = PublicKey::decode(alloc, octets)?;
    Ok(again == key && again.clone()? == key)
}

#[test]
fn keys_of_real_sizes(rt: HostRuntime) -> Result<(), Fail> {
    for size in SIZES {
        assert!(rt; key_is_read_again(rt.alloc(), *size)?, "{size} octets");
    }
    Ok(())
}

/// Signed data whose signature is these octets; None where it is too long.
fn signed_by(alloc: Global, signature: &[u8]) -> Result<Option<Bytes>, DecodeError> {
    let source = Bytes::from_static(b"\x30\x00");
    let data = Constructed::new(&source).capture_one(alloc)?;
    let algorithm = RpkiSignatureAlgorithm::default();
    let bits = BitString::new(0, Bytes::copy_from_slice(alloc, signature)?);
    let values = Sequence::new((&data, algorithm.x509_encode(), bits.encode()));
    Ok(written(alloc, &values)?)
}

/// Whether signed data with a signature of so many octets is read, and a copy of it written again.
fn signature_is_read(alloc: Global, size: usize) -> Result<bool, Fail> {
    let octets = signed_by(alloc, octets_of(size))?.ok_or("too long")?;
    let signed: SignedData = SignedData::decode(alloc, octets.clone()?)?;
    let copy = signed.clone()?;
    let again = written(alloc, &copy.encode_ref())?.ok_or("too long")?;
    Ok(again == octets && signed.signature().value().as_slice() == octets_of(size))
}

#[test]
fn signatures_of_real_sizes(rt: HostRuntime) -> Result<(), Fail> {
    for size in SIZES {
        assert!(rt; signature_is_read(rt.alloc(), *size)?, "{size} octets");
    }
    Ok(())
}
