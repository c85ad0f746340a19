//! Equality, order and hashes of key identifiers, algorithms and formats; and the tags of contents.

use super::algorithms::{RSA_SIGNATURE, RSA_SIGNATURE_WITHOUT};
use super::{source_of, written};
use rpki::crypto::{
    KeyIdentifier, PublicKeyCn, PublicKeyFormat, RpkiSignatureAlgorithm, SignatureAlgorithm,
    SigningAlgorithm,
};
use rpki::repository::x509::SignatureValueContent;
use rpki_der::{Constructed, PrimitiveContent, Tag};
use std::cmp::Ordering;
use std::hash::{DefaultHasher, Hash, Hasher};
use std::test::Fail;

fn hash_of<T: Hash>(value: &T) -> u64 {
    let mut state = DefaultHasher::new();
    value.hash(&mut state);
    state.finish()
}

const MIDDLE: [u8; 20] = [
    0x80, 1, 2, 3, 4, 5, 6, 7, 8, 9, 10, 11, 12, 13, 14, 15, 16, 17, 18, 0x80,
];

/// The same but for the first or the last octet, and how they compare to it: the first octet that differs decides.
const OTHERS: &[(&str, u8, u8, Ordering)] = &[
    ("the same octets", 0x80, 0x80, Ordering::Equal),
    ("first octet less", 0x7F, 0x80, Ordering::Less),
    ("first octet greater", 0x81, 0x80, Ordering::Greater),
    ("last octet less", 0x80, 0x7F, Ordering::Less),
    ("last octet greater", 0x80, 0x81, Ordering::Greater),
    ("first less, last greater", 0x7F, 0x81, Ordering::Less),
    ("first greater, last less", 0x81, 0x7F, Ordering::Greater),
];

/// The identifier of the middle but for the first and the last octet.
fn identifier_with(first: u8, last: u8) -> KeyIdentifier {
    let mut octets = MIDDLE;
    octets[0] = first;
    octets[19] = last;
    KeyIdentifier::from(octets)
}

#[test]
fn identifiers_are_compared(rt: HostRuntime) {
    let middle = KeyIdentifier::from(MIDDLE);
    for (name, first, last, order) in OTHERS {
        let other = identifier_with(*first, *last);
        let found = (other == middle, hash_of(&other) == hash_of(&middle));
        let same = *order == Ordering::Equal;
        assert_eq!(rt; found, (same, same), "{name}");
    }
}

#[test]
fn identifiers_are_ordered(rt: HostRuntime) {
    let middle = KeyIdentifier::from(MIDDLE);
    for (name, first, last, order) in OTHERS {
        let other = identifier_with(*first, *last);
        assert_eq!(rt; other.cmp(&middle), *order, "{name}");
        assert_eq!(rt; other.partial_cmp(&middle), Some(*order), "{name}");
    }
}

/// Algorithms, and whether they are equal to the one with parameters.
const PARAMETERS: [(&str, &str, bool); 2] = [
    ("NULL", RSA_SIGNATURE, true),
    ("none", RSA_SIGNATURE_WITHOUT, false),
];

#[test]
fn parameters_count(rt: HostRuntime) -> Result<(), Fail> {
    let with = RpkiSignatureAlgorithm::default();
    for (name, digits, same) in PARAMETERS {
        let source = source_of(rt.alloc(), digits)?;
        let found = RpkiSignatureAlgorithm::x509_take_from(&mut Constructed::new(&source));
        let found = found.map_err(|_| name)?;
        assert_eq!(rt; found == with, same, "{name}");
        assert_eq!(rt; hash_of(&found) == hash_of(&with), same, "{name}");
    }
    Ok(())
}

#[test]
fn formats_are_compared(rt: HostRuntime) {
    let signing = [
        SigningAlgorithm::RsaSha256,
        SigningAlgorithm::EcdsaP256Sha256,
    ];
    let formats = [PublicKeyFormat::Rsa, PublicKeyFormat::EcdsaP256];
    for i in 0..2 {
        for j in 0..2 {
            assert_eq!(rt; signing[i] == signing[j], i == j, "algorithms {i} and {j}");
            assert_eq!(rt; formats[i] == formats[j], i == j, "formats {i} and {j}");
        }
    }
}

/// A value, its tag, and what is written of no contents with the tag.
#[test]
fn contents_have_tags(rt: HostRuntime) -> Result<(), Fail> {
    let signature = <SignatureValueContent<'static, RpkiSignatureAlgorithm>>::TAG;
    let cases: [(&str, Tag, &[u8]); 3] = [
        ("key identifier", KeyIdentifier::TAG, b"\x04\x00"),
        ("name of a key", PublicKeyCn::TAG, b"\x13\x00"),
        ("signature", signature, b"\x03\x00"),
    ];
    for (name, tag, expected) in cases {
        let octets = written(rt.alloc(), &().encode_as(tag))?.ok_or("too long")?;
        assert_eq!(rt; octets.as_slice(), expected, "{name}");
    }
    Ok(())
}
