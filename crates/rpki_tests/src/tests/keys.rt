//! Public keys and names of subjects.

use super::{Always, source_of, written};
use rpki::crypto::{PublicKey, PublicKeyFormat};
use rpki::repository::x509::Name;
use rpki_der::{Constructed, ContentError, DecodeError, InvalidInteger, Values};
use rpki_der_tests::hexadecimal::octets_of;
use rpki_der_tests::kinds::{Outcome, outcome_of, refused};
use std::alloc::Global;
use std::test::Fail;

const KEY_OF_COMPONENTS: &str = "301d300d06092a864886f70d0101010500030c003009020200800203010001";

const KEY_OF_ZERO: &str = "301c300d06092a864886f70d0101010500030b0030080201000203010001";

/// A name, a modulus, and the key of it and of the exponent 65,537.
const COMPONENTS: &[(&str, &str, &str)] = &[
    ("128", "0080", KEY_OF_COMPONENTS),
    ("zero", "00", KEY_OF_ZERO),
];

/// The key of this modulus.
fn key_of(alloc: Global, modulus: &str) -> Result<PublicKey, Fail> {
    let modulus = octets_of(alloc, modulus)?;
    Ok(PublicKey::rsa_from_components(alloc, &modulus, &[1, 0, 1])?)
}

#[test]
fn rsa_keys_are_made_of_numbers(rt: HostRuntime) -> Result<(), Fail> {
    for (name, modulus, _) in COMPONENTS {
        let key = key_of(rt.alloc(), modulus)?;
        let again = PublicKey::rsa_from_bits_bytes(key.bits_bytes()?)?;
        assert!(rt; again == key, "{name}");
    }
    Ok(())
}

#[test]
fn rsa_keys_of_numbers_are_written(rt: HostRuntime) -> Result<(), Fail> {
    for (name, modulus, expected) in COMPONENTS {
        let key = key_of(rt.alloc(), modulus)?;
        assert!(rt; key.encode_ref().fits(), "{name}");
        let octets = key.to_info_bytes(rt.alloc())?;
        assert_eq!(rt; octets, source_of(rt.alloc(), expected)?, "{name}");
    }
    Ok(())
}

#[test]
fn numbers_have_octets(rt: HostRuntime) {
    let empty = PublicKey::rsa_from_components(rt.alloc(), &[], &[1, 0, 1]);
    assert_eq!(rt; empty.err(), Some(InvalidInteger::Empty));
}

pub(super) const KEY_OF_ABC: &str = "3015300d06092a864886f70d0101010500030400616263";

const KEY_AND_MORE: &str = "3015300d06092a864886f70d010101050003040061626300";

/// An octet after the bits, within the SEQUENCE.
const KEY_WITH_MORE_INSIDE: &str = "3016300d06092a864886f70d010101050003040061626300";

/// The identifier of a signature algorithm where that of a format is.
const KEY_OF_NO_FORMAT: &str = "3013300d06092a864886f70d01010b050003020080";

const KEY_WITHOUT_BITS: &str = "3012300d06092a864886f70d0101010500030100";

const KEY_WITHOUT_NULL: &str = "3010300b06092a864886f70d010101030100";

pub(super) const P256_KEY: &str = "301a301306072a8648ce3d020106082a8648ce3d0301070303000401";

/// The key that these octets are.
pub(super) fn decoded(alloc: Global, digits: &str) -> Result<PublicKey, DecodeError> {
    PublicKey::decode(alloc, source_of(alloc, digits)?)
}

/// Keys, and the octets of their bits, or the kind of the error.
#[rattlefmt::skip]
const KEYS: &[(&str, &str, Result<&[u8], Outcome>)] = &[
    ("RSA key", KEY_OF_ABC, Ok(b"abc")),
    ("octet after the key", KEY_AND_MORE, Err(Outcome::Trailing)),
    ("octet after the bits", KEY_WITH_MORE_INSIDE, Err(Outcome::Trailing)),
    ("signature algorithm for a format", KEY_OF_NO_FORMAT, Err(Outcome::Content)),
    ("empty SEQUENCE", "3000", Err(Outcome::Truncated)),
    ("RSA key without bits", KEY_WITHOUT_BITS, Ok(b"")),
    ("RSA key without NULL", KEY_WITHOUT_NULL, Ok(b"")),
    ("P-256 key", P256_KEY, Ok(b"\x04\x01")),
    ("SET", "3100", Err(Outcome::Unexpected)),
    ("length in long form", "308100", Err(Outcome::BadLength)),
    ("nothing", "", Err(Outcome::Truncated)),
];

#[test]
fn public_keys_are_read(rt: HostRuntime) -> Result<(), Fail> {
    for (name, digits, expected) in KEYS {
        let same = match (decoded(rt.alloc(), digits), expected) {
            (Ok(key), Ok(bits)) => key.bits_bytes()?.as_slice() == *bits,
            (Err(e), Err(outcome)) => refused(&e) == *outcome,
            _ => false,
        };
        assert!(rt; same, "{name}");
    }
    Ok(())
}

#[test]
fn unknown_formats_of_keys_are_named(rt: HostRuntime) {
    let refused = decoded(rt.alloc(), KEY_OF_NO_FORMAT);
    let unknown = DecodeError::Content(ContentError::from_static("invalid public key format"));
    assert_eq!(rt; refused.err(), Some(unknown));
}

/// Keys, their octets, their formats and their bits.
#[rattlefmt::skip]
const AGAIN: &[(&str, &str, PublicKeyFormat, &[u8])] = &[
    ("RSA key", KEY_OF_ABC, PublicKeyFormat::Rsa, b"abc"),
    ("P-256 key", P256_KEY, PublicKeyFormat::EcdsaP256, b"\x04\x01"),
];

#[test]
fn public_keys_have_parts(rt: HostRuntime) -> Result<(), Fail> {
    for (name, digits, format, bits) in AGAIN {
        let key = decoded(rt.alloc(), digits)?;
        assert_eq!(rt; key.algorithm(), *format, "{name}");
        assert_eq!(rt; key.bits(), *bits, "{name}");
    }
    Ok(())
}

#[test]
fn public_keys_are_allowed_by_their_formats(rt: HostRuntime) -> Result<(), Fail> {
    for (name, digits, format, _) in AGAIN {
        let key = decoded(rt.alloc(), digits)?;
        let found = (key.allow_rpki_cert(), key.allow_router_cert());
        let expected = (format.allow_rpki_cert(), format.allow_router_cert());
        assert_eq!(rt; found, expected, "{name}");
    }
    Ok(())
}

#[test]
fn public_keys_are_written(rt: HostRuntime) -> Result<(), Fail> {
    for (name, digits, _, _) in AGAIN {
        let key = decoded(rt.alloc(), digits)?;
        let octets = written(rt.alloc(), &key.encode_ref())?.ok_or("too long")?;
        assert_eq!(rt; octets, source_of(rt.alloc(), digits)?, "{name}");
    }
    Ok(())
}

#[test]
fn public_keys_are_written_by_their_owner(rt: HostRuntime) -> Result<(), Fail> {
    for (name, digits, _, _) in AGAIN {
        let copy = decoded(rt.alloc(), digits)?.clone()?;
        let octets = written(rt.alloc(), &copy.encode())?.ok_or("too long")?;
        assert_eq!(rt; octets, source_of(rt.alloc(), digits)?, "{name}");
    }
    Ok(())
}

#[test]
fn public_keys_are_read_one_by_one(rt: HostRuntime) -> Result<(), Fail> {
    let source = source_of(rt.alloc(), KEY_AND_MORE)?;
    let mut cons = Constructed::new(&source);
    let key = PublicKey::take_from(rt.alloc(), &mut cons)?;
    assert!(rt; key == decoded(rt.alloc(), KEY_OF_ABC)?);
    assert_eq!(rt; cons.rest(), b"\x00".as_slice());
    Ok(())
}

/// The bits 1000 0000, all of them or all but the last; and the same octet as bits of a P-256 key.
const EIGHT_BITS: &str = "3013300d06092a864886f70d010101050003020080";

const SEVEN_BITS: &str = "3013300d06092a864886f70d010101050003020180";

const P256_BITS: &str = "3019301306072a8648ce3d020106082a8648ce3d03010703020080";

const COMPARED: &[(&str, &str, bool)] = &[
    ("the same bits", EIGHT_BITS, true),
    ("an unused bit", SEVEN_BITS, false),
    ("another format", P256_BITS, false),
    ("other bits", KEY_OF_ABC, false),
];

#[test]
fn public_keys_are_compared(rt: HostRuntime) -> Result<(), Fail> {
    let first = decoded(rt.alloc(), EIGHT_BITS)?;
    for (name, digits, equal) in COMPARED {
        let key = decoded(rt.alloc(), digits)?;
        assert_eq!(rt; key == first, *equal, "{name}");
        assert!(rt; key.clone()? == key, "a copy: {name}");
    }
    Ok(())
}

const RSA_BITS: &[(&str, &str, Outcome)] = &[
    ("two numbers", "3006020103020105", Outcome::Read),
    (
        "octet after the SEQUENCE",
        "300602010302010500",
        Outcome::Trailing,
    ),
    ("three numbers", "3009020103020105020107", Outcome::Trailing),
];

#[test]
fn rsa_bits_are_read_whole(rt: HostRuntime) -> Result<(), Fail> {
    for (name, digits, expected) in RSA_BITS {
        let key = PublicKey::rsa_from_bits_bytes(source_of(rt.alloc(), digits)?);
        assert_eq!(rt; outcome_of(key), *expected, "{name}");
    }
    Ok(())
}

/// The name whose common name is A9993E364706816ABA3E25717850C26C9CD0D89D.
pub(super) const SUBJECT: &str = "30333131302f06035504031328\
    41393939334533363437303638313641424133453235373137383530433236433943443044383944";

#[test]
fn subjects_are_named_by_their_keys(rt: HostRuntime) -> Result<(), Fail> {
    let key = decoded(rt.alloc(), KEY_OF_ABC)?;
    let encoder = key.encode_subject_name(&Always { answer: true });
    let name = written(rt.alloc(), &encoder)?.ok_or("too long")?;
    assert_eq!(rt; name, source_of(rt.alloc(), SUBJECT)?);
    Ok(())
}

#[test]
fn names_of_keys_are_strict(rt: HostRuntime) -> Result<(), Fail> {
    let key = decoded(rt.alloc(), KEY_OF_ABC)?;
    let name = Name::from_pub_key(rt.alloc(), &Always { answer: true }, &key)?;
    let expected = source_of(rt.alloc(), SUBJECT)?;
    assert_eq!(rt; name.view().octets(), expected.as_slice());
    assert!(rt; name.inspect_rpki(true).is_ok(), "a name of the RPKI");
    assert!(rt; name.inspect_router(true).is_ok(), "a name of a router");
    let named = key.to_subject_name(rt.alloc(), &Always { answer: true })?;
    assert!(rt; named == name, "the same name, by the key");
    Ok(())
}
