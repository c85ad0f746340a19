//! Key identifiers.

use super::keys::{KEY_OF_ABC, decoded};
use super::{Always, DIGEST_OF_ABC, source_of, written};
use rpki::crypto::{
    KeyIdentifier, KeyIdentifierSliceError, ParseKeyIdentifierError, SignatureVerificationError,
};
use rpki_der::{Constructed, Content, ContentError, DecodeError, PrimitiveContent};
use rpki_der_tests::kinds::{Outcome, optional_outcome_of};
use std::test::Fail;

const DIGITS: &str = "A9993E364706816ABA3E25717850C26C9CD0D89D";

/// Texts, and whether they are the identifier of the digest.
const TEXTS: &[(&str, bool)] = &[
    (DIGITS, true),
    ("a9993e364706816aba3e25717850c26c9cd0d89d", true),
    ("A9993E364706816ABA3E25717850C26C9CD0D89", false),
    ("A9993E364706816ABA3E25717850C26C9CD0D89DA", false),
    ("+9993E364706816ABA3E25717850C26C9CD0D89D", false),
    ("A9993E364706816ABA3E25717850C26C9CD0D8+F", false),
    ("G9993E364706816ABA3E25717850C26C9CD0D89D", false),
    ("", false),
];

#[test]
fn identifiers_are_parsed(rt: HostRuntime) {
    for (text, accepted) in TEXTS {
        let found = text.parse::<KeyIdentifier>().ok();
        let expected = accepted.then_some(KeyIdentifier::from(DIGEST_OF_ABC));
        assert_eq!(rt; found, expected, "{text}");
    }
}

#[test]
fn identifiers_are_those_of_keys(rt: HostRuntime) -> Result<(), Fail> {
    let key = decoded(rt.alloc(), KEY_OF_ABC)?;
    let found = key.key_identifier(&Always { answer: true });
    assert_eq!(rt; found.into_hex().as_slice(), DIGITS.as_bytes());
    assert!(rt; found.eq_bytes(&DIGEST_OF_ABC));
    let octets: [u8; 20] = found.into();
    assert_eq!(rt; octets, DIGEST_OF_ABC);
    Ok(())
}

#[test]
fn identifiers_are_shown(rt: HostRuntime) -> Result<(), Fail> {
    let found = KeyIdentifier::from(DIGEST_OF_ABC);
    let shown = format!(in rt.alloc(); "{found} {found:?}")?;
    let expected = format!(in rt.alloc(); "{DIGITS} KeyIdentifier({DIGITS})")?;
    assert_eq!(rt; shown.as_str(), expected.as_str());
    Ok(())
}

pub(super) const SPELLED: &str = "0414a9993e364706816aba3e25717850c26c9cd0d89d";

const NINETEEN: &str = "0413a9993e364706816aba3e25717850c26c9cd0d8";

/// How the optional readers end, one of which passes over the identifier, and how many octets remain.
const OPTIONAL: &[(&str, &str, (Outcome, usize))] = &[
    ("key identifier", SPELLED, (Outcome::Read, 0)),
    ("19 octets", NINETEEN, (Outcome::Content, 21)),
    ("NULL", "0500", (Outcome::Absent, 2)),
    ("nothing", "", (Outcome::Absent, 0)),
    ("one octet", "04", (Outcome::Truncated, 1)),
    ("constructed", "247f", (Outcome::Unexpected, 2)),
];

#[test]
fn identifiers_are_read(rt: HostRuntime) -> Result<(), Fail> {
    for (name, digits, expected) in OPTIONAL {
        let source = source_of(rt.alloc(), digits)?;
        let mut cons = Constructed::new(&source);
        let found = optional_outcome_of(KeyIdentifier::take_opt_from(&mut cons));
        assert_eq!(rt; (found, cons.rest().len()), *expected, "{name}");
        let mut cons = Constructed::new(&source);
        let found = optional_outcome_of(KeyIdentifier::skip_opt_in(&mut cons));
        assert_eq!(rt; (found, cons.rest().len()), *expected, "{name}, skipped");
    }
    let source = source_of(rt.alloc(), NINETEEN)?;
    let found = KeyIdentifier::take_from(&mut Constructed::new(&source)).err();
    let refusal = DecodeError::Content(ContentError::from_static("invalid key identifier"));
    assert_eq!(rt; found, Some(refusal));
    Ok(())
}

#[test]
fn identifiers_are_written(rt: HostRuntime) -> Result<(), Fail> {
    let identifier = KeyIdentifier::from(DIGEST_OF_ABC);
    let octets = written(rt.alloc(), &identifier.encode())?.ok_or("too long")?;
    assert_eq!(rt; octets, source_of(rt.alloc(), SPELLED)?);
    Ok(())
}

#[test]
fn identifiers_are_contents(rt: HostRuntime) -> Result<(), Fail> {
    let identifier = KeyIdentifier::from(DIGEST_OF_ABC);
    let source = source_of(rt.alloc(), SPELLED)?;
    let found = KeyIdentifier::from_content(&Content::Constructed(Constructed::new(&source)));
    assert_eq!(rt; found, Err(DecodeError::Unexpected));
    let found = KeyIdentifier::from_content(&Content::Primitive(&DIGEST_OF_ABC));
    assert_eq!(rt; found, Ok(identifier));
    let found = KeyIdentifier::take_from(&mut Constructed::new(&source));
    assert_eq!(rt; found, Ok(identifier));
    assert!(rt; KeyIdentifier::try_from(source.as_slice()).is_err());
    Ok(())
}

#[test]
fn errors_have_texts(rt: HostRuntime) -> Result<(), Fail> {
    let shown = format!(in rt.alloc();
        "{ParseKeyIdentifierError}; {KeyIdentifierSliceError}; {SignatureVerificationError}; {}",
        ContentError::from(SignatureVerificationError)
    )?;
    let expected = "invalid key identifier; invalid slice for key identifier; \
        signature verification failed; signature verification failed";
    assert_eq!(rt; shown.as_str(), expected);
    Ok(())
}
