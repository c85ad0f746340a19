//! Algorithm identifiers.

use super::writers::{Ended, Fault, NO_FAULT, written_until};
use super::{Always, DIGEST_OF_ABC, source_of};
use rpki::crypto::{
    BgpsecSignatureAlgorithm, DigestAlgorithm, PublicKeyFormat, RpkiSignatureAlgorithm,
    SignatureAlgorithm, SigningAlgorithm, sha1_digest,
};
use rpki_der::{Constructed, ContentError, DecodeError};
use rpki_der_tests::kinds::{Outcome, optional_outcome_of, outcome_of};
use std::alloc::{AllocError, Global};
use std::test::Fail;

#[derive(Clone, Copy)]
enum Reader {
    Digest,
    OptionalDigest,
    DigestSet,
    SkippedSet,
    DigestName,
    Format,
    Rpki,
    Cms,
    Bgpsec,
}

/// How the reader ended, and how many octets remain.
fn read(alloc: Global, reader: Reader, digits: &str) -> Result<(Outcome, usize), AllocError> {
    let source = source_of(alloc, digits)?;
    let mut cons = Constructed::new(&source);
    let outcome = match reader {
        Reader::Digest => outcome_of(DigestAlgorithm::take_from(&mut cons)),
        Reader::OptionalDigest => optional_outcome_of(DigestAlgorithm::take_opt_from(&mut cons)),
        Reader::DigestSet => outcome_of(DigestAlgorithm::take_set_from(&mut cons)),
        Reader::SkippedSet => outcome_of(DigestAlgorithm::skip_set(&mut cons)),
        Reader::DigestName => outcome_of(DigestAlgorithm::take_oid_from(&mut cons)),
        Reader::Format => outcome_of(PublicKeyFormat::take_from(&mut cons)),
        Reader::Rpki => outcome_of(RpkiSignatureAlgorithm::x509_take_from(&mut cons)),
        Reader::Cms => outcome_of(RpkiSignatureAlgorithm::cms_take_from(&mut cons)),
        Reader::Bgpsec => outcome_of(BgpsecSignatureAlgorithm::x509_take_from(&mut cons)),
    };
    Ok((outcome, cons.rest().len()))
}

pub(super) const DIGEST: &str = "300b0609608648016503040201";

const DIGEST_WITH_NULL: &str = "300d06096086480165030402010500";

pub(super) const DIGEST_SET: &str = "310d300b0609608648016503040201";

const DIGEST_TWICE: &str = "311a300b0609608648016503040201300b0609608648016503040201";

pub(super) const DIGEST_NAME: &str = "0609608648016503040201";

pub(super) const RSA_KEY: &str = "300d06092a864886f70d0101010500";

const RSA_KEY_WITHOUT: &str = "300b06092a864886f70d010101";

pub(super) const P256_KEY: &str = "301306072a8648ce3d020106082a8648ce3d030107";

const CURVE_MISSING: &str = "300906072a8648ce3d0201";

pub(super) const RSA_SIGNATURE: &str = "300d06092a864886f70d01010b0500";

pub(super) const RSA_SIGNATURE_WITHOUT: &str = "300b06092a864886f70d01010b";

pub(super) const BGPSEC: &str = "300a06082a8648ce3d040302";

const BGPSEC_WITH_NULL: &str = "300c06082a8648ce3d0403020500";

#[rattlefmt::skip]
const READINGS: &[(&str, Reader, &str, (Outcome, usize))] = &[
    ("digest", Reader::Digest, DIGEST, (Outcome::Read, 0)),
    ("digest with NULL", Reader::Digest, DIGEST_WITH_NULL, (Outcome::Read, 0)),
    ("RSA key for a digest", Reader::Digest, RSA_KEY, (Outcome::Content, 15)),
    ("optional digest", Reader::OptionalDigest, DIGEST, (Outcome::Read, 0)),
    ("no digest", Reader::OptionalDigest, DIGEST_NAME, (Outcome::Absent, 11)),
    ("primitive SEQUENCE for a digest", Reader::OptionalDigest, "1000", (Outcome::Unexpected, 2)),
    ("set of digests", Reader::DigestSet, DIGEST_SET, (Outcome::Read, 0)),
    ("SEQUENCE for a set of digests", Reader::DigestSet, "3000", (Outcome::Unexpected, 2)),
    ("skipped set of digests", Reader::SkippedSet, DIGEST_SET, (Outcome::Read, 0)),
    ("empty skipped set", Reader::SkippedSet, "3100", (Outcome::Truncated, 2)),
    ("skipped set of two digests", Reader::SkippedSet, DIGEST_TWICE, (Outcome::Trailing, 28)),
    ("name of a digest", Reader::DigestName, DIGEST_NAME, (Outcome::Read, 0)),
    ("SEQUENCE for the name of a digest", Reader::DigestName, DIGEST, (Outcome::Unexpected, 13)),
    ("RSA key", Reader::Format, RSA_KEY, (Outcome::Read, 0)),
    ("RSA key without NULL", Reader::Format, RSA_KEY_WITHOUT, (Outcome::Read, 0)),
    ("P-256 key", Reader::Format, P256_KEY, (Outcome::Read, 0)),
    ("key without a curve", Reader::Format, CURVE_MISSING, (Outcome::Truncated, 11)),
    ("signature for a key", Reader::Format, BGPSEC, (Outcome::Content, 12)),
    ("SET for a key", Reader::Format, "3100", (Outcome::Unexpected, 2)),
    ("key with a length in long form", Reader::Format, "308100", (Outcome::BadLength, 3)),
    ("RSA signature", Reader::Rpki, RSA_SIGNATURE, (Outcome::Read, 0)),
    ("RSA signature without NULL", Reader::Rpki, RSA_SIGNATURE_WITHOUT, (Outcome::Read, 0)),
    ("RSA key for a signature", Reader::Rpki, RSA_KEY, (Outcome::Content, 15)),
    ("RSA key in CMS", Reader::Cms, RSA_KEY, (Outcome::Read, 0)),
    ("RSA key in CMS without NULL", Reader::Cms, RSA_KEY_WITHOUT, (Outcome::Read, 0)),
    ("RSA signature in CMS", Reader::Cms, RSA_SIGNATURE, (Outcome::Read, 0)),
    ("RSA signature in CMS without NULL", Reader::Cms, RSA_SIGNATURE_WITHOUT, (Outcome::Read, 0)),
    ("BGPsec signature in CMS", Reader::Cms, BGPSEC, (Outcome::Content, 12)),
    ("BGPsec signature", Reader::Bgpsec, BGPSEC, (Outcome::Read, 0)),
    ("BGPsec signature with NULL", Reader::Bgpsec, BGPSEC_WITH_NULL, (Outcome::Trailing, 14)),
    ("RSA signature for BGPsec", Reader::Bgpsec, RSA_SIGNATURE, (Outcome::Content, 15)),
];

#[test]
fn algorithm_identifiers_are_read(rt: HostRuntime) -> Result<(), Fail> {
    for (name, reader, digits, expected) in READINGS {
        assert_eq!(rt; read(rt.alloc(), *reader, digits)?, *expected, "{name}");
    }
    Ok(())
}

const WITH_PARAMETERS: &[(&str, &str, bool)] = &[
    ("RSA key", RSA_KEY, true),
    ("RSA key without NULL", RSA_KEY_WITHOUT, false),
    ("RSA signature", RSA_SIGNATURE, true),
    ("RSA signature without NULL", RSA_SIGNATURE_WITHOUT, false),
];

/// What the reader of CMS reads.
fn read_of_cms(alloc: Global, digits: &str) -> Result<RpkiSignatureAlgorithm, DecodeError> {
    let source = source_of(alloc, digits)?;
    RpkiSignatureAlgorithm::cms_take_from(&mut Constructed::new(&source))
}

#[test]
fn parameters_are_remembered(rt: HostRuntime) -> Result<(), Fail> {
    for (name, digits, expected) in WITH_PARAMETERS {
        let algorithm = read_of_cms(rt.alloc(), digits).map_err(|_| *name)?;
        assert_eq!(rt; algorithm.has_parameters(), *expected, "{name}");
    }
    Ok(())
}

/// What is written.
#[derive(Clone, Copy, Debug)]
pub(super) enum Writer {
    Digest,
    DigestSet,
    DigestName,
    RsaKey,
    P256Key,
    Rpki,
    Cms,
    Bgpsec,
}

pub(super) const WRITINGS: &[(Writer, &str)] = &[
    (Writer::Digest, DIGEST),
    (Writer::DigestSet, DIGEST_SET),
    (Writer::DigestName, DIGEST_NAME),
    (Writer::RsaKey, RSA_KEY),
    (Writer::P256Key, P256_KEY),
    (Writer::Rpki, RSA_SIGNATURE),
    (Writer::Cms, RSA_KEY),
    (Writer::Bgpsec, BGPSEC),
];

/// Writes to a writer that fails so.
pub(super) fn write(alloc: Global, fault: Fault, writer: Writer) -> Result<Ended, Fail> {
    let digest = DigestAlgorithm::default();
    let rpki = RpkiSignatureAlgorithm::default();
    match writer {
        Writer::Digest => written_until(alloc, fault, &digest.encode()),
        Writer::DigestSet => written_until(alloc, fault, &digest.encode_set()),
        Writer::DigestName => written_until(alloc, fault, &digest.encode_oid()),
        Writer::RsaKey => written_until(alloc, fault, &PublicKeyFormat::from(rpki).encode()),
        Writer::P256Key => written_until(alloc, fault, &PublicKeyFormat::EcdsaP256.encode()),
        Writer::Rpki => written_until(alloc, fault, &rpki.x509_encode()),
        Writer::Cms => written_until(alloc, fault, &rpki.cms_encode()),
        Writer::Bgpsec => {
            let bgpsec = BgpsecSignatureAlgorithm::default();
            written_until(alloc, fault, &bgpsec.x509_encode())
        }
    }
}

#[test]
fn algorithm_identifiers_are_written(rt: HostRuntime) -> Result<(), Fail> {
    for (writer, expected) in WRITINGS {
        let octets = write(rt.alloc(), NO_FAULT, *writer)?.octets;
        let expected = source_of(rt.alloc(), expected)?;
        assert_eq!(rt; octets, expected, "{writer:?}");
    }
    Ok(())
}

#[test]
fn unknown_identifiers_are_named(rt: HostRuntime) -> Result<(), Fail> {
    let source = source_of(rt.alloc(), DIGEST)?;
    let format = PublicKeyFormat::take_from(&mut Constructed::new(&source)).err();
    let algorithm = read_of_cms(rt.alloc(), DIGEST).err();
    for (found, text) in [
        (format, "invalid public key format"),
        (algorithm, "invalid signature algorithm"),
    ] {
        let expected = DecodeError::Content(ContentError::from_static(text));
        assert_eq!(rt; found, Some(expected), "{text}");
    }
    Ok(())
}

/// The signing algorithm of a signature algorithm, and whether the keys of both have the same format; and whether
/// certificates of the RPKI and those of routers may have its keys.
fn facts_of<A: SignatureAlgorithm>(algorithm: &A) -> (SigningAlgorithm, bool, (bool, bool)) {
    let (signing, format) = (algorithm.signing_algorithm(), algorithm.public_key_format());
    let allowed = (format.allow_rpki_cert(), format.allow_router_cert());
    (signing, signing.public_key_format() == format, allowed)
}

#[test]
fn algorithms_have_formats(rt: HostRuntime) {
    let rpki = facts_of(&RpkiSignatureAlgorithm::default());
    let expected = (SigningAlgorithm::RsaSha256, true, (true, false));
    assert_eq!(rt; rpki, expected, "RPKI");
    let bgpsec = facts_of(&BgpsecSignatureAlgorithm::default());
    let expected = (SigningAlgorithm::EcdsaP256Sha256, true, (false, true));
    assert_eq!(rt; bgpsec, expected, "BGPsec");
}

#[test]
fn digests_are_the_providers(rt: HostRuntime) {
    let provider = Always { answer: false };
    let algorithm = DigestAlgorithm::sha256();
    assert!(rt; algorithm.is_sha256());
    assert_eq!(rt; algorithm.digest_len(), 32);
    assert_eq!(rt; algorithm.digest(&provider, b"abc"), [0xAB; 32]);
    assert_eq!(rt; sha1_digest(&provider, b"abc"), DIGEST_OF_ABC);
}
