//! Signed data of several algorithms, and its verification.

ghost use Rattle.std.specs.Prelude.{[], ◌∷◌};
ghost use Rattle.rpki_der.specs.Cursor.{left};
ghost use Rattle.rpki_der.specs.Format.{Takes};
ghost use Rattle.rpki.specs.AlgorithmFault.{bare};

use super::Always;
use super::keys::{KEY_OF_ABC, P256_KEY, decoded};
use super::signed_data::{SIGNED, SIGNED_WITH_COUNT, decoded_by, is_written_as};
use bytes::Bytes;
use rpki::crypto::{
    BgpsecSignatureAlgorithm, Provider, RpkiSignature, RpkiSignatureAlgorithm, Signature,
    SignatureAlgorithm, SigningAlgorithm,
};
use rpki_der::{ConstOid, Constructed, DecodeError, Oid, Primitive, PrimitiveContent, Sequence};
use std::marker::Model;
use std::test::Fail;

const BGPSEC: &str = "30123000300a06082a8648ce3d040302030200aa";

#[test]
fn bgpsec_signed_data_is_written_again(rt: HostRuntime) -> Result<(), Fail> {
    assert!(rt; is_written_as::<BgpsecSignatureAlgorithm>(rt.alloc(), BGPSEC, BGPSEC)?);
    Ok(())
}

const OWN_NAME: ConstOid = Oid(&[0x2A, 0x03]);

/// An algorithm whose one spelling is a SEQUENCE of the object identifier 1.2.3. It has the laws, and says no more.
#[derive(Clone, Copy, Debug, PartialEq, Eq)]
struct OwnAlgorithm {
    only: (),
}

impl Model for OwnAlgorithm {
    ghost Value = { Unit {0} };

    ghost view = { λ _. tt };

    ghost inverse = { λ _. record { only = tt } };
}

impl SignatureAlgorithm for OwnAlgorithm {
    type Encoder = Sequence<Primitive<ConstOid>>;

    ghost use Rattle.std.specs.Prelude.{[], ◌∷◌, refl};
    ghost use Rattle.std.proofs.Common.{lit<};
    ghost use Rattle.rpki.specs.AlgorithmFault.{bare};
    ghost use Rattle.rpki.specs.SignatureNames.{SpellsBare, bare_octets};
    ghost use Rattle.rpki.specs.BareOctetsLaws.{bare-spelled, bare-value};
    ghost use Rattle.rpki.specs.declared.crypto.keys.PublicKeyFormat.TheVariants.{Rsa};

    ghost spells = { SpellsBare (42 ∷ 3 ∷ []) };

    ghost written = { λ _. bare_octets (42 ∷ 3 ∷ []) };

    ghost norm = { λ a. a };

    ghost format = { λ _. Rsa };

    ghost spelled_value = { λ a s h. bare-value (42 ∷ 3 ∷ []) a s h };

    ghost spells_one = { λ a b s h k. refl };

    ghost written_spells = { λ a. bare-spelled (42 ∷ 3 ∷ []) a (lit< tt) };

    ghost norm_norm = { λ _. refl };

    ghost written_norm = { λ _. refl };

    fn signing_algorithm(&self) -> SigningAlgorithm {
        SigningAlgorithm::RsaSha256
    }

    fn x509_take_from(cons: &mut Constructed<'_>) -> Result<Self, DecodeError>
        ensures { Takes (λ a. a) (bare (42 ∷ 3 ∷ [])) (left cons.old) (left cons.new) result }
    {
        cons.in_sequence(|contents| contents.skip_oid_if(OWN_NAME))?;
        Ok(OwnAlgorithm { only: () })
    }

    fn x509_encode(&self) -> Self::Encoder {
        Sequence::new(OWN_NAME.encode())
    }
}

const OWN: &str = "300c3000300406022a03030200aa";

#[test]
fn signed_data_of_an_own_algorithm_is_written_again(rt: HostRuntime) -> Result<(), Fail> {
    assert!(rt; is_written_as::<OwnAlgorithm>(rt.alloc(), OWN, OWN)?);
    Ok(())
}

/// Bits, a message and a signature.
type Triple = (&'static [u8], &'static [u8], &'static [u8]);

/// A provider whose checks say true of the triples in its table alone.
#[derive(Drop)]
struct Table {
    triples: &'static [Triple],
}

impl Provider for Table {
    ghost use Rattle.std.specs.Prelude.{◌&&◌, nat_eq, ℕ, List, IsTrue, replicate};
    ghost use Rattle.std.specs.List.{list_any};
    ghost use Rattle.std.specs.Cmp.Lexicographic.{pointwise};

    ghost sha1_of = { λ _ _. replicate 20 0 };

    ghost sha256_of = { λ _ _. replicate 32 0 };

    ghost rsa_of = { λ p bits message signature. IsTrue (list_any
        (λ t. pointwise nat_eq t.0.now bits && pointwise nat_eq t.1.now message && pointwise nat_eq t.2.now signature)
        p.triples.now) };

    ghost ecdsa_of = { λ p bits message signature. IsTrue (list_any
        (λ t. pointwise nat_eq t.0.now bits && pointwise nat_eq t.1.now message && pointwise nat_eq t.2.now signature)
        p.triples.now) };

    fn sha1(&self, _octets: &[u8]) -> [u8; 20] {
        [0; 20]
    }

    fn sha256(&self, _octets: &[u8]) -> [u8; 32] {
        [0; 32]
    }

    fn rsa_check(&self, bits: &[u8], message: &[u8], signature: &[u8]) -> bool {
        self.triples
            .iter()
            .any(|t| t.0 == bits && t.1 == message && t.2 == signature)
    }

    fn ecdsa_check(&self, bits: &[u8], message: &[u8], signature: &[u8]) -> bool {
        self.triples
            .iter()
            .any(|t| t.0 == bits && t.1 == message && t.2 == signature)
    }
}

/// A name, signed data, the table of a provider, and whether the RSA key of `abc` verifies the signature.
#[rattlefmt::skip]
const CASES: &[(&str, &str, &[Triple], bool)] = &[
    ("no unused bit", SIGNED, &[(b"abc", b"\x30\x00", b"\xAA")], true),
    ("an unused bit", SIGNED_WITH_COUNT, &[(b"abc", b"\x30\x00", b"\xAA")], true),
    ("empty table", SIGNED, &[], false),
    ("an unused bit, empty table", SIGNED_WITH_COUNT, &[], false),
    ("the whole input for the slice", SIGNED, &[(b"abc", WHOLE, b"\xAA")], false),
];

/// The octets of SIGNED.
const WHOLE: &[u8] =
    b"\x30\x15\x30\x00\x30\x0D\x06\x09\x2A\x86\x48\x86\xF7\x0D\x01\x01\x0B\x05\x00\x03\x02\x00\xAA";

#[test]
fn signed_data_is_verified_over_its_slice(rt: HostRuntime) -> Result<(), Fail> {
    let key = decoded(rt.alloc(), KEY_OF_ABC)?;
    for (name, digits, triples, expected) in CASES {
        let signed = decoded_by::<RpkiSignatureAlgorithm>(rt.alloc(), digits)?;
        let verified = signed.verify_signature(&Table { triples }, &key).is_ok();
        assert_eq!(rt; verified, *expected, "{name}");
    }
    Ok(())
}

/// A key, what the provider answers, and whether an RSA signature is verified.
const ANSWERS: &[(&str, &str, bool, bool)] = &[
    ("P-256 key", P256_KEY, true, false),
    ("RSA key, rejected", KEY_OF_ABC, false, false),
    ("RSA key", KEY_OF_ABC, true, true),
];

#[test]
fn keys_of_another_format_verify_nothing(rt: HostRuntime) -> Result<(), Fail> {
    let algorithm = RpkiSignatureAlgorithm::default();
    let signature: RpkiSignature = Signature::new(algorithm, Bytes::from_static(b"\xAA"));
    for (name, digits, answer, expected) in ANSWERS {
        let key = decoded(rt.alloc(), digits)?;
        let found = key.verify(&Always { answer: *answer }, b"message", &signature);
        assert_eq!(rt; found.is_ok(), *expected, "{name}");
    }
    Ok(())
}
