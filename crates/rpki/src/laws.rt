//! Laws of algorithms, signed data, keys, names and errors: each function does nothing, and its contract is the law.

ghost use Rattle.std.specs.Prelude.{◌≡◌, ◌↔◌, ℕ, Bool, true, false, List, length, IsTrue};
ghost use Rattle.std.specs.Ordering.{nat_cmp};
ghost use Rattle.std.specs.Cmp.Lexicographic.{slice_cmp};
ghost use Rattle.rpki_der.specs.declared.error.DecodeError.{DecodeError};
ghost use Rattle.rpki_der.specs.Prelude.{octet_string, tlv};
ghost use Rattle.rpki.specs.Oids.{sha256_with_rsa_encryption, ecdsa_with_sha256};
ghost use Rattle.rpki.specs.AlgorithmOctets.{algorithm_octets};
ghost use Rattle.rpki.specs.SignatureNames.{bare_octets};
ghost use Rattle.rpki.specs.SignedData.{SignedParts, HasOneSpelling, DifferWhereEqual};
ghost use Rattle.rpki.specs.KeyIdentifier.{SpellsKeyIdentifier};
ghost use Rattle.rpki.specs.PublicKey.{KeyParts};
ghost use Rattle.rpki.specs.StrictName.{IsRpkiName, IsRouterName};
ghost use Rattle.rpki.specs.StrictNameWithoutOrganization.{IsRpkiNameWithoutOrganization};
ghost use Rattle.rpki.specs.StrictNameWithoutOrganization.{IsRouterNameWithoutOrganization};
ghost use Rattle.rpki.specs.ExtensionValue.{ExtensionParts, SpellsExtension};
ghost use Rattle.rpki.specs.Signature.{SignatureParts};
ghost use Rattle.rpki.specs.ErrorContent.{HaveSameContent, HaveSameText, HaveSameReason};
ghost use Rattle.rpki.specs.declared.crypto.SigningAlgorithm.{SigningAlgorithm};
ghost use Rattle.rpki.specs.declared.crypto.digest.DigestAlgorithm.{DigestAlgorithm};
ghost use Rattle.rpki.specs.declared.crypto.keys.PublicKeyFormat.{PublicKeyFormat};
ghost use Rattle.rpki.specs.declared.crypto.keys.PublicKeyFormat.TheVariants.{Rsa, EcdsaP256};
ghost use Rattle.rpki.specs.declared.crypto.keys.verification.SignatureVerificationError.{SignatureVerificationError};
ghost use Rattle.rpki.specs.declared.repository.error.InspectionError.{InspectionError};
ghost use Rattle.rpki.specs.declared.repository.error.VerificationError.{VerificationError};
ghost use Rattle.rpki.specs.declared.repository.error.ValidationError.{ValidationError};
ghost use Rattle.rpki.specs.declared.repository.x509.name.rule.NameRule.{NameRule as BrokenRule};

use crate::crypto::{
    BgpsecSignatureAlgorithm, DigestAlgorithm, KeyIdentifier, PublicKey, PublicKeyFormat,
    RpkiSignatureAlgorithm, Signature, SignatureAlgorithm, SignatureVerificationError,
    SigningAlgorithm,
};
use crate::repository::error::{InspectionError, ValidationError, VerificationError};
use crate::repository::x509::{CertExtension, Name, NameRule, SignedData};
use rpki_der::{DecodeError, PrimitiveContent};
use std::hash::Hash;

/// The algorithm of the RPKI has one spelling with parameters, and one without.
pub fn rpki_algorithm_has_one_spelling()
    ensures { (present : Bool) → HasOneSpelling ⟦<RpkiSignatureAlgorithm as SignatureAlgorithm>⟧.spells present }
{}

/// The algorithm of the RPKI has RSA keys, and that of BGPsec has P-256 keys, however they are spelled.
pub fn algorithms_have_formats()
    ensures rpki { (a : Bool) → ⟦<RpkiSignatureAlgorithm as SignatureAlgorithm>⟧.format a ≡ Rsa }
    ensures bgpsec { ⟦<BgpsecSignatureAlgorithm as SignatureAlgorithm>⟧.format tt ≡ EcdsaP256 }
{}

/// Algorithms have the same encoding exactly where their normal forms are equal.
pub fn algorithms_are_written_apart<Alg: SignatureAlgorithm>()
    ensures { (a b : Alg) → (Alg.written a ≡ Alg.written b) ↔ (Alg.norm a ≡ Alg.norm b) }
{}

/// Two inputs of equal signed data of the RPKI are as long, and differ at most in the count of unused bits.
pub fn equal_signed_data_differ_in_count()
    ensures { DifferWhereEqual (⟦<SignedData<RpkiSignatureAlgorithm> as PartialEq>⟧.eq)
        ⟦<RpkiSignatureAlgorithm as SignatureAlgorithm>⟧.spells }
{}

/// Signed data of the RPKI is equal where the slices, the algorithms and the octets of the signatures are.
pub fn equal_signed_data_have_equal_parts()
    ensures { (v w : SignedParts Bool) → IsTrue (⟦<SignedData<RpkiSignatureAlgorithm> as PartialEq>⟧.eq v w) ↔ (v ≡ w) }
{}

/// A key identifier is read back from its encoding, and two have the same encoding only where they are equal.
pub fn key_identifiers_are_read_back(identifier: &KeyIdentifier)
    ensures read_back { SpellsKeyIdentifier identifier.now (tlv octet_string false identifier.now) }
    ensures same { (other : List ℕ) → length other ≡ 20
        → (tlv octet_string false identifier.now ≡ tlv octet_string false other) ↔ (identifier.now ≡ other) }
{
    let _ = identifier.as_slice();
}

/// Key identifiers are equal where their octets are, have the order of their octets, and are hashed as the same octets
/// only where they are equal.
pub fn key_identifiers_go_by_their_octets()
    ensures equal { (k l : List ℕ) → IsTrue (⟦<KeyIdentifier as PartialEq>⟧.eq k l) ↔ (k ≡ l) }
    ensures order { (k l : List ℕ) → ⟦<KeyIdentifier as Ord>⟧.cmp k l ≡ slice_cmp nat_cmp k l }
    ensures hash { (k l : List ℕ)
        → (⟦<KeyIdentifier as Hash>⟧.hash_input k ≡ ⟦<KeyIdentifier as Hash>⟧.hash_input l) ↔ (k ≡ l) }
{}

/// Public keys are equal where their formats, their octets and their counts of unused bits are.
pub fn equal_public_keys_have_equal_parts()
    ensures { (k l : KeyParts) → IsTrue (⟦<PublicKey as PartialEq>⟧.eq k l) ↔ (k ≡ l) }
{}

/// Signatures are equal where their algorithms are, as the algorithms' own equality says, and their octets are the
/// same.
pub fn equal_signatures_have_equal_parts<Alg: PartialEq>()
    ensures { (s t : SignatureParts Alg) → IsTrue (⟦<Signature<Alg> as PartialEq>⟧.eq s t)
        ↔ (IsTrue (Alg.eq s.algorithm t.algorithm) × (s.value ≡ t.value)) }
{}

/// Names are equal where their octets are.
pub fn equal_names_have_equal_octets()
    ensures { (m n : List ℕ) → IsTrue (⟦<Name as PartialEq>⟧.eq m n) ↔ (m ≡ n) }
{}

/// A name that is strict without an organization name is strict.
pub fn names_without_organization_are_strict()
    ensures rpki { (octets : List ℕ) → IsRpkiNameWithoutOrganization octets → IsRpkiName octets }
    ensures router { (octets : List ℕ) → IsRouterNameWithoutOrganization octets → IsRouterName octets }
{}

/// Extensions are equal where their identifiers and their octets are, and both are critical or neither is; and octets
/// are an extension in one way alone.
pub fn equal_extensions_have_equal_parts()
    ensures equal { (v w : ExtensionParts) → IsTrue (⟦<CertExtension as PartialEq>⟧.eq v w) ↔ (v ≡ w) }
    ensures one_reading { (v w : ExtensionParts) (octets : List ℕ)
        → SpellsExtension v octets → SpellsExtension w octets → v ≡ w }
{}

/// Algorithms and formats are equal to themselves alone. Of the RPKI's algorithm it counts whether parameters were
/// present, in equality and in a hash; the algorithms of BGPsec and of digests have one value each.
pub fn algorithms_are_compared_by_their_values()
    ensures signing { (a b : SigningAlgorithm) → IsTrue (⟦<SigningAlgorithm as PartialEq>⟧.eq a b) ↔ (a ≡ b) }
    ensures format { (a b : PublicKeyFormat) → IsTrue (⟦<PublicKeyFormat as PartialEq>⟧.eq a b) ↔ (a ≡ b) }
    ensures rpki { (a b : Bool) → IsTrue (⟦<RpkiSignatureAlgorithm as PartialEq>⟧.eq a b) ↔ (a ≡ b) }
    ensures rpki_hash { (a b : Bool)
        → (⟦<RpkiSignatureAlgorithm as Hash>⟧.hash_input a ≡ ⟦<RpkiSignatureAlgorithm as Hash>⟧.hash_input b)
        ↔ (a ≡ b) }
    ensures bgpsec { IsTrue (⟦<BgpsecSignatureAlgorithm as PartialEq>⟧.eq tt tt) }
    ensures digest { (a b : DigestAlgorithm) → IsTrue (⟦<DigestAlgorithm as PartialEq>⟧.eq a b) }
    ensures digest_hash { (a b : DigestAlgorithm)
        → ⟦<DigestAlgorithm as Hash>⟧.hash_input a ≡ ⟦<DigestAlgorithm as Hash>⟧.hash_input b }
{}

/// Rules of names are equal exactly where they are one.
pub fn equal_rules_are_one()
    ensures { (p q : BrokenRule) → IsTrue (⟦<NameRule as PartialEq>⟧.eq p q) ↔ (p ≡ q) }
{}

/// Errors are equal where they are of one kind and have the same text.
pub fn equal_errors_have_equal_texts()
    ensures inspection { (d e : InspectionError)
        → IsTrue (⟦<InspectionError as PartialEq>⟧.eq d e) ↔ HaveSameText d e }
    ensures verification { (d e : VerificationError)
        → IsTrue (⟦<VerificationError as PartialEq>⟧.eq d e)
        ↔ HaveSameReason d e }
    ensures validation { (d e : ValidationError)
        → IsTrue (⟦<ValidationError as PartialEq>⟧.eq d e) ↔ HaveSameContent (⟦<DecodeError as PartialEq>⟧.eq) d e }
    ensures signature { (d e : SignatureVerificationError)
        → IsTrue (⟦<SignatureVerificationError as PartialEq>⟧.eq d e) }
{}

/// Key identifiers are written as their octets, and the algorithms as RFC 7935 2 and RFC 8608 2 spell them, that of the
/// RPKI with a NULL; what is written of it is read with one.
pub fn what_is_written_of_leaves()
    ensures identifier { (k : List ℕ) → ⟦<KeyIdentifier as PrimitiveContent>⟧.contents k ≡ k }
    ensures rpki { (a : Bool) → ⟦<RpkiSignatureAlgorithm as SignatureAlgorithm>⟧.written a
        ≡ algorithm_octets sha256_with_rsa_encryption true }
    ensures rpki_norm { (a : Bool) → ⟦<RpkiSignatureAlgorithm as SignatureAlgorithm>⟧.norm a ≡ true }
    // The normal forms have keys of the same format.
    ensures rpki_format { (a : Bool) → ⟦<RpkiSignatureAlgorithm as SignatureAlgorithm>⟧.format true
        ≡ ⟦<RpkiSignatureAlgorithm as SignatureAlgorithm>⟧.format a }
    ensures bgpsec { ⟦<BgpsecSignatureAlgorithm as SignatureAlgorithm>⟧.written tt ≡ bare_octets ecdsa_with_sha256 }
{}
