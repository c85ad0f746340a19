//! Digests, and the algorithm identifier of their algorithm.

ghost use Rattle.std.specs.Prelude.{◌≡◌, false, IsTrue};
ghost use Rattle.rpki_der.specs.Prelude.{left, Takes, TakesWhere, sequence, this_oid};
ghost use Rattle.rpki.specs.Oids.{sha256};
ghost use Rattle.rpki.specs.AlgorithmFault.{digest, digest_set};
ghost use Rattle.rpki.specs.Digest.{SpellsDigest, SpellsDigestSet, SpellsDigestName, digest_octets, digest_set_octets};
ghost use Rattle.rpki.specs.Digest.{digest_name_octets};

use crate::crypto::Provider;
use crate::crypto::algorithm_identifier::take_algorithm;
use crate::oid;
use rpki_der::{
    ConstOid, Constructed, DecodeError, Primitive, PrimitiveContent, Sequence, Set, Tag, Values,
};

/// The algorithm of digests: SHA-256 (RFC 7935 2, FIPS 180-4). There is no other.
#[derive(Clone, Copy, Debug, Default, PartialEq, Eq, Hash)]
pub struct DigestAlgorithm {
    only: (),
}

impl DigestAlgorithm {
    /// SHA-256.
    pub fn sha256() -> DigestAlgorithm
        ensures only { (other : DigestAlgorithm) → other ≡ result }
    {
        DigestAlgorithm { only: () }
    }

    /// Whether it is SHA-256, as it always is.
    pub fn is_sha256(self) -> bool
        ensures { IsTrue result }
    {
        true
    }

    /// How many octets a digest has: 32.
    pub fn digest_len(&self) -> usize
        ensures { result ≡ 32 }
    {
        32
    }

    /// The digest of the octets by this algorithm, computed by the provider.
    pub fn digest<P: Provider>(&self, provider: &P, octets: &[u8]) -> [u8; 32]
        ensures { result ≡ P.sha256_of provider.now octets.now }
    {
        provider.sha256(octets)
    }

    /// The algorithm identifier of SHA-256 (RFC 5754 2.2), with a NULL or without. Allocates nothing.
    ///
    /// The errors are those of a SEQUENCE; then `Content` for another object identifier; then `Trailing` for other
    /// parameters.
    pub fn take_from(cons: &mut Constructed<'_>) -> Result<DigestAlgorithm, DecodeError>
        ensures { Takes (λ _. tt) digest (left cons.old) (left cons.new) result }
    {
        take_algorithm(cons, oid::SHA256)?;
        Ok(DigestAlgorithm::sha256())
    }

    /// As [DigestAlgorithm::take_from] where the rest begins with the identifier octets of a SEQUENCE, in either
    /// form; else None, and the cursor stays where it is.
    pub fn take_opt_from(cons: &mut Constructed<'_>) -> Result<Option<DigestAlgorithm>, DecodeError>
        ensures { TakesWhere sequence (λ _. tt) digest (left cons.old) (left cons.new) result }
    {
        if !cons.has_tag(Tag::SEQUENCE) {
            return Ok(None);
        }
        let algorithm = DigestAlgorithm::take_from(cons)?;
        Ok(Some(algorithm))
    }

    /// A SET of exactly one algorithm identifier (RFC 5652 5.1, RFC 6488 2.1.2). Allocates nothing.
    ///
    /// The errors are those of a SET; then those of [DigestAlgorithm::take_from]; then `Trailing` if more follows in
    /// the SET.
    pub fn take_set_from(cons: &mut Constructed<'_>) -> Result<DigestAlgorithm, DecodeError>
        ensures { Takes (λ _. tt) digest_set (left cons.old) (left cons.new) result }
    {
        cons.in_set(|contents| DigestAlgorithm::take_from(contents))
    }

    /// Moves past a SET of exactly one algorithm identifier, as [DigestAlgorithm::take_set_from].
    pub fn skip_set(cons: &mut Constructed<'_>) -> Result<(), DecodeError>
        ensures { Takes (λ _. tt) digest_set (left cons.old) (left cons.new) result }
    {
        DigestAlgorithm::take_set_from(cons)?;
        Ok(())
    }

    /// The object identifier of SHA-256 alone.
    ///
    /// The errors are those of a header; then `Unexpected` for another tag or form; then `Truncated`; then `Content`
    /// for another identifier.
    pub fn take_oid_from(cons: &mut Constructed<'_>) -> Result<DigestAlgorithm, DecodeError>
        ensures { Takes (λ _. tt) (this_oid sha256) (left cons.old) (left cons.new) result }
    {
        cons.skip_oid_if(oid::SHA256)?;
        Ok(DigestAlgorithm::sha256())
    }

    /// An encoder for the algorithm identifier, without parameters (RFC 5754 2).
    pub fn encode(self) -> Sequence<Primitive<ConstOid>>
        ensures octets { ⟦<Sequence<Primitive<ConstOid>> as Values>⟧.encoded result ≡ digest_octets }
        ensures short { ⟦<Sequence<Primitive<ConstOid>> as Values>⟧.is_short result }
        // What is written is read again.
        ensures read_back { SpellsDigest tt digest_octets }
    {
        Sequence::new(oid::SHA256.encode())
    }

    /// An encoder for a SET of the algorithm identifier alone.
    pub fn encode_set(self) -> Set<Sequence<Primitive<ConstOid>>>
        ensures octets { ⟦<Set<Sequence<Primitive<ConstOid>>> as Values>⟧.encoded result ≡ digest_set_octets }
        ensures short { ⟦<Set<Sequence<Primitive<ConstOid>>> as Values>⟧.is_short result }
        // What is written is read again.
        ensures read_back { SpellsDigestSet tt digest_set_octets }
    {
        Set::new(self.encode())
    }

    /// An encoder for the object identifier alone.
    pub fn encode_oid(self) -> Primitive<ConstOid>
        ensures octets { ⟦<Primitive<ConstOid> as Values>⟧.encoded result ≡ digest_name_octets }
        ensures short { ⟦<Primitive<ConstOid> as Values>⟧.is_short result }
        // What is written is read again.
        ensures read_back { SpellsDigestName tt digest_name_octets }
    {
        oid::SHA256.encode()
    }
}

/// The digest of the octets by SHA-1 (FIPS 180-4), computed by the provider. It is used for key identifiers alone.
pub fn sha1_digest<P: Provider>(provider: &P, octets: &[u8]) -> [u8; 20]
    ensures { result ≡ P.sha1_of provider.now octets.now }
{
    provider.sha1(octets)
}
