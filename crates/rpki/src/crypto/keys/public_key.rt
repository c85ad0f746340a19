//! Public keys: a format, and bits.

ghost use Rattle.std.specs.Prelude.{◌≡◌, ◌↔◌, ◌<◌, ◌^◌, length, IsTrue, IfOk};
ghost use Rattle.rpki_der.specs.Prelude.{left, Takes, TakesAll, TakesWhole, CanShare, AreBits, bits_of};
ghost use Rattle.rpki.specs.PublicKey.{KeyParts, key_of, SpellsKey, key_octets, IsShortKey, IsKeyApart};
ghost use Rattle.rpki.specs.KeyFault.{key, key_parts};

use super::{KeyIdentifier, PublicKeyFormat, PublicKeyFormatEncoder};
use crate::crypto::Provider;
use crate::crypto::digest::sha1_digest;
use bytes::Bytes;
use rpki_der::{
    BitString, Constructed, DecodeError, Keep, Primitive, PrimitiveContent, Sequence, Shared,
    Values, write_to_bytes,
};
use std::alloc::{AllocError, Global};
use std::marker::Model;

/// An encoder for a public key: its format, and its bits.
pub type PublicKeyEncoder<B> = Sequence<(PublicKeyFormatEncoder, Primitive<B>)>;

/// A public key: its format, and a bit string, which that format gives a meaning (RFC 5280 4.1.2.7).
#[derive(Debug, Drop, PartialEq, Eq)]
pub struct PublicKey {
    algorithm: PublicKeyFormat,
    bits: BitString,
}

impl Model for PublicKey {
    ghost use Rattle.rpki_der.specs.Leaves.{AreBits};
    ghost use Rattle.rpki.specs.PublicKey.{KeyParts, key_of};

    ghost Value = { KeyParts };

    ghost view = { λ k. key_of k.algorithm k.bits };

    ghost inverse = { λ p. record { algorithm = p.format; bits = p.bits } };

    ghost invariant = { λ k. AreBits k.bits };
}

impl PublicKey {
    /// The key of this format with these octets as its bits, of whose last this many are not used.
    pub(super) fn of_parts(algorithm: PublicKeyFormat, unused: u8, octets: Bytes) -> PublicKey
        requires { AreBits (bits_of unused octets) }
        ensures { result ≡ key_of algorithm (bits_of unused octets) }
    {
        PublicKey {
            algorithm,
            bits: BitString::new(unused, octets),
        }
    }

    /// The RSA key with these octets as its bits, all of which are used.
    pub(super) fn of_bits(bytes: Bytes) -> PublicKey
        ensures { result ≡ key_of PublicKeyFormat.Rsa (bits_of 0 bytes) }
    {
        PublicKey::of_parts(PublicKeyFormat::Rsa, 0, bytes)
    }

    /// The format.
    pub fn algorithm(&self) -> PublicKeyFormat
        ensures { result ≡ self.now.format }
    {
        self.algorithm
    }

    /// How many bits of the last octet are not used: 0 to 7.
    pub fn unused(&self) -> u8
        ensures value { result ≡ self.now.bits.unused }
        ensures legal { AreBits self.now.bits }
    {
        self.bits.unused()
    }

    /// The octets of the bits, without the count of unused bits.
    pub fn bits(&self) -> &[u8]
        ensures { result.now ≡ self.now.bits.octets }
    {
        self.bits.octet_slice()
    }

    /// The octets of the bits, without the count of unused bits, shared.
    ///
    /// Returns `AllocError` if allocation fails.
    pub fn bits_bytes(&self) -> Result<Bytes, AllocError>
        ensures { IfOk result (λ b. b ≡ self.now.bits.octets) }
    {
        self.bits.octet_bytes()
    }

    /// Whether certificates of the RPKI may have the key: it is an RSA key (RFC 7935 3).
    pub fn allow_rpki_cert(&self) -> bool
        ensures { IsTrue result ↔ (self.now.format ≡ PublicKeyFormat.Rsa) }
    {
        self.algorithm.allow_rpki_cert()
    }

    /// Whether certificates of BGPsec routers may have the key: it is a P-256 key (RFC 8608 3).
    pub fn allow_router_cert(&self) -> bool
        ensures { IsTrue result ↔ (self.now.format ≡ PublicKeyFormat.EcdsaP256) }
    {
        self.algorithm.allow_router_cert()
    }

    /// The key identifier: the SHA-1 digest of the octets of the bits, without the count of unused bits
    /// (RFC 6487 4.8.2). The provider computes the digest.
    pub fn key_identifier<P: Provider>(&self, provider: &P) -> KeyIdentifier
        ensures value { result ≡ P.sha1_of provider.now self.now.bits.octets }
        ensures size { length result ≡ 20 }
    {
        KeyIdentifier::from(sha1_digest(provider, self.bits()))
    }

    /// Returns a copy of the key that shares its bits.
    ///
    /// Returns `AllocError` if allocation fails.
    pub fn clone(&self) -> Result<PublicKey, AllocError>
        ensures { IfOk result (λ k. k ≡ self.now) }
    {
        let bits = self.bits.clone()?;
        Ok(PublicKey {
            algorithm: self.algorithm,
            bits,
        })
    }

    /// A public key (SubjectPublicKeyInfo, RFC 5280 4.1), and nothing else. It shares the octets of its bits.
    ///
    /// The errors are those of [PublicKey::take_from]; then `Trailing` if something follows the key.
    pub fn decode(alloc: Global, bytes: Bytes) -> Result<PublicKey, DecodeError>
        ensures { TakesWhole (λ k. k) key bytes result }
    {
        Constructed::new(&bytes).whole_with(
            Shared::new(alloc, &bytes),
            |cons, keep|
                requires { CanShare keep (left cons.old) }
            { PublicKey::take_from(keep, cons) },
        )
    }

    /// A public key (SubjectPublicKeyInfo, RFC 5280 4.1): a SEQUENCE of a format and a BIT STRING, whose octets are
    /// kept. An allocator copies them, and [Shared](rpki_der::Shared) shares them; requires that `keep` can keep parts
    /// of the rest.
    ///
    /// The errors are those of a SEQUENCE; then those of the parts, of the bits `OutOfMemory` too if allocation fails,
    /// only where both parts are there; then `Trailing` for octets that follow them.
    pub fn take_from<K: Keep>(keep: K, cons: &mut Constructed<'_>) -> Result<PublicKey, DecodeError>
        requires { K.holds keep (left cons.old) }
        ensures { Takes (λ k. k) key (left cons.old) (left cons.new) result }
    {
        cons.in_sequence_with(
            keep,
            |contents, keep|
                requires { K.holds keep (left contents.old) }
                ensures { TakesAll (λ k. k) key_parts (left contents.old) (left contents.new) result }
            {
                let algorithm = PublicKeyFormat::take_from(contents)?;
                let bits = contents.take_bit_string(keep)?;
                Ok(PublicKey { algorithm, bits })
            },
        )
    }

    /// An encoder for the key (SubjectPublicKeyInfo, RFC 5280 4.1), which it owns.
    pub fn encode(self) -> PublicKeyEncoder<BitString>
        ensures octets { ⟦<PublicKeyEncoder<BitString> as Values>⟧.encoded result ≡ key_octets self }
        // It fits exactly where its contents have fewer than 2^32 octets.
        ensures short { ⟦<PublicKeyEncoder<BitString> as Values>⟧.is_short result ↔ IsShortKey self }
        // What is written is read as the key.
        ensures read_back { IsShortKey self → SpellsKey self (key_octets self) }
        // Keys have the same encoding exactly where they are equal.
        ensures same { IsKeyApart self }
    {
        let PublicKey { algorithm, bits } = self;
        Sequence::new((algorithm.encode(), bits.encode()))
    }

    /// An encoder for the key (SubjectPublicKeyInfo, RFC 5280 4.1), which it borrows.
    pub fn encode_ref(&self) -> PublicKeyEncoder<&BitString>
        ensures octets { ⟦<PublicKeyEncoder<&'static BitString> as Values>⟧.encoded result ≡ key_octets self.now }
        // It fits exactly where its contents have fewer than 2^32 octets.
        ensures short { ⟦<PublicKeyEncoder<&'static BitString> as Values>⟧.is_short result ↔ IsShortKey self.now }
        // What is written is read as the key.
        ensures read_back { IsShortKey self.now → SpellsKey self.now (key_octets self.now) }
        // Keys have the same encoding exactly where they are equal.
        ensures same { IsKeyApart self.now }
    {
        Sequence::new((self.algorithm.encode(), self.bits.encode_ref()))
    }

    /// The encoding of the key (SubjectPublicKeyInfo, RFC 5280 4.1). Requires that `encode_ref().fits()`.
    ///
    /// Returns `AllocError` if allocation fails.
    pub fn to_info_bytes(&self, alloc: Global) -> Result<Bytes, AllocError>
        requires { IsShortKey self.now }
        ensures { IfOk result (λ b. b ≡ key_octets self.now) }
    {
        write_to_bytes(alloc, &self.encode_ref())
    }
}
