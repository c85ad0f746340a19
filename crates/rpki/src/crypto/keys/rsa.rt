//! The bits of RSA keys: a SEQUENCE of modulus and exponent (RFC 8017 A.1.1).

ghost use Rattle.std.specs.Prelude.{◌≡◌, ◌≢◌, ◌≤◌, ◌+◌, ◌^◌, ◌⊎◌, ◌↔◌, [], length, IfOk, IsErrOf};
ghost use Rattle.rpki_der.specs.Prelude.{TakesWholeInPlace, number_of};
ghost use Rattle.rpki.specs.RsaPublicKey.{SpellsRsaNumbers};
ghost use Rattle.rpki.specs.declared.crypto.keys.PublicKeyFormat.TheVariants.{Rsa};
ghost use Rattle.rpki.specs.PublicKey.{IsRsaKey};
ghost use Rattle.rpki.specs.KeyFault.{rsa_key};

use super::{PublicKey, RsaPublicKey};
use bytes::Bytes;
use rpki_der::{DecodeError, InvalidInteger, PrimitiveContent, Sequence, Unsigned, write_to_bytes};
use std::alloc::Global;

impl PublicKey {
    /// The RSA key of these two numbers, most significant octet first. Leading zeros are left out. Requires that the
    /// lengths of the two sum to at most 2^31.
    ///
    /// Returns `Empty` if one of them has no octets; `OutOfMemory` if allocation fails.
    pub fn rsa_from_components(
        alloc: Global,
        modulus: &[u8],
        exponent: &[u8],
    ) -> Result<PublicKey, InvalidInteger>
        requires { length modulus.now + length exponent.now ≤ 2 ^ 31 }
        ensures format { IfOk result (λ k. (k.format ≡ Rsa) × (k.bits.unused ≡ 0)) }
        // Its bits are the SEQUENCE of the two numbers.
        ensures bits { IfOk result (λ k. SpellsRsaNumbers
            (number_of modulus.now, number_of exponent.now) k.bits.octets) }
        // They are the bits of an equal key.
        ensures again { IfOk result (λ k. IsRsaKey k k.bits.octets) }
        ensures empty { IsErrOf result InvalidInteger.Empty ↔ ((modulus.now ≡ []) ⊎ (exponent.now ≡ [])) }
    {
        let modulus = Unsigned::from_slice(modulus)?;
        let exponent = Unsigned::from_slice(exponent)?;
        let numbers = Sequence::new((modulus.encode(), exponent.encode()));
        match write_to_bytes(alloc, &numbers) {
            Ok(octets) => Ok(PublicKey::of_bits(octets)),
            Err(_) => Err(InvalidInteger::OutOfMemory),
        }
    }

    /// The RSA key with these bits: a SEQUENCE of two non-negative INTEGERs, and nothing else. Allocates nothing.
    ///
    /// The errors are those of a SEQUENCE; then those of the INTEGERs, and `Trailing` for octets that follow them or
    /// the SEQUENCE.
    pub fn rsa_from_bits_bytes(bytes: Bytes) -> Result<PublicKey, DecodeError>
        ensures { TakesWholeInPlace (λ k. k) rsa_key bytes result }
    {
        RsaPublicKey::from_bits(&bytes)?;
        Ok(PublicKey::of_bits(bytes))
    }
}
