//! Public keys, and what verifies signatures with them.

ghost use Rattle.std.specs.Prelude.{◌≡◌, ◌↔◌, ◌%◌, ◌<◌, IsTrue, IfOk, IfErr, Some, None, length};
ghost use Rattle.sha2.specs.Sha256.{sha256};
ghost use Rattle.rpki_der.specs.Prelude.{number_of};
ghost use Rattle.rpki_rsa.specs.Key.{IsKeyOf, IsSignature, IsSignatureBy, key_fault, key_of};

use crate::encoding::encoded;
use crate::error::KeyError;
use crate::limbs::{Limbs, is_less};
use crate::limits::{LEAST_BITS, LIMB_OCTETS, MOST_BITS};
use crate::modulus::Modulus;
use crate::octets::{is_odd, limbs_of, word_of};
use rpki::crypto::RsaPublicKey;
use sha2::{Digest, Sha256};
use std::marker::Model;

/// Which rule a key breaks, the first of these: an odd modulus of [LEAST_BITS] to [MOST_BITS] bits; an odd exponent
/// below 2^64, not 1.
fn broken_rule(key: &RsaPublicKey<'_>) -> Option<KeyError>
    ensures { result ≡ key_fault key.now }
{
    let size = key.size();
    if size < LEAST_BITS {
        return Some(KeyError::ShortModulus);
    }
    if size > MOST_BITS {
        return Some(KeyError::LongModulus);
    }
    if !is_odd(key.modulus()) {
        return Some(KeyError::EvenModulus);
    }
    let exponent = key.exponent();
    if exponent.len() > LIMB_OCTETS {
        return Some(KeyError::LargeExponent);
    }
    let exponent = word_of(exponent);
    if exponent % 2 == 0 {
        return Some(KeyError::EvenExponent);
    }
    if exponent == 1 {
        return Some(KeyError::ExponentOne);
    }
    None
}

/// A public key (RFC 8017 3.1), made ready for many verifications.
#[derive(Drop)]
pub struct Key {
    modulus: Modulus,
    /// The square of the limbs' weight under the modulus.
    square: Limbs,
    /// How many octets the modulus has.
    size: usize,
    exponent: u64,
}

impl Model for Key {
    ghost use Rattle.rpki_rsa.specs.RsaKey.{RsaKey, key_of_limbs, IsSound};

    ghost Value = { RsaKey };

    ghost view = { λ k. key_of_limbs k.modulus.limbs k.modulus.len k.size k.exponent };

    ghost invariant = { λ k. IsSound k.modulus.limbs k.modulus.len k.square k.size k.exponent };
}

impl Key {
    /// The key that these bits are: an RSAPublicKey (RFC 8017 A.1.1) and nothing else. Allocates nothing.
    ///
    /// Returns `Malformed` for other octets, with the errors of [RsaPublicKey::from_bits]; else what
    /// [Key::from_public_key] says of the two numbers.
    pub fn from_bits(bits: &[u8]) -> Result<Key, KeyError>
        ensures { IsKeyOf bits.now result }
    {
        let key = RsaPublicKey::from_bits(bits)?;
        Key::from_public_key(&key)
    }

    /// The key of these numbers, made ready. Allocates nothing.
    ///
    /// Returns `ShortModulus` or `LongModulus` unless the modulus has [LEAST_BITS] to [MOST_BITS] bits; then
    /// `EvenModulus`; then `LargeExponent` if the exponent is 2^64 or more, `EvenExponent`, and `ExponentOne`.
    pub fn from_public_key(key: &RsaPublicKey<'_>) -> Result<Key, KeyError>
        ensures key { IfOk result (λ k. (key_fault key.now ≡ None) × (k ≡ key_of key.now)) }
        ensures error { IfErr result (λ e. key_fault key.now ≡ Some e) }
    {
        if let Some(error) = broken_rule(key) {
            return Err(error);
        }
        let modulus = key.modulus();
        let size = modulus.len();
        let len = size.div_ceil(LIMB_OCTETS);
        let modulus = Modulus::new(limbs_of(modulus, len), len);
        let square = modulus.square_of_weight();
        Ok(Key {
            modulus,
            square,
            size,
            exponent: word_of(key.exponent()),
        })
    }

    /// Whether this is a signature of the message (RFC 8017 8.2.2).
    pub fn verifies(&self, message: &[u8], signature: &[u8]) -> bool
        ensures { IsTrue result ↔ IsSignature self.now (sha256 message.now) signature.now }
    {
        self.verifies_digest(&Sha256::digest(message), signature)
    }

    /// Whether this is a signature of the message with this digest by SHA-256 (RFC 8017 8.2.2).
    pub fn verifies_digest(&self, digest: &[u8; 32], signature: &[u8]) -> bool
        ensures { IsTrue result ↔ IsSignature self.now digest.now signature.now }
    {
        if signature.len() != self.size {
            return false;
        }
        let len = self.modulus.len;
        let base = limbs_of(signature, len);
        if !is_less(&base, &self.modulus.limbs, len) {
            return false;
        }
        let power = self.modulus.power(&self.square, &base, self.exponent);
        let expected = limbs_of(&encoded(digest, self.size)[..self.size], len);
        !is_less(&power, &expected, len) && !is_less(&expected, &power, len)
    }
}

/// Whether this is a signature of the message by the key that these bits are (RFC 8017 8.2.2): a key that
/// [Key::from_bits] accepts. Allocates nothing.
pub fn verifies(bits: &[u8], message: &[u8], signature: &[u8]) -> bool
    ensures { IsTrue result ↔ IsSignatureBy bits.now (sha256 message.now) signature.now }
{
    match Key::from_bits(bits) {
        Ok(key) => key.verifies(message, signature),
        Err(_) => false,
    }
}
