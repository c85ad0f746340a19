//! How many bits a public key has.

ghost use Rattle.std.specs.Prelude.{◌≡◌, IfOk, decimal};
ghost use Rattle.rpki_fields.specs.KeySize.{IsRsaSize, IsSizeText};

use rpki::crypto::{PublicKey, PublicKeyFormat, RsaPublicKey};
use std::alloc::{AllocError, Global};

/// A number in decimal digits.
///
/// Returns `AllocError` if allocation fails.
pub fn number_text(alloc: Global, number: u128) -> Result<Vec<u8>, AllocError>
    ensures { IfOk result (λ text. text.items ≡ decimal number) }
{
    let text = format!(in alloc; "{number}")?;
    Ok(text.into_bytes())
}

/// The bits of the modulus of an RSA key with these bits, in decimal digits.
///
/// Returns `AllocError` if allocation fails.
pub fn rsa_size(alloc: Global, bits: &[u8]) -> Result<Vec<u8>, AllocError>
    ensures { IfOk result (λ text. IsRsaSize bits.now text.items) }
{
    match RsaPublicKey::from_bits(bits) {
        Ok(key) => number_text(alloc, key.size()),
        Err(_) => Vec::from_slice(alloc, b"malformed"),
    }
}

/// How many bits a key has, in decimal digits.
///
/// Returns `AllocError` if allocation fails.
pub fn size_text(alloc: Global, key: &PublicKey) -> Result<Vec<u8>, AllocError>
    ensures { IfOk result (λ text. IsSizeText key.now text.items) }
{
    match key.algorithm() {
        PublicKeyFormat::Rsa => rsa_size(alloc, key.bits()),
        PublicKeyFormat::EcdsaP256 => Vec::from_slice(alloc, b"256"),
    }
}
