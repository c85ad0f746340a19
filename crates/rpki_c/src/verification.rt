//! Signatures and digests.

ghost use Rattle.std.specs.Prelude.{◌≡◌};
ghost use Rattle.sha2.specs.Sha256.{sha256};
ghost use Rattle.rpki_c.specs.Key.{IsVerified, IsVerifiedBy};

use crate::keys::read_key;
use crate::status::{BAD_SIGNATURE, KEY_NOT_ACCEPTED};
use rpki::crypto::{Provider, PublicKeyFormat, PublicKeyView};
use rpki_digests::RsaProvider;
use rpki_rsa::Key;

/// The status of a signature of the message by the key.
pub(crate) fn verified(key: &PublicKeyView<'_>, message: &[u8], signature: &[u8]) -> u8
    ensures { IsVerifiedBy key.now message.now signature.now result }
{
    if key.algorithm() != PublicKeyFormat::Rsa {
        return KEY_NOT_ACCEPTED;
    }
    match Key::from_bits(key.bits()) {
        Ok(ready) => {
            if ready.verifies(message, signature) {
                0
            } else {
                BAD_SIGNATURE
            }
        }
        Err(_) => KEY_NOT_ACCEPTED,
    }
}

/// Verifies a signature of the message by the public key (SubjectPublicKeyInfo) that the octets are: by RSA with
/// PKCS #1 v1.5 padding and SHA-256 (RFC 7935 2, RFC 8017 8.2.2).
///
/// The status is 0. `KEY_NOT_ACCEPTED` where the key is not one by RSA with an odd modulus of 2,048 to 4,096 bits and
/// an odd exponent, not 1, below 2^64; `BAD_SIGNATURE` where the signature is not one of the message by the key; else
/// as that of [rpki_public_key](crate::keys::rpki_public_key). Nothing is allocated.
#[unsafe(no_mangle)]
pub extern "C" fn rpki_verify(octets: &[u8], message: &[u8], signature: &[u8]) -> u8
    ensures { IsVerified octets.now message.now signature.now result }
{
    match read_key(octets) {
        Ok(key) => verified(&key, message, signature),
        Err(status) => status,
    }
}

/// Writes the digest of the octets by SHA-256 (FIPS 180-4). Nothing is allocated.
#[unsafe(no_mangle)]
pub extern "C" fn rpki_sha256(octets: &[u8], out: &mut [u8; 32])
    ensures { out.new ≡ sha256 octets.now }
{
    *out = RsaProvider.sha256(octets);
}
