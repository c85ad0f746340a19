//! A provider whose signatures are digests.

ghost use Rattle.std.specs.Prelude.{◌≡◌, ◌++◌, nat_eq};
ghost use Rattle.std.specs.Cmp.Lexicographic.{pointwise};
ghost use Rattle.sha2.specs.Sha256.{sha256};

use rpki::crypto::Provider;
use rpki_digests::Digests;
use rpki_rsa::PreparingProvider;
use sha2::{Digest, Sha256};

/// Finds a signature good where it is the digest by SHA-256 of what is signed and of the key's bits after it: tests
/// make them so.
#[derive(Clone, Copy)]
pub struct Stamps;

/// Whether the signature is that digest.
fn is_stamp(bits: &[u8], message: &[u8], signature: &[u8]) -> bool
    ensures { result ≡ pointwise nat_eq signature.now (sha256 (message.now ++ bits.now)) }
{
    let mut hasher = Sha256::new();
    hasher.update(message);
    hasher.update(bits);
    let digest = hasher.finalize();
    signature == digest.as_slice()
}

impl Provider for Stamps {
    ghost use Rattle.std.specs.Prelude.{◌++◌, nat_eq, IsTrue};
    ghost use Rattle.std.specs.Cmp.Lexicographic.{pointwise};
    ghost use Rattle.sha1.specs.Sha1.{sha1};
    ghost use Rattle.sha2.specs.Sha256.{sha256};

    ghost sha1_of = { λ _ octets. sha1 octets };

    ghost sha256_of = { λ _ octets. sha256 octets };

    ghost rsa_of = { λ _ bits message signature. IsTrue (pointwise nat_eq signature (sha256 (message ++ bits))) };

    ghost ecdsa_of = { λ _ bits message signature. IsTrue (pointwise nat_eq signature (sha256 (message ++ bits))) };

    fn sha1(&self, octets: &[u8]) -> [u8; 20] {
        Digests.sha1(octets)
    }

    fn sha256(&self, octets: &[u8]) -> [u8; 32] {
        Digests.sha256(octets)
    }

    fn rsa_check(&self, bits: &[u8], message: &[u8], signature: &[u8]) -> bool {
        is_stamp(bits, message, signature)
    }

    fn ecdsa_check(&self, bits: &[u8], message: &[u8], signature: &[u8]) -> bool {
        is_stamp(bits, message, signature)
    }
}

impl PreparingProvider for Stamps {
    type PreparedKey = ();

    fn prepare_key(&self, _bits: &[u8]) {}
}
