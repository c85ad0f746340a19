//! A provider that finds signatures good by their sizes.

use rpki::crypto::Provider;
use rpki_digests::Digests;
use rpki_rsa::PreparingProvider;

/// Digests as they are; a signature of 256 octets is good, and no other.
#[derive(Clone, Copy)]
pub struct BySize;

impl Provider for BySize {
    ghost use Rattle.std.specs.Prelude.{length, nat_eq};
    ghost use Rattle.sha1.specs.Sha1.{sha1};
    ghost use Rattle.sha2.specs.Sha256.{sha256};

    ghost sha1_of = { λ _ octets. sha1 octets };

    ghost sha256_of = { λ _ octets. sha256 octets };

    ghost rsa_of = { λ _ _ _ signature. nat_eq (length signature) 256 };

    ghost ecdsa_of = { λ _ _ _ signature. nat_eq (length signature) 256 };

    fn sha1(&self, octets: &[u8]) -> [u8; 20] {
        Digests.sha1(octets)
    }

    fn sha256(&self, octets: &[u8]) -> [u8; 32] {
        Digests.sha256(octets)
    }

    fn rsa_check(&self, _bits: &[u8], _message: &[u8], signature: &[u8]) -> bool {
        signature.len() == 256
    }

    fn ecdsa_check(&self, _bits: &[u8], _message: &[u8], signature: &[u8]) -> bool {
        signature.len() == 256
    }
}

impl PreparingProvider for BySize {
    type PreparedKey = ();

    fn prepare_key(&self, _bits: &[u8]) {}
}
