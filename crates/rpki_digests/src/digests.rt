//! Digests without signatures.

use rpki::crypto::Provider;
use rpki_rsa::PreparingProvider;
use sha1::Sha1;
use sha2::{Digest, Sha256};

/// A provider that computes digests by SHA-1 and SHA-256 (FIPS 180-4), and finds no signature good.
#[derive(Clone, Copy, Debug)]
pub struct Digests;

impl Provider for Digests {
    ghost use Rattle.sha1.specs.Sha1.{sha1};
    ghost use Rattle.sha2.specs.Sha256.{sha256};

    ghost sha1_of = { λ _ octets. sha1 octets };

    ghost sha256_of = { λ _ octets. sha256 octets };

    ghost rsa_of = { λ _ _ _ _. ⊥ };

    ghost ecdsa_of = { λ _ _ _ _. ⊥ };

    fn sha1(&self, octets: &[u8]) -> [u8; 20] {
        Sha1::digest(octets)
    }

    fn sha256(&self, octets: &[u8]) -> [u8; 32] {
        Sha256::digest(octets)
    }

    fn rsa_check(&self, _bits: &[u8], _message: &[u8], _signature: &[u8]) -> bool {
        false
    }

    fn ecdsa_check(&self, _bits: &[u8], _message: &[u8], _signature: &[u8]) -> bool {
        false
    }
}

/// It prepares nothing.
impl PreparingProvider for Digests {
    type PreparedKey = ();

    fn prepare_key(&self, _bits: &[u8]) {}
}
