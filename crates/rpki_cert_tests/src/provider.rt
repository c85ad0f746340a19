//! A provider that finds signatures good, or not, as it is told.

use rpki::crypto::Provider;
use rpki_digests::Digests;
use rpki_rsa::PreparingProvider;

/// Digests as they are; of each signature it says this.
#[derive(Clone, Copy)]
pub struct Told {
    /// What it says.
    pub answer: bool,
}

impl Provider for Told {
    ghost use Rattle.std.specs.Prelude.{IsTrue};
    ghost use Rattle.sha1.specs.Sha1.{sha1};
    ghost use Rattle.sha2.specs.Sha256.{sha256};

    ghost sha1_of = { λ _ octets. sha1 octets };

    ghost sha256_of = { λ _ octets. sha256 octets };

    ghost rsa_of = { λ p _ _ _. IsTrue p.answer };

    ghost ecdsa_of = { λ p _ _ _. IsTrue p.answer };

    fn sha1(&self, octets: &[u8]) -> [u8; 20] {
        Digests.sha1(octets)
    }

    fn sha256(&self, octets: &[u8]) -> [u8; 32] {
        Digests.sha256(octets)
    }

    fn rsa_check(&self, _bits: &[u8], _message: &[u8], _signature: &[u8]) -> bool {
        self.answer
    }

    fn ecdsa_check(&self, _bits: &[u8], _message: &[u8], _signature: &[u8]) -> bool {
        self.answer
    }
}

impl PreparingProvider for Told {
    type PreparedKey = ();

    fn prepare_key(&self, _bits: &[u8]) {}
}
