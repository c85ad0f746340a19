//! A provider of one's own.

use rpki::crypto::Provider;
use rpki_digests::Digests;

/// A provider whose digests are those of `rpki_digests`, and which takes one RSA signature for right.
///
/// A provider with RSA of its own calls it in `rsa_check`, and `rsa_of` is the definition that this RSA is proved
/// against: a relation of the key's bits, the message and the signature. All that the layer proves of verification is
/// said of that relation. `RsaProvider` of `rpki_digests` is one whose RSA is proved.
#[derive(Drop)]
pub struct OneSignature {
    /// The bits of the key.
    pub bits: &'static [u8],
    /// What is signed.
    pub message: &'static [u8],
    /// The signature.
    pub signature: &'static [u8],
}

impl Provider for OneSignature {
    ghost use Rattle.std.specs.Prelude.{◌&&◌, bytes_eq, IsTrue};
    ghost use Rattle.sha1.specs.Sha1.{sha1};
    ghost use Rattle.sha2.specs.Sha256.{sha256};

    ghost sha1_of = { λ _ octets. sha1 octets };

    ghost sha256_of = { λ _ octets. sha256 octets };

    ghost rsa_of = { λ p bits message signature. IsTrue (bytes_eq p.bits.now bits && bytes_eq p.message.now message
        && bytes_eq p.signature.now signature) };

    ghost ecdsa_of = { λ _ _ _ _. ⊥ };

    fn sha1(&self, octets: &[u8]) -> [u8; 20] {
        Digests.sha1(octets)
    }

    fn sha256(&self, octets: &[u8]) -> [u8; 32] {
        Digests.sha256(octets)
    }

    fn rsa_check(&self, bits: &[u8], message: &[u8], signature: &[u8]) -> bool {
        self.bits == bits && self.message == message && self.signature == signature
    }

    /// It knows no ECDSA key.
    fn ecdsa_check(&self, _bits: &[u8], _message: &[u8], _signature: &[u8]) -> bool {
        false
    }
}
