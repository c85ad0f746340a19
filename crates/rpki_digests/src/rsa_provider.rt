//! Digests, and signatures by RSA.

use crate::digests::Digests;
use rpki::crypto::Provider;
use rpki_rsa::{Key, KeyError, PreparingProvider};

/// A provider that computes digests by SHA-1 and SHA-256 (FIPS 180-4), and verifies signatures by RSA with PKCS #1 v1.5
/// padding and SHA-256 (RFC 8017 8.2.2), by keys of 2,048 to 4,096 bits.
///
/// It finds no ECDSA signature good. Certificates, those of routers too, revocation lists and signed objects are signed
/// by RSA alone (RFC 7935 2); routers sign BGPsec updates and requests for certificates by ECDSA (RFC 8608 2).
#[derive(Clone, Copy, Debug)]
pub struct RsaProvider;

impl Provider for RsaProvider {
    ghost use Rattle.sha1.specs.Sha1.{sha1};
    ghost use Rattle.sha2.specs.Sha256.{sha256};
    ghost use Rattle.rpki_rsa.specs.Key.{IsSignatureBy};

    ghost sha1_of = { λ _ octets. sha1 octets };

    ghost sha256_of = { λ _ octets. sha256 octets };

    ghost rsa_of = { λ _ bits message signature. IsSignatureBy bits (sha256 message) signature };

    ghost ecdsa_of = { λ _ _ _ _. ⊥ };

    fn sha1(&self, octets: &[u8]) -> [u8; 20] {
        Digests.sha1(octets)
    }

    fn sha256(&self, octets: &[u8]) -> [u8; 32] {
        Digests.sha256(octets)
    }

    fn rsa_check(&self, bits: &[u8], message: &[u8], signature: &[u8]) -> bool {
        rpki_rsa::verifies(bits, message, signature)
    }

    fn ecdsa_check(&self, _bits: &[u8], _message: &[u8], _signature: &[u8]) -> bool {
        false
    }
}

/// A prepared key is what [Key::from_bits] returns: by bits that are no key no signature is good.
impl PreparingProvider for RsaProvider {
    type PreparedKey = Result<Key, KeyError>;

    ghost use Rattle.rpki_rsa.specs.Key.{IsKeyOf};

    ghost is_prepared = { λ _ bits key. IsKeyOf bits key };

    fn prepare_key(&self, bits: &[u8]) -> Result<Key, KeyError> {
        Key::from_bits(bits)
    }

    fn rsa_check_by(
        &self,
        key: &Result<Key, KeyError>,
        _bits: &[u8],
        message: &[u8],
        signature: &[u8],
    ) -> bool {
        match key {
            Ok(key) => key.verifies(message, signature),
            Err(_) => false,
        }
    }
}
