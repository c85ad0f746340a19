//! A provider that has a prepared key.

ghost use Rattle.std.specs.Prelude.{◌≡◌};

use crate::preparing_provider::PreparingProvider;
use rpki::crypto::Provider;
use std::marker::Model;

/// A provider, and a key that it has prepared: it verifies by this one what is signed by the key, and all else as the
/// provider does.
#[derive(Drop)]
pub struct WithKey<'a, P: PreparingProvider> {
    provider: &'a P,
    /// The bits of the key.
    bits: &'a [u8],
    key: &'a P::PreparedKey,
}

impl<'a, P: PreparingProvider> Model for WithKey<'a, P> {
    ghost Value = { P };

    ghost view = { λ w. w.provider.now };

    ghost invariant = { λ w. P.is_prepared w.provider.now w.bits.now w.key.now };
}

impl<'a, P: PreparingProvider> WithKey<'a, P> {
    /// The provider, and the key of these bits. Requires that the provider has prepared it of these.
    pub fn new(provider: &'a P, bits: &'a [u8], key: &'a P::PreparedKey) -> WithKey<'a, P>
        requires { P.is_prepared provider.now bits.now key.now }
        ensures { result ≡ provider.now }
    {
        WithKey {
            provider,
            bits,
            key,
        }
    }
}

/// The digests and the signatures of the provider.
impl<'a, P: PreparingProvider> Provider for WithKey<'a, P> {
    ghost sha1_of = { P.sha1_of };

    ghost sha256_of = { P.sha256_of };

    ghost rsa_of = { P.rsa_of };

    ghost ecdsa_of = { P.ecdsa_of };

    fn sha1(&self, octets: &[u8]) -> [u8; 20] {
        self.provider.sha1(octets)
    }

    fn sha256(&self, octets: &[u8]) -> [u8; 32] {
        self.provider.sha256(octets)
    }

    fn rsa_check(&self, bits: &[u8], message: &[u8], signature: &[u8]) -> bool {
        if bits == self.bits {
            return self
                .provider
                .rsa_check_by(self.key, self.bits, message, signature);
        }
        self.provider.rsa_check(bits, message, signature)
    }

    fn ecdsa_check(&self, bits: &[u8], message: &[u8], signature: &[u8]) -> bool {
        self.provider.ecdsa_check(bits, message, signature)
    }
}
