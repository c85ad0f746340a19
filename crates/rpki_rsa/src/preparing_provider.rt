//! Providers that prepare keys.

ghost use Rattle.std.specs.Prelude.{◌↔◌, List, ℕ, IsTrue};

use rpki::crypto::Provider;

/// A provider that prepares an RSA key once for all the signatures that it is to verify, as an authority's is, which
/// signs all that the authority issues.
///
/// An implementation says what a prepared key is, and when it is that of some bits. One that prepares nothing has `()`
/// for a prepared key, and leaves all but [PreparingProvider::prepare_key] as it is here.
pub trait PreparingProvider: Provider {
    /// What is prepared of a key's bits, also of bits that are no key.
    type PreparedKey: Drop;

    /// The prepared key is that of these bits; any is, where nothing is said.
    ghost is_prepared: { Self → List ℕ → Self.PreparedKey → Type 0 } = { λ _ _ _. Unit {0} };

    /// Prepares the key with these bits. Allocates nothing.
    fn prepare_key(&self, bits: &[u8]) -> Self::PreparedKey
        ensures { is_prepared self.now bits.now result };

    /// As [Provider::rsa_check], by the prepared key of these bits.
    fn rsa_check_by(
        &self,
        key: &Self::PreparedKey,
        bits: &[u8],
        message: &[u8],
        signature: &[u8],
    ) -> bool
        requires { is_prepared self.now bits.now key.now }
        ensures { IsTrue result ↔ Self.rsa_of self.now bits.now message.now signature.now }
    {
        self.rsa_check(bits, message, signature)
    }
}
