//! Public keys.

mod common_name;
mod format;
mod key_identifier;
mod public_key;
mod rsa;
mod rsa_public_key;
mod verification;
mod view;

pub use common_name::PublicKeyCn;
pub use format::PublicKeyFormatEncoder;
pub use key_identifier::{KeyIdentifier, KeyIdentifierSliceError, ParseKeyIdentifierError};
pub use public_key::{PublicKey, PublicKeyEncoder};
pub use rsa_public_key::RsaPublicKey;
pub use verification::SignatureVerificationError;
pub use view::PublicKeyView;

/// The format of a public key: what its bits are (RFC 7935 3.1, RFC 8608 3.1).
#[derive(Clone, Copy, Debug, PartialEq, Eq)]
pub enum PublicKeyFormat {
    /// An RSA key.
    Rsa,
    /// A point on the curve P-256.
    EcdsaP256,
}
