//! Verification of signatures.

ghost use Rattle.std.specs.Prelude.{◌↔◌, IsOk};
ghost use Rattle.rpki.specs.Provider.{VerifiesBy};
ghost use Rattle.rpki.specs.Checkers.{checkers_of};

use super::{PublicKey, PublicKeyFormat};
use crate::crypto::{Provider, Signature, SignatureAlgorithm};
use rpki_der::ContentError;
use std::error::Error;
use std::fmt;

impl PublicKey {
    /// Checks that the signature of the message is by this key, as the provider says.
    ///
    /// Returns an error if the signature's algorithm has keys of another format, or if the provider says no.
    pub fn verify<P: Provider, Alg: SignatureAlgorithm>(
        &self,
        provider: &P,
        message: &[u8],
        signature: &Signature<Alg>,
    ) -> Result<(), SignatureVerificationError>
        ensures { IsOk result ↔ VerifiesBy (checkers_of P.Provider provider.now) Alg.format self.now message.now
            signature.now }
    {
        let format = self.algorithm();
        if signature.algorithm().public_key_format() != format {
            return Err(SignatureVerificationError);
        }
        let value = signature.value().as_slice();
        let verified = match format {
            PublicKeyFormat::Rsa => provider.rsa_check(self.bits(), message, value),
            PublicKeyFormat::EcdsaP256 => provider.ecdsa_check(self.bits(), message, value),
        };
        if verified {
            Ok(())
        } else {
            Err(SignatureVerificationError)
        }
    }
}

/// Error returned when a signature is not that of the message by the key.
#[derive(Clone, Copy, Debug, PartialEq, Eq)]
pub struct SignatureVerificationError;

impl fmt::Display for SignatureVerificationError {
    ghost use Rattle.std.specs.Prelude.{Some};
    ghost use Rattle.rpki.specs.ErrorTexts.{verification_text};

    ghost output = { λ _. Some verification_text };

    fn fmt<W: fmt::Write>(&self, f: &mut fmt::Formatter<W>) -> fmt::Result {
        f.write_str("signature verification failed")
    }
}

impl Error for SignatureVerificationError {}

/// The error with the same text.
impl From<SignatureVerificationError> for ContentError {
    ghost use Rattle.std.specs.Prelude.{◌≡◌};
    ghost use Rattle.rpki_der.specs.Prelude.{text_of};
    ghost use Rattle.rpki.specs.ErrorTexts.{verification_text};

    ghost from_gives = { λ _ e. text_of e ≡ verification_text };

    fn from(_e: SignatureVerificationError) -> ContentError {
        ContentError::from_static("signature verification failed")
    }
}
