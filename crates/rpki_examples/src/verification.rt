//! Signed data that a key has signed.

ghost use Rattle.std.specs.Prelude.{IfOk, IfErr};
ghost use Rattle.rpki.specs.Checkers.{checkers_of};
ghost use Rattle.rpki_examples.specs.Verified.{IsVerified, IsUnverified};

use bytes::Bytes;
use rpki::crypto::{Provider, PublicKey, SignatureAlgorithm, SignatureVerificationError};
use rpki::der::DecodeError;
use rpki::repository::x509::SignedData;
use std::alloc::Global;

/// Why octets are not verified.
#[derive(Clone, Copy, Debug, PartialEq, Eq)]
pub enum Unverified {
    /// They are not signed data of this algorithm, or allocation failed.
    Malformed(DecodeError),
    /// They are, and the key has not signed them.
    NotSigned,
}

impl From<DecodeError> for Unverified {
    ghost use Rattle.std.specs.Prelude.{◌≡◌};
    ghost use Rattle.rpki_examples.specs.declared.verification.Unverified.TheVariants.{Malformed};

    ghost from_gives = { λ e u. u ≡ Malformed e };

    fn from(e: DecodeError) -> Unverified {
        Unverified::Malformed(e)
    }
}

impl From<SignatureVerificationError> for Unverified {
    ghost use Rattle.std.specs.Prelude.{◌≡◌};
    ghost use Rattle.rpki_examples.specs.declared.verification.Unverified.TheVariants.{NotSigned};

    ghost from_gives = { λ _ u. u ≡ NotSigned };

    fn from(_e: SignatureVerificationError) -> Unverified {
        Unverified::NotSigned
    }
}

/// The signed data that the octets are, if the key has signed it.
///
/// `Malformed` with the error of [SignedData::decode] where they are no signed data, or where allocation fails;
/// `NotSigned` where the key is of another format than the algorithm's, or the provider says no.
pub fn verified<P: Provider, Alg: SignatureAlgorithm + Drop>(
    alloc: Global,
    provider: &P,
    key: &PublicKey,
    octets: Bytes,
) -> Result<SignedData<Alg>, Unverified>
    ensures signed { IfOk result (IsVerified Alg.spells Alg.format (checkers_of P.Provider provider.now) key.now
        octets) }
    ensures refused { IfErr result (IsUnverified Alg.spells Alg.fault Alg.format (checkers_of P.Provider provider.now)
        key.now octets) }
{
    let signed = SignedData::<Alg>::decode(alloc, octets)?;
    signed.verify_signature(provider, key)?;
    Ok(signed)
}
