//! A signature that was made of octets: it is verified, and put beside them (RFC 5280 4.1, RFC 7935 2).

ghost use Rattle.std.specs.Prelude.{IfOk, IfErr};
ghost use Rattle.rpki_der.specs.Prelude.{AreValues};
ghost use Rattle.rpki.specs.Checkers.{checkers_of};
ghost use Rattle.rpki_issue.specs.Signing.{AreSigned, IsSigningRefusal};

use crate::error::IssueError;
use bytes::Bytes;
use rpki::crypto::{Provider, PublicKey, RpkiSignatureAlgorithm, Signature};
use rpki::der::{Captured, Values};
use rpki::repository::x509::SignedData;
use std::alloc::Global;

/// The octets and this signature of them, as signed data. Requires that the octets are one value.
///
/// The errors are `BadSignature` if the signature is not by the key, as the provider says; `TooLong` for 2^32 octets or
/// more; and `OutOfMemory` if allocation fails.
pub(crate) fn sign<P: Provider>(
    alloc: Global,
    octets: Captured,
    provider: &P,
    key: &PublicKey,
    signature: Bytes,
) -> Result<Captured, IssueError>
    requires { AreValues 1 octets }
    ensures ok { IfOk result (λ c. AreSigned (checkers_of P.Provider provider.now) key.now octets signature c) }
    ensures err { IfErr result (λ e. IsSigningRefusal (checkers_of P.Provider provider.now) key.now octets signature
        e) }
{
    let signature = Signature::new(RpkiSignatureAlgorithm::default(), signature);
    let data = SignedData::<RpkiSignatureAlgorithm>::new(octets, signature);
    match data.verify_signature(provider, key) {
        Ok(()) => {}
        Err(_) => return Err(IssueError::BadSignature),
    }
    let encoder = data.encode_ref();
    if !encoder.fits() {
        return Err(IssueError::TooLong);
    }
    match Captured::from_values(alloc, &encoder) {
        Ok(made) => Ok(made),
        Err(_) => Err(IssueError::OutOfMemory),
    }
}
