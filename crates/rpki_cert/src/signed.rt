//! Signed data of the RPKI, kept as octets (RFC 5280 4.1, 5.1).

ghost use Rattle.std.specs.Prelude.{◌≡◌, IfOk};
ghost use Rattle.rpki_der.specs.Prelude.{IsValue};
ghost use Rattle.rpki.specs.Signature.{signature_of};
ghost use Rattle.rpki.specs.SignedData.{parts_of};

use bytes::Bytes;
use rpki::crypto::RpkiSignature;
use rpki::der::{Constructed, Shared};
use rpki::repository::x509::SignedData;
use std::alloc::{AllocError, Global};
use std::marker::Model;

/// Signed data of the RPKI: exactly the octets that are signed, as they came, and the signature. It is [SignedData]
/// without an index of the headers.
#[derive(Drop)]
pub struct SignedOctets {
    signed: Bytes,
    signature: RpkiSignature,
}

impl Model for SignedOctets {
    ghost use Rattle.std.specs.Prelude.{Bool};
    ghost use Rattle.rpki.specs.SignedData.{SignedParts, parts_of};
    ghost use Rattle.rpki_der.specs.Members.{IsValue};

    ghost Value = { SignedParts Bool };

    ghost view = { λ x. parts_of x.signed x.signature.algorithm x.signature.value };

    ghost invariant = { λ x. IsValue x.signed };
}

impl SignedOctets {
    /// Octets that are signed, and a signature. Requires that the octets are one value, with everything nested in it.
    pub(crate) fn new(signed: Bytes, signature: RpkiSignature) -> SignedOctets
        requires { IsValue signed }
        ensures { result ≡ parts_of signed signature.algorithm signature.value }
    {
        SignedOctets { signed, signature }
    }

    /// The value, as exactly the octets that are signed.
    pub fn data(&self) -> &Bytes
        ensures slice { result.now ≡ self.now.signed }
        ensures one { IsValue result.now }
    {
        &self.signed
    }

    /// The signature.
    pub fn signature(&self) -> &RpkiSignature
        ensures { result.now ≡ signature_of self.now.algorithm self.now.value }
    {
        &self.signature
    }

    /// The same with an index of the headers, and with an encoder. It shares the octets.
    ///
    /// Returns `AllocError` if allocation fails.
    pub fn to_signed_data(&self, alloc: Global) -> Result<SignedData, AllocError>
        ensures { IfOk result (λ d. d ≡ self.now) }
    {
        let signature = self.signature.clone()?;
        match Constructed::new(&self.signed).capture_one(Shared::new(alloc, &self.signed)) {
            Ok(captured) => Ok(SignedData::new(captured, signature)),
            Err(_) => Err(AllocError),
        }
    }
}
