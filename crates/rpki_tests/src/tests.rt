//! Worked cases: expected octets, texts and errors come from the standards and their worked examples.

mod algorithms;
mod comparisons;
mod errors;
mod extensions;
mod identifiers;
mod inner_errors;
mod kept;
mod keys;
mod name_attributes;
mod names;
mod oid;
mod signed_data;
mod sizes;
mod updates;
mod verification;
mod writers;

use bytes::Bytes;
use rpki::crypto::Provider;
use rpki_der::{Values, write_to_bytes};
use rpki_der_tests::hexadecimal::octets_of;
use std::alloc::{AllocError, Global};

/// The octets that hexadecimal digits write.
fn source_of(alloc: Global, digits: &str) -> Result<Bytes, AllocError> {
    Ok(Bytes::from_vec(octets_of(alloc, digits)?)?)
}

/// The values that are written, where they fit.
fn written<V: Values>(alloc: Global, values: &V) -> Result<Option<Bytes>, AllocError> {
    if !values.fits() {
        return Ok(None);
    }
    Ok(Some(write_to_bytes(alloc, values)?))
}

/// The digest by SHA-1 of `abc` (FIPS 180-4).
const DIGEST_OF_ABC: [u8; 20] = [
    0xA9, 0x99, 0x3E, 0x36, 0x47, 0x06, 0x81, 0x6A, 0xBA, 0x3E, 0x25, 0x71, 0x78, 0x50, 0xC2, 0x6C,
    0x9C, 0xD0, 0xD8, 0x9D,
];

/// A provider that knows the digests of `abc` alone, and returns the same result for every check.
#[derive(Drop)]
struct Always {
    answer: bool,
}

impl Provider for Always {
    ghost use Rattle.std.specs.Prelude.{ℕ, List, IsTrue, replicate};
    ghost use Rattle.rpki_tests.specs.declared.tests.TheConstants.{DIGEST_OF_ABC};

    ghost sha1_of = { λ _ _. DIGEST_OF_ABC };

    ghost sha256_of = { λ _ _. replicate 32 171 };

    ghost rsa_of = { λ p _ _ _. IsTrue p.answer };

    ghost ecdsa_of = { λ p _ _ _. IsTrue p.answer };

    fn sha1(&self, _octets: &[u8]) -> [u8; 20] {
        DIGEST_OF_ABC
    }

    fn sha256(&self, _octets: &[u8]) -> [u8; 32] {
        [0xAB; 32]
    }

    fn rsa_check(&self, _bits: &[u8], _message: &[u8], _signature: &[u8]) -> bool {
        self.answer
    }

    fn ecdsa_check(&self, _bits: &[u8], _message: &[u8], _signature: &[u8]) -> bool {
        self.answer
    }
}
