//! Algorithm identifiers of any algorithm, and keys of any.

ghost use Rattle.std.specs.Prelude.{◌≡◌, bytes_eq};
ghost use Rattle.rpki.specs.Oids.{rsa_encryption, ec_public_key};
ghost use Rattle.rpki_der.specs.Prelude.{left, Takes, TakesAll};
ghost use Rattle.rpki_fields.specs.OtherCert.{any_octets, if_any, algorithm_fields, any_algorithm, algorithm_of};
ghost use Rattle.rpki_fields.specs.OtherCert.{key_fields, any_key, key_of, has_octets, signs_rpki, is_rpki_key};
ghost use Rattle.rpki_fields.specs.OtherView.{octets_if};

use bytes::Bytes;
use rpki::der::{BitString, Captured, Constructed, DecodeError, Oid};
use std::alloc::Global;
use std::marker::Model;

/// The OBJECT IDENTIFIER of the curve prime256v1 (RFC 5480 2.1.1.1).
pub const PRIME256V1: &[u8] = &[6, 8, 42, 134, 72, 206, 61, 3, 1, 7];

/// An algorithm identifier (RFC 5280 4.1.1.2). What its parameters are is not looked into.
#[derive(Drop)]
pub struct Algorithm {
    identifier: Oid<Bytes>,
    parameters: Option<Captured>,
}

impl Model for Algorithm {
    ghost use Rattle.rpki_fields.specs.OtherCert.{AlgorithmParts};

    ghost Value = { AlgorithmParts };

    ghost view = { λ x. record { identifier = x.identifier.0; parameters = x.parameters } };
}

/// The parameters that these contents are: one value, or nothing.
fn take_parameters(
    alloc: Global,
    contents: &mut Constructed<'_>,
) -> Result<Option<Captured>, DecodeError>
    ensures { TakesAll octets_if (if_any any_octets) (left contents.old) (left contents.new) result }
{
    if contents.is_empty() {
        return Ok(None);
    }
    let value = contents.capture_one(alloc)?;
    Ok(Some(value))
}

impl Algorithm {
    /// An algorithm identifier: a SEQUENCE of an OBJECT IDENTIFIER, and of one value or nothing. Copies its octets.
    ///
    /// The errors are those of a SEQUENCE; then those of the parts, `Trailing` for octets that follow them, and
    /// `OutOfMemory` if allocation fails.
    pub fn take_from(alloc: Global, cons: &mut Constructed<'_>) -> Result<Algorithm, DecodeError>
        ensures { Takes algorithm_of any_algorithm (left cons.old) (left cons.new) result }
    {
        cons.in_sequence(
            |contents|
                ensures { TakesAll algorithm_of algorithm_fields (left contents.old) (left contents.new) result }
            {
                let identifier = contents.take_oid_bytes(alloc)?;
                let parameters = take_parameters(alloc, contents)?;
                Ok(Algorithm {
                    identifier,
                    parameters,
                })
            },
        )
    }

    /// The contents octets of the object identifier.
    pub fn identifier(&self) -> &[u8]
        ensures { result.now ≡ self.now.identifier }
    {
        self.identifier.0.as_slice()
    }

    /// Whether there are parameters, and they are these octets.
    pub fn has_parameters(&self, octets: &[u8]) -> bool
        ensures { result ≡ has_octets self.now.parameters octets.now }
    {
        match &self.parameters {
            Some(value) => value.as_slice() == octets,
            None => false,
        }
    }

    /// Whether it is `rsaEncryption` (RFC 3279 2.3.1).
    pub fn is_rsa(&self) -> bool
        ensures { result ≡ bytes_eq self.now.identifier rsa_encryption }
    {
        self.identifier() == [42, 134, 72, 134, 247, 13, 1, 1, 1].as_slice()
    }

    /// Whether it is `id-ecPublicKey` (RFC 5480 2.1.1).
    pub fn is_on_curve(&self) -> bool
        ensures { result ≡ bytes_eq self.now.identifier ec_public_key }
    {
        self.identifier() == [42, 134, 72, 206, 61, 2, 1].as_slice()
    }

    /// Whether certificates of the RPKI are signed by it: it is `sha256WithRSAEncryption` (RFC 7935 2).
    pub fn signs_rpki(&self) -> bool
        ensures { result ≡ signs_rpki self.now }
    {
        self.identifier() == [42, 134, 72, 134, 247, 13, 1, 1, 11].as_slice()
    }

    /// Whether certificates of the RPKI have keys of it: it is `rsaEncryption`, or `id-ecPublicKey` on `prime256v1`
    /// (RFC 7935 3, RFC 8608 3).
    pub fn is_rpki_key(&self) -> bool
        ensures { result ≡ is_rpki_key self.now }
    {
        self.is_rsa() || (self.is_on_curve() && self.has_parameters(PRIME256V1))
    }
}

/// A public key of any algorithm (RFC 5280 4.1.2.7).
#[derive(Drop)]
pub struct OtherKey {
    algorithm: Algorithm,
    bits: BitString,
}

impl Model for OtherKey {
    ghost use Rattle.rpki_fields.specs.OtherCert.{OtherKeyParts};

    ghost Value = { OtherKeyParts };

    ghost view = { λ x. record { algorithm = x.algorithm; bits = x.bits } };
}

impl OtherKey {
    /// A key: a SEQUENCE of an algorithm identifier and of a BIT STRING. Copies its octets.
    ///
    /// The errors are those of a SEQUENCE; then those of the parts, `Trailing` for octets that follow them, and
    /// `OutOfMemory` if allocation fails.
    pub fn take_from(alloc: Global, cons: &mut Constructed<'_>) -> Result<OtherKey, DecodeError>
        ensures { Takes key_of any_key (left cons.old) (left cons.new) result }
    {
        cons.in_sequence(
            |contents|
                ensures { TakesAll key_of key_fields (left contents.old) (left contents.new) result }
            {
                let algorithm = Algorithm::take_from(alloc, contents)?;
                let bits = contents.take_bit_string(alloc)?;
                Ok(OtherKey { algorithm, bits })
            },
        )
    }

    /// The algorithm.
    pub fn algorithm(&self) -> &Algorithm
        ensures { result.now ≡ self.now.algorithm }
    {
        &self.algorithm
    }

    /// The bits.
    pub fn bits(&self) -> &BitString
        ensures { result.now ≡ self.now.bits }
    {
        &self.bits
    }
}
