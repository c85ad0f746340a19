//! Names of algorithms, and sizes of keys of any algorithm.

ghost use Rattle.std.specs.Prelude.{◌≡◌, ◌++◌, OnOk, IfOk};
ghost use Rattle.std.specs.Option.{option_map};
ghost use Rattle.rpki_fields.specs.OtherText.{curve_algorithm_name, algorithm_name, curve_name, key_name, curve_size};
ghost use Rattle.rpki_fields.specs.OtherText.{size_by_curve, IsOtherSize, AreOtherKey};

use crate::algorithm::{Algorithm, OtherKey, PRIME256V1};
use crate::field::{Field, push_field, push_size_if};
use crate::identifier::push_identifier;
use crate::key_size::rsa_size;
use crate::value::colon_digits;
use sha1::Sha1;
use sha2::Digest;
use std::alloc::{AllocError, Global};

/// The OBJECT IDENTIFIER of the curve secp384r1 (RFC 5480 2.1.1.1).
const SECP384R1: &[u8] = &[6, 5, 43, 129, 4, 0, 34];

/// That of the curve secp521r1.
const SECP521R1: &[u8] = &[6, 5, 43, 129, 4, 0, 35];

/// Adds the name of an algorithm on elliptic curves (RFC 5480 2.1.1, RFC 5758 3.2, RFC 8410 3); of another its
/// identifier.
fn push_curve_algorithm(text: &mut Vec<u8>, id: &[u8]) -> Result<(), AllocError>
    ensures { OnOk result (text.new.items ≡ text.old.items ++ curve_algorithm_name id.now) }
{
    if id == [42, 134, 72, 206, 61, 2, 1].as_slice() {
        text.extend_from_slice(b"id-ecPublicKey")
    } else if id == [42, 134, 72, 206, 61, 4, 1].as_slice() {
        text.extend_from_slice(b"ecdsa-with-SHA1")
    } else if id == [42, 134, 72, 206, 61, 4, 3, 1].as_slice() {
        text.extend_from_slice(b"ecdsa-with-SHA224")
    } else if id == [42, 134, 72, 206, 61, 4, 3, 2].as_slice() {
        text.extend_from_slice(b"ecdsa-with-SHA256")
    } else if id == [42, 134, 72, 206, 61, 4, 3, 3].as_slice() {
        text.extend_from_slice(b"ecdsa-with-SHA384")
    } else if id == [42, 134, 72, 206, 61, 4, 3, 4].as_slice() {
        text.extend_from_slice(b"ecdsa-with-SHA512")
    } else if id == [43, 101, 112].as_slice() {
        text.extend_from_slice(b"ED25519")
    } else if id == [43, 101, 113].as_slice() {
        text.extend_from_slice(b"ED448")
    } else {
        push_identifier(text, id)
    }
}

/// Adds the name of an algorithm, of RSA (RFC 8017 A.2, C) or on elliptic curves; of another its identifier.
pub fn push_algorithm(text: &mut Vec<u8>, id: &[u8]) -> Result<(), AllocError>
    ensures { OnOk result (text.new.items ≡ text.old.items ++ algorithm_name id.now) }
{
    if id == [42, 134, 72, 134, 247, 13, 1, 1, 1].as_slice() {
        text.extend_from_slice(b"rsaEncryption")
    } else if id == [42, 134, 72, 134, 247, 13, 1, 1, 4].as_slice() {
        text.extend_from_slice(b"md5WithRSAEncryption")
    } else if id == [42, 134, 72, 134, 247, 13, 1, 1, 5].as_slice() {
        text.extend_from_slice(b"sha1WithRSAEncryption")
    } else if id == [42, 134, 72, 134, 247, 13, 1, 1, 10].as_slice() {
        text.extend_from_slice(b"rsassaPss")
    } else if id == [42, 134, 72, 134, 247, 13, 1, 1, 11].as_slice() {
        text.extend_from_slice(b"sha256WithRSAEncryption")
    } else if id == [42, 134, 72, 134, 247, 13, 1, 1, 12].as_slice() {
        text.extend_from_slice(b"sha384WithRSAEncryption")
    } else if id == [42, 134, 72, 134, 247, 13, 1, 1, 13].as_slice() {
        text.extend_from_slice(b"sha512WithRSAEncryption")
    } else if id == [42, 134, 72, 134, 247, 13, 1, 1, 14].as_slice() {
        text.extend_from_slice(b"sha224WithRSAEncryption")
    } else {
        push_curve_algorithm(text, id)
    }
}

/// The name of the curve that the parameters name, after a space; nothing where it isn't known.
fn curve_name(algorithm: &Algorithm) -> &'static [u8]
    ensures { result.now ≡ curve_name algorithm.now.parameters }
{
    if algorithm.has_parameters(PRIME256V1) {
        b" prime256v1"
    } else if algorithm.has_parameters(SECP384R1) {
        b" secp384r1"
    } else if algorithm.has_parameters(SECP521R1) {
        b" secp521r1"
    } else {
        b""
    }
}

/// Adds the name of the algorithm of a key, with that of its curve where it has one.
pub fn push_key_name(text: &mut Vec<u8>, algorithm: &Algorithm) -> Result<(), AllocError>
    ensures { OnOk result (text.new.items ≡ text.old.items ++ key_name algorithm.now) }
{
    push_algorithm(text, algorithm.identifier())?;
    if algorithm.is_on_curve() {
        text.extend_from_slice(curve_name(algorithm))?;
    }
    Ok(())
}

/// How many bits a key on the curve has that the parameters name, where that is known.
fn curve_size(algorithm: &Algorithm) -> Option<&'static [u8]>
    ensures { option_map (λ s. s.now) result ≡ curve_size algorithm.now.parameters }
{
    if algorithm.has_parameters(PRIME256V1) {
        Some(b"256")
    } else if algorithm.has_parameters(SECP384R1) {
        Some(b"384")
    } else if algorithm.has_parameters(SECP521R1) {
        Some(b"521")
    } else {
        None
    }
}

/// The same of any key but that of RSA.
fn size_by_curve(alloc: Global, algorithm: &Algorithm) -> Result<Option<Vec<u8>>, AllocError>
    ensures { IfOk result (λ o. option_map (λ v. v.items) o ≡ size_by_curve algorithm.now) }
{
    if !algorithm.is_on_curve() {
        return Ok(None);
    }
    match curve_size(algorithm) {
        Some(size) => {
            let text = Vec::from_slice(alloc, size)?;
            Ok(Some(text))
        }
        None => Ok(None),
    }
}

/// How many bits a key has, in decimal digits, where that is known.
fn size_if(alloc: Global, key: &OtherKey) -> Result<Option<Vec<u8>>, AllocError>
    ensures { IfOk result (λ o. IsOtherSize key.now (option_map (λ v. v.items) o)) }
{
    if key.algorithm().is_rsa() {
        let bits = key.bits();
        let size = rsa_size(alloc, bits.octet_slice())?;
        return Ok(Some(size));
    }
    size_by_curve(alloc, key.algorithm())
}

/// The fields of a key of any algorithm.
///
/// Returns `AllocError` if allocation fails.
pub fn other_key(alloc: Global, key: &OtherKey) -> Result<Vec<Field>, AllocError>
    ensures { IfOk result (λ fields. AreOtherKey key.now fields.items) }
{
    let mut name = Vec::new(alloc);
    push_key_name(&mut name, key.algorithm())?;
    let size = size_if(alloc, key)?;
    let digest = colon_digits(alloc, &Sha1::digest(key.bits().octet_slice()))?;
    let mut fields = Vec::new(alloc);
    push_field(&mut fields, b"Public Key Algorithm", name.as_slice())?;
    push_size_if(&mut fields, b"Public Key Bits", size)?;
    push_field(&mut fields, b"Public Key SHA-1", digest.as_slice())?;
    Ok(fields)
}
