//! Public keys, written.

ghost use Rattle.std.specs.Prelude.{IfOk, IfErr};
ghost use Rattle.rpki_der.specs.Prelude.{Decodes};
ghost use Rattle.rpki.specs.PublicKey.{SpellsKey, key_octets};
ghost use Rattle.rpki_c.specs.Key.{IsKeptKeyFault, IsNoKey};
ghost use Rattle.rpki_c.specs.Made.{IsMadeIf, IsShortKey, IsKeyWritten, IsRsaWritten, IsUncopied, IsBitsWritten};
ghost use Rattle.rpki_c.specs.Made.{IsNameWritten};

use crate::keys::key_status;
use crate::status::{CONTENT, OUT_OF_MEMORY, TOO_LONG};
use crate::stored::{store, store_if_short};
use bytes::Bytes;
use rpki::crypto::{PublicKey, RsaPublicKey};
use rpki::repository::x509::Name;
use rpki_der::{Constructed, DecodeError, InvalidInteger};
use rpki_digests::Digests;
use std::alloc::Global;

/// The most octets that the two numbers of an RSA key have.
const MOST: usize = 1 << 31;

/// A public key, and nothing else, whose bits are kept.
fn whole_key(alloc: Global, octets: &[u8]) -> Result<PublicKey, DecodeError>
    ensures { Decodes (λ k. k) SpellsKey IsKeptKeyFault octets.now result }
{
    Constructed::from_slice(octets).whole(|cons| PublicKey::take_from(alloc, cons))
}

/// The public key that the octets are, whose bits are kept, or their status.
fn kept_key(alloc: Global, octets: &[u8]) -> Result<PublicKey, u8>
    ensures ok { IfOk result (λ key. SpellsKey key octets.now) }
    ensures err { IfErr result (λ status. IsNoKey IsKeptKeyFault octets.now status) }
{
    match whole_key(alloc, octets) {
        Ok(key) => Ok(key),
        Err(e) => Err(key_status(octets, e)),
    }
}

/// Writes the value of a key. The status is as that of [store_if_short].
pub(crate) fn store_key(alloc: Global, key: &PublicKey, out: &mut [u8], written: &mut usize) -> u8
    ensures { IsMadeIf (IsShortKey key.now) (key_octets key.now) result out.old out.new written.old written.new }
{
    store_if_short(alloc, &key.encode_ref(), out, written)
}

/// Writes the public key (SubjectPublicKeyInfo, RFC 5280 4.1) that the octets are as it is written, with NULL for the
/// parameters of RSA, to the front of the buffer.
///
/// The status is 0; `TOO_SMALL` where the buffer is shorter, and nothing is written to it; in both cases `written` is
/// the count of the octets. `TOO_LONG` where its contents would have 2^32 octets or more. Else it is that of
/// `rpki_public_key`. Unless it is 0 or `TOO_SMALL`, nothing is written.
#[unsafe(no_mangle)]
pub extern "C" fn rpki_public_key_write(
    alloc: Global,
    octets: &[u8],
    out: &mut [u8],
    written: &mut usize,
) -> u8
    ensures { IsKeyWritten octets.now result out.old out.new written.old written.new }
{
    match kept_key(alloc, octets) {
        Ok(key) => store_key(alloc, &key, out, written),
        Err(status) => status,
    }
}

/// Writes the RSA key of the two numbers, the most significant octet first, as a public key (SubjectPublicKeyInfo) to
/// the front of the buffer. Leading zeros are left out.
///
/// The status is 0; `TOO_SMALL` where the buffer is shorter, and nothing is written to it; in both cases `written` is
/// the count of the octets. `CONTENT` where one of them has no octets; `TOO_LONG` where they have more than 2^31 octets
/// together; `OUT_OF_MEMORY`. Unless it is 0 or `TOO_SMALL`, nothing is written.
#[unsafe(no_mangle)]
pub extern "C" fn rpki_rsa_key_write(
    alloc: Global,
    modulus: &[u8],
    exponent: &[u8],
    out: &mut [u8],
    written: &mut usize,
) -> u8
    ensures { IsRsaWritten modulus.now exponent.now result out.old out.new written.old written.new }
{
    if modulus.len() + exponent.len() > MOST {
        return TOO_LONG;
    }
    match PublicKey::rsa_from_components(alloc, modulus, exponent) {
        Ok(key) => store_key(alloc, &key, out, written),
        Err(InvalidInteger::Empty) => CONTENT,
        Err(InvalidInteger::OutOfMemory) => OUT_OF_MEMORY,
    }
}

/// The status of bits that there was no memory to copy: `OUT_OF_MEMORY` where they are those of an RSA key, else the
/// number of the error.
fn uncopied(bits: &[u8]) -> u8
    ensures { IsUncopied bits.now result }
{
    match RsaPublicKey::from_bits(bits) {
        Ok(_) => OUT_OF_MEMORY,
        Err(e) => e.number(),
    }
}

/// Writes the RSA key with these bits, a SEQUENCE of two non-negative INTEGERs and nothing else, as a public key
/// (SubjectPublicKeyInfo) to the front of the buffer.
///
/// The status is 0; `TOO_SMALL` where the buffer is shorter, and nothing is written to it; in both cases `written` is
/// the count of the octets. `TOO_LONG` as in [rpki_public_key_write]; `OUT_OF_MEMORY`, where the bits are those of a
/// key; else it is the number of the error. Unless it is 0 or `TOO_SMALL`, nothing is written.
#[unsafe(no_mangle)]
pub extern "C" fn rpki_rsa_key_of_bits(
    alloc: Global,
    bits: &[u8],
    out: &mut [u8],
    written: &mut usize,
) -> u8
    ensures { IsBitsWritten bits.now result out.old out.new written.old written.new }
{
    let Ok(bytes) = Bytes::copy_from_slice(alloc, bits) else {
        return uncopied(bits);
    };
    match PublicKey::rsa_from_bits_bytes(bytes) {
        Ok(key) => store_key(alloc, &key, out, written),
        Err(e) => e.number(),
    }
}

/// Writes the name of the subject with the public key that the octets are (RFC 6487 4.5): one common name, the digits
/// of its key identifier, to the front of the buffer.
///
/// The status is 0; `TOO_SMALL` where the buffer is shorter, and nothing is written to it; in both cases `written` is
/// the count of the octets. `OUT_OF_MEMORY`; else it is that of `rpki_public_key`. Unless it is 0 or `TOO_SMALL`,
/// nothing is written.
#[unsafe(no_mangle)]
pub extern "C" fn rpki_name_of_key(
    alloc: Global,
    octets: &[u8],
    out: &mut [u8],
    written: &mut usize,
) -> u8
    ensures { IsNameWritten octets.now result out.old out.new written.old written.new }
{
    let key = match kept_key(alloc, octets) {
        Ok(key) => key,
        Err(status) => return status,
    };
    match Name::from_pub_key(alloc, &Digests, &key) {
        Ok(name) => store(name.view().octets(), out, written),
        Err(_) => OUT_OF_MEMORY,
    }
}
