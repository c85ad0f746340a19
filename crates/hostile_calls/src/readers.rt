//! The calls that read a value and share or copy what they keep, each in one place.

ghost use Rattle.rpki_der.specs.Cursor.{left};

use bytes::Bytes;
use rpki::crypto::PublicKey;
use rpki::der::{BitString, Captured, Constructed, DecodeError, Keep, Tag};
use std::alloc::Global;

/// A cursor on octets that it borrows.
pub fn on_slice(octets: &[u8]) -> Constructed<'_> {
    Constructed::from_slice(octets)
}

/// Reads a bit string.
pub fn bits<K: Keep>(keep: K, cursor: &mut Constructed<'_>) -> Result<BitString, DecodeError>
    requires { K.holds keep (left cursor.old) }
{
    cursor.take_bit_string(keep)
}

/// Reads the contents of an OCTET STRING, and keeps them.
pub fn octets<K: Keep>(keep: K, cursor: &mut Constructed<'_>) -> Result<Bytes, DecodeError>
    requires { K.holds keep (left cursor.old) }
{
    cursor.take_primitive_bytes_if(keep, Tag::OCTET_STRING)
}

/// Reads numbers of an octet until nothing remains.
pub fn numbers(alloc: Global, cursor: &mut Constructed<'_>) -> Result<Vec<u8>, DecodeError> {
    cursor.take_each(alloc, |rest| rest.take_u8())
}

/// Moves past one value.
fn pass_one(alloc: Global, cursor: &mut Constructed<'_>) -> Result<(), DecodeError> {
    match cursor.skip_one(alloc)? {
        Some(()) => Ok(()),
        None => Err(DecodeError::Truncated),
    }
}

/// Keeps the octets of one value, as those that a reader of it reads.
pub fn kept<K: Keep>(keep: K, cursor: &mut Constructed<'_>) -> Result<Captured, DecodeError>
    requires { K.holds keep (left cursor.old) }
{
    let alloc = keep.allocator();
    cursor.capture(keep, |value| pass_one(alloc, value))
}

/// Reads a public key.
pub fn key<K: Keep>(keep: K, cursor: &mut Constructed<'_>) -> Result<PublicKey, DecodeError>
    requires { K.holds keep (left cursor.old) }
{
    PublicKey::take_from(keep, cursor)
}

/// Reads a public key, and nothing else.
pub fn whole_key(alloc: Global, octets: Bytes) -> Result<PublicKey, DecodeError> {
    PublicKey::decode(alloc, octets)
}
