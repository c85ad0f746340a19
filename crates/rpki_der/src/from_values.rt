//! Octets and captured values from encoders.

ghost use Rattle.std.specs.Prelude.{◌≡◌, ◌<◌, ◌^◌, length, IfOk, IfErr};
ghost use Rattle.rpki_der.specs.Members.{IsValueList};
ghost use Rattle.rpki_der.specs.Index.{IsIndex};

use crate::captured::Captured;
use crate::encode::Values;
use crate::error::DecodeError;
use crate::index::HeaderEntry;
use crate::tag::Steps;
use crate::walk::walk_value;
use bytes::Bytes;
use std::alloc::{AllocError, Global};

/// The octets that are written of the values, alone: no index of them is made.
///
/// Requires that the values fit, as [Values::fits] tests. Returns `AllocError` if allocation fails.
pub fn write_to_bytes<V: Values>(alloc: Global, values: &V) -> Result<Bytes, AllocError>
    requires { V.is_short values.now × (length (V.encoded values.now) < 2 ^ 63) }
    ensures { IfOk result (λ b. b ≡ V.encoded values.now) }
{
    let mut octets = Vec::with_capacity(alloc, values.encoded_len() as usize)?;
    match values.write_encoded(&mut octets) {
        Ok(()) => {}
        Err(_) => return Err(AllocError),
    }
    Ok(Bytes::from_vec(octets)?)
}

impl Captured {
    /// Captures the values: the result holds the octets that are written.
    ///
    /// Requires that the values fit, as [Values::fits] tests. Returns `AllocError` if allocation fails.
    pub fn from_values<V: Values>(alloc: Global, values: &V) -> Result<Captured, AllocError>
        requires { V.is_short values.now × (length (V.encoded values.now) < 2 ^ 63) }
        ensures { IfOk result (λ c. c ≡ V.encoded values.now) }
    {
        let octets = write_to_bytes(alloc, values)?;
        let index = match index_values(alloc, octets.as_slice()) {
            Ok(index) => index,
            Err(_) => return Err(AllocError),
        };
        Ok(Captured::of_index(octets, index))
    }
}

/// The index of octets that are values. Of values the one error is `OutOfMemory`, if allocation fails.
pub(crate) fn index_values(alloc: Global, octets: &[u8]) -> Result<Vec<HeaderEntry>, DecodeError>
    requires { length octets.now < 2 ^ 63 }
    ensures index { IfOk result (λ index. IsIndex octets.now index.items) }
    ensures refused { IfErr result (λ e. IsValueList octets.now → e ≡ DecodeError.OutOfMemory) }
{
    let mut index = Vec::new(alloc);
    let mut place = 0;
    'values: while place < octets.len() {
        let left = &octets[place..];
        let size = walk_value(alloc, left, place, true, &mut index, &mut Steps::new())?;
        place += size;
    }
    Ok(index)
}
