//! Signed data of a value and a signature, written.

ghost use Rattle.rpki_der.specs.Members.{SpellsValue};
ghost use Rattle.rpki_der.specs.Reading.{Decodes};
ghost use Rattle.rpki_c.specs.Made.{IsWholeValueFault, IsSignedMade};

use crate::signed_value::signed_of;
use crate::stored::store_if_short;
use rpki_der::{Constructed, DecodeError, Steps, walk_octets};
use std::alloc::Global;

/// Whether the octets are one value, with everything nested in it, and nothing else.
///
/// The errors are those of the value; then `Trailing`. Allocation can fail only if it is constructed.
fn test_value(alloc: Global, octets: &[u8]) -> Result<(), DecodeError>
    ensures { Decodes (λ _. octets.now) SpellsValue IsWholeValueFault octets.now result }
{
    let size = walk_octets(alloc, octets, &mut Steps::new())?;
    let (_, following) = octets.split_at(size);
    let rest = Constructed::from_slice(following);
    rest.finish()?;
    Ok(())
}

/// Writes signed data of the RPKI (RFC 5280 4.1, RFC 7935 2) to the front of the buffer: exactly the octets of the
/// value, sha256WithRSAEncryption with NULL for parameters, and the signature with no unused bits.
///
/// The status is 0; `TOO_SMALL` where the buffer is shorter, and nothing is written to it; in both cases `written` is
/// the count of the octets. `TOO_LONG` where its contents would have 2^32 octets or more; `OUT_OF_MEMORY`; else it is
/// the number of the error of octets that are not one value. Unless it is 0 or `TOO_SMALL`, nothing is written.
#[unsafe(no_mangle)]
pub extern "C" fn rpki_signed_data_make(
    alloc: Global,
    value: &[u8],
    signature: &[u8],
    out: &mut [u8],
    written: &mut usize,
) -> u8
    ensures { IsSignedMade value.now signature.now result out.old out.new written.old written.new }
{
    match test_value(alloc, value) {
        Ok(()) => store_if_short(alloc, &signed_of(value, signature), out, written),
        Err(e) => e.number(),
    }
}
