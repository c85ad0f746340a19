//! Signed data, written.

ghost use Rattle.rpki_c.specs.Made.{IsSignedWritten};

use crate::signed::read_signed;
use crate::signed_value::signed_of;
use crate::status::OTHER_ALGORITHM;
use crate::stored::store_if_short;
use std::alloc::Global;

/// Writes the signed data of the RPKI (RFC 5280 4.1, RFC 7935 2) that the octets are in its normal form to the front of
/// the buffer: exactly the signed octets, the algorithm with NULL for parameters, and the signature with no unused
/// bits.
///
/// The status is 0; `TOO_SMALL` where the buffer is shorter, and nothing is written to it; in both cases `written` is
/// the count of the octets. `TOO_LONG` where its contents would have 2^32 octets or more. Else it is that of
/// `rpki_signed_data`. Unless it is 0 or `TOO_SMALL`, nothing is written.
#[unsafe(no_mangle)]
pub extern "C" fn rpki_signed_data_write(
    alloc: Global,
    octets: &[u8],
    out: &mut [u8],
    written: &mut usize,
) -> u8
    ensures { IsSignedWritten octets.now result out.old out.new written.old written.new }
{
    let found = match read_signed(alloc, octets) {
        Ok(found) => found,
        Err(e) => return e.number(),
    };
    match found {
        Some(parts) => store_if_short(alloc, &signed_of(parts.data, parts.signature), out, written),
        None => OTHER_ALGORITHM,
    }
}
