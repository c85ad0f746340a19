//! Octets are numbers below 256.

ghost use Rattle.rpki_der.specs.Cursor.{left};
ghost use Rattle.rpki_parse.specs.Words.{AreBytes};

use rpki_der::Constructed;

/// How many octets there are, each of which is below 256.
#[inline(always)]
fn are_bytes(octets: &[u8]) -> usize
    ensures { AreBytes octets.now }
{
    octets.len()
}

/// How many octets remain, each of which is below 256: what the laws of the readers ask for.
#[inline(always)]
pub(crate) fn bytes_left(cons: &Constructed<'_>) -> usize
    ensures { AreBytes (left cons.now) }
{
    are_bytes(cons.rest())
}
