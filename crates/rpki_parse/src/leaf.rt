//! Leaves: primitive values, whose contents a function decides.

ghost use Rattle.std.specs.Prelude.{◌≡◌, ◌^◌, false};
ghost use Rattle.rpki_der.specs.Cursor.{left};
ghost use Rattle.rpki_der.specs.Number.{number_of};
ghost use Rattle.rpki_der.specs.TagName.{bit_string, boolean, integer, null, octet_string, oid};
ghost use Rattle.rpki_parse.specs.Words.{Moves, parsed};
ghost use Rattle.rpki_parse.specs.Value.{value_at};
ghost use Rattle.rpki_parse.specs.Leaf.{below_in, bits_in, boolean_in, leaf_at, null_in, number_in};
ghost use Rattle.rpki_parse.specs.Leaf.{oid_in, only_in, sized_in, unsigned_in};

use crate::octets::bytes_left;
use rpki_der::{BitSlice, ConstOid, Constructed, DecodeError, Oid, Unsigned};

/// A NULL (X.690 8.8).
///
/// The errors of this reader and of those below are those of a header; then `Unexpected` for another tag or form; then
/// `Truncated`; then `Content` for contents that aren't those of such a value.
#[inline(always)]
#[tactic(auto, using(crate::proofs::LeafLaws::leaf_law, crate::proofs::DecisionLaws::null_decides, crate::proofs::LeafLaws::leaf_moves))]
pub fn take_null(cons: &mut Constructed<'_>) -> Result<(), DecodeError>
    ensures reads { parsed (λ _. tt) result (left cons.new) ≡ leaf_at null null_in (left cons.old) }
    ensures moves { Moves (left cons.old) (left cons.new) result }
{
    let _ = bytes_left(cons);
    cons.take_null()
}

/// A BOOLEAN (X.690 8.2, 11.1): one octet, FF for true and 00 for false.
#[inline(always)]
#[tactic(auto, using(crate::proofs::LeafLaws::leaf_law, crate::proofs::DecisionLaws::boolean_decides, crate::proofs::LeafLaws::leaf_moves))]
pub fn take_bool(cons: &mut Constructed<'_>) -> Result<bool, DecodeError>
    ensures reads { parsed (λ b. b) result (left cons.new) ≡ leaf_at boolean boolean_in (left cons.old) }
    ensures moves { Moves (left cons.old) (left cons.new) result }
{
    let _ = bytes_left(cons);
    cons.take_bool()
}

/// An INTEGER (X.690 8.3) from 0 to 255.
#[inline(always)]
#[tactic(auto, using(crate::proofs::ReaderLaws::below_law, crate::proofs::LeafLaws::leaf_moves))]
pub fn take_u8(cons: &mut Constructed<'_>) -> Result<u8, DecodeError>
    ensures reads { parsed (λ n. n) result (left cons.new) ≡ leaf_at integer (below_in (2 ^ 8)) (left cons.old) }
    ensures moves { Moves (left cons.old) (left cons.new) result }
{
    let _ = bytes_left(cons);
    cons.take_u8()
}

/// An INTEGER (X.690 8.3) from 0 to 2^32 - 1.
#[inline(always)]
#[tactic(auto, using(crate::proofs::ReaderLaws::below_law, crate::proofs::LeafLaws::leaf_moves))]
pub fn take_u32(cons: &mut Constructed<'_>) -> Result<u32, DecodeError>
    ensures reads { parsed (λ n. n) result (left cons.new) ≡ leaf_at integer (below_in (2 ^ 32)) (left cons.old) }
    ensures moves { Moves (left cons.old) (left cons.new) result }
{
    let _ = bytes_left(cons);
    cons.take_u32()
}

/// An INTEGER (X.690 8.3) from 0 to 2^64 - 1.
#[inline(always)]
#[tactic(auto, using(crate::proofs::ReaderLaws::below_law, crate::proofs::LeafLaws::leaf_moves))]
pub fn take_u64(cons: &mut Constructed<'_>) -> Result<u64, DecodeError>
    ensures reads { parsed (λ n. n) result (left cons.new) ≡ leaf_at integer (below_in (2 ^ 64)) (left cons.old) }
    ensures moves { Moves (left cons.old) (left cons.new) result }
{
    let _ = bytes_left(cons);
    cons.take_u64()
}

/// An INTEGER (X.690 8.3) that isn't negative, of any size.
#[inline(always)]
#[tactic(auto, using(crate::proofs::LeafLaws::leaf_law, crate::proofs::DecisionLaws::unsigned_decides, crate::proofs::LeafLaws::leaf_moves))]
pub fn take_unsigned<'a>(cons: &mut Constructed<'a>) -> Result<Unsigned<'a>, DecodeError>
    ensures reads { parsed number_of result (left cons.new) ≡ leaf_at integer unsigned_in (left cons.old) }
    ensures moves { Moves (left cons.old) (left cons.new) result }
{
    let _ = bytes_left(cons);
    cons.take_unsigned()
}

/// Moves past the INTEGER (X.690 8.3) of exactly this number.
#[inline(always)]
#[tactic(auto, using(crate::proofs::ReaderLaws::number_law, crate::proofs::LeafLaws::leaf_moves))]
pub fn skip_u8_if(cons: &mut Constructed<'_>, expected: u8) -> Result<(), DecodeError>
    ensures reads { parsed (λ _. tt) result (left cons.new) ≡ leaf_at integer (number_in expected) (left cons.old) }
    ensures moves { Moves (left cons.old) (left cons.new) result }
{
    let _ = bytes_left(cons);
    cons.skip_u8_if(expected)
}

/// An OBJECT IDENTIFIER (X.690 8.19).
#[inline(always)]
#[tactic(auto, using(crate::proofs::LeafLaws::leaf_law, crate::proofs::DecisionLaws::oid_decides, crate::proofs::LeafLaws::leaf_moves))]
pub fn take_oid<'a>(cons: &mut Constructed<'a>) -> Result<Oid<&'a [u8]>, DecodeError>
    ensures reads { parsed (λ o. o.0.now) result (left cons.new) ≡ leaf_at oid oid_in (left cons.old) }
    ensures moves { Moves (left cons.old) (left cons.new) result }
{
    let _ = bytes_left(cons);
    cons.take_oid()
}

/// Moves past exactly this OBJECT IDENTIFIER (X.690 8.19).
#[inline(always)]
#[tactic(auto, using(crate::proofs::ReaderLaws::only_law, crate::proofs::LeafLaws::leaf_moves))]
pub fn skip_oid_if(cons: &mut Constructed<'_>, expected: ConstOid) -> Result<(), DecodeError>
    ensures reads { parsed (λ _. tt) result (left cons.new)
        ≡ leaf_at oid (only_in expected.entry.0.now) (left cons.old) }
    ensures moves { Moves (left cons.old) (left cons.new) result }
{
    let _ = bytes_left(cons);
    cons.skip_oid_if(expected)
}

/// A BIT STRING (X.690 8.6, 11.2) in primitive form.
#[inline(always)]
#[tactic(auto, using(crate::proofs::LeafLaws::leaf_law, crate::proofs::DecisionLaws::bits_decides, crate::proofs::LeafLaws::leaf_moves))]
pub fn take_bits<'a>(cons: &mut Constructed<'a>) -> Result<BitSlice<'a>, DecodeError>
    ensures reads { parsed (λ b. b) result (left cons.new) ≡ leaf_at bit_string bits_in (left cons.old) }
    ensures moves { Moves (left cons.old) (left cons.new) result }
{
    let _ = bytes_left(cons);
    cons.take_bits()
}

/// The octets of an OCTET STRING (X.690 8.7) in primitive form, of any size.
#[inline(always)]
#[tactic(auto, using(crate::proofs::ValueLaws::value_law, crate::proofs::ValueLaws::contents_moves))]
pub fn take_octets<'a>(cons: &mut Constructed<'a>) -> Result<&'a [u8], DecodeError>
    ensures reads { parsed (λ x. x.now) result (left cons.new) ≡ value_at octet_string false (left cons.old) }
    ensures moves { Moves (left cons.old) (left cons.new) result }
{
    let _ = bytes_left(cons);
    cons.take_octets()
}

/// The octets of an OCTET STRING (X.690 8.7) of exactly `N` octets, as a digest or a key identifier.
#[inline(always)]
#[tactic(auto, using(crate::proofs::ReaderLaws::sized_law, crate::proofs::LeafLaws::leaf_moves))]
pub fn take_octet_array<const N: usize>(cons: &mut Constructed<'_>) -> Result<[u8; N], DecodeError>
    ensures reads { parsed (λ a. a) result (left cons.new) ≡ leaf_at octet_string (sized_in N) (left cons.old) }
    ensures moves { Moves (left cons.old) (left cons.new) result }
{
    let _ = bytes_left(cons);
    cons.take_octet_array::<N>()
}
