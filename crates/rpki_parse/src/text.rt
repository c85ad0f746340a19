//! Character strings (X.680 41).

ghost use Rattle.std.specs.Prelude.{◌≡◌};
ghost use Rattle.rpki_der.specs.Cursor.{left};
ghost use Rattle.rpki_der.specs.TagName.{ia5_string, printable_string, utf8_string};
ghost use Rattle.rpki_parse.specs.Words.{Moves, parsed};
ghost use Rattle.rpki_parse.specs.Leaf.{ia5_in, leaf_at, printable_in, utf8_in};

use crate::octets::bytes_left;
use rpki_der::{Constructed, DecodeError, Ia5String, PrintableString, Utf8String};

/// A PrintableString (X.690 8.23).
///
/// The errors of this reader and of those below are those of a header; then `Unexpected` for another tag or form; then
/// `Truncated`; then `Content` for other characters.
#[inline(always)]
#[tactic(auto, using(crate::proofs::LeafLaws::leaf_law, crate::proofs::DecisionLaws::printable_decides, crate::proofs::LeafLaws::leaf_moves))]
pub fn take_printable<'a>(cons: &mut Constructed<'a>) -> Result<PrintableString<'a>, DecodeError>
    ensures reads { parsed (λ p. p) result (left cons.new) ≡ leaf_at printable_string printable_in (left cons.old) }
    ensures moves { Moves (left cons.old) (left cons.new) result }
{
    let _ = bytes_left(cons);
    cons.take_printable()
}

/// A UTF8String (X.690 8.23.10).
#[inline(always)]
#[tactic(auto, using(crate::proofs::LeafLaws::leaf_law, crate::proofs::DecisionLaws::utf8_decides, crate::proofs::LeafLaws::leaf_moves))]
pub fn take_utf8<'a>(cons: &mut Constructed<'a>) -> Result<Utf8String<'a>, DecodeError>
    ensures reads { parsed (λ u. u) result (left cons.new) ≡ leaf_at utf8_string utf8_in (left cons.old) }
    ensures moves { Moves (left cons.old) (left cons.new) result }
{
    let _ = bytes_left(cons);
    cons.take_utf8()
}

/// An IA5String (X.690 8.23): octets below 128.
#[inline(always)]
#[tactic(auto, using(crate::proofs::LeafLaws::leaf_law, crate::proofs::DecisionLaws::ia5_decides, crate::proofs::LeafLaws::leaf_moves))]
pub fn take_ia5<'a>(cons: &mut Constructed<'a>) -> Result<Ia5String<'a>, DecodeError>
    ensures reads { parsed (λ s. s) result (left cons.new) ≡ leaf_at ia5_string ia5_in (left cons.old) }
    ensures moves { Moves (left cons.old) (left cons.new) result }
{
    let _ = bytes_left(cons);
    cons.take_ia5()
}
