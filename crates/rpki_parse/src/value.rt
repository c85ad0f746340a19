//! Values by their tag, whatever they contain.

ghost use Rattle.std.specs.Prelude.{◌≡◌, true};
ghost use Rattle.rpki_der.specs.Cursor.{left};
ghost use Rattle.rpki_der.specs.TagName.{sequence, set};
ghost use Rattle.rpki_parse.specs.Words.{Moves, kinds, parsed};
ghost use Rattle.rpki_parse.specs.Value.{ended, tagged, value_at};

use crate::octets::bytes_left;
use rpki_der::{Constructed, DecodeError, Tag};

/// A cursor on the contents of a constructed value of this tag, as of an explicit context tag (X.690 8.14). They are
/// not validated.
///
/// The errors are those of a header; then `Unexpected` for another tag or form; then `Truncated`.
#[inline(always)]
#[tactic(auto, using(crate::proofs::ValueLaws::value_law, crate::proofs::ValueLaws::contents_moves))]
pub fn take_constructed_if<'a>(
    cons: &mut Constructed<'a>,
    tag: Tag,
) -> Result<Constructed<'a>, DecodeError>
    ensures reads { parsed left result (left cons.new) ≡ value_at tag true (left cons.old) }
    ensures moves { Moves (left cons.old) (left cons.new) result }
{
    let _ = bytes_left(cons);
    cons.take_constructed_if(tag)
}

/// A cursor on the contents of a SEQUENCE (X.690 8.9), with the errors of [take_constructed_if].
#[inline(always)]
#[tactic(auto, using(crate::proofs::ValueLaws::value_law, crate::proofs::ValueLaws::contents_moves))]
pub fn take_sequence<'a>(cons: &mut Constructed<'a>) -> Result<Constructed<'a>, DecodeError>
    ensures reads { parsed left result (left cons.new) ≡ value_at sequence true (left cons.old) }
    ensures moves { Moves (left cons.old) (left cons.new) result }
{
    let _ = bytes_left(cons);
    cons.take_sequence()
}

/// A cursor on the contents of a SET (X.690 8.11), with the errors of [take_constructed_if].
#[inline(always)]
#[tactic(auto, using(crate::proofs::ValueLaws::value_law, crate::proofs::ValueLaws::contents_moves))]
pub fn take_set<'a>(cons: &mut Constructed<'a>) -> Result<Constructed<'a>, DecodeError>
    ensures reads { parsed left result (left cons.new) ≡ value_at set true (left cons.old) }
    ensures moves { Moves (left cons.old) (left cons.new) result }
{
    let _ = bytes_left(cons);
    cons.take_set()
}

/// Whether the rest begins with the identifier octets of this tag, in either form.
#[inline(always)]
pub fn has_tag(cons: &Constructed<'_>, tag: Tag) -> bool
    ensures { result ≡ tagged tag (left cons.now) }
{
    let _ = bytes_left(cons);
    cons.has_tag(tag)
}

/// Returns Ok if nothing remains, else `Trailing`: the last step of a reader of whole octets, or of whole contents.
#[inline(always)]
#[tactic(auto, using(crate::proofs::ValueLaws::end_law))]
pub fn finish(cons: Constructed<'_>) -> Result<(), DecodeError>
    ensures { kinds result ≡ ended (left cons.entry) }
{
    cons.finish()
}
