//! Parts of one value.

ghost use Rattle.std.specs.Prelude.{◌≡◌, ◌≢◌, ◌↔◌, IsTrue, true, false, IfErr};
ghost use Rattle.rpki_der.specs.Cursor.{left};
ghost use Rattle.rpki_der.specs.Reading.{Reads};
ghost use Rattle.rpki_der.specs.Values.{SpellsContents, SpellsLeaf, IsLeafFault};
ghost use Rattle.rpki_der.specs.Leaves.{IsOnly};
ghost use Rattle.rpki_x509.specs.InPlace.{GivesAll};
ghost use Rattle.rpki_x509.specs.Frame.{IsFrameFault};

use rpki::der::{Constructed, DecodeError, Tag};

/// Whether these are the same octets.
pub fn are_same(one: &[u8], other: &[u8]) -> bool
    ensures { IsTrue result ↔ (one.now ≡ other.now) }
{
    one == other
}

/// A cursor on the contents, where the whole rest is a constructed value of this tag.
///
/// The errors are those of the value; then `Trailing` if something follows it.
pub fn inside<'a>(octets: Constructed<'a>, tag: Tag) -> Result<Constructed<'a>, DecodeError>
    ensures gives { GivesAll left (SpellsContents tag true) (left octets.entry) result }
    ensures fault { IfErr result (λ e. IsFrameFault tag (left octets.entry) e) }
    ensures kind { IfErr result (λ e. e ≢ DecodeError.OutOfMemory) }
{
    let mut rest = octets;
    let contents = rest.take_constructed_if(tag)?;
    rest.finish()?;
    Ok(contents)
}

/// Moves past a primitive value of this tag with exactly these contents.
///
/// The errors are those of a header; then `Unexpected` for another tag or form; then `Truncated`; then `Content` for
/// other contents.
pub fn skip_primitive(
    cons: &mut Constructed<'_>,
    tag: Tag,
    expected: &[u8],
) -> Result<(), DecodeError>
    ensures { Reads (λ _. tt) (SpellsLeaf tag false (IsOnly expected.now)) (IsLeafFault tag false (IsOnly expected.now))
        (left cons.old) (left cons.new) result }
{
    let mut after = *cons;
    let contents = after.take_primitive_if(tag)?;
    if !are_same(contents, expected) {
        return Err(DecodeError::content("unexpected value"));
    }
    *cons = after;
    Ok(())
}
