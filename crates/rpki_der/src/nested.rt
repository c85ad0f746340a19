//! One value, read with everything nested in it, and without memory.
//!
//! Headers are visited from the left, each once, and nothing is kept of the values that are open: at the header of a
//! constructed value its contents are tiled first, which are values in sequence by their headers alone. So each
//! header is read twice at most; that of a primitive value which isn't nested, once. Where the tiles end early there is
//! a fault: the headers before it are visited all the same, and none after it, so that the last fault that is found is
//! the leftmost.

ghost use Rattle.std.specs.Prelude.{IfOk, IfErr, IfSome, IfNone};
ghost use Rattle.rpki_der.specs.Cursor.{left};
ghost use Rattle.rpki_der.specs.Reading.{ReadsWhere};
ghost use Rattle.rpki_der.specs.Members.{IsValueList};
ghost use Rattle.rpki_der.specs.NestedFault.{IsNestedFault};
ghost use Rattle.rpki_der.specs.Walk.{IsNotEmpty, SpellsAnyValue};
ghost use Rattle.rpki_der.specs.Headed.{AreHeaded, StopsBefore, HasNestedFault};

use crate::cursor::Constructed;
use crate::error::DecodeError;
use crate::value::Content;

/// Whether the rest is values, in sequence, by their headers alone. Else how many octets remain where the
/// first is that isn't one, and its error.
fn tile(contents: Constructed<'_>) -> Result<(), (usize, DecodeError)>
    ensures ok { IfOk result (λ _. AreHeaded (left contents.entry)) }
    ensures err { IfErr result (λ x. StopsBefore (left contents.entry) x.0 x.1) }
{
    let mut rest = contents;
    'values: while !rest.is_empty() {
        match rest.take_value() {
            Ok(_) => {}
            Err(e) => return Err((rest.len(), e)),
        }
    }
    Ok(())
}

/// The leftmost error in these values, which follow one another by their headers, and in what is nested in them.
fn nested_fault(values: Constructed<'_>) -> Option<DecodeError>
    requires { AreHeaded (left values) }
    ensures some { IfSome result (λ e. HasNestedFault (left values.entry) e) }
    ensures none { IfNone result (IsValueList (left values.entry)) }
{
    let mut rest = values;
    let mut fault = None;
    'headers: while !rest.is_empty() {
        let mut after = rest;
        match after.take_value() {
            Ok((_, Content::Primitive(_))) => rest = after,
            Ok((_, Content::Constructed(contents))) => match tile(contents) {
                Ok(()) => {
                    let (_, inside) = rest.split_at(rest.len() - (contents.len() + after.len()));
                    rest = inside;
                }
                Err((size, e)) => {
                    let (tiles, _) = contents.split_at(contents.len() - size);
                    rest = tiles;
                    fault = Some(e);
                }
            },
            Err(e) => return Some(e),
        }
    }
    fault
}

impl<'a> Constructed<'a> {
    /// Moves past one value with everything nested in it, or returns None if nothing remains: as
    /// [Constructed::skip_one], with the same errors, but that it allocates nothing.
    pub fn skip_nested(&mut self) -> Result<Option<()>, DecodeError>
        ensures { ReadsWhere IsNotEmpty (λ _. tt) SpellsAnyValue IsNestedFault (left self.old) (left self.new) result }
    {
        if self.is_empty() {
            return Ok(None);
        }
        let mut after = *self;
        match after.take_value() {
            Ok((_, Content::Primitive(_))) => {
                *self = after;
                return Ok(Some(()));
            }
            Ok((_, Content::Constructed(_))) => {}
            Err(e) => return Err(e),
        }
        let (value, following) = self.split_at(self.len() - after.len());
        match nested_fault(value) {
            None => {
                *self = following;
                Ok(Some(()))
            }
            Some(e) => Err(e),
        }
    }
}
