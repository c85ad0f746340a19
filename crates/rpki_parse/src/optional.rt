//! Parts that may be left out, and a choice by the tag in front.

ghost use Rattle.std.specs.Prelude.{◌≡◌, false, IfErr};
ghost use Rattle.rpki_der.specs.Cursor.{left};
ghost use Rattle.rpki_der.specs.TagName.{boolean, null, printable_string, utf8_string};
ghost use Rattle.rpki_parse.specs.Words.{parsed};
ghost use Rattle.rpki_parse.specs.Leaf.{leaf_at, null_in, printable_in, utf8_in};
ghost use Rattle.rpki_parse.specs.Optional.{choice_at, default_at, optional_at, true_at};

use crate::leaf::{take_bool, take_null};
use crate::text::{take_printable, take_utf8};
use crate::value::has_tag;
use rpki_der::{Constructed, DecodeError, Tag};

/// A NULL OPTIONAL: None where the rest doesn't begin with the identifier octets of a NULL, in either form.
pub fn take_opt_null(cons: &mut Constructed<'_>) -> Result<Option<()>, DecodeError>
    ensures reads { parsed (λ x. x) result (left cons.new) ≡ optional_at null (leaf_at null null_in) (left cons.old) }
    ensures unchanged { IfErr result (λ _. left cons.new ≡ left cons.old) }
{
    if !has_tag(cons, Tag::NULL) {
        return Ok(None);
    }
    take_null(cons)?;
    Ok(Some(()))
}

/// A BOOLEAN DEFAULT FALSE (X.690 11.5: the default value is never written): false where the rest doesn't begin
/// with the identifier octets of a BOOLEAN, in either form.
///
/// The errors are those of [take_bool]; `Content` also for a FALSE that is written.
pub fn take_bool_default_false(cons: &mut Constructed<'_>) -> Result<bool, DecodeError>
    ensures reads { parsed (λ b. b) result (left cons.new) ≡ default_at boolean false true_at (left cons.old) }
    ensures unchanged { IfErr result (λ _. left cons.new ≡ left cons.old) }
{
    if !has_tag(cons, Tag::BOOLEAN) {
        return Ok(false);
    }
    let mut after = *cons;
    let value = take_bool(&mut after)?;
    if !value {
        return Err(DecodeError::content("default value written"));
    }
    *cons = after;
    Ok(true)
}

/// A DirectoryString (RFC 5280 4.1.2.4) in one of the two types that are still written: PrintableString or UTF8String.
pub fn take_directory_string<'a>(cons: &mut Constructed<'a>) -> Result<&'a str, DecodeError>
    ensures reads { parsed (λ s. s.now) result (left cons.new)
        ≡ choice_at printable_string (leaf_at printable_string printable_in) (leaf_at utf8_string utf8_in)
        (left cons.old) }
    ensures unchanged { IfErr result (λ _. left cons.new ≡ left cons.old) }
{
    if has_tag(cons, Tag::PRINTABLE_STRING) {
        let text = take_printable(cons)?;
        return Ok(text.as_str());
    }
    let text = take_utf8(cons)?;
    Ok(text.as_str())
}
