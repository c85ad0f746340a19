//! Leaves as cursors on their contents, over octets and over captured values alike.

ghost use Rattle.std.specs.Prelude.{false};
ghost use Rattle.rpki_der.specs.TagName.{oid, printable_string, utf8_string, ia5_string};
ghost use Rattle.rpki_der.specs.Leaves.{IsOidOf};
ghost use Rattle.rpki_der.specs.Text.{IsPrintableText, IsUtf8Text, IsIa5Text};
ghost use Rattle.rpki_der.specs.Values.{ReadsLeaf};

use crate::cursor::Cursor;
use crate::error::DecodeError;
use crate::oid::is_oid;
use crate::tag::Tag;
use crate::text::{ia5_of, is_printable_string, utf8_of};

/// The contents of an object identifier (X.690 8.19), with the errors of
/// [Constructed::take_oid](crate::Constructed::take_oid).
pub fn take_oid_contents<C: Cursor>(cursor: &mut C) -> Result<C, DecodeError>
    ensures { ReadsLeaf C.octets_left oid IsOidOf (C.octets_left cursor.old) (C.octets_left cursor.new) result }
{
    let mut after = *cursor;
    let contents = after.take_value_contents(Tag::OID, false)?;
    if !is_oid(contents.octets()) {
        return Err(DecodeError::content("malformed object identifier"));
    }
    *cursor = after;
    Ok(contents)
}

/// The contents of a PrintableString (X.690 8.23), with the errors of
/// [Constructed::take_printable](crate::Constructed::take_printable).
pub fn take_printable_contents<C: Cursor>(cursor: &mut C) -> Result<C, DecodeError>
    ensures { ReadsLeaf C.octets_left printable_string IsPrintableText (C.octets_left cursor.old)
        (C.octets_left cursor.new) result }
{
    let mut after = *cursor;
    let contents = after.take_value_contents(Tag::PRINTABLE_STRING, false)?;
    if !is_printable_string(contents.octets()) {
        return Err(DecodeError::content("malformed PrintableString"));
    }
    *cursor = after;
    Ok(contents)
}

/// The contents of a UTF8String (X.690 8.23), with the errors of
/// [Constructed::take_utf8](crate::Constructed::take_utf8).
pub fn take_utf8_contents<C: Cursor>(cursor: &mut C) -> Result<C, DecodeError>
    ensures { ReadsLeaf C.octets_left utf8_string IsUtf8Text (C.octets_left cursor.old)
        (C.octets_left cursor.new) result }
{
    let mut after = *cursor;
    let contents = after.take_value_contents(Tag::UTF8_STRING, false)?;
    match utf8_of(contents.octets()) {
        Some(_) => {
            *cursor = after;
            Ok(contents)
        }
        None => Err(DecodeError::content("malformed UTF8String")),
    }
}

/// The contents of an IA5String (X.690 8.23), with the errors of [Constructed::take_ia5](crate::Constructed::take_ia5).
pub fn take_ia5_contents<C: Cursor>(cursor: &mut C) -> Result<C, DecodeError>
    ensures { ReadsLeaf C.octets_left ia5_string IsIa5Text (C.octets_left cursor.old)
        (C.octets_left cursor.new) result }
{
    let mut after = *cursor;
    let contents = after.take_value_contents(Tag::IA5_STRING, false)?;
    match ia5_of(contents.octets()) {
        Some(_) => {
            *cursor = after;
            Ok(contents)
        }
        None => Err(DecodeError::content("malformed IA5String")),
    }
}
