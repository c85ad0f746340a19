//! General names, read in place without memory (RFC 5280 4.2.1.6).

ghost use Rattle.std.specs.Prelude.{◌≡◌, ◌↔◌, IsTrue, true, false};
ghost use Rattle.std.specs.Option.{option_copied};
ghost use Rattle.rpki_der.specs.Cursor.{left};
ghost use Rattle.rpki_der.specs.Reading.{Reads};
ghost use Rattle.rpki_der.specs.ContentView.{is_constructed, octets_of};
ghost use Rattle.rpki.specs.Name.{IsName};
ghost use Rattle.rpki_cert.specs.GeneralName.{SpellsText, IsTextFault, IsPlainName, IsBuiltName, IsOtherName};
ghost use Rattle.rpki_cert.specs.GeneralName.{SpellsName, IsNameFault};

use rpki::der::{Class, Constructed, Content, DecodeError, Oid, Tag};
use rpki::repository::x509::NameView;
use rpki_x509::are_values;

/// Whether these are contents of a primitive name of this tag that is no URI: an IA5String under the tags 1 and 2, an
/// address under 7, an object identifier under 8.
fn is_plain_name(number: u32, contents: &[u8]) -> bool
    ensures { IsTrue result ↔ IsPlainName number contents.now }
{
    match number {
        1 | 2 => contents.is_ascii(),
        7 => contents.len() == 4 || contents.len() == 16,
        8 => Oid(contents).is_valid(),
        _ => false,
    }
}

/// Whether the rest is a name of the directory.
fn is_directory_name(contents: Constructed<'_>) -> bool
    ensures { IsTrue result ↔ IsName (left contents.entry) }
{
    let mut rest = contents;
    match NameView::take_from(&mut rest) {
        Ok(_) => rest.is_empty(),
        Err(_) => false,
    }
}

/// Whether these are contents of a constructed name of this tag: a name of the directory under the tag 4, values under
/// 0, 3 and 5.
fn is_built_name(number: u32, contents: Constructed<'_>) -> bool
    ensures { IsTrue result ↔ IsBuiltName number (left contents.entry) }
{
    match number {
        0 | 3 | 5 => are_values(contents),
        4 => is_directory_name(contents),
        _ => false,
    }
}

/// Whether a value of this tag and contents is a general name that is no URI.
fn is_other_name(tag: Tag, content: Content<'_>) -> bool
    ensures { IsTrue result ↔ IsOtherName (tag, is_constructed content.entry, octets_of content.entry) }
{
    if tag.class() != Class::Context {
        return false;
    }
    match content {
        Content::Primitive(contents) => is_plain_name(tag.number(), contents),
        Content::Constructed(contents) => is_built_name(tag.number(), contents),
    }
}

/// The text of a general name that is a URI: an IA5String.
///
/// The errors are those of a header; then `Unexpected` for another tag or form; then `Truncated`; then `Content` for
/// octets that are not ASCII.
pub fn take_text<'a>(cons: &mut Constructed<'a>) -> Result<&'a [u8], DecodeError>
    ensures { Reads (λ t. t.now) SpellsText IsTextFault (left cons.old) (left cons.new) result }
{
    let mut after = *cons;
    let text = after.take_primitive_if(Tag::CTX_6)?;
    if !text.is_ascii() {
        return Err(DecodeError::content("malformed IA5String"));
    }
    *cons = after;
    Ok(text)
}

/// The text of a general name, if that is a URI; `None` for a name of another form.
///
/// The errors are those of [take_text] under the tag 6; else those of a header, `Truncated`, and `Content` with the
/// text `malformed general name`.
pub fn take_name<'a>(cons: &mut Constructed<'a>) -> Result<Option<&'a [u8]>, DecodeError>
    ensures { Reads option_copied SpellsName IsNameFault (left cons.old) (left cons.new) result }
{
    if cons.has_tag(Tag::CTX_6) {
        return match take_text(cons) {
            Ok(text) => Ok(Some(text)),
            Err(e) => Err(e),
        };
    }
    let mut after = *cons;
    match after.take_value() {
        Ok(value) => {
            if !is_other_name(value.0, value.1) {
                return Err(DecodeError::content("malformed general name"));
            }
            *cons = after;
            Ok(None)
        }
        Err(e) => Err(e),
    }
}
