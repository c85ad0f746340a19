//! Character strings (X.680 41).

ghost use Rattle.std.specs.Prelude.{false, ◌≡◌, ◌↔◌, IsTrue, IfSome, IfNone, List, ℕ};
ghost use Rattle.rpki_der.specs.Text.{is_printable, are_printable, IsPrintableText, IsUtf8Text, IsIa5Text};

use crate::cursor::Constructed;
use crate::error::DecodeError;
use crate::tag::Tag;
use std::marker::Model;

/// A string of the characters of a PrintableString: A to Z, a to z, 0 to 9, space and `'()+,-./:=?` (X.680 41.4).
#[derive(Debug, Drop)]
pub struct PrintableString<'a> {
    text: &'a str,
}

impl<'a> Model for PrintableString<'a> {
    ghost use Rattle.std.specs.Prelude.{ℕ, List, IsTrue};
    ghost use Rattle.rpki_der.specs.Text.{are_printable};

    ghost Value = { List ℕ };

    ghost view = { λ p. p.text.now };

    ghost invariant = { λ p. IsTrue (are_printable p.text.now) };
}

impl<'a> PrintableString<'a> {
    /// The string.
    pub fn as_str(&self) -> &'a str
        ensures text { result.now ≡ self.now }
        ensures printable { IsTrue (are_printable self.now) }
    {
        self.text
    }
}

/// A string of any characters.
#[derive(Debug, Drop)]
pub struct Utf8String<'a> {
    text: &'a str,
}

impl<'a> Model for Utf8String<'a> {
    ghost use Rattle.std.specs.Prelude.{ℕ, List};

    ghost Value = { List ℕ };

    ghost view = { λ u. u.text.now };
}

impl<'a> Utf8String<'a> {
    /// The string.
    pub fn as_str(&self) -> &'a str
        ensures { result.now ≡ self.now }
    {
        self.text
    }
}

/// A string of the characters of an IA5String: those of ASCII, whose octets are below 128 (X.680 41.1, table 8).
#[derive(Debug, Drop)]
pub struct Ia5String<'a> {
    text: &'a str,
}

impl<'a> Model for Ia5String<'a> {
    ghost use Rattle.std.specs.Prelude.{ℕ, List};
    ghost use Rattle.std.specs.Str.{IsAscii};

    ghost Value = { List ℕ };

    ghost view = { λ s. s.text.now };

    ghost invariant = { λ s. IsAscii s.text.now };
}

impl<'a> Ia5String<'a> {
    ghost use Rattle.std.specs.Str.{IsAscii};

    /// The string.
    pub fn as_str(&self) -> &'a str
        ensures text { result.now ≡ self.now }
        ensures ascii { IsAscii self.now }
    {
        self.text
    }
}

/// The characters of a PrintableString (X.680 41.4), each a bit, counted from the lowest.
const PRINTABLE: u128 = 0x07fffffe_07fffffe_a7fffb81_00000000;

/// Whether the octet is a character of a PrintableString.
fn is_printable(octet: u8) -> bool
    ensures { result ≡ is_printable octet }
{
    octet < 128 && (PRINTABLE >> u32::from(octet)) & 1 == 1
}

/// Whether all of them are such characters.
fn are_printable(contents: &[u8]) -> bool
    ensures { result ≡ are_printable contents.now }
{
    contents.iter().all(|octet| is_printable(*octet))
}

/// Whether these are the contents of a PrintableString.
pub(crate) fn is_printable_string(contents: &[u8]) -> bool
    ensures { IsTrue result ↔ IsPrintableText contents.now contents.now }
{
    are_printable(contents)
}

/// The string with these contents, if each of them is a character of a PrintableString.
pub(crate) fn printable_of(contents: &[u8]) -> Option<PrintableString<'_>>
    ensures value { IfSome result (λ p. IsPrintableText p contents.now) }
    ensures none { IfNone result ((text : List ℕ) → IsPrintableText text contents.now → ⊥) }
{
    if !are_printable(contents) {
        return None;
    }
    match str::from_utf8(contents) {
        Ok(text) => Some(PrintableString { text }),
        Err(_) => None,
    }
}

/// The string with these contents, if they are UTF-8.
pub(crate) fn utf8_of(contents: &[u8]) -> Option<Utf8String<'_>>
    ensures value { IfSome result (λ u. IsUtf8Text u contents.now) }
    ensures none { IfNone result ((text : List ℕ) → IsUtf8Text text contents.now → ⊥) }
{
    match str::from_utf8(contents) {
        Ok(text) => Some(Utf8String { text }),
        Err(_) => None,
    }
}

/// The string with these contents, if each of them is below 128.
pub(crate) fn ia5_of(contents: &[u8]) -> Option<Ia5String<'_>>
    ensures value { IfSome result (λ s. IsIa5Text s contents.now) }
    ensures none { IfNone result ((text : List ℕ) → IsIa5Text text contents.now → ⊥) }
{
    if !contents.is_ascii() {
        return None;
    }
    match str::from_utf8(contents) {
        Ok(text) => Some(Ia5String { text }),
        Err(_) => None,
    }
}

impl<'a> Constructed<'a> {
    ghost use Rattle.rpki_der.specs.Cursor.{left};
    ghost use Rattle.rpki_der.specs.TagName.{printable_string, utf8_string, ia5_string};
    ghost use Rattle.rpki_der.specs.Values.{ReadsLeaf};

    /// A PrintableString (X.690 8.23, X.680 41.4).
    ///
    /// The errors are those of a header; then `Unexpected` for another tag or form; then `Truncated`; then `Content`
    /// for another character.
    pub fn take_printable(&mut self) -> Result<PrintableString<'a>, DecodeError>
        ensures { ReadsLeaf (λ p. p) printable_string IsPrintableText (left self.old) (left self.new) result }
    {
        let mut after = *self;
        let contents = after.take_contents(Tag::PRINTABLE_STRING, false)?;
        match printable_of(contents.rest()) {
            Some(text) => {
                *self = after;
                Ok(text)
            }
            None => Err(DecodeError::content("malformed PrintableString")),
        }
    }

    /// A UTF8String (X.690 8.23).
    ///
    /// The errors are those of a header; then `Unexpected` for another tag or form; then `Truncated`; then `Content`
    /// for contents that are not UTF-8.
    pub fn take_utf8(&mut self) -> Result<Utf8String<'a>, DecodeError>
        ensures { ReadsLeaf (λ u. u) utf8_string IsUtf8Text (left self.old) (left self.new) result }
    {
        let mut after = *self;
        let contents = after.take_contents(Tag::UTF8_STRING, false)?;
        match utf8_of(contents.rest()) {
            Some(text) => {
                *self = after;
                Ok(text)
            }
            None => Err(DecodeError::content("malformed UTF8String")),
        }
    }

    /// An IA5String (X.690 8.23, X.680 41.1).
    ///
    /// The errors are those of a header; then `Unexpected` for another tag or form; then `Truncated`; then `Content`
    /// for an octet of 128 or more.
    pub fn take_ia5(&mut self) -> Result<Ia5String<'a>, DecodeError>
        ensures { ReadsLeaf (λ s. s) ia5_string IsIa5Text (left self.old) (left self.new) result }
    {
        let mut after = *self;
        let contents = after.take_contents(Tag::IA5_STRING, false)?;
        match ia5_of(contents.rest()) {
            Some(text) => {
                *self = after;
                Ok(text)
            }
            None => Err(DecodeError::content("malformed IA5String")),
        }
    }
}
