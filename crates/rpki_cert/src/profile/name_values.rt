//! What profiles ask of the values of names, beside what strict names are (RFC 5280 A.1, RFC 8209 3.1.1).

ghost use Rattle.std.specs.Prelude.{◌≡◌, ◌↔◌, IsTrue};
ghost use Rattle.std.specs.List.{count_by};
ghost use Rattle.rpki.specs.Name.{attribute_of};
ghost use Rattle.rpki_cert.specs.NameValues.{IsNameSize, begins_character, IsPrintable, IsSizedPrintable, IsSizedUtf8};
ghost use Rattle.rpki_cert.specs.NameValues.{Permits, PermitsName};

use rpki::der::{Constructed, Oid, take_printable_contents, take_utf8_contents};
use rpki::oid;
use rpki::repository::x509::NameView;

/// What is asked of each attribute of a name.
#[derive(Clone, Copy)]
pub enum ValueRule {
    /// Its value is a string of 1 to 64 characters (RFC 5280 A.1).
    Size,
    /// A serial number is a PrintableString (RFC 8209 3.1.1).
    SerialNumber,
}

/// Whether a value may have as many characters (RFC 5280 A.1).
fn is_name_size(characters: usize) -> bool
    ensures { IsTrue result ↔ IsNameSize characters }
{
    1 <= characters && characters <= 64
}

/// How many characters the octets of a text in UTF-8 are.
fn characters(text: &[u8]) -> usize
    ensures { result ≡ count_by begins_character text.now }
{
    text.iter()
        .filter(|octet| **octet < 0x80 || **octet >= 0xc0)
        .count()
}

/// Whether the octets are a PrintableString.
fn is_printable(value: &[u8]) -> bool
    ensures { IsTrue result ↔ IsPrintable value.now }
{
    let mut after = Constructed::from_slice(value);
    match take_printable_contents(&mut after) {
        Ok(_) => after.is_empty(),
        Err(_) => false,
    }
}

/// Whether they are a PrintableString of 1 to 64 characters.
fn is_sized_printable(value: &[u8]) -> bool
    ensures { IsTrue result ↔ IsSizedPrintable value.now }
{
    let mut after = Constructed::from_slice(value);
    match take_printable_contents(&mut after) {
        Ok(text) => is_name_size(text.rest().len()) && after.is_empty(),
        Err(_) => false,
    }
}

/// Whether they are a UTF8String of 1 to 64 characters.
fn is_sized_utf8(value: &[u8]) -> bool
    ensures { IsTrue result ↔ IsSizedUtf8 value.now }
{
    let mut after = Constructed::from_slice(value);
    match take_utf8_contents(&mut after) {
        Ok(text) => is_name_size(characters(text.rest())) && after.is_empty(),
        Err(_) => false,
    }
}

impl ValueRule {
    /// Whether an attribute of this type and with this value obeys the rule.
    fn permits(self, identifier: Oid<&[u8]>, value: &[u8]) -> bool
        ensures { IsTrue result ↔ Permits self (attribute_of identifier.entry.0.now value.now) }
    {
        match self {
            ValueRule::Size => is_sized_printable(value) || is_sized_utf8(value),
            ValueRule::SerialNumber => identifier != oid::AT_SERIAL_NUMBER || is_printable(value),
        }
    }

    /// Whether each attribute of the name obeys the rule. Allocates nothing.
    pub(crate) fn permits_name(self, name: &NameView<'_>) -> bool
        ensures { IsTrue result ↔ PermitsName self name.now }
    {
        let mut rest = name.attributes();
        'attributes: while let Some(attribute) = rest.next_attribute() {
            if !self.permits(attribute.identifier, attribute.value) {
                return false;
            }
        }
        true
    }
}
