//! What a name is inspected for (RFC 6487 4.4, RFC 8209 3.1.1). The inspection reads a name by a cursor: on octets, or
//! on a captured value, whose index has the headers.

ghost use Rattle.std.specs.Prelude.{◌↔◌, IsTrue, List, [], ◌∷◌};
ghost use Rattle.rpki.specs.Name.{Attribute, attribute_of, SpellsAttribute, SpellsSome, SpellsRelative, IsName};
ghost use Rattle.rpki.specs.StrictName.{attributes, IsPrintable, IsUtf8String};
ghost use Rattle.rpki.specs.InspectionView.{IsStringOf, FindsBy, Inspects};

use super::grammar::take_attribute_type;
use super::rule::NameRule;
use super::table::{Found, NOTHING, NameAttribute};
use rpki_der::{Cursor, Oid, Tag, take_printable_contents, take_utf8_contents};

/// Whose names are inspected.
#[derive(Clone, Copy)]
pub(super) enum Profile {
    /// Certificates of the RPKI: PrintableStrings.
    Rpki,
    /// Certificates of routers: PrintableStrings and UTF8Strings.
    Router,
}

/// Whether the rest is a PrintableString.
fn is_printable<C: Cursor>(value: C) -> bool
    ensures { IsTrue result ↔ IsPrintable (C.octets_left value) }
{
    let mut after = value;
    match take_printable_contents(&mut after) {
        Ok(_) => after.is_at_end(),
        Err(_) => false,
    }
}

/// Whether it is a UTF8String.
fn is_utf8<C: Cursor>(value: C) -> bool
    ensures { IsTrue result ↔ IsUtf8String (C.octets_left value) }
{
    let mut after = value;
    match take_utf8_contents(&mut after) {
        Ok(_) => after.is_at_end(),
        Err(_) => false,
    }
}

impl Profile {
    /// Whether the rest is a string that the profile permits.
    fn permits<C: Cursor>(self, value: C) -> bool
        ensures { IsTrue result ↔ IsStringOf self (C.octets_left value) }
    {
        match self {
            Profile::Rpki => is_printable(value),
            Profile::Router => is_printable(value) || is_utf8(value),
        }
    }

    /// What is found once this attribute is there too.
    ///
    /// Returns the rule that is broken if an attribute that is not of the table, a second one of its type, or a string
    /// that is not permitted is found, the first of these.
    fn add<C: Cursor>(
        self,
        found: Found,
        identifier: Oid<&[u8]>,
        value: C,
    ) -> Result<Found, NameRule>
        ensures { FindsBy self found
            (attribute_of identifier.entry.0.now (C.octets_left value) ∷ []) result }
    {
        let Some(number) = NameAttribute::number_of(identifier) else {
            return Err(NameRule::OtherAttribute);
        };
        if found[number] {
            return Err(NameAttribute::of_number(number).second);
        }
        if !self.permits(value) {
            return Err(NameRule::OtherString);
        }
        let mut found = found;
        found[number] = true;
        Ok(found)
    }

    /// What is found in these attributes, after what was found before; or the rule that is broken first.
    fn add_attributes<C: Cursor>(self, found: Found, contents: C) -> Result<Found, NameRule>
        ensures { (xs : List Attribute) → SpellsSome SpellsAttribute xs (C.octets_left contents)
            → FindsBy self found xs result }
    {
        let mut rest = contents;
        let mut all = found;
        'attributes: while !rest.is_at_end() {
            let (identifier, value) = match take_attribute_type(&mut rest) {
                Ok(read) => read,
                Err(_) => return Err(NameRule::OtherAttribute),
            };
            all = self.add(all, Oid(identifier.octets()), value)?;
        }
        Ok(all)
    }

    /// The same for relative distinguished names.
    fn add_relatives<C: Cursor>(self, found: Found, contents: C) -> Result<Found, NameRule>
        ensures { (parts : List (List Attribute)) → SpellsSome SpellsRelative parts (C.octets_left contents)
            → FindsBy self found (attributes parts) result }
    {
        let mut rest = contents;
        let mut all = found;
        'relatives: while !rest.is_at_end() {
            let relative = match rest.take_value_contents(Tag::SET, true) {
                Ok(relative) => relative,
                Err(_) => return Err(NameRule::OtherAttribute),
            };
            all = self.add_attributes(all, relative)?;
        }
        Ok(all)
    }

    /// Tests the remaining name of a cursor; returns the rule that it breaks first.
    pub(super) fn inspect<C: Cursor>(self, name: C) -> Result<(), NameRule>
        requires { IsName (C.octets_left name) }
        ensures { Inspects self (C.octets_left name) result }
    {
        let mut name = name;
        let contents = match name.take_value_contents(Tag::SEQUENCE, true) {
            Ok(contents) => contents,
            Err(_) => return Err(NameRule::OtherAttribute),
        };
        let found = self.add_relatives(NOTHING, contents)?;
        if !found[NameAttribute::COMMON_NAME] {
            return Err(NameRule::MissingCommonName);
        }
        Ok(())
    }
}
