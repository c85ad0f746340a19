//! The attributes of a name, in sequence: the one reading of what is inside (RFC 5280 4.1.2.4).

ghost use Rattle.std.specs.Prelude.{◌≡◌, ◌<◌, List, [], ℕ, IfSome, IfNone};
ghost use Rattle.rpki_der.specs.Prelude.{left, Refuses, Spells, is_constructed, octets_of};
ghost use Rattle.rpki.specs.Name.{Attribute, IsName, SpellsAttribute, SpellsName, SpellsRelative, SpellsSome};
ghost use Rattle.rpki.specs.NameAttributes.{MarkedAttribute, marked, marked_attributes, rest_size, AreLeft, IsViewOf};
ghost use Rattle.rpki.specs.NameAttributes.{GivesAttribute};

use rpki_der::{Constructed, Content, Oid, Tag};
use std::marker::Model;

/// An attribute of a name, read in place: a SEQUENCE of an OBJECT IDENTIFIER and of one value.
#[derive(Clone, Copy)]
pub struct AttributeView<'a> {
    /// Its type.
    pub identifier: Oid<&'a [u8]>,
    /// The octets of its value, with the header.
    pub value: &'a [u8],
    /// The tag of the value.
    pub tag: Tag,
    /// Whether the value is constructed.
    pub constructed: bool,
    /// The contents octets of the value.
    pub contents: &'a [u8],
    /// Whether it is the first of its relative distinguished name.
    pub begins: bool,
}

/// The remaining attributes of a name, in order.
#[derive(Drop)]
pub struct Attributes<'a> {
    /// Further attributes of the relative distinguished name that was begun.
    attributes: Constructed<'a>,
    /// The relative distinguished names after it.
    relatives: Constructed<'a>,
}

impl<'a> Model for Attributes<'a> {
    ghost use Rattle.std.specs.Prelude.{List};
    ghost use Rattle.rpki_der.specs.Prelude.{left};
    ghost use Rattle.rpki.specs.NameAttributes.{MarkedAttribute, NameRest, rest_of, AreLeft};

    ghost Value = { NameRest };

    ghost view = { λ x. rest_of (left x.attributes) (left x.relatives) };

    ghost invariant = { λ x. (xs : List MarkedAttribute)
        × AreLeft (rest_of (left x.attributes) (left x.relatives)) xs };
}

/// A cursor on the relative distinguished names of the name that these octets are.
fn relatives_of<'a>(octets: &'a [u8]) -> Constructed<'a>
    requires { IsName octets.now }
    ensures { (parts : List (List Attribute)) → SpellsName parts octets.now
        → SpellsSome SpellsRelative parts (left result) }
{
    let mut name = Constructed::from_slice(octets);
    match name.take_sequence() {
        Ok(relatives) => relatives,
        // a name is a SEQUENCE
        Err(_) => name,
    }
}

/// The form and the octets of contents.
fn form_and_octets<'a>(content: Content<'a>) -> (bool, &'a [u8])
    ensures form { result.0 ≡ is_constructed content.entry }
    ensures octets { result.1.now ≡ octets_of content.entry }
{
    match content {
        Content::Primitive(octets) => (false, octets),
        Content::Constructed(values) => (true, values.rest()),
    }
}

/// The attribute at the front, which begins a relative distinguished name or doesn't; moves past it.
fn take_attribute<'a>(cons: &mut Constructed<'a>, begins: bool) -> Option<AttributeView<'a>>
    ensures some { IfSome result (λ v. (a : Attribute) (r : List ℕ) → Spells SpellsAttribute (left cons.old) a r
        → IsViewOf v (marked begins a) × (r ≡ left cons.new)) }
    ensures none { IfNone result (Refuses SpellsAttribute (left cons.old)) }
{
    let mut after = *cons;
    let mut parts = match after.take_sequence() {
        Ok(parts) => parts,
        Err(_) => return None,
    };
    let identifier = match parts.take_oid() {
        Ok(identifier) => identifier,
        Err(_) => return None,
    };
    let value = parts.rest();
    let (tag, content) = match parts.take_value() {
        Ok(read) => read,
        Err(_) => return None,
    };
    let (constructed, contents) = form_and_octets(content);
    *cons = after;
    Some(AttributeView {
        identifier,
        value,
        tag,
        constructed,
        contents,
        begins,
    })
}

impl<'a> Attributes<'a> {
    /// The attributes of the name that these octets are.
    pub(super) fn of_name(octets: &'a [u8]) -> Attributes<'a>
        requires { IsName octets.now }
        ensures { (parts : List (List Attribute)) → SpellsName parts octets.now
            → AreLeft result (marked_attributes parts) }
    {
        Attributes {
            attributes: Constructed::from_slice(&[]),
            relatives: relatives_of(octets),
        }
    }

    /// The next attribute; None where none remains. Allocates nothing.
    pub fn next_attribute(&mut self) -> Option<AttributeView<'a>>
        ensures given { (xs : List MarkedAttribute) → AreLeft self.old xs → GivesAttribute xs result self.new }
        // Each attribute takes octets.
        ensures shorter { IfSome result (λ _. rest_size self.new < rest_size self.old) }
    {
        if self.attributes.is_empty() {
            return self.begin_relative();
        }
        let mut attributes = self.attributes;
        match take_attribute(&mut attributes, false) {
            Some(attribute) => {
                *self = Attributes {
                    attributes,
                    relatives: self.relatives,
                };
                Some(attribute)
            }
            None => None,
        }
    }

    /// The first attribute of the relative distinguished name that is next; None where none remains.
    ///
    /// Requires that none remains of the relative distinguished name before it.
    fn begin_relative(&mut self) -> Option<AttributeView<'a>>
        requires { self.old.attributes ≡ [] }
        ensures given { (xs : List MarkedAttribute) → AreLeft self.old xs → GivesAttribute xs result self.new }
        ensures shorter { IfSome result (λ _. rest_size self.new < rest_size self.old) }
    {
        let mut relatives = self.relatives;
        let mut attributes = match relatives.take_set() {
            Ok(attributes) => attributes,
            Err(_) => return None,
        };
        match take_attribute(&mut attributes, true) {
            Some(attribute) => {
                *self = Attributes {
                    attributes,
                    relatives,
                };
                Some(attribute)
            }
            None => None,
        }
    }
}
