//! Signed attributes, one by one (RFC 5652 5.3).

ghost use Rattle.std.specs.Prelude.{◌≡◌};
ghost use Rattle.rpki_der.specs.Prelude.{left, Takes, TakesAll};
ghost use Rattle.rpki_attributes.specs.SignedAttributes.{attribute_of, attribute_parts, attribute, attributes_in};
ghost use Rattle.rpki_attributes.specs.SignedAttributes.{is_known, are_known, values_of};
ghost use Rattle.rpki_attributes.specs.Sought.{IsSought};

use rpki::der::{Constructed, DecodeError, Oid};
use rpki::oid;

/// An attribute in place: its type, and the contents of the set of its values.
#[derive(Clone, Copy)]
pub struct AttributeView<'a> {
    /// The type.
    pub attr_type: Oid<&'a [u8]>,
    /// What the set of values contains.
    pub values: Constructed<'a>,
}

impl<'a> AttributeView<'a> {
    /// Reads an attribute: a SEQUENCE of its type and of a SET, and nothing else. What the SET contains is left unread.
    /// Allocates nothing.
    ///
    /// The errors are those of a SEQUENCE; then those of the first part that could not be read, or `Trailing` if more
    /// follows. An error leaves the cursor where it was.
    pub fn take_from(cons: &mut Constructed<'a>) -> Result<AttributeView<'a>, DecodeError>
        ensures { Takes attribute_of attribute (left cons.old) (left cons.new) result }
    {
        cons.in_sequence(
            |contents|
                ensures { TakesAll attribute_of attribute_parts (left contents.old) (left contents.new) result }
            {
                let attr_type = contents.take_oid()?;
                let values = contents.take_set()?;
                Ok(AttributeView { attr_type, values })
            },
        )
    }
}

/// Whether it is the type of an attribute that signed objects have.
fn is_known(attr_type: Oid<&[u8]>) -> bool
    ensures { result ≡ is_known attr_type.entry.0.now }
{
    if attr_type == oid::CONTENT_TYPE {
        return true;
    }
    if attr_type == oid::MESSAGE_DIGEST {
        return true;
    }
    if attr_type == oid::SIGNING_TIME {
        return true;
    }
    attr_type == oid::AA_BINARY_SIGNING_TIME
}

/// Whether each is an attribute that signed objects have.
pub fn are_known(all: &[AttributeView<'_>]) -> bool
    ensures { result ≡ are_known (attributes_in all.now) }
{
    'attributes: for attribute in all {
        if !is_known(attribute.attr_type) {
            return false;
        }
    }
    true
}

/// What the values of the one attribute of this type are; `Some(None)` where there is none, and None where there are
/// more.
pub fn values_of<'a>(
    all: &[AttributeView<'a>],
    attr_type: Oid<&[u8]>,
) -> Option<Option<Constructed<'a>>>
    ensures { IsSought (values_of attr_type.entry.0.now (attributes_in all.now)) result }
{
    let mut found: Option<Constructed<'a>> = None;
    'attributes: for attribute in all {
        if attribute.attr_type == attr_type {
            if found.is_some() {
                return None;
            }
            found = Some(attribute.values);
        }
    }
    Some(found)
}
