//! The signed attributes of a signer, read in place without memory (RFC 5652 5.3, 5.4; RFC 6488 2.1.6.4).

ghost use Rattle.rpki_der.specs.Prelude.{left};
ghost use Rattle.rpki_attributes.specs.SignedAttributes.{values_known};
ghost use Rattle.rpki_attributes.specs.SignedAttributesView.{AreTogether, TakesAttributes};
ghost use Rattle.rpki_x509.specs.InPlace.{IsWholeOf};

use crate::attribute::AttributeView;
use crate::known_attributes::KnownAttributes;
use rpki::der::{Class, Constructed, Section, Tag};

/// The attributes that a signer signs.
#[derive(Clone, Copy)]
pub struct SignedAttrsView<'a> {
    /// Their octets, under the implicit tag 0. What is signed are these, but with 31, the tag of a SET, in place of the
    /// first (RFC 5652 5.4).
    pub octets: Section<'a>,
    /// What they say.
    pub values: KnownAttributes<'a>,
}

/// What the attributes say that are all of these contents. A signed object has four at most, each of another type.
fn read_known<'a>(contents: Constructed<'a>, strict: bool) -> Option<KnownAttributes<'a>>
    ensures { IsWholeOf values_known (AreTogether strict) (left contents.entry) result }
{
    let mut rest = contents;
    let first = match AttributeView::take_from(&mut rest) {
        Ok(first) => first,
        Err(_) => return None,
    };
    if rest.is_empty() {
        return KnownAttributes::of(&[first], strict);
    }
    let second = match AttributeView::take_from(&mut rest) {
        Ok(second) => second,
        Err(_) => return None,
    };
    if rest.is_empty() {
        return KnownAttributes::of(&[first, second], strict);
    }
    let third = match AttributeView::take_from(&mut rest) {
        Ok(third) => third,
        Err(_) => return None,
    };
    if rest.is_empty() {
        return KnownAttributes::of(&[first, second, third], strict);
    }
    let fourth = match AttributeView::take_from(&mut rest) {
        Ok(fourth) => fourth,
        Err(_) => return None,
    };
    if !rest.is_empty() {
        return None;
    }
    KnownAttributes::of(&[first, second, third, fourth], strict)
}

impl<'a> SignedAttrsView<'a> {
    /// Signed attributes, as [SignedAttrs::take_from](crate::SignedAttrs::take_from) reads them, and where they are
    /// in the whole rest. Allocates nothing.
    pub fn take_from(cons: &mut Constructed<'a>, strict: bool) -> Option<SignedAttrsView<'a>>
        ensures { TakesAttributes strict (left cons.old) (left cons.new) result }
    {
        let octets = cons.rest();
        let contents = match cons.take_constructed_if(Tag::new(Class::Context, 0)) {
            Ok(contents) => contents,
            Err(_) => return None,
        };
        match read_known(contents, strict) {
            Some(values) => Some(SignedAttrsView {
                octets: Section::before(octets, cons.rest()),
                values,
            }),
            None => None,
        }
    }
}
