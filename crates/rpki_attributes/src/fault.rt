//! Why octets begin with no signed attributes.

ghost use Rattle.std.specs.Prelude.{IfSome, IfNone};
ghost use Rattle.rpki_der.specs.Prelude.{left, Refuses, SpellsNothing, TakesNoMemory};
ghost use Rattle.rpki_attributes.specs.SignedAttributes.{each_attribute, signed_attributes};
ghost use Rattle.rpki_attributes.specs.SignedAttributesView.{AreOnly};

use crate::attribute::AttributeView;
use rpki::der::{Class, Constructed, DecodeError, Tag};

/// The error of the first that is no attribute, of those that are to be the whole rest; None where all are.
fn list_fault(contents: Constructed<'_>) -> Option<DecodeError>
    ensures some { IfSome result (λ e. TakesNoMemory each_attribute.fault (left contents.entry) e) }
    ensures nothing { IfSome result (λ _. SpellsNothing each_attribute.spells (left contents.entry)) }
    ensures none { IfNone result (AreOnly (left contents.entry)) }
{
    let mut rest = contents;
    'attributes: while !rest.is_empty() {
        match AttributeView::take_from(&mut rest) {
            Ok(_) => {}
            Err(e) => return Some(e),
        }
    }
    None
}

/// The error of [SignedAttrs::take_from](crate::SignedAttrs::take_from) on octets that begin with no signed attributes.
/// Requires that they don't. Allocates nothing.
///
/// It is that of the tag; else that of the first that is no attribute; else `Content` with the text
/// `signed attributes that no signed object has`.
pub fn attributes_fault(octets: Constructed<'_>, strict: bool) -> DecodeError
    requires { Refuses (signed_attributes strict).spells (left octets) }
    ensures { TakesNoMemory (signed_attributes strict).fault (left octets.entry) result }
{
    let mut rest = octets;
    let contents = match rest.take_constructed_if(Tag::new(Class::Context, 0)) {
        Ok(contents) => contents,
        Err(e) => return e,
    };
    match list_fault(contents) {
        Some(e) => e,
        None => DecodeError::content("signed attributes that no signed object has"),
    }
}
