//! The grammar of names (RFC 5280 4.1.2.4, X.501 9.2).

ghost use Rattle.std.specs.Prelude.{true};
ghost use Rattle.rpki_der.specs.Prelude.{left, Takes, TakesAll, sequence, Reads, IsOuterFault};
ghost use Rattle.rpki.specs.Name.{SpellsIdentifierThen, attribute_left};
ghost use Rattle.rpki.specs.NameFault.{attribute, attribute_parts, attributes, relative, relatives, walked_name};

use rpki_der::{Constructed, Cursor, DecodeError, Tag, take_oid_contents};

/// The contents of an attribute's identifier, and a cursor on what follows it in the attribute.
pub(super) fn take_attribute_type<C: Cursor>(cons: &mut C) -> Result<(C, C), DecodeError>
    ensures { Reads (attribute_left C.octets_left) SpellsIdentifierThen
        (IsOuterFault sequence true) (C.octets_left cons.old) (C.octets_left cons.new) result }
{
    let mut after = *cons;
    let mut contents = after.take_value_contents(Tag::SEQUENCE, true)?;
    let identifier = take_oid_contents(&mut contents)?;
    *cons = after;
    Ok((identifier, contents))
}

/// Moves past an attribute: a SEQUENCE of an OBJECT IDENTIFIER and one value.
fn skip_attribute(cons: &mut Constructed<'_>) -> Result<(), DecodeError>
    ensures { Takes (λ _. tt) attribute (left cons.old) (left cons.new) result }
{
    cons.in_sequence(
        |contents|
            ensures { TakesAll (λ _. tt) attribute_parts (left contents.old) (left contents.new) result }
        {
            contents.take_oid()?;
            match contents.skip_nested()? {
                Some(()) => Ok(()),
                None => Err(DecodeError::content("invalid name")),
            }
        },
    )
}

/// Moves past the attributes that these contents are, one at least.
fn skip_attributes(contents: &mut Constructed<'_>) -> Result<(), DecodeError>
    ensures { TakesAll (λ _. tt) attributes (left contents.old) (left contents.new) result }
{
    if contents.is_empty() {
        return Err(DecodeError::content("empty relative distinguished name"));
    }
    'attributes: while !contents.is_empty() {
        skip_attribute(contents)?;
    }
    Ok(())
}

/// Moves past a relative distinguished name: a SET of attributes.
fn skip_rdn(cons: &mut Constructed<'_>) -> Result<(), DecodeError>
    ensures { Takes (λ _. tt) relative (left cons.old) (left cons.new) result }
{
    cons.in_set(|contents| skip_attributes(contents))
}

/// Moves past the relative distinguished names that these contents are, one at least.
fn skip_rdns(contents: &mut Constructed<'_>) -> Result<(), DecodeError>
    ensures { TakesAll (λ _. tt) relatives (left contents.old) (left contents.new) result }
{
    if contents.is_empty() {
        return Err(DecodeError::content("empty distinguished name"));
    }
    'relatives: while !contents.is_empty() {
        skip_rdn(contents)?;
    }
    Ok(())
}

/// Moves past a name: a SEQUENCE of relative distinguished names.
pub(super) fn skip_name(cons: &mut Constructed<'_>) -> Result<(), DecodeError>
    ensures { Takes (λ _. tt) walked_name (left cons.old) (left cons.new) result }
{
    cons.in_sequence(|contents| skip_rdns(contents))
}
