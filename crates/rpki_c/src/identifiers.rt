//! Algorithm identifiers of any algorithm.

ghost use Rattle.std.specs.Prelude.{◌↔◌, IsTrue, ℕ, List};
ghost use Rattle.rpki_der.specs.Cursor.{left};
ghost use Rattle.rpki_der.specs.Reading.{Finds};
ghost use Rattle.rpki_c.specs.Identifier.{AreParameters, IsNamed, SpellsIdentifier};

use rpki_der::Constructed;

/// Whether the rest is the parameters of an algorithm: nothing, or one value, whose contents are not looked at.
fn are_parameters(contents: Constructed<'_>) -> bool
    ensures { IsTrue result ↔ AreParameters (left contents.entry) }
{
    if contents.is_empty() {
        return true;
    }
    let mut rest = contents;
    match rest.take_value() {
        Ok(_) => rest.is_empty(),
        Err(_) => false,
    }
}

/// Whether the rest is an object identifier and then parameters.
fn is_named(contents: Constructed<'_>) -> bool
    ensures { IsTrue result ↔ ((o : List ℕ) × IsNamed o (left contents.entry)) }
{
    let mut rest = contents;
    match rest.take_oid() {
        Ok(_) => are_parameters(rest),
        Err(_) => false,
    }
}

/// Whether an algorithm identifier begins the octets (RFC 5280 4.1.1.2): a SEQUENCE of an object identifier and perhaps
/// one value more. Allocates nothing.
pub(crate) fn begins_with_identifier(octets: &[u8]) -> bool
    ensures { IsTrue result ↔ Finds SpellsIdentifier octets.now }
{
    let mut cons = Constructed::from_slice(octets);
    match cons.take_sequence() {
        Ok(contents) => is_named(contents),
        Err(_) => false,
    }
}
