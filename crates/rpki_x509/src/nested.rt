//! Values with everything nested in them, and values by their headers alone.

ghost use Rattle.std.specs.Prelude.{◌↔◌, IsTrue};
ghost use Rattle.rpki_der.specs.Prelude.{left, Refuses, SpellsValue, IsValue, IsValueList, IsCaptureFault};
ghost use Rattle.rpki_x509.specs.InPlace.{TakesHeaded};

use rpki::der::{Constructed, DecodeError, Section};

/// Whether the rest is values, in sequence, with everything nested in them.
pub fn are_values(contents: Constructed<'_>) -> bool
    ensures { IsTrue result ↔ IsValueList (left contents.entry) }
{
    let mut rest = contents;
    'values: loop {
        match rest.skip_nested() {
            Ok(Some(())) => {}
            Ok(None) => return true,
            Err(_) => return false,
        }
    }
}

/// The octets of the value at the front by its header alone: what is nested in it is not looked at; moves past it. None
/// where no value begins the octets.
pub fn take_headed<'a>(cons: &mut Constructed<'a>) -> Option<&'a [u8]>
    ensures { TakesHeaded (λ v. v.now) (left cons.old) (left cons.new) result }
{
    let octets = cons.rest();
    match cons.take_value() {
        Ok(_) => Some(Section::before(octets, cons.rest()).octets),
        Err(_) => None,
    }
}

/// Whether the octets are one value, with everything nested in it.
pub fn is_value(octets: &[u8]) -> bool
    ensures { IsTrue result ↔ IsValue octets.now }
{
    let mut rest = Constructed::from_slice(octets);
    match rest.skip_nested() {
        Ok(Some(())) => rest.is_empty(),
        Ok(None) => false,
        Err(_) => false,
    }
}

/// The leftmost error of octets that no value begins, with everything nested in it. Requires that none does.
pub fn value_fault(octets: Constructed<'_>) -> DecodeError
    requires { Refuses SpellsValue (left octets) }
    ensures { IsCaptureFault (left octets.entry) result }
{
    let mut rest = octets;
    match rest.skip_nested() {
        Err(e) => e,
        Ok(_) => DecodeError::Truncated,
    }
}
