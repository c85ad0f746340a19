//! Object identifiers that are expected.

ghost use Rattle.rpki_der.specs.Cursor.{left};
ghost use Rattle.rpki_der.specs.Reading.{Reads};
ghost use Rattle.rpki_cert.specs.Access.{SpellsOidAs, IsOidAsFault};

use rpki::der::{ConstOid, Constructed, DecodeError, Oid, Tag};

/// Whether an object identifier is this one.
pub fn take_oid_as(cons: &mut Constructed<'_>, expected: ConstOid) -> Result<bool, DecodeError>
    ensures { Reads (λ b. b) (SpellsOidAs expected.entry.0.now) (IsOidAsFault expected.entry.0.now) (left cons.old)
        (left cons.new) result }
{
    let mut after = *cons;
    let contents = after.take_primitive_if(Tag::OID)?;
    let found = Oid(contents);
    if !found.is_valid() {
        return Err(DecodeError::content("malformed object identifier"));
    }
    *cons = after;
    Ok(found == expected)
}
