//! The authority key identifier (RFC 5280 4.2.1.1).

ghost use Rattle.rpki_der.specs.Cursor.{left};
ghost use Rattle.rpki_der.specs.Reading.{Reads};
ghost use Rattle.rpki_x509.specs.Authority.{SpellsTagged, SpellsAuthority, authority_content, tagged_identifier};

use rpki::crypto::KeyIdentifier;
use rpki::der::{Class, Constructed, DecodeError, Tag};

/// A key identifier under the tag 0.
fn take_tagged(cons: &mut Constructed<'_>) -> Result<KeyIdentifier, DecodeError>
    ensures { Reads (λ k. k) SpellsTagged tagged_identifier.fault (left cons.old) (left cons.new) result }
{
    let mut after = *cons;
    let octets = after.take_primitive_if(Tag::new(Class::Context, 0))?;
    match KeyIdentifier::try_from(octets) {
        Ok(identifier) => {
            *cons = after;
            Ok(identifier)
        }
        Err(_) => Err(DecodeError::content("invalid key identifier")),
    }
}

/// The identifier of an issuer's key: a SEQUENCE of it alone, under the tag 0 (RFC 6487 4.8.3).
pub fn take_authority(cons: &mut Constructed<'_>) -> Result<KeyIdentifier, DecodeError>
    ensures { Reads (λ k. k) SpellsAuthority authority_content.fault (left cons.old) (left cons.new) result }
{
    cons.in_sequence(|contents| take_tagged(contents))
}
