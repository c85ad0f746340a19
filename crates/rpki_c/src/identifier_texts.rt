//! Key identifiers, from their values and from hexadecimal digits.

ghost use Rattle.rpki_der.specs.Reading.{Decodes};
ghost use Rattle.rpki.specs.KeyIdentifier.{SpellsKeyIdentifier};
ghost use Rattle.rpki_c.specs.Key.{IsWholeIdentifierFault, IsIdentifierRead, IsHexRead};

use crate::status::CONTENT;
use rpki::crypto::KeyIdentifier;
use rpki_der::{Constructed, DecodeError};

/// A key identifier, and nothing else.
fn read_identifier(octets: &[u8]) -> Result<KeyIdentifier, DecodeError>
    ensures { Decodes (λ k. k) SpellsKeyIdentifier IsWholeIdentifierFault octets.now result }
{
    Constructed::from_slice(octets).whole(|cons| KeyIdentifier::take_from(cons))
}

/// Reads a key identifier: an OCTET STRING of twenty octets (RFC 5280 4.2.1.2, RFC 6487 4.8.2), and writes these.
///
/// The status is 0, or the number of the error; then `out` is unchanged. Nothing is allocated.
#[unsafe(no_mangle)]
pub extern "C" fn rpki_key_identifier_read(octets: &[u8], out: &mut [u8; 20]) -> u8
    ensures { IsIdentifierRead octets.now result out.old out.new }
{
    match read_identifier(octets) {
        Ok(identifier) => {
            *out = <[u8; 20]>::from(identifier);
            0
        }
        Err(e) => e.number(),
    }
}

/// Reads the forty hexadecimal digits of a key identifier, of either case, and writes its twenty octets. Allocates
/// nothing.
///
/// The status is 0; `CONTENT` where the text is not forty hexadecimal digits; then `out` is unchanged.
#[unsafe(no_mangle)]
pub extern "C" fn rpki_key_identifier_of_hex(text: &[u8], out: &mut [u8; 20]) -> u8
    ensures { IsHexRead text.now result out.old out.new }
{
    let Ok(text) = str::from_utf8(text) else {
        return CONTENT;
    };
    match text.parse::<KeyIdentifier>() {
        Ok(identifier) => {
            *out = <[u8; 20]>::from(identifier);
            0
        }
        Err(_) => CONTENT,
    }
}
