//! Public keys.

ghost use Rattle.std.specs.Prelude.{◌≡◌, ◌↔◌, IsTrue, IfOk, IfErr};
ghost use Rattle.rpki_der.specs.Cursor.{left};
ghost use Rattle.rpki_der.specs.Reading.{Reads, Decodes};
ghost use Rattle.rpki.specs.KeyFault.{key_view};
ghost use Rattle.rpki.specs.PublicKey.{SpellsKey};
ghost use Rattle.rpki.specs.KeyFormat.{SpellsFormat};
ghost use Rattle.rpki_c.specs.Identifier.{IsOther};
ghost use Rattle.rpki_c.specs.Key.{IsWholeKeyFault, IsOtherKey, IsKeyStatus, format_number, HasKey, IsKeyRead};
ghost use Rattle.rpki_c.specs.Key.{HasIdentifier, IsIdentified, IsNoKey};

use crate::identifiers::begins_with_identifier;
use crate::span::Span;
use crate::status::OTHER_ALGORITHM;
use rpki::crypto::{PublicKeyFormat, PublicKeyView};
use rpki_der::{Constructed, DecodeError};
use rpki_digests::Digests;

/// The parts of a public key.
#[repr(C)]
#[derive(Clone, Copy)]
pub struct KeyParts<'a> {
    /// The format: 0 for RSA, 1 for a point on the curve P-256.
    pub format: u8,
    /// How many bits of the last octet are unused.
    pub unused: u8,
    /// The octets of the bits.
    pub bits: Span<'a>,
}

/// How a format is passed.
pub(crate) fn format_number(format: PublicKeyFormat) -> u8
    ensures { result ≡ format_number format }
{
    match format {
        PublicKeyFormat::Rsa => 0,
        PublicKeyFormat::EcdsaP256 => 1,
    }
}

/// A public key, and nothing else.
fn whole_key(octets: &[u8]) -> Result<PublicKeyView<'_>, DecodeError>
    ensures { Decodes (λ k. k) SpellsKey IsWholeKeyFault octets.now result }
{
    Constructed::from_slice(octets).whole(
        |cons|
            ensures { Reads (λ k. k) SpellsKey key_view.fault (left cons.old) (left cons.new) result }
        { PublicKeyView::take_from(cons) },
    )
}

/// Whether the identifier of another algorithm than those of the formats begins the octets. Allocates nothing.
fn is_other_format(octets: &[u8]) -> bool
    ensures { IsTrue result ↔ IsOther SpellsFormat octets.now }
{
    let mut cons = Constructed::from_slice(octets);
    match PublicKeyFormat::take_from(&mut cons) {
        Ok(_) => false,
        Err(_) => begins_with_identifier(octets),
    }
}

/// Whether it begins the contents of a SEQUENCE at the front of the octets.
fn is_other_key(octets: &[u8]) -> bool
    ensures { IsTrue result ↔ IsOtherKey octets.now }
{
    let mut cons = Constructed::from_slice(octets);
    match cons.take_sequence() {
        Ok(contents) => is_other_format(contents.rest()),
        Err(_) => false,
    }
}

/// The status of octets that were rejected with this error.
pub(crate) fn key_status(octets: &[u8], e: DecodeError) -> u8
    ensures { IsKeyStatus octets.now e result }
{
    if is_other_key(octets) {
        OTHER_ALGORITHM
    } else {
        e.number()
    }
}

/// The public key that the octets are, or their status.
pub(crate) fn read_key(octets: &[u8]) -> Result<PublicKeyView<'_>, u8>
    ensures ok { IfOk result (λ key. SpellsKey key octets.now) }
    ensures err { IfErr result (λ status. IsNoKey IsWholeKeyFault octets.now status) }
{
    match whole_key(octets) {
        Ok(key) => Ok(key),
        Err(e) => Err(key_status(octets, e)),
    }
}

/// The parts of the key that the octets are.
fn parts_of<'a>(octets: &'a [u8], key: &PublicKeyView<'a>) -> KeyParts<'a>
    requires { SpellsKey key.now octets.now }
    ensures { HasKey octets.now result }
{
    KeyParts {
        format: format_number(key.algorithm()),
        unused: key.unused(),
        bits: Span::of(key.bits()),
    }
}

/// Reads a public key (SubjectPublicKeyInfo, RFC 5280 4.1), and says what its parts are.
///
/// The status is 0. It is 13 where the algorithm identifier is another one, whatever follows it: a SEQUENCE of an
/// object identifier and perhaps one value, that of neither format. Else it is the number of the error. `out` is
/// unchanged where the status is not 0. Nothing is allocated.
#[unsafe(no_mangle)]
pub extern "C" fn rpki_public_key<'a>(octets: &'a [u8], out: &mut KeyParts<'a>) -> u8
    ensures { IsKeyRead octets.now result out.old out.new }
{
    match read_key(octets) {
        Ok(key) => {
            *out = parts_of(octets, &key);
            0
        }
        Err(status) => status,
    }
}

/// Writes the identifier of the public key that the octets are: the SHA-1 digest of its bits (RFC 6487 4.8.2).
///
/// The status is as that of [rpki_public_key]. Nothing is allocated.
#[unsafe(no_mangle)]
pub extern "C" fn rpki_key_identifier(octets: &[u8], out: &mut [u8; 20]) -> u8
    ensures { IsIdentified octets.now result out.old out.new }
{
    match read_key(octets) {
        Ok(key) => {
            *out = <[u8; 20]>::from(key.key_identifier(&Digests));
            0
        }
        Err(status) => status,
    }
}
