//! The version of a certificate.

ghost use Rattle.rpki_der.specs.Cursor.{left};
ghost use Rattle.rpki_der.specs.Reading.{Reads};
ghost use Rattle.rpki_cert.specs.Cert.{SpellsVersion};
ghost use Rattle.rpki_cert.specs.Cert.{version};

use rpki::der::{Class, Constructed, DecodeError, Tag};
use rpki_x509::skip_primitive;

/// Moves past the version of a certificate, which is v3(2), under the explicit tag 0 (RFC 5280 4.1.2.1).
///
/// The errors are those of a constructed value of the tag; then those of an INTEGER; then `Content` for another number;
/// then `Trailing` for octets that follow it.
pub fn skip_version(cons: &mut Constructed<'_>) -> Result<(), DecodeError>
    ensures { Reads (λ _. tt) SpellsVersion version.fault (left cons.old) (left cons.new) result }
{
    cons.in_constructed(
        Tag::new(Class::Context, 0),
        |contents| skip_primitive(contents, Tag::INTEGER, &[2]),
    )
}
