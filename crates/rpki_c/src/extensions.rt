//! Extensions of certificates.

ghost use Rattle.rpki_der.specs.Cursor.{left};
ghost use Rattle.rpki_der.specs.Reading.{Reads, Decodes};
ghost use Rattle.rpki.specs.ExtensionFault.{extension};
ghost use Rattle.rpki.specs.ExtensionValue.{SpellsExtension};
ghost use Rattle.rpki_c.specs.Extension.{IsWholeExtensionFault, IsExtensionRead};

use crate::span::Span;
use rpki::repository::x509::ExtensionView;
use rpki_der::{Constructed, DecodeError};

/// The parts of an extension.
#[repr(C)]
#[derive(Clone, Copy)]
pub struct ExtensionParts<'a> {
    /// The contents octets of the identifier.
    pub id: Span<'a>,
    /// The octets of the OCTET STRING.
    pub octets: Span<'a>,
    /// Whether the extension is critical.
    pub critical: bool,
}

/// An extension, and nothing else.
fn read_extension(octets: &[u8]) -> Result<ExtensionView<'_>, DecodeError>
    ensures { Decodes (λ x. x) SpellsExtension IsWholeExtensionFault octets.now result }
{
    Constructed::from_slice(octets).whole(
        |cons|
            ensures { Reads (λ x. x) SpellsExtension extension.fault (left cons.old) (left cons.new) result }
        { ExtensionView::take_from(cons) },
    )
}

/// Reads an extension of a certificate (RFC 5280 4.1, 4.2), and says what its parts are.
///
/// The status is 0, or the number of the error; then `out` is unchanged. Nothing is allocated.
#[unsafe(no_mangle)]
pub extern "C" fn rpki_extension<'a>(octets: &'a [u8], out: &mut ExtensionParts<'a>) -> u8
    ensures { IsExtensionRead octets.now result out.old out.new }
{
    match read_extension(octets) {
        Ok(found) => {
            *out = ExtensionParts {
                id: Span::of(found.id().0),
                octets: Span::of(found.octets()),
                critical: found.critical(),
            };
            0
        }
        Err(e) => e.number(),
    }
}
