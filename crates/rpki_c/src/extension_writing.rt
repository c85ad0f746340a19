//! Extensions of certificates, written.

ghost use Rattle.std.specs.Prelude.{◌≡◌, ◌↔◌, ◌<◌, ◌^◌, length};
ghost use Rattle.rpki.specs.Extension.{extension_contents, extension_octets};
ghost use Rattle.rpki_c.specs.Made.{IsExtensionWritten};

use crate::stored::store_if_short;
use rpki::repository::x509::ExtensionBytes;
use rpki_der::{Oid, PrimitiveContent, Sequence, Values};
use std::alloc::Global;

/// An encoder for the extension of these parts.
fn extension_of<'a>(id: &'a [u8], critical: bool, octets: &'a [u8]) -> ExtensionBytes<'a>
    ensures octets { ⟦<ExtensionBytes<'static> as Values>⟧.encoded result
        ≡ extension_octets id.entry.now critical octets.now }
    ensures short { ⟦<ExtensionBytes<'static> as Values>⟧.is_short result
        ↔ (length (extension_contents id.entry.now critical octets.now) < 2 ^ 32) }
{
    let critical = if critical { Some(true.encode()) } else { None };
    Sequence::new((Oid(id).encode(), critical, octets.encode()))
}

/// Writes the extension of a certificate (RFC 5280 4.1) with this identifier, which is given by its contents octets and
/// not looked at, and an OCTET STRING of the octets, to the front of the buffer. Where it is not critical the BOOLEAN
/// is left out, since FALSE is its default (X.690 11.5).
///
/// The status is 0; `TOO_SMALL` where the buffer is shorter, and nothing is written to it; in both cases `written` is
/// the count of the octets. `TOO_LONG` where its contents would have 2^32 octets or more, and `OUT_OF_MEMORY`; then
/// nothing is written.
#[unsafe(no_mangle)]
pub extern "C" fn rpki_extension_write(
    alloc: Global,
    id: &[u8],
    critical: bool,
    octets: &[u8],
    out: &mut [u8],
    written: &mut usize,
) -> u8
    ensures { IsExtensionWritten id.now critical octets.now result out.old out.new written.old written.new }
{
    store_if_short(alloc, &extension_of(id, critical, octets), out, written)
}
