//! The grammar of extensions (RFC 5280 4.1).

ghost use Rattle.std.specs.Prelude.{false, IfOk};
ghost use Rattle.rpki_der.specs.Prelude.{left, Decodes, oid, Spells, SpellsContents};
ghost use Rattle.rpki.specs.ExtensionValue.{extension_parts, IsExtensionContents};
ghost use Rattle.rpki.specs.ExtensionFault.{extension_fields};

use rpki_der::{Constructed, DecodeError, Oid};

/// The parts that are all of these contents: the identifier, whether the extension is critical, and the octets; then
/// what follows the identifier. A BOOLEAN that is left out stands for FALSE, its default; FALSE is read where it is
/// spelled.
#[inline(always)]
pub(super) fn take_parts<'a>(
    contents: Constructed<'a>,
) -> Result<(Oid<&'a [u8]>, bool, &'a [u8], Constructed<'a>), DecodeError>
    ensures reads { Decodes (λ x. extension_parts x.0.0.now x.1 x.2.now) IsExtensionContents
        extension_fields.fault (left contents.entry) result }
    ensures place { IfOk result (λ x. Spells (SpellsContents oid false) (left contents.entry) x.0.0.now (left x.3)) }
{
    let mut rest = contents;
    let identifier = rest.take_oid()?;
    let following = rest;
    let critical = rest.take_opt_bool()?.unwrap_or(false);
    let octets = rest.take_octets()?;
    rest.finish()?;
    Ok((identifier, critical, octets, following))
}
