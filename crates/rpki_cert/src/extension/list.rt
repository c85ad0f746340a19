//! The extensions of a certificate, as a list (RFC 5280 4.1.2.9, 4.2).

ghost use Rattle.std.specs.Prelude.{◌≡◌, [], None, Some, IfOk, IfSome, IfNone};
ghost use Rattle.rpki_der.specs.Prelude.{left, ReadsParts, SpellsEach, IsEachFault};
ghost use Rattle.rpki.specs.ExtensionValue.{SpellsExtension};
ghost use Rattle.rpki.specs.ExtensionFault.{kept_extension};
ghost use Rattle.rpki_cert.specs.Cert.{find};

use rpki::der::{Constructed, DecodeError, Keep, Oid};
use rpki::repository::x509::ExtensionOctets;

/// The first extension of this identifier.
pub fn find<'a>(all: &'a [ExtensionOctets], id: Oid<&[u8]>) -> Option<&'a ExtensionOctets>
    ensures some { IfSome result (λ x. find id.entry.0.now all.now ≡ Some x.now) }
    ensures none { IfNone result (find id.entry.0.now all.now ≡ None) }
{
    'extensions: for extension in all {
        if extension.id() == id {
            return Some(extension);
        }
    }
    None
}

/// The extensions that these contents are, in sequence, kept.
///
/// The errors are those of [ExtensionOctets::take_from] for the first that isn't one; and `OutOfMemory` if allocation
/// fails.
pub fn take_each<K: Keep>(
    keep: K,
    contents: &mut Constructed<'_>,
) -> Result<Vec<ExtensionOctets>, DecodeError>
    requires { K.holds keep (left contents.old) }
    ensures reads { ReadsParts (λ v. v.items) (SpellsEach SpellsExtension) (IsEachFault SpellsExtension
        kept_extension.fault) (left contents.old) (left contents.new) result }
    ensures end { IfOk result (λ _. left contents.new ≡ []) }
{
    contents.take_each_with(
        keep,
        |rest, keep|
            requires { K.holds keep (left rest.old) }
        { ExtensionOctets::take_from(keep, rest) },
    )
}
