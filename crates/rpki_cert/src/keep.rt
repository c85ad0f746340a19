//! Keeping what was read in place of a certificate.

ghost use Rattle.std.specs.Prelude.{◌≡◌, List, IfOk, IfErr};
ghost use Rattle.rpki_der.specs.Prelude.{SpellsEach, IsSectionOf};
ghost use Rattle.rpki_der.specs.declared.error.DecodeError.{DecodeError};
ghost use Rattle.rpki.specs.ExtensionValue.{ExtensionParts, SpellsExtension};
ghost use Rattle.rpki.specs.Name.{IsName};
ghost use Rattle.rpki_cert.specs.ExtensionTable.{OfListed};

use crate::extension::list::take_each;
use crate::extension::table::ExtensionTable;
use crate::read::fields::Keyed;
use rpki::crypto::PublicKey;
use rpki::der::{Constructed, DecodeError, Keep, Section};
use rpki::repository::x509::{ExtensionOctets, NameOctets, NameView};
use std::alloc::AllocError;

/// Keeps the name that is a section of the octets.
///
/// Returns `AllocError` if allocation fails.
pub fn keep_name<K: Keep>(
    keep: K,
    octets: &[u8],
    section: Section<'_>,
) -> Result<NameOctets, AllocError>
    requires held { K.holds keep octets.now }
    requires stands { IsSectionOf octets.now section.octets.now section.following }
    requires named { IsName section.octets.now }
    ensures { IfOk result (λ n. n ≡ section.entry.octets.now) }
{
    let kept = section.kept(keep, octets)?;
    Ok(NameView::new(section.octets).kept(kept))
}

/// Keeps the key, whose bits are the last octets of it.
///
/// Returns `AllocError` if allocation fails.
pub fn keep_key<K: Keep>(keep: K, octets: &[u8], keyed: &Keyed<'_>) -> Result<PublicKey, AllocError>
    requires held { K.holds keep octets.now }
    requires stands { IsSectionOf octets.now keyed.now.key.bits.octets keyed.now.octets.following }
    ensures { IfOk result (λ k. k ≡ keyed.now.key) }
{
    let bits = Section {
        octets: keyed.key.bits(),
        following: keyed.octets.following,
    };
    let kept = bits.kept(keep, octets)?;
    Ok(keyed.key.kept(kept))
}

/// Keeps the extensions of a table, in order.
///
/// The error is `OutOfMemory`, if allocation fails.
pub fn keep_extensions<K: Keep>(
    keep: K,
    table: &ExtensionTable<'_>,
) -> Result<Vec<ExtensionOctets>, DecodeError>
    requires held { K.holds keep table.now }
    requires listed { (xs : List ExtensionParts) × SpellsEach SpellsExtension xs table.now }
    ensures ok { IfOk result (λ all. OfListed table.now (λ xs. all.items ≡ xs)) }
    ensures err { IfErr result (λ e. e ≡ DecodeError.OutOfMemory) }
{
    let mut list = Constructed::from_slice(table.octets());
    take_each(keep, &mut list)
}
