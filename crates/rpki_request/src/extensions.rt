//! The extensions that an authority asks for (RFC 6487 6.3).

ghost use Rattle.std.specs.Prelude.{◌≡◌, ◌↔◌, true, false, Some, IsTrue, IfOk};
ghost use Rattle.rpki_der.specs.Prelude.{left, Reads, TakesWholeInPlace};
ghost use Rattle.rpki_cert.specs.declared.extension.key_usage.KeyUsage.TheVariants.{Ca};
ghost use Rattle.rpki_cert.specs.ExtensionContent.{SpellsConstraints, SpellsUsage, constraints_content, usage_content};
ghost use Rattle.rpki_cert.specs.Known.{HasExtension, basic_constraints, subject_info_access};
ghost use Rattle.rpki_request.specs.Request.{StandsIn, view_parts, SpellsRepository, HasUsage};

use crate::access::{RepositoryView, read_repository};
use rpki::der::{Constructed, DecodeError, Tag};
use rpki::oid;
use rpki::repository::x509::ExtensionOctets;
use rpki_cert::{KeyUsage, find_extension};
use rpki_x509::skip_primitive;
use std::alloc::{AllocError, Global};

/// Moves past the basic constraints of an authority: a SEQUENCE of TRUE (RFC 6487 4.8.1).
fn skip_constraints(cons: &mut Constructed<'_>) -> Result<(), DecodeError>
    ensures { Reads (λ _. tt) SpellsConstraints constraints_content.fault (left cons.old) (left cons.new) result }
{
    cons.in_sequence(|contents| skip_primitive(contents, Tag::BOOLEAN, &[0xff]))
}

/// Moves past the octets, if they are the basic constraints of an authority.
fn read_constraints(octets: &[u8]) -> Result<(), DecodeError>
    ensures { TakesWholeInPlace (λ _. tt) constraints_content octets.now result }
{
    Constructed::from_slice(octets).whole(|cons| skip_constraints(cons))
}

/// Whether the octets are the basic constraints of an authority.
fn are_constraints(octets: &[u8]) -> bool
    ensures { IsTrue result ↔ SpellsConstraints tt octets.now }
{
    match read_constraints(octets) {
        Ok(()) => true,
        Err(_) => false,
    }
}

/// The key usage that the octets are.
fn read_usage(octets: &[u8]) -> Result<KeyUsage, DecodeError>
    ensures { TakesWholeInPlace (λ u. u) usage_content octets.now result }
{
    Constructed::from_slice(octets).whole(|cons| KeyUsage::take_from(cons))
}

/// Whether the use is that of an authority.
fn is_authoritys(usage: KeyUsage) -> bool
    ensures { IsTrue result ↔ (usage ≡ Ca) }
{
    match usage {
        KeyUsage::Ca => true,
        KeyUsage::Ee => false,
    }
}

/// Whether the octets are the key usage of an authority.
fn is_usage(octets: &[u8]) -> bool
    ensures { IsTrue result ↔ SpellsUsage Ca octets.now }
{
    match read_usage(octets) {
        Ok(usage) => is_authoritys(usage),
        Err(_) => false,
    }
}

/// Whether the basic constraints of an authority are there, and critical.
pub(crate) fn has_constraints(all: &[ExtensionOctets]) -> bool
    ensures { IsTrue result ↔ HasExtension basic_constraints true SpellsConstraints all.now (Some tt) }
{
    match find_extension(all, oid::CE_BASIC_CONSTRAINTS) {
        Some(extension) => extension.critical() && are_constraints(extension.octets()),
        None => false,
    }
}

/// The use of the key, where it is asked for: critical, and that of an authority. `None` where another is.
pub(crate) fn usage_in(all: &[ExtensionOctets]) -> Option<Option<KeyUsage>>
    ensures { StandsIn (λ u. u) HasUsage all.now result }
{
    match find_extension(all, oid::CE_KEY_USAGE) {
        Some(extension) => {
            if extension.critical() && is_usage(extension.octets()) {
                return Some(Some(KeyUsage::Ca));
            }
            None
        }
        None => Some(None),
    }
}

/// Where the authority publishes: as the subject information access says, which is not critical.
///
/// Returns `AllocError` if allocation fails.
pub(crate) fn repository_in(
    alloc: Global,
    all: &[ExtensionOctets],
) -> Result<Option<RepositoryView<'_>>, AllocError>
    ensures { IfOk result (λ o. StandsIn view_parts (λ v xs. HasExtension subject_info_access false SpellsRepository xs
        (Some v)) all.now o) }
{
    match find_extension(all, oid::PE_SUBJECT_INFO_ACCESS) {
        Some(extension) => {
            if extension.critical() {
                return Ok(None);
            }
            read_repository(alloc, extension.octets())
        }
        None => Ok(None),
    }
}
