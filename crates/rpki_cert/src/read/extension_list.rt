//! The list of extensions, read in place (RFC 5280 4.1.2.9, 4.2).

ghost use Rattle.std.specs.Prelude.{◌≡◌, IfOk, IfErr, is_some};
ghost use Rattle.rpki_der.specs.Cursor.{left};
ghost use Rattle.rpki_cert.specs.Cert.{find, is_there, are_unique};
ghost use Rattle.rpki_cert.specs.ExtensionTable.{OfListed};
ghost use Rattle.rpki_cert.specs.View.{HasCount, IsApart, AreListedAt, IsListWrong, AreExtensionsWrong};
ghost use Rattle.rpki_cert.specs.View.{AreExtensionsAt};

use crate::extension::table::{ExtensionTable, pass};
use crate::read::cert_error::CertError;
use crate::read::cert_part::CertPart;
use rpki::der::{Class, Constructed, DecodeError, Oid, Tag};
use rpki::repository::x509::ExtensionView;
use rpki_x509::inside;
use std::alloc::Global;
use std::collections::BTreeSet;

/// How many extensions are compared with one another at most, each with each.
pub const MOST_EXTENSIONS: usize = 64;

/// Whether one of the extensions has this identifier.
fn has_identifier(list: Constructed<'_>, id: Oid<&[u8]>) -> bool
    ensures { OfListed (left list.entry) (λ xs. result ≡ is_there (find id.entry.0.now xs)) }
{
    let mut rest = list;
    'extensions: while !rest.is_empty() {
        match ExtensionView::take_from(&mut rest) {
            Ok(extension) => {
                if extension.id() == id {
                    return true;
                }
            }
            Err(_) => return false,
        }
    }
    false
}

/// Whether no two extensions have the same identifier, each compared with those after it.
fn are_unique(list: Constructed<'_>) -> bool
    ensures { OfListed (left list.entry) (λ xs. result ≡ are_unique xs) }
{
    let mut rest = list;
    'extensions: while !rest.is_empty() {
        match ExtensionView::take_from(&mut rest) {
            Ok(extension) => {
                if has_identifier(rest, extension.id()) {
                    return false;
                }
            }
            Err(_) => return false,
        }
    }
    true
}

/// Whether no two extensions have the same identifier, in time for n extensions of order n log n.
///
/// The error is `OutOfMemory`, if allocation fails: a set keeps the identifiers of those that were seen.
fn are_kept_unique(alloc: Global, list: Constructed<'_>) -> Result<bool, DecodeError>
    ensures answer { IfOk result (λ unique. OfListed (left list.entry) (λ xs. unique ≡ are_unique xs)) }
    ensures refused { IfErr result (λ e. e ≡ DecodeError.OutOfMemory) }
{
    let mut seen = BTreeSet::new(alloc);
    let mut rest = list;
    'extensions: while !rest.is_empty() {
        match ExtensionView::take_from(&mut rest) {
            Ok(extension) => {
                let Oid(identifier) = extension.id();
                if !seen.insert(identifier)? {
                    return Ok(false);
                }
            }
            Err(_) => return Ok(false),
        }
    }
    Ok(true)
}

/// Whether no two of so many extensions have the same identifier. More than are compared with one another are told
/// apart by a set, where there is an allocator.
fn are_apart(room: Option<Global>, count: usize, list: Constructed<'_>) -> Result<bool, CertError>
    requires { HasCount (left list) count }
    ensures ok { IfOk result (λ unique. IsApart (is_some room) (left list.entry) count unique) }
    ensures err { IfErr result (λ q. IsListWrong (is_some room) (left list.entry) q) }
{
    if count <= MOST_EXTENSIONS {
        return Ok(are_unique(list));
    }
    match room {
        Some(alloc) => match are_kept_unique(alloc, list) {
            Ok(unique) => Ok(unique),
            Err(e) => Err(CertError {
                part: CertPart::Extensions,
                error: e,
            }),
        },
        None => Err(CertError {
            part: CertPart::ExtensionCount,
            error: DecodeError::content("too many extensions"),
        }),
    }
}

/// The extensions that these contents are: one at least, and each identifier once.
fn read_list<'a>(
    room: Option<Global>,
    list: Constructed<'a>,
) -> Result<ExtensionTable<'a>, CertError>
    ensures ok { IfOk result (λ t. AreListedAt (left list.entry) t) }
    ensures err { IfErr result (λ q. IsListWrong (is_some room) (left list.entry) q) }
{
    let passed = match pass(list) {
        Ok(passed) => passed,
        Err(e) => return Err(CertError {
            part: CertPart::Extensions,
            error: e,
        }),
    };
    if !passed.apart && !are_apart(room, passed.count, list)? {
        return Err(CertError {
            part: CertPart::ExtensionIdentifiers,
            error: DecodeError::content("duplicate extension"),
        });
    }
    Ok(passed.table)
}

/// The extensions that all of this is, each identifier once (RFC 5280 4.2). Where there is no allocator, at most 64 are
/// compared with one another.
///
/// The malformed part is the list or one of the extensions; else their count, where nothing is allocated; else that
/// each identifier occurs once. Allocation may fail for more than 64, and then the list is named.
pub fn read_extensions<'a>(
    room: Option<Global>,
    fields: Constructed<'a>,
) -> Result<ExtensionTable<'a>, CertError>
    ensures ok { IfOk result (λ t. AreExtensionsAt (left fields.entry) t) }
    ensures err { IfErr result (λ q. AreExtensionsWrong (is_some room) (left fields.entry) q) }
{
    let outer = match inside(fields, Tag::new(Class::Context, 3)) {
        Ok(outer) => outer,
        Err(e) => return Err(CertError {
            part: CertPart::Extensions,
            error: e,
        }),
    };
    let list = match inside(outer, Tag::SEQUENCE) {
        Ok(list) => list,
        Err(e) => return Err(CertError {
            part: CertPart::Extensions,
            error: e,
        }),
    };
    read_list(room, list)
}
