//! Where an authority publishes, as a request says it (RFC 6487 4.8.8.1, 6.3, RFC 8182 3.2).

ghost use Rattle.std.specs.Prelude.{◌≡◌, ◌∷◌, ◌+◌, ◌↔◌, [], IfOk, IsTrue};
ghost use Rattle.std.specs.Option.{option_copied};
ghost use Rattle.rpki_der.specs.Prelude.{left, Takes, TakesAll, TakesWhole};
ghost use Rattle.rpki_cert.specs.Access.{first_rsync, first_https, named};
ghost use Rattle.rpki_cert.specs.AccessDescription.{description_of, description};
ghost use Rattle.rpki_request.specs.Request.{StandsIn, view_parts, descriptions_in, each_description, access};
ghost use Rattle.rpki_request.specs.Request.{IsRepository, SpellsRepository, one_more};

use rpki::der::{ConstOid, Constructed, DecodeError};
use rpki::oid;
use rpki::uri::{HttpsView, RsyncView};
use rpki_cert::AccessDescription;
use std::alloc::{AllocError, Global};

/// Where an authority publishes: texts of URIs.
#[derive(Clone, Copy)]
pub struct RepositoryView<'a> {
    /// The folder of its objects.
    pub base: &'a [u8],
    /// Its manifest.
    pub manifest: &'a [u8],
    /// Where changes of the repository are told.
    pub notification: Option<&'a [u8]>,
}

/// The access descriptions that these contents are, in sequence.
fn take_each_description<'a>(
    alloc: Global,
    contents: &mut Constructed<'a>,
) -> Result<Vec<AccessDescription<'a>>, DecodeError>
    ensures { TakesAll (λ v. descriptions_in v.items) each_description (left contents.old) (left contents.new) result }
{
    contents.take_each(
        alloc,
        |rest|
            ensures { Takes description_of description (left rest.old) (left rest.new) result }
        { AccessDescription::take_from(rest) },
    )
}

/// A SEQUENCE of access descriptions.
fn take_access<'a>(
    alloc: Global,
    cons: &mut Constructed<'a>,
) -> Result<Vec<AccessDescription<'a>>, DecodeError>
    ensures { Takes (λ v. descriptions_in v.items) access (left cons.old) (left cons.new) result }
{
    cons.in_sequence(
        |contents|
            ensures { TakesAll (λ v. descriptions_in v.items) each_description (left contents.old) (left contents.new)
                result }
        { take_each_description(alloc, contents) },
    )
}

/// The access descriptions that these octets are, and nothing else.
fn read_access<'a>(
    alloc: Global,
    octets: &'a [u8],
) -> Result<Vec<AccessDescription<'a>>, DecodeError>
    ensures { TakesWhole (λ v. descriptions_in v.items) access octets.entry.now result }
{
    Constructed::from_slice(octets).whole(
        |cons|
            ensures { Takes (λ v. descriptions_in v.items) access (left cons.old) (left cons.new) result }
        { take_access(alloc, cons) },
    )
}

/// Whether allocation failed.
fn is_memory(error: DecodeError) -> bool
    ensures { IsTrue result ↔ (error ≡ DecodeError.OutOfMemory) }
{
    match error {
        DecodeError::OutOfMemory => true,
        _ => false,
    }
}

/// The text of a description of this method, if it is an rsync URI.
fn rsync_at<'a>(description: &AccessDescription<'a>, method: ConstOid) -> Option<&'a [u8]>
    ensures { option_copied result ≡ first_rsync (named method.entry.0.now (description_of description.now ∷ [])) }
{
    if description.method != method {
        return None;
    }
    match description.location {
        Some(text) => match RsyncView::from_slice(text) {
            Ok(_) => Some(text),
            Err(_) => None,
        },
        None => None,
    }
}

/// The text of a description of this method, if it is an https URI.
fn https_at<'a>(description: &AccessDescription<'a>, method: ConstOid) -> Option<&'a [u8]>
    ensures { option_copied result ≡ first_https (named method.entry.0.now (description_of description.now ∷ [])) }
{
    if description.method != method {
        return None;
    }
    match description.location {
        Some(text) => match HttpsView::from_slice(text) {
            Ok(_) => Some(text),
            Err(_) => None,
        },
        None => None,
    }
}

/// The first rsync URI of this method.
fn rsync_of<'a>(all: &[AccessDescription<'a>], method: ConstOid) -> Option<&'a [u8]>
    ensures { option_copied result ≡ first_rsync (named method.entry.0.now (descriptions_in all.now)) }
{
    'descriptions: for description in all {
        let found = rsync_at(description, method);
        if found.is_some() {
            return found;
        }
    }
    None
}

/// The first https URI of this method.
fn https_of<'a>(all: &[AccessDescription<'a>], method: ConstOid) -> Option<&'a [u8]>
    ensures { option_copied result ≡ first_https (named method.entry.0.now (descriptions_in all.now)) }
{
    'descriptions: for description in all {
        let found = https_at(description, method);
        if found.is_some() {
            return found;
        }
    }
    None
}

/// Whether there are as many descriptions: two, and one more with a notification.
fn is_count(count: usize, notification: Option<&[u8]>) -> bool
    ensures { IsTrue result ↔ (count ≡ 2 + one_more (option_copied notification.entry)) }
{
    match notification {
        Some(_) => count == 3,
        None => count == 2,
    }
}

/// Where the authority publishes, as these descriptions say and no other does.
fn repository_of<'a>(all: &[AccessDescription<'a>]) -> Option<RepositoryView<'a>>
    ensures { StandsIn view_parts IsRepository (descriptions_in all.now) result }
{
    let Some(base) = rsync_of(all, oid::AD_CA_REPOSITORY) else {
        return None;
    };
    let Some(manifest) = rsync_of(all, oid::AD_RPKI_MANIFEST) else {
        return None;
    };
    let notification = https_of(all, oid::AD_RPKI_NOTIFY);
    if !is_count(all.len(), notification) {
        return None;
    }
    Some(RepositoryView {
        base,
        manifest,
        notification,
    })
}

/// Where the authority publishes, as the octets of a subject information access say; `None` where they say something
/// else.
///
/// Returns `AllocError` if allocation fails.
pub(crate) fn read_repository(
    alloc: Global,
    octets: &[u8],
) -> Result<Option<RepositoryView<'_>>, AllocError>
    ensures { IfOk result (λ o. StandsIn view_parts SpellsRepository octets.now o) }
{
    match read_access(alloc, octets) {
        Ok(all) => Ok(repository_of(&all)),
        Err(e) => {
            if is_memory(e) {
                return Err(AllocError);
            }
            Ok(None)
        }
    }
}
