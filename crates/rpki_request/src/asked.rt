//! What an authority asks for: the extensions, in the attribute of a request (RFC 6487 6.1.1, 6.3, RFC 2985 5.4.2).

ghost use Rattle.std.specs.Prelude.{◌≡◌, ◌+◌, ◌↔◌, IfOk, IsTrue};
ghost use Rattle.std.specs.Option.{option_copied};
ghost use Rattle.rpki_der.specs.Prelude.{left, Takes, TakesAll};
ghost use Rattle.rpki_request.specs.Request.{StandsIn, view_parts, asked_of, AreAsked, each_extension};
ghost use Rattle.rpki_request.specs.Request.{extension_list, asked, attribute_values, attribute_parts, attribute};
ghost use Rattle.rpki_request.specs.Request.{attributes, one_more};

use crate::access::RepositoryView;
use crate::extensions::{has_constraints, repository_in, usage_in};
use rpki::der::{Class, Constructed, DecodeError, Keep, Tag};
use rpki::oid;
use rpki::repository::x509::ExtensionOctets;
use rpki::uri::{Https, Rsync};
use rpki_cert::KeyUsage;
use rpki_x509::skip_primitive;
use std::alloc::{AllocError, Global};

/// What an authority asks for.
#[derive(Drop)]
pub struct Asked {
    /// The use of its key, where it is asked for.
    pub key_usage: Option<KeyUsage>,
    /// The folder of its objects.
    pub ca_repository: Rsync,
    /// Its manifest.
    pub rpki_manifest: Rsync,
    /// Where changes of the repository are told.
    pub rpki_notify: Option<Https>,
}

/// A copy of the rsync URI that the text is.
///
/// Returns `AllocError` if allocation fails.
fn keep_rsync(alloc: Global, text: &[u8]) -> Result<Rsync, AllocError>
    ensures { IfOk result (λ u. u ≡ text.now) }
{
    match Rsync::from_slice(alloc, text) {
        Ok(uri) => Ok(uri),
        Err(_) => Err(AllocError),
    }
}

/// A copy of the https URI that the text is, where there is one.
///
/// Returns `AllocError` if allocation fails.
fn keep_https(alloc: Global, text: Option<&[u8]>) -> Result<Option<Https>, AllocError>
    ensures { IfOk result (λ o. o ≡ option_copied text.entry) }
{
    match text {
        Some(text) => match Https::from_slice(alloc, text) {
            Ok(uri) => Ok(Some(uri)),
            Err(_) => Err(AllocError),
        },
        None => Ok(None),
    }
}

/// A copy of what an authority asks for.
///
/// Returns `AllocError` if allocation fails.
fn keep_asked(
    alloc: Global,
    key_usage: Option<KeyUsage>,
    view: &RepositoryView<'_>,
) -> Result<Asked, AllocError>
    ensures usage { IfOk result (λ x. (asked_of x).usage ≡ key_usage) }
    ensures repository { IfOk result (λ x. (asked_of x).repository ≡ view_parts view.now) }
{
    let ca_repository = keep_rsync(alloc, view.base)?;
    let rpki_manifest = keep_rsync(alloc, view.manifest)?;
    let rpki_notify = keep_https(alloc, view.notification)?;
    Ok(Asked {
        key_usage,
        ca_repository,
        rpki_manifest,
        rpki_notify,
    })
}

/// Whether there are as many extensions: two, and one more with a key usage.
fn is_count(count: usize, key_usage: Option<KeyUsage>) -> bool
    ensures { IsTrue result ↔ (count ≡ 2 + one_more key_usage) }
{
    match key_usage {
        Some(_) => count == 3,
        None => count == 2,
    }
}

impl Asked {
    /// What these extensions ask for, if they are an authority's.
    ///
    /// Returns `AllocError` if allocation fails.
    fn of(alloc: Global, all: &[ExtensionOctets]) -> Result<Option<Asked>, AllocError>
        ensures { IfOk result (λ o. StandsIn asked_of AreAsked all.now o) }
    {
        if !has_constraints(all) {
            return Ok(None);
        }
        let Some(key_usage) = usage_in(all) else {
            return Ok(None);
        };
        let view = match repository_in(alloc, all) {
            Ok(Some(view)) => view,
            Ok(None) => return Ok(None),
            Err(e) => return Err(e),
        };
        if !is_count(all.len(), key_usage) {
            return Ok(None);
        }
        match keep_asked(alloc, key_usage, &view) {
            Ok(asked) => Ok(Some(asked)),
            Err(e) => Err(e),
        }
    }
}

/// The extensions that these contents are, in sequence.
fn take_each_extension<K: Keep>(
    keep: K,
    contents: &mut Constructed<'_>,
) -> Result<Vec<ExtensionOctets>, DecodeError>
    requires { K.holds keep (left contents.old) }
    ensures { TakesAll (λ v. v.items) each_extension (left contents.old) (left contents.new) result }
{
    contents.take_each_with(
        keep,
        |rest, keep|
            requires { K.holds keep (left rest.old) }
        { ExtensionOctets::take_from(keep, rest) },
    )
}

/// The SEQUENCE of extensions.
fn take_extension_list<K: Keep>(
    keep: K,
    cons: &mut Constructed<'_>,
) -> Result<Vec<ExtensionOctets>, DecodeError>
    requires { K.holds keep (left cons.old) }
    ensures { Takes (λ v. v.items) extension_list (left cons.old) (left cons.new) result }
{
    cons.in_sequence_with(
        keep,
        |contents, keep|
            requires { K.holds keep (left contents.old) }
        { take_each_extension(keep, contents) },
    )
}

/// The SEQUENCE of the extensions that an authority asks for.
fn take_asked<K: Keep>(keep: K, cons: &mut Constructed<'_>) -> Result<Asked, DecodeError>
    requires { K.holds keep (left cons.old) }
    ensures { Takes asked_of asked (left cons.old) (left cons.new) result }
{
    let mut after = *cons;
    let all = take_extension_list(keep, &mut after)?;
    match Asked::of(keep.allocator(), &all) {
        Ok(Some(asked)) => {
            *cons = after;
            Ok(asked)
        }
        Ok(None) => Err(DecodeError::content("extensions that no request of an authority has")),
        Err(_) => Err(DecodeError::OutOfMemory),
    }
}

/// The values of the attribute: a SET of one list of extensions.
fn take_values<K: Keep>(keep: K, cons: &mut Constructed<'_>) -> Result<Asked, DecodeError>
    requires { K.holds keep (left cons.old) }
    ensures { Takes asked_of attribute_values (left cons.old) (left cons.new) result }
{
    cons.in_set_with(
        keep,
        |contents, keep|
            requires { K.holds keep (left contents.old) }
        { take_asked(keep, contents) },
    )
}

/// The attribute of the requested extensions.
fn take_attribute<K: Keep>(keep: K, cons: &mut Constructed<'_>) -> Result<Asked, DecodeError>
    requires { K.holds keep (left cons.old) }
    ensures { Takes (λ x. (tt, asked_of x)) attribute (left cons.old) (left cons.new) result }
{
    cons.in_sequence_with(
        keep,
        |contents, keep|
            requires { K.holds keep (left contents.old) }
            ensures { TakesAll (λ x. (tt, asked_of x)) attribute_parts (left contents.old) (left contents.new)
                result }
        {
            skip_primitive(contents, Tag::OID, oid::EXTENSION_REQUEST.0)?;
            let asked = match take_values(keep, contents) {
                Ok(asked) => asked,
                Err(e) => return Err(e),
            };
            Ok(asked)
        },
    )
}

/// The attributes of a request, of which there is one, under their tag.
pub(crate) fn take_attributes<K: Keep>(
    keep: K,
    cons: &mut Constructed<'_>,
) -> Result<Asked, DecodeError>
    requires { K.holds keep (left cons.old) }
    ensures { Takes (λ x. (tt, asked_of x)) attributes (left cons.old) (left cons.new) result }
{
    cons.in_constructed_with(
        Tag::new(Class::Context, 0),
        keep,
        |contents, keep|
            requires { K.holds keep (left contents.old) }
        { take_attribute(keep, contents) },
    )
}
