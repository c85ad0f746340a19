//! Manifests below an authority of a path.

ghost use Rattle.std.specs.Prelude.{◌≡◌, ◌↔◌, List, IsTrue, length};
ghost use Rattle.rpki_der.specs.Prelude.{optional_of};
ghost use Rattle.rpki_contents.specs.FilesInPlace.{HoldFiles};
ghost use Rattle.rpki_contents.specs.ListedFile.{ListedFile};
ghost use Rattle.rpki_contents.specs.ManifestView.{file_in};
ghost use Rattle.rpki_c.specs.AuthorityManifest.{is_list, list_file, TestsManifest, TestsManifestBelow};
ghost use Rattle.rpki_c.specs.AuthorityObject.{IsManifestTold};

use crate::authority::Authority;
use crate::authority_objects::signed_below;
use crate::content_type::rpki_content_type;
use crate::coverage::are_inherited;
use crate::list_name::names_file;
use crate::manifest::manifest_part_number;
use crate::periods::told_of;
use crate::signed_object::object_part_number;
use crate::span::Span;
use crate::status::{CONTENT, NOT_INHERITED, OTHER_LIST, OTHER_TYPE, SAME_NAMES, TOO_SMALL};
use crate::time_writing::time_of;
use rpki_contents::{FileView, FilesView, ManifestView};
use rpki_objects::SignedObjectView;
use rpki_time::Validity;

/// Whether the file is a revocation list by its name (RFC 6481 2.2).
fn is_list(file: &FileView<'_>) -> bool
    ensures { result ≡ is_list (file_in file.now) }
{
    file.name.ends_with(b".crl")
}

/// Whether the file has this digest.
fn has_hash(file: &FileView<'_>, digest: &[u8; 32]) -> bool
    ensures { IsTrue result ↔ (file.now.hash ≡ digest.now) }
{
    file.hash.into_array() == *digest
}

/// The one file that is a revocation list by its name; None where there is none, or more than one.
fn list_file<'a>(files: &FilesView<'a>) -> Option<FileView<'a>>
    ensures { (xs : List ListedFile) → HoldFiles files.now xs → optional_of file_in result ≡ list_file xs }
{
    let mut cursor = files.files();
    let mut found = None;
    'files: while let Some(file) = cursor.next_file() {
        if is_list(&file) {
            if found.is_some() {
                return None;
            }
            found = Some(file);
        }
    }
    found
}

/// What a manifest lists.
#[derive(Clone, Copy)]
struct Held<'a> {
    /// The octets of its files.
    files: Span<'a>,
    /// The name of its revocation list.
    list: &'a [u8],
}

/// Tests that the octets are a manifest, that no two of its files have the same name, that its revocation list is the
/// authority's, and that it holds at the moment of the path; hands out what it lists. The room is written over.
///
/// The error is, in this order: as of `rpki_manifest`; `TOO_SMALL`, where the room has fewer places than there are
/// files; `SAME_NAMES`; `OTHER_LIST`; `CONTENT`, where the years 0 to 9999 have no such time as the moment; `TOO_NEW`;
/// `TOO_OLD`.
fn manifest_held<'a>(
    by: &Authority<'_>,
    octets: &'a [u8],
    room: &mut [&'a [u8]],
) -> Result<Held<'a>, u8>
    ensures { TestsManifest by.now (length room.old) octets.now result }
{
    let found = match ManifestView::read(octets) {
        Ok(found) => found,
        Err(wrong) => return Err(manifest_part_number(wrong.part)),
    };
    if room.len() < found.files.count() {
        return Err(TOO_SMALL);
    }
    if !found.files.names_differ(room) {
        return Err(SAME_NAMES);
    }
    let Some(list) = list_file(&found.files) else {
        return Err(OTHER_LIST);
    };
    if !has_hash(&list, &by.list_digest) {
        return Err(OTHER_LIST);
    }
    let Some(time) = time_of(&by.moment) else {
        return Err(CONTENT);
    };
    let period = Validity::new(found.this_update, found.next_update);
    let told = told_of(period, time);
    if told != 0 {
        return Err(told);
    }
    Ok(Held {
        files: Span::of(found.files.octets()),
        list: list.name,
    })
}

/// Tests what [rpki_authority_manifest] does; the error is its status.
fn manifest_below<'a>(
    by: &Authority<'_>,
    octets: &'a [u8],
    strict: bool,
    room: &mut [&'a [u8]],
) -> Result<Span<'a>, u8>
    ensures { TestsManifestBelow strict by.now (length room.old) octets.now result }
{
    let found = match SignedObjectView::read(octets, strict) {
        Ok(found) => found,
        Err(wrong) => return Err(object_part_number(wrong.part)),
    };
    if rpki_content_type(found.content.content_type.octets) != 2 {
        return Err(OTHER_TYPE);
    }
    match signed_below(by, &found) {
        Ok(_) => {}
        Err(status) => return Err(status),
    }
    if !are_inherited(&found.cert.parts.tbs.named.keyed) {
        return Err(NOT_INHERITED);
    }
    let held = match manifest_held(by, found.content.content.octets, room) {
        Ok(held) => held,
        Err(status) => return Err(status),
    };
    match names_file(by, &found.cert.parts, held.list) {
        Ok(()) => Ok(held.files),
        Err(status) => Err(status),
    }
}

/// Makes an authority with its manifest: reads a signed object, and tests that it is a manifest that is valid below the
/// authority (RFC 9286 6.2, 6.3): whether its content is one, which the key of its certificate has signed (RFC 6488 3);
/// the certificate is that of an end entity, as `rpki_authority_end` asks; all resources that it names are its issuer's
/// (RFC 9286 5.1); no two of the files have the same name (RFC 9286 4.2.1); one is a revocation list by its name, and
/// has the digest of the authority's (RFC 6481 2.2); the moment of the path is not before this update nor after the
/// next (RFC 9286 6.3); and the certificate's CRL distribution point is that list, by its name where the authority
/// publishes (RFC 6487 4.8.6). Whether the other files are as it says is not looked at. The room is written over; n
/// files take n log n steps. If `strict`, as of `rpki_signed_object`.
///
/// The status is 0. Else it is, in this order: as of `rpki_signed_object`; `OTHER_TYPE`, where the content is of
/// another type, or not of the one that is signed; `OTHER_DIGEST`; as of `rpki_authority_end`; `OTHER_SIGNER`;
/// `KEY_NOT_ACCEPTED` or `BAD_SIGNATURE`, as of `rpki_verify`; `NOT_INHERITED`; as of `rpki_manifest`; `TOO_SMALL`,
/// where the room has fewer places than there are files; `SAME_NAMES`; `OTHER_LIST`; `CONTENT`, where the moment is
/// none; `TOO_NEW`; `TOO_OLD`; `OTHER_LIST_URI`. Then `out` is unchanged. Nothing is allocated.
#[unsafe(no_mangle)]
pub extern "C" fn rpki_authority_manifest<'a>(
    by: &Authority<'a>,
    octets: &'a [u8],
    strict: bool,
    room: &mut [&'a [u8]],
    out: &mut Authority<'a>,
) -> u8
    ensures { IsManifestTold strict by.now (length room.old) octets.now result out.old out.new }
{
    match manifest_below(by, octets, strict, room) {
        Ok(files) => {
            *out = Authority {
                files,
                has_manifest: true,
                ..*by
            };
            0
        }
        Err(status) => status,
    }
}
