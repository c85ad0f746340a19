//! What is shown of a manifest.

ghost use Rattle.std.specs.Prelude.{◌≡◌, map, IfOk};
ghost use Rattle.rpki_fields.specs.ContentText.{AreManifestFields, file_item, IsManifestSheet};

use crate::field::{Field, push_field, push_time};
use crate::sheet::{Item, Sheet};
use crate::signed_text::signed_fields;
use crate::value::serial_text;
use base64::engine::general_purpose::STANDARD;
use rpki_contents::{FileAndHash, ManifestContent};
use rpki_objects::Manifest;
use std::alloc::{AllocError, Global};

/// The number, and the times of this update and of the next.
fn manifest_fields(alloc: Global, content: &ManifestContent) -> Result<Vec<Field>, AllocError>
    ensures { IfOk result (λ fields. AreManifestFields content.now fields.items) }
{
    let number = serial_text(alloc, content.manifest_number())?;
    let mut fields = Vec::new(alloc);
    push_field(&mut fields, b"Manifest Number", number.as_slice())?;
    push_time(&mut fields, b"Valid Since", content.this_update())?;
    push_time(&mut fields, b"Valid Until", content.next_update())?;
    Ok(fields)
}

/// A file as an item.
fn file_item(alloc: Global, file: &FileAndHash) -> Result<Item, AllocError>
    ensures { IfOk result (λ item. item ≡ file_item file.now) }
{
    let hash = file.hash();
    let digest = STANDARD.encode(alloc, hash.as_slice())?;
    let mut fields = Vec::new(alloc);
    push_field(&mut fields, b"Filename", file.file())?;
    push_field(&mut fields, b"Hash", digest.as_bytes())?;
    Ok(Item::new(fields))
}

/// The files as items, in order.
fn file_items(alloc: Global, files: &[FileAndHash]) -> Result<Vec<Item>, AllocError>
    ensures { IfOk result (λ items. items.items ≡ map file_item files.now) }
{
    let mut items = Vec::new(alloc);
    'files: for file in files {
        let item = file_item(alloc, file)?;
        items.push(item)?;
    }
    Ok(items)
}

/// The sheet of a manifest.
///
/// Returns `AllocError` if allocation fails.
pub fn manifest_sheet(alloc: Global, manifest: &Manifest) -> Result<Sheet, AllocError>
    ensures { IfOk result (λ s. IsManifestSheet manifest.now s) }
{
    let mut fields = signed_fields(
        alloc,
        b"manifest",
        b"Cert Valid Since",
        b"Cert Valid Until",
        manifest.object(),
    )?;
    let mut own = manifest_fields(alloc, manifest.content())?;
    let items = file_items(alloc, manifest.content().file_list())?;
    fields.append(&mut own)?;
    Sheet::of_list(alloc, fields, b"FilesAndHashes", items)
}
