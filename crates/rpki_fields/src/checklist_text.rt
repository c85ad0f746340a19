//! What is shown of a signed checklist.

ghost use Rattle.std.specs.Prelude.{◌≡◌, ◌++◌, ◌∷◌, [], IfOk, OnOk, Ok, map};
ghost use Rattle.rpki_records.specs.Checklist.{file_of, found_checklist};
ghost use Rattle.rpki_records.specs.ChecklistEntries.{entries};
ghost use Rattle.rpki_fields.specs.RecordText.{AreBlockResources, AreChecklistResources, IsChecklistSheet};
ghost use Rattle.rpki_fields.specs.RecordText.{ShowsChecklist, entry_item, entry_name};

use crate::field::{Field, push_field, push_json};
use crate::resource_items::{choice_items, family_items};
use crate::sheet::{Item, Sheet};
use crate::signed_text::signed_fields;
use base64::engine::general_purpose::STANDARD;
use rpki_objects::SignedObject;
use rpki_records::{Checklist, ListedDigest, ResourceBlock};
use std::alloc::{AllocError, Global};

/// Adds the name of a file.
fn push_name(fields: &mut Vec<Field>, file: &ListedDigest<'_>) -> Result<(), AllocError>
    ensures { OnOk result (fields.new.items ≡ fields.old.items ++ entry_name file.now.name ∷ []) }
{
    match &file.name {
        Some(name) => push_field(fields, b"Filename", name.as_str().as_bytes()),
        None => push_json(fields, b"Filename", b"no filename", b"\"\""),
    }
}

/// A file as an item.
fn entry_item(alloc: Global, file: &ListedDigest<'_>) -> Result<Item, AllocError>
    ensures { IfOk result (λ item. item ≡ entry_item (file_of file.now)) }
{
    let digest = STANDARD.encode(alloc, file.digest.as_slice())?;
    let mut fields = Vec::new(alloc);
    push_name(&mut fields, file)?;
    push_field(&mut fields, b"Hash Digest", digest.as_bytes())?;
    Ok(Item::new(fields))
}

/// The files as items, in order.
fn entry_items(alloc: Global, files: &[ListedDigest<'_>]) -> Result<Vec<Item>, AllocError>
    ensures { IfOk result (λ items. items.items ≡ map entry_item (map file_of files.now)) }
{
    let mut items = Vec::new(alloc);
    'files: for file in files {
        let item = entry_item(alloc, file)?;
        items.push(item)?;
    }
    Ok(items)
}

/// All files of a checklist as items, in order.
fn file_items(alloc: Global, found: Checklist<'_>) -> Result<Vec<Item>, AllocError>
    ensures { IfOk result (λ items. items.items ≡ map entry_item (entries found.entry.count found.entry.files.now)) }
{
    let files = found.all_files(alloc)?;
    entry_items(alloc, files.as_slice())
}

/// The resources that were read, block by block.
fn block_items(alloc: Global, block: &ResourceBlock<'_>) -> Result<Vec<Item>, AllocError>
    ensures { IfOk result (λ items. AreBlockResources block.now items.items) }
{
    let mut items = choice_items(alloc, b"ASID Inherit", &block.numbers)?;
    let mut addresses = family_items(alloc, &block.addresses)?;
    items.append(&mut addresses)?;
    Ok(items)
}

/// The resources, block by block; nothing where they are malformed.
fn resource_items(alloc: Global, found: &Checklist<'_>) -> Result<Vec<Item>, AllocError>
    ensures { IfOk result (λ items. AreChecklistResources (found_checklist found.now) items.items) }
{
    match found.resources() {
        Ok(block) => block_items(alloc, &block),
        Err(_) => Ok(Vec::new(alloc)),
    }
}

/// The sheet of a checklist, with these fields of the object.
fn found_sheet(alloc: Global, fields: Vec<Field>, found: Checklist<'_>) -> Result<Sheet, AllocError>
    ensures { IfOk result (λ s. ShowsChecklist fields.items (Ok (found_checklist found.entry)) s) }
{
    let resources = resource_items(alloc, &found)?;
    let files = file_items(alloc, found)?;
    let sheet = Sheet::of_list(alloc, fields, b"Signed With Resources", resources)?;
    sheet.with_listing(alloc, b"FileNamesAndHashes", files, true)
}

/// The sheet of a signed checklist.
///
/// Returns `AllocError` if allocation fails.
pub fn checklist_sheet(alloc: Global, object: &SignedObject) -> Result<Sheet, AllocError>
    ensures { IfOk result (λ s. IsChecklistSheet object.now s) }
{
    let fields = signed_fields(alloc, b"rsc", b"Valid Since", b"Valid Until", object)?;
    match Checklist::read(object.content().as_slice()) {
        Ok(found) => found_sheet(alloc, fields, found),
        Err(_) => Ok(Sheet::plain(fields)),
    }
}
