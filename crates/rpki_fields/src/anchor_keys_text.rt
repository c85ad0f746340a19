//! What is shown of trust anchor keys.

ghost use Rattle.std.specs.Prelude.{◌≡◌, ◌++◌, ◌∷◌, [], IfOk, OnOk, Ok, codes, map};
ghost use Rattle.rpki_der.specs.Prelude.{optional_of};
ghost use Rattle.rpki_records.specs.AnchorKeys.{found_key, found_tak, given_comment_at, given_uri_at};
ghost use Rattle.rpki_records.specs.Words.{firsts};
ghost use Rattle.rpki_fields.specs.RecordText.{IsAnchorKeysSheet, all_key_items, anchor_keys_sheet, key_item};
ghost use Rattle.rpki_fields.specs.RecordText.{key_items, texts_parts};

use crate::field::{Field, push_field};
use crate::sheet::{Item, Sheet};
use crate::signed_text::signed_fields;
use crate::visible_text::push_texts;
use base64::engine::general_purpose::STANDARD;
use rpki::der::{Ia5String, Utf8String};
use rpki_objects::SignedObject;
use rpki_records::{AnchorKey, TakView};
use std::alloc::{AllocError, Global};

/// The texts of comments.
fn comment_texts<'a>(
    alloc: Global,
    comments: &[Utf8String<'a>],
) -> Result<Vec<&'a [u8]>, AllocError>
    ensures { IfOk result (λ v. map (λ text. text.now) v.items ≡ comments.now) }
{
    let mut all = Vec::new(alloc);
    'comments: for comment in comments {
        all.push(comment.as_str().as_bytes())?;
    }
    Ok(all)
}

/// The texts of URIs.
fn uri_texts<'a>(alloc: Global, uris: &[Ia5String<'a>]) -> Result<Vec<&'a [u8]>, AllocError>
    ensures { IfOk result (λ v. map (λ text. text.now) v.items ≡ uris.now) }
{
    let mut all = Vec::new(alloc);
    'uris: for uri in uris {
        all.push(uri.as_str().as_bytes())?;
    }
    Ok(all)
}

/// Adds the comments of a key.
fn push_comments(fields: &mut Vec<Field>, key: &AnchorKey<'_>) -> Result<(), AllocError>
    ensures { OnOk result (fields.new.items ≡ fields.old.items
        ++ texts_parts (codes "Comments") (firsts given_comment_at key.now.comment_count key.now.comments.now) ∷ []) }
{
    let alloc = *fields.allocator();
    let comments = key.all_comments(alloc)?;
    let texts = comment_texts(alloc, comments.as_slice())?;
    push_texts(fields, b"Comments", texts.as_slice())
}

/// Adds the URIs of a key.
fn push_uris(fields: &mut Vec<Field>, key: &AnchorKey<'_>) -> Result<(), AllocError>
    ensures { OnOk result (fields.new.items ≡ fields.old.items
        ++ texts_parts (codes "URIs") (firsts given_uri_at key.now.uri_count key.now.uris.now) ∷ []) }
{
    let alloc = *fields.allocator();
    let uris = key.all_uris(alloc)?;
    let texts = uri_texts(alloc, uris.as_slice())?;
    push_texts(fields, b"URIs", texts.as_slice())
}

/// A key of this name as an item.
fn key_item(alloc: Global, name: &[u8], key: &AnchorKey<'_>) -> Result<Item, AllocError>
    ensures { IfOk result (λ item. item ≡ key_item name.now (found_key key.now)) }
{
    let digits = STANDARD.encode(alloc, key.key)?;
    let mut fields = Vec::new(alloc);
    push_field(&mut fields, b"Name", name)?;
    push_comments(&mut fields, key)?;
    push_uris(&mut fields, key)?;
    push_field(&mut fields, b"SPKI", digits.as_bytes())?;
    Ok(Item::new(fields))
}

/// Adds a key of this name, where there is one.
fn push_key(
    items: &mut Vec<Item>,
    name: &[u8],
    key: &Option<AnchorKey<'_>>,
) -> Result<(), AllocError>
    ensures { OnOk result (items.new.items ≡ items.old.items ++ key_items name.now (optional_of found_key key.now)) }
{
    match key {
        Some(key) => {
            let item = key_item(*items.allocator(), name, key)?;
            items.push(item)?;
            Ok(())
        }
        None => Ok(()),
    }
}

/// All keys as items.
fn all_key_items(alloc: Global, found: &TakView<'_>) -> Result<Vec<Item>, AllocError>
    ensures { IfOk result (λ items. items.items ≡ all_key_items (found_tak found.now)) }
{
    let current = key_item(alloc, b"current", &found.current)?;
    let mut items = Vec::new(alloc);
    items.push(current)?;
    push_key(&mut items, b"predecessor", &found.predecessor)?;
    push_key(&mut items, b"successor", &found.successor)?;
    Ok(items)
}

/// The sheet of trust anchor keys, with these fields of the object.
fn found_sheet(alloc: Global, fields: Vec<Field>, found: &TakView<'_>) -> Result<Sheet, AllocError>
    ensures { IfOk result (λ s. s ≡ anchor_keys_sheet fields.items (Ok (found_tak found.now))) }
{
    let items = all_key_items(alloc, found)?;
    Sheet::of_list(alloc, fields, b"TAKeys", items)
}

/// The sheet of trust anchor keys.
///
/// Returns `AllocError` if allocation fails.
pub fn anchor_keys_sheet(alloc: Global, object: &SignedObject) -> Result<Sheet, AllocError>
    ensures { IfOk result (λ s. IsAnchorKeysSheet object.now s) }
{
    let fields = signed_fields(alloc, b"tak", b"Valid Since", b"Valid Until", object)?;
    match TakView::read(object.content().as_slice()) {
        Ok(found) => found_sheet(alloc, fields, &found),
        Err(_) => Ok(Sheet::plain(fields)),
    }
}
