//! What is shown of a route origin attestation.

ghost use Rattle.std.specs.Prelude.{◌≡◌, map, IfOk};
ghost use Rattle.std.specs.Net.Text.{ip_text};
ghost use Rattle.rpki_contents.specs.RouteOrigin.{origins};
ghost use Rattle.rpki_resources.specs.Text.{prefix_text};
ghost use Rattle.rpki_fields.specs.ContentText.{origin_item, IsOriginSheet};

use crate::field::{push_field, push_number};
use crate::sheet::{Item, Sheet};
use crate::signed_text::signed_fields;
use rpki_contents::{RouteOrigin, RouteOriginAttestation};
use rpki_objects::Roa;
use rpki_resources::Prefix;
use std::alloc::{AllocError, Global};

/// A prefix as a text.
///
/// Returns `AllocError` if allocation fails.
pub fn prefix_text(alloc: Global, prefix: Prefix) -> Result<Vec<u8>, AllocError>
    ensures { IfOk result (λ text. text.items ≡ prefix_text (ip_text prefix.addr) prefix.len) }
{
    let text = format!(in alloc; "{prefix}")?;
    Ok(text.into_bytes())
}

/// What is authorized of a prefix, as an item.
fn origin_item(alloc: Global, origin: RouteOrigin) -> Result<Item, AllocError>
    ensures { IfOk result (λ item. item ≡ origin_item origin) }
{
    let prefix = prefix_text(alloc, origin.address.prefix)?;
    let mut fields = Vec::new(alloc);
    push_field(&mut fields, b"Prefix", prefix.as_slice())?;
    push_number(&mut fields, b"ASID", u64::from(origin.as_id))?;
    push_number(&mut fields, b"MaxLen", u64::from(origin.address.max_length))?;
    Ok(Item::new(fields))
}

/// What is authorized, prefix by prefix, as items.
fn origin_items(alloc: Global, content: &RouteOriginAttestation) -> Result<Vec<Item>, AllocError>
    ensures { IfOk result (λ items. items.items ≡ map origin_item (origins content.now)) }
{
    let mut rest = content.origins();
    let mut items = Vec::new(alloc);
    'origins: while let Some(origin) = rest.next_origin() {
        let item = origin_item(alloc, origin)?;
        items.push(item)?;
    }
    Ok(items)
}

/// The sheet of a route origin attestation.
///
/// Returns `AllocError` if allocation fails.
pub fn origin_sheet(alloc: Global, origins: &Roa) -> Result<Sheet, AllocError>
    ensures { IfOk result (λ s. IsOriginSheet origins.now s) }
{
    let content = origins.content();
    let mut fields = signed_fields(
        alloc,
        b"roa",
        b"Valid Since",
        b"Valid Until",
        origins.object(),
    )?;
    let items = origin_items(alloc, content)?;
    push_number(&mut fields, b"ASID", u64::from(content.as_id()))?;
    Sheet::of_list(alloc, fields, b"VRPs", items)
}
