//! What is shown of an attestation of providers.

ghost use Rattle.std.specs.Prelude.{◌≡◌, map, IfOk};
ghost use Rattle.rpki_fields.specs.ContentText.{provider_item, IsProviderSheet};

use crate::field::push_number;
use crate::sheet::{Item, Sheet};
use crate::signed_text::signed_fields;
use rpki_objects::Aspa;
use std::alloc::{AllocError, Global};

/// A provider as an item.
fn provider_item(alloc: Global, number: u32) -> Result<Item, AllocError>
    ensures { IfOk result (λ item. item ≡ provider_item number) }
{
    let mut fields = Vec::new(alloc);
    push_number(&mut fields, b"ASID", u64::from(number))?;
    Ok(Item::new(fields))
}

/// The providers as items, in order.
fn provider_items(alloc: Global, providers: &[u32]) -> Result<Vec<Item>, AllocError>
    ensures { IfOk result (λ items. items.items ≡ map provider_item providers.now) }
{
    let mut items = Vec::new(alloc);
    'providers: for provider in providers {
        let item = provider_item(alloc, *provider)?;
        items.push(item)?;
    }
    Ok(items)
}

/// The sheet of an attestation of providers.
///
/// Returns `AllocError` if allocation fails.
pub fn provider_sheet(alloc: Global, attestation: &Aspa) -> Result<Sheet, AllocError>
    ensures { IfOk result (λ s. IsProviderSheet attestation.now s) }
{
    let content = attestation.content();
    let mut fields = signed_fields(
        alloc,
        b"aspa",
        b"Valid Since",
        b"Valid Until",
        attestation.object(),
    )?;
    let items = provider_items(alloc, content.providers())?;
    push_number(
        &mut fields,
        b"Customer ASID",
        u64::from(content.customer_as()),
    )?;
    Sheet::of_list(alloc, fields, b"Provider Set", items)
}
