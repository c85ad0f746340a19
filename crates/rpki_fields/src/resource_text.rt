//! What is shown of resources: addresses of both families, and AS numbers (RFC 6487 4.8.10, 4.8.11).

ghost use Rattle.std.specs.Prelude.{◌≡◌, codes, IfOk};
ghost use Rattle.std.specs.Option.{option_map};
ghost use Rattle.rpki_fields.specs.ResourceText.{IsListText, IsChoiceText, AreKind, AreFamilies, AreAsNumbers};
ghost use Rattle.rpki_fields.specs.ResourceText.{other_addresses, other_numbers};
ghost use Rattle.rpki_fields.specs.ResourceText.{AreAddresses, AreNumbers, AreResources};

use crate::field::{Field, other_text, push_field, push_field_if};
use rpki_cert::TbsCert;
use rpki_resources::{Blocks, BlocksView, ChoiceView, IpResourcesView};
use std::alloc::{AllocError, Global};

/// The blocks of a list, in order.
fn list_text(alloc: Global, list: &BlocksView<'_>) -> Result<Vec<u8>, AllocError>
    ensures { IfOk result (λ text. IsListText list.now text.items) }
{
    let blocks = Blocks::from_view(alloc, list)?;
    match blocks.text(list.kind()) {
        Some(text) => {
            let written = format!(in alloc; "{text}")?;
            Ok(written.into_bytes())
        }
        None => unreachable!(),
    }
}

/// What is shown of resources of one kind.
fn choice_text(alloc: Global, choice: &ChoiceView<'_>) -> Result<Option<Vec<u8>>, AllocError>
    ensures { IfOk result (λ o. IsChoiceText choice.now (option_map (λ v. v.items) o)) }
{
    match choice {
        ChoiceView::Missing => Ok(None),
        ChoiceView::Inherit => {
            let text = Vec::from_slice(alloc, b"inherit")?;
            Ok(Some(text))
        }
        ChoiceView::Blocks(list) => {
            let text = list_text(alloc, list)?;
            Ok(Some(text))
        }
    }
}

/// Resources of one kind under a label.
fn kind(alloc: Global, label: &[u8], choice: &ChoiceView<'_>) -> Result<Vec<Field>, AllocError>
    ensures { IfOk result (λ fields. AreKind label.now choice.now fields.items) }
{
    let text = choice_text(alloc, choice)?;
    let mut fields = Vec::new(alloc);
    push_field_if(&mut fields, label, text)?;
    Ok(fields)
}

/// The addresses of both families.
fn families(alloc: Global, found: &IpResourcesView<'_>) -> Result<Vec<Field>, AllocError>
    ensures { IfOk result (λ fields. AreFamilies (Some found.now) fields.items) }
{
    let mut fields = kind(alloc, b"IPv4", &found.v4)?;
    let mut others = kind(alloc, b"IPv6", &found.v6)?;
    fields.append(&mut others)?;
    Ok(fields)
}

/// That the addresses of both families are not as the profile has them.
fn other_addresses(alloc: Global) -> Result<Vec<Field>, AllocError>
    ensures { IfOk result (λ fields. fields.items ≡ other_addresses) }
{
    let text = other_text(alloc, b"RFC 6487 4.8.10")?;
    let mut fields = Vec::new(alloc);
    push_field(&mut fields, b"IPv4", text.as_slice())?;
    push_field(&mut fields, b"IPv6", text.as_slice())?;
    Ok(fields)
}

/// That the AS numbers are not as the profile has them.
fn other_numbers(alloc: Global) -> Result<Vec<Field>, AllocError>
    ensures { IfOk result (λ fields. fields.items ≡ other_numbers) }
{
    let text = other_text(alloc, b"RFC 6487 4.8.11")?;
    let mut fields = Vec::new(alloc);
    push_field(&mut fields, b"AS", text.as_slice())?;
    Ok(fields)
}

/// What is shown of the addresses.
fn addresses(alloc: Global, tbs: &TbsCert) -> Result<Vec<Field>, AllocError>
    ensures { IfOk result (λ fields. AreAddresses tbs.now.extensions fields.items) }
{
    match tbs.ip_resources() {
        Ok(Some(found)) => families(alloc, &found),
        Ok(None) => Ok(Vec::new(alloc)),
        Err(_) => other_addresses(alloc),
    }
}

/// What is shown of the AS numbers.
fn numbers(alloc: Global, tbs: &TbsCert) -> Result<Vec<Field>, AllocError>
    ensures { IfOk result (λ fields. AreNumbers tbs.now.extensions fields.items) }
{
    match tbs.as_resources() {
        Ok(Some(found)) => kind(alloc, b"AS", &found),
        Ok(None) => Ok(Vec::new(alloc)),
        Err(_) => other_numbers(alloc),
    }
}

/// What is shown of resources.
pub fn resources(alloc: Global, tbs: &TbsCert) -> Result<Vec<Field>, AllocError>
    ensures { IfOk result (λ fields. AreResources tbs.now.extensions fields.items) }
{
    let mut fields = addresses(alloc, tbs)?;
    let mut numbers = numbers(alloc, tbs)?;
    fields.append(&mut numbers)?;
    Ok(fields)
}
