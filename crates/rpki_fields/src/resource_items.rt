//! What JSON says of resources, block by block, under the names of `rpki-client -j`.

ghost use Rattle.std.specs.Prelude.{◌≡◌, ◌∷◌, [], codes, IfOk, Some};
ghost use Rattle.std.specs.Net.Text.{ip_text};
ghost use Rattle.rpki_resources.specs.Text.{range_text};
ghost use Rattle.rpki_resources.specs.Encoded.{IsBlockOf, AreBlocksOf};
ghost use Rattle.rpki_resources.specs.declared.ip_text.IpBlock.TheVariants.{Range};
ghost use Rattle.rpki_fields.specs.EachIs.{EachIs};
ghost use Rattle.rpki_fields.specs.Field.{field_parts, json_parts};
ghost use Rattle.rpki_fields.specs.ResourceItems.{ends_json, quoted, number_item, address_item, IsBlockItem};
ghost use Rattle.rpki_fields.specs.ResourceItems.{AreBlockItems, AreChoiceItems, AreFamilyItems, AreAddressItems};
ghost use Rattle.rpki_fields.specs.ResourceItems.{AreNumberItems, AreResourceItems};

use crate::field::{push_field, push_json};
use crate::key_size::number_text;
use crate::origin_text::prefix_text;
use crate::sheet::Item;
use rpki_cert::TbsCert;
use rpki_resources::{
    AddressRange, Block, Blocks, BlocksView, ChoiceView, IpBlock, IpResourcesView, ResourceKind,
};
use std::alloc::{AllocError, Global};
use std::net::IpAddr;

/// Two ends of a range, with a hyphen between them.
fn range_text(alloc: Global, low: &[u8], high: &[u8]) -> Result<Vec<u8>, AllocError>
    ensures { IfOk result (λ text. text.items ≡ range_text low.now high.now) }
{
    let mut text = Vec::from_slice(alloc, low)?;
    text.push(b'-')?;
    text.extend_from_slice(high)?;
    Ok(text)
}

/// The same as an object of JSON, each end as JSON has it.
fn ends_json(alloc: Global, low: &[u8], high: &[u8]) -> Result<Vec<u8>, AllocError>
    ensures { IfOk result (λ text. text.items ≡ ends_json low.now high.now) }
{
    let mut text = Vec::from_slice(alloc, b"{\"min\":")?;
    text.extend_from_slice(low)?;
    text.extend_from_slice(b",\"max\":")?;
    text.extend_from_slice(high)?;
    text.extend_from_slice(b"}")?;
    Ok(text)
}

/// An address as a string of JSON.
fn quoted(alloc: Global, text: &[u8]) -> Result<Vec<u8>, AllocError>
    ensures { IfOk result (λ json. json.items ≡ quoted text.now) }
{
    let mut json = Vec::from_slice(alloc, b"\"")?;
    json.extend_from_slice(text)?;
    json.push(b'"')?;
    Ok(json)
}

/// The item of one field, whose value is this text, and this in JSON.
fn json_item(alloc: Global, label: &[u8], value: &[u8], json: &[u8]) -> Result<Item, AllocError>
    ensures { IfOk result (λ item. item ≡ json_parts label.now value.now json.now ∷ []) }
{
    let mut fields = Vec::new(alloc);
    push_json(&mut fields, label, value, json)?;
    Ok(Item::new(fields))
}

/// The item of one field, whose value is this text.
fn text_item(alloc: Global, label: &[u8], value: &[u8]) -> Result<Item, AllocError>
    ensures { IfOk result (λ item. item ≡ field_parts label.now value.now ∷ []) }
{
    let mut fields = Vec::new(alloc);
    push_field(&mut fields, label, value)?;
    Ok(Item::new(fields))
}

/// One AS number, or a range of them.
fn number_item(alloc: Global, block: Block) -> Result<Item, AllocError>
    ensures { IfOk result (λ item. item ≡ number_item block) }
{
    let low = number_text(alloc, block.low)?;
    if block.low == block.high {
        return json_item(alloc, b"ASID", low.as_slice(), low.as_slice());
    }
    let high = number_text(alloc, block.high)?;
    let text = range_text(alloc, low.as_slice(), high.as_slice())?;
    let json = ends_json(alloc, low.as_slice(), high.as_slice())?;
    json_item(alloc, b"ASRange", text.as_slice(), json.as_slice())
}

/// The text of an address.
fn address_text(alloc: Global, address: IpAddr) -> Result<Vec<u8>, AllocError>
    ensures { IfOk result (λ text. text.items ≡ ip_text address) }
{
    let text = format!(in alloc; "{address}")?;
    Ok(text.into_bytes())
}

/// A range of addresses.
fn address_range_item(alloc: Global, range: AddressRange) -> Result<Item, AllocError>
    ensures { IfOk result (λ item. item ≡ address_item (Range range)) }
{
    let low = address_text(alloc, range.min)?;
    let high = address_text(alloc, range.max)?;
    let text = range_text(alloc, low.as_slice(), high.as_slice())?;
    let first = quoted(alloc, low.as_slice())?;
    let last = quoted(alloc, high.as_slice())?;
    let json = ends_json(alloc, first.as_slice(), last.as_slice())?;
    json_item(alloc, b"IP Range", text.as_slice(), json.as_slice())
}

/// A prefix, or a range of addresses.
fn address_item(alloc: Global, block: IpBlock) -> Result<Item, AllocError>
    ensures { IfOk result (λ item. item ≡ address_item block) }
{
    match block {
        IpBlock::Prefix(prefix) => {
            let text = prefix_text(alloc, prefix)?;
            text_item(alloc, b"IP Prefix", text.as_slice())
        }
        IpBlock::Range(range) => address_range_item(alloc, range),
    }
}

/// A block of numbers of this kind.
fn block_item(alloc: Global, kind: ResourceKind, block: Block) -> Result<Item, AllocError>
    requires { IsBlockOf kind block }
    ensures { IfOk result (λ item. IsBlockItem kind block item) }
{
    match kind {
        ResourceKind::Addresses(family) => match IpBlock::of(family, block) {
            Some(found) => address_item(alloc, found),
            None => unreachable!(),
        },
        ResourceKind::AsNumbers => number_item(alloc, block),
    }
}

/// Each of the blocks of numbers of this kind, in order.
fn items_of(alloc: Global, kind: ResourceKind, blocks: &[Block]) -> Result<Vec<Item>, AllocError>
    requires { AreBlocksOf kind blocks.now }
    ensures { IfOk result (λ items. EachIs (IsBlockItem kind) blocks.now items.items) }
{
    let mut items = Vec::new(alloc);
    'each: for block in blocks {
        let item = block_item(alloc, kind, *block)?;
        items.push(item)?;
    }
    Ok(items)
}

/// The blocks of a list, in order.
fn block_items(alloc: Global, list: &BlocksView<'_>) -> Result<Vec<Item>, AllocError>
    ensures { IfOk result (λ items. AreBlockItems list.now items.items) }
{
    let blocks = Blocks::from_view(alloc, list)?;
    items_of(alloc, list.kind(), blocks.as_slice())
}

/// That resources are those of the issuer, under this label.
fn inherited(alloc: Global, label: &[u8]) -> Result<Vec<Item>, AllocError>
    ensures { IfOk result (λ items. items.items ≡ (field_parts label.now (codes "true") ∷ []) ∷ []) }
{
    let item = text_item(alloc, label, b"true")?;
    let mut items = Vec::new(alloc);
    items.push(item)?;
    Ok(items)
}

/// Resources of one kind, with the label of those of the issuer.
pub fn choice_items(
    alloc: Global,
    inherit: &[u8],
    choice: &ChoiceView<'_>,
) -> Result<Vec<Item>, AllocError>
    ensures { IfOk result (λ items. AreChoiceItems inherit.now choice.now items.items) }
{
    match choice {
        ChoiceView::Missing => Ok(Vec::new(alloc)),
        ChoiceView::Inherit => inherited(alloc, inherit),
        ChoiceView::Blocks(list) => block_items(alloc, list),
    }
}

/// The addresses of both families.
pub fn family_items(alloc: Global, found: &IpResourcesView<'_>) -> Result<Vec<Item>, AllocError>
    ensures { IfOk result (λ items. AreFamilyItems (Some found.now) items.items) }
{
    let mut items = choice_items(alloc, b"IP Inherit", &found.v4)?;
    let mut others = choice_items(alloc, b"IP Inherit", &found.v6)?;
    items.append(&mut others)?;
    Ok(items)
}

/// What is said of the addresses.
fn address_items(alloc: Global, tbs: &TbsCert) -> Result<Vec<Item>, AllocError>
    ensures { IfOk result (λ items. AreAddressItems tbs.now.extensions items.items) }
{
    match tbs.ip_resources() {
        Ok(Some(found)) => family_items(alloc, &found),
        Ok(None) => Ok(Vec::new(alloc)),
        Err(_) => Ok(Vec::new(alloc)),
    }
}

/// What is said of the AS numbers.
fn number_items(alloc: Global, tbs: &TbsCert) -> Result<Vec<Item>, AllocError>
    ensures { IfOk result (λ items. AreNumberItems tbs.now.extensions items.items) }
{
    match tbs.as_resources() {
        Ok(Some(found)) => choice_items(alloc, b"ASID Inherit", &found),
        Ok(None) => Ok(Vec::new(alloc)),
        Err(_) => Ok(Vec::new(alloc)),
    }
}

/// The resources, block by block: AS numbers, and then addresses. Of an extension that is not as the profile has it
/// there is nothing.
///
/// Returns `AllocError` if allocation fails.
pub fn resource_items(alloc: Global, tbs: &TbsCert) -> Result<Vec<Item>, AllocError>
    ensures { IfOk result (λ items. AreResourceItems tbs.now.extensions items.items) }
{
    let mut items = number_items(alloc, tbs)?;
    let mut addresses = address_items(alloc, tbs)?;
    items.append(&mut addresses)?;
    Ok(items)
}
