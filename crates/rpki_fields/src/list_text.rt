//! What is shown of a revocation list.

ghost use Rattle.std.specs.Prelude.{IfOk};
ghost use Rattle.rpki_crl.specs.Crl.{entry_of, entries_in};
ghost use Rattle.rpki_fields.specs.EachIs.{EachIs};
ghost use Rattle.rpki_fields.specs.ListText.{AreListFields, IsEntryItem, IsListSheet};

use crate::field::{Field, push_field, push_time};
use crate::name::name_text;
use crate::sheet::{Item, Sheet};
use crate::value::{colon_digits, serial_text};
use rpki_crl::{Crl, CrlEntry};
use std::alloc::{AllocError, Global};

/// The fields of a list.
fn list_fields(alloc: Global, list: &Crl) -> Result<Vec<Field>, AllocError>
    ensures { IfOk result (λ fields. AreListFields list.now.list fields.items) }
{
    let issuer = name_text(alloc, list.issuer())?;
    let number = serial_text(alloc, list.crl_number())?;
    let key = list.authority_key_identifier();
    let authority = colon_digits(alloc, key.as_slice())?;
    let mut fields = Vec::new(alloc);
    push_field(&mut fields, b"Type", b"crl")?;
    push_field(&mut fields, b"CRL Issuer", issuer.as_slice())?;
    push_field(&mut fields, b"CRL Serial", number.as_slice())?;
    push_time(&mut fields, b"Valid Since", list.this_update())?;
    push_time(&mut fields, b"Valid Until", list.next_update())?;
    push_field(&mut fields, b"AKI", authority.as_slice())?;
    Ok(fields)
}

/// An entry as an item.
fn entry_item(alloc: Global, entry: CrlEntry) -> Result<Item, AllocError>
    ensures { IfOk result (λ item. IsEntryItem (entry_of entry) item) }
{
    let serial = serial_text(alloc, entry.user_certificate)?;
    let mut fields = Vec::new(alloc);
    push_field(&mut fields, b"Serial", serial.as_slice())?;
    push_time(&mut fields, b"Revocation Date", entry.revocation_date)?;
    Ok(Item::new(fields))
}

/// The entries as items, in order.
fn entry_items(alloc: Global, entries: &[CrlEntry]) -> Result<Vec<Item>, AllocError>
    ensures { IfOk result (λ items. EachIs IsEntryItem (entries_in entries.now) items.items) }
{
    let mut items = Vec::new(alloc);
    'entries: for entry in entries {
        let item = entry_item(alloc, *entry)?;
        items.push(item)?;
    }
    Ok(items)
}

/// The sheet of a revocation list.
///
/// Returns `AllocError` if allocation fails.
pub fn list_sheet(alloc: Global, list: &Crl) -> Result<Sheet, AllocError>
    ensures { IfOk result (λ s. IsListSheet list.now.list s) }
{
    let fields = list_fields(alloc, list)?;
    let items = entry_items(alloc, list.revoked_certs())?;
    Sheet::of_list(alloc, fields, b"Revoked Certs", items)
}
