//! What is shown of the rules that a certificate breaks.

ghost use Rattle.std.specs.Prelude.{◌≡◌, IfOk, map};
ghost use Rattle.std.specs.List.{flat_map};
ghost use Rattle.rpki_fields.specs.declared.rendering.Form.TheVariants.{Json};
ghost use Rattle.rpkicert.specs.Output.{rule_item, rule_line, violated};

use crate::fault::Fault;
use crate::output::{push_line, verdict_sheet};
use crate::signature::Signature;
use crate::violation::Violation;
use rpki_fields::{Form, Item, push_field};
use std::alloc::{AllocError, Global};

/// A line for each of the rules.
fn rule_lines(alloc: Global, name: &str, all: &[Violation]) -> Result<Vec<u8>, AllocError>
    ensures { IfOk result (λ text. text.items ≡ flat_map (rule_line name.now) all.now) }
{
    let mut text = Vec::new(alloc);
    'rules: for violation in all {
        let said = Fault::Violated(*violation).text(alloc)?;
        push_line(&mut text, name, said.as_bytes())?;
    }
    Ok(text)
}

/// A rule that is broken, by its section, as an item.
fn rule_item(alloc: Global, violation: Violation) -> Result<Item, AllocError>
    ensures { IfOk result (λ item. item ≡ rule_item violation) }
{
    let said = violation.text(alloc)?;
    let mut fields = Vec::new(alloc);
    push_field(&mut fields, b"Rule", said.as_bytes())?;
    Ok(Item::new(fields))
}

/// An item for each of the rules.
fn rule_items(alloc: Global, all: &[Violation]) -> Result<Vec<Item>, AllocError>
    ensures { IfOk result (λ items. items.items ≡ map rule_item all.now) }
{
    let mut items = Vec::new(alloc);
    'rules: for violation in all {
        let item = rule_item(alloc, *violation)?;
        items.push(item)?;
    }
    Ok(items)
}

/// The verdict on an object whose certificate breaks these rules, as an object of JSON.
fn rule_members(
    alloc: Global,
    name: &str,
    first: Violation,
    all: &[Violation],
) -> Result<Vec<u8>, AllocError>
    ensures { IfOk result (λ text. text.items ≡ violated Json name.now first all.now) }
{
    let said = Fault::Violated(first).text(alloc)?;
    let told = verdict_sheet(alloc, Signature::Unchecked, name, said.as_bytes())?;
    let items = rule_items(alloc, all)?;
    let sheet = told.with_listing(alloc, b"Violations", items, true)?;
    Form::Json.render(alloc, &sheet)
}

/// The verdict on an object whose certificate breaks these rules, of which this is the first: a line for each; in JSON
/// that of the first, and after it each of them.
///
/// Returns `AllocError` if allocation fails.
pub fn violated(
    alloc: Global,
    form: Form,
    name: &str,
    first: Violation,
    all: &[Violation],
) -> Result<Vec<u8>, AllocError>
    ensures { IfOk result (λ text. text.items ≡ violated form name.now first all.now) }
{
    match form {
        Form::Text => rule_lines(alloc, name, all),
        Form::Json => rule_members(alloc, name, first, all),
    }
}
