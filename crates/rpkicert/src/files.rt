//! What is seen of a file: of all of it, or of each of the certificates in it.

ghost use Rattle.std.specs.Prelude.{◌≡◌, map, string_bytes, IfOk, OnOk};
ghost use Rattle.rpkicert.specs.Pem.{bundle_in};
ghost use Rattle.rpkicert.specs.Run.{Sees};
ghost use Rattle.rpkicert.specs.Output.{numbered, IsSeenIn, IsSeenEach};
ghost use Rattle.rpkicert.specs.OutputView.{parts_of, seen_of, and_also, IsSeenBy};
ghost use Rattle.rpkicert.specs.RequirementsView.{terms_of};

use crate::locator::seen_locator;
use crate::outcome::{found_in, is_other};
use crate::output::{Output, show};
use crate::pem::bundle_in;
use crate::requirements::Requirements;
use crate::sources::Sources;
use rpki_fields::Form;
use std::alloc::{AllocError, Global};

/// What is shown of the object that an input stands for, or of the locator that it is, whose file has this name.
fn seen_in(
    alloc: Global,
    check: bool,
    form: Form,
    terms: &Requirements<'_>,
    name: &str,
    input: Vec<u8>,
) -> Result<Output, AllocError>
    ensures { IfOk result (λ s. IsSeenIn check form (terms_of terms.now) name.now input.items (parts_of s)) }
{
    if is_other(input.as_slice()) {
        return seen_locator(alloc, check, form, terms, name, input.as_slice());
    }
    let found = found_in(alloc, terms, input);
    show(alloc, check, form, terms, name, found)
}

/// The name of a file, followed by a number in parentheses.
fn numbered(alloc: Global, name: &str, number: usize) -> Result<String, AllocError>
    ensures { IfOk result (λ text. string_bytes text ≡ numbered name.now number) }
{
    format!(in alloc; "{name} ({number})")
}

/// Adds what is shown of one more.
fn add(all: &mut Output, one: &Output) -> Result<(), AllocError>
    ensures { OnOk result (parts_of all.new ≡ and_also (parts_of all.old) (parts_of one.now)) }
{
    all.output.extend_from_slice(one.output.as_slice())?;
    all.faults.extend_from_slice(one.faults.as_slice())?;
    all.status = all.status.max(one.status);
    Ok(())
}

/// What is shown of each of the certificates in a file, whose texts these are: as if it were a file of its own, with
/// its number after the name.
fn seen_each(
    alloc: Global,
    check: bool,
    form: Form,
    terms: &Requirements<'_>,
    name: &str,
    texts: &[&[u8]],
) -> Result<Output, AllocError>
    ensures { IfOk result (λ s. IsSeenEach check form (terms_of terms.now) name.now (map (λ t. t.now) texts.now)
        (parts_of s)) }
{
    let mut all = Output {
        output: Vec::new(alloc),
        faults: Vec::new(alloc),
        status: 0,
    };
    for at in 0..texts.len() {
        let own = numbered(alloc, name, at + 1)?;
        let input = Vec::from_slice(alloc, texts[at])?;
        let one = seen_in(alloc, check, form, terms, own.as_str(), input)?;
        add(&mut all, &one)?;
    }
    Ok(all)
}

/// What is shown of what was read from the file of this name.
fn seen_input(
    alloc: Global,
    check: bool,
    form: Form,
    terms: &Requirements<'_>,
    name: &str,
    input: Vec<u8>,
) -> Result<Output, AllocError>
    ensures { IfOk result (λ s. IsSeenBy check form (terms_of terms.now) name.now input.items (bundle_in input.items)
        (parts_of s)) }
{
    if let Some(texts) = bundle_in(alloc, input.as_slice())? {
        return seen_each(alloc, check, form, terms, name, texts.as_slice());
    }
    seen_in(alloc, check, form, terms, name, input)
}

/// What is shown of the file of this name, whose objects are checked against these terms: of all of it; of each of the
/// certificates in it, where it is a text with several; or why it can't be read.
///
/// Returns `AllocError` if allocation fails.
pub fn seen<S: Sources>(
    alloc: Global,
    check: bool,
    form: Form,
    terms: &Requirements<'_>,
    sources: &S,
    name: &str,
) -> Result<Output, AllocError>
    ensures { Sees (S.holds sources.now) check form (terms_of terms.now) name.now (seen_of result) }
{
    match sources.read(alloc, name) {
        Ok(input) => seen_input(alloc, check, form, terms, name, input),
        Err(fault) => show(alloc, check, form, terms, name, Err(fault)),
    }
}
