//! What is seen of a trust anchor locator.

ghost use Rattle.std.specs.Prelude.{◌≡◌, [], IfOk, map};
ghost use Rattle.rpki_locator.specs.Locator.{uri_text, IsLocator};
ghost use Rattle.rpkicert.specs.Locator.{name_of, asks_cert, no_locator, ReadsLocator};
ghost use Rattle.rpkicert.specs.Output.{shown_parts, locator_shown, IsLocatorSeen};
ghost use Rattle.rpkicert.specs.OutputView.{parts_of};
ghost use Rattle.rpkicert.specs.RequirementsView.{terms_of};

use crate::fault::Fault;
use crate::output::{Output, file_text, hashed, marked, record, show, verdict};
use crate::profile::names_profile;
use crate::requirements::Requirements;
use crate::signature::Signature;
use rpki_fields::{Form, Sheet, locator_sheet};
use rpki_locator::{Locator, LocatorError};
use std::alloc::{AllocError, Global};
use std::path::Path;

/// The verdict on a locator that is well.
const VERDICT: &[u8] = b"OK, certificate not checked";

/// The name of the locator in a file: that of the file, without what follows the last full stop.
fn name_of(file: &str) -> &str
    ensures { result.now ≡ name_of file.now }
{
    match Path::new(file).file_stem() {
        Some(name) => name,
        None => file,
    }
}

/// Whether a certificate is asked for: one that has the profile that was named, or is of the issuer.
fn asks_cert(terms: &Requirements<'_>) -> bool
    ensures { result ≡ asks_cert (terms_of terms.now) }
{
    names_profile(terms.inspection) || terms.issuer.is_some()
}

/// The fault of a reader's error. An allocation failure is a fault of its own, and no error of the text.
fn no_locator(e: LocatorError) -> Fault
    ensures { result ≡ no_locator e }
{
    match e {
        LocatorError::OutOfMemory => Fault::OutOfMemory,
        e => Fault::NoLocator(e),
    }
}

/// The sheet of the locator that the text is, where no certificate is asked for.
///
/// Returns `NoCertificate` if one is; `OutOfMemory` if allocation fails.
fn sheet_of(
    alloc: Global,
    terms: &Requirements<'_>,
    name: &str,
    text: &[u8],
    locator: &Locator,
) -> Result<Sheet, Fault>
    ensures { IsLocator text.now (map uri_text locator.now.uris.items) locator.now.key
        → ReadsLocator (terms_of terms.now) name.now text.now result }
{
    if asks_cert(terms) {
        return Err(Fault::NoCertificate);
    }
    match locator_sheet(alloc, name_of(name).as_bytes(), text, locator) {
        Ok(sheet) => Ok(sheet),
        Err(e) => Err(Fault::from(e)),
    }
}

/// The sheet of the locator that the text is, which is in the file of this name, where no certificate is asked for.
///
/// Returns `NoLocator` if it is none; `NoCertificate` if a certificate is asked for; `OutOfMemory` if allocation fails.
fn read_locator(
    alloc: Global,
    terms: &Requirements<'_>,
    name: &str,
    text: &[u8],
) -> Result<Sheet, Fault>
    ensures { ReadsLocator (terms_of terms.now) name.now text.now result }
{
    match Locator::read(alloc, text) {
        Ok(locator) => sheet_of(alloc, terms, name, text, &locator),
        Err(e) => Err(no_locator(e)),
    }
}

/// The text of a locator of this sheet, or the verdict on it.
fn locator_shown(
    alloc: Global,
    check: bool,
    form: Form,
    name: &str,
    text: &[u8],
    sheet: Sheet,
) -> Result<Vec<u8>, AllocError>
    ensures { IfOk result (λ shown. shown.items ≡ locator_shown check form name.now text.now sheet) }
{
    if check {
        return verdict(alloc, form, Signature::Unchecked, name, VERDICT);
    }
    let file = file_text(alloc, form, name)?;
    let own = marked(alloc, Signature::Unchecked, sheet)?;
    let told = hashed(alloc, text, own)?;
    let all = told.behind(alloc, b"File", file.as_slice())?;
    record(alloc, form, &all)
}

/// What is shown of a locator of this sheet.
fn well(
    alloc: Global,
    check: bool,
    form: Form,
    name: &str,
    text: &[u8],
    sheet: Sheet,
) -> Result<Output, AllocError>
    ensures { IfOk result (λ s. parts_of s
        ≡ shown_parts (locator_shown check form name.now text.now sheet) [] 0) }
{
    let output = locator_shown(alloc, check, form, name, text, sheet)?;
    let faults = Vec::new(alloc);
    Ok(Output {
        output,
        faults,
        status: 0,
    })
}

/// What is shown of the text, which is in the file of this name: it is read as a trust anchor locator (RFC 8630 2.2),
/// which has no certificate of a profile that was named, nor of an issuer.
///
/// Returns `AllocError` if allocation fails.
pub fn seen_locator(
    alloc: Global,
    check: bool,
    form: Form,
    terms: &Requirements<'_>,
    name: &str,
    text: &[u8],
) -> Result<Output, AllocError>
    ensures { IfOk result (λ s.
        IsLocatorSeen check form (terms_of terms.now) name.now text.now (parts_of s)) }
{
    match read_locator(alloc, terms, name, text) {
        Ok(sheet) => well(alloc, check, form, name, text, sheet),
        Err(fault) => show(alloc, check, form, terms, name, Err(fault)),
    }
}
