//! What is shown of a file.

ghost use Rattle.std.specs.Prelude.{◌≡◌, ◌++◌, false, OnOk, IfOk, Ok, Err, Some, string_bytes};
ghost use Rattle.rpki_fields.specs.declared.rendering.Form.TheVariants.{Json};
ghost use Rattle.rpkicert.specs.Output.{name_octet, visible, line, file_text, marked, hash_text, hashed, verdict};
ghost use Rattle.rpkicert.specs.Output.{verdict_sheet, objected, IsTextOf, IsOutput, IsChecked, checked_parts};
ghost use Rattle.rpkicert.specs.Output.{checked_fault, checked_other, fault_line, fault_verdict, status_in};
ghost use Rattle.rpkicert.specs.Output.{record_text, verdict_over, IsCheckedFault};
ghost use Rattle.rpki_fields.specs.Object.{objection_to};
ghost use Rattle.rpkicert.specs.OutcomeView.{found_of, finding_of};
ghost use Rattle.rpkicert.specs.OutputView.{parts_of};
ghost use Rattle.rpkicert.specs.Requirements.{TermParts};
ghost use Rattle.rpkicert.specs.RequirementsView.{terms_of};
ghost use Rattle.rpkicert.specs.Values.{told_text};
ghost use Rattle.rpkicert.specs.ValuesView.{told_of};
ghost use Rattle.rpkicert.specs.declared.fault.Fault.TheVariants.{Violated};

use crate::broken::{telling, violations};
use crate::fault::Fault;
use crate::outcome::Outcome;
use crate::requirements::Requirements;
use crate::signature::{Signature, signature_found, signature_in, signature_of, well_text};
use crate::told::{Told, told_text, values_fields};
use crate::values::{tell, tell_found};
use crate::violation::Violation;
use crate::violation_lines::violated;
use base64::engine::general_purpose::STANDARD;
use rpki_fields::{Field, Form, Object, Sheet, hex_pair};
use sha2::{Digest, Sha256};
use std::alloc::{AllocError, Global};

/// What is shown of a file.
#[derive(Drop)]
pub struct Output {
    /// What goes to the output.
    pub output: Vec<u8>,
    /// What goes to the faults.
    pub faults: Vec<u8>,
    /// The exit status.
    pub status: u8,
}

/// Adds an octet of a file's name.
fn push_name_octet(text: &mut Vec<u8>, octet: u8) -> Result<(), AllocError>
    ensures { OnOk result (text.new.items ≡ text.old.items ++ name_octet octet) }
{
    if octet < 32 || octet == 127 || octet == b'\\' {
        let digits = hex_pair(octet);
        text.extend_from_slice(&[b'\\', digits[0], digits[1]])?;
        return Ok(());
    }
    text.push(octet)?;
    Ok(())
}

/// Adds a file's name, or another word of a line.
///
/// Returns `AllocError` if allocation fails.
pub fn push_visible(text: &mut Vec<u8>, name: &[u8]) -> Result<(), AllocError>
    ensures { OnOk result (text.new.items ≡ text.old.items ++ visible name.now) }
{
    'octets: for octet in name {
        push_name_octet(text, *octet)?;
    }
    Ok(())
}

/// Adds a file's name and what is said of it.
///
/// Returns `AllocError` if allocation fails.
pub fn push_line(text: &mut Vec<u8>, name: &str, said: &[u8]) -> Result<(), AllocError>
    ensures { OnOk result (text.new.items ≡ text.old.items ++ line name.now said.now) }
{
    push_visible(text, name.as_bytes())?;
    text.extend_from_slice(b": ")?;
    text.extend_from_slice(said)?;
    text.push(b'\n')?;
    Ok(())
}

/// The name of an object's file, in this form.
///
/// Returns `AllocError` if allocation fails.
pub fn file_text(alloc: Global, form: Form, name: &str) -> Result<Vec<u8>, AllocError>
    ensures { IfOk result (λ text. text.items ≡ file_text form name.now) }
{
    match form {
        Form::Text => {
            let mut text = Vec::new(alloc);
            push_visible(&mut text, name.as_bytes())?;
            Ok(text)
        }
        Form::Json => Vec::from_slice(alloc, name.as_bytes()),
    }
}

/// The sheet with a field in front that says what was checked of the signatures.
///
/// Returns `AllocError` if allocation fails.
pub fn marked(alloc: Global, signature: Signature, sheet: Sheet) -> Result<Sheet, AllocError>
    ensures { IfOk result (λ s. s ≡ marked signature sheet) }
{
    sheet.behind(alloc, b"Signature", signature.text())
}

/// The digest of a file by SHA-256, in base 64, as manifests have it (RFC 9286 4.2.1).
fn hash_text(alloc: Global, octets: &[u8]) -> Result<String, AllocError>
    ensures { IfOk result (λ text. string_bytes text ≡ hash_text octets.now) }
{
    STANDARD.encode(alloc, &Sha256::digest(octets))
}

/// The sheet with a field in front that has the digest of the file.
///
/// Returns `AllocError` if allocation fails.
pub fn hashed(alloc: Global, octets: &[u8], sheet: Sheet) -> Result<Sheet, AllocError>
    ensures { IfOk result (λ s. s ≡ hashed octets.now sheet) }
{
    let text = hash_text(alloc, octets)?;
    sheet.behind(alloc, b"Hash ID", text.as_bytes())
}

/// The sheet as it is shown in this form: lines, and an empty one; or an object of JSON on a line.
///
/// Returns `AllocError` if allocation fails.
pub fn record(alloc: Global, form: Form, sheet: &Sheet) -> Result<Vec<u8>, AllocError>
    ensures { IfOk result (λ text. text.items ≡ record_text form sheet.now) }
{
    match form {
        Form::Text => {
            let mut text = Form::Text.render(alloc, sheet)?;
            text.push(b'\n')?;
            Ok(text)
        }
        Form::Json => Form::Json.render(alloc, sheet),
    }
}

/// The text of an object of whose signatures this was checked, in this form.
fn text_of(
    alloc: Global,
    form: Form,
    signature: Signature,
    name: &str,
    found: &Outcome,
) -> Result<Vec<u8>, AllocError>
    ensures { IfOk result (λ text.
        IsTextOf form signature name.now found.now.octets.items found.now.object.value text.items) }
{
    let file = file_text(alloc, form, name)?;
    let sheet = found.object.as_ref().sheet(alloc, found.octets.as_slice())?;
    let own = marked(alloc, signature, sheet)?;
    let told = hashed(alloc, found.octets.as_slice(), own)?;
    let all = told.behind(alloc, b"File", file.as_slice())?;
    record(alloc, form, &all)
}

/// The verdict on a file as a line.
fn line_of(alloc: Global, name: &str, said: &[u8]) -> Result<Vec<u8>, AllocError>
    ensures { IfOk result (λ text. text.items ≡ line name.now said.now) }
{
    let mut text = Vec::new(alloc);
    push_line(&mut text, name, said)?;
    Ok(text)
}

/// A sheet of the name of a file, of what was checked of the signatures, of the verdict, and of these fields.
fn verdict_over(
    alloc: Global,
    fields: Vec<Field>,
    signature: Signature,
    name: &str,
    said: &[u8],
) -> Result<Sheet, AllocError>
    ensures { IfOk result (λ s. s ≡ verdict_over fields.items signature name.now said.now) }
{
    let behind = Sheet::plain(fields);
    let told = behind.behind(alloc, b"Verdict", said)?;
    let own = marked(alloc, signature, told)?;
    own.behind(alloc, b"File", name.as_bytes())
}

/// A sheet of the name of a file, of what was checked of the signatures, and of the verdict.
pub fn verdict_sheet(
    alloc: Global,
    signature: Signature,
    name: &str,
    said: &[u8],
) -> Result<Sheet, AllocError>
    ensures { IfOk result (λ s. s ≡ verdict_sheet signature name.now said.now) }
{
    verdict_over(alloc, Vec::new(alloc), signature, name, said)
}

/// The verdict on a file as an object of JSON.
fn member_of(
    alloc: Global,
    signature: Signature,
    name: &str,
    said: &[u8],
) -> Result<Vec<u8>, AllocError>
    ensures { IfOk result (λ text. text.items ≡ verdict Json signature name.now said.now) }
{
    let all = verdict_sheet(alloc, signature, name, said)?;
    Form::Json.render(alloc, &all)
}

/// The verdict on a file, in this form.
///
/// Returns `AllocError` if allocation fails.
pub fn verdict(
    alloc: Global,
    form: Form,
    signature: Signature,
    name: &str,
    said: &[u8],
) -> Result<Vec<u8>, AllocError>
    ensures { IfOk result (λ text. text.items ≡ verdict form signature name.now said.now) }
{
    match form {
        Form::Text => line_of(alloc, name, said),
        Form::Json => member_of(alloc, signature, name, said),
    }
}

/// The verdict on an object of whose signatures this was checked: what the RPKI doesn't use of it.
fn objected(
    alloc: Global,
    form: Form,
    signature: Signature,
    name: &str,
    said: &[u8],
) -> Result<Output, AllocError>
    ensures { IfOk result (λ s. parts_of s ≡ objected form signature name.now said.now) }
{
    let output = verdict(alloc, form, signature, name, said)?;
    let faults = Vec::new(alloc);
    Ok(Output {
        output,
        faults,
        status: 1,
    })
}

/// The verdict on an object of whose signatures this was checked: that it is well, in these words, or what the RPKI
/// doesn't use of it.
fn checked(
    alloc: Global,
    form: Form,
    signature: Signature,
    well: &[u8],
    name: &str,
    object: &Object,
) -> Result<Output, AllocError>
    ensures { IfOk result (λ s. parts_of s ≡ checked_parts form signature well.now name.now (objection_to object.now)) }
{
    match object.objection(alloc)? {
        Some(said) => objected(alloc, form, signature, name, said.as_slice()),
        None => {
            let output = verdict(alloc, form, signature, name, well)?;
            let faults = Vec::new(alloc);
            Ok(Output {
                output,
                faults,
                status: 0,
            })
        }
    }
}

/// The verdict on a fault as a line.
fn fault_words(
    alloc: Global,
    name: &str,
    fault: Fault,
    told: &Option<Told>,
) -> Result<Vec<u8>, AllocError>
    ensures { IfOk result (λ text. text.items ≡ line name.now (told_text fault (told_of told.now))) }
{
    let said = told_text(alloc, fault, told)?;
    line_of(alloc, name, said.as_slice())
}

/// The verdict on a fault as an object of JSON.
fn fault_members(
    alloc: Global,
    name: &str,
    fault: Fault,
    told: &Option<Told>,
) -> Result<Vec<u8>, AllocError>
    ensures { IfOk result (λ text. text.items ≡ fault_verdict Json name.now fault (told_of told.now)) }
{
    let said = fault.text(alloc)?;
    let signature = signature_in(alloc, fault)?;
    let fields = values_fields(alloc, told)?;
    let all = verdict_over(alloc, fields, signature, name, said.as_bytes())?;
    Form::Json.render(alloc, &all)
}

/// The verdict on a fault, in this form.
fn fault_verdict(
    alloc: Global,
    form: Form,
    name: &str,
    fault: Fault,
    told: &Option<Told>,
) -> Result<Vec<u8>, AllocError>
    ensures { IfOk result (λ text. text.items ≡ fault_verdict form name.now fault (told_of told.now)) }
{
    match form {
        Form::Text => fault_words(alloc, name, fault, told),
        Form::Json => fault_members(alloc, name, fault, told),
    }
}

/// The verdict on a fault, with the values that disagree.
fn checked_fault(
    alloc: Global,
    form: Form,
    name: &str,
    fault: Fault,
    told: &Option<Told>,
) -> Result<Output, AllocError>
    ensures { IfOk result (λ s. parts_of s ≡ checked_fault form name.now fault (told_of told.now)) }
{
    let output = fault_verdict(alloc, form, name, fault, told)?;
    let faults = Vec::new(alloc);
    Ok(Output {
        output,
        faults,
        status: fault.status(),
    })
}

/// The verdict on a certificate of an algorithm that the RPKI doesn't use: which one.
fn checked_other(
    alloc: Global,
    form: Form,
    name: &str,
    object: &Object,
) -> Result<Output, AllocError>
    ensures { IfOk result (λ s. parts_of s ≡ checked_other form name.now (objection_to object.now)) }
{
    match object.objection(alloc)? {
        Some(said) => objected(alloc, form, Signature::Unchecked, name, said.as_slice()),
        None => checked_fault(alloc, form, name, Fault::OtherAlgorithm, &None),
    }
}

/// The verdict on an object's fault.
fn checked_told(
    alloc: Global,
    form: Form,
    terms: &Requirements<'_>,
    name: &str,
    object: &Object,
    fault: Fault,
) -> Result<Output, AllocError>
    ensures { IfOk result (λ s. IsCheckedFault form (terms_of terms.now) name.now object.now fault (parts_of s)) }
{
    let told = tell(alloc, terms, object, fault)?;
    checked_fault(alloc, form, name, fault, &told)
}

/// The verdict on an object whose certificate violates a profile, by all of the rules that it breaks.
fn checked_rules(
    alloc: Global,
    form: Form,
    terms: &Requirements<'_>,
    name: &str,
    object: &Object,
    first: Violation,
) -> Result<Output, AllocError>
    ensures { IfOk result (λ s.
        IsChecked form (terms_of terms.now) name.now object.now (Some (Violated first)) (parts_of s)) }
{
    let all = violations(alloc, terms.inspection, object)?;
    let told = telling(alloc, all)?;
    let output = violated(alloc, form, name, first, told.as_slice())?;
    let faults = Vec::new(alloc);
    Ok(Output {
        output,
        faults,
        status: Fault::Violated(first).status(),
    })
}

/// The verdict on an object that doesn't hold for this fault.
fn checked_wrong(
    alloc: Global,
    form: Form,
    terms: &Requirements<'_>,
    name: &str,
    object: &Object,
    fault: Fault,
) -> Result<Output, AllocError>
    ensures { IfOk result (λ s.
        IsChecked form (terms_of terms.now) name.now object.now (Some fault) (parts_of s)) }
{
    match fault {
        Fault::Violated(first) => checked_rules(alloc, form, terms, name, object, first),
        Fault::OtherAlgorithm => checked_other(alloc, form, name, object),
        fault => checked_told(alloc, form, terms, name, object, fault),
    }
}

/// The verdict on an object.
fn checked_found(
    alloc: Global,
    form: Form,
    terms: &Requirements<'_>,
    name: &str,
    found: &Outcome,
) -> Result<Output, AllocError>
    ensures { IfOk result (λ s.
        IsChecked form (terms_of terms.now) name.now found.now.object.value found.now.fault (parts_of s)) }
{
    match found.fault {
        Some(fault) => checked_wrong(alloc, form, terms, name, found.object.as_ref(), fault),
        None => {
            let issued = terms.issuer.is_some();
            let listed = terms.revocations.is_some();
            let object = found.object.as_ref();
            let signature = signature_of(issued, object);
            checked(
                alloc,
                form,
                signature,
                well_text(issued, listed, object),
                name,
                object,
            )
        }
    }
}

/// A fault, where there is one, as a line among the faults, with the values that disagree.
fn fault_line(
    alloc: Global,
    name: &str,
    fault: Option<Fault>,
    told: &Option<Told>,
) -> Result<Vec<u8>, AllocError>
    ensures { IfOk result (λ text. text.items ≡ fault_line name.now fault (told_of told.now)) }
{
    let mut text = Vec::new(alloc);
    if let Some(fault) = fault {
        let said = told_text(alloc, fault, told)?;
        text.extend_from_slice(b"rpkicert: ")?;
        push_line(&mut text, name, said.as_slice())?;
    }
    Ok(text)
}

/// The exit status for a fault; 0 where there is none.
fn status_in(fault: Option<Fault>) -> u8
    ensures { result ≡ status_in fault }
{
    match fault {
        Some(fault) => fault.status(),
        None => 0,
    }
}

/// What is shown of an object: its fields, and a fault among the faults.
fn listed(
    alloc: Global,
    form: Form,
    terms: &Requirements<'_>,
    name: &str,
    found: &Outcome,
) -> Result<Output, AllocError>
    ensures { IfOk result (λ s.
        IsOutput false form (terms_of terms.now) name.now (Ok (found_of found.now)) (parts_of s)) }
{
    let signature = signature_found(
        alloc,
        terms.issuer.is_some(),
        found.object.as_ref(),
        found.fault,
    )?;
    let output = text_of(alloc, form, signature, name, found)?;
    let told = tell_found(alloc, terms, found)?;
    let faults = fault_line(alloc, name, found.fault, &told)?;
    Ok(Output {
        output,
        faults,
        status: status_in(found.fault),
    })
}

/// What is shown of an object, or the verdict on it.
fn good(
    alloc: Global,
    check: bool,
    form: Form,
    terms: &Requirements<'_>,
    name: &str,
    found: &Outcome,
) -> Result<Output, AllocError>
    ensures { IfOk result (λ s.
        IsOutput check form (terms_of terms.now) name.now (Ok (found_of found.now)) (parts_of s)) }
{
    if check {
        return checked_found(alloc, form, terms, name, found);
    }
    listed(alloc, form, terms, name, found)
}

/// What is shown of a fault, or the verdict on it.
fn bad(
    alloc: Global,
    check: bool,
    form: Form,
    name: &str,
    fault: Fault,
) -> Result<Output, AllocError>
    ensures { (terms : TermParts) → IfOk result (λ s. IsOutput check form terms name.now (Err fault) (parts_of s)) }
{
    if check {
        return checked_fault(alloc, form, name, fault, &None);
    }
    let faults = fault_line(alloc, name, Some(fault), &None)?;
    let output = Vec::new(alloc);
    Ok(Output {
        output,
        faults,
        status: fault.status(),
    })
}

/// What is shown of what was found of a file, whose objects are checked against these terms.
///
/// Returns `AllocError` if allocation fails.
pub fn show(
    alloc: Global,
    check: bool,
    form: Form,
    terms: &Requirements<'_>,
    name: &str,
    finding: Result<Outcome, Fault>,
) -> Result<Output, AllocError>
    ensures { IfOk result (λ s. IsOutput check form (terms_of terms.now) name.now (finding_of finding) (parts_of s)) }
{
    match finding {
        Ok(found) => good(alloc, check, form, terms, name, &found),
        Err(fault) => bad(alloc, check, form, name, fault),
    }
}
