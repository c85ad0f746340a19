//! What is told of rejections, and how many payloads there are.

ghost use Rattle.std.specs.Prelude.{◌≡◌, ◌++◌, IfOk, OnOk, string_bytes};
ghost use Rattle.std.specs.List.{flat_map};
ghost use Rattle.rpkivalid.specs.Reported.{count_line, missing_line, numbers_line, numbers_text};
ghost use Rattle.rpkivalid.specs.Reported.{point_word, report_line};

use crate::reasons::reason_text;
use crate::told::place_text;
use rpki_payloads::Payloads;
use rpki_validation::{Reason, Rejection};
use std::alloc::{AllocError, Global};

/// What is rejected.
fn point_word(is_point: bool) -> &'static str
    ensures { result.now ≡ point_word is_point }
{
    if is_point {
        ": publication point rejected: "
    } else {
        ": "
    }
}

/// The line of an object that is rejected, or all that an authority publishes.
fn report_line(alloc: Global, rejection: &Rejection) -> Result<String, AllocError>
    ensures { IfOk result (λ text. string_bytes text ≡ report_line rejection.now) }
{
    let place = place_text(&rejection.uri);
    let word = point_word(rejection.is_point);
    let reason = reason_text(alloc, &rejection.reason)?;
    format!(in alloc; "{place}{word}{reason}\n")
}

/// Adds a line for an object that is rejected, or all that an authority publishes.
fn push_rejection(report: &mut Vec<u8>, rejection: &Rejection) -> Result<(), AllocError>
    ensures { OnOk result (report.new.items ≡ report.old.items ++ report_line rejection.now) }
{
    let line = report_line(*report.allocator(), rejection)?;
    report.extend_from_slice(line.as_bytes())
}

/// Adds a line for each object that is rejected.
///
/// Returns `AllocError` if allocation fails.
pub fn push_rejections(report: &mut Vec<u8>, rejections: &[Rejection]) -> Result<(), AllocError>
    ensures { OnOk result (report.new.items ≡ report.old.items ++ flat_map report_line rejections.now) }
{
    'rejections: for rejection in rejections {
        push_rejection(report, rejection)?;
    }
    Ok(())
}

/// The line of a locator that has no trust anchor.
fn missing_line(alloc: Global, name: &str, reason: &Reason) -> Result<String, AllocError>
    ensures { IfOk result (λ text. string_bytes text ≡ missing_line name.now reason.now) }
{
    let reason = reason_text(alloc, reason)?;
    format!(in alloc; "rpkivalid: {name}: no trust anchor: {reason}\n")
}

/// Adds a line for a locator that has no trust anchor.
///
/// Returns `AllocError` if allocation fails.
pub fn push_missing(report: &mut Vec<u8>, name: &str, reason: &Reason) -> Result<(), AllocError>
    ensures { OnOk result (report.new.items ≡ report.old.items ++ missing_line name.now reason.now) }
{
    let line = missing_line(*report.allocator(), name, reason)?;
    report.extend_from_slice(line.as_bytes())
}

/// These numbers of payloads.
#[tactic(auto, unfolding(crate::specs::Reported::numbers_text))]
fn numbers_text(
    alloc: Global,
    origins: usize,
    providers: usize,
    keys: usize,
) -> Result<String, AllocError>
    ensures { IfOk result (λ text. string_bytes text ≡ numbers_text origins providers keys) }
{
    format!(in alloc; ": {origins} route origins, {providers} providers, {keys} router keys\n")
}

/// Adds a line, which begins so, for the locator of this name, with these numbers of payloads.
fn push_numbers(
    report: &mut Vec<u8>,
    start: &[u8],
    name: &[u8],
    origins: usize,
    providers: usize,
    keys: usize,
) -> Result<(), AllocError>
    ensures { OnOk result (report.new.items ≡ report.old.items
        ++ numbers_line start.now name.now origins providers keys) }
{
    let text = numbers_text(*report.allocator(), origins, providers, keys)?;
    report.extend_from_slice(start)?;
    report.extend_from_slice(name)?;
    report.extend_from_slice(text.as_bytes())
}

/// Adds a line for a locator, with the numbers of its payloads.
#[tactic(auto, unfolding(crate::specs::Reported::count_line))]
fn push_count(report: &mut Vec<u8>, one: &Payloads) -> Result<(), AllocError>
    ensures { OnOk result (report.new.items ≡ report.old.items ++ count_line one.now) }
{
    let origins = one.vrps().len();
    let providers = one.pairs().len();
    let keys = one.keys().len();
    push_numbers(report, b"rpkivalid: ", one.name(), origins, providers, keys)
}

/// Adds a line for each locator, with the numbers of its payloads; and for what local exceptions add.
///
/// Returns `AllocError` if allocation fails.
pub fn push_counts(report: &mut Vec<u8>, all: &[Payloads]) -> Result<(), AllocError>
    ensures { OnOk result (report.new.items ≡ report.old.items ++ flat_map count_line all.now) }
{
    'payloads: for one in all {
        push_count(report, one)?;
    }
    Ok(())
}
