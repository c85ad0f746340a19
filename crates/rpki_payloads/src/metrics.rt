//! Counts as metrics, in the text format of OpenMetrics 1.0.

ghost use Rattle.std.specs.Prelude.{◌≡◌, ◌++◌, None, OnOk, IfOk, decimal, string_bytes};
ghost use Rattle.std.specs.List.{flat_map};
ghost use Rattle.rpki_payloads.specs.Metrics.{anchor_family, anchor_samples, bit, escaped, metrics_text};
ghost use Rattle.rpki_payloads.specs.Metrics.{payload_family, payload_samples, rejected_family, rejected_samples};
ghost use Rattle.rpki_payloads.specs.Metrics.{earlier, end_family, end_samples, first_end, kind_samples, sample};
ghost use Rattle.rpki_payloads.specs.Metrics.{tally_samples, duration_family, locator_families, made_family};
ghost use Rattle.rpki_payloads.specs.Metrics.{run_families, version_family, rejection_families, reason_family};
ghost use Rattle.rpki_payloads.specs.Metrics.{counted_samples, file_samples, path_samples, reason_sample};
ghost use Rattle.rpki_payloads.specs.Metrics.{reason_samples};

use crate::made::seconds_text;
use crate::payloads::Payloads;
use crate::tally::{Reasons, Tally};
use crate::timed::TimedVrp;
use rpki::repository::x509::Time;
use std::alloc::{AllocError, Global};

/// Adds an octet of the value of a label: a quotation mark, a backslash and a line feed by a backslash.
fn push_escaped(text: &mut Vec<u8>, octet: u8) -> Result<(), AllocError>
    ensures { OnOk result (text.new.items ≡ text.old.items ++ escaped octet) }
{
    if octet == b'\n' {
        return text.extend_from_slice(b"\\n");
    }
    if octet == b'"' || octet == b'\\' {
        text.push(b'\\')?;
    }
    text.push(octet)?;
    Ok(())
}

/// Adds the value of a label.
fn push_value(text: &mut Vec<u8>, value: &[u8]) -> Result<(), AllocError>
    ensures { OnOk result (text.new.items ≡ text.old.items ++ flat_map escaped value.now) }
{
    'octets: for octet in value {
        push_escaped(text, *octet)?;
    }
    Ok(())
}

/// Adds a sample of a family: of the locator of this name, with more labels.
#[tactic(auto, unfolding(crate::specs::Metrics::sample))]
fn push_sample(
    text: &mut Vec<u8>,
    family: &[u8],
    name: &[u8],
    more: &[u8],
    count: usize,
) -> Result<(), AllocError>
    ensures { OnOk result (text.new.items ≡ text.old.items ++ sample family.now name.now more.now count) }
{
    let alloc = *text.allocator();
    let end = format!(in alloc; "}} {count}\n")?;
    text.extend_from_slice(family)?;
    text.extend_from_slice(b"{ta=\"")?;
    push_value(text, name)?;
    text.extend_from_slice(b"\"")?;
    text.extend_from_slice(more)?;
    text.extend_from_slice(end.as_bytes())
}

/// 1 where it is so.
fn bit(is_so: bool) -> usize
    ensures { result ≡ bit is_so }
{
    if is_so { 1 } else { 0 }
}

/// Adds whether the locator has a trust anchor.
#[tactic(auto, unfolding(crate::specs::Metrics::anchor_in))]
fn push_anchor(text: &mut Vec<u8>, one: &Payloads) -> Result<(), AllocError>
    ensures { OnOk result (text.new.items ≡ text.old.items ++ anchor_samples one.now) }
{
    match one.tally() {
        Some(tally) => push_sample(
            text,
            b"rpkivalid_trust_anchor",
            one.name(),
            b"",
            bit(tally.is_anchored),
        ),
        None => Ok(()),
    }
}

/// Adds these numbers of payloads, by kind.
#[tactic(auto, unfolding(crate::specs::Metrics::kind_samples))]
fn push_kinds(
    text: &mut Vec<u8>,
    name: &[u8],
    origins: usize,
    providers: usize,
    keys: usize,
) -> Result<(), AllocError>
    ensures { OnOk result (text.new.items ≡ text.old.items ++ kind_samples name.now origins providers keys) }
{
    push_sample(
        text,
        b"rpkivalid_payloads",
        name,
        b",type=\"origin\"",
        origins,
    )?;
    push_sample(
        text,
        b"rpkivalid_payloads",
        name,
        b",type=\"provider\"",
        providers,
    )?;
    push_sample(
        text,
        b"rpkivalid_payloads",
        name,
        b",type=\"router_key\"",
        keys,
    )?;
    Ok(())
}

/// Adds how many payloads there are of each kind.
fn push_payloads(text: &mut Vec<u8>, one: &Payloads) -> Result<(), AllocError>
    ensures { OnOk result (text.new.items ≡ text.old.items ++ payload_samples one.now) }
{
    let origins = one.vrps().len();
    let providers = one.pairs().len();
    let keys = one.keys().len();
    push_kinds(text, one.name(), origins, providers, keys)
}

/// Adds how many publication points and objects are rejected.
#[tactic(auto, unfolding(crate::specs::Metrics::tally_samples))]
fn push_tally(text: &mut Vec<u8>, name: &[u8], tally: Tally) -> Result<(), AllocError>
    ensures { OnOk result (text.new.items ≡ text.old.items ++ tally_samples name.now tally) }
{
    push_sample(
        text,
        b"rpkivalid_rejected",
        name,
        b",type=\"point\"",
        tally.points,
    )?;
    push_sample(
        text,
        b"rpkivalid_rejected",
        name,
        b",type=\"object\"",
        tally.objects,
    )?;
    Ok(())
}

/// Adds how many are rejected for a reason.
fn push_reason(
    text: &mut Vec<u8>,
    name: &[u8],
    reason: &[u8],
    count: usize,
) -> Result<(), AllocError>
    ensures { OnOk result (text.new.items ≡ text.old.items ++ reason_sample name.now reason.now count) }
{
    push_sample(text, b"rpkivalid_rejected_reasons", name, reason, count)
}

/// Adds how many are rejected for what files are.
#[tactic(auto, unfolding(crate::specs::Metrics::file_samples))]
fn push_file_reasons(text: &mut Vec<u8>, name: &[u8], reasons: Reasons) -> Result<(), AllocError>
    ensures { OnOk result (text.new.items ≡ text.old.items ++ file_samples name.now reasons) }
{
    push_reason(text, name, b",reason=\"missing\"", reasons.missing)?;
    push_reason(text, name, b",reason=\"digest\"", reasons.digest)?;
    push_reason(text, name, b",reason=\"malformed\"", reasons.malformed)?;
    Ok(())
}

/// Adds how many are rejected for what certificates, manifests and lists say.
#[tactic(auto, unfolding(crate::specs::Metrics::path_samples))]
fn push_path_reasons(text: &mut Vec<u8>, name: &[u8], reasons: Reasons) -> Result<(), AllocError>
    ensures { OnOk result (text.new.items ≡ text.old.items ++ path_samples name.now reasons) }
{
    push_reason(text, name, b",reason=\"stale\"", reasons.stale)?;
    push_reason(text, name, b",reason=\"expired\"", reasons.expired)?;
    push_reason(text, name, b",reason=\"revoked\"", reasons.revoked)?;
    push_reason(text, name, b",reason=\"invalid\"", reasons.invalid)?;
    Ok(())
}

/// Adds how many are rejected by reason.
#[tactic(auto, unfolding(crate::specs::Metrics::reason_samples))]
fn push_reasons(text: &mut Vec<u8>, name: &[u8], reasons: Reasons) -> Result<(), AllocError>
    ensures { OnOk result (text.new.items ≡ text.old.items ++ reason_samples name.now reasons) }
{
    push_file_reasons(text, name, reasons)?;
    push_path_reasons(text, name, reasons)?;
    Ok(())
}

/// Adds why something is rejected, where it was counted.
fn push_counted(text: &mut Vec<u8>, one: &Payloads) -> Result<(), AllocError>
    ensures { OnOk result (text.new.items ≡ text.old.items ++ counted_samples one.now) }
{
    match one.tally() {
        Some(tally) => push_reasons(text, one.name(), tally.reasons),
        None => Ok(()),
    }
}

/// Adds how much is rejected, where it was counted.
fn push_rejected(text: &mut Vec<u8>, one: &Payloads) -> Result<(), AllocError>
    ensures { OnOk result (text.new.items ≡ text.old.items ++ rejected_samples one.now) }
{
    match one.tally() {
        Some(tally) => push_tally(text, one.name(), tally),
        None => Ok(()),
    }
}

/// The earlier of two ends.
fn earlier(end: u64, first: Option<u64>) -> u64
    ensures { result ≡ earlier end first }
{
    match first {
        Some(first) => if end < first { end } else { first },
        None => end,
    }
}

/// The earliest of the ends of payloads. None if there are none.
fn first_end(all: &[TimedVrp]) -> Option<u64>
    ensures { result ≡ first_end None all.now }
{
    let mut first = None;
    let mut rest = all;
    'all: while let Some((timed, following)) = rest.split_first() {
        first = Some(earlier(timed.expires, first));
        rest = following;
    }
    first
}

/// Adds the first second in which a payload ends, if there is any.
#[tactic(auto, unfolding(crate::specs::Metrics::end_in))]
fn push_end(text: &mut Vec<u8>, one: &Payloads) -> Result<(), AllocError>
    ensures { OnOk result (text.new.items ≡ text.old.items ++ end_samples one.now) }
{
    match first_end(one.timed()) {
        Some(end) => push_sample(
            text,
            b"rpkivalid_first_end_seconds",
            one.name(),
            b"",
            end as usize,
        ),
        None => Ok(()),
    }
}

/// Adds when the first payload under each locator ends.
fn push_ends(text: &mut Vec<u8>, all: &[Payloads]) -> Result<(), AllocError>
    ensures { OnOk result (text.new.items ≡ text.old.items ++ flat_map end_samples all.now) }
{
    'all: for one in all {
        push_end(text, one)?;
    }
    Ok(())
}

/// Adds the family that says when the first payload ends.
#[tactic(auto, unfolding(crate::specs::Metrics::end_family))]
fn push_end_family(text: &mut Vec<u8>, all: &[Payloads]) -> Result<(), AllocError>
    ensures { OnOk result (text.new.items ≡ text.old.items ++ end_family all.now) }
{
    text.extend_from_slice(
        b"# TYPE rpkivalid_first_end_seconds gauge\n\
# UNIT rpkivalid_first_end_seconds seconds\n\
# HELP rpkivalid_first_end_seconds When the first route origin ends, since 1970.\n",
    )?;
    push_ends(text, all)?;
    Ok(())
}

/// Adds which locators have a trust anchor.
fn push_anchors(text: &mut Vec<u8>, all: &[Payloads]) -> Result<(), AllocError>
    ensures { OnOk result (text.new.items ≡ text.old.items ++ flat_map anchor_samples all.now) }
{
    'all: for one in all {
        push_anchor(text, one)?;
    }
    Ok(())
}

/// Adds how many payloads there are under each locator.
fn push_all_payloads(text: &mut Vec<u8>, all: &[Payloads]) -> Result<(), AllocError>
    ensures { OnOk result (text.new.items ≡ text.old.items ++ flat_map payload_samples all.now) }
{
    'all: for one in all {
        push_payloads(text, one)?;
    }
    Ok(())
}

/// Adds how much is rejected under each locator.
fn push_all_rejected(text: &mut Vec<u8>, all: &[Payloads]) -> Result<(), AllocError>
    ensures { OnOk result (text.new.items ≡ text.old.items ++ flat_map rejected_samples all.now) }
{
    'all: for one in all {
        push_rejected(text, one)?;
    }
    Ok(())
}

/// Adds why something is rejected under each locator.
fn push_all_counted(text: &mut Vec<u8>, all: &[Payloads]) -> Result<(), AllocError>
    ensures { OnOk result (text.new.items ≡ text.old.items ++ flat_map counted_samples all.now) }
{
    'all: for one in all {
        push_counted(text, one)?;
    }
    Ok(())
}

/// Adds the family that says which locators have a trust anchor.
#[tactic(auto, unfolding(crate::specs::Metrics::anchor_family))]
fn push_anchor_family(text: &mut Vec<u8>, all: &[Payloads]) -> Result<(), AllocError>
    ensures { OnOk result (text.new.items ≡ text.old.items ++ anchor_family all.now) }
{
    text.extend_from_slice(
        b"# TYPE rpkivalid_trust_anchor gauge\n\
# HELP rpkivalid_trust_anchor Whether the locator has a trust anchor.\n",
    )?;
    push_anchors(text, all)?;
    Ok(())
}

/// Adds the family that says how many payloads there are.
#[tactic(auto, unfolding(crate::specs::Metrics::payload_family))]
fn push_payload_family(text: &mut Vec<u8>, all: &[Payloads]) -> Result<(), AllocError>
    ensures { OnOk result (text.new.items ≡ text.old.items ++ payload_family all.now) }
{
    text.extend_from_slice(
        b"# TYPE rpkivalid_payloads gauge\n\
# HELP rpkivalid_payloads How many payloads are written.\n",
    )?;
    push_all_payloads(text, all)?;
    Ok(())
}

/// Adds the family that says how much is rejected.
#[tactic(auto, unfolding(crate::specs::Metrics::rejected_family))]
fn push_rejected_family(text: &mut Vec<u8>, all: &[Payloads]) -> Result<(), AllocError>
    ensures { OnOk result (text.new.items ≡ text.old.items ++ rejected_family all.now) }
{
    text.extend_from_slice(
        b"# TYPE rpkivalid_rejected gauge\n\
# HELP rpkivalid_rejected How many points and objects are rejected.\n",
    )?;
    push_all_rejected(text, all)?;
    Ok(())
}

/// Adds the family that says why something is rejected.
#[tactic(auto, unfolding(crate::specs::Metrics::reason_family))]
fn push_reason_family(text: &mut Vec<u8>, all: &[Payloads]) -> Result<(), AllocError>
    ensures { OnOk result (text.new.items ≡ text.old.items ++ reason_family all.now) }
{
    text.extend_from_slice(
        b"# TYPE rpkivalid_rejected_reasons gauge\n\
# HELP rpkivalid_rejected_reasons How many points and objects are rejected, by reason.\n",
    )?;
    push_all_counted(text, all)?;
    Ok(())
}

/// Adds the families that say how much is rejected, and why.
#[tactic(auto, unfolding(crate::specs::Metrics::rejection_families))]
fn push_rejection_families(text: &mut Vec<u8>, all: &[Payloads]) -> Result<(), AllocError>
    ensures { OnOk result (text.new.items ≡ text.old.items ++ rejection_families all.now) }
{
    push_rejected_family(text, all)?;
    push_reason_family(text, all)?;
    Ok(())
}

/// Adds the family that says which version the program has.
#[tactic(auto, unfolding(crate::specs::Metrics::version_family))]
fn push_version_family(text: &mut Vec<u8>, version: &[u8]) -> Result<(), AllocError>
    ensures { OnOk result (text.new.items ≡ text.old.items ++ version_family version.now) }
{
    text.extend_from_slice(b"# TYPE rpkivalid info\n# HELP rpkivalid The program.\n")?;
    text.extend_from_slice(b"rpkivalid_info{version=\"")?;
    text.extend_from_slice(version)?;
    text.extend_from_slice(b"\"} 1\n")?;
    Ok(())
}

/// Adds the family that says when the list was made.
#[tactic(auto, unfolding(crate::specs::Metrics::made_family))]
fn push_made_family(text: &mut Vec<u8>, made: Time) -> Result<(), AllocError>
    ensures { OnOk result (text.new.items ≡ text.old.items ++ made_family made) }
{
    let seconds = seconds_text(*text.allocator(), made)?;
    text.extend_from_slice(
        b"# TYPE rpkivalid_made_seconds gauge\n\
# UNIT rpkivalid_made_seconds seconds\n\
# HELP rpkivalid_made_seconds When the list was made, since 1970.\n\
rpkivalid_made_seconds ",
    )?;
    text.extend_from_slice(seconds.as_bytes())?;
    text.extend_from_slice(b"\n")?;
    Ok(())
}

/// The decimal digits of a number.
fn digits_of(alloc: Global, number: u64) -> Result<String, AllocError>
    ensures { IfOk result (λ text. string_bytes text ≡ decimal number) }
{
    format!(in alloc; "{number}")
}

/// Adds the family that says how many seconds the run took.
#[tactic(auto, unfolding(crate::specs::Metrics::duration_family))]
fn push_duration_family(text: &mut Vec<u8>, seconds: u64) -> Result<(), AllocError>
    ensures { OnOk result (text.new.items ≡ text.old.items ++ duration_family seconds) }
{
    let digits = digits_of(*text.allocator(), seconds)?;
    text.extend_from_slice(
        b"# TYPE rpkivalid_duration_seconds gauge\n\
# UNIT rpkivalid_duration_seconds seconds\n\
# HELP rpkivalid_duration_seconds How long the run took.\n\
rpkivalid_duration_seconds ",
    )?;
    text.extend_from_slice(digits.as_bytes())?;
    text.extend_from_slice(b"\n")?;
    Ok(())
}

/// Adds the families of the run.
fn push_run_families(
    text: &mut Vec<u8>,
    version: &[u8],
    made: Time,
    seconds: u64,
) -> Result<(), AllocError>
    ensures { OnOk result (text.new.items ≡ text.old.items ++ run_families version.now made seconds) }
{
    push_version_family(text, version)?;
    push_made_family(text, made)?;
    push_duration_family(text, seconds)?;
    Ok(())
}

/// Adds the families that have a sample for each locator.
fn push_locator_families(text: &mut Vec<u8>, all: &[Payloads]) -> Result<(), AllocError>
    ensures { OnOk result (text.new.items ≡ text.old.items ++ locator_families all.now) }
{
    push_anchor_family(text, all)?;
    push_payload_family(text, all)?;
    push_rejection_families(text, all)?;
    push_end_family(text, all)?;
    Ok(())
}

/// What is counted under each locator: whether it has a trust anchor; how many payloads there are of each kind; and how
/// many publication points and objects are rejected, and for which reasons; and the first second, since
/// 1970-01-01T00:00:00Z, in which a prefix ends that may be announced, where there is any. What local exceptions add
/// has payloads and their end alone. Then of which version the program is, when the list was made, and how many seconds
/// that took.
///
/// Returns `AllocError` if allocation fails.
pub fn metrics_text(
    alloc: Global,
    version: &[u8],
    made: Time,
    seconds: u64,
    all: &[Payloads],
) -> Result<Vec<u8>, AllocError>
    ensures { IfOk result (λ text. text.items ≡ metrics_text version.now made seconds all.now) }
{
    let mut text = Vec::new(alloc);
    push_locator_families(&mut text, all)?;
    push_run_families(&mut text, version, made, seconds)?;
    text.extend_from_slice(b"# EOF\n")?;
    Ok(text)
}
