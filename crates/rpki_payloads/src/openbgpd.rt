//! The forms of OpenBGPD, bgpd.conf(5).

ghost use Rattle.std.specs.Prelude.{◌≡◌, ◌++◌, OnOk, IfOk, string_bytes};
ghost use Rattle.std.specs.List.{flat_map};
ghost use Rattle.rpki_payloads.specs.Lines.{openbgpd_end, openbgpd_length, openbgpd_line, openbgpd_number};
ghost use Rattle.rpki_payloads.specs.Lines.{openbgpd_origins, openbgpd_text};

use crate::customers::push_openbgpd_customers;
use crate::timed::TimedVrp;
use crate::vap::Vap;
use crate::vrp::Vrp;
use std::alloc::{AllocError, Global};

/// The maximum length, as OpenBGPD reads it.
#[tactic(auto, unfolding(crate::specs::Lines::openbgpd_length))]
fn openbgpd_length(alloc: Global, vrp: Vrp) -> Result<String, AllocError>
    ensures { IfOk result (λ text. string_bytes text ≡ openbgpd_length vrp) }
{
    format!(in alloc; " maxlen {}", vrp.max_length)
}

/// The AS number, as OpenBGPD reads it.
#[tactic(auto, unfolding(crate::specs::Lines::openbgpd_number))]
fn openbgpd_number(alloc: Global, vrp: Vrp) -> Result<String, AllocError>
    ensures { IfOk result (λ text. string_bytes text ≡ openbgpd_number vrp) }
{
    format!(in alloc; " source-as {}", vrp.as_id)
}

/// The end, as OpenBGPD reads it, and that of the line.
#[tactic(auto, unfolding(crate::specs::Lines::openbgpd_end))]
fn openbgpd_end(alloc: Global, expires: u64) -> Result<String, AllocError>
    ensures { IfOk result (λ text. string_bytes text ≡ openbgpd_end expires) }
{
    format!(in alloc; " expires {expires}\n")
}

/// Adds the line of a payload, as OpenBGPD reads it.
fn push_openbgpd_line(text: &mut Vec<u8>, timed: TimedVrp) -> Result<(), AllocError>
    ensures { OnOk result (text.new.items ≡ text.old.items ++ openbgpd_line timed) }
{
    let alloc = *text.allocator();
    let vrp = timed.vrp;
    let prefix = vrp.prefix();
    let prefix = format!(in alloc; "    {}", prefix)?;
    let length = openbgpd_length(alloc, vrp)?;
    let number = openbgpd_number(alloc, vrp)?;
    let end = openbgpd_end(alloc, timed.expires)?;
    text.extend_from_slice(prefix.as_bytes())?;
    text.extend_from_slice(length.as_bytes())?;
    text.extend_from_slice(number.as_bytes())?;
    text.extend_from_slice(end.as_bytes())
}

/// Adds the lines of payloads, as OpenBGPD reads them.
fn push_openbgpd_lines(text: &mut Vec<u8>, all: &[TimedVrp]) -> Result<(), AllocError>
    ensures { OnOk result (text.new.items ≡ text.old.items ++ flat_map openbgpd_line all.now) }
{
    'all: for timed in all {
        push_openbgpd_line(text, *timed)?;
    }
    Ok(())
}

/// Adds the payloads as a set of origins, as OpenBGPD reads it.
fn push_openbgpd_origins(text: &mut Vec<u8>, all: &[TimedVrp]) -> Result<(), AllocError>
    ensures { OnOk result (text.new.items ≡ text.old.items ++ openbgpd_origins all.now) }
{
    text.extend_from_slice(b"roa-set {\n")?;
    push_openbgpd_lines(text, all)?;
    text.extend_from_slice(b"}\n")
}

/// The payloads as OpenBGPD reads them: a set of origins, each with its end; and a set of customers with their
/// providers, where there are any.
pub fn openbgpd_text(alloc: Global, all: &[TimedVrp], vaps: &[Vap]) -> Result<Vec<u8>, AllocError>
    ensures { IfOk result (λ text. text.items ≡ openbgpd_text all.now vaps.now) }
{
    let mut text = Vec::new(alloc);
    push_openbgpd_origins(&mut text, all)?;
    push_openbgpd_customers(&mut text, vaps)?;
    Ok(text)
}
