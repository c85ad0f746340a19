//! The form of rpki-client: csv with the second until which each payload is valid.

ghost use Rattle.std.specs.Prelude.{◌≡◌, ◌++◌, OnOk, IfOk};
ghost use Rattle.std.specs.List.{flat_map};
ghost use Rattle.rpki_payloads.specs.Lines.{client_line, client_lines, client_text};

use crate::payloads::Payloads;
use crate::quoted::push_field;
use crate::timed::TimedVrp;
use std::alloc::{AllocError, Global};

/// Adds the line of a payload.
fn push_client_line(text: &mut Vec<u8>, name: &[u8], timed: TimedVrp) -> Result<(), AllocError>
    ensures { OnOk result (text.new.items ≡ text.old.items ++ client_line name.now timed) }
{
    let alloc = *text.allocator();
    let vrp = timed.vrp;
    let prefix = vrp.prefix();
    let line = format!(in alloc; "AS{},{},{},", vrp.as_id, prefix, vrp.max_length)?;
    let end = format!(in alloc; ",{}\n", timed.expires)?;
    text.extend_from_slice(line.as_bytes())?;
    push_field(text, name)?;
    text.extend_from_slice(end.as_bytes())
}

/// Adds the lines of payloads.
fn push_client_lines(text: &mut Vec<u8>, name: &[u8], all: &[TimedVrp]) -> Result<(), AllocError>
    ensures { OnOk result (text.new.items ≡ text.old.items ++ flat_map (client_line name.now) all.now) }
{
    'all: for timed in all {
        push_client_line(text, name, *timed)?;
    }
    Ok(())
}

/// Adds the lines of the payloads of all locators.
fn push_client_payloads(text: &mut Vec<u8>, all: &[Payloads]) -> Result<(), AllocError>
    ensures { OnOk result (text.new.items ≡ text.old.items ++ flat_map client_lines all.now) }
{
    'all: for one in all {
        push_client_lines(text, one.name(), one.timed())?;
    }
    Ok(())
}

/// The payloads of all locators: a line of titles, and then a line a payload.
pub fn client_text(alloc: Global, all: &[Payloads]) -> Result<Vec<u8>, AllocError>
    ensures { IfOk result (λ text. text.items ≡ client_text all.now) }
{
    let mut text = Vec::from_slice(alloc, b"ASN,IP Prefix,Max Length,Trust Anchor,Expires\n")?;
    push_client_payloads(&mut text, all)?;
    Ok(text)
}
