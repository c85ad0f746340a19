//! The form of csv.

ghost use Rattle.std.specs.Prelude.{◌≡◌, ◌++◌, OnOk, IfOk};
ghost use Rattle.std.specs.List.{flat_map};
ghost use Rattle.rpki_payloads.specs.Lines.{csv_line, csv_lines, csv_text};

use crate::payloads::Payloads;
use crate::quoted::push_field;
use crate::vrp::Vrp;
use std::alloc::{AllocError, Global};

/// Adds the line of a payload, in csv.
fn push_csv_line(text: &mut Vec<u8>, name: &[u8], vrp: Vrp) -> Result<(), AllocError>
    ensures { OnOk result (text.new.items ≡ text.old.items ++ csv_line name.now vrp) }
{
    let alloc = *text.allocator();
    let prefix = vrp.prefix();
    let line = format!(in alloc; "AS{},{},{},", vrp.as_id, prefix, vrp.max_length)?;
    text.extend_from_slice(line.as_bytes())?;
    push_field(text, name)?;
    text.push(b'\n')?;
    Ok(())
}

/// Adds the lines of payloads, in csv.
fn push_csv_lines(text: &mut Vec<u8>, name: &[u8], vrps: &[Vrp]) -> Result<(), AllocError>
    ensures { OnOk result (text.new.items ≡ text.old.items ++ flat_map (csv_line name.now) vrps.now) }
{
    'vrps: for vrp in vrps {
        push_csv_line(text, name, *vrp)?;
    }
    Ok(())
}

/// Adds the lines of the payloads of all locators, in csv.
pub fn push_csv_payloads(text: &mut Vec<u8>, all: &[Payloads]) -> Result<(), AllocError>
    ensures { OnOk result (text.new.items ≡ text.old.items ++ flat_map csv_lines all.now) }
{
    'all: for one in all {
        push_csv_lines(text, one.name(), one.vrps())?;
    }
    Ok(())
}

/// The payloads of all locators, in csv: a line of titles, and then a line a payload.
pub fn csv_text(alloc: Global, all: &[Payloads]) -> Result<Vec<u8>, AllocError>
    ensures { IfOk result (λ text. text.items ≡ csv_text all.now) }
{
    let mut text = Vec::from_slice(alloc, b"ASN,IP Prefix,Max Length,Trust Anchor\n")?;
    push_csv_payloads(&mut text, all)?;
    Ok(text)
}
