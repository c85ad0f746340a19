//! The form of BIRD 2.

ghost use Rattle.std.specs.Prelude.{◌≡◌, ◌++◌, OnOk, IfOk};
ghost use Rattle.rpki_payloads.specs.Lines.{bird_line, bird_route, bird_routes, bird_text, is_of_family};

use crate::vrp::Vrp;
use std::alloc::{AllocError, Global};

/// Adds the line of a payload, as BIRD reads it.
fn push_bird_line(text: &mut Vec<u8>, vrp: Vrp) -> Result<(), AllocError>
    ensures { OnOk result (text.new.items ≡ text.old.items ++ bird_line vrp) }
{
    let alloc = *text.allocator();
    let prefix = vrp.prefix();
    let line = format!(in alloc;
        "route {} max {} as {};\n",
        prefix, vrp.max_length, vrp.as_id
    )?;
    text.extend_from_slice(line.as_bytes())
}

/// Whether its addresses are of version 4, or of version 6.
fn is_of_family(is_v4: bool, vrp: Vrp) -> bool
    ensures { result ≡ is_of_family is_v4 vrp }
{
    if is_v4 {
        vrp.addr.is_ipv4()
    } else {
        !vrp.addr.is_ipv4()
    }
}

/// Adds the line of a payload, if it is of this family of addresses.
fn push_bird_route(text: &mut Vec<u8>, is_v4: bool, vrp: Vrp) -> Result<(), AllocError>
    ensures { OnOk result (text.new.items ≡ text.old.items ++ bird_route is_v4 vrp) }
{
    if is_of_family(is_v4, vrp) {
        return push_bird_line(text, vrp);
    }
    Ok(())
}

/// Adds the lines of the payloads of this family of addresses.
fn push_bird_routes(text: &mut Vec<u8>, is_v4: bool, vrps: &[Vrp]) -> Result<(), AllocError>
    ensures { OnOk result (text.new.items ≡ text.old.items ++ bird_routes is_v4 vrps.now) }
{
    'vrps: for vrp in vrps {
        push_bird_route(text, is_v4, *vrp)?;
    }
    Ok(())
}

/// The payloads as BIRD reads them: a table for each family of addresses, and a protocol that fills it.
pub fn bird_text(alloc: Global, vrps: &[Vrp]) -> Result<Vec<u8>, AllocError>
    ensures { IfOk result (λ text. text.items ≡ bird_text vrps.now) }
{
    let mut text = Vec::new(alloc);
    text.extend_from_slice(
        b"roa4 table ROAS4;\nroa6 table ROAS6;\n\nprotocol static {\n    roa4 { table ROAS4; };\n",
    )?;
    push_bird_routes(&mut text, true, vrps)?;
    text.extend_from_slice(b"}\n\nprotocol static {\n    roa6 { table ROAS6; };\n")?;
    push_bird_routes(&mut text, false, vrps)?;
    text.extend_from_slice(b"}\n")?;
    Ok(text)
}
