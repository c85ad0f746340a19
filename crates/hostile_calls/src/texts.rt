//! Calls of base 64, and the text of a scheme.

use crate::made::{Made, Outcome};
use crate::refusal::{Failure, Refusal};
use crate::report::Report;
use rpki::uri::Scheme;
use rpki::util::base64::{Serde, Slurm, Xml};
use std::alloc::Global;

/// Makes one call that encodes the octets, or decodes them as they are.
fn of_octets(alloc: Global, call: &str, octets: &[u8]) -> Outcome {
    match call {
        "xml_encode" => Ok(Made::Text(Xml.encode(alloc, octets)?)),
        "serde_encode" => Ok(Made::Text(Serde.encode(alloc, octets)?)),
        "slurm_encode" => Ok(Made::Text(Slurm.encode(alloc, octets)?)),
        "xml_decode_bytes" => Ok(Made::Data(Xml.decode_bytes(alloc, octets)?)),
        _ => match str::from_utf8(octets) {
            Ok(text) => of_text(alloc, call, text),
            Err(_) => Err(Refusal::NoCall),
        },
    }
}

/// Makes one call on a text.
fn of_text(alloc: Global, call: &str, text: &str) -> Outcome {
    match call {
        "xml_decode" => Ok(Made::Data(Xml.decode(alloc, text)?)),
        "serde_decode" => Ok(Made::Data(Serde.decode(alloc, text)?)),
        "slurm_decode" => Ok(Made::Data(Slurm.decode(alloc, text)?)),
        "https_into_string" => Ok(Made::Text(Scheme::Https.into_string(alloc)?)),
        "rsync_into_string" => Ok(Made::Text(Scheme::Rsync.into_string(alloc)?)),
        _ => Err(Refusal::NoCall),
    }
}

/// Makes one call on octets, and reports what it makes, and the octets as they are then.
pub fn tell(alloc: Global, report: Report, call: &str, octets: Vec<u8>) -> Result<(), Failure> {
    report.outcome(of_octets(alloc, call, &octets))?;
    report.octets("held", &octets)?;
    Ok(())
}
