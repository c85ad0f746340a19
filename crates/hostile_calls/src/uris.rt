//! Calls on URIs.

use crate::made::{Made, Outcome};
use crate::refusal::{Failure, Refusal};
use crate::report::Report;
use bytes::Bytes;
use rpki::uri::{Https, Rsync};
use std::alloc::{AllocError, Global};
use std::borrow::CowStr;
use std::io;

/// Reads the octets as an rsync URI, by one of the calls that take a text.
fn rsync_of(alloc: Global, call: &str, octets: Vec<u8>) -> Outcome {
    match call {
        "from_slice" => Ok(Made::Rsync(Rsync::from_slice(alloc, &octets)?)),
        "from_bytes" => match Bytes::from_vec(octets) {
            Ok(octets) => Ok(Made::Rsync(Rsync::from_bytes(octets)?)),
            Err(_) => Err(Refusal::OutOfMemory),
        },
        "from_string" => match String::from_utf8(octets) {
            Ok(text) => Ok(Made::Rsync(Rsync::from_string(text)?)),
            Err(_) => Err(Refusal::NoCall),
        },
        "from_str" => match str::from_utf8(&octets) {
            Ok(text) => Ok(Made::Rsync(Rsync::from_str(alloc, text)?)),
            Err(_) => Err(Refusal::NoCall),
        },
        _ => Err(Refusal::NoCall),
    }
}

/// Reads the octets as an https URI, by one of the calls that take a text.
fn https_of(alloc: Global, call: &str, octets: Vec<u8>) -> Outcome {
    match call {
        "from_slice" => Ok(Made::Https(Https::from_slice(alloc, &octets)?)),
        "from_bytes" => match Bytes::from_vec(octets) {
            Ok(octets) => Ok(Made::Https(Https::from_bytes(octets)?)),
            Err(_) => Err(Refusal::OutOfMemory),
        },
        "from_string" => match String::from_utf8(octets) {
            Ok(text) => Ok(Made::Https(Https::from_string(text)?)),
            Err(_) => Err(Refusal::NoCall),
        },
        "from_str" => match str::from_utf8(&octets) {
            Ok(text) => Ok(Made::Https(Https::from_str(alloc, text)?)),
            Err(_) => Err(Refusal::NoCall),
        },
        _ => Err(Refusal::NoCall),
    }
}

/// Makes one call on an rsync URI. `join` adds this path.
fn of_rsync(alloc: Global, call: &str, uri: &mut Rsync, path: &str) -> Outcome {
    match call {
        "clone" => Ok(Made::Rsync(uri.clone()?)),
        "to_bytes" => Ok(Made::Octets(uri.to_bytes()?)),
        "parent" => Ok(match uri.parent()? {
            Some(parent) => Made::Rsync(parent),
            None => Made::Nothing,
        }),
        "join" => Ok(Made::Rsync(uri.join(alloc, path.as_bytes())?)),
        "unshare" => {
            uri.unshare(alloc)?;
            Ok(Made::Done)
        }
        "path_into_dir" => {
            uri.path_into_dir(alloc)?;
            Ok(Made::Done)
        }
        _ => Err(Refusal::NoCall),
    }
}

/// Makes one call on an https URI. `join` adds this path.
fn of_https(alloc: Global, call: &str, uri: &mut Https, path: &str) -> Outcome {
    match call {
        "clone" => Ok(Made::Https(uri.clone()?)),
        "parent" => Ok(match uri.parent()? {
            Some(parent) => Made::Https(parent),
            None => Made::Nothing,
        }),
        "join" => Ok(Made::Https(uri.join(alloc, path.as_bytes())?)),
        // A path that no word of a program can be, since it is too long.
        "join_own_path" => Ok(Made::Https(uri.join(alloc, uri.path().as_bytes())?)),
        "unshare" => {
            uri.unshare(alloc)?;
            Ok(Made::Done)
        }
        "path_into_dir" => {
            uri.path_into_dir(alloc)?;
            Ok(Made::Done)
        }
        _ => Err(Refusal::NoCall),
    }
}

/// Reports a text that is borrowed, or made in other case.
fn tell_text(report: Report, text: Result<CowStr<'_, Global>, AllocError>) -> io::Result<()> {
    match text {
        Ok(text) => report.octets("made", text.as_str().as_bytes()),
        Err(e) => report.refused(Refusal::from(e)),
    }
}

/// Reads the octets as an rsync URI, and reports it.
pub fn tell_rsync_of(
    alloc: Global,
    report: Report,
    call: &str,
    octets: Vec<u8>,
) -> Result<(), Failure> {
    report.outcome(rsync_of(alloc, call, octets))?;
    Ok(())
}

/// Reads the octets as an https URI, and reports it.
pub fn tell_https_of(
    alloc: Global,
    report: Report,
    call: &str,
    octets: Vec<u8>,
) -> Result<(), Failure> {
    report.outcome(https_of(alloc, call, octets))?;
    Ok(())
}

/// Makes one call on the rsync URI that the octets are, and reports what it makes, and the URI as it is then. `join`
/// adds this path.
pub fn tell_rsync(
    alloc: Global,
    report: Report,
    call: &str,
    path: &str,
    octets: Vec<u8>,
) -> Result<(), Failure> {
    let mut uri = Rsync::from_bytes(Bytes::from_vec(octets)?)?;
    match call {
        "canonical_authority" => tell_text(report, uri.canonical_authority(alloc))?,
        "canonical_module" => tell_text(report, uri.canonical_module(alloc))?,
        _ => report.outcome(of_rsync(alloc, call, &mut uri, path))?,
    }
    report.octets("held", uri.as_slice())?;
    Ok(())
}

/// The same for the https URI that the octets are.
pub fn tell_https(
    alloc: Global,
    report: Report,
    call: &str,
    path: &str,
    octets: Vec<u8>,
) -> Result<(), Failure> {
    let mut uri = Https::from_bytes(Bytes::from_vec(octets)?)?;
    match call {
        "canonical_authority" => tell_text(report, uri.canonical_authority(alloc))?,
        _ => report.outcome(of_https(alloc, call, &mut uri, path))?,
    }
    report.octets("held", uri.as_slice())?;
    Ok(())
}
