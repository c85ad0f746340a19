//! Calls on a cursor.

ghost use Rattle.rpki_der.specs.Cursor.{left};

use crate::made::{Made, Outcome};
use crate::readers;
use crate::refusal::{Failure, Refusal};
use crate::report::Report;
use bytes::Bytes;
use rpki::der::{Constructed, DecodeError, Keep, Shared, Steps, index_octets, walk_octets};
use rpki::repository::x509::{CertExtension, Name, SignedData};
use rpki::uri::{Https, Rsync};
use std::alloc::Global;
use std::io;

/// What a walk over one value makes.
fn walked(answer: Result<Option<()>, DecodeError>) -> Outcome {
    match answer {
        Ok(Some(())) => Ok(Made::Done),
        Ok(None) => Ok(Made::Nothing),
        Err(e) => Err(Refusal::from(e)),
    }
}

/// Walks over one value, where there is room to count its headers.
fn walk(alloc: Global, cursor: &mut Constructed<'_>, steps: &mut Steps) -> Outcome {
    let left = cursor.rest().len() as u64;
    if steps.count().checked_add(left).is_none() {
        return Err(Refusal::NoCall);
    }
    walked(cursor.walk(alloc, steps))
}

/// The same of the remaining octets, without a cursor.
fn walk_left(alloc: Global, octets: &[u8], steps: &mut Steps) -> Outcome {
    if steps.count().checked_add(octets.len() as u64).is_none() {
        return Err(Refusal::NoCall);
    }
    Ok(Made::Size(walk_octets(alloc, octets, steps)?))
}

/// The extension that a call reads, if it finds one.
fn extension(answer: Result<Option<CertExtension>, DecodeError>) -> Outcome {
    match answer {
        Ok(Some(extension)) => Ok(Made::Extension(extension)),
        Ok(None) => Ok(Made::Nothing),
        Err(e) => Err(Refusal::from(e)),
    }
}

/// The index of the value that begins the octets.
fn index(alloc: Global, octets: &[u8]) -> Outcome {
    let (size, entries) = index_octets(alloc, octets)?;
    Ok(Made::Index(size, entries))
}

/// Makes one call that reads a value of a certificate.
fn take_value<K: Keep>(keep: K, call: &str, cursor: &mut Constructed<'_>) -> Outcome
    requires { K.holds keep (left cursor.old) }
{
    match call {
        "take_bit_string" => Ok(Made::Bits(readers::bits(keep, cursor)?)),
        "take_octets" => Ok(Made::Octets(readers::octets(keep, cursor)?)),
        "take_numbers" => Ok(Made::Data(readers::numbers(keep.allocator(), cursor)?)),
        "take_rsync_name" => Ok(Made::Rsync(Rsync::take_general_name(keep, cursor)?)),
        "take_https_name" => Ok(Made::Https(Https::take_general_name(keep, cursor)?)),
        "take_key" => Ok(Made::Key(readers::key(keep, cursor)?)),
        "take_name" => Ok(Made::Name(Name::take_from(keep, cursor)?)),
        "take_signed" => Ok(Made::Signed(SignedData::take_from(keep, cursor)?)),
        "take_parts" => Ok(Made::Signed(SignedData::from_constructed(keep, cursor)?)),
        "take_extension" => Ok(Made::Extension(CertExtension::take_from(keep, cursor)?)),
        "take_opt_extension" => extension(CertExtension::take_opt_from(keep, cursor)),
        _ => Err(Refusal::NoCall),
    }
}

/// Makes one call that allocates. `walk` and `walk_octets` count.
fn take<K: Keep>(keep: K, call: &str, cursor: &mut Constructed<'_>, steps: &mut Steps) -> Outcome
    requires { K.holds keep (left cursor.old) }
{
    let alloc = keep.allocator();
    match call {
        "capture_one" => Ok(Made::Captured(cursor.capture_one(keep)?)),
        "capture" => Ok(Made::Captured(readers::kept(keep, cursor)?)),
        "skip_one" => walked(cursor.skip_one(alloc)),
        "skip_nested" => walked(cursor.skip_nested()),
        "walk" => walk(alloc, cursor, steps),
        "index_octets" => index(alloc, cursor.rest()),
        "walk_octets" => walk_left(alloc, cursor.rest(), steps),
        _ => take_value(keep, call, cursor),
    }
}

/// Reads a header, and reports it.
fn tell_header(report: Report, cursor: &mut Constructed<'_>, steps: &mut Steps) -> io::Result<()> {
    if steps.count() == u64::MAX {
        return report.refused(Refusal::NoCall);
    }
    match cursor.take_header(steps) {
        Ok(header) => report.header(&header),
        Err(e) => report.refused(Refusal::from(e)),
    }
}

/// Makes one call, and reports what it makes, how many headers were counted, the rest, and whether that is the end.
fn tell_call<K: Keep>(
    keep: K,
    report: Report,
    call: &str,
    mut cursor: Constructed<'_>,
) -> io::Result<()>
    requires { K.holds keep (left cursor) }
{
    let mut steps = Steps::new();
    if call == "take_header" {
        tell_header(report, &mut cursor, &mut steps)?;
    } else {
        report.outcome(take(keep, call, &mut cursor, &mut steps))?;
    }
    report.number("count", steps.count())?;
    report.octets("left", cursor.rest())?;
    match cursor.finish() {
        Ok(()) => report.words("finished"),
        Err(e) => report.number("unfinished", u64::from(e.number())),
    }
}

/// Makes one call on a cursor on all of these octets, and reports it and the octets that the cursor is on. The call
/// shares what it keeps of them, or copies it.
pub fn tell(
    alloc: Global,
    report: Report,
    (group, call): (&str, &str),
    octets: Vec<u8>,
) -> Result<(), Failure> {
    let source = Bytes::from_vec(octets)?;
    match group {
        "slice" => tell_call(alloc, report, call, readers::on_slice(source.as_slice()))?,
        _ => {
            let keep = Shared::new(alloc, &source);
            tell_call(keep, report, call, Constructed::new(&source))?;
        }
    }
    report.octets("borrowed", source.as_slice())?;
    Ok(())
}
