//! Local exceptions that are asked for (RFC 8416).

ghost use Rattle.std.specs.Prelude.{◌≡◌, IfOk, IfErr, length, map};
ghost use Rattle.rpkivalid.specs.Denying.{IsExceptionsDenial, IsExceptionsDenialAt};
ghost use Rattle.rpkivalid.specs.Excepted.{AddsFile, AreFilesIn, AreLocal, Excepts, IsFileIn};

use crate::denial::Denial;
use crate::locators::name_of;
use crate::place::line_in;
use crate::sources::Sources;
use rpki_payloads::{
    Exceptions, ExceptionsError, NamedExceptions, Payloads, conflict_in, excepted,
};
use std::alloc::{AllocError, Global};

/// The exceptions in the file, which has this number, under its name.
fn exceptions_at<S: Sources>(
    alloc: Global,
    sources: &S,
    file: &str,
    number: usize,
) -> Result<NamedExceptions, Denial>
    ensures ok { IfOk result (IsFileIn (S.holds sources.now) file.now) }
    ensures err { IfErr result (IsExceptionsDenialAt (S.holds sources.now) file.now number) }
{
    let Some(octets) = sources.read(alloc, file)? else {
        return Err(Denial::NoExceptions(number));
    };
    let exceptions = match Exceptions::read(alloc, octets.as_slice()) {
        Ok(exceptions) => exceptions,
        Err(ExceptionsError::OutOfMemory) => return Err(Denial::OutOfMemory),
        Err(e) => {
            let line = line_in(octets.as_slice(), e);
            return Err(Denial::OtherExceptions(number, e, line));
        }
    };
    let name = String::from_str(alloc, name_of(file))?;
    Ok(NamedExceptions { name, exceptions })
}

/// Adds the exceptions in the file.
fn push_exceptions<S: Sources>(
    alloc: Global,
    sources: &S,
    file: &&str,
    all: &mut Vec<NamedExceptions>,
) -> Result<(), Denial>
    ensures ok { IfOk result (λ _. AddsFile (S.holds sources.now) file.now.now all.old.items all.new.items) }
    ensures err { IfErr result (IsExceptionsDenialAt (S.holds sources.now) file.now.now (length all.old.items)) }
{
    let named = exceptions_at(alloc, sources, *file, all.len())?;
    all.push(named)?;
    Ok(())
}

/// The exceptions in the files, in their order.
fn all_exceptions<S: Sources>(
    alloc: Global,
    sources: &S,
    files: &[&str],
) -> Result<Vec<NamedExceptions>, Denial>
    ensures ok { IfOk result (λ all. AreFilesIn (S.holds sources.now) files.now all.items) }
    ensures err { IfErr result (IsExceptionsDenial (S.holds sources.now) (map (λ file. file.now) files.now)) }
{
    let mut all = Vec::new(alloc);
    'files: for file in files {
        push_exceptions(alloc, sources, file, &mut all)?;
    }
    Ok(all)
}

/// The exceptions in the files of these names, in their order, no two of which are in conflict (RFC 8416 4.2).
pub fn exceptions_in<S: Sources>(
    alloc: Global,
    sources: &S,
    files: &[&str],
) -> Result<Vec<NamedExceptions>, Denial>
    ensures ok { IfOk result (λ all. AreLocal (S.holds sources.now) (map (λ file. file.now) files.now) all.items) }
    ensures err { IfErr result (IsExceptionsDenial (S.holds sources.now) (map (λ file. file.now) files.now)) }
{
    let all = all_exceptions(alloc, sources, files)?;
    match conflict_in(alloc, all.as_slice())? {
        Some(conflict) => Err(Denial::InConflict(conflict)),
        None => Ok(all),
    }
}

/// The payloads with these exceptions, if there are any.
///
/// Returns `AllocError` if allocation fails.
pub fn shown_of(
    alloc: Global,
    local: Vec<NamedExceptions>,
    found: Vec<Payloads>,
) -> Result<Vec<Payloads>, AllocError>
    ensures { IfOk result (λ shown. Excepts local.items found.items shown.items) }
{
    if local.is_empty() {
        return Ok(found);
    }
    excepted(alloc, local.as_slice(), found.as_slice())
}
