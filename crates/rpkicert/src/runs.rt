//! A run: words and files in, output and faults out, a file at a time.

ghost use Rattle.std.specs.Prelude.{◌≡◌, Some, None, IfOk, IfErr, map, string_bytes};
ghost use Rattle.rpkicert.specs.Request.{help, version};
ghost use Rattle.rpkicert.specs.RequestView.{asked_of, wanted_by, AskedIn, AskHelp, AskVersion, AskRun, AskNothing};
ghost use Rattle.rpkicert.specs.ComplaintView.{complaint_of};
ghost use Rattle.rpkicert.specs.Run.{IsRunOf};
ghost use Rattle.rpkicert.specs.RunView.{RunsAt, RunsTo, RunsOf, RunsOn, RunsUnder, RunsBelow, RunsWith, RunsFound};
ghost use Rattle.rpkicert.specs.Under.{AreUnder};
ghost use Rattle.rpkicert.specs.Output.{WritesBoth, shown_parts};
ghost use Rattle.rpkicert.specs.OutputView.{seen_of, text_in};
ghost use Rattle.rpkicert.specs.Words.{Complains, Prints, memory_text};

use crate::complaint::complaint;
use crate::fault::Fault;
use crate::files::seen;
use crate::issuer::{issuer_of, list_of, wrong_issuer, wrong_moment};
use crate::moment::moment_at;
use crate::outcome::{Outcome, find_issuer, find_list};
use crate::output::Output;
use crate::request::{Request, is_given, matched, with_files};
use crate::requirements::Requirements;
use crate::sources::Sources;
use crate::texts::{HELP, OUT_OF_MEMORY, PROGRAM, VERSION};
use clap::ArgMatches;
use rpki::repository::x509::Time;
use rpki_cert::TbsCert;
use rpki_cli::give::unprinted;
use rpki_cli::machine::Machine;
use rpki_crl::Crl;
use std::alloc::{AllocError, Global};

/// Writes a text to standard output, and then another to standard error. Returns this exit status, or None if not all
/// of both can be written; of the first that is told.
fn write_both<M: Machine>(output: &[u8], faults: &[u8], status: u8, machine: &mut M) -> Option<u8>
    ensures known { M.knows machine.old → M.knows machine.new }
    ensures written { M.knows machine.old → WritesBoth (M.world machine.old) (M.world machine.new)
        (shown_parts output.now faults.now status) result }
{
    if !machine.print(output) {
        unprinted(machine, PROGRAM);
        return None;
    }
    if !machine.tell(faults) {
        return None;
    }
    Some(status)
}

/// Writes what is shown of a file: first its output, and then its faults. Returns the exit status, or None if not all
/// of it can be written.
fn write_shown<M: Machine>(shown: &Result<Output, AllocError>, machine: &mut M) -> Option<u8>
    ensures known { M.knows machine.old → M.knows machine.new }
    ensures written { M.knows machine.old → WritesBoth (M.world machine.old) (M.world machine.new) (seen_of shown.now)
        result }
{
    match shown {
        Ok(shown) => write_both(
            shown.output.as_slice(),
            shown.faults.as_slice(),
            shown.status,
            machine,
        ),
        Err(_) => write_both(&[], OUT_OF_MEMORY, 2, machine),
    }
}

/// Shows each of the files, in order, whose objects are checked against these terms, and returns the greatest exit
/// status; 2 if the output or the faults fail.
fn show_each<S: Sources, M: Machine>(
    alloc: Global,
    request: &Request<'_, '_, '_>,
    terms: &Requirements<'_>,
    sources: &S,
    machine: &mut M,
) -> u8
    ensures known { M.knows machine.old → M.knows machine.new }
    ensures run { M.knows machine.old → RunsOn (S.holds sources.now)
        (M.world machine.old) (M.world machine.new) result request.now terms.now }
{
    let mut worst = 0u8;
    'files: for file in request.files {
        let shown = seen(alloc, request.check, request.form, terms, sources, file);
        match write_shown(&shown, machine) {
            Some(status) => worst = worst.max(status),
            None => return 2,
        }
    }
    worst
}

/// Prints a text, and returns the exit status 0; 2 if not all of it can be written, which is told.
fn print<M: Machine>(text: &[u8], machine: &mut M) -> u8
    ensures known { M.knows machine.old → M.knows machine.new }
    ensures printed { M.knows machine.old → Prints (M.world machine.old) (M.world machine.new) text.now result }
{
    if machine.print(text) {
        return 0;
    }
    unprinted(machine, PROGRAM)
}

/// Tells standard error a text, and returns the exit status 2.
pub fn tell<M: Machine>(text: &[u8], machine: &mut M) -> u8
    ensures known { M.knows machine.old → M.knows machine.new }
    ensures told { M.knows machine.old → Complains (M.world machine.old) (M.world machine.new) text.now result }
{
    let _ = machine.tell(text);
    2
}

/// Tells standard error what is wrong with words that ask for nothing, and how the program is used. Returns the exit
/// status 2.
///
/// Returns `AllocError` if allocation fails; then nothing is told.
fn complain<M: Machine>(alloc: Global, words: &[String], machine: &mut M) -> Result<u8, AllocError>
    ensures known { M.knows machine.old → M.knows machine.new }
    ensures said { M.knows machine.old → IfOk result (Complains (M.world machine.old) (M.world machine.new)
        (complaint_of words.now)) }
    ensures kept { IfErr result (λ _. machine.new ≡ machine.old) }
{
    let text = complaint(alloc, words)?;
    Ok(tell(text.as_slice(), machine))
}

/// Tells standard error that allocation failed, and returns the exit status 2.
pub fn give_up<M: Machine>(machine: &mut M) -> u8
    ensures known { M.knows machine.old → M.knows machine.new }
    ensures told { M.knows machine.old → Complains (M.world machine.old) (M.world machine.new) memory_text result }
{
    tell(OUT_OF_MEMORY, machine)
}

/// Tells standard error why nothing is shown, or that allocation failed; and returns the exit status 2.
fn deny<M: Machine>(text: Result<Vec<u8>, AllocError>, machine: &mut M) -> u8
    ensures known { M.knows machine.old → M.knows machine.new }
    ensures told { M.knows machine.old → Complains (M.world machine.old) (M.world machine.new) (text_in text) result }
{
    match text {
        Ok(text) => tell(text.as_slice(), machine),
        Err(_) => give_up(machine),
    }
}

/// Shows the files, whose objects are checked against the profile that is asked for, to this issuer, to its revocation
/// list, and to this moment. Returns the exit status.
fn show_held<S: Sources, M: Machine>(
    alloc: Global,
    request: &Request<'_, '_, '_>,
    issuer: Option<&TbsCert>,
    list: Option<&Crl>,
    moment: Option<Time>,
    sources: &S,
    machine: &mut M,
) -> u8
    ensures known { M.knows machine.old → M.knows machine.new }
    ensures run { M.knows machine.old → RunsTo (S.holds sources.now)
        (M.world machine.old) (M.world machine.new) result request.now issuer.entry list.entry moment }
{
    let terms = Requirements {
        inspection: request.inspection,
        issuer,
        revocations: list,
        moment,
    };
    show_each(alloc, request, &terms, sources, machine)
}

/// Shows the files, whose objects are checked against what is asked for, to this issuer, to the list that was found,
/// and to this moment; or why that is none. Returns the exit status.
fn show_found<S: Sources, M: Machine>(
    alloc: Global,
    request: &Request<'_, '_, '_>,
    issuer: &TbsCert,
    name: &str,
    found: &Result<Outcome, Fault>,
    at: Option<Time>,
    sources: &S,
    machine: &mut M,
) -> u8
    ensures known { M.knows machine.old → M.knows machine.new }
    ensures run { M.knows machine.old → RunsFound (S.holds sources.now)
        (M.world machine.old) (M.world machine.new) result request.now issuer.now at name.now found.now }
{
    match list_of(found) {
        Ok(list) => {
            let by = Some(issuer);
            show_held(alloc, request, by, Some(list), at, sources, machine)
        }
        Err(fault) => deny(wrong_issuer(alloc, name, fault), machine),
    }
}

/// Shows the files, whose objects are checked against what is asked for, to this issuer, to its list, where that is
/// asked for, and to this moment; or why the list is none. Returns the exit status.
fn show_with<S: Sources, M: Machine>(
    alloc: Global,
    request: &Request<'_, '_, '_>,
    issuer: &TbsCert,
    moment: &Option<Time>,
    sources: &S,
    machine: &mut M,
) -> u8
    ensures known { M.knows machine.old → M.knows machine.new }
    ensures run { M.knows machine.old → RunsWith (S.holds sources.now)
        (M.world machine.old) (M.world machine.new) result request.now issuer.now moment.now }
{
    let Some(name) = request.list else {
        return show_held(
            alloc,
            request,
            Some(issuer),
            None,
            *moment,
            sources,
            machine,
        );
    };
    let found = find_list(alloc, sources, name, issuer, *moment);
    show_found(
        alloc, request, issuer, name, &found, *moment, sources, machine,
    )
}

/// Shows the files, whose objects are checked against what is asked for, to the certificate that was found, and to this
/// moment; or that what was found is none. Returns the exit status.
fn show_issued<S: Sources, M: Machine>(
    alloc: Global,
    request: &Request<'_, '_, '_>,
    name: &str,
    found: &Outcome,
    moment: Option<Time>,
    sources: &S,
    machine: &mut M,
) -> u8
    ensures known { M.knows machine.old → M.knows machine.new }
    ensures run { M.knows machine.old → RunsOf (S.holds sources.now)
        (M.world machine.old) (M.world machine.new) result request.now name.now moment found.now }
{
    match issuer_of(found) {
        Ok(issuer) => show_with(alloc, request, issuer, &moment, sources, machine),
        Err(fault) => deny(wrong_issuer(alloc, name, fault), machine),
    }
}

/// Shows the files, whose objects are checked against what is asked for at this moment, which is the one that is asked
/// for; or why the issuer that is asked for is none. Returns the exit status.
fn show_at<S: Sources, M: Machine>(
    alloc: Global,
    request: &Request<'_, '_, '_>,
    moment: Option<Time>,
    sources: &S,
    machine: &mut M,
) -> u8
    ensures known { M.knows machine.old → M.knows machine.new }
    ensures run { M.knows machine.old → RunsAt (S.holds sources.now) (S.clock sources.now)
        (M.world machine.old) (M.world machine.new) result request.now moment }
{
    match request.issuer {
        None => show_held(alloc, request, None, None, moment, sources, machine),
        Some(name) => match find_issuer(alloc, sources, name) {
            Ok(found) => show_issued(alloc, request, name, &found, moment, sources, machine),
            Err(fault) => deny(wrong_issuer(alloc, name, fault), machine),
        },
    }
}

/// Shows the files, whose objects are checked against what is asked for; or why the moment or the issuer that is asked
/// for is none. Returns the exit status.
fn show_all<S: Sources, M: Machine>(
    alloc: Global,
    request: &Request<'_, '_, '_>,
    sources: &S,
    machine: &mut M,
) -> u8
    ensures known { M.knows machine.old → M.knows machine.new }
    ensures run { M.knows machine.old → IsRunOf (S.holds sources.now) (S.clock sources.now)
        (M.world machine.old) (M.world machine.new) result (asked_of request.now) }
{
    match request.moment {
        None => show_at(alloc, request, None, sources, machine),
        Some(word) => match moment_at(sources, word) {
            Some(moment) => show_at(alloc, request, Some(moment), sources, machine),
            None => deny(wrong_moment(alloc, word), machine),
        },
    }
}

/// The names of the files under these names, in order.
fn names_under<S: Sources>(
    alloc: Global,
    sources: &S,
    files: &[&str],
) -> Result<Vec<String>, AllocError>
    ensures { IfOk result (λ names. AreUnder (S.lists sources.now) (map (λ file. file.now) files.now)
        (map string_bytes names.items)) }
{
    let mut names = Vec::new(alloc);
    'files: for file in files {
        let mut own = sources.under(alloc, file)?;
        names.append(&mut own)?;
    }
    Ok(names)
}

/// The texts of the names.
fn texts_of<'a>(alloc: Global, names: &'a [String]) -> Result<Vec<&'a str>, AllocError>
    ensures { IfOk result (λ v. map (λ text. text.now) v.items ≡ map string_bytes names.now) }
{
    let mut all = Vec::new(alloc);
    'names: for name in names {
        all.push(name.as_str())?;
    }
    Ok(all)
}

/// Shows the files under those that are asked for, as if each had been. Returns the exit status.
///
/// Returns `AllocError` if there is no memory for their names; then nothing is written.
fn show_under<S: Sources, M: Machine>(
    alloc: Global,
    request: &Request<'_, '_, '_>,
    sources: &S,
    machine: &mut M,
) -> Result<u8, AllocError>
    ensures known { M.knows machine.old → M.knows machine.new }
    ensures shown { M.knows machine.old → RunsBelow S.lists S.holds S.clock sources.now (M.world machine.old)
        (M.world machine.new) result request.now }
    ensures kept { IfErr result (λ _. machine.new ≡ machine.old) }
{
    let names = names_under(alloc, sources, request.files)?;
    let files = texts_of(alloc, names.as_slice())?;
    let named = with_files(request, files.as_slice());
    Ok(show_all(alloc, &named, sources, machine))
}

/// Shows the files, or those under them, where that is asked for. Returns the exit status.
fn show_named<S: Sources, M: Machine>(
    alloc: Global,
    request: &Request<'_, '_, '_>,
    sources: &S,
    machine: &mut M,
) -> u8
    ensures known { M.knows machine.old → M.knows machine.new }
    ensures run { M.knows machine.old → RunsUnder S.lists S.holds S.clock sources.now
        (M.world machine.old) (M.world machine.new) result (asked_of request.now) }
{
    if !request.recursive {
        return show_all(alloc, request, sources, machine);
    }
    match show_under(alloc, request, sources, machine) {
        Ok(status) => status,
        Err(_) => give_up(machine),
    }
}

/// Does what was asked for by these words, and returns the exit status.
///
/// Returns `AllocError` if there is no memory to say that it is nothing; then nothing is written.
fn answer<S: Sources, M: Machine>(
    alloc: Global,
    words: &[String],
    matches: &ArgMatches<'_>,
    sources: &S,
    machine: &mut M,
) -> Result<u8, AllocError>
    ensures known { M.knows machine.old → M.knows machine.new }
    ensures help { M.knows machine.old → wanted_by matches.now ≡ Some help → IfOk result
        (Prints (M.world machine.old) (M.world machine.new) HELP.now) }
    ensures version { M.knows machine.old → wanted_by matches.now ≡ Some version → IfOk result
        (Prints (M.world machine.old) (M.world machine.new) VERSION.now) }
    ensures files { M.knows machine.old → AskedIn matches.now result (RunsUnder S.lists S.holds S.clock sources.now
        (M.world machine.old) (M.world machine.new)) }
    ensures usage { M.knows machine.old → wanted_by matches.now ≡ None → IfOk result
        (Complains (M.world machine.old) (M.world machine.new) (complaint_of words.now)) }
    ensures kept { IfErr result (λ _. machine.new ≡ machine.old) }
{
    if is_given(matches, "help") {
        return Ok(print(HELP, machine));
    }
    if is_given(matches, "version") {
        return Ok(print(VERSION, machine));
    }
    match Request::of(matches) {
        Some(request) => Ok(show_named(alloc, &request, sources, machine)),
        None => complain(alloc, words, machine),
    }
}

/// Does what the words, which are the program's arguments, ask for, and returns the exit status.
///
/// Returns `AllocError` if there is no memory to read the words, or to say what is wrong with them; then nothing is
/// written.
pub fn run<S: Sources, M: Machine>(
    alloc: Global,
    words: &[String],
    sources: &S,
    machine: &mut M,
) -> Result<u8, AllocError>
    ensures known { M.knows machine.old → M.knows machine.new }
    ensures help { M.knows machine.old → AskHelp words.now → IfOk result
        (Prints (M.world machine.old) (M.world machine.new) HELP.now) }
    ensures version { M.knows machine.old → AskVersion words.now → IfOk result
        (Prints (M.world machine.old) (M.world machine.new) VERSION.now) }
    ensures files { M.knows machine.old → AskRun words.now result (RunsUnder S.lists S.holds S.clock sources.now
        (M.world machine.old) (M.world machine.new)) }
    ensures usage { M.knows machine.old → AskNothing words.now → IfOk result
        (Complains (M.world machine.old) (M.world machine.new) (complaint_of words.now)) }
    ensures kept { IfErr result (λ _. machine.new ≡ machine.old) }
{
    match matched(alloc, words) {
        Ok(Some(matches)) => answer(alloc, words, &matches, sources, machine),
        Ok(None) => complain(alloc, words, machine),
        Err(e) => Err(e),
    }
}
