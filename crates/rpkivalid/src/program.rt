//! The program: from its words to its files and its streams.

ghost use Rattle.std.specs.Prelude.{◌≡◌, ◌++◌, IfErr, IfOk, codes, map, string_bytes};
ghost use Rattle.std.specs.IoError.{error_kind};
ghost use Rattle.std.specs.Vec.Iter.{into_iter_items as items};
ghost use Rattle.rpki_cli.specs.Delivered.{IsDelivered};
ghost use Rattle.rpki_cli.specs.Ready.{AreApart};
ghost use Rattle.rpki_cli.specs.World.{Tells};
ghost use Rattle.rpkivalid.specs.Arguments.{wordless_of, wordless_text};
ghost use Rattle.rpkivalid.specs.Program.{AreLines, AreTold, IsEntry, IsMade};
ghost use Rattle.rpkivalid.specs.ProgramView.{RanTo, RunsAll, RunsGiven, RunsSpread, made_by, sinks_by};
ghost use Rattle.rpkivalid.specs.Words.{memory_text};

use crate::arguments::{Wordless, words_of};
use crate::run::{Ran, run};
use crate::sinks::{Sinks, sinks_of};
use crate::sources::Sources;
use crate::texts::{HELP, NUMBER, OUT_OF_MEMORY, VERSION};
use rpki::repository::x509::Time;
use rpki_cli::give;
use rpki_cli::give::deliver;
use rpki_cli::machine::Machine;
use rpki_cli::ready::is_ready;
use rpki_cli::spread::{Folders, spread};
use rpki_digests::RsaProvider;
use std::alloc::{AllocError, Global};
use std::{env, io};

/// The program's name.
const PROGRAM: &str = "rpkivalid";

/// What a run has made.
#[derive(Drop)]
pub struct Made {
    /// The list, or what is asked for in its place.
    pub text: Vec<u8>,
    /// Its metrics.
    pub metrics: Vec<u8>,
    /// The entry of the log.
    pub entry: Vec<u8>,
    /// What standard error is told.
    pub lines: Vec<u8>,
    /// The exit status where all is written.
    pub status: u8,
}

/// The first text, and then the second.
fn joined(alloc: Global, first: &[u8], second: &[u8]) -> Result<Vec<u8>, AllocError>
    ensures { IfOk result (λ both. both.items ≡ first.now ++ second.now) }
{
    let mut both = Vec::from_slice(alloc, first)?;
    both.extend_from_slice(second)?;
    Ok(both)
}

/// What the log has in front of the lines of a run: the program's version and the moment.
fn head_of(alloc: Global, at: Option<Time>) -> Result<Vec<u8>, AllocError> {
    let moment = match at {
        Some(at) => format!(in alloc; " {}Z\n", at.date_time())?,
        None => String::from_str(alloc, "\n")?,
    };
    let mut text = Vec::from_slice(alloc, b"rpkivalid ")?;
    text.extend_from_slice(NUMBER)?;
    text.extend_from_slice(moment.as_bytes())?;
    Ok(text)
}

/// The entry of the log.
fn entry_of(alloc: Global, at: Option<Time>, lines: &[u8]) -> Result<Vec<u8>, AllocError>
    ensures { IfOk result (λ entry. IsEntry lines.now entry.items) }
{
    let head = head_of(alloc, at)?;
    joined(alloc, head.as_slice(), lines)
}

/// The lines that aren't those of objects; nothing where all went well.
fn of_the_run(alloc: Global, lines: &[u8], status: u8) -> Result<Vec<u8>, AllocError> {
    let mut few = Vec::new(alloc);
    if status == 0 {
        return Ok(few);
    }
    for line in lines.split_inclusive(|octet| *octet == b'\n') {
        if line.starts_with(b"rpkivalid: ") {
            few.extend_from_slice(line)?;
        }
    }
    Ok(few)
}

/// What standard error is told.
fn told_of(alloc: Global, is_quiet: bool, lines: &[u8], status: u8) -> Result<Vec<u8>, AllocError>
    ensures { IfOk result (λ told. AreTold is_quiet lines.now told.items) }
{
    if is_quiet {
        return of_the_run(alloc, lines, status);
    }
    Vec::from_slice(alloc, lines)
}

/// All lines of a run: of what can't be read, and those of the report.
fn lines_of<S: Sources>(alloc: Global, sources: &S, report: &[u8]) -> Result<Vec<u8>, AllocError>
    ensures { IfOk result (λ lines. AreLines (S.holds sources.now) report.now lines.items) }
{
    let unread = sources.unread(alloc)?;
    joined(alloc, unread.as_slice(), report)
}

/// Does in memory what the words ask for, with signatures by RSA.
fn ran_of<S: Sources>(alloc: Global, words: &[String], sources: &S) -> Result<Ran, AllocError>
    ensures { IfOk result (RanTo HELP.now VERSION.now words.now (S.holds sources.now) (S.clock sources.now)) }
{
    run(alloc, words, sources, &RsaProvider)
}

/// Makes what the words ask for, with an entry for a log, and the lines of standard error.
fn made_of<S: Sources>(
    alloc: Global,
    words: &[String],
    sources: &S,
    is_quiet: bool,
) -> Result<Made, AllocError>
    ensures { IfOk result (λ made. IsMade HELP.now VERSION.now (map string_bytes words.now) (S.holds sources.now)
        (S.clock sources.now) is_quiet (made_by made)) }
{
    let ran = ran_of(alloc, words, sources)?;
    let lines = lines_of(alloc, sources, ran.report.as_slice())?;
    let entry = entry_of(alloc, sources.now(), lines.as_slice())?;
    let told = told_of(alloc, is_quiet, lines.as_slice(), ran.status)?;
    Ok(Made {
        text: ran.text,
        metrics: ran.metrics,
        entry,
        lines: told,
        status: ran.status,
    })
}

/// Tells standard error that allocation failed, and returns the exit status 2.
fn give_up<M: Machine>(machine: &mut M) -> u8
    ensures known { M.knows machine.old → M.knows machine.new }
    ensures status { result ≡ 2 }
    ensures told { M.knows machine.old → Tells (M.world machine.old) (M.world machine.new) memory_text }
{
    let _ = machine.tell(OUT_OF_MEMORY);
    2
}

/// Tells standard error why there are no words, and returns the exit status 2.
fn say<M: Machine>(wordless: Wordless, machine: &mut M) -> u8
    ensures known { M.knows machine.old → M.knows machine.new }
    ensures status { result ≡ 2 }
    ensures told { M.knows machine.old → Tells (M.world machine.old) (M.world machine.new) (wordless_text wordless) }
{
    let _ = machine.tell(wordless.text());
    2
}

/// Delivers what a run has made, and returns the exit status.
fn delivered<M: Machine>(machine: &mut M, sinks: &Sinks<'_>, made: &Made) -> u8
    requires { AreApart (sinks_by sinks.now).to.output (sinks_by sinks.now).to.metrics }
    ensures known { M.knows machine.old → M.knows machine.new }
    ensures delivered { M.knows machine.old → IsDelivered (M.world machine.old) (M.world machine.new)
        (codes "rpkivalid") (sinks_by sinks.now).to (made_by made.now) result }
{
    let parts = give::Made {
        text: made.text.as_slice(),
        counts: made.metrics.as_slice(),
        entry: made.entry.as_slice(),
        lines: made.lines.as_slice(),
        status: made.status,
    };
    deliver(machine, PROGRAM, &sinks.outputs, &parts)
}

/// Runs what the words ask for, and returns the exit status: that of [run]; 2 if an
/// output can't be written, or allocation fails, which standard error is told; 3 if the metrics are written, and the
/// list can't be.
pub fn run_to<S: Sources, M: Machine>(
    alloc: Global,
    words: &[String],
    sources: &S,
    machine: &mut M,
) -> u8
    ensures known { M.knows machine.old → M.knows machine.new }
    ensures run { M.knows machine.old → RunsAll HELP.now VERSION.now words.now (S.holds sources.now)
        (S.clock sources.now) (M.world machine.old) (M.world machine.new) result }
{
    let Ok(sinks) = sinks_of(alloc, words) else {
        return give_up(machine);
    };
    if !is_ready(machine, PROGRAM, &sinks.outputs) {
        return 2;
    }
    match made_of(alloc, words, sources, sinks.is_quiet) {
        Ok(made) => delivered(machine, &sinks, &made),
        Err(_) => give_up(machine),
    }
}

/// The same of words in which the locators in a folder take the place of the folder.
fn run_spread<S: Sources, F: Folders, M: Machine>(
    alloc: Global,
    words: &[String],
    sources: &S,
    folders: &F,
    m: &mut M,
) -> u8
    ensures known { M.knows m.old → M.knows m.new }
    ensures run { M.knows m.old → RunsSpread HELP.now VERSION.now F.listed folders.now S.holds S.clock sources.now
        (M.world m.old) (M.world m.new) result words.now }
{
    match spread(alloc, folders, ".tal", "--tal", words) {
        Ok(words) => run_to(alloc, words.as_slice(), sources, m),
        Err(_) => give_up(m),
    }
}

/// Runs what the words ask for that are the arguments after the program's name, with the locators in a folder in place
/// of the folder, and returns the exit status: that of [run]; 2 if an output can't be written, allocation fails, or the
/// arguments can't be had, which standard error is told; 3 if the metrics are written, and the list can't be.
pub fn run_on<S: Sources, F: Folders, M: Machine>(
    alloc: Global,
    arguments: io::Result<env::Args>,
    sources: &S,
    folders: &F,
    m: &mut M,
) -> u8
    ensures known { M.knows m.old → M.knows m.new }
    ensures words { M.knows m.old → IfOk arguments (RunsGiven items HELP.now VERSION.now F.listed folders.now
        S.holds S.clock sources.now (M.world m.old) (M.world m.new) result) }
    ensures none { M.knows m.old → IfErr arguments (λ e. (result ≡ 2)
        × Tells (M.world m.old) (M.world m.new) (wordless_text (wordless_of (error_kind e)))) }
{
    match words_of(alloc, arguments) {
        Ok(words) => run_spread(alloc, words.as_slice(), sources, folders, m),
        Err(wordless) => say(wordless, m),
    }
}
