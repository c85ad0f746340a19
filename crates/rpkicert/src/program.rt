//! The program: from its arguments to its streams.

ghost use Rattle.std.specs.Prelude.{IfErr, IfOk};
ghost use Rattle.std.specs.IoError.{error_kind};
ghost use Rattle.std.specs.Vec.Iter.{into_iter_items};
ghost use Rattle.rpkicert.specs.Arguments.{wordless_of, wordless_text};
ghost use Rattle.rpkicert.specs.ProgramView.{RunsGiven, RunsAll};
ghost use Rattle.rpkicert.specs.Words.{Complains};

use crate::arguments::{Wordless, words_of};
use crate::runs::{give_up, run, tell};
use crate::sources::Sources;
use crate::texts::{HELP, VERSION};
use rpki_cli::machine::Machine;
use std::alloc::Global;
use std::{env, io};

/// Tells standard error why there are no words, and returns the exit status 2.
fn say<M: Machine>(wordless: Wordless, m: &mut M) -> u8
    ensures known { M.knows m.old → M.knows m.new }
    ensures told { M.knows m.old → Complains (M.world m.old) (M.world m.new)
        (wordless_text wordless) result }
{
    tell(wordless.text(), m)
}

/// Runs what the words ask for, and returns the exit status.
///
/// `--help` and `--version` print a text. Else each file that the words name is shown, in order: the object that it is
/// by its fields and items, and a fault by a line among the faults; with `--check` a line for either to the output. A
/// text with several certificates is shown as so many files. With `-r` the files in a folder, and in the folders in it,
/// are shown as if each had been named, in the order of their names. What is shown of a file is written before the next
/// one is read, its faults after its output. The moment `now` is that of the clock, which no other word asks for. If
/// the words name an issuer that is no certificate, a list that isn't the issuer's or doesn't hold at the moment, or a
/// moment that isn't one, only that is told, among the faults. Of other words what is wrong with them first, and how
/// the program is used.
///
/// The status is 0 if all is well; 1 if a file is no such object, breaks a rule of its own, violates the profile, is of
/// another issuer, is revoked, or holds at another time; 2 if one can't be read, without the issuer, its list or the
/// moment, for other words, if allocation fails, and if the output or the faults can't be written, which of the output
/// is told, and after which nothing is written; of several the greatest. No file is written to.
pub fn run_to<S: Sources, M: Machine>(alloc: Global, words: &[String], sources: &S, m: &mut M) -> u8
    ensures known { M.knows m.old → M.knows m.new }
    ensures run { M.knows m.old → RunsAll HELP.now VERSION.now words.now S.lists S.holds S.clock sources.now
        (M.world m.old) (M.world m.new) result }
{
    match run(alloc, words, sources, m) {
        Ok(status) => status,
        Err(_) => give_up(m),
    }
}

/// The same of the words that are the arguments after the program's name. Where there are none of them, why is told,
/// and the status is 2.
pub fn run_on<S: Sources, M: Machine>(
    alloc: Global,
    arguments: io::Result<env::Args>,
    sources: &S,
    m: &mut M,
) -> u8
    ensures known { M.knows m.old → M.knows m.new }
    ensures words { M.knows m.old → IfOk arguments (RunsGiven into_iter_items HELP.now VERSION.now S.lists S.holds
        S.clock sources.now (M.world m.old) (M.world m.new) result) }
    ensures none { M.knows m.old → IfErr arguments (λ e. Complains (M.world m.old) (M.world m.new)
        (wordless_text (wordless_of (error_kind e))) result) }
{
    match words_of(alloc, arguments) {
        Ok(words) => run_to(alloc, words.as_slice(), sources, m),
        Err(wordless) => say(wordless, m),
    }
}
