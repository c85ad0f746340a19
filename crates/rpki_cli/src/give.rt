//! What a run has made is written; or it is told why it isn't.

ghost use Rattle.std.specs.Prelude.{◌≡◌, None, true, false};
ghost use Rattle.rpki_cli.specs.Delivered.{IsDelivered, parts_of};
ghost use Rattle.rpki_cli.specs.Given.{IsGiven, name_in, name_of, named, unwritten};
ghost use Rattle.rpki_cli.specs.Ready.{AreApart, outputs_in};
ghost use Rattle.rpki_cli.specs.Reported.{IsLogged, IsReported, IsUnlogged, IsUnreported};
ghost use Rattle.rpki_cli.specs.World.{IsSaid};

use crate::machine::Machine;
use crate::put::{Put, put_all};

/// What is wrong with a name that can't be written.
pub(crate) const UNWRITTEN: &str = "cannot be written";

/// What is wrong with an output that can't be written after its metrics.
const HALF_WRITTEN: &str = "cannot be written; the metrics are";

/// The name of standard output.
const STANDARD_OUTPUT: &str = "standard output";

/// Where a run writes.
#[derive(Clone, Copy)]
pub struct Outputs<'a> {
    /// The file of the list, in place of standard output.
    pub output: Option<&'a str>,
    /// That of the metrics.
    pub metrics: Option<&'a str>,
    /// That to which each run adds an entry.
    pub log: Option<&'a str>,
}

/// What a run has made.
#[derive(Clone, Copy)]
pub struct Made<'a> {
    /// The list.
    pub text: &'a [u8],
    /// Its metrics.
    pub counts: &'a [u8],
    /// The entry of the log.
    pub entry: &'a [u8],
    /// What standard error is told.
    pub lines: &'a [u8],
    /// The exit status where all is written.
    pub status: u8,
}

/// Tells what is wrong with a name, and returns the exit status 2.
pub fn denied<M: Machine>(m: &mut M, program: &str, name: &str, why: &str) -> u8
    ensures known { M.knows m.old → M.knows m.new }
    ensures status { result ≡ 2 }
    ensures told { M.knows m.old → IsSaid (M.world m.old) (M.world m.new) program.now name.now why.now }
{
    let _ = m.complain(program, name, why);
    2
}

/// Tells that not all of a text could be written to standard output, and returns the exit status 2.
pub fn unprinted<M: Machine>(m: &mut M, program: &str) -> u8
    ensures known { M.knows m.old → M.knows m.new }
    ensures status { result ≡ 2 }
    ensures told { M.knows m.old → IsSaid (M.world m.old) (M.world m.new) program.now (name_of None) unwritten }
{
    denied(m, program, STANDARD_OUTPUT, UNWRITTEN)
}

/// The name of the output, which is standard output where no file is named.
fn name_of<'a>(output: Option<&'a str>) -> &'a str
    ensures { result.now ≡ name_of (named output.entry) }
{
    match output {
        Some(name) => name,
        None => STANDARD_OUTPUT,
    }
}

/// The name of the file, if there is one.
fn name_in<'a>(file: Option<&'a str>) -> &'a str
    ensures { result.now ≡ name_in (named file.entry) }
{
    match file {
        Some(name) => name,
        None => "",
    }
}

/// Writes the list of a run and its metrics. Returns the exit status: that of the run; or, where why not is told, 2 if
/// neither is written, and 3 if the metrics alone are.
fn give<M: Machine>(
    m: &mut M,
    program: &str,
    output: Option<&str>,
    text: &[u8],
    metrics: Option<&str>,
    counts: &[u8],
    status: u8,
) -> u8
    requires { AreApart (named output) (named metrics) }
    ensures known { M.knows m.old → M.knows m.new }
    ensures given { M.knows m.old → IsGiven (M.world m.old) (M.world m.new) program.now (named output.entry)
        text.now (named metrics.entry) counts.now status result }
{
    match put_all(m, output, text, metrics, counts) {
        Put::Done => status,
        Put::NoList => denied(m, program, name_of(output), UNWRITTEN),
        Put::NoMetrics => denied(m, program, name_in(metrics), UNWRITTEN),
        Put::Unplaced => denied(m, program, name_in(metrics), UNWRITTEN),
        Put::Unwritten => match metrics {
            None => denied(m, program, name_of(output), UNWRITTEN),
            Some(_) => {
                denied(m, program, name_of(output), HALF_WRITTEN);
                3
            }
        },
    }
}

/// Adds the entry to the log, if there is one. Returns whether it did; else that it can't be added is told.
fn is_logged<M: Machine>(m: &mut M, program: &str, log: Option<&str>, entry: &[u8]) -> bool
    ensures known { M.knows m.old → M.knows m.new }
    ensures yes { M.knows m.old → result ≡ true → IsLogged (M.world m.old) (M.world m.new)
        (named log.entry) entry.now }
    ensures no { M.knows m.old → result ≡ false → IsUnlogged (M.world m.old) (M.world m.new) program.now
        (named log.entry) entry.now }
{
    match log {
        None => true,
        Some(name) => {
            if m.add(name, entry) {
                return true;
            }
            denied(m, program, name, UNWRITTEN);
            false
        }
    }
}

/// Tells what a run has to say: adds the entry to the log, if there is one, and writes the lines to standard error.
/// Returns whether it did; that the entry can't be added is told.
fn is_reported<M: Machine>(
    m: &mut M,
    program: &str,
    log: Option<&str>,
    entry: &[u8],
    lines: &[u8],
) -> bool
    ensures known { M.knows m.old → M.knows m.new }
    ensures yes { M.knows m.old → result ≡ true → IsReported (M.world m.old) (M.world m.new)
        (named log.entry) entry.now lines.now }
    ensures no { M.knows m.old → result ≡ false → IsUnreported (M.world m.old) (M.world m.new) program.now
        (named log.entry) entry.now lines.now }
{
    if !is_logged(m, program, log, entry) {
        return false;
    }
    m.tell(lines)
}

/// Writes what a run has made, for which [is_ready] was true: tells what it has to say; then, unless its status is 2 or
/// more, writes its metrics and its list. Returns the exit status.
pub fn deliver<M: Machine>(m: &mut M, program: &str, outputs: &Outputs<'_>, made: &Made<'_>) -> u8
    requires { AreApart (outputs_in outputs.now).output (outputs_in outputs.now).metrics }
    ensures known { M.knows m.old → M.knows m.new }
    ensures delivered { M.knows m.old → IsDelivered (M.world m.old) (M.world m.new) program.now
        (outputs_in outputs.now) (parts_of made.now) result }
{
    if !is_reported(m, program, outputs.log, made.entry, made.lines) {
        return 2;
    }
    if made.status > 1 {
        return made.status;
    }
    give(
        m,
        program,
        outputs.output,
        made.text,
        outputs.metrics,
        made.counts,
        made.status,
    )
}
