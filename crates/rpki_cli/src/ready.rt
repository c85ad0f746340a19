//! What can be known of outputs before a run begins.

ghost use Rattle.std.specs.Prelude.{◌≡◌, true, false};
ghost use Rattle.rpki_cli.specs.Given.{named};
ghost use Rattle.rpki_cli.specs.Ready.{AreApart, HasLog, IsReady, IsTwice, IsUnopened, IsUnready, IsUnsound};
ghost use Rattle.rpki_cli.specs.Ready.{outputs_in};

use crate::give::{Outputs, UNWRITTEN, denied};
use crate::machine::Machine;

/// What is wrong with a name that is that of the output too, or of the metrics.
const ALSO_OUTPUT: &str = "is the output's file too";

const ALSO_METRICS: &str = "is the metrics' file too";

/// Whether the file of this name, if there is one, can be written, as far as can be seen; else that it can't is told.
fn is_sound<M: Machine>(m: &mut M, program: &str, name: Option<&str>) -> bool
    ensures known { M.knows m.old → M.knows m.new }
    ensures yes { M.knows m.old → result ≡ true → M.world m.new ≡ M.world m.old }
    ensures no { M.knows m.old → result ≡ false → IsUnsound (M.world m.old) (M.world m.new) program.now
        (named name.entry) }
{
    match name {
        None => true,
        Some(name) => {
            if m.is_writable(name) {
                return true;
            }
            denied(m, program, name, UNWRITTEN);
            false
        }
    }
}

/// Whether the files of these names, if both are named, are two; else that they are one is told.
fn are_apart<M: Machine>(
    m: &mut M,
    program: &str,
    one: Option<&str>,
    other: Option<&str>,
    why: &str,
) -> bool
    ensures known { M.knows m.old → M.knows m.new }
    ensures apart { result ≡ true → AreApart (named one.entry) (named other.entry) }
    ensures yes { M.knows m.old → result ≡ true → M.world m.new ≡ M.world m.old }
    ensures no { M.knows m.old → result ≡ false → IsTwice (M.world m.old) (M.world m.new) program.now
        (named one.entry) (named other.entry) why.now }
{
    let Some(first) = one else {
        return true;
    };
    let Some(second) = other else {
        return true;
    };
    if m.are_one(first, second) {
        denied(m, program, second, why);
        return false;
    }
    true
}

/// Opens the log, if there is one. Returns whether it did; else that it can't be opened is told.
fn is_opened<M: Machine>(m: &mut M, program: &str, log: Option<&str>) -> bool
    ensures known { M.knows m.old → M.knows m.new }
    ensures yes { M.knows m.old → result ≡ true → HasLog (M.world m.old) (M.world m.new) (named log.entry) }
    ensures no { M.knows m.old → result ≡ false → IsUnopened (M.world m.old) (M.world m.new) program.now
        (named log.entry) }
{
    match log {
        None => true,
        Some(name) => {
            if m.open(name) {
                return true;
            }
            denied(m, program, name, UNWRITTEN);
            false
        }
    }
}

/// Whether each output can be written, as far as can be seen, and is a file of its own; and opens the log. Else why not
/// is told.
pub fn is_ready<M: Machine>(m: &mut M, program: &str, outputs: &Outputs<'_>) -> bool
    ensures known { M.knows m.old → M.knows m.new }
    ensures apart { result ≡ true → AreApart (outputs_in outputs.now).output
        (outputs_in outputs.now).metrics }
    ensures yes { M.knows m.old → result ≡ true → IsReady (M.world m.old) (M.world m.new) (outputs_in outputs.now) }
    ensures no { M.knows m.old → result ≡ false → IsUnready (M.world m.old) (M.world m.new) program.now
        (outputs_in outputs.now) }
{
    if !is_sound(m, program, outputs.output) {
        return false;
    }
    if !is_sound(m, program, outputs.metrics) {
        return false;
    }
    if !are_apart(m, program, outputs.output, outputs.metrics, ALSO_OUTPUT) {
        return false;
    }
    if !are_apart(m, program, outputs.output, outputs.log, ALSO_OUTPUT) {
        return false;
    }
    if !are_apart(m, program, outputs.metrics, outputs.log, ALSO_METRICS) {
        return false;
    }
    is_opened(m, program, outputs.log)
}
