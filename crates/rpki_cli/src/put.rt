//! Outputs, each written whole or not at all.

ghost use Rattle.std.specs.Prelude.{◌≡◌, ◌≢◌, ℕ, List, Some, None};
ghost use Rattle.rpki_cli.specs.Given.{IsPut, named};

use crate::machine::Machine;

/// What became of outputs.
#[derive(Clone, Copy, Debug)]
pub enum Put {
    /// Each has its whole text.
    Done,
    /// Each is as before: the list can't be made beside.
    NoList,
    /// Each is as before: the metrics can't be made beside.
    NoMetrics,
    /// Each is as before: the metrics can't take their place.
    Unplaced,
    /// The list is not written; the metrics are, where there are any.
    Unwritten,
}

/// Prints the text.
fn print_text<M: Machine>(m: &mut M, text: &[u8]) -> Put
    ensures known { M.knows m.old → M.knows m.new }
    ensures put { M.knows m.old → (counts : List ℕ) → IsPut (M.world m.old) (M.world m.new) None text.now None counts
        result }
{
    if m.print(text) {
        return Put::Done;
    }
    Put::Unwritten
}

/// Writes the text to the file of this name.
fn put_text<M: Machine>(m: &mut M, output: &str, text: &[u8]) -> Put
    ensures known { M.knows m.old → M.knows m.new }
    ensures put { M.knows m.old → (counts : List ℕ) → IsPut (M.world m.old) (M.world m.new) (Some output.now) text.now
        None counts result }
{
    let Some(beside) = m.stage(output, output, text) else {
        return Put::NoList;
    };
    if !m.place(beside.as_str(), output, text) {
        let _ = m.take_away(beside.as_str(), output);
        return Put::Unwritten;
    }
    Put::Done
}

/// Writes the metrics to the file of this name, and then prints the text.
fn print_with<M: Machine>(m: &mut M, text: &[u8], metrics: &str, counts: &[u8]) -> Put
    ensures known { M.knows m.old → M.knows m.new }
    ensures put { M.knows m.old → IsPut (M.world m.old) (M.world m.new) None text.now (Some metrics.now) counts.now
        result }
{
    let Some(beside) = m.stage(metrics, metrics, counts) else {
        return Put::NoMetrics;
    };
    if !m.place(beside.as_str(), metrics, counts) {
        let _ = m.take_away(beside.as_str(), metrics);
        return Put::Unplaced;
    }
    if m.print(text) {
        return Put::Done;
    }
    Put::Unwritten
}

/// Writes both texts beside, and then lets each take its place, the metrics first.
fn put_both<M: Machine>(m: &mut M, output: &str, text: &[u8], metrics: &str, counts: &[u8]) -> Put
    requires { output.now ≢ metrics.now }
    ensures known { M.knows m.old → M.knows m.new }
    ensures put { M.knows m.old → IsPut (M.world m.old) (M.world m.new) (Some output.now) text.now (Some metrics.now)
        counts.now result }
{
    let Some(first) = m.stage(output, metrics, text) else {
        return Put::NoList;
    };
    let Some(second) = m.stage(metrics, output, counts) else {
        let _ = m.take_away(first.as_str(), output);
        return Put::NoMetrics;
    };
    if !m.place(second.as_str(), metrics, counts) {
        let _ = m.take_away(first.as_str(), output);
        let _ = m.take_away(second.as_str(), metrics);
        return Put::Unplaced;
    }
    if !m.place(first.as_str(), output, text) {
        let _ = m.take_away(first.as_str(), output);
        return Put::Unwritten;
    }
    Put::Done
}

/// Writes the text to the file of this name, or prints it where none is named; and before that the metrics to theirs,
/// if one is named. Each file has its whole text, or is as before: both are made beside before either takes its place.
pub(crate) fn put_all<M: Machine>(
    m: &mut M,
    output: Option<&str>,
    text: &[u8],
    metrics: Option<&str>,
    counts: &[u8],
) -> Put
    requires { (name : List ℕ) → named output ≡ Some name → named metrics ≢ Some name }
    ensures known { M.knows m.old → M.knows m.new }
    ensures put { M.knows m.old → IsPut (M.world m.old) (M.world m.new) (named output.entry) text.now
        (named metrics.entry) counts.now result }
{
    match output {
        None => match metrics {
            None => print_text(m, text),
            Some(file) => print_with(m, text, file, counts),
        },
        Some(name) => match metrics {
            None => put_text(m, name, text),
            Some(file) => put_both(m, name, text, file, counts),
        },
    }
}
