//! Where a run writes, by its words.

ghost use Rattle.std.specs.Prelude.{◌≡◌, ◌||◌, IfOk, Some, is_some, map, string_bytes};
ghost use Rattle.rpki_cli.specs.Given.{named};
ghost use Rattle.rpkivalid.specs.RequestView.{asked_of, rows_in};
ghost use Rattle.rpkivalid.specs.Request.{payloads};
ghost use Rattle.rpkivalid.specs.Sinks.{file_of, sinks_for, sinks_in, sinks_of, streams, unless_given};
ghost use Rattle.rpkivalid.specs.ProgramView.{sinks_by};

use crate::request::{Request, is_given, matched};
use clap::ArgMatches;
use rpki_cli::give::Outputs;
use std::alloc::{AllocError, Global};

/// Where a run writes.
#[derive(Clone, Copy)]
pub struct Sinks<'a> {
    /// Its files.
    pub outputs: Outputs<'a>,
    /// Whether standard error is told less.
    pub is_quiet: bool,
}

/// Standard output and standard error.
fn streams<'a>() -> Sinks<'a>
    ensures { sinks_by result ≡ streams }
{
    Sinks {
        outputs: Outputs {
            output: None,
            metrics: None,
            log: None,
        },
        is_quiet: false,
    }
}

/// The file of this name; `-` is standard output.
fn file_of<'a>(name: Option<&'a str>) -> Option<&'a str>
    ensures { named result ≡ file_of (named name.entry) }
{
    match name {
        None => None,
        Some(name) => {
            if name == "-" {
                return None;
            }
            Some(name)
        }
    }
}

/// The file of this name, where there is no such word.
fn unless_given<'a>(word: Option<&'a str>, name: Option<&'a str>) -> Option<&'a str>
    ensures { named result ≡ unless_given (named word.entry) (named name.entry) }
{
    match word {
        None => name,
        Some(_) => None,
    }
}

/// Whether standard error is told less: where that is asked for, and where there is a log.
fn tells_less(is_asked: bool, log: Option<&str>) -> bool
    ensures { result ≡ (is_asked || is_some (named log.entry)) }
{
    match log {
        None => is_asked,
        Some(_) => true,
    }
}

/// Where the run of the request, in which this was matched, writes.
fn sinks_for<'a>(matches: &ArgMatches<'a>, request: &Request<'_, 'a>) -> Sinks<'a>
    ensures { sinks_by result ≡ sinks_for (rows_in matches.now) (Some (payloads (asked_of request.now))) }
{
    let output = file_of(request.output);
    let listed = unless_given(request.compare, request.metrics);
    let metrics = unless_given(request.explain, listed);
    let log = matches.get_str("log");
    let is_quiet = tells_less(is_given(matches, "quiet"), log);
    Sinks {
        outputs: Outputs {
            output,
            metrics,
            log,
        },
        is_quiet,
    }
}

/// Where the run that was asked for by these words, in which this was matched, writes.
fn sinks_in<'a>(matches: &ArgMatches<'a>) -> Sinks<'a>
    ensures { sinks_by result ≡ sinks_in (Some (rows_in matches.now)) }
{
    if is_given(matches, "help") {
        return streams();
    }
    if is_given(matches, "version") {
        return streams();
    }
    match Request::of(matches) {
        Some(request) => sinks_for(matches, &request),
        None => streams(),
    }
}

/// Where the run that these words ask for writes. An explanation and a comparison have no metrics; where there is a
/// log standard error is told less.
///
/// Returns `AllocError` if allocation fails.
pub fn sinks_of<'a>(alloc: Global, words: &'a [String]) -> Result<Sinks<'a>, AllocError>
    ensures { IfOk result (λ sinks. sinks_by sinks ≡ sinks_of (map string_bytes words.entry.now)) }
{
    match matched(alloc, words)? {
        Some(matches) => Ok(sinks_in(&matches)),
        None => Ok(streams()),
    }
}
