//! Makes one call of the library, named by its words, on what standard input holds, and reports what is seen of it:
//! what it made or why it made nothing, and what its arguments hold afterwards. `tests/hostile/run` looks at these
//! lines.
//!
//! The words are a group of calls (what the input is read as, or what is made of it), the call, and for `join` the path
//! that is joined, or for `repeated` how often. `write` writes an encoder's values to writers that fail. `repeat` reads
//! no input: it makes one call on an rsync URI of so many segments so many times, and reports the sum of the results,
//! for `bench/uris.py`.
#![tactic(auto)]

mod certificates;
mod contents;
mod cursors;
mod encoders;
mod lists;
mod made;
mod objects;
mod processed;
mod provider;
mod readers;
mod refusal;
mod repeated;
mod report;
mod resources;
mod texts;
mod trust;
mod uris;
mod values;
mod writers;

use crate::refusal::Failure;
use crate::report::Report;
use std::alloc::Global;
use std::env;
use std::io::{Read, Write};
use std::process::ExitCode;

/// All of standard input.
fn input(rt: &HostRuntime) -> Result<Vec<u8>, Failure> {
    let mut octets = Vec::new(rt.alloc());
    rt.stdin().read_to_end(&mut octets)?;
    Ok(octets)
}

/// Makes the call of this group on these octets.
fn tell_of(
    alloc: Global,
    report: Report,
    (group, call, path): (&str, &str, &str),
    octets: Vec<u8>,
) -> Result<(), Failure> {
    match group {
        "cursor" | "slice" => cursors::tell(alloc, report, (group, call), octets),
        "whole" => values::tell_whole(alloc, report, call, octets),
        "captured" => values::tell_captured(alloc, report, (call, path), octets),
        "bits" => values::tell_bits(alloc, report, call, octets),
        "key" => values::tell_key(alloc, report, call, octets),
        "signed" => values::tell_signed(alloc, report, call, octets),
        "name" => values::tell_name(alloc, report, call, octets),
        "extension" => values::tell_extension(alloc, report, call, octets),
        "rsync_of" => uris::tell_rsync_of(alloc, report, call, octets),
        "https_of" => uris::tell_https_of(alloc, report, call, octets),
        "rsync" => uris::tell_rsync(alloc, report, call, path, octets),
        "https" => uris::tell_https(alloc, report, call, path, octets),
        "text" => texts::tell(alloc, report, call, octets),
        "certificate" => certificates::tell(alloc, report, (call, path), octets),
        "resources" => resources::tell(alloc, report, call, octets),
        "list" => lists::tell(alloc, report, (call, path), octets),
        "object" => objects::tell(alloc, report, (call, path), octets),
        "process" => processed::tell(alloc, report, (call, path), octets),
        "content" => contents::tell(alloc, report, call, octets),
        "write" => encoders::tell(alloc, report, call, octets),
        _ => Err(Failure::Usage),
    }
}

/// Makes the call that the words name.
fn tell(rt: &HostRuntime, words: &[String]) -> Result<(), Failure> {
    let report = Report::new(rt.stdout());
    match words {
        [group, call] => tell_of(
            rt.alloc(),
            report,
            (group.as_str(), call.as_str(), ""),
            input(rt)?,
        ),
        [group, call, path] => tell_of(
            rt.alloc(),
            report,
            (group.as_str(), call.as_str(), path.as_str()),
            input(rt)?,
        ),
        [group, call, segments, times] if group.as_str() == "repeat" => {
            repeated::tell(
                rt.alloc(),
                report,
                call.as_str(),
                segments.as_str(),
                times.as_str(),
            )
        }
        _ => Err(Failure::Usage),
    }
}

/// The exit status of a run that reports no call, and the line that says why.
fn failed(rt: &HostRuntime, failure: Failure) -> u8 {
    let (status, line) = match failure {
        Failure::Usage => (
            2,
            "usage: hostile_calls GROUP CALL [PATH] | repeat CALL SEGMENTS TIMES\n",
        ),
        Failure::Refused => (1, "refused\n"),
        Failure::OutOfMemory => (1, "out of memory\n"),
        Failure::Stream => (1, "input or output failed\n"),
    };
    let _ = rt.stderr().write_all(line.as_bytes());
    status
}

/// Makes the call that the program's arguments name.
fn run(rt: &HostRuntime) -> Result<(), Failure> {
    let words: Vec<String> = env::args(rt)?.skip(1).collect(rt.alloc())?;
    tell(rt, &words)
}

fn main(rt: HostRuntime) -> ExitCode {
    match run(&rt) {
        Ok(()) => ExitCode::SUCCESS,
        Err(failure) => ExitCode::from(failed(&rt, failure)),
    }
}
