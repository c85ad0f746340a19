//! A program that validates a local copy of a repository of the RPKI, and writes the payloads that are valid.
#![tactic(auto)]

mod arguments;
mod cache;
mod compared;
mod complaint;
mod counted;
mod denial;
mod enough;
mod excepted;
mod explained;
mod found;
mod gathered;
mod host;
mod input;
mod locators;
mod moment;
mod paths;
mod place;
mod program;
mod question;
mod reasons;
mod refused;
mod rejected_point;
mod report;
mod request;
mod run;
mod shown;
mod sinks;
mod sources;
mod texts;
mod told;
mod unverified;
mod walked;
mod without;

use crate::host::HostSources;
use crate::program::run_on;
use rpki_cli::host::Host;
use std::env;
use std::process::ExitCode;

fn main(rt: HostRuntime) -> ExitCode {
    let (sources, folders, mut machine) = (HostSources::new(&rt), Host::new(&rt), Host::new(&rt));
    let status = run_on(rt.alloc(), env::args(&rt), &sources, &folders, &mut machine);
    ExitCode::from(status)
}
