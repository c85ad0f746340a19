//! A program that prints the objects of a repository of the RPKI, verifies them, and holds them to profiles, an issuer
//! and a moment.
#![tactic(auto)]

mod alone;
mod arguments;
mod broken;
mod choice;
mod complaint;
mod fault;
mod files;
mod folders;
mod input;
mod issuer;
mod laws;
mod locator;
mod moment;
mod outcome;
mod output;
mod pem;
mod profile;
mod program;
mod request;
mod requirements;
mod runs;
mod signature;
mod signed;
mod sources;
mod texts;
mod told;
mod values;
mod violation;
mod violation_lines;

use crate::program::run_on;
use crate::sources::HostSources;
use rpki_cli::host::Host;
use std::env;
use std::process::ExitCode;

fn main(rt: HostRuntime) -> ExitCode {
    let (sources, mut machine) = (HostSources::new(&rt), Host::new(&rt));
    let status = run_on(rt.alloc(), env::args(&rt), &sources, &mut machine);
    ExitCode::from(status)
}
