//! A program over the layer: it reads standard input, and writes what a word asks of it.
#![tactic(auto)]

mod answers;
mod arguments;
mod command;
mod extensions;
mod fault;
mod input;
mod keys;
mod laws;
mod lines;
mod names;
mod provider;
mod runs;
#[cfg(test)]
mod tests;
mod uris;

use crate::arguments::words_of;
use crate::fault::refuse;
use crate::runs::run;
use std::env;
use std::process::ExitCode;

fn main(rt: HostRuntime) -> ExitCode {
    let status = match words_of(rt.alloc(), env::args(&rt)) {
        Ok(words) => run(
            rt.alloc(),
            words.as_slice(),
            &mut rt.stdin(),
            &mut rt.stdout(),
            &mut rt.stderr(),
        ),
        Err(fault) => refuse(&mut rt.stderr(), fault),
    };
    ExitCode::from(status)
}
