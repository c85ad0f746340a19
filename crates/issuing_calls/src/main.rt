//! Writes what an authority issues, for tests that give it to others: a line is what to write, in words; a line of
//! hexadecimal digits, or of an error, is the answer. Who calls it holds the keys.
#![tactic(auto)]

mod cert;
mod checked;
mod locator;
mod object;
mod request;
mod signing;
mod words;

use crate::cert::certificate;
use crate::checked::{checked, issued, top};
use crate::locator::locator;
use crate::object::{aspa, list, manifest, object, roa};
use crate::request::{asked, requested};
use crate::words::Text;
use std::alloc::Global;
use std::io;

/// What a line asks for.
fn answer(alloc: Global, row: &str) -> Text {
    let mut all = Vec::new(alloc);
    for word in row.split(' ') {
        match all.push(word) {
            Ok(()) => {}
            Err(_) => return Err("no memory"),
        }
    }
    let [word, words @ ..] = all.as_slice() else {
        return Err("usage");
    };
    match *word {
        "ta" | "ca" | "ee" | "detached" | "router" => certificate(alloc, word, words),
        "crl" => list(alloc, words),
        "mft" => manifest(alloc, words),
        "roa" => roa(alloc, words),
        "aspa" => aspa(alloc, words),
        "object" => object(alloc, words),
        "checked" => checked(alloc, words),
        "issued" => issued(alloc, words),
        "top" => top(alloc, words),
        "asked" => asked(alloc, words),
        "request" => requested(alloc, words),
        "locator" => locator(alloc, words),
        _ => Err("usage"),
    }
}

fn main(rt: HostRuntime) -> io::Result<()> {
    for line in rt.lines(rt.alloc()) {
        let row = line?;
        match answer(rt.alloc(), row.as_str()) {
            Ok(text) => rt.println(text.as_str())?,
            Err(text) => rt.println(text)?,
        }
    }
    Ok(())
}
