//! Reads rows of the bits of a key, a message and a signature, in hexadecimal digits, and prints whether each signature
//! is one of the message by the key. Rows are made by `tests/signatures/rows.py`.
#![tactic(auto)]

use rpki_rsa::Key;
use std::alloc::Global;
use std::io;

/// The octets that hexadecimal digits spell, or none.
fn octets_of(alloc: Global, text: Option<&str>) -> Vec<u8> {
    match hex::decode(alloc, text.unwrap_or("")) {
        Ok(octets) => octets,
        Err(_) => Vec::new(alloc),
    }
}

/// What a row says.
fn answer(alloc: Global, row: &str) -> &'static str {
    let mut words = row.split(' ');
    let bits = octets_of(alloc, words.next());
    let message = octets_of(alloc, words.next());
    let signature = octets_of(alloc, words.next());
    match Key::from_bits(&bits) {
        Ok(key) => {
            if key.verifies(&message, &signature) {
                "valid"
            } else {
                "invalid"
            }
        }
        Err(_) => "rejected key",
    }
}

fn main(rt: HostRuntime) -> io::Result<()> {
    for line in rt.lines(rt.alloc()) {
        let row = line?;
        rt.println(answer(rt.alloc(), row.as_str()))?;
    }
    Ok(())
}
