//! Trust anchor locators.

use crate::words::{Text, digits, key_of};
use rpki::uri::{Https, Rsync};
use rpki_issue::{LocatorWriteError, write_locator};
use rpki_locator::AnchorUri;
use std::alloc::Global;

/// A URI by HTTPS, or else by rsync.
fn uri_of(alloc: Global, text: &str) -> Result<AnchorUri, &'static str> {
    match Https::from_str(alloc, text) {
        Ok(uri) => return Ok(AnchorUri::Https(uri)),
        Err(_) => {}
    }
    match Rsync::from_str(alloc, text) {
        Ok(uri) => Ok(AnchorUri::Rsync(uri)),
        Err(_) => Err("no URI"),
    }
}

/// The name of a refusal, and of a URI that no locator has its index.
fn refusal(alloc: Global, error: LocatorWriteError) -> Text {
    match error {
        LocatorWriteError::NoUri => Err("NoUri"),
        LocatorWriteError::OtherUri(at) => match format!(in alloc; "OtherUri {at}") {
            Ok(text) => Ok(text),
            Err(_) => Err("no memory"),
        },
        LocatorWriteError::TooLong => Err("TooLong"),
        LocatorWriteError::OutOfMemory => Err("OutOfMemory"),
    }
}

/// `KEY URI..`: the octets of the locator of this key, with these URIs.
pub fn locator(alloc: Global, words: &[&str]) -> Text {
    let [key, texts @ ..] = words else {
        return Err("usage");
    };
    let key = key_of(alloc, Some(key))?;
    let mut uris = Vec::new(alloc);
    for text in texts {
        match uris.push(uri_of(alloc, text)?) {
            Ok(()) => {}
            Err(_) => return Err("no memory"),
        }
    }
    match write_locator(alloc, uris.as_slice(), &key) {
        Ok(text) => digits(alloc, text.as_slice()),
        Err(e) => refusal(alloc, e),
    }
}
