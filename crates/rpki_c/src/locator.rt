//! Trust anchor locators.

ghost use Rattle.std.specs.Prelude.{◌≡◌, map};
ghost use Rattle.rpki_locator.specs.Locator.{uri_text};
ghost use Rattle.rpki_c.specs.Locator.{locator_number, line_of, IsUriFound, IsLocatorRead};
ghost use Rattle.rpki_c.specs.Locator.{IsUriWritten, IsAnchorWritten};

use crate::key_writing::store_key;
use crate::status::{NO_ANSWER, OUT_OF_MEMORY};
use crate::stored::store;
use rpki_locator::{AnchorUri, Locator, LocatorError};
use std::alloc::Global;

/// How an error is passed.
fn locator_number(error: LocatorError) -> u8
    ensures { result ≡ locator_number error }
{
    match error {
        LocatorError::OtherUri(_) => 24,
        LocatorError::NoUri(_) => 25,
        LocatorError::NoKey(_) => 26,
        LocatorError::OtherText(_) => 27,
        LocatorError::OtherKey(_, _) => 28,
        LocatorError::OutOfMemory => OUT_OF_MEMORY,
    }
}

/// The line that the error names, or else the old one.
fn line_of(error: LocatorError, old: usize) -> usize
    ensures { result ≡ line_of old error }
{
    match error {
        LocatorError::OtherUri(line) => line,
        LocatorError::NoUri(line) => line,
        LocatorError::NoKey(line) => line,
        LocatorError::OtherText(line) => line,
        LocatorError::OtherKey(line, _) => line,
        LocatorError::OutOfMemory => old,
    }
}

/// Reads a trust anchor locator (RFC 8630 2.2), and says how many URIs it has: lines of comments, which begin with `#`;
/// a line for each URI, one at least, an rsync URI of a single object or an https URI; an empty line; and the key, a
/// SubjectPublicKeyInfo, in base 64 with padding, in any number of lines. A line ends with a line feed, in front of
/// which a carriage return may be, or with the text.
///
/// The status is 0, and `line` is unchanged. Else `count` is, and it is the first that is wrong, of the line `line`,
/// counted from 1: `LOCATOR_URI`, a line is no such URI; `LOCATOR_NO_URI`, there is none where one is due;
/// `LOCATOR_NO_KEY`, no empty line follows; `LOCATOR_TEXT`, what follows is no base 64; `LOCATOR_KEY`, what that stands
/// for is no public key; or `OUT_OF_MEMORY`, and `line` is unchanged.
#[unsafe(no_mangle)]
pub extern "C" fn rpki_locator(
    alloc: Global,
    text: &[u8],
    count: &mut usize,
    line: &mut usize,
) -> u8
    ensures { IsLocatorRead text.now result count.old count.new line.old line.new }
{
    match Locator::read(alloc, text) {
        Ok(found) => {
            *count = found.uris.len();
            0
        }
        Err(error) => {
            *line = line_of(error, *line);
            locator_number(error)
        }
    }
}

/// Writes the URI of this number. The status is 0, `TOO_SMALL`, or `NO_ANSWER` where there are no more.
fn store_uri(uris: &[AnchorUri], number: usize, out: &mut [u8], written: &mut usize) -> u8
    ensures { IsUriFound (map uri_text uris.now) number result out.old out.new written.old written.new }
{
    if number < uris.len() {
        return store(uris[number].as_slice(), out, written);
    }
    NO_ANSWER
}

/// Reads a trust anchor locator, as [rpki_locator] does, and writes the text of its URI of this number, counted from 0,
/// as it is spelled, to the front of the buffer.
///
/// The status is 0; `TOO_SMALL` where the buffer is shorter, and nothing is written to it; in both cases `written` is
/// the count of the octets. `NO_ANSWER` where the locator has no more URIs. Else it is that of `rpki_locator`. Unless
/// it is 0 or `TOO_SMALL`, nothing is written.
#[unsafe(no_mangle)]
pub extern "C" fn rpki_locator_uri(
    alloc: Global,
    text: &[u8],
    number: usize,
    out: &mut [u8],
    written: &mut usize,
) -> u8
    ensures { IsUriWritten text.now number result out.old out.new written.old written.new }
{
    match Locator::read(alloc, text) {
        Ok(found) => store_uri(found.uris.as_slice(), number, out, written),
        Err(error) => locator_number(error),
    }
}

/// Reads a trust anchor locator, as [rpki_locator] does, and writes its public key (SubjectPublicKeyInfo, RFC 5280 4.1)
/// to the front of the buffer, as `rpki_public_key_write` writes it: for `rpki_authority_anchor`.
///
/// The status is 0; `TOO_SMALL` where the buffer is shorter, and nothing is written to it; in both cases `written` is
/// the count of the octets. Else it is that of `rpki_locator`, or `TOO_LONG`, as of `rpki_public_key_write`. Unless it
/// is 0 or `TOO_SMALL`, nothing is written.
#[unsafe(no_mangle)]
pub extern "C" fn rpki_locator_key(
    alloc: Global,
    text: &[u8],
    out: &mut [u8],
    written: &mut usize,
) -> u8
    ensures { IsAnchorWritten text.now result out.old out.new written.old written.new }
{
    match Locator::read(alloc, text) {
        Ok(found) => store_key(alloc, &found.key, out, written),
        Err(error) => locator_number(error),
    }
}
