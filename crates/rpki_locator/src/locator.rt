//! Trust anchor locators.

ghost use Rattle.std.specs.Prelude.{◌≡◌, ◌+◌, ◌≤◌, ◌<◌, ◌^◌, IfOk, IfErr, map, length, MatchResult};
ghost use Rattle.rpki_locator.specs.Locator.{uri_text, IsLocator, IsLocatorError, AreUrisOf, IsFirstOther};
ghost use Rattle.rpki_locator.specs.Locator.{key_digits, IsNoKey};
ghost use Rattle.std.specs.Option.{option_map};
ghost use Rattle.std.specs.Result.{result_ok};
ghost use Rattle.base64.specs.Engines.{standard};
ghost use Rattle.base64.specs.GeneralPurpose.{decode_of};
ghost use Rattle.rpki.specs.PublicKey.{SpellsKey};

use crate::anchor_uri::AnchorUri;
use crate::error::LocatorError;
use crate::lines::{lines_of, sections_of};
use base64::DecodeAllocError;
use base64::engine::general_purpose::STANDARD;
use bytes::Bytes;
use rpki::crypto::PublicKey;
use rpki::der::DecodeError;
use std::alloc::{AllocError, Global};

/// A trust anchor locator (RFC 8630 2.2).
#[derive(Debug, Drop)]
pub struct Locator {
    /// Where the certificate of the trust anchor is, in the order in which the places are tried.
    pub uris: Vec<AnchorUri>,
    /// The key of the trust anchor.
    pub key: PublicKey,
}

/// The URIs that the lines are.
///
/// Returns `OtherUri` of the first that isn't one, where this many lines are in front of the first; `OutOfMemory` if
/// allocation fails.
fn uris_of(alloc: Global, lines: &[&[u8]], before: usize) -> Result<Vec<AnchorUri>, LocatorError>
    requires { before + length lines.now < 2 ^ 64 }
    ensures ok { IfOk result (λ v. AreUrisOf (map (λ line. line.now) lines.now) (map uri_text v.items)) }
    ensures err { IfErr result (IsFirstOther (map (λ line. line.now) lines.now) before) }
{
    let mut uris = Vec::new(alloc);
    'lines: for at in 0..lines.len() {
        match AnchorUri::of_line(alloc, lines[at])? {
            Some(uri) => match uris.push(uri) {
                Ok(()) => {}
                Err(_) => return Err(LocatorError::OutOfMemory),
            },
            None => return Err(LocatorError::OtherUri(before + (at + 1))),
        }
    }
    Ok(uris)
}

/// The text of the lines together.
fn digits_of(alloc: Global, lines: &[&[u8]]) -> Result<Vec<u8>, AllocError>
    ensures { IfOk result (λ v. v.items ≡ key_digits (map (λ line. line.now) lines.now)) }
{
    let mut digits = Vec::new(alloc);
    'lines: for line in lines {
        digits.extend_from_slice(line)?;
    }
    Ok(digits)
}

/// The octets that the lines stand for in base 64; None where they are no base 64.
fn octets_of(alloc: Global, lines: &[&[u8]]) -> Result<Option<Vec<u8>>, AllocError>
    ensures { IfOk result (λ o. option_map (λ v. v.items) o
        ≡ result_ok (decode_of standard (key_digits (map (λ line. line.now) lines.now)))) }
{
    let digits = digits_of(alloc, lines)?;
    match STANDARD.decode(alloc, digits.as_slice()) {
        Ok(octets) => Ok(Some(octets)),
        Err(DecodeAllocError::OutOfMemory) => Err(AllocError),
        Err(DecodeAllocError::DecodeError(_)) => Ok(None),
    }
}

/// The key that the octets are.
///
/// Returns `OtherKey` with this number of a line if they are none; `OutOfMemory` if allocation fails.
fn key_of(alloc: Global, octets: Vec<u8>, line: usize) -> Result<PublicKey, LocatorError>
    ensures ok { IfOk result (λ k. SpellsKey k octets.items) }
    ensures err { IfErr result (IsNoKey octets.items line) }
{
    let octets = match Bytes::from_vec(octets) {
        Ok(octets) => octets,
        Err(_) => return Err(LocatorError::OutOfMemory),
    };
    match PublicKey::decode(alloc, octets) {
        Ok(key) => Ok(key),
        Err(DecodeError::OutOfMemory) => Err(LocatorError::OutOfMemory),
        Err(error) => Err(LocatorError::OtherKey(line, error)),
    }
}

impl Locator {
    /// Reads a trust anchor locator (RFC 8630 2.2): lines of comments, which begin with `#`; a line for each URI, one
    /// at least; an empty line; and the key, a SubjectPublicKeyInfo (RFC 5280 4.1), in base 64 with padding (RFC 4648
    /// 4), in any number of lines. A line ends with a line feed, in front of which a carriage return may be, or with
    /// the text. The URIs are rsync URIs of a single object, not of a folder, and https URIs.
    ///
    /// The error is that of the first malformed line, by its number; then `OutOfMemory` if allocation fails.
    pub fn read(alloc: Global, text: &[u8]) -> Result<Locator, LocatorError>
        ensures ok { IfOk result (λ x. IsLocator text.now (map uri_text x.uris.items) x.key) }
        ensures err { IfErr result (IsLocatorError text.now) }
    {
        let lines = lines_of(alloc, text)?;
        let sections = sections_of(lines.as_slice());
        if sections.uris.is_empty() {
            return Err(LocatorError::NoUri(sections.comments + 1));
        }
        let uris = uris_of(alloc, sections.uris, sections.comments)?;
        let line = sections.comments + sections.uris.len() + 1;
        let Some((_, digits)) = sections.rest.split_first() else {
            return Err(LocatorError::NoKey(line));
        };
        match octets_of(alloc, digits)? {
            Some(octets) => {
                let key = key_of(alloc, octets, line + 1)?;
                Ok(Locator { uris, key })
            }
            None => Err(LocatorError::OtherText(line + 1)),
        }
    }
}
