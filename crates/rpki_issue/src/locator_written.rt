//! Trust anchor locators as text (RFC 8630 2.2).

ghost use Rattle.std.specs.Prelude.{◌≡◌, ◌<◌, ◌++◌, map, length, IfOk, IfErr};
ghost use Rattle.std.specs.List.{prefix_len};
ghost use Rattle.rpki_locator.specs.Locator.{is_anchor_uri, uri_text};
ghost use Rattle.rpki_issue.specs.Locators.{line_octets, lines_octets, folded, info_digits, locator_octets};
ghost use Rattle.rpki_issue.specs.Locators.{IsLocatorReadBack, IsKeyRead, AreNoUris, IsLongKey, IsNoLocator};

use base64::engine::general_purpose::STANDARD;
use rpki::crypto::PublicKey;
use rpki::der::Values;
use rpki_locator::AnchorUri;
use std::alloc::{AllocError, Global};
use std::error::Error;
use std::fmt;

/// Why a trust anchor locator isn't written.
#[derive(Clone, Copy, Debug, PartialEq, Eq)]
pub enum LocatorWriteError {
    /// There is no URI.
    NoUri,
    /// The URI with this index, counted from 0, is the first that no locator has: one by rsync of a folder, or of 3,080
    /// octets or more.
    OtherUri(usize),
    /// The key has more octets than a length announces, 2^32.
    TooLong,
    /// Allocation failed.
    OutOfMemory,
}

/// What a person reads.
impl fmt::Display for LocatorWriteError {
    ghost use Rattle.std.specs.Prelude.{Some};
    ghost use Rattle.rpki_issue.specs.Locators.{locator_write_text};

    ghost output = { λ e. Some (locator_write_text e) };

    fn fmt<W: fmt::Write>(&self, f: &mut fmt::Formatter<W>) -> fmt::Result {
        match self {
            LocatorWriteError::NoUri => f.write_str("locator without a URI"),
            LocatorWriteError::OtherUri(_) => f.write_str("URI that no locator has"),
            LocatorWriteError::TooLong => f.write_str("more octets than a length announces"),
            LocatorWriteError::OutOfMemory => f.write_str("out of memory"),
        }
    }
}

impl Error for LocatorWriteError {}

/// `OutOfMemory`.
impl From<AllocError> for LocatorWriteError {
    ghost use Rattle.std.specs.Prelude.{◌≡◌};
    ghost use Rattle.rpki_issue.specs.declared.locator_written.LocatorWriteError.TheVariants.{OutOfMemory};

    ghost from_gives = { λ _ e. e ≡ OutOfMemory };

    fn from(_: AllocError) -> LocatorWriteError {
        LocatorWriteError::OutOfMemory
    }
}

/// Whether a locator may have the URI.
fn can_locate(uri: &AnchorUri) -> bool
    ensures { result ≡ is_anchor_uri (uri_text uri.now) }
{
    match uri {
        AnchorUri::Rsync(uri) => uri.as_slice().len() < 3080 && !uri.path_is_dir(),
        AnchorUri::Https(uri) => {
            // its clause says that it is read again
            let _ = uri.as_slice();
            true
        }
    }
}

/// Adds the line, and a line feed.
fn put_line(text: &mut Vec<u8>, line: &[u8]) -> Result<(), AllocError>
    ensures { IfOk result (λ _. text.new.items ≡ text.old.items ++ line_octets line.now) }
{
    text.extend_from_slice(line)?;
    text.extend_from_slice(b"\n")
}

/// The URIs, a line each.
///
/// The errors are `NoUri` if there is none, `OtherUri` of the first that no locator has, and `OutOfMemory` if
/// allocation fails.
fn list_uris(alloc: Global, uris: &[AnchorUri]) -> Result<Vec<u8>, LocatorWriteError>
    ensures ok { IfOk result (λ v. v.items ≡ lines_octets (map uri_text uris.now)) }
    ensures all { IfOk result (λ _. prefix_len is_anchor_uri (map uri_text uris.now) ≡ length uris.now) }
    ensures some { IfOk result (λ _. 0 < length uris.now) }
    ensures err { IfErr result (AreNoUris (map uri_text uris.now)) }
{
    if uris.is_empty() {
        return Err(LocatorWriteError::NoUri);
    }
    let mut text = Vec::new(alloc);
    'uris: for at in 0..uris.len() {
        let uri = &uris[at];
        if !can_locate(uri) {
            return Err(LocatorWriteError::OtherUri(at));
        }
        put_line(&mut text, uri.as_slice())?;
    }
    Ok(text)
}

/// Adds the digits, in lines of 64.
fn put_digits(text: &mut Vec<u8>, digits: &[u8]) -> Result<(), AllocError>
    ensures { IfOk result (λ _. text.new.items ≡ text.old.items ++ lines_octets (folded digits.now)) }
{
    for line in digits.chunks(64) {
        put_line(text, line)?;
    }
    Ok(())
}

/// Adds the key, in base 64.
///
/// The errors are `TooLong` for 2^32 octets or more, and `OutOfMemory` if allocation fails.
fn put_key_text(alloc: Global, text: &mut Vec<u8>, key: &PublicKey) -> Result<(), LocatorWriteError>
    ensures ok { IfOk result (λ _. text.new.items ≡ text.old.items ++ lines_octets (folded (info_digits key.now))) }
    // The digits stand for the key, which is read again.
    ensures read { IfOk result (λ _. IsKeyRead key.now) }
    ensures err { IfErr result (IsLongKey key.now) }
{
    if !key.encode_ref().fits() {
        return Err(LocatorWriteError::TooLong);
    }
    let info = key.to_info_bytes(alloc)?;
    let digits = STANDARD.encode(alloc, info.as_slice())?;
    put_digits(text, digits.as_bytes())?;
    Ok(())
}

/// A trust anchor locator (RFC 8630 2.2): a line for each URI, in the order in which they are to be tried; an empty
/// line; and the key, a SubjectPublicKeyInfo (RFC 5280 4.1), in base 64 with padding (RFC 4648 4), in lines of 64
/// digits. A line feed ends each line.
///
/// The errors are `NoUri` if there is none; `OtherUri` of the first that no locator has; `TooLong` for a key of 2^32
/// octets or more; and `OutOfMemory` if allocation fails.
pub fn write_locator(
    alloc: Global,
    uris: &[AnchorUri],
    key: &PublicKey,
) -> Result<Vec<u8>, LocatorWriteError>
    ensures ok { IfOk result (λ v. v.items ≡ locator_octets (map uri_text uris.now) key.now) }
    // It is read as these URIs and this key.
    ensures read_back { IfOk result (λ v. IsLocatorReadBack (map uri_text uris.now) key.now v.items) }
    ensures err { IfErr result (IsNoLocator (map uri_text uris.now) key.now) }
{
    let mut text = list_uris(alloc, uris)?;
    put_line(&mut text, b"")?;
    put_key_text(alloc, &mut text, key)?;
    Ok(text)
}
