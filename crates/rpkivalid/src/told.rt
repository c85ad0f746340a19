//! What is said of a file: where it is rejected, and what lists it.

ghost use Rattle.std.specs.Prelude.{◌≡◌, ◌++◌, IfOk, OnOk, string_bytes};
ghost use Rattle.std.specs.List.{flat_map};
ghost use Rattle.rpkivalid.specs.Told.{anchor_line, concerns, counted_text, counted_word, file_text, is_at};
ghost use Rattle.rpkivalid.specs.Told.{is_beside, is_looked_at, line, listed_line, listing_line, listings_text};
ghost use Rattle.rpkivalid.specs.Told.{manifest_line, needs_text, or_else, place_text, rejected_line, rejection_line};
ghost use Rattle.rpkivalid.specs.Told.{rejections_text, verdict_text, word_of};

use crate::reasons::reason_text;
use crate::walked::Walk;
use rpki::uri::Rsync;
use rpki_validation::{Reason, Rejection};
use std::alloc::{AllocError, Global};

/// Whether both are in one folder.
fn is_beside(uri: &Rsync, other: &Rsync) -> Result<bool, AllocError>
    ensures { IfOk result (λ b. b ≡ is_beside uri.now other.now) }
{
    match uri.parent()? {
        Some(folder) => match other.parent()? {
            Some(other) => Ok(folder == other),
            None => Ok(false),
        },
        None => Ok(false),
    }
}

/// Whether the place is the URI.
fn is_at(uri: &Rsync, place: &Option<Rsync>) -> bool
    ensures { result ≡ is_at uri.now place.now }
{
    match place {
        Some(place) => uri == place,
        None => false,
    }
}

/// Whether the file is rejected, or all that is published in its folder.
fn concerns(uri: &Rsync, rejection: &Rejection) -> Result<bool, AllocError>
    ensures { IfOk result (λ b. b ≡ concerns uri.now rejection.now) }
{
    if !rejection.is_point {
        return Ok(is_at(uri, &rejection.uri));
    }
    match &rejection.uri {
        Some(manifest) => is_beside(uri, manifest),
        None => Ok(false),
    }
}

/// The URI of what is rejected.
pub fn place_text(uri: &Option<Rsync>) -> &str
    ensures { result.now ≡ place_text uri.now }
{
    match uri {
        Some(uri) => uri.as_str(),
        None => "an authority",
    }
}

/// What is rejected.
fn word_of(is_point: bool) -> &'static str
    ensures { result.now ≡ word_of is_point }
{
    if is_point {
        ": publication point rejected: "
    } else {
        ": rejected: "
    }
}

/// The line of what is rejected: the name of the locator, the URI, and why.
pub fn rejected_line(alloc: Global, name: &str, rejection: &Rejection) -> Result<String, AllocError>
    ensures { IfOk result (λ text. string_bytes text ≡ rejected_line name.now rejection.now) }
{
    let place = place_text(&rejection.uri);
    let word = word_of(rejection.is_point);
    let reason = reason_text(alloc, &rejection.reason)?;
    format!(in alloc; "{name}: {place}{word}{reason}\n")
}

/// Adds the line of what is rejected, if it is the file, or all that is published in its folder.
fn push_rejection(
    text: &mut Vec<u8>,
    name: &str,
    uri: &Rsync,
    rejection: &Rejection,
) -> Result<(), AllocError>
    ensures { OnOk result (text.new.items ≡ text.old.items ++ rejection_line name.now uri.now rejection.now) }
{
    if concerns(uri, rejection)? {
        let line = rejected_line(*text.allocator(), name, rejection)?;
        text.extend_from_slice(line.as_bytes())?;
    }
    Ok(())
}

/// Where the file is rejected, or all that is published in its folder, a line each.
fn rejections_text(
    alloc: Global,
    name: &str,
    uri: &Rsync,
    rejections: &[Rejection],
) -> Result<Vec<u8>, AllocError>
    ensures { IfOk result (λ text. text.items ≡ rejections_text name.now uri.now rejections.now) }
{
    let mut text = Vec::new(alloc);
    'rejections: for rejection in rejections {
        push_rejection(&mut text, name, uri, rejection)?;
    }
    Ok(text)
}

/// The line of what lists the file: the manifest at this place.
fn listed_line(alloc: Global, name: &str, place: &Option<Rsync>) -> Result<String, AllocError>
    ensures { IfOk result (λ text. string_bytes text ≡ listed_line name.now place.now) }
{
    let place = place_text(place);
    format!(in alloc; "{name}: listed by {place}\n")
}

/// The line of a file that is a manifest.
fn manifest_line(alloc: Global, name: &str) -> Result<String, AllocError>
    ensures { IfOk result (λ text. string_bytes text ≡ manifest_line name.now) }
{
    format!(in alloc; "{name}: the manifest of an authority\n")
}

/// The line of what lists the file, if that is rejected for want of it; else nothing.
fn listing_line(
    alloc: Global,
    name: &str,
    uri: &Rsync,
    rejection: &Rejection,
) -> Result<String, AllocError>
    ensures { IfOk result (λ text. string_bytes text ≡ listing_line name.now uri.now rejection.now) }
{
    match &rejection.reason {
        Reason::MissingFile(missing) => {
            if uri == missing {
                return listed_line(alloc, name, &rejection.uri);
            }
            Ok(String::new(alloc))
        }
        Reason::Missing => {
            if is_at(uri, &rejection.uri) {
                return manifest_line(alloc, name);
            }
            Ok(String::new(alloc))
        }
        _ => Ok(String::new(alloc)),
    }
}

/// Adds the line of what lists the file.
fn push_listing(
    text: &mut Vec<u8>,
    name: &str,
    uri: &Rsync,
    rejection: &Rejection,
) -> Result<(), AllocError>
    ensures { OnOk result (text.new.items ≡ text.old.items ++ listing_line name.now uri.now rejection.now) }
{
    let line = listing_line(*text.allocator(), name, uri, rejection)?;
    text.extend_from_slice(line.as_bytes())
}

/// What lists the file, a line each, by what is rejected where it is not there.
fn listings_text(
    alloc: Global,
    name: &str,
    uri: &Rsync,
    rejections: &[Rejection],
) -> Result<Vec<u8>, AllocError>
    ensures { IfOk result (λ text. text.items ≡ listings_text name.now uri.now rejections.now) }
{
    let mut text = Vec::new(alloc);
    'rejections: for rejection in rejections {
        push_listing(&mut text, name, uri, rejection)?;
    }
    Ok(text)
}

/// What needs the file, by what is found where it is not there.
fn needs_text(alloc: Global, name: &str, uri: &Rsync, left: &Walk) -> Result<Vec<u8>, AllocError>
    ensures { IfOk result (λ text. text.items ≡ needs_text name.now uri.now left.now) }
{
    match left {
        Walk::Found(outcome) => listings_text(alloc, name, uri, outcome.rejections.as_slice()),
        Walk::NoAnchor(_) => {
            let line = format!(in alloc; "{name}: the certificate of the trust anchor\n")?;
            Ok(line.into_bytes())
        }
    }
}

/// A line of the locator.
fn line(alloc: Global, name: &str, said: &str) -> Result<Vec<u8>, AllocError>
    ensures { IfOk result (λ text. text.items ≡ line name.now said.now) }
{
    let line = format!(in alloc; "{name}: {said}\n")?;
    Ok(line.into_bytes())
}

/// Whether the file is of a kind that is looked at, by its name.
fn is_looked_at(uri: &Rsync) -> bool
    ensures { result ≡ is_looked_at uri.now }
{
    let text = uri.as_slice();
    text.ends_with(b".roa")
        || (text.ends_with(b".asa")
            || (text.ends_with(b".cer") || (text.ends_with(b".crl") || text.ends_with(b".mft"))))
}

/// What is said of a file that is listed, and not rejected.
fn counted_word(is_looked_at: bool) -> &'static str
    ensures { result.now ≡ counted_word is_looked_at }
{
    if is_looked_at {
        "counts"
    } else {
        "not looked at"
    }
}

/// The line of a file that is listed, and not rejected; nothing if it is not listed.
fn counted_text(
    alloc: Global,
    name: &str,
    uri: &Rsync,
    listings: &[u8],
) -> Result<Vec<u8>, AllocError>
    ensures { IfOk result (λ text. text.items ≡ counted_text name.now uri.now listings.now) }
{
    if listings.is_empty() {
        return Ok(Vec::new(alloc));
    }
    line(alloc, name, counted_word(is_looked_at(uri)))
}

/// The text, or the other if it is empty.
fn or_else(text: Vec<u8>, other: Vec<u8>) -> Vec<u8>
    ensures { result.items ≡ or_else text.items other.items }
{
    if text.is_empty() { other } else { text }
}

/// What is said of a file by these texts: where it is rejected, and what lists it.
fn verdict_text(
    alloc: Global,
    name: &str,
    uri: &Rsync,
    rejections: Vec<u8>,
    listings: Vec<u8>,
) -> Result<Vec<u8>, AllocError>
    ensures { IfOk result (λ text. text.items ≡ verdict_text name.now uri.now rejections.items listings.items) }
{
    let counted = counted_text(alloc, name, uri, listings.as_slice())?;
    let mut text = or_else(rejections, counted);
    let none = line(alloc, name, "listed by no manifest that counts")?;
    let listings = or_else(listings, none);
    text.extend_from_slice(listings.as_slice())?;
    Ok(text)
}

/// The line of a locator that has no trust anchor, and why.
fn anchor_line(alloc: Global, name: &str, reason: &Reason) -> Result<Vec<u8>, AllocError>
    ensures { IfOk result (λ text. text.items ≡ anchor_line name.now reason.now) }
{
    let reason = reason_text(alloc, reason)?;
    let line = format!(in alloc; "{name}: no trust anchor: {reason}\n")?;
    Ok(line.into_bytes())
}

/// What is said of the file under the locator of this name, by what is found there, and by what is found where the file
/// is not there.
///
/// Returns `AllocError` if allocation fails.
pub fn file_text(
    alloc: Global,
    name: &str,
    uri: &Rsync,
    found: &Walk,
    left: &Walk,
) -> Result<Vec<u8>, AllocError>
    ensures { IfOk result (λ text. text.items ≡ file_text name.now uri.now found.now left.now) }
{
    match found {
        Walk::Found(outcome) => {
            let rejections = rejections_text(alloc, name, uri, outcome.rejections.as_slice())?;
            let listings = needs_text(alloc, name, uri, left)?;
            verdict_text(alloc, name, uri, rejections, listings)
        }
        Walk::NoAnchor(reason) => anchor_line(alloc, name, reason),
    }
}
