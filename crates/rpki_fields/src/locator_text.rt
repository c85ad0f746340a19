//! What is shown of a trust anchor locator.

ghost use Rattle.std.specs.Prelude.{◌≡◌, IfOk, map};
ghost use Rattle.rpki_locator.specs.Locator.{uri_text, without_return};
ghost use Rattle.rpki_fields.specs.LocatorText.{comments_in, locator_fields, IsLocatorSheet};

use crate::card_text::push_texts_if;
use crate::cert_text::key;
use crate::field::{Field, push_field};
use crate::sheet::Sheet;
use crate::value::colon_digits;
use crate::visible_text::push_texts;
use rpki_locator::{AnchorUri, Locator};
use sha1::Sha1;
use sha2::Digest;
use std::alloc::{AllocError, Global};

/// The line without the carriage return at its end, which belongs to its line break.
fn without_return(line: &[u8]) -> &[u8]
    ensures { result.now ≡ without_return line.entry.now }
{
    if line.ends_with(b"\r") {
        return &line[..line.len() - 1];
    }
    line
}

/// The lines in front that are comments.
fn comments_in(alloc: Global, text: &[u8]) -> Result<Vec<&[u8]>, AllocError>
    ensures { IfOk result (λ v. map (λ line. line.now) v.items ≡ comments_in text.entry.now) }
{
    text.split(|octet| *octet == b'\n')
        .map(without_return)
        .take_while(|line| line.starts_with(b"#"))
        .collect(alloc)
}

/// The texts of the URIs.
fn uri_texts<'a>(alloc: Global, uris: &'a [AnchorUri]) -> Result<Vec<&'a [u8]>, AllocError>
    ensures { IfOk result (λ v. map (λ text. text.now) v.items ≡ map uri_text uris.now) }
{
    let mut all = Vec::new(alloc);
    'uris: for uri in uris {
        all.push(uri.as_slice())?;
    }
    Ok(all)
}

/// The fields of a locator, which end with these of its key.
fn locator_fields(
    alloc: Global,
    name: &[u8],
    text: &[u8],
    locator: &Locator,
    shown: Vec<Field>,
) -> Result<Vec<Field>, AllocError>
    ensures { IfOk result (λ fields. fields.items ≡ locator_fields name.now text.now
        (map uri_text locator.now.uris.items) locator.now.key shown.items) }
{
    let identifier = colon_digits(alloc, &Sha1::digest(locator.key.bits()))?;
    let uris = uri_texts(alloc, locator.uris.as_slice())?;
    let comments = comments_in(alloc, text)?;
    let mut shown = shown;
    let mut fields = Vec::new(alloc);
    push_field(&mut fields, b"Type", b"tal")?;
    push_field(&mut fields, b"Name", name)?;
    push_field(&mut fields, b"SKI", identifier.as_slice())?;
    push_texts(&mut fields, b"Trust Anchor Locations", uris.as_slice())?;
    push_texts_if(&mut fields, b"Comments", comments.as_slice())?;
    fields.append(&mut shown)?;
    Ok(fields)
}

/// The sheet of the locator of this name that the text is: where the certificate of the trust anchor is, comments, and
/// the key, with its digest, which is the subject key identifier of that certificate.
///
/// Returns `AllocError` if allocation fails.
pub fn locator_sheet(
    alloc: Global,
    name: &[u8],
    text: &[u8],
    locator: &Locator,
) -> Result<Sheet, AllocError>
    ensures { IfOk result (λ s. IsLocatorSheet name.now text.now (map uri_text locator.now.uris.items)
        locator.now.key s) }
{
    let shown = key(alloc, &locator.key)?;
    let fields = locator_fields(alloc, name, text, locator, shown)?;
    Ok(Sheet::plain(fields))
}
