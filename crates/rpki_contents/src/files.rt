//! The files that a manifest lists, in sequence, in place (RFC 9286 4.2.1).

ghost use Rattle.std.specs.Prelude.{IfSome, IfOk, IfErr};
ghost use Rattle.rpki_contents.specs.FilesInPlace.{CountsFiles, IsNoFile};
ghost use Rattle.rpki_contents.specs.InPlace.{Follows};
ghost use Rattle.rpki_contents.specs.ListedFile.{file};

use crate::file_name::is_file_name;
use crate::file_view::FileView;
use rpki::der::{Constructed, DecodeError};
use rpki_x509::short_value;

/// What follows the file at the front, where its header and that of its name are two octets each.
#[inline(always)]
fn after_short_file(octets: &[u8]) -> Option<&[u8]>
    ensures { IfSome result (λ r. Follows file.spells octets.now r.now) }
{
    let Some((parts, rest)) = short_value(octets, 0x30) else {
        return None;
    };
    let Some((name, behind)) = short_value(parts, 0x16) else {
        return None;
    };
    match behind {
        [tag, length, unused, digest @ ..] => {
            if *tag != 0x03 || *length != 0x21 || *unused != 0 || digest.len() != 32 {
                return None;
            }
            if !is_file_name(name) {
                return None;
            }
            Some(rest)
        }
        _ => None,
    }
}

/// What follows the file at the front.
#[inline(always)]
fn after_file(octets: &[u8]) -> Result<&[u8], DecodeError>
    ensures ok { IfOk result (λ r. Follows file.spells octets.now r.now) }
    ensures err { IfErr result (λ e. IsNoFile octets.now e) }
{
    match after_short_file(octets) {
        Some(rest) => Ok(rest),
        None => after_any_file(octets),
    }
}

/// The same, however the file is written.
#[inline(never)]
fn after_any_file(octets: &[u8]) -> Result<&[u8], DecodeError>
    ensures ok { IfOk result (λ r. Follows file.spells octets.now r.now) }
    ensures err { IfErr result (λ e. IsNoFile octets.now e) }
{
    let mut rest = Constructed::from_slice(octets);
    match FileView::take_from(&mut rest) {
        Ok(_) => Ok(rest.rest()),
        Err(e) => Err(e),
    }
}

/// How many files the octets are.
///
/// The error is that of the first that isn't there.
pub(crate) fn count_files(octets: &[u8]) -> Result<usize, DecodeError>
    ensures { CountsFiles octets.now result }
{
    let mut rest = octets;
    let mut count = 0;
    'files: while !rest.is_empty() {
        match after_file(rest) {
            Ok(following) => {
                rest = following;
                count += 1;
            }
            Err(e) => return Err(e),
        }
    }
    Ok(count)
}
