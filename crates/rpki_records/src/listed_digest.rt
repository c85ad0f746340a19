//! The files of a signed checklist (RFC 9323 4.4).

ghost use Rattle.std.specs.Prelude.{◌≡◌};
ghost use Rattle.rpki_der.specs.Prelude.{left};
ghost use Rattle.rpki_parse.specs.Words.{Moves, parsed};
ghost use Rattle.rpki_records.specs.Checklist.{are_portable, file_at, file_of, is_portable, is_portable_octet};
ghost use Rattle.rpki_records.specs.Checklist.{name_at, portable_at};

use rpki_der::{Constructed, DecodeError, Ia5String, Tag};
use rpki_parse::{finish, has_tag, take_ia5, take_octet_array, take_sequence};

/// A file of a checklist, whose name is borrowed.
#[derive(Drop)]
pub struct ListedDigest<'a> {
    /// The name, where there is one: letters, digits, `.`, `_` and `-`, one at least.
    pub name: Option<Ia5String<'a>>,
    /// The digest of the file's octets by SHA-256.
    pub digest: [u8; 32],
}

/// Whether the octet is a letter, a digit, `.`, `_` or `-`.
fn is_portable_octet(octet: u8) -> bool
    ensures { result ≡ is_portable_octet octet }
{
    octet.is_ascii_alphanumeric() || octet == b'.' || octet == b'_' || octet == b'-'
}

/// Whether all of them are such characters.
fn are_portable(octets: &[u8]) -> bool
    ensures { result ≡ are_portable octets.now }
{
    octets.iter().all(|octet| is_portable_octet(*octet))
}

/// Whether this is a portable file name: one such character at least.
fn is_portable(name: &[u8]) -> bool
    ensures { result ≡ is_portable name.now }
{
    0 < name.len() && are_portable(name)
}

/// A portable file name, an IA5String.
fn take_portable<'a>(cons: &mut Constructed<'a>) -> Result<Ia5String<'a>, DecodeError>
    ensures { parsed (λ name. name) result (left cons.new) ≡ portable_at (left cons.old) }
{
    let mut after = *cons;
    let name = take_ia5(&mut after)?;
    if !is_portable(name.as_str().as_bytes()) {
        return Err(DecodeError::content("malformed name of a file"));
    }
    *cons = after;
    Ok(name)
}

/// The name, where the tag of one is in front.
fn take_name<'a>(cons: &mut Constructed<'a>) -> Result<Option<Ia5String<'a>>, DecodeError>
    ensures { parsed (λ name. name) result (left cons.new) ≡ name_at (left cons.old) }
{
    if !has_tag(cons, Tag::IA5_STRING) {
        return Ok(None);
    }
    let name = take_portable(cons)?;
    Ok(Some(name))
}

impl<'a> ListedDigest<'a> {
    /// Reads a file: a SEQUENCE of its name, which may be left out, and its digest, and nothing else. Allocates
    /// nothing.
    ///
    /// The errors are those of a SEQUENCE; then those of an IA5String, and `Content` for contents that are no portable
    /// file name; then those of an OCTET STRING, and `Content` for another size; then `Trailing` if more follows. An
    /// error leaves the cursor where it was.
    #[tactic(auto, unfolding(crate::specs::Checklist::file_at))]
    pub fn take_from(cons: &mut Constructed<'a>) -> Result<ListedDigest<'a>, DecodeError>
        ensures reads { parsed file_of result (left cons.new) ≡ file_at (left cons.old) }
        ensures moves { Moves (left cons.old) (left cons.new) result }
    {
        let mut after = *cons;
        let mut contents = take_sequence(&mut after)?;
        let name = take_name(&mut contents)?;
        let digest = take_octet_array::<32>(&mut contents)?;
        finish(contents)?;
        *cons = after;
        Ok(ListedDigest { name, digest })
    }
}
