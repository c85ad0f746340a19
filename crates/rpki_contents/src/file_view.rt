//! The files that a manifest lists, read in place without memory (RFC 9286 4.2.1).

ghost use Rattle.rpki_der.specs.Prelude.{left, Takes, TakesAll};
ghost use Rattle.rpki_contents.specs.ListedFile.{file_name, file_parts, file};
ghost use Rattle.rpki_contents.specs.ManifestView.{file_in};

use crate::file_name::is_file_name;
use rpki::der::{Constructed, DecodeError, Tag};
use rpki_x509::MessageDigest;

/// A file that a manifest lists, whose name is borrowed.
#[derive(Clone, Copy)]
pub struct FileView<'a> {
    /// The name: letters, digits, `-` and `_`, one at least, a dot, and three small letters.
    pub name: &'a [u8],
    /// The digest of the file's octets.
    pub hash: MessageDigest,
}

/// The name of a file, an IA5String.
fn take_name<'a>(cons: &mut Constructed<'a>) -> Result<&'a [u8], DecodeError>
    ensures { Takes (λ x. x.now) file_name (left cons.old) (left cons.new) result }
{
    let mut after = *cons;
    let name = match after.take_primitive_if(Tag::IA5_STRING) {
        Ok(name) => name,
        Err(e) => return Err(e),
    };
    if !is_file_name(name) {
        return Err(DecodeError::content("malformed name of a file"));
    }
    *cons = after;
    Ok(name)
}

impl<'a> FileView<'a> {
    /// Reads a file: a SEQUENCE of its name and its digest, and nothing else. Allocates nothing.
    ///
    /// The errors are those of a SEQUENCE; then those of an IA5String, and `Content` for contents that are no name of a
    /// file; then those of [MessageDigest::take_bits_from]; then `Trailing` if more follows. An error leaves the cursor
    /// where it was.
    pub fn take_from(cons: &mut Constructed<'a>) -> Result<FileView<'a>, DecodeError>
        ensures { Takes file_in file (left cons.old) (left cons.new) result }
    {
        cons.in_sequence(
            |contents|
                ensures { TakesAll file_in file_parts (left contents.old) (left contents.new) result }
            {
                let name = match take_name(contents) {
                    Ok(name) => name,
                    Err(e) => return Err(e),
                };
                let hash = match MessageDigest::take_bits_from(contents) {
                    Ok(hash) => hash,
                    Err(e) => return Err(e),
                };
                Ok(FileView { name, hash })
            },
        )
    }
}
