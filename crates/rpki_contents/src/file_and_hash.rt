//! The files that a manifest lists.

ghost use Rattle.std.specs.Prelude.{◌≡◌, IsTrue};
ghost use Rattle.rpki_der.specs.Prelude.{left, Takes, TakesAll};
ghost use Rattle.rpki_contents.specs.FileName.{is_file_name};
ghost use Rattle.rpki_contents.specs.ListedFile.{kept_name, kept_parts, kept_file};

use crate::file_name::is_file_name;
use bytes::Bytes;
use rpki::der::{Constructed, DecodeError, Keep, Tag};
use rpki_x509::MessageDigest;
use std::marker::Model;

/// A file that a manifest lists: its name, and the digest of its octets (RFC 9286 4.2.1).
#[derive(Drop)]
pub struct FileAndHash {
    file: Bytes,
    hash: MessageDigest,
}

impl Model for FileAndHash {
    ghost use Rattle.std.specs.Prelude.{IsTrue};
    ghost use Rattle.rpki_contents.specs.FileName.{is_file_name};
    ghost use Rattle.rpki_contents.specs.ListedFile.{ListedFile};

    ghost Value = { ListedFile };

    ghost view = { λ x. (x.file, x.hash) };

    ghost invariant = { λ x. IsTrue (is_file_name x.file) };
}

/// The name of a file, an IA5String.
fn take_kept_name<K: Keep>(keep: K, cons: &mut Constructed<'_>) -> Result<Bytes, DecodeError>
    requires { K.holds keep (left cons.old) }
    ensures { Takes (λ b. b) kept_name (left cons.old) (left cons.new) result }
{
    let mut after = *cons;
    let name = after.take_primitive_bytes_if(keep, Tag::IA5_STRING)?;
    if !is_file_name(name.as_slice()) {
        return Err(DecodeError::content("malformed name of a file"));
    }
    *cons = after;
    Ok(name)
}

impl FileAndHash {
    /// The file of this name, whose octets have this digest. Requires that it is the name of a file, as [is_file_name]
    /// tests.
    pub fn new(file: Bytes, hash: MessageDigest) -> FileAndHash
        requires { IsTrue (is_file_name file) }
        ensures { result ≡ (file, hash) }
    {
        FileAndHash { file, hash }
    }

    /// The name: letters, digits, `-` and `_`, one at least, a dot, and three small letters.
    pub fn file(&self) -> &[u8]
        ensures name { result.now ≡ self.now.0 }
        ensures legal { IsTrue (is_file_name self.now.0) }
    {
        self.file.as_slice()
    }

    /// The digest of the file's octets.
    pub fn hash(&self) -> MessageDigest
        ensures { result ≡ self.now.1 }
    {
        self.hash
    }

    /// Reads a file: a SEQUENCE of its name and its digest, and nothing else. An allocator copies the name, and
    /// [Shared](rpki::der::Shared) shares it; requires that `keep` can keep parts of the rest.
    ///
    /// The errors are those of a SEQUENCE; then those of an IA5String, `OutOfMemory` if allocation fails, and `Content`
    /// for contents that are no name of a file; then those of [MessageDigest::take_bits_from]; then `Trailing` if more
    /// follows. An error leaves the cursor where it was.
    pub fn take_from<K: Keep>(
        keep: K,
        cons: &mut Constructed<'_>,
    ) -> Result<FileAndHash, DecodeError>
        requires { K.holds keep (left cons.old) }
        ensures { Takes (λ x. x) kept_file (left cons.old) (left cons.new) result }
    {
        cons.in_sequence_with(
            keep,
            |contents, keep|
                requires { K.holds keep (left contents.old) }
                ensures { TakesAll (λ x. x) kept_parts (left contents.old) (left contents.new) result }
            {
                let file = take_kept_name(keep, contents)?;
                let hash = match MessageDigest::take_bits_from(contents) {
                    Ok(hash) => hash,
                    Err(e) => return Err(e),
                };
                Ok(FileAndHash { file, hash })
            },
        )
    }
}
