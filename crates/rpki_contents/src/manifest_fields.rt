//! The fields of a manifest (RFC 9286 4.2).
//!
//! ```text
//! Manifest ::= SEQUENCE {
//!     version         [0] EXPLICIT INTEGER DEFAULT 0,
//!     manifestNumber  INTEGER (0..MAX),
//!     thisUpdate      GeneralizedTime,
//!     nextUpdate      GeneralizedTime,
//!     fileHashAlg     OBJECT IDENTIFIER,
//!     fileList        SEQUENCE SIZE (0..MAX) OF SEQUENCE { file IA5String, hash BIT STRING } }
//! ```

ghost use Rattle.rpki_der.specs.Prelude.{left, Takes, TakesAll};
ghost use Rattle.rpki_contents.specs.Manifest.{each_file, file_list, fields, fields_in, manifest_fields};

use crate::file_and_hash::FileAndHash;
use rpki::crypto::DigestAlgorithm;
use rpki::der::{Constructed, DecodeError, Keep};
use rpki::repository::x509::{Serial, Time};

/// The fields, of which nothing is known but that they were read.
#[derive(Drop)]
pub(crate) struct ManifestFields {
    pub(crate) manifest_number: Serial,
    pub(crate) this_update: Time,
    pub(crate) next_update: Time,
    pub(crate) file_list: Vec<FileAndHash>,
}

/// The files that these contents are, in sequence.
fn take_each_file<K: Keep>(
    keep: K,
    contents: &mut Constructed<'_>,
) -> Result<Vec<FileAndHash>, DecodeError>
    requires { K.holds keep (left contents.old) }
    ensures { TakesAll (λ v. v.items) each_file (left contents.old) (left contents.new) result }
{
    contents.take_each_with(
        keep,
        |rest, keep|
            requires { K.holds keep (left rest.old) }
        { FileAndHash::take_from(keep, rest) },
    )
}

/// The SEQUENCE of files.
fn take_file_list<K: Keep>(
    keep: K,
    cons: &mut Constructed<'_>,
) -> Result<Vec<FileAndHash>, DecodeError>
    requires { K.holds keep (left cons.old) }
    ensures { Takes (λ v. v.items) file_list (left cons.old) (left cons.new) result }
{
    cons.in_sequence_with(
        keep,
        |contents, keep|
            requires { K.holds keep (left contents.old) }
        { take_each_file(keep, contents) },
    )
}

impl ManifestFields {
    /// Reads the fields: a SEQUENCE of them, and nothing else. An allocator copies the names of files, and
    /// [Shared](rpki::der::Shared) shares them; requires that `keep` can keep parts of the rest.
    ///
    /// The errors are those of a SEQUENCE; then that of the first part that could not be read, or `Trailing` if more
    /// follows; `OutOfMemory` if allocation fails. An error leaves the cursor where it was.
    pub(crate) fn take_from<K: Keep>(
        keep: K,
        cons: &mut Constructed<'_>,
    ) -> Result<ManifestFields, DecodeError>
        requires { K.holds keep (left cons.old) }
        ensures { Takes fields_in manifest_fields (left cons.old) (left cons.new) result }
    {
        cons.in_sequence_with(
            keep,
            |contents, keep|
                requires { K.holds keep (left contents.old) }
                ensures { TakesAll fields_in fields (left contents.old) (left contents.new) result }
            {
                let manifest_number = match Serial::take_from(contents) {
                    Ok(number) => number,
                    Err(e) => return Err(e),
                };
                let this_update = match Time::take_generalized_from(contents) {
                    Ok(time) => time,
                    Err(e) => return Err(e),
                };
                let next_update = match Time::take_generalized_from(contents) {
                    Ok(time) => time,
                    Err(e) => return Err(e),
                };
                match DigestAlgorithm::take_oid_from(contents) {
                    Ok(_) => {}
                    Err(e) => return Err(e),
                }
                let file_list = take_file_list(keep, contents)?;
                Ok(ManifestFields {
                    manifest_number,
                    this_update,
                    next_update,
                    file_list,
                })
            },
        )
    }
}
