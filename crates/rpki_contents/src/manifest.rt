//! The content of a manifest: the files that an authority publishes (RFC 9286 4.2).

ghost use Rattle.std.specs.Prelude.{◌≡◌, ◌↔◌, ◌<ℤ◌, IsTrue, length, []};
ghost use Rattle.std.specs.List.{find};
ghost use Rattle.jiff.specs.Words.{civil_nanos};
ghost use Rattle.rpki_der.specs.Prelude.{left, Takes, TakesWhole, CanShare, optional_of};
ghost use Rattle.rpki_contents.specs.ListedFile.{AreDistinct, is_named};
ghost use Rattle.rpki_contents.specs.Manifest.{manifest, AreInOrder, ChecksFields};

use crate::file_and_hash::FileAndHash;
use crate::manifest_fields::ManifestFields;
use crate::names::are_distinct;
use bytes::Bytes;
use rpki::der::{Constructed, DecodeError, Keep, Shared};
use rpki::repository::x509::{Serial, Time};
use std::alloc::Global;
use std::marker::Model;

/// The content of a manifest. Its next update is after this update, and it lists no file twice (RFC 9286 4.2.1).
#[derive(Drop)]
pub struct ManifestContent {
    manifest_number: Serial,
    this_update: Time,
    next_update: Time,
    file_list: Vec<FileAndHash>,
}

impl Model for ManifestContent {
    ghost use Rattle.rpki_contents.specs.ListedFile.{AreDistinct};
    ghost use Rattle.rpki_contents.specs.Manifest.{ManifestParts, AreInOrder, parts_of};

    ghost Value = { ManifestParts };

    ghost view = { λ x. parts_of x.manifest_number x.this_update x.next_update x.file_list.items };

    ghost invariant = { λ x. AreInOrder x.this_update x.next_update × AreDistinct x.file_list.items };
}

impl ManifestContent {
    /// The manifest of these fields.
    ///
    /// The errors are `Content` with the text `next update not after this update`; then `Content` with the text `file
    /// listed twice`, or `OutOfMemory` if allocation fails, only where there is a file.
    pub fn new(
        alloc: Global,
        manifest_number: Serial,
        this_update: Time,
        next_update: Time,
        file_list: Vec<FileAndHash>,
    ) -> Result<ManifestContent, DecodeError>
        ensures { ChecksFields (manifest_number, (this_update, (next_update, (tt, file_list.items)))) result }
    {
        if next_update <= this_update {
            return Err(DecodeError::content("next update not after this update"));
        }
        match are_distinct(alloc, &file_list) {
            Ok(true) => Ok(ManifestContent {
                manifest_number,
                this_update,
                next_update,
                file_list,
            }),
            Ok(false) => Err(DecodeError::content("file listed twice")),
            Err(_) => Err(DecodeError::OutOfMemory),
        }
    }

    /// Reads a manifest: a SEQUENCE of its number, the times of this update and of the next, the identifier of SHA-256,
    /// and the list of files, and nothing else. The version, which is 0, is left out (X.690 11.5). The next update is
    /// after this one, and no file is listed twice. There may be no file. An allocator copies the names of files, and
    /// [Shared](rpki::der::Shared) shares them; requires that `keep` can keep parts of the rest.
    ///
    /// The errors are those of a SEQUENCE; then that of the first part that could not be read, or `Trailing` if more
    /// follows; then those of [ManifestContent::new]; `OutOfMemory` if allocation fails. An error leaves the cursor
    /// where it was.
    pub fn take_from<K: Keep>(
        keep: K,
        cons: &mut Constructed<'_>,
    ) -> Result<ManifestContent, DecodeError>
        requires { K.holds keep (left cons.old) }
        ensures { Takes (λ x. x) manifest (left cons.old) (left cons.new) result }
    {
        let mut after = *cons;
        let fields = ManifestFields::take_from(keep, &mut after)?;
        match ManifestContent::new(
            keep.allocator(),
            fields.manifest_number,
            fields.this_update,
            fields.next_update,
            fields.file_list,
        ) {
            Ok(content) => {
                *cons = after;
                Ok(content)
            }
            Err(e) => Err(e),
        }
    }

    /// A manifest, and nothing else. It shares the octets.
    ///
    /// The errors are those of [ManifestContent::take_from]; then `Trailing` if something follows the manifest.
    pub fn decode(alloc: Global, bytes: Bytes) -> Result<ManifestContent, DecodeError>
        ensures { TakesWhole (λ x. x) manifest bytes result }
    {
        Constructed::new(&bytes).whole_with(
            Shared::new(alloc, &bytes),
            |cons, keep|
                requires { CanShare keep (left cons.old) }
            { ManifestContent::take_from(keep, cons) },
        )
    }

    /// The number, which rises from manifest to manifest (RFC 9286 4.2.1).
    pub fn manifest_number(&self) -> Serial
        ensures { result ≡ self.now.number }
    {
        self.manifest_number
    }

    /// When the manifest was issued.
    pub fn this_update(&self) -> Time
        ensures time { result ≡ self.now.this_update }
        ensures order { AreInOrder self.now.this_update self.now.next_update }
    {
        self.this_update
    }

    /// When the next manifest is issued at the latest.
    pub fn next_update(&self) -> Time
        ensures { result ≡ self.now.next_update }
    {
        self.next_update
    }

    /// The files, in the order of the list.
    pub fn file_list(&self) -> &[FileAndHash]
        ensures files { result.now ≡ self.now.files }
        ensures distinct { AreDistinct self.now.files }
    {
        &self.file_list
    }

    /// How many files there are.
    pub fn len(&self) -> usize
        ensures { result ≡ length self.now.files }
    {
        self.file_list.len()
    }

    /// Whether there is no file.
    pub fn is_empty(&self) -> bool
        ensures { IsTrue result ↔ (self.now.files ≡ []) }
    {
        self.file_list.is_empty()
    }

    /// The file of this name; None where there is none. Allocates nothing; takes a step a file.
    pub fn find(&self, name: &[u8]) -> Option<&FileAndHash>
        ensures { optional_of (λ x. x.now) result ≡ find (is_named name.now) self.now.files }
    {
        'files: for file in &self.file_list {
            if file.file() == name {
                return Some(file);
            }
        }
        None
    }

    /// Whether the next update is before the moment (RFC 9286 6.3).
    pub fn is_stale(&self, at: Time) -> bool
        ensures { IsTrue result ↔ (civil_nanos self.now.next_update <ℤ civil_nanos at) }
    {
        self.next_update < at
    }
}
