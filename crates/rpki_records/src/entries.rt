//! Whether the files of a signed checklist differ (RFC 9323 4.4.1).

ghost use Rattle.std.specs.Prelude.{◌≡◌, ◌↔◌, ◌++◌, IsTrue, IfOk, OnOk, map, bytes_eq};
ghost use Rattle.std.specs.List.{IsDistinct, flat_map};
ghost use Rattle.std.specs.Option.{option_map};
ghost use Rattle.rpki_records.specs.Checklist.{file_of};
ghost use Rattle.rpki_records.specs.ChecklistEntries.{AreUnique, digest_in, entries, name_in};
ghost use Rattle.rpki_records.specs.Words.{where_there};

use crate::checklist::Checklist;
use crate::listed_digest::ListedDigest;
use std::alloc::{AllocError, Global};

/// Whether no two of the texts are equal. Sorts them, in n log n steps for n texts. Allocates nothing.
fn differ(texts: &mut [&[u8]]) -> bool
    ensures { IsTrue result ↔ IsDistinct bytes_eq (map (λ text. text.now) texts.old) }
{
    texts.sort_unstable();
    'texts: for i in 1..texts.len() {
        if texts[i - 1] == texts[i] {
            return false;
        }
    }
    true
}

/// The names of the files that have one.
fn names_of<'a>(alloc: Global, files: &'a [ListedDigest<'_>]) -> Result<Vec<&'a [u8]>, AllocError>
    ensures { IfOk result (λ v. map (λ name. name.now) v.items ≡ flat_map name_in (map file_of files.now)) }
{
    let mut names = Vec::new(alloc);
    'files: for file in files {
        if let Some(name) = &file.name {
            names.push(name.as_str().as_bytes())?;
        }
    }
    Ok(names)
}

/// The digests of the files that have no name.
fn digests_of<'a>(alloc: Global, files: &'a [ListedDigest<'_>]) -> Result<Vec<&'a [u8]>, AllocError>
    ensures { IfOk result (λ v. map (λ digest. digest.now) v.items ≡ flat_map digest_in (map file_of files.now)) }
{
    let mut digests = Vec::new(alloc);
    'files: for file in files {
        if file.name.is_none() {
            digests.push(file.digest.as_slice())?;
        }
    }
    Ok(digests)
}

/// Whether no two files have the same name, and no two without a name the same digest.
fn are_unique(alloc: Global, files: &[ListedDigest<'_>]) -> Result<bool, AllocError>
    ensures { IfOk result (λ b. IsTrue b ↔ AreUnique (map file_of files.now)) }
{
    let mut names = names_of(alloc, files)?;
    if !differ(&mut names) {
        return Ok(false);
    }
    let mut digests = digests_of(alloc, files)?;
    Ok(differ(&mut digests))
}

/// Adds a file, where there is one.
fn push_where<'a>(
    files: &mut Vec<ListedDigest<'a>>,
    file: Option<ListedDigest<'a>>,
) -> Result<(), AllocError>
    ensures { OnOk result (map file_of files.new.items
        ≡ map file_of files.old.items ++ where_there (option_map file_of file.entry)) }
{
    match file {
        Some(file) => {
            files.push(file)?;
            Ok(())
        }
        None => Ok(()),
    }
}

impl<'a> Checklist<'a> {
    /// All files, in order.
    ///
    /// Returns `AllocError` if allocation fails.
    pub fn all_files(self, alloc: Global) -> Result<Vec<ListedDigest<'a>>, AllocError>
        ensures { IfOk result (λ v. map file_of v.items ≡ entries self.entry.count self.entry.files.now) }
    {
        let mut files = Vec::new(alloc);
        let mut cursor = self.files();
        'files: for number in 0..self.count {
            push_where(&mut files, cursor.next_file())?;
        }
        Ok(files)
    }

    /// Whether no two files have the same name, and no two without a name the same digest, as it has to be (RFC 9323
    /// 4.4.1), in n log n steps for n files.
    ///
    /// Returns `AllocError` if allocation fails.
    pub fn entries_differ(self, alloc: Global) -> Result<bool, AllocError>
        ensures { IfOk result (λ b. IsTrue b ↔ AreUnique (entries self.entry.count self.entry.files.now)) }
    {
        let files = self.all_files(alloc)?;
        are_unique(alloc, files.as_slice())
    }
}
