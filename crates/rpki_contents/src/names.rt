//! Whether names differ.

ghost use Rattle.std.specs.Prelude.{◌↔◌, ◌≢◌, [], IsTrue, IfOk, IfErr};
ghost use Rattle.rpki_contents.specs.ListedFile.{AreDistinct};
ghost use Rattle.rpki_contents.specs.Names.{Differ};

use crate::file_and_hash::FileAndHash;
use std::alloc::{AllocError, Global};

/// Whether no two of the names are equal. Sorts them, in n log n steps for n names. Allocates nothing.
pub(crate) fn differ(names: &mut [&[u8]]) -> bool
    ensures { IsTrue result ↔ Differ names.old }
{
    names.sort_unstable();
    'names: for i in 1..names.len() {
        if names[i - 1] == names[i] {
            return false;
        }
    }
    true
}

/// Whether no two of the files have the same name, in n log n steps for n files.
///
/// Returns `AllocError` if allocation fails, only where there is a file.
pub(crate) fn are_distinct(alloc: Global, files: &[FileAndHash]) -> Result<bool, AllocError>
    ensures ok { IfOk result (λ b. IsTrue b ↔ AreDistinct files.now) }
    ensures err { IfErr result (λ _. files.now ≢ []) }
{
    let mut names = Vec::new(alloc);
    'files: for file in files {
        names.push(file.file())?;
    }
    Ok(differ(&mut names))
}
