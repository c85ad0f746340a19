//! The files under a folder of the host.

use std::alloc::{AllocError, Global};
use std::fs;
use std::io::ErrorKind;

/// The names of files and of folders.
#[derive(Drop)]
struct Names {
    /// Those of files.
    files: Vec<String>,
    /// Those of folders.
    folders: Vec<String>,
}

/// That a folder can't be listed, for this error of the host. Returns `AllocError` if it is that allocation failed.
fn unlisted(kind: ErrorKind) -> Result<bool, AllocError> {
    match kind {
        ErrorKind::OutOfMemory => Err(AllocError),
        _ => Ok(false),
    }
}

/// Adds what is in a folder. Returns whether it could be listed to its end.
fn add_listed(
    alloc: Global,
    rt: &HostRuntime,
    folder: &str,
    names: &mut Names,
) -> Result<bool, AllocError> {
    let entries = match fs::read_dir(rt, folder) {
        Ok(entries) => entries,
        Err(e) => return unlisted(e.kind()),
    };
    for entry in entries {
        let entry = match entry {
            Ok(entry) => entry,
            Err(e) => return unlisted(e.kind()),
        };
        let name = String::from_str(alloc, entry.path().as_str())?;
        match entry.file_type() {
            Ok(kind) if kind.is_dir() => names.folders.push(name)?,
            _ => names.files.push(name)?,
        }
    }
    Ok(true)
}

/// The names of the files under this name: of a folder those of the files in it, and in the folders in it, and of each
/// of these that can't be listed its own, in the order of their octets; of a file, and of `-`, this name itself. A
/// symbolic link in a folder is a file.
///
/// Returns `AllocError` if allocation fails.
pub fn files_under(alloc: Global, rt: &HostRuntime, name: &str) -> Result<Vec<String>, AllocError> {
    let mut names = Names {
        files: Vec::new(alloc),
        folders: Vec::new(alloc),
    };
    let first = String::from_str(alloc, name)?;
    if name == "-" {
        names.files.push(first)?;
    } else {
        names.folders.push(first)?;
    }
    for _ in 0..u64::MAX {
        let Some(folder) = names.folders.pop() else {
            break;
        };
        if !add_listed(alloc, rt, folder.as_str(), &mut names)? {
            names.files.push(folder)?;
        }
    }
    names.files.sort()?;
    Ok(names.files)
}
