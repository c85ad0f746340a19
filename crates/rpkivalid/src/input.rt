//! Regular files: no others are opened, none outside of the folder of the copy is read as one of it, and no more is
//! read than is asked for.
//!
//! What a path leads to is looked at before it is opened, since opening a FIFO waits for a writer, and again once it is
//! open. The host has no way to open that can't wait: who can write in the copy while it is read can let a run wait.

use std::alloc::{AllocError, Global};
use std::collections::BTreeSet;
use std::fs;
use std::fs::{File, Metadata, OpenFile};
use std::io::{ErrorKind, Read};
use std::os::unix::fs::MetadataExt;
use std::path::PathBuf;

/// Why no octets of a file are there.
#[derive(Clone, Copy)]
pub enum Unread {
    /// There is no such file.
    Absent,
    /// What is there isn't read, for this reason: whoever publishes it can choose that.
    Refused(&'static str),
    /// The system can't read it.
    Failed,
    /// Allocation failed.
    OutOfMemory,
}

impl Unread {
    /// What the host's error of this kind is.
    fn of(kind: ErrorKind) -> Unread {
        match kind {
            ErrorKind::NotFound | ErrorKind::NotADirectory | ErrorKind::InvalidFilename => {
                Unread::Absent
            }
            ErrorKind::PermissionDenied => Unread::Refused("cannot be read: permission denied"),
            ErrorKind::FilesystemLoop => Unread::Refused("not read: a loop of links"),
            ErrorKind::OutOfMemory => Unread::OutOfMemory,
            _ => Unread::Failed,
        }
    }
}

/// The folder of a copy.
#[derive(Drop)]
pub struct Copied {
    name: String,
    /// Its path without links; None where it can't be read.
    real: Option<PathBuf>,
    fault: Option<&'static str>,
    /// The names in it that have capitals.
    capitals: BTreeSet<String>,
}

/// The names in the folder that have capitals; none where it can't be listed. What was fetched for locators is in `ta`
/// alone.
fn capitals_in(rt: &HostRuntime, folder: &str) -> Result<BTreeSet<String>, AllocError> {
    let mut capitals = BTreeSet::new(rt.alloc());
    let entries = match fs::read_dir(rt, folder) {
        Ok(entries) => entries,
        Err(e) if e.kind() == ErrorKind::OutOfMemory => return Err(AllocError),
        Err(_) => return Ok(capitals),
    };
    for entry in entries {
        let entry = match entry {
            Ok(entry) => entry,
            Err(e) if e.kind() == ErrorKind::OutOfMemory => return Err(AllocError),
            Err(_) => return Ok(capitals),
        };
        let name = entry.file_name();
        let has_capitals = name.bytes().any(|octet| octet.is_ascii_uppercase());
        if has_capitals && !name.as_bytes().eq_ignore_ascii_case(b"ta") {
            capitals.insert(String::from_str(rt.alloc(), name)?)?;
        }
    }
    Ok(capitals)
}

impl Copied {
    /// The folder of this name.
    ///
    /// Returns `AllocError` if allocation fails.
    pub fn new(rt: &HostRuntime, name: &str) -> Result<Copied, AllocError> {
        let mut copied = Copied {
            name: String::from_str(rt.alloc(), name)?,
            real: None,
            fault: None,
            capitals: capitals_in(rt, name)?,
        };
        match fs::canonicalize(rt, name) {
            Ok(real) => copied.real = Some(real),
            Err(e) => match Unread::of(e.kind()) {
                Unread::OutOfMemory => return Err(AllocError),
                Unread::Absent => copied.fault = Some("no such folder"),
                Unread::Refused(why) => copied.fault = Some(why),
                Unread::Failed => copied.fault = Some("cannot be read"),
            },
        }
        Ok(copied)
    }

    /// Its name.
    pub fn name(&self) -> &str {
        self.name.as_str()
    }

    /// Why it can't be read.
    pub fn fault(&self) -> Option<&'static str> {
        self.fault
    }

    /// The names in it that have capitals.
    pub fn capitals(&self) -> &BTreeSet<String> {
        &self.capitals
    }

    /// The name of the first folder in it on the way to the path of a file, and the rest of the path.
    pub fn parts_of<'p>(&self, path: &'p str) -> Option<(&'p str, &'p str)> {
        path.strip_prefix(self.name.as_str())?
            .strip_prefix('/')?
            .split_once('/')
    }

    /// Whether what a path of a file in it leads to, without links, is in the folder that the path says. Links of
    /// folders would let one file be many.
    fn is_in_place(&self, path: &str, real: &str) -> bool {
        let (Some(folder), Some(rest)) = (&self.real, path.strip_prefix(self.name.as_str())) else {
            return false;
        };
        match real.strip_prefix(folder.as_str()) {
            Some(found) => folder_of(found) == folder_of(rest),
            None => false,
        }
    }

    /// Whether what a path of a file in it leads to, without links, is in it too.
    fn keeps(&self, real: &str) -> bool {
        match &self.real {
            Some(folder) => match real.strip_prefix(folder.as_str()) {
                Some(rest) => folder.as_str() == "/" || rest.starts_with('/'),
                None => false,
            },
            None => false,
        }
    }
}

/// The folder of a path below another, without slashes around it.
fn folder_of(path: &str) -> &str {
    let (folder, _) = path.rsplit_once('/').unwrap_or(("", path));
    folder.trim_matches('/')
}

/// Whether both are one file, and a regular one.
fn is_same(seen: &Metadata, open: &Metadata) -> bool {
    open.is_file() && open.ino() == seen.ino() && open.dev() == seen.dev()
}

/// Reads to the end, or to one octet more than the most.
fn read_bounded(alloc: Global, file: &mut File, size: u64, most: u64) -> Result<Vec<u8>, Unread> {
    if size > most {
        return Err(Unread::Refused("not read: too large"));
    }
    let Ok(mut octets) = Vec::with_capacity(alloc, (size as usize).saturating_add(1)) else {
        return Err(Unread::OutOfMemory);
    };
    match file.take(most.saturating_add(1)).read_to_end(&mut octets) {
        Ok(_) if octets.len() as u64 > most => Err(Unread::Refused("not read: too large")),
        Ok(_) => Ok(octets),
        Err(e) => Err(Unread::of(e.kind())),
    }
}

/// The octets of the regular file at the path, of which there are so many at most. A link is followed; of a file of a
/// copy only where it leads to one in its folder.
pub fn read_regular(
    rt: &HostRuntime,
    alloc: Global,
    copied: Option<&Copied>,
    path: &str,
    most: u64,
) -> Result<Vec<u8>, Unread> {
    let seen = match fs::metadata(rt, path) {
        Ok(seen) => seen,
        Err(e) => return Err(Unread::of(e.kind())),
    };
    if seen.is_dir() {
        return Err(Unread::Refused("not read: a folder"));
    }
    if !seen.is_file() {
        return Err(Unread::Refused("not read: no regular file"));
    }
    if let Some(copied) = copied {
        match fs::canonicalize(rt, path) {
            Ok(real) if copied.is_in_place(path, real.as_str()) => {}
            Ok(real) if copied.keeps(real.as_str()) => {
                return Err(Unread::Refused("not read: a link to another folder"));
            }
            Ok(_) => return Err(Unread::Refused("not read: a link out of the copy")),
            Err(e) => return Err(Unread::of(e.kind())),
        }
    }
    let mut file = match fs::open(rt, path) {
        Ok(file) => file,
        Err(e) => return Err(Unread::of(e.kind())),
    };
    match file.metadata() {
        Ok(open) if is_same(&seen, &open) => read_bounded(alloc, &mut file, open.len(), most),
        Ok(_) => Err(Unread::Refused("not read: it changed")),
        Err(e) => Err(Unread::of(e.kind())),
    }
}
