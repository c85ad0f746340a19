//! The host as a machine. What its calls do is trusted; of it no clause says anything.
//!
//! A regular file is written beside, under a name that nobody has, flushed to the disk, and then takes the place of the
//! old one, in the folder of what a link leads to, with the old one's owner and mode. What is there and is none, as a
//! device, is written to.

use crate::machine::Machine;
use crate::spread::Folders;
use std::alloc::{AllocError, Global};
use std::fs::{File, Metadata, OpenFile, OpenOptions, Permissions};
use std::io::{ErrorKind, Write};
use std::os::unix::fs::{MetadataExt, OpenOptionsExt, PermissionsExt, fchown};
use std::{fs, process};

/// The host's files and streams.
#[derive(Drop)]
pub struct Host<'a> {
    rt: &'a HostRuntime,
    /// The file that was opened to be added to.
    log: Option<File>,
}

impl<'a> Host<'a> {
    /// The host.
    pub fn new(rt: &'a HostRuntime) -> Host<'a> {
        Host { rt, log: None }
    }
}

/// What there is of a name.
#[derive(Drop)]
enum Place {
    New,
    Regular(Metadata),
    /// What is written to: a device, a FIFO, a pipe.
    Special,
    /// A folder, a link that leads nowhere, or what can't be looked at.
    None,
}

fn place_of(rt: &HostRuntime, name: &str) -> Place {
    match fs::metadata(rt, name) {
        Ok(it) if it.is_file() => Place::Regular(it),
        Ok(it) if it.is_dir() => Place::None,
        Ok(_) => Place::Special,
        Err(e) if e.kind() == ErrorKind::NotFound => match fs::symlink_metadata(rt, name) {
            Ok(_) => Place::None,
            Err(_) => Place::New,
        },
        Err(_) => Place::None,
    }
}

/// The folder that a name is in, and the last part of the name.
fn parts_of(name: &str) -> (&str, &str) {
    match name.rsplit_once('/') {
        Some(("", last)) => ("/", last),
        Some((folder, last)) => (folder, last),
        None => (".", name),
    }
}

/// The name without links: of a file that is there, or of the folder of one that isn't.
fn target_of(rt: &HostRuntime, name: &str, is_there: bool) -> Option<String> {
    if is_there {
        let real = fs::canonicalize(rt, name).ok()?;
        return String::from_str(rt.alloc(), real.as_str()).ok();
    }
    let (folder, last) = parts_of(name);
    let real = fs::canonicalize(rt, folder).ok()?;
    match real.as_str() {
        "/" => format!(in rt.alloc(); "/{last}").ok(),
        folder => format!(in rt.alloc(); "{folder}/{last}").ok(),
    }
}

/// Makes a file of a new name beside.
fn made(rt: &HostRuntime, target: &str, mode: u32) -> Option<(File, String)> {
    let process = process::id(rt.process());
    for turn in 0..100u32 {
        let beside = format!(in rt.alloc(); "{target}.{process}.{turn}.new").ok()?;
        let mut how = OpenOptions::new();
        how.write(true).create_new(true).mode(mode);
        match how.open(rt, beside.as_str()) {
            Ok(file) => return Some((file, beside)),
            Err(e) if e.kind() == ErrorKind::AlreadyExists => {}
            Err(_) => return None,
        }
    }
    None
}

/// Writes the text, and gives the file the old one's owner, where that is permitted, and mode. Returns whether all is
/// on the disk.
fn is_filled(file: &mut File, text: &[u8], old: Option<&Metadata>) -> bool {
    if file.write_all(text).is_err() {
        return false;
    }
    if let Some(old) = old {
        let _ = fchown(&*file, Some(old.uid()), Some(old.gid()));
        let mode = Permissions::from_mode(old.mode() & 0o7777);
        if file.set_permissions(mode).is_err() {
            return false;
        }
    }
    file.sync_all().is_ok()
}

/// The name of a file beside with the text. None if it can't be written; then there is none.
fn beside(rt: &HostRuntime, target: &str, text: &[u8], old: Option<&Metadata>) -> Option<String> {
    let mode = if old.is_some() { 0o600 } else { 0o666 };
    let (mut file, beside) = made(rt, target, mode)?;
    if is_filled(&mut file, text, old) {
        return Some(beside);
    }
    let _ = fs::remove_file(rt, beside.as_str());
    None
}

/// Writes to what is no regular file.
fn is_written_to(rt: &HostRuntime, name: &str, text: &[u8]) -> bool {
    let mut how = OpenOptions::new();
    how.write(true);
    match how.open(rt, name) {
        Ok(mut file) => file.write_all(text).is_ok(),
        Err(_) => false,
    }
}

impl Machine for Host<'_> {
    ghost use Rattle.rpki_cli.specs.World.{nothing};

    ghost knows = { λ _. ⊥ };

    ghost world = { λ _. nothing };

    fn is_writable(&mut self, name: &str) -> bool {
        match place_of(self.rt, name) {
            Place::New => target_of(self.rt, name, false).is_some(),
            Place::Regular(_) | Place::Special => true,
            Place::None => false,
        }
    }

    fn are_one(&self, first: &str, second: &str) -> bool {
        if first == second {
            return true;
        }
        match (fs::metadata(self.rt, first), fs::metadata(self.rt, second)) {
            (Ok(a), Ok(b)) => a.is_file() && a.ino() == b.ino() && a.dev() == b.dev(),
            (Err(_), Err(_)) => {
                let (a, b) = (
                    target_of(self.rt, first, false),
                    target_of(self.rt, second, false),
                );
                match (a, b) {
                    (Some(a), Some(b)) => a.as_str() == b.as_str(),
                    _ => false,
                }
            }
            _ => false,
        }
    }

    /// What is no regular file is itself the one beside.
    fn stage(&mut self, name: &str, _other: &str, text: &[u8]) -> Option<String> {
        match place_of(self.rt, name) {
            Place::New => {
                let target = target_of(self.rt, name, false)?;
                beside(self.rt, target.as_str(), text, None)
            }
            Place::Regular(old) => {
                let target = target_of(self.rt, name, true)?;
                beside(self.rt, target.as_str(), text, Some(&old))
            }
            Place::Special => String::from_str(self.rt.alloc(), name).ok(),
            Place::None => None,
        }
    }

    fn place(&mut self, beside: &str, name: &str, text: &[u8]) -> bool {
        if beside == name {
            return is_written_to(self.rt, name, text);
        }
        let is_there = fs::metadata(self.rt, name).is_ok();
        let Some(target) = target_of(self.rt, name, is_there) else {
            return false;
        };
        if fs::rename(self.rt, beside, target.as_str()).is_err() {
            return false;
        }
        if let Ok(folder) = fs::open(self.rt, parts_of(target.as_str()).0) {
            let _ = folder.sync_all();
        }
        true
    }

    fn take_away(&mut self, beside: &str, name: &str) -> bool {
        beside == name || fs::remove_file(self.rt, beside).is_ok()
    }

    fn open(&mut self, name: &str) -> bool {
        let mut how = OpenOptions::new();
        how.append(true).create(true);
        match how.open(self.rt, name) {
            Ok(file) => {
                self.log = Some(file);
                true
            }
            Err(_) => false,
        }
    }

    fn add(&mut self, _name: &str, text: &[u8]) -> bool {
        match &mut self.log {
            Some(file) => file.write_all(text).is_ok(),
            None => false,
        }
    }

    fn print(&mut self, text: &[u8]) -> bool {
        self.rt.stdout().write_all(text).is_ok()
    }

    fn tell(&mut self, text: &[u8]) -> bool {
        self.rt.stderr().write_all(text).is_ok()
    }

    fn complain(&mut self, program: &str, name: &str, why: &str) -> bool {
        eprintln!(self.rt; "{program}: {name}: {why}").is_ok()
    }
}

/// Whether the name is that of a file that is looked for: it ends so, and is not hidden.
fn is_wanted(name: &str, ending: &str) -> bool {
    name.ends_with(ending) && !name.starts_with('.')
}

/// None of the files of a folder, for this error of the host. Returns `AllocError` if it is that allocation failed.
fn unlisted(alloc: Global, kind: ErrorKind) -> Result<Vec<String>, AllocError> {
    match kind {
        ErrorKind::OutOfMemory => Err(AllocError),
        _ => Ok(Vec::new(alloc)),
    }
}

impl Folders for Host<'_> {
    ghost use Rattle.std.specs.Prelude.{None};

    ghost listed = { λ _. None };

    fn files_in(
        &self,
        alloc: Global,
        ending: &str,
        folder: &str,
    ) -> Result<Vec<String>, AllocError> {
        let entries = match fs::read_dir(self.rt, folder) {
            Ok(entries) => entries,
            Err(e) => return unlisted(alloc, e.kind()),
        };
        let mut files = Vec::new(alloc);
        for entry in entries {
            let entry = match entry {
                Ok(entry) => entry,
                Err(e) => return unlisted(alloc, e.kind()),
            };
            if is_wanted(entry.file_name(), ending) {
                files.push(String::from_str(alloc, entry.path().as_str())?)?;
            }
        }
        files.sort()?;
        Ok(files)
    }
}
