//! The host's files, and its clock.

use crate::input::{Copied, Unread, read_regular};
use crate::sources::Sources;
use bytes::Bytes;
use jiff::SignedDuration;
use rpki::repository::x509::Time;
use std::alloc::{AllocError, Global};
use std::cell::{Cell, RefCell};
use std::collections::BTreeSet;
use std::io::IsTerminal;
use std::time::{SystemTime, UNIX_EPOCH};

/// How many octets a file has at most.
const MOST: u64 = 16_777_216;

/// How many octets what another validator wrote has at most.
const MOST_LISTED: u64 = 1_073_741_824;

/// The files of the host, and its clock.
#[derive(Drop)]
pub struct HostSources<'a> {
    rt: &'a HostRuntime,
    /// The seconds of the clock since 1970 where the run began.
    begun: Option<u64>,
    /// The moment that they are.
    at: Option<Time>,
    /// The folder of the copy, once a file of it was asked for.
    copied: RefCell<Option<Copied>>,
    /// Whether the system could read all that is there, until now.
    read: Cell<bool>,
    /// How many files were read, until now.
    files: Cell<u64>,
    /// The paths of which it is told that they can't be read.
    told: RefCell<BTreeSet<String>>,
    /// What is told, a line each.
    lines: RefCell<Vec<u8>>,
}

/// After how many files a terminal is told how many there were.
const STEP: u64 = 1000;

/// The seconds of the clock since 1970-01-01T00:00:00Z. None where it has a moment before, or none.
fn seconds_since_1970(rt: &HostRuntime) -> Option<u64> {
    let now = SystemTime::now(rt).ok()?;
    let since = now.duration_since(UNIX_EPOCH).ok()?;
    Some(since.as_secs())
}

/// The moment so many seconds after 1970-01-01T00:00:00Z. None where it is none of the years 0 to 9999.
fn moment_after(seconds: u64) -> Option<Time> {
    let seconds = i64::try_from(seconds).ok()?;
    let begin = Time::utc(1970, 1, 1, 0, 0, 0)?;
    begin.checked_add(SignedDuration::from_secs(seconds))
}

impl<'a> HostSources<'a> {
    /// The host, whose moment is that of the clock now.
    pub fn new(rt: &'a HostRuntime) -> HostSources<'a> {
        let begun = seconds_since_1970(rt);
        HostSources {
            rt,
            begun,
            at: begun.and_then(moment_after),
            copied: RefCell::new(None),
            read: Cell::new(true),
            files: Cell::new(0),
            told: RefCell::new(BTreeSet::new(rt.alloc())),
            lines: RefCell::new(Vec::new(rt.alloc())),
        }
    }

    /// Adds a line that says why the path isn't read.
    fn add(&self, path: &str, why: &str) -> Result<(), AllocError> {
        let line = format!(in self.rt.alloc(); "rpkivalid: {path}: {why}\n")?;
        match self.lines.try_borrow_mut() {
            Ok(mut lines) => lines.extend_from_slice(line.as_bytes()),
            Err(_) => Ok(()),
        }
    }

    /// Counts a file that was read. Standard error, where it is a terminal, has the number after each [STEP] files, in
    /// a line that the next one is written over.
    fn count(&self) {
        let files = self.files.get().wrapping_add(1);
        self.files.set(files);
        if files % STEP == 0 && self.rt.stderr().is_terminal() {
            let _ = eprint!(self.rt; "rpkivalid: {files} files\r");
        }
    }

    /// Tells why what is there isn't read, once a path.
    fn tell(&self, path: &str, why: &str) -> Result<(), AllocError> {
        let Ok(mut told) = self.told.try_borrow_mut() else {
            return Ok(());
        };
        let path = String::from_str(self.rt.alloc(), path)?;
        if !told.contains(&path) {
            self.add(path.as_str(), why)?;
            told.insert(path)?;
        }
        Ok(())
    }

    /// The octets of the file at the path, of which there are so many at most. None where there is no such file, or it
    /// can't be read, which is told.
    fn read_at(
        &self,
        alloc: Global,
        copied: Option<&Copied>,
        path: &str,
        most: u64,
    ) -> Result<Option<Bytes>, AllocError> {
        match read_regular(self.rt, alloc, copied, path, most) {
            Ok(octets) => {
                self.count();
                Ok(Some(Bytes::from_vec(octets)?))
            }
            Err(Unread::Absent) => Ok(None),
            Err(Unread::OutOfMemory) => Err(AllocError),
            Err(Unread::Refused(why)) => {
                self.tell(path, why)?;
                Ok(None)
            }
            Err(Unread::Failed) => {
                self.read.set(false);
                self.tell(path, "cannot be read")?;
                Ok(None)
            }
        }
    }
}

impl HostSources<'_> {
    /// The folder of the copy. That it isn't there, or can't be read, is told.
    fn opened(&self, folder: &str) -> Result<Copied, AllocError> {
        let copied = Copied::new(self.rt, folder)?;
        if let Some(why) = copied.fault() {
            self.add(copied.name(), why)?;
        }
        Ok(copied)
    }

    /// The octets of the file of the copy at the path; where there is none, of the one in a folder whose name is that
    /// of the host in other letters, the first in the order of their octets.
    fn read_copied(
        &self,
        alloc: Global,
        copied: &Copied,
        path: &str,
    ) -> Result<Option<Bytes>, AllocError> {
        let found = self.read_at(alloc, Some(copied), path, MOST)?;
        if found.is_some() || copied.capitals().is_empty() {
            return Ok(found);
        }
        let Some((host, rest)) = copied.parts_of(path) else {
            return Ok(None);
        };
        for name in copied.capitals().iter() {
            if name.as_bytes().eq_ignore_ascii_case(host.as_bytes()) {
                let other = format!(in alloc; "{}/{name}/{rest}", copied.name())?;
                let found = self.read_at(alloc, Some(copied), other.as_str(), MOST)?;
                if found.is_some() {
                    return Ok(found);
                }
            }
        }
        Ok(None)
    }
}

impl Sources for HostSources<'_> {
    ghost use Rattle.std.specs.Prelude.{None, Some};

    ghost holds = { λ _. None };

    ghost clock = { λ h. Some h.at };

    fn read(&self, alloc: Global, path: &str) -> Result<Option<Bytes>, AllocError> {
        self.read_at(alloc, None, path, MOST)
    }

    fn read_in(
        &self,
        alloc: Global,
        folder: &str,
        path: &str,
    ) -> Result<Option<Bytes>, AllocError> {
        let Ok(mut copied) = self.copied.try_borrow_mut() else {
            return Ok(None);
        };
        if copied.is_none() {
            *copied = Some(self.opened(folder)?);
        }
        match &*copied {
            Some(copied) => self.read_copied(alloc, copied, path),
            None => Ok(None),
        }
    }

    fn read_large(&self, alloc: Global, path: &str) -> Result<Option<Bytes>, AllocError> {
        self.read_at(alloc, None, path, MOST_LISTED)
    }

    fn is_read(&self) -> bool {
        self.read.get()
    }

    fn unread(&self, alloc: Global) -> Result<Vec<u8>, AllocError> {
        match self.lines.try_borrow() {
            Ok(lines) => Vec::from_slice(alloc, lines.as_slice()),
            Err(_) => Ok(Vec::new(alloc)),
        }
    }

    fn seconds(&self) -> u64 {
        match (self.begun, seconds_since_1970(self.rt)) {
            (Some(begun), Some(now)) => now.saturating_sub(begun),
            _ => 0,
        }
    }

    fn now(&self) -> Option<Time> {
        self.at
    }
}
