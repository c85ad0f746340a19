//! Where files are read, and a clock.

use crate::fault::{Cause, Fault};
use crate::folders::files_under;
use crate::input::read_whole;
use jiff::SignedDuration;
use rpki::repository::x509::Time;
use std::alloc::{AllocError, Global};
use std::cell::Cell;
use std::fs;
use std::fs::Metadata;
use std::os::unix::fs::MetadataExt;
use std::time::{SystemTime, UNIX_EPOCH};

/// Whether both are one file, and a regular one.
fn is_same(seen: &Metadata, open: &Metadata) -> bool {
    open.is_file() && open.ino() == seen.ino() && open.dev() == seen.dev()
}

/// Files by their names, and a clock.
pub trait Sources {
    ghost use Rattle.std.specs.Prelude.{◌≡◌, ℕ, List, Option, IfSome, IfOk, map, string_bytes};
    ghost use Rattle.rpkicert.specs.Moment.{Clock};
    ghost use Rattle.rpkicert.specs.Outcome.{IsRead};
    ghost use Rattle.rpkicert.specs.View.{read_of};

    // What there is by a name: the octets, or None where there is no file; or nothing is said of it.
    ghost holds: { Self → List ℕ → Option (Option (List ℕ)) };

    // The names of the files under a name; or nothing is said of them.
    ghost lists: { Self → List ℕ → Option (List (List ℕ)) };

    // The moment that the clock has, or None where it has none; or nothing is said of it.
    ghost clock: { Self → Clock };

    /// The octets of the file of this name.
    ///
    /// Returns `TooLarge` if they are more than 4,000,000; `Unreadable` if there is none, or it can't be read to its
    /// end; `OutOfMemory` if allocation fails.
    fn read(&self, alloc: Global, name: &str) -> Result<Vec<u8>, Fault>
        ensures { IfSome (holds self.now name.now) (λ source. IsRead source (read_of result)) };

    /// The names of the files under this name: of a folder those of the files in it, and in the folders in it, in
    /// order; of a file, and of what can't be listed, this name itself.
    ///
    /// Returns `AllocError` if allocation fails.
    fn under(&self, alloc: Global, name: &str) -> Result<Vec<String>, AllocError>
        ensures { IfOk result (λ names.
            IfSome (lists self.now name.now) (λ all. map string_bytes names.items ≡ all)) };

    /// The moment that the clock has, to the second. None where it can't be read, or has none of the years 0 to 9999.
    fn now(&self) -> Option<Time>
        ensures { IfSome (clock self.now) (λ at. result ≡ at) };
}

/// The moment that the host's clock has, to the second. None where it can't be read, or has none of the years 0 to
/// 9999.
fn clock_of(rt: &HostRuntime) -> Option<Time> {
    let now = SystemTime::now(rt).ok()?;
    let since = now.duration_since(UNIX_EPOCH).ok()?;
    let seconds = i64::try_from(since.as_secs()).ok()?;
    let begin = Time::utc(1970, 1, 1, 0, 0, 0)?;
    begin.checked_add(SignedDuration::from_secs(seconds))
}

/// The files of the host, of which `-` is standard input, and its clock.
#[derive(Drop)]
pub struct HostSources<'a> {
    rt: &'a HostRuntime,
    /// What the clock had when the run began.
    at: Option<Time>,
    /// Whether files were found in folders. Of these regular ones are opened alone, since opening a FIFO waits for a
    /// writer; who names one waits for it.
    is_listed: Cell<bool>,
}

impl<'a> HostSources<'a> {
    /// The host, whose clock is read once.
    pub fn new(rt: &'a HostRuntime) -> HostSources<'a> {
        HostSources {
            rt,
            at: clock_of(rt),
            is_listed: Cell::new(false),
        }
    }
}

/// All of a file that was found in a folder: of a regular one, which is looked at before it is opened, and again once
/// it is open. Who can write in the folder while it is read can let a run wait.
fn read_listed(rt: &HostRuntime, alloc: Global, name: &str) -> Result<Vec<u8>, Fault> {
    let seen = match fs::metadata(rt, name) {
        Ok(seen) => seen,
        Err(e) => return Err(Fault::Unreadable(Cause::of(e.kind()))),
    };
    if seen.is_dir() {
        return Err(Fault::Unreadable(Cause::Folder));
    }
    if !seen.is_file() {
        return Err(Fault::Unreadable(Cause::Special));
    }
    match fs::open(rt, name) {
        Ok(mut file) => match file.metadata() {
            Ok(open) if is_same(&seen, &open) => read_whole(alloc, &mut file),
            _ => Err(Fault::Unreadable(Cause::Other)),
        },
        Err(e) => Err(Fault::Unreadable(Cause::of(e.kind()))),
    }
}

impl Sources for HostSources<'_> {
    ghost use Rattle.std.specs.Prelude.{None, Some};

    ghost holds = { λ _ _. None };

    ghost lists = { λ _ _. None };

    ghost clock = { λ h. Some h.at };

    fn read(&self, alloc: Global, name: &str) -> Result<Vec<u8>, Fault> {
        if name == "-" {
            return read_whole(alloc, &mut self.rt.stdin());
        }
        if self.is_listed.get() {
            return read_listed(self.rt, alloc, name);
        }
        match fs::open(self.rt, name) {
            Ok(mut file) => read_whole(alloc, &mut file),
            Err(e) => Err(Fault::Unreadable(Cause::of(e.kind()))),
        }
    }

    fn under(&self, alloc: Global, name: &str) -> Result<Vec<String>, AllocError> {
        self.is_listed.set(true);
        files_under(alloc, self.rt, name)
    }

    fn now(&self) -> Option<Time> {
        self.at
    }
}
