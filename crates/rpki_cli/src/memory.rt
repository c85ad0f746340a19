//! A machine in memory, of which each call fails where it is planned to.

ghost use Rattle.std.specs.Prelude.{◌≡◌, ◌≢◌, ◌++◌, ℕ, List, None, IfNone, IfOk, IfSome, false, string_bytes, true};
ghost use Rattle.rpki_cli.specs.Memory.{AreKept, IsCarried, IsPut, IsSet, files_of, octets_in};
ghost use Rattle.rpki_cli.specs.World.{line};

use crate::machine::Machine;
use crate::record::Record;
use std::alloc::{AllocError, Global};
use std::collections::BTreeMap;

/// Files by their names.
pub type Files = BTreeMap<String, Vec<u8>>;

/// A machine in memory.
#[derive(Drop)]
pub struct Memory {
    alloc: Global,
    /// Its files.
    pub files: Files,
    /// What was written to standard output.
    pub printed: Vec<u8>,
    /// What was written to standard error.
    pub told: Vec<u8>,
    log: Record,
    /// The calls that fail, by their bits; the lowest is the next call's.
    pub plan: u64,
}

impl Memory {
    /// A machine without files, of which the calls of this plan fail.
    pub fn new(alloc: Global, plan: u64) -> Memory {
        Memory {
            alloc,
            files: BTreeMap::new(alloc),
            printed: Vec::new(alloc),
            told: Vec::new(alloc),
            log: Record::new(),
            plan,
        }
    }
}

/// Whether the next call fails.
fn falls(plan: &mut u64) -> bool {
    let now = *plan % 2 == 1;
    *plan /= 2;
    now
}

/// Makes a file beside, with the text.
fn put(alloc: Global, files: &mut Files, name: &str, other: &str, text: &[u8]) -> Option<String>
    ensures some { IfSome result (λ beside. IsPut files.old files.new name.now other.now (string_bytes beside)
        text.now) }
    ensures none { IfNone result (AreKept files.old files.new) }
{
    let beside = format!(in alloc; "{name}.new").ok()?;
    if beside.as_str() == name || beside.as_str() == other || files.contains_key(beside.as_str()) {
        return None;
    }
    let key = String::from_str(alloc, beside.as_str()).ok()?;
    let octets = text.to_vec(alloc).ok()?;
    if files.insert(key, octets).is_err() {
        return None;
    }
    Some(beside)
}

/// Lets a file take the place of another.
fn carry(alloc: Global, files: &mut Files, from: &str, to: &str) -> bool
    ensures yes { result ≡ true → IsCarried files.old files.new from.now to.now }
    ensures no { result ≡ false → AreKept files.old files.new }
{
    let Some(octets) = files.get(from) else {
        return false;
    };
    if from == to {
        return true;
    }
    let Ok(octets) = octets.to_vec(alloc) else {
        return false;
    };
    let Ok(key) = String::from_str(alloc, to) else {
        return false;
    };
    if files.insert(key, octets).is_err() {
        return false;
    }
    files.remove(from);
    true
}

/// Takes a file away.
fn drop_file(files: &mut Files, name: &str)
    ensures gone { files_of files.new name.now ≡ None }
    ensures others { (n : List ℕ) → n ≢ name.now → files_of files.new n ≡ files_of files.old n }
{
    files.remove(name);
}

/// The octets at a name, or none.
fn found(alloc: Global, files: &Files, name: &str) -> Option<Vec<u8>>
    ensures { IfSome result (λ v. v.items ≡ octets_in files.now name.now) }
{
    match files.get(name) {
        Some(octets) => octets.to_vec(alloc).ok(),
        None => Some(Vec::new(alloc)),
    }
}

/// Lets the file of this name have these octets.
fn set(alloc: Global, files: &mut Files, name: &str, octets: Vec<u8>) -> bool
    ensures yes { result ≡ true → IsSet files.old files.new name.now octets.items }
    ensures no { result ≡ false → AreKept files.old files.new }
{
    let Ok(key) = String::from_str(alloc, name) else {
        return false;
    };
    if files.insert(key, octets).is_err() {
        return false;
    }
    true
}

/// Adds to the file of this name, which is made where there is none.
fn extend(alloc: Global, files: &mut Files, name: &str, text: &[u8]) -> bool
    ensures yes { result ≡ true → IsSet files.old files.new name.now (octets_in files.old name.now ++ text.now) }
    ensures no { result ≡ false → AreKept files.old files.new }
{
    let Some(mut octets) = found(alloc, files, name) else {
        return false;
    };
    if octets.extend_from_slice(text).is_err() {
        return false;
    }
    set(alloc, files, name, octets)
}

/// A line that says what is wrong with a name.
fn line_of(alloc: Global, program: &str, name: &str, why: &str) -> Result<Vec<u8>, AllocError>
    ensures { IfOk result (λ text. text.items ≡ line program.now name.now why.now) }
{
    let text = format!(in alloc; "{program}: {name}: {why}\n")?;
    Ok(text.into_bytes())
}

impl Machine for Memory {
    ghost use Rattle.std.specs.Bool.{⊤};
    ghost use Rattle.rpki_cli.specs.Memory.{files_of};
    ghost use Rattle.rpki_cli.specs.World.{World};

    ghost knows = { λ _. ⊤ };

    ghost world = { λ m. record {
      files = files_of m.files;
      printed = m.printed.items;
      told = m.told.items;
      failed = m.log.calls;
    } };

    fn is_writable(&mut self, name: &str) -> bool {
        if falls(&mut self.plan) {
            self.log.note(&[4], name.as_bytes());
            return false;
        }
        true
    }

    fn are_one(&self, first: &str, second: &str) -> bool {
        first == second
    }

    fn stage(&mut self, name: &str, other: &str, text: &[u8]) -> Option<String> {
        if falls(&mut self.plan) {
            self.log.note(&[0], name.as_bytes());
            return None;
        }
        let Some(beside) = put(self.alloc, &mut self.files, name, other, text) else {
            self.log.note(&[0], name.as_bytes());
            return None;
        };
        Some(beside)
    }

    fn place(&mut self, beside: &str, name: &str, _text: &[u8]) -> bool {
        if falls(&mut self.plan) {
            self.log.note(&[1], name.as_bytes());
            return false;
        }
        if carry(self.alloc, &mut self.files, beside, name) {
            return true;
        }
        self.log.note(&[1], name.as_bytes());
        false
    }

    fn take_away(&mut self, beside: &str, _name: &str) -> bool {
        if falls(&mut self.plan) {
            self.log.note(&[8], beside.as_bytes());
            return false;
        }
        drop_file(&mut self.files, beside);
        true
    }

    fn open(&mut self, name: &str) -> bool {
        if falls(&mut self.plan) {
            self.log.note(&[5], name.as_bytes());
            return false;
        }
        if extend(self.alloc, &mut self.files, name, &[]) {
            return true;
        }
        self.log.note(&[5], name.as_bytes());
        false
    }

    fn add(&mut self, name: &str, text: &[u8]) -> bool {
        if falls(&mut self.plan) {
            self.log.note(&[6], name.as_bytes());
            return false;
        }
        if extend(self.alloc, &mut self.files, name, text) {
            return true;
        }
        self.log.note(&[6], name.as_bytes());
        false
    }

    fn print(&mut self, text: &[u8]) -> bool {
        if falls(&mut self.plan) || self.printed.extend_from_slice(text).is_err() {
            self.log.note(&[2], text);
            return false;
        }
        true
    }

    fn tell(&mut self, text: &[u8]) -> bool {
        if falls(&mut self.plan) || self.told.extend_from_slice(text).is_err() {
            self.log.note(&[3], text);
            return false;
        }
        true
    }

    fn complain(&mut self, program: &str, name: &str, why: &str) -> bool {
        if falls(&mut self.plan) {
            self.log.note(&[7], name.as_bytes());
            return false;
        }
        let Ok(text) = line_of(self.alloc, program, name, why) else {
            self.log.note(&[7], name.as_bytes());
            return false;
        };
        if self.told.extend_from_slice(text.as_slice()).is_err() {
            self.log.note(&[7], name.as_bytes());
            return false;
        }
        true
    }
}
