//! The index of headers.

ghost use Rattle.std.specs.Prelude.{◌≡◌, ◌≤◌, ◌<◌, ◌+◌, ◌^◌, ◌++◌, ℕ, List, map, drop, length};
ghost use Rattle.rpki_der.specs.Index.{Entry as IndexEntry, IsIndex};
ghost use Rattle.rpki_c.specs.Front.{passed, slot_at, Closes, IsIndexed};

use crate::headers::class_number;
use crate::status::TOO_SMALL;
use rpki_der::{Header, Steps, read_header, walk_octets};
use std::alloc::Global;

/// An entry of the index of a value: a header, at any depth. Places are counted from the first of the octets.
#[repr(C)]
#[derive(Clone, Copy)]
pub struct Entry {
    /// Where the header begins.
    pub start: usize,
    /// Where the contents begin.
    pub contents: usize,
    /// The place just past the contents.
    pub end: usize,
    /// The number of the entry of the value around it, from 0; `SIZE_MAX` where there is none.
    pub parent: usize,
    /// The number of the tag.
    pub number: u32,
    /// The class: 0 universal, 1 application, 2 context, 3 private.
    pub tag_class: u8,
    /// Whether the contents are values themselves.
    pub constructed: bool,
}

/// The entry of a header of this size, at this place, in the value whose entry has this number.
#[inline(always)]
fn entry_at(place: usize, size: usize, header: &Header, parent: usize) -> Entry
    requires { place + size + header.now.length < 2 ^ 64 }
    ensures { result ≡ slot_at place size header.now parent }
{
    Entry {
        start: place,
        contents: place + size,
        end: place + size + header.length as usize,
        parent,
        number: header.tag.number(),
        tag_class: class_number(header.tag.class()),
        constructed: header.constructed,
    }
}

/// The number of the entry of the innermost value that doesn't end at this place: this one, or one around it.
#[inline(always)]
fn innermost(entries: &[Entry], place: usize, number: usize) -> usize
    requires { (q : ℕ) × Closes entries.now place number q }
    ensures { (q : ℕ) → Closes entries.now place number q → result ≡ q }
{
    let mut parent = number;
    'ended: while parent < entries.len() && entries[parent].end == place {
        parent = entries[parent].parent;
    }
    parent
}

/// Writes the index of values that are all of the octets, and have so many headers, to the front of the array. It keeps
/// no stack: the value around an open one is found by its entry.
fn write_index(octets: &[u8], count: usize, entries: &mut [Entry])
    requires values { (index : List IndexEntry) × IsIndex octets.now index × (length index ≡ count) }
    requires room { count ≤ length entries.old }
    ensures { (index : List IndexEntry) × IsIndex octets.now index × (length index ≡ count)
        × (entries.new ≡ map passed index ++ drop count entries.old) }
{
    let mut place = 0;
    let mut number = 0;
    let mut last = usize::MAX;
    'values: while number < count {
        let (found, size) = match read_header(&octets[place..]) {
            Ok(found) => found,
            Err(_) => return,
        };
        let parent = innermost(&entries[..number], place, last);
        entries[number] = entry_at(place, size, &found, parent);
        place += size;
        if found.constructed {
            last = number;
        } else {
            last = parent;
            place += found.length as usize;
        }
        number += 1;
    }
}

/// Writes the index of the value at the front of the octets: an entry for each header, at every depth, in order of
/// place.
///
/// The status is 0, and `count` says how many entries were written; the rest of the array is unchanged. It is 9 where
/// the array has no room for all of them: `count` says how many there are, and no entry is written. Else it is the
/// number of the error, the leftmost, and neither is written. Allocation can fail only if a constructed value begins
/// the octets.
#[unsafe(no_mangle)]
pub extern "C" fn rpki_index(
    alloc: Global,
    octets: &[u8],
    entries: &mut [Entry],
    count: &mut usize,
) -> u8
    ensures { IsIndexed octets.now result entries.old entries.new count.old count.new }
{
    let mut steps = Steps::new();
    let size = match walk_octets(alloc, octets, &mut steps) {
        Ok(size) => size,
        Err(e) => return e.number(),
    };
    let headers = steps.count() as usize;
    *count = headers;
    if entries.len() < headers {
        return TOO_SMALL;
    }
    write_index(&octets[..size], headers, entries);
    0
}
