//! Manifests of many files. Their octets are written here by hand, as X.690 says: each name has twelve octets.

use super::reading::{decode, is_written};
use crate::encoding::sequence_of;
use rpki_contents::ManifestView;
use rpki_der_tests::rows;
use std::alloc::{AllocError, Global};
use std::test::Fail;

/// Number 1, 1 January 2026 and 2036, and the identifier of SHA-256.
const FRONT: &[u8] = b"\x02\x01\x01\x18\x0f20260101000000Z\x18\x0f20360101000000Z\
    \x06\x09\x60\x86\x48\x01\x65\x03\x04\x02\x01";

/// How many files there are, and whether the last has the name of the first.
const SIZES: &[(usize, bool)] = &rows! {
    (0, false), (1, false), (2, false), (2, true), (3, false), (5, false), (21, false), (127, false),
    (1_000, false), (1_000, true),
};

/// A file: its name, and a digest of thirty-two equal octets.
const FILE: [u8; 51] = *b"\x30\x31\x16\x0cf0000000.roa\x03\x21\x00\
    \xab\xab\xab\xab\xab\xab\xab\xab\xab\xab\xab\xab\xab\xab\xab\xab\
    \xab\xab\xab\xab\xab\xab\xab\xab\xab\xab\xab\xab\xab\xab\xab\xab";

/// The file of this number: its name has the number's last seven digits, from the last to the first, so that no two
/// files are in order.
fn file_of(number: usize) -> [u8; 51] {
    let mut file = FILE;
    let mut left = number;
    for place in 5..12 {
        file[place] = b'0' + (left % 10) as u8;
        left /= 10;
    }
    file
}

/// A manifest of so many files; the last may have the name of the first.
fn manifest_of(alloc: Global, files: usize, doubled: bool) -> Result<Vec<u8>, AllocError> {
    let mut list = Vec::new(alloc);
    for number in 0..files {
        let is_again = doubled && number > 0 && number == files - 1;
        list.extend_from_slice(&file_of(if is_again { 0 } else { number }))?;
    }
    let list = sequence_of(alloc, &[list.as_slice()])?;
    sequence_of(alloc, &[FRONT, list.as_slice()])
}

/// Whether so many files are read in place, and their names differ unless one occurs twice.
fn is_seen(alloc: Global, octets: &[u8], files: usize, doubled: bool) -> Result<bool, Fail> {
    let mut room: Vec<&[u8]> = Vec::new(alloc);
    for _ in 0..files {
        room.push(&[])?;
    }
    match ManifestView::read(octets) {
        Ok(view) => Ok(
            view.files.count() == files
                && room.len() == files
                && view.files.names_differ(&mut room) != doubled,
        ),
        Err(_) => Ok(false),
    }
}

/// Whether so many files are kept, and refused if one occurs twice.
fn is_kept(alloc: Global, octets: &[u8], files: usize, doubled: bool) -> Result<bool, Fail> {
    match decode(alloc, octets) {
        Ok(content) => Ok(!doubled && content.len() == files),
        Err(e) => Ok(doubled && e.number() == 5),
    }
}

#[test]
fn manifests_of_many_files(rt: HostRuntime) -> Result<(), Fail> {
    for (files, doubled) in SIZES {
        let octets = manifest_of(rt.alloc(), *files, *doubled)?;
        let seen = is_seen(rt.alloc(), &octets, *files, *doubled)?;
        let kept = is_kept(rt.alloc(), &octets, *files, *doubled)?;
        assert!(rt; seen, "{files} in place");
        assert!(rt; kept, "{files} kept");
    }
    Ok(())
}

/// How many files the largest manifest has.
const MANY: usize = 100_000;

#[test]
fn a_hundred_thousand_files_are_kept(rt: HostRuntime) -> Result<(), Fail> {
    let octets = manifest_of(rt.alloc(), MANY, false)?;
    assert!(rt; is_kept(rt.alloc(), &octets, MANY, false)?);
    Ok(())
}

#[test]
fn a_hundred_thousand_files_are_seen(rt: HostRuntime) -> Result<(), Fail> {
    let octets = manifest_of(rt.alloc(), MANY, false)?;
    assert!(rt; is_seen(rt.alloc(), &octets, MANY, false)?);
    Ok(())
}

/// How many files are written: the most are a million octets.
const WRITTEN: [usize; 7] = [0, 1, 127, 128, 255, 256, 19_608];

#[test]
fn manifests_of_many_files_are_written(rt: HostRuntime) -> Result<(), Fail> {
    for files in WRITTEN {
        let octets = manifest_of(rt.alloc(), files, false)?;
        let content = decode(rt.alloc(), &octets)?;
        assert!(rt; is_written(rt.alloc(), &content, &octets)?, "{files}");
    }
    Ok(())
}
