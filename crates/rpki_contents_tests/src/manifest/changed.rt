//! One manifest with each of its octets changed, and each of its beginnings.
//!
//! What has to become of a change was found by a reader of RFC 9286 4.2 in python, which shares nothing with this one:
//! `+` stands for a manifest, which says something else, and `.` for none.

use super::THREE_FILES;
use bytes::Bytes;
use rpki_contents::{ManifestContent, ManifestView};
use rpki_der_tests::hexadecimal::octets_of;
use rpki_der_tests::rows;
use std::alloc::Global;
use std::test::Fail;

/// Bits of an octet that are turned, and what becomes of the manifest where they are turned in the octet of a place.
const CHANGES: &[(u8, &str)] = &rows! {
    (0x01, ".....++.........+.+++++...++++..+..+++++....................++.+++...++++++++++++++++++++++++++++++++......\
     ..++.++....++++++++++++++++++++++++++++++++......+++...++++++++++++++++++++++++++++++++"),
    (0x20, ".....++....................................................+++.......++++++++++++++++++++++++++++++++....+.\
     +..........++++++++++++++++++++++++++++++++....+.......++++++++++++++++++++++++++++++++"),
    (0x80, "......+..............................................................++++++++++++++++++++++++++++++++......\
     ...........++++++++++++++++++++++++++++++++............++++++++++++++++++++++++++++++++"),
};

/// Whether the octets are a manifest, as both readers say; None where they don't agree. No change makes two names the
/// same.
fn is_manifest(alloc: Global, octets: &[u8]) -> Result<Option<bool>, Fail> {
    let bytes = Bytes::copy_from_slice(alloc, octets)?;
    let kept = ManifestContent::decode(alloc, bytes).is_ok();
    let seen = ManifestView::read(octets).is_ok();
    Ok(if kept == seen { Some(kept) } else { None })
}

/// The first place at which a change of the octet there does not become what it should; None where there is none.
fn first_other(alloc: Global, bits: u8, becomes: &str) -> Result<Option<usize>, Fail> {
    let mut octets = octets_of(alloc, THREE_FILES)?;
    let marks = becomes.as_bytes();
    for place in 0..octets.len() {
        octets[place] ^= bits;
        let found = is_manifest(alloc, octets.as_slice())?;
        octets[place] ^= bits;
        if found != marks.get(place).map(|mark| *mark == b'+') {
            return Ok(Some(place));
        }
    }
    Ok(None)
}

#[test]
fn each_octet_changed(rt: HostRuntime) -> Result<(), Fail> {
    for (bits, becomes) in CHANGES {
        let other = first_other(rt.alloc(), *bits, becomes)?;
        assert_eq!(rt; other, None, "bits {bits}");
    }
    Ok(())
}

#[test]
fn each_beginning(rt: HostRuntime) -> Result<(), Fail> {
    let octets = octets_of(rt.alloc(), THREE_FILES)?;
    for size in 0..octets.len() {
        let found = is_manifest(rt.alloc(), &octets.as_slice()[..size])?;
        assert_eq!(rt; found, Some(false), "{size} octets");
    }
    assert_eq!(rt; is_manifest(rt.alloc(), octets.as_slice())?, Some(true));
    Ok(())
}
