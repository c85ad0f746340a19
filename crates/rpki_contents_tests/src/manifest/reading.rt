//! Manifests: those that openssl (`asn1parse -genconf`) made, and others of the same parts.

use super::{Changes, ONE_FILE, THREE_FILES};
use crate::encoding::are_written_as;
use bytes::Bytes;
use rpki::repository::x509::{Serial, Time};
use rpki_contents::{FileAndHash, ManifestContent, ManifestView, MessageDigest};
use rpki_der::DecodeError;
use rpki_der_tests::changed::changed;
use rpki_der_tests::hexadecimal::octets_of;
use rpki_der_tests::kinds::{Outcome, outcome_of};
use rpki_der_tests::rows;
use rpki_digests::Digests;
use std::alloc::Global;
use std::test::Fail;

/// A manifest with changes, its number, and how many files it lists.
const GOOD: &[(&str, &str, Changes, u64, usize)] = &rows! {
    ("three files", THREE_FILES, &[], 513, 3),
    ("no file",
     "3032020100180f30303030303130313030303030305a180f39393939313233313233353935395a06096086480165030402013000", &[],
     0, 0),
    ("one file", ONE_FILE, &[], 513, 1),
    ("names that differ in case", ONE_FILE, &[("3061", "30818b"), ("302e302c1607616263", "3058302a160561"),
      ("15ad", "15ad302a1605412e636572032100ba7816bf8f01cfea414140de5dae2223b00361a396177a9cb410ff61f20015ad")],
     513, 2),
    ("names of which one begins another", ONE_FILE, &[("3061", "3081e5"), ("302e302c1607616263", "3081b1302a160561"), (
       "15ad", "15ad302b160661612e636572032100ba7816bf8f01cfea414140de5dae2223b00361a396177a9cb410ff61f20015ad302a1605\
       2d2e636572032100ba7816bf8f01cfea414140de5dae2223b00361a396177a9cb410ff61f20015ad302a16055f2e636572032100ba7816bf\
       8f01cfea414140de5dae2223b00361a396177a9cb410ff61f20015ad")], 513, 4),
    ("name of 200 octets", ONE_FILE, &[("3061", "30820125"), ("302e302c1607616263",
       "3081f13081ee1681c86e6e6e6e6e6e6e6e6e6e6e6e6e6e6e6e6e6e6e6e6e6e6e6e6e6e6e6e6e6e6e6e6e6e6e6e6e6e6e6e6e6e6e6e6e6e\
       6e6e6e6e6e6e6e6e6e6e6e6e6e6e6e6e6e6e6e6e6e6e6e6e6e6e6e6e6e6e6e6e6e6e6e6e6e6e6e6e6e6e6e6e6e6e6e6e6e6e6e6e6e6e6e6e\
       6e6e6e6e6e6e6e6e6e6e6e6e6e6e6e6e6e6e6e6e6e6e6e6e6e6e6e6e6e6e6e6e6e6e6e6e6e6e6e6e6e6e6e6e6e6e6e6e6e6e6e6e6e6e6e6e\
       6e6e6e6e6e6e6e6e6e6e6e6e6e6e6e6e6e6e6e6e6e6e6e6e6e6e6e6e6e6e6e6e6e6e6e6e6e6e")], 513, 1),
    ("same digest twice", ONE_FILE, &[("3061", "30818b"), ("302e302c1607616263", "3058302a160561"),
      ("15ad", "15ad302a1605622e636572032100ba7816bf8f01cfea414140de5dae2223b00361a396177a9cb410ff61f20015ad")],
     513, 2),
    ("an extension of no registry", ONE_FILE,
     &[("3061", "305f"), ("302e302c16076162632e636572", "302c302a1605612e7a7a7a")], 513, 1),
    ("names in falling order", ONE_FILE, &[("3061", "3081b8"), ("302e302c1607616263", "308184302a16057a"), ("15ad",
       "15ad302a1605792e636572032100ba7816bf8f01cfea414140de5dae2223b00361a396177a9cb410ff61f20015ad302a1605782e636572\
       032100ba7816bf8f01cfea414140de5dae2223b00361a396177a9cb410ff61f20015ad")], 513, 3),
    ("number 127", THREE_FILES, &[("3081bf02020201", "3081be02017f")], 127, 3),
    ("number 128", THREE_FILES, &[("020201", "020080")], 128, 3),
    ("next update a second later", THREE_FILES, &[("31323335393539", "31303030303030")], 513, 3),
};

/// The manifest that the octets are, kept.
pub fn decode(alloc: Global, octets: &[u8]) -> Result<ManifestContent, DecodeError> {
    ManifestContent::decode(alloc, Bytes::copy_from_slice(alloc, octets)?)
}

/// Whether the manifest is written as these octets.
pub fn is_written(alloc: Global, content: &ManifestContent, octets: &[u8]) -> Result<bool, Fail> {
    match content.encode() {
        Some(values) => Ok(are_written_as(alloc, &values, octets)?),
        None => Ok(false),
    }
}

/// How many files the cursor of a manifest in place gives.
fn given(view: &ManifestView<'_>) -> usize {
    let mut files = view.files.files();
    let mut count = 0usize;
    while files.next_file().is_some() {
        count = count.saturating_add(1);
    }
    count
}

/// Whether the manifest is read in place with its number and its files, whose names differ.
fn is_seen(octets: &[u8], number: Serial, files: usize) -> bool {
    let mut room: [&[u8]; 8] = [&[]; 8];
    match ManifestView::read(octets) {
        Ok(view) => {
            view.manifest_number == number
                && view.files.count() == files
                && given(&view) == files
                && files <= 8
                && view.files.names_differ(&mut room)
        }
        Err(_) => false,
    }
}

#[test]
fn manifests_are_read(rt: HostRuntime) -> Result<(), Fail> {
    for (name, manifest, changes, number, files) in GOOD {
        let octets = changed(rt.alloc(), manifest, changes)?;
        assert!(rt; octets.is_some(), "{name}: no such octets");
        let octets = octets.unwrap_or(Vec::new(rt.alloc()));
        let content = decode(rt.alloc(), octets.as_slice())?;
        let number = Serial::from(*number);
        let is_kept = content.manifest_number() == number && content.len() == *files;
        assert!(rt; is_kept, "{name}");
        assert!(rt;
            is_seen(octets.as_slice(), number, *files),
            "{name}, in place"
        );
        assert!(rt;
            is_written(rt.alloc(), &content, octets.as_slice())?,
            "{name}, written"
        );
    }
    Ok(())
}

/// Manifests that list a file twice, which is seen in place only where it is asked for.
const DOUBLED: &[(&str, &str, Changes)] = &rows! {
    ("name twice in a row", THREE_FILES,
     &[("3081bf", "3081bc"), ("8b30", "8830"), ("302f160a412d5a5f30392e726f61", "302c16076162632e636572")]),
    ("first name again as the last", ONE_FILE, &[("3061", "3081ed"), ("302e", "3081b9"), ("15ad",
       "15ad302a16057a2e63726c032100248d6a61d20638b8e5c026930c3e6039a33ce45964ff2167f6ecedd419db06c1302f160a412d5a5f30\
       392e726f61032100e3b0c44298fc1c149afbf4c8996fb92427ae41e4649b934ca495991b7852b855302c16076162632e636572032100ba78\
       16bf8f01cfea414140de5dae2223b00361a396177a9cb410ff61f20015ad")]),
    ("file twice", ONE_FILE, &[("3061", "3081ba"),
      ("302e", "308186302a16057a2e63726c032100248d6a61d20638b8e5c026930c3e6039a33ce45964ff2167f6ecedd419db06c1"),
      ("15ad", "15ad302a16057a2e63726c032100248d6a61d20638b8e5c026930c3e6039a33ce45964ff2167f6ecedd419db06c1")]),
    ("one name three times", ONE_FILE, &[("3061", "3081c7"), ("302e302c16076162632e636572032100ba7816bf8f01cfea414140de\
       5dae2223b00361a396177a9cb410ff61f20015ad", "308193302f160a412d5a5f30392e726f61032100e3b0c44298fc1c149afbf4c8996f\
       b92427ae41e4649b934ca495991b7852b855302f160a412d5a5f30392e726f61032100e3b0c44298fc1c149afbf4c8996fb92427ae41e464\
       9b934ca495991b7852b855302f160a412d5a5f30392e726f61032100e3b0c44298fc1c149afbf4c8996fb92427ae41e4649b934ca495991b\
       7852b855")]),
};

/// Whether the manifest is read in place, and says that two of its names are the same.
fn is_seen_doubled(octets: &[u8]) -> bool {
    let mut room: [&[u8]; 8] = [&[]; 8];
    match ManifestView::read(octets) {
        Ok(view) => view.files.count() <= 8 && !view.files.names_differ(&mut room),
        Err(_) => false,
    }
}

#[test]
fn a_file_is_listed_once(rt: HostRuntime) -> Result<(), Fail> {
    for (name, manifest, changes) in DOUBLED {
        let octets = changed(rt.alloc(), manifest, changes)?;
        assert!(rt; octets.is_some(), "{name}: no such octets");
        let octets = octets.unwrap_or(Vec::new(rt.alloc()));
        let kept = outcome_of(decode(rt.alloc(), octets.as_slice()));
        assert_eq!(rt; kept, Outcome::Content, "{name}");
        assert!(rt; is_seen_doubled(octets.as_slice()), "{name}");
    }
    Ok(())
}

/// The manifest of three files: 23:59:59 of 29 February 2024, and of 1 March.
fn three_files(alloc: Global) -> Result<ManifestContent, DecodeError> {
    decode(alloc, octets_of(alloc, THREE_FILES)?.as_slice())
}

/// Names, and the places of the files that have them.
const SOUGHT: &[(&str, Option<usize>)] = &[
    ("abc.cer", Some(0)),
    ("A-Z_09.roa", Some(1)),
    ("z.crl", Some(2)),
    ("Z.crl", None),
    ("z.cr", None),
    ("z.crl ", None),
    ("", None),
];

/// Whether the file of the name is that at the place.
fn is_found(content: &ManifestContent, name: &str, place: Option<usize>) -> bool {
    match (content.find(name.as_bytes()), place) {
        (None, None) => true,
        (Some(file), Some(place)) => match content.file_list().get(place) {
            Some(other) => file.file() == name.as_bytes() && other.hash() == file.hash(),
            None => false,
        },
        _ => false,
    }
}

#[test]
fn files_are_found(rt: HostRuntime) -> Result<(), Fail> {
    let content = three_files(rt.alloc())?;
    for (name, place) in SOUGHT {
        assert!(rt; is_found(&content, name, *place), "{name}");
    }
    Ok(())
}

/// Octets, and the place of the file whose digest they have: `abc` and the text of 448 bits of FIPS 180-4, and none.
const DIGESTED: &[(&[u8], usize)] = &rows! {
    (b"abc", 0),
    (b"", 1),
    (b"abcdbcdecdefdefgefghfghighijhijkijkljklmklmnlmnomnopnopq", 2),
};

/// The places of the files whose digest the octets have, as a sum of powers of two.
fn verified(files: &[FileAndHash], octets: &[u8]) -> usize {
    let mut places = 0usize;
    let mut bit = 1usize;
    for file in files {
        if file.hash() == MessageDigest::of(&Digests, octets) {
            places = places.saturating_add(bit);
        }
        bit = bit.saturating_mul(2);
    }
    places
}

#[test]
fn digests_are_those_of_files(rt: HostRuntime) -> Result<(), Fail> {
    let content = three_files(rt.alloc())?;
    for (octets, place) in DIGESTED {
        let only = [1usize, 2, 4].get(*place).copied();
        let found = verified(content.file_list(), octets);
        assert_eq!(rt; Some(found), only, "place {place}");
    }
    Ok(())
}

/// The year, month, day, hour, minute and second.
type Parts = (i32, u32, u32, u32, u32, u32);

/// A moment, and whether the manifest is stale then.
const MOMENTS: &[(&str, Parts, bool)] = &rows! {
    ("a year before", (2023, 2, 28, 23, 59, 59), false),
    ("a second before", (2024, 2, 29, 23, 59, 58), false),
    ("when it was issued", (2024, 2, 29, 23, 59, 59), false),
    ("between", (2024, 3, 1, 12, 0, 0), false),
    ("when the next is due", (2024, 3, 1, 23, 59, 59), false),
    ("a second behind", (2024, 3, 2, 0, 0, 0), true),
};

/// Whether the manifest is stale then, where it is a time.
fn is_stale(content: &ManifestContent, parts: Parts) -> Option<bool> {
    let (year, month, day, hour, minute, second) = parts;
    Some(content.is_stale(Time::utc(year, month, day, hour, minute, second)?))
}

#[test]
fn manifests_hold_from_update_to_update(rt: HostRuntime) -> Result<(), Fail> {
    let content = three_files(rt.alloc())?;
    for (name, parts, stale) in MOMENTS {
        assert_eq!(rt; is_stale(&content, *parts), Some(*stale), "{name}");
    }
    Ok(())
}

/// The digest of one octet thirty-two times.
fn digest_of(octet: u8) -> MessageDigest {
    MessageDigest::from_array([octet; 32])
}

#[test]
fn digests_compare(rt: HostRuntime) {
    assert!(rt; digest_of(1) == digest_of(1));
    assert!(rt; digest_of(1) != digest_of(2));
    assert_eq!(rt; digest_of(7).as_slice().len(), 32);
}
