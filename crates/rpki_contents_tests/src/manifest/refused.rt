//! Contents that are no manifest. Each is a manifest of openssl (`asn1parse -genconf`) but for one thing, which its
//! name tells; what is wrong follows from RFC 9286 4.2 and X.690.

use super::{Changes, ONE_FILE, THREE_FILES};
use bytes::Bytes;
use rpki_contents::{ManifestContent, ManifestPart, ManifestView};
use rpki_der_tests::changed::changed;
use rpki_der_tests::kinds::{Outcome, outcome_of, refused};
use rpki_der_tests::rows;
use std::test::Fail;

/// A manifest, and octets in it with those in their place, which make it none; the error of the reader that keeps it,
/// and the part that the one in place names.
type Row<'a> = (&'a str, &'a str, Changes, Outcome, ManifestPart);

/// What is around the fields of a manifest, and the fields in front of the list of files; times out of order.
const FIELDS: &[Row<'_>] = &rows! {
    ("nothing", "", &[], Outcome::Truncated, ManifestPart::Manifest),
    ("SET around all", THREE_FILES, &[("3081", "3181")], Outcome::Unexpected, ManifestPart::Manifest),
    ("SEQUENCE in primitive form", THREE_FILES, &[("3081", "1081")], Outcome::Unexpected, ManifestPart::Manifest),
    ("octet behind all", THREE_FILES, &[("06c1", "06c100")], Outcome::Trailing, ManifestPart::Manifest),
    ("manifest twice", THREE_FILES, &[("06c1", "06c13081bf02020201180f32303234303232393233353935395a180f32303234303330\
      313233353935395a060960864801650304020130818b302c16076162632e636572032100ba7816bf8f01cfea414140de5dae2223b00361a3\
      96177a9cb410ff61f20015ad302f160a412d5a5f30392e726f61032100e3b0c44298fc1c149afbf4c8996fb92427ae41e4649b934ca49599\
      1b7852b855302a16057a2e63726c032100248d6a61d20638b8e5c026930c3e6039a33ce45964ff2167f6ecedd419db06c1")],
     Outcome::Trailing, ManifestPart::Manifest),
    ("indefinite length", THREE_FILES, &[("3081bf", "3080"), ("06c1", "06c10000")], Outcome::BadLength,
     ManifestPart::Manifest),
    ("length in longer form", THREE_FILES, &[("3081", "308200")], Outcome::BadLength, ManifestPart::Manifest),
    ("length of one more", THREE_FILES, &[("3081bf", "3081c0")], Outcome::Truncated, ManifestPart::Manifest),
    ("tag number in long form", THREE_FILES, &[("3081", "3f1081")], Outcome::BadTag, ManifestPart::Manifest),
    ("empty SEQUENCE", "3000", &[], Outcome::Truncated, ManifestPart::Number),
    ("OCTET STRING around all", THREE_FILES, &[("3081", "0481c23081")], Outcome::Unexpected, ManifestPart::Manifest),
    ("version 0 spelled", THREE_FILES, &[("3081bf", "3081c4a003020100")], Outcome::Unexpected, ManifestPart::Number),
    ("version 1", THREE_FILES, &[("3081bf", "3081c4a003020101")], Outcome::Unexpected, ManifestPart::Number),
    ("version without its tag", THREE_FILES, &[("3081bf", "3081c2020100")], Outcome::Unexpected,
     ManifestPart::ThisUpdate),
    ("number below 0", THREE_FILES, &[("3081bf02020201", "3081be0201ff")], Outcome::Content, ManifestPart::Number),
    ("number of no octets", THREE_FILES, &[("3081bf02020201", "3081bd0200")], Outcome::Content, ManifestPart::Number),
    ("number with a 0 in front", THREE_FILES, &[("020202", "020200")], Outcome::Content, ManifestPart::Number),
    ("number of 21 octets", THREE_FILES, &[("3081bf02020201", "3081d20215010000000000000000000000000000000000000000")],
     Outcome::Content, ManifestPart::Number),
    ("number of 21 octets, the first 0", THREE_FILES,
     &[("3081bf02020201", "3081d20215008000000000000000000000000000000000000000")], Outcome::Content,
     ManifestPart::Number),
    ("number in constructed form", THREE_FILES, &[("3081bf020202", "3081c022030201")], Outcome::Unexpected,
     ManifestPart::Number),
    ("ENUMERATED for the number", THREE_FILES, &[("3081bf020202", "3081be0a01")], Outcome::Unexpected,
     ManifestPart::Number),
    ("no number", THREE_FILES, &[("3081bf02020201", "3081bb")], Outcome::Unexpected, ManifestPart::Number),
    ("UTCTime for this update", THREE_FILES, &[("3081bf02020201180f3230", "3081bd02020201170d")], Outcome::Unexpected,
     ManifestPart::ThisUpdate),
    ("UTCTime for the next update", THREE_FILES, &[("3081bf", "3081bd"), ("5a180f3230", "5a170d")], Outcome::Unexpected,
     ManifestPart::NextUpdate),
    ("time with parts of a second", THREE_FILES,
     &[("3081bf02020201180f", "3081c1020202011811"), ("393539", "3935392e35")], Outcome::Content,
     ManifestPart::ThisUpdate),
    ("time without seconds", THREE_FILES, &[("3081bf02020201180f", "3081bd02020201180d"), ("3539", "")],
     Outcome::Content, ManifestPart::ThisUpdate),
    ("time of another zone", THREE_FILES,
     &[("3081bf", "3081c3"), ("5a180f", "5a1813"), ("313233353935395a", "313233353935392b30303030")], Outcome::Content,
     ManifestPart::NextUpdate),
    ("29 February of 2023", THREE_FILES, &[("3430", "3330")], Outcome::Content, ManifestPart::ThisUpdate),
    ("second 60", THREE_FILES, &[("31323335393539", "31323335393630")], Outcome::Content, ManifestPart::NextUpdate),
    ("times reversed", THREE_FILES, &[("30323239", "30333031"), ("5a180f3230323430333031", "5a180f3230323430323239")],
     Outcome::Content, ManifestPart::Order),
    ("times equal", THREE_FILES, &[("30333031", "30323239")], Outcome::Content, ManifestPart::Order),
    ("no next update", THREE_FILES, &[("3081bf", "3081ae"), ("3233353935395a180f3230323430333031", "")],
     Outcome::Unexpected, ManifestPart::NextUpdate),
    ("no times", THREE_FILES,
     &[("3081bf02020201180f32303234303232393233353935395a180f32303234303330313233353935395a", "30819d02020201")],
     Outcome::Unexpected, ManifestPart::ThisUpdate),
    ("SHA-1 for the algorithm", THREE_FILES, &[("3081bf", "3081bb"), ("0609608648016503040201", "06052b0e03021a")],
     Outcome::Content, ManifestPart::HashAlgorithm),
    ("SHA-384 for the algorithm", THREE_FILES, &[("040201", "040202")], Outcome::Content, ManifestPart::HashAlgorithm),
    ("algorithm identifier", THREE_FILES, &[("3081bf", "3081c1"), ("313233353935395a", "313233353935395a300b")],
     Outcome::Unexpected, ManifestPart::HashAlgorithm),
    ("algorithm identifier with a NULL", THREE_FILES,
     &[("3081bf", "3081c3"), ("313233353935395a", "313233353935395a300d"), ("040201", "0402010500")],
     Outcome::Unexpected, ManifestPart::HashAlgorithm),
    ("no algorithm", THREE_FILES, &[("3081bf", "3081b4"), ("0609608648016503040201", "")], Outcome::Unexpected,
     ManifestPart::HashAlgorithm),
    ("empty identifier", THREE_FILES, &[("3081bf", "3081b6"), ("0609608648016503040201", "0600")], Outcome::Content,
     ManifestPart::HashAlgorithm),
};

/// The list of files, and its files: their names and their digests.
const FILES: &[Row<'_>] = &rows! {
    ("no list", ONE_FILE, &[("3061", "3031"),
      ("302e302c16076162632e636572032100ba7816bf8f01cfea414140de5dae2223b00361a396177a9cb410ff61f20015ad", "")],
     Outcome::Truncated, ManifestPart::FileList),
    ("SET of files", THREE_FILES, &[("0130", "0131")], Outcome::Unexpected, ManifestPart::FileList),
    ("NULL behind the list", THREE_FILES, &[("3081bf", "3081c1"), ("06c1", "06c10500")], Outcome::Trailing,
     ManifestPart::FileList),
    ("NULL among the files", ONE_FILE, &[("3061", "3063"), ("302e", "3030"), ("15ad", "15ad0500")], Outcome::Unexpected,
     ManifestPart::FileList),
    ("half a file", ONE_FILE,
     &[("3061", "3075"), ("302e", "3042"), ("15ad", "15ad302f160a412d5a5f30392e726f61032100e3b0c4")],
     Outcome::Truncated, ManifestPart::FileList),
    ("file without a digest", ONE_FILE, &[("3061", "303e"), ("302e302c", "300b3009"),
      ("032100ba7816bf8f01cfea414140de5dae2223b00361a396177a9cb410ff61f20015ad", "")], Outcome::Truncated,
     ManifestPart::FileList),
    ("file without a name", ONE_FILE, &[("3061", "3058"), ("302e302c16076162632e636572", "30253023")],
     Outcome::Unexpected, ManifestPart::FileList),
    ("file of three parts", ONE_FILE, &[("3061", "3063"), ("302e302c", "3030302e"), ("15ad", "15ad0500")],
     Outcome::Trailing, ManifestPart::FileList),
    ("empty file", ONE_FILE, &[("3061", "3035"),
      ("302e302c16076162632e636572032100ba7816bf8f01cfea414140de5dae2223b00361a396177a9cb410ff61f20015ad", "30023000")],
     Outcome::Truncated, ManifestPart::FileList),
    ("digest of 31 octets", ONE_FILE, &[("3061", "3060"), ("302e302c", "302d302b"), ("0321", "0320"), ("15ad", "15")],
     Outcome::Content, ManifestPart::FileList),
    ("digest of 33 octets", ONE_FILE,
     &[("3061", "3062"), ("302e302c", "302f302d"), ("0321", "0322"), ("15ad", "15ad00")], Outcome::Content,
     ManifestPart::FileList),
    ("digest of 20 octets", ONE_FILE,
     &[("3061", "3055"), ("302e302c", "30223020"), ("0321", "0315"), ("96177a9cb410ff61f20015ad", "")],
     Outcome::Content, ManifestPart::FileList),
    ("digest of no octets", ONE_FILE, &[("3061", "3041"), ("302e302c", "300e300c"),
      ("032100ba7816bf8f01cfea414140de5dae2223b00361a396177a9cb410ff61f20015ad", "030100")], Outcome::Content,
     ManifestPart::FileList),
    ("digest with an unused bit", ONE_FILE, &[("00ba7816bf8f01cfea414140de5dae2223b00361a396177a9cb410ff61f20015ad",
      "01248d6a61d20638b8e5c026930c3e6039a33ce45964ff2167f6ecedd419db06c0")], Outcome::Content, ManifestPart::FileList),
    ("digest with unused bits that are 1", ONE_FILE, &[("00ba", "01ba")], Outcome::Content, ManifestPart::FileList),
    ("digest with 8 unused bits", ONE_FILE, &[("00ba", "08ba")], Outcome::Content, ManifestPart::FileList),
    ("OCTET STRING for the digest", ONE_FILE, &[("3061", "3060"), ("302e302c", "302d302b"), ("032100", "0420")],
     Outcome::Unexpected, ManifestPart::FileList),
    ("BIT STRING in constructed form", ONE_FILE, &[("3061", "3063"), ("302e302c", "3030302e"), ("7203", "72232303")],
     Outcome::Unexpected, ManifestPart::FileList),
    ("name without a stem", ONE_FILE, &[("3061", "305e"), ("302e302c1607616263", "302b30291604")], Outcome::Content,
     ManifestPart::FileList),
    ("name without a dot", ONE_FILE, &[("3061", "3060"), ("302e302c16076162632e", "302d302b1606616263")],
     Outcome::Content, ManifestPart::FileList),
    ("name of two letters behind the dot", ONE_FILE,
     &[("3061", "3060"), ("302e302c1607", "302d302b1606"), ("7203", "03")], Outcome::Content, ManifestPart::FileList),
    ("name of four letters behind the dot", ONE_FILE,
     &[("3061", "3062"), ("302e302c1607", "302f302d1608"), ("7203", "727403")], Outcome::Content,
     ManifestPart::FileList),
    ("name of capitals behind the dot", ONE_FILE, &[("636572", "434552")], Outcome::Content, ManifestPart::FileList),
    ("name of a digit behind the dot", ONE_FILE, &[("7203", "3103")], Outcome::Content, ManifestPart::FileList),
    ("name of two dots", ONE_FILE, &[("6263", "2e62")], Outcome::Content, ManifestPart::FileList),
    ("name of two dots in a row", ONE_FILE, &[("3061", "3062"), ("302e302c1607616263", "302f302d16086162632e")],
     Outcome::Content, ManifestPart::FileList),
    ("name of a parent folder", ONE_FILE, &[("3061", "3062"), ("302e302c1607616263", "302f302d16082e2e2f61")],
     Outcome::Content, ManifestPart::FileList),
    ("name in a folder", ONE_FILE, &[("6263", "2f62")], Outcome::Content, ManifestPart::FileList),
    ("name with a space", ONE_FILE, &[("6263", "2062")], Outcome::Content, ManifestPart::FileList),
    ("name with a line feed", ONE_FILE, &[("3061", "3062"), ("302e302c1607", "302f302d1608"), ("7203", "720a03")],
     Outcome::Content, ManifestPart::FileList),
    ("name with an octet of 0", ONE_FILE, &[("6263", "0062")], Outcome::Content, ManifestPart::FileList),
    ("name with a percent sign", ONE_FILE, &[("3061", "3062"), ("302e302c1607616263", "302f302d160861253266")],
     Outcome::Content, ManifestPart::FileList),
    ("name with a backslash", ONE_FILE, &[("6263", "5c62")], Outcome::Content, ManifestPart::FileList),
    ("name with a colon", ONE_FILE, &[("6263", "3a62")], Outcome::Content, ManifestPart::FileList),
    ("name beyond ASCII", ONE_FILE, &[("3061", "3060"), ("302e302c1607616263", "302d302b1606c3a9")], Outcome::Content,
     ManifestPart::FileList),
    ("name that is a dot alone", ONE_FILE, &[("3061", "305b"), ("302e302c16076162632e636572", "3028302616012e")],
     Outcome::Content, ManifestPart::FileList),
    ("name of no octets", ONE_FILE, &[("3061", "305a"), ("302e302c16076162632e636572", "302730251600")],
     Outcome::Content, ManifestPart::FileList),
    ("name with at sign, before A", ONE_FILE, &[("3061", "305f"), ("302e302c1607616263", "302c302a160540")],
     Outcome::Content, ManifestPart::FileList),
    ("name with a bracket, behind Z", ONE_FILE, &[("3061", "305f"), ("302e302c1607616263", "302c302a16055b")],
     Outcome::Content, ManifestPart::FileList),
    ("name with a grave accent, before a", ONE_FILE, &[("3061", "305f"), ("302e302c1607616263", "302c302a160560")],
     Outcome::Content, ManifestPart::FileList),
    ("name with a brace, behind z", ONE_FILE, &[("3061", "305f"), ("302e302c1607616263", "302c302a16057b")],
     Outcome::Content, ManifestPart::FileList),
    ("name with a slash, before 0", ONE_FILE, &[("3061", "305f"), ("302e302c1607616263", "302c302a16052f")],
     Outcome::Content, ManifestPart::FileList),
    ("name that ends in a dot", ONE_FILE, &[("3061", "305e"), ("302e302c16076162632e636572", "302b302916046162632e")],
     Outcome::Content, ManifestPart::FileList),
    ("name with a brace behind the dot", ONE_FILE, &[("7203", "7b03")], Outcome::Content, ManifestPart::FileList),
    ("UTF8String for a name", ONE_FILE, &[("1607", "0c07")], Outcome::Unexpected, ManifestPart::FileList),
    ("PrintableString for a name", ONE_FILE, &[("1607", "1307")], Outcome::Unexpected, ManifestPart::FileList),
    ("IA5String in constructed form", ONE_FILE, &[("3061", "3063"), ("302e302c", "3030302e3609")], Outcome::Unexpected,
     ManifestPart::FileList),
    ("third file with another name", THREE_FILES, &[("3081bf", "3081bd"), ("8b30", "8930"), (
       "302a16057a2e63726c032100248d6a61d20638b8e5c026930c3e6039a33ce45964ff2167f6ecedd419db06c1",
       "302816037a2e63032100ba7816bf8f01cfea414140de5dae2223b00361a396177a9cb410ff61f20015ad")], Outcome::Content,
     ManifestPart::FileList),
};

/// The part of the octets that is said to be wrong in place, and what is wrong with it.
fn wrong_in(octets: &[u8]) -> Option<(ManifestPart, Outcome)> {
    match ManifestView::read(octets) {
        Ok(_) => None,
        Err(wrong) => Some((wrong.part, refused(&wrong.error))),
    }
}

#[test]
fn others_are_refused(rt: HostRuntime) -> Result<(), Fail> {
    for (name, manifest, changes, outcome, part) in FIELDS.iter().chain(FILES) {
        let octets = changed(rt.alloc(), manifest, changes)?;
        assert!(rt; octets.is_some(), "{name}: no such octets");
        let octets = octets.unwrap_or(Vec::new(rt.alloc()));
        let bytes = Bytes::copy_from_slice(rt.alloc(), octets.as_slice())?;
        let kept = outcome_of(ManifestContent::decode(rt.alloc(), bytes));
        let seen = wrong_in(octets.as_slice());
        assert_eq!(rt; kept, *outcome, "{name}");
        assert_eq!(rt; seen, Some((*part, *outcome)), "{name}, in place");
    }
    Ok(())
}
