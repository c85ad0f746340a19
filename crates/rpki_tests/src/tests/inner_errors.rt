//! Which error a composed reader returns from inside its value: that of the leftmost part that could not be read, and
//! `Trailing` where all parts could, and more follows them. Each row is that rule read by hand.

use super::source_of;
use rpki::crypto::{PublicKey, RpkiSignatureAlgorithm};
use rpki::repository::x509::{Name, SignedData};
use rpki_der::Constructed;
use rpki_der_tests::kinds::{Outcome, outcome_of};
use rpki_time::Validity;
use std::alloc::{AllocError, Global};
use std::test::Fail;

/// What is read of all the octets.
#[derive(Clone, Copy)]
enum Reader {
    Key,
    RsaBits,
    Signed,
    Name,
    Cms,
    Period,
}

/// How the reader ends.
fn read(alloc: Global, reader: Reader, digits: &str) -> Result<Outcome, AllocError> {
    let source = source_of(alloc, digits)?;
    Ok(match reader {
        Reader::Key => outcome_of(PublicKey::decode(alloc, source)),
        Reader::RsaBits => outcome_of(PublicKey::rsa_from_bits_bytes(source)),
        Reader::Signed => outcome_of(<SignedData>::decode(alloc, source)),
        Reader::Name => outcome_of(Name::take_from(alloc, &mut Constructed::new(&source))),
        Reader::Cms => {
            outcome_of(RpkiSignatureAlgorithm::cms_take_from(&mut Constructed::new(&source)))
        }
        Reader::Period => outcome_of(Validity::take_from(&mut Constructed::new(&source))),
    })
}

/// Names, readers, octets, and errors.
#[rattlefmt::skip]
const ROWS: &[(&str, Reader, &str, Outcome)] = &[
    ("key without bits", Reader::Key, "300f300d06092a864886f70d0101010500", Outcome::Truncated),
    ("bits of another tag", Reader::Key, "3013300d06092a864886f70d0101010500040200aa", Outcome::Unexpected),
    ("bits in constructed form", Reader::Key, "3015300d06092a864886f70d0101010500230403020000", Outcome::Unexpected),
    ("bits without a count", Reader::Key, "3011300d06092a864886f70d01010105000300", Outcome::Content),
    ("bits with eight unused bits", Reader::Key, "3013300d06092a864886f70d010101050003020800", Outcome::Content),
    ("bits with an unused bit of 1", Reader::Key, "3013300d06092a864886f70d010101050003020101", Outcome::Content),
    ("bits cut short", Reader::Key, "3013300d06092a864886f70d0101010500030300aa", Outcome::Truncated),
    ("bits with an indefinite length", Reader::Key, "3013300d06092a864886f70d010101050003800000", Outcome::BadLength),
    ("end of contents for bits", Reader::Key, "3011300d06092a864886f70d01010105000000", Outcome::BadTag),
    ("key and more", Reader::Key, "3015300d06092a864886f70d0101010500030200aa0500", Outcome::Trailing),
    ("signed data without signature", Reader::Signed, "30113000300d06092a864886f70d01010b0500", Outcome::Truncated),
    ("signature of another tag", Reader::Signed, "30153000300d06092a864886f70d01010b0500040200aa", Outcome::Unexpected),
    ("signature in constructed form", Reader::Signed, "30173000300d06092a864886f70d01010b0500230403020000",
        Outcome::Unexpected),
    ("signature without a count", Reader::Signed, "30133000300d06092a864886f70d01010b05000300", Outcome::Content),
    ("signature with eight unused bits", Reader::Signed, "30153000300d06092a864886f70d01010b050003020800",
        Outcome::Content),
    ("signature with an unused bit of 1", Reader::Signed, "30153000300d06092a864886f70d01010b050003020101",
        Outcome::Content),
    ("signature cut short", Reader::Signed, "30153000300d06092a864886f70d01010b0500030300aa", Outcome::Truncated),
    ("signature with an indefinite length", Reader::Signed, "30153000300d06092a864886f70d01010b050003800000",
        Outcome::BadLength),
    ("end of contents for signature", Reader::Signed, "30133000300d06092a864886f70d01010b05000000", Outcome::BadTag),
    ("signed data and more", Reader::Signed, "30173000300d06092a864886f70d01010b0500030200aa0500", Outcome::Trailing),
    ("a format of another tag, and malformed bits", Reader::Key, "300431000300", Outcome::Unexpected),
    ("an unknown format, and bits of another tag", Reader::Key, "3011300d06092a864886f70d01010b05000400",
        Outcome::Content),
    ("data with a forbidden tag, and no algorithm", Reader::Signed, "30021f00", Outcome::BadTag),
    ("data cut short, and no algorithm", Reader::Signed, "30023002", Outcome::Truncated),
    ("an algorithm of another tag, and no signature", Reader::Signed, "300430003100", Outcome::Unexpected),
    ("an unknown algorithm, and a malformed signature", Reader::Signed, "30133000300d06092a864886f70d01010105000300",
        Outcome::Content),
    ("an attribute without an identifier", Reader::Name, "300431023000", Outcome::Truncated),
    ("an attribute with another tag for its identifier", Reader::Name, "300731053003130141", Outcome::Unexpected),
    ("an attribute with an empty identifier", Reader::Name, "3009310730050600130141", Outcome::Content),
    ("an attribute that is a SET", Reader::Name, "300c310a31080603550403130141", Outcome::Unexpected),
    ("an attribute that is a NULL", Reader::Name, "300431020500", Outcome::Unexpected),
    ("an attribute with an indefinite length", Reader::Name, "3006310430800000", Outcome::BadLength),
    ("an attribute without a value", Reader::Name, "3009310730050603550403", Outcome::Content),
    ("an attribute with a value cut short", Reader::Name, "300c310a30080603550403130241", Outcome::Truncated),
    ("an attribute with a value of a forbidden tag", Reader::Name, "300b3109300706035504030000", Outcome::BadTag),
    ("an attribute with two values", Reader::Name, "300f310d300b0603550403130141130141", Outcome::Trailing),
    ("a relative distinguished name that is a SEQUENCE", Reader::Name, "300a30080603550403130141", Outcome::Unexpected),
    ("a second relative distinguished name that is a SEQUENCE", Reader::Name, "300e310a300806035504031301413000",
        Outcome::Unexpected),
    ("RSA bits without numbers", Reader::RsaBits, "3000", Outcome::Truncated),
    ("a modulus of another tag", Reader::RsaBits, "3006040103020103", Outcome::Unexpected),
    ("an empty modulus", Reader::RsaBits, "30050200020103", Outcome::Content),
    ("a negative modulus", Reader::RsaBits, "3006020180020103", Outcome::Content),
    ("a modulus with a leading zero", Reader::RsaBits, "300702020003020103", Outcome::Content),
    ("a modulus with an indefinite length", Reader::RsaBits, "300702800000020103", Outcome::BadLength),
    ("a modulus cut short", Reader::RsaBits, "300402030103", Outcome::Truncated),
    ("a modulus of a forbidden tag", Reader::RsaBits, "30050000020103", Outcome::BadTag),
    ("no exponent", Reader::RsaBits, "3003020103", Outcome::Truncated),
    ("an exponent of another tag", Reader::RsaBits, "30050201030500", Outcome::Unexpected),
    ("an empty exponent", Reader::RsaBits, "30050201030200", Outcome::Content),
    ("an empty modulus, and an exponent of another tag", Reader::RsaBits, "300402000500", Outcome::Content),
    ("three numbers", Reader::RsaBits, "3009020103020103020103", Outcome::Trailing),
    ("no curve", Reader::Key, "300f300906072a8648ce3d0201030200aa", Outcome::Truncated),
    ("another curve", Reader::Key, "3019301306072a8648ce3d020106082a8648ce3d030101030200aa", Outcome::Content),
    ("a curve of another tag", Reader::Key, "3011300b06072a8648ce3d02010500030200aa", Outcome::Unexpected),
    ("a curve with an indefinite length", Reader::Key, "3013300d06072a8648ce3d020106800000030200aa",
        Outcome::BadLength),
    ("a curve of a forbidden tag", Reader::Key, "3011300b06072a8648ce3d02010000030200aa", Outcome::BadTag),
    ("a curve and more", Reader::Key, "301b301506072a8648ce3d020106082a8648ce3d0301070500030200aa", Outcome::Trailing),
    ("a key: a NULL with contents for parameters", Reader::Key, "3014300e06092a864886f70d010101050100030200aa",
        Outcome::Content),
    ("a key: a constructed NULL for parameters", Reader::Key, "3013300d06092a864886f70d0101012500030200aa",
        Outcome::Unexpected),
    ("a key: parameters with an indefinite length", Reader::Key, "3013300d06092a864886f70d0101010580030200aa",
        Outcome::BadLength),
    ("a key: parameters cut short", Reader::Key, "3013300d06092a864886f70d0101010501030200aa", Outcome::Truncated),
    ("a key: an INTEGER for parameters", Reader::Key, "3014300e06092a864886f70d010101020101030200aa",
        Outcome::Trailing),
    ("a key: a NULL and more for parameters", Reader::Key, "3015300f06092a864886f70d01010105000500030200aa",
        Outcome::Trailing),
    ("an algorithm in CMS: a NULL with contents for parameters", Reader::Cms, "300e06092a864886f70d010101050100",
        Outcome::Content),
    ("an algorithm in CMS: a constructed NULL for parameters", Reader::Cms, "300d06092a864886f70d0101012500",
        Outcome::Unexpected),
    ("an algorithm in CMS: parameters with an indefinite length", Reader::Cms, "300d06092a864886f70d0101010580",
        Outcome::BadLength),
    ("an algorithm in CMS: parameters cut short", Reader::Cms, "300d06092a864886f70d0101010501", Outcome::Truncated),
    ("an algorithm in CMS: an INTEGER for parameters", Reader::Cms, "300e06092a864886f70d010101020101",
        Outcome::Trailing),
    ("an algorithm in CMS: a NULL and more for parameters", Reader::Cms, "300f06092a864886f70d01010105000500",
        Outcome::Trailing),
    ("an algorithm in CMS without an identifier", Reader::Cms, "3000", Outcome::Truncated),
    ("an algorithm in CMS with another tag for its identifier", Reader::Cms, "30020500", Outcome::Unexpected),
    ("a period without times", Reader::Period, "3000", Outcome::Truncated),
    ("a first time of another tag", Reader::Period, "30110500170d3230303130313030303030305a", Outcome::Content),
    ("a first time in constructed form", Reader::Period, "30113700170d3230303130313030303030305a", Outcome::Unexpected),
    ("a first time without digits", Reader::Period, "30111700170d3230303130313030303030305a", Outcome::Content),
    ("a first time with an indefinite length", Reader::Period, "301317800000170d3230303130313030303030305a",
        Outcome::BadLength),
    ("a first time cut short", Reader::Period, "3003170d32", Outcome::Truncated),
    ("a first time of a forbidden tag", Reader::Period, "30110000170d3230303130313030303030305a", Outcome::BadTag),
    ("a first time without digits, and no second", Reader::Period, "30021700", Outcome::Content),
    ("a first time without digits, and a second in constructed form", Reader::Period, "300417003700", Outcome::Content),
    ("a first time in constructed form, and a second without digits", Reader::Period, "300437001700",
        Outcome::Unexpected),
    ("no second time", Reader::Period, "300f170d3230303130313030303030305a", Outcome::Truncated),
    ("a second time of another tag", Reader::Period, "3011170d3230303130313030303030305a0500", Outcome::Content),
    ("a second time in constructed form", Reader::Period, "3011170d3230303130313030303030305a3700",
        Outcome::Unexpected),
    ("a second time without digits", Reader::Period, "3011170d3230303130313030303030305a1700", Outcome::Content),
    ("three times", Reader::Period,
        "302d170d3230303130313030303030305a170d3230303130313030303030305a170d3230303130313030303030305a",
        Outcome::Trailing),
];

#[test]
fn the_leftmost_error_is_returned(rt: HostRuntime) -> Result<(), Fail> {
    for (name, reader, digits, expected) in ROWS {
        assert_eq!(rt; read(rt.alloc(), *reader, digits)?, *expected, "{name}");
    }
    Ok(())
}
