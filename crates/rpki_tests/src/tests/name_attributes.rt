//! The attributes of names, in order. The names are of `openssl asn1parse -genconf`, and what is expected of
//! them is what `openssl asn1parse` prints; the numbers of tags are of X.680 8.4.

use super::names::name_by;
use rpki::repository::x509::*;
use rpki_der::Class;
use rpki_der_tests::hexadecimal::octets_of;
use std::alloc::{AllocError, Global};
use std::test::Fail;

/// The identifier of an attribute, the tag of its value, whether it is constructed, the value, with a header of two
/// octets, and whether it begins a relative distinguished name.
type Expected = (&'static str, (Class, u32), bool, &'static str, bool);

/// A name, its octets, and its attributes.
#[rattlefmt::skip]
const ROWS: &[(&str, &str, &[Expected])] = &[
    ("one attribute", "300c310a30080603550403130141", &[
        ("550403", (Class::Universal, 19), false, "130141", true),
    ]),
    ("two relative distinguished names", "3019310b3009060355040613024445310a300806035504030c0141", &[
        ("550406", (Class::Universal, 19), false, "13024445", true),
        ("550403", (Class::Universal, 12), false, "0c0141", true),
    ]),
    ("a SET of two attributes, then one of one",
        "302231143008060355040313014130080603550405130131310a3008060355040a130142", &[
        ("550403", (Class::Universal, 19), false, "130141", true),
        ("550405", (Class::Universal, 19), false, "130131", false),
        ("55040a", (Class::Universal, 19), false, "130142", true),
    ]),
    ("a SET of one attribute, then one of three",
        "302c310a3008060355040a160142311e300806035504031301413008060355040b1301433008060355040b130144", &[
        ("55040a", (Class::Universal, 22), false, "160142", true),
        ("550403", (Class::Universal, 19), false, "130141", true),
        ("55040b", (Class::Universal, 19), false, "130143", false),
        ("55040b", (Class::Universal, 19), false, "130144", false),
    ]),
    ("types that no profile names", "3020310930070603883703050031133011060a0992268993f22c64011916036f7267", &[
        ("883703", (Class::Universal, 5), false, "0500", true),
        ("0992268993f22c640119", (Class::Universal, 22), false, "16036f7267", true),
    ]),
    ("a string without characters", "300b3109300706035504031300", &[
        ("550403", (Class::Universal, 19), false, "1300", true),
    ]),
    ("constructed values", "30183116300906038837033002050030090603883703a0020500", &[
        ("883703", (Class::Universal, 16), true, "30020500", true),
        ("883703", (Class::Context, 0), true, "a0020500", false),
    ]),
];

/// Whether the attribute is as expected.
fn is_expected(
    alloc: Global,
    found: AttributeView<'_>,
    (identifier, tag, constructed, value, begins): Expected,
) -> Result<bool, AllocError> {
    let (identifier, value) = (octets_of(alloc, identifier)?, octets_of(alloc, value)?);
    Ok(
        found.identifier.0 == identifier.as_slice()
            && (found.tag.class(), found.tag.number()) == tag
            && found.constructed == constructed
            && found.value == value.as_slice()
            && found.contents == &value[2..]
            && found.begins == begins,
    )
}

/// Whether these attributes remain, and no other.
fn are_left(
    alloc: Global,
    left: &mut Attributes<'_>,
    expected: &[Expected],
) -> Result<bool, AllocError> {
    for one in expected {
        match left.next_attribute() {
            Some(attribute) if is_expected(alloc, attribute, *one)? => {}
            _ => return Ok(false),
        }
    }
    // once none remains, none is given again
    Ok(left.next_attribute().is_none() && left.next_attribute().is_none())
}

#[test]
fn attributes_of_names(rt: HostRuntime) -> Result<(), Fail> {
    for (row, digits, attributes) in ROWS {
        let name = name_by(rt.alloc(), digits)?;
        let mut left = name.view().attributes();
        assert!(rt; are_left(rt.alloc(), &mut left, attributes)?, "{row}");
    }
    Ok(())
}
