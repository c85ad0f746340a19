//! Route origin attestations that are made and written. Octets by openssl (`asn1parse -genconf`).

use super::*;

/// Whether what these octets say is written as the others.
fn is_written(alloc: Global, octets: &[u8], expected: &[u8]) -> Result<bool, AllocError> {
    match RouteOriginAttestation::decode(alloc, octets, false) {
        Ok(found) => are_written_as(alloc, &found.encode_ref(), expected),
        Err(_) => Ok(false),
    }
}

#[test]
fn accepted_attestations_are_written(rt: HostRuntime) -> Result<(), Fail> {
    for (name, text, strict, _) in accepted::ROWS {
        let octets = octets_of(rt.alloc(), text)?;
        let same = is_written(rt.alloc(), octets.as_slice(), octets.as_slice())?;
        assert!(rt; same == *strict, "{name}");
    }
    Ok(())
}

/// The prefixes of `TURNED`, in the order of the canonical form.
const IN_ORDER: &str =
    "3026020300fbf0301f300c04020001300630040302000a300f040200023009300703050020010db8";

#[test]
fn families_are_written_in_order(rt: HostRuntime) -> Result<(), Fail> {
    let octets = octets_of(rt.alloc(), TURNED)?;
    let expected = octets_of(rt.alloc(), IN_ORDER)?;
    assert!(rt; is_written(rt.alloc(), octets.as_slice(), expected.as_slice())?);
    Ok(())
}

/// A prefix: the number that its bits make, how many they are, and its maximum length.
type Bits = (u128, u8, Option<u8>);

/// An attestation that is made of an AS number and of prefixes, and its octets, if it can be made.
type Made<'a> = (&'a str, u32, &'a [Bits], &'a [Bits], Option<&'a str>);

const MADE: &[Made<'_>] = &rows! {
    ("both families", 64496, &[(10, 8, Some(24)), (0xc000_0201, 32, None)],
     &[(0x2001_0db8, 32, Some(128)), (u128::MAX, 128, None)], Some("304b020300fbf03044301804020001301230070302000a0201\
     183007030500c00002013028040200023022300b03050020010db8020200803013031100ffffffffffffffffffffffffffffffff")),
    ("IP version 6 alone", 0, &[], &[(0x2001_0db8, 32, Some(48))],
     Some("30190201003014301204020002300c300a03050020010db8020130")),
    ("no prefix", 64496, &[], &[], None),
    ("33 bits in IP version 4", 64496, &[(0, 33, None)], &[], None),
    ("129 bits in IP version 6", 64496, &[], &[(0, 129, None)], None),
    ("more bits than 8, of the last prefix", 64496, &[(10, 8, None), (256, 8, None)], &[], None),
    ("a bit where there is none", 64496, &[], &[(1, 0, None)], None),
    ("a maximum length below the length", 64496, &[(10, 8, Some(7))], &[], None),
    ("a maximum length of 33", 64496, &[(10, 8, Some(33))], &[(10, 8, Some(33))], None),
    ("a maximum length of 129", 64496, &[(10, 8, None)], &[(10, 8, Some(129))], None),
};

/// The prefixes of these bits.
fn prefixes_of(alloc: Global, rows: &[Bits]) -> Result<Vec<RoaIpAddress>, AllocError> {
    let mut prefixes = Vec::new(alloc);
    for &(number, size, max_length) in rows {
        prefixes.push(address(number, size, max_length))?;
    }
    Ok(prefixes)
}

/// Whether the attestation of the row is made, and is written as it says.
fn is_made(alloc: Global, (_, as_id, v4, v6, octets): &Made<'_>) -> Result<bool, AllocError> {
    let v4 = prefixes_of(alloc, v4)?;
    let v6 = prefixes_of(alloc, v6)?;
    match (RouteOriginAttestation::new(*as_id, v4, v6), octets) {
        (Some(found), Some(text)) => {
            let octets = octets_of(alloc, text)?;
            are_written_as(alloc, &found.encode_ref(), octets.as_slice())
        }
        (None, None) => Ok(true),
        _ => Ok(false),
    }
}

#[test]
fn attestations_are_made(rt: HostRuntime) -> Result<(), Fail> {
    for row in MADE {
        assert!(rt; is_made(rt.alloc(), row)?, "{}", row.0);
    }
    Ok(())
}
