//! Contents that are rejected. The errors are by the rules of RFC 3779 2.2.3 and 3.2.3 and of RFC 6487 4.8.10 and
//! 4.8.11, and name the leftmost part that breaks one.

use super::*;

/// A name, the contents of the extension in hexadecimal digits, and the error.
type Row = (&'static str, &'static str, Outcome);

/// What is around the blocks of addresses.
#[rattlefmt::skip]
const FAMILIES: &[Row] = &[
    ("appendix B, first example, with the SAFI",
        "3035302b040300010130240304040a00200304000a00400303000a01300c0304040a02300304000a02400303000a03300604\
        0200020500", Outcome::Content),
    ("appendix B, second example, with the SAFIs",
        "302c3010040300010130090302000a030304ac10300704030001020500300f040200023009030700200100000002",
        Outcome::Content),
    ("no octets", "", Outcome::Truncated),
    ("half a header", "30", Outcome::Truncated),
    ("no family", "3000", Outcome::Truncated),
    ("a SET around the families", "310c300a0402000130040302000a", Outcome::Unexpected),
    ("a NULL for the families", "0500", Outcome::Unexpected),
    ("a primitive SEQUENCE", "100c300a0402000130040302000a", Outcome::Unexpected),
    ("length in long form", "30810c300a0402000130040302000a", Outcome::BadLength),
    ("indefinite length", "3080300a0402000130040302000a0000", Outcome::BadLength),
    ("no identifier octets", "0000", Outcome::BadTag),
    ("an octet less", "300c300a040200013004030200", Outcome::Truncated),
    ("an octet more", "300c300a0402000130040302000a00", Outcome::Trailing),
    ("both, and a NULL", "301d300a0402000130040302000a300d04020002300703050020010db80500", Outcome::Trailing),
    ("a NULL for the first family", "30020500", Outcome::Unexpected),
    ("a NULL for the second family", "300e300a0402000130040302000a0500", Outcome::Unexpected),
    ("half of a second family", "300d300a0402000130040302000a30", Outcome::Truncated),
    ("a family without parts", "30023000", Outcome::Truncated),
    ("a family as a SET", "300c310a0402000130040302000a", Outcome::Unexpected),
    ("a family of the name alone", "3006300404020001", Outcome::Truncated),
    ("a NULL behind the addresses", "300e300c0402000130040302000a0500", Outcome::Trailing),
    ("a NULL behind a NULL", "300a30080402000105000500", Outcome::Trailing),
    ("the choice before the name", "30083006050004020001", Outcome::Unexpected),
    ("family 0", "30083006040200000500", Outcome::Content),
    ("family 3", "30083006040200030500", Outcome::Content),
    ("family 257", "30083006040201010500", Outcome::Content),
    ("an empty name", "3006300404000500", Outcome::Content),
    ("a name of one octet", "300730050401010500", Outcome::Content),
    ("SAFI 1", "3009300704030001010500", Outcome::Content),
    ("SAFI 2 of IP version 6", "3009300704030002020500", Outcome::Content),
    ("a name of four octets", "300a30080404000000010500", Outcome::Content),
    ("a name in constructed form", "300a30082404040200010500", Outcome::Unexpected),
    ("a name as a BIT STRING", "3009300703030000010500", Outcome::Unexpected),
    ("a name that is cut short", "300530030403ff", Outcome::Truncated),
    ("a NULL with contents", "3009300704020001050100", Outcome::Content),
    ("a constructed NULL", "30083006040200012500", Outcome::Unexpected),
    ("a SET of addresses", "300c300a0402000131040302000a", Outcome::Unexpected),
    ("an INTEGER for the choice", "3009300704020001020101", Outcome::Unexpected),
    ("a BOOLEAN for the choice", "30093007040200010101ff", Outcome::Unexpected),
    ("a prefix for the choice", "300a3008040200010302000a", Outcome::Unexpected),
    ("a choice that is cut short", "30083006040200013002", Outcome::Truncated),
    ("IP: AS identifiers", "3007a0053003020101", Outcome::Unexpected),
    ("IP version 6 before IP version 4", "301b300d04020002300703050020010db8300a0402000130040302000a",
        Outcome::Trailing),
    ("IP version 4 twice", "3018300a0402000130040302000a300a0402000130040302000a", Outcome::Content),
    ("IP version 6 twice", "301e300d04020002300703050020010db8300d04020002300703050020010db8", Outcome::Trailing),
    ("IP version 4 after both", "3027300a0402000130040302000a300d04020002300703050020010db8300a0402000130040302000a",
        Outcome::Trailing),
];

/// Blocks of IP version 4.
#[rattlefmt::skip]
const IPV4_BLOCKS: &[Row] = &[
    ("IP version 4: no blocks", "30083006040200013000", Outcome::Content),
    ("IP version 4: a bit too many", "3010300e0402000130080306070000000080", Outcome::Content),
    ("IP version 4: an octet too many", "3010300e0402000130080306000000000000", Outcome::Content),
    ("IP version 4: seventeen octets", "301c301a0402000130140312000000000000000000000000000000000000",
        Outcome::Content),
    ("IP version 4: a bit string without contents", "300a30080402000130020300", Outcome::Content),
    ("IP version 4: unused bits and no octet", "300b3009040200013003030101", Outcome::Content),
    ("IP version 4: eight unused bits", "300c300a0402000130040302080a", Outcome::Content),
    ("IP version 4: an unused bit that is 1", "300d300b0402000130050303040a1f", Outcome::Content),
    ("IP version 4: a constructed bit string", "300e300c04020001300623040302000a", Outcome::Unexpected),
    ("IP version 4: octets for a prefix", "300c300a0402000130040402000a", Outcome::Unexpected),
    ("IP version 4: a NULL for a block", "300a30080402000130020500", Outcome::Unexpected),
    ("IP version 4: a NULL behind a block", "300e300c0402000130060302000a0500", Outcome::Unexpected),
    ("IP version 4: a block that is cut short", "300c300a0402000130040304000a", Outcome::Truncated),
    ("IP version 4: a length of a block in long form", "300d300b040200013005038102000a", Outcome::BadLength),
    ("IP version 4: a block twice", "3010300e0402000130080302000a0302000a", Outcome::Content),
    ("IP version 4: a prefix in a prefix", "3011300f0402000130090302000a0303000a01", Outcome::Content),
    ("IP version 4: a prefix around a prefix", "3011300f0402000130090303000a000302000a", Outcome::Content),
    ("IP version 4: descending prefixes", "3010300e040200013008030200140302000a", Outcome::Content),
    ("IP version 4: prefixes that continue one another", "3010300e0402000130080302000a0302000b", Outcome::Content),
    ("IP version 4: halves of a prefix", "3012301004020001300a0303070a000303070a80", Outcome::Content),
    ("IP version 4: a third block that is not behind the second", "3014301204020001300c0302000a0302001403020014",
        Outcome::Content),
    ("IP version 4: an order that is wrong before a block that is cut short",
        "3014301204020001300c030200140302000a0304000a", Outcome::Content),
    ("IP version 4: an unknown block before an order that is wrong", "3012301004020001300a0302001405000302000a",
        Outcome::Unexpected),
    ("IP version 4: a range that is a prefix", "3012301004020001300a30080302010a0302000a", Outcome::Content),
    ("IP version 4: a range of all addresses", "3010300e0402000130083006030100030100", Outcome::Content),
    ("IP version 4: a range of one address", "30183016040200013010300e0305000a0000010305000a000001", Outcome::Content),
    ("IP version 4: a descending range", "3015301304020001300d300b030202140305000a000000", Outcome::Content),
    ("IP version 4: a zero at the end of the lowest address", "3015301304020001300d300b0302000a0305010b000004",
        Outcome::Content),
    ("IP version 4: a one at the end of the highest address", "30183016040200013010300e0305000a0000010305000b000005",
        Outcome::Content),
    ("IP version 4: a range of one end", "300e300c04020001300630040302000a", Outcome::Truncated),
    ("IP version 4: a range without ends", "300a30080402000130023000", Outcome::Truncated),
    ("IP version 4: a range of three ends", "301c301a04020001301430120305000a0000010305000b0000040302000a",
        Outcome::Trailing),
    ("IP version 4: a wrong range of three ends", "3016301404020001300e300c0302000a0302000a0302000a", Outcome::Content),
    ("IP version 4: a range of INTEGERs", "3010300e0402000130083006020101020102", Outcome::Unexpected),
    ("IP version 4: a lowest address of a bit too many", "3016301404020001300e300c03060700000000800302000a",
        Outcome::Content),
    ("IP version 4: a highest address of a bit too many", "3016301404020001300e300c0302000a0306070000000080",
        Outcome::Content),
    ("IP version 4: a range as a SET", "3012301004020001300a31080302000a0302000a", Outcome::Unexpected),
    ("IP version 4: a range that begins in the block before",
        "301c301a0402000130140302000a300e0305000a0000010305000c000004", Outcome::Content),
    ("IP version 4: a range that continues the block before", "301930170402000130110302000a300b0302000b0305000c000004",
        Outcome::Content),
    ("IP version 4: an empty bit string for the lowest address alone", "300d300b0402000130053003030100",
        Outcome::Truncated),
];

/// Blocks of IP version 6.
#[rattlefmt::skip]
const IPV6_BLOCKS: &[Row] = &[
    ("IP version 6: no blocks", "30083006040200023000", Outcome::Content),
    ("IP version 6: a bit too many", "301c301a0402000230140312070000000000000000000000000000000080", Outcome::Content),
    ("IP version 6: an octet too many", "301c301a0402000230140312000000000000000000000000000000000000",
        Outcome::Content),
    ("IP version 6: seventeen octets", "301c301a0402000230140312000000000000000000000000000000000000",
        Outcome::Content),
    ("IP version 6: a bit string without contents", "300a30080402000230020300", Outcome::Content),
    ("IP version 6: unused bits and no octet", "300b3009040200023003030101", Outcome::Content),
    ("IP version 6: eight unused bits", "300c300a0402000230040302080a", Outcome::Content),
    ("IP version 6: an unused bit that is 1", "300d300b0402000230050303040a1f", Outcome::Content),
    ("IP version 6: a constructed bit string", "300f300d04020002300723050303002001", Outcome::Unexpected),
    ("IP version 6: octets for a prefix", "300c300a0402000230040402000a", Outcome::Unexpected),
    ("IP version 6: a NULL for a block", "300a30080402000230020500", Outcome::Unexpected),
    ("IP version 6: a NULL behind a block", "300f300d04020002300703030020010500", Outcome::Unexpected),
    ("IP version 6: a block that is cut short", "300c300a0402000230040304000a", Outcome::Truncated),
    ("IP version 6: a length of a block in long form", "300d300b040200023005038102000a", Outcome::BadLength),
    ("IP version 6: a block twice", "3012301004020002300a03030020010303002001", Outcome::Content),
    ("IP version 6: a prefix in a prefix", "3014301204020002300c030300200103050020010001", Outcome::Content),
    ("IP version 6: a prefix around a prefix", "3014301204020002300c030500200100000303002001", Outcome::Content),
    ("IP version 6: descending prefixes", "3012301004020002300a03030030000303002001", Outcome::Content),
    ("IP version 6: prefixes that continue one another", "3012301004020002300a03030020010303002002", Outcome::Content),
    ("IP version 6: halves of a prefix", "3012301004020002300a03030020000303002001", Outcome::Content),
    ("IP version 6: a third block that is not behind the second", "3017301504020002300f030300200103030030000303003000",
        Outcome::Content),
    ("IP version 6: an order that is wrong before a block that is cut short",
        "3016301404020002300e030300300003030020010304000a", Outcome::Content),
    ("IP version 6: an unknown block before an order that is wrong", "3014301204020002300c030300300005000303002001",
        Outcome::Unexpected),
    ("IP version 6: a range that is a prefix", "3014301204020002300c300a03030020010303002001", Outcome::Content),
    ("IP version 6: a range of all addresses", "3010300e0402000230083006030100030100", Outcome::Content),
    ("IP version 6: a range of one address",
        "3030302e04020002302830260311000000000000000000000000000000000103110000000000000000000000000000000001",
        Outcome::Content),
    ("IP version 6: a descending range", "3021301f04020002301930170302043003110020010000000000000000000000000000",
        Outcome::Content),
    ("IP version 6: a zero at the end of the lowest address",
        "3023302104020002301b301903040720010003110120020000000000000000000000000004", Outcome::Content),
    ("IP version 6: a one at the end of the highest address",
        "3030302e04020002302830260311002001000000000000000000000000000103110020020000000000000000000000000005",
        Outcome::Content),
    ("IP version 6: a range of one end", "300f300d04020002300730050303002001", Outcome::Truncated),
    ("IP version 6: a range without ends", "300a30080402000230023000", Outcome::Truncated),
    ("IP version 6: a range of three ends",
        "3035303304020002302d302b0311002001000000000000000000000000000103110020020000000000000000000000000004\
        0303002001", Outcome::Trailing),
    ("IP version 6: a wrong range of three ends", "30193017040200023011300f030300200103030020010303002001",
        Outcome::Content),
    ("IP version 6: a range of INTEGERs", "3010300e0402000230083006020101020102", Outcome::Unexpected),
    ("IP version 6: a lowest address of a bit too many",
        "3023302104020002301b301903120700000000000000000000000000000000800303002001", Outcome::Content),
    ("IP version 6: a highest address of a bit too many",
        "3023302104020002301b301903030020010312070000000000000000000000000000000080", Outcome::Content),
    ("IP version 6: a range as a SET", "3014301204020002300c310a03030020010303002001", Outcome::Unexpected),
    ("IP version 6: a range that begins in the block before",
        "3035303304020002302d03030020013026031100200100000000000000000000000000010311002003000000000000000000\
        0000000004", Outcome::Content),
    ("IP version 6: a range that continues the block before",
        "3027302504020002301f03030020013018030301200203110020030000000000000000000000000004", Outcome::Content),
    ("IP version 6: an empty bit string for the lowest address alone", "300d300b0402000230053003030100",
        Outcome::Truncated),
];

/// AS identifiers.
#[rattlefmt::skip]
const IDENTIFIERS: &[Row] = &[
    ("appendix C, with routing domains", "301aa014301202020087300802020bb802020f9f02021389a1020500", Outcome::Trailing),
    ("AS: no octets", "", Outcome::Truncated),
    ("AS: no numbers at all", "3000", Outcome::Truncated),
    ("AS: routing domains alone", "3004a1020500", Outcome::Unexpected),
    ("AS: numbers and routing domains", "3008a0020500a1020500", Outcome::Trailing),
    ("AS: numbers twice", "3008a0020500a0020500", Outcome::Trailing),
    ("AS: numbers without the tag", "30053003020101", Outcome::Unexpected),
    ("AS: an inherit without the tag", "30020500", Outcome::Unexpected),
    ("AS: a primitive tag", "300480020500", Outcome::Unexpected),
    ("AS: an application tag", "300460020500", Outcome::Unexpected),
    ("AS: a tag with nothing in it", "3002a000", Outcome::Truncated),
    ("AS: a tag with two choices", "3006a00405000500", Outcome::Trailing),
    ("AS: a SET around it", "3104a0020500", Outcome::Unexpected),
    ("AS: an octet more", "3004a002050000", Outcome::Trailing),
    ("AS: an octet less", "3007a00530030201", Outcome::Truncated),
    ("AS: an empty list", "3004a0023000", Outcome::Content),
    ("AS: a NULL with contents", "3005a003050100", Outcome::Content),
    ("AS: a constructed NULL", "3004a0022500", Outcome::Unexpected),
    ("AS: a number for the list", "3005a003020101", Outcome::Unexpected),
    ("AS: a SET of numbers", "3007a0053103020101", Outcome::Unexpected),
    ("AS: number 4294967296", "300ba009300702050100000000", Outcome::Content),
    ("AS: number 2^64 - 1", "300fa00d300b020900ffffffffffffffff", Outcome::Content),
    ("AS: number 2^64", "300fa00d300b0209010000000000000000", Outcome::Content),
    ("AS: number 2^128", "3017a015301302110100000000000000000000000000000000", Outcome::Content),
    ("AS: a negative number", "3007a00530030201ff", Outcome::Content),
    ("AS: a number below -1", "3008a006300402028000", Outcome::Content),
    ("AS: a zero in front", "3008a006300402020001", Outcome::Content),
    ("AS: two zeros", "3008a006300402020000", Outcome::Content),
    ("AS: a number without contents", "3006a00430020200", Outcome::Content),
    ("AS: a constructed number", "3009a00730052203020101", Outcome::Unexpected),
    ("AS: an ENUMERATED", "3007a00530030a0101", Outcome::Unexpected),
    ("AS: a NULL for a number", "3006a00430020500", Outcome::Unexpected),
    ("AS: a number that is cut short", "3007a0053003020401", Outcome::Truncated),
    ("AS: a number twice", "300aa0083006020107020107", Outcome::Content),
    ("AS: descending numbers", "300aa0083006020109020107", Outcome::Content),
    ("AS: numbers that continue one another", "300aa0083006020107020108", Outcome::Content),
    ("AS: a number in the range before", "300fa00d300b3006020107020109020108", Outcome::Content),
    ("AS: a number that continues the range before", "300fa00d300b300602010702010902010a", Outcome::Content),
    ("AS: a range that continues the number before", "300fa00d300b0201063006020107020109", Outcome::Content),
    ("AS: ranges that overlap", "3014a012301030060201010201053006020105020109", Outcome::Content),
    ("AS: a range of one number", "300ca00a30083006020107020107", Outcome::Content),
    ("AS: a descending range", "300ca00a30083006020109020107", Outcome::Content),
    ("AS: a range to 4294967296", "3010a00e300c300a02010102050100000000", Outcome::Content),
    ("AS: a range of one end", "3009a00730053003020101", Outcome::Truncated),
    ("AS: a range without ends", "3006a00430023000", Outcome::Truncated),
    ("AS: a range of three ends", "300fa00d300b3009020101020102020103", Outcome::Trailing),
    ("AS: a wrong range of three ends", "300fa00d300b3009020103020102020101", Outcome::Content),
    ("AS: a range of bit strings", "300ca00a30083006030100030100", Outcome::Unexpected),
    ("AS: a range in a range", "3011a00f300d300b3006020101020102020109", Outcome::Unexpected),
    ("AS: an order that is wrong before a number that is cut short", "300da00b3009020109020107020401",
        Outcome::Content),
    ("AS: a NULL before an order that is wrong", "300ca00a30080201090500020107", Outcome::Unexpected),
    ("AS: a bit string for a number", "3008a006300403020001", Outcome::Unexpected),
    ("AS: IP address blocks", "300c300a0402000130040302000a", Outcome::Unexpected),
];

/// Whether each of the rows is rejected as it says, kept and in place; else the name of the first that isn't.
fn unlike(alloc: Global, kind: Kind, rows: &[Row]) -> Result<Option<&'static str>, AllocError> {
    for (name, text, outcome) in rows {
        let octets = octets_of(alloc, text)?;
        let expected = Err(*outcome);
        if !is_kept(alloc, kind, &octets, expected) || !is_in_place(kind, &octets, expected) {
            return Ok(Some(*name));
        }
    }
    Ok(None)
}

#[test]
fn hostile_families(rt: HostRuntime) -> Result<(), Fail> {
    let found = unlike(rt.alloc(), Kind::Ip, FAMILIES)?;
    assert!(rt; found.is_none(), "{found:?}");
    Ok(())
}

#[test]
fn hostile_blocks(rt: HostRuntime) -> Result<(), Fail> {
    let found = unlike(rt.alloc(), Kind::Ip, IPV4_BLOCKS)?;
    assert!(rt; found.is_none(), "{found:?}");
    Ok(())
}

#[test]
fn hostile_blocks_of_version_6(rt: HostRuntime) -> Result<(), Fail> {
    let found = unlike(rt.alloc(), Kind::Ip, IPV6_BLOCKS)?;
    assert!(rt; found.is_none(), "{found:?}");
    Ok(())
}

#[test]
fn hostile_as_identifiers(rt: HostRuntime) -> Result<(), Fail> {
    let found = unlike(rt.alloc(), Kind::As, IDENTIFIERS)?;
    assert!(rt; found.is_none(), "{found:?}");
    Ok(())
}
