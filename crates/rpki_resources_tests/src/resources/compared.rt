//! Contents of two extensions, and whether the first encompass the second, in one pass over both. Answers are by
//! RFC 6487 7.2, of the addresses and numbers that the names of the rows say.

use super::*;

/// A name, the extension, the issuer's contents and the subject's, and the answer.
type Row = (&'static str, Kind, &'static str, &'static str, Option<bool>);

/// The first example of RFC 3779, appendix B, without the SAFI.
const EXAMPLE: &str =
    "3034302a0402000130240304040a00200304000a00400303000a01300c0304040a02300304000a02400303000a033006040200020500";

/// 10.0.0.0/24, and the addresses from 10.0.3.0 to 10.0.3.4.
const BLOCKS: &str = "301d301b0402000130150304000a0000300d0304000a00030305000a000304";

/// 10.0.0.0/24.
const BLOCK: &str = "300e300c0402000130060304000a0000";

/// 10.0.0.0/24 and a prefix of IP version 6.
const FAMILIES: &str = "3021300c0402000130060304000a0000301104020002300b03090020010db800000000";

/// The numbers of RFC 3779, appendix C, without routing domains.
const NUMBERS: &str = "3016a014301202020087300802020bb802020f9f02021389";

#[rattlefmt::skip]
const ROWS: &[Row] = &[
    ("appendix B, first example, of itself", Kind::Ip, EXAMPLE, EXAMPLE, Some(true)),
    ("the second of two blocks", Kind::Ip, BLOCKS, "3017301504020001300f300d0304000a00030305000a000304", Some(true)),
    ("part of each of two blocks", Kind::Ip, BLOCKS,
        "301f301d0402000130170305000a000007300e0305000a0003010305000a000304", Some(true)),
    ("more than the first block", Kind::Ip, BLOCKS, "3015301304020001300d300b0302010a0305000a000100", Some(false)),
    ("from before the first block on", Kind::Ip, BLOCKS, "3017301504020001300f300d03050009ffffff0304000a0000",
        Some(false)),
    ("between the blocks", Kind::Ip, BLOCKS, "300e300c0402000130060304000a0002", Some(false)),
    ("after the last block", Kind::Ip, BLOCKS, "3014301204020001300c0304000a00000304000a0005", Some(false)),
    ("an address after the last block", Kind::Ip, BLOCKS, "3017301504020001300f300d0304000a00030305010a000304",
        Some(false)),
    ("not within, before a block that is malformed", Kind::Ip, BLOCKS, "3012301004020001300a0304000a00020302010b",
        None),
    ("not within, before blocks that aren't in order", Kind::Ip, BLOCKS, "3014301204020001300c0304000a00020304000a0000",
        None),
    ("not within, and the rest of the issuer's is malformed", Kind::Ip,
        "3021301f0402000130190304000a0000300d0304000a00030305000a0003040302010b", "300e300c040200013006030400090000",
        None),
    ("within, and the rest of the issuer's is malformed", Kind::Ip,
        "3021301f0402000130190304000a0000300d0304000a00030305000a0003040302010b", BLOCK, None),
    ("after the last block, which octets follow", Kind::Ip, "3012301004020001300a0304000a00000302010b",
        "3017301504020001300f300d0304000a00030305000a000304", None),
    ("a block that continues the one before", Kind::Ip, BLOCKS, "3014301204020001300c0304000a00000304000a0001", None),
    ("no blocks", Kind::Ip, BLOCKS, "30083006040200013000", None),
    ("no blocks of the issuer's", Kind::Ip, "30083006040200013000", BLOCK, None),
    ("the issuer's", Kind::Ip, BLOCKS, "30083006040200010500", Some(true)),
    ("the issuer's, whose blocks are malformed", Kind::Ip, "300c300a0402000130040302010b", "30083006040200010500",
        None),
    ("the issuer's, of a family that it doesn't name", Kind::Ip, BLOCKS, "30083006040200020500", Some(true)),
    ("blocks where the issuer has its issuer's", Kind::Ip, "30083006040200010500", BLOCKS, None),
    ("blocks of a family that the issuer doesn't name", Kind::Ip, BLOCKS, "3013301104020002300b03090020010db800000000",
        Some(false)),
    ("malformed blocks of a family that the issuer doesn't name", Kind::Ip, BLOCKS, "300c300a0402000230040302010b",
        None),
    ("a family that only the issuer names", Kind::Ip, FAMILIES, BLOCK, Some(true)),
    ("such a family, with malformed blocks", Kind::Ip, "301a300c0402000130060304000a0000300a0402000230040302010b",
        BLOCK, None),
    ("both families", Kind::Ip, FAMILIES, FAMILIES, Some(true)),
    ("both families, the second not within", Kind::Ip, FAMILIES,
        "3021300c0402000130060304000a0000301104020002300b03090120010db800000000", Some(false)),
    ("both families, the first not within", Kind::Ip, FAMILIES,
        "302a301504020001300f300d0304000a00030305000a000304301104020002300b03090020010db800000000", Some(false)),
    ("both families, the second malformed after the first wasn't within", Kind::Ip, FAMILIES,
        "3023301504020001300f300d0304000a00030305000a000304300a0402000230040302010b", None),
    ("families out of order", Kind::Ip, BLOCKS,
        "3021301104020002300b03090020010db800000000300c0402000130060304000a0000", None),
    ("a family twice", Kind::Ip, BLOCKS, "301c300c0402000130060304000a0000300c0402000130060304000a0000", None),
    ("an octet after the issuer's", Kind::Ip, "301d301b0402000130150304000a0000300d0304000a00030305000a00030400",
        BLOCKS, None),
    ("an octet after the subject's", Kind::Ip, BLOCKS,
        "301d301b0402000130150304000a0000300d0304000a00030305000a00030400", None),
    ("an octet after a NULL", Kind::Ip, BLOCKS, "300a30080402000105000500", None),
    ("whole families", Kind::Ip, "301630090402000130030301003009040200023003030100",
        "301630090402000130030301003009040200023003030100", Some(true)),
    ("more than a whole half", Kind::Ip, "300c300a04020002300403020700", "300b3009040200023003030100", Some(false)),
    ("appendix C, of itself", Kind::As, NUMBERS, NUMBERS, Some(true)),
    ("a number of a range", Kind::As, NUMBERS, "3008a006300402020dac", Some(true)),
    ("a number beside a range", Kind::As, NUMBERS, "3008a006300402020fa0", Some(false)),
    ("not within, before a number of 2^32", Kind::As, NUMBERS, "300ea00c300a02010102050100000000", None),
    ("the issuer's", Kind::As, NUMBERS, "3004a0020500", Some(true)),
    ("numbers where the issuer has its issuer's", Kind::As, "3004a0020500", NUMBERS, None),
    ("the issuer's on both sides", Kind::As, "3004a0020500", "3004a0020500", Some(true)),
    ("no numbers", Kind::As, NUMBERS, "3004a0023000", None),
    ("routing domains", Kind::As, NUMBERS, "301aa014301202020087300802020bb802020f9f02021389a1020500", None),
];

/// The answer of the two calls.
fn compared(kind: Kind, outer: &[u8], inner: &[u8]) -> Option<bool> {
    match kind {
        Kind::Ip => ip_resources_encompass(outer, inner),
        Kind::As => as_resources_encompass(outer, inner),
    }
}

#[test]
fn contents_that_encompass_others(rt: HostRuntime) -> Result<(), Fail> {
    for (name, kind, outer, inner, expected) in ROWS {
        let outer = octets_of(rt.alloc(), outer)?;
        let inner = octets_of(rt.alloc(), inner)?;
        let found = compared(*kind, outer.as_slice(), inner.as_slice());
        assert!(rt; found == *expected, "{name}");
    }
    Ok(())
}
