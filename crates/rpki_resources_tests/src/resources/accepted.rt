//! Contents that are accepted: the examples of RFC 3779, and limits. Expected values are by Python's `ipaddress`.

use super::Choice::{Inherit, Listed, Missing};
use super::Found::{As, Ip};
use super::*;

/// A name, the contents of an extension in hexadecimal digits, and what they are.
#[rattlefmt::skip]
pub const ROWS: &[(&str, &str, Found)] = &[
    ("appendix B, first example, without the SAFI",
        "3034302a0402000130240304040a00200304000a00400303000a01300c0304040a02300304000a02400303000a033006040200020500",
        Ip(Listed(&[(167780352, 167784447), (167788544, 167788799), (167837696, 167903231), (167915520, 167919871),
        (167968768, 168034303)]), Inherit)),
    ("appendix B, second example, without the SAFIs and IP version 4 multicast",
        "3022300f0402000130090302000a030304ac10300f040200023009030700200100000002",
        Ip(Listed(&[(167772160, 184549375), (2886729728, 2887778303)]),
        Listed(&[(42540488161978260612189585683649658880, 42540488161979469538009200312824365055)]))),
    ("appendix C, without routing domains", "3016a014301202020087300802020bb802020f9f02021389",
        As(Listed(&[(135, 135), (3000, 3999), (5001, 5001)]))),
    ("2.1.1, 10.5.0.4/32", "300f300d0402000130070305000a050004", Ip(Listed(&[(168099844, 168099844)]), Missing)),
    ("2.1.1, 10.5.0/23", "300e300c0402000130060304010a0500", Ip(Listed(&[(168099840, 168100351)]), Missing)),
    ("2.1.1, 2001:0:200:3::1/128", "301b301904020002301303110020010000020000030000000000000001",
        Ip(Missing, Listed(&[(42540488162594812835533278783878463489, 42540488162594812835533278783878463489)]))),
    ("2.1.1, 2001:0:200/39", "3010300e0402000230080306012001000002",
        Ip(Missing, Listed(&[(42540488162594812780193046562749808640, 42540488163213782799835736700199370751)]))),
    ("2.1.1, 0/0", "300b3009040200013003030100", Ip(Listed(&[(0, 4294967295)]), Missing)),
    ("2.2.3.9, 129.64.0.0 to 143.255.255.255", "3013301104020001300b3009030306814003020480",
        Ip(Listed(&[(2168455168, 2415919103)]), Missing)),
    ("both families inherited", "301030060402000105003006040200020500", Ip(Inherit, Inherit)),
    ("IP version 4 inherited alone", "30083006040200010500", Ip(Inherit, Missing)),
    ("IP version 6 inherited alone", "30083006040200020500", Ip(Missing, Inherit)),
    ("all of IP version 6", "300b3009040200023003030100",
        Ip(Missing, Listed(&[(0, 340282366920938463463374607431768211455)]))),
    ("last address of IP version 4", "300f300d040200013007030500ffffffff",
        Ip(Listed(&[(4294967295, 4294967295)]), Missing)),
    ("first address of IP version 6", "301b301904020002301303110000000000000000000000000000000000",
        Ip(Missing, Listed(&[(0, 0)]))),
    ("last address of IP version 6", "301b3019040200023013031100ffffffffffffffffffffffffffffffff",
        Ip(Missing, Listed(&[(340282366920938463463374607431768211455, 340282366920938463463374607431768211455)]))),
    ("all but the first address", "3014301204020001300c300a03050000000001030100",
        Ip(Listed(&[(1, 4294967295)]), Missing)),
    ("all but the last address", "3014301204020001300c300a030100030500fffffffe",
        Ip(Listed(&[(0, 4294967294)]), Missing)),
    ("all but both", "30183016040200013010300e03050000000001030500fffffffe", Ip(Listed(&[(1, 4294967294)]), Missing)),
    ("two addresses with one between", "3016301404020001300e0305000a0000000305000a000002",
        Ip(Listed(&[(167772160, 167772160), (167772162, 167772162)]), Missing)),
    ("a range and a prefix behind it", "301f301d040200013017300e0305000a0000010305000a0000020305020a000004",
        Ip(Listed(&[(167772161, 167772162), (167772164, 167772167)]), Missing)),
    ("range from a number to its double",
        "3024302204020002301c301a03050320010db803110120010db8000000000000000000000004",
        Ip(Missing, Listed(&[(42540766411282592856903984951653826560, 42540766411282592856903984951653826565)]))),
    ("all but the last address of IP version 6", "3020301e0402000230183016030100031100fffffffffffffffffffffffffffffffe",
        Ip(Missing, Listed(&[(0, 340282366920938463463374607431768211454)]))),
    ("inherited numbers", "3004a0020500", As(Inherit)),
    ("number 0", "3007a0053003020100", As(Listed(&[(0, 0)]))),
    ("number 4294967295", "300ba0093007020500ffffffff", As(Listed(&[(4294967295, 4294967295)]))),
    ("all numbers", "3010a00e300c300a020100020500ffffffff", As(Listed(&[(0, 4294967295)]))),
    ("numbers 64496 and 64498", "300ea00c300a020300fbf0020300fbf2", As(Listed(&[(64496, 64496), (64498, 64498)]))),
    ("two numbers as a range", "300ca00a30083006020101020102", As(Listed(&[(1, 2)]))),
    ("a range and a number", "3012a010300e300802020080020200ff02020101", As(Listed(&[(128, 255), (257, 257)]))),
];

#[test]
fn accepted_contents(rt: HostRuntime) -> Result<(), Fail> {
    for (name, text, found) in ROWS {
        let (octets, kind) = (octets_of(rt.alloc(), text)?, kind_of(*found));
        assert!(rt; is_kept(rt.alloc(), kind, &octets, Ok(*found)), "{name}");
        assert!(rt; is_in_place(kind, &octets, Ok(*found)), "{name}, in place");
    }
    Ok(())
}
