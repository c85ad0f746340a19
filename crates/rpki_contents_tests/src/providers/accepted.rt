//! Attestations of providers that are accepted: by openssl, and by the rules of the profile.

use super::*;

/// A name, the octets, the customer and its providers.
pub const ROWS: &[(&str, &str, u32, &[u32])] = &rows! {
    ("of openssl", "3016a003020101020300fbf0300a020300fbf3020300fbf5", 64496, &[64499, 64501]),
    ("one provider", "3011a003020101020300fbf03005020300fbf1", 64496, &[64497]),
    ("AS 0 for no provider", "300fa003020101020300fbf03003020100", 64496, &[0]),
    ("the customer AS 0", "300da0030201010201003003020101", 0, &[1]),
    ("the highest numbers", "301ba003020101020500fffffffe300d020100020101020500ffffffff", 4294967294,
     &[0, 1, 4294967295]),
    ("the customer between its providers", "3010a0030201010201053006020104020106", 5, &[4, 6]),
    ("numbers of up to 16 bits", "3020a003020101020101301602010002017f02020080020200ff0202010002027fff", 1,
     &[0, 127, 128, 255, 256, 32767]),
    ("numbers of up to 32 bits",
     "3031a00302010102010130270203008000020300ffff020301000002037fffff02040080000002047fffffff02050080000000", 1,
     &[32768, 65535, 65536, 8388607, 8388608, 2147483647, 2147483648]),
};
