//! Hexadecimal digits.

use rpki_text::util::hex;

const DIGITS: [(&[u8], &str); 4] = [
    (&[0xAB, 0x01], "AB01"),
    (&[], ""),
    (&[0x00], "00"),
    (&[0xFF, 0x9A], "FF9A"),
];

/// What follows the digits in a buffer stays.
#[test]
fn digits(rt: HostRuntime) {
    for (octets, want) in DIGITS {
        let mut buffer = [b'.'; 5];
        assert!(rt; hex::encode(octets, &mut buffer) == want, "{want}");
        let mut following = buffer[2 * octets.len()..].iter();
        assert!(rt; following.all(|octet| *octet == b'.'), "following {want}");
    }
    assert!(rt; hex::encode_u8(0x4F) == *b"4F");
}
