//! Texts of addresses, as RFC 5952 says of IP version 6, which take no memory.

ghost use Rattle.std.specs.Prelude.{◌≡◌, ◌≤◌, ◌<◌, ◌+◌, ◌*◌, ◌++◌, length, decimal};
ghost use Rattle.std.specs.Char.{digit_char};
ghost use Rattle.std.specs.Net.Text as Text;

use crate::short_text::Line;
use itoa::Buffer;
use std::net::{IpAddr, Ipv6Addr};

/// Appends a number of one octet, in decimal digits.
fn push_octet(text: &mut Line, number: u8)
    requires { length text.old + 3 ≤ 128 }
    ensures text { text.new ≡ text.old ++ decimal number }
    ensures short { length text.new ≤ length text.old + 3 }
{
    let mut digits = Buffer::new();
    text.push(digits.format(number).as_bytes());
}

/// Appends a number, in decimal digits.
pub(crate) fn push_number(text: &mut Line, number: u32)
    requires { length text.old + 10 ≤ 128 }
    ensures text { text.new ≡ text.old ++ decimal number }
    ensures short { length text.new ≤ length text.old + 10 }
{
    let mut digits = Buffer::new();
    text.push(digits.format(number).as_bytes());
}

/// Appends four octets in decimal digits, with dots between them.
fn push_dotted(text: &mut Line, octets: [u8; 4])
    requires { length text.old + 15 ≤ 128 }
    ensures text { text.new ≡ text.old ++ Text.ipv4_text octets }
    ensures short { length text.new ≤ length text.old + 15 }
{
    let [a, b, c, d] = octets;
    push_octet(text, a);
    text.push(b".");
    push_octet(text, b);
    text.push(b".");
    push_octet(text, c);
    text.push(b".");
    push_octet(text, d);
}

/// A hexadecimal digit, in lower case.
fn digit_of(number: u16) -> u8
    requires { number < 16 }
    ensures { result ≡ digit_char number }
{
    if number < 10 {
        b'0' + number as u8
    } else {
        b'a' + (number - 10) as u8
    }
}

/// How many of the four digits of a segment are zeros in front, the last digit apart.
fn leading_zeros(segment: u16) -> usize
    ensures value { result ≡ Text.leading_zero_digits segment }
    ensures few { result < 4 }
{
    match segment {
        0x1000.. => 0,
        0x100.. => 1,
        0x10.. => 2,
        _ => 3,
    }
}

/// Appends a segment in hexadecimal digits, without zeros in front.
#[tactic(auto, unfolding(std::specs::Net::Text::hex))]
fn push_segment(text: &mut Line, segment: u16)
    requires { length text.old + 4 ≤ 128 }
    ensures text { text.new ≡ text.old ++ Text.hex segment }
    ensures short { length text.new ≤ length text.old + 4 }
{
    let digits = [
        digit_of(segment / 0x1000),
        digit_of(segment / 0x100 % 16),
        digit_of(segment / 0x10 % 16),
        digit_of(segment % 16),
    ];
    text.push(&digits[leading_zeros(segment)..]);
}

/// Appends segments, with colons between them.
fn push_groups(text: &mut Line, segments: &[u16])
    requires { length text.old + 5 * length segments.now ≤ 128 }
    ensures text { text.new ≡ text.old ++ Text.groups_text segments.now }
    ensures short { length text.new ≤ length text.old + 5 * length segments.now }
{
    let mut rest = segments;
    'groups: while let Some((segment, following)) = rest.split_first() {
        push_segment(text, *segment);
        if !following.is_empty() {
            text.push(b":");
        }
        rest = following;
    }
}

/// Where the longest run of zeros starts, the first one of that length, and how many segments it has.
fn longest_zero_run(segments: &[u16]) -> (usize, usize)
    ensures value { result ≡ Text.longest_zero_run segments.now }
    ensures within { result.0 + result.1 ≤ length segments.now }
{
    let mut start = segments.len();
    let mut len = 0;
    let mut run = 0;
    for i in (0..segments.len()).rev() {
        run = if segments[i] == 0 { run + 1 } else { 0 };
        if run >= len {
            start = i;
            len = run;
        }
    }
    (start, len)
}

/// Appends the segments of an address of IP version 6: two colons stand for the longest run of zeros, the first one of
/// that length, if it has two segments at least (RFC 5952 4.2).
#[tactic(auto, unfolding(std::specs::Net::Text::hex_groups_text))]
fn push_segments(text: &mut Line, segments: &[u16])
    requires few { length segments.now ≤ 8 }
    requires room { length text.old + 48 ≤ 128 }
    ensures text { text.new ≡ text.old ++ Text.hex_groups_text segments.now }
    ensures short { length text.new ≤ length text.old + 48 }
{
    let (start, len) = longest_zero_run(segments);
    if len > 1 {
        push_groups(text, &segments[..start]);
        text.push(b"::");
        push_groups(text, &segments[start + len..]);
    } else {
        push_groups(text, segments);
    }
}

/// Appends an address of IP version 6: one that is made of an address of IP version 4 ends with that (RFC 5952 5).
fn push_ipv6(text: &mut Line, address: Ipv6Addr)
    requires { length text.old + 48 ≤ 128 }
    ensures text { text.new ≡ text.old ++ Text.ipv6_text address.segments }
    ensures short { length text.new ≤ length text.old + 48 }
{
    match address.to_ipv4_mapped() {
        Some(inner) => {
            text.push(b"::ffff:");
            push_dotted(text, inner.octets());
        }
        None => push_segments(text, &address.segments()),
    }
}

/// Appends an address.
pub(crate) fn push_address(text: &mut Line, address: IpAddr)
    requires { length text.old + 48 ≤ 128 }
    ensures text { text.new ≡ text.old ++ Text.ip_text address }
    ensures short { length text.new ≤ length text.old + 48 }
{
    match address {
        IpAddr::V4(address) => push_dotted(text, address.octets()),
        IpAddr::V6(address) => push_ipv6(text, address),
    }
}
