//! The header of a value that is written.

ghost use Rattle.std.specs.Prelude.{◌≡◌, ◌<◌, ◌≤◌, ◌+◌, ◌^◌, ◌++◌, ◌∷◌, [], length};
ghost use Rattle.rpki_der.specs.Header.{lead, digits, identifier_octets, length_octets};
ghost use Rattle.rpki_der.specs.Written.{Writes};

use super::whole::write_whole;
use crate::tag::{Class, Tag};
use std::io;
use std::io::Write;
use std::marker::Model;

/// At most ten octets: five of a tag and five of a length.
#[derive(Drop)]
struct HeaderOctets {
    array: [u8; 10],
    len: usize,
}

impl Model for HeaderOctets {
    ghost use Rattle.std.specs.Prelude.{ℕ, List, take, length, ◌≤◌, ◌≡◌};

    ghost Value = { List ℕ };

    ghost view = { λ h. take h.len h.array };

    ghost invariant = { λ h. h.len ≤ 10 };
}

impl HeaderOctets {
    fn new() -> HeaderOctets
        ensures { result ≡ [] }
    {
        HeaderOctets {
            array: [0; 10],
            len: 0,
        }
    }

    /// The header of a value of this tag and form, with contents of this length.
    fn of_header(tag: Tag, constructed: bool, contents_len: u32) -> HeaderOctets
        ensures { result ≡ identifier_octets tag constructed ++ length_octets contents_len }
    {
        let mut octets = HeaderOctets::new();
        octets.push_identifier(tag, constructed);
        octets.push_length(contents_len);
        octets
    }

    fn as_slice(&self) -> &[u8]
        ensures { result.now ≡ self.now }
    {
        &self.array[..self.len]
    }

    fn push(&mut self, octet: u8)
        requires { length self.old < 10 }
        ensures { self.new ≡ self.old ++ octet ∷ [] }
    {
        self.array[self.len] = octet;
        self.len += 1;
    }

    /// The digits of a number in this base, most significant first, each with the mark added: none for 0, and no
    /// more than there is room for.
    fn push_digits(&mut self, base: u32, mark: u32, room: usize, number: u32)
        requires base { 0 < base }
        requires octet { mark + base ≤ 256 }
        requires room { length self.old + room ≤ 10 }
        ensures { self.new ≡ self.old ++ digits base mark room number }
    {
        if room == 0 || number == 0 {
            return;
        }
        self.push_digits(base, mark, room - 1, number / base);
        self.push((mark + number % base) as u8);
    }

    /// Identifier octets (X.690 8.1.2).
    fn push_identifier(&mut self, tag: Tag, constructed: bool)
        requires { length self.old ≤ 5 }
        ensures { self.new ≡ self.old ++ identifier_octets tag constructed }
    {
        let number = tag.number();
        if number < 31 {
            self.push(lead_octet(tag, constructed, number as u8));
            return;
        }
        self.push(lead_octet(tag, constructed, 31));
        self.push_digits(128, 128, 3, number / 128);
        self.push((number % 128) as u8);
    }

    /// Length octets, in the shortest form (X.690 8.1.3, 10.1).
    fn push_length(&mut self, contents_len: u32)
        requires { length self.old ≤ 5 }
        ensures { self.new ≡ self.old ++ length_octets contents_len }
    {
        if contents_len < 128 {
            self.push(contents_len as u8);
            return;
        }
        self.push(128 + digit_count(4, contents_len));
        self.push_digits(256, 0, 4, contents_len);
    }
}

/// The first identifier octet: the class, the form and these five low bits (X.690 8.1.2.2, 8.1.2.3, 8.1.2.5).
fn lead_octet(tag: Tag, constructed: bool, low: u8) -> u8
    requires { low < 32 }
    ensures { result ≡ lead tag constructed low }
{
    let form = if constructed { 32 } else { 0 };
    match tag.class() {
        Class::Universal => form + low,
        Class::Application => 64 + form + low,
        Class::Context => 128 + form + low,
        Class::Private => 192 + form + low,
    }
}

/// How many digits in base 256 a number has: none for 0, and no more than there is room for.
fn digit_count(room: u8, number: u32) -> u8
    requires { room ≤ 4 }
    ensures { result ≡ length (digits 256 0 room number) }
{
    if room == 0 || number == 0 {
        return 0;
    }
    digit_count(room - 1, number / 256) + 1
}

/// How many octets the header of a value has, of this tag and form, with contents of this length.
pub(super) fn header_len(tag: Tag, constructed: bool, contents_len: u64) -> u64
    requires { contents_len < 2 ^ 32 }
    ensures { result ≡ length (identifier_octets tag constructed ++ length_octets contents_len) }
{
    HeaderOctets::of_header(tag, constructed, contents_len as u32)
        .as_slice()
        .len() as u64
}

/// Writes the header of a value of this tag and form, with contents of this length.
pub(super) fn write_header<W: Write>(
    out: &mut W,
    tag: Tag,
    constructed: bool,
    contents_len: u64,
) -> io::Result<()>
    requires { contents_len < 2 ^ 32 }
    ensures { Writes (W.contents out.old) (W.contents out.new) result
        (identifier_octets tag constructed ++ length_octets contents_len) }
{
    write_whole(
        out,
        HeaderOctets::of_header(tag, constructed, contents_len as u32).as_slice(),
    )
}
