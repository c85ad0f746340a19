//! On which line an element of a file of local exceptions is: the reader of JSON tells no places.

use rpki_payloads::ExceptionsError;

/// How far a text of JSON was read.
#[derive(Drop)]
struct Place {
    /// The line, from 1 on.
    line: usize,
    /// How many objects and arrays are open.
    depth: usize,
    /// Whether the name in front is that of the member.
    is_named: bool,
    /// The number of the element of the member's array that is next, or open; None outside of it.
    element: Option<usize>,
    /// Whether it is next.
    is_next: bool,
}

impl Place {
    /// Goes past an octet that is in no string, and no white space, where the last string may be the member's name.
    fn pass(&mut self, octet: u8, is_name: bool) {
        self.is_next = false;
        match octet {
            b':' => self.is_named = is_name && self.depth == 2,
            b'[' | b'{' => {
                if self.is_named && self.depth == 2 {
                    self.element = Some(0);
                    self.is_next = true;
                }
                self.depth = self.depth.wrapping_add(1);
            }
            b']' | b'}' => {
                self.depth = self.depth.wrapping_sub(1);
                if self.depth == 2 {
                    self.element = None;
                    self.is_named = false;
                }
            }
            b',' => {
                if let (3, Some(number)) = (self.depth, self.element) {
                    self.element = Some(number.wrapping_add(1));
                    self.is_next = true;
                }
            }
            _ => {}
        }
    }
}

/// The octets of a string up to the quotation mark that ends it, and those after that.
fn string_in(octets: &[u8]) -> (&[u8], &[u8]) {
    let mut is_escaped = false;
    for at in 0..octets.len() {
        if is_escaped {
            is_escaped = false;
        } else if octets[at] == b'\\' {
            is_escaped = true;
        } else if octets[at] == b'"' {
            let (string, _) = octets.split_at(at);
            let (_, following) = octets.split_at(at + 1);
            return (string, following);
        }
    }
    (octets, &[])
}

/// The number of a hexadecimal digit.
fn digit_of(octet: u8) -> u8 {
    match octet {
        b'0'..=b'9' => octet.wrapping_sub(b'0'),
        _ => octet
            .to_ascii_lowercase()
            .wrapping_sub(b'a')
            .wrapping_add(10),
    }
}

/// The first character of a string, if it is of ASCII, and those after it. Of characters that are escaped those by
/// their numbers are read.
fn character_in(string: &[u8]) -> Option<(u8, &[u8])> {
    match string {
        [b'\\', b'u', b'0', b'0', high, low, following @ ..] => {
            let character = digit_of(*high)
                .wrapping_mul(16)
                .wrapping_add(digit_of(*low));
            Some((character, following))
        }
        [first, following @ ..] => Some((*first, following)),
        [] => None,
    }
}

/// Whether the string is the name.
fn is_name(string: &[u8], name: &[u8]) -> bool {
    let mut rest = string;
    for octet in name {
        match character_in(rest) {
            Some((first, following)) if first == *octet => rest = following,
            _ => return false,
        }
    }
    rest.is_empty()
}

/// On which line of the text, which is JSON, the element of the array of this name begins; the last where there is
/// none.
fn line_of(text: &[u8], name: &[u8], element: usize) -> usize {
    let mut place = Place {
        line: 1,
        depth: 0,
        is_named: false,
        element: None,
        is_next: false,
    };
    let mut is_member = false;
    let mut rest = text;
    for _ in 0..text.len() {
        let Some((first, following)) = rest.split_first() else {
            return place.line;
        };
        rest = following;
        if *first == b'\n' {
            place.line = place.line.wrapping_add(1);
        }
        if first.is_ascii_whitespace() {
            continue;
        }
        if place.is_next && place.element == Some(element) {
            return place.line;
        }
        place.pass(*first, is_member);
        if *first == b'"' {
            let (string, behind) = string_in(following);
            is_member = is_name(string, name);
            rest = behind;
        }
    }
    place.line
}

/// The line of the element that breaks a rule; 0 of another fault.
pub fn line_in(text: &[u8], e: ExceptionsError) -> usize {
    match e {
        ExceptionsError::Element(member, at) => line_of(text, member.name().as_bytes(), at),
        _ => 0,
    }
}
