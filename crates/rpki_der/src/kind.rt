//! What the index keeps of a header in one word.

ghost use Rattle.std.specs.Prelude.{◌≡◌, ◌<◌, ◌≤◌, ◌^◌, ◌++◌, Bool, length};
ghost use Rattle.rpki_der.specs.TagName.{TagName};
ghost use Rattle.rpki_der.specs.Header.{identifier_octets, length_octets};
ghost use Rattle.rpki_der.specs.Kind.{kind};

use crate::header::{class_of, number_of};
use crate::tag::Tag;
use std::marker::Model;

/// A tag, a form, and whether another value holds the value.
#[derive(Clone, Copy, Debug)]
pub(crate) struct Kind {
    word: u32,
}

impl Model for Kind {
    ghost use Rattle.std.specs.Prelude.{◌<◌, ◌^◌};
    ghost use Rattle.rpki_der.specs.TagName.{IsTag};
    ghost use Rattle.rpki_der.specs.Kind.{HeaderKind, kind_of, word_of};
    ghost use Rattle.rpki_der.specs.KindLaws.{word-again};

    ghost Value = { HeaderKind };

    ghost view = { λ k. kind_of k.word };

    ghost invariant = { λ k. (k.word < 2 ^ 32) × IsTag (kind_of k.word).tag };

    ghost inverse = { λ k. record { word = word_of k } };

    ghost inverse_ok = { λ k h i. record { word = word-again k.word h.0 i } };
}

impl Kind {
    /// The tag, the form, and whether another value holds the value.
    pub(crate) fn new(tag: Tag, constructed: bool, is_inner: bool) -> Kind
        ensures { result ≡ kind tag constructed is_inner }
    {
        let class = u32::from(number_of(tag.class()));
        let form = u32::from(constructed);
        let held = u32::from(is_inner);
        Kind {
            word: tag.number() + (class << 28) + (form << 30) + (held << 31),
        }
    }

    /// The tag.
    pub(crate) fn tag(self) -> Tag
        ensures { result ≡ self.tag }
    {
        Tag::new(class_of((self.word >> 28) as u8 % 4), self.word % (1 << 28))
    }

    /// Whether the contents are values themselves.
    pub(crate) fn constructed(self) -> bool
        ensures { result ≡ self.constructed }
    {
        (self.word >> 30) % 2 == 1
    }

    /// Whether another value holds the value.
    pub(crate) fn is_inner(self) -> bool
        ensures { result ≡ self.is_inner }
    {
        self.word >> 31 == 1
    }

    /// How many octets the header has, with contents of this length (X.690 8.1.2, 8.1.3).
    pub(crate) fn header_len(self, contents_len: u32) -> usize
        ensures { result ≡ length (identifier_octets self.tag self.constructed ++ length_octets contents_len) }
    {
        identifier_len(self.word % (1 << 28)) + length_len(contents_len)
    }
}

/// How many identifier octets a tag of this number has (X.690 8.1.2.4).
fn identifier_len(number: u32) -> usize
    requires { number < 2 ^ 28 }
    ensures size { (t : TagName) (f : Bool) → t.number ≡ number → length (identifier_octets t f) ≡ result }
    ensures few { result ≤ 5 }
{
    if number < 31 {
        1
    } else if number < 1 << 7 {
        2
    } else if number < 1 << 14 {
        3
    } else if number < 1 << 21 {
        4
    } else {
        5
    }
}

/// How many length octets contents of this length have (X.690 8.1.3, 10.1).
fn length_len(contents_len: u32) -> usize
    ensures size { result ≡ length (length_octets contents_len) }
    ensures few { result ≤ 5 }
{
    if contents_len < 128 {
        1
    } else if contents_len < 256 {
        2
    } else if contents_len < 1 << 16 {
        3
    } else if contents_len < 1 << 24 {
        4
    } else {
        5
    }
}
