//! Tags and headers.

ghost use Rattle.std.specs.Prelude.{IsTrue, ◌↔◌, ◌≡◌, ◌≢◌, ◌<◌, ◌+◌, ◌-◌, ◌^◌};
ghost use Rattle.rpki_der.specs.TagName.{IsTag, tag_of};

use std::marker::Model;

/// The class of a tag (X.690 8.1.2.2).
#[derive(Clone, Copy, Debug, PartialEq, Eq)]
pub enum Class {
    Universal,
    Application,
    /// Context-specific.
    Context,
    Private,
}

/// A tag (X.690 8.1.2.2): a class, and a number below 2^28. Universal 0 is not a tag.
#[derive(Clone, Copy, Debug, PartialEq, Eq)]
pub struct Tag {
    class: Class,
    number: u32,
}

impl Model for Tag {
    ghost use Rattle.rpki_der.specs.TagName.{TagName, IsTag};

    ghost Value = { TagName };

    ghost view = { λ t. record { class = t.class; number = t.number } };

    ghost invariant = { λ t. IsTag (record { class = t.class; number = t.number }) };

    ghost inverse = { λ t. record { class = t.class; number = t.number } };
}

impl Tag {
    /// The universal tag of BOOLEAN.
    pub const BOOLEAN: Tag = Tag {
        class: Class::Universal,
        number: 1,
    };

    /// The universal tag of INTEGER.
    pub const INTEGER: Tag = Tag {
        class: Class::Universal,
        number: 2,
    };

    /// The universal tag of BIT STRING.
    pub const BIT_STRING: Tag = Tag {
        class: Class::Universal,
        number: 3,
    };

    /// The universal tag of OCTET STRING.
    pub const OCTET_STRING: Tag = Tag {
        class: Class::Universal,
        number: 4,
    };

    /// The universal tag of NULL.
    pub const NULL: Tag = Tag {
        class: Class::Universal,
        number: 5,
    };

    /// The universal tag of OBJECT IDENTIFIER.
    pub const OID: Tag = Tag {
        class: Class::Universal,
        number: 6,
    };

    /// The universal tag of UTF8String.
    pub const UTF8_STRING: Tag = Tag {
        class: Class::Universal,
        number: 12,
    };

    /// The universal tag of SEQUENCE and SEQUENCE OF.
    pub const SEQUENCE: Tag = Tag {
        class: Class::Universal,
        number: 16,
    };

    /// The universal tag of SET and SET OF.
    pub const SET: Tag = Tag {
        class: Class::Universal,
        number: 17,
    };

    /// The universal tag of PrintableString.
    pub const PRINTABLE_STRING: Tag = Tag {
        class: Class::Universal,
        number: 19,
    };

    /// The universal tag of IA5String.
    pub const IA5_STRING: Tag = Tag {
        class: Class::Universal,
        number: 22,
    };

    /// The universal tag of UTCTime.
    pub const UTC_TIME: Tag = Tag {
        class: Class::Universal,
        number: 23,
    };

    /// The universal tag of GeneralizedTime.
    pub const GENERALIZED_TIME: Tag = Tag {
        class: Class::Universal,
        number: 24,
    };

    /// The context-specific tag 6: a URI in a general name (RFC 5280 4.2.1.6).
    pub const CTX_6: Tag = Tag {
        class: Class::Context,
        number: 6,
    };

    /// The tag of a class and a number. Requires that the number is below 2^28, and not 0 in the class universal.
    pub fn new(class: Class, number: u32) -> Tag
        requires { IsTag (tag_of class number) }
        ensures { result ≡ tag_of class number }
    {
        Tag { class, number }
    }

    /// Whether the two are one tag.
    pub(crate) fn is_same(self, other: Tag) -> bool
        ensures { IsTrue result ↔ (self ≡ other) }
    {
        self.class == other.class && self.number == other.number
    }

    /// The class.
    pub fn class(&self) -> Class
        ensures { result ≡ self.now.class }
    {
        self.class
    }

    /// The number, below 2^28.
    pub fn number(&self) -> u32
        ensures value { result ≡ self.now.number }
        ensures legal { IsTag self.now }
    {
        self.number
    }
}

/// The header of a value: its identifier octets and its length octets (X.690 8.1.2, 8.1.3).
#[derive(Clone, Copy, Debug, PartialEq, Eq)]
pub struct Header {
    pub tag: Tag,
    /// The form: whether the contents are values themselves (X.690 8.1.2.5).
    pub constructed: bool,
    /// How many contents octets the value has.
    pub length: u32,
}

impl Header {
    /// Whether it is of this tag in this form.
    pub(crate) fn names(&self, tag: Tag, constructed: bool) -> bool
        ensures { IsTrue result ↔ ((self.now.tag ≡ tag) × (self.now.constructed ≡ constructed)) }
    {
        self.tag.is_same(tag) && self.constructed == constructed
    }
}

/// How many headers were read, rejected ones included.
#[derive(Debug, Drop)]
pub struct Steps {
    count: u64,
}

impl Model for Steps {
    ghost use Rattle.std.specs.Prelude.{ℕ};

    ghost Value = { ℕ };

    ghost view = { λ s. s.count };
}

impl Steps {
    /// No headers yet.
    pub fn new() -> Steps
        ensures { result ≡ 0 }
    {
        Steps { count: 0 }
    }

    /// The same count, in another variable.
    pub(crate) fn copied(&self) -> Steps
        ensures { result ≡ self.now }
    {
        Steps { count: self.count }
    }

    /// Counts one more header.
    pub(crate) fn raise(&mut self)
        requires { self.old < 2 ^ 64 - 1 }
        ensures { self.new ≡ self.old + 1 }
    {
        self.count += 1;
    }

    /// How many headers.
    pub fn count(&self) -> u64
        ensures { result ≡ self.now }
    {
        self.count
    }
}
