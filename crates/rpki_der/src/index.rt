//! Entries of an index of headers.

ghost use Rattle.std.specs.Prelude.{◌≡◌, ◌+◌, ◌-◌, ◌<◌, ◌^◌, None, Some, length};

use crate::kind::Kind;
use crate::tag::{Header, Tag};
use std::marker::Model;

/// A header in an index: where it and its contents are, and what it says.
#[derive(Clone, Copy, Debug)]
pub struct HeaderEntry {
    place: usize,
    /// The number of the parent, or 0 where there is none.
    holder: usize,
    length: u32,
    kind: Kind,
}

impl Model for HeaderEntry {
    ghost use Rattle.std.specs.Prelude.{◌≡◌, ◌+◌, ◌-◌, ◌<◌, ◌^◌, false};
    ghost use Rattle.rpki_der.specs.Index.{Entry};
    ghost use Rattle.rpki_der.specs.IndexParts.{parent_of, holder_of, is_held, header_size, entry_of};

    ghost Value = { Entry };

    ghost view = { λ e. entry_of e.place e.holder e.length e.kind };

    ghost invariant = { λ e. (e.place + header_size e.kind e.length + e.length < 2 ^ 64)
        × (e.holder ≡ holder_of (parent_of e.kind.is_inner e.holder)) };

    ghost inverse = { λ e. record {
      place = e.place;
      holder = holder_of e.parent;
      length = e.past - e.contents;
      kind = record { tag = e.tag; constructed = e.constructed; is_inner = is_held e.parent };
    } };
}

impl HeaderEntry {
    ghost use Rattle.rpki_der.specs.Header.{header_octets};
    ghost use Rattle.rpki_der.specs.IndexParts.{entry_at};

    /// The entry of a header at this place, in the value whose entry has this number.
    pub(crate) fn new(place: usize, header: &Header, parent: Option<usize>) -> HeaderEntry
        requires { place + length (header_octets header.now) + header.now.length < 2 ^ 64 }
        ensures { result ≡ entry_at place (length (header_octets header.now)) header.now parent }
    {
        HeaderEntry {
            place,
            holder: parent.unwrap_or(0),
            length: header.length,
            kind: Kind::new(header.tag, header.constructed, parent.is_some()),
        }
    }

    /// The header.
    pub(crate) fn header(&self) -> Header
        ensures { result ≡ record {
          tag = self.now.tag;
          constructed = self.now.constructed;
          length = self.now.past - self.now.contents;
        } }
    {
        Header {
            tag: self.tag(),
            constructed: self.constructed(),
            length: self.length,
        }
    }

    /// Where the header begins.
    pub fn place(&self) -> usize
        ensures { result ≡ self.now.place }
    {
        self.place
    }

    /// Where the contents begin.
    pub fn contents(&self) -> usize
        ensures { result ≡ self.now.contents }
    {
        self.place + self.kind.header_len(self.length)
    }

    /// The place just past the contents.
    pub fn past(&self) -> usize
        ensures { result ≡ self.now.past }
    {
        self.contents() + self.length as usize
    }

    /// The tag.
    pub fn tag(&self) -> Tag
        ensures { result ≡ self.now.tag }
    {
        self.kind.tag()
    }

    /// Whether the contents are values themselves.
    pub fn constructed(&self) -> bool
        ensures { result ≡ self.now.constructed }
    {
        self.kind.constructed()
    }

    /// The number of the entry of the value that holds this one.
    pub fn parent(&self) -> Option<usize>
        ensures { result ≡ self.now.parent }
    {
        if self.kind.is_inner() {
            Some(self.holder)
        } else {
            None
        }
    }
}
