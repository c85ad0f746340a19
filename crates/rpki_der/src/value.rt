//! Values of any type, by their tag and form.

ghost use Rattle.std.specs.Prelude.{◌≡◌, ◌<◌, ◌≤◌, ◌↔◌, IsTrue, IfOk, IfErr, IfSome, length, take, drop, true, false};
ghost use Rattle.rpki_der.specs.Wanted.{IsWanted};

use crate::cursor::{Constructed, HeaderAndCursor};
use crate::error::DecodeError;
use crate::keep::Keep;
use crate::tag::{Header, Tag};
use bytes::Bytes;
use std::marker::Model;

/// The contents of a value: octets, or values themselves (X.690 8.1.2.5).
#[derive(Clone, Copy)]
pub enum Content<'a> {
    Primitive(&'a [u8]),
    Constructed(Constructed<'a>),
}

/// Which values a reader takes.
#[derive(Clone, Copy)]
enum Wanted {
    /// Those of any tag and form.
    Any,
    /// Those of any tag, in primitive form.
    Primitive,
    /// Those of this tag, in either form.
    Tagged(Tag),
    /// Those of this tag in this form: whether they are constructed.
    Formed(Tag, bool),
}

/// Whether a value with this header is wanted.
fn is_wanted(wanted: Wanted, found: &Header) -> bool
    ensures { IsTrue result ↔ IsWanted wanted found.now.tag found.now.constructed }
{
    match wanted {
        Wanted::Any => true,
        Wanted::Primitive => !found.constructed,
        Wanted::Tagged(tag) => found.tag.is_same(tag),
        Wanted::Formed(tag, constructed) => found.names(tag, constructed),
    }
}

/// A value that was read: its tag, its form, and a cursor on its contents.
#[derive(Drop)]
struct FoundValue<'a> {
    tag: Tag,
    constructed: bool,
    contents: Constructed<'a>,
}

impl<'a> Model for FoundValue<'a> {
    ghost use Rattle.std.specs.Prelude.{ℕ, Bool, List};
    ghost use Rattle.rpki_der.specs.TagName.{TagName};
    ghost use Rattle.rpki_der.specs.Cursor.{left};

    ghost Value = { TagName × Bool × List ℕ };

    ghost view = { λ x. (x.tag, x.constructed, left x.contents) };
}

impl<'a> Constructed<'a> {
    ghost use Rattle.rpki_der.specs.Cursor.{left};
    ghost use Rattle.rpki_der.specs.ContentView.{is_constructed, octets_of};
    ghost use Rattle.rpki_der.specs.TagName.{sequence, set};
    ghost use Rattle.rpki_der.specs.Reading.{Reads, ReadsWhere, ReadsKept, Accepts};
    ghost use Rattle.rpki_der.specs.Values.{SpellsContents, HasTag, IsContentsFault};
    ghost use Rattle.rpki_der.specs.WantedValue.{SpellsWanted, IsAnyTag, IsPrimitive, IsTagged, ReadsWanted};
    ghost use Rattle.rpki_der.specs.WantedValue.{ReadsTaggedWhere};

    /// A value that is wanted, where its header is two octets: its tag, its form, a cursor on its contents, and one on
    /// what follows.
    #[inline(always)]
    fn short_value(&self, wanted: Wanted) -> Option<(Tag, bool, Constructed<'a>, Constructed<'a>)>
        ensures { IfSome result (λ x. Accepts (SpellsWanted (IsWanted wanted)) (left self.now) (x.0, x.1, left x.2)
            (left x.3)) }
    {
        match self.after_short_header() {
            Some((found, following)) => {
                let length = found.length as usize;
                if !is_wanted(wanted, &found) || following.len() < length {
                    return None;
                }
                let (contents, after) = following.split_at(length);
                Some((found.tag, found.constructed, contents, after))
            }
            None => None,
        }
    }

    /// A value that is wanted: its tag, its form and a cursor on its contents, which are not validated. Moves past the
    /// value.
    #[inline(always)]
    fn take_wanted(&mut self, wanted: Wanted) -> Result<FoundValue<'a>, DecodeError>
        ensures { ReadsWanted (λ x. x) (IsWanted wanted) (left self.old) (left self.new) result }
    {
        let HeaderAndCursor { header, following } = self.after_header()?;
        if !is_wanted(wanted, &header) {
            return Err(DecodeError::Unexpected);
        }
        let length = header.length as usize;
        if following.len() < length {
            return Err(DecodeError::Truncated);
        }
        let (contents, after) = following.split_at(length);
        *self = after;
        Ok(FoundValue {
            tag: header.tag,
            constructed: header.constructed,
            contents,
        })
    }

    /// The contents of a value of this tag and form; moves past the value. The contents are not validated. What has a
    /// longer header than two octets, or isn't there, is read out of line.
    #[inline(always)]
    pub(crate) fn take_contents(
        &mut self,
        tag: Tag,
        constructed: bool,
    ) -> Result<Constructed<'a>, DecodeError>
        ensures { Reads left (SpellsContents tag constructed) (IsContentsFault tag constructed) (left self.old)
            (left self.new) result }
    {
        match self.short_value(Wanted::Formed(tag, constructed)) {
            Some((_, _, contents, after)) => {
                *self = after;
                Ok(contents)
            }
            None => self.take_any_contents(tag, constructed),
        }
    }

    /// The same, with a header of any size.
    #[inline(never)]
    fn take_any_contents(
        &mut self,
        tag: Tag,
        constructed: bool,
    ) -> Result<Constructed<'a>, DecodeError>
        ensures { Reads left (SpellsContents tag constructed) (IsContentsFault tag constructed) (left self.old)
            (left self.new) result }
    {
        let found = self.take_wanted(Wanted::Formed(tag, constructed))?;
        Ok(found.contents)
    }

    /// The value at the front, of any tag and form: its tag and its contents, which are not walked.
    ///
    /// The errors are those of a header, and `Truncated` if the contents are not all there.
    #[inline(always)]
    pub fn take_value(&mut self) -> Result<(Tag, Content<'a>), DecodeError>
        ensures { ReadsWanted (λ x. (x.0, is_constructed x.1, octets_of x.1)) IsAnyTag (left self.old)
            (left self.new) result }
    {
        match self.short_value(Wanted::Any) {
            Some((tag, constructed, contents, after)) => {
                *self = after;
                if constructed {
                    Ok((tag, Content::Constructed(contents)))
                } else {
                    Ok((tag, Content::Primitive(contents.rest())))
                }
            }
            None => self.take_any_value(),
        }
    }

    /// The same, with a header of any size.
    #[inline(never)]
    fn take_any_value(&mut self) -> Result<(Tag, Content<'a>), DecodeError>
        ensures { ReadsWanted (λ x. (x.0, is_constructed x.1, octets_of x.1)) IsAnyTag (left self.old)
            (left self.new) result }
    {
        let found = self.take_wanted(Wanted::Any)?;
        if found.constructed {
            Ok((found.tag, Content::Constructed(found.contents)))
        } else {
            Ok((found.tag, Content::Primitive(found.contents.rest())))
        }
    }

    /// The contents of a value of this tag, in either form. They are not walked.
    ///
    /// The errors are those of a header; then `Unexpected` for another tag; then `Truncated`.
    pub fn take_value_if(&mut self, tag: Tag) -> Result<Content<'a>, DecodeError>
        ensures { ReadsWanted (λ x. (tag, is_constructed x, octets_of x)) (IsTagged tag) (left self.old)
            (left self.new) result }
    {
        let found = self.take_wanted(Wanted::Tagged(tag))?;
        if found.constructed {
            Ok(Content::Constructed(found.contents))
        } else {
            Ok(Content::Primitive(found.contents.rest()))
        }
    }

    /// As [Constructed::take_value_if] where the rest begins with the identifier octets of this tag, in either
    /// form; else None.
    pub fn take_opt_value_if(&mut self, tag: Tag) -> Result<Option<Content<'a>>, DecodeError>
        ensures { ReadsTaggedWhere (λ x. (tag, is_constructed x, octets_of x)) tag (left self.old)
            (left self.new) result }
    {
        if !self.has_tag(tag) {
            return Ok(None);
        }
        let content = self.take_value_if(tag)?;
        Ok(Some(content))
    }

    /// The tag and the contents of a primitive value of any tag; moves past it. The contents are not validated.
    ///
    /// The errors are those of a header; then `Unexpected` for the constructed form; then `Truncated`.
    pub fn take_primitive(&mut self) -> Result<(Tag, &'a [u8]), DecodeError>
        ensures { ReadsWanted (λ x. (x.0, false, x.1.now)) IsPrimitive (left self.old) (left self.new) result }
    {
        let found = self.take_wanted(Wanted::Primitive)?;
        Ok((found.tag, found.contents.rest()))
    }

    /// The contents of a primitive value of this tag; moves past it. They are not validated.
    ///
    /// The errors are those of a header; then `Unexpected` for another tag or form; then `Truncated`.
    #[inline(always)]
    pub fn take_primitive_if(&mut self, tag: Tag) -> Result<&'a [u8], DecodeError>
        ensures { Reads (λ x. x.now) (SpellsContents tag false) (IsContentsFault tag false) (left self.old)
            (left self.new) result }
    {
        let contents = self.take_contents(tag, false)?;
        Ok(contents.rest())
    }

    /// The contents of a primitive value of this tag, as of an OCTET STRING or of an implicit context tag (X.690 8.14);
    /// moves past it. They are kept, and not validated. An allocator copies them, and [Shared](crate::Shared) shares
    /// them; requires that `keep` can keep parts of the rest.
    ///
    /// The errors are those of [Constructed::take_primitive_if]; then `OutOfMemory` if allocation fails.
    pub fn take_primitive_bytes_if<K: Keep>(
        &mut self,
        keep: K,
        tag: Tag,
    ) -> Result<Bytes, DecodeError>
        requires { K.holds keep (left self.old) }
        ensures { ReadsKept (λ b. b) (SpellsContents tag false) (IsContentsFault tag false) (left self.old)
            (left self.new) result }
    {
        let mut after = *self;
        let contents = after.take_contents(tag, false)?;
        let bytes = self.keep_part(keep, contents.rest(), &after)?;
        *self = after;
        Ok(bytes)
    }

    /// A cursor on the contents of a constructed value of this tag, as of an explicit context tag (X.690 8.14); moves
    /// past it. The contents are not validated.
    ///
    /// The errors are those of a header; then `Unexpected` for another tag or form; then `Truncated`.
    #[inline(always)]
    pub fn take_constructed_if(&mut self, tag: Tag) -> Result<Constructed<'a>, DecodeError>
        ensures { Reads left (SpellsContents tag true) (IsContentsFault tag true) (left self.old) (left self.new)
            result }
    {
        self.take_contents(tag, true)
    }

    /// As [Constructed::take_constructed_if] where the rest begins with the identifier octets of the tag, in either
    /// form; else None.
    pub fn take_opt_constructed_if(
        &mut self,
        tag: Tag,
    ) -> Result<Option<Constructed<'a>>, DecodeError>
        ensures { ReadsWhere (HasTag tag) left (SpellsContents tag true) (IsContentsFault tag true) (left self.old)
            (left self.new) result }
    {
        if !self.has_tag(tag) {
            return Ok(None);
        }
        let contents = self.take_constructed_if(tag)?;
        Ok(Some(contents))
    }

    /// A cursor on the contents of a SEQUENCE (X.690 8.9); moves past it. The contents are not validated.
    ///
    /// The errors are those of a header; then `Unexpected` for another tag or form; then `Truncated`.
    #[inline(always)]
    pub fn take_sequence(&mut self) -> Result<Constructed<'a>, DecodeError>
        ensures { Reads left (SpellsContents sequence true) (IsContentsFault sequence true) (left self.old)
            (left self.new) result }
    {
        self.take_contents(Tag::SEQUENCE, true)
    }

    /// A cursor on the contents of a SET (X.690 8.11); moves past it. The contents are not validated.
    ///
    /// The errors are those of a header; then `Unexpected` for another tag or form; then `Truncated`.
    #[inline(always)]
    pub fn take_set(&mut self) -> Result<Constructed<'a>, DecodeError>
        ensures { Reads left (SpellsContents set true) (IsContentsFault set true) (left self.old)
            (left self.new) result }
    {
        self.take_contents(Tag::SET, true)
    }

    /// As [Constructed::take_sequence] where the rest begins with the identifier octets of a SEQUENCE, in either
    /// form; else None.
    pub fn take_opt_sequence(&mut self) -> Result<Option<Constructed<'a>>, DecodeError>
        ensures { ReadsWhere (HasTag sequence) left (SpellsContents sequence true) (IsContentsFault sequence true)
            (left self.old) (left self.new) result }
    {
        if !self.has_tag(Tag::SEQUENCE) {
            return Ok(None);
        }
        let contents = self.take_sequence()?;
        Ok(Some(contents))
    }

    /// As [Constructed::take_set] where the rest begins with the identifier octets of a SET, in either form; else
    /// None.
    pub fn take_opt_set(&mut self) -> Result<Option<Constructed<'a>>, DecodeError>
        ensures { ReadsWhere (HasTag set) left (SpellsContents set true) (IsContentsFault set true) (left self.old)
            (left self.new) result }
    {
        if !self.has_tag(Tag::SET) {
            return Ok(None);
        }
        let contents = self.take_set()?;
        Ok(Some(contents))
    }
}
