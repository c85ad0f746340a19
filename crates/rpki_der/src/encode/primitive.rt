//! Primitive values.

ghost use Rattle.std.specs.Prelude.{◌≡◌, ℕ, List, false, ◌<◌, ◌^◌, ◌↔◌, length};
ghost use Rattle.rpki_der.specs.TagName.{IsTag, tag_of};
ghost use Rattle.rpki_der.specs.Header.{tlv};
ghost use Rattle.rpki_der.specs.Written.{Writes};

use super::header::{header_len, write_header};
use super::values::Values;
use crate::tag::{Class, Tag};
use std::io;
use std::io::Write;

/// The contents of a primitive value (X.690 8.1.4).
pub trait PrimitiveContent {
    ghost use Rattle.rpki_der.specs.TagName.{TagName};

    /// The tag that the contents have by themselves.
    ghost plain: { TagName };

    /// The tag that the contents have by themselves.
    const TAG: Tag;

    /// The contents octets.
    ghost contents: { Self → List ℕ };

    /// How many contents octets there are.
    fn encoded_len(&self) -> u64
        ensures { result ≡ length (contents self.now) };

    /// Writes the contents octets.
    ///
    /// The first error of the writer ends the call and is returned; a write of 0 octets is an error of the kind
    /// `WriteZero`. After an error the writer has received a prefix of the octets.
    fn write_encoded<W: Write>(&self, out: &mut W) -> Result<(), io::Error>
        ensures { Writes (W.contents out.old) (W.contents out.new) result (contents self.now) };

    /// `TAG`: each implementation returns `Self::TAG`, which ties the constant to the contracts.
    fn plain_tag(&self) -> Tag
        ensures { result ≡ plain };

    /// An encoder for the value with these contents, under their own tag.
    fn encode(self) -> Primitive<Self>
    where
        Self: Sized,
        ensures encoded { ⟦<Primitive<Self> as Values>⟧.encoded result ≡ tlv plain false (contents self) }
        ensures short { ⟦<Primitive<Self> as Values>⟧.is_short result ↔ (length (contents self) < 2 ^ 32) }
    {
        Primitive::new(self.plain_tag(), self)
    }

    /// An encoder for the value with these contents, under another tag, as IMPLICIT tagging has it (X.690 8.14.3).
    fn encode_as(self, tag: Tag) -> Primitive<Self>
    where
        Self: Sized,
        ensures encoded { ⟦<Primitive<Self> as Values>⟧.encoded result ≡ tlv tag false (contents self) }
        ensures short { ⟦<Primitive<Self> as Values>⟧.is_short result ↔ (length (contents self) < 2 ^ 32) }
    {
        Primitive::new(tag, self)
    }
}

/// A primitive value: contents under a tag, made by `encode` and `encode_as`.
#[derive(Drop)]
pub struct Primitive<P> {
    // the tag by its parts: the checker has no rule for a pair that is moved with a `Tag` beside a reference in it
    class: Class,
    number: u32,
    content: P,
    ghost legal: { IsTag (tag_of class number) },
}

impl<P> Primitive<P> {
    fn new(tag: Tag, content: P) -> Primitive<P>
        ensures tag { tag_of result.class result.number ≡ tag }
        ensures content { result.content ≡ content }
    {
        Primitive {
            class: tag.class(),
            number: tag.number(),
            content,
        }
    }

    fn tag(&self) -> Tag
        ensures { result ≡ tag_of self.now.class self.now.number }
    {
        Tag::new(self.class, self.number)
    }
}

#[tactic(auto, using(crate::proofs::WritingLaws::writes_then, crate::proofs::WritingLaws::beginning_more, crate::specs::ValueListLaws::primitive_value, crate::proofs::EncodeLaws::tlv_at_most))]
impl<P: PrimitiveContent> Values for Primitive<P> {
    ghost use Rattle.rpki_der.specs.PrimitiveParts.{tag_in, content_in, has_tag};
    ghost use Rattle.rpki_der.specs.ValueListLaws.{primitive_value_list};
    ghost use Rattle.rpki_der.specs.Tree.Tree.{Primitive as PrimitiveTree};
    ghost use Rattle.rpki_der.specs.TreeLaws.{as_it_is};
    ghost use Rattle.std.specs.Prelude.{refl};

    ghost tree = { λ x. PrimitiveTree (tag_in x) (P.contents (content_in x)) };

    ghost encoded = { λ x. tlv (tag_in x) false (P.contents (content_in x)) };

    ghost is_short = { λ x. length (P.contents (content_in x)) < 2 ^ 32 };

    ghost spelled = { λ _. refl };

    ghost measured = { λ _. as_it_is };

    ghost are_values = { λ x h. primitive_value_list (tag_in x) (P.contents (content_in x)) (has_tag x) h };

    fn fits(&self) -> bool {
        self.content.encoded_len() < 1 << 32
    }

    fn count(&self) -> u64 {
        1
    }

    fn encoded_len(&self) -> u64 {
        let length = self.content.encoded_len();
        header_len(self.tag(), false, length) + length
    }

    fn write_encoded<W: Write>(&self, out: &mut W) -> Result<(), io::Error> {
        write_header(out, self.tag(), false, self.content.encoded_len())?;
        self.content.write_encoded(out)
    }
}
