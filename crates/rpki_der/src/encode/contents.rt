//! Contents of primitive values.

ghost use Rattle.rpki_der.specs.TagName.{boolean, bit_string, octet_string, null, oid};
ghost use Rattle.rpki_der.specs.Leaves.{boolean_contents};
ghost use Rattle.rpki_der.specs.Contents.{null_contents, oid_contents, octet_string_contents, bits_contents};
ghost use Rattle.rpki_der.specs.Header.{tlv};
ghost use Rattle.rpki_der.specs.Written.{Writes};
ghost use Rattle.std.specs.Prelude.{◌≡◌, ◌<◌, ◌^◌, ◌↔◌, false, length};
ghost use Rattle.rpki_der.specs.LeafLaws.{AreBitsApart};

use super::primitive::{Primitive, PrimitiveContent};
use super::values::Values;
use super::whole::write_whole;
use crate::bit_string::BitString;
use crate::oid::Oid;
use crate::tag::Tag;
use std::io;
use std::io::Write;

/// NULL, which has no contents (X.690 8.8).
impl PrimitiveContent for () {
    ghost plain = { null };

    const TAG: Tag = Tag::NULL;

    ghost contents = { null_contents };

    fn encoded_len(&self) -> u64 {
        0
    }

    fn write_encoded<W: Write>(&self, _out: &mut W) -> Result<(), io::Error> {
        Ok(())
    }

    fn plain_tag(&self) -> Tag {
        Self::TAG
    }
}

/// BOOLEAN: one octet, FF for true and 00 for false (X.690 8.2, 11.1).
impl PrimitiveContent for bool {
    ghost plain = { boolean };

    const TAG: Tag = Tag::BOOLEAN;

    ghost contents = { boolean_contents };

    fn encoded_len(&self) -> u64 {
        1
    }

    #[tactic(auto, using(crate::proofs::WritingLaws::writes_of_cut))]
    fn write_encoded<W: Write>(&self, out: &mut W) -> Result<(), io::Error> {
        write_whole(out, if *self { &[0xff] } else { &[0] })
    }

    fn plain_tag(&self) -> Tag {
        Self::TAG
    }
}

/// OBJECT IDENTIFIER: the octets unchanged (X.690 8.19).
impl<'a> PrimitiveContent for Oid<&'a [u8]> {
    ghost plain = { oid };

    const TAG: Tag = Tag::OID;

    ghost contents = { λ x. oid_contents x.0.now };

    fn encoded_len(&self) -> u64 {
        self.0.len() as u64
    }

    #[tactic(auto, using(crate::proofs::WritingLaws::writes_of_cut))]
    fn write_encoded<W: Write>(&self, out: &mut W) -> Result<(), io::Error> {
        write_whole(out, self.0)
    }

    fn plain_tag(&self) -> Tag {
        Self::TAG
    }
}

/// OCTET STRING in the primitive form (X.690 8.7, 10.2).
impl<'a> PrimitiveContent for &'a [u8] {
    ghost plain = { octet_string };

    const TAG: Tag = Tag::OCTET_STRING;

    ghost contents = { λ x. octet_string_contents x.now };

    fn encoded_len(&self) -> u64 {
        self.len() as u64
    }

    #[tactic(auto, using(crate::proofs::WritingLaws::writes_of_cut))]
    fn write_encoded<W: Write>(&self, out: &mut W) -> Result<(), io::Error> {
        write_whole(out, self)
    }

    fn plain_tag(&self) -> Tag {
        Self::TAG
    }
}

/// BIT STRING in the primitive form: the count of unused bits, and then the octets (X.690 8.6, 10.2, 11.2).
impl PrimitiveContent for BitString {
    ghost plain = { bit_string };

    const TAG: Tag = Tag::BIT_STRING;

    ghost contents = { bits_contents };

    fn encoded_len(&self) -> u64 {
        self.octet_slice().len() as u64 + 1
    }

    fn write_encoded<W: Write>(&self, out: &mut W) -> Result<(), io::Error> {
        write_bits(out, self)
    }

    fn plain_tag(&self) -> Tag {
        Self::TAG
    }
}

/// The same for a borrowed bit string.
impl<'a> PrimitiveContent for &'a BitString {
    ghost plain = { bit_string };

    const TAG: Tag = Tag::BIT_STRING;

    ghost contents = { λ x. bits_contents x.now };

    fn encoded_len(&self) -> u64 {
        self.octet_slice().len() as u64 + 1
    }

    fn write_encoded<W: Write>(&self, out: &mut W) -> Result<(), io::Error> {
        write_bits(out, self)
    }

    fn plain_tag(&self) -> Tag {
        Self::TAG
    }
}

/// Writes the contents of a bit string.
#[tactic(auto, using(crate::proofs::WritingLaws::writes_of_cut, crate::proofs::WritingLaws::beginning_of, crate::proofs::WritingLaws::beginning_more))]
fn write_bits<W: Write>(out: &mut W, bits: &BitString) -> Result<(), io::Error>
    ensures { Writes (W.contents out.old) (W.contents out.new) result (bits_contents bits.now) }
{
    write_whole(out, &[bits.unused()])?;
    write_whole(out, bits.octet_slice())
}

impl BitString {
    /// An encoder for the bit string under the tag of a BIT STRING; it borrows the bits.
    pub fn encode_ref(&self) -> Primitive<&BitString>
        ensures encoded { ⟦<Primitive<&'static BitString> as Values>⟧.encoded result
            ≡ tlv bit_string false (bits_contents self.now) }
        ensures short { ⟦<Primitive<&'static BitString> as Values>⟧.is_short result
            ↔ (length (bits_contents self.now) < 2 ^ 32) }
        // Bit strings have the same encoding exactly where they are equal.
        ensures same { AreBitsApart self.now }
    {
        self.encode()
    }
}
