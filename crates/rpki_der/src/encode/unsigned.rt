//! Non-negative INTEGERs as contents.

ghost use Rattle.std.specs.Prelude.{◌↔◌, ◌≤◌, IsTrue, slice_index};
ghost use Rattle.rpki_der.specs.TagName.{integer};
ghost use Rattle.rpki_der.specs.Integer.{unsigned_contents};

use super::primitive::PrimitiveContent;
use super::whole::write_whole;
use crate::integer::Unsigned;
use crate::tag::Tag;
use std::io;
use std::io::Write;

/// Whether the first bit is 1, so that a zero octet is in front (X.690 8.3.3).
fn needs_zero(number: &Unsigned<'_>) -> bool
    ensures { IsTrue result ↔ (128 ≤ slice_index number.now 0) }
{
    number.as_slice()[0] >= 128
}

/// INTEGER: the octets of the number, after a zero octet if their first bit is 1 (X.690 8.3).
impl<'a> PrimitiveContent for Unsigned<'a> {
    ghost plain = { integer };

    const TAG: Tag = Tag::INTEGER;

    ghost contents = { unsigned_contents };

    fn encoded_len(&self) -> u64 {
        let octets = self.as_slice().len() as u64;
        if needs_zero(self) { octets + 1 } else { octets }
    }

    #[tactic(auto, using(crate::proofs::WritingLaws::writes_of_cut, crate::proofs::WritingLaws::beginning_of, crate::proofs::WritingLaws::beginning_more, crate::proofs::WritingLaws::writes_then, crate::proofs::UnsignedLaws::unsigned_bare, crate::proofs::UnsignedLaws::unsigned_after_zero))]
    fn write_encoded<W: Write>(&self, out: &mut W) -> Result<(), io::Error> {
        if needs_zero(self) {
            write_whole(out, &[0])?;
            write_whole(out, self.as_slice())
        } else {
            write_whole(out, self.as_slice())
        }
    }

    fn plain_tag(&self) -> Tag {
        Self::TAG
    }
}
