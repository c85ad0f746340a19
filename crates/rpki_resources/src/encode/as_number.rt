//! AS numbers as the contents of an INTEGER (RFC 3779 3.2.3.9, X.690 8.3).

ghost use Rattle.std.specs.Prelude.{◌≡◌, ◌<◌, ◌^◌};
ghost use Rattle.rpki_der.specs.TagName.{integer};
ghost use Rattle.rpki_resources.specs.Encoded.{integer_size, as_contents};

use super::number::write_octets;
use crate::as_text::Asn;
use rpki_der::{PrimitiveContent, Tag};
use std::io;
use std::io::Write;

/// The fewest octets that hold the number with the first bit 0.
fn integer_size_of(number: u32) -> u8
    ensures { result ≡ integer_size number }
{
    match number {
        0..128 => 1,
        128..32768 => 2,
        32768..8388608 => 3,
        8388608..2147483648 => 4,
        _ => 5,
    }
}

/// INTEGER: as few octets as can be (X.690 8.3.2).
impl PrimitiveContent for Asn {
    ghost plain = { integer };

    const TAG: Tag = Tag::INTEGER;

    ghost contents = { λ x. as_contents x.0 };

    fn encoded_len(&self) -> u64 {
        u64::from(integer_size_of(self.0))
    }

    fn write_encoded<W: Write>(&self, out: &mut W) -> Result<(), io::Error> {
        write_octets(out, integer_size_of(self.0), u128::from(self.0))
    }

    fn plain_tag(&self) -> Tag {
        Self::TAG
    }
}
