//! Signed data that is written of parts in place: nothing of them is copied, and nothing indexed.

ghost use Rattle.std.specs.Prelude.{◌≡◌, ◌↔◌, ◌<◌, ◌^◌, length};
ghost use Rattle.rpki_der.specs.Members.{IsValue};
ghost use Rattle.rpki_c.specs.Made.{made_contents, made_signed};

use rpki::crypto::{RpkiSignatureAlgorithm, SignatureAlgorithm};
use rpki_der::{Primitive, PrimitiveContent, Sequence, StandingValue, Tag, Values, write_whole};
use std::io;
use std::io::Write;

/// Octets as the contents of a BIT STRING without unused bits (X.690 8.6).
#[derive(Clone, Copy)]
pub(crate) struct WholeBits<'a> {
    octets: &'a [u8],
}

impl<'a> PrimitiveContent for WholeBits<'a> {
    ghost use Rattle.rpki_der.specs.Prelude.{bit_string, bits_contents, bits_of};

    ghost plain = { bit_string };

    const TAG: Tag = Tag::BIT_STRING;

    ghost contents = { λ x. bits_contents (bits_of 0 x.octets.now) };

    fn plain_tag(&self) -> Tag {
        Tag::BIT_STRING
    }

    fn encoded_len(&self) -> u64 {
        self.octets.len() as u64 + 1
    }

    fn write_encoded<W: Write>(&self, out: &mut W) -> Result<(), io::Error> {
        write_whole(out, &[0])?;
        write_whole(out, self.octets)
    }
}

/// An encoder for signed data of parts that are elsewhere.
pub(crate) type StandingSigned<'a> = Sequence<
    (
        StandingValue<'a>,
        <RpkiSignatureAlgorithm as SignatureAlgorithm>::Encoder,
        Primitive<WholeBits<'a>>,
    ),
>;

/// Signed data of one value, with parameters in its algorithm and no unused bits in its signature.
pub(crate) fn signed_of<'a>(value: &'a [u8], signature: &'a [u8]) -> StandingSigned<'a>
    requires { IsValue value.now }
    ensures octets { ⟦<StandingSigned<'static> as Values>⟧.encoded result
        ≡ made_signed value.entry.now signature.entry.now }
    ensures short { ⟦<StandingSigned<'static> as Values>⟧.is_short result
        ↔ (length (made_contents value.entry.now signature.entry.now) < 2 ^ 32) }
{
    let bits = WholeBits { octets: signature };
    Sequence::new((
        StandingValue::new(value),
        RpkiSignatureAlgorithm::default().x509_encode(),
        bits.encode(),
    ))
}
