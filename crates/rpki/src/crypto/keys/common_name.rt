//! Key identifiers as common names.

ghost use Rattle.std.specs.Prelude.{◌≡◌};
ghost use Rattle.rpki_der.specs.Prelude.{AreOctets, printable_string};
ghost use Rattle.rpki_text.specs.HexText.{hex_text};

use super::KeyIdentifier;
use rpki_der::{PrimitiveContent, Tag, write_whole};
use std::io;
use std::io::Write;

/// The common name of a key: the forty hexadecimal digits of its identifier, as the contents of a PrintableString
/// (RFC 6487 4.5).
#[derive(Clone, Copy, Debug)]
pub struct PublicKeyCn {
    digits: [u8; 40],
}

impl PublicKeyCn {
    /// The common name of the key with this identifier.
    pub(crate) fn new(identifier: KeyIdentifier) -> PublicKeyCn
        ensures digits { result.digits ≡ hex_text identifier }
        ensures octets { AreOctets identifier }
    {
        PublicKeyCn {
            digits: identifier.into_hex(),
        }
    }
}

impl PrimitiveContent for PublicKeyCn {
    ghost use Rattle.rpki_der.specs.TagName.{printable_string};

    ghost plain = { printable_string };

    const TAG: Tag = Tag::PRINTABLE_STRING;

    ghost contents = { λ x. x.digits };

    fn plain_tag(&self) -> Tag {
        common_name_tag()
    }

    fn encoded_len(&self) -> u64 {
        self.digits.len() as u64
    }

    #[tactic(auto, using(rpki_der::proofs::WritingLaws::writes_of_cut))]
    fn write_encoded<W: Write>(&self, out: &mut W) -> Result<(), io::Error> {
        write_whole(out, &self.digits)
    }
}

/// The tag of common names: the constant of [PublicKeyCn].
fn common_name_tag() -> Tag
    ensures { result ≡ printable_string }
{
    <PublicKeyCn as PrimitiveContent>::TAG
}
