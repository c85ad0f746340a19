//! URIs in certificates: as IA5String contents and as general names (RFC 5280 4.2.1.6).

ghost use Rattle.std.specs.Prelude.{◌≡◌, ◌<◌, ◌^◌, ◌↔◌, ℕ, List, false, length};
ghost use Rattle.rpki_der.specs.Prelude.{tlv, context_6, ia5_string};

use super::https::Https;
use super::rsync::Rsync;
use rpki_der::{Primitive, PrimitiveContent, Tag, Values, write_whole};
use std::io;
use std::io::Write;

/// The tag of a URI by itself, as an IA5String.
const URI_STRING: Tag = Tag::IA5_STRING;

/// The tag of a URI among general names, uniformResourceIdentifier (RFC 5280 4.2.1.6).
const URI_NAME: Tag = Tag::CTX_6;

/// The contents of an IA5String: the text as it was spelled.
impl<'a> PrimitiveContent for &'a Rsync {
    ghost use Rattle.rpki_der.specs.TagName.{ia5_string};

    ghost plain = { ia5_string };

    const TAG: Tag = URI_STRING;

    ghost contents = { λ u. u.now };

    fn plain_tag(&self) -> Tag {
        Self::TAG
    }

    fn encoded_len(&self) -> u64 {
        self.as_slice().len() as u64
    }

    fn write_encoded<W: Write>(&self, out: &mut W) -> Result<(), io::Error> {
        write_whole(out, self.as_slice())
    }
}

impl Rsync {
    /// An encoder for the URI as a general name: its text, as it was spelled, under the context-specific tag 6
    /// (RFC 5280 4.2.1.6).
    pub fn encode_general_name(&self) -> Primitive<&Rsync>
        ensures encoded { ⟦<Primitive<&'static Rsync> as Values>⟧.encoded result ≡ tlv context_6 false self.now }
        ensures short { ⟦<Primitive<&'static Rsync> as Values>⟧.is_short result ↔ (length self.now < 2 ^ 32) }
        // URIs have the same encoding exactly where their texts are the same.
        ensures same { (other : List ℕ) → length other < 2 ^ 32
            → (tlv context_6 false self.now ≡ tlv context_6 false other) ↔ (self.now ≡ other) }
    {
        self.encode_as(URI_NAME)
    }
}

/// The contents of an IA5String: the text as it was spelled.
impl<'a> PrimitiveContent for &'a Https {
    ghost use Rattle.rpki_der.specs.TagName.{ia5_string};

    ghost plain = { ia5_string };

    const TAG: Tag = URI_STRING;

    ghost contents = { λ u. u.now };

    fn plain_tag(&self) -> Tag {
        Self::TAG
    }

    fn encoded_len(&self) -> u64 {
        self.as_slice().len() as u64
    }

    fn write_encoded<W: Write>(&self, out: &mut W) -> Result<(), io::Error> {
        write_whole(out, self.as_slice())
    }
}

impl Https {
    /// An encoder for the URI as a general name: its text, as it was spelled, under the context-specific tag 6
    /// (RFC 5280 4.2.1.6).
    pub fn encode_general_name(&self) -> Primitive<&Https>
        ensures encoded { ⟦<Primitive<&'static Https> as Values>⟧.encoded result ≡ tlv context_6 false self.now }
        ensures short { ⟦<Primitive<&'static Https> as Values>⟧.is_short result ↔ (length self.now < 2 ^ 32) }
        // URIs have the same encoding exactly where their texts are the same.
        ensures same { (other : List ℕ) → length other < 2 ^ 32
            → (tlv context_6 false self.now ≡ tlv context_6 false other) ↔ (self.now ≡ other) }
    {
        self.encode_as(URI_NAME)
    }
}
