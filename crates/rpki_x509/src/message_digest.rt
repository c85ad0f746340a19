//! Digests of files and of contents.

ghost use Rattle.std.specs.Prelude.{◌≡◌, ◌≢◌, false, length, IfSome, IfNone};
ghost use Rattle.rpki_der.specs.Prelude.{left, Takes, bit_string, octets_sized, tlv};
ghost use Rattle.rpki_x509.specs.MessageDigest.{file_hash};
ghost use Rattle.rpki_x509.specs.MessageDigest.{hash_contents};

use rpki::crypto::{DigestAlgorithm, Provider};
use rpki::der::{Constructed, DecodeError, Primitive, PrimitiveContent, Tag, Values, write_whole};
use std::io;
use std::io::Write;
use std::marker::Model;

/// A digest by SHA-256: thirty-two octets (RFC 7935 2).
#[derive(Clone, Copy, PartialEq, Eq)]
pub struct MessageDigest {
    octets: [u8; 32],
}

/// The octets as an array; None where they aren't thirty-two.
fn array_of(octets: &[u8]) -> Option<[u8; 32]>
    ensures octets { IfSome result (λ array. (array ≡ octets.now) × (length octets.now ≡ 32)) }
    ensures none { IfNone result (length octets.now ≢ 32) }
{
    match <[u8; 32]>::try_from(octets) {
        Ok(array) => Some(array),
        Err(_) => None,
    }
}

impl Model for MessageDigest {
    ghost use Rattle.std.specs.Prelude.{ℕ, List};

    ghost Value = { List ℕ };

    ghost view = { λ d. d.octets };

    ghost inverse = { λ o. record { octets = o } };
}

impl MessageDigest {
    /// The digest of the octets, computed by the provider.
    pub fn of<P: Provider>(provider: &P, octets: &[u8]) -> MessageDigest
        ensures { result ≡ P.sha256_of provider.now octets.now }
    {
        MessageDigest {
            octets: DigestAlgorithm::sha256().digest(provider, octets),
        }
    }

    /// The digest of these octets.
    pub fn from_array(octets: [u8; 32]) -> MessageDigest
        ensures { result ≡ octets }
    {
        MessageDigest { octets }
    }

    /// The thirty-two octets.
    pub fn as_slice(&self) -> &[u8]
        ensures octets { result.now ≡ self.now }
        ensures size { length self.now ≡ 32 }
    {
        &self.octets
    }

    /// The thirty-two octets, as an array.
    pub fn into_array(self) -> [u8; 32]
        ensures { result ≡ self }
    {
        self.octets
    }

    /// An OCTET STRING of thirty-two octets. Allocates nothing.
    ///
    /// The errors are those of [Constructed::take_octet_array].
    pub fn take_from(cons: &mut Constructed<'_>) -> Result<MessageDigest, DecodeError>
        ensures { Takes (λ d. d) (octets_sized 32) (left cons.old) (left cons.new) result }
    {
        match cons.take_octet_array::<32>() {
            Ok(octets) => Ok(MessageDigest { octets }),
            Err(e) => Err(e),
        }
    }

    /// An encoder for the digest of a file on a manifest: a BIT STRING, of which no bit is unused. It always fits.
    pub fn encode_bits(self) -> Primitive<MessageDigest>
        ensures encoded { ⟦<Primitive<MessageDigest> as Values>⟧.encoded result
            ≡ tlv bit_string false (hash_contents self) }
        ensures short { ⟦<Primitive<MessageDigest> as Values>⟧.is_short result }
        ensures size { length self ≡ 32 }
    {
        self.encode()
    }

    /// The digest of a file on a manifest: a BIT STRING of thirty-two octets, of which no bit is unused (RFC 9286
    /// 4.2.1). Allocates nothing.
    ///
    /// The errors are those of [Constructed::take_bits]; then `Content` where a bit is unused, and for another number
    /// of octets. An error leaves the cursor where it was.
    pub fn take_bits_from(cons: &mut Constructed<'_>) -> Result<MessageDigest, DecodeError>
        ensures { Takes (λ d. d) file_hash (left cons.old) (left cons.new) result }
    {
        let mut after = *cons;
        let bits = match after.take_bits() {
            Ok(bits) => bits,
            Err(e) => return Err(e),
        };
        if bits.unused() != 0 {
            return Err(DecodeError::content("digest with unused bits"));
        }
        match array_of(bits.octet_slice()) {
            Some(octets) => {
                *cons = after;
                Ok(MessageDigest { octets })
            }
            None => Err(DecodeError::content("digest of another size")),
        }
    }
}

/// BIT STRING: no bit is unused.
impl PrimitiveContent for MessageDigest {
    ghost use Rattle.rpki_der.specs.TagName.{bit_string};
    ghost use Rattle.rpki_x509.specs.MessageDigest.{hash_contents};

    ghost plain = { bit_string };

    const TAG: Tag = Tag::BIT_STRING;

    ghost contents = { hash_contents };

    fn encoded_len(&self) -> u64 {
        self.as_slice().len() as u64 + 1
    }

    fn write_encoded<W: Write>(&self, out: &mut W) -> Result<(), io::Error> {
        write_whole(out, &[0])?;
        write_whole(out, self.as_slice())
    }

    fn plain_tag(&self) -> Tag {
        Self::TAG
    }
}
