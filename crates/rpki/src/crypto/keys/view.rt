//! Public keys, read in place: a format, and bits that are borrowed.

ghost use Rattle.std.specs.Prelude.{◌≡◌, length};
ghost use Rattle.rpki_der.specs.Prelude.{left, Takes, TakesAll, AreBits};
ghost use Rattle.rpki.specs.KeyFault.{key_view, key_view_parts};

use super::{KeyIdentifier, PublicKey, PublicKeyFormat};
use crate::crypto::Provider;
use crate::crypto::digest::sha1_digest;
use bytes::Bytes;
use rpki_der::{BitSlice, Constructed, DecodeError};
use std::marker::Model;

/// A public key, as [PublicKey](crate::crypto::PublicKey), whose bits are borrowed from the octets that it was read
/// from (RFC 5280 4.1.2.7).
#[derive(Debug, Drop)]
pub struct PublicKeyView<'a> {
    algorithm: PublicKeyFormat,
    bits: BitSlice<'a>,
}

impl<'a> Model for PublicKeyView<'a> {
    ghost use Rattle.rpki_der.specs.Leaves.{AreBits};
    ghost use Rattle.rpki.specs.PublicKey.{KeyParts, key_of};

    ghost Value = { KeyParts };

    ghost view = { λ k. key_of k.algorithm k.bits };

    ghost invariant = { λ k. AreBits k.bits };
}

impl<'a> PublicKeyView<'a> {
    /// A public key, with the grammar and the errors of [PublicKey::take_from](crate::crypto::PublicKey::take_from),
    /// but for `OutOfMemory`. Allocates nothing.
    pub fn take_from(cons: &mut Constructed<'a>) -> Result<PublicKeyView<'a>, DecodeError>
        ensures { Takes (λ k. k) key_view (left cons.old) (left cons.new) result }
    {
        cons.in_sequence(
            |contents|
                ensures { TakesAll (λ k. k) key_view_parts (left contents.old) (left contents.new) result }
            {
                let algorithm = PublicKeyFormat::take_from(contents)?;
                let bits = contents.take_bits()?;
                Ok(PublicKeyView { algorithm, bits })
            },
        )
    }

    /// The format.
    pub fn algorithm(&self) -> PublicKeyFormat
        ensures { result ≡ self.now.format }
    {
        self.algorithm
    }

    /// How many bits of the last octet are not used: 0 to 7.
    pub fn unused(&self) -> u8
        ensures value { result ≡ self.now.bits.unused }
        ensures legal { AreBits self.now.bits }
    {
        self.bits.unused()
    }

    /// The octets of the bits, without the count of unused bits.
    pub fn bits(&self) -> &'a [u8]
        ensures { result.now ≡ self.now.bits.octets }
    {
        self.bits.octet_slice()
    }

    /// The key, of octets that were kept. Requires that they are those of its bits.
    pub fn kept(&self, octets: Bytes) -> PublicKey
        requires { octets ≡ self.now.bits.octets }
        ensures { result ≡ self.now }
    {
        PublicKey::of_parts(self.algorithm, self.unused(), octets)
    }

    /// The key identifier, as that of [PublicKey::key_identifier](crate::crypto::PublicKey::key_identifier).
    pub fn key_identifier<P: Provider>(&self, provider: &P) -> KeyIdentifier
        ensures value { result ≡ P.sha1_of provider.now self.now.bits.octets }
        ensures size { length result ≡ 20 }
    {
        KeyIdentifier::from(sha1_digest(provider, self.bits()))
    }
}
