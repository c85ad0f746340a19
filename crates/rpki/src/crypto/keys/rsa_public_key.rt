//! The bits of RSA keys: a SEQUENCE of modulus and exponent (RFC 8017 A.1.1).

ghost use Rattle.std.specs.Prelude.{◌≡◌};
ghost use Rattle.rpki_der.specs.Prelude.{left, Takes, TakesAll, TakesWholeInPlace, IsMagnitude};
ghost use Rattle.rpki.specs.RsaPublicKey.{numbers_of, rsa_numbers, rsa_public_key};
ghost use Rattle.rpki.specs.KeySize.{octet_bits, number_bits};

use rpki_der::{Constructed, DecodeError, Unsigned};
use std::marker::Model;

/// The bits of an octet, without the zeros in front.
fn octet_bits(octet: u8) -> u8
    ensures { result ≡ octet_bits octet }
{
    if octet < 1 {
        0
    } else if octet < 2 {
        1
    } else if octet < 4 {
        2
    } else if octet < 8 {
        3
    } else if octet < 16 {
        4
    } else if octet < 32 {
        5
    } else if octet < 64 {
        6
    } else if octet < 128 {
        7
    } else {
        8
    }
}

/// The bits of the number that these octets write, the first of which is not 0.
fn number_bits(octets: &[u8]) -> u128
    ensures { result ≡ number_bits octets.now }
{
    match octets.split_first() {
        Some((first, rest)) => u128::from(octet_bits(*first)) + 8 * rest.len() as u128,
        None => 0,
    }
}

/// The numbers that the bits of an RSA key are, read in place. Their octets are borrowed.
#[derive(Debug, Drop)]
pub struct RsaPublicKey<'a> {
    modulus: Unsigned<'a>,
    exponent: Unsigned<'a>,
}

impl<'a> Model for RsaPublicKey<'a> {
    ghost use Rattle.rpki.specs.RsaPublicKey.{RsaOctets, octets_of};

    ghost Value = { RsaOctets };

    ghost view = { λ k. octets_of k.modulus k.exponent };
}

impl<'a> RsaPublicKey<'a> {
    /// The numbers that these bits are: a SEQUENCE of two non-negative INTEGERs, and nothing else (RFC 8017 A.1.1).
    /// Allocates nothing.
    ///
    /// The errors are those of a SEQUENCE; then those of the INTEGERs, and `Trailing` for octets that follow them or
    /// the SEQUENCE.
    pub fn from_bits(bits: &'a [u8]) -> Result<RsaPublicKey<'a>, DecodeError>
        ensures { TakesWholeInPlace numbers_of rsa_public_key bits.entry.now result }
    {
        let mut cons = Constructed::from_slice(bits);
        let key = RsaPublicKey::take_from(&mut cons)?;
        cons.finish()?;
        Ok(key)
    }

    /// The same, of which other octets may follow.
    fn take_from(cons: &mut Constructed<'a>) -> Result<RsaPublicKey<'a>, DecodeError>
        ensures { Takes numbers_of rsa_public_key (left cons.old) (left cons.new) result }
    {
        cons.in_sequence(
            |contents|
                ensures { TakesAll numbers_of rsa_numbers (left contents.old) (left contents.new) result }
            {
                let modulus = contents.take_unsigned()?;
                let exponent = contents.take_unsigned()?;
                Ok(RsaPublicKey { modulus, exponent })
            },
        )
    }

    /// The octets of the modulus, the most significant first, without leading zeros.
    pub fn modulus(&self) -> &'a [u8]
        ensures octets { result.now ≡ self.now.modulus }
        ensures magnitude { IsMagnitude self.now.modulus }
    {
        self.modulus.as_slice()
    }

    /// The octets of the exponent, the most significant first, without leading zeros.
    pub fn exponent(&self) -> &'a [u8]
        ensures octets { result.now ≡ self.now.exponent }
        ensures magnitude { IsMagnitude self.now.exponent }
    {
        self.exponent.as_slice()
    }

    /// How many bits the modulus has.
    pub fn size(&self) -> u128
        ensures bits { result ≡ number_bits self.now.modulus }
        ensures magnitude { IsMagnitude self.now.modulus }
    {
        number_bits(self.modulus())
    }
}
