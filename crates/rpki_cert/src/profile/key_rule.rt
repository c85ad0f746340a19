//! The keys of certificates of the RPKI (RFC 7935 3) and of BGPsec routers (RFC 8608 3.1).

ghost use Rattle.std.specs.Prelude.{◌≡◌, ◌↔◌, IsTrue, true, length, slice_index};
ghost use Rattle.rpki_der.specs.Cursor.{left};
ghost use Rattle.rpki_der.specs.Number.{number_of};
ghost use Rattle.rpki.specs.AnyValue.{SpellsAny};
ghost use Rattle.rpki.specs.PublicKey.{key_of};
ghost use Rattle.rpki_der.specs.Leaves.{bits_of};
ghost use Rattle.rpki_cert.specs.Keys.{IsModulus, SpellsExponent, AreRsaParts, SpellsRsaKey, IsRpkiKey, IsRouterKey};

use rpki::crypto::PublicKeyFormat;
use rpki::der::{Constructed, Tag, Unsigned};
use rpki_x509::{inside, skip_primitive};

/// A key: its format, how many bits of its last octet are unused, and its octets.
#[derive(Clone, Copy)]
pub struct KeyBits<'a> {
    /// The format.
    pub format: PublicKeyFormat,
    /// How many bits of the last octet are not used.
    pub unused: u8,
    /// The octets of the bits.
    pub octets: &'a [u8],
}

/// Whether the number has 2,048 bits (RFC 7935 3).
fn is_modulus(number: &Unsigned<'_>) -> bool
    ensures { IsTrue result ↔ IsModulus (number_of number.now) }
{
    let octets = number.as_slice();
    if octets.len() != 256 {
        return false;
    }
    if octets[0] < 128 {
        return false;
    }
    true
}

/// Whether the rest is the INTEGER 65537 (RFC 7935 3).
fn is_exponent(contents: Constructed<'_>) -> bool
    ensures { IsTrue result ↔ SpellsExponent tt (left contents.entry) }
{
    let mut rest = contents;
    match skip_primitive(&mut rest, Tag::INTEGER, &[1, 0, 1]) {
        Ok(()) => rest.is_empty(),
        Err(_) => false,
    }
}

/// Whether the rest is a modulus of 2,048 bits and the exponent 65537.
fn are_rsa_parts(contents: Constructed<'_>) -> bool
    ensures { IsTrue result ↔ SpellsAny AreRsaParts tt (left contents.entry) }
{
    let mut rest = contents;
    match rest.take_unsigned() {
        Ok(modulus) => is_modulus(&modulus) && is_exponent(rest),
        Err(_) => false,
    }
}

/// Whether the octets are an RSAPublicKey (RFC 8017 A.1.1) of such numbers.
fn is_rsa_key(octets: &[u8]) -> bool
    ensures { IsTrue result ↔ SpellsAny SpellsRsaKey tt octets.now }
{
    match inside(Constructed::from_slice(octets), Tag::SEQUENCE) {
        Ok(contents) => are_rsa_parts(contents),
        Err(_) => false,
    }
}

/// Whether the octets are a point on P-256 that is not compressed (RFC 5480 2.2). Whether it is on the curve isn't
/// looked at.
fn is_point(octets: &[u8]) -> bool
    ensures { IsTrue result ↔ ((length octets.now ≡ 65) × (slice_index octets.now 0 ≡ 4)) }
{
    octets.len() == 65 && octets[0] == 4
}

impl KeyBits<'_> {
    /// Whether certificates of the RPKI may have the key: an RSA key with a modulus of 2,048 bits and the exponent
    /// 65537 (RFC 7935 3).
    pub fn is_rpki_key(&self) -> bool
        ensures { IsTrue result ↔ IsRpkiKey (key_of self.now.format (bits_of self.now.unused self.now.octets.now)) }
    {
        self.format.allow_rpki_cert() && self.unused == 0 && is_rsa_key(self.octets)
    }

    /// Whether certificates of BGPsec routers may have the key: an uncompressed point on P-256 (RFC 8608 3.1).
    pub fn is_router_key(&self) -> bool
        ensures { IsTrue result ↔ IsRouterKey (key_of self.now.format (bits_of self.now.unused self.now.octets.now)) }
    {
        self.format.allow_router_cert() && self.unused == 0 && is_point(self.octets)
    }
}
