//! Route origin attestations as they are written (RFC 9582 4).

ghost use Rattle.std.specs.Prelude.{◌≡◌, ◌≤◌, ◌<◌, ◌^◌, ◌↔◌, Bool, length, IfSome, IfNone};
ghost use Rattle.rpki_der.specs.Prelude.{IsValueList, Writes};
ghost use Rattle.rpki_resources.specs.Address.{width, family_octets};
ghost use Rattle.rpki_contents.specs.RoaAddress.{AreAddressesIn, IsAddressIn};
ghost use Rattle.rpki_contents.specs.Roa.{fields_of, roa};
ghost use Rattle.rpki_contents.specs.EncodedRoa.{IsShortFamily, IsShortRoa, families_contents, families_octets};
ghost use Rattle.rpki_contents.specs.EncodedRoa.{family_prefixes, max_length_octets, prefix_octets, prefixes_octets};
ghost use Rattle.rpki_contents.specs.EncodedRoa.{roa_octets};

use crate::roa::RouteOriginAttestation;
use crate::roa_address::RoaIpAddress;
use crate::roa_family::are_none;
use rpki_der::{Primitive, PrimitiveContent, Sequence, Values};
use rpki_resources::{AddressEncoder, AddressFamily, Asn};
use std::io;
use std::io::Write;
use std::marker::Model;

/// An encoder for a prefix: its bits, and its maximum length, which may be left out.
pub type RoaAddressEncoder = Sequence<(AddressEncoder, Option<Primitive<Asn>>)>;

/// An encoder for a family: its name and its prefixes.
pub type RoaFamilyEncoder<'a> = Sequence<(Primitive<&'static [u8]>, Sequence<PrefixesEncoder<'a>>)>;

/// An encoder for the families, of which one may be missing.
pub type RoaFamiliesEncoder<'a> = Sequence<
    (Option<RoaFamilyEncoder<'a>>, Option<RoaFamilyEncoder<'a>>),
>;

/// An encoder for a route origin attestation; it borrows the prefixes.
pub type RoaEncoder<'a> = Sequence<(Primitive<Asn>, RoaFamiliesEncoder<'a>)>;

/// An encoder for a maximum length, where there is one: an INTEGER.
fn encode_max_length(max_length: Option<u8>) -> Option<Primitive<Asn>>
    ensures octets { ⟦<Option<Primitive<Asn>> as Values>⟧.encoded result ≡ max_length_octets max_length }
    ensures short { ⟦<Option<Primitive<Asn>> as Values>⟧.is_short result }
{
    match max_length {
        Some(most) => Some(Asn(u32::from(most)).encode()),
        None => None,
    }
}

/// An encoder for a prefix.
fn encode_prefix(address: RoaIpAddress) -> RoaAddressEncoder
    requires { IsAddressIn 128 address }
    ensures octets { ⟦<RoaAddressEncoder as Values>⟧.encoded result ≡ prefix_octets address }
    ensures short { ⟦<RoaAddressEncoder as Values>⟧.is_short result }
{
    Sequence::new((
        address.prefix.encode(),
        encode_max_length(address.max_length),
    ))
}

/// How many octets the prefix has as it is written.
fn prefix_len(address: RoaIpAddress) -> u64
    requires { IsAddressIn 128 address }
    ensures { result ≡ length (prefix_octets address) }
{
    encode_prefix(address).encoded_len()
}

/// How many octets the prefixes have as they are written; None where they are 2^63 or more.
fn prefixes_len(addresses: &[RoaIpAddress]) -> Option<u64>
    requires { AreAddressesIn 128 addresses.now }
    ensures some { IfSome result (λ n. (n ≡ length (prefixes_octets addresses.now)) × (n < 2 ^ 63)) }
    ensures none { IfNone result (2 ^ 63 ≤ length (prefixes_octets addresses.now)) }
{
    let mut total: u64 = 0;
    let mut rest = addresses;
    'each: while let Some((first, following)) = rest.split_first() {
        total += prefix_len(*first);
        if total >= 1 << 63 {
            return None;
        }
        rest = following;
    }
    Some(total)
}

/// Writes the prefixes, in sequence.
fn write_prefixes<W: Write>(out: &mut W, addresses: &[RoaIpAddress]) -> Result<(), io::Error>
    requires { AreAddressesIn 128 addresses.now }
    ensures { Writes (W.contents out.old) (W.contents out.new) result (prefixes_octets addresses.now) }
{
    let mut rest = addresses;
    'each: while let Some((first, following)) = rest.split_first() {
        encode_prefix(*first).write_encoded(out)?;
        rest = following;
    }
    Ok(())
}

/// An encoder for prefixes, in sequence; it borrows them. It allocates nothing.
#[derive(Drop)]
pub struct PrefixesEncoder<'a> {
    addresses: &'a [RoaIpAddress],
}

impl<'a> Model for PrefixesEncoder<'a> {
    ghost use Rattle.std.specs.Prelude.{List};
    ghost use Rattle.rpki_contents.specs.declared.roa_address.RoaIpAddress.{RoaIpAddress};
    ghost use Rattle.rpki_contents.specs.RoaAddress.{AreAddressesIn};

    ghost Value = { List RoaIpAddress };

    ghost view = { λ x. x.addresses.now };

    ghost invariant = { λ x. AreAddressesIn 128 x.addresses.now };
}

/// The prefixes, in sequence.
impl<'a> Values for PrefixesEncoder<'a> {
    ghost use Rattle.std.specs.Prelude.{refl};
    ghost use Rattle.rpki_der.specs.Tree.Tree.{Captured};
    ghost use Rattle.rpki_der.specs.TreeLaws.{as_it_is};

    ghost tree = { λ x. Captured (prefixes_octets x) };

    ghost encoded = { prefixes_octets };

    ghost is_short = { λ x. IsValueList (prefixes_octets x) };

    ghost spelled = { λ _. refl };

    ghost measured = { λ _. as_it_is };

    ghost are_values = { λ x h. h };

    fn fits(&self) -> bool {
        match prefixes_len(self.addresses) {
            Some(_) => true,
            None => false,
        }
    }

    fn count(&self) -> u64 {
        self.addresses.len() as u64
    }

    fn encoded_len(&self) -> u64 {
        match prefixes_len(self.addresses) {
            Some(length) => length,
            None => 0,
        }
    }

    fn write_encoded<W: Write>(&self, out: &mut W) -> Result<(), io::Error> {
        write_prefixes(out, self.addresses)
    }
}

/// An encoder for prefixes, in sequence.
#[tactic(auto, using(crate::proofs::RoaWritingLaws::value_list))]
fn encode_prefixes(addresses: &[RoaIpAddress]) -> PrefixesEncoder<'_>
    requires { AreAddressesIn 128 addresses.now }
    ensures octets { ⟦<PrefixesEncoder<'static> as Values>⟧.encoded result ≡ prefixes_octets addresses.now }
    ensures short { ⟦<PrefixesEncoder<'static> as Values>⟧.is_short result }
{
    PrefixesEncoder { addresses }
}

/// The octets that name the family (RFC 9582 4.3.1).
fn name_of(family: AddressFamily) -> &'static [u8]
    ensures { result.now ≡ family_octets family }
{
    match family {
        AddressFamily::Ipv4 => &[0, 1],
        AddressFamily::Ipv6 => &[0, 2],
    }
}

/// An encoder for the name of the family and its prefixes; None where there is no prefix.
fn encode_family(family: AddressFamily, addresses: &[RoaIpAddress]) -> Option<RoaFamilyEncoder<'_>>
    requires { AreAddressesIn (width family) addresses.now }
    ensures octets { ⟦<Option<RoaFamilyEncoder<'static>> as Values>⟧.encoded result
        ≡ family_prefixes family addresses.now }
    ensures short { ⟦<Option<RoaFamilyEncoder<'static>> as Values>⟧.is_short result
        ↔ IsShortFamily family addresses.now }
{
    if are_none(addresses) {
        return None;
    }
    let listed = Sequence::new(encode_prefixes(addresses));
    Some(Sequence::new((name_of(family).encode(), listed)))
}

impl RouteOriginAttestation {
    /// An encoder for the families.
    fn encode_families(&self) -> RoaFamiliesEncoder<'_>
        ensures octets { ⟦<RoaFamiliesEncoder<'static> as Values>⟧.encoded result ≡ families_octets self.now }
        ensures short { ⟦<RoaFamiliesEncoder<'static> as Values>⟧.is_short result
            ↔ (length (families_contents self.now) < 2 ^ 32) }
    {
        let v4 = encode_family(AddressFamily::Ipv4, self.v4_addrs());
        let v6 = encode_family(AddressFamily::Ipv6, self.v6_addrs());
        Sequence::new((v4, v6))
    }

    /// An encoder for the attestation, which borrows its prefixes. The version, which is 0, is left out; IP version 4
    /// is before IP version 6, and a family without prefixes is left out (RFC 9582 4.3). It allocates nothing.
    ///
    /// The encoder fits exactly where the contents of the attestation have fewer than 2^32 octets.
    pub fn encode_ref(&self) -> RoaEncoder<'_>
        ensures octets { ⟦<RoaEncoder<'static> as Values>⟧.encoded result ≡ roa_octets self.now }
        ensures short { ⟦<RoaEncoder<'static> as Values>⟧.is_short result ↔ IsShortRoa self.now }
        // What is written is read as this attestation, strictly and not.
        ensures read_back { (strict : Bool) → IsShortRoa self.now
            → (roa strict).spells (fields_of self.now) (roa_octets self.now) }
    {
        Sequence::new((Asn(self.as_id()).encode(), self.encode_families()))
    }
}
