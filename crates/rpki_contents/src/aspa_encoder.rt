//! Attestations of providers as they are written.

ghost use Rattle.std.specs.Prelude.{◌≡◌, ◌≤◌, ◌<◌, ◌^◌, ◌↔◌, ◌∷◌, [], length, IfSome, IfNone};
ghost use Rattle.rpki_der.specs.Prelude.{integer, IsValueList, Writes};
ghost use Rattle.rpki_resources.specs.Encoded.{as_number_octets};
ghost use Rattle.rpki_contents.specs.Aspa.{aspa};
ghost use Rattle.rpki_contents.specs.EncodedAspa.{IsShortAspa, aspa_octets, numbers_octets, version_contents};

use crate::aspa::AsProviderAttestation;
use rpki_der::{
    Around, Class, Frame, Primitive, PrimitiveContent, Sequence, Tag, Values, write_whole,
};
use rpki_resources::Asn;
use std::io;
use std::io::Write;
use std::marker::Model;

/// An encoder for an attestation of providers.
pub type AspaEncoder<'a> = Sequence<
    (
        Around<VersionFrame, Primitive<AspaVersion>>,
        Primitive<Asn>,
        Sequence<NumbersEncoder<'a>>,
    ),
>;

/// The version of an attestation, which is 1.
#[derive(Drop)]
pub struct AspaVersion;

/// INTEGER: 1.
impl PrimitiveContent for AspaVersion {
    ghost plain = { integer };

    const TAG: Tag = Tag::INTEGER;

    ghost contents = { λ _. version_contents };

    fn encoded_len(&self) -> u64 {
        1
    }

    fn write_encoded<W: Write>(&self, out: &mut W) -> Result<(), io::Error> {
        write_whole(out, &[1])
    }

    fn plain_tag(&self) -> Tag {
        Self::TAG
    }
}

/// The explicit tag 0, under which the version is.
#[derive(Clone, Copy)]
pub struct VersionFrame;

impl Frame for VersionFrame {
    ghost use Rattle.std.specs.Prelude.{true};
    ghost use Rattle.rpki_contents.specs.Aspa.{version_tag};
    ghost use Rattle.rpki_contents.specs.EncodedAspaLaws.{version_legal};

    ghost tag = { version_tag };

    ghost constructed = { true };

    ghost legal = { version_legal };

    fn tag() -> Tag {
        Tag::new(Class::Context, 0)
    }

    fn is_constructed() -> bool {
        true
    }
}

/// How many octets the number has as it is written.
fn number_len(number: u32) -> u64
    ensures { result ≡ length (as_number_octets number) }
{
    Asn(number).encode().encoded_len()
}

/// How many octets the numbers have as they are written; None where they are 2^63 or more.
fn numbers_len(numbers: &[u32]) -> Option<u64>
    ensures some { IfSome result (λ n. (n ≡ length (numbers_octets numbers.now)) × (n < 2 ^ 63)) }
    ensures none { IfNone result (2 ^ 63 ≤ length (numbers_octets numbers.now)) }
{
    let mut total: u64 = 0;
    let mut rest = numbers;
    'each: while let Some((first, following)) = rest.split_first() {
        total += number_len(*first);
        if total >= 1 << 63 {
            return None;
        }
        rest = following;
    }
    Some(total)
}

/// Writes the numbers, in sequence.
fn write_numbers<W: Write>(out: &mut W, numbers: &[u32]) -> Result<(), io::Error>
    ensures { Writes (W.contents out.old) (W.contents out.new) result (numbers_octets numbers.now) }
{
    let mut rest = numbers;
    'each: while let Some((first, following)) = rest.split_first() {
        Asn(*first).encode().write_encoded(out)?;
        rest = following;
    }
    Ok(())
}

/// An encoder for AS numbers, in sequence; it borrows them. It allocates nothing.
#[derive(Drop)]
pub struct NumbersEncoder<'a> {
    numbers: &'a [u32],
}

impl<'a> Model for NumbersEncoder<'a> {
    ghost use Rattle.std.specs.Prelude.{List, ℕ};

    ghost Value = { List ℕ };

    ghost view = { λ x. x.numbers.now };
}

/// The numbers, in sequence.
impl<'a> Values for NumbersEncoder<'a> {
    ghost use Rattle.std.specs.Prelude.{refl};
    ghost use Rattle.rpki_der.specs.Tree.Tree.{Captured};
    ghost use Rattle.rpki_der.specs.TreeLaws.{as_it_is};

    ghost tree = { λ x. Captured (numbers_octets x) };

    ghost encoded = { numbers_octets };

    ghost is_short = { λ x. IsValueList (numbers_octets x) };

    ghost spelled = { λ _. refl };

    ghost measured = { λ _. as_it_is };

    ghost are_values = { λ x h. h };

    fn fits(&self) -> bool {
        match numbers_len(self.numbers) {
            Some(_) => true,
            None => false,
        }
    }

    fn count(&self) -> u64 {
        self.numbers.len() as u64
    }

    fn encoded_len(&self) -> u64 {
        match numbers_len(self.numbers) {
            Some(length) => length,
            None => 0,
        }
    }

    fn write_encoded<W: Write>(&self, out: &mut W) -> Result<(), io::Error> {
        write_numbers(out, self.numbers)
    }
}

impl AsProviderAttestation {
    /// An encoder for the attestation, which borrows its providers. It allocates nothing.
    ///
    /// The encoder fits exactly where the contents of the attestation have fewer than 2^32 octets.
    pub fn encode_ref(&self) -> AspaEncoder<'_>
        ensures octets { ⟦<AspaEncoder<'static> as Values>⟧.encoded result ≡ aspa_octets self.now }
        ensures short { ⟦<AspaEncoder<'static> as Values>⟧.is_short result ↔ IsShortAspa self.now }
        // What is written is read as this attestation.
        ensures read_back { IsShortAspa self.now → aspa.spells self.now (aspa_octets self.now) }
    {
        Sequence::new((
            Around::new(AspaVersion.encode()),
            Asn(self.customer_as()).encode(),
            Sequence::new(NumbersEncoder {
                numbers: self.providers(),
            }),
        ))
    }
}
