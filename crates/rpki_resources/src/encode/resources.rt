//! Resources as they are written: the contents of the two extensions (RFC 3779 2.2.3, 3.2.3).

ghost use Rattle.std.specs.Prelude.{◌≡◌, ◌≢◌, ◌↔◌, ℕ, List, IfSome, IfNone, IsTrue};
ghost use Rattle.rpki_der.specs.Number.{AreOctets};
ghost use Rattle.rpki_resources.specs.Address.{family_octets};
ghost use Rattle.rpki_resources.specs.Kept.{SpellsIp, SpellsAs};
ghost use Rattle.rpki_resources.specs.Encoded.{IsBlockOf, AreBlocksOf};
ghost use Rattle.rpki_resources.specs.EncodedResources.{IsOfKind, IsShortChoice, IsShortNamed, choice_octets};
ghost use Rattle.rpki_resources.specs.EncodedResources.{named_octets, CanWriteIp, ip_octets, IsShortIp, CanWriteAs};
ghost use Rattle.rpki_resources.specs.EncodedResources.{as_identifiers_octets, IsShortAs, IsIpApart, IsAsApart};

use super::blocks::BlocksEncoder;
use super::either::Either;
use crate::block::Block;
use crate::choice::ResourcesChoice;
use crate::family::AddressFamily;
use crate::kind::ResourceKind;
use crate::resources::{AsResources, IpResources};
use rpki_der::{Around, Class, Frame, Primitive, PrimitiveContent, Sequence, Tag, Values};

/// An encoder for resources of one kind: NULL for those of the issuer, or a SEQUENCE of blocks.
pub type ChoiceEncoder<'a> = Either<Primitive<()>, Sequence<BlocksEncoder<'a>>>;

/// An encoder for the resources of a family of addresses, after its name.
pub type FamilyEncoder<'a> = Sequence<(Primitive<&'static [u8]>, ChoiceEncoder<'a>)>;

/// An encoder for the contents of the extension of IP address blocks.
pub type IpResourcesEncoder<'a> = Sequence<(Option<FamilyEncoder<'a>>, Option<FamilyEncoder<'a>>)>;

/// An encoder for the contents of the extension of AS identifiers.
pub type AsResourcesEncoder<'a> = Sequence<Around<AsNumbersFrame, ChoiceEncoder<'a>>>;

/// The explicit tag 0, under which AS numbers are (RFC 3779 3.2.3.1).
#[derive(Clone, Copy)]
pub struct AsNumbersFrame;

impl Frame for AsNumbersFrame {
    ghost use Rattle.std.specs.Prelude.{true};
    ghost use Rattle.rpki_resources.specs.Extension.{as_numbers};
    ghost use Rattle.rpki_resources.specs.EncodedResourcesLaws.{as_numbers_legal};

    ghost tag = { as_numbers };

    ghost constructed = { true };

    ghost legal = { as_numbers_legal };

    fn tag() -> Tag {
        Tag::new(Class::Context, 0)
    }

    fn is_constructed() -> bool {
        true
    }
}

/// Whether the numbers of the block are of the kind, one at least.
fn is_block_of(kind: ResourceKind, block: Block) -> bool
    ensures { IsTrue result ↔ IsBlockOf kind block }
{
    if block.low > block.high {
        return false;
    }
    match kind {
        ResourceKind::Addresses(AddressFamily::Ipv6) => true,
        ResourceKind::Addresses(AddressFamily::Ipv4) => block.high < 1 << 32,
        ResourceKind::AsNumbers => block.high < 1 << 32,
    }
}

/// Whether the numbers of each block are of the kind, one at least.
pub(crate) fn are_blocks_of(kind: ResourceKind, blocks: &[Block]) -> bool
    ensures { IsTrue result ↔ AreBlocksOf kind blocks.now }
{
    let mut rest = blocks;
    'each: while let Some((first, following)) = rest.split_first() {
        if !is_block_of(kind, *first) {
            return false;
        }
        rest = following;
    }
    true
}

/// Whether the resources can be written as those of the kind: blocks are one at least, and their numbers are of the
/// kind.
fn are_of_kind(kind: ResourceKind, choice: &ResourcesChoice) -> bool
    ensures { IsTrue result ↔ IsOfKind kind choice.now }
{
    match choice {
        ResourcesChoice::Missing => true,
        ResourcesChoice::Inherit => true,
        ResourcesChoice::Blocks(blocks) => {
            !blocks.is_empty() && are_blocks_of(kind, blocks.as_slice())
        }
    }
}

/// An encoder for the resources; None where they are missing.
fn encode_choice(kind: ResourceKind, choice: &ResourcesChoice) -> Option<ChoiceEncoder<'_>>
    requires { IsOfKind kind choice.now }
    ensures octets { ⟦<Option<ChoiceEncoder<'static>> as Values>⟧.encoded result ≡ choice_octets kind choice.now }
    ensures short { ⟦<Option<ChoiceEncoder<'static>> as Values>⟧.is_short result ↔ IsShortChoice kind choice.now }
    ensures some { IfSome result (λ _. choice.now ≢ ResourcesChoice.Missing) }
    ensures none { IfNone result (choice.now ≡ ResourcesChoice.Missing) }
{
    match choice {
        ResourcesChoice::Missing => None,
        ResourcesChoice::Inherit => Some(Either::One(().encode())),
        ResourcesChoice::Blocks(blocks) => {
            let listed = BlocksEncoder::new(kind, blocks.as_slice());
            Some(Either::Other(Sequence::new(listed)))
        }
    }
}

/// The octets that name the family (RFC 3779 2.2.3.3).
fn name_of(family: AddressFamily) -> &'static [u8]
    ensures { result.now ≡ family_octets family }
{
    match family {
        AddressFamily::Ipv4 => &[0, 1],
        AddressFamily::Ipv6 => &[0, 2],
    }
}

/// An encoder for the resources after the name of the family; None where they are missing.
fn encode_named(family: AddressFamily, choice: &ResourcesChoice) -> Option<FamilyEncoder<'_>>
    requires { IsOfKind (ResourceKind.Addresses family) choice.now }
    ensures octets { ⟦<Option<FamilyEncoder<'static>> as Values>⟧.encoded result ≡ named_octets family choice.now }
    ensures short { ⟦<Option<FamilyEncoder<'static>> as Values>⟧.is_short result ↔ IsShortNamed family choice.now }
    ensures some { IfSome result (λ _. choice.now ≢ ResourcesChoice.Missing) }
    ensures none { IfNone result (choice.now ≡ ResourcesChoice.Missing) }
{
    match encode_choice(ResourceKind::Addresses(family), choice) {
        None => None,
        Some(resources) => Some(Sequence::new((name_of(family).encode(), resources))),
    }
}

impl IpResources {
    /// An encoder for the contents of the extension of IP address blocks (RFC 3779 2.2.3), which borrows the resources.
    /// It allocates nothing.
    ///
    /// Returns None where both families are missing, or one has no block or a number that is no address of it: no
    /// contents say that. The encoder fits exactly where the contents have fewer than 2^32 octets.
    pub fn encode_ref(&self) -> Option<IpResourcesEncoder<'_>>
        ensures octets { IfSome result (λ e. ⟦<IpResourcesEncoder<'static> as Values>⟧.encoded e ≡ ip_octets self.now) }
        ensures short { IfSome result (λ e. ⟦<IpResourcesEncoder<'static> as Values>⟧.is_short e ↔ IsShortIp self.now) }
        ensures some { IfSome result (λ _. CanWriteIp self.now) }
        // What contents say can be written.
        ensures written { (p : List ℕ) → SpellsIp self.now p → CanWriteIp self.now }
        // What is written is read as these resources.
        ensures read_back { CanWriteIp self.now → IsShortIp self.now → SpellsIp self.now (ip_octets self.now) }
        // No other octets are read as these resources.
        ensures only { (p : List ℕ) → AreOctets p → SpellsIp self.now p → p ≡ ip_octets self.now }
        // Resources have the same encoding exactly where they are the same.
        ensures same { IsIpApart self.now }
        ensures none { IfNone result (CanWriteIp self.now → ⊥) }
    {
        if !are_of_kind(ResourceKind::Addresses(AddressFamily::Ipv4), &self.v4) {
            return None;
        }
        if !are_of_kind(ResourceKind::Addresses(AddressFamily::Ipv6), &self.v6) {
            return None;
        }
        let v4 = encode_named(AddressFamily::Ipv4, &self.v4);
        let v6 = encode_named(AddressFamily::Ipv6, &self.v6);
        if v4.is_none() && v6.is_none() {
            return None;
        }
        Some(Sequence::new((v4, v6)))
    }
}

impl AsResources {
    /// An encoder for the contents of the extension of AS identifiers (RFC 3779 3.2.3), which borrows the resources. It
    /// allocates nothing.
    ///
    /// Returns None where the numbers are missing, or there is no block, or a number of 2^32 or more: no contents say
    /// that. The encoder fits exactly where the contents have fewer than 2^32 octets.
    pub fn encode_ref(&self) -> Option<AsResourcesEncoder<'_>>
        ensures octets { IfSome result (λ e. ⟦<AsResourcesEncoder<'static> as Values>⟧.encoded e
            ≡ as_identifiers_octets self.now) }
        ensures short { IfSome result (λ e. ⟦<AsResourcesEncoder<'static> as Values>⟧.is_short e ↔ IsShortAs self.now) }
        ensures some { IfSome result (λ _. CanWriteAs self.now) }
        // What contents say can be written.
        ensures written { (p : List ℕ) → SpellsAs self.now p → CanWriteAs self.now }
        // What is written is read as these resources.
        ensures read_back { CanWriteAs self.now → IsShortAs self.now
            → SpellsAs self.now (as_identifiers_octets self.now) }
        // No other octets are read as these resources.
        ensures only { (p : List ℕ) → AreOctets p → SpellsAs self.now p → p ≡ as_identifiers_octets self.now }
        // Resources have the same encoding exactly where they are the same.
        ensures same { IsAsApart self.now }
        ensures none { IfNone result (CanWriteAs self.now → ⊥) }
    {
        if !are_of_kind(ResourceKind::AsNumbers, &self.numbers) {
            return None;
        }
        match encode_choice(ResourceKind::AsNumbers, &self.numbers) {
            None => None,
            Some(numbers) => Some(Sequence::new(Around::new(numbers))),
        }
    }
}
