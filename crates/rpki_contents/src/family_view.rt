//! The prefixes of route origin attestations by family, read in place without memory (RFC 9582 4.3).

ghost use Rattle.std.specs.Prelude.{◌≡◌, []};
ghost use Rattle.rpki_der.specs.Prelude.{left, octet_string, optional_of};
ghost use Rattle.rpki_parse.specs.Words.{kinds, parsed};
ghost use Rattle.rpki_parse.specs.Leaf.{leaf_at};
ghost use Rattle.rpki_contents.specs.Roa.{alone, together};
ghost use Rattle.rpki_contents.specs.RoaView.{blocks_at, both_of, family_at, family_in, family_of, in_order};
ghost use Rattle.rpki_contents.specs.RoaView.{listed, no_more, one_more, some_at};

use crate::addresses::count_prefixes;
use rpki_der::{Constructed, DecodeError};
use rpki_parse::{finish, take_octets, take_sequence};
use rpki_resources::AddressFamily;

/// One family, whose prefixes are borrowed from the octets that they were read from.
#[derive(Clone, Copy)]
pub(crate) struct FamilyView<'a> {
    /// The family.
    pub(crate) family: AddressFamily,
    /// The prefixes, in sequence.
    pub(crate) addresses: &'a [u8],
    /// How many prefixes there are.
    pub(crate) count: usize,
}

/// The prefixes of both families, in sequence; no octets for a family that isn't there.
#[derive(Clone, Copy)]
pub(crate) struct BothView<'a> {
    /// Those of IP version 4.
    pub(crate) v4: &'a [u8],
    /// Those of IP version 6.
    pub(crate) v6: &'a [u8],
    /// How many prefixes of IP version 4 there are.
    pub(crate) v4_count: usize,
    /// How many prefixes of IP version 6 there are.
    pub(crate) v6_count: usize,
}

/// The family that the octets name.
#[inline(always)]
fn family_of(octets: &[u8]) -> Option<AddressFamily>
    ensures { result ≡ family_in octets.now }
{
    match octets {
        [0, 1] => Some(AddressFamily::Ipv4),
        [0, 2] => Some(AddressFamily::Ipv6),
        _ => None,
    }
}

/// The name of a family.
#[inline(always)]
#[tactic(auto, unfolding(rpki_parse::specs::Leaf::leaf_at))]
fn take_name(cons: &mut Constructed<'_>) -> Result<AddressFamily, DecodeError>
    ensures { parsed (λ x. x) result (left cons.new) ≡ leaf_at octet_string family_in (left cons.old) }
{
    let octets = take_octets(cons)?;
    match family_of(octets) {
        Some(family) => Ok(family),
        None => Err(DecodeError::content("unknown address family")),
    }
}

/// A SEQUENCE of the name of a family and of its prefixes.
#[inline(always)]
#[tactic(auto, unfolding(crate::specs::RoaView::family_at))]
fn take_family_view<'a>(cons: &mut Constructed<'a>) -> Result<FamilyView<'a>, DecodeError>
    ensures { parsed family_of result (left cons.new) ≡ family_at (left cons.old) }
{
    let mut after = *cons;
    let mut contents = take_sequence(&mut after)?;
    let family = take_name(&mut contents)?;
    let listed = take_sequence(&mut contents)?;
    let count = count_prefixes(listed, family)?;
    finish(contents)?;
    *cons = after;
    Ok(FamilyView {
        family,
        addresses: listed.rest(),
        count,
    })
}

/// The first family: there is one at least.
#[inline(always)]
fn take_first_family<'a>(cons: &mut Constructed<'a>) -> Result<FamilyView<'a>, DecodeError>
    ensures { parsed family_of result (left cons.new) ≡ some_at family_at (left cons.old) }
{
    if cons.is_empty() {
        return Err(DecodeError::content("invalid address families"));
    }
    let found = take_family_view(cons)?;
    Ok(found)
}

/// One more family, where something remains.
#[inline(always)]
fn take_opt_family<'a>(cons: &mut Constructed<'a>) -> Result<Option<FamilyView<'a>>, DecodeError>
    ensures { parsed (optional_of family_of) result (left cons.new) ≡ one_more family_at (left cons.old) }
{
    if cons.is_empty() {
        return Ok(None);
    }
    let found = take_family_view(cons)?;
    Ok(Some(found))
}

/// Returns Ok if nothing remains, as after two families.
#[inline(always)]
fn no_more(contents: Constructed<'_>) -> Result<(), DecodeError>
    ensures { kinds result ≡ no_more (left contents.entry) }
{
    if contents.is_empty() {
        return Ok(());
    }
    Err(DecodeError::content("invalid address families"))
}

/// The prefixes of the one family that there is.
#[inline(always)]
fn alone<'a>(only: FamilyView<'a>) -> BothView<'a>
    ensures { both_of result ≡ alone (listed [] 0) (family_of only.entry) }
{
    match only.family {
        AddressFamily::Ipv4 => BothView {
            v4: only.addresses,
            v6: &[],
            v4_count: only.count,
            v6_count: 0,
        },
        AddressFamily::Ipv6 => BothView {
            v4: &[],
            v6: only.addresses,
            v4_count: 0,
            v6_count: only.count,
        },
    }
}

/// The prefixes of two families: one of each, and where it is `strict`, IP version 4 first.
#[inline(always)]
fn together<'a>(strict: bool, first: FamilyView<'a>, second: FamilyView<'a>) -> Option<BothView<'a>>
    ensures { optional_of both_of result ≡ together strict (family_of first.entry) (family_of second.entry) }
{
    match (first.family, second.family) {
        (AddressFamily::Ipv4, AddressFamily::Ipv6) => Some(BothView {
            v4: first.addresses,
            v6: second.addresses,
            v4_count: first.count,
            v6_count: second.count,
        }),
        (AddressFamily::Ipv6, AddressFamily::Ipv4) => {
            if strict {
                return None;
            }
            Some(BothView {
                v4: second.addresses,
                v6: first.addresses,
                v4_count: second.count,
                v6_count: first.count,
            })
        }
        _ => None,
    }
}

/// The prefixes of one family or of two.
#[inline(always)]
fn in_order<'a>(
    strict: bool,
    first: FamilyView<'a>,
    second: Option<FamilyView<'a>>,
) -> Option<BothView<'a>>
    ensures { optional_of both_of result
        ≡ in_order strict (family_of first.entry) (optional_of family_of second.entry) }
{
    match second {
        Some(second) => together(strict, first, second),
        None => Some(alone(first)),
    }
}

/// A SEQUENCE of one family or of two.
#[inline(always)]
#[tactic(auto, unfolding(crate::specs::RoaView::blocks_at))]
pub(crate) fn take_blocks<'a>(
    cons: &mut Constructed<'a>,
    strict: bool,
) -> Result<BothView<'a>, DecodeError>
    ensures { parsed both_of result (left cons.new) ≡ blocks_at strict (left cons.old) }
{
    let mut after = *cons;
    let mut families = take_sequence(&mut after)?;
    let first = take_first_family(&mut families)?;
    let second = take_opt_family(&mut families)?;
    no_more(families)?;
    match in_order(strict, first, second) {
        Some(both) => {
            *cons = after;
            Ok(both)
        }
        None => Err(DecodeError::content("invalid address families")),
    }
}
