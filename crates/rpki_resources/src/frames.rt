//! Resources in place whose blocks were not read yet: only the values around their lists.

ghost use Rattle.std.specs.Prelude.{◌≡◌, ◌↔◌, true, IfSome, IfNone};
ghost use Rattle.rpki_der.specs.Cursor.{left};
ghost use Rattle.rpki_der.specs.Reading.{SpellsNothing};
ghost use Rattle.rpki_der.specs.Values.{SpellsContents};
ghost use Rattle.rpki_resources.specs.declared.kind.ResourceKind.{ResourceKind};
ghost use Rattle.rpki_resources.specs.declared.family.AddressFamily.{AddressFamily};
ghost use Rattle.rpki_resources.specs.declared.choice.ResourcesChoice.{ResourcesChoice};
ghost use Rattle.rpki_resources.specs.declared.resources.IpResources.{IpResources};
ghost use Rattle.rpki_resources.specs.declared.resources.AsResources.{AsResources};
ghost use Rattle.rpki_resources.specs.Kept.{SpellsIp, SpellsAs};
ghost use Rattle.rpki_resources.specs.Unread.{IsUnread, IsUnreadOf, IsNamedUnread, AreUnreadIp, IsAround, SpellsKept};
ghost use Rattle.rpki_resources.specs.Unread.{AreNamedKept, SpellsNamedKept, AreFamiliesKept};

use crate::family::AddressFamily;
use crate::ip_reading::take_family;
use rpki_der::{Class, Constructed, Tag};

/// Resources of one kind, in place.
#[derive(Clone, Copy)]
pub enum Unread<'a> {
    /// None: the kind isn't named.
    Missing,
    /// Those of the issuer.
    Inherit,
    /// The blocks that these octets are, if they are any.
    Listed(Constructed<'a>),
}

/// The resources of both families of addresses, in place.
#[derive(Clone, Copy)]
pub struct UnreadIp<'a> {
    /// Those of IP version 4.
    pub v4: Unread<'a>,
    /// Those of IP version 6.
    pub v6: Unread<'a>,
}

/// The contents of the constructed value of this tag that all of the octets are.
fn contents_of<'a>(octets: Constructed<'a>, tag: Tag) -> Option<Constructed<'a>>
    ensures some { IfSome result (λ c. IsAround tag (left octets.entry) (left c)) }
    ensures none { IfNone result (SpellsNothing (SpellsContents tag true) (left octets.entry)) }
{
    let mut rest = octets;
    match rest.take_constructed_if(tag) {
        Ok(contents) => {
            if rest.is_empty() {
                return Some(contents);
            }
            None
        }
        Err(_) => None,
    }
}

/// The choice that all of the octets are: NULL, or a SEQUENCE.
fn find_choice<'a>(octets: Constructed<'a>) -> Option<Unread<'a>>
    ensures some { IfSome result (λ u. (kind : ResourceKind) (v : ResourcesChoice)
        → SpellsKept kind v (left octets.entry) ↔ IsUnread kind u v) }
    ensures none { IfNone result ((kind : ResourceKind) → SpellsNothing (SpellsKept kind) (left octets.entry)) }
{
    if octets.has_tag(Tag::NULL) {
        let mut rest = octets;
        match rest.take_null() {
            Ok(_) => {
                if rest.is_empty() {
                    return Some(Unread::Inherit);
                }
                return None;
            }
            Err(_) => return None,
        }
    }
    match contents_of(octets, Tag::SEQUENCE) {
        Some(contents) => Some(Unread::Listed(contents)),
        None => None,
    }
}

/// The name of a family, and the choice that all octets after it are.
fn find_named<'a>(octets: Constructed<'a>) -> Option<(AddressFamily, Unread<'a>)>
    ensures some { IfSome result (λ x. IsNamedUnread (left octets.entry) x) }
    ensures none { IfNone result ((f : AddressFamily) → SpellsNothing (AreNamedKept f) (left octets.entry)) }
{
    let mut rest = octets;
    match take_family(&mut rest) {
        Ok(family) => match find_choice(rest) {
            Some(choice) => Some((family, choice)),
            None => None,
        },
        Err(_) => None,
    }
}

/// The addresses of IP version 6, which all of the octets are.
fn find_second<'a>(octets: Constructed<'a>) -> Option<Unread<'a>>
    ensures some { IfSome result (λ u. IsUnreadOf AddressFamily.Ipv6 (left octets.entry) u) }
    ensures none { IfNone result (SpellsNothing (SpellsNamedKept AddressFamily.Ipv6) (left octets.entry)) }
{
    let Some(contents) = contents_of(octets, Tag::SEQUENCE) else {
        return None;
    };
    match find_named(contents) {
        Some((family, choice)) => match family {
            AddressFamily::Ipv6 => Some(choice),
            AddressFamily::Ipv4 => None,
        },
        None => None,
    }
}

/// The families that all of the octets are: one or both, IP version 4 first.
fn find_families<'a>(octets: Constructed<'a>) -> Option<UnreadIp<'a>>
    ensures some { IfSome result (λ x. (v : IpResources) → AreFamiliesKept v (left octets.entry) ↔ AreUnreadIp x v) }
    ensures none { IfNone result (SpellsNothing AreFamiliesKept (left octets.entry)) }
{
    let mut rest = octets;
    let Ok(first) = rest.take_sequence() else {
        return None;
    };
    let Some((family, choice)) = find_named(first) else {
        return None;
    };
    match family {
        AddressFamily::Ipv6 => {
            if rest.is_empty() {
                return Some(UnreadIp {
                    v4: Unread::Missing,
                    v6: choice,
                });
            }
            None
        }
        AddressFamily::Ipv4 => {
            if rest.is_empty() {
                return Some(UnreadIp {
                    v4: choice,
                    v6: Unread::Missing,
                });
            }
            match find_second(rest) {
                Some(second) => Some(UnreadIp {
                    v4: choice,
                    v6: second,
                }),
                None => None,
            }
        }
    }
}

/// The lists of the extension of IP address blocks, whose contents the octets are, where all but the blocks is as in
/// [take_ip_resources](crate::ip_reading::take_ip_resources).
pub fn find_ip<'a>(octets: &'a [u8]) -> Option<UnreadIp<'a>>
    ensures some { IfSome result (λ x. (v : IpResources) → SpellsIp v octets.now ↔ AreUnreadIp x v) }
    ensures none { IfNone result (SpellsNothing SpellsIp octets.now) }
{
    let Some(contents) = contents_of(Constructed::from_slice(octets), Tag::SEQUENCE) else {
        return None;
    };
    find_families(contents)
}

/// The list of the extension of AS identifiers, whose contents the octets are, where all but the blocks is as in
/// [take_as_resources](crate::choice_reading::take_as_resources).
pub fn find_as<'a>(octets: &'a [u8]) -> Option<Unread<'a>>
    ensures some { IfSome result (λ u. (v : AsResources) → SpellsAs v octets.now
        ↔ IsUnread ResourceKind.AsNumbers u v.numbers) }
    ensures none { IfNone result (SpellsNothing SpellsAs octets.now) }
{
    let Some(contents) = contents_of(Constructed::from_slice(octets), Tag::SEQUENCE) else {
        return None;
    };
    let Some(numbers) = contents_of(contents, Tag::new(Class::Context, 0)) else {
        return None;
    };
    find_choice(numbers)
}
