//! Names (RFC 5280 4.1.2.4, RFC 6487 4.4).

ghost use Rattle.std.specs.Prelude.{◌≡◌, List, IsTrue, IsOk, IfOk, IfErr, MatchResult};
ghost use Rattle.rpki_der.specs.Prelude.{text_of};
ghost use Rattle.rpki.specs.ErrorContent.{content_of};
ghost use Rattle.rpki.specs.NameRule.{BreaksRpkiRule, BreaksRouterRule, rpki_text, router_text};
ghost use Rattle.rpki.specs.declared.repository.x509.name.rule.NameRule.{NameRule};
ghost use Rattle.rpki_der.specs.Prelude.{left, Takes, TakesWhole, CanShare, IsValue};
ghost use Rattle.rpki.specs.Name.{Attribute, IsName, SpellsName, SpellsNameOctets};
ghost use Rattle.rpki.specs.NameFault.{name, walked_name};
ghost use Rattle.rpki.specs.StrictName.{IsRpkiName, IsRouterName};
ghost use Rattle.rpki.specs.StrictNameWithoutOrganization.{IsRpkiNameWithoutOrganization};
ghost use Rattle.rpki.specs.StrictNameWithoutOrganization.{IsRouterNameWithoutOrganization};

mod attributes;
mod grammar;
mod inspection;
mod octets;
mod rule;
mod table;
mod view;

pub use self::attributes::{AttributeView, Attributes};
use self::grammar::skip_name;
use self::inspection::Profile;
pub use self::octets::NameOctets;
pub use self::rule::NameRule;
pub use self::view::NameView;
use crate::repository::error::InspectionError;
use bytes::Bytes;
use rpki_der::{Captured, Constructed, DecodeError, Keep, Shared};
use std::alloc::{AllocError, Global};
use std::marker::Model;

/// A name, as the octets that it was read from, with the index of their headers. [NameOctets] has the octets alone.
#[derive(Debug, Drop)]
pub struct Name {
    captured: Captured,
}

impl Model for Name {
    ghost use Rattle.std.specs.Prelude.{ℕ, List};
    ghost use Rattle.rpki.specs.Name.{IsName};

    ghost Value = { List ℕ };

    ghost view = { λ x. x.captured };

    ghost invariant = { λ x. IsName x.captured };
}

impl Name {
    /// The name that was captured.
    pub(super) fn of_captured(captured: Captured) -> Name
        requires { IsName captured }
        ensures { result ≡ captured }
    {
        Name { captured }
    }

    /// A name, and nothing else. It shares the octets.
    ///
    /// The errors are those of [Name::take_from]; then `Trailing` if something follows the name.
    pub fn decode(alloc: Global, bytes: Bytes) -> Result<Name, DecodeError>
        ensures { TakesWhole (λ n. n) name bytes result }
    {
        Constructed::new(&bytes).whole_with(
            Shared::new(alloc, &bytes),
            |cons, keep|
                requires { CanShare keep (left cons.old) }
            { Name::take_from(keep, cons) },
        )
    }

    /// Moves past a name, and keeps nothing of it. Allocates nothing.
    ///
    /// The errors are those of [Name::take_from], but for `OutOfMemory`. An error leaves the cursor where it was.
    pub fn skip_in(cons: &mut Constructed<'_>) -> Result<(), DecodeError>
        ensures { Takes (λ _. tt) walked_name (left cons.old) (left cons.new) result }
    {
        skip_name(cons)
    }

    /// A name: a SEQUENCE of one relative distinguished name at least, each a SET of one attribute at least, each a
    /// SEQUENCE of an OBJECT IDENTIFIER and of one value. The order within a SET is free. An allocator copies the
    /// octets, and [Shared](rpki_der::Shared) shares them; requires that `keep` can keep parts of the rest.
    ///
    /// The errors are those of a SEQUENCE; then `Content` with the text `empty distinguished name` for an empty
    /// SEQUENCE, `empty relative distinguished name` for an empty SET and `invalid name` for an attribute without a
    /// value, those of the parts, `Trailing` for what follows an attribute's value, and `OutOfMemory` if allocation
    /// fails, only where an attribute has a value.
    pub fn take_from<K: Keep>(keep: K, cons: &mut Constructed<'_>) -> Result<Name, DecodeError>
        requires { K.holds keep (left cons.old) }
        ensures { Takes (λ n. n) name (left cons.old) (left cons.new) result }
    {
        let captured = cons.capture(keep, |cons| skip_name(cons))?;
        Ok(Name { captured })
    }

    /// The name in place, which borrows its octets.
    pub fn view(&self) -> NameView<'_>
        ensures { result ≡ self.now }
    {
        NameView::new(self.captured.as_slice())
    }

    /// Tests that the name is one of a certificate of the RPKI, as [Name::inspect_rpki] does; returns the rule that it
    /// breaks first, from the left. It goes over the index, and reads no header again.
    pub fn test_rpki(&self) -> Result<(), NameRule>
        ensures { MatchResult result (λ _. IsRpkiName self.now) (λ rule. BreaksRpkiRule rule self.now) }
    {
        Profile::Rpki.inspect(self.captured.indexed_cursor())
    }

    /// Tests that the name is one of a router's certificate, as [Name::inspect_router] does; returns the rule that it
    /// breaks first, from the left. It goes over the index, and reads no header again.
    pub fn test_router(&self) -> Result<(), NameRule>
        ensures { MatchResult result (λ _. IsRouterName self.now) (λ rule. BreaksRouterRule rule self.now) }
    {
        Profile::Router.inspect(self.captured.indexed_cursor())
    }

    /// Tests that the name is one of a certificate of the RPKI, unless `strict` is false: one common name, at most one
    /// serial number and at most one organization name, each a PrintableString, and no other attribute (RFC 6487 4.4,
    /// which names no organization). Strings of any size pass.
    ///
    /// The texts of the errors are `missing common name`, `multiple common names`, `multiple serial numbers` and
    /// `multiple organization names`, and `invalid name` for another attribute and for another string.
    pub fn inspect_rpki(&self, strict: bool) -> Result<(), InspectionError>
        ensures ok { IfOk result (λ _. IsTrue strict → IsRpkiName self.now) }
        ensures err { IfErr result (λ _. IsTrue strict × (IsRpkiName self.now → ⊥)) }
        // The text is that of the rule that is broken first.
        ensures reason { IfErr result (λ e. (rule : NameRule) × BreaksRpkiRule rule self.now
            × (text_of (content_of e) ≡ rpki_text rule)) }
        // A name that is strict without an organization name passes.
        ensures without_organization { IsRpkiNameWithoutOrganization self.now → IsOk result }
    {
        if !strict {
            return Ok(());
        }
        match self.test_rpki() {
            Ok(()) => Ok(()),
            Err(rule) => Err(rule.rpki_error()),
        }
    }

    /// Tests that the name is one of a router's certificate, unless `strict` is false: the same, and each value may be
    /// a UTF8String too (RFC 8209 3.1.1, which permits it for the common name).
    ///
    /// The texts of the errors are those of [Name::inspect_rpki], but `unpermitted string variant in common name` for
    /// another string.
    pub fn inspect_router(&self, strict: bool) -> Result<(), InspectionError>
        ensures ok { IfOk result (λ _. IsTrue strict → IsRouterName self.now) }
        ensures err { IfErr result (λ _. IsTrue strict × (IsRouterName self.now → ⊥)) }
        // The text is that of the rule that is broken first.
        ensures reason { IfErr result (λ e. (rule : NameRule) × BreaksRouterRule rule self.now
            × (text_of (content_of e) ≡ router_text rule)) }
        // A name that is strict without an organization name passes.
        ensures without_organization { IsRouterNameWithoutOrganization self.now → IsOk result }
    {
        if !strict {
            return Ok(());
        }
        match self.test_router() {
            Ok(()) => Ok(()),
            Err(rule) => Err(rule.router_error()),
        }
    }

    /// The octets of the name.
    pub fn as_slice(&self) -> &[u8]
        ensures { result.now ≡ self.now }
    {
        self.captured.as_slice()
    }

    /// An encoder for the name: its original octets.
    pub fn encode_ref(&self) -> &Captured
        ensures octets { result.now ≡ self.now }
        ensures named { IsName result.now }
        ensures one { IsValue result.now }
        // The encoding is read as the same name.
        ensures read_back { SpellsNameOctets self.now result.now }
        // They have one reading.
        ensures one_reading { (x y : List (List Attribute)) → SpellsName x result.now → SpellsName y result.now
            → x ≡ y }
    {
        &self.captured
    }

    /// Returns a copy of the name that shares its octets and copies the index of their headers.
    ///
    /// Returns `AllocError` if allocation fails.
    pub fn clone(&self) -> Result<Name, AllocError>
        ensures { IfOk result (λ n. n ≡ self.now) }
    {
        let captured = self.captured.clone()?;
        Ok(Name { captured })
    }
}

/// Two names are equal where their octets are.
impl PartialEq for Name {
    ghost use Rattle.std.specs.Prelude.{nat_eq};
    ghost use Rattle.std.specs.Cmp.{partial_equiv_from_equiv};
    ghost use Rattle.std.specs.Cmp.Lexicographic.{pointwise};
    ghost use Rattle.std.proofs.lemmas.Cmp.{nat_list_eq_equiv};

    ghost eq = { pointwise nat_eq };

    ghost laws = { partial_equiv_from_equiv nat_list_eq_equiv };

    fn eq(&self, other: &Self) -> bool {
        self.captured.as_slice() == other.captured.as_slice()
    }
}

impl Eq for Name {
    ghost use Rattle.std.proofs.lemmas.Cmp.{nat_list_eq_equiv};

    ghost laws = { nat_list_eq_equiv };
}
