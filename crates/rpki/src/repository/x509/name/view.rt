//! Names, read in place (RFC 5280 4.1.2.4, RFC 6487 4.4).

ghost use Rattle.std.specs.Prelude.{◌≡◌, List, MatchResult};
ghost use Rattle.rpki_der.specs.Prelude.{left, Takes, IsValue};
ghost use Rattle.rpki.specs.Name.{Attribute, IsName, SpellsName, SpellsNameOctets};
ghost use Rattle.rpki.specs.NameAttributes.{marked_attributes, AreLeft};
ghost use Rattle.rpki.specs.NameFault.{borrowed_name};
ghost use Rattle.rpki.specs.NameRule.{BreaksRpkiRule, BreaksRouterRule};
ghost use Rattle.rpki.specs.StrictName.{IsRpkiName, IsRouterName};

use super::attributes::Attributes;
use super::grammar::skip_name;
use super::inspection::Profile;
use super::octets::NameOctets;
use super::rule::NameRule;
use bytes::Bytes;
use rpki_der::{Constructed, DecodeError, StandingValue};
use std::marker::Model;

/// A name, as [Name](crate::repository::x509::Name), whose octets are borrowed from those that it was read from.
#[derive(Debug, Drop)]
pub struct NameView<'a> {
    octets: &'a [u8],
}

impl<'a> Model for NameView<'a> {
    ghost use Rattle.std.specs.Prelude.{ℕ, List};
    ghost use Rattle.rpki.specs.Name.{IsName};

    ghost Value = { List ℕ };

    ghost view = { λ x. x.octets.now };

    ghost invariant = { λ x. IsName x.octets.now };
}

impl<'a> NameView<'a> {
    /// The name that these octets are.
    pub fn new(octets: &'a [u8]) -> NameView<'a>
        requires { IsName octets.now }
        ensures { result ≡ octets.entry.now }
    {
        NameView { octets }
    }

    /// A name, with the grammar and the errors of [Name::take_from](crate::repository::x509::Name::take_from), but that
    /// it allocates nothing.
    pub fn take_from(cons: &mut Constructed<'a>) -> Result<NameView<'a>, DecodeError>
        ensures { Takes (λ n. n) borrowed_name (left cons.old) (left cons.new) result }
    {
        let mut after = *cons;
        skip_name(&mut after)?;
        let octets = cons.rest();
        let size = octets.len() - after.rest().len();
        *cons = after;
        Ok(NameView {
            octets: &octets[..size],
        })
    }

    /// The octets of the name.
    pub fn octets(&self) -> &'a [u8]
        ensures octets { result.now ≡ self.now }
        ensures named { IsName result.now }
        ensures one { IsValue result.now }
    {
        self.octets
    }

    /// An encoder for the name: its original octets.
    pub fn encode_ref(&self) -> StandingValue<'a>
        ensures octets { result ≡ self.now }
        ensures named { IsName result }
        ensures one { IsValue result }
        // The encoding is read as the same name.
        ensures read_back { SpellsNameOctets self.now result }
        // They have one reading.
        ensures one_reading { (x y : List (List Attribute)) → SpellsName x result → SpellsName y result → x ≡ y }
    {
        // its clauses say that these are a name, and one value
        StandingValue::new(self.octets())
    }

    /// The name, of octets that were kept. Requires that they are those of the name.
    pub fn kept(&self, octets: Bytes) -> NameOctets
        requires { octets ≡ self.now }
        ensures { result ≡ self.now }
    {
        // its clause says that these are a name
        let _ = self.octets();
        NameOctets::of_octets(octets)
    }

    /// The attributes of the name, in order: those of each relative distinguished name, of which the first is marked.
    /// Allocates nothing.
    pub fn attributes(&self) -> Attributes<'a>
        ensures attributes { (parts : List (List Attribute)) → SpellsName parts self.now
            → AreLeft result (marked_attributes parts) }
        ensures named { IsName self.now }
    {
        Attributes::of_name(self.octets)
    }

    /// A cursor on the name.
    fn cursor(&self) -> Constructed<'a>
        ensures octets { left result ≡ self.now }
        ensures named { IsName self.now }
    {
        Constructed::from_slice(self.octets)
    }

    /// Tests that the name is one of a certificate of the RPKI, as
    /// [Name::test_rpki](crate::repository::x509::Name::test_rpki) does; returns the rule that it breaks first, from
    /// the left. Allocates nothing.
    pub fn test_rpki(&self) -> Result<(), NameRule>
        ensures { MatchResult result (λ _. IsRpkiName self.now) (λ rule. BreaksRpkiRule rule self.now) }
    {
        Profile::Rpki.inspect(self.cursor())
    }

    /// Tests that the name is one of a router's certificate, as
    /// [Name::test_router](crate::repository::x509::Name::test_router) does; returns the rule that it breaks first,
    /// from the left. Allocates nothing.
    pub fn test_router(&self) -> Result<(), NameRule>
        ensures { MatchResult result (λ _. IsRouterName self.now) (λ rule. BreaksRouterRule rule self.now) }
    {
        Profile::Router.inspect(self.cursor())
    }
}
