//! Names that are kept as their octets (RFC 5280 4.1.2.4).

ghost use Rattle.std.specs.Prelude.{◌≡◌, IfOk};
ghost use Rattle.rpki_der.specs.Prelude.{left, Takes, IsValue};
ghost use Rattle.rpki.specs.Name.{IsName, SpellsNameOctets};
ghost use Rattle.rpki.specs.NameFault.{name};

use super::view::NameView;
use bytes::Bytes;
use rpki_der::{Constructed, DecodeError, Keep, StandingValue};
use std::alloc::AllocError;
use std::marker::Model;

/// A name, as [Name](crate::repository::x509::Name), whose octets are kept without an index: [NameOctets::view] reads
/// them in place.
#[derive(Debug, Drop)]
pub struct NameOctets {
    octets: Bytes,
}

impl Model for NameOctets {
    ghost use Rattle.std.specs.Prelude.{ℕ, List};
    ghost use Rattle.rpki.specs.Name.{IsName};

    ghost Value = { List ℕ };

    ghost view = { λ x. x.octets };

    ghost invariant = { λ x. IsName x.octets };
}

impl NameOctets {
    /// The name that these octets are.
    pub(super) fn of_octets(octets: Bytes) -> NameOctets
        requires { IsName octets }
        ensures { result ≡ octets }
    {
        NameOctets { octets }
    }

    /// A name, with the grammar and the errors of [Name::take_from](crate::repository::x509::Name::take_from). An
    /// allocator copies the octets, and [Shared](rpki_der::Shared) shares them; requires that `keep` can keep parts of
    /// the rest.
    pub fn take_from<K: Keep>(
        keep: K,
        cons: &mut Constructed<'_>,
    ) -> Result<NameOctets, DecodeError>
        requires { K.holds keep (left cons.old) }
        ensures { Takes (λ n. n) name (left cons.old) (left cons.new) result }
    {
        let mut after = *cons;
        let name = NameView::take_from(&mut after)?;
        let octets = cons.keep_part(keep, name.octets(), &after)?;
        *cons = after;
        Ok(name.kept(octets))
    }

    /// The name in place, which borrows its octets.
    pub fn view(&self) -> NameView<'_>
        ensures { result ≡ self.now }
    {
        NameView::new(self.octets.as_slice())
    }

    /// The octets of the name.
    pub fn as_slice(&self) -> &[u8]
        ensures { result.now ≡ self.now }
    {
        self.octets.as_slice()
    }

    /// An encoder for the name: its original octets.
    pub fn encode_ref(&self) -> StandingValue<'_>
        ensures octets { result ≡ self.now }
        ensures named { IsName result }
        ensures one { IsValue result }
        // The encoding is read as the same name.
        ensures read_back { SpellsNameOctets self.now result }
    {
        self.view().encode_ref()
    }

    /// Returns a copy of the name that shares its octets.
    ///
    /// Returns `AllocError` if allocation fails.
    pub fn clone(&self) -> Result<NameOctets, AllocError>
        ensures { IfOk result (λ n. n ≡ self.now) }
    {
        let octets = self.octets.clone()?;
        Ok(NameOctets { octets })
    }
}

/// Two names are equal where their octets are.
impl PartialEq for NameOctets {
    ghost use Rattle.std.specs.Prelude.{nat_eq};
    ghost use Rattle.std.specs.Cmp.{partial_equiv_from_equiv};
    ghost use Rattle.std.specs.Cmp.Lexicographic.{pointwise};
    ghost use Rattle.std.proofs.lemmas.Cmp.{nat_list_eq_equiv};

    ghost eq = { pointwise nat_eq };

    ghost laws = { partial_equiv_from_equiv nat_list_eq_equiv };

    fn eq(&self, other: &Self) -> bool {
        self.octets.as_slice() == other.octets.as_slice()
    }
}

impl Eq for NameOctets {
    ghost use Rattle.std.proofs.lemmas.Cmp.{nat_list_eq_equiv};

    ghost laws = { nat_list_eq_equiv };
}
