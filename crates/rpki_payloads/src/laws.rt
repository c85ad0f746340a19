//! Laws of the definitions.

ghost use Rattle.std.specs.Prelude.{◌≡◌, ◌↔◌, IsTrue};
ghost use Rattle.rpki_payloads.specs.declared.exceptions_text.ExceptionsError.{ExceptionsError as Malformed};
ghost use Rattle.rpki_payloads.specs.declared.exceptions_text.Member.{Member as MemberName};
ghost use Rattle.rpki_payloads.specs.declared.filters.PrefixFilter.{PrefixFilter as OfPrefixes};
ghost use Rattle.rpki_payloads.specs.declared.form.Form.{Form as TextForm};
ghost use Rattle.rpki_payloads.specs.declared.key_filters.KeyFilter.{KeyFilter as OfKeys};
ghost use Rattle.rpki_payloads.specs.declared.router_key.RouterKey.{RouterKey as OfRouter};
ghost use Rattle.rpki_payloads.specs.declared.timed.TimedVrp.{TimedVrp as Timed};
ghost use Rattle.rpki_payloads.specs.declared.vap.CustomerProvider.{CustomerProvider as Pair};
ghost use Rattle.rpki_payloads.specs.declared.vrp.Vrp.{Vrp as Payload};
ghost use Rattle.rpki_payloads.specs.RouterKey.{key_cmp};
ghost use Rattle.rpki_payloads.specs.Timed.{timed_cmp};
ghost use Rattle.rpki_payloads.specs.Vap.{pair_cmp};
ghost use Rattle.rpki_payloads.specs.Vrp.{vrp_cmp};

use crate::exceptions_text::{ExceptionsError, Member};
use crate::filters::PrefixFilter;
use crate::form::Form;
use crate::key_filters::KeyFilter;
use crate::router_key::RouterKey;
use crate::timed::TimedVrp;
use crate::vap::CustomerProvider;
use crate::vrp::Vrp;

/// Payloads are equal exactly where they are one.
pub fn equal_payloads_are_one()
    ensures vrp { (x y : Payload) → IsTrue (⟦<Vrp as PartialEq>⟧.eq x y) ↔ (x ≡ y) }
    ensures timed { (x y : Timed) → IsTrue (⟦<TimedVrp as PartialEq>⟧.eq x y) ↔ (x ≡ y) }
    ensures pair { (x y : Pair) → IsTrue (⟦<CustomerProvider as PartialEq>⟧.eq x y) ↔ (x ≡ y) }
    ensures key { (x y : OfRouter) → IsTrue (⟦<RouterKey as PartialEq>⟧.eq x y) ↔ (x ≡ y) }
{}

/// Payloads are in the order of their fields.
pub fn payloads_are_in_order_of_fields()
    ensures vrp { (x y : Payload) → ⟦<Vrp as Ord>⟧.cmp x y ≡ vrp_cmp x y }
    ensures timed { (x y : Timed) → ⟦<TimedVrp as Ord>⟧.cmp x y ≡ timed_cmp x y }
    ensures pair { (x y : Pair) → ⟦<CustomerProvider as Ord>⟧.cmp x y ≡ pair_cmp x y }
    ensures key { (x y : OfRouter) → ⟦<RouterKey as Ord>⟧.cmp x y ≡ key_cmp x y }
{}

/// Filters, forms, and errors of exceptions, are equal exactly where they are one.
pub fn equal_filters_are_one()
    ensures prefixes { (x y : OfPrefixes) → IsTrue (⟦<PrefixFilter as PartialEq>⟧.eq x y) ↔ (x ≡ y) }
    ensures keys { (x y : OfKeys) → IsTrue (⟦<KeyFilter as PartialEq>⟧.eq x y) ↔ (x ≡ y) }
    ensures form { (x y : TextForm) → IsTrue (⟦<Form as PartialEq>⟧.eq x y) ↔ (x ≡ y) }
    ensures member { (x y : MemberName) → IsTrue (⟦<Member as PartialEq>⟧.eq x y) ↔ (x ≡ y) }
    ensures error { (x y : Malformed) → IsTrue (⟦<ExceptionsError as PartialEq>⟧.eq x y) ↔ (x ≡ y) }
{}
