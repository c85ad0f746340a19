//! Laws of the definitions.

ghost use Rattle.std.specs.Prelude.{◌≡◌, ◌↔◌, IsTrue};
ghost use Rattle.rpki_records.specs.declared.card.CardPart.{CardPart as WrongCard};
ghost use Rattle.rpki_records.specs.declared.card_octets.OctetClass.{OctetClass as ClassOfOctets};
ghost use Rattle.rpki_records.specs.declared.card_property.PropertyKind.{PropertyKind as Kind};
ghost use Rattle.rpki_records.specs.declared.checklist.ChecklistPart.{ChecklistPart as WrongChecklist};
ghost use Rattle.rpki_records.specs.declared.tak.TakPart.{TakPart as WrongTak};

use crate::card::CardPart;
use crate::card_octets::OctetClass;
use crate::card_property::PropertyKind;
use crate::checklist::ChecklistPart;
use crate::tak::TakPart;

/// Malformed parts, kinds of properties and classes of octets are equal exactly where they are one.
pub fn equal_parts_are_one()
    ensures card { (p q : WrongCard) → IsTrue (⟦<CardPart as PartialEq>⟧.eq p q) ↔ (p ≡ q) }
    ensures property { (p q : Kind) → IsTrue (⟦<PropertyKind as PartialEq>⟧.eq p q) ↔ (p ≡ q) }
    ensures octets { (p q : ClassOfOctets) → IsTrue (⟦<OctetClass as PartialEq>⟧.eq p q) ↔ (p ≡ q) }
    ensures checklist { (p q : WrongChecklist) → IsTrue (⟦<ChecklistPart as PartialEq>⟧.eq p q) ↔ (p ≡ q) }
    ensures keys { (p q : WrongTak) → IsTrue (⟦<TakPart as PartialEq>⟧.eq p q) ↔ (p ≡ q) }
{}
