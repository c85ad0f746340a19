//! The values of a card's properties, by their kind.

ghost use Rattle.std.specs.Prelude.{◌≡◌, ◌++◌, IfOk, OnOk, map};
ghost use Rattle.std.specs.List.{flat_map};
ghost use Rattle.std.specs.Option.{option_map};
ghost use Rattle.rpki_records.specs.Card.{found_card, found_property};
ghost use Rattle.rpki_records.specs.CardValues.{is_kind, kind_number, properties, value_of, values_in};
ghost use Rattle.rpki_records.specs.Words.{where_there};

use crate::card::Card;
use crate::card_property::{CardProperty, PropertyKind};
use std::alloc::{AllocError, Global};

impl PropertyKind {
    /// Its place among the kinds.
    fn number(self) -> u8
        ensures { result ≡ kind_number self }
    {
        match self {
            PropertyKind::Name => 0,
            PropertyKind::Organization => 1,
            PropertyKind::Address => 2,
            PropertyKind::Telephone => 3,
            PropertyKind::Email => 4,
        }
    }

    /// Whether this is the other kind.
    fn is_kind(self, other: PropertyKind) -> bool
        ensures { result ≡ is_kind self other }
    {
        self.number() == other.number()
    }
}

/// Adds a property, where there is one.
fn push_property<'a>(
    properties: &mut Vec<CardProperty<'a>>,
    property: Option<CardProperty<'a>>,
) -> Result<(), AllocError>
    ensures { OnOk result (map found_property properties.new.items
        ≡ map found_property properties.old.items ++ where_there (option_map found_property property.entry)) }
{
    match property {
        Some(property) => {
            properties.push(property)?;
            Ok(())
        }
        None => Ok(()),
    }
}

/// The values of the properties of this kind, in order.
fn values_of<'a>(
    alloc: Global,
    properties: &[CardProperty<'a>],
    kind: PropertyKind,
) -> Result<Vec<&'a [u8]>, AllocError>
    ensures { IfOk result (λ v. map (λ value. value.now) v.items
        ≡ flat_map (value_of kind) (map found_property properties.now)) }
{
    let mut values = Vec::new(alloc);
    'properties: for property in properties {
        if kind.is_kind(property.kind) {
            values.push(property.value)?;
        }
    }
    Ok(values)
}

impl<'a> Card<'a> {
    /// All properties, in order.
    ///
    /// Returns `AllocError` if allocation fails.
    pub fn all_properties(self, alloc: Global) -> Result<Vec<CardProperty<'a>>, AllocError>
        ensures { IfOk result (λ v. map found_property v.items ≡ properties (found_card self.entry)) }
    {
        let mut properties = Vec::new(alloc);
        let mut cursor = self.properties();
        'properties: for number in 0..self.count {
            push_property(&mut properties, cursor.next_property())?;
        }
        Ok(properties)
    }

    /// The values of the properties of this kind, in order, as they are written.
    ///
    /// Returns `AllocError` if allocation fails.
    pub fn values(self, alloc: Global, kind: PropertyKind) -> Result<Vec<&'a [u8]>, AllocError>
        ensures { IfOk result (λ v. map (λ value. value.now) v.items ≡ values_in kind (found_card self.entry)) }
    {
        let properties = self.all_properties(alloc)?;
        values_of(alloc, properties.as_slice(), kind)
    }
}
