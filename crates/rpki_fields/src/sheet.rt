//! Sheets: what is shown of an object, as fields and as items that it lists.

ghost use Rattle.std.specs.Prelude.{◌≡◌, IfOk, true, false};
ghost use Rattle.rpki_fields.specs.Field.{field_parts};
ghost use Rattle.rpki_fields.specs.Sheet.{plain_sheet, list_sheet, listing_parts, sheet_behind, sheet_with};

use crate::field::{Field, push_field};
use std::alloc::{AllocError, Global};
use std::marker::Model;

/// An item of a list: fields of its own.
#[derive(Drop)]
pub struct Item {
    fields: Vec<Field>,
}

impl Model for Item {
    ghost use Rattle.std.specs.Prelude.{List};
    ghost use Rattle.rpki_fields.specs.Field.{FieldParts};

    ghost Value = { List FieldParts };

    ghost view = { λ x. x.fields.items };
}

impl Item {
    /// The item of these fields.
    pub fn new(fields: Vec<Field>) -> Item
        ensures { result ≡ fields.items }
    {
        Item { fields }
    }

    /// The fields.
    pub fn fields(&self) -> &[Field]
        ensures { result.now ≡ self.now }
    {
        self.fields.as_slice()
    }
}

/// Items under a label.
#[derive(Drop)]
pub struct Listing {
    label: Vec<u8>,
    items: Vec<Item>,
    in_lines: bool,
}

impl Model for Listing {
    ghost use Rattle.rpki_fields.specs.Sheet.{ListingParts, listing_parts};

    ghost Value = { ListingParts };

    ghost view = { λ x. listing_parts x.label.items x.items.items x.in_lines };
}

impl Listing {
    /// The label.
    pub fn label(&self) -> &[u8]
        ensures { result.now ≡ self.now.label }
    {
        self.label.as_slice()
    }

    /// The items, in order.
    pub fn items(&self) -> &[Item]
        ensures { result.now ≡ self.now.items }
    {
        self.items.as_slice()
    }

    /// Whether lines have the items, or JSON alone.
    pub fn is_in_lines(&self) -> bool
        ensures { result ≡ self.now.in_lines }
    {
        self.in_lines
    }
}

/// What is shown of an object: fields, and the items that it lists.
#[derive(Drop)]
pub struct Sheet {
    fields: Vec<Field>,
    listings: Vec<Listing>,
}

impl Model for Sheet {
    ghost use Rattle.rpki_fields.specs.Sheet.{SheetParts, sheet_parts};

    ghost Value = { SheetParts };

    ghost view = { λ x. sheet_parts x.fields.items x.listings.items };
}

impl Sheet {
    /// The sheet of these fields alone.
    pub fn plain(fields: Vec<Field>) -> Sheet
        ensures { result ≡ plain_sheet fields.items }
    {
        let listings = Vec::new(*fields.allocator());
        Sheet { fields, listings }
    }

    /// The sheet of these fields, and of these items under a label.
    ///
    /// Returns `AllocError` if allocation fails.
    pub fn of_list(
        alloc: Global,
        fields: Vec<Field>,
        label: &[u8],
        items: Vec<Item>,
    ) -> Result<Sheet, AllocError>
        ensures { IfOk result (λ s. s ≡ list_sheet fields.items label.now items.items) }
    {
        let label = Vec::from_slice(alloc, label)?;
        let mut listings = Vec::new(alloc);
        listings.push(Listing {
            label,
            items,
            in_lines: true,
        })?;
        Ok(Sheet { fields, listings })
    }

    /// The same with items at the end, under a label, which lines have or JSON alone.
    ///
    /// Returns `AllocError` if allocation fails.
    pub fn with_listing(
        self,
        alloc: Global,
        label: &[u8],
        items: Vec<Item>,
        in_lines: bool,
    ) -> Result<Sheet, AllocError>
        ensures { IfOk result (λ s. s ≡ sheet_with (listing_parts label.now items.items in_lines) self) }
    {
        let Sheet {
            fields,
            mut listings,
        } = self;
        let label = Vec::from_slice(alloc, label)?;
        listings.push(Listing {
            label,
            items,
            in_lines,
        })?;
        Ok(Sheet { fields, listings })
    }

    /// The same with a field in front.
    ///
    /// Returns `AllocError` if allocation fails.
    pub fn behind(self, alloc: Global, label: &[u8], value: &[u8]) -> Result<Sheet, AllocError>
        ensures { IfOk result (λ s. s ≡ sheet_behind (field_parts label.now value.now) self) }
    {
        let Sheet {
            fields: mut others,
            listings,
        } = self;
        let mut fields = Vec::new(alloc);
        push_field(&mut fields, label, value)?;
        fields.append(&mut others)?;
        Ok(Sheet { fields, listings })
    }

    /// The fields.
    pub fn fields(&self) -> &[Field]
        ensures { result.now ≡ self.now.fields }
    {
        self.fields.as_slice()
    }

    /// The lists of items, in order.
    pub fn listings(&self) -> &[Listing]
        ensures { result.now ≡ self.now.listings }
    {
        self.listings.as_slice()
    }
}
