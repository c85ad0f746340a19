//! The attributes that names may have, as a table (RFC 6487 4.4, RFC 8209 3.1.1).

ghost use Rattle.std.specs.Prelude.{◌≡◌, ◌<◌, ℕ, List, length, IfSome, IfNone};
ghost use Rattle.rpki.specs.NameTable.{HasRow, name_table, row_at};

use super::rule::NameRule;
use crate::oid::{AT_COMMON_NAME, AT_ORGANIZATION_NAME, AT_SERIAL_NUMBER};
use rpki_der::{ConstOid, Oid};

/// An attribute that names may have, once at most: a row of the table.
#[derive(Clone, Copy)]
pub(super) struct NameAttribute {
    /// Its type.
    identifier: ConstOid,
    /// The rule that a second one breaks.
    pub(super) second: NameRule,
}

/// The attributes that names may have, the common name first.
const ATTRIBUTES: [NameAttribute; 3] = [
    NameAttribute {
        identifier: AT_COMMON_NAME,
        second: NameRule::SecondCommonName,
    },
    NameAttribute {
        identifier: AT_SERIAL_NUMBER,
        second: NameRule::SecondSerialNumber,
    },
    NameAttribute {
        identifier: AT_ORGANIZATION_NAME,
        second: NameRule::SecondOrganizationName,
    },
];

/// Which of them were found, by their numbers.
pub(super) type Found = [bool; ATTRIBUTES.len()];

/// None of them.
pub(super) const NOTHING: Found = [false; ATTRIBUTES.len()];

impl NameAttribute {
    /// The number of the common name.
    pub(super) const COMMON_NAME: usize = 0;

    /// The number of the attribute of this type.
    pub(super) fn number_of(identifier: Oid<&[u8]>) -> Option<usize>
        ensures some { IfSome result (λ n. HasRow name_table n identifier.entry.0.now) }
        ensures none { IfNone result ((n : ℕ) → HasRow name_table n identifier.entry.0.now → ⊥) }
    {
        let mut number = 0;
        while number < ATTRIBUTES.len() {
            if ATTRIBUTES[number].identifier == identifier {
                return Some(number);
            }
            number += 1;
        }
        None
    }

    /// The attribute of this number.
    pub(super) fn of_number(number: usize) -> NameAttribute
        requires { number < length name_table }
        ensures { result.second ≡ (row_at name_table number).second }
    {
        ATTRIBUTES[number]
    }
}
