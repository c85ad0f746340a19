//! A structure of one's own: a version under a context tag, an object identifier and a list.
//!
//! ```text
//! NumberList ::= SEQUENCE {
//!     version  [0] EXPLICIT INTEGER (0..255),
//!     purpose  OBJECT IDENTIFIER,
//!     numbers  SEQUENCE OF INTEGER (0..18446744073709551615) }
//! ```

ghost use Rattle.rpki_der.specs.Prelude.{left, Takes, TakesAll};
ghost use Rattle.rpki_examples.specs.NumberList.{parts_of, version, each_number, numbers, parts, number_list};

use rpki::der::{Class, Constructed, DecodeError, Oid, Tag};
use std::alloc::Global;

/// Numbers for a purpose. The purpose borrows its octets.
#[derive(Drop)]
pub struct NumberList<'a> {
    /// The version of the structure.
    pub version: u8,
    /// What the numbers are for.
    pub purpose: Oid<&'a [u8]>,
    /// The numbers, in the order in which they are written.
    pub numbers: Vec<u64>,
}

/// The version: an INTEGER below 2^8 under the explicit context tag 0 (X.690 8.14).
fn take_version(cons: &mut Constructed<'_>) -> Result<u8, DecodeError>
    ensures { Takes (λ n. n) version (left cons.old) (left cons.new) result }
{
    cons.in_constructed(Tag::new(Class::Context, 0), |contents| contents.take_u8())
}

/// The numbers that these contents are, in sequence (X.690 8.10).
fn take_each_number(alloc: Global, contents: &mut Constructed<'_>) -> Result<Vec<u64>, DecodeError>
    ensures { TakesAll (λ v. v.items) each_number (left contents.old) (left contents.new) result }
{
    contents.take_each(alloc, |rest| rest.take_u64())
}

/// A SEQUENCE OF numbers.
fn take_numbers(alloc: Global, cons: &mut Constructed<'_>) -> Result<Vec<u64>, DecodeError>
    ensures { Takes (λ v. v.items) numbers (left cons.old) (left cons.new) result }
{
    cons.in_sequence(|contents| take_each_number(alloc, contents))
}

impl<'a> NumberList<'a> {
    /// Reads a list: a SEQUENCE of the three, and nothing else. Allocates for the numbers alone.
    ///
    /// Returns an error of [Constructed::in_sequence] if there is no SEQUENCE; else that of the first part that could
    /// not be read, or `Trailing` if more follows. An error leaves the cursor where it was.
    pub fn take_from(
        alloc: Global,
        cons: &mut Constructed<'a>,
    ) -> Result<NumberList<'a>, DecodeError>
        ensures { Takes parts_of number_list (left cons.old) (left cons.new) result }
    {
        cons.in_sequence(
            |contents|
                ensures { TakesAll parts_of parts (left contents.old) (left contents.new) result }
            {
                let version = take_version(contents)?;
                let purpose = contents.take_oid()?;
                let numbers = take_numbers(alloc, contents)?;
                Ok(NumberList {
                    version,
                    purpose,
                    numbers,
                })
            },
        )
    }
}
