//! Lists that are written, one item after another.

ghost use Rattle.std.specs.Prelude.{◌≡◌, ◌<◌, ◌^◌, length, IfSome, IfNone};
ghost use Rattle.rpki_der.specs.Members.{AreValues};
ghost use Rattle.rpki_der.specs.Written.{Writes};
ghost use Rattle.rpki_der.specs.Listed.{listed_octets, EachHas};

use crate::encode::values::Values;
use std::io;
use std::io::Write;
use std::marker::Model;

/// How many octets the items have as they are written; None where one of them doesn't fit, or they have 2^63 octets or
/// more.
fn listed_len<T: Values>(items: &[T]) -> Option<u64>
    ensures some { IfSome result (λ n. EachHas T.is_short items.now × (n ≡ length (listed_octets T.encoded items.now))
        × (n < 2 ^ 63)) }
    ensures none { IfNone result (EachHas T.is_short items.now → length (listed_octets T.encoded items.now) < 2 ^ 63
        → ⊥) }
{
    let mut total: u64 = 0;
    let mut rest = items;
    'each: while let Some((first, following)) = rest.split_first() {
        if !first.fits() {
            return None;
        }
        total += first.encoded_len();
        if total >= 1 << 63 {
            return None;
        }
        rest = following;
    }
    Some(total)
}

/// How many values the items are.
fn listed_count<T: Values>(items: &[T]) -> u64
    requires { EachHas T.is_short items.now × (length (listed_octets T.encoded items.now) < 2 ^ 63) }
    ensures { AreValues result (listed_octets T.encoded items.now) }
{
    let mut total: u64 = 0;
    let mut rest = items;
    'each: while let Some((first, following)) = rest.split_first() {
        total += first.count();
        rest = following;
    }
    total
}

/// Writes the items, in sequence.
fn write_listed<T: Values, W: Write>(out: &mut W, items: &[T]) -> Result<(), io::Error>
    requires { EachHas T.is_short items.now × (length (listed_octets T.encoded items.now) < 2 ^ 63) }
    ensures { Writes (W.contents out.old) (W.contents out.new) result (listed_octets T.encoded items.now) }
{
    let mut rest = items;
    'each: while let Some((first, following)) = rest.split_first() {
        first.write_encoded(out)?;
        rest = following;
    }
    Ok(())
}

/// An encoder for items, in sequence; it borrows them. It allocates nothing.
#[derive(Drop)]
pub struct Each<'a, T> {
    items: &'a [T],
}

impl<'a, T> Model for Each<'a, T> {
    ghost use Rattle.std.specs.Prelude.{List};

    ghost Value = { List T };

    ghost view = { λ x. x.items.now };
}

impl<'a, T> Each<'a, T> {
    /// The encoder for these items.
    pub fn new(items: &'a [T]) -> Each<'a, T>
        ensures { result ≡ items.now }
    {
        Each { items }
    }
}

/// The items, in sequence.
impl<'a, T: Values> Values for Each<'a, T> {
    ghost use Rattle.rpki_der.specs.Listed.{listed_tree};
    ghost use Rattle.rpki_der.specs.ListedLaws.{listed_spelled, listed_measured, listed_values};

    ghost tree = { listed_tree T.tree };

    ghost encoded = { listed_octets T.encoded };

    ghost is_short = { EachHas T.is_short };

    ghost spelled = { listed_spelled T.encoded T.tree T.spelled };

    ghost measured = { listed_measured T.is_short T.tree T.measured };

    ghost are_values = { listed_values T.encoded T.is_short T.are_values };

    fn fits(&self) -> bool {
        match listed_len(self.items) {
            Some(_) => true,
            None => false,
        }
    }

    fn count(&self) -> u64 {
        listed_count(self.items)
    }

    fn encoded_len(&self) -> u64 {
        match listed_len(self.items) {
            Some(length) => length,
            None => 0,
        }
    }

    fn write_encoded<W: Write>(&self, out: &mut W) -> Result<(), io::Error> {
        write_listed(out, self.items)
    }
}
