//! Lists of values, in sequence, and values that may be left out.

ghost use Rattle.std.specs.Prelude.{◌++◌};

use super::values::Values;
use std::io;
use std::io::Write;

/// The values of the first, and then those of the second.
#[tactic(auto, using(crate::proofs::WritingLaws::writes_then, crate::proofs::WritingLaws::beginning_more, crate::specs::ValueListLaws::values_append, crate::proofs::EncodeLaws::count_at_most))]
impl<A: Values, B: Values> Values for (A, B) {
    ghost use Rattle.rpki_der.specs.Tree.Tree.{Both};
    ghost use Rattle.rpki_der.specs.TreeLaws.{both_spelled, both_measured};

    ghost tree = { λ x. Both (A.tree x.0) (B.tree x.1) };

    ghost encoded = { λ x. A.encoded x.0 ++ B.encoded x.1 };

    ghost is_short = { λ x. A.is_short x.0 × B.is_short x.1 };

    ghost use Rattle.rpki_der.specs.ValueListLaws.{value_lists_append};

    ghost spelled = { λ x. both_spelled (A.encoded x.0) (B.encoded x.1) (A.tree x.0) (B.tree x.1) (A.spelled x.0)
        (B.spelled x.1) };

    ghost measured = { λ x. both_measured (A.measured x.0) (B.measured x.1) };

    ghost are_values = { λ x h. value_lists_append (A.encoded x.0) (B.encoded x.1) (A.are_values x.0 h.0)
        (B.are_values x.1 h.1) };

    fn fits(&self) -> bool {
        self.0.fits() && self.1.fits() && self.0.encoded_len() + self.1.encoded_len() < 1 << 63
    }

    fn count(&self) -> u64 {
        self.0.count() + self.1.count()
    }

    fn encoded_len(&self) -> u64 {
        self.0.encoded_len() + self.1.encoded_len()
    }

    fn write_encoded<W: Write>(&self, out: &mut W) -> Result<(), io::Error> {
        self.0.write_encoded(out)?;
        self.1.write_encoded(out)
    }
}

/// The values of the first, those of the second, and those of the third.
#[tactic(auto, using(crate::proofs::WritingLaws::writes_then, crate::proofs::WritingLaws::beginning_more, crate::proofs::WritingLaws::beginning_then, crate::specs::ValueListLaws::values_append, crate::proofs::EncodeLaws::count_at_most))]
impl<A: Values, B: Values, C: Values> Values for (A, B, C) {
    ghost use Rattle.rpki_der.specs.Tree.Tree.{Both};
    ghost use Rattle.rpki_der.specs.TreeLaws.{both_spelled, three_measured};

    ghost tree = { λ x. Both (Both (A.tree x.0) (B.tree x.1)) (C.tree x.2) };

    ghost encoded = { λ x. A.encoded x.0 ++ B.encoded x.1 ++ C.encoded x.2 };

    ghost is_short = { λ x. A.is_short x.0 × B.is_short x.1 × C.is_short x.2 };

    ghost use Rattle.rpki_der.specs.ValueListLaws.{value_lists_append};

    ghost spelled = { λ x. both_spelled (A.encoded x.0 ++ B.encoded x.1) (C.encoded x.2)
        (Both (A.tree x.0) (B.tree x.1)) (C.tree x.2)
        (both_spelled (A.encoded x.0) (B.encoded x.1) (A.tree x.0) (B.tree x.1) (A.spelled x.0) (B.spelled x.1))
        (C.spelled x.2) };

    ghost measured = { λ x. three_measured (A.measured x.0) (B.measured x.1) (C.measured x.2) };

    ghost are_values = { λ x h. value_lists_append (A.encoded x.0 ++ B.encoded x.1) (C.encoded x.2)
        (value_lists_append (A.encoded x.0) (B.encoded x.1) (A.are_values x.0 h.0) (B.are_values x.1 h.1))
        (C.are_values x.2 h.2) };

    fn fits(&self) -> bool {
        if !(self.0.fits() && self.1.fits() && self.2.fits()) {
            return false;
        }
        let first_two = self.0.encoded_len() + self.1.encoded_len();
        first_two < 1 << 63 && first_two + self.2.encoded_len() < 1 << 63
    }

    fn count(&self) -> u64 {
        self.0.count() + self.1.count() + self.2.count()
    }

    fn encoded_len(&self) -> u64 {
        self.0.encoded_len() + self.1.encoded_len() + self.2.encoded_len()
    }

    fn write_encoded<W: Write>(&self, out: &mut W) -> Result<(), io::Error> {
        self.0.write_encoded(out)?;
        self.1.write_encoded(out)?;
        self.2.write_encoded(out)
    }
}

/// Nothing, or the values.
#[tactic(auto, using(crate::specs::ValueListLaws::no_values))]
impl<V: Values> Values for Option<V> {
    ghost use Rattle.std.specs.Prelude.{None, Some};
    ghost use Rattle.rpki_der.specs.OptionalPart.{optional_octets, OfPart};
    ghost use Rattle.rpki_der.specs.ValueListLaws.{no_value_list};
    ghost use Rattle.rpki_der.specs.OptionalPart.{optional_tree};
    ghost use Rattle.rpki_der.specs.TreeLaws.{optional_spelled, optional_measured};

    ghost tree = { optional_tree V.tree };

    ghost encoded = { optional_octets V.encoded };

    ghost is_short = { OfPart V.is_short };

    ghost spelled = { optional_spelled V.encoded V.tree V.spelled };

    ghost measured = { optional_measured V.is_short V.tree V.measured };

    ghost are_values = { elim [ None ↦ λ _. no_value_list | Some v ↦ λ h. V.are_values v h ] };

    fn fits(&self) -> bool {
        match self {
            None => true,
            Some(values) => values.fits(),
        }
    }

    fn count(&self) -> u64 {
        match self {
            None => 0,
            Some(values) => values.count(),
        }
    }

    fn encoded_len(&self) -> u64 {
        match self {
            None => 0,
            Some(values) => values.encoded_len(),
        }
    }

    fn write_encoded<W: Write>(&self, out: &mut W) -> Result<(), io::Error> {
        match self {
            None => Ok(()),
            Some(values) => values.write_encoded(out),
        }
    }
}
