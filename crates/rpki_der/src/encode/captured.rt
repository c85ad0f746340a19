//! Captured values, encoded as their original octets.

ghost use Rattle.rpki_der.specs.Members.{IsValueList};

use super::values::Values;
use super::whole::write_whole;
use crate::captured::Captured;
use std::io;
use std::io::Write;

/// Encodes the values as their original octets.
impl<'a> Values for &'a Captured {
    ghost use Rattle.rpki_der.specs.Tree.Tree.{Captured as CapturedTree};
    ghost use Rattle.rpki_der.specs.TreeLaws.{as_it_is};
    ghost use Rattle.std.specs.Prelude.{refl};

    ghost tree = { λ x. CapturedTree x.now };

    ghost encoded = { λ x. x.now };

    ghost is_short = { λ x. IsValueList x.now };

    ghost spelled = { λ _. refl };

    ghost measured = { λ _. as_it_is };

    ghost are_values = { λ x h. h };

    fn fits(&self) -> bool {
        // their clauses say that these are values, and fewer than 2^63 octets
        let _ = self.values();
        let _ = self.as_slice();
        true
    }

    fn count(&self) -> u64 {
        self.values() as u64
    }

    fn encoded_len(&self) -> u64 {
        self.as_slice().len() as u64
    }

    fn write_encoded<W: Write>(&self, out: &mut W) -> Result<(), io::Error> {
        write_whole(out, self.as_slice())
    }
}
