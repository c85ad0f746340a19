//! A value that was read or made, encoded as its original octets, in place.

ghost use Rattle.std.specs.Prelude.{◌≡◌};
ghost use Rattle.rpki_der.specs.Members.{IsValue, IsValueList};

use super::values::Values;
use super::whole::write_whole;
use std::io;
use std::io::Write;
use std::marker::Model;

/// One value, which is written as it is: its octets, borrowed.
#[derive(Drop)]
pub struct StandingValue<'a> {
    octets: &'a [u8],
}

impl<'a> Model for StandingValue<'a> {
    ghost use Rattle.std.specs.Prelude.{ℕ, List};
    ghost use Rattle.rpki_der.specs.Members.{IsValue};

    ghost Value = { List ℕ };

    ghost view = { λ x. x.octets.now };

    ghost invariant = { λ x. IsValue x.octets.now };
}

impl<'a> StandingValue<'a> {
    /// An encoder for the octets. Requires that they are one value, with everything nested in it.
    pub fn new(octets: &'a [u8]) -> StandingValue<'a>
        requires { IsValue octets.now }
        ensures { result ≡ octets.entry.now }
    {
        StandingValue { octets }
    }

    /// The octets.
    pub fn octets(&self) -> &'a [u8]
        ensures octets { result.now ≡ self.now }
        ensures value { IsValue self.now }
    {
        self.octets
    }
}

/// Encodes the value as its original octets.
impl<'a> Values for StandingValue<'a> {
    ghost use Rattle.std.specs.Prelude.{refl};
    ghost use Rattle.rpki_der.specs.Tree.Tree.{Captured as CapturedTree};
    ghost use Rattle.rpki_der.specs.TreeLaws.{as_it_is};

    ghost tree = { λ x. CapturedTree x };

    ghost encoded = { λ x. x };

    ghost is_short = { λ x. IsValueList x };

    ghost spelled = { λ _. refl };

    ghost measured = { λ _. as_it_is };

    ghost are_values = { λ x h. h };

    fn fits(&self) -> bool {
        // its clauses say that these are a value, and fewer than 2^63 octets
        let _ = self.octets();
        true
    }

    fn count(&self) -> u64 {
        let _ = self.octets();
        1
    }

    fn encoded_len(&self) -> u64 {
        self.octets().len() as u64
    }

    fn write_encoded<W: Write>(&self, out: &mut W) -> Result<(), io::Error> {
        write_whole(out, self.octets())
    }
}
