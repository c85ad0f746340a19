//! Octets of numbers.

ghost use Rattle.std.specs.Prelude.{◌≤◌};
ghost use Rattle.rpki_der.specs.Number.{low_octets};
ghost use Rattle.rpki_der.specs.Written.{Writes};

use rpki_der::write_whole;
use std::io;
use std::io::Write;

/// Writes the last octets of a number, so many of them, the most significant first.
pub fn write_octets<W: Write>(out: &mut W, count: u8, number: u128) -> Result<(), io::Error>
    requires { count ≤ 16 }
    ensures { Writes (W.contents out.old) (W.contents out.new) result (low_octets count number) }
{
    let octets = number.to_be_bytes();
    write_whole(out, &octets[16 - usize::from(count)..])
}
