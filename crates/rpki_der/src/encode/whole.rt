//! Writing octets, to the last one.

ghost use Rattle.rpki_der.specs.Written.{WritesOrCuts};

use std::io;
use std::io::Write;

/// Writes all of the octets.
///
/// Ends at the first error of the writer, of any kind, `Interrupted` included, and returns it. A write that takes 0
/// octets is an error too, of the kind `WriteZero`. After an error the writer has received a proper prefix of the
/// octets.
pub fn write_whole<W: Write>(out: &mut W, octets: &[u8]) -> io::Result<()>
    ensures { WritesOrCuts (W.contents out.old) (W.contents out.new) result octets.now }
{
    let mut rest = octets;
    while !rest.is_empty() {
        let taken = out.write(rest)?;
        if taken == 0 {
            return Err(io::Error::from(io::ErrorKind::WriteZero));
        }
        rest = &rest[taken..];
    }
    Ok(())
}
