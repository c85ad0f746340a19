//! A SEQUENCE of one's own: an entry of a revocation list.

ghost use Rattle.rpki_der.specs.Prelude.{left, Takes, TakesAll};
ghost use Rattle.rpki_examples.specs.Revoked.{entry_of, entry_parts, entry};

use rpki::der::{Constructed, DecodeError};
use rpki::repository::x509::{Serial, Time};

/// A certificate that is revoked: its serial number, and when it was revoked (RFC 5280 5.1.2.6). In the RPKI an entry
/// has no extensions (RFC 6487 5).
#[derive(Clone, Copy)]
pub struct RevokedCertificate {
    /// The serial number.
    pub serial: Serial,
    /// When it was revoked.
    pub date: Time,
}

impl RevokedCertificate {
    /// Reads an entry: a SEQUENCE of a serial number and a time, and nothing else. It allocates nothing.
    ///
    /// The errors of [Constructed::in_sequence] where there is none; else those of the first part that could not be
    /// read, or `Trailing` where more follows. An error leaves the cursor where it was.
    pub fn take_from(cons: &mut Constructed<'_>) -> Result<RevokedCertificate, DecodeError>
        ensures { Takes entry_of entry (left cons.old) (left cons.new) result }
    {
        cons.in_sequence(
            |contents|
                ensures { TakesAll entry_of entry_parts (left contents.old) (left contents.new) result }
            {
                let serial = match Serial::take_from(contents) {
                    Ok(serial) => serial,
                    Err(e) => return Err(e),
                };
                let date = match Time::take_from(contents) {
                    Ok(date) => date,
                    Err(e) => return Err(e),
                };
                Ok(RevokedCertificate { serial, date })
            },
        )
    }
}
