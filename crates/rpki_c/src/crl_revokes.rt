//! Whether a revocation list has a certificate.

ghost use Rattle.rpki_c.specs.Revoked.{IsRevokedTold};

use crate::crl::crl_part_number;
use crate::status::{CONTENT, REVOKED};
use rpki_crl::{CrlView, entries_contain};
use rpki_time::Serial;

/// Reads a revocation list, as `rpki_crl` does, and says whether it has the certificate of this serial number, which is
/// given by its twenty octets, the most significant first. Whether the list is in force is not looked at.
///
/// The status is 0, where the list doesn't have it. Else it is, in this order: that of `rpki_crl`; `CONTENT` where the
/// first bit of the serial number is set; `REVOKED`. So octets of no list, as those of a struct that is zeroed, are
/// refused. Nothing is allocated.
#[unsafe(no_mangle)]
pub extern "C" fn rpki_crl_revokes(octets: &[u8], serial: &[u8; 20]) -> u8
    ensures { IsRevokedTold octets.now serial.now result }
{
    let list = match CrlView::read(octets) {
        Ok(list) => list,
        Err(wrong) => return crl_part_number(wrong.part),
    };
    let Ok(number) = Serial::from_array(*serial) else {
        return CONTENT;
    };
    match entries_contain(list.tbs.revoked_certs.octets, number) {
        Ok(true) => REVOKED,
        Ok(false) => 0,
        Err(e) => e.number(),
    }
}
