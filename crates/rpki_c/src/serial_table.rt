//! A sorted table of the serial numbers of a revocation list, for many questions to it.

ghost use Rattle.std.specs.Prelude.{◌≡◌, ◌≤◌, ◌<◌, List, [], length, set};
ghost use Rattle.rpki_der.specs.Cursor.{left};
ghost use Rattle.rpki_der.specs.Fold.{TakesStep};
ghost use Rattle.rpki_der.specs.Number.{number_of};
ghost use Rattle.rpki_crl.specs.Crl.{Entry, entry, each_entry, is_revoked};
ghost use Rattle.rpki_crl.specs.CrlView.{Keeps};
ghost use Rattle.rpki_c.specs.Serial.{AreEntriesRead, AreTabled, AreWritten, IsSerialTable, IsTwenty};

use crate::status::TOO_SMALL;
use rpki_crl::CrlEntry;
use rpki_der::{Constructed, DecodeError};

/// Whether all of the octets are entries, in sequence. The error is that of the first that isn't one.
fn read_entries(octets: &[u8]) -> Result<(), DecodeError>
    ensures { AreEntriesRead octets.now result }
{
    let mut rest = Constructed::from_slice(octets);
    rest.fold_each(
        (),
        |rest, all|
            ensures { TakesStep Keeps entry all (left rest.old) (left rest.new) result }
        {
            match CrlEntry::take_from(rest) {
                Ok(_) => Ok(all),
                Err(e) => Err(e),
            }
        },
    )
}

/// Writes twenty octets to this place of the array, where it has the place.
fn put_serial(serials: &mut [[u8; 20]], number: usize, twenty: &[u8; 20])
    ensures twenty { IsTwenty twenty.now }
    ensures within { number < length serials.old → serials.new ≡ set serials.old number twenty.now }
    ensures beyond { length serials.old ≤ number → serials.new ≡ serials.old }
{
    if number < serials.len() {
        serials[number].copy_from_slice(twenty);
    }
}

/// Writes the twenty octets of each entry's serial number to the array, in order, as far as it has places. Returns how
/// many entries there are. Requires that the octets are entries.
fn write_serials(octets: &[u8], serials: &mut [[u8; 20]]) -> usize
    requires { (xs : List Entry) × each_entry.spells xs octets.now }
    ensures { AreWritten octets.now result serials.old serials.new }
{
    let mut rest = Constructed::from_slice(octets);
    let mut number = 0;
    'entries: while !rest.is_empty() {
        match CrlEntry::take_from(&mut rest) {
            Ok(entry) => {
                put_serial(serials, number, &entry.user_certificate.into_array());
                number += 1;
            }
            Err(_) => return number,
        }
    }
    number
}

/// Writes the serial numbers of the entries of a revocation list, which are all of the octets, to the front of the
/// array, sorted by their twenty octets: a table for [rpki_serials_have]. n entries take n log n steps. No octets are
/// no entries, those of a struct that is zeroed too.
///
/// The status is 0, and `count` says how many entries there are; the rest of the array is unchanged. It is `TOO_SMALL`
/// where the array has fewer places: `count` says how many there are, and the array is written over. Else it is the
/// number of the error of the first that is no entry, and neither is written. Nothing is allocated.
#[unsafe(no_mangle)]
pub extern "C" fn rpki_serials(octets: &[u8], serials: &mut [[u8; 20]], count: &mut usize) -> u8
    ensures tabled { AreTabled octets.now result serials.old serials.new count.old count.new }
    ensures zeroed { octets.now ≡ [] → (result ≡ 0) × (count.new ≡ 0) }
{
    match read_entries(octets) {
        Ok(()) => {}
        Err(e) => return e.number(),
    }
    let all = write_serials(octets, serials);
    *count = all;
    if serials.len() < all {
        return TOO_SMALL;
    }
    serials[..all].sort_unstable();
    0
}

/// Whether the table that [rpki_serials] wrote of a list's entries has this serial number: exactly where one of them is
/// of the certificate of this number. A table of n takes log n steps. Nothing is allocated.
#[unsafe(no_mangle)]
pub extern "C" fn rpki_serials_have(serials: &[[u8; 20]], serial: &[u8; 20]) -> bool
    ensures { (xs : List Entry) → IsSerialTable xs serials.now → result ≡ is_revoked (number_of serial.now) xs }
{
    serials.binary_search(serial).is_ok()
}
