//! The entries of a revocation list, read in place without memory (RFC 5280 5.1.2.6).

ghost use Rattle.rpki_der.specs.Cursor.{left};
ghost use Rattle.rpki_der.specs.Fold.{TakesStep};
ghost use Rattle.rpki_crl.specs.Crl.{entry};
ghost use Rattle.rpki_crl.specs.CrlView.{FindsSerial, Keeps, Looks, ReadsEntries, TakesRevoked};

use crate::crl_entry::CrlEntry;
use crate::short_entry::after_short_entry;
use rpki::der::{Constructed, DecodeError, Section, Tag};
use rpki::repository::x509::Serial;

/// Passes over entries, in sequence, which are the whole rest. The errors are those of the first that is no entry.
fn read_entries(contents: Constructed<'_>) -> Result<(), DecodeError>
    ensures { ReadsEntries (left contents.entry) result }
{
    let mut rest = contents;
    rest.fold_each(
        (),
        |rest, all|
            ensures { TakesStep Keeps entry all (left rest.old) (left rest.new) result }
        {
            match after_short_entry(rest.rest()) {
                Some(following) => {
                    *rest = Constructed::from_slice(following);
                    Ok(all)
                }
                None => match CrlEntry::take_from(rest) {
                    Ok(_) => Ok(all),
                    Err(e) => Err(e),
                },
            }
        },
    )
}

/// The contents of the list of entries at the front; none, in front of the whole rest, where no SEQUENCE is there.
/// Moves past it.
///
/// The errors are those of a SEQUENCE; then those of the first that is no entry, of [CrlEntry::take_from].
pub(crate) fn take_revoked<'a>(cons: &mut Constructed<'a>) -> Result<Section<'a>, DecodeError>
    ensures { TakesRevoked (left cons.old) (left cons.new) result }
{
    if !cons.has_tag(Tag::SEQUENCE) {
        return Ok(Section {
            octets: &[],
            following: cons.rest().len(),
        });
    }
    match cons.take_sequence() {
        Ok(contents) => {
            match read_entries(contents) {
                Ok(()) => {}
                Err(e) => return Err(e),
            }
            Ok(Section {
                octets: contents.rest(),
                following: cons.rest().len(),
            })
        }
        Err(e) => Err(e),
    }
}

/// Whether one of these entries, which are in sequence, has this serial number: the contents octets of the list
/// of revoked certificates, as [CrlView](crate::CrlView) has them. All of them are read. Allocates nothing; takes a
/// step an entry.
///
/// The errors are those of the first that is no entry: of [CrlEntry::take_from].
pub fn entries_contain(entries: &[u8], serial: Serial) -> Result<bool, DecodeError>
    ensures { FindsSerial serial entries.now result }
{
    let mut rest = Constructed::from_slice(entries);
    rest.fold_each(
        false,
        |rest, found|
            ensures { TakesStep (Looks serial) entry found (left rest.old) (left rest.new) result }
        {
            match CrlEntry::take_from(rest) {
                Ok(entry) => {
                    if entry.user_certificate == serial {
                        return Ok(true);
                    }
                    Ok(found)
                }
                Err(e) => Err(e),
            }
        },
    )
}
