//! The entries of a revocation list.

ghost use Rattle.std.specs.Prelude.{◌≡◌, ◌<◌, ◌^◌, length};
ghost use Rattle.rpki_der.specs.Prelude.{left, Takes, TakesAll};
ghost use Rattle.rpki_crl.specs.Crl.{entry_of, entry_parts, entry};
ghost use Rattle.rpki_crl.specs.EncodedCrl.{entry_octets, normal_entry, IsEntry};

use rpki::der::{Constructed, DecodeError, Primitive, PrimitiveContent, Sequence, Values};
use rpki::repository::x509::{Serial, Time, VariedTime};
use std::io;
use std::io::Write;

/// A certificate that is revoked (RFC 5280 5.1.2.6). In the RPKI an entry has no extensions (RFC 6487 5).
#[derive(Clone, Copy)]
pub struct CrlEntry {
    /// The serial number of the certificate.
    pub user_certificate: Serial,
    /// When it was revoked.
    pub revocation_date: Time,
}

impl CrlEntry {
    /// Reads an entry: a SEQUENCE of a serial number and a time, and nothing else. Allocates nothing.
    ///
    /// The errors are those of a SEQUENCE; then those of the first part that could not be read, or `Trailing` if more
    /// follows. An error leaves the cursor where it was.
    pub fn take_from(cons: &mut Constructed<'_>) -> Result<CrlEntry, DecodeError>
        ensures { Takes entry_of entry (left cons.old) (left cons.new) result }
    {
        cons.in_sequence(
            |contents|
                ensures { TakesAll entry_of entry_parts (left contents.old) (left contents.new) result }
            {
                let user_certificate = match Serial::take_from(contents) {
                    Ok(serial) => serial,
                    Err(e) => return Err(e),
                };
                let revocation_date = match Time::take_from(contents) {
                    Ok(date) => date,
                    Err(e) => return Err(e),
                };
                Ok(CrlEntry {
                    user_certificate,
                    revocation_date,
                })
            },
        )
    }
}

/// An encoder for an entry.
pub type CrlEntryEncoder = Sequence<(Primitive<Serial>, VariedTime)>;

impl CrlEntry {
    /// An encoder for the entry: a SEQUENCE of the serial number and the time, as certificates have it. It always fits.
    pub fn encode(self) -> CrlEntryEncoder
        ensures octets { ⟦<CrlEntryEncoder as Values>⟧.encoded result ≡ entry_octets (entry_of self) }
        ensures entry { IsEntry (entry_of self) }
        ensures fits { ⟦<CrlEntryEncoder as Values>⟧.is_short result
            × (length (entry_octets (entry_of self)) < 2 ^ 63) }
        // The encoding is read as the entry without parts of a second.
        ensures read_back { entry.spells (normal_entry (entry_of self)) (entry_octets (entry_of self)) }
    {
        // its clause says that the number is below 2^159
        let _ = self.user_certificate.into_array();
        Sequence::new((
            self.user_certificate.encode(),
            self.revocation_date.encode_varied(),
        ))
    }
}

/// The entry as [CrlEntry::encode] writes it.
impl Values for CrlEntry {
    ghost use Rattle.rpki_crl.specs.Crl.{entry_of};
    ghost use Rattle.rpki_crl.specs.EncodedCrl.{written_entry, entry_tree};
    ghost use Rattle.rpki_crl.specs.EncodedLaws.{entry_spelled, entry_measured, entry_value_list};

    ghost tree = { λ x. entry_tree (entry_of x) };

    ghost encoded = { written_entry };

    ghost is_short = { λ _. Unit {0} };

    ghost spelled = { λ x. entry_spelled (entry_of x) };

    ghost measured = { λ x. entry_measured (entry_of x) };

    ghost are_values = { λ x _. entry_value_list (entry_of x) };

    fn fits(&self) -> bool {
        self.encode().fits()
    }

    fn count(&self) -> u64 {
        1
    }

    fn encoded_len(&self) -> u64 {
        self.encode().encoded_len()
    }

    fn write_encoded<W: Write>(&self, out: &mut W) -> Result<(), io::Error> {
        self.encode().write_encoded(out)
    }
}
