//! Revocation lists.

ghost use Rattle.std.specs.Prelude.{◌≡◌, ◌<◌, false, [], slice_index};
ghost use Rattle.rpki_crl.specs.Crl.{CrlParts as CrlValue};
ghost use Rattle.rpki_crl.specs.CrlView.{IsCrlAt};
ghost use Rattle.rpki_c.specs.Crl.{crl_part_number, HasCrl, IsCrlErrorRead, IsCrlRead, IsCrlSearched, IsEntryTaken};

use crate::span::Span;
use crate::status::CONTENT;
use crate::times::{Moment, moment_of};
use rpki::crypto::SignatureAlgorithm;
use rpki_crl::{CrlEntry, CrlPart, CrlView, entries_contain};
use rpki_der::Constructed;
use rpki_time::Serial;

/// The parts of a revocation list.
#[repr(C)]
#[derive(Clone, Copy)]
pub struct CrlParts<'a> {
    /// What is signed, a SEQUENCE, with its header.
    pub data: Span<'a>,
    /// The algorithm identifier, with its header.
    pub algorithm: Span<'a>,
    /// The octets of the signature.
    pub signature: Span<'a>,
    /// The issuer, a name, with its header.
    pub issuer: Span<'a>,
    /// The entries, in sequence; no octets where the list of them is left out.
    pub revoked_certs: Span<'a>,
    /// When the list was issued.
    pub this_update: Moment,
    /// When the next list is issued at the latest.
    pub next_update: Moment,
    /// The number of the list, with zeros in front.
    pub crl_number: [u8; 20],
    /// The identifier of the key that signed the list.
    pub authority_key_identifier: [u8; 20],
    /// Whether the algorithm has parameters, a NULL.
    pub has_parameters: bool,
}

/// How a malformed part is passed.
pub(crate) fn crl_part_number(part: CrlPart) -> u8
    ensures { result ≡ crl_part_number part }
{
    match part {
        CrlPart::List => 64,
        CrlPart::Signed => 65,
        CrlPart::Algorithm => 66,
        CrlPart::Signature => 67,
        CrlPart::Tbs => 68,
        CrlPart::Version => 69,
        CrlPart::TbsAlgorithm => 71,
        CrlPart::Issuer => 72,
        CrlPart::Extensions => 76,
        CrlPart::SameAlgorithm => 79,
        CrlPart::ThisUpdate => 120,
        CrlPart::NextUpdate => 121,
        CrlPart::RevokedCerts => 122,
    }
}

/// The parts of the revocation list that the octets are.
fn list_of<'a>(octets: &'a [u8], found: &CrlView<'a>) -> CrlParts<'a>
    requires { (x : CrlValue) × IsCrlAt octets.now found.now x }
    ensures { HasCrl octets.now result }
{
    let tbs = &found.tbs;
    CrlParts {
        data: Span::of(found.signed.octets),
        algorithm: Span::of(found.algorithm.octets),
        signature: Span::of(found.signature.octets),
        issuer: Span::of(tbs.issuer.octets),
        revoked_certs: Span::of(tbs.revoked_certs.octets),
        this_update: moment_of(tbs.this_update),
        next_update: moment_of(tbs.next_update),
        crl_number: tbs.extensions.crl_number.into_array(),
        authority_key_identifier: <[u8; 20]>::from(tbs.extensions.authority_key_identifier),
        has_parameters: found.signature_algorithm.has_parameters(),
    }
}

/// Reads a revocation list (RFC 5280 5.1, RFC 6487 5), and says what its parts are.
///
/// The status is 0. Else it is the number of the malformed part, and `out` is unchanged: of the signed data the
/// leftmost; then of what is signed the leftmost; then that both algorithm identifiers are the same. Nothing is
/// allocated.
#[unsafe(no_mangle)]
pub extern "C" fn rpki_crl<'a>(octets: &'a [u8], out: &mut CrlParts<'a>) -> u8
    ensures { IsCrlRead octets.now result out.old out.new }
{
    match CrlView::read(octets) {
        Ok(found) => {
            *out = list_of(octets, &found);
            0
        }
        Err(wrong) => crl_part_number(wrong.part),
    }
}

/// Reads a revocation list, as [rpki_crl] does, and says what is wrong with the malformed part.
///
/// The status is that of [rpki_crl]. Where it is a part, `error` is the number of the error, that of `DecodeError`, as
/// a reader of that part returns it; where it is 0, `error` is unchanged. Nothing is allocated.
#[unsafe(no_mangle)]
pub extern "C" fn rpki_crl_error(octets: &[u8], error: &mut u8) -> u8
    ensures { IsCrlErrorRead octets.now result error.old error.new }
{
    match CrlView::read(octets) {
        Ok(_) => 0,
        Err(wrong) => {
            *error = wrong.error.number();
            crl_part_number(wrong.part)
        }
    }
}

/// Finds whether one of the entries of a revocation list, which are all of the octets, has this serial number, which is
/// given by its twenty octets, the most significant first. All entries are read. No octets are no entries, those of a
/// struct that is zeroed too: `rpki_crl_revokes` reads the list itself.
///
/// The status is 0; `CONTENT` where the first bit of the serial number is set, before the octets are looked at; else
/// the number of the error of the first that is no entry. `out` is unchanged where the status is not 0. Nothing is
/// allocated.
#[unsafe(no_mangle)]
pub extern "C" fn rpki_crl_contains(octets: &[u8], serial: &[u8; 20], out: &mut bool) -> u8
    ensures searched { IsCrlSearched serial.now octets.now result out.old out.new }
    ensures zeroed { octets.now ≡ [] → slice_index serial.now 0 < 128 → (result ≡ 0) × (out.new ≡ false) }
{
    let Ok(number) = Serial::from_array(*serial) else {
        return CONTENT;
    };
    match entries_contain(octets, number) {
        Ok(found) => {
            *out = found;
            0
        }
        Err(e) => e.number(),
    }
}

/// A certificate that is revoked.
#[repr(C)]
#[derive(Clone, Copy)]
pub struct RevokedCertificate {
    /// The serial number, with zeros in front.
    pub serial_number: [u8; 20],
    /// When it was revoked.
    pub revocation_date: Moment,
}

/// Takes the entry of a revocation list at the front of the span, a SEQUENCE of a serial number and a time and nothing
/// else (RFC 5280 5.1.2.6, RFC 6487 5). `rest` becomes what follows, which is not looked at.
///
/// The status is 0, or the number of the error; then nothing is written. Nothing is allocated.
#[unsafe(no_mangle)]
pub extern "C" fn rpki_crl_entry(rest: &mut Span<'_>, out: &mut RevokedCertificate) -> u8
    ensures { IsEntryTaken result rest.old rest.new out.old out.new }
{
    let mut cursor = Constructed::from_slice(rest.octets);
    match CrlEntry::take_from(&mut cursor) {
        Ok(entry) => {
            *rest = Span::of(cursor.rest());
            *out = RevokedCertificate {
                serial_number: entry.user_certificate.into_array(),
                revocation_date: moment_of(entry.revocation_date),
            };
            0
        }
        Err(e) => e.number(),
    }
}
