//! Entries as nearly all lists have them: each header is two octets, and the time is UTC time. Nothing is made of what
//! they say.

ghost use Rattle.std.specs.Prelude.{◌≤◌, ℕ, IsTrue, IfSome, length};
ghost use Rattle.rpki_der.specs.Prelude.{Accepts};
ghost use Rattle.rpki_der.specs.Integer.{IsMinimal};
ghost use Rattle.rpki_time.specs.Serial.{IsSerialContents};
ghost use Rattle.rpki_crl.specs.Crl.{Entry, entry};

use rpki::repository::x509::Time;
use rpki_x509::short_value;

/// Whether none of these octets can be left out of an INTEGER, whose first bit is 0 (X.690 8.3.2), and they are at most
/// twenty.
#[inline(always)]
fn are_least(contents: &[u8]) -> bool
    ensures { IsTrue result → IsMinimal contents.now × (length contents.now ≤ 20) }
{
    match contents {
        [] => false,
        [only] => *only < 128,
        [first, second, ..] => {
            contents.len() <= 20 && *first < 128 && (*first > 0 || *second > 127)
        }
    }
}

/// Whether these are the contents of a serial number (RFC 5280 4.1.2.2).
#[inline(always)]
fn is_serial(contents: &[u8]) -> bool
    ensures { IsTrue result → (n : ℕ) × IsSerialContents n contents.now }
{
    are_least(contents)
}

/// What follows the entry at the front, where it is written so.
#[inline(always)]
pub(crate) fn after_short_entry(octets: &[u8]) -> Option<&[u8]>
    ensures { IfSome result (λ r. (x : Entry) × Accepts entry.spells octets.now x r.now) }
{
    let Some((parts, rest)) = short_value(octets, 0x30) else {
        return None;
    };
    let Some((number, behind)) = short_value(parts, 0x02) else {
        return None;
    };
    let Some((text, end)) = short_value(behind, 0x17) else {
        return None;
    };
    if !is_serial(number) || !Time::is_utc_text(text) {
        return None;
    }
    match end {
        [] => Some(rest),
        _ => None,
    }
}
