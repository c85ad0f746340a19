//! When a list of payloads was made, and how much is in it: the member `metadata` of JSON.

ghost use Rattle.std.specs.Prelude.{◌≡◌, ◌++◌, ◌+◌, OnOk, IfOk, string_bytes};
ghost use Rattle.rpki_time.specs.TimeText.{two_digits};
ghost use Rattle.rpki_payloads.specs.Made.{json_count, json_counts, json_dates, json_metadata, json_moment};
ghost use Rattle.rpki_payloads.specs.Made.{json_second, key_count, moment_text, seconds_text, vrp_count};

use crate::payloads::Payloads;
use rpki::repository::x509::Time;
use std::alloc::{AllocError, Global};

/// Two decimal digits of a number below 100.
fn two_digits(number: u8) -> [u8; 2]
    ensures { result ≡ two_digits number }
{
    [b'0' + number / 10, b'0' + number % 10]
}

/// A moment as `YYYY-MM-DDTHH:MM:SSZ` (RFC 3339 5.6).
fn moment_text(at: Time) -> [u8; 20]
    ensures { result ≡ moment_text at }
{
    let plain = at.date_time().to_plain();
    let century = two_digits((plain.date.year as u16 / 100) as u8);
    let year = two_digits((plain.date.year as u16 % 100) as u8);
    let month = two_digits(plain.date.month);
    let day = two_digits(plain.date.day);
    let hour = two_digits(plain.time.hour);
    let minute = two_digits(plain.time.minute);
    let second = two_digits(plain.time.second);
    [
        century[0], century[1], year[0], year[1], b'-', month[0], month[1], b'-', day[0], day[1],
        b'T', hour[0], hour[1], b':', minute[0], minute[1], b':', second[0], second[1], b'Z',
    ]
}

/// The whole seconds of a moment since 1970-01-01T00:00:00Z, in decimal digits.
pub(crate) fn seconds_text(alloc: Global, at: Time) -> Result<String, AllocError>
    ensures { IfOk result (λ text. string_bytes text ≡ seconds_text at) }
{
    let seconds = at.date_time().to_plain().to_second();
    format!(in alloc; "{seconds}")
}

/// Both numbers together. More than a machine counts are more than it holds.
fn sum(count: usize, more: usize) -> Result<usize, AllocError>
    ensures { IfOk result (λ n. n ≡ count + more) }
{
    match count.checked_add(more) {
        Some(both) => Ok(both),
        None => Err(AllocError),
    }
}

/// How many prefixes there are under all locators.
///
/// Returns `AllocError` where a machine can't count them.
pub fn vrp_count(all: &[Payloads]) -> Result<usize, AllocError>
    ensures { IfOk result (λ n. n ≡ vrp_count all.now) }
{
    let mut count = 0;
    'all: for one in all {
        count = sum(count, one.vrps().len())?;
    }
    Ok(count)
}

/// How many keys of routers there are under all locators.
pub fn key_count(all: &[Payloads]) -> Result<usize, AllocError>
    ensures { IfOk result (λ n. n ≡ key_count all.now) }
{
    let mut count = 0;
    'all: for one in all {
        count = sum(count, one.keys().len())?;
    }
    Ok(count)
}

/// Adds the moment in seconds, at the beginning of an object.
#[tactic(auto, unfolding(crate::specs::Made::json_second))]
fn push_second(text: &mut Vec<u8>, made: Time) -> Result<(), AllocError>
    ensures { OnOk result (text.new.items ≡ text.old.items ++ json_second made) }
{
    let seconds = seconds_text(*text.allocator(), made)?;
    text.extend_from_slice(b"{\n  \"metadata\": {\n    \"generated\": ")?;
    text.extend_from_slice(seconds.as_bytes())
}

/// Adds the moment as a member of this name, after another one.
#[tactic(auto, unfolding(crate::specs::Made::json_moment))]
fn push_moment(text: &mut Vec<u8>, name: &[u8], made: Time) -> Result<(), AllocError>
    ensures { OnOk result (text.new.items ≡ text.old.items ++ json_moment name.now made) }
{
    text.extend_from_slice(b",\n    \"")?;
    text.extend_from_slice(name)?;
    text.extend_from_slice(b"\": \"")?;
    text.extend_from_slice(&moment_text(made))?;
    text.extend_from_slice(b"\"")
}

/// Adds the moment, as Routinator and rpki-client name it, at the beginning of an object.
#[tactic(auto, unfolding(crate::specs::Made::json_dates))]
fn push_dates(text: &mut Vec<u8>, made: Time) -> Result<(), AllocError>
    ensures { OnOk result (text.new.items ≡ text.old.items ++ json_dates made) }
{
    push_second(text, made)?;
    push_moment(text, b"generatedTime", made)?;
    push_moment(text, b"buildtime", made)?;
    Ok(())
}

/// Adds a number as a member of this name, after another one.
#[tactic(auto, unfolding(crate::specs::Made::json_count))]
fn push_count(text: &mut Vec<u8>, name: &[u8], count: usize) -> Result<(), AllocError>
    ensures { OnOk result (text.new.items ≡ text.old.items ++ json_count name.now count) }
{
    let end = format!(in *text.allocator(); "\": {count}")?;
    text.extend_from_slice(b",\n    \"")?;
    text.extend_from_slice(name)?;
    text.extend_from_slice(end.as_bytes())
}

/// Adds how many prefixes, keys of routers and customers there are, as members after another one.
#[tactic(auto, unfolding(crate::specs::Made::json_counts))]
fn push_counts(
    text: &mut Vec<u8>,
    vrps: usize,
    keys: usize,
    customers: usize,
) -> Result<(), AllocError>
    ensures { OnOk result (text.new.items ≡ text.old.items ++ json_counts vrps keys customers) }
{
    push_count(text, b"vrps", vrps)?;
    push_count(text, b"routerKeys", keys)?;
    push_count(text, b"aspas", customers)?;
    Ok(())
}

/// Adds the first member of an object: when it was made, and how many prefixes, keys of routers and customers there
/// are.
#[tactic(auto, unfolding(crate::specs::Made::json_metadata))]
pub fn push_metadata(
    text: &mut Vec<u8>,
    made: Time,
    vrps: usize,
    keys: usize,
    customers: usize,
) -> Result<(), AllocError>
    ensures { OnOk result (text.new.items ≡ text.old.items ++ json_metadata made vrps keys customers) }
{
    push_dates(text, made)?;
    push_counts(text, vrps, keys, customers)?;
    text.extend_from_slice(b"\n  },\n")?;
    Ok(())
}
