//! The moment at which all is to be valid.

ghost use Rattle.std.specs.Prelude.{◌≡◌, Ok, Some, IfSome, IfNone, IsOkAnd, IsSomeAnd};
ghost use Rattle.std.specs.Option.{option_map};
ghost use Rattle.jiff.specs.Words.{civil_nanos, parse_timestamp};
ghost use Rattle.rpki_time.specs.Time.{IsTimeNanos};
ghost use Rattle.rpkivalid.specs.Moment.{fits, is_date_time, is_like, is_now, moment_of, IsMomentOf, IsNamed};
ghost use Rattle.rpkivalid.specs.Moment.{IsNoMoment, IsUnnamedBy};

use crate::sources::Sources;
use rpki::repository::x509::Time;

/// The text of the moment that RFC 5280 4.1.2.5 names for no well-defined expiration: later than the last that [Time]
/// reads.
const LAST: &str = "9999-12-31T23:59:59Z";

/// Whether the octet is as the shape has it: for `d` a digit, for `x` one below 6, for another itself, for `T` and `Z`
/// also the small letter.
fn is_like(shape: u8, octet: u8) -> bool
    ensures { result ≡ is_like shape octet }
{
    match shape {
        b'd' => octet >= b'0' && octet <= b'9',
        b'x' => octet >= b'0' && octet <= b'5',
        b'T' => octet == b'T' || octet == b't',
        b'Z' => octet == b'Z' || octet == b'z',
        other => octet == other,
    }
}

/// Whether each octet of the text is as the shape has it.
fn fits(shape: &[u8], text: &[u8]) -> bool
    ensures { result ≡ fits shape.now text.now }
{
    let mut shape = shape;
    let mut text = text;
    'octets: while let Some((one, shapes)) = shape.split_first() {
        let Some((octet, octets)) = text.split_first() else {
            return false;
        };
        if !is_like(*one, *octet) {
            return false;
        }
        shape = shapes;
        text = octets;
    }
    text.is_empty()
}

/// Whether the text is one of RFC 3339 5.6, in whole seconds below 60.
fn is_date_time(text: &str) -> bool
    ensures { result ≡ is_date_time text.now }
{
    let octets = text.as_bytes();
    fits(b"dddd-dd-ddTdd:dd:xdZ", octets)
        || fits(b"dddd-dd-ddTdd:dd:xd+dd:dd", octets)
        || fits(b"dddd-dd-ddTdd:dd:xd-dd:dd", octets)
}

/// The moment that the word is the text of, as [Time] reads one. None if it is that of none.
fn read_moment(word: &str) -> Option<Time>
    ensures some { IfSome result (λ t. parse_timestamp word.now ≡ Ok (civil_nanos t)) }
    ensures none { IfNone result (IsOkAnd (parse_timestamp word.now) IsTimeNanos → ⊥) }
{
    match word.parse::<Time>() {
        Ok(moment) => Some(moment),
        Err(_) => None,
    }
}

/// The moment that the word is the text of: by RFC 3339 5.6, or 9999-12-31T23:59:59Z (RFC 5280 4.1.2.5). None if it is
/// that of none.
fn named_moment(word: &str) -> Option<Time>
    ensures some { IfSome result (λ t. moment_of word.now ≡ Some (civil_nanos t)) }
    ensures none { IfNone result (IsSomeAnd (moment_of word.now) IsTimeNanos → ⊥) }
{
    if word == LAST {
        return Time::utc(9999, 12, 31, 23, 59, 59);
    }
    if is_date_time(word) {
        return read_moment(word);
    }
    None
}

/// Whether the word is that for the moment of the clock.
fn is_now(word: &str) -> bool
    ensures { result ≡ is_now word.now }
{
    word == "now"
}

/// The moment that the word names: that of the clock by `now`; else the one that it is the text of. None if there is
/// none.
fn word_moment<S: Sources>(host: &S, word: &str) -> Option<Time>
    ensures some { IfSome result (IsNamed (S.clock host.now) word.now) }
    ensures none { IfNone result (IsUnnamedBy (is_now word.now) (S.clock host.now) word.now) }
{
    if is_now(word) {
        return host.now();
    }
    named_moment(word)
}

/// The moment that is asked for; without a word the clock's. None if there is none.
pub fn moment_at<S: Sources>(host: &S, word: Option<&str>) -> Option<Time>
    ensures some { IfSome result (IsMomentOf (S.clock host.now) (option_map (λ word. word.now) word.entry)) }
    ensures none { IfNone result (IsNoMoment (S.clock host.now) (option_map (λ word. word.now) word.entry)) }
{
    match word {
        Some(word) => word_moment(host, word),
        None => host.now(),
    }
}
