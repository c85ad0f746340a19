//! The moment that a word names.

ghost use Rattle.std.specs.Prelude.{◌≡◌, Ok, IfSome, IfNone, IsOkAnd};
ghost use Rattle.jiff.specs.Words.{civil_nanos};
ghost use Rattle.rpki_time.specs.Time.{IsTimeNanos};
ghost use Rattle.rpkicert.specs.Moment.{is_now, moment_of, NamesMoment, NamesNoMoment};

use crate::sources::Sources;
use rpki::repository::x509::Time;

/// The text of the moment that RFC 5280 4.1.2.5 names for no well-defined expiration: later than the last that [Time]
/// reads.
const LAST: &str = "9999-12-31T23:59:59Z";

/// The moment that the word is the text of: as [Time] reads one, or 9999-12-31T23:59:59Z (RFC 5280 4.1.2.5). None if it
/// is that of none.
fn moment_of(word: &str) -> Option<Time>
    ensures some { IfSome result (λ t. moment_of word.now ≡ Ok (civil_nanos t)) }
    ensures none { IfNone result (IsOkAnd (moment_of word.now) IsTimeNanos → ⊥) }
{
    if word == LAST {
        return Time::utc(9999, 12, 31, 23, 59, 59);
    }
    match word.parse::<Time>() {
        Ok(moment) => Some(moment),
        Err(_) => None,
    }
}

/// Whether the word is that for the moment of the clock.
pub fn is_now(word: &str) -> bool
    ensures { result ≡ is_now word.now }
{
    word == "now"
}

/// The moment that the word names: that of the clock by `now`; else the one that it is the text of, whatever the clock
/// has. None where the clock has none, or the word is the text of none.
pub fn moment_at<S: Sources>(sources: &S, word: &str) -> Option<Time>
    ensures some { IfSome result (NamesMoment (S.clock sources.now) word.now) }
    ensures none { IfNone result (NamesNoMoment (S.clock sources.now) word.now) }
{
    if is_now(word) {
        return sources.now();
    }
    moment_of(word)
}
