//! Reading times.

ghost use Rattle.std.specs.Prelude.{IfSome, IfNone};
ghost use Rattle.jiff.specs.Types.{DateTime as Civil};
ghost use Rattle.rpki_der.specs.Prelude.{left, Takes, TakesWholeInPlace, Reads, ReadsWhere};
ghost use Rattle.rpki_time.specs.TimeValue.{ReadsAs, generalized, SpellsTime, IsTimeFault, HasTimeTag, time};

use crate::time::Time;
use rpki_der::{Class, Constructed, DecodeError, Tag};

/// The time that the text under this tag writes; None if the tag is neither of the two, or the text writes none.
fn time_under(tag: Tag, text: &[u8]) -> Option<Time>
    ensures value { IfSome result (ReadsAs tag text.now) }
    ensures none { IfNone result ((t : Civil) → ¬ (ReadsAs tag text.now t)) }
{
    if tag.class() != Class::Universal {
        return None;
    }
    match tag.number() {
        23 => Time::from_utc_text(text),
        24 => Time::from_generalized_text(text),
        _ => None,
    }
}

impl Time {
    /// A time: UTC time or generalized time (X.690 11.7, 11.8; RFC 5280 4.1.2.5), and nothing else. Allocates nothing.
    ///
    /// The errors are those of [Time::take_from]; then `Trailing` if something follows the time.
    pub fn decode(octets: &[u8]) -> Result<Time, DecodeError>
        ensures { TakesWholeInPlace (λ t. t) time octets.now result }
    {
        Constructed::from_slice(octets).whole(|cons| Time::take_from(cons))
    }

    /// Reads a time: UTC time or generalized time (X.690 11.7, 11.8; RFC 5280 4.1.2.5). Allocates nothing.
    ///
    /// The errors are those of a header; then `Unexpected` for the constructed form of any tag; then `Truncated`; then
    /// `Content`, with the text `malformed time value`, for every other primitive value of any tag. An error leaves the
    /// cursor where it was.
    pub fn take_from(cons: &mut Constructed<'_>) -> Result<Time, DecodeError>
        ensures { Takes (λ t. t) time (left cons.old) (left cons.new) result }
    {
        let mut after = *cons;
        let (tag, text) = match after.take_primitive() {
            Ok(found) => found,
            Err(e) => return Err(e),
        };
        match time_under(tag, text) {
            Some(time) => {
                *cons = after;
                Ok(time)
            }
            None => Err(DecodeError::content("malformed time value")),
        }
    }

    /// Reads generalized time (X.690 11.7), as manifests have it (RFC 9286 4.2.1). Allocates nothing.
    ///
    /// The errors are those of a header; then `Unexpected` for another tag or form; then `Truncated`; then `Content`,
    /// with the text `malformed time value`. An error leaves the cursor where it was.
    pub fn take_generalized_from(cons: &mut Constructed<'_>) -> Result<Time, DecodeError>
        ensures { Takes (λ t. t) generalized (left cons.old) (left cons.new) result }
    {
        let mut after = *cons;
        let text = match after.take_primitive_if(Tag::GENERALIZED_TIME) {
            Ok(text) => text,
            Err(e) => return Err(e),
        };
        let Some(time) = Time::from_generalized_text(text) else {
            return Err(DecodeError::content("malformed time value"));
        };
        *cons = after;
        Ok(time)
    }

    /// As [Time::take_from] where the rest begins with the identifier octets of one of the two tags, in either
    /// form; else None.
    pub fn take_opt_from(cons: &mut Constructed<'_>) -> Result<Option<Time>, DecodeError>
        ensures { ReadsWhere HasTimeTag (λ t. t) SpellsTime IsTimeFault (left cons.old) (left cons.new) result }
    {
        if !cons.has_tag(Tag::UTC_TIME) && !cons.has_tag(Tag::GENERALIZED_TIME) {
            return Ok(None);
        }
        match Time::take_from(cons) {
            Ok(time) => Ok(Some(time)),
            Err(e) => Err(e),
        }
    }
}
