//! Values that are taken off a span, in sequence.

ghost use Rattle.std.specs.Prelude.{◌≡◌, ◌<◌, IfSome, IfNone};
ghost use Rattle.rpki_der.specs.Header.{class_number};
ghost use Rattle.rpki_c.specs.Taking.{IsNamedBy, IsOfNoTag, IsTaken, IsTakenBy, IsOptionTaken, IsOptionTakenBy};

use crate::span::Span;
use crate::status::BAD_TAG;
use rpki_der::{Class, Constructed, Cursor, Tag};

/// The class of this number (X.690 8.1.2.2, table 1).
fn class_of(number: u8) -> Class
    requires { number < 4 }
    ensures { number ≡ class_number result }
{
    match number {
        0 => Class::Universal,
        1 => Class::Application,
        2 => Class::Context,
        _ => Class::Private,
    }
}

/// The tag and the form that an identifier octet names: its class in the two highest bits, the form in the next, and in
/// the others the number of the tag, from 0 to 31; None for the tag universal 0, which no value has.
fn named_by(identifier: u8) -> Option<(Tag, bool)>
    ensures some { IfSome result (λ x. IsNamedBy identifier x.0 x.1) }
    ensures none { IfNone result (IsOfNoTag identifier) }
{
    if identifier == 0 || identifier == 32 {
        return None;
    }
    let tag = Tag::new(class_of(identifier / 64), (identifier % 32) as u32);
    Some((tag, identifier / 32 % 2 == 1))
}

/// Takes the value of this tag and form at the front of a span; returns the status.
fn take<'a>(tag: Tag, constructed: bool, rest: &mut Span<'a>, contents: &mut Span<'a>) -> u8
    ensures { IsTakenBy tag constructed result rest.old rest.new contents.old contents.new }
{
    let mut cursor = Constructed::from_slice(rest.octets);
    match cursor.take_value_contents(tag, constructed) {
        Ok(found) => {
            *rest = Span::of(cursor.rest());
            *contents = Span::of(found.rest());
            0
        }
        Err(e) => e.number(),
    }
}

/// Takes the value at the front of the span, which has this identifier octet (X.690 8.1.2): its class in the two
/// highest bits, its form in the next, and in the others the number of its tag, from 0 to 31. `rest` becomes what
/// follows the value, and `contents` its contents.
///
/// The status is 0; `BAD_TAG` where the identifier is that of the tag universal 0; else the number of the error. Unless
/// it is 0, nothing is written. Nothing is allocated.
#[unsafe(no_mangle)]
pub extern "C" fn rpki_take<'a>(rest: &mut Span<'a>, identifier: u8, contents: &mut Span<'a>) -> u8
    ensures { IsTaken identifier result rest.old rest.new contents.old contents.new }
{
    match named_by(identifier) {
        Some((tag, constructed)) => take(tag, constructed, rest, contents),
        None => BAD_TAG,
    }
}

/// Takes the value of this tag and form at the front of a span where the tag is there; returns the status.
fn take_optional<'a>(
    tag: Tag,
    constructed: bool,
    rest: &mut Span<'a>,
    contents: &mut Span<'a>,
    is_there: &mut bool,
) -> u8
    ensures { IsOptionTakenBy tag constructed result rest.old rest.new
        (contents.old, is_there.old) (contents.new, is_there.new) }
{
    let mut cursor = Constructed::from_slice(rest.octets);
    if !cursor.has_tag(tag) {
        *contents = Span::of(&[]);
        *is_there = false;
        return 0;
    }
    match cursor.take_value_contents(tag, constructed) {
        Ok(value) => {
            *rest = Span::of(cursor.rest());
            *contents = Span::of(value.rest());
            *is_there = true;
            0
        }
        Err(e) => e.number(),
    }
}

/// Takes the value at the front of the span as [rpki_take] does, where it has the tag that this identifier octet names:
/// an element that may be left out. `is_there` becomes whether it has; where it hasn't, `rest` stays, and `contents`
/// has no octets.
///
/// The statuses are those of [rpki_take], and 0 where another tag or nothing begins the span. Unless it is 0, nothing
/// is written. Nothing is allocated.
#[unsafe(no_mangle)]
pub extern "C" fn rpki_take_optional<'a>(
    rest: &mut Span<'a>,
    identifier: u8,
    contents: &mut Span<'a>,
    is_there: &mut bool,
) -> u8
    ensures { IsOptionTaken identifier result rest.old rest.new
        (contents.old, is_there.old) (contents.new, is_there.new) }
{
    match named_by(identifier) {
        Some((tag, constructed)) => take_optional(tag, constructed, rest, contents, is_there),
        None => BAD_TAG,
    }
}
