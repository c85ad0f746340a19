//! Values at the front of a span, of a universal type or of any.

ghost use Rattle.std.specs.Prelude.{◌≡◌};
ghost use Rattle.rpki_c.specs.FrontValues.{IsBooleanTaken, IsUnsignedTaken, IsBitStringTaken, IsObjectIdentifierTaken};
ghost use Rattle.rpki_c.specs.FrontValues.{taken, IsValueTaken};

use crate::headers::{HeaderParts, parts_of};
use crate::span::Span;
use crate::status::TRUNCATED;
use rpki_der::{Constructed, read_header};

/// Takes the BOOLEAN at the front of the span (X.690 8.2, 11.1). `rest` becomes what follows, which is not looked at.
///
/// The status is 0, or the number of the error; then nothing is written. Nothing is allocated.
#[unsafe(no_mangle)]
pub extern "C" fn rpki_boolean(rest: &mut Span<'_>, out: &mut bool) -> u8
    ensures { IsBooleanTaken result rest.old rest.new out.old out.new }
{
    let mut cursor = Constructed::from_slice(rest.octets);
    match cursor.take_bool() {
        Ok(value) => {
            *rest = Span::of(cursor.rest());
            *out = value;
            0
        }
        Err(e) => e.number(),
    }
}

/// Takes the INTEGER at the front of the span, which is not negative (X.690 8.3): the octets of its number, the most
/// significant first. `rest` becomes what follows, which is not looked at.
///
/// The status is 0, or the number of the error; then nothing is written. Nothing is allocated.
#[unsafe(no_mangle)]
pub extern "C" fn rpki_unsigned<'a>(rest: &mut Span<'a>, out: &mut Span<'a>) -> u8
    ensures { IsUnsignedTaken result rest.old rest.new out.old out.new }
{
    let mut cursor = Constructed::from_slice(rest.octets);
    match cursor.take_unsigned() {
        Ok(value) => {
            *rest = Span::of(cursor.rest());
            *out = Span::of(value.as_slice());
            0
        }
        Err(e) => e.number(),
    }
}

/// Takes the BIT STRING at the front of the span (X.690 8.6, 11.2): the octets of its bits, and how many of the last of
/// them are unused. `rest` becomes what follows, which is not looked at.
///
/// The status is 0, or the number of the error; then nothing is written. Nothing is allocated.
#[unsafe(no_mangle)]
pub extern "C" fn rpki_bit_string<'a>(
    rest: &mut Span<'a>,
    bits: &mut Span<'a>,
    unused: &mut u8,
) -> u8
    ensures { IsBitStringTaken result rest.old rest.new (bits.old, unused.old) (bits.new, unused.new) }
{
    let mut cursor = Constructed::from_slice(rest.octets);
    match cursor.take_bits() {
        Ok(value) => {
            *rest = Span::of(cursor.rest());
            *bits = Span::of(value.octet_slice());
            *unused = value.unused();
            0
        }
        Err(e) => e.number(),
    }
}

/// Takes the OBJECT IDENTIFIER at the front of the span (X.690 8.19): its contents octets. `rest` becomes what follows,
/// which is not looked at.
///
/// The status is 0, or the number of the error; then nothing is written. Nothing is allocated.
#[unsafe(no_mangle)]
pub extern "C" fn rpki_object_identifier<'a>(rest: &mut Span<'a>, out: &mut Span<'a>) -> u8
    ensures { IsObjectIdentifierTaken result rest.old rest.new out.old out.new }
{
    let mut cursor = Constructed::from_slice(rest.octets);
    match cursor.take_oid() {
        Ok(value) => {
            *rest = Span::of(cursor.rest());
            *out = Span::of(value.0);
            0
        }
        Err(e) => e.number(),
    }
}

/// Takes the value at the front of the span, whatever its tag (X.690 8.1): its header, its contents, and all of it.
/// What is inside of the contents is not looked at. `rest` becomes what follows.
///
/// The status is 0, or the number of the error: `Truncated`, `BadTag` or `BadLength`; then nothing is written. Nothing
/// is allocated.
#[unsafe(no_mangle)]
pub extern "C" fn rpki_value<'a>(
    rest: &mut Span<'a>,
    header: &mut HeaderParts,
    contents: &mut Span<'a>,
    whole: &mut Span<'a>,
) -> u8
    ensures { IsValueTaken result rest.old rest.new
        (taken header.old contents.old whole.old) (taken header.new contents.new whole.new) }
{
    let octets = rest.octets;
    let (found, size) = match read_header(octets) {
        Ok(found) => found,
        Err(e) => return e.number(),
    };
    let behind = &octets[size..];
    let length = found.length as usize;
    if behind.len() < length {
        return TRUNCATED;
    }
    *header = parts_of(found, size);
    *contents = Span::of(&behind[..length]);
    *whole = Span::of(&octets[..size + length]);
    *rest = Span::of(&behind[length..]);
    0
}
