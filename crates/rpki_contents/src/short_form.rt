//! Numbers whose header is two octets, as nearly all in long lists have: what begins so is read without naming the
//! errors of what doesn't.

ghost use Rattle.std.specs.Prelude.{◌≡◌, ◌≤◌, ◌<◌, ◌^◌, IfSome};
ghost use Rattle.rpki_der.specs.Prelude.{Accepts, IsUnsignedBelow};
ghost use Rattle.rpki_contents.specs.Aspa.{as_number};

use rpki_x509::short_value;

/// The number, where it is at least the one and below the other.
#[inline(always)]
fn between(number: u32, low: u32, high: u32) -> Option<u32>
    ensures { IfSome result (λ n. (n ≡ number) × (low ≤ n) × (n < high)) }
{
    if number < low || number >= high {
        return None;
    }
    Some(number)
}

/// The number whose INTEGER has these contents, where they are at most four octets.
#[inline(always)]
fn number_in(contents: &[u8]) -> Option<u32>
    ensures { IfSome result (λ n. IsUnsignedBelow (2 ^ 32) n contents.now) }
{
    match contents {
        [only] => between(u32::from(*only), 0, 0x80),
        [first, second] => {
            let number = u32::from(*first) * 0x100 + u32::from(*second);
            between(number, 0x80, 0x8000)
        }
        [first, second, third] => {
            let front = u32::from(*first) * 0x1_0000 + u32::from(*second) * 0x100;
            between(front + u32::from(*third), 0x8000, 0x80_0000)
        }
        [first, second, third, fourth] => {
            let front = u32::from(*first) * 0x100_0000 + u32::from(*second) * 0x1_0000;
            let back = u32::from(*third) * 0x100 + u32::from(*fourth);
            between(front + back, 0x80_0000, 0x8000_0000)
        }
        _ => None,
    }
}

/// The number whose INTEGER is at the front, where it has at most four octets of contents, and what follows it.
#[inline(always)]
pub(crate) fn short_number(octets: &[u8]) -> Option<(u32, &[u8])>
    ensures { IfSome result (λ x. Accepts as_number.spells octets.now x.0 x.1.now) }
{
    match short_value(octets, 0x02) {
        Some((contents, rest)) => match number_in(contents) {
            Some(number) => Some((number, rest)),
            None => None,
        },
        None => None,
    }
}
