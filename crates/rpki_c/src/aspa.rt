//! Attestations of the providers of an autonomous system.

ghost use Rattle.std.specs.Prelude.{◌≡◌};
ghost use Rattle.rpki_contents.specs.AspaView.{attestation, found_aspa};
ghost use Rattle.rpki_c.specs.Aspa.{aspa_part_number, passed, IsAspaRead, IsProviderTaken};
ghost use Rattle.rpki_c.specs.Whole.{told_error};

use crate::span::Span;
use rpki_contents::{AspaPart, AspaView};
use rpki_der::Constructed;
use rpki_resources::take_as_number;

/// The parts of an attestation of providers.
#[repr(C)]
#[derive(Clone, Copy)]
pub struct AspaParts<'a> {
    /// The providers, in sequence.
    pub providers: Span<'a>,
    /// How many providers there are.
    pub count: usize,
    /// The customer.
    pub customer: u32,
}

/// How a malformed part is passed.
pub(crate) fn aspa_part_number(part: AspaPart) -> u8
    ensures { result ≡ aspa_part_number part }
{
    match part {
        AspaPart::Attestation => 148,
        AspaPart::Version => 149,
        AspaPart::Customer => 150,
        AspaPart::Providers => 151,
    }
}

/// The parts of the attestation.
pub(crate) fn aspa_of<'a>(found: AspaView<'a>) -> AspaParts<'a>
    ensures { passed result ≡ found_aspa found.entry }
{
    AspaParts {
        providers: Span::of(found.providers),
        count: found.count,
        customer: found.customer,
    }
}

/// Reads an attestation of the providers of an autonomous system (draft-ietf-sidrops-aspa-profile, version 1), and says
/// who the customer and the providers are.
///
/// The status is 0. Else it is the number of the leftmost malformed part, and `out` is unchanged. Nothing is
/// allocated.
#[unsafe(no_mangle)]
pub extern "C" fn rpki_aspa<'a>(octets: &'a [u8], out: &mut AspaParts<'a>) -> u8
    ensures { IsAspaRead octets.now result out.old out.new }
{
    match AspaView::read(octets) {
        Ok(found) => {
            *out = aspa_of(found);
            0
        }
        Err(wrong) => aspa_part_number(wrong.part),
    }
}

/// Reads an attestation of providers, as [rpki_aspa] does, and says what is wrong with the malformed part.
///
/// The status is that of [rpki_aspa]. Where it is a part, 148 to 151, `error` is the number of the error, that of
/// `DecodeError`, as a reader of that part returns it; where it is 0, `error` is unchanged. Nothing is allocated.
#[unsafe(no_mangle)]
pub extern "C" fn rpki_aspa_error(octets: &[u8], error: &mut u8) -> u8
    ensures { (result, error.new) ≡ told_error aspa_part_number error.old (attestation octets.now) }
{
    match AspaView::read(octets) {
        Ok(_) => 0,
        Err(wrong) => {
            *error = wrong.error.number();
            aspa_part_number(wrong.part)
        }
    }
}

/// Takes the provider at the front of the span, as of the providers of an attestation: an INTEGER below 2^32. `rest`
/// becomes what follows, which is not looked at.
///
/// The status is 0, or the number of the error; then nothing is written. Nothing is allocated.
#[unsafe(no_mangle)]
pub extern "C" fn rpki_aspa_provider(rest: &mut Span<'_>, out: &mut u32) -> u8
    ensures { IsProviderTaken result rest.old rest.new out.old out.new }
{
    let mut cursor = Constructed::from_slice(rest.octets);
    match take_as_number(&mut cursor) {
        Ok(number) => {
            *rest = Span::of(cursor.rest());
            *out = number;
            0
        }
        Err(e) => e.number(),
    }
}
