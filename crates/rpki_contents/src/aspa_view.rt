//! Attestations of the providers of an autonomous system, read in place without memory.

ghost use Rattle.std.specs.Prelude.{◌≡◌, ◌<◌, IfSome, length};
ghost use Rattle.rpki_der.specs.Prelude.{left};
ghost use Rattle.rpki_parse.specs.Parts.{told};
ghost use Rattle.rpki_parse.specs.Words.{Moves, kinds, parsed};
ghost use Rattle.rpki_contents.specs.AspaView.{attestation, found_aspa, is_above, members, number_at, provider_at};
ghost use Rattle.rpki_contents.specs.AspaView.{given_at, providers_at, version_at};

use crate::short_form::short_number;
use rpki_der::{Class, Constructed, DecodeError, Tag};
use rpki_parse::{
    Malformed, Step, at_part, finish, fold, skip_u8_if, take_constructed_if, take_sequence,
    take_u32,
};

/// The malformed part of an attestation.
#[derive(Clone, Copy, Debug, PartialEq, Eq)]
pub enum AspaPart {
    /// The SEQUENCE around all, or something follows it.
    Attestation,
    /// The version.
    Version,
    /// The customer.
    Customer,
    /// The providers: their list, one of them, or something that follows.
    Providers,
}

/// An attestation whose providers are borrowed from the octets that it was read from.
#[derive(Clone, Copy)]
pub struct AspaView<'a> {
    /// The customer.
    pub customer: u32,
    /// The providers, in sequence: the contents of their list.
    pub providers: &'a [u8],
    /// How many providers there are.
    pub count: usize,
}

/// The providers of an attestation in place that have yet to be given, in order.
#[derive(Clone, Copy)]
pub struct ProviderCursor<'a> {
    /// The rest of their octets.
    pub rest: Constructed<'a>,
}

/// The version: 1, under the explicit tag 0.
fn take_version(cons: &mut Constructed<'_>) -> Result<(), DecodeError>
    ensures { parsed (λ v. v) result (left cons.new) ≡ version_at (left cons.old) }
{
    let mut after = *cons;
    let mut contents = take_constructed_if(&mut after, Tag::new(Class::Context, 0))?;
    skip_u8_if(&mut contents, 1)?;
    finish(contents)?;
    *cons = after;
    Ok(())
}

/// Whether the number is above the last, or there is none.
fn is_above(last: Option<u32>, number: u32) -> bool
    ensures { result ≡ is_above last number }
{
    match last {
        Some(last) => last < number,
        None => true,
    }
}

/// An AS number.
#[inline(always)]
fn take_number(cons: &mut Constructed<'_>) -> Result<u32, DecodeError>
    ensures reads { parsed (λ n. n) result (left cons.new) ≡ number_at (left cons.old) }
    ensures moves { Moves (left cons.old) (left cons.new) result }
{
    match short_number(cons.rest()) {
        Some((number, following)) => {
            *cons = Constructed::from_slice(following);
            Ok(number)
        }
        None => {
            let mut after = *cons;
            let number = take_any_number(&mut after)?;
            *cons = after;
            Ok(number)
        }
    }
}

/// The same, of any length.
#[inline(never)]
fn take_any_number(cons: &mut Constructed<'_>) -> Result<u32, DecodeError>
    ensures reads { parsed (λ n. n) result (left cons.new) ≡ number_at (left cons.old) }
    ensures moves { Moves (left cons.old) (left cons.new) result }
{
    take_u32(cons)
}

/// Reads a provider, after the last.
#[derive(Drop)]
struct ProviderStep {
    /// The customer.
    customer: u32,
}

impl Step for ProviderStep {
    type State = Option<u32>;

    ghost next_at = { λ x. provider_at x.customer };

    #[inline(always)]
    #[tactic(auto, unfolding(crate::specs::AspaView::provider_at))]
    fn next(
        &self,
        last: Option<u32>,
        cons: &mut Constructed<'_>,
    ) -> Result<Option<u32>, DecodeError> {
        let mut after = *cons;
        let number = take_number(&mut after)?;
        if !is_above(last, number) || number == self.customer {
            return Err(DecodeError::content("invalid provider"));
        }
        *cons = after;
        Ok(Some(number))
    }
}

/// How many providers of the customer there are, which are the whole rest: one at least.
#[tactic(auto, unfolding(crate::specs::AspaView::providers_at))]
fn count_providers(contents: Constructed<'_>, customer: u32) -> Result<usize, DecodeError>
    ensures { kinds result ≡ providers_at customer (left contents.entry) }
{
    match fold(contents, None, &ProviderStep { customer })? {
        (Some(_), count) => Ok(count),
        (None, _) => Err(DecodeError::content("no provider")),
    }
}

/// The parts, which are the whole rest.
fn read_parts<'a>(contents: Constructed<'a>) -> Result<AspaView<'a>, Malformed<AspaPart>>
    ensures { told found_aspa result ≡ members (left contents.entry) }
{
    let mut rest = contents;
    at_part(AspaPart::Version, take_version(&mut rest))?;
    let customer = at_part(AspaPart::Customer, take_u32(&mut rest))?;
    let listed = at_part(AspaPart::Providers, take_sequence(&mut rest))?;
    let count = at_part(AspaPart::Providers, count_providers(listed, customer))?;
    at_part(AspaPart::Providers, finish(rest))?;
    Ok(AspaView {
        customer,
        providers: listed.rest(),
        count,
    })
}

impl<'a> AspaView<'a> {
    /// An attestation, and nothing else, as [AsProviderAttestation::decode](crate::AsProviderAttestation::decode) reads
    /// it. Allocates nothing.
    ///
    /// The error is of the leftmost malformed part: the leftmost error there, as a reader of that part returns it. It
    /// is `Content` for another version, for no providers, and for one that isn't above the one before it, or is the
    /// customer.
    pub fn read(octets: &'a [u8]) -> Result<AspaView<'a>, Malformed<AspaPart>>
        ensures { told found_aspa result ≡ attestation octets.entry.now }
    {
        let mut rest = Constructed::from_slice(octets);
        let contents = at_part(AspaPart::Attestation, take_sequence(&mut rest))?;
        at_part(AspaPart::Attestation, finish(rest))?;
        read_parts(contents)
    }

    /// A cursor over the providers, in ascending order.
    pub fn providers(self) -> ProviderCursor<'a>
        ensures { left result.rest ≡ self.entry.providers.now }
    {
        ProviderCursor {
            rest: Constructed::from_slice(self.providers),
        }
    }
}

impl<'a> ProviderCursor<'a> {
    /// The next provider; None where none remains, or the remaining octets are no AS numbers.
    pub fn next_provider(&mut self) -> Option<u32>
        ensures given { (result, left self.new.rest) ≡ given_at (left self.old.rest) }
        ensures shorter { IfSome result (λ _. length (left self.new.rest) < length (left self.old.rest)) }
    {
        match take_u32(&mut self.rest) {
            Ok(number) => Some(number),
            Err(_) => None,
        }
    }
}
