//! Attestations of the providers of an autonomous system (draft-ietf-sidrops-aspa-profile, version 1).
//!
//! ```text
//! ASProviderAttestation ::= SEQUENCE {
//!     version       [0] INTEGER DEFAULT 0 (1),
//!     customerASID  INTEGER (0..4294967295),
//!     providers     SEQUENCE (SIZE (1..MAX)) OF INTEGER (0..4294967295) }
//! ```

ghost use Rattle.std.specs.Prelude.{◌≡◌, ◌↔◌, IsSome, IfSome, IsTrue};
ghost use Rattle.rpki_der.specs.Prelude.{left, sequence, around, Takes, TakesAll, TakesWhole};
ghost use Rattle.rpki_contents.specs.Aspa.{AreNumbers, AreProviders, AscendFrom, IsAttestation, IsNoneOf, Ascend};
ghost use Rattle.rpki_contents.specs.Aspa.{aspa, aspa_parts, each_number, fields, listed_of, numbers, version};

use rpki_der::{Class, Constructed, DecodeError, Tag};
use rpki_resources::take_as_number;
use std::alloc::Global;
use std::marker::Model;

/// A customer and a list of providers, of which nothing was tested.
#[derive(Drop)]
struct ListedProviders {
    customer: u32,
    providers: Vec<u32>,
}

/// An attestation of providers: a customer, and the providers of its routes. Nothing of it is verified.
#[derive(Drop)]
pub struct AsProviderAttestation {
    customer: u32,
    providers: Vec<u32>,
}

impl Model for AsProviderAttestation {
    ghost use Rattle.rpki_contents.specs.Aspa.{AspaParts, IsAttestation, aspa_parts};

    ghost Value = { AspaParts };

    ghost view = { λ x. aspa_parts x.customer x.providers.items };

    ghost invariant = { λ x. IsAttestation (aspa_parts x.customer x.providers.items) };
}

/// The version: 1, under the explicit tag 0.
fn take_version(cons: &mut Constructed<'_>) -> Result<(), DecodeError>
    ensures { Takes (λ _. tt) version (left cons.old) (left cons.new) result }
{
    cons.in_constructed(Tag::new(Class::Context, 0), |contents| {
        contents.skip_u8_if(1)
    })
}

/// The AS numbers that these contents are, in sequence.
fn take_each_number(alloc: Global, contents: &mut Constructed<'_>) -> Result<Vec<u32>, DecodeError>
    ensures { TakesAll (λ v. v.items) each_number (left contents.old) (left contents.new) result }
{
    contents.take_each(alloc, |rest| take_as_number(rest))
}

/// A SEQUENCE OF AS numbers.
fn take_numbers(alloc: Global, cons: &mut Constructed<'_>) -> Result<Vec<u32>, DecodeError>
    ensures { Takes (λ v. v.items) numbers (left cons.old) (left cons.new) result }
{
    cons.in_sequence(|contents| take_each_number(alloc, contents))
}

/// A SEQUENCE of the version, a customer and a list of AS numbers, which may be any.
fn take_listed(alloc: Global, cons: &mut Constructed<'_>) -> Result<ListedProviders, DecodeError>
    ensures { Takes listed_of (around sequence fields) (left cons.old) (left cons.new) result }
{
    cons.in_sequence(
        |contents|
            ensures { TakesAll listed_of fields (left contents.old) (left contents.new) result }
        {
            take_version(contents)?;
            let customer = take_as_number(contents)?;
            let providers = take_numbers(alloc, contents)?;
            Ok(ListedProviders {
                customer,
                providers,
            })
        },
    )
}

/// Whether the first number is above this one, and each other above the one before it.
fn ascend_from(last: u32, numbers: &[u32]) -> bool
    ensures { IsTrue result ↔ AscendFrom last numbers.now }
{
    let mut high = last;
    let mut rest = numbers;
    'each: while let Some((first, following)) = rest.split_first() {
        if *first <= high {
            return false;
        }
        high = *first;
        rest = following;
    }
    true
}

/// Whether each number is above the one before it.
fn ascend(numbers: &[u32]) -> bool
    ensures { IsTrue result ↔ Ascend numbers.now }
{
    match numbers.split_first() {
        Some((first, following)) => ascend_from(*first, following),
        None => true,
    }
}

/// Whether none of the numbers is this one.
fn is_none_of(number: u32, numbers: &[u32]) -> bool
    ensures { IsTrue result ↔ IsNoneOf number numbers.now }
{
    let mut rest = numbers;
    'each: while let Some((first, following)) = rest.split_first() {
        if *first == number {
            return false;
        }
        rest = following;
    }
    true
}

/// Whether the numbers are providers of the customer: one at least, ascending, and the customer isn't one.
fn are_providers(customer: u32, providers: &[u32]) -> bool
    ensures answer { IsTrue result ↔ AreProviders customer providers.now }
    ensures numbers { AreNumbers providers.now }
{
    if providers.is_empty() {
        return false;
    }
    if !ascend(providers) {
        return false;
    }
    is_none_of(customer, providers)
}

impl AsProviderAttestation {
    /// The attestation that these are the providers of the customer. It allocates nothing.
    ///
    /// Returns None where there is no provider, one isn't above the one before it, or one is the customer.
    pub fn new(customer: u32, providers: Vec<u32>) -> Option<AsProviderAttestation>
        ensures some { IsSome result ↔ IsAttestation (aspa_parts customer providers.items) }
        ensures value { IfSome result (λ x. x ≡ aspa_parts customer providers.items) }
    {
        if !are_providers(customer, providers.as_slice()) {
            return None;
        }
        Some(AsProviderAttestation {
            customer,
            providers,
        })
    }

    /// Reads an attestation, in DER: a SEQUENCE of the version, which is 1 under the explicit tag 0; of the customer;
    /// and of a list of providers, one at least, each above the one before it, of which none is the customer; and
    /// nothing else.
    ///
    /// The errors are those of a SEQUENCE; then that of the leftmost part that could not be read, or `Trailing` if more
    /// follows; then `Content` for other providers; `OutOfMemory` if allocation fails. An error leaves the cursor where
    /// it was.
    pub fn take_from(
        alloc: Global,
        cons: &mut Constructed<'_>,
    ) -> Result<AsProviderAttestation, DecodeError>
        ensures { Takes (λ x. x) aspa (left cons.old) (left cons.new) result }
    {
        let mut after = *cons;
        let listed = take_listed(alloc, &mut after)?;
        if !are_providers(listed.customer, listed.providers.as_slice()) {
            return Err(DecodeError::content("invalid providers"));
        }
        *cons = after;
        Ok(AsProviderAttestation {
            customer: listed.customer,
            providers: listed.providers,
        })
    }

    /// An attestation, and nothing else: the content of a signed object of this type.
    ///
    /// The errors are those of [AsProviderAttestation::take_from]; then `Trailing` if something follows.
    pub fn decode(alloc: Global, octets: &[u8]) -> Result<AsProviderAttestation, DecodeError>
        ensures { TakesWhole (λ x. x) aspa octets.now result }
    {
        Constructed::from_slice(octets).whole(|cons| AsProviderAttestation::take_from(alloc, cons))
    }

    /// The customer.
    pub fn customer_as(&self) -> u32
        ensures { result ≡ self.now.customer }
    {
        self.customer
    }

    /// The providers, in ascending order: one at least, and none is the customer.
    pub fn providers(&self) -> &[u32]
        ensures providers { result.now ≡ self.now.providers }
        ensures legal { IsAttestation self.now }
    {
        self.providers.as_slice()
    }
}
