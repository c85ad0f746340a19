//! Validated ASPA payloads: the providers of autonomous systems (draft-ietf-sidrops-aspa-profile, version 1).

ghost use Rattle.std.specs.Prelude.{◌≡◌, ◌++◌, IfOk, OnOk, map};
ghost use Rattle.rpki_payloads.specs.Vap.{pair_cmp, pairs_of, run, vaps};
ghost use Rattle.rpki_payloads.specs.Sets.{IsSetOf};
ghost use Rattle.std.specs.List.{Contains};

use crate::order::sort_once;
use rpki_contents::AsProviderAttestation;
use std::alloc::{AllocError, Global};
use std::marker::Model;

/// A provider of an autonomous system. In order the customer decides, and then the provider.
#[derive(Clone, Copy, Debug, PartialEq, Eq, PartialOrd, Ord)]
pub struct CustomerProvider {
    /// The AS number of the customer.
    pub customer: u32,
    /// The AS number of the provider.
    pub provider: u32,
}

/// Adds what an attestation says: the customer with each of its providers, in their order.
///
/// Returns `AllocError` if allocation fails.
pub fn push_pairs(
    pairs: &mut Vec<CustomerProvider>,
    attestation: &AsProviderAttestation,
) -> Result<(), AllocError>
    ensures { OnOk result (pairs.new.items ≡ pairs.old.items ++ pairs_of attestation.now) }
{
    let customer = attestation.customer_as();
    'providers: for provider in attestation.providers() {
        pairs.push(CustomerProvider {
            customer,
            provider: *provider,
        })?;
    }
    Ok(())
}

/// Puts the pairs in order, each once.
pub fn sort_pairs(pairs: &mut Vec<CustomerProvider>)
    ensures { IsSetOf pair_cmp (Contains pairs.old.items) pairs.new.items }
{
    sort_once(pairs);
}

/// An autonomous system and its providers, of which an attestation, or several together, say that they are all.
#[derive(Drop)]
pub struct Vap {
    customer: u32,
    providers: Vec<u32>,
}

impl Model for Vap {
    ghost use Rattle.rpki_contents.specs.Aspa.{AspaParts, aspa_parts};

    ghost Value = { AspaParts };

    ghost view = { λ x. aspa_parts x.customer x.providers.items };
}

impl Vap {
    /// The AS number of the customer.
    pub fn customer(&self) -> u32
        ensures { result ≡ self.now.customer }
    {
        self.customer
    }

    /// The AS numbers of the providers.
    pub fn providers(&self) -> &[u32]
        ensures { result.now ≡ self.now.providers }
    {
        self.providers.as_slice()
    }
}

/// How many of the first pairs are of this customer.
fn run_length(customer: u32, pairs: &[CustomerProvider]) -> usize
    ensures { result ≡ run customer pairs.now }
{
    let mut count = 0;
    let mut rest = pairs;
    'pairs: while let Some((first, following)) = rest.split_first() {
        if first.customer != customer {
            return count;
        }
        count += 1;
        rest = following;
    }
    count
}

/// The providers of pairs, in their order.
fn providers_in(alloc: Global, pairs: &[CustomerProvider]) -> Result<Vec<u32>, AllocError>
    ensures { IfOk result (λ providers. providers.items ≡ map (λ v. v.provider) pairs.now) }
{
    let mut providers = Vec::new(alloc);
    'pairs: for pair in pairs {
        providers.push(pair.provider)?;
    }
    Ok(providers)
}

/// The customers of the pairs, in their order, each with the providers that follow one another. Where the pairs are in
/// order, each customer is there once, with all its providers.
///
/// Returns `AllocError` if allocation fails.
pub fn vaps_of(alloc: Global, pairs: &[CustomerProvider]) -> Result<Vec<Vap>, AllocError>
    ensures { IfOk result (λ all. all.items ≡ vaps pairs.now) }
{
    let mut all = Vec::new(alloc);
    let mut rest = pairs;
    'pairs: while let Some((first, _)) = rest.split_first() {
        let (same, following) = rest.split_at(run_length(first.customer, rest));
        let providers = providers_in(alloc, same)?;
        all.push(Vap {
            customer: first.customer,
            providers,
        })?;
        rest = following;
    }
    Ok(all)
}
