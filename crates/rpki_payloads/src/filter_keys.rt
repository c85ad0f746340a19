//! Filters of prefixes by what they ask, so that one that matches a payload is found among many.

ghost use Rattle.std.specs.Prelude.{◌≡◌, ◌↔◌, ◌⊎◌, IsTrue, IfOk, None, OnOk, Some};
ghost use Rattle.std.specs.BTreeSet.{keys};
ghost use Rattle.std.specs.List.{Contains};
ghost use Rattle.rpki_payloads.specs.declared.filter_keys.FilterKey.{FilterKey as K};
ghost use Rattle.rpki_payloads.specs.FilterKeys.{AreKeysOf, AskFor, Asks, HasCover, HasFirst, IsAsked, filter_key};
ghost use Rattle.rpki_payloads.specs.FilterKeys.{first_bits_of, key_of, lengths_in};
ghost use Rattle.rpki_payloads.specs.Vrp.{IsExact};

use crate::covered::{first_bits, width_of};
use crate::filters::PrefixFilter;
use crate::order::sort_once;
use crate::vrp::Vrp;
use rpki_resources::Prefix;
use std::alloc::{AllocError, Global};
use std::collections::BTreeSet;

/// The bits that addresses begin with.
#[derive(Clone, Copy, PartialEq, Eq, PartialOrd, Ord)]
struct FirstBits {
    /// How many bits the addresses have.
    width: u8,
    /// How many of them these are.
    len: u8,
    /// The number that they make.
    bits: u128,
}

/// What a filter asks of payloads, as far as it asks for it.
#[derive(Clone, Copy, PartialEq, Eq, PartialOrd, Ord)]
struct FilterKey {
    /// The AS number.
    asn: Option<u32>,
    /// The bits that their addresses begin with.
    first: Option<FirstBits>,
}

/// What filters ask.
#[derive(Drop)]
pub(crate) struct FilterKeys {
    /// What each of them asks.
    keys: BTreeSet<FilterKey>,
    /// The lengths of their prefixes, each once.
    lengths: Vec<u8>,
}

/// The bits that addresses of the prefix begin with, so many.
fn first_bits_of(prefix: Prefix, len: u8) -> FirstBits
    ensures { result ≡ first_bits_of prefix len }
{
    FirstBits {
        width: width_of(prefix.addr),
        len,
        bits: first_bits(prefix.addr, len),
    }
}

/// What the filter asks.
fn key_of(filter: PrefixFilter) -> FilterKey
    ensures { result ≡ key_of filter }
{
    let first = match filter.prefix {
        Some(prefix) => Some(first_bits_of(prefix, prefix.len)),
        None => None,
    };
    FilterKey {
        asn: filter.asn,
        first,
    }
}

/// Whether the key is among these.
pub(crate) fn is_key<T: Ord>(all: &BTreeSet<T>, key: &T) -> bool
    ensures { IsExact T.cmp → IsTrue result ↔ Contains (keys all.now) key.now }
{
    all.contains(key)
}

/// Adds the key.
pub(crate) fn insert_key<T: Ord + Drop>(all: &mut BTreeSet<T>, key: T) -> Result<(), AllocError>
    ensures { OnOk result (IsExact T.cmp → (k : T) → Contains (keys all.new) k
        ↔ (Contains (keys all.old) k ⊎ (key ≡ k))) }
{
    all.insert(key)?;
    Ok(())
}

/// What each of the filters asks.
fn keys_of(alloc: Global, filters: &[PrefixFilter]) -> Result<BTreeSet<FilterKey>, AllocError>
    ensures { IfOk result (λ all. (k : K) → Contains (keys all) k ↔ IsAsked filters.now k) }
{
    let mut all = BTreeSet::new(alloc);
    let mut rest = filters;
    'filters: while let Some((filter, following)) = rest.split_first() {
        insert_key(&mut all, key_of(*filter))?;
        rest = following;
    }
    Ok(all)
}

/// The lengths of the prefixes of filters, in their order.
fn lengths_in(alloc: Global, filters: &[PrefixFilter]) -> Result<Vec<u8>, AllocError>
    ensures { IfOk result (λ all. all.items ≡ lengths_in filters.now) }
{
    let mut all = Vec::new(alloc);
    let mut rest = filters;
    'filters: while let Some((filter, following)) = rest.split_first() {
        if let Some(prefix) = filter.prefix {
            all.push(prefix.len)?;
        }
        rest = following;
    }
    Ok(all)
}

impl FilterKeys {
    /// What the filters ask.
    pub(crate) fn of(alloc: Global, filters: &[PrefixFilter]) -> Result<FilterKeys, AllocError>
        ensures { IfOk result (AreKeysOf filters.now) }
    {
        let keys = keys_of(alloc, filters)?;
        let mut lengths = lengths_in(alloc, filters)?;
        sort_once(&mut lengths);
        Ok(FilterKeys { keys, lengths })
    }

    /// Whether one of them asks this.
    fn has(&self, asn: Option<u32>, first: Option<FirstBits>) -> bool
        ensures { IsTrue result ↔ Contains (keys self.now.keys) (filter_key asn first) }
    {
        is_key(&self.keys, &FilterKey { asn, first })
    }

    /// Whether one of them asks this number, and the first bits of the prefix, so many as it has.
    fn has_first(&self, asn: Option<u32>, prefix: Prefix, len: u8) -> bool
        ensures { IsTrue result ↔ HasFirst self.now asn prefix len }
    {
        if len > prefix.len {
            return false;
        }
        self.has(asn, Some(first_bits_of(prefix, len)))
    }

    /// Whether one of them asks this number, and for a prefix that covers this one.
    fn has_cover(&self, asn: Option<u32>, prefix: Prefix) -> bool
        ensures { IsTrue result ↔ HasCover self.now asn prefix }
    {
        let mut rest = self.lengths.as_slice();
        'lengths: while let Some((len, following)) = rest.split_first() {
            if self.has_first(asn, prefix, *len) {
                return true;
            }
            rest = following;
        }
        false
    }

    /// Whether one of them asks this number, and for a prefix that covers this one, or for none.
    fn ask(&self, asn: Option<u32>, prefix: Prefix) -> bool
        ensures { IsTrue result ↔ Asks self.now asn prefix }
    {
        self.has(asn, None) || self.has_cover(asn, prefix)
    }

    /// Whether one of them asks this number, or none, and for a prefix that covers this one, or for none.
    fn ask_either(&self, asn: u32, prefix: Prefix) -> bool
        ensures { IsTrue result ↔ (Asks self.now None prefix ⊎ Asks self.now (Some asn) prefix) }
    {
        self.ask(None, prefix) || self.ask(Some(asn), prefix)
    }

    /// Whether one of them asks for the payload.
    pub(crate) fn ask_for(&self, vrp: Vrp) -> bool
        ensures { IsTrue result ↔ AskFor self.now vrp }
    {
        self.ask_either(vrp.as_id, vrp.prefix())
    }
}
