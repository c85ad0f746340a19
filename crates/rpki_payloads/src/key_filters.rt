//! Filters of the keys of routers, of local exceptions (RFC 8416 3.3.2). They are found by what they ask, so that those
//! that match a key are found among many.

ghost use Rattle.std.specs.Prelude.{◌≡◌, ◌≤◌, ◌↔◌, ◌⊎◌, ◌++◌, ◌∷◌, ℕ, [], false, IsTrue, IfOk, OnOk, None, Some};
ghost use Rattle.std.specs.BTreeSet.{keys as keys_of};
ghost use Rattle.std.specs.List.{Contains};
ghost use Rattle.std.specs.List.Sorted.{IsStrictlySortedBy};
ghost use Rattle.std.specs.Ordering.{is_gt, nat_cmp};
ghost use Rattle.rpki_payloads.specs.declared.key_filters.Asked.{Asked as A};
ghost use Rattle.rpki_payloads.specs.declared.router_key.RouterKey.{RouterKey as R};
ghost use Rattle.rpki_payloads.specs.Asked.{AsksAll, AsksFor, IsAskedBy, IsLeftOf, IsPart, IsWithin, asked, asked_by};
ghost use Rattle.rpki_payloads.specs.Asked.{key_from};
ghost use Rattle.rpki_payloads.specs.Filtered.{below_number, left_by_all};
ghost use Rattle.rpki_payloads.specs.RouterKey.{router_key};
ghost use Rattle.rpki_payloads.specs.Vrp.{IsExact};

use crate::filter_keys::{insert_key, is_key};
use crate::order::sort_once;
use crate::router_key::RouterKey;
use std::alloc::{AllocError, Global};
use std::collections::BTreeSet;
use std::collections::btree_set::Range;

/// Which keys of routers are taken away: those with the filter's identifier, for the filter's AS number, as far as it
/// has them (RFC 8416 3.3.2).
#[derive(Clone, Copy, Debug, PartialEq, Eq)]
pub struct KeyFilter {
    /// The AS number.
    pub asn: Option<u32>,
    /// The identifier of the key: twenty octets (RFC 6487 4.8.2).
    pub identifier: Option<[u8; 20]>,
}

/// What a filter asks of keys, as far as it asks for it. Those of one identifier follow each other, by AS number.
#[derive(Clone, Copy, PartialEq, Eq, PartialOrd, Ord)]
struct Asked {
    /// The identifier.
    identifier: Option<[u8; 20]>,
    /// The AS number.
    asn: Option<u32>,
}

/// What the filter asks.
fn asked_by(filter: &KeyFilter) -> Asked
    ensures { result ≡ asked_by filter.now }
{
    asking(filter.identifier, filter.asn)
}

/// What each of the filters asks.
fn asked_of(alloc: Global, filters: &[KeyFilter]) -> Result<BTreeSet<Asked>, AllocError>
    ensures { IfOk result (λ all. (a : A) → Contains (keys_of all) a ↔ IsAskedBy filters.now a) }
{
    let mut all = BTreeSet::new(alloc);
    let mut rest = filters;
    'filters: while let Some((filter, following)) = rest.split_first() {
        insert_key(&mut all, asked_by(filter))?;
        rest = following;
    }
    Ok(all)
}

/// What is asked by this identifier and this AS number.
fn asking(identifier: Option<[u8; 20]>, asn: Option<u32>) -> Asked
    ensures { result ≡ asked identifier asn }
{
    Asked { identifier, asn }
}

/// Whether one of them asks this.
fn has(all: &BTreeSet<Asked>, identifier: Option<[u8; 20]>, asn: Option<u32>) -> bool
    ensures { IsTrue result ↔ Contains (keys_of all.now) (asked identifier asn) }
{
    is_key(all, &asking(identifier, asn))
}

/// The twenty octets of its identifier.
fn identifier_of(key: &RouterKey) -> [u8; 20]
    ensures { result ≡ key.now.identifier }
{
    key.identifier.into()
}

/// Whether one of them asks for the key, whatever its AS numbers.
fn asks_all(all: &BTreeSet<Asked>, key: &RouterKey) -> bool
    ensures { IsTrue result ↔ AsksAll (keys_of all.now) key.now }
{
    has(all, None, None) || has(all, Some(identifier_of(key)), None)
}

/// Those from one to another, in order.
fn between<'a, T: Ord + Drop>(all: &'a BTreeSet<T>, from: T, to: T) -> Range<'a, T>
    requires { is_gt (T.cmp from to) ≡ false }
    ensures { IsExact T.cmp → (t : T) → Contains result t
        ↔ (Contains (keys_of all.now) t × (is_gt (T.cmp from t) ≡ false) × (is_gt (T.cmp t to) ≡ false)) }
{
    all.range(from..=to)
}

/// Adds the AS numbers of the key that these ask with this identifier, or without one.
fn push_numbers(
    numbers: &mut Vec<u32>,
    all: &BTreeSet<Asked>,
    identifier: Option<[u8; 20]>,
    key: &RouterKey,
) -> Result<(), AllocError>
    requires { key.now.first ≤ key.now.last }
    ensures { OnOk result ((n : ℕ) → Contains numbers.new.items n ↔ (Contains numbers.old.items n
        ⊎ (IsWithin key.now n × Contains (keys_of all.now) (asked identifier (Some n))))) }
{
    let from = asking(identifier, Some(key.first));
    let to = asking(identifier, Some(key.last));
    let mut rest = between(all, from, to);
    'rest: while let Some(one) = rest.next() {
        if let Some(number) = one.asn {
            numbers.push(number)?;
        }
    }
    Ok(())
}

/// The AS numbers of the key that one of them asks, in no order.
fn numbers_of(alloc: Global, all: &BTreeSet<Asked>, key: &RouterKey) -> Result<Vec<u32>, AllocError>
    ensures { IfOk result (λ numbers. (n : ℕ) → Contains numbers.items n
        ↔ (IsWithin key.now n × AsksFor (keys_of all.now) key.now n)) }
{
    let mut numbers = Vec::new(alloc);
    if key.last < key.first {
        return Ok(numbers);
    }
    push_numbers(&mut numbers, all, None, key)?;
    push_numbers(&mut numbers, all, Some(identifier_of(key)), key)?;
    Ok(numbers)
}

/// The AS numbers of the key that one of them asks, in order.
fn numbers_asked(
    alloc: Global,
    all: &BTreeSet<Asked>,
    key: &RouterKey,
) -> Result<Vec<u32>, AllocError>
    ensures order { IfOk result (λ numbers. IsStrictlySortedBy nat_cmp numbers.items) }
    ensures each { IfOk result (λ numbers. (n : ℕ) → Contains numbers.items n
        ↔ (IsWithin key.now n × AsksFor (keys_of all.now) key.now n)) }
{
    let mut numbers = numbers_of(alloc, all, key)?;
    sort_once(&mut numbers);
    Ok(numbers)
}

/// Adds the key for the AS numbers from one to another.
fn push_range(
    keys: &mut Vec<RouterKey>,
    key: &RouterKey,
    first: u32,
    last: u32,
) -> Result<(), AllocError>
    ensures { OnOk result (keys.new.items
        ≡ keys.old.items ++ router_key first last key.now.identifier key.now.info ∷ []) }
{
    let info = key.info.clone()?;
    keys.push(RouterKey {
        first,
        last,
        identifier: key.identifier,
        info,
    })?;
    Ok(())
}

/// Adds the key for its AS numbers from one to below another.
fn push_below(
    keys: &mut Vec<RouterKey>,
    key: &RouterKey,
    first: u32,
    number: u32,
) -> Result<(), AllocError>
    ensures { OnOk result (keys.new.items ≡ keys.old.items ++ below_number number (key_from first key.now)) }
{
    if first < number {
        return push_range(keys, key, first, number - 1);
    }
    Ok(())
}

/// Adds the key for its AS numbers but these, which are in order: a key for those between two of them that follow each
/// other.
fn push_parts(keys: &mut Vec<RouterKey>, numbers: &[u32], key: &RouterKey) -> Result<(), AllocError>
    requires order { IsStrictlySortedBy nat_cmp numbers.now }
    requires within { (n : ℕ) → Contains numbers.now n → IsWithin key.now n }
    ensures { OnOk result ((q : R) → Contains keys.new.items q
        ↔ (Contains keys.old.items q ⊎ IsPart (Contains numbers.now) key.now q)) }
{
    let mut first = key.first;
    let mut rest = numbers;
    'numbers: while let Some((number, following)) = rest.split_first() {
        push_below(keys, key, first, *number)?;
        if *number == key.last {
            return Ok(());
        }
        first = *number + 1;
        rest = following;
    }
    push_range(keys, key, first, key.last)?;
    Ok(())
}

/// Adds the parts of the key that none of these asks for.
fn push_left(
    keys: &mut Vec<RouterKey>,
    alloc: Global,
    all: &BTreeSet<Asked>,
    key: &RouterKey,
) -> Result<(), AllocError>
    ensures { OnOk result ((q : R) → Contains keys.new.items q
        ↔ (Contains keys.old.items q ⊎ IsLeftOf (keys_of all.now) key.now q)) }
{
    if asks_all(all, key) {
        return Ok(());
    }
    let numbers = numbers_asked(alloc, all, key)?;
    push_parts(keys, numbers.as_slice(), key)?;
    Ok(())
}

/// Copies of keys.
pub(crate) fn copied(alloc: Global, keys: &[RouterKey]) -> Result<Vec<RouterKey>, AllocError>
    ensures { IfOk result (λ copies. copies.items ≡ keys.now) }
{
    let mut copies = Vec::new(alloc);
    let mut rest = keys;
    'each: while let Some((key, following)) = rest.split_first() {
        push_range(&mut copies, key, key.first, key.last)?;
        rest = following;
    }
    Ok(copies)
}

/// What the filters leave of keys, in no order. For each key it takes the logarithm of the number of filters, and for
/// each AS number of a key that one of them asks.
///
/// Returns `AllocError` if allocation fails.
pub(crate) fn left_by_all(
    alloc: Global,
    filters: &[KeyFilter],
    keys: &[RouterKey],
) -> Result<Vec<RouterKey>, AllocError>
    ensures { IfOk result (λ left. (q : R) → Contains left.items q ↔ Contains (left_by_all filters.now keys.now) q) }
{
    let all = asked_of(alloc, filters)?;
    let mut left = Vec::new(alloc);
    let mut rest = keys;
    'each: while let Some((key, following)) = rest.split_first() {
        push_left(&mut left, alloc, &all, key)?;
        rest = following;
    }
    Ok(left)
}
