//! Files of local exceptions that are in conflict (RFC 8416 4.2).

ghost use Rattle.std.specs.Prelude.{◌≡◌, ◌++◌, ◌↔◌, IfOk, OnOk, IsTrue};
ghost use Rattle.std.specs.List.{Contains};
ghost use Rattle.std.specs.List.Sorted.{IsNonDecreasing};
ghost use Rattle.rpki_payloads.specs.Conflict.{IsConflict, IsOverlap, OverlapsAt, ShareAddress};
ghost use Rattle.rpki_payloads.specs.Conflict.{added_numbers, added_prefixes, filtered_numbers, filtered_prefixes};
ghost use Rattle.rpki_payloads.specs.Conflict.{numbers_of, prefixes_of};
ghost use Rattle.rpki_payloads.specs.Exceptions.{Finds};

use crate::exceptions::{Exceptions, NamedExceptions};
use crate::filters::PrefixFilter;
use crate::key_filters::KeyFilter;
use crate::router_key::RouterKey;
use crate::shared::overlapping;
use crate::vrp::Vrp;
use rpki_resources::Prefix;
use std::alloc::{AllocError, Global};

/// What two files of local exceptions have in common, and may not.
#[derive(Clone, Copy, Debug, Drop)]
pub enum Overlap {
    /// Their name.
    Name,
    /// An address: that prefix of the first has it, and this one of the other (RFC 8416 4.2, case 1).
    Prefixes(Prefix, Prefix),
    /// An AS number, of keys of routers (RFC 8416 4.2, case 2).
    Asn(u32),
}

/// Two files of local exceptions, by their numbers from 0 on, and what they have in common.
#[derive(Clone, Copy, Debug, Drop)]
pub struct Conflict {
    /// The number of the first.
    pub first: usize,
    /// That of the other, which is larger.
    pub second: usize,
    /// What they have in common.
    pub overlap: Overlap,
}

/// Adds the prefixes of filters.
fn push_filtered_prefixes(all: &mut Vec<Prefix>, filters: &[PrefixFilter]) -> Result<(), AllocError>
    ensures { OnOk result (all.new.items ≡ all.old.items ++ filtered_prefixes filters.now) }
{
    'filters: for filter in filters {
        if let Some(prefix) = filter.prefix {
            all.push(prefix)?;
        }
    }
    Ok(())
}

/// Adds the prefixes of assertions.
fn push_added_prefixes(all: &mut Vec<Prefix>, vrps: &[Vrp]) -> Result<(), AllocError>
    ensures { OnOk result (all.new.items ≡ all.old.items ++ added_prefixes vrps.now) }
{
    'vrps: for vrp in vrps {
        all.push(vrp.prefix())?;
    }
    Ok(())
}

/// The prefixes of filters and of assertions.
fn prefixes_of(alloc: Global, exceptions: &Exceptions) -> Result<Vec<Prefix>, AllocError>
    ensures { IfOk result (λ all. all.items ≡ prefixes_of exceptions.now) }
{
    let mut all = Vec::new(alloc);
    push_filtered_prefixes(&mut all, exceptions.prefix_filters.as_slice())?;
    push_added_prefixes(&mut all, exceptions.vrps.as_slice())?;
    Ok(all)
}

/// Adds the AS numbers of filters of keys.
fn push_filtered_numbers(all: &mut Vec<u32>, filters: &[KeyFilter]) -> Result<(), AllocError>
    ensures { OnOk result (all.new.items ≡ all.old.items ++ filtered_numbers filters.now) }
{
    'filters: for filter in filters {
        if let Some(asn) = filter.asn {
            all.push(asn)?;
        }
    }
    Ok(())
}

/// Adds the AS numbers of keys.
fn push_added_numbers(all: &mut Vec<u32>, keys: &[RouterKey]) -> Result<(), AllocError>
    ensures { OnOk result (all.new.items ≡ all.old.items ++ added_numbers keys.now) }
{
    'keys: for key in keys {
        all.push(key.first)?;
    }
    Ok(())
}

/// The AS numbers of filters of keys and of keys that are added.
fn numbers_of(alloc: Global, exceptions: &Exceptions) -> Result<Vec<u32>, AllocError>
    ensures { IfOk result (λ all. all.items ≡ numbers_of exceptions.now) }
{
    let mut all = Vec::new(alloc);
    push_filtered_numbers(&mut all, exceptions.key_filters.as_slice())?;
    push_added_numbers(&mut all, exceptions.keys.as_slice())?;
    Ok(all)
}

/// Whether the number is one of these, which are in order.
fn is_among(number: u32, others: &[u32]) -> bool
    requires { IsNonDecreasing others.now }
    ensures { IsTrue result ↔ Contains others.now number }
{
    others.binary_search(&number).is_ok()
}

/// A number that is among both, of which the others are in order.
fn in_both(numbers: &[u32], others: &[u32]) -> Option<u32>
    requires { IsNonDecreasing others.now }
    ensures { Finds (λ number. Contains numbers.now number × Contains others.now number) result }
{
    let mut rest = numbers;
    'numbers: while let Some((first, following)) = rest.split_first() {
        if is_among(*first, others) {
            return Some(*first);
        }
        rest = following;
    }
    None
}

/// The prefixes of two files that have an address in common.
fn prefixes_in_both(
    alloc: Global,
    one: &Exceptions,
    other: &Exceptions,
) -> Result<Option<(Prefix, Prefix)>, AllocError>
    ensures { IfOk result (Finds (λ both. Contains (prefixes_of one.now) both.0
        × Contains (prefixes_of other.now) both.1 × ShareAddress both.0 both.1)) }
{
    let prefixes = prefixes_of(alloc, one)?;
    let others = prefixes_of(alloc, other)?;
    overlapping(alloc, prefixes.as_slice(), others.as_slice())
}

/// An AS number of keys of two files.
fn number_in_both(
    alloc: Global,
    one: &Exceptions,
    other: &Exceptions,
) -> Result<Option<u32>, AllocError>
    ensures { IfOk result (Finds (λ number. Contains (numbers_of one.now) number
        × Contains (numbers_of other.now) number)) }
{
    let numbers = numbers_of(alloc, one)?;
    let mut others = numbers_of(alloc, other)?;
    others.sort_unstable();
    Ok(in_both(numbers.as_slice(), others.as_slice()))
}

/// What the two files have in common, and may not.
fn overlap_of(
    alloc: Global,
    one: &NamedExceptions,
    other: &NamedExceptions,
) -> Result<Option<Overlap>, AllocError>
    ensures { IfOk result (Finds (IsOverlap one.now other.now)) }
{
    if one.name.as_str() == other.name.as_str() {
        return Ok(Some(Overlap::Name));
    }
    if let Some((prefix, covering)) = prefixes_in_both(alloc, &one.exceptions, &other.exceptions)? {
        return Ok(Some(Overlap::Prefixes(prefix, covering)));
    }
    match number_in_both(alloc, &one.exceptions, &other.exceptions)? {
        Some(asn) => Ok(Some(Overlap::Asn(asn))),
        None => Ok(None),
    }
}

/// The number of one of these files, and what it has in common with the other.
fn overlap_with(
    alloc: Global,
    files: &[NamedExceptions],
    other: &NamedExceptions,
) -> Result<Option<(usize, Overlap)>, AllocError>
    ensures { IfOk result (Finds (λ found. OverlapsAt files.now other.now found.0 found.1)) }
{
    'files: for at in 0..files.len() {
        let found = overlap_of(alloc, &files[at], other)?;
        if let Some(overlap) = found {
            return Ok(Some((at, overlap)));
        }
    }
    Ok(None)
}

/// Two of the files of local exceptions that are in conflict (RFC 8416 4.2): an address is in a prefix of filters or
/// assertions of each, or an AS number is used by filters or assertions of keys of each; or that have one name. None if
/// no two are. Two files take n log n steps.
///
/// Returns `AllocError` if allocation fails.
pub fn conflict_in(alloc: Global, files: &[NamedExceptions]) -> Result<Option<Conflict>, AllocError>
    ensures { IfOk result (Finds (IsConflict files.now)) }
{
    'files: for second in 0..files.len() {
        let (before, _) = files.split_at(second);
        let found = overlap_with(alloc, before, &files[second])?;
        if let Some((first, overlap)) = found {
            return Ok(Some(Conflict {
                first,
                second,
                overlap,
            }));
        }
    }
    Ok(None)
}
