//! Local exceptions (RFC 8416): what a network adds to what is valid, and what it takes away.

ghost use Rattle.std.specs.Prelude.{◌≡◌, IfOk, OnOk, string_bytes};
ghost use Rattle.rpki_payloads.specs.Exceptions.{AreAdded, AreEach, AreExcepted, IsAsserted, IsWithout};
ghost use Rattle.rpki_payloads.specs.Exceptions.{key_filters_of, prefix_filters_of};

use crate::filter_keys::FilterKeys;
use crate::filters::{PrefixFilter, kept, kept_timed};
use crate::key_filters::{KeyFilter, copied, left_by_all};
use crate::order::sort_vrps;
use crate::payloads::Payloads;
use crate::router_key::{RouterKey, sort_keys};
use crate::timed::{endless_of, sort_timed};
use crate::vap::CustomerProvider;
use crate::vrp::Vrp;
use std::alloc::{AllocError, Global};

/// Local exceptions, as a file of RFC 8416 has them.
#[derive(Debug, Drop)]
pub struct Exceptions {
    /// Which prefixes that may be announced are taken away.
    pub prefix_filters: Vec<PrefixFilter>,
    /// Which keys of routers are taken away.
    pub key_filters: Vec<KeyFilter>,
    /// Prefixes that are added.
    pub vrps: Vec<Vrp>,
    /// Keys of routers that are added.
    pub keys: Vec<RouterKey>,
}

/// Local exceptions of a file, and the name of what they add.
#[derive(Debug, Drop)]
pub struct NamedExceptions {
    /// The name.
    pub name: String,
    /// The exceptions.
    pub exceptions: Exceptions,
}

/// A copy of pairs.
fn copied_pairs(
    alloc: Global,
    pairs: &[CustomerProvider],
) -> Result<Vec<CustomerProvider>, AllocError>
    ensures { IfOk result (λ copies. copies.items ≡ pairs.now) }
{
    Vec::from_slice(alloc, pairs)
}

/// The payloads under a locator that none of these filters matches, each once, in order.
fn without(
    alloc: Global,
    prefix_filters: &[PrefixFilter],
    key_filters: &[KeyFilter],
    one: &Payloads,
) -> Result<Payloads, AllocError>
    ensures { IfOk result (IsWithout prefix_filters.now key_filters.now one.now) }
{
    let filters = FilterKeys::of(alloc, prefix_filters)?;
    let mut vrps = kept(alloc, &filters, one.vrps())?;
    sort_vrps(&mut vrps);
    let mut timed = kept_timed(alloc, &filters, one.timed())?;
    sort_timed(&mut timed);
    let mut keys = left_by_all(alloc, key_filters, one.keys())?;
    sort_keys(&mut keys);
    let pairs = copied_pairs(alloc, one.pairs())?;
    let name = one.copied_name(alloc)?;
    Ok(Payloads::new(name, vrps, timed, pairs, keys, one.tally()))
}

/// The rest under each locator.
fn all_without(
    alloc: Global,
    prefix_filters: &[PrefixFilter],
    key_filters: &[KeyFilter],
    all: &[Payloads],
) -> Result<Vec<Payloads>, AllocError>
    ensures { IfOk result (λ left. AreEach (IsWithout prefix_filters.now key_filters.now) all.now left.items) }
{
    let mut left = Vec::new(alloc);
    'all: for one in all {
        let one = without(alloc, prefix_filters, key_filters, one)?;
        left.push(one)?;
    }
    Ok(left)
}

/// The filters of prefixes of all files, in sequence.
fn prefix_filters_of(
    alloc: Global,
    files: &[NamedExceptions],
) -> Result<Vec<PrefixFilter>, AllocError>
    ensures { IfOk result (λ all. all.items ≡ prefix_filters_of files.now) }
{
    let mut all = Vec::new(alloc);
    'files: for file in files {
        all.extend_from_slice(file.exceptions.prefix_filters.as_slice())?;
    }
    Ok(all)
}

/// The filters of keys of all files, in sequence.
fn key_filters_of(alloc: Global, files: &[NamedExceptions]) -> Result<Vec<KeyFilter>, AllocError>
    ensures { IfOk result (λ all. all.items ≡ key_filters_of files.now) }
{
    let mut all = Vec::new(alloc);
    'files: for file in files {
        all.extend_from_slice(file.exceptions.key_filters.as_slice())?;
    }
    Ok(all)
}

/// What is added, under this name, each once, in order.
fn asserted(alloc: Global, file: &NamedExceptions) -> Result<Payloads, AllocError>
    ensures { IfOk result (IsAsserted file.now) }
{
    let mut vrps = Vec::from_slice(alloc, file.exceptions.vrps.as_slice())?;
    sort_vrps(&mut vrps);
    let mut keys = copied(alloc, file.exceptions.keys.as_slice())?;
    sort_keys(&mut keys);
    let timed = endless_of(alloc, vrps.as_slice())?;
    let name = String::from_str(alloc, file.name.as_str())?;
    Ok(Payloads::new(name, vrps, timed, Vec::new(alloc), keys, None))
}

/// Adds what each file adds, under its name, after what is there.
fn push_asserted(
    alloc: Global,
    all: &mut Vec<Payloads>,
    files: &[NamedExceptions],
) -> Result<(), AllocError>
    ensures { OnOk result (AreAdded files.now all.old.items all.new.items) }
{
    'files: for file in files {
        let one = asserted(alloc, file)?;
        all.push(one)?;
    }
    Ok(())
}

/// The payloads with the exceptions of several files (RFC 8416 4.1, 4.2): those that no filter of any file matches,
/// under each locator; and then those that each file adds, under its name, which no filter takes away.
///
/// Returns `AllocError` if allocation fails.
pub fn excepted(
    alloc: Global,
    files: &[NamedExceptions],
    all: &[Payloads],
) -> Result<Vec<Payloads>, AllocError>
    ensures { IfOk result (λ new. AreExcepted files.now all.now new.items) }
{
    let prefix_filters = prefix_filters_of(alloc, files)?;
    let key_filters = key_filters_of(alloc, files)?;
    let mut shown = all_without(
        alloc,
        prefix_filters.as_slice(),
        key_filters.as_slice(),
        all,
    )?;
    push_asserted(alloc, &mut shown, files)?;
    Ok(shown)
}
