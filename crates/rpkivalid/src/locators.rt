//! The locators that are asked for.

ghost use Rattle.std.specs.Prelude.{◌≡◌, true, false, IfOk, IfErr, bytes_eq, map, string_bytes};
ghost use Rattle.std.specs.List.{list_any};
ghost use Rattle.rpkivalid.specs.Denying.{IsLocatorDenial, IsLocatorDenialAt};
ghost use Rattle.rpkivalid.specs.Locators.{name_of, is_among, once, IsLocatorIn, AreLocatorsIn};
ghost use Rattle.rpkivalid.specs.LocatorsView.{named_of, AddsFirst, IsFirstDenial, IsNextDenial, IsNextIn};

use crate::denial::Denial;
use crate::sources::Sources;
use rpki_locator::{Locator, LocatorError};
use std::alloc::Global;
use std::path::Path;

/// A locator and its name.
#[derive(Drop)]
pub struct Named {
    /// The name.
    pub name: String,
    /// The locator.
    pub locator: Locator,
}

/// The name of the locator in a file: that of the file, without what follows the last full stop.
pub fn name_of(file: &str) -> &str
    ensures { result.now ≡ name_of file.now }
{
    match Path::new(file).file_stem() {
        Some(name) => name,
        None => file,
    }
}

/// The locator in the file, which has this number.
fn locator_in<S: Sources>(
    alloc: Global,
    sources: &S,
    file: &str,
    number: usize,
) -> Result<Named, Denial>
    ensures ok { IfOk result (λ named. IsLocatorIn (S.holds sources.now) file.now (named_of named)) }
    ensures err { IfErr result (IsLocatorDenialAt (S.holds sources.now) file.now number) }
{
    let Some(octets) = sources.read(alloc, file)? else {
        return Err(Denial::NoFile(number));
    };
    let locator = match Locator::read(alloc, octets.as_slice()) {
        Ok(locator) => locator,
        Err(LocatorError::OutOfMemory) => return Err(Denial::OutOfMemory),
        Err(e) => return Err(Denial::NoLocator(number, e)),
    };
    let name = String::from_str(alloc, name_of(file))?;
    Ok(Named { name, locator })
}

/// Whether the file is among these.
fn is_among(files: &[&str], file: &str) -> bool
    ensures { result ≡ is_among (map (λ one. one.now) files.now) file.now }
{
    one_is(files, file)
}

/// Whether one of the files has this name.
fn one_is(files: &[&str], file: &str) -> bool
    ensures { result ≡ list_any (λ one. bytes_eq one.now file.now) files.now }
{
    files.iter().any(|one| *one == file)
}

/// Whether one of the locators has this name.
fn is_named(all: &[Named], name: &str) -> bool
    ensures { result ≡ list_any (λ one. bytes_eq (string_bytes one.name) name.now) all.now }
{
    all.iter().any(|one| one.name.as_str() == name)
}

/// Adds the locator in the file, which has this number, where the file is not among those that follow.
///
/// Returns `SameName` if another one has its name.
fn add_once<S: Sources>(
    alloc: Global,
    sources: &S,
    all: &mut Vec<Named>,
    following: &[&str],
    file: &str,
    number: usize,
) -> Result<(), Denial>
    ensures same { IfOk result (λ _. is_among (map (λ one. one.now) following.now) file.now ≡ true
        → all.new.items ≡ all.old.items) }
    ensures next { IfOk result (λ _. is_among (map (λ one. one.now) following.now) file.now ≡ false
        → IsNextIn (S.holds sources.now) file.now all.old.items all.new.items) }
    ensures err { IfErr result (IsNextDenial (S.holds sources.now) file.now number all.old.items
        (is_among (map (λ one. one.now) following.now) file.now)) }
{
    if is_among(following, file) {
        return Ok(());
    }
    if is_named(all.as_slice(), name_of(file)) {
        return Err(Denial::SameName(number));
    }
    let named = locator_in(alloc, sources, file, number)?;
    all.push(named)?;
    Ok(())
}

/// Adds the locator in the first of these files, which has this number, where the file is not among the others.
fn add_first<S: Sources>(
    alloc: Global,
    sources: &S,
    all: &mut Vec<Named>,
    rest: &[&str],
    number: usize,
) -> Result<(), Denial>
    ensures ok { IfOk result (λ _. AddsFirst (S.holds sources.now) (map (λ file. file.now) rest.now) all.old.items
        all.new.items) }
    ensures err { IfErr result (IsFirstDenial (S.holds sources.now) (map (λ file. file.now) rest.now) number
        all.old.items) }
{
    match rest.split_first() {
        Some((file, following)) => add_once(alloc, sources, all, following, file, number),
        None => Ok(()),
    }
}

/// The locators in the files, in their order, each file once, where it is last.
pub fn locators_in<S: Sources>(
    alloc: Global,
    sources: &S,
    files: &[&str],
) -> Result<Vec<Named>, Denial>
    ensures ok { IfOk result (λ all. AreLocatorsIn (S.holds sources.now) (once (map (λ file. file.now) files.now))
        (map named_of all.items)) }
    ensures err { IfErr result (IsLocatorDenial (S.holds sources.now) (map (λ file. file.now) files.now)) }
{
    let mut all = Vec::new(alloc);
    for at in 0..files.len() {
        let (_, rest) = files.split_at(at);
        add_first(alloc, sources, &mut all, rest, at)?;
    }
    Ok(all)
}
