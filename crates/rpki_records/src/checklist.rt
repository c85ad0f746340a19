//! Signed checklists (RFC 9323), read in place without memory.

ghost use Rattle.std.specs.Prelude.{◌≡◌, ◌<◌, ◌||◌, IfSome, length};
ghost use Rattle.std.specs.Option.{option_copied, option_map};
ghost use Rattle.rpki_der.specs.Prelude.{left};
ghost use Rattle.rpki_parse.specs.Words.{kinds, parsed};
ghost use Rattle.rpki_records.specs.Checklist.{algorithm_at, checklist, checklist_parts, count_at, file_of};
ghost use Rattle.rpki_records.specs.Checklist.{found_checklist, given_file_at, named_of, resources_at, skip_file_at};
ghost use Rattle.rpki_records.specs.Checklist.{under_first, under_second, version_at};
ghost use Rattle.rpki_parse.specs.Parts.{told};
ghost use Rattle.rpki_records.specs.Words.{is_there};

use crate::listed_digest::ListedDigest;
use rpki::oid::SHA256;
use rpki_der::{Class, Constructed, DecodeError, Tag};
use rpki_parse::{
    Malformed, Step, at_part, finish, fold, has_tag, skip_oid_if, take_constructed_if,
    take_opt_null, take_sequence,
};

/// The malformed part of a checklist.
#[derive(Clone, Copy, Debug, PartialEq, Eq)]
pub enum ChecklistPart {
    /// The SEQUENCE around all, or something follows it.
    Checklist,
    /// The version.
    Version,
    /// The resources: their SEQUENCE, or neither AS numbers nor IP addresses are in it; AS numbers or IP addresses that
    /// are malformed.
    Resources,
    /// The algorithm of the digests.
    DigestAlgorithm,
    /// The files: their list, one of them, or something that follows.
    CheckList,
}

/// A checklist whose resources and files are borrowed from the octets that it was read from.
#[derive(Clone, Copy)]
pub struct Checklist<'a> {
    /// The octets under the tag of the AS numbers, where it is there.
    pub numbers: Option<&'a [u8]>,
    /// The octets under the tag of the IP addresses, where it is there.
    pub addresses: Option<&'a [u8]>,
    /// The files, in sequence: the contents of their list.
    pub files: &'a [u8],
    /// How many files there are.
    pub count: usize,
}

/// The resources of a checklist by their octets.
#[derive(Clone, Copy)]
struct Named<'a> {
    /// Those of AS numbers.
    numbers: Option<&'a [u8]>,
    /// Those of IP addresses.
    addresses: Option<&'a [u8]>,
}

/// The files of a checklist in place that have yet to be given, in order.
#[derive(Clone, Copy)]
pub struct ListedDigestCursor<'a> {
    /// The rest of their octets.
    pub rest: Constructed<'a>,
}

/// The version: 0, which is left out.
fn take_version(cons: &mut Constructed<'_>) -> Result<(), DecodeError>
    ensures { parsed (λ v. v) result (left cons.new) ≡ version_at (left cons.old) }
{
    if has_tag(cons, Tag::new(Class::Context, 0)) {
        return Err(DecodeError::content("another version, or a default one that is written"));
    }
    Ok(())
}

/// What is under the explicit tag 0, where it is in front.
fn take_first<'a>(cons: &mut Constructed<'a>) -> Result<Option<&'a [u8]>, DecodeError>
    ensures { parsed option_copied result (left cons.new) ≡ under_first (left cons.old) }
{
    if !has_tag(cons, Tag::new(Class::Context, 0)) {
        return Ok(None);
    }
    let under = take_constructed_if(cons, Tag::new(Class::Context, 0))?;
    Ok(Some(under.rest()))
}

/// What is under the explicit tag 1, where it is in front.
fn take_second<'a>(cons: &mut Constructed<'a>) -> Result<Option<&'a [u8]>, DecodeError>
    ensures { parsed option_copied result (left cons.new) ≡ under_second (left cons.old) }
{
    if !has_tag(cons, Tag::new(Class::Context, 1)) {
        return Ok(None);
    }
    let under = take_constructed_if(cons, Tag::new(Class::Context, 1))?;
    Ok(Some(under.rest()))
}

/// The resources: AS numbers, IP addresses, or both.
fn take_resources<'a>(cons: &mut Constructed<'a>) -> Result<Named<'a>, DecodeError>
    ensures { parsed named_of result (left cons.new) ≡ resources_at (left cons.old) }
{
    let mut after = *cons;
    let mut contents = take_sequence(&mut after)?;
    let numbers = take_first(&mut contents)?;
    let addresses = take_second(&mut contents)?;
    finish(contents)?;
    if numbers.is_none() && addresses.is_none() {
        return Err(DecodeError::content("no resources"));
    }
    *cons = after;
    Ok(Named { numbers, addresses })
}

/// The algorithm of the digests: SHA-256, whose parameters are absent or NULL.
fn take_algorithm(cons: &mut Constructed<'_>) -> Result<(), DecodeError>
    ensures { parsed (λ v. v) result (left cons.new) ≡ algorithm_at (left cons.old) }
{
    let mut after = *cons;
    let mut contents = take_sequence(&mut after)?;
    skip_oid_if(&mut contents, SHA256)?;
    take_opt_null(&mut contents)?;
    finish(contents)?;
    *cons = after;
    Ok(())
}

/// Reads a file.
#[derive(Drop)]
struct FileStep;

impl Step for FileStep {
    type State = ();

    ghost next_at = { λ _ _. skip_file_at };

    fn next(&self, _: (), cons: &mut Constructed<'_>) -> Result<(), DecodeError> {
        ListedDigest::take_from(cons)?;
        Ok(())
    }
}

/// How many files there are, which are the whole rest: one at least.
#[tactic(auto, unfolding(crate::specs::Checklist::count_at))]
fn count_files(contents: Constructed<'_>) -> Result<usize, DecodeError>
    ensures { kinds result ≡ count_at (left contents.entry) }
{
    let (_, count) = fold(contents, (), &FileStep)?;
    if count == 0 {
        return Err(DecodeError::content("no files"));
    }
    Ok(count)
}

/// The parts, which are the whole rest.
fn read_parts<'a>(contents: Constructed<'a>) -> Result<Checklist<'a>, Malformed<ChecklistPart>>
    ensures { told found_checklist result ≡ checklist_parts (left contents.entry) }
{
    let mut rest = contents;
    at_part(ChecklistPart::Version, take_version(&mut rest))?;
    let named = at_part(ChecklistPart::Resources, take_resources(&mut rest))?;
    at_part(ChecklistPart::DigestAlgorithm, take_algorithm(&mut rest))?;
    let listed = at_part(ChecklistPart::CheckList, take_sequence(&mut rest))?;
    at_part(ChecklistPart::CheckList, finish(rest))?;
    let count = at_part(ChecklistPart::CheckList, count_files(listed))?;
    Ok(Checklist {
        numbers: named.numbers,
        addresses: named.addresses,
        files: listed.rest(),
        count,
    })
}

impl<'a> Checklist<'a> {
    /// A checklist (RFC 9323 4), and nothing else. Allocates nothing. What is under the tags of the resources is for
    /// [Checklist::resources] to read, and whether the files differ for [Checklist::entries_differ] to say.
    ///
    /// The error is of the leftmost malformed part.
    pub fn read(octets: &'a [u8]) -> Result<Checklist<'a>, Malformed<ChecklistPart>>
        ensures { told found_checklist result ≡ checklist octets.entry.now }
    {
        let mut rest = Constructed::from_slice(octets);
        let contents = at_part(ChecklistPart::Checklist, take_sequence(&mut rest))?;
        at_part(ChecklistPart::Checklist, finish(rest))?;
        read_parts(contents)
    }

    /// A cursor over the files, in order.
    pub fn files(self) -> ListedDigestCursor<'a>
        ensures { left result.rest ≡ self.entry.files.now }
    {
        ListedDigestCursor {
            rest: Constructed::from_slice(self.files),
        }
    }
}

impl<'a> ListedDigestCursor<'a> {
    /// The next file; None where none remains, or the remaining octets are no files.
    pub fn next_file(&mut self) -> Option<ListedDigest<'a>>
        ensures given { (option_map file_of result, left self.new.rest) ≡ given_file_at (left self.old.rest) }
        ensures shorter { IfSome result (λ _. length (left self.new.rest) < length (left self.old.rest)) }
    {
        match ListedDigest::take_from(&mut self.rest) {
            Ok(file) => Some(file),
            Err(_) => None,
        }
    }
}
