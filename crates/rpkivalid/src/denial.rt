//! Why nothing is written.

ghost use Rattle.std.specs.Prelude.{◌≡◌, IfOk, string_bytes};
ghost use Rattle.rpkivalid.specs.Denied.{denial_text, exceptions_text, list_text, locator_text, member_due};
ghost use Rattle.rpkivalid.specs.Denied.{member_section, name_at, name_in};
ghost use Rattle.rpkivalid.specs.Denied.{name_of, names_of, overlap_text, unread_text};

use crate::texts::{
    NO_ANCHOR, NO_DEPTH, NO_LEAST, NO_MOMENT, NO_ROUTE, NO_URI, OUT_OF_MEMORY, TOO_FEW,
};
use rpki_locator::LocatorError;
use rpki_payloads::{Conflict, ExceptionsError, ListError, Member, Overlap};
use std::alloc::{AllocError, AllocFailed, Global};

/// Why nothing is written.
#[derive(Clone, Copy, Debug, Drop)]
pub enum Denial {
    /// The word is the text of no moment, or there is no clock.
    NoMoment,
    /// The word is no number of authorities.
    NoDepth,
    /// The word is no number of route origins.
    NoLeast,
    /// No locator has a trust anchor.
    NoAnchor,
    /// There are fewer route origins than are asked for.
    TooFew,
    /// The word is no rsync URI.
    NoUri,
    /// The words are no prefix and AS number.
    NoRoute,
    /// There is no file of this number among those of locators, or it can't be read.
    NoFile(usize),
    /// What is in the file of this number is no locator.
    NoLocator(usize, LocatorError),
    /// Another locator has the name of that in the file of this number.
    SameName(usize),
    /// There is no file of this number among those of local exceptions, or it can't be read.
    NoExceptions(usize),
    /// What is in the file of this number are no local exceptions: an element that is none begins on this line.
    OtherExceptions(usize, ExceptionsError, usize),
    /// Two files of local exceptions are in conflict.
    InConflict(Conflict),
    /// There is no file to be compared, or it can't be read.
    NoList,
    /// What is in that file lists no payloads.
    OtherList(ListError),
    /// Allocation failed.
    OutOfMemory,
}

impl From<AllocError> for Denial {
    ghost from_gives = { λ _ d. d ≡ OutOfMemory };

    ghost use Rattle.std.specs.Prelude.{◌≡◌};
    ghost use Rattle.rpkivalid.specs.declared.denial.Denial.TheVariants.{OutOfMemory};

    fn from(_: AllocError) -> Denial {
        Denial::OutOfMemory
    }
}

impl<T: Drop> From<AllocFailed<T>> for Denial {
    ghost from_gives = { λ _ d. d ≡ OutOfMemory };

    ghost use Rattle.std.specs.Prelude.{◌≡◌};
    ghost use Rattle.rpkivalid.specs.declared.denial.Denial.TheVariants.{OutOfMemory};

    fn from(_: AllocFailed<T>) -> Denial {
        Denial::OutOfMemory
    }
}

/// Which line of a locator is wrong, and what is wrong with it.
fn fault_of(alloc: Global, e: LocatorError) -> Result<String, AllocError>
    ensures { IfOk result (λ text. string_bytes text ≡ locator_text e) }
{
    match e {
        LocatorError::OtherUri(line) => format!(in alloc;
            "line {line}: not a URI of a trust anchor"
        ),
        LocatorError::NoUri(line) => format!(in alloc; "line {line}: no URI"),
        LocatorError::NoKey(line) => format!(in alloc; "line {line}: no empty line before the key"),
        LocatorError::OtherText(line) => format!(in alloc; "line {line}: not base 64"),
        LocatorError::OtherKey(line, e) => format!(in alloc; "line {line}: not a public key: {e}"),
        LocatorError::OutOfMemory => Err(AllocError),
    }
}

/// The name of the file of this number.
fn file_at<'a>(files: &[&'a str], at: usize) -> &'a str
    ensures { result.now ≡ name_at (names_of files.now) at }
{
    match files.get(at) {
        Some(file) => *file,
        None => "",
    }
}

/// The section of RFC 8416 that says what the member is.
fn section_of(member: Member) -> &'static str
    ensures { result.now ≡ member_section member }
{
    match member {
        Member::Version => "3.2",
        Member::Filters => "3.3",
        Member::PrefixFilters => "3.3.1",
        Member::KeyFilters => "3.3.2",
        Member::Assertions => "3.4",
        Member::PrefixAssertions => "3.4.1",
        Member::KeyAssertions => "3.4.2",
    }
}

/// What the member has to be.
fn due_of(member: Member) -> &'static str
    ensures { result.now ≡ member_due member }
{
    match member {
        Member::Version => "the number 1",
        Member::Filters => "an object of prefixFilters and bgpsecFilters",
        Member::Assertions => "an object of prefixAssertions and bgpsecAssertions",
        _ => "an array",
    }
}

/// What is wrong with local exceptions: the rule, the member, and which element, counted from 0 on, with its line.
fn deviation_of(alloc: Global, e: ExceptionsError, line: usize) -> Result<String, AllocError>
    ensures { IfOk result (λ text. string_bytes text ≡ exceptions_text e line) }
{
    match e {
        ExceptionsError::Json(line) => format!(in alloc; "3.1: line {line}: not JSON"),
        ExceptionsError::Twice => String::from_str(alloc, "3.1: a member twice in an object"),
        ExceptionsError::Members => String::from_str(
            alloc,
            "3.2: not an object of slurmVersion, validationOutputFilters and locallyAddedAssertions",
        ),
        ExceptionsError::Missing(member) => {
            let (section, name, due) = (section_of(member), member.name(), due_of(member));
            format!(in alloc; "{section}: {name} is not {due}")
        }
        ExceptionsError::Element(member, at) => {
            let (section, name) = (section_of(member), member.name());
            format!(in alloc; "{section}: line {line}: {name}[{at}] is no such element")
        }
        ExceptionsError::OutOfMemory => Err(AllocError),
    }
}

/// What two files of local exceptions have in common, and may not.
fn overlap_of(alloc: Global, overlap: Overlap) -> Result<String, AllocError>
    ensures { IfOk result (λ text. string_bytes text ≡ overlap_text overlap) }
{
    match overlap {
        Overlap::Name => String::from_str(alloc, "both have one name"),
        Overlap::Prefixes(one, other) => format!(in alloc;
            "RFC 8416 4.2: {one} and {other} overlap"
        ),
        Overlap::Asn(asn) => format!(in alloc; "RFC 8416 4.2: both have router keys of AS{asn}"),
    }
}

/// What is wrong with a list of payloads.
fn unlisted_of(alloc: Global, e: ListError) -> Result<String, AllocError>
    ensures { IfOk result (λ text. string_bytes text ≡ list_text e) }
{
    match e {
        ListError::Json => String::from_str(alloc, "not JSON"),
        ListError::Roas => String::from_str(alloc, "no array roas"),
        ListError::Element(at) => format!(in alloc; "roas: not a payload: number {at}"),
        ListError::Line(line) => format!(in alloc; "line {line}: not a payload"),
        ListError::OutOfMemory => Err(AllocError),
    }
}

/// The name of the file, if there is one.
fn name_in<'a>(file: Option<&'a str>) -> &'a str
    ensures { result.now ≡ name_in (name_of file.entry) }
{
    match file {
        Some(name) => name,
        None => "",
    }
}

/// The line that says that the file can't be read.
fn unread(alloc: Global, file: &str) -> Result<Vec<u8>, AllocError>
    ensures { IfOk result (λ text. text.items ≡ unread_text file.now) }
{
    let text = format!(in alloc; "rpkivalid: {file}: cannot be read\n")?;
    Ok(text.into_bytes())
}

impl Denial {
    /// What a person reads of it, as a line, where these are the files of locators, those of local exceptions,
    /// and that to be compared.
    ///
    /// Returns `AllocError` if allocation fails.
    pub fn text(
        self,
        alloc: Global,
        files: &[&str],
        exceptions: &[&str],
        compare: Option<&str>,
    ) -> Result<Vec<u8>, AllocError>
        ensures { IfOk result (λ text. text.items ≡ denial_text self (names_of files.now) (names_of exceptions.now)
            (name_of compare.entry)) }
    {
        match self {
            Denial::NoMoment => Vec::from_slice(alloc, NO_MOMENT),
            Denial::NoDepth => Vec::from_slice(alloc, NO_DEPTH),
            Denial::NoLeast => Vec::from_slice(alloc, NO_LEAST),
            Denial::NoAnchor => Vec::from_slice(alloc, NO_ANCHOR),
            Denial::TooFew => Vec::from_slice(alloc, TOO_FEW),
            Denial::NoUri => Vec::from_slice(alloc, NO_URI),
            Denial::NoRoute => Vec::from_slice(alloc, NO_ROUTE),
            Denial::NoFile(at) => unread(alloc, file_at(files, at)),
            Denial::NoLocator(at, e) => {
                let file = file_at(files, at);
                let fault = fault_of(alloc, e)?;
                let text = format!(in alloc; "rpkivalid: {file}: RFC 8630 2.2: {fault}\n")?;
                Ok(text.into_bytes())
            }
            Denial::SameName(at) => {
                let file = file_at(files, at);
                let text = format!(in alloc; "rpkivalid: {file}: another locator has its name\n")?;
                Ok(text.into_bytes())
            }
            Denial::NoExceptions(at) => unread(alloc, file_at(exceptions, at)),
            Denial::OtherExceptions(at, e, line) => {
                let file = file_at(exceptions, at);
                let fault = deviation_of(alloc, e, line)?;
                let text = format!(in alloc; "rpkivalid: {file}: RFC 8416 {fault}\n")?;
                Ok(text.into_bytes())
            }
            Denial::InConflict(conflict) => {
                let first = file_at(exceptions, conflict.first);
                let second = file_at(exceptions, conflict.second);
                let fault = overlap_of(alloc, conflict.overlap)?;
                let text = format!(in alloc; "rpkivalid: {first} and {second}: {fault}\n")?;
                Ok(text.into_bytes())
            }
            Denial::NoList => unread(alloc, name_in(compare)),
            Denial::OtherList(e) => {
                let file = name_in(compare);
                let fault = unlisted_of(alloc, e)?;
                let text = format!(in alloc; "rpkivalid: {file}: {fault}\n")?;
                Ok(text.into_bytes())
            }
            Denial::OutOfMemory => Vec::from_slice(alloc, OUT_OF_MEMORY),
        }
    }
}
