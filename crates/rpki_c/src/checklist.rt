//! Signed checklists.

ghost use Rattle.std.specs.Prelude.{◌≡◌};
ghost use Rattle.std.specs.Option.{option_copied};
ghost use Rattle.rpki_records.specs.Checklist.{checklist, found_checklist, file_at, file_of};
ghost use Rattle.rpki_c.specs.Checklist.{checklist_part_number, passed, span_where, IsChecklistRead};
ghost use Rattle.rpki_c.specs.Checklist.{passed_file, taken_file};
ghost use Rattle.rpki_c.specs.Whole.{told_error};

use crate::span::Span;
use rpki_der::{Constructed, Ia5String};
use rpki_records::{Checklist, ChecklistPart, ListedDigest};

/// The parts of a signed checklist.
#[repr(C)]
#[derive(Clone, Copy)]
pub struct ChecklistParts<'a> {
    /// The AS numbers, as an extension of a certificate has them; no octets where they aren't there.
    pub as_numbers: Span<'a>,
    /// The IP addresses, likewise.
    pub addresses: Span<'a>,
    /// The files, in sequence.
    pub files: Span<'a>,
    /// How many files there are.
    pub count: usize,
    /// Whether AS numbers are there.
    pub has_as_numbers: bool,
    /// Whether IP addresses are there.
    pub has_addresses: bool,
}

/// How a malformed part is passed.
fn checklist_part_number(part: ChecklistPart) -> u8
    ensures { result ≡ checklist_part_number part }
{
    match part {
        ChecklistPart::Checklist => 184,
        ChecklistPart::Version => 185,
        ChecklistPart::Resources => 186,
        ChecklistPart::DigestAlgorithm => 187,
        ChecklistPart::CheckList => 188,
    }
}

/// The octets, where they are there; else none.
fn span_of(octets: Option<&[u8]>) -> Span<'_>
    ensures { result.octets.now ≡ span_where (option_copied octets.entry) }
{
    match octets {
        Some(octets) => Span::of(octets),
        None => Span::of(&[]),
    }
}

/// The parts of the checklist.
fn checklist_of(found: Checklist<'_>) -> ChecklistParts<'_>
    ensures { passed result ≡ found_checklist found.entry }
{
    ChecklistParts {
        as_numbers: span_of(found.numbers),
        addresses: span_of(found.addresses),
        files: Span::of(found.files),
        count: found.count,
        has_as_numbers: found.numbers.is_some(),
        has_addresses: found.addresses.is_some(),
    }
}

/// Reads a signed checklist (RFC 9323 4), and says what its parts are. What its resources are is not looked at, nor
/// whether two of its files are named alike.
///
/// The status is 0. Else it is the number of the leftmost malformed part, and `out` is unchanged. Nothing is
/// allocated.
#[unsafe(no_mangle)]
pub extern "C" fn rpki_checklist<'a>(octets: &'a [u8], out: &mut ChecklistParts<'a>) -> u8
    ensures { IsChecklistRead octets.now result out.old out.new }
{
    match Checklist::read(octets) {
        Ok(found) => {
            *out = checklist_of(found);
            0
        }
        Err(wrong) => checklist_part_number(wrong.part),
    }
}

/// Reads a signed checklist, as [rpki_checklist] does, and says what is wrong with the malformed part.
///
/// The status is that of [rpki_checklist]. Where it is a part, 184 to 188, `error` is the number of the error, that of
/// `DecodeError`, as a reader of that part returns it; where it is 0, `error` is unchanged. Nothing is allocated.
#[unsafe(no_mangle)]
pub extern "C" fn rpki_checklist_error(octets: &[u8], error: &mut u8) -> u8
    ensures { (result, error.new) ≡ told_error checklist_part_number error.old (checklist octets.now) }
{
    match Checklist::read(octets) {
        Ok(_) => 0,
        Err(wrong) => {
            *error = wrong.error.number();
            checklist_part_number(wrong.part)
        }
    }
}

/// A file of a checklist.
#[repr(C)]
#[derive(Clone, Copy)]
pub struct ChecklistFile<'a> {
    /// The octets of its name; none where it has none.
    pub name: Span<'a>,
    /// The digest of the file by SHA-256.
    pub digest: [u8; 32],
    /// Whether it has a name.
    pub has_name: bool,
}

/// The octets of a name, where it is there; else none.
fn name_of<'a>(name: &Option<Ia5String<'a>>) -> Span<'a>
    ensures { result.octets.now ≡ span_where name.now }
{
    match name {
        Some(name) => Span::of(name.as_str().as_bytes()),
        None => Span::of(&[]),
    }
}

/// The file, as it is passed.
fn file_of<'a>(file: &ListedDigest<'a>) -> ChecklistFile<'a>
    ensures { passed_file result ≡ file_of file.now }
{
    ChecklistFile {
        name: name_of(&file.name),
        digest: file.digest,
        has_name: file.name.is_some(),
    }
}

/// Takes the file at the front of the span, as of the files of a checklist: a SEQUENCE of its name, which may be left
/// out, and its digest and nothing else (RFC 9323 4.4). `rest` becomes what follows, which is not looked at.
///
/// The status is 0, or the number of the error; then nothing is written. Nothing is allocated.
#[unsafe(no_mangle)]
pub extern "C" fn rpki_checklist_file<'a>(rest: &mut Span<'a>, out: &mut ChecklistFile<'a>) -> u8
    ensures { (result, rest.new.octets.now, passed_file out.new)
        ≡ taken_file rest.old.octets.now (passed_file out.old) (file_at rest.old.octets.now) }
{
    let mut cursor = Constructed::from_slice(rest.octets);
    match ListedDigest::take_from(&mut cursor) {
        Ok(file) => {
            *rest = Span::of(cursor.rest());
            *out = file_of(&file);
            0
        }
        Err(e) => e.number(),
    }
}
