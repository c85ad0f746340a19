//! Payloads as another validator lists them: in csv, as of rpki-client and Routinator, or in JSON, as of both.

ghost use Rattle.std.specs.Prelude.{◌≡◌, IfOk, IfErr, OnOk, codes};
ghost use Rattle.csv.specs.Reading.{error_kind};
ghost use Rattle.csv.specs.Records.{fields_of};
ghost use Rattle.serde_json.specs.View.{view};
ghost use Rattle.rpki_resources.specs.IpRead.{IsPrefixText};
ghost use Rattle.rpki_payloads.specs.Exceptions.{AreEach, Finds};
ghost use Rattle.rpki_payloads.specs.ExceptionsText.{AreListed, IsMember, IsNumberIn};
ghost use Rattle.rpki_payloads.specs.Listed.{AddsRow, AreFields, AreInCsv, AreInJson, AreListedIn, IsAsIn, IsAsText};
ghost use Rattle.rpki_payloads.specs.Listed.{IsCsvFault, IsElement, IsElementFault, IsJsonFault, IsLengthText};
ghost use Rattle.rpki_payloads.specs.Listed.{IsListFault, IsReadFault, IsRoasFault, IsRow, IsRowFault, Lists};
ghost use Rattle.rpki_payloads.specs.Listed.{has_titles, is_object, is_space, is_title};

use crate::exceptions_text::{elements_in, vrp_with};
use crate::members::{number_of, prefix_at};
use crate::order::sort_vrps;
use crate::vrp::Vrp;
use csv::{ErrorKind, Position, ReaderBuilder, StringRecord};
use rpki_resources::{Asn, Prefix};
use serde_json::Value;
use std::alloc::{AllocError, AllocFailed, Global};

/// Why a text lists no payloads.
#[derive(Clone, Copy, Debug, Drop)]
pub enum ListError {
    /// It begins with a brace, and is not JSON (RFC 8259), in UTF-8.
    Json,
    /// It is JSON, and has no array `roas`.
    Roas,
    /// The element of that array with this number, from 0 on, is no payload.
    Element(usize),
    /// The row of csv (RFC 4180) that begins on this line, from 1 on, or on the first empty line before it, is no
    /// payload, or not in UTF-8.
    Line(u64),
    /// Allocation failed.
    OutOfMemory,
}

impl From<AllocError> for ListError {
    ghost use Rattle.std.specs.Prelude.{◌≡◌};
    ghost use Rattle.rpki_payloads.specs.declared.payload_list.ListError.TheVariants.{OutOfMemory};

    ghost from_gives = { λ _ e. e ≡ OutOfMemory };

    fn from(_: AllocError) -> ListError {
        ListError::OutOfMemory
    }
}

impl<T: Drop> From<AllocFailed<T>> for ListError {
    ghost use Rattle.std.specs.Prelude.{◌≡◌};
    ghost use Rattle.rpki_payloads.specs.declared.payload_list.ListError.TheVariants.{OutOfMemory};

    ghost from_gives = { λ _ e. e ≡ OutOfMemory };

    fn from(_: AllocFailed<T>) -> ListError {
        ListError::OutOfMemory
    }
}

/// The AS number that the field is the text of. None if it is that of none.
fn asn_of(field: &str) -> Option<u32>
    ensures { Finds (IsAsText field.now) result }
{
    match field.parse::<Asn>() {
        Ok(asn) => Some(asn.0),
        Err(_) => None,
    }
}

/// The prefix that the field is the text of. None if it is that of none.
fn prefix_of(field: &str) -> Option<Prefix>
    ensures { Finds (IsPrefixText field.now) result }
{
    match field.parse::<Prefix>() {
        Ok(prefix) => Some(prefix),
        Err(_) => None,
    }
}

/// The number below 2^32 that the field is the text of. None if it is that of none.
fn length_of(field: &str) -> Option<u32>
    ensures { Finds (IsLengthText field.now) result }
{
    match field.parse::<u32>() {
        Ok(length) => Some(length),
        Err(_) => None,
    }
}

/// The payload of these fields. None if it isn't one.
fn vrp_of(number: &str, text: &str, digits: &str) -> Option<Vrp>
    ensures { Finds (AreFields number.now text.now digits.now) result }
{
    let Some(asn) = asn_of(number) else {
        return None;
    };
    let Some(prefix) = prefix_of(text) else {
        return None;
    };
    let Some(longest) = length_of(digits) else {
        return None;
    };
    vrp_with(prefix, Some(longest), asn)
}

/// The payload of the row. None if it is that of none.
fn vrp_in(row: &StringRecord) -> Option<Vrp>
    ensures { Finds (IsRow (fields_of row.now)) result }
{
    let number = row.get(0)?;
    let text = row.get(1)?;
    let digits = row.get(2)?;
    vrp_of(number, text, digits)
}

/// Whether the field is the title of AS numbers, in any case.
fn is_title(field: &str) -> bool
    ensures { result ≡ is_title field.now }
{
    field.eq_ignore_ascii_case("asn")
}

/// Whether the row has titles.
fn has_titles(row: &StringRecord) -> bool
    ensures { result ≡ has_titles (fields_of row.now) }
{
    match row.get(0) {
        Some(field) => is_title(field),
        None => false,
    }
}

/// The line that a row begins on; 0 if it isn't known.
fn line_at(position: Option<Position>) -> u64 {
    match position {
        Some(position) => position.line(),
        None => 0,
    }
}

/// What an error of the reader of csv is.
fn fault_of(e: &csv::Error) -> ListError
    ensures { IsReadFault (error_kind e.now) result }
{
    match e.kind() {
        ErrorKind::Utf8 { pos, .. } => ListError::Line(line_at(*pos)),
        _ => ListError::OutOfMemory,
    }
}

/// Adds the payload of the row, if it has no titles.
///
/// Returns `Line` if it is that of none; `OutOfMemory` if allocation fails.
fn push_row(all: &mut Vec<Vrp>, row: &StringRecord) -> Result<(), ListError>
    ensures ok { OnOk result (AddsRow (fields_of row.now) all.old.items all.new.items) }
    ensures err { IfErr result (IsRowFault (fields_of row.now)) }
{
    if has_titles(row) {
        return Ok(());
    }
    let Some(vrp) = vrp_in(row) else {
        return Err(ListError::Line(line_at(row.position())));
    };
    all.push(vrp)?;
    Ok(())
}

/// The payloads that the text lists in csv.
fn in_csv(alloc: Global, text: &[u8]) -> Result<Vec<Vrp>, ListError>
    ensures ok { IfOk result (λ all. AreInCsv text.now all.items) }
    ensures err { IfErr result (IsCsvFault text.now) }
{
    let rdr = ReaderBuilder::new()
        .has_headers(false)
        .flexible(true)
        .from_reader(alloc, text);
    let mut all = Vec::new(alloc);
    'rows: for row in rdr.into_records() {
        match row {
            Ok(row) => push_row(&mut all, &row)?,
            Err(e) => return Err(fault_of(&e)),
        }
    }
    Ok(all)
}

/// An AS number: a number, or the text of one. None if it is neither.
fn as_of(value: &Value) -> Option<u32>
    ensures { Finds (IsAsIn (view value.now)) result }
{
    match value.as_str() {
        Some(text) => match text.parse::<Asn>() {
            Ok(asn) => Some(asn.0),
            Err(_) => None,
        },
        None => number_of(value),
    }
}

/// The member `asn`. None if it is not there, or is no AS number.
fn as_in(value: &Value) -> Option<u32>
    ensures { Finds (IsMember (codes "asn") IsAsIn (view value.now)) result }
{
    match value.get("asn") {
        Some(member) => as_of(member),
        None => None,
    }
}

/// The member `maxLength`. None if it is not there, or is no number below 2^32.
fn length_in(value: &Value) -> Option<u32>
    ensures { Finds (IsMember (codes "maxLength") IsNumberIn (view value.now)) result }
{
    match value.get("maxLength") {
        Some(member) => number_of(member),
        None => None,
    }
}

/// The payload of the element. None if it is that of none.
fn element_of(value: &Value) -> Option<Vrp>
    ensures { Finds (IsElement (view value.now)) result }
{
    let Some(asn) = as_in(value) else {
        return None;
    };
    let Some(prefix) = prefix_at(value) else {
        return None;
    };
    let Some(longest) = length_in(value) else {
        return None;
    };
    vrp_with(prefix, Some(longest), asn)
}

/// The payloads of the elements, each in its place.
fn elements_of(alloc: Global, values: &[Value]) -> Result<Vec<Vrp>, ListError>
    ensures ok { IfOk result (λ all. AreEach (λ v. IsElement (view v)) values.now all.items) }
    ensures err { IfErr result (IsElementFault values.now) }
{
    let mut all = Vec::new(alloc);
    'values: for value in values {
        let Some(one) = element_of(value) else {
            return Err(ListError::Element(all.len()));
        };
        all.push(one)?;
    }
    Ok(all)
}

/// The payloads that the value lists.
fn listed_by(alloc: Global, value: &Value) -> Result<Vec<Vrp>, ListError>
    ensures ok { IfOk result (λ all. AreListed (codes "roas") IsElement (view value.now) all.items) }
    ensures err { IfErr result (IsRoasFault (view value.now)) }
{
    match elements_in(value, "roas") {
        Some(values) => elements_of(alloc, values.as_slice()),
        None => Err(ListError::Roas),
    }
}

/// The payloads that the text lists in JSON.
fn in_json(alloc: Global, text: &[u8]) -> Result<Vec<Vrp>, ListError>
    ensures ok { IfOk result (λ all. AreInJson text.now all.items) }
    ensures err { IfErr result (IsJsonFault text.now) }
{
    match Value::from_slice(alloc, text) {
        Ok(value) => listed_by(alloc, &value),
        Err(e) => {
            if e.is_memory() {
                return Err(ListError::OutOfMemory);
            }
            Err(ListError::Json)
        }
    }
}

/// Whether the octet is white space (RFC 8259 2).
fn is_space(octet: u8) -> bool
    ensures { result ≡ is_space octet }
{
    octet == b' ' || (octet == b'\t' || (octet == b'\n' || octet == b'\r'))
}

/// Whether the text begins with a brace, after white space.
fn is_object(text: &[u8]) -> bool
    ensures { result ≡ is_object text.now }
{
    let mut rest = text;
    'octets: while let Some((first, following)) = rest.split_first() {
        if !is_space(*first) {
            return *first == b'{';
        }
        rest = following;
    }
    false
}

/// The payloads that the text lists, as often and in the order as it does.
fn listed(alloc: Global, text: &[u8]) -> Result<Vec<Vrp>, ListError>
    ensures ok { IfOk result (λ all. Lists text.now all.items) }
    ensures err { IfErr result (IsListFault text.now) }
{
    if is_object(text) {
        return in_json(alloc, text);
    }
    in_csv(alloc, text)
}

/// The payloads that a text lists, each once, in order: as an array `roas` of objects of JSON with `asn`, a number or a
/// text, `prefix` and `maxLength`; or in csv (RFC 4180), in whose rows these are first, under titles or not. What else
/// there is in an object or a row isn't read.
///
/// Returns `Json` if the text begins with a brace, and is no JSON; `Roas` if it has no such array; `Element` or `Line`
/// for the first that is no payload; `OutOfMemory` if allocation fails.
pub fn listed_vrps(alloc: Global, text: &[u8]) -> Result<Vec<Vrp>, ListError>
    ensures ok { IfOk result (λ vrps. AreListedIn text.now vrps.items) }
    ensures err { IfErr result (IsListFault text.now) }
{
    let mut vrps = listed(alloc, text)?;
    sort_vrps(&mut vrps);
    Ok(vrps)
}
