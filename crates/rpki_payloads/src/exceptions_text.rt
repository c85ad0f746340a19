//! Files of local exceptions, as they are read (RFC 8416 3).

ghost use Rattle.std.specs.Prelude.{◌≡◌, ◌↔◌, true, false, [], ◌∷◌, ◌++◌, IfOk, IfErr, IfSome, IfNone, IsTrue, None};
ghost use Rattle.std.specs.Prelude.{OnOk};
ghost use Rattle.std.specs.Prelude.{codes, option_and_then, option_map};
ghost use Rattle.serde_json.specs.Find.{as_array, get};
ghost use Rattle.serde_json.specs.View.{view, items_view};
ghost use Rattle.rpki_payloads.specs.ExceptionsText.{AreAssertions, AreExceptions, AreExceptionsIn, AreFilters};
ghost use Rattle.rpki_payloads.specs.ExceptionsText.{AreListed, IsKeyAssertion, IsKeyFilter, IsPrefixAssertion};
ghost use Rattle.rpki_payloads.specs.ExceptionsText.{IsInfoIn, IsMember, IsPrefixFilter, IsVersionOne, IsVrpWith};
ghost use Rattle.rpki_payloads.specs.ExceptionsText.{IsArrayFault, IsAssertionsFault, IsElementFault};
ghost use Rattle.rpki_payloads.specs.ExceptionsText.{IsExceptionsFault, IsFiltersFault, IsTextFault, member_name};
ghost use Rattle.rpki_payloads.specs.ExceptionsText.{HasNamesOnce, IsJsonFault, IsTextOf};
ghost use Rattle.rpki_payloads.specs.declared.exceptions_text.Member.TheVariants.{KeyAssertions, KeyFilters};
ghost use Rattle.rpki_payloads.specs.declared.exceptions_text.Member.TheVariants.{PrefixAssertions, PrefixFilters};
ghost use Rattle.rpki_payloads.specs.Exceptions.{AreEach, Finds};
ghost use Rattle.rpki_payloads.specs.declared.key_filters.KeyFilter.{KeyFilter as F};

use crate::covered::width_of;
use crate::exceptions::Exceptions;
use crate::filters::PrefixFilter;
use crate::key_filters::KeyFilter;
use crate::line::line_of;
use crate::members::{
    asn_at, asn_in, has_comment, has_only_four, has_only_three, has_only_two, identifier_at,
    identifier_in, info_of, longest_in, prefix_at, prefix_in,
};
use crate::router_key::RouterKey;
use crate::vrp::Vrp;
use bytes::Bytes;
use json::{Error as JsonError, Scratch, Value as Json};
use rpki::crypto::keys::KeyIdentifier;
use rpki_resources::Prefix;
use serde_json::Value;
use std::alloc::{AllocError, AllocFailed, Global};

/// A member of a file of local exceptions.
#[derive(Clone, Copy, Debug, PartialEq, Eq)]
pub enum Member {
    /// `slurmVersion`.
    Version,
    /// `validationOutputFilters`.
    Filters,
    /// `prefixFilters`.
    PrefixFilters,
    /// `bgpsecFilters`.
    KeyFilters,
    /// `locallyAddedAssertions`.
    Assertions,
    /// `prefixAssertions`.
    PrefixAssertions,
    /// `bgpsecAssertions`.
    KeyAssertions,
}

impl Member {
    /// Its name.
    pub fn name(self) -> &'static str
        ensures { result.now ≡ member_name self }
    {
        match self {
            Member::Version => "slurmVersion",
            Member::Filters => "validationOutputFilters",
            Member::PrefixFilters => "prefixFilters",
            Member::KeyFilters => "bgpsecFilters",
            Member::Assertions => "locallyAddedAssertions",
            Member::PrefixAssertions => "prefixAssertions",
            Member::KeyAssertions => "bgpsecAssertions",
        }
    }
}

/// Why a text is no file of local exceptions.
#[derive(Clone, Copy, Debug, Drop, PartialEq, Eq)]
pub enum ExceptionsError {
    /// It is not JSON (RFC 8259), in UTF-8, from the line of this number on, which counts from 1.
    Json(usize),
    /// An object of it has a name twice.
    Twice,
    /// It is no object of the three members (RFC 8416 3.2).
    Members,
    /// The member is missing, or is none of this kind.
    Missing(Member),
    /// The element of the array with this number, from 0 on, is none of this kind.
    Element(Member, usize),
    /// Allocation failed.
    OutOfMemory,
}

impl From<AllocError> for ExceptionsError {
    ghost use Rattle.std.specs.Prelude.{◌≡◌};
    ghost use Rattle.rpki_payloads.specs.declared.exceptions_text.ExceptionsError.TheVariants.{OutOfMemory};

    ghost from_gives = { λ _ e. e ≡ OutOfMemory };

    fn from(_: AllocError) -> ExceptionsError {
        ExceptionsError::OutOfMemory
    }
}

impl<T: Drop> From<AllocFailed<T>> for ExceptionsError {
    ghost use Rattle.std.specs.Prelude.{◌≡◌};
    ghost use Rattle.rpki_payloads.specs.declared.exceptions_text.ExceptionsError.TheVariants.{OutOfMemory};

    ghost from_gives = { λ _ e. e ≡ OutOfMemory };

    fn from(_: AllocFailed<T>) -> ExceptionsError {
        ExceptionsError::OutOfMemory
    }
}

/// A filter of prefixes (RFC 8416 3.3.1). None if it isn't one.
fn prefix_filter_of(value: &Value) -> Option<PrefixFilter>
    ensures { Finds (IsPrefixFilter (view value.now)) result }
{
    if !has_only_three(value, "prefix", "asn", "comment") || !has_comment(value) {
        return None;
    }
    let Some(prefix) = prefix_in(value) else {
        return None;
    };
    let Some(asn) = asn_in(value) else {
        return None;
    };
    if prefix.is_none() && asn.is_none() {
        return None;
    }
    Some(PrefixFilter { prefix, asn })
}

/// Twenty octets of an identifier, where there is one.
fn octets_in(identifier: Option<KeyIdentifier>) -> Option<[u8; 20]>
    ensures { result ≡ identifier }
{
    match identifier {
        Some(identifier) => Some(<[u8; 20]>::from(identifier)),
        None => None,
    }
}

/// The filter of an AS number and an identifier. None if there is neither.
fn key_filter_with(asn: Option<u32>, identifier: Option<[u8; 20]>) -> Option<KeyFilter>
    ensures value { IfSome result (λ f. (f.asn ≡ asn) × (f.identifier ≡ identifier)) }
    ensures some { IfSome result (λ _. asn ≡ None → identifier ≡ None → ⊥) }
    ensures none { IfNone result ((asn ≡ None) × (identifier ≡ None)) }
{
    if asn.is_none() && identifier.is_none() {
        return None;
    }
    Some(KeyFilter { asn, identifier })
}

/// A filter of the keys of routers (RFC 8416 3.3.2). None if it isn't one.
fn key_filter_of(alloc: Global, value: &Value) -> Result<Option<KeyFilter>, AllocError>
    ensures { IfOk result (λ o. Finds (IsKeyFilter (view value.now)) o) }
{
    if !has_only_three(value, "asn", "SKI", "comment") || !has_comment(value) {
        return Ok(None);
    }
    let Some(asn) = asn_in(value) else {
        return Ok(None);
    };
    let Some(identifier) = identifier_in(alloc, value)? else {
        return Ok(None);
    };
    Ok(key_filter_with(asn, octets_in(identifier)))
}

/// The prefix that is added for this AS, where the maximum length is none below that of the prefix, nor above that of
/// addresses.
pub(crate) fn vrp_with(prefix: Prefix, longest: Option<u32>, as_id: u32) -> Option<Vrp>
    ensures { Finds (IsVrpWith prefix longest as_id) result }
{
    let most = match longest {
        Some(longest) => longest,
        None => prefix.len as u32,
    };
    if most < prefix.len as u32 || most > width_of(prefix.addr) as u32 {
        return None;
    }
    Some(Vrp {
        addr: prefix.addr,
        len: prefix.len,
        max_length: most as u8,
        as_id,
    })
}

/// A prefix that is added (RFC 8416 3.4.1). None if it isn't one.
fn prefix_assertion_of(value: &Value) -> Option<Vrp>
    ensures { Finds (IsPrefixAssertion (view value.now)) result }
{
    if !has_only_four(value, "asn", "prefix", "maxPrefixLength", "comment") || !has_comment(value) {
        return None;
    }
    let Some(asn) = asn_at(value) else {
        return None;
    };
    let Some(prefix) = prefix_at(value) else {
        return None;
    };
    let Some(longest) = longest_in(value) else {
        return None;
    };
    vrp_with(prefix, longest, asn)
}

/// The member `routerPublicKey`. None if it is not there, or is no public key in base 64.
fn info_in(alloc: Global, value: &Value) -> Result<Option<Bytes>, AllocError>
    ensures { IfOk result (λ o. Finds (IsMember (codes "routerPublicKey") IsInfoIn (view value.now)) o) }
{
    match value.get("routerPublicKey") {
        Some(member) => info_of(alloc, member),
        None => Ok(None),
    }
}

/// A key of a router that is added (RFC 8416 3.4.2). None if it isn't one.
fn key_assertion_of(alloc: Global, value: &Value) -> Result<Option<RouterKey>, AllocError>
    ensures { IfOk result (λ o. Finds (IsKeyAssertion (view value.now)) o) }
{
    if !has_only_four(value, "asn", "SKI", "routerPublicKey", "comment") || !has_comment(value) {
        return Ok(None);
    }
    let Some(asn) = asn_at(value) else {
        return Ok(None);
    };
    let Some(identifier) = identifier_at(alloc, value)? else {
        return Ok(None);
    };
    let Some(info) = info_in(alloc, value)? else {
        return Ok(None);
    };
    Ok(Some(RouterKey {
        first: asn,
        last: asn,
        identifier,
        info,
    }))
}

/// The elements of the member of this name, which is an array.
pub(crate) fn elements_in<'a>(value: &'a Value, name: &str) -> Option<&'a Vec<Value>>
    ensures { option_map (λ v. items_view v.now.items) result
        ≡ option_and_then as_array (get name.now (view value.now)) }
{
    match value.get(name) {
        Some(member) => member.as_array(),
        None => None,
    }
}

/// The filters of prefixes, each in its place.
fn prefix_filters_of(alloc: Global, values: &[Value]) -> Result<Vec<PrefixFilter>, ExceptionsError>
    ensures ok { IfOk result (λ all. AreEach (λ v. IsPrefixFilter (view v)) values.now all.items) }
    ensures err { IfErr result (IsElementFault (λ v. IsPrefixFilter (view v)) PrefixFilters values.now) }
{
    let mut all = Vec::new(alloc);
    'values: for value in values {
        let Some(one) = prefix_filter_of(value) else {
            return Err(ExceptionsError::Element(Member::PrefixFilters, all.len()));
        };
        all.push(one)?;
    }
    Ok(all)
}

/// Adds the filter of keys that the value is. Returns whether it is one.
fn push_key_filter(
    alloc: Global,
    all: &mut Vec<KeyFilter>,
    value: &Value,
) -> Result<bool, AllocError>
    ensures pushed { IfOk result (λ is_one. is_one ≡ true → (f : F) × IsKeyFilter (view value.now) f
        × (all.new.items ≡ all.old.items ++ f ∷ [])) }
    ensures none { IfOk result (λ is_one. is_one ≡ false → (all.new ≡ all.old)
        × ((f : F) → IsKeyFilter (view value.now) f → ⊥)) }
{
    match key_filter_of(alloc, value)? {
        Some(one) => {
            all.push(one)?;
            Ok(true)
        }
        None => Ok(false),
    }
}

/// The filters of keys, each in its place.
fn key_filters_of(alloc: Global, values: &[Value]) -> Result<Vec<KeyFilter>, ExceptionsError>
    ensures ok { IfOk result (λ all. AreEach (λ v. IsKeyFilter (view v)) values.now all.items) }
    ensures err { IfErr result (IsElementFault (λ v. IsKeyFilter (view v)) KeyFilters values.now) }
{
    let mut all = Vec::new(alloc);
    'values: for value in values {
        if !push_key_filter(alloc, &mut all, value)? {
            return Err(ExceptionsError::Element(Member::KeyFilters, all.len()));
        }
    }
    Ok(all)
}

/// The prefixes that are added, each in its place.
fn prefix_assertions_of(alloc: Global, values: &[Value]) -> Result<Vec<Vrp>, ExceptionsError>
    ensures ok { IfOk result (λ all. AreEach (λ v. IsPrefixAssertion (view v)) values.now all.items) }
    ensures err { IfErr result (IsElementFault (λ v. IsPrefixAssertion (view v)) PrefixAssertions values.now) }
{
    let mut all = Vec::new(alloc);
    'values: for value in values {
        let Some(one) = prefix_assertion_of(value) else {
            return Err(ExceptionsError::Element(Member::PrefixAssertions, all.len()));
        };
        all.push(one)?;
    }
    Ok(all)
}

/// The keys that are added, each in its place.
fn key_assertions_of(alloc: Global, values: &[Value]) -> Result<Vec<RouterKey>, ExceptionsError>
    ensures ok { IfOk result (λ all. AreEach (λ v. IsKeyAssertion (view v)) values.now all.items) }
    ensures err { IfErr result (IsElementFault (λ v. IsKeyAssertion (view v)) KeyAssertions values.now) }
{
    let mut all = Vec::new(alloc);
    'values: for value in values {
        let Some(one) = key_assertion_of(alloc, value)? else {
            return Err(ExceptionsError::Element(Member::KeyAssertions, all.len()));
        };
        all.push(one)?;
    }
    Ok(all)
}

/// The elements of the member of this name, each of which is a filter of prefixes.
fn prefix_filters_in(alloc: Global, value: &Value) -> Result<Vec<PrefixFilter>, ExceptionsError>
    ensures ok { IfOk result (λ all. AreListed (codes "prefixFilters") IsPrefixFilter (view value.now) all.items) }
    ensures err { IfErr result (IsArrayFault IsPrefixFilter PrefixFilters (view value.now)) }
{
    match elements_in(value, "prefixFilters") {
        Some(values) => prefix_filters_of(alloc, values.as_slice()),
        None => Err(ExceptionsError::Missing(Member::PrefixFilters)),
    }
}

/// The elements of the member of this name, each of which is a filter of keys.
fn key_filters_in(alloc: Global, value: &Value) -> Result<Vec<KeyFilter>, ExceptionsError>
    ensures ok { IfOk result (λ all. AreListed (codes "bgpsecFilters") IsKeyFilter (view value.now) all.items) }
    ensures err { IfErr result (IsArrayFault IsKeyFilter KeyFilters (view value.now)) }
{
    match elements_in(value, "bgpsecFilters") {
        Some(values) => key_filters_of(alloc, values.as_slice()),
        None => Err(ExceptionsError::Missing(Member::KeyFilters)),
    }
}

/// The elements of the member of this name, each of which is a prefix that is added.
fn prefix_assertions_in(alloc: Global, value: &Value) -> Result<Vec<Vrp>, ExceptionsError>
    ensures ok { IfOk result (λ all. AreListed (codes "prefixAssertions") IsPrefixAssertion
        (view value.now) all.items) }
    ensures err { IfErr result (IsArrayFault IsPrefixAssertion PrefixAssertions (view value.now)) }
{
    match elements_in(value, "prefixAssertions") {
        Some(values) => prefix_assertions_of(alloc, values.as_slice()),
        None => Err(ExceptionsError::Missing(Member::PrefixAssertions)),
    }
}

/// The elements of the member of this name, each of which is a key that is added.
fn key_assertions_in(alloc: Global, value: &Value) -> Result<Vec<RouterKey>, ExceptionsError>
    ensures ok { IfOk result (λ all. AreListed (codes "bgpsecAssertions") IsKeyAssertion (view value.now) all.items) }
    ensures err { IfErr result (IsArrayFault IsKeyAssertion KeyAssertions (view value.now)) }
{
    match elements_in(value, "bgpsecAssertions") {
        Some(values) => key_assertions_of(alloc, values.as_slice()),
        None => Err(ExceptionsError::Missing(Member::KeyAssertions)),
    }
}

/// The filters that the value is.
fn filters_of(
    alloc: Global,
    value: &Value,
) -> Result<(Vec<PrefixFilter>, Vec<KeyFilter>), ExceptionsError>
    ensures ok { IfOk result (λ all. AreFilters (view value.now) all.0.items all.1.items) }
    ensures err { IfErr result (IsFiltersFault (view value.now)) }
{
    if !has_only_two(value, "prefixFilters", "bgpsecFilters") {
        return Err(ExceptionsError::Missing(Member::Filters));
    }
    let prefixes = prefix_filters_in(alloc, value)?;
    let keys = key_filters_in(alloc, value)?;
    Ok((prefixes, keys))
}

/// The assertions that the value is.
fn assertions_of(
    alloc: Global,
    value: &Value,
) -> Result<(Vec<Vrp>, Vec<RouterKey>), ExceptionsError>
    ensures ok { IfOk result (λ all. AreAssertions (view value.now) all.0.items all.1.items) }
    ensures err { IfErr result (IsAssertionsFault (view value.now)) }
{
    if !has_only_two(value, "prefixAssertions", "bgpsecAssertions") {
        return Err(ExceptionsError::Missing(Member::Assertions));
    }
    let prefixes = prefix_assertions_in(alloc, value)?;
    let keys = key_assertions_in(alloc, value)?;
    Ok((prefixes, keys))
}

/// Whether the version is 1.
fn is_version_one(value: &Value) -> bool
    ensures { IsTrue result ↔ IsVersionOne (view value.now) }
{
    match value.get("slurmVersion") {
        Some(version) => match version.as_u64() {
            Some(number) => number == 1,
            None => false,
        },
        None => false,
    }
}

/// The exceptions that the value is.
fn exceptions_of(alloc: Global, value: &Value) -> Result<Exceptions, ExceptionsError>
    ensures ok { IfOk result (AreExceptionsIn (view value.now)) }
    ensures err { IfErr result (IsExceptionsFault (view value.now)) }
{
    if !has_only_three(
        value,
        "slurmVersion",
        "validationOutputFilters",
        "locallyAddedAssertions",
    ) {
        return Err(ExceptionsError::Members);
    }
    if !is_version_one(value) {
        return Err(ExceptionsError::Missing(Member::Version));
    }
    let Some(filters) = value.get("validationOutputFilters") else {
        return Err(ExceptionsError::Missing(Member::Filters));
    };
    let Some(assertions) = value.get("locallyAddedAssertions") else {
        return Err(ExceptionsError::Missing(Member::Assertions));
    };
    let (prefix_filters, key_filters) = filters_of(alloc, filters)?;
    let (vrps, keys) = assertions_of(alloc, assertions)?;
    Ok(Exceptions {
        prefix_filters,
        key_filters,
        vrps,
        keys,
    })
}

/// Whether no object of the text has a name twice: `Twice` if one has.
fn check_names(alloc: Global, octets: &[u8]) -> Result<(), ExceptionsError>
    ensures ok { OnOk result (HasNamesOnce octets.now) }
    ensures err { IfErr result (IsJsonFault octets.now) }
{
    let Ok(text) = str::from_utf8(octets) else {
        return Err(ExceptionsError::Json(1));
    };
    let mut scratch = Scratch::new(alloc);
    match Json::parse_strict(alloc, text, &mut scratch) {
        Ok(_) => Ok(()),
        Err(JsonError::DuplicateKey) => Err(ExceptionsError::Twice),
        Err(JsonError::OutOfMemory) => Err(ExceptionsError::OutOfMemory),
        Err(JsonError::Invalid | JsonError::TooLong) => Err(ExceptionsError::Json(1)),
    }
}

/// The value that the text is.
fn value_in(alloc: Global, octets: &[u8]) -> Result<Value, ExceptionsError>
    ensures ok { IfOk result (λ value. IsTextOf octets.now (view value)) }
    ensures err { IfErr result (IsJsonFault octets.now) }
{
    match Value::from_slice(alloc, octets) {
        Ok(value) => {
            check_names(alloc, octets)?;
            Ok(value)
        }
        Err(e) => {
            if e.is_memory() {
                return Err(ExceptionsError::OutOfMemory);
            }
            Err(ExceptionsError::Json(line_of(alloc, octets)?))
        }
    }
}

impl Exceptions {
    /// Reads a file of local exceptions (RFC 8416 3): an object of JSON of the version, the filters and the assertions,
    /// in which no member is missing or there twice, and there is no other, except for comments.
    ///
    /// Returns `Json` if the octets are no JSON; `Twice` if an object has a name twice, at any depth; `Members` for
    /// another object; `Missing` or `Element` for the first member or element of an array that is none of its kind: the
    /// version, then whether both objects are there, then the filters, then the assertions; `OutOfMemory` if allocation
    /// fails.
    pub fn read(alloc: Global, octets: &[u8]) -> Result<Exceptions, ExceptionsError>
        ensures ok { IfOk result (AreExceptions octets.now) }
        ensures err { IfErr result (IsTextFault octets.now) }
    {
        let value = value_in(alloc, octets)?;
        exceptions_of(alloc, &value)
    }
}
