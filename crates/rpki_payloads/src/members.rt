//! Members of objects of JSON, as files of local exceptions have them.

ghost use Rattle.std.specs.Prelude.{◌≡◌, ◌≤◌, ◌↔◌, ◌∷◌, [], true, false, IsTrue, IfOk, codes, map, option_map};
ghost use Rattle.std.specs.Prelude.{if◌then◌else◌};
ghost use Rattle.std.specs.Option.{is_some};
ghost use Rattle.serde_json.specs.Find.{get};
ghost use Rattle.serde_json.specs.View.{view};
ghost use Rattle.rpki_payloads.specs.Exceptions.{Finds};
ghost use Rattle.rpki_payloads.specs.ExceptionsText.{AreOctetsIn, HasComment, HasOnly, IsIdentifierIn, IsInfoIn};
ghost use Rattle.rpki_payloads.specs.ExceptionsText.{IsKeyInfo, IsNumberIn};
ghost use Rattle.rpki_payloads.specs.ExceptionsText.{IsMember, IsPrefixIn, MayBeMember, HasSize};

use base64::DecodeAllocError;
use base64::engine::general_purpose::URL_SAFE_NO_PAD;
use bytes::Bytes;
use rpki::crypto::PublicKey;
use rpki::crypto::keys::KeyIdentifier;
use rpki_der::DecodeError;
use rpki_resources::Prefix;
use serde_json::Value;
use std::alloc::{AllocError, Global};

/// Whether there is a member of this name.
fn has_member(value: &Value, name: &str) -> bool
    ensures { result ≡ is_some (get name.now (view value.now)) }
{
    value.get(name).is_some()
}

/// 1 if it is so, and else 0.
fn one_if(is_so: bool) -> usize
    ensures value { result ≡ (if is_so then 1 else 0) }
    ensures small { result ≤ 1 }
{
    if is_so { 1 } else { 0 }
}

/// Whether it is an object with so many members.
fn has_size(value: &Value, count: usize) -> bool
    ensures { IsTrue result ↔ HasSize count (view value.now) }
{
    match value.as_object() {
        Some(members) => members.len() == count,
        None => false,
    }
}

/// Whether it is an object, all of whose members have one of these two names.
pub fn has_only_two(value: &Value, one: &str, two: &str) -> bool
    ensures { IsTrue result ↔ HasOnly (one.now ∷ two.now ∷ []) (view value.now) }
{
    let count = one_if(has_member(value, one)) + one_if(has_member(value, two));
    has_size(value, count)
}

/// Whether it is an object, all of whose members have one of these three names.
pub fn has_only_three(value: &Value, one: &str, two: &str, three: &str) -> bool
    ensures { IsTrue result ↔ HasOnly (one.now ∷ two.now ∷ three.now ∷ []) (view value.now) }
{
    let count = one_if(has_member(value, one))
        + one_if(has_member(value, two))
        + one_if(has_member(value, three));
    has_size(value, count)
}

/// Whether it is an object, all of whose members have one of these four names.
pub fn has_only_four(value: &Value, one: &str, two: &str, three: &str, four: &str) -> bool
    ensures { IsTrue result ↔ HasOnly (one.now ∷ two.now ∷ three.now ∷ four.now ∷ []) (view value.now) }
{
    let count = one_if(has_member(value, one))
        + one_if(has_member(value, two))
        + one_if(has_member(value, three))
        + one_if(has_member(value, four));
    has_size(value, count)
}

/// Whether a comment, if there is one, is a text.
pub fn has_comment(value: &Value) -> bool
    ensures { IsTrue result ↔ HasComment (view value.now) }
{
    match value.get("comment") {
        Some(comment) => comment.as_str().is_some(),
        None => true,
    }
}

/// A number below 2^32.
pub fn number_of(value: &Value) -> Option<u32>
    ensures { Finds (IsNumberIn (view value.now)) result }
{
    match value.as_u64() {
        Some(number) => {
            if number < 4_294_967_296 {
                return Some(number as u32);
            }
            None
        }
        None => None,
    }
}

/// A prefix.
pub fn prefix_of(value: &Value) -> Option<Prefix>
    ensures { Finds (IsPrefixIn (view value.now)) result }
{
    match value.as_str() {
        Some(text) => match text.parse::<Prefix>() {
            Ok(prefix) => Some(prefix),
            Err(_) => None,
        },
        None => None,
    }
}

/// Octets, in base 64 without padding.
pub fn octets_of(alloc: Global, value: &Value) -> Result<Option<Vec<u8>>, AllocError>
    ensures { IfOk result (λ o. Finds (AreOctetsIn (view value.now)) (option_map (λ v. v.items) o)) }
{
    match value.as_str() {
        Some(text) => match URL_SAFE_NO_PAD.decode(alloc, text.as_bytes()) {
            Ok(octets) => Ok(Some(octets)),
            Err(DecodeAllocError::DecodeError(_)) => Ok(None),
            Err(DecodeAllocError::OutOfMemory) => Err(AllocError),
        },
        None => Ok(None),
    }
}

/// The identifier of a key, in base 64.
pub fn identifier_of(alloc: Global, value: &Value) -> Result<Option<KeyIdentifier>, AllocError>
    ensures { IfOk result (λ o. Finds (IsIdentifierIn (view value.now)) o) }
{
    match octets_of(alloc, value)? {
        Some(octets) => match KeyIdentifier::try_from(octets.as_slice()) {
            Ok(identifier) => Ok(Some(identifier)),
            Err(_) => Ok(None),
        },
        None => Ok(None),
    }
}

/// Whether the octets are a public key in DER (RFC 5280 4.1).
fn is_key(alloc: Global, info: &Bytes) -> Result<bool, AllocError>
    ensures yes { IfOk result (λ is_one. is_one ≡ true → IsKeyInfo info.now) }
    ensures no { IfOk result (λ is_one. is_one ≡ false → IsKeyInfo info.now → ⊥) }
{
    match PublicKey::decode(alloc, info.clone()?) {
        Ok(_) => Ok(true),
        Err(e) => match e {
            DecodeError::OutOfMemory => Err(AllocError),
            _ => Ok(false),
        },
    }
}

/// A public key in DER, in base 64.
pub fn info_of(alloc: Global, value: &Value) -> Result<Option<Bytes>, AllocError>
    ensures { IfOk result (λ o. Finds (IsInfoIn (view value.now)) o) }
{
    let Some(octets) = octets_of(alloc, value)? else {
        return Ok(None);
    };
    let info = Bytes::from_vec(octets)?;
    if is_key(alloc, &info)? {
        return Ok(Some(info));
    }
    Ok(None)
}

/// The member `asn`, where there is one. None if it is no number below 2^32.
pub fn asn_in(value: &Value) -> Option<Option<u32>>
    ensures { Finds (MayBeMember (codes "asn") IsNumberIn (view value.now)) result }
{
    match value.get("asn") {
        Some(member) => match number_of(member) {
            Some(number) => Some(Some(number)),
            None => None,
        },
        None => Some(None),
    }
}

/// The member `maxPrefixLength`, where there is one. None if it is no number below 2^32.
pub fn longest_in(value: &Value) -> Option<Option<u32>>
    ensures { Finds (MayBeMember (codes "maxPrefixLength") IsNumberIn (view value.now)) result }
{
    match value.get("maxPrefixLength") {
        Some(member) => match number_of(member) {
            Some(number) => Some(Some(number)),
            None => None,
        },
        None => Some(None),
    }
}

/// The member `prefix`, where there is one. None if it is no prefix.
pub fn prefix_in(value: &Value) -> Option<Option<Prefix>>
    ensures { Finds (MayBeMember (codes "prefix") IsPrefixIn (view value.now)) result }
{
    match value.get("prefix") {
        Some(member) => match prefix_of(member) {
            Some(prefix) => Some(Some(prefix)),
            None => None,
        },
        None => Some(None),
    }
}

/// The member `SKI`, where there is one. None if it is no identifier of a key.
pub fn identifier_in(
    alloc: Global,
    value: &Value,
) -> Result<Option<Option<KeyIdentifier>>, AllocError>
    ensures { IfOk result (λ o. Finds (MayBeMember (codes "SKI") IsIdentifierIn (view value.now)) o) }
{
    match value.get("SKI") {
        Some(member) => match identifier_of(alloc, member)? {
            Some(identifier) => Ok(Some(Some(identifier))),
            None => Ok(None),
        },
        None => Ok(Some(None)),
    }
}

/// The member `asn`. None if it is not there, or is no number below 2^32.
pub fn asn_at(value: &Value) -> Option<u32>
    ensures { Finds (IsMember (codes "asn") IsNumberIn (view value.now)) result }
{
    match value.get("asn") {
        Some(member) => number_of(member),
        None => None,
    }
}

/// The member `prefix`. None if it is not there, or is no prefix.
pub fn prefix_at(value: &Value) -> Option<Prefix>
    ensures { Finds (IsMember (codes "prefix") IsPrefixIn (view value.now)) result }
{
    match value.get("prefix") {
        Some(member) => prefix_of(member),
        None => None,
    }
}

/// The member `SKI`. None if it is not there, or is no identifier of a key.
pub fn identifier_at(alloc: Global, value: &Value) -> Result<Option<KeyIdentifier>, AllocError>
    ensures { IfOk result (λ o. Finds (IsMember (codes "SKI") IsIdentifierIn (view value.now)) o) }
{
    match value.get("SKI") {
        Some(member) => identifier_of(alloc, member),
        None => Ok(None),
    }
}
