//! The form of an object of JSON.

ghost use Rattle.std.specs.Prelude.{◌≡◌, ◌++◌, OnOk, IfOk, drop, string_bytes};
ghost use Rattle.std.specs.List.{flat_map};
ghost use Rattle.rpki_payloads.specs.Json.{json_string, json_number, json_prefix, json_length, json_name};
ghost use Rattle.rpki_payloads.specs.Json.{json_vrp, json_vrps, json_keys, json_vap, json_array, json_arrays};
ghost use Rattle.rpki_payloads.specs.Json.{json_text};

use crate::json_keys::push_keys;
use crate::json_vaps::vap_objects;
use crate::made::{key_count, push_metadata, vrp_count};
use crate::payloads::Payloads;
use crate::vap::Vap;
use crate::vrp::Vrp;
use rpki::repository::x509::Time;
use serde_json::Value;
use std::alloc::{AllocError, Global};

/// A text as a string of JSON, in quotation marks (RFC 8259 7). What is not UTF-8 is replaced.
pub(crate) fn json_string(alloc: Global, text: &[u8]) -> Result<String, AllocError>
    ensures { IfOk result (λ json. string_bytes json ≡ json_string text.now) }
{
    let text = String::from_utf8_lossy(alloc, text)?;
    Value::String(text).to_string(alloc)
}

/// The member with the AS number, at the beginning of an object.
#[tactic(auto, unfolding(crate::specs::Json::json_number))]
fn number_text(alloc: Global, vrp: Vrp) -> Result<String, AllocError>
    ensures { IfOk result (λ text. string_bytes text ≡ json_number vrp) }
{
    format!(in alloc; "{{ \"asn\": \"AS{}\"", vrp.as_id)
}

/// The member with the prefix, after another one.
#[tactic(auto, unfolding(crate::specs::Json::json_prefix))]
pub(crate) fn prefix_text(alloc: Global, vrp: Vrp) -> Result<String, AllocError>
    ensures { IfOk result (λ text. string_bytes text ≡ json_prefix vrp) }
{
    let prefix = vrp.prefix();
    format!(in alloc; ", \"prefix\": \"{}\"", prefix)
}

/// The member with the maximum length, after another one.
#[tactic(auto, unfolding(crate::specs::Json::json_length))]
pub(crate) fn length_text(alloc: Global, vrp: Vrp) -> Result<String, AllocError>
    ensures { IfOk result (λ text. string_bytes text ≡ json_length vrp) }
{
    format!(in alloc; ", \"maxLength\": {}", vrp.max_length)
}

/// Adds the member with the name of the locator, after another one, at the end of an object.
#[tactic(auto, unfolding(crate::specs::Json::json_name))]
pub(crate) fn push_name(text: &mut Vec<u8>, name: &[u8]) -> Result<(), AllocError>
    ensures { OnOk result (text.new.items ≡ text.old.items ++ json_name name.now) }
{
    text.extend_from_slice(b", \"ta\": ")?;
    text.extend_from_slice(name)?;
    text.extend_from_slice(b" }")
}

/// Adds a prefix that may be announced as an object, after a comma; the name of its locator is a string of JSON.
#[tactic(auto, unfolding(crate::specs::Json::json_vrp))]
fn push_vrp(text: &mut Vec<u8>, name: &[u8], vrp: Vrp) -> Result<(), AllocError>
    ensures { OnOk result (text.new.items ≡ text.old.items ++ json_vrp name.now vrp) }
{
    let number = number_text(*text.allocator(), vrp)?;
    let prefix = prefix_text(*text.allocator(), vrp)?;
    let length = length_text(*text.allocator(), vrp)?;
    text.extend_from_slice(b",\n    ")?;
    text.extend_from_slice(number.as_bytes())?;
    text.extend_from_slice(prefix.as_bytes())?;
    text.extend_from_slice(length.as_bytes())?;
    push_name(text, name)
}

/// Adds prefixes that may be announced as objects, each after a comma.
fn push_vrps(text: &mut Vec<u8>, name: &[u8], vrps: &[Vrp]) -> Result<(), AllocError>
    ensures { OnOk result (text.new.items ≡ text.old.items ++ flat_map (json_vrp name.now) vrps.now) }
{
    'vrps: for vrp in vrps {
        push_vrp(text, name, *vrp)?;
    }
    Ok(())
}

/// Adds the prefixes under a locator as objects, each after a comma.
fn push_prefixes_under(text: &mut Vec<u8>, one: &Payloads) -> Result<(), AllocError>
    ensures { OnOk result (text.new.items ≡ text.old.items ++ json_vrps one.now) }
{
    let name = json_string(*text.allocator(), one.name())?;
    push_vrps(text, name.as_bytes(), one.vrps())
}

/// Adds the keys under a locator as objects, each after a comma.
fn push_keys_under(text: &mut Vec<u8>, one: &Payloads) -> Result<(), AllocError>
    ensures { OnOk result (text.new.items ≡ text.old.items ++ json_keys one.now) }
{
    let name = json_string(*text.allocator(), one.name())?;
    push_keys(text, name.as_bytes(), one.keys())
}

/// The prefixes of all locators as objects, each after a comma.
fn prefix_objects(alloc: Global, all: &[Payloads]) -> Result<Vec<u8>, AllocError>
    ensures { IfOk result (λ text. text.items ≡ flat_map json_vrps all.now) }
{
    let mut text = Vec::new(alloc);
    'all: for one in all {
        push_prefixes_under(&mut text, one)?;
    }
    Ok(text)
}

/// The keys of all locators as objects, each after a comma.
fn key_objects(alloc: Global, all: &[Payloads]) -> Result<Vec<u8>, AllocError>
    ensures { IfOk result (λ text. text.items ≡ flat_map json_keys all.now) }
{
    let mut text = Vec::new(alloc);
    'all: for one in all {
        push_keys_under(&mut text, one)?;
    }
    Ok(text)
}

/// What is after the first octet.
fn after_comma(text: &[u8]) -> &[u8]
    ensures { result.now ≡ drop 1 text.now }
{
    match text.split_first() {
        Some((_, rest)) => rest,
        None => &[],
    }
}

/// Adds a member, whose name is in quotation marks after what comes before it: an array of objects, each of which
/// is after a comma here.
pub(crate) fn push_array(text: &mut Vec<u8>, name: &[u8], objects: &[u8]) -> Result<(), AllocError>
    ensures { OnOk result (text.new.items ≡ text.old.items ++ json_array name.now objects.now) }
{
    text.extend_from_slice(name)?;
    text.extend_from_slice(b": [")?;
    text.extend_from_slice(after_comma(objects))?;
    text.extend_from_slice(b"\n  ]")
}

/// Adds the arrays of objects, and the end of the object.
fn push_arrays(
    text: &mut Vec<u8>,
    prefixes: &[u8],
    keys: &[u8],
    customers: &[u8],
) -> Result<(), AllocError>
    ensures { OnOk result (text.new.items ≡ text.old.items ++ json_arrays prefixes.now keys.now customers.now) }
{
    push_array(text, b"  \"roas\"", prefixes)?;
    push_array(text, b",\n  \"routerKeys\"", keys)?;
    push_array(text, b",\n  \"aspas\"", customers)?;
    text.extend_from_slice(b"\n}\n")
}

/// The payloads of all locators, as an object of JSON, where these are the providers of customers.
pub fn json_text(
    alloc: Global,
    all: &[Payloads],
    vaps: &[Vap],
    made: Time,
) -> Result<Vec<u8>, AllocError>
    ensures { IfOk result (λ text. text.items ≡ json_text all.now vaps.now made) }
{
    let prefixes = prefix_objects(alloc, all)?;
    let keys = key_objects(alloc, all)?;
    let customers = vap_objects(alloc, vaps)?;
    let vrp_count = vrp_count(all)?;
    let key_count = key_count(all)?;
    let mut text = Vec::new(alloc);
    push_metadata(&mut text, made, vrp_count, key_count, vaps.len())?;
    push_arrays(
        &mut text,
        prefixes.as_slice(),
        keys.as_slice(),
        customers.as_slice(),
    )?;
    Ok(text)
}
