//! Keys of routers as objects of JSON.

ghost use Rattle.std.specs.Prelude.{◌≡◌, ◌++◌, OnOk, IfOk, string_bytes};
ghost use Rattle.std.specs.List.{flat_map};
ghost use Rattle.rpki_payloads.specs.Json.{json_identifier, json_info, json_key, json_number_alone, json_numbers};
ghost use Rattle.rpki_payloads.specs.Json.{json_range};

use crate::json_form::push_name;
use crate::router_key::RouterKey;
use rpki_text::util::base64::Slurm;
use std::alloc::{AllocError, Global};

/// The member with an AS number, at the beginning of an object.
#[tactic(auto, unfolding(crate::specs::Json::json_number_alone))]
fn number_text(alloc: Global, number: u32) -> Result<String, AllocError>
    ensures { IfOk result (λ text. string_bytes text ≡ json_number_alone number) }
{
    format!(in alloc; "{{ \"asn\": \"AS{number}\"")
}

/// The members with the lowest and the highest of a range of AS numbers, at the beginning of an object.
#[tactic(auto, unfolding(crate::specs::Json::json_range))]
fn range_text(alloc: Global, first: u32, last: u32) -> Result<String, AllocError>
    ensures { IfOk result (λ text. string_bytes text ≡ json_range first last) }
{
    format!(in alloc; "{{ \"minAsn\": {first}, \"maxAsn\": {last}")
}

/// The members with the AS numbers, at the beginning of an object.
fn numbers_text(alloc: Global, key: &RouterKey) -> Result<String, AllocError>
    ensures { IfOk result (λ text. string_bytes text ≡ json_numbers key.now) }
{
    if key.first == key.last {
        return number_text(alloc, key.first);
    }
    range_text(alloc, key.first, key.last)
}

/// The member with the identifier, after another one.
#[tactic(auto, unfolding(crate::specs::Json::json_identifier))]
fn identifier_text(alloc: Global, key: &RouterKey) -> Result<String, AllocError>
    ensures { IfOk result (λ text. string_bytes text ≡ json_identifier key.now) }
{
    let identifier = key.identifier;
    format!(in alloc; ", \"SKI\": \"{}\"", identifier)
}

/// The member with the key, after another one.
#[tactic(auto, unfolding(crate::specs::Json::json_info))]
fn info_text(alloc: Global, key: &RouterKey) -> Result<String, AllocError>
    ensures { IfOk result (λ text. string_bytes text ≡ json_info key.now) }
{
    let info = Slurm.encode(alloc, &key.info)?;
    format!(in alloc; ", \"routerPublicKey\": \"{}\"", info)
}

/// Adds a key as an object, after a comma; the name of its locator is a string of JSON.
#[tactic(auto, unfolding(crate::specs::Json::json_key))]
fn push_key(text: &mut Vec<u8>, name: &[u8], key: &RouterKey) -> Result<(), AllocError>
    ensures { OnOk result (text.new.items ≡ text.old.items ++ json_key name.now key.now) }
{
    let numbers = numbers_text(*text.allocator(), key)?;
    let identifier = identifier_text(*text.allocator(), key)?;
    let info = info_text(*text.allocator(), key)?;
    text.extend_from_slice(b",\n    ")?;
    text.extend_from_slice(numbers.as_bytes())?;
    text.extend_from_slice(identifier.as_bytes())?;
    text.extend_from_slice(info.as_bytes())?;
    push_name(text, name)
}

/// Adds keys as objects, each after a comma.
pub fn push_keys(text: &mut Vec<u8>, name: &[u8], keys: &[RouterKey]) -> Result<(), AllocError>
    ensures { OnOk result (text.new.items ≡ text.old.items ++ flat_map (json_key name.now) keys.now) }
{
    'keys: for key in keys {
        push_key(text, name, key)?;
    }
    Ok(())
}
