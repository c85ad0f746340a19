//! The form of JSON that StayRTR serves to routers.

ghost use Rattle.std.specs.Prelude.{◌≡◌, ◌++◌, ◌+◌, ◌<◌, OnOk, IfOk, string_bytes};
ghost use Rattle.std.specs.List.{flat_map, range_with_len};
ghost use Rattle.rpki_payloads.specs.StayRtr.{stay_arrays, stay_customer, stay_end, stay_identifier, stay_info};
ghost use Rattle.rpki_payloads.specs.StayRtr.{stay_key, stay_keys, stay_number, stay_numbers, stay_origin};
ghost use Rattle.rpki_payloads.specs.StayRtr.{stay_origins, stay_provider, stay_providers, stay_text, stay_vap};
ghost use Rattle.rpki_payloads.specs.StayRtr.{told_count};

use crate::json_form::{json_string, length_text, prefix_text, push_array, push_name};
use crate::json_vaps::after_separator;
use crate::made::{key_count, push_metadata, vrp_count};
use crate::payloads::Payloads;
use crate::router_key::RouterKey;
use crate::timed::TimedVrp;
use crate::vap::Vap;
use rpki::repository::x509::Time;
use rpki_text::util::base64::Serde;
use std::alloc::{AllocError, Global};

/// The beginning of an object, after a comma: its first member, an AS number.
#[tactic(auto, unfolding(crate::specs::StayRtr::stay_number))]
fn number_text(alloc: Global, number: u64) -> Result<String, AllocError>
    ensures { IfOk result (λ text. string_bytes text ≡ stay_number number) }
{
    format!(in alloc; ",\n    {{ \"asn\": {number}")
}

/// The member with the end, after another one.
#[tactic(auto, unfolding(crate::specs::StayRtr::stay_end))]
fn end_text(alloc: Global, expires: u64) -> Result<String, AllocError>
    ensures { IfOk result (λ text. string_bytes text ≡ stay_end expires) }
{
    format!(in alloc; ", \"expires\": {expires}")
}

/// Adds a prefix that may be announced as an object, after a comma; the name of its locator is a string of JSON.
#[tactic(auto, unfolding(crate::specs::StayRtr::stay_origin))]
fn push_origin(text: &mut Vec<u8>, name: &[u8], timed: TimedVrp) -> Result<(), AllocError>
    ensures { OnOk result (text.new.items ≡ text.old.items ++ stay_origin name.now timed) }
{
    let number = number_text(*text.allocator(), timed.vrp.as_id as u64)?;
    let prefix = prefix_text(*text.allocator(), timed.vrp)?;
    let length = length_text(*text.allocator(), timed.vrp)?;
    let end = end_text(*text.allocator(), timed.expires)?;
    text.extend_from_slice(number.as_bytes())?;
    text.extend_from_slice(prefix.as_bytes())?;
    text.extend_from_slice(length.as_bytes())?;
    text.extend_from_slice(end.as_bytes())?;
    push_name(text, name)
}

/// Adds prefixes that may be announced as objects, each after a comma.
fn push_origins(text: &mut Vec<u8>, name: &[u8], all: &[TimedVrp]) -> Result<(), AllocError>
    ensures { OnOk result (text.new.items ≡ text.old.items ++ flat_map (stay_origin name.now) all.now) }
{
    'all: for timed in all {
        push_origin(text, name, *timed)?;
    }
    Ok(())
}

/// Adds the prefixes under a locator as objects, each after a comma.
fn push_origins_under(text: &mut Vec<u8>, one: &Payloads) -> Result<(), AllocError>
    ensures { OnOk result (text.new.items ≡ text.old.items ++ stay_origins one.now) }
{
    let name = json_string(*text.allocator(), one.name())?;
    push_origins(text, name.as_bytes(), one.timed())
}

/// The prefixes of all locators as objects, each after a comma.
fn origin_objects(alloc: Global, all: &[Payloads]) -> Result<Vec<u8>, AllocError>
    ensures { IfOk result (λ text. text.items ≡ flat_map stay_origins all.now) }
{
    let mut text = Vec::new(alloc);
    'all: for one in all {
        push_origins_under(&mut text, one)?;
    }
    Ok(text)
}

/// The member with the identifier, after another one.
#[tactic(auto, unfolding(crate::specs::StayRtr::stay_identifier))]
fn identifier_text(alloc: Global, key: &RouterKey) -> Result<String, AllocError>
    ensures { IfOk result (λ text. string_bytes text ≡ stay_identifier key.now) }
{
    let identifier = key.identifier;
    format!(in alloc; ", \"ski\": \"{}\"", identifier)
}

/// The member with the key, after another one.
#[tactic(auto, unfolding(crate::specs::StayRtr::stay_info))]
fn info_text(alloc: Global, key: &RouterKey) -> Result<String, AllocError>
    ensures { IfOk result (λ text. string_bytes text ≡ stay_info key.now) }
{
    let info = Serde.encode(alloc, &key.info)?;
    format!(in alloc; ", \"pubkey\": \"{}\"", info)
}

/// Adds a key for one AS number as an object, after a comma; the name of its locator is a string of JSON.
#[tactic(auto, unfolding(crate::specs::StayRtr::stay_key))]
fn push_key(text: &mut Vec<u8>, name: &[u8], key: &RouterKey, number: u64) -> Result<(), AllocError>
    ensures { OnOk result (text.new.items ≡ text.old.items ++ stay_key name.now key.now number) }
{
    let number = number_text(*text.allocator(), number)?;
    let identifier = identifier_text(*text.allocator(), key)?;
    let info = info_text(*text.allocator(), key)?;
    text.extend_from_slice(number.as_bytes())?;
    text.extend_from_slice(identifier.as_bytes())?;
    text.extend_from_slice(info.as_bytes())?;
    push_name(text, name)
}

/// How many AS numbers a key has; none where they are more than 256.
fn told_count(key: &RouterKey) -> u32
    ensures { result ≡ told_count key.now }
{
    if key.last < key.first {
        return 0;
    }
    let more = key.last - key.first;
    if more < 256 { more + 1 } else { 0 }
}

/// Adds a key for so many AS numbers from the first on, each as an object.
fn push_numbers(
    text: &mut Vec<u8>,
    name: &[u8],
    key: &RouterKey,
    first: u64,
    count: u32,
) -> Result<(), AllocError>
    requires { first < 4_294_967_296 }
    ensures { OnOk result (text.new.items
        ≡ text.old.items ++ flat_map (stay_key name.now key.now) (range_with_len first count)) }
{
    let mut number = first;
    let mut left = count;
    'numbers: while left > 0 {
        push_key(text, name, key, number)?;
        number += 1;
        left -= 1;
    }
    Ok(())
}

/// Adds a key for each of its AS numbers, as an object.
fn push_key_of(text: &mut Vec<u8>, name: &[u8], key: &RouterKey) -> Result<(), AllocError>
    ensures { OnOk result (text.new.items ≡ text.old.items ++ stay_numbers name.now key.now) }
{
    push_numbers(text, name, key, key.first as u64, told_count(key))
}

/// Adds keys as objects, each after a comma.
fn push_keys(text: &mut Vec<u8>, name: &[u8], keys: &[RouterKey]) -> Result<(), AllocError>
    ensures { OnOk result (text.new.items ≡ text.old.items ++ flat_map (stay_numbers name.now) keys.now) }
{
    'keys: for key in keys {
        push_key_of(text, name, key)?;
    }
    Ok(())
}

/// Adds the keys under a locator as objects, each after a comma.
fn push_keys_under(text: &mut Vec<u8>, one: &Payloads) -> Result<(), AllocError>
    ensures { OnOk result (text.new.items ≡ text.old.items ++ stay_keys one.now) }
{
    let name = json_string(*text.allocator(), one.name())?;
    push_keys(text, name.as_bytes(), one.keys())
}

/// The keys of all locators as objects, each after a comma.
fn key_objects(alloc: Global, all: &[Payloads]) -> Result<Vec<u8>, AllocError>
    ensures { IfOk result (λ text. text.items ≡ flat_map stay_keys all.now) }
{
    let mut text = Vec::new(alloc);
    'all: for one in all {
        push_keys_under(&mut text, one)?;
    }
    Ok(text)
}

/// Adds a provider as a number, after a comma.
#[tactic(auto, unfolding(crate::specs::StayRtr::stay_provider))]
fn push_provider(text: &mut Vec<u8>, provider: u32) -> Result<(), AllocError>
    ensures { OnOk result (text.new.items ≡ text.old.items ++ stay_provider provider) }
{
    let provider = format!(in *text.allocator(); ", {provider}")?;
    text.extend_from_slice(provider.as_bytes())
}

/// Providers as numbers, each after a comma.
fn provider_texts(alloc: Global, providers: &[u32]) -> Result<Vec<u8>, AllocError>
    ensures { IfOk result (λ text. text.items ≡ flat_map stay_provider providers.now) }
{
    let mut text = Vec::new(alloc);
    'providers: for provider in providers {
        push_provider(&mut text, *provider)?;
    }
    Ok(text)
}

/// The beginning of an object, after a comma, as far as the first provider.
#[tactic(auto, unfolding(crate::specs::StayRtr::stay_customer))]
fn customer_text(alloc: Global, customer: u32) -> Result<String, AllocError>
    ensures { IfOk result (λ text. string_bytes text ≡ stay_customer customer) }
{
    format!(in alloc; ",\n    {{ \"customer_asid\": {customer}, \"providers\": [")
}

/// Adds a customer and its providers as an object, after a comma.
#[tactic(auto, unfolding(crate::specs::StayRtr::stay_vap))]
fn push_vap(text: &mut Vec<u8>, vap: &Vap) -> Result<(), AllocError>
    ensures { OnOk result (text.new.items ≡ text.old.items ++ stay_vap vap.now) }
{
    let customer = customer_text(*text.allocator(), vap.customer())?;
    let providers = provider_texts(*text.allocator(), vap.providers())?;
    text.extend_from_slice(customer.as_bytes())?;
    text.extend_from_slice(after_separator(providers.as_slice()))?;
    text.extend_from_slice(b"] }")
}

/// Customers and their providers as objects, each after a comma.
fn vap_objects(alloc: Global, vaps: &[Vap]) -> Result<Vec<u8>, AllocError>
    ensures { IfOk result (λ text. text.items ≡ flat_map stay_vap vaps.now) }
{
    let mut text = Vec::new(alloc);
    'vaps: for vap in vaps {
        push_vap(&mut text, vap)?;
    }
    Ok(text)
}

/// Adds the customers for each family of addresses, and the end of the object.
fn push_providers(text: &mut Vec<u8>, customers: &[u8]) -> Result<(), AllocError>
    ensures { OnOk result (text.new.items ≡ text.old.items ++ stay_providers customers.now) }
{
    push_array(
        text,
        b",\n  \"provider_authorizations\": {\n  \"ipv4\"",
        customers,
    )?;
    push_array(text, b",\n  \"ipv6\"", customers)?;
    text.extend_from_slice(b"\n  }\n}\n")?;
    Ok(())
}

/// Adds the arrays of objects, and the end of the object.
fn push_arrays(
    text: &mut Vec<u8>,
    origins: &[u8],
    keys: &[u8],
    customers: &[u8],
) -> Result<(), AllocError>
    ensures { OnOk result (text.new.items ≡ text.old.items ++ stay_arrays origins.now keys.now customers.now) }
{
    push_array(text, b"  \"roas\"", origins)?;
    push_array(text, b",\n  \"bgpsec_keys\"", keys)?;
    push_providers(text, customers)
}

/// The payloads of all locators, as StayRTR reads them, where these are the providers of customers.
pub fn stay_text(
    alloc: Global,
    all: &[Payloads],
    vaps: &[Vap],
    made: Time,
) -> Result<Vec<u8>, AllocError>
    ensures { IfOk result (λ text. text.items ≡ stay_text all.now vaps.now made) }
{
    let origins = origin_objects(alloc, all)?;
    let keys = key_objects(alloc, all)?;
    let customers = vap_objects(alloc, vaps)?;
    let vrp_count = vrp_count(all)?;
    let key_count = key_count(all)?;
    let mut text = Vec::new(alloc);
    push_metadata(&mut text, made, vrp_count, key_count, vaps.len())?;
    push_arrays(
        &mut text,
        origins.as_slice(),
        keys.as_slice(),
        customers.as_slice(),
    )?;
    Ok(text)
}
