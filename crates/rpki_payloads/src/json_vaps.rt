//! Customers and their providers as objects of JSON.

ghost use Rattle.std.specs.Prelude.{◌≡◌, ◌++◌, OnOk, IfOk, drop, string_bytes};
ghost use Rattle.std.specs.List.{flat_map};
ghost use Rattle.rpki_payloads.specs.Json.{json_provider, json_customer, json_vap};

use crate::vap::Vap;
use std::alloc::{AllocError, Global};

/// Adds a provider as a string, after a comma.
#[tactic(auto, unfolding(crate::specs::Json::json_provider))]
fn push_provider(text: &mut Vec<u8>, provider: u32) -> Result<(), AllocError>
    ensures { OnOk result (text.new.items ≡ text.old.items ++ json_provider provider) }
{
    let provider = format!(in *text.allocator(); ", \"AS{provider}\"")?;
    text.extend_from_slice(provider.as_bytes())
}

/// Providers as strings, each after a comma.
fn provider_texts(alloc: Global, providers: &[u32]) -> Result<Vec<u8>, AllocError>
    ensures { IfOk result (λ text. text.items ≡ flat_map json_provider providers.now) }
{
    let mut text = Vec::new(alloc);
    'providers: for provider in providers {
        push_provider(&mut text, *provider)?;
    }
    Ok(text)
}

/// What is after the first two octets.
pub(crate) fn after_separator(text: &[u8]) -> &[u8]
    ensures { result.now ≡ drop 2 text.now }
{
    match text {
        [_, _, rest @ ..] => rest,
        _ => &[],
    }
}

/// The beginning of an object, after a comma, as far as the first provider.
#[tactic(auto, unfolding(crate::specs::Json::json_customer))]
fn customer_text(alloc: Global, customer: u32) -> Result<String, AllocError>
    ensures { IfOk result (λ text. string_bytes text ≡ json_customer customer) }
{
    format!(in alloc; ",\n    {{ \"customer\": \"AS{customer}\", \"providers\": [")
}

/// Adds a customer and its providers as an object, after a comma.
#[tactic(auto, unfolding(crate::specs::Json::json_vap))]
fn push_vap(text: &mut Vec<u8>, vap: &Vap) -> Result<(), AllocError>
    ensures { OnOk result (text.new.items ≡ text.old.items ++ json_vap vap.now) }
{
    let customer = customer_text(*text.allocator(), vap.customer())?;
    let providers = provider_texts(*text.allocator(), vap.providers())?;
    text.extend_from_slice(customer.as_bytes())?;
    text.extend_from_slice(after_separator(providers.as_slice()))?;
    text.extend_from_slice(b"] }")
}

/// Customers and their providers as objects, each after a comma.
pub fn vap_objects(alloc: Global, vaps: &[Vap]) -> Result<Vec<u8>, AllocError>
    ensures { IfOk result (λ text. text.items ≡ flat_map json_vap vaps.now) }
{
    let mut text = Vec::new(alloc);
    'vaps: for vap in vaps {
        push_vap(&mut text, vap)?;
    }
    Ok(text)
}
