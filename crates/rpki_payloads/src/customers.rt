//! Customers and their providers, as OpenBGPD reads them.

ghost use Rattle.std.specs.Prelude.{◌≡◌, ◌++◌, OnOk, IfOk, string_bytes};
ghost use Rattle.std.specs.List.{flat_map};
ghost use Rattle.rpki_payloads.specs.Lines.{openbgpd_provider, openbgpd_customer, openbgpd_vap, openbgpd_set};
ghost use Rattle.rpki_payloads.specs.Lines.{openbgpd_customers};

use crate::json_vaps::after_separator;
use crate::vap::Vap;
use std::alloc::{AllocError, Global};

/// Adds a provider, after a comma.
#[tactic(auto, unfolding(crate::specs::Lines::openbgpd_provider))]
fn push_provider(text: &mut Vec<u8>, provider: u32) -> Result<(), AllocError>
    ensures { OnOk result (text.new.items ≡ text.old.items ++ openbgpd_provider provider) }
{
    let provider = format!(in *text.allocator(); ", {provider}")?;
    text.extend_from_slice(provider.as_bytes())
}

/// Providers, each after a comma.
fn provider_texts(alloc: Global, providers: &[u32]) -> Result<Vec<u8>, AllocError>
    ensures { IfOk result (λ text. text.items ≡ flat_map openbgpd_provider providers.now) }
{
    let mut text = Vec::new(alloc);
    'providers: for provider in providers {
        push_provider(&mut text, *provider)?;
    }
    Ok(text)
}

/// The beginning of a line, as far as the first provider.
#[tactic(auto, unfolding(crate::specs::Lines::openbgpd_customer))]
fn customer_text(alloc: Global, customer: u32) -> Result<String, AllocError>
    ensures { IfOk result (λ text. string_bytes text ≡ openbgpd_customer customer) }
{
    format!(in alloc; "    customer-as {customer} provider-as {{ ")
}

/// Adds the line of a customer and its providers.
#[tactic(auto, unfolding(crate::specs::Lines::openbgpd_vap))]
fn push_vap(text: &mut Vec<u8>, vap: &Vap) -> Result<(), AllocError>
    ensures { OnOk result (text.new.items ≡ text.old.items ++ openbgpd_vap vap.now) }
{
    let customer = customer_text(*text.allocator(), vap.customer())?;
    let providers = provider_texts(*text.allocator(), vap.providers())?;
    text.extend_from_slice(customer.as_bytes())?;
    text.extend_from_slice(after_separator(providers.as_slice()))?;
    text.extend_from_slice(b" }\n")
}

/// Adds the lines of customers and their providers.
fn push_vaps(text: &mut Vec<u8>, vaps: &[Vap]) -> Result<(), AllocError>
    ensures { OnOk result (text.new.items ≡ text.old.items ++ flat_map openbgpd_vap vaps.now) }
{
    'vaps: for vap in vaps {
        push_vap(text, vap)?;
    }
    Ok(())
}

/// Adds customers and their providers as a set.
fn push_set(text: &mut Vec<u8>, vaps: &[Vap]) -> Result<(), AllocError>
    ensures { OnOk result (text.new.items ≡ text.old.items ++ openbgpd_set vaps.now) }
{
    text.extend_from_slice(b"aspa-set {\n")?;
    push_vaps(text, vaps)?;
    text.extend_from_slice(b"}\n")?;
    Ok(())
}

/// Adds customers and their providers as a set, where there are any.
pub fn push_openbgpd_customers(text: &mut Vec<u8>, vaps: &[Vap]) -> Result<(), AllocError>
    ensures { OnOk result (text.new.items ≡ text.old.items ++ openbgpd_customers vaps.now) }
{
    match vaps {
        [] => Ok(()),
        _ => push_set(text, vaps),
    }
}
