//! What is shown of extensions: key identifiers, and what the key is for.

ghost use Rattle.std.specs.Prelude.{◌≡◌, IfOk, Some};
ghost use Rattle.std.specs.Option.{option_map};
ghost use Rattle.rpki_fields.specs.Field.{other_text};
ghost use Rattle.rpki_fields.specs.CertText.{usage_text, purposes_text, policy_text, IsSubjectText, IsAuthorityText};
ghost use Rattle.rpki_fields.specs.CertText.{IsConstraintsText, IsUsageText, IsPurposesText, IsPolicyText};
ghost use Rattle.rpki_fields.specs.CertText.{AreIdentifiers, has_text, cert_type, AreUses};

use crate::field::{Field, other_text, push_field, push_field_if};
use crate::memory::is_memory;
use crate::value::colon_digits;
use rpki_cert::{KeyUsage, Overclaim, TbsCert};
use std::alloc::{AllocError, Global};

/// What is shown of an extension that is not as this section of the profile has it: of another value, or not as
/// critical.
pub fn not_of_profile(alloc: Global, section: &[u8]) -> Result<Option<Vec<u8>>, AllocError>
    ensures { IfOk result (λ o. option_map (λ v. v.items) o ≡ Some (other_text section.now)) }
{
    let text = other_text(alloc, section)?;
    Ok(Some(text))
}

/// What is shown of the subject key identifier.
pub fn subject_identifier(alloc: Global, tbs: &TbsCert) -> Result<Option<Vec<u8>>, AllocError>
    ensures { IfOk result (λ o. IsSubjectText tbs.now.extensions (option_map (λ v. v.items) o)) }
{
    match tbs.subject_key_identifier() {
        Ok(Some(identifier)) => {
            let text = colon_digits(alloc, identifier.as_slice())?;
            Ok(Some(text))
        }
        Ok(None) => Ok(None),
        Err(_) => not_of_profile(alloc, b"RFC 6487 4.8.2"),
    }
}

/// What is shown of the authority key identifier.
pub fn authority_identifier(alloc: Global, tbs: &TbsCert) -> Result<Option<Vec<u8>>, AllocError>
    ensures { IfOk result (λ o. IsAuthorityText tbs.now.extensions (option_map (λ v. v.items) o)) }
{
    match tbs.authority_key_identifier() {
        Ok(Some(identifier)) => {
            let text = colon_digits(alloc, identifier.as_slice())?;
            Ok(Some(text))
        }
        Ok(None) => Ok(None),
        Err(_) => not_of_profile(alloc, b"RFC 6487 4.8.3"),
    }
}

/// The identifiers of the keys of the subject and of the issuer.
pub fn identifiers(alloc: Global, tbs: &TbsCert) -> Result<Vec<Field>, AllocError>
    ensures { IfOk result (λ fields. AreIdentifiers tbs.now.extensions fields.items) }
{
    let subject = subject_identifier(alloc, tbs)?;
    let authority = authority_identifier(alloc, tbs)?;
    let mut fields = Vec::new(alloc);
    push_field_if(&mut fields, b"SKI", subject)?;
    push_field_if(&mut fields, b"AKI", authority)?;
    Ok(fields)
}

/// What is shown of the basic constraints.
fn constraints(alloc: Global, tbs: &TbsCert) -> Result<Option<Vec<u8>>, AllocError>
    ensures { IfOk result (λ o. IsConstraintsText tbs.now.extensions (option_map (λ v. v.items) o)) }
{
    match tbs.basic_ca() {
        Ok(true) => {
            let text = Vec::from_slice(alloc, b"CA:TRUE")?;
            Ok(Some(text))
        }
        Ok(false) => Ok(None),
        Err(_) => not_of_profile(alloc, b"RFC 6487 4.8.1"),
    }
}

/// The name of a use.
fn usage_text(usage: KeyUsage) -> &'static [u8]
    ensures { result.now ≡ usage_text usage }
{
    match usage {
        KeyUsage::Ca => b"Certificate Sign, CRL Sign",
        KeyUsage::Ee => b"Digital Signature",
    }
}

/// What is shown of the key usage.
fn usage(alloc: Global, tbs: &TbsCert) -> Result<Option<Vec<u8>>, AllocError>
    ensures { IfOk result (λ o. IsUsageText tbs.now.extensions (option_map (λ v. v.items) o)) }
{
    match tbs.key_usage() {
        Ok(Some(usage)) => {
            let text = Vec::from_slice(alloc, usage_text(usage))?;
            Ok(Some(text))
        }
        Ok(None) => Ok(None),
        Err(_) => not_of_profile(alloc, b"RFC 6487 4.8.4"),
    }
}

/// Whether a router's purpose is there, in words.
fn purposes_text(router: bool) -> &'static [u8]
    ensures { result.now ≡ purposes_text router }
{
    if router { b"BGPsec Router" } else { b"other" }
}

/// What is shown of the extended key usage.
fn purposes(alloc: Global, tbs: &TbsCert) -> Result<Option<Vec<u8>>, AllocError>
    ensures { IfOk result (λ o. IsPurposesText tbs.now.extensions (option_map (λ v. v.items) o)) }
{
    match tbs.extended_key_usage() {
        Ok(Some(router)) => {
            let text = Vec::from_slice(alloc, purposes_text(router))?;
            Ok(Some(text))
        }
        Ok(None) => Ok(None),
        Err(e) => {
            if is_memory(e) {
                return Err(AllocError);
            }
            not_of_profile(alloc, b"RFC 6487 4.8.5")
        }
    }
}

/// The name of a policy.
fn policy_text(policy: Overclaim) -> &'static [u8]
    ensures { result.now ≡ policy_text policy }
{
    match policy {
        Overclaim::Refuse => b"ipAddr-asNumber",
        Overclaim::Trim => b"ipAddr-asNumber-v2",
    }
}

/// What is shown of the certificate policies.
fn policies(alloc: Global, tbs: &TbsCert) -> Result<Option<Vec<u8>>, AllocError>
    ensures { IfOk result (λ o. IsPolicyText tbs.now.extensions (option_map (λ v. v.items) o)) }
{
    match tbs.overclaim() {
        Ok(Some(policy)) => {
            let text = Vec::from_slice(alloc, policy_text(policy))?;
            Ok(Some(text))
        }
        Ok(None) => Ok(None),
        Err(_) => not_of_profile(alloc, b"RFC 6487 4.8.9"),
    }
}

/// Whether the text is there, and is this one.
fn has_text(found: &Option<Vec<u8>>, text: &[u8]) -> bool
    ensures { result ≡ has_text (option_map (λ v. v.items) found.now) text.now }
{
    match found {
        Some(found) => found.as_slice() == text,
        None => text.is_empty(),
    }
}

/// The type of a certificate, by what is shown of its basic constraints and of its extended key usage.
fn cert_type(constraints: &Option<Vec<u8>>, purposes: &Option<Vec<u8>>) -> &'static [u8]
    ensures { result.now
        ≡ cert_type (option_map (λ v. v.items) constraints.now) (option_map (λ v. v.items) purposes.now) }
{
    if has_text(constraints, b"CA:TRUE") {
        b"ca_cert"
    } else if has_text(purposes, b"BGPsec Router") {
        b"router_key"
    } else {
        b"ee_cert"
    }
}

/// The type, and what the key is for.
pub fn uses(alloc: Global, tbs: &TbsCert) -> Result<Vec<Field>, AllocError>
    ensures { IfOk result (λ fields. AreUses tbs.now.extensions fields.items) }
{
    let constraints = constraints(alloc, tbs)?;
    let usage = usage(alloc, tbs)?;
    let purposes = purposes(alloc, tbs)?;
    let policies = policies(alloc, tbs)?;
    let mut fields = Vec::new(alloc);
    push_field(&mut fields, b"Type", cert_type(&constraints, &purposes))?;
    push_field_if(&mut fields, b"Basic Constraints", constraints)?;
    push_field_if(&mut fields, b"Key Usage", usage)?;
    push_field_if(&mut fields, b"Extended Key Usage", purposes)?;
    push_field_if(&mut fields, b"Certificate Policies", policies)?;
    Ok(fields)
}
