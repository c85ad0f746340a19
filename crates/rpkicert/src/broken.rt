//! All of the rules of a profile that a certificate breaks.

ghost use Rattle.std.specs.Prelude.{◌≡◌, IfOk, OnOk, Some, filter, not};
ghost use Rattle.std.specs.Option.{option_copied};
ghost use Rattle.std.specs.List.{list_any};
ghost use Rattle.rpkicert.specs.Broken.{AddsBroken, AreBroken, AreBrokenBy, AreViolations};
ghost use Rattle.rpkicert.specs.Broken.{is_on_policy, is_on_version, telling};

use crate::choice::chosen;
use crate::profile::{Inspection, asked_inspection, own_inspection};
use crate::violation::Violation;
use rpki_cert::{CertRule, TbsCert};
use rpki_fields::Object;
use std::alloc::{AllocError, Global};

/// Adds the rule and its error, where the certificate breaks it.
fn add_broken(
    all: &mut Vec<Violation>,
    strict: bool,
    tbs: &TbsCert,
    rule: CertRule,
) -> Result<(), AllocError>
    ensures { OnOk result (AddsBroken strict tbs.now rule all.old.items all.new.items) }
{
    match tbs.inspect_rule(strict, rule) {
        Ok(()) => Ok(()),
        Err(error) => {
            all.push(Violation { rule, error })?;
            Ok(())
        }
    }
}

/// The rules that the certificate breaks of these, in their order, each with its error.
fn broken(
    alloc: Global,
    strict: bool,
    tbs: &TbsCert,
    rules: &[CertRule],
) -> Result<Vec<Violation>, AllocError>
    ensures { IfOk result (λ vs. AreBroken strict tbs.now rules.now vs.items) }
{
    let mut all = Vec::new(alloc);
    'rules: for rule in rules {
        add_broken(&mut all, strict, tbs, *rule)?;
    }
    Ok(all)
}

/// The same of the rules of the profile that is chosen for the certificate.
fn broken_of(
    alloc: Global,
    inspection: Inspection,
    tbs: &TbsCert,
) -> Result<Vec<Violation>, AllocError>
    ensures { IfOk result (λ vs. AreBrokenBy (Some inspection) (Some tbs.now) vs.items) }
{
    let profile = chosen(inspection.choice, tbs);
    broken(alloc, inspection.strict, tbs, profile.rules())
}

/// The same, where one is asked for, and there is a certificate.
fn broken_by(
    alloc: Global,
    inspection: Option<Inspection>,
    cert: Option<&TbsCert>,
) -> Result<Vec<Violation>, AllocError>
    ensures { IfOk result (λ vs. AreBrokenBy inspection (option_copied cert.entry) vs.items) }
{
    match inspection {
        None => Ok(Vec::new(alloc)),
        Some(inspection) => match cert {
            None => Ok(Vec::new(alloc)),
            Some(tbs) => broken_of(alloc, inspection, tbs),
        },
    }
}

/// The rules that the object's certificate breaks of the profile that is asked for; where it breaks none of that, those
/// of the profile of a signer.
///
/// Returns `AllocError` if allocation fails.
pub fn violations(
    alloc: Global,
    asked: Option<Inspection>,
    object: &Object,
) -> Result<Vec<Violation>, AllocError>
    ensures { IfOk result (λ vs. AreViolations asked object.now vs.items) }
{
    let all = broken_by(alloc, asked_inspection(asked, object), object.cert())?;
    if all.is_empty() {
        return broken_by(alloc, own_inspection(asked, object), object.cert());
    }
    Ok(all)
}

/// Whether the rule is on the policy, which has to be there.
fn is_on_policy(rule: CertRule) -> bool
    ensures { result ≡ is_on_policy rule }
{
    match rule {
        CertRule::CertificatePolicies => true,
        _ => false,
    }
}

/// Whether the rule is on the version of policy and resources.
fn is_on_version(rule: CertRule) -> bool
    ensures { result ≡ is_on_version rule }
{
    match rule {
        CertRule::ResourceVersion => true,
        _ => false,
    }
}

/// Whether one of these is on the policy.
fn one_on_policy(all: &[Violation]) -> bool
    ensures { result ≡ list_any (λ v. is_on_policy v.rule) all.now }
{
    all.iter().any(|violation| is_on_policy(violation.rule))
}

/// Those that aren't on the version of policy and resources.
fn without_version(alloc: Global, all: &[Violation]) -> Result<Vec<Violation>, AllocError>
    ensures { IfOk result (λ vs. vs.items ≡ filter (λ v. not (is_on_version v.rule)) all.now) }
{
    all.iter()
        .copied()
        .filter(|violation| !is_on_version(violation.rule))
        .collect(alloc)
}

/// All of these but what only follows: a certificate without the policy has no version.
///
/// Returns `AllocError` if allocation fails.
pub fn telling(alloc: Global, all: Vec<Violation>) -> Result<Vec<Violation>, AllocError>
    ensures { IfOk result (λ vs. vs.items ≡ telling all.items) }
{
    if one_on_policy(all.as_slice()) {
        return without_version(alloc, all.as_slice());
    }
    Ok(all)
}
