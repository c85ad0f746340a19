//! What is found of a file.

ghost use Rattle.std.specs.Prelude.{IfSome, MatchResult, Err, ◌≡◌, ◌⊎◌};
ghost use Rattle.rpkicert.specs.Outcome.{IsObject, IsRefusal, IsHeld, IsWrong, HoldsTo, FindsIn, Finds, is_outside};
ghost use Rattle.rpkicert.specs.Outcome.{is_other, form_fault, malformed, FindsFormed};
ghost use Rattle.rpkicert.specs.OutcomeView.{finding_of, wrong_finding};
ghost use Rattle.rpkicert.specs.Requirements.{no_terms, list_terms};
ghost use Rattle.rpkicert.specs.RequirementsView.{terms_of};
ghost use Rattle.rpkicert.specs.declared.fault.Fault.TheVariants.{OutOfMemory};

use crate::fault::{Fault, refusal};
use crate::pem::{TextKind, has_begin, is_pem, octets_of};
use crate::profile::profiled;
use crate::requirements::{Requirements, verify};
use crate::sources::Sources;
use bytes::Bytes;
use rpki::repository::x509::Time;
use rpki_cert::TbsCert;
use rpki_fields::{Object, ObjectType, Part};
use std::alloc::Global;

/// An object, its octets, and what is wrong with it.
#[derive(Drop)]
pub struct Outcome {
    /// The octets.
    pub octets: Vec<u8>,
    /// The object, in memory of its own: it is large.
    pub object: Box<Object>,
    /// Why it doesn't hold, where it doesn't.
    pub fault: Option<Fault>,
}

/// The object that the octets are.
fn decoded(alloc: Global, octets: &[u8]) -> Result<Object, Fault>
    ensures { MatchResult result (IsObject octets.now) (IsRefusal octets.now) }
{
    let kind = ObjectType::of(octets);
    let copy = Vec::from_slice(alloc, octets)?;
    let bytes = Bytes::from_vec(copy)?;
    match Object::decode(alloc, kind, bytes) {
        Ok(object) => Ok(object),
        Err(e) => Err(refusal(kind, Part::of(kind, octets), e)),
    }
}

/// The value in memory of its own.
fn boxed<T: Drop>(alloc: Global, x: T) -> Result<Box<T>, Fault>
    ensures { MatchResult result (λ b. b.value ≡ x) (λ f. f ≡ OutOfMemory) }
{
    match Box::new(alloc, x) {
        Ok(b) => Ok(b),
        Err(e) => Err(Fault::from(e)),
    }
}

/// The object that the octets are, in memory of its own.
fn kept(alloc: Global, octets: &[u8]) -> Result<Box<Object>, Fault>
    ensures { MatchResult result (λ b. IsObject octets.now b.value) (IsRefusal octets.now) }
{
    match decoded(alloc, octets) {
        Ok(object) => boxed(alloc, object),
        Err(fault) => Err(fault),
    }
}

/// Whether the object is checked against something, and is a certificate of an algorithm that the RPKI doesn't use.
fn is_outside(terms: &Requirements<'_>, object: &Object) -> bool
    ensures { result ≡ is_outside (terms_of terms.now) object.now }
{
    let held = terms.inspection.is_some() || terms.issuer.is_some() || terms.moment.is_some();
    held && object.has_objection()
}

/// Whether the object holds.
///
/// The error is `OtherAlgorithm` where it is checked against something, and is a certificate of an algorithm that the
/// RPKI doesn't use; `Violated` and `NoCertificate` as [profiled]; `Unverified` as [verify]; `OutOfMemory` if
/// allocation fails.
fn judge(alloc: Global, terms: &Requirements<'_>, object: &Object) -> Result<(), Fault>
    ensures { MatchResult result (λ _. IsHeld (terms_of terms.now) object.now)
        (λ f. (f ≡ OutOfMemory) ⊎ IsWrong (terms_of terms.now) object.now f) }
{
    if is_outside(terms, object) {
        return Err(Fault::OtherAlgorithm);
    }
    match profiled(terms.inspection, object) {
        Ok(()) => verify(alloc, terms, object),
        Err(fault) => Err(fault),
    }
}

/// The object of these octets, which doesn't hold for this fault; allocation failed where that is the fault.
fn wrong(octets: Vec<u8>, object: Box<Object>, fault: Fault) -> Result<Outcome, Fault>
    ensures { finding_of result ≡ wrong_finding octets.items object.value fault }
{
    match fault {
        Fault::OutOfMemory => Err(Fault::OutOfMemory),
        fault => Ok(Outcome {
            octets,
            object,
            fault: Some(fault),
        }),
    }
}

/// The object of these octets, and why it doesn't hold, where it doesn't.
fn held(alloc: Global, terms: &Requirements<'_>, octets: Vec<u8>) -> Result<Outcome, Fault>
    ensures { HoldsTo (terms_of terms.now) octets.items (finding_of result) }
{
    let object = kept(alloc, octets.as_slice())?;
    match judge(alloc, terms, object.as_ref()) {
        Ok(()) => Ok(Outcome {
            octets,
            object,
            fault: None,
        }),
        Err(fault) => wrong(octets, object, fault),
    }
}

/// Whether an input has octets, and neither begins as an object in DER, with a SEQUENCE, nor is a text of RFC 7468.
pub fn is_other(input: &[u8]) -> bool
    ensures { result ≡ is_other input.now }
{
    !(input.is_empty() || input.starts_with(b"0") || is_pem(input))
}

/// What is wrong with an input by its form alone. None if nothing is.
fn form_fault(input: &[u8]) -> Option<Fault>
    ensures { result ≡ form_fault input.now }
{
    if input.is_empty() {
        return Some(Fault::Empty);
    }
    if is_other(input) {
        return Some(Fault::Neither);
    }
    None
}

/// Why a text stands for no octets.
fn malformed(input: &[u8]) -> Fault
    ensures { result ≡ malformed input.now }
{
    if has_begin(input) {
        return Fault::Malformed;
    }
    Fault::OtherText(TextKind::of(input))
}

/// The object that an input in one of these forms stands for, and why it doesn't hold, where it doesn't.
fn found_formed(alloc: Global, terms: &Requirements<'_>, input: Vec<u8>) -> Result<Outcome, Fault>
    ensures { FindsFormed (terms_of terms.now) input.items (finding_of result) }
{
    let fault = malformed(input.as_slice());
    match octets_of(alloc, input)? {
        Some(octets) => held(alloc, terms, octets),
        None => Err(fault),
    }
}

/// The object that an input stands for, and why it doesn't hold, where it doesn't. The profile is that of the
/// certificate: of a signed object that of its signer; a revocation list has none.
///
/// Returns `Empty` and `Neither` for what has no octets, or begins neither as DER nor is PEM; `Malformed` for a text
/// that isn't one certificate; `OtherText` for one of another kind; `Refused` for octets that are no object of the kind
/// that they tell; `OutOfMemory` if allocation fails.
pub fn found_in(alloc: Global, terms: &Requirements<'_>, input: Vec<u8>) -> Result<Outcome, Fault>
    ensures { FindsIn (terms_of terms.now) input.items (finding_of result) }
{
    match form_fault(input.as_slice()) {
        Some(fault) => Err(fault),
        None => found_formed(alloc, terms, input),
    }
}

/// The object in the file of this name, which is checked against no profile, issuer or moment, so that it can be an
/// issuer.
///
/// Returns `Unreadable` and `TooLarge` as [Sources::read]; else the errors of [found_in].
pub fn find_issuer<S: Sources>(alloc: Global, sources: &S, name: &str) -> Result<Outcome, Fault>
    ensures { IfSome (S.holds sources.now name.now) (λ source. Finds no_terms source (finding_of result)) }
{
    let input = sources.read(alloc, name)?;
    let terms = Requirements {
        inspection: None,
        issuer: None,
        revocations: None,
        moment: None,
    };
    found_in(alloc, &terms, input)
}

/// What was found, with the serial numbers in order where it is a revocation list, so that each is looked for in few
/// steps.
///
/// Returns `OutOfMemory` if allocation fails.
fn in_order(alloc: Global, finding: Result<Outcome, Fault>) -> Result<Outcome, Fault>
    ensures { (finding_of result ≡ finding_of finding) ⊎ (finding_of result ≡ Err OutOfMemory) }
{
    let mut found = finding?;
    if let Object::Crl(list) = found.object.as_mut() {
        list.cache_serials(alloc)?;
    }
    Ok(found)
}

/// The object in the file of this name, which is checked against this issuer and this moment, so that it can be the
/// issuer's revocation list.
///
/// The errors are those of [find_issuer].
pub fn find_list<S: Sources>(
    alloc: Global,
    sources: &S,
    name: &str,
    issuer: &TbsCert,
    moment: Option<Time>,
) -> Result<Outcome, Fault>
    ensures { IfSome (S.holds sources.now name.now)
        (λ source. Finds (list_terms issuer.now moment) source (finding_of result)) }
{
    let input = sources.read(alloc, name)?;
    let terms = Requirements {
        inspection: None,
        issuer: Some(issuer),
        revocations: None,
        moment,
    };
    in_order(alloc, found_in(alloc, &terms, input))
}
