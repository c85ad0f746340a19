//! What holds of a signed object by itself: its signature, and its content within the resources of its signer.

ghost use Rattle.std.specs.Prelude.{◌≡◌, option_map};
ghost use Rattle.std.specs.Option.{option_copied};
ghost use Rattle.rpki_cert.specs.Known.{is_memory};
ghost use Rattle.rpkicert.specs.Requirements.{signed_of, IsSignedRight, IsSignedWrong, KeepsResources, BreaksResources};
ghost use Rattle.rpkicert.specs.Requirements.{HoldsAlone, BreaksAlone};
ghost use Rattle.rpkicert.specs.RequirementsView.{ChecksOne, HoldsOne, Judges, judged_by};
ghost use Rattle.rpkicert.specs.declared.fault.Clause.TheVariants as C;

use crate::fault::{Clause, Fault};
use crate::requirements::by;
use crate::signed::PROVIDER;
use rpki::der::DecodeError;
use rpki::repository::error::ValidationError;
use rpki_fields::Object;
use rpki_objects::SignedObject;
use rpki_valid::{verify_object_signature, verify_own_aspa, verify_own_manifest, verify_own_roa};
use std::alloc::Global;

/// The signed object that the object is, whatever its content.
pub fn signed(object: &Object) -> Option<&SignedObject>
    ensures { option_map (λ o. o.now) result ≡ signed_of object.now }
{
    match object {
        Object::Manifest(manifest) => Some(manifest.object()),
        Object::Roa(origins) => Some(origins.object()),
        Object::Aspa(attestation) => Some(attestation.object()),
        Object::Checklist(object) => Some(object),
        Object::TrustAnchorKey(object) => Some(object),
        Object::Ghostbusters(object) => Some(object),
        Object::SignedObject(object) => Some(object),
        _ => None,
    }
}

/// Whether the signer has signed the object, where it is there.
fn check_signed(object: Option<&SignedObject>) -> Result<(), ValidationError>
    ensures { ChecksOne IsSignedRight IsSignedWrong (option_copied object.entry) result }
{
    match object {
        Some(object) => verify_object_signature(object, &PROVIDER),
        None => Ok(()),
    }
}

/// The clause that the signer has signed the object.
fn hold_signed(object: &Object) -> Result<(), Fault>
    ensures { HoldsOne C.Object IsSignedRight IsSignedWrong (signed_of object.now) result }
{
    by(Clause::Object, check_signed(signed(object)))
}

/// Whether the error is that of an allocation.
fn is_memory(e: ValidationError) -> bool
    ensures { result ≡ is_memory e }
{
    match e {
        ValidationError::Decoding(DecodeError::OutOfMemory) => true,
        _ => false,
    }
}

/// The fault of a check that this clause asks for, for which allocation may have failed.
fn judged_by(clause: Clause, checked: Result<(), ValidationError>) -> Result<(), Fault>
    ensures { result ≡ judged_by clause checked }
{
    match checked {
        Ok(()) => Ok(()),
        Err(e) => {
            if is_memory(e) {
                return Err(Fault::OutOfMemory);
            }
            Err(Fault::Unverified(clause, e))
        }
    }
}

/// The clause that the content is within the resources of the signer's certificate, by itself.
fn hold_resources(alloc: Global, object: &Object) -> Result<(), Fault>
    ensures { Judges (KeepsResources object.now) (BreaksResources object.now) result }
{
    match object {
        Object::Manifest(manifest) => by(Clause::Inherited, verify_own_manifest(manifest)),
        Object::Roa(origins) => judged_by(Clause::Origins, verify_own_roa(origins, alloc)),
        Object::Aspa(attestation) => judged_by(
            Clause::Customer,
            verify_own_aspa(attestation, alloc),
        ),
        _ => Ok(()),
    }
}

/// Whether the object holds by itself: its signer has signed it, and its content is within the resources of the
/// signer's certificate.
///
/// The error is `Unverified` with the first clause that is broken; `OutOfMemory` if allocation fails.
pub fn hold_alone(alloc: Global, object: &Object) -> Result<(), Fault>
    ensures { Judges (HoldsAlone object.now) (BreaksAlone object.now) result }
{
    hold_signed(object)?;
    hold_resources(alloc, object)
}
