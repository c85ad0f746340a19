//! The profiles of certificates (RFC 6487 4, RFC 9323 2, RFC 8209 3.1).

ghost use Rattle.std.specs.Prelude.{◌≡◌, Some, None, MatchResult};
ghost use Rattle.std.specs.Option.{option_copied};
ghost use Rattle.rpki_fields.specs.Object.{cert_of};
ghost use Rattle.rpkicert.specs.Requirements.{signed_of};
ghost use Rattle.rpkicert.specs.Profiled.{asked_inspection, choice_for, end_profile, names_profile, own_inspection};
ghost use Rattle.rpkicert.specs.Profiled.{Inspects, InspectsAs, InspectsBoth, IsProfiled, IsUnprofiled};
ghost use Rattle.rpkicert.specs.declared.choice.Choice.TheVariants.{Auto};

use crate::alone::signed;
use crate::choice::{Choice, chosen};
use crate::fault::Fault;
use crate::violation::Violation;
use rpki_cert::{Profile, TbsCert};
use rpki_fields::Object;
use rpki_objects::SignedObject;

/// The type of a signed checklist: `id-ct-signedChecklist` (RFC 9323 3).
const CHECKLIST: &[u8] = &[42, 134, 72, 134, 247, 13, 1, 9, 16, 1, 48];

/// How a certificate is checked against a profile.
#[derive(Clone, Copy, Debug)]
pub struct Inspection {
    /// Which profile.
    pub choice: Choice,
    /// Whether the names are checked against theirs.
    pub strict: bool,
}

/// The profile of the certificate of a signed object: that of an end entity (RFC 6488 3), without subject information
/// access where it signs a checklist (RFC 9323 2).
fn end_profile(object: &SignedObject) -> Profile
    ensures { result ≡ end_profile object.now }
{
    if object.content_type().0.as_slice() == CHECKLIST {
        return Profile::DetachedEe;
    }
    Profile::Ee
}

/// How the certificate of the object's signer is checked against its profile, where it is a signed object: as the
/// certificate is checked against the one that is asked for, or strictly.
pub fn own_inspection(asked: Option<Inspection>, object: &Object) -> Option<Inspection>
    ensures { result ≡ own_inspection asked object.now }
{
    match signed(object) {
        Some(object) => {
            let choice = Choice::Named(end_profile(object));
            let strict = match asked {
                Some(inspection) => inspection.strict,
                None => true,
            };
            Some(Inspection { choice, strict })
        }
        None => None,
    }
}

/// The profile of what the object's certificate says that it is, where it has one.
fn own_choice(cert: Option<&TbsCert>) -> Option<Choice>
    ensures { result ≡ choice_for Auto None (option_copied cert.entry) }
{
    match cert {
        Some(_) => Some(Choice::Auto),
        None => None,
    }
}

/// Which profile the object's certificate is to have, where this is asked for: that of a signer keeps the one of an end
/// entity in place of its own; what has no certificate has none, where none is named.
fn choice_for(choice: Choice, object: &Object) -> Option<Choice>
    ensures { result ≡ choice_for choice (signed_of object.now) (cert_of object.now) }
{
    match choice {
        Choice::Named(profile) => Some(Choice::Named(profile)),
        Choice::Auto => match signed(object) {
            Some(object) => Some(Choice::Named(end_profile(object))),
            None => own_choice(object.cert()),
        },
    }
}

/// How the object's certificate is checked against the profile that is asked for, if one is.
pub fn asked_inspection(asked: Option<Inspection>, object: &Object) -> Option<Inspection>
    ensures { result ≡ asked_inspection asked object.now }
{
    match asked {
        Some(inspection) => match choice_for(inspection.choice, object) {
            Some(choice) => {
                let strict = inspection.strict;
                Some(Inspection { choice, strict })
            }
            None => None,
        },
        None => None,
    }
}

/// Whether a profile was named, which only a certificate can have.
pub fn names_profile(asked: Option<Inspection>) -> bool
    ensures { result ≡ names_profile asked }
{
    match asked {
        Some(inspection) => inspection.choice.is_named(),
        None => false,
    }
}

/// Whether the certificate has this profile; the violation is of the rule that is broken first.
fn inspect_as(profile: Profile, strict: bool, tbs: &TbsCert) -> Result<(), Fault>
    ensures { InspectsAs profile strict tbs.now result }
{
    match tbs.test(profile, strict) {
        Ok(()) => Ok(()),
        Err(rule) => match tbs.inspect(profile, strict) {
            Ok(()) => Ok(()),
            Err(error) => Err(Fault::Violated(Violation { rule, error })),
        },
    }
}

/// Whether the certificate has the profile that is chosen for it.
fn inspect_by(inspection: Inspection, tbs: &TbsCert) -> Result<(), Fault>
    ensures { Inspects (Some inspection) (Some tbs.now) result }
{
    let profile = chosen(inspection.choice, tbs);
    inspect_as(profile, inspection.strict, tbs)
}

/// Whether there is a certificate that has the profile, where one is asked for.
///
/// Returns `NoCertificate` if there is none; `Violated` with the rule of the profile that is broken first.
fn inspect(inspection: Option<Inspection>, cert: Option<&TbsCert>) -> Result<(), Fault>
    ensures { Inspects inspection (option_copied cert.entry) result }
{
    match inspection {
        None => Ok(()),
        Some(inspection) => match cert {
            None => Err(Fault::NoCertificate),
            Some(tbs) => inspect_by(inspection, tbs),
        },
    }
}

/// Whether there is a certificate that has both profiles, where they are asked for.
///
/// The errors are those of [inspect], of the first profile first.
fn inspect_both(
    first: Option<Inspection>,
    own: Option<Inspection>,
    cert: Option<&TbsCert>,
) -> Result<(), Fault>
    ensures { InspectsBoth first own (option_copied cert.entry) result }
{
    inspect(first, cert)?;
    inspect(own, cert)
}

/// Whether the object's certificate has the profile that is asked for, if one is; and, where it is that of a signer,
/// that of an end entity.
///
/// Returns `NoCertificate` for a revocation list that is to have a profile by name; `Violated` with the rule that is
/// broken first.
pub fn profiled(asked: Option<Inspection>, object: &Object) -> Result<(), Fault>
    ensures { MatchResult result (λ _. IsProfiled asked object.now) (IsUnprofiled asked object.now) }
{
    let first = asked_inspection(asked, object);
    let own = own_inspection(asked, object);
    inspect_both(first, own, object.cert())
}
