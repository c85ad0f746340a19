//! Attestations of the providers of an autonomous system (draft-ietf-sidrops-aspa-profile).

ghost use Rattle.rpki.specs.Checkers.{checkers_of};
ghost use Rattle.std.specs.Prelude.{IfOk, IfErr};
ghost use Rattle.rpki_checked.specs.Objects.{IsMadeObject, IsOwnAspa, ChecksOwnAspa, IsOwnAspaRefusal};
ghost use Rattle.rpki_checked.specs.Objects.{IsAcceptedAspa, ChecksAspa, IsAspaRefusal};

use crate::error::CheckError;
use crate::object::verify_alone;
use crate::read::read_aspa;
use bytes::Bytes;
use rpki::crypto::Provider;
use rpki::der::Captured;
use rpki::repository::error::ValidationError;
use rpki_issue::UnsignedObject;
use rpki_rsa::PreparingProvider;
use rpki_valid::{CurrentCrl, ResourceSet, verify_own_aspa};
use std::alloc::Global;

/// Whether the octets are an attestation that keeps the rules that need no issuer.
fn check_own<P: Provider>(
    alloc: Global,
    provider: &P,
    octets: &Captured,
) -> Result<(), ValidationError>
    ensures { ChecksOwnAspa (checkers_of P.Provider provider.now) octets.now result }
{
    let aspa = match read_aspa(alloc, octets) {
        Ok(aspa) => aspa,
        Err(e) => return Err(e),
    };
    match verify_alone(aspa.object(), provider) {
        Ok(()) => {}
        Err(e) => return Err(e),
    }
    match verify_own_aspa(&aspa, alloc) {
        Ok(()) => Ok(()),
        Err(e) => Err(e),
    }
}

/// The attestation of providers with this certificate and this signature of what is to be signed, as
/// [UnsignedObject::signed] makes it, if it keeps all rules that need no issuer: its certificate has the profile of an
/// end entity, names checked too; its key has signed the content, which is an attestation; and it lists numbers of
/// autonomous systems, of its own, no addresses, and the number of the customer (RFC 6487 4, RFC 6488 3,
/// draft-ietf-sidrops-aspa-profile 4).
///
/// The errors are `Refused` with what that step refuses; then `Invalid` with that of
/// [Aspa::decode](rpki_objects::Aspa), with its signing time; of [TbsCert::inspect_ee](rpki_cert::TbsCert::inspect_ee);
/// of [verify_object_signature](rpki_valid::verify_object_signature); of [verify_own_aspa].
pub fn sign_aspa<P: Provider>(
    alloc: Global,
    provider: &P,
    unsigned: UnsignedObject<'_>,
    certificate: &Captured,
    signature: Bytes,
) -> Result<Captured, CheckError>
    ensures made { IfOk result (λ c. IsMadeObject (checkers_of P.Provider provider.now) unsigned.entry certificate.now
        signature c) }
    ensures own { IfOk result (λ c. IsOwnAspa (checkers_of P.Provider provider.now) c) }
    ensures err { IfErr result (IsOwnAspaRefusal (checkers_of P.Provider provider.now) unsigned.entry certificate.now
        signature) }
{
    let made = match unsigned.signed(alloc, provider, certificate, signature) {
        Ok(made) => made,
        Err(e) => return Err(CheckError::Refused(e)),
    };
    match check_own(alloc, provider, &made) {
        Ok(()) => Ok(made),
        Err(e) => Err(CheckError::Invalid(e)),
    }
}

/// Whether the octets are an attestation that is valid by the list; returns its resources.
fn check<P: PreparingProvider>(
    alloc: Global,
    issuer: &CurrentCrl<'_, '_, P>,
    octets: &Captured,
) -> Result<ResourceSet, ValidationError>
    ensures { ChecksAspa P.Provider issuer.now octets.now result }
{
    let aspa = match read_aspa(alloc, octets) {
        Ok(aspa) => aspa,
        Err(e) => return Err(e),
    };
    match issuer.process_aspa(alloc, &aspa) {
        Ok(held) => Ok(held),
        Err(e) => Err(e),
    }
}

/// As [sign_aspa], if the attestation is valid by the issuer's list at its moment, as [CurrentCrl::process_aspa] says:
/// its certificate is issued by the list's authority, isn't on the list, and all of its path up to the trust anchor is
/// valid, and has the resources.
///
/// The errors are `Refused` with what [UnsignedObject::signed] refuses; then `Invalid` with that of
/// [Aspa::decode](rpki_objects::Aspa), with its signing time; of [CurrentCrl::process_aspa].
pub fn issue_aspa<P: PreparingProvider>(
    alloc: Global,
    issuer: &CurrentCrl<'_, '_, P>,
    unsigned: UnsignedObject<'_>,
    certificate: &Captured,
    signature: Bytes,
) -> Result<Captured, CheckError>
    ensures made { IfOk result (λ c. IsMadeObject (checkers_of P.Provider issuer.now.issuer.provider) unsigned.entry
        certificate.now signature c) }
    ensures valid { IfOk result (λ c. IsAcceptedAspa P.Provider issuer.now c) }
    ensures err { IfErr result (IsAspaRefusal P.Provider issuer.now unsigned.entry certificate.now signature) }
{
    let made = match unsigned.signed(alloc, issuer.issuer().provider(), certificate, signature) {
        Ok(made) => made,
        Err(e) => return Err(CheckError::Refused(e)),
    };
    match check(alloc, issuer, &made) {
        Ok(_) => Ok(made),
        Err(e) => Err(CheckError::Invalid(e)),
    }
}
