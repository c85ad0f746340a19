//! Route origin attestations (RFC 9582).

ghost use Rattle.rpki.specs.Checkers.{checkers_of};
ghost use Rattle.std.specs.Prelude.{IfOk, IfErr};
ghost use Rattle.rpki_checked.specs.Objects.{IsMadeObject, IsOwnOrigin, ChecksOwnOrigin, IsOwnOriginRefusal};
ghost use Rattle.rpki_checked.specs.Objects.{IsAcceptedOrigin, ChecksOrigin, IsOriginRefusal};

use crate::error::CheckError;
use crate::object::verify_alone;
use crate::read::read_roa;
use bytes::Bytes;
use rpki::crypto::Provider;
use rpki::der::Captured;
use rpki::repository::error::ValidationError;
use rpki_issue::UnsignedObject;
use rpki_rsa::PreparingProvider;
use rpki_valid::{CurrentCrl, ResourceSet, verify_own_roa};
use std::alloc::Global;

/// Whether the octets are an attestation that keeps the rules that need no issuer.
fn check_own<P: Provider>(
    alloc: Global,
    provider: &P,
    octets: &Captured,
) -> Result<(), ValidationError>
    ensures { ChecksOwnOrigin (checkers_of P.Provider provider.now) octets.now result }
{
    let roa = match read_roa(alloc, octets) {
        Ok(roa) => roa,
        Err(e) => return Err(e),
    };
    match verify_alone(roa.object(), provider) {
        Ok(()) => {}
        Err(e) => return Err(e),
    }
    match verify_own_roa(&roa, alloc) {
        Ok(()) => Ok(()),
        Err(e) => Err(e),
    }
}

/// The route origin attestation with this certificate and this signature of what is to be signed, as
/// [UnsignedObject::signed] makes it, if it keeps all rules that need no issuer: its certificate has the profile of an
/// end entity, names checked too; its key has signed the content, which is an attestation; and it lists addresses, of
/// its own, no numbers of autonomous systems, and the addresses of each prefix (RFC 6487 4, RFC 6488 3, RFC 9582 5).
///
/// The errors are `Refused` with what that step refuses; then `Invalid` with that of [Roa::decode](rpki_objects::Roa),
/// at all strictness; of [TbsCert::inspect_ee](rpki_cert::TbsCert::inspect_ee); of
/// [verify_object_signature](rpki_valid::verify_object_signature); of [verify_own_roa].
pub fn sign_roa<P: Provider>(
    alloc: Global,
    provider: &P,
    unsigned: UnsignedObject<'_>,
    certificate: &Captured,
    signature: Bytes,
) -> Result<Captured, CheckError>
    ensures made { IfOk result (λ c. IsMadeObject (checkers_of P.Provider provider.now) unsigned.entry certificate.now
        signature c) }
    ensures own { IfOk result (λ c. IsOwnOrigin (checkers_of P.Provider provider.now) c) }
    ensures err { IfErr result (IsOwnOriginRefusal (checkers_of P.Provider provider.now) unsigned.entry certificate.now
        signature) }
{
    let made = match unsigned.signed(alloc, provider, certificate, signature) {
        Ok(made) => made,
        Err(e) => return Err(CheckError::Refused(e)),
    };
    match check_own(alloc, provider, &made) {
        Ok(()) => Ok(made),
        Err(e) => Err(CheckError::Invalid(e)),
    }
}

/// Whether the octets are an attestation that is valid by the list; returns its resources.
fn check<P: PreparingProvider>(
    alloc: Global,
    issuer: &CurrentCrl<'_, '_, P>,
    octets: &Captured,
) -> Result<ResourceSet, ValidationError>
    ensures { ChecksOrigin P.Provider issuer.now octets.now result }
{
    let roa = match read_roa(alloc, octets) {
        Ok(roa) => roa,
        Err(e) => return Err(e),
    };
    match issuer.process_roa(alloc, &roa) {
        Ok(held) => Ok(held),
        Err(e) => Err(e),
    }
}

/// As [sign_roa], if the attestation is valid by the issuer's list at its moment, as [CurrentCrl::process_roa] says:
/// its certificate is issued by the list's authority, isn't on the list, and all of its path up to the trust anchor is
/// valid, and has the resources.
///
/// The errors are `Refused` with what [UnsignedObject::signed] refuses; then `Invalid` with that of
/// [Roa::decode](rpki_objects::Roa), at all strictness; of [CurrentCrl::process_roa].
pub fn issue_roa<P: PreparingProvider>(
    alloc: Global,
    issuer: &CurrentCrl<'_, '_, P>,
    unsigned: UnsignedObject<'_>,
    certificate: &Captured,
    signature: Bytes,
) -> Result<Captured, CheckError>
    ensures made { IfOk result (λ c. IsMadeObject (checkers_of P.Provider issuer.now.issuer.provider) unsigned.entry
        certificate.now signature c) }
    ensures valid { IfOk result (λ c. IsAcceptedOrigin P.Provider issuer.now c) }
    ensures err { IfErr result (IsOriginRefusal P.Provider issuer.now unsigned.entry certificate.now signature) }
{
    let made = match unsigned.signed(alloc, issuer.issuer().provider(), certificate, signature) {
        Ok(made) => made,
        Err(e) => return Err(CheckError::Refused(e)),
    };
    match check(alloc, issuer, &made) {
        Ok(_) => Ok(made),
        Err(e) => Err(CheckError::Invalid(e)),
    }
}
