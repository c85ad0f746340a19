//! What an authority has issued: route origins, providers, routers and authorities.

ghost use Rattle.std.specs.Prelude.{◌≡◌, ◌+◌, Bool, IfOk, IfErr};
ghost use Rattle.std.specs.Bool.{MatchBool};
ghost use Rattle.rpki_cert.specs.declared.profile.Profile.TheVariants.{Ca, Router};
ghost use Rattle.rpki_cert.specs.Cert.{SpellsCert};
ghost use Rattle.rpki_cert.specs.CertFault.{IsDecodedPart};
ghost use Rattle.rpki_cert.specs.Profile.{HasProfile};
ghost use Rattle.rpki_time.specs.Validity.{HoldsAt};
ghost use Rattle.rpki_valid.specs.CrlIssued.{CountsAt};
ghost use Rattle.rpki_validation.specs.Finding.{Finds, IsCertReason, IsRejected};
ghost use Rattle.rpki_validation.specs.Holding.{IsPeriodUnder};
ghost use Rattle.rpki_validation.specs.Issued.{HasWrongConstraints};
ghost use Rattle.rpki_validation.specs.Steps.{FindsOrigins, FindsProviders, FindsRouter};
ghost use Rattle.rpki_validation.specs.Steps.{IsAuthorityHere, IsNoAuthorityHere};

use crate::router::RouterCert;
use crate::stop::Stop;
use bytes::Bytes;
use rpki_cert::Cert;
use rpki_objects::{Aspa, Roa};
use rpki_rsa::PreparingProvider;
use rpki_valid::{CurrentCrl, ResourceCert};
use std::alloc::Global;

/// The route origin attestation that the octets are, if it is valid (RFC 9582).
///
/// The errors are `Malformed` of those of [Roa::decode](rpki_objects::Roa::decode); `Invalid` of those of
/// [CurrentCrl::process_roa](rpki_valid::CurrentCrl::process_roa); or `OutOfMemory` if allocation fails.
pub fn origins_in<'a, 'p, P: PreparingProvider>(
    alloc: Global,
    list: &CurrentCrl<'a, 'p, P>,
    octets: Bytes,
) -> Result<Roa, Stop>
    ensures { FindsOrigins P.Provider list.now octets result }
{
    let roa = Roa::decode(alloc, octets, list.issuer().strictness())?;
    list.process_roa(alloc, &roa)?;
    Ok(roa)
}

/// The attestation of providers that the octets are, if it is valid (draft-ietf-sidrops-aspa-profile).
///
/// The errors are `Malformed` of those of [Aspa::decode](rpki_objects::Aspa::decode); `Invalid` of those of
/// [CurrentCrl::process_aspa](rpki_valid::CurrentCrl::process_aspa); or `OutOfMemory` if allocation fails.
pub fn providers_in<'a, 'p, P: PreparingProvider>(
    alloc: Global,
    list: &CurrentCrl<'a, 'p, P>,
    octets: Bytes,
) -> Result<Aspa, Stop>
    ensures { FindsProviders P.Provider list.now octets result }
{
    let aspa = Aspa::decode(alloc, octets, list.issuer().strictness().attributes)?;
    list.process_aspa(alloc, &aspa)?;
    Ok(aspa)
}

/// The certificate that the octets are. Nothing of it is verified.
///
/// The errors are `MalformedCert` of those of [Cert::decode](rpki_cert::Cert::decode); or `OutOfMemory` if allocation
/// fails.
pub fn cert_in(alloc: Global, octets: Bytes) -> Result<Cert, Stop>
    ensures { Finds (λ x. x) (λ x. SpellsCert x octets) (IsCertReason (IsDecodedPart octets) (λ _. ⊥)) result }
{
    let cert = Cert::decode(alloc, octets)?;
    Ok(cert)
}

/// Whether the certificate, if it is valid, is that of an authority: then it has basic constraints; that of a router
/// has none (RFC 6487 4.8.1, RFC 8209 3.1.3.1). Allocates nothing.
///
/// The errors are `Invalid` of those of [TbsCert::basic_ca](rpki_cert::TbsCert::basic_ca).
pub fn is_authority(cert: &Cert) -> Result<bool, Stop>
    ensures ok { IfOk result (λ b. (strict : Bool) → MatchBool b (HasProfile Router strict cert.now.tbs → ⊥)
        (HasProfile Ca strict cert.now.tbs → ⊥)) }
    ensures err { IfErr result (λ _. (strict : Bool) → (HasProfile Router strict cert.now.tbs → ⊥)
        × (HasProfile Ca strict cert.now.tbs → ⊥)) }
    ensures reason { IfErr result (IsRejected (HasWrongConstraints cert.now.tbs)) }
{
    let answer = cert.tbs().basic_ca()?;
    Ok(answer)
}

/// The certificate as that of an authority, if it is valid as one.
///
/// The errors are `Invalid` of those of [CurrentCrl::verify_ca](rpki_valid::CurrentCrl::verify_ca), of a path that is
/// too long first; or `OutOfMemory` if allocation fails.
pub fn authority_of<'a, 'p, P: PreparingProvider>(
    alloc: Global,
    list: &CurrentCrl<'a, 'p, P>,
    cert: Cert,
) -> Result<ResourceCert<'p, P>, Stop>
    ensures ok { IfOk result (λ a. IsAuthorityHere P.Provider list.now cert a.resources) }
    ensures err { IfErr result (IsNoAuthorityHere P.Provider list.now cert) }
    ensures cert { IfOk result (λ a. a.cert ≡ cert) }
    // All of its path is valid at the moment, and in this period.
    ensures period { IfOk result (λ a. HoldsAt a.period list.now.at) }
    ensures holds { IfOk result (λ a. IsPeriodUnder (CountsAt list.now) cert a.period) }
    ensures terms { IfOk result (λ a. a.terms ≡ list.now.issuer.terms) }
    ensures depth { IfOk result (λ a. a.depth ≡ list.now.issuer.depth + 1) }
    ensures provider { IfOk result (λ a. a.provider ≡ list.now.issuer.provider) }
{
    let authority = list.verify_ca(alloc, cert)?;
    Ok(authority)
}

/// The certificate as that of a router, if it is valid as one (RFC 8209 3.1).
///
/// The errors are `Invalid` of those of [CurrentCrl::verify_router](rpki_valid::CurrentCrl::verify_router); or
/// `OutOfMemory` if allocation fails.
pub fn router_of<'a, 'p, P: PreparingProvider>(
    alloc: Global,
    list: &CurrentCrl<'a, 'p, P>,
    cert: Cert,
) -> Result<RouterCert, Stop>
    ensures exactly { FindsRouter P.Provider list.now cert result }
    ensures cert { IfOk result (λ x. x.cert ≡ cert) }
{
    let resources = list.verify_router(alloc, &cert)?;
    Ok(RouterCert { cert, resources })
}
