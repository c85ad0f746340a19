//! What is in the point of one authority.

ghost use Rattle.std.specs.Prelude.{◌≡◌, ◌++◌, [], ◌∷◌, map, IfOk, IfErr};
ghost use Rattle.rpki_valid.specs.Verified.{IsVerified, verified_by};
ghost use Rattle.rpki_valid.specs.CrlIssued.{CountsAt};
ghost use Rattle.rpki_time.specs.Validity.{HoldsAt};
ghost use Rattle.rpki_validation.specs.Adding.{AddsFile, AddsFiles, AddsOrigins, AddsOriginsHere, AddsPoint};
ghost use Rattle.rpki_validation.specs.Adding.{AddsProviders, AddsProvidersHere, AddsRouters, AddsRoutersHere};
ghost use Rattle.rpki_validation.specs.Held.{AddsHeldFile, AddsHeldFiles, AddsHeldOf, IsSaidHere};
ghost use Rattle.rpki_validation.specs.Holding.{IsPeriodUnder, SaysOriginBy, SaysProvidersBy, SaysRouterBy};
ghost use Rattle.rpki_validation.specs.Holding.{in_period, values};
ghost use Rattle.rpki_validation.specs.Adding.{AddsAuthorities, AddsAuthoritiesHere, UnlessMemory, WhereMemory, found};
ghost use Rattle.rpki_validation.specs.Basis.{holders};
ghost use Rattle.rpki_validation.specs.Met.{IsPlace};
ghost use Rattle.rpki_validation.specs.Sisters.{AreSistersBelow};
ghost use Rattle.rpki_validation.specs.Noting.{AddsOnly};
ghost use Rattle.rpki_validation.specs.Publication.{HasManifest};
ghost use Rattle.rpki_validation.specs.Rejecting.{AddsBelow, AddsChildren, AddsNote, IsChildHere, IsChildOf};
ghost use Rattle.rpki_validation.specs.Rejecting.{IsFileNote, IsPointNote};
ghost use Rattle.rpki_validation.specs.Rejecting.{RejectsAll, RejectsIn, SettlesCert, SettlesFile, SettlesOrigins};
ghost use Rattle.rpki_validation.specs.Rejecting.{SettlesPoint, SettlesProviders};

use crate::issued::{authority_of, cert_in, is_authority, origins_in, providers_in, router_of};
use crate::outcome::{Outcome, Rejection};
use crate::payload::Payload;
use crate::point::{files_of, verify_publication};
use crate::publication::{Publication, file_uri, manifest_place};
use crate::reason::Reason;
use crate::router::RouterCert;
use crate::snapshot::Snapshot;
use crate::stop::Stop;
use bytes::Bytes;
use rpki::repository::x509::{Time, Validity};
use rpki::uri::Rsync;
use rpki_cert::{Cert, TbsCert};
use rpki_contents::{FileAndHash, RouteOrigin, RouteOrigins};
use rpki_objects::Aspa;
use rpki_rsa::PreparingProvider;
use rpki_valid::{CurrentCrl, ResourceCert};
use std::alloc::{AllocError, Global};

/// The period in which the path of the list's authority holds, the list counts, and the certificate is valid.
fn period_of<'a, 'p, P: PreparingProvider>(list: &CurrentCrl<'a, 'p, P>, cert: &Cert) -> Validity
    ensures { IsPeriodUnder (CountsAt list.now) cert.now result }
{
    list.period().trim(cert.tbs().validity())
}

/// Adds the prefixes, each in this period.
fn push_origins(
    rest: RouteOrigins<'_>,
    period: Validity,
    origins: &mut Vec<Payload<RouteOrigin>>,
) -> Result<(), AllocError>
    ensures { IfOk result (λ _. origins.new.items ≡ origins.old.items ++ map (in_period period) rest.entry) }
{
    let mut rest = rest;
    'origins: while let Some(value) = rest.next_origin() {
        origins.push(Payload { value, period })?;
    }
    Ok(())
}

/// Adds the route origins of the attestation that the octets are, if it is valid.
fn add_origins<'a, 'p, P: PreparingProvider>(
    alloc: Global,
    list: &CurrentCrl<'a, 'p, P>,
    octets: Bytes,
    origins: &mut Vec<Payload<RouteOrigin>>,
) -> Result<(), Stop>
    ensures said { WhereMemory result (AddsOriginsHere P.Provider list.now octets (values origins.old.items)
        (values origins.new.items)) }
    ensures held { WhereMemory result (AddsOnly (IsSaidHere P.Provider list.now SaysOriginBy octets) origins.old.items
        origins.new.items) }
    ensures why { SettlesOrigins P.Provider list.now octets result }
{
    let roa = origins_in(alloc, list, octets)?;
    let period = period_of(list, roa.object().cert());
    push_origins(roa.content().origins(), period, origins)?;
    Ok(())
}

/// Adds the attestation of providers that the octets are, if it is valid.
fn add_providers<'a, 'p, P: PreparingProvider>(
    alloc: Global,
    list: &CurrentCrl<'a, 'p, P>,
    octets: Bytes,
    providers: &mut Vec<Payload<Aspa>>,
) -> Result<(), Stop>
    ensures said { WhereMemory result (AddsProvidersHere P.Provider list.now octets (values providers.old.items)
        (values providers.new.items)) }
    ensures held { WhereMemory result (AddsOnly (IsSaidHere P.Provider list.now SaysProvidersBy octets)
        providers.old.items providers.new.items) }
    ensures why { SettlesProviders P.Provider list.now octets result }
{
    let value = providers_in(alloc, list, octets)?;
    let period = period_of(list, value.object().cert());
    providers.push(Payload { value, period })?;
    Ok(())
}

/// Adds the authority to those below.
fn add_below<'p, P: PreparingProvider>(
    authority: ResourceCert<'p, P>,
    below: &mut Vec<ResourceCert<'p, P>>,
) -> Result<(), AllocError>
    ensures items { IfOk result (λ _. below.new.items ≡ below.old.items ++ authority.entry ∷ []) }
    // It was verified, as a look at its certificate tells.
    ensures verified { IsVerified (verified_by P.Provider authority.entry) }
{
    let _cert = authority.cert();
    below.push(authority)?;
    Ok(())
}

/// Adds the certificate that the octets are, if it is valid: that of an authority to those below, that of a router to
/// the routers.
fn add_cert<'a, 'p, P: PreparingProvider>(
    alloc: Global,
    list: &CurrentCrl<'a, 'p, P>,
    octets: Bytes,
    below: &mut Vec<ResourceCert<'p, P>>,
    routers: &mut Vec<Payload<RouterCert>>,
) -> Result<(), Stop>
    ensures routers { WhereMemory result (AddsRoutersHere P.Provider list.now octets (values routers.old.items)
        (values routers.new.items)) }
    ensures held { WhereMemory result (AddsOnly (IsSaidHere P.Provider list.now SaysRouterBy octets) routers.old.items
        routers.new.items) }
    ensures below { WhereMemory result (AddsAuthoritiesHere P.Provider list.now octets (holders below.old.items)
        (holders below.new.items)) }
    ensures sisters { WhereMemory result (AreSistersBelow list.now.issuer list.now.at below.old.items
        below.new.items) }
    ensures children { WhereMemory result (AddsOnly (IsChildHere P.Provider list.now octets) below.old.items
        below.new.items) }
    ensures why { SettlesCert P.Provider list.now octets result }
{
    let cert = cert_in(alloc, octets)?;
    if is_authority(&cert)? {
        let authority = authority_of(alloc, list, cert)?;
        add_below(authority, below)?;
        return Ok(());
    }
    let value = router_of(alloc, list, cert)?;
    let period = period_of(list, &value.cert);
    routers.push(Payload { value, period })?;
    Ok(())
}

/// Adds what the file says, if it is valid. A file whose name ends otherwise is of no kind that counts here.
fn add_file<'a, 'p, P: PreparingProvider>(
    alloc: Global,
    list: &CurrentCrl<'a, 'p, P>,
    file: &FileAndHash,
    octets: Bytes,
    below: &mut Vec<ResourceCert<'p, P>>,
    outcome: &mut Outcome,
) -> Result<(), Stop>
    ensures said { WhereMemory result (AddsFile P.Provider list.now file.now octets (found below.old outcome.old)
        (found below.new outcome.new)) }
    ensures sisters { WhereMemory result (AreSistersBelow list.now.issuer list.now.at below.old.items
        below.new.items) }
    ensures children { WhereMemory result (AddsOnly (IsChildOf P.Provider list.now file.now octets) below.old.items
        below.new.items) }
    ensures held { WhereMemory result (AddsHeldFile P.Provider list.now file.now octets outcome.old outcome.new) }
    ensures why { SettlesFile P.Provider list.now file.now octets result }
    ensures rejections { WhereMemory result (outcome.new.rejections.items ≡ outcome.old.rejections.items) }
{
    let name = file.file();
    if name.ends_with(b".roa") {
        return add_origins(alloc, list, octets, &mut outcome.origins);
    }
    if name.ends_with(b".asa") {
        return add_providers(alloc, list, octets, &mut outcome.providers);
    }
    if name.ends_with(b".cer") {
        return add_cert(alloc, list, octets, below, &mut outcome.routers);
    }
    Ok(())
}

/// Notes that the file is rejected.
fn reject_file(
    alloc: Global,
    folder: &Rsync,
    file: &FileAndHash,
    reason: Reason,
    rejections: &mut Vec<Rejection>,
) -> Result<(), AllocError>
    ensures { IfOk result (λ _. AddsNote (IsFileNote folder.now file.now reason) rejections.old.items
        rejections.new.items) }
{
    let uri = match file_uri(alloc, folder, file) {
        Ok(uri) => Some(uri),
        Err(Stop::OutOfMemory) => return Err(AllocError),
        Err(Stop::Rejected(_reason)) => None,
    };
    rejections.push(Rejection {
        uri,
        is_point: false,
        reason,
    })?;
    Ok(())
}

/// Adds what the files say, each that is valid; the others are rejected.
fn add_files<'a, 'p, P: PreparingProvider>(
    alloc: Global,
    list: &CurrentCrl<'a, 'p, P>,
    folder: &Rsync,
    files: &[FileAndHash],
    octets: Vec<Bytes>,
    below: &mut Vec<ResourceCert<'p, P>>,
    outcome: &mut Outcome,
) -> Result<(), AllocError>
    ensures said { IfOk result (λ _. AddsFiles P.Provider list.now files.now octets.items (found below.old outcome.old)
        (found below.new outcome.new)) }
    ensures sisters { IfOk result (λ _. AreSistersBelow list.now.issuer list.now.at below.old.items
        below.new.items) }
    ensures children { IfOk result (λ _. AddsChildren P.Provider list.now files.now octets.items below.old.items
        below.new.items) }
    ensures held { IfOk result (λ _. AddsHeldFiles P.Provider list.now files.now octets.items outcome.old outcome.new) }
    ensures rejected { IfOk result (λ _. RejectsAll P.Provider list.now folder.now files.now octets.items outcome.old
        outcome.new) }
{
    let mut rest = files;
    'octets: for one in octets {
        let Some((file, following)) = rest.split_first() else {
            return Ok(());
        };
        match add_file(alloc, list, file, one, below, outcome) {
            Ok(()) => {}
            Err(Stop::OutOfMemory) => return Err(AllocError),
            Err(Stop::Rejected(reason)) => {
                reject_file(alloc, folder, file, reason, &mut outcome.rejections)?
            }
        }
        rest = following;
    }
    Ok(())
}

/// Adds what the point of the authority says; or why it has none. Requires that all of the authority's path is valid at
/// the moment, as its period tells.
fn add_point<'p, S: Snapshot, P: PreparingProvider>(
    alloc: Global,
    snapshot: &S,
    issuer: &ResourceCert<'p, P>,
    at: Time,
    below: &mut Vec<ResourceCert<'p, P>>,
    outcome: &mut Outcome,
) -> Result<(), Stop>
    requires { HoldsAt issuer.now.period at }
    ensures said { AddsPoint P.Provider (S.holds snapshot.now) issuer.now at (found below.old outcome.old)
        (found below.new outcome.new) result }
    ensures sisters { WhereMemory result (AreSistersBelow issuer.now at below.old.items below.new.items) }
    ensures children { WhereMemory result (AddsBelow P.Provider (S.holds snapshot.now) issuer.now at below.old.items
        below.new.items) }
    ensures held { WhereMemory result (AddsHeldOf P.Provider (S.holds snapshot.now) issuer.now at outcome.old
        outcome.new) }
    ensures rejected { SettlesPoint P.Provider (S.holds snapshot.now) issuer.now at outcome.old.rejections.items
        outcome.new.rejections.items result }
    ensures same { IfErr result (UnlessMemory (outcome.new.rejections.items ≡ outcome.old.rejections.items)) }
{
    let publication = Publication::of(alloc, snapshot, issuer)?;
    let list = verify_publication(alloc, issuer, &publication, at)?;
    let files = publication.manifest().content().file_list();
    let folder = publication.folder();
    let octets = files_of(alloc, snapshot, issuer.provider(), folder, files)?;
    add_files(alloc, &list, folder, files, octets, below, outcome)?;
    Ok(())
}

/// Where the manifest of the subject is; None where the certificate says no place.
fn manifest_uri(alloc: Global, tbs: &TbsCert) -> Result<Option<Rsync>, AllocError>
    ensures { IfOk result (IsPlace (HasManifest tbs.now)) }
{
    match manifest_place(alloc, tbs) {
        Ok(uri) => Ok(Some(uri)),
        Err(Stop::OutOfMemory) => Err(AllocError),
        Err(Stop::Rejected(_)) => Ok(None),
    }
}

/// Notes that all that the authority publishes is rejected.
fn reject_point<'p, P: PreparingProvider>(
    alloc: Global,
    issuer: &ResourceCert<'p, P>,
    reason: Reason,
    rejections: &mut Vec<Rejection>,
) -> Result<(), AllocError>
    ensures { IfOk result (λ _. AddsNote (IsPointNote issuer.now.cert.tbs reason) rejections.old.items
        rejections.new.items) }
{
    let uri = manifest_uri(alloc, issuer.cert().tbs())?;
    rejections.push(Rejection {
        uri,
        is_point: true,
        reason,
    })?;
    Ok(())
}

/// Adds what the point of the authority says, if it has one; or notes why it has none. Requires that all of the
/// authority's path is valid at the moment, as its period tells.
///
/// Returns `AllocError` if allocation fails.
pub(crate) fn visit<'p, S: Snapshot, P: PreparingProvider>(
    alloc: Global,
    snapshot: &S,
    issuer: &ResourceCert<'p, P>,
    at: Time,
    below: &mut Vec<ResourceCert<'p, P>>,
    outcome: &mut Outcome,
) -> Result<(), AllocError>
    requires { HoldsAt issuer.now.period at }
    ensures origins { AddsOrigins P.Provider (S.holds snapshot.now) issuer.now at outcome.old.origins.items
        outcome.new.origins.items result }
    ensures providers { AddsProviders P.Provider (S.holds snapshot.now) issuer.now at outcome.old.providers.items
        outcome.new.providers.items result }
    ensures routers { AddsRouters P.Provider (S.holds snapshot.now) issuer.now at outcome.old.routers.items
        outcome.new.routers.items result }
    ensures below { AddsAuthorities P.Provider (S.holds snapshot.now) issuer.now at below.old.items below.new.items
        result }
    ensures sisters { IfOk result (λ _. AreSistersBelow issuer.now at below.old.items below.new.items) }
    ensures children { IfOk result (λ _. AddsBelow P.Provider (S.holds snapshot.now) issuer.now at below.old.items
        below.new.items) }
    ensures held { IfOk result (λ _. AddsHeldOf P.Provider (S.holds snapshot.now) issuer.now at outcome.old
        outcome.new) }
    ensures rejected { IfOk result (λ _. RejectsIn P.Provider (S.holds snapshot.now) issuer.now at outcome.old
        outcome.new) }
{
    match add_point(alloc, snapshot, issuer, at, below, outcome) {
        Ok(()) => Ok(()),
        Err(Stop::OutOfMemory) => Err(AllocError),
        Err(Stop::Rejected(reason)) => {
            reject_point(alloc, issuer, reason, &mut outcome.rejections)
        }
    }
}
