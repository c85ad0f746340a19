//! The payloads of what is valid, as routers are given them.

ghost use Rattle.std.specs.Prelude.{◌≡◌, ◌++◌, Some, IfOk, OnOk};
ghost use Rattle.std.specs.List.{Contains, flat_map};
ghost use Rattle.rpki_payloads.specs.Exceptions.{AreEach};
ghost use Rattle.rpki_payloads.specs.RouterKey.{key_cmp};
ghost use Rattle.rpki_payloads.specs.Sets.{IsSetOf};
ghost use Rattle.rpki_payloads.specs.Vap.{pair_cmp, pairs_of};
ghost use Rattle.rpki_payloads.specs.Vrp.{AreOrigins};
ghost use Rattle.rpki_validation.specs.Holding.{values};
ghost use Rattle.rpkivalid.specs.Ends.{AreEnds, IsSecondOf, IsTimed};
ghost use Rattle.rpkivalid.specs.Found.{router_keys};

use rpki::crypto::Provider;
use rpki::repository::x509::Time;
use rpki_contents::RouteOrigin;
use rpki_der::Values;
use rpki_objects::Aspa;
use rpki_payloads::{
    CustomerProvider, Payloads, RouterKey, Tally, TimedVrp, Vrp, latest_of, push_pairs,
    push_router_keys, sort_keys, sort_pairs, vrps_of,
};
use rpki_validation::{Payload, RouterCert};
use std::alloc::{AllocError, Global};

/// The route origins without their periods.
fn origins_in(
    alloc: Global,
    origins: &[Payload<RouteOrigin>],
) -> Result<Vec<RouteOrigin>, AllocError>
    ensures { IfOk result (λ all. all.items ≡ values origins.now) }
{
    let mut all = Vec::new(alloc);
    'each: for origin in origins {
        all.push(origin.value)?;
    }
    Ok(all)
}

/// The whole seconds since 1970-01-01T00:00:00Z; 0 of a moment before that.
fn second_of(at: Time) -> u64
    ensures { IsSecondOf at result }
{
    let seconds = at.to_binary_time();
    if seconds < 0 {
        0
    } else {
        seconds.unsigned_abs()
    }
}

/// The route origins with the seconds that their periods end in.
fn timed_in(alloc: Global, origins: &[Payload<RouteOrigin>]) -> Result<Vec<TimedVrp>, AllocError>
    ensures { IfOk result (λ all. AreEach IsTimed origins.now all.items) }
{
    let mut all = Vec::new(alloc);
    'each: for origin in origins {
        let vrp = Vrp::from(origin.value);
        let expires = second_of(origin.period.not_after());
        all.push(TimedVrp { vrp, expires })?;
    }
    Ok(all)
}

/// What the attestations say, a provider each.
fn pairs_in(
    alloc: Global,
    attestations: &[Payload<Aspa>],
) -> Result<Vec<CustomerProvider>, AllocError>
    ensures { IfOk result (λ pairs. pairs.items ≡ flat_map (λ p. pairs_of p.value.content) attestations.now) }
{
    let mut pairs = Vec::new(alloc);
    'each: for attestation in attestations {
        push_pairs(&mut pairs, attestation.value.content())?;
    }
    Ok(pairs)
}

/// Adds the keys of a router, one for each block of its AS numbers.
///
/// Returns `AllocError` if allocation fails; a key whose encoding has 2^32 octets or more counts as too large.
fn push_keys_of<P: Provider>(
    keys: &mut Vec<RouterKey>,
    provider: &P,
    router: &RouterCert,
) -> Result<(), AllocError>
    ensures { OnOk result (keys.new.items ≡ keys.old.items ++ router_keys (P.sha1_of provider.now) router.now) }
{
    let key = router.cert.tbs().subject_public_key_info();
    if !key.encode_ref().fits() {
        return Err(AllocError);
    }
    let info = key.to_info_bytes(*keys.allocator())?;
    let identifier = key.key_identifier(provider);
    push_router_keys(keys, identifier, &info, router.resources.asn.as_slice())
}

/// The keys of routers.
fn keys_in<P: Provider>(
    alloc: Global,
    provider: &P,
    routers: &[Payload<RouterCert>],
) -> Result<Vec<RouterKey>, AllocError>
    ensures { IfOk result (λ keys. keys.items
        ≡ flat_map (λ p. router_keys (P.sha1_of provider.now) p.value) routers.now) }
{
    let mut keys = Vec::new(alloc);
    'each: for router in routers {
        push_keys_of(&mut keys, provider, &router.value)?;
    }
    Ok(keys)
}

/// The payloads of these route origins, attestations and routers, under the locator of this name, and what is counted
/// beside them.
pub fn payloads_of<P: Provider>(
    alloc: Global,
    provider: &P,
    name: &str,
    origins: &[Payload<RouteOrigin>],
    attestations: &[Payload<Aspa>],
    routers: &[Payload<RouterCert>],
    tally: Tally,
) -> Result<Payloads, AllocError>
    ensures name { IfOk result (λ p. p.name ≡ name.now) }
    ensures vrps { IfOk result (λ p. AreOrigins (values origins.now) p.vrps) }
    ensures timed { IfOk result (λ p. AreEnds origins.now p.timed) }
    ensures pairs { IfOk result (λ p. IsSetOf pair_cmp (Contains (flat_map (λ p. pairs_of p.value.content)
        attestations.now)) p.pairs) }
    ensures keys { IfOk result (λ p. IsSetOf key_cmp (Contains (flat_map (λ p. router_keys (P.sha1_of provider.now)
        p.value) routers.now)) p.keys) }
    ensures tally { IfOk result (λ p. p.tally ≡ Some tally) }
{
    let timed = timed_in(alloc, origins)?;
    let timed = latest_of(alloc, timed)?;
    let origins = origins_in(alloc, origins)?;
    let vrps = vrps_of(alloc, origins.as_slice())?;
    let mut pairs = pairs_in(alloc, attestations)?;
    sort_pairs(&mut pairs);
    let mut keys = keys_in(alloc, provider, routers)?;
    sort_keys(&mut keys);
    let name = String::from_str(alloc, name)?;
    Ok(Payloads::new(name, vrps, timed, pairs, keys, Some(tally)))
}
