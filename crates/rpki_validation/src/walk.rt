//! The walk from a trust anchor down.

ghost use Rattle.std.specs.Prelude.{◌≡◌, ◌⊎◌, IfOk};
ghost use Rattle.std.specs.List.{Contains};
ghost use Rattle.rpki_time.specs.Validity.{HoldsAt};
ghost use Rattle.rpki_valid.specs.Verified.{terms_in};
ghost use Rattle.rpki_validation.specs.Named.{IsFrom};
ghost use Rattle.rpki_validation.specs.Snapshot.{Where};
ghost use Rattle.rpki_validation.specs.Validated.{LooksAt, TellsBelow, Validates, WaitBelow};
ghost use Rattle.rpki_validation.specs.Waiting.{AddsAll, Entry};

use crate::anchor::anchor_of;
use crate::looked::Looked;
use crate::named::{is_named, place_by_manifest};
use crate::outcome::Outcome;
use crate::snapshot::Snapshot;
use crate::stop::Stop;
use crate::visit::visit;
use crate::waiting::Waiting;
use rpki::repository::x509::Time;
use rpki::uri::Rsync;
use rpki_locator::AnchorUri;
use rpki_rsa::PreparingProvider;
use rpki_valid::{ResourceCert, Terms};
use std::alloc::{AllocError, Global};

/// Adds authorities to those that wait: below one that is named at the place, those that name it are named as well.
///
/// Returns `AllocError` if allocation fails.
fn add_all<'p, S: Snapshot, P: PreparingProvider>(
    alloc: Global,
    snapshot: &S,
    place: &Option<Rsync>,
    below: Vec<ResourceCert<'p, P>>,
    waiting: &mut Waiting<'p, P>,
) -> Result<(), AllocError>
    ensures all { IfOk result (λ _. AddsAll (S.holds snapshot.now) place.now below.entry.items waiting.old
        waiting.new) }
    ensures waiting { IfOk result (λ _. (e : Entry P) → Contains waiting.new e
        → Contains waiting.old e ⊎ Contains below.entry.items e.1) }
{
    'below: for authority in below {
        let strict = authority.strictness().attributes;
        let is_named = is_named(alloc, snapshot, place, authority.cert(), strict)?;
        waiting.add(alloc, is_named, authority)?;
    }
    Ok(())
}

/// Where the certificate of the authority is, as its manifest says, if it is named; None else.
///
/// Returns `AllocError` if allocation fails.
fn place_of<'p, S: Snapshot, P: PreparingProvider>(
    alloc: Global,
    snapshot: &S,
    is_named: bool,
    issuer: &ResourceCert<'p, P>,
) -> Result<Option<Rsync>, AllocError>
    ensures { Where (S.holds snapshot.now) (λ published. IfOk result
        (IsFrom published issuer.now.terms.strictness.attributes is_named issuer.now.cert)) }
{
    if is_named {
        let strict = issuer.strictness().attributes;
        return place_by_manifest(alloc, snapshot, issuer.cert().tbs(), strict);
    }
    Ok(None)
}

/// Looks at an authority: adds what its point says, and the authorities below it to those that wait. Requires that all
/// of its path is valid at the moment.
///
/// Returns `AllocError` if allocation fails.
fn look_at<'p, S: Snapshot, P: PreparingProvider>(
    alloc: Global,
    snapshot: &S,
    is_named: bool,
    issuer: &ResourceCert<'p, P>,
    at: Time,
    waiting: &mut Waiting<'p, P>,
    outcome: &mut Outcome,
) -> Result<(), AllocError>
    requires { HoldsAt issuer.now.period at }
    ensures looks { IfOk result (λ _. LooksAt P.Provider (S.holds snapshot.now) at is_named issuer.now waiting.old
        waiting.new outcome.old outcome.new) }
    ensures waiting { IfOk result (λ _. WaitBelow issuer.now at waiting.old waiting.new) }
{
    let mut below = Vec::new(alloc);
    visit(alloc, snapshot, issuer, at, &mut below, outcome)?;
    let place = place_of(alloc, snapshot, is_named, issuer)?;
    add_all(alloc, snapshot, &place, below, waiting)
}

/// What is valid at the moment below the trust anchor. Requires that it is valid then.
///
/// Returns `AllocError` if allocation fails.
fn walk<'p, S: Snapshot, P: PreparingProvider>(
    alloc: Global,
    snapshot: &S,
    anchor: ResourceCert<'p, P>,
    at: Time,
) -> Result<Outcome, AllocError>
    requires period { HoldsAt anchor.period at }
    requires own { anchor.period ≡ anchor.cert.tbs.validity }
    requires depth { anchor.depth ≡ 0 }
    ensures { IfOk result (TellsBelow P.Provider (S.holds snapshot.now) at anchor.entry) }
{
    let mut outcome = Outcome::new(alloc);
    let mut looked = Looked::new(alloc);
    let mut waiting = Waiting::new(alloc);
    waiting.add(alloc, true, anchor)?;
    'turns: for _ in 0..u64::MAX {
        let Some((is_named, authority)) = waiting.take_first() else {
            return Ok(outcome);
        };
        if looked.insert(alloc, is_named, &authority)? {
            look_at(
                alloc,
                snapshot,
                is_named,
                &authority,
                at,
                &mut waiting,
                &mut outcome,
            )?;
        }
    }
    Err(AllocError)
}

/// What the snapshot makes valid at the moment, from the locator of a trust anchor with these URIs down to payloads.
/// The key of the locator is that of the terms. Of the authorities that publish at one place one is looked at: that
/// which is named there (RFC 6487 4.8.7), else the first that is met, if it is no more steps below the trust anchor
/// than the terms permit.
///
/// The errors are those of [anchor_of]: the locator has no trust anchor, and why; or `OutOfMemory` if allocation fails.
pub fn validate<'p, S: Snapshot, P: PreparingProvider>(
    alloc: Global,
    snapshot: &S,
    provider: &'p P,
    uris: &[AnchorUri],
    terms: Terms<'p>,
    at: Time,
) -> Result<Outcome, Stop>
    ensures { Validates P.Provider (terms_in terms.entry) provider.entry.now at (S.holds snapshot.now) uris.now result }
{
    let anchor = anchor_of(alloc, snapshot, provider, uris, terms, at)?;
    let outcome = walk(alloc, snapshot, anchor, at)?;
    Ok(outcome)
}
