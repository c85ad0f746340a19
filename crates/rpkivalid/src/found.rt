//! What is found under locators.

ghost use Rattle.std.specs.Prelude.{◌≡◌, ◌&&◌, IfOk};
ghost use Rattle.rpkivalid.specs.FoundView.{AreFoundBy, AreReportedBy, IsFoundBy, IsReportedBy};

use crate::cache::Cache;
use crate::counted::tally_of;
use crate::gathered::payloads_of;
use crate::locators::Named;
use crate::report::{push_missing, push_rejections};
use crate::sources::Sources;
use rpki::repository::x509::Time;
use rpki_objects::Strictness;
use rpki_payloads::Payloads;
use rpki_rsa::PreparingProvider;
use rpki_valid::Terms;
use rpki_validation::{Stop, validate};
use std::alloc::{AllocError, Global};

/// What is found under a locator.
#[derive(Drop)]
pub struct Under {
    /// The payloads.
    pub payloads: Payloads,
    /// Whether it has a trust anchor.
    pub has_anchor: bool,
    /// What is told of it: a line for each object that is rejected, or why it has no trust anchor.
    pub report: Vec<u8>,
}

/// What is found under the locator.
fn found_under<S: Sources, P: PreparingProvider>(
    alloc: Global,
    sources: &S,
    folder: &str,
    provider: &P,
    strictness: Strictness,
    depth: u32,
    at: Time,
    named: &Named,
) -> Result<Under, AllocError>
    ensures found { IfOk result (IsFoundBy P.Provider provider.now (S.holds sources.now) folder.now strictness at depth
        named.now) }
    ensures told { IfOk result (IsReportedBy P.Provider provider.now (S.holds sources.now) folder.now strictness at
        depth named.now) }
{
    let cache = Cache {
        sources,
        folder,
        name: named.name.as_str(),
    };
    let terms = Terms {
        key: &named.locator.key,
        strictness,
        deepest: depth,
    };
    let uris = named.locator.uris.as_slice();
    let mut report = Vec::new(alloc);
    match validate(alloc, &cache, provider, uris, terms, at) {
        Ok(outcome) => {
            push_rejections(&mut report, outcome.rejections.as_slice())?;
            let payloads = payloads_of(
                alloc,
                provider,
                named.name.as_str(),
                outcome.origins.as_slice(),
                outcome.providers.as_slice(),
                outcome.routers.as_slice(),
                tally_of(true, outcome.rejections.as_slice()),
            )?;
            Ok(Under {
                payloads,
                has_anchor: true,
                report,
            })
        }
        Err(Stop::Rejected(reason)) => {
            push_missing(&mut report, named.name.as_str(), &reason)?;
            let payloads = payloads_of(
                alloc,
                provider,
                named.name.as_str(),
                &[],
                &[],
                &[],
                tally_of(false, &[]),
            )?;
            Ok(Under {
                payloads,
                has_anchor: false,
                report,
            })
        }
        Err(Stop::OutOfMemory) => Err(AllocError),
    }
}

/// What is found under locators, in their order.
#[derive(Drop)]
pub struct Found {
    /// The payloads.
    pub payloads: Vec<Payloads>,
    /// Whether each locator has a trust anchor.
    pub have_anchors: bool,
    /// What is told of them.
    pub report: Vec<u8>,
}

/// Whether both are so.
pub fn both(one: bool, other: bool) -> bool
    ensures { result ≡ (one && other) }
{
    one && other
}

/// What is found under all locators.
///
/// Returns `AllocError` if allocation fails.
pub fn found_under_all<S: Sources, P: PreparingProvider>(
    alloc: Global,
    sources: &S,
    folder: &str,
    provider: &P,
    strictness: Strictness,
    depth: u32,
    at: Time,
    locators: &[Named],
) -> Result<Found, AllocError>
    ensures found { IfOk result (AreFoundBy P.Provider provider.now (S.holds sources.now) folder.now strictness at depth
        locators.now) }
    ensures told { IfOk result (AreReportedBy P.Provider provider.now (S.holds sources.now) folder.now strictness at
        depth locators.now) }
{
    let mut payloads = Vec::new(alloc);
    let mut report = Vec::new(alloc);
    let mut have_anchors = true;
    let mut rest = locators;
    'locators: while let Some((named, following)) = rest.split_first() {
        let one = found_under(
            alloc, sources, folder, provider, strictness, depth, at, named,
        )?;
        report.extend_from_slice(one.report.as_slice())?;
        payloads.push(one.payloads)?;
        have_anchors = both(have_anchors, one.has_anchor);
        rest = following;
    }
    Ok(Found {
        payloads,
        have_anchors,
        report,
    })
}
