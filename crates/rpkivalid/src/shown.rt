//! What is found under the locators that are asked for, with the local exceptions.

ghost use Rattle.std.specs.Prelude.{IfOk, IfErr};
ghost use Rattle.rpkivalid.specs.RunView.{IsUnfoundBy, ShowsBy, UnchangedBy};

use crate::denial::Denial;
use crate::enough::some_anchored;
use crate::excepted::{exceptions_in, shown_of};
use crate::found::{Found, found_under_all};
use crate::locators::locators_in;
use crate::request::Request;
use crate::sources::Sources;
use rpki::repository::x509::Time;
use rpki_payloads::{NamedExceptions, Payloads};
use rpki_rsa::PreparingProvider;
use std::alloc::Global;

/// What is found under the locators that are asked for, with the local exceptions.
#[derive(Drop)]
pub struct Shown {
    /// The payloads.
    pub payloads: Vec<Payloads>,
    /// What is told of what is found: a line for each object that is rejected, and for each locator without a trust
    /// anchor.
    pub report: Vec<u8>,
    /// Whether each locator has a trust anchor.
    pub have_anchors: bool,
    /// Whether one of them has.
    pub has_anchor: bool,
}

/// What is found under the locators that are asked for, and the local exceptions, by which it is not changed yet.
#[derive(Drop)]
pub struct Unchanged {
    /// What is found.
    pub found: Found,
    /// The local exceptions.
    pub local: Vec<NamedExceptions>,
}

/// What is found under the locators that are asked for, at this moment and to this depth, and the local exceptions.
///
/// Returns why there are no such locators or local exceptions; `OutOfMemory` if allocation fails.
pub fn unchanged_under<S: Sources, P: PreparingProvider>(
    alloc: Global,
    request: &Request<'_, '_>,
    host: &S,
    crypto: &P,
    at: Time,
    depth: u32,
) -> Result<Unchanged, Denial>
    ensures unchanged { IfOk result (UnchangedBy P.Provider crypto.now (S.holds host.now) at depth request.now) }
    ensures denied { IfErr result (IsUnfoundBy (S.holds host.now) request.now) }
{
    let locators = locators_in(alloc, host, request.locators)?;
    let local = exceptions_in(alloc, host, request.exceptions)?;
    let found = found_under_all(
        alloc,
        host,
        request.cache,
        crypto,
        request.strictness,
        depth,
        at,
        locators.as_slice(),
    )?;
    Ok(Unchanged { found, local })
}

/// What is found under the locators that are asked for, with the local exceptions, at this moment and to this depth.
///
/// Returns why there are no such locators or local exceptions; `OutOfMemory` if allocation fails.
pub fn shown_under<S: Sources, P: PreparingProvider>(
    alloc: Global,
    request: &Request<'_, '_>,
    host: &S,
    crypto: &P,
    at: Time,
    depth: u32,
) -> Result<Shown, Denial>
    ensures shown { IfOk result (ShowsBy P.Provider crypto.now (S.holds host.now) at depth request.now) }
    ensures denied { IfErr result (IsUnfoundBy (S.holds host.now) request.now) }
{
    let unchanged = unchanged_under(alloc, request, host, crypto, at, depth)?;
    let Unchanged { found, local } = unchanged;
    let Found {
        payloads,
        have_anchors,
        report,
    } = found;
    let has_anchor = some_anchored(payloads.as_slice());
    let payloads = shown_of(alloc, local, payloads)?;
    Ok(Shown {
        payloads,
        report,
        have_anchors,
        has_anchor,
    })
}
