//! What is explained: why an object counts or not, and what payloads say of a route.

ghost use Rattle.std.specs.Prelude.{◌≡◌, ◌&&◌, [], IfOk, IfErr, IfSome};
ghost use Rattle.rpkivalid.specs.ExplainedView.{AreToldBy, Explains, IsObjectToldBy, IsRefusedBy, IsToldBy, Tells};
ghost use Rattle.rpkivalid.specs.ExplainedView.{TellsRoute};
ghost use Rattle.rpkivalid.specs.RunView.{IsUnfoundBy};
ghost use Rattle.rpkivalid.specs.Refused.{AreRefusedIn};
ghost use Rattle.rpkivalid.specs.Told.{is_found};

use crate::denial::Denial;
use crate::excepted::shown_of;
use crate::found::{Found, both};
use crate::locators::{Named, locators_in};
use crate::paths::object_path;
use crate::question::Question;
use crate::refused::refused_text;
use crate::request::Request;
use crate::shown::{Unchanged, unchanged_under};
use crate::sources::Sources;
use crate::told::file_text;
use crate::walked::{Walk, walk_of};
use crate::without::Without;
use rpki::repository::x509::Time;
use rpki::uri::Rsync;
use rpki_objects::Strictness;
use rpki_payloads::Route;
use rpki_rsa::PreparingProvider;
use std::alloc::{AllocError, Global};

/// Whether a trust anchor is found.
fn is_found(walk: &Walk) -> bool
    ensures { result ≡ is_found walk.now }
{
    match walk {
        Walk::Found(_) => true,
        Walk::NoAnchor(_) => false,
    }
}

/// What is said of the object under the locator, and whether that has a trust anchor.
fn object_under<S: Sources, P: PreparingProvider>(
    alloc: Global,
    sources: &S,
    folder: &str,
    provider: &P,
    strictness: Strictness,
    depth: u32,
    at: Time,
    uri: &Rsync,
    named: &Named,
) -> Result<(Vec<u8>, bool), AllocError>
    ensures { IfOk result (IsObjectToldBy P.Provider provider.now (S.holds sources.now) folder.now strictness at depth
        uri.now named.now) }
{
    let path = object_path(alloc, folder, &uri.view())?;
    let others = Without {
        sources,
        path: path.as_str(),
    };
    let found = walk_of(
        alloc, sources, folder, provider, strictness, depth, at, named,
    )?;
    let left = walk_of(
        alloc, &others, folder, provider, strictness, depth, at, named,
    )?;
    let text = file_text(alloc, named.name.as_str(), uri, &found, &left)?;
    Ok((text, is_found(&found)))
}

/// What attestations that are rejected under the locator say of what is asked; nothing if there is no trust anchor.
fn refused_in<S: Sources>(
    alloc: Global,
    sources: &S,
    folder: &str,
    strictness: Strictness,
    question: &Question,
    name: &str,
    found: &Walk,
) -> Result<Vec<u8>, AllocError>
    ensures { IfOk result (λ text. IfSome (S.holds sources.now) (λ files. AreRefusedIn files folder.now strictness
        question.now name.now found.now text.items)) }
{
    match found {
        Walk::Found(outcome) => {
            let rejections = outcome.rejections.as_slice();
            refused_text(
                alloc, sources, folder, strictness, question, name, rejections,
            )
        }
        Walk::NoAnchor(_) => Ok(Vec::new(alloc)),
    }
}

/// What attestations that are rejected under the locator say of what is asked, and whether that has a trust anchor.
fn refused_under<S: Sources, P: PreparingProvider>(
    alloc: Global,
    sources: &S,
    folder: &str,
    provider: &P,
    strictness: Strictness,
    depth: u32,
    at: Time,
    question: &Question,
    named: &Named,
) -> Result<(Vec<u8>, bool), AllocError>
    ensures { IfOk result (IsRefusedBy P.Provider provider.now (S.holds sources.now) folder.now strictness at depth
        question.now named.now) }
{
    let found = walk_of(
        alloc, sources, folder, provider, strictness, depth, at, named,
    )?;
    let name = named.name.as_str();
    let text = refused_in(alloc, sources, folder, strictness, question, name, &found)?;
    Ok((text, is_found(&found)))
}

/// What is said under the locator of what is asked, and whether that has a trust anchor.
fn told_under<S: Sources, P: PreparingProvider>(
    alloc: Global,
    sources: &S,
    folder: &str,
    provider: &P,
    strictness: Strictness,
    depth: u32,
    at: Time,
    question: &Question,
    named: &Named,
) -> Result<(Vec<u8>, bool), AllocError>
    ensures { IfOk result (IsToldBy P.Provider provider.now (S.holds sources.now) folder.now strictness at depth
        question.now named.now) }
{
    match question {
        Question::Object(uri) => object_under(
            alloc, sources, folder, provider, strictness, depth, at, uri, named,
        ),
        Question::Origin(_) => refused_under(
            alloc, sources, folder, provider, strictness, depth, at, question, named,
        ),
        Question::Alone(_) => refused_under(
            alloc, sources, folder, provider, strictness, depth, at, question, named,
        ),
    }
}

/// What is explained, and whether each locator has a trust anchor.
#[derive(Drop)]
pub struct Explained {
    /// The text.
    pub text: Vec<u8>,
    /// What is told of what is found, where a route is asked for.
    pub report: Vec<u8>,
    /// Whether each locator has a trust anchor.
    pub have_anchors: bool,
}

/// What is said under all locators of what is asked, in their order.
fn told_under_all<S: Sources, P: PreparingProvider>(
    alloc: Global,
    sources: &S,
    folder: &str,
    provider: &P,
    strictness: Strictness,
    depth: u32,
    at: Time,
    question: &Question,
    locators: &[Named],
) -> Result<Explained, AllocError>
    ensures told { IfOk result (AreToldBy P.Provider provider.now (S.holds sources.now) folder.now strictness at depth
        question.now locators.now) }
    ensures report { IfOk result (λ e. e.report.items ≡ []) }
{
    let mut text = Vec::new(alloc);
    let mut have_anchors = true;
    let mut rest = locators;
    'locators: while let Some((named, following)) = rest.split_first() {
        let (one, has_anchor) = told_under(
            alloc, sources, folder, provider, strictness, depth, at, question, named,
        )?;
        text.extend_from_slice(one.as_slice())?;
        have_anchors = both(have_anchors, has_anchor);
        rest = following;
    }
    let report = Vec::new(alloc);
    Ok(Explained {
        text,
        report,
        have_anchors,
    })
}

/// What is said under the locators that are asked for of what is asked.
///
/// Returns why there is no such locator; `OutOfMemory` if allocation fails.
pub fn tell<S: Sources, P: PreparingProvider>(
    alloc: Global,
    question: &Question,
    request: &Request<'_, '_>,
    host: &S,
    crypto: &P,
    at: Time,
    depth: u32,
) -> Result<Explained, Denial>
    ensures told { IfOk result (Tells P.Provider crypto.now (S.holds host.now) at depth request.now question.now) }
    ensures report { IfOk result (λ e. e.report.items ≡ []) }
    ensures denied { IfErr result (IsUnfoundBy (S.holds host.now) request.now) }
{
    let locators = locators_in(alloc, host, request.locators)?;
    let told = told_under_all(
        alloc,
        host,
        request.cache,
        crypto,
        request.strictness,
        depth,
        at,
        question,
        locators.as_slice(),
    )?;
    Ok(told)
}

/// What the payloads under the locators that are asked for, with the local exceptions, say of the route, and which of
/// these take away or add a payload that covers it; and what is told of what is found.
fn route_text<S: Sources, P: PreparingProvider>(
    alloc: Global,
    route: Route,
    request: &Request<'_, '_>,
    host: &S,
    crypto: &P,
    at: Time,
    depth: u32,
) -> Result<Explained, Denial>
    ensures told { IfOk result (TellsRoute P.Provider crypto.now (S.holds host.now) at depth request.now route) }
    ensures denied { IfErr result (IsUnfoundBy (S.holds host.now) request.now) }
{
    let unchanged = unchanged_under(alloc, request, host, crypto, at, depth)?;
    let Unchanged { found, local } = unchanged;
    let Found {
        payloads,
        have_anchors,
        report,
    } = found;
    let changes = route.changed_text(alloc, local.as_slice(), payloads.as_slice())?;
    let shown = shown_of(alloc, local, payloads)?;
    let mut text = route.text_of(alloc, shown.as_slice())?;
    text.extend_from_slice(changes.as_slice())?;
    Ok(Explained {
        text,
        report,
        have_anchors,
    })
}

/// What is asked, explained: of an object where it is rejected and what lists it, under each locator; of a route
/// whether it is valid (RFC 6811 2), which payloads cover it, which local exceptions take away or add one that does,
/// and what attestations that are rejected say of it, with what is told of what is found.
pub fn explain<S: Sources, P: PreparingProvider>(
    alloc: Global,
    question: &Question,
    request: &Request<'_, '_>,
    host: &S,
    crypto: &P,
    at: Time,
    depth: u32,
) -> Result<Explained, Denial>
    ensures told { IfOk result (Explains P.Provider crypto.now (S.holds host.now) at depth request.now question.now) }
    ensures denied { IfErr result (IsUnfoundBy (S.holds host.now) request.now) }
{
    let told = tell(alloc, question, request, host, crypto, at, depth)?;
    match question {
        Question::Object(_) => Ok(told),
        Question::Alone(_) => Ok(told),
        Question::Origin(route) => {
            let mut said = route_text(alloc, *route, request, host, crypto, at, depth)?;
            said.text.extend_from_slice(told.text.as_slice())?;
            Ok(said)
        }
    }
}
