//! What is found, compared with what another validator lists.

ghost use Rattle.std.specs.Prelude.{◌≡◌, ◌==◌, ◌&&◌, IfOk, IfErr, length};
ghost use Rattle.rpki_payloads.specs.Vrp.{AreInOrder};
ghost use Rattle.rpkivalid.specs.Compared.{AreListedAt};
ghost use Rattle.rpkivalid.specs.ComparedView.{AreOursBy, Compares, IsUncomparedBy, IsWhyBy};
ghost use Rattle.rpkivalid.specs.Denying.{IsListDenialAt};
ghost use Rattle.rpkivalid.specs.RunView.{IsUnfoundBy};

use crate::denial::Denial;
use crate::explained::tell;
use crate::question::Question;
use crate::request::Request;
use crate::shown::shown_under;
use crate::sources::Sources;
use rpki::repository::x509::Time;
use rpki_payloads::{ListError, Vrp, alone_text, listed_vrps, only_in, united};
use rpki_rsa::PreparingProvider;
use std::alloc::Global;

/// The payloads that the file lists, each once, in order.
fn listed_in<S: Sources>(alloc: Global, sources: &S, file: &str) -> Result<Vec<Vrp>, Denial>
    ensures order { IfOk result (λ vrps. AreInOrder vrps.items) }
    ensures lists { IfOk result (λ vrps. AreListedAt (S.holds sources.now) file.now vrps.items) }
    ensures denied { IfErr result (IsListDenialAt (S.holds sources.now) file.now) }
{
    let Some(octets) = sources.read_large(alloc, file)? else {
        return Err(Denial::NoList);
    };
    match listed_vrps(alloc, octets.as_slice()) {
        Ok(vrps) => Ok(vrps),
        Err(ListError::OutOfMemory) => Err(Denial::OutOfMemory),
        Err(e) => Err(Denial::OtherList(e)),
    }
}

/// The payloads that are found, and what is told of what is found.
#[derive(Drop)]
pub struct Ours {
    /// The payloads, each once, in order.
    pub vrps: Vec<Vrp>,
    /// What is told.
    pub report: Vec<u8>,
    /// Whether each locator has a trust anchor.
    pub have_anchors: bool,
}

/// The payloads under the locators that are asked for, with the local exceptions.
fn ours_of<S: Sources, P: PreparingProvider>(
    alloc: Global,
    request: &Request<'_, '_>,
    host: &S,
    crypto: &P,
    at: Time,
    depth: u32,
) -> Result<Ours, Denial>
    ensures order { IfOk result (λ ours. AreInOrder ours.vrps.items) }
    ensures found { IfOk result (AreOursBy P.Provider crypto.now (S.holds host.now) at depth request.now) }
    ensures denied { IfErr result (IsUnfoundBy (S.holds host.now) request.now) }
{
    let shown = shown_under(alloc, request, host, crypto, at, depth)?;
    let vrps = united(alloc, shown.payloads.as_slice())?;
    Ok(Ours {
        vrps,
        report: shown.report,
        have_anchors: shown.have_anchors,
    })
}

/// What attestations that are rejected say of the payloads, which are there alone; nothing if there are none.
fn why<S: Sources, P: PreparingProvider>(
    alloc: Global,
    alone: Vec<Vrp>,
    request: &Request<'_, '_>,
    host: &S,
    crypto: &P,
    at: Time,
    depth: u32,
) -> Result<Vec<u8>, Denial>
    ensures told { IfOk result (λ text. IsWhyBy P.Provider crypto.now (S.holds host.now) at depth request.now alone
        text.items) }
    ensures denied { IfErr result (IsUnfoundBy (S.holds host.now) request.now) }
{
    if alone.as_slice().is_empty() {
        return Ok(Vec::new(alloc));
    }
    let question = Question::Alone(alone);
    let told = tell(alloc, &question, request, host, crypto, at, depth)?;
    Ok(told.text)
}

/// What is compared.
#[derive(Drop)]
pub struct Compared {
    /// The text.
    pub text: Vec<u8>,
    /// What is told of what is found.
    pub report: Vec<u8>,
    /// Whether each locator has a trust anchor.
    pub have_anchors: bool,
    /// Whether neither has a payload that the other has not.
    pub are_same: bool,
}

/// Whether there is none in either.
fn are_empty(here: &[Vrp], there: &[Vrp]) -> bool
    ensures { result ≡ ((length here.now == 0) && (length there.now == 0)) }
{
    here.is_empty() && there.is_empty()
}

/// What is found and what the file lists, compared: a line for each payload that is here alone, and for each that is
/// there alone; and what attestations that are rejected say of the latter.
///
/// Returns `NoList` if there is no such file, or it can't be read; `OtherList` if it lists no payloads; or why there
/// are no locators or local exceptions.
pub fn compare<S: Sources, P: PreparingProvider>(
    alloc: Global,
    file: &str,
    request: &Request<'_, '_>,
    host: &S,
    crypto: &P,
    at: Time,
    depth: u32,
) -> Result<Compared, Denial>
    ensures compared { IfOk result (Compares P.Provider crypto.now (S.holds host.now) at depth request.now file.now) }
    ensures denied { IfErr result (IsUncomparedBy (S.holds host.now) request.now file.now) }
{
    let theirs = listed_in(alloc, host, file)?;
    let ours = ours_of(alloc, request, host, crypto, at, depth)?;
    let our = ours.vrps.as_slice();
    let their = theirs.as_slice();
    let here = only_in(alloc, our, their)?;
    let there = only_in(alloc, their, our)?;
    let are_same = are_empty(here.as_slice(), there.as_slice());
    let mut text = alone_text(alloc, here.as_slice(), there.as_slice())?;
    let said = why(alloc, there, request, host, crypto, at, depth)?;
    text.extend_from_slice(said.as_slice())?;
    Ok(Compared {
        text,
        report: ours.report,
        have_anchors: ours.have_anchors,
        are_same,
    })
}
