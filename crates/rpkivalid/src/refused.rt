//! What attestations of route origins that are rejected say of a route, or of payloads: those that are, and those of a
//! point that is. Nothing of them is verified.

ghost use Rattle.std.specs.Prelude.{◌≡◌, ◌++◌, IfOk, IfSome, OnOk, string_bytes};
ghost use Rattle.std.specs.List.{flat_map};
ghost use Rattle.rpkivalid.specs.Refused.{AreRefused, SaysRejected, is_wanted, refused_line};

use crate::question::Question;
use crate::rejected_point::said_by_point;
use crate::sources::Sources;
use crate::told::rejected_line;
use crate::unverified::said_at;
use rpki_contents::RouteOrigin;
use rpki_objects::Strictness;
use rpki_payloads::Vrp;
use rpki_validation::Rejection;
use std::alloc::{AllocError, Global};

/// What is said by a point, or an object, that is rejected.
fn said_by_rejected<S: Sources>(
    alloc: Global,
    sources: &S,
    folder: &str,
    strictness: Strictness,
    rejection: &Rejection,
) -> Result<Vec<RouteOrigin>, AllocError>
    ensures { IfOk result (λ all. IfSome (S.holds sources.now) (λ files. SaysRejected files folder.now strictness
        rejection.now.is_point rejection.now.uri all.items)) }
{
    if rejection.is_point {
        return said_by_point(alloc, sources, folder, strictness, &rejection.uri);
    }
    said_at(alloc, sources, folder, strictness, &rejection.uri)
}

/// Whether the payload is asked for: it covers the route, or is one of those that another validator alone has.
fn is_wanted(question: &Question, vrp: Vrp) -> bool
    ensures { result ≡ is_wanted question.now vrp }
{
    match question {
        Question::Object(_) => false,
        Question::Origin(route) => route.is_covered_by(vrp),
        Question::Alone(vrps) => vrp.is_among(vrps.as_slice()),
    }
}

/// Adds the line of the route origin that is rejected, if it is asked for.
fn push_refused(
    text: &mut Vec<u8>,
    question: &Question,
    name: &str,
    rejection: &Rejection,
    origin: RouteOrigin,
) -> Result<(), AllocError>
    ensures { OnOk result (text.new.items ≡ text.old.items ++ refused_line question.now name.now rejection.now origin) }
{
    let vrp = Vrp::from(origin);
    if is_wanted(question, vrp) {
        let alloc = *text.allocator();
        let payload = vrp.text(alloc)?;
        let line = rejected_line(alloc, name, rejection)?;
        text.extend_from_slice(payload.as_bytes())?;
        text.extend_from_slice(b": ")?;
        text.extend_from_slice(line.as_bytes())?;
    }
    Ok(())
}

/// Adds the lines of the route origins that are rejected and asked for.
fn push_all_refused(
    text: &mut Vec<u8>,
    question: &Question,
    name: &str,
    rejection: &Rejection,
    origins: &[RouteOrigin],
) -> Result<(), AllocError>
    ensures { OnOk result (text.new.items
        ≡ text.old.items ++ flat_map (refused_line question.now name.now rejection.now) origins.now) }
{
    'origins: for origin in origins {
        push_refused(text, question, name, rejection, *origin)?;
    }
    Ok(())
}

/// What attestations that are rejected, or are files of a point that is, say of what is asked: a line for each payload
/// of theirs that is asked for.
///
/// Returns `AllocError` if allocation fails.
pub fn refused_text<S: Sources>(
    alloc: Global,
    sources: &S,
    folder: &str,
    strictness: Strictness,
    question: &Question,
    name: &str,
    rejections: &[Rejection],
) -> Result<Vec<u8>, AllocError>
    ensures { IfOk result (λ text. IfSome (S.holds sources.now) (λ files. AreRefused files folder.now strictness
        question.now name.now rejections.now text.items)) }
{
    let mut text = Vec::new(alloc);
    let mut rest = rejections;
    'rejections: while let Some((rejection, following)) = rest.split_first() {
        let origins = said_by_rejected(alloc, sources, folder, strictness, rejection)?;
        push_all_refused(&mut text, question, name, rejection, origins.as_slice())?;
        rest = following;
    }
    Ok(text)
}
