//! What is to be explained.

ghost use Rattle.std.specs.Prelude.{IfOk, IfErr};
ghost use Rattle.std.specs.Option.{option_map};
ghost use Rattle.rpkivalid.specs.Denying.{IsObjectDenial, IsOriginDenial, IsQuestionDenial};
ghost use Rattle.rpkivalid.specs.Question.{IsObjectQuestion, IsOriginQuestion, IsQuestion};

use crate::denial::Denial;
use rpki::uri::{Error, Rsync};
use rpki_payloads::{Route, Vrp};
use rpki_resources::{Asn, Prefix};
use std::alloc::Global;

/// What is to be explained.
#[derive(Drop)]
pub enum Question {
    /// Why the object at this URI counts, or not.
    Object(Rsync),
    /// What payloads say of this route.
    Origin(Route),
    /// Why another validator alone has these payloads.
    Alone(Vec<Vrp>),
}

/// The object at the URI that the word is.
///
/// Returns `NoUri` if it is none.
fn object_of(alloc: Global, word: &str) -> Result<Question, Denial>
    ensures some { IfOk result (IsObjectQuestion word.now) }
    ensures denied { IfErr result (IsObjectDenial word.now) }
{
    match Rsync::from_str(alloc, word) {
        Ok(uri) => Ok(Question::Object(uri)),
        Err(Error::OutOfMemory) => Err(Denial::OutOfMemory),
        Err(_) => Err(Denial::NoUri),
    }
}

/// The route of the prefix that the word is, from the AS of this number.
///
/// Returns `NoRoute` if one is none.
fn origin_of(word: &str, number: &str) -> Result<Question, Denial>
    ensures some { IfOk result (IsOriginQuestion word.now number.now) }
    ensures denied { IfErr result (IsOriginDenial word.now number.now) }
{
    let Ok(prefix) = word.parse::<Prefix>() else {
        return Err(Denial::NoRoute);
    };
    let Ok(number) = number.parse::<Asn>() else {
        return Err(Denial::NoRoute);
    };
    Ok(Question::Origin(Route {
        prefix,
        as_id: number.0,
    }))
}

/// What these words ask: with a number it is a route, else an object. None if there are no words.
///
/// Returns `NoUri` if the word is no rsync URI; `NoRoute` if it is no prefix, or the number is none, or alone;
/// `OutOfMemory` if allocation fails.
pub fn question_of(
    alloc: Global,
    word: Option<&str>,
    number: Option<&str>,
) -> Result<Option<Question>, Denial>
    ensures some { IfOk result (IsQuestion (option_map (λ word. word.now) word.entry)
        (option_map (λ number. number.now) number.entry)) }
    ensures denied { IfErr result (IsQuestionDenial (option_map (λ word. word.now) word.entry)
        (option_map (λ number. number.now) number.entry)) }
{
    match word {
        Some(word) => match number {
            Some(number) => {
                let question = origin_of(word, number)?;
                Ok(Some(question))
            }
            None => {
                let question = object_of(alloc, word)?;
                Ok(Some(question))
            }
        },
        None => match number {
            Some(_) => Err(Denial::NoRoute),
            None => Ok(None),
        },
    }
}
