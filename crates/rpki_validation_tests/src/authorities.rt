//! The authorities of the repository, and the lists that verify what they have issued.

use crate::repository as made;
use bytes::Bytes;
use rpki::repository::x509::Time;
use rpki_cert::Cert;
use rpki_crl::Crl;
use rpki_der_tests::changed::changed;
use rpki_digests::RsaProvider;
use rpki_objects::Strictness;
use rpki_valid::{CurrentCrl, ResourceCert, Staleness, Terms};
use rpki_validation::{Stop, authority_of, cert_in};
use std::alloc::{AllocError, Global};

/// What is done to the octets of an object.
#[derive(Clone, Copy, Debug, PartialEq, Eq)]
pub enum Change {
    /// Nothing.
    None,
    /// The last is left out.
    Cut,
    /// Another one follows.
    Follow,
    /// The last is another.
    Last,
    /// These are in place of those.
    Octets(&'static str, &'static str),
}

/// The octets that the digits write, changed.
pub fn octets(alloc: Global, text: &str, change: Change) -> Result<Bytes, AllocError> {
    let (from, to) = match change {
        Change::Octets(from, to) => (from, to),
        _ => ("", ""),
    };
    let mut octets = changed(alloc, text, &[(from, to)])?.unwrap_or(Vec::new(alloc));
    match change {
        Change::Cut => {
            let _ = octets.pop();
        }
        Change::Follow => octets.push(0)?,
        Change::Last => {
            if let Some(last) = octets.pop() {
                octets.push(last ^ 1)?;
            }
        }
        _ => {}
    }
    Ok(Bytes::from_vec(octets)?)
}

/// The certificate that the digits write.
pub fn cert_of(alloc: Global, text: &str) -> Result<Cert, Stop> {
    cert_in(alloc, octets(alloc, text, Change::None)?)
}

/// The list that the digits write.
pub fn list_of(alloc: Global, text: &str) -> Result<Crl, Stop> {
    Ok(Crl::decode(alloc, octets(alloc, text, Change::None)?)?)
}

/// The key of this certificate, strictly, and so many authorities below the trust anchor.
pub fn terms_of(trusted: &Cert, deepest: u32) -> Terms<'_> {
    Terms {
        key: trusted.tbs().subject_public_key_info(),
        strictness: Strictness::all(),
        deepest,
    }
}

/// Which authority has issued an object.
#[derive(Clone, Copy, Debug, PartialEq, Eq)]
pub enum Issuer {
    /// The trust anchor.
    Anchor,
    /// The authority below it.
    Authority,
}

/// A question that is asked of an authority's list.
pub trait Ask {
    /// The answer, as text; or why there is none.
    fn answer(&self, alloc: Global, list: &CurrentCrl<'_, '_, RsaProvider>) -> Result<String, Stop>;
}

/// The answer by the list of this authority in June of 2026, where so many authorities are permitted.
pub fn asked<A: Ask>(
    alloc: Global,
    issuer: Issuer,
    deepest: u32,
    question: &A,
) -> Result<String, Stop> {
    let Some(at) = Time::utc(2026, 6, 1, 0, 0, 0) else {
        return Ok(format!(in alloc; "no such moment")?);
    };
    let trusted = cert_of(alloc, made::ANCHOR)?;
    let terms = terms_of(&trusted, deepest);
    let provider = RsaProvider;
    let anchor = cert_of(alloc, made::ANCHOR)?;
    let anchor = ResourceCert::verify_ta(alloc, anchor, &provider, terms, at)?;
    let above = list_of(alloc, made::ANCHOR_LIST)?;
    let list = anchor.crl(&above, Staleness::Refused, at)?;
    if issuer == Issuer::Anchor {
        return question.answer(alloc, &list);
    }
    let authority = authority_of(alloc, &list, cert_of(alloc, made::AUTHORITY)?)?;
    let own = list_of(alloc, made::LIST)?;
    question.answer(alloc, &authority.crl(&own, Staleness::Refused, at)?)
}

/// The answer; or why there is none.
pub fn text_of(alloc: Global, answer: Result<String, Stop>) -> Result<String, AllocError> {
    match answer {
        Ok(text) => Ok(text),
        Err(Stop::Rejected(reason)) => format!(in alloc; "{reason}"),
        Err(Stop::OutOfMemory) => format!(in alloc; "allocation failed"),
    }
}
