//! What is verified before it is handed out: by its certificate alone, and by an authority.

use crate::cert::{Planned, plan_of};
use crate::object::{planned_list, type_of};
use crate::signing::refusal;
use crate::words::{Text, bytes_of, digits, octets_of, time_of};
use bytes::Bytes;
use rpki::crypto::PublicKey;
use rpki::der::{Captured, Constructed, Oid};
use rpki::repository::error::ValidationError;
use rpki::repository::x509::Time;
use rpki_cert::Cert;
use rpki_checked::{
    CheckError, issue_anchor, issue_aspa, issue_authority, issue_list, issue_manifest, issue_roa,
    issue_router, sign_aspa, sign_manifest, sign_roa,
};
use rpki_crl::Crl;
use rpki_digests::RsaProvider;
use rpki_issue::UnsignedObject;
use rpki_objects::Strictness;
use rpki_valid::{CurrentCrl, ResourceCert, Staleness, Terms};
use std::alloc::Global;

/// The line of a refusal: its name, or the text of what a validator says.
fn told(alloc: Global, error: CheckError) -> Text {
    match error {
        CheckError::Refused(e) => Err(refusal(e)),
        CheckError::Invalid(e) => said(alloc, e),
    }
}

/// The text of what a validator says.
fn said(alloc: Global, error: ValidationError) -> Text {
    match format!(in alloc; "Invalid: {error}") {
        Ok(text) => Ok(text),
        Err(_) => Err("no memory"),
    }
}

/// The answer of a call.
fn answered(alloc: Global, made: Result<Captured, CheckError>) -> Text {
    match made {
        Ok(made) => digits(alloc, made.as_slice()),
        Err(e) => told(alloc, e),
    }
}

/// What the terms of all paths are here: this key, all strictness.
fn terms(key: &PublicKey) -> Terms<'_> {
    Terms {
        key,
        strictness: Strictness::all(),
        deepest: 8,
    }
}

fn cert_of(alloc: Global, text: &str) -> Result<Cert, &'static str> {
    let bytes = bytes_of(alloc, Some(text))?;
    match Cert::decode(alloc, bytes) {
        Ok(cert) => Ok(cert),
        Err(_) => Err("no certificate"),
    }
}

fn list_of(alloc: Global, text: &str) -> Result<Crl, &'static str> {
    let bytes = bytes_of(alloc, Some(text))?;
    match Crl::decode(alloc, bytes) {
        Ok(list) => Ok(list),
        Err(_) => Err("no list"),
    }
}

/// A certificate and a signature.
#[derive(Drop)]
struct Sealed {
    certificate: Captured,
    signature: Bytes,
}

fn seal_of(alloc: Global, certificate: &str, signature: &str) -> Result<Sealed, &'static str> {
    let octets = octets_of(alloc, Some(certificate))?;
    let certificate = match Constructed::from_slice(octets.as_slice()).capture_one(alloc) {
        Ok(certificate) => certificate,
        Err(_) => return Err("no value"),
    };
    let signature = bytes_of(alloc, Some(signature))?;
    Ok(Sealed {
        certificate,
        signature,
    })
}

/// `checked TYPE CONTENT TIME CERTIFICATE SIGNATURE`: the object, checked against its certificate.
pub fn checked(alloc: Global, words: &[&str]) -> Text {
    let [kind, content, time, certificate, signature] = words else {
        return Err("usage");
    };
    let id = type_of(kind)?;
    let content = octets_of(alloc, Some(content))?;
    let time = match time_of(Some(time)) {
        Ok(time) => time,
        Err(e) => return Err(e),
    };
    let Sealed {
        certificate,
        signature,
    } = seal_of(alloc, certificate, signature)?;
    let unsigned = match UnsignedObject::new(
        alloc,
        &RsaProvider,
        Oid(id),
        content.as_slice(),
        time,
    ) {
        Ok(unsigned) => unsigned,
        Err(e) => return Err(refusal(e)),
    };
    let made = match *kind {
        "roa" => sign_roa(alloc, &RsaProvider, unsigned, &certificate, signature),
        "asa" => sign_aspa(alloc, &RsaProvider, unsigned, &certificate, signature),
        _ => sign_manifest(alloc, &RsaProvider, unsigned, &certificate, signature),
    };
    answered(alloc, made)
}

/// `TYPE CONTENT TIME CERTIFICATE SIGNATURE`, by a list that counts.
fn issued_by(alloc: Global, issuer: &CurrentCrl<'_, '_, RsaProvider>, words: &[&str]) -> Text {
    let [kind, content, time, certificate, signature] = words else {
        return Err("usage");
    };
    let id = type_of(kind)?;
    let content = octets_of(alloc, Some(content))?;
    let time = match time_of(Some(time)) {
        Ok(time) => time,
        Err(e) => return Err(e),
    };
    let Sealed {
        certificate,
        signature,
    } = seal_of(alloc, certificate, signature)?;
    let unsigned = match UnsignedObject::new(
        alloc,
        &RsaProvider,
        Oid(id),
        content.as_slice(),
        time,
    ) {
        Ok(unsigned) => unsigned,
        Err(e) => return Err(refusal(e)),
    };
    let made = match *kind {
        "roa" => issue_roa(alloc, issuer, unsigned, &certificate, signature),
        "asa" => issue_aspa(alloc, issuer, unsigned, &certificate, signature),
        _ => issue_manifest(alloc, issuer, unsigned, &certificate, signature),
    };
    answered(alloc, made)
}

/// `KIND` and the words of a certificate, then its signature, by a list that counts.
fn certified_by(
    alloc: Global,
    issuer: &CurrentCrl<'_, '_, RsaProvider>,
    kind: &str,
    words: &[&str],
) -> Text {
    let [plan @ .., signature] = words else {
        return Err("usage");
    };
    let Planned {
        unsigned,
        issuer: _,
    } = plan_of(alloc, kind, plan)?;
    let signature = bytes_of(alloc, Some(signature))?;
    let made = match kind {
        "router" => match issue_router(alloc, issuer, unsigned, signature) {
            Ok((made, _)) => Ok(made),
            Err(e) => Err(e),
        },
        _ => match issue_authority(alloc, issuer, unsigned, signature) {
            Ok((made, _)) => Ok(made),
            Err(e) => Err(e),
        },
    };
    answered(alloc, made)
}

/// `NUMBER THIS NEXT SIGNATURE SERIAL@DATE..`, by an authority.
fn listed_by(
    alloc: Global,
    authority: &ResourceCert<'_, RsaProvider>,
    at: Time,
    words: &[&str],
) -> Text {
    let [number, this, next, signature, revoked @ ..] = words else {
        return Err("usage");
    };
    let key = authority.cert().tbs().subject_public_key_info();
    let unsigned = planned_list(alloc, key, &[number, this, next], revoked)?;
    let signature = bytes_of(alloc, Some(signature))?;
    match issue_list(alloc, authority, at, unsigned, signature) {
        Ok((made, _)) => digits(alloc, made.as_slice()),
        Err(e) => told(alloc, e),
    }
}

/// `issued AT KEY ANCHOR LIST ca ..` or `router ..`: a certificate; `issued AT KEY ANCHOR LIST TYPE ..`: an object.
/// `issued AT KEY ANCHOR _ ..`: a list. All by this trust anchor, of this key, and its list.
pub fn issued(alloc: Global, words: &[&str]) -> Text {
    let [at, key, anchor, list, others @ ..] = words else {
        return Err("usage");
    };
    let at = match time_of(Some(at)) {
        Ok(at) => at,
        Err(e) => return Err(e),
    };
    let key = match PublicKey::decode(alloc, bytes_of(alloc, Some(key))?) {
        Ok(key) => key,
        Err(_) => return Err("no key"),
    };
    let cert = cert_of(alloc, anchor)?;
    let authority = match ResourceCert::verify_ta(alloc, cert, &RsaProvider, terms(&key), at) {
        Ok(authority) => authority,
        Err(e) => return said(alloc, e),
    };
    if *list == "_" {
        return listed_by(alloc, &authority, at, others);
    }
    let list = list_of(alloc, list)?;
    let issuer = match authority.crl(&list, Staleness::Refused, at) {
        Ok(issuer) => issuer,
        Err(e) => return said(alloc, e),
    };
    match others {
        ["ca", plan @ ..] => certified_by(alloc, &issuer, "ca", plan),
        ["router", plan @ ..] => certified_by(alloc, &issuer, "router", plan),
        _ => issued_by(alloc, &issuer, others),
    }
}

/// `top AT` and the words of a trust anchor's certificate, then its signature.
pub fn top(alloc: Global, words: &[&str]) -> Text {
    let [at, plan @ .., signature] = words else {
        return Err("usage");
    };
    let at = match time_of(Some(at)) {
        Ok(at) => at,
        Err(e) => return Err(e),
    };
    let Planned { unsigned, issuer } = plan_of(alloc, "ta", plan)?;
    let signature = bytes_of(alloc, Some(signature))?;
    match issue_anchor(alloc, &RsaProvider, terms(&issuer), at, unsigned, signature) {
        Ok((made, _)) => digits(alloc, made.as_slice()),
        Err(e) => told(alloc, e),
    }
}
