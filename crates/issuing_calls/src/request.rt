//! Requests for the certificates of authorities.

use crate::signing::{Told, refusal, signing_refusal};
use crate::words::{Text, bytes_of, digits, https_of, key_of, name_of, rsync_of, wanted};
use rpki::der::DecodeError;
use rpki_digests::RsaProvider;
use rpki_issue::{CsrBuilder, Repository};
use rpki_request::Csr;
use std::alloc::Global;

/// The text of an error of a reader.
fn wrong(alloc: Global, error: DecodeError) -> Text {
    match format!(in alloc; "Wrong: {error}") {
        Ok(text) => Ok(text),
        Err(_) => Err("no memory"),
    }
}

/// `REQUEST`: what a request asks for, if its own key has signed it.
pub fn asked(alloc: Global, words: &[&str]) -> Text {
    let [octets] = words else {
        return Err("usage");
    };
    let csr = match Csr::decode(alloc, bytes_of(alloc, Some(octets))?) {
        Ok(csr) => csr,
        Err(e) => return wrong(alloc, e),
    };
    if csr.verify_signature(&RsaProvider).is_err() {
        return Err("Wrong: BadSignature");
    }
    let named = if csr.subject().is_some() {
        "named"
    } else {
        "nameless"
    };
    let usage = if csr.key_usage().is_some() {
        "usage"
    } else {
        "any use"
    };
    let base = csr.ca_repository().as_str();
    let manifest = csr.rpki_manifest().as_str();
    let notification = match csr.rpki_notify() {
        Some(uri) => uri.as_str(),
        None => "_",
    };
    match format!(in alloc; "{named}, {usage}: {base} {manifest} {notification}") {
        Ok(text) => Ok(text),
        Err(_) => Err("no memory"),
    }
}

/// `KEY NAMED USAGE BASE MANIFEST NOTIFICATION SIGNATURE`: what is to be signed of a request, where the signature is
/// `_`, and else the request. It names the subject by its key unless `NAMED` is `_`, and asks for a key usage unless
/// `USAGE` is. Both ways to sign have to make the same.
pub fn requested(alloc: Global, words: &[&str]) -> Text {
    let [key, named, usage, base, manifest, notification, signature] = words else {
        return Err("usage");
    };
    let key = key_of(alloc, Some(key))?;
    let name = name_of(alloc, &key)?;
    let base = rsync_of(alloc, base)?;
    let manifest = rsync_of(alloc, manifest)?;
    let notification = https_of(alloc, Some(notification))?;
    let builder = CsrBuilder {
        subject: if *named == "_" { None } else { Some(&name) },
        key: &key,
        key_usage: *usage != "_",
        repository: Repository {
            base: wanted(&base)?,
            manifest: wanted(&manifest)?,
            notification: notification.as_ref(),
        },
    };
    let unsigned = match builder.to_sign(alloc) {
        Ok(unsigned) => unsigned,
        Err(e) => return Err(refusal(e)),
    };
    if *signature == "_" {
        return digits(alloc, unsigned.message());
    }
    let mut signer = Told {
        signature: bytes_of(alloc, Some(signature))?,
    };
    let at_once = match builder.to_sign(alloc) {
        Ok(unsigned) => unsigned.signed_with(alloc, &RsaProvider, &mut signer),
        Err(e) => return Err(refusal(e)),
    };
    match (
        unsigned.signed(alloc, &RsaProvider, signer.signature),
        at_once,
    ) {
        (Ok(made), Ok(same)) => {
            if made.as_slice() != same.as_slice() {
                return Err("differ");
            }
            digits(alloc, made.as_slice())
        }
        (Err(e), Err(_)) => Err(refusal(e)),
        (Ok(_), Err(e)) => Err(signing_refusal(e)),
        (Err(_), Ok(_)) => Err("differ"),
    }
}
