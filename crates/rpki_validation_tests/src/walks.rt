//! Walks from the trust anchor of the repository down, where one file is changed.

use crate::authorities::{cert_of, terms_of};
use crate::files::{Change, Files};
use crate::repository as made;
use rpki::repository::x509::{Time, Validity};
use rpki::uri::Rsync;
use rpki_der_tests::rows;
use rpki_digests::RsaProvider;
use rpki_locator::AnchorUri;
use rpki_validation::{Outcome, Payload, Stop, validate};
use std::alloc::{AllocError, Global};
use std::test::Fail;

/// The files by their URIs, as `tests/validation/make` has them.
const FILES: &[(&str, &str)] = &[
    ("rsync://rpki.example/repo/ta/ta.cer", made::ANCHOR),
    ("rsync://rpki.example/repo/ta/ta.mft", made::ANCHOR_MANIFEST),
    ("rsync://rpki.example/repo/ta/ta.crl", made::ANCHOR_LIST),
    ("rsync://rpki.example/repo/ta/ca.cer", made::AUTHORITY),
    ("rsync://rpki.example/repo/ca/ca.mft", made::MANIFEST),
    ("rsync://rpki.example/repo/ca/ca.crl", made::LIST),
    ("rsync://rpki.example/repo/ca/roa.roa", made::ORIGINS),
    ("rsync://rpki.example/repo/ca/one.roa", made::ORIGIN),
    ("rsync://rpki.example/repo/ca/gone.roa", made::REVOKED),
    ("rsync://rpki.example/repo/ca/wide.roa", made::WIDE),
    ("rsync://rpki.example/repo/ca/aspa.asa", made::PROVIDERS),
    ("rsync://rpki.example/repo/ca/router.cer", made::ROUTER),
    ("rsync://rpki.example/repo/ca/self.cer", made::ITSELF),
    ("rsync://rpki.example/repo/ca/lost.cer", made::LOST),
];

/// All that is valid, in the order of the manifest: of the authority once, though it certifies itself.
const ALL: &str = "203.0.113.64/26-26 => 0; 10.0.0.0/8-24 => 64496; 10.64.0.0/13-13 => 64496; \
    192.0.2.0/25-25 => 64496; 2001:db8::/32-48 => 64496; AS64496: AS64499 AS64501; 1 router; ";

/// What is rejected then.
const ALWAYS: &str =
    "rsync://rpki.example/repo/ca/gone.roa: invalid: RFC 6487 7.2: revoked certificate\n\
    rsync://rpki.example/repo/ca/lost.cer: invalid: RFC 6487 7.2: revoked certificate\n\
    rsync://rpki.example/repo/ca/wide.roa: invalid: RFC 6487 7.2: resources that the issuer does not have\n";

/// A name; the number of a file, and what is done to it; the year; how many authorities are permitted below the trust
/// anchor; what is valid; and what is rejected.
type Row<'a> = (&'a str, usize, Change, i32, u32, &'a str, &'a str);

const ROWS: &[Row<'_>] = &rows! {
    ("unchanged", 0, Change::None, 2026, 8, ALL, ALWAYS),
    ("one authority below the trust anchor", 0, Change::None, 2026, 1, ALL,
     "rsync://rpki.example/repo/ca/gone.roa: invalid: RFC 6487 7.2: revoked certificate\n\
     rsync://rpki.example/repo/ca/lost.cer: invalid: path is too long\n\
     rsync://rpki.example/repo/ca/self.cer: invalid: path is too long\n\
     rsync://rpki.example/repo/ca/wide.roa: invalid: RFC 6487 7.2: resources that the issuer does not have\n"),
    ("no authority below the trust anchor", 0, Change::None, 2026, 0, "",
     "rsync://rpki.example/repo/ta/ca.cer: invalid: path is too long\n"),
    ("no trust anchor", 0, Change::Remove, 2026, 8, "RFC 8630 3: no trust anchor was fetched", ""),
    ("another trust anchor", 0, Change::Exchange(3), 2026, 8,
     "invalid: RFC 6487 4.8.6: CRL distribution points of a trust anchor", ""),
    ("no manifest of the trust anchor", 1, Change::Remove, 2026, 8, "",
     "all of rsync://rpki.example/repo/ta/ta.mft: RFC 9286 6.2: no manifest\n"),
    ("the manifest of another", 1, Change::Exchange(4), 2026, 8, "",
     "all of rsync://rpki.example/repo/ta/ta.mft: RFC 9286 6.4: no file at rsync://rpki.example/repo/ta/ca.crl\n"),
    ("no list of the authority", 5, Change::Remove, 2026, 8, "",
     "all of rsync://rpki.example/repo/ca/ca.mft: RFC 9286 6.4: no file at rsync://rpki.example/repo/ca/ca.crl\n"),
    ("the list of another", 5, Change::Exchange(2), 2026, 8, "",
     "all of rsync://rpki.example/repo/ca/ca.mft: RFC 9286 6.5: another digest at \
     rsync://rpki.example/repo/ca/ca.crl\n"),
    ("a file that isn't there", 7, Change::Remove, 2026, 8, "",
     "all of rsync://rpki.example/repo/ca/ca.mft: RFC 9286 6.4: no file at rsync://rpki.example/repo/ca/one.roa\n"),
    ("a revoked file with another digest", 8, Change::LastOctet, 2026, 8, "",
     "all of rsync://rpki.example/repo/ca/ca.mft: RFC 9286 6.5: another digest at \
     rsync://rpki.example/repo/ca/gone.roa\n"),
    ("too early", 0, Change::None, 2025, 8, "invalid: RFC 6487 7.2: certificate is not yet valid", ""),
    ("too late", 0, Change::None, 2037, 8, "invalid: RFC 6487 7.2: certificate has expired", ""),
};

/// Adds the payloads.
fn push_payloads(alloc: Global, outcome: &Outcome, text: &mut String) -> Result<(), AllocError> {
    for Payload { value: origin, .. } in &outcome.origins {
        let one = format!(in alloc; "{origin}; ")?;
        text.push_str(one.as_str())?;
    }
    for Payload { value: aspa, .. } in &outcome.providers {
        let customer = aspa.content().customer_as();
        let one = format!(in alloc; "AS{customer}:")?;
        text.push_str(one.as_str())?;
        for provider in aspa.content().providers() {
            let one = format!(in alloc; " AS{provider}")?;
            text.push_str(one.as_str())?;
        }
        text.push_str("; ")?;
    }
    let routers = outcome.routers.len();
    if routers > 0 {
        let one = format!(in alloc; "{routers} router; ")?;
        text.push_str(one.as_str())?;
    }
    Ok(())
}

/// Adds what is rejected, a line each.
fn push_rejections(alloc: Global, outcome: &Outcome, text: &mut String) -> Result<(), AllocError> {
    for rejection in &outcome.rejections {
        if rejection.is_point {
            text.push_str("all of ")?;
        }
        if let Some(uri) = &rejection.uri {
            text.push_str(uri.as_str())?;
        }
        let one = format!(in alloc; ": {}\n", rejection.reason)?;
        text.push_str(one.as_str())?;
    }
    Ok(())
}

/// The trust anchor's URI.
fn uris(alloc: Global) -> Result<Vec<AnchorUri>, AllocError> {
    let mut uris = Vec::new(alloc);
    if let Ok(uri) = Rsync::from_str(alloc, "rsync://rpki.example/repo/ta/ta.cer") {
        uris.push(AnchorUri::Rsync(uri))?;
    }
    Ok(uris)
}

/// What a row makes valid.
fn walked(alloc: Global, row: &Row<'_>) -> Result<Outcome, Stop> {
    let files = Files {
        objects: FILES,
        number: row.1,
        change: row.2,
    };
    let at = match Time::utc(row.3, 6, 1, 0, 0, 0) {
        Some(at) => at,
        None => return Err(Stop::OutOfMemory),
    };
    let trusted = cert_of(alloc, made::ANCHOR)?;
    let terms = terms_of(&trusted, row.4);
    validate(alloc, &files, &RsaProvider, &uris(alloc)?, terms, at)
}

/// What a row makes valid, and what is rejected, as texts.
fn told(alloc: Global, row: &Row<'_>) -> Result<(String, String), AllocError> {
    let mut valid = String::new(alloc);
    let mut rejected = String::new(alloc);
    match walked(alloc, row) {
        Ok(outcome) => {
            push_payloads(alloc, &outcome, &mut valid)?;
            push_rejections(alloc, &outcome, &mut rejected)?;
        }
        Err(Stop::Rejected(reason)) => valid = format!(in alloc; "{reason}")?,
        Err(Stop::OutOfMemory) => valid.push_str("allocation failed")?,
    }
    Ok((valid, rejected))
}

#[test]
fn walks_find_what_is_valid(rt: HostRuntime) -> Result<(), Fail> {
    for row in ROWS {
        let (valid, rejected) = told(rt.alloc(), row)?;
        assert_eq!(rt; valid.as_str(), row.5, "{}", row.0);
        assert_eq!(rt; rejected.as_str(), row.6, "{}", row.0);
    }
    Ok(())
}

/// Whether the period is that of all certificates and lists of `tests/validation/make`.
fn is_whole(period: Validity) -> bool {
    Some(period.not_before()) == Time::utc(2026, 1, 1, 0, 0, 0)
        && Some(period.not_after()) == Time::utc(2036, 1, 1, 0, 0, 0)
}

/// How many payloads there are, and whether each holds in that period.
fn held(outcome: &Outcome) -> (usize, bool) {
    let mut are_whole = true;
    for Payload { period, .. } in &outcome.origins {
        are_whole = are_whole && is_whole(*period);
    }
    for Payload { period, .. } in &outcome.providers {
        are_whole = are_whole && is_whole(*period);
    }
    for Payload { period, .. } in &outcome.routers {
        are_whole = are_whole && is_whole(*period);
    }
    let count = outcome.origins.len() + outcome.providers.len() + outcome.routers.len();
    (count, are_whole)
}

#[test]
fn payloads_hold_while_their_path_does(rt: HostRuntime) -> Result<(), Fail> {
    let mut seen = (0, false);
    if let Some(row) = ROWS.first() {
        if let Ok(outcome) = walked(rt.alloc(), row) {
            seen = held(&outcome);
        }
    }
    assert_eq!(rt; seen, (7, true));
    Ok(())
}
