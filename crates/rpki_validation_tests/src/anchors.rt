//! Trust anchors of locators with several URIs (RFC 8630 2.2, 3).

use crate::authorities::{cert_of, terms_of, text_of};
use crate::files::{Change, Files};
use crate::repository as made;
use rpki::repository::x509::Time;
use rpki::uri::{Https, Rsync};
use rpki_der_tests::rows;
use rpki_digests::RsaProvider;
use rpki_locator::AnchorUri;
use rpki_validation::{Stop, anchor_of};
use std::alloc::Global;
use std::test::Fail;

/// What was fetched: a trust anchor, and the same from another place; certificates that are none; and an object that is
/// no certificate.
const FETCHED: &[(&str, &str)] = &[
    ("rsync://rpki.example/repo/ta.cer", made::ANCHOR),
    ("https://rpki.example/ta.cer", made::ANCHOR),
    ("rsync://rpki.example/repo/ca.cer", made::AUTHORITY),
    ("rsync://rpki.example/repo/self.cer", made::ITSELF),
    ("rsync://rpki.example/repo/ta.crl", made::ANCHOR_LIST),
];

const BY_RSYNC: &str = "rsync://rpki.example/repo/ta.cer";

const BY_HTTPS: &str = "https://rpki.example/ta.cer";

const AUTHORITY: &str = "rsync://rpki.example/repo/ca.cer";

const ITSELF: &str = "rsync://rpki.example/repo/self.cer";

const LIST: &str = "rsync://rpki.example/repo/ta.crl";

const NOWHERE: &str = "https://rpki.example/none.cer";

/// A name; the URIs; the certificate with the key of the locator; what is done to the first of what was fetched; the
/// year; and the answer: the number of the trust anchor's steps, and the manifest that it names.
type Row<'a> = (&'a str, &'a [&'a str], &'a str, Change, i32, &'a str);

/// What `tests/validation/make` has.
const FOUND: &str = "0 down: rsync://rpki.example/repo/ta/ta.mft";

const MISSING: &str = "RFC 8630 3: no trust anchor was fetched";

const UNSIGNED: &str = "invalid: RFC 6487 7.2: bad signature";

const ROWS: &[Row<'_>] = &rows! {
    ("by rsync", &[BY_RSYNC], made::ANCHOR, Change::None, 2026, FOUND),
    ("by HTTPS", &[BY_HTTPS], made::ANCHOR, Change::None, 2026, FOUND),
    ("no URI", &[], made::ANCHOR, Change::None, 2026, MISSING),
    ("nothing there", &[NOWHERE], made::ANCHOR, Change::None, 2026, MISSING),
    ("nothing at the first", &[NOWHERE, BY_RSYNC], made::ANCHOR, Change::None, 2026, FOUND),
    ("nothing at the last", &[BY_RSYNC, NOWHERE], made::ANCHOR, Change::None, 2026, FOUND),
    ("none at the first", &[AUTHORITY, LIST, BY_HTTPS], made::ANCHOR, Change::None, 2026, FOUND),
    ("another signature at the first", &[BY_RSYNC, BY_HTTPS], made::ANCHOR, Change::LastOctet, 2026, FOUND),
    ("another signature at the last", &[NOWHERE, BY_RSYNC], made::ANCHOR, Change::LastOctet, 2026, UNSIGNED),
    ("another signature, and nothing at the last", &[BY_RSYNC, NOWHERE], made::ANCHOR, Change::LastOctet,
     2026, MISSING),
    ("a revocation list", &[LIST], made::ANCHOR, Change::None, 2026, "malformed: unexpected value"),
    ("a certificate that isn't its own issuer's", &[AUTHORITY], made::AUTHORITY, Change::None, 2026,
     "invalid: RFC 6487 4.8.6: CRL distribution points of a trust anchor"),
    ("a certificate with a list of its issuer", &[ITSELF], made::ITSELF, Change::None, 2026,
     "invalid: RFC 6487 4.8.6: CRL distribution points of a trust anchor"),
    ("the key of another locator", &[BY_RSYNC], made::AUTHORITY, Change::None, 2026,
     "invalid: RFC 8630 3: key is not that of the locator"),
    ("too early", &[BY_RSYNC], made::ANCHOR, Change::None, 2025, "invalid: RFC 6487 7.2: certificate is not yet valid"),
    ("too late", &[BY_RSYNC], made::ANCHOR, Change::None, 2037, "invalid: RFC 6487 7.2: certificate has expired"),
};

/// The URIs of these texts; None where one is none.
fn uris_of(alloc: Global, texts: &[&str]) -> Result<Option<Vec<AnchorUri>>, Stop> {
    let mut uris = Vec::new(alloc);
    for text in texts {
        if let Ok(uri) = Rsync::from_str(alloc, text) {
            uris.push(AnchorUri::Rsync(uri))?;
        } else if let Ok(uri) = Https::from_str(alloc, text) {
            uris.push(AnchorUri::Https(uri))?;
        } else {
            return Ok(None);
        }
    }
    Ok(Some(uris))
}

/// The answer of a row.
fn told(alloc: Global, row: &Row<'_>) -> Result<String, Stop> {
    let files = Files {
        objects: FETCHED,
        number: 0,
        change: row.3,
    };
    let Some(at) = Time::utc(row.4, 6, 1, 0, 0, 0) else {
        return Ok(format!(in alloc; "no such moment")?);
    };
    let trusted = cert_of(alloc, row.2)?;
    let terms = terms_of(&trusted, 8);
    let Some(uris) = uris_of(alloc, row.1)? else {
        return Ok(format!(in alloc; "no such URI")?);
    };
    let anchor = anchor_of(alloc, &files, &RsaProvider, &uris, terms, at)?;
    match anchor.cert().tbs().rpki_manifest(alloc)? {
        Some(uri) => Ok(format!(in alloc; "{} down: {uri}", anchor.depth())?),
        None => Ok(format!(in alloc; "{} down", anchor.depth())?),
    }
}

#[test]
fn the_first_trust_anchor_is_taken(rt: HostRuntime) -> Result<(), Fail> {
    for row in ROWS {
        let text = text_of(rt.alloc(), told(rt.alloc(), row))?;
        assert_eq!(rt; text.as_str(), row.5, "{}", row.0);
    }
    Ok(())
}
