//! Paths of certificates up to a trust anchor (RFC 5280 6.1, RFC 6487 7.2).

use crate::trust::{cert, terms_of, text_of};
use bytes::Bytes;
use rpki::der::DecodeError;
use rpki::repository::error::ValidationError;
use rpki::repository::x509::Time;
use rpki_cert::{Cert, Profile};
use rpki_cert_tests::certificates::{ANCHOR, AUTHORITY, DETACHED, ROUTER, SIGNER};
use rpki_cert_tests::provider::Told;
use rpki_der_tests::changed::changed;
use rpki_der_tests::rows;
use rpki_valid::ResourceCert;
use std::alloc::Global;
use std::test::Fail;

/// A name; the certificate below the authority, octets in it and those in their place; its profile; a year; and what
/// comes of it: `valid`, or the text of the error.
type Row<'a> = (&'a str, &'a str, &'a str, &'a str, Profile, i32, &'a str);

const ROWS: &[Row<'_>] = &rows! {
    ("a signer", SIGNER, "", "", Profile::Ee, 2030, "valid"),
    ("a signer of what is in no repository", DETACHED, "", "", Profile::DetachedEe, 2030, "valid"),
    ("a router", ROUTER, "", "", Profile::Router, 2030, "valid"),
    ("a signer as a router", SIGNER, "", "", Profile::Router, 2030,
     "RFC 8608 3.1: key is no uncompressed point on P-256"),
    ("a signer in 2037", SIGNER, "", "", Profile::Ee, 2037, "RFC 6487 7.2: certificate has expired"),
    ("a signer in 2025", SIGNER, "", "", Profile::Ee, 2025, "RFC 6487 7.2: certificate is not yet valid"),
    ("another issuer", SIGNER, "060355040313026361", "060355040313026362", Profile::Ee, 2030,
     "RFC 6487 7.2: issuer name mismatch"),
    ("addresses of another", SIGNER, "0303000a01", "0303000b01", Profile::Ee, 2030,
     "RFC 6487 7.2: resources that the issuer does not have"),
    ("a number of another", ROUTER, "020300fbf0", "020300fbf1", Profile::Router, 2030,
     "RFC 6487 7.2: resources that the issuer does not have"),
};

/// The authority, below the trust anchor, in 2030.
fn authority<'p>(
    alloc: Global,
    provider: &'p Told,
    trusted: &'p Cert,
    at: Time,
) -> Result<ResourceCert<'p, Told>, ValidationError> {
    let terms = terms_of(trusted, 1);
    let anchor = ResourceCert::verify_ta(alloc, cert(alloc, ANCHOR)?, provider, terms, at)?;
    anchor.verify_ca_without_list(alloc, cert(alloc, AUTHORITY)?, at)
}

/// What is verified of a certificate of this profile below the authority.
fn verified(
    alloc: Global,
    octets: Bytes,
    profile: Profile,
    issuer: &ResourceCert<'_, Told>,
    at: Time,
) -> Result<(), ValidationError> {
    let cert = Cert::decode(alloc, octets).map_err(DecodeError::from)?;
    let _ = match profile {
        Profile::Ee => issuer.verify_ee_without_list(alloc, &cert, at)?,
        Profile::DetachedEe => issuer.verify_detached_ee_without_list(alloc, &cert, at)?,
        _ => issuer.verify_router_without_list(alloc, &cert, at)?,
    };
    Ok(())
}

#[test]
fn each_link_is_asked(rt: HostRuntime) -> Result<(), Fail> {
    let provider = Told { answer: true };
    let in_2030 = Time::utc(2030, 6, 15, 0, 0, 0).ok_or("no such moment")?;
    let trusted = cert(rt.alloc(), ANCHOR)?;
    let issuer = authority(rt.alloc(), &provider, &trusted, in_2030)?;
    for (name, text, from, to, profile, year, wanted) in ROWS {
        let at = Time::utc(*year, 6, 15, 0, 0, 0).ok_or(*name)?;
        let octets = changed(rt.alloc(), text, &[(*from, *to)])?;
        assert!(rt; octets.is_some(), "{name}: no such octets");
        let octets = octets.unwrap_or(Vec::new(rt.alloc()));
        let bytes = Bytes::copy_from_slice(rt.alloc(), octets.as_slice())?;
        let found = verified(rt.alloc(), bytes, *profile, &issuer, at);
        let told = text_of(rt.alloc(), found)?;
        assert_eq!(rt; told.as_str(), *wanted, "{name}");
    }
    Ok(())
}

/// Whether signatures are found good, a year, the certificate whose key the locator has, and what comes of verifying
/// the authority.
const AUTHORITIES: &[(bool, i32, &str, &str)] = &rows! {
    (true, 2026, ANCHOR, "valid"),
    (true, 2037, ANCHOR, "RFC 6487 7.2: certificate has expired"),
    (true, 2025, ANCHOR, "RFC 6487 7.2: certificate is not yet valid"),
    (false, 2030, ANCHOR, "RFC 6487 7.2: bad signature"),
    (true, 2030, AUTHORITY, "RFC 8630 3: key is not that of the locator"),
    (false, 2030, AUTHORITY, "RFC 6487 7.2: bad signature"),
};

#[test]
fn authorities_are_verified(rt: HostRuntime) -> Result<(), Fail> {
    for (answer, year, trusted, wanted) in AUTHORITIES {
        let at = Time::utc(*year, 6, 15, 0, 0, 0).ok_or("no such moment")?;
        let trusted = cert(rt.alloc(), trusted)?;
        let provider = Told { answer: *answer };
        let told = text_of(rt.alloc(), authority(rt.alloc(), &provider, &trusted, at))?;
        assert_eq!(rt; told.as_str(), *wanted, "{answer} {year}");
    }
    Ok(())
}

/// How deep a path may be, and what comes of the authority below the trust anchor, and its depth.
const DEPTHS: &[(u32, &str)] = &[(0, "path is too long"), (1, "1"), (4_294_967_295, "1")];

/// The depth of the authority below the trust anchor.
fn depth(alloc: Global, deepest: u32) -> Result<u32, ValidationError> {
    let provider = Told { answer: true };
    let Some(at) = Time::utc(2030, 6, 15, 0, 0, 0) else {
        return Ok(0);
    };
    let trusted = cert(alloc, ANCHOR)?;
    let terms = terms_of(&trusted, deepest);
    let anchor = ResourceCert::verify_ta(alloc, cert(alloc, ANCHOR)?, &provider, terms, at)?;
    let below = anchor.verify_ca_without_list(alloc, cert(alloc, AUTHORITY)?, at)?;
    Ok(below.depth())
}

#[test]
fn paths_have_a_bound(rt: HostRuntime) -> Result<(), Fail> {
    for (deepest, wanted) in DEPTHS {
        let told = match depth(rt.alloc(), *deepest) {
            Ok(depth) => format!(in rt.alloc(); "{depth}")?,
            Err(e) => format!(in rt.alloc(); "{e}")?,
        };
        assert_eq!(rt; told.as_str(), *wanted, "{deepest}");
    }
    Ok(())
}
