//! Certificates checked against the revocation lists of their issuers (RFC 5280 6.3.3, RFC 6487 7.2).

use crate::by_size::BySize;
use crate::lists;
use crate::trust::{cert, list, terms_of, text_of};
use rpki::repository::error::ValidationError;
use rpki::repository::x509::Time;
use rpki_cert::{Cert, Profile};
use rpki_cert_tests::certificates::{ANCHOR, AUTHORITY, DETACHED, ROUTER, SIGNER};
use rpki_der_tests::rows;
use rpki_valid::{CurrentCrl, ResourceCert, Staleness};
use std::alloc::Global;
use std::test::Fail;

/// A name; the list of the trust anchor; the month of 2030, in whose middle it is; whether stale lists count; and what
/// comes of the authority: `valid`, or the text of the error.
type Row = (&'static str, &'static str, u32, Staleness, &'static str);

const ROWS: &[Row] = &rows! {
    ("not on the list", lists::EMPTY, 6, Staleness::Refused, "valid"),
    ("on the list", lists::WITH_AUTHORITY, 6, Staleness::Refused, "RFC 6487 7.2: revoked certificate"),
    ("on a stale list", lists::WITH_AUTHORITY, 7, Staleness::Accepted, "RFC 6487 7.2: revoked certificate"),
    ("a list of another authority", lists::BELOW, 6, Staleness::Refused, "RFC 5280 6.3.3: issuer name mismatch"),
    ("a list with the right name and another key", lists::OF_ANOTHER_KEY, 6, Staleness::Refused,
     "RFC 5280 6.3.3: authority key identifier mismatch"),
    ("a list that is not signed", lists::UNSIGNED, 6, Staleness::Refused, "RFC 5280 6.3.3: bad signature"),
    ("a list of the future", lists::EMPTY, 5, Staleness::Accepted, "RFC 5280 6.3.3: issued later"),
    ("a stale list", lists::EMPTY, 7, Staleness::Refused, "RFC 5280 6.3.3: stale list"),
    ("a stale list where it counts", lists::EMPTY, 7, Staleness::Accepted, "valid"),
};

/// A name; the list of the authority; what it has issued, and its profile; and what comes of it in June.
type Below<'a> = (&'a str, &'a str, &'a str, Profile, &'a str);

const BELOW: &[Below<'_>] = &rows! {
    ("a signer", lists::BELOW, SIGNER, Profile::Ee, "valid"),
    ("a signer on the list", lists::WITH_SIGNER, SIGNER, Profile::Ee, "RFC 6487 7.2: revoked certificate"),
    ("a router", lists::BELOW, ROUTER, Profile::Router, "valid"),
    ("a router on the list", lists::WITH_ROUTER, ROUTER, Profile::Router, "RFC 6487 7.2: revoked certificate"),
    ("a router, the signer on the list", lists::WITH_SIGNER, ROUTER, Profile::Router, "valid"),
    ("a signer of what is in no repository", lists::BELOW, DETACHED, Profile::DetachedEe, "valid"),
    ("the same on the list", lists::WITH_DETACHED, DETACHED, Profile::DetachedEe, "RFC 6487 7.2: revoked certificate"),
    ("a router on the list, as a signer", lists::WITH_ROUTER, ROUTER, Profile::Ee,
     "RFC 7935 3: key is no RSA key of 2048 bits and the exponent 65537"),
};

/// The authority below the trust anchor, by this list of that.
fn authority<'p>(
    alloc: Global,
    (provider, trusted): (&'p BySize, &'p Cert),
    text: &str,
    staleness: Staleness,
    at: Time,
) -> Result<ResourceCert<'p, BySize>, ValidationError> {
    let terms = terms_of(trusted, 1);
    let anchor = ResourceCert::verify_ta(alloc, cert(alloc, ANCHOR)?, provider, terms, at)?;
    let list = list(alloc, text)?;
    let current = anchor.crl(&list, staleness, at)?;
    current.verify_ca(alloc, cert(alloc, AUTHORITY)?)
}

/// What is verified of a certificate of this profile.
fn held(
    alloc: Global,
    current: &CurrentCrl<'_, '_, BySize>,
    cert: &Cert,
    profile: Profile,
) -> Result<(), ValidationError> {
    let _ = match profile {
        Profile::Ee => current.verify_ee(alloc, cert)?,
        Profile::DetachedEe => current.verify_detached_ee(alloc, cert)?,
        _ => current.verify_router(alloc, cert)?,
    };
    Ok(())
}

#[test]
fn authorities_are_held_to_lists(rt: HostRuntime) -> Result<(), Fail> {
    let trusted = cert(rt.alloc(), ANCHOR)?;
    for (name, list, month, staleness, wanted) in ROWS {
        let at = Time::utc(2030, *month, 15, 0, 0, 0).ok_or(*name)?;
        let found = authority(rt.alloc(), (&BySize, &trusted), list, *staleness, at);
        let told = text_of(rt.alloc(), found)?;
        assert_eq!(rt; told.as_str(), *wanted, "{name}");
    }
    Ok(())
}

#[test]
fn others_are_held_to_lists(rt: HostRuntime) -> Result<(), Fail> {
    let at = Time::utc(2030, 6, 15, 0, 0, 0).ok_or("no such moment")?;
    let trusted = cert(rt.alloc(), ANCHOR)?;
    let trust = (&BySize, &trusted);
    let issuer = authority(rt.alloc(), trust, lists::EMPTY, Staleness::Refused, at)?;
    for (name, text, issued, profile, wanted) in BELOW {
        let list = list(rt.alloc(), text)?;
        let issued = cert(rt.alloc(), issued)?;
        match issuer.crl(&list, Staleness::Refused, at) {
            Ok(current) => {
                let told = text_of(rt.alloc(), held(rt.alloc(), &current, &issued, *profile))?;
                let revoked = current.is_revoked(&issued);
                assert_eq!(rt; told.as_str(), *wanted, "{name}");
                assert_eq!(rt; revoked, *wanted != "valid", "{name}, revoked");
            }
            Err(e) => assert!(rt; false, "{name}: {e}"),
        }
    }
    Ok(())
}

/// Whether the authority has the identifier of its key that its certificate has, and resources that are equal to
/// themselves, and not to those of the trust anchor.
fn is_itself(alloc: Global, at: Time) -> Result<bool, ValidationError> {
    let trusted = cert(alloc, ANCHOR)?;
    let terms = terms_of(&trusted, 1);
    let anchor = ResourceCert::verify_ta(alloc, cert(alloc, ANCHOR)?, &BySize, terms, at)?;
    let trust = (&BySize, &trusted);
    let authority = authority(alloc, trust, lists::EMPTY, Staleness::Refused, at)?;
    let identifier = authority.cert().tbs().subject_key_identifier()?;
    Ok(
        Some(authority.key_identifier()) == identifier
            && *authority.resources() == *authority.resources()
            && *authority.resources() != *anchor.resources(),
    )
}

#[test]
fn authorities_are_told_apart(rt: HostRuntime) -> Result<(), Fail> {
    let at = Time::utc(2030, 6, 15, 0, 0, 0).ok_or("no such moment")?;
    match is_itself(rt.alloc(), at) {
        Ok(found) => assert!(rt; found),
        Err(e) => assert!(rt; false, "{e}"),
    }
    Ok(())
}

/// The year and month in whose middle the authority was verified by a list of June of 2030, whether stale lists count,
/// the middle of another month, and whether its path holds then.
const PERIODS: &[(u32, Staleness, (i32, u32), bool)] = &[
    (6, Staleness::Refused, (2030, 6), true),
    (6, Staleness::Refused, (2030, 7), false),
    (6, Staleness::Refused, (2030, 5), false),
    (7, Staleness::Accepted, (2030, 7), true),
    (7, Staleness::Accepted, (2030, 5), false),
    (7, Staleness::Accepted, (2037, 7), false),
];

/// Whether the path holds at the moment.
fn holds(
    alloc: Global,
    month: u32,
    staleness: Staleness,
    (year, other): (i32, u32),
) -> Result<bool, ValidationError> {
    let trusted = cert(alloc, ANCHOR)?;
    let moments = (
        Time::utc(2030, month, 15, 0, 0, 0),
        Time::utc(year, other, 15, 0, 0, 0),
    );
    let (Some(at), Some(other)) = moments else {
        return Ok(false);
    };
    let authority = authority(alloc, (&BySize, &trusted), lists::EMPTY, staleness, at)?;
    Ok(authority.period().verify_at(other).is_ok() && authority.asked() == Some(staleness))
}

#[test]
fn periods_end_with_the_list(rt: HostRuntime) -> Result<(), Fail> {
    for (month, staleness, other, wanted) in PERIODS {
        match holds(rt.alloc(), *month, *staleness, *other) {
            Ok(found) => assert_eq!(rt; found, *wanted, "{month} {}", other.1),
            Err(e) => assert!(rt; false, "{month} {}: {e}", other.1),
        }
    }
    Ok(())
}
