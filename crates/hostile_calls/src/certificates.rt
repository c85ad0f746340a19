//! Calls on resource certificates.

use crate::provider::Stamps;
use crate::refusal::{Failure, Refusal};
use crate::report::Report;
use crate::trust::terms_of;
use bytes::Bytes;
use rpki::repository::error::ValidationError;
use rpki::repository::x509::Time;
use rpki_cert::{Cert, KeyUsage, Overclaim, TbsCert};
use rpki_der::{Constructed, DecodeError};
use rpki_valid::{ResourceCert, ResourceSet, verify_issued};
use std::alloc::Global;
use std::{fmt, io};

/// The line of a value that may be there, or of the error.
fn tell_part<T: fmt::Display + Drop>(
    report: Report,
    word: &str,
    part: Result<Option<T>, ValidationError>,
) -> io::Result<()> {
    match part {
        Ok(Some(value)) => report.shown(word, &value),
        Ok(None) => report.shown(word, &"none"),
        Err(e) => tell_error(report, word, e),
    }
}

/// The line of an error.
fn tell_error(report: Report, word: &str, error: ValidationError) -> io::Result<()> {
    match error {
        ValidationError::Decoding(DecodeError::OutOfMemory) => report.words("out of memory"),
        e => report.shown(word, &e),
    }
}

/// The line of a test.
fn tell_test(report: Report, word: &str, test: Result<(), ValidationError>) -> io::Result<()> {
    match test {
        Ok(()) => report.shown(word, &"ok"),
        Err(e) => tell_error(report, word, e),
    }
}

/// Whether it is a certification authority's, as a part.
fn constraints_part(tbs: &TbsCert) -> Result<Option<bool>, ValidationError> {
    Ok(Some(tbs.basic_ca()?))
}

/// Whether the key usage is that of a certification authority.
fn usage_part(tbs: &TbsCert) -> Result<Option<bool>, ValidationError> {
    match tbs.key_usage()? {
        Some(KeyUsage::Ca) => Ok(Some(true)),
        Some(KeyUsage::Ee) => Ok(Some(false)),
        None => Ok(None),
    }
}

/// Whether resources that the issuer has not are trimmed.
fn overclaim_part(tbs: &TbsCert) -> Result<Option<bool>, ValidationError> {
    match tbs.overclaim()? {
        Some(Overclaim::Trim) => Ok(Some(true)),
        Some(Overclaim::Refuse) => Ok(Some(false)),
        None => Ok(None),
    }
}

/// How many extensions there are.
fn tell_count(report: Report, tbs: &TbsCert) -> io::Result<()> {
    report.number("extensions", tbs.extensions().len() as u64)
}

/// The line of the subject key identifier.
fn tell_subject_key(report: Report, tbs: &TbsCert) -> io::Result<()> {
    match tbs.subject_key_identifier() {
        Ok(Some(found)) => report.shown("subject_key_identifier", &found),
        Ok(None) => report.shown("subject_key_identifier", &"none"),
        Err(e) => tell_error(report, "subject_key_identifier", e),
    }
}

/// The line of the authority key identifier.
fn tell_authority_key(report: Report, tbs: &TbsCert) -> io::Result<()> {
    match tbs.authority_key_identifier() {
        Ok(Some(found)) => report.shown("authority_key_identifier", &found),
        Ok(None) => report.shown("authority_key_identifier", &"none"),
        Err(e) => tell_error(report, "authority_key_identifier", e),
    }
}

/// Lines of the other extensions that allocate nothing.
fn tell_flags(report: Report, tbs: &TbsCert) -> io::Result<()> {
    tell_part(report, "basic_ca", constraints_part(tbs))?;
    tell_part(report, "key_usage_of_ca", usage_part(tbs))?;
    tell_part(report, "overclaim_trims", overclaim_part(tbs))
}

/// Lines of the others.
fn tell_located(alloc: Global, report: Report, tbs: &TbsCert) -> io::Result<()> {
    tell_part(report, "extended_key_usage", tbs.extended_key_usage())?;
    tell_part(report, "crl_uri", tbs.crl_uri(alloc))?;
    tell_part(report, "ca_issuer", tbs.ca_issuer(alloc))?;
    tell_part(report, "ca_repository", tbs.ca_repository(alloc))?;
    tell_part(report, "rpki_manifest", tbs.rpki_manifest(alloc))?;
    tell_part(report, "signed_object", tbs.signed_object(alloc))?;
    tell_part(report, "rpki_notify", tbs.rpki_notify(alloc))
}

/// Lines of the inspections.
fn tell_inspections(report: Report, tbs: &TbsCert) -> io::Result<()> {
    tell_test(report, "inspect_ta", tbs.inspect_ta(true))?;
    tell_test(report, "inspect_ca", tbs.inspect_ca(true))?;
    tell_test(report, "inspect_ee", tbs.inspect_ee(true))?;
    tell_test(report, "inspect_detached_ee", tbs.inspect_detached_ee(true))?;
    tell_test(report, "inspect_router", tbs.inspect_router(true))
}

/// The certificate that the octets are, and what it says.
fn tell_read(alloc: Global, report: Report, octets: Vec<u8>) -> Result<(), Failure> {
    match Cert::decode(alloc, Bytes::from_vec(octets)?) {
        Ok(cert) => {
            let tbs = cert.tbs();
            tell_count(report, tbs)?;
            tell_subject_key(report, tbs)?;
            tell_authority_key(report, tbs)?;
            tell_flags(report, tbs)?;
            tell_located(alloc, report, tbs)?;
            tell_inspections(report, tbs)?;
        }
        Err(wrong) => match wrong.error {
            DecodeError::OutOfMemory => report.words("out of memory")?,
            e => report.shown("rejected", &e)?,
        },
    }
    Ok(())
}

/// The first of the remaining certificates.
fn next(alloc: Global, cursor: &mut Constructed<'_>) -> Result<Cert, Refusal> {
    match Cert::take_from(alloc, cursor) {
        Ok(cert) => Ok(cert),
        Err(wrong) => Err(Refusal::from(wrong.error)),
    }
}

/// Whether the certificate is one of a certification authority.
fn is_authority(cert: &Cert) -> bool {
    match cert.tbs().basic_ca() {
        Ok(authority) => authority,
        Err(_) => false,
    }
}

/// Whether resources were settled, without them.
fn tested(found: Result<ResourceSet, ValidationError>) -> Result<(), ValidationError> {
    match found {
        Ok(_) => Ok(()),
        Err(e) => Err(e),
    }
}

/// Whether the authority has issued the certificate, of a router where the key is one of a router's, else of an end
/// entity.
fn tell_end(
    alloc: Global,
    report: Report,
    cert: &Cert,
    issuer: &ResourceCert<'_, Stamps>,
    at: Time,
) -> io::Result<()> {
    if cert.tbs().subject_public_key_info().allow_router_cert() {
        return tell_test(
            report,
            "verify_router",
            tested(issuer.verify_router_without_list(alloc, cert, at)),
        );
    }
    tell_test(
        report,
        "verify_ee",
        tested(issuer.verify_ee_without_list(alloc, cert, at)),
    )
}

/// Whether each of the remaining certificates is issued by the authority before it, which is verified at this
/// moment: as an authority, until one is not, as a router or as an end entity.
fn tell_path(
    alloc: Global,
    report: Report,
    anchor: ResourceCert<'_, Stamps>,
    cursor: &mut Constructed<'_>,
    at: Time,
) -> Result<(), Failure> {
    let mut issuer = anchor;
    for _ in 0..cursor.rest().len() {
        if cursor.is_empty() {
            break;
        }
        let cert = next(alloc, cursor)?;
        tell_test(
            report,
            "verify_issued",
            verify_issued(&cert, &Stamps, issuer.cert().tbs(), at),
        )?;
        if !is_authority(&cert) {
            tell_end(alloc, report, &cert, &issuer, at)?;
            continue;
        }
        match issuer.verify_ca_without_list(alloc, cert, at) {
            Ok(authority) => {
                report.shown("verify_ca", &"ok")?;
                issuer = authority;
            }
            Err(e) => {
                tell_error(report, "verify_ca", e)?;
                break;
            }
        }
    }
    Ok(())
}

/// Whether the first certificate is a trust anchor at this moment, and then whether the others are verified by it.
fn tell_chain(alloc: Global, report: Report, moment: &str, octets: Vec<u8>) -> Result<(), Failure> {
    let Ok(at) = moment.parse::<Time>() else {
        return Err(Failure::Usage);
    };
    let source = Bytes::from_vec(octets)?;
    let mut cursor = Constructed::new(&source);
    let trusted = next(alloc, &mut Constructed::new(&source))?;
    let anchor = next(alloc, &mut cursor)?;
    match ResourceCert::verify_ta(alloc, anchor, &Stamps, terms_of(&trusted), at) {
        Ok(anchor) => {
            report.shown("verify_ta", &"ok")?;
            tell_path(alloc, report, anchor, &mut cursor, at)
        }
        Err(e) => {
            tell_error(report, "verify_ta", e)?;
            Ok(())
        }
    }
}

/// Reports on a certificate, or on a chain of them at a moment.
pub fn tell(
    alloc: Global,
    report: Report,
    (call, moment): (&str, &str),
    octets: Vec<u8>,
) -> Result<(), Failure> {
    match call {
        "read" => tell_read(alloc, report, octets),
        "chain" => tell_chain(alloc, report, moment, octets),
        _ => Err(Failure::Usage),
    }
}
