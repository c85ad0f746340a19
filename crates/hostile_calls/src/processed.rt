//! Calls on signed objects of one type, by the revocation list of the authority that issued them.

use crate::provider::Stamps;
use crate::refusal::{Failure, Refusal};
use crate::report::Report;
use crate::trust::terms_of;
use bytes::Bytes;
use rpki::repository::error::ValidationError;
use rpki::repository::x509::Time;
use rpki_cert::Cert;
use rpki_crl::Crl;
use rpki_der::{Constructed, DecodeError};
use rpki_objects::{Aspa, Manifest, Roa, Strictness};
use rpki_valid::{CurrentCrl, ResourceCert, ResourceSet, Staleness};
use std::alloc::Global;
use std::io;

/// The certificate at the front.
fn cert_at(alloc: Global, cursor: &mut Constructed<'_>) -> Result<Cert, Failure> {
    match Cert::take_from(alloc, cursor) {
        Ok(cert) => Ok(cert),
        Err(wrong) => Err(Failure::from(Refusal::from(wrong.error))),
    }
}

/// What comes of the object of this type that the octets are.
fn processed(
    alloc: Global,
    kind: &str,
    octets: Bytes,
    current: &CurrentCrl<'_, '_, Stamps>,
) -> Result<Result<ResourceSet, ValidationError>, Failure> {
    match kind {
        "manifest" => {
            let manifest = Manifest::decode(alloc, octets, true)?;
            Ok(current.process_manifest(alloc, &manifest))
        }
        "roa" => {
            let roa = Roa::decode(alloc, octets, Strictness::all())?;
            Ok(current.process_roa(alloc, &roa))
        }
        "aspa" => {
            let aspa = Aspa::decode(alloc, octets, true)?;
            Ok(current.process_aspa(alloc, &aspa))
        }
        _ => Err(Failure::Usage),
    }
}

/// How many blocks of each kind the object's certificate has; or the error.
fn tell_processed(report: Report, found: Result<ResourceSet, ValidationError>) -> io::Result<()> {
    match found {
        Ok(held) => {
            report.number("ipv4", held.ipv4.as_slice().len() as u64)?;
            report.number("ipv6", held.ipv6.as_slice().len() as u64)?;
            report.number("asn", held.asn.as_slice().len() as u64)
        }
        Err(ValidationError::Decoding(DecodeError::OutOfMemory)) => report.words("out of memory"),
        Err(e) => report.shown("process", &e),
    }
}

/// Tells what comes of the object of this type that follows a trust anchor and its list, at this moment.
pub fn tell(
    alloc: Global,
    report: Report,
    (kind, moment): (&str, &str),
    octets: Vec<u8>,
) -> Result<(), Failure> {
    let Ok(at) = moment.parse::<Time>() else {
        return Err(Failure::Usage);
    };
    let mut cursor = Constructed::from_slice(octets.as_slice());
    let trusted = cert_at(alloc, &mut Constructed::from_slice(octets.as_slice()))?;
    let anchor = cert_at(alloc, &mut cursor)?;
    let list = Crl::take_from(alloc, &mut cursor)?;
    let object = Bytes::copy_from_slice(alloc, cursor.rest())?;
    match ResourceCert::verify_ta(alloc, anchor, &Stamps, terms_of(&trusted), at) {
        Ok(issuer) => match issuer.crl(&list, Staleness::Refused, at) {
            Ok(current) => tell_processed(report, processed(alloc, kind, object, &current)?)?,
            Err(e) => report.shown("list", &e)?,
        },
        Err(ValidationError::Decoding(DecodeError::OutOfMemory)) => {
            report.words("out of memory")?;
        }
        Err(e) => report.shown("verify_ta", &e)?,
    }
    Ok(())
}
