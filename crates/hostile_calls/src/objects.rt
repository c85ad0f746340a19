//! Calls on signed objects.

use crate::provider::Stamps;
use crate::refusal::{Failure, Refusal};
use crate::report::Report;
use crate::trust::terms_of;
use bytes::Bytes;
use rpki::repository::x509::Time;
use rpki_cert::Cert;
use rpki_crl::Crl;
use rpki_der::{Constructed, DecodeError};
use rpki_objects::SignedObject;
use rpki_valid::ResourceCert;
use std::alloc::Global;
use std::io;

/// The lines of what an object says.
fn tell_parts(report: Report, object: &SignedObject) -> io::Result<()> {
    report.octets("content_type", object.content_type().0.as_slice())?;
    report.octets("content", object.content().as_slice())?;
    report.octets(
        "certificate",
        &object.cert().tbs().serial_number().into_array(),
    )?;
    report.shown("signer", &object.signer_identifier())?;
    report.octets(
        "signed_content_type",
        object.signed_content_type().0.as_slice(),
    )?;
    report.octets("message_digest", object.message_digest().as_slice())?;
    if let Some(time) = object.signing_time() {
        report.number("signing_time", time.to_binary_time() as u64)?;
    }
    if let Some(seconds) = object.binary_signing_time() {
        report.number("binary_signing_time", seconds)?;
    }
    report.octets("message", object.message().as_slice())?;
    report.octets("signature", object.signature().value().as_slice())
}

/// Whether the object that follows a trust anchor is valid at this moment under it, and whether the list that follows,
/// if one does, has its certificate.
fn tell_valid(alloc: Global, report: Report, moment: &str, octets: Vec<u8>) -> Result<(), Failure> {
    let Ok(at) = moment.parse::<Time>() else {
        return Err(Failure::Usage);
    };
    let mut cursor = Constructed::from_slice(octets.as_slice());
    let trusted = match Cert::take_from(alloc, &mut Constructed::from_slice(octets.as_slice())) {
        Ok(trusted) => trusted,
        Err(wrong) => return Err(Failure::from(Refusal::from(wrong.error))),
    };
    let anchor = match Cert::take_from(alloc, &mut cursor) {
        Ok(anchor) => anchor,
        Err(wrong) => return Err(Failure::from(Refusal::from(wrong.error))),
    };
    let object = SignedObject::take_from(alloc, false, &mut cursor)?;
    match ResourceCert::verify_ta(alloc, anchor, &Stamps, terms_of(&trusted), at) {
        Ok(issuer) => match issuer.verify_object_without_list(alloc, &object, at) {
            Ok(_) => report.words("valid")?,
            Err(e) => report.shown("verify", &e)?,
        },
        Err(e) => report.shown("verify_ta", &e)?,
    }
    if cursor.is_empty() {
        return Ok(());
    }
    let list = Crl::take_from(alloc, &mut cursor)?;
    report.shown(
        "revoked",
        &list.contains(object.cert().tbs().serial_number()),
    )?;
    Ok(())
}

/// Tells of the object that the octets are.
pub fn tell(
    alloc: Global,
    report: Report,
    (call, asked): (&str, &str),
    octets: Vec<u8>,
) -> Result<(), Failure> {
    if call == "valid" {
        return tell_valid(alloc, report, asked, octets);
    }
    let strict = call == "strict";
    match (
        call,
        SignedObject::decode(alloc, Bytes::from_vec(octets)?, strict),
    ) {
        ("read" | "strict", Ok(object)) => tell_parts(report, &object)?,
        ("read" | "strict", Err(DecodeError::OutOfMemory)) => report.words("out of memory")?,
        ("read" | "strict", Err(e)) => report.shown("rejected", &e)?,
        _ => return Err(Failure::Usage),
    }
    Ok(())
}
