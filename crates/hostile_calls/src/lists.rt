//! Calls on revocation lists.

use crate::provider::Stamps;
use crate::refusal::{Failure, Refusal};
use crate::report::Report;
use crate::trust::terms_of;
use bytes::Bytes;
use rpki::repository::x509::{Serial, Time};
use rpki_cert::Cert;
use rpki_crl::{Crl, TbsCertList};
use rpki_der::{Constructed, DecodeError};
use rpki_valid::{ResourceCert, Staleness};
use std::alloc::Global;
use std::io;

/// The line of a time after 1970, in seconds since then.
fn tell_time(report: Report, word: &str, time: Time) -> io::Result<()> {
    report.number(word, time.to_binary_time() as u64)
}

/// The lines of what a list says.
fn tell_parts(report: Report, list: &Crl) -> io::Result<()> {
    report.values("issuer", &list.issuer().encode_ref())?;
    tell_time(report, "this_update", list.this_update())?;
    tell_time(report, "next_update", list.next_update())?;
    report.shown("authority_key_identifier", &list.authority_key_identifier())?;
    report.octets("crl_number", &list.crl_number().into_array())
}

/// The lines of the entries.
fn tell_entries(report: Report, list: &Crl) -> io::Result<()> {
    for entry in list.revoked_certs() {
        report.octets("revoked", &entry.user_certificate.into_array())?;
        tell_time(report, "at", entry.revocation_date)?;
    }
    Ok(())
}

/// The lines of the serial numbers that are asked for, parted by commas: whether each is on the list.
fn tell_asked(report: Report, list: &Crl, asked: &str) -> Result<(), Failure> {
    for text in asked.split(",") {
        match text.parse::<Serial>() {
            Ok(serial) => report.shown("contains", &list.contains(serial))?,
            Err(_) => return Err(Failure::Usage),
        }
    }
    Ok(())
}

/// How many of the serial numbers below this one the list has, once they are kept as a set.
fn tell_kept(alloc: Global, report: Report, list: &mut Crl, below: &str) -> Result<(), Failure> {
    let Ok(below) = below.parse::<u64>() else {
        return Err(Failure::Usage);
    };
    list.cache_serials(alloc)?;
    let mut found = 0;
    for number in 0..below {
        if list.contains(Serial::from(number)) {
            found += 1;
        }
    }
    report.number("size", found)?;
    Ok(())
}

/// Whether the trust anchor in front of a list has issued it, at this moment, and whether it is stale then.
fn tell_issued(
    alloc: Global,
    report: Report,
    moment: &str,
    octets: Vec<u8>,
) -> Result<(), Failure> {
    let Ok(at) = moment.parse::<Time>() else {
        return Err(Failure::Usage);
    };
    let mut cursor = Constructed::from_slice(octets.as_slice());
    let trusted = match Cert::take_from(alloc, &mut Constructed::from_slice(octets.as_slice())) {
        Ok(trusted) => trusted,
        Err(wrong) => return Err(Failure::from(Refusal::from(wrong.error))),
    };
    let anchor = match Cert::take_from(alloc, &mut cursor) {
        Ok(anchor) => anchor,
        Err(wrong) => return Err(Failure::from(Refusal::from(wrong.error))),
    };
    let list = Crl::take_from(alloc, &mut cursor)?;
    match ResourceCert::verify_ta(alloc, anchor, &Stamps, terms_of(&trusted), at) {
        Ok(issuer) => match issuer.crl(&list, Staleness::Accepted, at) {
            Ok(_) => report.shown("stale", &list.is_stale(at))?,
            Err(e) => report.shown("verify", &e)?,
        },
        Err(e) => report.shown("verify_ta", &e)?,
    }
    Ok(())
}

/// What is signed of a list, as it is written.
fn tell_written(alloc: Global, report: Report, list: &Crl) -> Result<(), Failure> {
    let mut signed = list.signed_data().data().cursor();
    let tbs = TbsCertList::take_from(alloc, &mut signed)?;
    report.values("written", &tbs.encode_ref())?;
    Ok(())
}

/// Tells of the list that the octets are.
pub fn tell(
    alloc: Global,
    report: Report,
    (call, asked): (&str, &str),
    octets: Vec<u8>,
) -> Result<(), Failure> {
    if call == "issued" {
        return tell_issued(alloc, report, asked, octets);
    }
    match (call, Crl::decode(alloc, Bytes::from_vec(octets)?)) {
        ("read", Ok(list)) => {
            tell_parts(report, &list)?;
            tell_entries(report, &list)?;
        }
        ("written", Ok(list)) => tell_written(alloc, report, &list)?,
        ("contains", Ok(mut list)) => {
            tell_asked(report, &list, asked)?;
            list.cache_serials(alloc)?;
            tell_asked(report, &list, asked)?;
        }
        ("kept", Ok(mut list)) => tell_kept(alloc, report, &mut list, asked)?,
        ("read", Err(DecodeError::OutOfMemory)) => report.words("out of memory")?,
        ("read", Err(e)) => report.shown("rejected", &e)?,
        _ => return Err(Failure::Usage),
    }
    Ok(())
}
