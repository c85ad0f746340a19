//! Certificates.

use crate::signing::refusal;
use crate::words::{
    Text, bytes_of, digits, held_of, https_of, key_of, name_of, period_of, rsync_of, serial_of,
    wanted,
};
use rpki::crypto::PublicKey;
use rpki_digests::{Digests, RsaProvider};
use rpki_issue::{CertExtensions, CertKind, Issuance, Repository, TbsCertBuilder, UnsignedCert};
use std::alloc::Global;

/// What is to be signed of a certificate, and the issuer's key.
#[derive(Drop)]
pub struct Planned {
    pub unsigned: UnsignedCert,
    pub issuer: PublicKey,
}

/// `SERIAL FROM TO SUBJECT ISSUER LIST CERTIFICATE BASE MANIFEST NOTIFICATION PRACTICES V4 V6 AS`, of this kind.
pub fn plan_of(alloc: Global, kind: &str, words: &[&str]) -> Result<Planned, &'static str> {
    let [
        serial,
        from,
        to,
        subject,
        issuer,
        list,
        certificate,
        base,
        manifest,
        notification,
        practices,
        v4,
        v6,
        asn,
    ] = words
    else {
        return Err("usage");
    };
    let subject = key_of(alloc, Some(subject))?;
    let issuer = key_of(alloc, Some(issuer))?;
    let list = rsync_of(alloc, list)?;
    let certificate = rsync_of(alloc, certificate)?;
    let base = rsync_of(alloc, base)?;
    let manifest = rsync_of(alloc, manifest)?;
    let notification = https_of(alloc, Some(notification))?;
    let practices = https_of(alloc, Some(practices))?;
    let held = held_of(alloc, Some(v4), Some(v6), Some(asn))?;
    let subject_name = name_of(alloc, &subject)?;
    let issuer_name = name_of(alloc, &issuer)?;
    let serial_number = match serial_of(Some(serial)) {
        Ok(serial) => serial,
        Err(e) => return Err(e),
    };
    let validity = match period_of(Some(from), Some(to)) {
        Ok(period) => period,
        Err(e) => return Err(e),
    };
    let builder = TbsCertBuilder {
        serial_number,
        issuer: &issuer_name,
        validity,
        subject: &subject_name,
        key: &subject,
    };
    let key = issuer.key_identifier(&Digests);
    let kind = match kind {
        "ta" => CertKind::Anchor(Repository {
            base: wanted(&base)?,
            manifest: wanted(&manifest)?,
            notification: notification.as_ref(),
        }),
        "ca" => CertKind::Authority(
            Issuance {
                key,
                list: wanted(&list)?,
                certificate: wanted(&certificate)?,
            },
            Repository {
                base: wanted(&base)?,
                manifest: wanted(&manifest)?,
                notification: notification.as_ref(),
            },
        ),
        "ee" => CertKind::Object(
            Issuance {
                key,
                list: wanted(&list)?,
                certificate: wanted(&certificate)?,
            },
            wanted(&base)?,
        ),
        "detached" => CertKind::Detached(Issuance {
            key,
            list: wanted(&list)?,
            certificate: wanted(&certificate)?,
        }),
        _ => CertKind::Router(Issuance {
            key,
            list: wanted(&list)?,
            certificate: wanted(&certificate)?,
        }),
    };
    let extensions = CertExtensions {
        subject_key: subject.key_identifier(&Digests),
        kind,
        practices: practices.as_ref(),
        ip: held.ip.as_ref(),
        asn: held.asn.as_ref(),
    };
    match builder.to_sign(alloc, &extensions) {
        Ok(unsigned) => Ok(Planned { unsigned, issuer }),
        Err(e) => Err(refusal(e)),
    }
}

/// `KIND SERIAL FROM TO SUBJECT ISSUER LIST CERTIFICATE BASE MANIFEST NOTIFICATION PRACTICES V4 V6 AS SIGNATURE`: what
/// is to be signed where the signature is `_`, and else the certificate.
pub fn certificate(alloc: Global, kind: &str, words: &[&str]) -> Text {
    let [plan @ .., signature] = words else {
        return Err("usage");
    };
    let Planned { unsigned, issuer } = plan_of(alloc, kind, plan)?;
    if *signature == "_" {
        return digits(alloc, unsigned.message());
    }
    let signature = bytes_of(alloc, Some(signature))?;
    match unsigned.signed(alloc, &RsaProvider, &issuer, signature) {
        Ok(made) => digits(alloc, made.as_slice()),
        Err(e) => Err(refusal(e)),
    }
}
