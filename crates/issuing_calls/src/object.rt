//! Revocation lists, contents and signed objects.

use crate::signing::{Told, refusal, signing_refusal};
use crate::words::{
    Text, bytes_of, digits, key_of, name_of, octets_of, serial_of, time_of, written,
};
use bytes::Bytes;
use rpki::crypto::{PublicKey, RpkiSignatureAlgorithm};
use rpki::der::{Constructed, Oid};
use rpki::oid;
use rpki_contents::{
    AsProviderAttestation, FileAndHash, ManifestContent, MessageDigest, RoaIpAddress,
    RouteOriginAttestation, is_file_name,
};
use rpki_crl::{CrlEntry, CrlExtensions, TbsCertList};
use rpki_digests::{Digests, RsaProvider};
use rpki_issue::{UnsignedCrl, UnsignedObject};
use rpki_resources::{Address, Prefix};
use std::alloc::Global;
use std::net::IpAddr;

/// What is to be signed of a list: `NUMBER THIS NEXT`, and the entries, `SERIAL@DATE..`.
pub fn planned_list(
    alloc: Global,
    issuer: &PublicKey,
    words: &[&str],
    revoked: &[&str],
) -> Result<UnsignedCrl, &'static str> {
    let [number, this, next] = words else {
        return Err("usage");
    };
    let name = name_of(alloc, issuer)?;
    let mut entries = Vec::new(alloc);
    for entry in revoked {
        let mut parts = entry.split('@');
        let user_certificate = match serial_of(parts.next()) {
            Ok(serial) => serial,
            Err(e) => return Err(e),
        };
        let revocation_date = match time_of(parts.next()) {
            Ok(time) => time,
            Err(e) => return Err(e),
        };
        match entries.push(CrlEntry {
            user_certificate,
            revocation_date,
        }) {
            Ok(()) => {}
            Err(_) => return Err("no memory"),
        }
    }
    let crl_number = match serial_of(Some(number)) {
        Ok(serial) => serial,
        Err(e) => return Err(e),
    };
    let this_update = match time_of(Some(this)) {
        Ok(time) => time,
        Err(e) => return Err(e),
    };
    let next_update = match time_of(Some(next)) {
        Ok(time) => time,
        Err(e) => return Err(e),
    };
    let revoked_certs = if entries.is_empty() {
        None
    } else {
        Some(entries)
    };
    let list = TbsCertList {
        signature: RpkiSignatureAlgorithm::default(),
        issuer: name,
        this_update,
        next_update,
        revoked_certs,
        extensions: CrlExtensions {
            authority_key_identifier: issuer.key_identifier(&Digests),
            crl_number,
        },
    };
    match UnsignedCrl::new(alloc, list) {
        Ok(unsigned) => Ok(unsigned),
        Err(e) => Err(refusal(e)),
    }
}

/// `crl ISSUER NUMBER THIS NEXT SIGNATURE SERIAL@DATE..`: what is to be signed where the signature is `_`, and else the
/// list.
pub fn list(alloc: Global, words: &[&str]) -> Text {
    let [issuer, number, this, next, signature, revoked @ ..] = words else {
        return Err("usage");
    };
    let issuer = key_of(alloc, Some(issuer))?;
    let unsigned = planned_list(alloc, &issuer, &[number, this, next], revoked)?;
    if *signature == "_" {
        return digits(alloc, unsigned.message());
    }
    let signature = bytes_of(alloc, Some(signature))?;
    let mut signer = Told { signature };
    match unsigned.signed_with(alloc, &RsaProvider, &issuer, &mut signer) {
        Ok(made) => digits(alloc, made.as_slice()),
        Err(e) => Err(signing_refusal(e)),
    }
}

fn digest_of(alloc: Global, text: Option<&str>) -> Result<MessageDigest, &'static str> {
    let octets = octets_of(alloc, text)?;
    match <[u8; 32]>::try_from(octets.as_slice()) {
        Ok(octets) => Ok(MessageDigest::from_array(octets)),
        Err(_) => Err("no digest"),
    }
}

/// `mft NUMBER THIS NEXT NAME=DIGEST..`
pub fn manifest(alloc: Global, words: &[&str]) -> Text {
    let [number, this, next, listed @ ..] = words else {
        return Err("usage");
    };
    let mut files = Vec::new(alloc);
    for file in listed {
        let mut parts = file.split('=');
        let name = parts.next().unwrap_or("");
        let digest = match digest_of(alloc, parts.next()) {
            Ok(digest) => digest,
            Err(e) => return Err(e),
        };
        if !is_file_name(name.as_bytes()) {
            return Err("no name of a file");
        }
        let name = match Bytes::copy_from_slice(alloc, name.as_bytes()) {
            Ok(name) => name,
            Err(_) => return Err("no memory"),
        };
        match files.push(FileAndHash::new(name, digest)) {
            Ok(()) => {}
            Err(_) => return Err("no memory"),
        }
    }
    let number = match serial_of(Some(number)) {
        Ok(serial) => serial,
        Err(e) => return Err(e),
    };
    let this = match time_of(Some(this)) {
        Ok(time) => time,
        Err(e) => return Err(e),
    };
    let next = match time_of(Some(next)) {
        Ok(time) => time,
        Err(e) => return Err(e),
    };
    let content = match ManifestContent::new(alloc, number, this, next, files) {
        Ok(content) => content,
        Err(_) => return Err("no manifest"),
    };
    match content.encode() {
        Some(encoder) => written(alloc, &encoder),
        None => Err("no such manifest"),
    }
}

fn address_of(text: &str) -> Result<RoaIpAddress, &'static str> {
    let mut parts = text.split('-');
    let prefix = match parts.next().unwrap_or("").parse::<Prefix>() {
        Ok(prefix) => prefix,
        Err(_) => return Err("no prefix"),
    };
    let max_length = match parts.next() {
        None => None,
        Some(text) => match text.parse::<u8>() {
            Ok(most) => Some(most),
            Err(_) => return Err("no maximum length"),
        },
    };
    let (number, width) = match prefix.addr {
        IpAddr::V4(addr) => (u128::from(u32::from(addr)), 32u8),
        IpAddr::V6(addr) => (u128::from(addr), 128u8),
    };
    let missing = width.saturating_sub(prefix.len);
    let number = if missing >= 128 { 0 } else { number >> missing };
    Ok(RoaIpAddress {
        prefix: Address {
            number,
            size: prefix.len,
        },
        max_length,
    })
}

fn addresses_of(alloc: Global, text: &str) -> Result<Vec<RoaIpAddress>, &'static str> {
    let mut found = Vec::new(alloc);
    if text == "_" {
        return Ok(found);
    }
    for one in text.split(',') {
        let address = match address_of(one) {
            Ok(address) => address,
            Err(e) => return Err(e),
        };
        match found.push(address) {
            Ok(()) => {}
            Err(_) => return Err("no memory"),
        }
    }
    Ok(found)
}

fn number_of(text: &str) -> Result<u32, &'static str> {
    match text.parse::<u32>() {
        Ok(number) => Ok(number),
        Err(_) => Err("no AS number"),
    }
}

/// `roa AS V4 V6`
pub fn roa(alloc: Global, words: &[&str]) -> Text {
    let [number, v4, v6] = words else {
        return Err("usage");
    };
    let number = number_of(number)?;
    let v4 = addresses_of(alloc, v4)?;
    let v6 = addresses_of(alloc, v6)?;
    match RouteOriginAttestation::new(number, v4, v6) {
        Some(roa) => written(alloc, &roa.encode_ref()),
        None => Err("no such attestation"),
    }
}

/// `aspa CUSTOMER PROVIDER..`
pub fn aspa(alloc: Global, words: &[&str]) -> Text {
    let [customer, listed @ ..] = words else {
        return Err("usage");
    };
    let customer = number_of(customer)?;
    let mut providers = Vec::new(alloc);
    for text in listed {
        let number = match number_of(text) {
            Ok(number) => number,
            Err(e) => return Err(e),
        };
        match providers.push(number) {
            Ok(()) => {}
            Err(_) => return Err("no memory"),
        }
    }
    match AsProviderAttestation::new(customer, providers) {
        Some(aspa) => written(alloc, &aspa.encode_ref()),
        None => Err("no such attestation"),
    }
}

pub fn type_of(text: &str) -> Result<&'static [u8], &'static str> {
    match text {
        "mft" => Ok(oid::CT_RPKI_MANIFEST.0),
        "roa" => Ok(oid::ROUTE_ORIGIN_AUTHZ.0),
        "asa" => Ok(oid::CT_ASPA.0),
        _ => Err("no type"),
    }
}

/// `object TYPE CONTENT TIME`: what is to be signed. `object TYPE CONTENT TIME CERTIFICATE SIGNATURE`: the object.
pub fn object(alloc: Global, words: &[&str]) -> Text {
    let [kind, content, time, others @ ..] = words else {
        return Err("usage");
    };
    let kind = type_of(kind)?;
    let content = octets_of(alloc, Some(content))?;
    let time = match time_of(Some(time)) {
        Ok(time) => time,
        Err(e) => return Err(e),
    };
    let made = UnsignedObject::new(alloc, &Digests, Oid(kind), content.as_slice(), time);
    let unsigned = match made {
        Ok(unsigned) => unsigned,
        Err(e) => return Err(refusal(e)),
    };
    let [certificate, signature] = others else {
        return digits(alloc, unsigned.message());
    };
    let certificate = octets_of(alloc, Some(certificate))?;
    let captured = match Constructed::from_slice(certificate.as_slice()).capture_one(alloc) {
        Ok(captured) => captured,
        Err(_) => return Err("no value"),
    };
    let signature = bytes_of(alloc, Some(signature))?;
    match unsigned.signed(alloc, &RsaProvider, &captured, signature) {
        Ok(made) => digits(alloc, made.as_slice()),
        Err(e) => Err(refusal(e)),
    }
}
