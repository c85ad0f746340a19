//! The layer as its users call it: verify signed data, write an algorithm type and a provider of one's own, read a
//! SEQUENCE of one's own, one with a context tag and a list, and one with an optional part in place, join URIs.
//! docs/CALLING.md quotes these files.
#![tactic(auto)]

mod named_digest;
mod number_list;
mod own_algorithm;
mod own_provider;
mod revoked;
mod uris;
mod verification;

use crate::named_digest::NamedDigest;
use crate::number_list::NumberList;
use crate::own_algorithm::OwnAlgorithm;
use crate::own_provider::OneSignature;
use crate::revoked::RevokedCertificate;
use crate::uris::beside;
use crate::verification::verified;
use anyhow::{Result, bail};
use bytes::Bytes;
use rpki::crypto::{PublicKey, RpkiSignatureAlgorithm};
use rpki::der::{Constructed, DecodeError};
use rpki::uri::{Error, Rsync};
use std::alloc::Global;

/// An RSA key with the bits `61 62 63`.
const KEY: &[u8] =
    b"\x30\x15\x30\x0D\x06\x09\x2A\x86\x48\x86\xF7\x0D\x01\x01\x01\x05\x00\x03\x04\x00\x61\x62\x63";

/// An empty SEQUENCE, signed by sha256WithRSAEncryption with the octet AA.
const SIGNED: &[u8] =
    b"\x30\x15\x30\x00\x30\x0D\x06\x09\x2A\x86\x48\x86\xF7\x0D\x01\x01\x0B\x05\x00\x03\x02\x00\xAA";

/// The same, signed by the algorithm 2.999.
const SIGNED_BY_OWN: &[u8] = b"\x30\x0C\x30\x00\x30\x04\x06\x02\x88\x37\x03\x02\x00\xAA";

/// The serial number 127 and the time 2024-02-29 12:00:00.
const REVOKED: &[u8] = b"\x30\x12\x02\x01\x7F\x17\x0D240229120000Z";

/// Version 1 for the purpose 2.999, with the numbers 64496 and 64497.
const NUMBERS: &[u8] =
    b"\x30\x15\xA0\x03\x02\x01\x01\x06\x02\x88\x37\x30\x0A\x02\x03\x00\xFB\xF0\x02\x03\x00\xFB\xF1";

/// The name `a.roa`, and a digest of 32 zeros.
const NAMED: &[u8] =
    b"\x30\x29\x16\x05a.roa\x04\x20\x00\x00\x00\x00\x00\x00\x00\x00\x00\x00\x00\x00\x00\x00\x00\x00\
    \x00\x00\x00\x00\x00\x00\x00\x00\x00\x00\x00\x00\x00\x00\x00\x00";

/// Whether the key that the octets are has signed both.
fn both_verified(alloc: Global) -> Result<bool, DecodeError> {
    let key = PublicKey::decode(alloc, Bytes::from_static(KEY))?;
    let provider = OneSignature {
        bits: b"abc",
        message: b"\x30\x00",
        signature: b"\xAA",
    };
    let first = verified::<_, RpkiSignatureAlgorithm>(
        alloc,
        &provider,
        &key,
        Bytes::from_static(SIGNED),
    );
    let second = verified::<_, OwnAlgorithm>(
        alloc,
        &provider,
        &key,
        Bytes::from_static(SIGNED_BY_OWN),
    );
    Ok(first.is_ok() && second.is_ok())
}

/// The year in which the certificate of the entry was revoked.
fn year_of_revocation() -> Result<i32, DecodeError> {
    let octets = Bytes::from_static(REVOKED);
    let mut cons = Constructed::new(&octets);
    match RevokedCertificate::take_from(&mut cons) {
        Ok(entry) => Ok(entry.date.year()),
        Err(e) => Err(e),
    }
}

/// The version of a list, and the greatest of its numbers.
fn greatest_number(alloc: Global) -> Result<(u8, Option<u64>), DecodeError> {
    let octets = Bytes::from_static(NUMBERS);
    let mut cons = Constructed::new(&octets);
    let list = NumberList::take_from(alloc, &mut cons)?;
    Ok((list.version, list.numbers.iter().copied().max()))
}

/// The name of a digest, if it has one.
fn name_of_digest() -> Result<Option<&'static str>, DecodeError> {
    let mut cons = Constructed::from_slice(NAMED);
    let digest = NamedDigest::take_from(&mut cons)?;
    match digest.name {
        Some(name) => Ok(Some(name.as_str())),
        None => Ok(None),
    }
}

/// The URI of an object beside a manifest.
fn object(alloc: Global) -> Result<Option<Rsync>, Error> {
    let manifest = Rsync::from_str(alloc, "rsync://host/module/ca/ca.mft")?;
    beside(alloc, &manifest, b"ca.crl")
}

fn main(rt: HostRuntime) -> Result<()> {
    match both_verified(rt.alloc()) {
        Ok(verified) => println!(rt; "verified: {verified}")?,
        Err(e) => bail!("refused {}", e.number()),
    }
    match year_of_revocation() {
        Ok(year) => println!(rt; "revoked in {year}")?,
        Err(e) => bail!("refused {}", e.number()),
    }
    match greatest_number(rt.alloc()) {
        Ok((version, Some(number))) => println!(rt; "version {version}, up to {number}")?,
        Ok((_, None)) => bail!("the list is empty"),
        Err(e) => bail!("refused {}", e.number()),
    }
    match name_of_digest() {
        Ok(Some(name)) => println!(rt; "digest of {name}")?,
        Ok(None) => bail!("no name"),
        Err(e) => bail!("refused {}", e.number()),
    }
    match object(rt.alloc())? {
        Some(uri) => println!(rt; "{uri}")?,
        None => bail!("the manifest has no directory"),
    }
    Ok(())
}
