//! The words of a line: octets in hexadecimal digits, keys, times, URIs and resources; `_` where there is none.

use bytes::Bytes;
use rpki::crypto::PublicKey;
use rpki::der::{Captured, Values};
use rpki::repository::x509::{NameOctets, Serial, Time, Validity};
use rpki::uri::{Https, Rsync};
use rpki_digests::Digests;
use rpki_resources::{
    AddressFamily, AsResources, Blocks, IpResources, ResourceKind, ResourcesChoice,
};
use std::alloc::Global;

/// An answer, or why there is none.
pub type Text = Result<String, &'static str>;

/// The octets that hexadecimal digits spell.
pub fn octets_of(alloc: Global, text: Option<&str>) -> Result<Vec<u8>, &'static str> {
    match hex::decode(alloc, text.unwrap_or("")) {
        Ok(octets) => Ok(octets),
        Err(_) => Err("no digits"),
    }
}

pub fn bytes_of(alloc: Global, text: Option<&str>) -> Result<Bytes, &'static str> {
    let octets = octets_of(alloc, text)?;
    match Bytes::from_vec(octets) {
        Ok(bytes) => Ok(bytes),
        Err(_) => Err("no memory"),
    }
}

pub fn digits(alloc: Global, octets: &[u8]) -> Text {
    match hex::encode(alloc, octets) {
        Ok(text) => Ok(text),
        Err(_) => Err("no memory"),
    }
}

pub fn captured<V: Values>(alloc: Global, values: &V) -> Result<Captured, &'static str> {
    if !values.fits() {
        return Err("too long");
    }
    match Captured::from_values(alloc, values) {
        Ok(captured) => Ok(captured),
        Err(_) => Err("no memory"),
    }
}

pub fn written<V: Values>(alloc: Global, values: &V) -> Text {
    let captured = captured(alloc, values)?;
    digits(alloc, captured.as_slice())
}

pub fn key_of(alloc: Global, text: Option<&str>) -> Result<PublicKey, &'static str> {
    let octets = bytes_of(alloc, text)?;
    match PublicKey::decode(alloc, octets) {
        Ok(key) => Ok(key),
        Err(_) => Err("no key"),
    }
}

pub fn name_of(alloc: Global, key: &PublicKey) -> Result<NameOctets, &'static str> {
    let captured = captured(alloc, &key.encode_subject_name(&Digests))?;
    match NameOctets::take_from(alloc, &mut captured.cursor()) {
        Ok(name) => Ok(name),
        Err(_) => Err("no name"),
    }
}

pub fn serial_of(text: Option<&str>) -> Result<Serial, &'static str> {
    match text.unwrap_or("").parse::<Serial>() {
        Ok(serial) => Ok(serial),
        Err(_) => Err("no number"),
    }
}

pub fn time_of(text: Option<&str>) -> Result<Time, &'static str> {
    match text.unwrap_or("").parse::<Time>() {
        Ok(time) => Ok(time),
        Err(_) => Err("no time"),
    }
}

/// An rsync URI, or none.
pub fn rsync_of(alloc: Global, text: &str) -> Result<Option<Rsync>, &'static str> {
    if text == "_" {
        return Ok(None);
    }
    match Rsync::from_str(alloc, text) {
        Ok(uri) => Ok(Some(uri)),
        Err(_) => Err("no rsync URI"),
    }
}

/// The URI that a kind wants.
pub fn wanted(uri: &Option<Rsync>) -> Result<&Rsync, &'static str> {
    match uri {
        Some(uri) => Ok(uri),
        None => Err("a URI is missing"),
    }
}

pub fn https_of(alloc: Global, text: Option<&str>) -> Result<Option<Https>, &'static str> {
    let text = text.unwrap_or("");
    if text == "_" {
        return Ok(None);
    }
    match Https::from_str(alloc, text) {
        Ok(uri) => Ok(Some(uri)),
        Err(_) => Err("no https URI"),
    }
}

pub fn choice_of(
    alloc: Global,
    kind: ResourceKind,
    text: Option<&str>,
) -> Result<ResourcesChoice, &'static str> {
    let text = text.unwrap_or("");
    if text == "_" {
        return Ok(ResourcesChoice::Missing);
    }
    if text == "inherit" {
        return Ok(ResourcesChoice::Inherit);
    }
    match Blocks::from_text(alloc, kind, text) {
        Ok(blocks) => Ok(ResourcesChoice::Blocks(blocks)),
        Err(_) => Err("no resources"),
    }
}

/// Both kinds of resources.
#[derive(Drop)]
pub struct Held {
    pub ip: Option<IpResources>,
    pub asn: Option<AsResources>,
}

pub fn held_of(
    alloc: Global,
    v4: Option<&str>,
    v6: Option<&str>,
    asn: Option<&str>,
) -> Result<Held, &'static str> {
    let no_addresses = v4 == Some("_") && v6 == Some("_");
    let no_numbers = asn == Some("_");
    let v4 = choice_of(alloc, ResourceKind::Addresses(AddressFamily::Ipv4), v4)?;
    let v6 = choice_of(alloc, ResourceKind::Addresses(AddressFamily::Ipv6), v6)?;
    let numbers = choice_of(alloc, ResourceKind::AsNumbers, asn)?;
    let ip = if no_addresses {
        None
    } else {
        Some(IpResources { v4, v6 })
    };
    let asn = if no_numbers {
        None
    } else {
        Some(AsResources { numbers })
    };
    Ok(Held { ip, asn })
}

pub fn period_of(from: Option<&str>, to: Option<&str>) -> Result<Validity, &'static str> {
    let from = match time_of(from) {
        Ok(time) => time,
        Err(e) => return Err(e),
    };
    let to = match time_of(to) {
        Ok(time) => time,
        Err(e) => return Err(e),
    };
    Ok(Validity::new(from, to))
}
