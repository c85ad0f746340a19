//! What is tested of objects: each rule is broken once.

use crate::trust::{cert, list, octets, terms_of, text_of};
use bytes::Bytes;
use rpki::der::DecodeError;
use rpki::repository::error::ValidationError;
use rpki::repository::x509::Time;
use rpki_cert::Cert;
use rpki_cert_tests::provider::Told;
use rpki_contents::{FileAndHash, MessageDigest, is_file_name};
use rpki_crl::Crl;
use rpki_der_tests::hexadecimal::octets_of;
use rpki_der_tests::rows;
use rpki_objects::{Aspa, Manifest, Roa, Strictness};
use rpki_objects_tests::objects::authority::{ANCHOR, LIST};
use rpki_objects_tests::objects::{manifests, origins, providers};
use rpki_valid::{CurrentCrl, ResourceCert, ResourceSet, Staleness, verify_file, verify_time};
use std::alloc::{AllocError, Global};
use std::test::Fail;

/// The types of objects.
#[derive(Clone, Copy, Debug, PartialEq, Eq)]
enum Kind {
    Manifest,
    Origin,
    Providers,
}

/// A month, a day and an hour of 2026.
type Moment = (u32, u32, u32);

/// The middle of March.
const MARCH: Moment = (3, 15, 0);

/// A name, an object, the moment, whether the list is handed in, and what comes of it: `valid`, or the text of the
/// error.
type Row = (&'static str, Kind, &'static str, Moment, bool, &'static str);

const ROWS: &[Row] = &rows! {
    ("manifest", Kind::Manifest, manifests::MANIFEST, MARCH, true, "valid"),
    ("manifest at its first second", Kind::Manifest, manifests::MANIFEST, (3, 1, 0), true, "valid"),
    ("manifest at its last second", Kind::Manifest, manifests::MANIFEST, (4, 1, 0), false, "valid"),
    ("manifest before it was issued", Kind::Manifest, manifests::MANIFEST, (2, 28, 23), true,
     "RFC 9286 6.3: manifest issued later"),
    ("manifest after the next was due", Kind::Manifest, manifests::MANIFEST, (4, 1, 1), true,
     "RFC 9286 6.3: stale manifest"),
    ("manifest that lists addresses", Kind::Manifest, manifests::LISTS_ADDRESSES, MARCH, true,
     "RFC 9286 5.1: resources that are not inherited"),
    ("manifest that lists numbers", Kind::Manifest, manifests::LISTS_NUMBERS, MARCH, true,
     "RFC 9286 5.1: resources that are not inherited"),
    ("resources before times", Kind::Manifest, manifests::LISTS_NUMBERS, (4, 1, 1), true,
     "RFC 9286 5.1: resources that are not inherited"),
    ("origin", Kind::Origin, origins::ORIGIN, MARCH, true, "valid"),
    ("origin that is revoked", Kind::Origin, origins::REVOKED, MARCH, true, "RFC 6487 7.2: revoked certificate"),
    ("origin without a list", Kind::Origin, origins::REVOKED, MARCH, false, "valid"),
    ("prefix outside", Kind::Origin, origins::OUTSIDE, MARCH, true, "RFC 9582 5: prefix outside of the resources"),
    ("origin that inherits", Kind::Origin, origins::INHERITS, MARCH, true, "RFC 9582 5: inherited addresses"),
    ("origin beside numbers", Kind::Origin, origins::BESIDE_NUMBERS, MARCH, true,
     "RFC 9582 5: AS numbers beside prefixes"),
    ("origin without addresses", Kind::Origin, origins::WITHOUT_ADDRESSES, MARCH, true, "RFC 9582 5: no addresses"),
    ("providers", Kind::Providers, providers::ASPA, MARCH, true, "valid"),
    ("customer outside", Kind::Providers, providers::OUTSIDE, MARCH, true,
     "draft-ietf-sidrops-aspa-profile 4: customer outside of the resources"),
    ("providers that inherit", Kind::Providers, providers::INHERITS, MARCH, true,
     "draft-ietf-sidrops-aspa-profile 4: inherited AS numbers"),
    ("providers beside addresses", Kind::Providers, providers::BESIDE_ADDRESSES, MARCH, true,
     "draft-ietf-sidrops-aspa-profile 4: addresses beside AS numbers"),
    ("providers without numbers", Kind::Providers, providers::WITHOUT_NUMBERS, MARCH, true,
     "draft-ietf-sidrops-aspa-profile 4: no AS numbers"),
};

/// The moment.
fn time_of(moment: Moment) -> Option<Time> {
    Time::utc(2026, moment.0, moment.1, moment.2, 0, 0)
}

/// An object of a type.
#[derive(Drop)]
enum Object {
    Manifest(Manifest),
    Origin(Roa),
    Providers(Aspa),
}

/// The object of this type that octets are.
fn object_of(alloc: Global, kind: Kind, octets: Bytes) -> Result<Object, DecodeError> {
    match kind {
        Kind::Manifest => Ok(Object::Manifest(Manifest::decode(alloc, octets, true)?)),
        Kind::Origin => Ok(Object::Origin(Roa::decode(alloc, octets, Strictness::all())?)),
        Kind::Providers => Ok(Object::Providers(Aspa::decode(alloc, octets, true)?)),
    }
}

/// What is tested of an object by the list.
fn listed(
    alloc: Global,
    object: &Object,
    current: &CurrentCrl<'_, '_, Told>,
) -> Result<ResourceSet, ValidationError> {
    match object {
        Object::Manifest(manifest) => current.process_manifest(alloc, manifest),
        Object::Origin(roa) => current.process_roa(alloc, roa),
        Object::Providers(aspa) => current.process_aspa(alloc, aspa),
    }
}

/// What is tested of an object without a list.
fn unlisted(
    alloc: Global,
    object: &Object,
    issuer: &ResourceCert<'_, Told>,
    at: Time,
) -> Result<ResourceSet, ValidationError> {
    let object = match object {
        Object::Manifest(manifest) => manifest.object(),
        Object::Origin(roa) => roa.object(),
        Object::Providers(aspa) => aspa.object(),
    };
    issuer.verify_object_without_list(alloc, object, at)
}

/// What is tested of the octets of an object of this type.
fn processed(
    alloc: Global,
    kind: Kind,
    octets: Bytes,
    trusted: &Cert,
    at: Time,
    list: Option<&Crl>,
) -> Result<ResourceSet, ValidationError> {
    let provider = Told { answer: true };
    let terms = terms_of(trusted, 8);
    let anchor = cert(alloc, ANCHOR)?;
    let issuer = ResourceCert::verify_ta(alloc, anchor, &provider, terms, at)?;
    let object = object_of(alloc, kind, octets)?;
    match list {
        Some(list) => listed(alloc, &object, &issuer.crl(list, Staleness::Refused, at)?),
        None => unlisted(alloc, &object, &issuer, at),
    }
}

#[test]
fn each_rule_is_asked(rt: HostRuntime) -> Result<(), Fail> {
    let trusted = cert(rt.alloc(), ANCHOR)?;
    let list = list(rt.alloc(), LIST)?;
    for (name, kind, text, moment, is_listed, wanted) in ROWS {
        let at = time_of(*moment).ok_or(*name)?;
        let octets = octets(rt.alloc(), text)?;
        let list = if *is_listed { Some(&list) } else { None };
        let found = processed(rt.alloc(), *kind, octets, &trusted, at, list);
        let told = text_of(rt.alloc(), found)?;
        assert_eq!(rt; told.as_str(), *wanted, "{name}");
    }
    Ok(())
}

/// A month, a day and an hour of 2026; and, where the manifest doesn't hold then, whether it is too new.
const TIMES: &[(Moment, Option<bool>)] = &[
    ((2, 28, 23), Some(true)),
    ((3, 1, 0), None),
    (MARCH, None),
    ((4, 1, 0), None),
    ((4, 1, 1), Some(false)),
];

#[test]
fn manifests_hold_between_their_updates(rt: HostRuntime) -> Result<(), Fail> {
    let manifest = Manifest::decode(rt.alloc(), octets(rt.alloc(), manifests::MANIFEST)?, true)?;
    for (moment, wanted) in TIMES {
        let at = time_of(*moment).ok_or("no such moment")?;
        let found = verify_time(manifest.content(), at)
            .err()
            .map(|e| e.is_too_new());
        assert_eq!(rt; found, *wanted, "{} {}", moment.0, moment.1);
    }
    Ok(())
}

/// The digest of `abc` (FIPS 180-4).
const DIGEST: &str = "ba7816bf8f01cfea414140de5dae2223b00361a396177a9cb410ff61f20015ad";

/// Octets, and whether they have this digest.
const DIGESTED: &[(&[u8], bool)] = &[(b"abc", true), (b"abd", false), (b"", false)];

/// A file of this digest.
fn file(alloc: Global) -> Result<Option<FileAndHash>, AllocError> {
    let mut hash = [0; 32];
    let octets = octets_of(alloc, DIGEST)?;
    for (to, from) in hash.iter_mut().zip(octets.as_slice()) {
        *to = *from;
    }
    let name = Bytes::from_static(b"abc.cer");
    if !is_file_name(name.as_slice()) {
        return Ok(None);
    }
    Ok(Some(FileAndHash::new(name, MessageDigest::from_array(hash))))
}

#[test]
fn files_have_their_digests(rt: HostRuntime) -> Result<(), Fail> {
    let provider = Told { answer: true };
    for (octets, wanted) in DIGESTED {
        let found = match file(rt.alloc())? {
            Some(file) => verify_file(&file, &provider, octets) == *wanted,
            None => false,
        };
        assert!(rt; found, "{}", octets.len());
    }
    Ok(())
}
