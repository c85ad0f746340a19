//! Each object is read as one of its type alone.

use crate::objects::authority::ANCHOR;
use crate::objects::{manifests, origins, providers};
use bytes::Bytes;
use rpki_der_tests::hexadecimal::octets_of;
use rpki_der_tests::kinds::{Outcome, outcome_of};
use rpki_der_tests::rows;
use rpki_objects::{Aspa, Manifest, Roa, Strictness};
use std::alloc::{AllocError, Global};
use std::test::Fail;

/// The types of objects.
#[derive(Clone, Copy, Debug, PartialEq, Eq)]
enum Kind {
    Manifest,
    Origin,
    Providers,
}

/// The octets of an object.
fn octets(alloc: Global, text: &str) -> Result<Bytes, AllocError> {
    Bytes::copy_from_slice(alloc, octets_of(alloc, text)?.as_slice())
}

/// A name, octets, and what comes of reading them as an object of this type.
const READ: &[(&str, Kind, &str, Outcome)] = &rows! {
    ("manifest", Kind::Manifest, manifests::MANIFEST, Outcome::Read),
    ("manifest as an origin", Kind::Origin, manifests::MANIFEST, Outcome::Content),
    ("manifest as providers", Kind::Providers, manifests::MANIFEST, Outcome::Content),
    ("origin as a manifest", Kind::Manifest, origins::ORIGIN, Outcome::Content),
    ("origin as providers", Kind::Providers, origins::ORIGIN, Outcome::Content),
    ("providers as a manifest", Kind::Manifest, providers::ASPA, Outcome::Content),
    ("providers as an origin", Kind::Origin, providers::ASPA, Outcome::Content),
    ("a certificate as a manifest", Kind::Manifest, ANCHOR, Outcome::Unexpected),
};

/// How octets are read as an object of this type.
fn read(alloc: Global, kind: Kind, octets: Bytes) -> Outcome {
    match kind {
        Kind::Manifest => outcome_of(Manifest::decode(alloc, octets, true)),
        Kind::Origin => outcome_of(Roa::decode(alloc, octets, Strictness::all())),
        Kind::Providers => outcome_of(Aspa::decode(alloc, octets, true)),
    }
}

#[test]
fn each_type_is_its_own(rt: HostRuntime) -> Result<(), Fail> {
    for (name, kind, text, outcome) in READ {
        let found = read(rt.alloc(), *kind, octets(rt.alloc(), text)?);
        assert_eq!(rt; found, *outcome, "{name}");
    }
    Ok(())
}
