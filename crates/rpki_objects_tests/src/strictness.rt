//! Which route origins are read at which strictness.

use crate::objects::origins::ORIGIN;
use crate::written::{certificate, object};
use bytes::Bytes;
use rpki::repository::x509::Time;
use rpki_der_tests::hexadecimal::octets_of;
use rpki_der_tests::kinds::{Outcome, outcome_of};
use rpki_der_tests::rows;
use rpki_objects::{KnownAttributes, Roa, SignedObjectParts, SignedObjectView, Strictness};
use std::alloc::{AllocError, Global};
use std::test::Fail;

/// AS 64496, and a prefix of each family, that of IP version 4 first (RFC 9582 4).
const IN_ORDER: &str =
    "3027020300fbf03020300d04020001300730050303030a40300f040200023009300703050020010db8";
/// The same with IP version 6 in front.
const TURNED: &str =
    "3027020300fbf03020300f040200023009300703050020010db8300d04020001300730050303030a40";

/// The strictness of these words.
fn of(names: bool, attributes: bool, families: bool) -> Strictness {
    Strictness {
        names,
        attributes,
        families,
    }
}

/// A name; the content; whether there is a signing time; the words of the strictness, in order; and what comes of it.
const ROWS: &[(&str, &str, bool, (bool, bool, bool), Outcome)] = &rows! {
    ("in order, all", IN_ORDER, true, (true, true, true), Outcome::Read),
    ("IP version 6 in front, none", TURNED, true, (false, false, false), Outcome::Read),
    ("IP version 6 in front, names and attributes", TURNED, true, (true, true, false), Outcome::Read),
    ("IP version 6 in front, families", TURNED, true, (false, false, true), Outcome::Content),
    ("no signing time, none", IN_ORDER, false, (false, false, false), Outcome::Read),
    ("no signing time, names and families", IN_ORDER, false, (true, false, true), Outcome::Read),
    ("no signing time, attributes", IN_ORDER, false, (false, true, false), Outcome::Content),
};

/// The signing time, where there is one.
fn kept(time: Option<Time>, timed: bool) -> Option<Time> {
    if timed { time } else { None }
}

/// The object of openssl with this content, and with its signing time or without.
fn origin(alloc: Global, content: &str, timed: bool) -> Result<Option<Bytes>, AllocError> {
    let octets = octets_of(alloc, ORIGIN)?;
    let content = octets_of(alloc, content)?;
    let Ok(view) = SignedObjectView::read(octets.as_slice(), true) else {
        return Ok(None);
    };
    let Some(certificate) = certificate(alloc, octets.as_slice())? else {
        return Ok(None);
    };
    let values = view.signer.signed_attrs.values;
    object(
        alloc,
        &SignedObjectParts {
            attributes: KnownAttributes {
                content_type: values.content_type,
                message_digest: values.message_digest,
                signing_time: kept(values.signing_time, timed),
                binary_signing_time: None,
            },
            content: content.as_slice(),
            certificate: &certificate,
            signer_identifier: view.signer.identifier,
            signature: view.signer.signature.octets,
        },
    )
}

#[test]
fn origins_are_read_as_strictly_as_is_asked(rt: HostRuntime) -> Result<(), Fail> {
    for (name, content, timed, (names, attributes, families), wanted) in ROWS {
        let octets = origin(rt.alloc(), content, *timed)?.ok_or("not written")?;
        let strictness = of(*names, *attributes, *families);
        let found = outcome_of(Roa::decode(rt.alloc(), octets, strictness));
        assert_eq!(rt; found, *wanted, "{name}");
    }
    Ok(())
}

#[test]
fn none_is_asked_by_default(rt: HostRuntime) -> Result<(), Fail> {
    let none = Strictness::default();
    let all = Strictness::all();
    assert_eq!(rt; [none.names, none.attributes, none.families], [false; 3]);
    assert_eq!(rt; [all.names, all.attributes, all.families], [true; 3]);
    Ok(())
}
